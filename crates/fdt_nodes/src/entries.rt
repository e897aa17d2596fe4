// Lists of entries of addresses and sizes.
ghost use Rattle.std.specs.Prelude.{◌≡◌, ◌⊎◌, ◌≤◌, ◌+◌, ◌*◌, length, IfErr, IfOk, IsTrue, OnOk, true, false};
ghost use Rattle.fdt_nodes.specs.Entries.{after_cells, device_window, device_windows, first_number, is_whole, region, region_cells, regions, shared_window, shared_windows, window_cells};

use fdt_tree::{u32_of, u64_of};
use std::alloc::{AllocError, Global};
use texts::{BaseSize, List};

/// A range of host addresses that a guest sees at addresses of its own.
#[derive(Clone, Copy, Debug, PartialEq, Eq, PartialOrd, Ord, Hash)]
pub struct Window {
    /// The first host address.
    pub host: u64,
    /// The guest address that it is seen at.
    pub guest: u64,
    /// How many bytes there are.
    pub size: u64,
}

/// Why a list of entries was not read.
#[derive(Debug, Drop, PartialEq, Eq)]
pub enum EntriesFault {
    /// The bytes are not whole entries.
    Length,
    /// No memory was left.
    Memory,
}

// How many bytes so many cells have.
fn bytes_of(count: u32) -> usize
    requires { count ≤ 6 }
    ensures { result ≡ 4 * count }
{
    4 * count as usize
}

// The number that the first one or two cells of some bytes spell.
fn first_number(bytes: &[u8], count: u32) -> u64
    requires count { (1 ≤ count) × (count ≤ 2) }
    requires there { 4 * count ≤ length bytes.now }
    ensures { result ≡ first_number count bytes.now }
{
    if count == 1 {
        match u32_of(&bytes[..4]) {
            Ok(number) => u64::from(number),
            Err(_) => 0,
        }
    } else {
        match u64_of(&bytes[..8]) {
            Ok(number) => number,
            Err(_) => 0,
        }
    }
}

// The number that one or two cells spell after so many others.
fn number_after(bytes: &[u8], before: u32, count: u32) -> u64
    requires before { before ≤ 4 }
    requires count { (1 ≤ count) × (count ≤ 2) }
    requires there { 4 * (before + count) ≤ length bytes.now }
    ensures { result ≡ first_number count (after_cells before bytes.now) }
{
    first_number(&bytes[bytes_of(before)..], count)
}

/// The address and the size that an entry is.
pub fn region(entry: &[u8], cells: (u32, u32)) -> BaseSize
    requires address { (1 ≤ cells.0) × (cells.0 ≤ 2) }
    requires size { (1 ≤ cells.1) × (cells.1 ≤ 2) }
    requires there { 4 * (cells.0 + cells.1) ≤ length entry.now }
    ensures { result ≡ region cells entry.now }
{
    BaseSize {
        base: first_number(entry, cells.0),
        size: number_after(entry, cells.0, cells.1),
    }
}

/// The host address, the size and the guest address that an entry is.
pub fn device_window(entry: &[u8], cells: (u32, u32)) -> Window
    requires address { (1 ≤ cells.0) × (cells.0 ≤ 2) }
    requires size { (1 ≤ cells.1) × (cells.1 ≤ 2) }
    requires there { 4 * (cells.0 + cells.0 + cells.1) ≤ length entry.now }
    ensures { result ≡ device_window cells entry.now }
{
    Window {
        host: first_number(entry, cells.0),
        size: number_after(entry, cells.0, cells.1),
        guest: number_after(entry, cells.0 + cells.1, cells.0),
    }
}

/// The host address, the guest address and the size that an entry is.
pub fn shared_window(entry: &[u8], cells: (u32, u32)) -> Window
    requires address { (1 ≤ cells.0) × (cells.0 ≤ 2) }
    requires size { (1 ≤ cells.1) × (cells.1 ≤ 2) }
    requires there { 4 * (cells.0 + cells.0 + cells.1) ≤ length entry.now }
    ensures { result ≡ shared_window cells entry.now }
{
    Window {
        host: first_number(entry, cells.0),
        guest: number_after(entry, cells.0, cells.0),
        size: number_after(entry, cells.0 + cells.0, cells.1),
    }
}

/// The entries of a list of addresses and sizes in so many cells each, as `reg` (Devicetree Specification 0.4, 2.3.6).
pub fn regions(
    alloc: Global,
    bytes: &[u8],
    cells: (u32, u32),
) -> Result<List<BaseSize>, EntriesFault>
    requires address { (1 ≤ cells.0) × (cells.0 ≤ 2) }
    requires size { (1 ≤ cells.1) × (cells.1 ≤ 2) }
    ensures ok { IfOk result (λ found. found ≡ regions cells bytes.now) }
    ensures whole { OnOk result (is_whole (region_cells cells) bytes.now ≡ true) }
    ensures length { IfErr result (λ e. (e ≡ EntriesFault.Memory) ⊎ ((e ≡ EntriesFault.Length) × (is_whole (region_cells cells) bytes.now ≡ false))) }
{
    let size = bytes_of(cells.0 + cells.1);
    if bytes.len() % size != 0 {
        return Err(EntriesFault::Length);
    }
    let mut found = List::new(alloc);
    let mut rest = bytes;
    while rest.len() >= size {
        let (entry, later) = rest.split_at(size);
        match found.push(region(entry, cells)) {
            Ok(()) => {}
            Err(_) => return Err(EntriesFault::Memory),
        }
        rest = later;
    }
    Ok(found)
}

/// The entries of a list of host address, size and guest address, as `xen,reg`.
pub fn device_windows(
    alloc: Global,
    bytes: &[u8],
    cells: (u32, u32),
) -> Result<List<Window>, EntriesFault>
    requires address { (1 ≤ cells.0) × (cells.0 ≤ 2) }
    requires size { (1 ≤ cells.1) × (cells.1 ≤ 2) }
    ensures ok { IfOk result (λ found. found ≡ device_windows cells bytes.now) }
    ensures whole { OnOk result (is_whole (window_cells cells) bytes.now ≡ true) }
    ensures length { IfErr result (λ e. (e ≡ EntriesFault.Memory) ⊎ ((e ≡ EntriesFault.Length) × (is_whole (window_cells cells) bytes.now ≡ false))) }
{
    let size = bytes_of(cells.0 + cells.0 + cells.1);
    if bytes.len() % size != 0 {
        return Err(EntriesFault::Length);
    }
    let mut found = List::new(alloc);
    let mut rest = bytes;
    while rest.len() >= size {
        let (entry, later) = rest.split_at(size);
        match found.push(device_window(entry, cells)) {
            Ok(()) => {}
            Err(_) => return Err(EntriesFault::Memory),
        }
        rest = later;
    }
    Ok(found)
}

/// The entries of a list of host address, guest address and size, as `xen,shared-mem`.
pub fn shared_windows(
    alloc: Global,
    bytes: &[u8],
    cells: (u32, u32),
) -> Result<List<Window>, EntriesFault>
    requires address { (1 ≤ cells.0) × (cells.0 ≤ 2) }
    requires size { (1 ≤ cells.1) × (cells.1 ≤ 2) }
    ensures ok { IfOk result (λ found. found ≡ shared_windows cells bytes.now) }
    ensures whole { OnOk result (is_whole (window_cells cells) bytes.now ≡ true) }
    ensures length { IfErr result (λ e. (e ≡ EntriesFault.Memory) ⊎ ((e ≡ EntriesFault.Length) × (is_whole (window_cells cells) bytes.now ≡ false))) }
{
    let size = bytes_of(cells.0 + cells.0 + cells.1);
    if bytes.len() % size != 0 {
        return Err(EntriesFault::Length);
    }
    let mut found = List::new(alloc);
    let mut rest = bytes;
    while rest.len() >= size {
        let (entry, later) = rest.split_at(size);
        match found.push(shared_window(entry, cells)) {
            Ok(()) => {}
            Err(_) => return Err(EntriesFault::Memory),
        }
        rest = later;
    }
    Ok(found)
}

// The places of files, one after the other.
ghost use Rattle.std.specs.Prelude.{◌≡◌, ◌≤◌, ◌<◌, ◌+◌, ◌^◌, length, map, true, false, IfOk};
ghost use Rattle.std.specs.List.{list_all};
ghost use Rattle.ib_placement.specs.Placement.{files_of, places_of, places_below, placed_from, round_up as rounded_up, counted as counted_size, is_wide, Gives};
ghost use Rattle.ib_placement.specs.Apart.{LieBetween};
ghost use Rattle.ib_placement.specs.declared.places.PlaceFault.TheVariants.{Memory};

use crate::order::files;
use ib_config::Config;
use std::alloc::{AllocError, Global};
use std::collections::VecDeque;
use texts::{List, Text};

/// Where a file is loaded.
#[derive(Debug, Drop)]
pub struct FilePlace {
    /// The name of the file.
    pub name: Text,
    /// The address of its first byte, a multiple of 2 MiB.
    pub address: u64,
    /// Its size in bytes, as it was handed in.
    pub size: u64,
}

/// The places of a configuration's files, in the order in which they are placed.
pub type Places = List<FilePlace>;

/// Why files cannot be placed.
#[derive(Debug, Drop)]
pub enum PlaceFault {
    /// This file ends past MEMORY_END, at this address.
    PastEnd(Text, u64),
    /// Memory ran out.
    Memory,
}

impl From<AllocError> for PlaceFault {
    ghost from_gives = { λ _ fault. fault ≡ Memory };

    fn from(_: AllocError) -> PlaceFault {
        PlaceFault::Memory
    }
}

/// What each address is a multiple of, in bytes.
const ALIGNMENT: u64 = 0x20_0000;

/// What a file takes at most, in bytes.
const LARGEST: u64 = 1 << 40;

/// What the device tree takes beyond its size, in bytes.
const TREE_ROOM: u64 = 0x8_0000;

/// Where the files of a configuration are loaded, for one size in bytes per file in the order of `files`: one place per
/// file in that order, with its size as it is handed in, and no two overlap. The first file that ends past MEMORY_END is
/// refused with its end, where a size of 0 counts as 1, one above 2^40 as 2^40, and the device tree 0x80000 bytes more.
pub fn place(alloc: Global, config: &Config, sizes: &[u64]) -> Result<Places, PlaceFault>
    requires { length sizes.now ≡ length (files_of config.now) }
    ensures value { Gives result (places_of config.now sizes.now) }
    ensures names { IfOk result (λ places. map (λ p. p.name) places ≡ files_of config.now) }
    ensures sizes { IfOk result (λ places. map (λ p. p.size) places ≡ sizes.now) }
    ensures wide { IfOk result (λ places. list_all is_wide places ≡ true) }
    ensures apart { IfOk result (LieBetween (config.now.memory_start + 0x200000) config.now.memory_end) }
{
    config.known();
    let names = files(alloc, config)?;
    place_from(
        alloc,
        config.memory_start() + ALIGNMENT,
        config.memory_end(),
        names,
        sizes,
    )
}

/// Where these files are loaded, of which the first begins at or behind `start` and none ends past `limit`.
fn place_from(
    alloc: Global,
    start: u64,
    limit: u64,
    names: List<Text>,
    sizes: &[u64],
) -> Result<Places, PlaceFault>
    requires start { start ≤ 2 ^ 41 }
    requires limit { limit ≤ 2 ^ 41 }
    requires sizes { length sizes.now ≡ length names }
    ensures { Gives result (places_below limit (placed_from start names sizes.now)) }
{
    let mut later = VecDeque::from(names.into_vec());
    let mut places = List::new(alloc);
    let mut end = start;
    for size in sizes {
        let Some(name) = later.pop_front() else {
            unreachable!()
        };
        let address = round_up(end);
        end = address + room(*size, later.is_empty());
        if limit < end {
            return Err(PlaceFault::PastEnd(name, end));
        }
        places.push(FilePlace {
            name,
            address,
            size: *size,
        })?;
    }
    Ok(places)
}

/// The least multiple of 2 MiB that is not below an address.
fn round_up(address: u64) -> u64
    requires { address ≤ 2 ^ 41 }
    ensures value { result ≡ rounded_up address }
    ensures near { result ≤ address + 0x1fffff }
{
    (address + (ALIGNMENT - 1)) / ALIGNMENT * ALIGNMENT
}

/// The bytes that a file of this size takes. The last file is the device tree, which takes more.
fn room(size: u64, is_last: bool) -> u64
    ensures last { is_last ≡ true → result ≡ counted_size size + 0x80000 }
    ensures earlier { is_last ≡ false → result ≡ counted_size size }
    ensures bound { result ≤ 2 ^ 41 }
{
    if is_last {
        counted(size) + TREE_ROOM
    } else {
        counted(size)
    }
}

/// What a size counts: at least 1 byte and at most 2^40.
fn counted(size: u64) -> u64
    ensures { result ≡ counted_size size }
{
    size.max(1).min(LARGEST)
}

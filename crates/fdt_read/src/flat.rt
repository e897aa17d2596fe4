// A flattened device tree as a whole.
ghost use Rattle.std.specs.Prelude.{◌≡◌, ◌⊎◌, true, false, not, OnOk, IfOk, IfErr, IsTrue, Some, None, []};
ghost use Rattle.std.specs.List.{list_all};
ghost use Rattle.fdt_read.specs.Built.{IsLaidOut, IsWhole};
ghost use Rattle.fdt_read.specs.Refusals.{refusal, first_fault, is_reservations_fault};
ghost use Rattle.fdt_read.specs.Reservations.{is_last_pair, reservations};
ghost use Rattle.fdt_read.specs.Spelling.{without_offsets};
ghost use Rattle.fdt_read.specs.Laws.{SpellsNone};
ghost use Rattle.fdt_read.specs.Spells.{Spells};
ghost use Rattle.fdt_read.specs.Tokens.{tokens};

use crate::fault::FdtFault;
use crate::header::layout_fault;
use crate::reservations::listed;
use crate::strings::Strings;
use crate::structure::structure;
use crate::words::word_of;
use fdt_tree::{Reserve, Tree};
use std::alloc::{AllocError, Global};
use texts::{Bytes, List};

/// What a flattened device tree says.
#[derive(Drop)]
pub struct Flat {
    /// The tree. Its root has the empty name.
    pub tree: Tree,
    /// The memory that is kept free, in the file's order (5.3).
    pub reserves: List<Reserve>,
    /// The processor that boots the system (5.2, `boot_cpuid_phys`).
    pub boot: u32,
}

/// The reservations, or the fault of their block.
fn reserves_of(alloc: Global, bytes: &[u8]) -> Result<List<Reserve>, FdtFault>
    requires { IsLaidOut bytes.now }
    ensures fine { OnOk result (is_reservations_fault bytes.now ≡ false) }
    ensures read { IfOk result (λ reserves. reserves ≡ reservations bytes.now) }
    ensures refused { IfErr result (λ fault. (fault ≡ FdtFault.Memory)
        ⊎ (is_reservations_fault bytes.now ≡ true) × (fault ≡ FdtFault.Bounds 16)) }
{
    let total = word_of(bytes, 4) as usize;
    let start = word_of(bytes, 16) as usize;
    if start % 8 != 0 || start > total {
        return Err(FdtFault::Bounds(16));
    }
    match listed(alloc, &bytes[start..total]) {
        Ok(Some(reserves)) => Ok(reserves),
        Ok(None) => Err(FdtFault::Bounds(16)),
        Err(_) => Err(FdtFault::Memory),
    }
}

/// A copy of a file, of which the properties that are read share their parts.
fn shared(alloc: Global, bytes: &[u8]) -> Result<Bytes, AllocError>
    ensures { IfOk result (λ copy. copy ≡ bytes.now) }
{
    let mut copy = Bytes::new(alloc);
    copy.append(bytes)?;
    copy.into_shared()
}

/// The tree, or the fault of the first token that is refused.
fn tree_of(alloc: Global, bytes: &[u8]) -> Result<Tree, FdtFault>
    requires { IsLaidOut bytes.now }
    ensures fine { OnOk result (first_fault [] (tokens bytes.now) ≡ None) }
    ensures read { IfOk result (λ tree. IsWhole (without_offsets (tokens bytes.now)) tree.tree) }
    ensures refused { IfErr result (λ fault. (fault ≡ FdtFault.Memory)
        ⊎ (first_fault [] (tokens bytes.now) ≡ Some fault)) }
{
    let start = word_of(bytes, 8) as usize;
    let size = word_of(bytes, 36) as usize;
    let strings_start = word_of(bytes, 12) as usize;
    let strings_size = word_of(bytes, 32) as usize;
    let file = match shared(alloc, bytes) {
        Ok(file) => file,
        Err(_) => return Err(FdtFault::Memory),
    };
    match Strings::new(alloc, &file, strings_start, strings_size) {
        Ok(strings) => structure(alloc, &file, &strings, start, size),
        Err(_) => Err(FdtFault::Memory),
    }
}

/// What the file says, or its first fault: those of the header come first, then that of the reservations.
fn flat_of(alloc: Global, bytes: &[u8]) -> Result<Flat, FdtFault>
    ensures read { IfOk result (λ flat. Spells bytes.now flat.reserves flat.boot flat.tree.tree) }
    ensures refused { IfErr result (λ fault. (fault ≡ FdtFault.Memory) ⊎ (refusal bytes.now ≡ Some fault)) }
{
    match layout_fault(bytes) {
        Some(fault) => return Err(fault),
        None => {}
    }
    let reserves = reserves_of(alloc, bytes)?;
    let tree = tree_of(alloc, bytes)?;
    Ok(Flat {
        tree,
        reserves,
        boot: word_of(bytes, 28),
    })
}

/// Reads a flattened device tree (Devicetree Specification 0.4, chapter 5): answers what it says, or its first fault, and
/// then it says nothing. It may have NOPs, blocks in any order, bytes between and past its blocks, and a name of its
/// root, which is dropped. No reservation that is read is a pair of zeros.
pub fn read(alloc: Global, bytes: &[u8]) -> Result<Flat, FdtFault>
    ensures read { IfOk result (λ flat. Spells bytes.now flat.reserves flat.boot flat.tree.tree) }
    ensures reserved { IfOk result (λ flat. IsTrue (list_all (λ reserve. not (is_last_pair reserve)) flat.reserves)) }
    ensures refused { IfErr result (λ fault. (fault ≡ FdtFault.Memory) ⊎ (refusal bytes.now ≡ Some fault)) }
    ensures nothing { IfErr result (λ fault. (fault ≡ FdtFault.Memory) ⊎ SpellsNone bytes.now) }
{
    flat_of(alloc, bytes)
}

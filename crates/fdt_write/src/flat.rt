// A whole flattened tree.
ghost use Rattle.std.specs.Prelude.{◌≡◌, ◌⊎◌, ◌<◌, ◌≤◌, ◌^◌, ◌-◌, ◌+◌, IfOk, IfErr, OnOk, IsTrue, ℕ, length, min, not};
ghost use Rattle.std.specs.List.{list_all};
ghost use Rattle.fdt_read.specs.Reservations.{is_last_pair};
ghost use Rattle.fdt_write.specs.Blocks.{reservation_bytes, structure_bytes};
ghost use Rattle.fdt_write.specs.Flattened.{flattened, length_limit};
ghost use Rattle.fdt_write.specs.PrivateHeld.{held};
ghost use Rattle.fdt_write.specs.Strings.{strings, strings_of};

use crate::blocks::{push_header, push_reserves, push_structure};
use crate::fault::WriteFault;
use crate::names::Names;
use crate::sizes::{Sizes, reservations_size, structure_size};
use fdt_tree::{Reserve, Tree};
use std::alloc::{AllocError, Global};

/// The most bytes that are written, 2 MiB.
const LIMIT: u64 = 2_097_152;

/// Writes a tree in its canonical form (Devicetree Specification 0.4, chapter 5): version 17, compatible with 16; the
/// header, the reservations, the structure and the strings without gaps; padding of zeros, no NOP; each property name
/// once, in order of first use. `boot` is the physical number of the boot processor (5.2). The length is known before
/// memory is taken for it, and above 2,097,152 bytes nothing is written.
pub fn write(
    alloc: Global,
    tree: &Tree,
    reserves: &[Reserve],
    boot: u32,
) -> Result<Vec<u8>, WriteFault>
    requires { IsTrue (list_all (λ reserve. not (is_last_pair reserve)) reserves.now) }
    ensures written { IfOk result (λ bytes. bytes.items ≡ flattened reserves.now boot tree.now.tree) }
    ensures fits { OnOk result (length (flattened reserves.now boot tree.now.tree) ≤ length_limit) }
    ensures too_long { IfErr result (λ fault. (fault ≡ WriteFault.Memory) ⊎ ((n : ℕ) × (fault ≡ WriteFault.TooLong n) × (length_limit < length (flattened reserves.now boot tree.now.tree)) × (n ≡ min (length (flattened reserves.now boot tree.now.tree)) (2 ^ 64 - 1)))) }
{
    let names = match Names::of_tree(alloc, tree) {
        Ok(names) => names,
        Err(_) => return Err(WriteFault::Memory),
    };
    let sizes = Sizes {
        reserved: reservations_size(reserves.len()),
        structured: structure_size(tree),
        named: names.size(),
    };
    let size = sizes.whole();
    if size > LIMIT {
        return Err(WriteFault::TooLong(size));
    }
    match push_all(alloc, tree, reserves, boot, &names, sizes) {
        Ok(bytes) => Ok(bytes),
        Err(_) => Err(WriteFault::Memory),
    }
}

/// Writes the header and the blocks, whose sizes are known.
fn push_all(
    alloc: Global,
    tree: &Tree,
    reserves: &[Reserve],
    boot: u32,
    names: &Names<'_>,
    sizes: Sizes,
) -> Result<Vec<u8>, AllocError>
    requires names { held names.now ≡ strings tree.now.tree }
    requires reserved { sizes.reserved ≡ length (reservation_bytes reserves.now) }
    requires structured { sizes.structured ≡ length (structure_bytes tree.now.tree) }
    requires named { sizes.named ≡ length (strings_of (strings tree.now.tree)) }
    requires fits { 40 + sizes.reserved + sizes.structured + sizes.named ≤ length_limit }
    ensures { IfOk result (λ bytes. bytes.items ≡ flattened reserves.now boot tree.now.tree) }
{
    let mut out = Vec::with_capacity(alloc, sizes.whole() as usize)?;
    push_header(
        &mut out,
        boot,
        sizes.reserved as u32,
        sizes.structured as u32,
        sizes.named as u32,
    )?;
    push_reserves(&mut out, reserves)?;
    push_structure(&mut out, tree, names)?;
    names.push_to(&mut out)?;
    Ok(out)
}

// Numbers by names, of which the first stays.
ghost use Rattle.std.specs.Prelude.{◌≡◌, OnOk, OnErr};
ghost use Rattle.fdt_tree.specs.Tree.{Bytes};
ghost use Rattle.fdt_nodes.specs.ChildMaps.{named};
ghost use Rattle.indexed_tree.specs.PrivateIndex.{entered};

use std::alloc::AllocError;
use std::collections::BTreeMap;

/// Gives a name a number, unless it has one. After want of memory each name has what it had.
pub(crate) fn enter(
    numbers: &mut BTreeMap<Vec<u8>, usize>,
    name: Vec<u8>,
    number: usize,
) -> Result<(), AllocError>
    ensures ok { OnOk result ((other : Bytes) → named numbers.new other ≡ entered name.items number other (named numbers.old other)) }
    ensures err { OnErr result ((other : Bytes) → named numbers.new other ≡ named numbers.old other) }
{
    if numbers.contains_key(name.as_slice()) {
        return Ok(());
    }
    numbers.insert(name, number)?;
    Ok(())
}

//! The properties of a node, as a table.
ghost use Rattle.std.specs.Prelude.{◌≡◌, ◌<◌, ◌∷◌, ◌++◌, [], length, flat_map, OnOk, IfOk, IsTrue};
ghost use Rattle.std.specs.Int.{w32, w64, to_be_bytes};
ghost use Rattle.fdt_tree.specs.Tree.{is_property_name};
ghost use Rattle.tree_parts.specs.Grown.{with_more};
ghost use Rattle.fdt_tree.specs.Document.{have_names};
ghost use Rattle.tree_parts.specs.Rows.{property, properties};

use byteorder::{BigEndian, ByteOrder};
use fdt_tree::{NodeId, Tree};
use std::alloc::{AllocError, Global};
use texts::Bytes;

/// A property by the form of its value: each has its name, and then what the value is made of (Devicetree Specification
/// 0.4, 2.2.4).
#[derive(Clone, Copy)]
pub enum Row<'a> {
    /// These bytes, as they are.
    Bytes(&'a [u8], &'a [u8]),
    /// A text, which is ended by a NUL.
    Text(&'a [u8], &'a [u8]),
    /// Numbers of one cell each: 4 bytes, the most significant first.
    Cells(&'a [u8], &'a [u32]),
    /// Addresses and sizes of two cells each: 8 bytes, the most significant first.
    WideCells(&'a [u8], &'a [u64]),
    /// An empty value.
    Flag(&'a [u8]),
}

/// A text and its NUL.
fn ended(alloc: Global, string: &[u8]) -> Result<Bytes, AllocError>
    ensures { IfOk result (λ bytes. bytes ≡ string.now ++ 0 ∷ []) }
{
    let mut bytes = Bytes::new(alloc);
    bytes.append(string)?;
    bytes.append(&[0])?;
    Ok(bytes)
}

/// Writes a number of one cell behind what is there.
fn append_cell(bytes: &mut Bytes, number: u32) -> Result<(), AllocError>
    ensures { OnOk result (bytes.new ≡ bytes.old ++ to_be_bytes w32 number) }
{
    let mut spelled = [0; 4];
    BigEndian::write_u32(&mut spelled, number);
    bytes.append(&spelled)
}

/// Writes a number of two cells behind what is there.
fn append_wide_cell(bytes: &mut Bytes, number: u64) -> Result<(), AllocError>
    ensures { OnOk result (bytes.new ≡ bytes.old ++ to_be_bytes w64 number) }
{
    let mut spelled = [0; 8];
    BigEndian::write_u64(&mut spelled, number);
    bytes.append(&spelled)
}

/// Numbers of one cell each, as bytes.
fn cell_bytes(alloc: Global, numbers: &[u32]) -> Result<Bytes, AllocError>
    ensures { IfOk result (λ bytes. bytes ≡ flat_map (to_be_bytes w32) numbers.now) }
{
    let mut bytes = Bytes::new(alloc);
    for number in numbers {
        append_cell(&mut bytes, *number)?;
    }
    Ok(bytes)
}

/// Numbers of two cells each, as bytes.
fn wide_cell_bytes(alloc: Global, numbers: &[u64]) -> Result<Bytes, AllocError>
    ensures { IfOk result (λ bytes. bytes ≡ flat_map (to_be_bytes w64) numbers.now) }
{
    let mut bytes = Bytes::new(alloc);
    for number in numbers {
        append_wide_cell(&mut bytes, *number)?;
    }
    Ok(bytes)
}

/// Gives a node of a tree a last property.
fn add_row(alloc: Global, tree: &mut Tree, node: NodeId, row: &Row<'_>) -> Result<(), AllocError>
    requires live { node < length tree.old.places }
    requires named { IsTrue (is_property_name (property row.now).0) }
    ensures { OnOk result (tree.new ≡ with_more tree.old node (property row.now ∷ [])) }
{
    match row {
        Row::Bytes(name, value) => tree.add_prop(node, name, value),
        Row::Text(name, string) => tree.add_prop(node, name, ended(alloc, string)?.as_slice()),
        Row::Cells(name, numbers) => {
            tree.add_prop(node, name, cell_bytes(alloc, numbers)?.as_slice())
        }
        Row::WideCells(name, numbers) => {
            tree.add_prop(node, name, wide_cell_bytes(alloc, numbers)?.as_slice())
        }
        Row::Flag(name) => tree.add_prop(node, name, &[]),
    }
}

/// Gives a node of a tree these properties, in their order, after those that it has. After want of memory the node may
/// have some of them.
pub fn add_rows(
    alloc: Global,
    tree: &mut Tree,
    node: NodeId,
    rows: &[Row<'_>],
) -> Result<(), AllocError>
    requires live { node < length tree.old.places }
    requires named { IsTrue (have_names (properties rows.now)) }
    ensures { OnOk result (tree.new ≡ with_more tree.old node (properties rows.now)) }
{
    for row in rows {
        add_row(alloc, tree, node, row)?;
    }
    Ok(())
}

// The properties of a node.
ghost use Rattle.std.specs.Prelude.{◌≡◌, ◌<◌, ◌≤◌, length, option_map, IfOk, IfSome, OnErr, Some, None};
ghost use Rattle.fdt_tree.specs.Document.{properties_of};
ghost use Rattle.fdt_tree.specs.Tree.{property_of};
ghost use Rattle.fdt_tree.specs.Values.{cells_in};
ghost use Rattle.fdt_nodes.specs.Held.{node_of};
ghost use Rattle.fdt_nodes.specs.Values.{has, has_string, is_compatible, is_value, has_other_length, is_memory, u32_in, u64_in, string_of, string_in};

use fdt_tree::{BadCells, NodeId, Tree, cells, u32_of, u64_of};

/// The cells of an address and of a size in the node's own `reg`, which the node above it counts (Devicetree
/// Specification 0.4, 2.3.5): `BadCells` where these are bad, and at the root.
pub fn own_cells(tree: &Tree, node: NodeId) -> Result<(u32, u32), BadCells>
    requires { node < length tree.now.places }
    ensures ok { IfOk result (λ counts. (node_of tree.now node).cells ≡ Some (counts.0, counts.1)) }
    ensures within { IfOk result (λ counts. (1 ≤ counts.0) × (counts.0 ≤ 2) × (1 ≤ counts.1) × (counts.1 ≤ 2)) }
    ensures err { OnErr result ((node_of tree.now node).cells ≡ None) }
{
    match tree.parent(node) {
        None => Err(BadCells),
        Some(above) => cells(tree, above),
    }
}

/// Whether a node has a property of this name.
pub fn has(tree: &Tree, node: NodeId, name: &[u8]) -> bool
    requires { node < length tree.now.places }
    ensures { result ≡ has (properties_of tree.now node) name.now }
{
    tree.prop(node, name).is_some()
}

/// Whether one of the strings of a property is this text (Devicetree Specification 0.4, 2.2.4, stringlist).
pub fn has_string(tree: &Tree, node: NodeId, name: &[u8], text: &[u8]) -> bool
    requires { node < length tree.now.places }
    ensures { result ≡ has_string (properties_of tree.now node) name.now text.now }
{
    match tree.prop(node, name) {
        None => false,
        Some(value) => fdt_tree::has_string(value, text),
    }
}

/// Whether one of the node's compatible strings is this text (Devicetree Specification 0.4, 2.3.1).
pub fn is_compatible(tree: &Tree, node: NodeId, text: &[u8]) -> bool
    requires { node < length tree.now.places }
    ensures { result ≡ is_compatible (properties_of tree.now node) text.now }
{
    has_string(tree, node, b"compatible", text)
}

/// Whether the value of a property is exactly these bytes.
pub fn is_value(tree: &Tree, node: NodeId, name: &[u8], bytes: &[u8]) -> bool
    requires { node < length tree.now.places }
    ensures { result ≡ is_value (properties_of tree.now node) name.now bytes.now }
{
    match tree.prop(node, name) {
        None => false,
        Some(value) => value == bytes,
    }
}

/// Whether a property is there and has another length than so many bytes.
pub fn has_other_length(tree: &Tree, node: NodeId, name: &[u8], size: usize) -> bool
    requires { node < length tree.now.places }
    ensures { result ≡ has_other_length (properties_of tree.now node) name.now size }
{
    match tree.prop(node, name) {
        None => false,
        Some(value) => value.len() != size,
    }
}

/// Whether the node is a memory node (Devicetree Specification 0.4, 3.4).
pub fn is_memory(tree: &Tree, node: NodeId) -> bool
    requires { node < length tree.now.places }
    ensures { result ≡ is_memory (properties_of tree.now node) }
{
    is_value(tree, node, b"device_type", b"memory\0")
}

/// The number that a property of four bytes spells (Devicetree Specification 0.4, 2.2.4, u32): `None` where it is missing
/// or has another length.
pub fn u32_at(tree: &Tree, node: NodeId, name: &[u8]) -> Option<u32>
    requires { node < length tree.now.places }
    ensures { result ≡ u32_in (properties_of tree.now node) name.now }
{
    match tree.prop(node, name) {
        None => None,
        Some(value) => match u32_of(value) {
            Ok(number) => Some(number),
            Err(_) => None,
        },
    }
}

/// The number that a property of eight bytes spells (Devicetree Specification 0.4, 2.2.4, u64): `None` where it is
/// missing or has another length.
pub fn u64_at(tree: &Tree, node: NodeId, name: &[u8]) -> Option<u64>
    requires { node < length tree.now.places }
    ensures { result ≡ u64_in (properties_of tree.now node) name.now }
{
    match tree.prop(node, name) {
        None => None,
        Some(value) => match u64_of(value) {
            Ok(number) => Some(number),
            Err(_) => None,
        },
    }
}

// The text that a value is, where it is exactly one string: bytes without a NUL, and the NUL that ends them.
fn string_of(value: &[u8]) -> Option<&[u8]>
    ensures { option_map (λ text. text.now) result ≡ string_of value.now }
{
    match value {
        [] => None,
        [text @ .., last] => {
            if *last == 0 && !text.contains(&0) {
                Some(text)
            } else {
                None
            }
        }
    }
}

/// The text of a property that is exactly one string (Devicetree Specification 0.4, 2.2.4, string), without the NUL that
/// ends it: `None` where it is missing or is something else.
pub fn string_at<'a>(tree: &'a Tree, node: NodeId, name: &[u8]) -> Option<&'a [u8]>
    requires { node < length tree.now.places }
    ensures { option_map (λ text. text.now) result ≡ string_in (properties_of tree.now node) name.now }
{
    match tree.prop(node, name) {
        None => None,
        Some(value) => string_of(value),
    }
}

/// The number of cells that a property says, which is 1 or 2: `missing` where there is no such property, and `None`
/// where it says something else.
pub fn cell_count(tree: &Tree, node: NodeId, name: &[u8], missing: u32) -> Option<u32>
    requires live { node < length tree.now.places }
    requires missing { (1 ≤ missing) × (missing ≤ 2) }
    ensures count { result ≡ cells_in (property_of (properties_of tree.now node) name.now) missing }
    ensures within { IfSome result (λ count. (1 ≤ count) × (count ≤ 2)) }
{
    match tree.prop(node, name) {
        None => Some(missing),
        Some(value) => match u32_of(value) {
            Ok(1) => Some(1),
            Ok(2) => Some(2),
            _ => None,
        },
    }
}

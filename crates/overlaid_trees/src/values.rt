// The values of properties of an indexed tree.
ghost use Rattle.std.specs.Prelude.{◌≡◌, ◌<◌, length, option_map};
ghost use Rattle.fdt_tree.specs.Document.{properties_of};
ghost use Rattle.fdt_nodes.specs.Values.{string_of, string_in, u32_in};

use fdt_tree::u32_of;
use indexed_tree::{IndexedNode, IndexedTree};

/// The text that a value is, where it is exactly one string: bytes without a NUL, and the NUL that ends them.
fn string_of(value: &[u8]) -> Option<&[u8]>
    ensures { option_map (λ text. text.now) result ≡ string_of value.now }
{
    match value {
        [] => None,
        [text @ .., last] => {
            if *last == 0 && !text.contains(&0) {
                Some(text)
            } else {
                None
            }
        }
    }
}

/// The text of a property that is exactly one string (Devicetree Specification 0.4, 2.2.4, string), without the NUL that
/// ends it: `None` where it is missing or is something else.
pub(crate) fn string_at<'a>(
    tree: &'a IndexedTree,
    node: IndexedNode,
    name: &[u8],
) -> Option<&'a [u8]>
    requires { node < length tree.now.places }
    ensures { option_map (λ text. text.now) result ≡ string_in (properties_of tree.now node) name.now }
{
    match tree.prop(node, name) {
        None => None,
        Some(value) => string_of(value),
    }
}

/// The number that a property of four bytes spells (Devicetree Specification 0.4, 2.2.4, u32): `None` where it is missing
/// or has another length.
pub(crate) fn u32_at(tree: &IndexedTree, node: IndexedNode, name: &[u8]) -> Option<u32>
    requires { node < length tree.now.places }
    ensures { result ≡ u32_in (properties_of tree.now node) name.now }
{
    match tree.prop(node, name) {
        None => None,
        Some(value) => match u32_of(value) {
            Ok(number) => Some(number),
            Err(_) => None,
        },
    }
}

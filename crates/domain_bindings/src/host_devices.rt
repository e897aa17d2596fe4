// Where the host's interrupt controller and its console stand.
ghost use Rattle.std.specs.Prelude.{◌≡◌, ◌<◌, IfOk, IfSome, length, option_map};
ghost use Rattle.fdt_nodes.specs.Controllers.{gic_of};
ghost use Rattle.fdt_nodes.specs.Held.{node_of};
ghost use Rattle.domain_bindings.specs.Hosts.{reg_of};
ghost use Rattle.domain_bindings.specs.HostDevices.{areas_of, before_mark, console_node, console_of, first_page, first_string_at, first_two, is_path, is_usable, output_name, path_named, up_to_colon};

use crate::reasons::{is_not_pages, is_too_high};
use crate::statics::regions_of;
use fdt_nodes::{found, own_cells};
use fdt_tree::{NodeId, Tree};
use std::alloc::{AllocError, Global};
use texts::{BaseSize, List, mark_at};

/// How many bytes of a console's registers are taken: one page.
const CONSOLE_SIZE: u64 = 0x1000;

/// Whether a range is whole pages, at least one, that end at or below 2^40.
fn is_usable(range: BaseSize) -> bool
    ensures { result ≡ is_usable range }
{
    !is_not_pages(range) && !is_too_high(range)
}

/// The entries of a node's `reg`.
fn reg_of(alloc: Global, tree: &Tree, node: NodeId) -> Result<List<BaseSize>, AllocError>
    requires { node < length tree.now.places }
    ensures { IfOk result (λ entries. entries ≡ reg_of (node_of tree.now node)) }
{
    match own_cells(tree, node) {
        Ok(cells) => regions_of(alloc, tree, node, b"reg", Some(cells)),
        Err(_) => Ok(List::new(alloc)),
    }
}

/// The first two of some entries, where both are usable, each as its address and its size.
fn first_two(entries: &[BaseSize]) -> Option<((u64, u64), (u64, u64))>
    ensures { result ≡ first_two entries.now }
{
    match entries {
        [one, other, ..] => {
            if is_usable(*one) && is_usable(*other) {
                Some(((one.base, one.size), (other.base, other.size)))
            } else {
                None
            }
        }
        _ => None,
    }
}

/// The distributor and the redistributors of the host's interrupt controller, where both are usable: the address and the
/// size of each, in bytes.
pub(crate) fn areas_of(
    alloc: Global,
    tree: &Tree,
    gic: &Option<NodeId>,
) -> Result<Option<((u64, u64), (u64, u64))>, AllocError>
    requires live { IfSome gic.now (λ node. node < length tree.now.places) }
    requires gic { option_map (λ node. node_of tree.now node) gic.now ≡ gic_of tree.now.tree }
    ensures { IfOk result (λ areas. areas ≡ areas_of tree.now.tree) }
{
    match gic {
        None => Ok(None),
        Some(node) => {
            let entries = reg_of(alloc, tree, *node)?;
            Ok(first_two(entries.as_slice()))
        }
    }
}

/// The bytes before the first mark, where there is one.
fn before_mark(bytes: &[u8], mark: u8) -> Option<&[u8]>
    ensures { option_map (λ text. text.now) result ≡ before_mark mark bytes.now }
{
    match mark_at(bytes, mark) {
        None => None,
        Some(place) => Some(&bytes[..place]),
    }
}

/// The first string of a property of the node that a path finds.
fn first_string_at<'a>(tree: &'a Tree, path: &[u8], name: &[u8]) -> Option<&'a [u8]>
    ensures { option_map (λ text. text.now) result ≡ first_string_at tree.now.tree path.now name.now }
{
    match found(tree, path) {
        None => None,
        Some(node) => match tree.prop(node, name) {
            None => None,
            Some(value) => before_mark(value, 0),
        },
    }
}

/// A text up to its first `:`, or all of it.
fn up_to_colon(text: &[u8]) -> &[u8]
    ensures { result.now ≡ up_to_colon text.now }
{
    match before_mark(text, b':') {
        None => text,
        Some(name) => name,
    }
}

/// What `/chosen` names as its output, without the settings of the line.
fn output_name(tree: &Tree) -> Option<&[u8]>
    ensures { option_map (λ name. name.now) result ≡ output_name tree.now.tree }
{
    match first_string_at(tree, b"/chosen", b"stdout-path") {
        None => None,
        Some(text) => Some(up_to_colon(text)),
    }
}

/// Whether a text begins with `/`.
fn is_path(name: &[u8]) -> bool
    ensures { result ≡ is_path name.now }
{
    match name {
        [first, ..] => *first == b'/',
        [] => false,
    }
}

/// The path of a name: itself, or what the alias of this name says.
fn path_named<'a>(tree: &'a Tree, name: &'a [u8]) -> Option<&'a [u8]>
    ensures { option_map (λ path. path.now) result ≡ path_named tree.now.tree name.now }
{
    if is_path(name) {
        Some(name)
    } else {
        first_string_at(tree, b"/aliases", name)
    }
}

/// The node of the host's console.
fn console_node(tree: &Tree) -> Option<NodeId>
    ensures live { IfSome result (λ node. node < length tree.now.places) }
    ensures node { option_map (λ node. node_of tree.now node) result ≡ console_node tree.now.tree }
{
    match output_name(tree) {
        None => None,
        Some(name) => match path_named(tree, name) {
            None => None,
            Some(path) => found(tree, path),
        },
    }
}

/// The address of the first of some entries, where a page at it is usable.
fn first_page(entries: &[BaseSize]) -> Option<u64>
    ensures { result ≡ first_page entries.now }
{
    match entries {
        [first, ..] => {
            let page = BaseSize {
                base: first.base,
                size: CONSOLE_SIZE,
            };
            if is_usable(page) {
                Some(first.base)
            } else {
                None
            }
        }
        [] => None,
    }
}

/// The address of the host's console, in bytes, where a page at it is usable.
pub(crate) fn console_of(alloc: Global, tree: &Tree) -> Result<Option<u64>, AllocError>
    ensures { IfOk result (λ address. address ≡ console_of tree.now.tree) }
{
    match console_node(tree) {
        None => Ok(None),
        Some(node) => {
            let entries = reg_of(alloc, tree, node)?;
            Ok(first_page(entries.as_slice()))
        }
    }
}

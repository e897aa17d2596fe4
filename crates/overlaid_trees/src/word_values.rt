// The words of values.
ghost use Rattle.std.specs.Prelude.{◌≡◌, ◌⊎◌, ◌<◌, ◌≤◌, ◌+◌, ◌-◌, ◌^◌, Some, None, IfSome, IsSomeAnd, IfOk, IfErr, length, option_and_then};
ghost use Rattle.fdt_tree.specs.Tree.{property_of};
ghost use Rattle.fdt_tree.specs.Document.{properties_of};
ghost use Rattle.indexed_tree.specs.Words.{with_word};
ghost use Rattle.overlaid_trees.specs.Words.{moved, word_at, with_moved, with_all_moved};
ghost use Rattle.overlaid_trees.specs.declared.word_values.ValueFault.TheVariants.{Memory};

use fdt_tree::u32_of;
use indexed_tree::{IndexedNode, IndexedTree};
use std::alloc::{AllocError, Global};
use texts::Bytes;

/// The greatest phandle that there is.
const LAST_PHANDLE: u32 = 0xffff_fffe;

/// Why a value is not changed.
#[derive(Drop)]
pub(crate) enum ValueFault {
    /// What is to be changed is not there, or has no such value.
    Missing,
    /// No memory was left.
    Memory,
}

impl From<AllocError> for ValueFault {
    ghost from_gives = { λ _ e. e ≡ Memory };

    fn from(_e: AllocError) -> ValueFault {
        ValueFault::Memory
    }
}

/// A number moved up, where it stays a phandle.
pub(crate) fn moved(by: u32, number: u32) -> Option<u32>
    ensures { result ≡ moved by number }
{
    match number.checked_add(by) {
        None => None,
        Some(sum) => { if sum > LAST_PHANDLE { None } else { Some(sum) } }
    }
}

/// The word at an offset, where it lies within the bytes.
fn word_at(bytes: &[u8], offset: usize) -> Option<u32>
    ensures word { result ≡ word_at bytes.now offset }
    ensures within { IfSome result (λ _. offset + 4 ≤ length bytes.now) }
{
    if offset > bytes.len() {
        return None;
    }
    let rest = &bytes[offset..];
    if rest.len() < 4 {
        return None;
    }
    match u32_of(&rest[..4]) {
        Ok(number) => Some(number),
        Err(_) => None,
    }
}

/// The word at an offset in the value of the first property of a name, where it lies within that value.
pub(crate) fn word_of(
    tree: &IndexedTree,
    node: IndexedNode,
    name: &[u8],
    offset: usize,
) -> Option<u32>
    requires { node < length tree.now.places }
    ensures word { result ≡ option_and_then (λ value. word_at value offset) (property_of (properties_of tree.now node) name.now) }
    ensures within { IfSome result (λ _. IsSomeAnd (property_of (properties_of tree.now node) name.now) (λ value. offset + 4 ≤ length value)) }
    ensures small { IfSome (property_of (properties_of tree.now node) name.now) (λ value. length value ≤ 2 ^ 64 - 1) }
{
    match tree.prop(node, name) {
        None => None,
        Some(value) => word_at(value, offset),
    }
}

/// Puts another word at an offset.
fn put_word(bytes: &mut [u8], offset: usize, number: u32)
    requires { offset + 4 ≤ length bytes.old }
    ensures { bytes.new ≡ with_word bytes.old offset number }
{
    bytes[offset..offset + 4].copy_from_slice(&number.to_be_bytes());
}

/// The bytes with the word at an offset moved up in its place, where a word lies there that stays a phandle.
fn with_moved(by: u32, bytes: Vec<u8>, offset: usize) -> Result<Vec<u8>, ValueFault>
    ensures ok { IfOk result (λ made. with_moved by bytes.items offset ≡ Some made.items) }
    ensures err { IfErr result (λ fault. (fault ≡ ValueFault.Memory) ⊎ ((fault ≡ ValueFault.Missing) × (with_moved by bytes.items offset ≡ None))) }
{
    let mut made = bytes;
    match word_at(&made, offset) {
        None => Err(ValueFault::Missing),
        Some(number) => match moved(by, number) {
            None => Err(ValueFault::Missing),
            Some(sum) => {
                put_word(&mut made, offset, sum);
                Ok(made)
            }
        },
    }
}

/// The bytes with the words moved up that lie at the offsets that other bytes list, one after the other.
pub(crate) fn with_all_moved(
    alloc: Global,
    by: u32,
    offsets: &[u8],
    bytes: &[u8],
) -> Result<Bytes, ValueFault>
    ensures ok { IfOk result (λ made. with_all_moved by offsets.now bytes.now ≡ Some made) }
    ensures err { IfErr result (λ fault. (fault ≡ ValueFault.Memory) ⊎ ((fault ≡ ValueFault.Missing) × (with_all_moved by offsets.now bytes.now ≡ None))) }
{
    let mut made = bytes.to_vec(alloc)?;
    let mut rest = offsets;
    while let [a, b, c, d, later @ ..] = rest {
        let offset = u32::from_be_bytes([*a, *b, *c, *d]) as usize;
        made = with_moved(by, made, offset)?;
        rest = later;
    }
    if rest.is_empty() {
        Ok(Bytes::from(made))
    } else {
        Err(ValueFault::Missing)
    }
}

// Words that are named by a string `PATH:PROP:OFFSET`, and the number that is put there.
ghost use Rattle.std.specs.Prelude.{◌≡◌, ◌⊎◌, ◌^◌, ◌-◌, ℕ, min, Some, None, option_map, MatchOption, IfErr, OnOk};
ghost use Rattle.overlaid_trees.specs.Resolve.{Spot, spot_of, decimal_of, with_spot, with_string, with_strings};

use crate::digits::decimal_of;
use crate::word_values::{ValueFault, word_of};
use indexed_tree::IndexedTree;
use texts::cut;

/// The path, the name and the digits of a string `PATH:PROP:OFFSET`, where it has just two colons and no part is empty.
fn parts(string: &[u8]) -> Option<(&[u8], &[u8], &[u8])>
    ensures { MatchOption result (spot_of string.now ≡ None) (λ parts. spot_of string.now ≡ option_map (λ offset. record { path = parts.0.now; name = parts.1.now; offset = offset }) (decimal_of parts.2.now)) }
{
    let Some((path, rest)) = cut(string, b':') else {
        return None;
    };
    let Some((name, digits)) = cut(rest, b':') else {
        return None;
    };
    if cut(digits, b':').is_some() {
        return None;
    }
    if path.is_empty() || name.is_empty() || digits.is_empty() {
        return None;
    }
    Some((path, name, digits))
}

/// The tree with a number at a word of its own, which a path, a name and an offset say. The greatest offset stands for all
/// beyond it, too.
fn put_word(
    number: u32,
    tree: &mut IndexedTree,
    path: &[u8],
    name: &[u8],
    offset: usize,
) -> Result<(), ValueFault>
    ensures ok { (wanted : ℕ) → offset ≡ min wanted (2 ^ 64 - 1) → OnOk result (with_spot number tree.old.tree (record { path = path.now; name = name.now; offset = wanted }) ≡ Some tree.new.tree) }
    ensures err { (wanted : ℕ) → offset ≡ min wanted (2 ^ 64 - 1) → IfErr result (λ fault. (fault ≡ ValueFault.Memory) ⊎ ((fault ≡ ValueFault.Missing) × (with_spot number tree.old.tree (record { path = path.now; name = name.now; offset = wanted }) ≡ None))) }
{
    let Some(node) = tree.find(path) else {
        return Err(ValueFault::Missing);
    };
    let Some(_) = word_of(tree, node, name, offset) else {
        return Err(ValueFault::Missing);
    };
    tree.put_word(node, name, offset, number)?;
    Ok(())
}

/// The tree with a number at the word that a string names.
fn put_string(number: u32, tree: &mut IndexedTree, string: &[u8]) -> Result<(), ValueFault>
    ensures ok { OnOk result (with_string number tree.old.tree string.now ≡ Some tree.new.tree) }
    ensures err { IfErr result (λ fault. (fault ≡ ValueFault.Memory) ⊎ ((fault ≡ ValueFault.Missing) × (with_string number tree.old.tree string.now ≡ None))) }
{
    let Some((path, name, digits)) = parts(string) else {
        return Err(ValueFault::Missing);
    };
    let Some(offset) = decimal_of(digits) else {
        return Err(ValueFault::Missing);
    };
    put_word(number, tree, path, name, offset)
}

/// The tree with a number at the words that the strings of a value name.
pub(crate) fn put_strings(
    number: u32,
    tree: &mut IndexedTree,
    value: &[u8],
) -> Result<(), ValueFault>
    ensures ok { OnOk result (with_strings number tree.old.tree value.now ≡ Some tree.new.tree) }
    ensures err { IfErr result (λ fault. (fault ≡ ValueFault.Memory) ⊎ ((fault ≡ ValueFault.Missing) × (with_strings number tree.old.tree value.now ≡ None))) }
{
    let mut rest = value;
    while let Some((string, after)) = cut(rest, 0) {
        put_string(number, tree, string)?;
        rest = after;
    }
    if rest.is_empty() {
        Ok(())
    } else {
        Err(ValueFault::Missing)
    }
}

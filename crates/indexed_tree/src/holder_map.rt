// The nodes that have a phandle, by their places.
ghost use Rattle.std.specs.Prelude.{◌≡◌, ◌<◌, ℕ, Some, None, OnOk, OnErr, MatchOption, IsSome, false};
ghost use Rattle.fdt_tree.specs.Tree.{Place};
ghost use Rattle.std.specs.Ordering.{nat_cmp, is_gt};
ghost use Rattle.std.specs.Cmp.Lexicographic.{slice_cmp};
ghost use Rattle.indexed_tree.specs.PrivateHolders.{holder_at, changed_at};

use std::alloc::{AllocError, Global};
use std::collections::BTreeMap;

/// For each phandle the nodes that have it, by their places.
pub(crate) type Holders = BTreeMap<u32, BTreeMap<Vec<usize>, usize>>;

/// Notes a node by its phandle and its place. After want of memory each has what it had.
fn enter(
    alloc: Global,
    holders: &mut Holders,
    phandle: u32,
    place: Vec<usize>,
    number: usize,
) -> Result<(), AllocError>
    ensures ok { OnOk result ((other : ℕ) (there : Place) → holder_at holders.new other there ≡ changed_at (Some phandle) place.items (Some number) holders.old other there) }
    ensures err { OnErr result ((other : ℕ) (there : Place) → holder_at holders.new other there ≡ holder_at holders.old other there) }
{
    if let Some(nodes) = holders.get_mut(&phandle) {
        nodes.insert(place, number)?;
        return Ok(());
    }
    let mut nodes = BTreeMap::new(alloc);
    nodes.insert(place, number)?;
    holders.insert(phandle, nodes)?;
    Ok(())
}

/// Takes a node out again.
fn leave(holders: &mut Holders, phandle: u32, place: &[usize])
    ensures { (other : ℕ) (there : Place) → holder_at holders.new other there ≡ changed_at (Some phandle) place.now None holders.old other there }
{
    if let Some(nodes) = holders.get_mut(&phandle) {
        let _ = nodes.remove(place);
    }
}

/// Notes a node by its phandle, if it has one, and its place. After want of memory each has what it had.
pub(crate) fn note(
    alloc: Global,
    holders: &mut Holders,
    phandle: Option<u32>,
    place: Vec<usize>,
    number: usize,
) -> Result<(), AllocError>
    ensures ok { OnOk result ((other : ℕ) (there : Place) → holder_at holders.new other there ≡ changed_at phandle place.items (Some number) holders.old other there) }
    ensures err { OnErr result ((other : ℕ) (there : Place) → holder_at holders.new other there ≡ holder_at holders.old other there) }
{
    match phandle {
        None => Ok(()),
        Some(own) => enter(alloc, holders, own, place, number),
    }
}

/// Takes a node out again, if it has a phandle.
pub(crate) fn forget(holders: &mut Holders, phandle: Option<u32>, place: &[usize])
    ensures { (other : ℕ) (there : Place) → holder_at holders.new other there ≡ changed_at phandle place.now None holders.old other there }
{
    if let Some(own) = phandle {
        leave(holders, own, place);
    }
}

/// The node that has a phandle of which the place is the least.
pub(crate) fn first(holders: &Holders, phandle: u32) -> Option<usize>
    ensures { MatchOption result ((there : Place) → holder_at holders.now phandle there ≡ None) (λ number. (place : Place) × (holder_at holders.now phandle place ≡ Some number) × ((there : Place) → IsSome (holder_at holders.now phandle there) → is_gt (slice_cmp nat_cmp place there) ≡ false)) }
{
    match holders.get(&phandle) {
        None => None,
        Some(nodes) => match nodes.first_key_value() {
            None => None,
            Some((_, number)) => Some(*number),
        },
    }
}

// The reader of source.
ghost use Rattle.std.specs.Prelude.{◌≡◌, ◌⊎◌, ℕ, List as Listed, IfOk, IfErr};
ghost use Rattle.fdt_tree.specs.Tree as trees;
ghost use Rattle.fdt_tree.specs.declared.reserve.Reserve as held;
ghost use Rattle.source_text.specs.Source.{IsSource, DepartsAt};

use crate::fault::SourceFault;
use crate::reading::{depth_behind, start, take};
use crate::state::{Comment, Next};
use crate::turns::{is_done, turn};
use fdt_tree::{Reserve, Tree};
use std::alloc::Global;
use texts::List;

/// What a text says: a tree and its reservations.
#[derive(Drop)]
pub struct Source {
    /// The tree.
    pub tree: Tree,
    /// Its reservations, without pairs of two zeros.
    pub reserves: List<Reserve>,
}

/// Reads device tree source: answers what the text says, which is one thing, or the offset at which it departs from every
/// source.
pub fn read_source(alloc: Global, bytes: &[u8]) -> Result<Source, SourceFault>
    ensures read { IfOk result (λ source. IsSource bytes.now source.reserves source.tree.tree) }
    ensures one { IfOk result (λ source. (reserves : Listed held.Reserve) (t : trees.Tree) → IsSource bytes.now reserves t → (reserves ≡ source.reserves) × (t ≡ source.tree.tree)) }
    ensures departs { IfErr result (λ fault. (fault ≡ SourceFault.Memory) ⊎ ((offset : ℕ) × (fault ≡ SourceFault.Syntax offset) × DepartsAt bytes.now offset)) }
{
    let mut reading = start(alloc)?;
    let mut comment = Comment::Outside;
    let mut next = Next::Start;
    let mut depth = 0;
    for (offset, c) in bytes.iter().enumerate() {
        let Some((to, then, action)) = turn(comment, next, depth, *c) else {
            return Err(SourceFault::Syntax(offset as u64));
        };
        take(&mut reading, action, *c)?;
        depth = depth_behind(action, depth)?;
        comment = to;
        next = then;
    }
    if !is_done(comment, next) {
        return Err(SourceFault::Syntax(bytes.len() as u64));
    }
    Ok(Source {
        tree: reading.growing.tree,
        reserves: reading.reserves,
    })
}

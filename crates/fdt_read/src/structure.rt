// The structure block as a tree.
ghost use Rattle.std.specs.Prelude.{◌≡◌, ◌⊎◌, OnOk, IfOk, IfErr, None, Some, [], ◌+◌, ◌≤◌, ◌<◌, ◌^◌, length};
ghost use Rattle.fdt_read.specs.Built.{IsWhole};
ghost use Rattle.fdt_read.specs.Header.{strings_block};
ghost use Rattle.fdt_read.specs.Refusals.{first_fault};
ghost use Rattle.fdt_read.specs.Spelling.{without_offsets};
ghost use Rattle.fdt_read.specs.Tokens.{tokens_of_block};

use crate::building::{Building, apply};
use crate::fault::FdtFault;
use crate::strings::Strings;
use crate::token_fault::fault_of;
use crate::tokens::{is_last, token};
use fdt_tree::Tree;
use std::alloc::Global;
use texts::Bytes;

/// Reads the tree of the structure block that begins at the offset `start` and has `size` bytes (5.4).
pub fn structure<'a>(
    alloc: Global,
    bytes: &'a Bytes,
    strings: &Strings<'a>,
    start: usize,
    size: usize,
) -> Result<Tree, FdtFault>
    requires within { start + size ≤ length bytes.now }
    requires short { start + size < 2 ^ 64 }
    requires names { strings.now ≡ strings_block bytes.now }
    ensures refused { IfErr result (λ fault. (fault ≡ FdtFault.Memory)
        ⊎ (first_fault [] (tokens_of_block bytes.now start size) ≡ Some fault)) }
    ensures fine { OnOk result (first_fault [] (tokens_of_block bytes.now start size) ≡ None) }
    ensures read { IfOk result (λ tree. IsWhole (without_offsets (tokens_of_block bytes.now start size)) tree.tree) }
{
    let tree = match Tree::new(alloc) {
        Ok(tree) => tree,
        Err(_) => return Err(FdtFault::Memory),
    };
    let mut building = Building {
        tree,
        current: None,
        started: false,
        past_child: false,
        level: 0,
    };
    let stop = start + size;
    let mut at = start;
    'tokens: loop {
        let (found, next) = token(bytes, strings, stop, at);
        match fault_of(
            building.level,
            building.started,
            building.past_child,
            at as u64,
            &found,
        ) {
            Some(fault) => return Err(fault),
            None => {}
        }
        if is_last(&found) {
            return Ok(building.tree);
        }
        match apply(&mut building, &found) {
            Ok(()) => {}
            Err(_) => return Err(FdtFault::Memory),
        }
        at = next;
    }
}

// The memory reservation block.
ghost use Rattle.std.specs.Prelude.{◌≡◌, ◌+◌, ◌≤◌, IfOk, IfSome, length, drop, is_some};
ghost use Rattle.std.specs.List.{list_any};
ghost use Rattle.fdt_read.specs.Reservations.{first_pair, pairs, is_last_pair, before_last};

use crate::words::wide_of;
use fdt_tree::Reserve;
use std::alloc::{AllocError, Global};
use texts::List;

/// Whether this is the pair of zeros that ends the list.
fn is_zeros(reserve: &Reserve) -> bool
    ensures { result ≡ is_last_pair reserve.now }
{
    reserve.address == 0 && reserve.size == 0
}

/// The pair at an offset in bytes.
fn pair_at(block: &[u8], offset: usize) -> Reserve
    requires { offset + 16 ≤ length block.now }
    ensures { result ≡ first_pair (drop offset block.now) }
{
    Reserve {
        address: wide_of(block, offset),
        size: wide_of(block, offset + 8),
    }
}

/// The pairs of a block before its first pair of zeros, or None where it has none (5.3).
pub fn listed(alloc: Global, block: &[u8]) -> Result<Option<List<Reserve>>, AllocError>
    ensures ends { IfOk result (λ found. is_some found ≡ list_any is_last_pair (pairs block.now)) }
    ensures listed { IfOk result (λ found. IfSome found (λ reserves. reserves ≡ before_last (pairs block.now))) }
{
    let mut reserves = List::new(alloc);
    let mut at = 0;
    'pairs: while block.len() - at >= 16 {
        let pair = pair_at(block, at);
        if is_zeros(&pair) {
            return Ok(Some(reserves));
        }
        reserves.push(pair)?;
        at += 16;
    }
    Ok(None)
}

// How many bytes the blocks take. A number past 2^64 - 1 stands as 2^64 - 1.
ghost use Rattle.std.specs.Prelude.{◌≡◌, ◌+◌, ◌*◌, ◌-◌, ◌<◌, ◌≤◌, ◌^◌, List, length};
ghost use Rattle.fdt_read.specs.Tokens.{padded};
ghost use Rattle.fdt_tree.specs.Tree.{Bytes};
ghost use Rattle.fdt_write.specs.Blocks.{token_bytes, structure_bytes};
ghost use Rattle.fdt_write.specs.Meaning.{meaning};
ghost use Rattle.fdt_write.specs.PrivateNames.{saturated};

use crate::tree_tokens::{TreeToken, TreeTokens};
use fdt_tree::Tree;

/// A length with its padding to four bytes.
fn padded_of(length: u64) -> u64
    requires { length ≤ 2 ^ 63 }
    ensures { result ≡ padded length }
{
    4 * ((length + 3) / 4)
}

/// How many bytes a token takes (5.4.1).
fn token_size(token: &TreeToken<'_>) -> u64
    ensures { (names : List Bytes) → result ≡ length (token_bytes names (meaning token.now)) }
{
    match token {
        TreeToken::BeginNode(name) => 4 + padded_of(name.len() as u64 + 1),
        TreeToken::Property(_, value) => 12 + padded_of(value.len() as u64),
        _ => 4,
    }
}

/// How many bytes the structure block takes (5.4).
pub(crate) fn structure_size(tree: &Tree) -> u64
    ensures { result ≡ saturated (length (structure_bytes tree.now.tree)) }
{
    let mut size: u64 = 0;
    for token in TreeTokens::new(tree) {
        size = size.saturating_add(token_size(&token));
    }
    size
}

/// How many bytes the reservation block takes (5.3), for so many reservations.
pub(crate) fn reservations_size(count: usize) -> u64
    ensures { result ≡ saturated (16 * (count + 1)) }
{
    (count as u64).saturating_add(1).saturating_mul(16)
}

/// How many bytes the three blocks take.
#[derive(Clone, Copy)]
pub(crate) struct Sizes {
    pub(crate) reserved: u64,
    pub(crate) structured: u64,
    pub(crate) named: u64,
}

impl Sizes {
    /// How many bytes the header (5.2) and the blocks take.
    pub(crate) fn whole(self) -> u64
        ensures { result ≡ saturated (40 + self.reserved + self.structured + self.named) }
    {
        self.reserved
            .saturating_add(40)
            .saturating_add(self.structured)
            .saturating_add(self.named)
    }
}

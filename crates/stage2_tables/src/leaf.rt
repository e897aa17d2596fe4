// The words that map pages and blocks (Arm ARM, VMSAv8-64 stage 2 descriptors, 4 KB granule).
ghost use Rattle.std.specs.Prelude.{◌≡◌, ◌≤◌, ◌<◌, ◌^◌, ◌+◌};
ghost use Rattle.described.specs.Maps.{attributes};
ghost use Rattle.stage2_tables.specs.Leaves.{fits, leaf_level, stretch};
ghost use Rattle.stage2_tables.specs.Least.{leaf_word};

use crate::regions::SMALL;
use crate::words::attributes;
use described::Kind;
use stage2_walk::pages_spanned;

/// Whether a word of a level can map the next pages: a page, the frame that it goes to, and how many pages are left.
fn fits(level: u8, page: u64, frame: u64, left: u64) -> bool
    requires at_least { 1 ≤ level }
    requires at_most { level ≤ 3 }
    ensures { result ≡ fits level page frame left }
{
    let span = pages_spanned(level);
    page % span == 0 && frame % span == 0 && span <= left
}

/// The level of the largest word that maps the next pages: 1 for a block of 1 GiB, 2 for one of 2 MiB, 3 for a page.
pub fn leaf_level(page: u64, frame: u64, left: u64) -> u8
    ensures level { result ≡ leaf_level page frame left }
    ensures at_least { 1 ≤ result }
    ensures at_most { result ≤ 3 }
{
    if fits(1, page, frame, left) {
        return 1;
    }
    if fits(2, page, frame, left) {
        return 2;
    }
    3
}

/// How many of the pages left are mapped from a page on until a block may begin: those of a block, or the pages whose words
/// stand in one table.
pub fn stretch(level: u8, page: u64, left: u64) -> u64
    requires at_least { 1 ≤ level }
    requires at_most { level ≤ 3 }
    ensures value { result ≡ stretch level page left }
    ensures positive { 0 < left → 1 ≤ result }
    ensures small { result ≤ 2 ^ 18 }
{
    if level == 3 {
        return (SMALL - page % SMALL).min(left);
    }
    pages_spanned(level)
}

/// The word of a page or block that goes to a frame.
pub fn leaf_word(level: u8, frame: u64, kind: Kind) -> u64
    requires low { frame < 2 ^ 28 }
    ensures { result ≡ leaf_word level (record { frame = frame; kind = kind }) }
{
    let form = if level == 3 { 3 } else { 1 };
    frame * 4096 + attributes(kind) + form
}

// Writing the least tables, leaf by leaf in ascending order.
ghost use Rattle.std.specs.Prelude.{◌≡◌, ◌≤◌, ◌<◌, ◌^◌, ◌+◌, ◌/◌, length};
ghost use Rattle.stage2_tables.specs.Steps.{large_sweep, small_sweep, leaf_sweep, large_pages, small_pages, linked_pages, leaf_place, leaf_pages, HasRoom};

use crate::regions::{LARGE, SMALL};
use crate::sweep::{Sweep, enter_large, enter_small};
use crate::words::table_word;
use stage2_walk::{Image, pages_spanned};

/// Links the table of the 1 GiB region of a page, unless it is linked.
#[tactic(auto, using(crate::proofs::PageCounts::length_written))]
pub fn link_large(image: &mut Image, sweep: &mut Sweep, page: u64)
    requires low { page < 2 ^ 28 }
    requires roots { 2 ≤ length image.old.pages }
    requires few { sweep.old.used < 2 ^ 32 }
    requires room { sweep.old.large ≤ page / 2 ^ 18 → sweep.old.used < length image.old.pages }
    ensures image { image.new ≡ record image.old { pages = large_pages image.old.pages sweep.old page } }
    ensures count { length image.new.pages ≡ length image.old.pages }
    ensures sweep { sweep.new ≡ large_sweep sweep.old page }
{
    let used = sweep.used;
    if enter_large(sweep, page) {
        let table = image.frame_at(used);
        let root_place = (page / (LARGE * 512)) as usize;
        image.put_at(root_place, (page / LARGE % 512) as usize, table_word(table));
    }
}

/// Links the table of the 2 MiB region of a page, unless it is linked, in the latest table of a 1 GiB region.
#[tactic(auto, using(crate::proofs::PageCounts::length_written))]
pub fn link_small(image: &mut Image, sweep: &mut Sweep, page: u64)
    requires few { sweep.old.used ≤ 2 ^ 32 }
    requires middle { sweep.old.middle < length image.old.pages }
    requires room { sweep.old.small ≤ page / 2 ^ 9 → sweep.old.used < length image.old.pages }
    ensures image { image.new ≡ record image.old { pages = small_pages image.old.pages sweep.old page } }
    ensures count { length image.new.pages ≡ length image.old.pages }
    ensures sweep { sweep.new ≡ small_sweep sweep.old page }
{
    let used = sweep.used;
    let middle = sweep.middle;
    if enter_small(sweep, page) {
        let table = image.frame_at(used);
        image.put_at(middle, (page / SMALL % 512) as usize, table_word(table));
    }
}

/// Writes the word of a leaf.
pub fn put_leaf(image: &mut Image, sweep: &Sweep, page: u64, level: u8, word: u64)
    requires at_least { 1 ≤ level }
    requires at_most { level ≤ 3 }
    requires place { leaf_place sweep.now page level < length image.old.pages }
    requires low { page < 2 ^ 28 }
    ensures image { image.new ≡ record image.old { pages = leaf_pages image.old.pages sweep.now page level word } }
{
    let place = match level {
        1 => (page / (LARGE * 512)) as usize,
        2 => sweep.middle,
        _ => sweep.last,
    };
    image.put_at(place, (page / pages_spanned(level) % 512) as usize, word);
}

/// Links the tables that a leaf needs.
fn link_tables(image: &mut Image, sweep: &mut Sweep, page: u64, level: u8)
    requires low { page < 2 ^ 28 }
    requires room { HasRoom (length image.old.pages) sweep.old page level }
    ensures image { image.new ≡ record image.old { pages = linked_pages image.old.pages sweep.old page level } }
    ensures sweep { sweep.new ≡ leaf_sweep sweep.old page level }
    ensures count { length image.new.pages ≡ length image.old.pages }
{
    if level <= 1 {
        return;
    }
    link_large(image, sweep, page);
    if level <= 2 {
        return;
    }
    link_small(image, sweep, page);
}

/// Links the tables that a leaf needs, and writes its word.
pub fn add_leaf(image: &mut Image, sweep: &mut Sweep, page: u64, level: u8, word: u64)
    requires at_least { 1 ≤ level }
    requires at_most { level ≤ 3 }
    requires low { page < 2 ^ 28 }
    requires room { HasRoom (length image.old.pages) sweep.old page level }
    ensures image { image.new ≡ record image.old { pages = leaf_pages (linked_pages image.old.pages sweep.old page level) (leaf_sweep sweep.old page level) page level word } }
    ensures sweep { sweep.new ≡ leaf_sweep sweep.old page level }
{
    link_tables(image, sweep, page, level);
    put_leaf(image, sweep, page, level, word);
}

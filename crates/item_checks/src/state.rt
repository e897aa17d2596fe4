// What is known of the items that were passed.
ghost use Rattle.std.specs.Prelude.{◌≡◌, ℕ, ◌^◌, ◌≤◌, List, [], Option, None};
ghost use Rattle.frame_alloc.specs.Ranges.{cut};
ghost use Rattle.item_checks.specs.Taken.{Passed, is_direct, pages_before};
ghost use Rattle.item_checks.specs.PrivateStanding.{IsFresh};
ghost use Rattle.item_checks.specs.Standing.{Stands, taken_from, claims_taken, regions_from};

use crate::takings::Takings;
use described::Item;
use std::alloc::Global;
use std::cmp::min;
use texts::{BaseSize, Bytes, FrameRange};

/// The most pages that are counted.
const PAGE_LIMIT: u64 = 1 << 28;

/// Whose items are looked at: a guest's, by its number, or no guest's; and whether the guest's partial device tree was
/// read.
#[derive(Clone, Copy)]
pub struct Owner {
    /// The guest's number, counted from 0 in document order, or none.
    pub guest: Option<u64>,
    /// Whether the guest's partial device tree was read.
    pub partial_read: bool,
}

/// A range of frames or of pages that an item takes, and the item's place among all items.
#[derive(Clone, Copy)]
pub struct Taken {
    /// The frames, or the pages.
    pub range: FrameRange,
    /// The item's place among all items, from 0.
    pub item: usize,
}

/// The three numbers of a device range.
#[derive(Clone, Copy)]
pub(crate) struct Triple {
    pub(crate) host: u64,
    pub(crate) size: u64,
    pub(crate) guest: u64,
}

/// A region of shared memory that an item describes: the item, its place among all items, and its guest.
#[derive(Drop)]
pub struct Region {
    /// The item.
    pub item: Item,
    /// Its place among all items, from 0.
    pub place: usize,
    /// The number of the guest that it belongs to.
    pub guest: Option<u64>,
    /// The region's id.
    pub id: Bytes,
    /// Its host address, where it has one.
    pub host: Option<u64>,
    /// How many bytes it has.
    pub size: u64,
    /// Whether its role is owner.
    pub owner: bool,
}

/// The first interrupt of a number that items of a guest describe: the item and its guest.
#[derive(Drop)]
pub(crate) struct Taker {
    pub(crate) item: Item,
    pub(crate) guest: u64,
    pub(crate) number: u32,
}

/// What the items that were passed describe: where files were loaded, the regions of shared memory, and the interrupts.
#[derive(Drop)]
pub(crate) struct Seen {
    pub(crate) loads: Vec<BaseSize>,
    pub(crate) regions: Vec<Region>,
    pub(crate) takers: Vec<Taker>,
}

/// What is known of the guest to which the last of the items belongs: the pages that its items fill, whether it is
/// direct-mapped, how many pages of static memory it has, its device ranges, how many shared interrupts it has, and the
/// item that gives it a console.
#[derive(Drop)]
pub(crate) struct LastGuest {
    pub(crate) pages: Takings,
    pub(crate) direct: bool,
    pub(crate) static_pages: u64,
    pub(crate) triples: Vec<Triple>,
    pub(crate) spis: Option<u32>,
    pub(crate) console: Option<Item>,
}

/// What is known of the items that were passed, and of the guest to which the last of them belongs.
#[derive(Drop)]
pub struct State {
    pub(crate) items: Vec<Item>,
    pub(crate) claims: Takings,
    pub(crate) seen: Seen,
    pub(crate) last: LastGuest,
}

impl LastGuest {
    /// Goes on with a guest of which nothing is known.
    pub(crate) fn clear(&mut self)
        ensures { IsFresh self.new }
    {
        self.pages.clear();
        self.direct = false;
        self.static_pages = 0;
        self.triples.clear();
        self.spis = None;
        self.console = None;
    }
}

/// So many pages, or the most that are counted.
pub(crate) fn capped(pages: u64) -> u64
    ensures { result ≡ cut pages }
{
    min(pages, PAGE_LIMIT)
}

impl State {
    /// No item was passed. Takes no memory.
    pub fn new(alloc: Global) -> State
        ensures { Stands None [] result }
    {
        State {
            items: Vec::new(alloc),
            claims: Takings::new(alloc),
            seen: Seen {
                loads: Vec::new(alloc),
                regions: Vec::new(alloc),
                takers: Vec::new(alloc),
            },
            last: LastGuest {
                pages: Takings::new(alloc),
                direct: false,
                static_pages: 0,
                triples: Vec::new(alloc),
                spis: None,
                console: None,
            },
        }
    }

    /// The frames that the items claim, in the order of the items.
    pub fn claims(&self) -> &[Taken]
        ensures { (guest : Option ℕ) → (before : List Passed) → Stands guest before self.now → result.now ≡ taken_from claims_taken 0 before }
    {
        self.claims.as_slice()
    }

    /// The regions of shared memory that the items describe, in the order of the items.
    pub fn regions(&self) -> &[Region]
        ensures { (guest : Option ℕ) → (before : List Passed) → Stands guest before self.now → result.now ≡ regions_from 0 before }
    {
        self.seen.regions.as_slice()
    }

    /// Whether the guest of the last items is direct-mapped.
    pub fn is_direct(&self) -> bool
        ensures { (guest : Option ℕ) → (before : List Passed) → Stands guest before self.now → result ≡ is_direct before guest }
    {
        self.last.direct
    }

    /// How many pages of static memory the guest of the last items has.
    pub fn static_pages(&self) -> u64
        ensures low { result ≤ 2 ^ 28 }
        ensures pages { (guest : Option ℕ) → (before : List Passed) → Stands guest before self.now → result ≡ pages_before before guest }
    {
        capped(self.last.static_pages)
    }
}

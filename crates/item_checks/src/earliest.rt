// The earliest item that takes a frame or a page.
ghost use Rattle.std.specs.Prelude.{◌≡◌, ℕ, List, [], ◌∷◌, Option, find, option_map, option_and_then, slice_get};
ghost use Rattle.frame_alloc.specs.Ranges.{have_common};
ghost use Rattle.item_checks.specs.Taken.{Passed, item_of};
ghost use Rattle.item_checks.specs.Standing.{Stands, claims_taken, pages_taken};

use crate::state::State;
use crate::takings::Takings;
use described::Item;
use texts::FrameRange;

/// The first item that takes something of these ranges.
fn first_item<'a>(items: &'a [Item], taken: &Takings, ranges: &[FrameRange]) -> Option<&'a Item>
    ensures { option_map (λ item. item.now) result ≡
        option_and_then (slice_get items.now) (option_map (λ taken. taken.item) (find (λ taken. have_common (taken.range ∷ []) ranges.now) taken.now)) }
{
    match taken.first_place(ranges) {
        None => None,
        Some(place) => items.get(place),
    }
}

impl State {
    /// The earliest item that claims a frame of these ranges.
    pub(crate) fn claimant(&self, ranges: &[FrameRange]) -> Option<&Item>
        ensures { (guest : Option ℕ) → (before : List Passed) → Stands guest before self.now →
            option_map (λ item. item.now) result ≡ option_map item_of (find (λ passed. have_common (claims_taken passed) ranges.now) before) }
    {
        first_item(self.items.as_slice(), &self.claims, ranges)
    }

    /// The earliest item of the guest that fills a page of these ranges.
    pub(crate) fn occupant(&self, ranges: &[FrameRange]) -> Option<&Item>
        ensures { (guest : Option ℕ) → (before : List Passed) → Stands guest before self.now →
            option_map (λ item. item.now) result ≡ option_map item_of (find (λ passed. have_common (pages_taken guest passed) ranges.now) before) }
    {
        first_item(self.items.as_slice(), &self.last.pages, ranges)
    }
}

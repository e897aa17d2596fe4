//! What a build comes to over all guests.
ghost use Rattle.std.specs.Prelude.{◌≡◌, ◌<◌, ◌^◌, All, length, map, sum_by};
ghost use Rattle.described.specs.Maps.{AreMapRanges};
ghost use Rattle.guest_images.specs.Built.{tables_counted};
ghost use Rattle.guest_images.specs.Requests.{tables_needed};
ghost use Rattle.build_outputs.specs.Totals.{all_pages, all_tables};

use crate::report_guests::ram_pages;
use domain_plan::GuestPlan;
use guest_images::GuestImage;

/// What a build comes to over all guests.
#[derive(Clone, Copy)]
pub struct Totals {
    /// How many guests there are.
    pub guests: u64,
    /// Their pages of memory, of 4,096 bytes each.
    pub ram: u64,
    /// The tables of their images, of one frame each.
    pub tables: u64,
    /// The frames that are left when all tables are drawn.
    pub free: u64,
}

/// The totals of guests that have these images, where so many frames are left.
pub(crate) fn count_totals(guests: &[GuestPlan], images: &[GuestImage], left: u64) -> Totals
    requires sorted { All (λ guest. AreMapRanges guest.ranges) guests.now }
    requires tables { tables_counted images.now ≡ map tables_needed guests.now }
    requires few_pages { all_pages guests.now < 2 ^ 64 }
    requires few_tables { all_tables guests.now < 2 ^ 64 }
    ensures { result ≡ record { guests = length guests.now; ram = all_pages guests.now; tables = all_tables guests.now; free = left } }
{
    Totals {
        guests: guests.len() as u64,
        ram: count_pages(guests),
        tables: count_tables(images),
        free: left,
    }
}

/// The pages of memory of guests.
fn count_pages(guests: &[GuestPlan]) -> u64
    requires sorted { All (λ guest. AreMapRanges guest.ranges) guests.now }
    requires few { all_pages guests.now < 2 ^ 64 }
    ensures { result ≡ all_pages guests.now }
{
    let mut pages = 0;
    for guest in guests {
        pages += ram_pages(guest);
    }
    pages
}

/// The tables of images.
fn count_tables(images: &[GuestImage]) -> u64
    requires { sum_by (λ image. image.tables) images.now < 2 ^ 64 }
    ensures { result ≡ sum_by (λ image. image.tables) images.now }
{
    let mut tables = 0;
    for image in images {
        tables += image.tables;
    }
    tables
}

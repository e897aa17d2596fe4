//! Where the runs of an image part from the ranges of a plan.
ghost use Rattle.std.specs.Prelude.{◌≡◌, ◌+◌, ◌^◌, ◌<◌, ◌≤◌, IfSome};
ghost use Rattle.described.specs.Maps.{AreMapRanges, attributes};
ghost use Rattle.stage2_walk.specs.Runs.{map_of};
ghost use Rattle.image_audit.specs.Findings.{planned_map};
ghost use Rattle.image_audit.specs.PrivatePartings.{are_same, begin_alike, parting, parting_page, planned_run};

use described::{Kind, MapRange};
use stage2_walk::{Image, Run, Step};

/// The attribute bits of a kind: 5:2 memory type, 7:6 access, 9:8 shareability, 10 access flag, 54 execute never.
pub(crate) fn attributes(kind: Kind) -> u64
    ensures { result ≡ attributes kind }
{
    match kind {
        Kind::Ram => 0x7fc,
        Kind::Device => 0x0040_0000_0000_06c4,
        Kind::Shared => 0x0040_0000_0000_07fc,
    }
}

/// The run that a range of a plan is.
fn planned_run(range: MapRange) -> Run
    ensures { result ≡ planned_run range }
{
    Run {
        page: range.page,
        first: range.first,
        count: range.count,
        attr: attributes(range.kind),
    }
}

/// Whether two runs begin at one page, and go to the same frames with the same attributes.
fn begin_alike(one: Run, other: Run) -> bool
    ensures { result ≡ begin_alike one other }
{
    one.page == other.page && one.first == other.first && one.attr == other.attr
}

/// Whether two runs are one.
fn are_same(one: Run, other: Run) -> bool
    ensures { result ≡ are_same one other }
{
    begin_alike(one, other) && one.count == other.count
}

/// The first page where two runs part.
fn parting_page(one: Run, other: Run) -> u64
    requires { other.page + other.count ≤ 2 ^ 28 }
    ensures { result ≡ parting_page one other }
{
    if begin_alike(one, other) {
        return other.page + one.count.min(other.count);
    }
    one.page.min(other.page)
}

/// The first page where the runs of an image part from the sorted ranges of a plan.
pub(crate) fn find_parting(runs: &[Run], ranges: &[MapRange]) -> Option<u64>
    requires { AreMapRanges ranges.now }
    ensures { result ≡ parting runs.now ranges.now }
{
    for (index, run) in runs.iter().enumerate() {
        if index >= ranges.len() {
            return Some(run.page);
        }
        let planned = planned_run(ranges[index]);
        if !are_same(*run, planned) {
            return Some(parting_page(*run, planned));
        }
    }
    if runs.len() < ranges.len() {
        return Some(ranges[runs.len()].page);
    }
    None
}

/// The frame and the attributes to which the walk of an image takes a page.
pub(crate) fn walked_goal(image: &Image, page: u64) -> Option<(u64, u64)>
    requires { page < 2 ^ 28 }
    ensures goal { result ≡ map_of image.now.pages image.now.root page }
    ensures low { IfSome result (λ goal. goal.0 < 2 ^ 52) }
{
    match image.walk(page * 4096) {
        Step::Mapped { address, attr } => Some((address / 4096, attr)),
        Step::Fault(_) => None,
        Step::NoPage(_, _) => None,
    }
}

/// The frame and the attributes to which a plan's ranges send a page.
pub(crate) fn planned_goal(ranges: &[MapRange], page: u64) -> Option<(u64, u64)>
    requires { AreMapRanges ranges.now }
    ensures goal { result ≡ planned_map ranges.now page }
    ensures low { IfSome result (λ goal. goal.0 < 2 ^ 52) }
{
    for range in ranges {
        if range.page <= page && page - range.page < range.count {
            return Some((range.first + (page - range.page), attributes(range.kind)));
        }
    }
    None
}

// Where the devices that Xen makes stand in a guest.
ghost use Rattle.std.specs.Prelude.{◌≡◌, ℕ, nat_le, List, Option};
ghost use Rattle.std.specs.Option.{option_map_or};
ghost use Rattle.described.specs.Layouts.{usual_layout};
ghost use Rattle.domain_bindings.specs.HostDevices.{as_range};
ghost use Rattle.domain_bindings.specs.Reasons.{end_of};
ghost use Rattle.item_checks.specs.Taken.{Passed};
ghost use Rattle.item_checks.specs.Reasons.{layout_at};
ghost use Rattle.item_checks.specs.Layouts.{are_apart, console_area, has_areas_apart, host_layout, is_apart_from, layout_of};
ghost use Rattle.item_checks.specs.Standing.{Stands};

use crate::state::State;
use described::{Layout, usual_layout};
use domain_bindings::Host;
use texts::BaseSize;

/// How many bytes of a console's registers are taken: one page.
const CONSOLE_SIZE: u64 = 0x1000;

/// Whether the first area ends at or below the address of the second.
fn ends_before(one: BaseSize, other: BaseSize) -> bool
    ensures { result ≡ nat_le (end_of one) other.base }
{
    one.base <= other.base && one.size <= other.base - one.base
}

/// Whether two areas have no address in common.
fn are_apart(one: BaseSize, other: BaseSize) -> bool
    ensures { result ≡ are_apart one other }
{
    ends_before(one, other) || ends_before(other, one)
}

/// Whether an area is apart from each of these.
fn is_apart_from(area: BaseSize, areas: &[BaseSize]) -> bool
    ensures { result ≡ is_apart_from area areas.now }
{
    areas.iter().all(|other| are_apart(area, *other))
}

/// Whether the four areas of a layout are pairwise apart.
fn has_areas_apart(layout: &Layout) -> bool
    ensures { result ≡ has_areas_apart layout.now }
{
    is_apart_from(
        layout.distributor,
        &[layout.redistributors, layout.console, layout.grant],
    ) && is_apart_from(layout.redistributors, &[layout.console, layout.grant])
        && are_apart(layout.console, layout.grant)
}

/// The area at an address, of a size.
fn area(place: (u64, u64)) -> BaseSize
    ensures { result ≡ as_range place }
{
    BaseSize {
        base: place.0,
        size: place.1,
    }
}

/// The host's distributor, or the usual one.
fn distributor(host: &Host) -> BaseSize
    ensures { result ≡ option_map_or (λ areas. as_range areas.0) host.now.areas usual_layout.distributor }
{
    match host.areas {
        Some((distributor, _)) => area(distributor),
        None => usual_layout().distributor,
    }
}

/// The host's redistributors, or the usual ones.
fn redistributors(host: &Host) -> BaseSize
    ensures { result ≡ option_map_or (λ areas. as_range areas.1) host.now.areas usual_layout.redistributors }
{
    match host.areas {
        Some((_, redistributors)) => area(redistributors),
        None => usual_layout().redistributors,
    }
}

/// The host's console, where it has one and the guest too, or the usual one.
fn console_area(host: &Host, console: bool) -> BaseSize
    ensures { result ≡ console_area host.now console }
{
    if !console {
        return usual_layout().console;
    }
    match host.console {
        Some(address) => area((address, CONSOLE_SIZE)),
        None => usual_layout().console,
    }
}

/// The host's areas and its console in place of the usual ones.
fn host_layout(host: &Host, console: bool) -> Layout
    ensures { result ≡ host_layout host.now console }
{
    Layout {
        distributor: distributor(host),
        redistributors: redistributors(host),
        console: console_area(host, console),
        grant: usual_layout().grant,
    }
}

/// The layout of a guest: the host's where the guest is direct-mapped and no two of its areas meet, or else the usual one.
fn layout_of(host: &Host, direct: bool, console: bool) -> Layout
    ensures { result ≡ layout_of host.now direct console }
{
    let layout = host_layout(host, console);
    if direct && has_areas_apart(&layout) {
        layout
    } else {
        usual_layout()
    }
}

impl State {
    /// The layout of the guest to which the last items belong.
    pub fn layout(&self, host: &Host) -> Layout
        ensures { (guest : Option ℕ) → (before : List Passed) → Stands guest before self.now → result ≡ layout_at host.now before guest }
    {
        layout_of(host, self.last.direct, self.last.console.is_some())
    }
}

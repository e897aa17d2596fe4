// Laws over the definitions. Each is the contract of a function that does nothing.
ghost use Rattle.domain_plan.specs.Arguments.{AreRead};
ghost use Rattle.domain_plan.specs.Apart.{GuestsAreApart};
ghost use Rattle.domain_plan.specs.Memories.{MemoryIsMapped};

use described::Loaded;
use domain_bindings::Host;
use item_checks::Guest;
use texts::List;

/// Where no item of a description is refused, a guest's pages are each mapped once; a frame of the maps of two guests is
/// shared in both, in a region that both name by one id; and no frame that is left for tables is in any map.
pub fn guests_are_apart(host: &Host, loads: &List<Loaded>, guests: &List<Guest>)
    requires { AreRead host.now loads.now guests.now }
    ensures { GuestsAreApart host.now loads.now guests.now }
{
    let _ = host;
    let _ = loads;
    let _ = guests;
}

/// Where no item of a description is refused, the pages of a guest's listed memory are exactly those that its map gives
/// it as its own.
pub fn memory_is_mapped(host: &Host, loads: &List<Loaded>, guests: &List<Guest>)
    requires { AreRead host.now loads.now guests.now }
    ensures { MemoryIsMapped host.now loads.now guests.now }
{
    let _ = host;
    let _ = loads;
    let _ = guests;
}

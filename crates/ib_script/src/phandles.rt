// The phandles of event channels.
ghost use Rattle.std.specs.Prelude.{◌≡◌, ◌≤◌, ◌<◌, ◌+◌, ◌*◌, ◌^◌, IfSome, length, slice_get};
ghost use Rattle.ib_script.specs.Phandles.{groups_before as groups_ahead, first_phandle as first_number, peer_phandle as peer_number, group_with as group_index, group_of};

use ib_config::{Config, PortGroup};

/// How many port groups the guests before a guest have.
pub(crate) fn groups_before(config: &Config, guest: u32) -> u128
    ensures value { result ≡ groups_ahead config.now.guests guest }
    ensures few { result ≤ 2 ^ 96 }
{
    let mut count = 0;
    for earlier in 0..guest.min(config.guests()) {
        count += config.evtchns(earlier).len() as u128;
    }
    count
}

/// The phandle of a guest's first group.
pub(crate) fn first_phandle(config: &Config, highest: u32, guest: u32) -> u32
    requires { highest + groups_ahead config.now.guests (length config.now.guests) ≤ 0xfffffffe }
    ensures value { result ≡ first_number config.now.guests highest guest }
    ensures room { IfSome (slice_get config.now.guests guest) (λ g. result + length g.evtchns ≤ 0xffffffff) }
{
    highest + 1 + groups_before(config, guest) as u32
}

/// The index of the first group that has a port, or how many groups there are.
fn group_with(groups: &[PortGroup], port: u32) -> usize
    ensures value { result ≡ group_index port groups.now }
    ensures within { result ≤ length groups.now }
{
    for (index, group) in groups.iter().enumerate() {
        if group.port == port {
            return index;
        }
    }
    groups.len()
}

/// The index of the group of a guest that has a port; 0 where there is no such guest.
fn group_at(config: &Config, guest: u32, port: u32) -> usize
    ensures value { result ≡ group_of port (slice_get config.now.guests guest) }
    ensures within { IfSome (slice_get config.now.guests guest) (λ g. result ≤ length g.evtchns) }
    ensures none { length config.now.guests ≤ guest → result ≡ 0 }
{
    if guest < config.guests() {
        group_with(config.evtchns(guest).as_slice(), port)
    } else {
        0
    }
}

/// The phandle of the other end of a group's event channel.
#[tactic(auto, unfolding(crate::specs::Phandles::peer_phandle))]
pub(crate) fn peer_phandle(config: &Config, highest: u32, group: PortGroup) -> u32
    requires { highest + groups_ahead config.now.guests (length config.now.guests) ≤ 0xfffffffe }
    ensures { result ≡ peer_number config.now.guests highest group }
{
    let first = first_phandle(config, highest, group.peer);
    first + group_at(config, group.peer, group.peer_port) as u32
}

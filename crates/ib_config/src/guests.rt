// The variables of a guest.
ghost use Rattle.std.specs.Prelude.{◌≡◌, ◌≤◌, ◌<◌, IfOk, OnOk, map, length, ◌++◌, ◌∷◌, [], Some, None, unwrap_or, true, false, is_some, ◌==◌};
ghost use Rattle.std.specs.Option.{option_copied};
ghost use Rattle.std.specs.List.{list_all, list_any};
ghost use Rattle.texts.specs.Consecutive.{numbers};
ghost use Rattle.ib_config.specs.Rules.{ports_of, is_linked as is_linked_to};
ghost use Rattle.ib_config.specs.Variables as table;
ghost use Rattle.ib_config.specs.Variables.{value_of};
ghost use Rattle.ib_config.specs.Settings.{Gives, guest_settings, ports_at, is_static as has_static, direct_value, each};
ghost use Rattle.ib_config.specs.PrivateGroups.{boot_of, machine_of, host_parts_of};
ghost use Rattle.ib_config.specs.PrivateScan.{held, linked_in};

use crate::assignments::Assignments;
use crate::fault::ConfigFault;
use crate::groups::{PortGroup, ShmGroup, read_ports, read_ranges, read_regions};
use crate::variables::{
    bad_value, flag_or_set, number_or, optional_file, optional_number, optional_text, required_file,
};
use std::alloc::{AllocError, Global};
use texts::{BaseSize, List, Text};

/// What a configuration says of one guest.
#[derive(Drop)]
pub(crate) struct Guest {
    pub(crate) kernel: Text,
    pub(crate) ramdisk: Option<Text>,
    pub(crate) cmd: Option<Text>,
    pub(crate) mem_mib: Option<u64>,
    pub(crate) vcpus: u32,
    pub(crate) vpl011: bool,
    pub(crate) static_mem: List<BaseSize>,
    pub(crate) direct_map: bool,
    pub(crate) passthrough_dtb: Option<Text>,
    pub(crate) shared_mem: List<ShmGroup>,
    pub(crate) evtchns: List<PortGroup>,
}

/// What a guest boots.
#[derive(Drop)]
pub(crate) struct Boot {
    pub(crate) kernel: Text,
    pub(crate) ramdisk: Option<Text>,
    pub(crate) cmd: Option<Text>,
}

/// The memory of a guest in MiB, its processors, and whether it has a virtual PL011.
#[derive(Clone, Copy)]
pub(crate) struct Machine {
    pub(crate) mem_mib: Option<u64>,
    pub(crate) vcpus: u32,
    pub(crate) vpl011: bool,
}

/// What a guest is given of the host.
#[derive(Drop)]
pub(crate) struct HostParts {
    pub(crate) static_mem: List<BaseSize>,
    pub(crate) direct_map: bool,
    pub(crate) passthrough_dtb: Option<Text>,
}

/// Whether a guest has static memory: its variable is assigned.
pub(crate) fn is_static(
    alloc: Global,
    assigned: &Assignments,
    guest: u32,
) -> Result<bool, AllocError>
    ensures { IfOk result (λ static. static ≡ has_static (held assigned.now) guest) }
{
    Ok(
        assigned
            .text(alloc, "DOMU_STATIC_MEM", Some(guest))?
            .is_some(),
    )
}

/// The ranges of a guest's static memory; none where the variable is missing.
#[tactic(auto, unfolding(crate::specs::Variables::value_of))]
fn static_mem(
    alloc: Global,
    assigned: &Assignments,
    guest: u32,
) -> Result<List<BaseSize>, ConfigFault>
    ensures { Gives (λ x. x) result (value_of (held assigned.now) table.DOMU_STATIC_MEM (Some guest)) }
{
    let Some(text) = assigned.text(alloc, "DOMU_STATIC_MEM", Some(guest))? else {
        return Ok(List::new(alloc));
    };
    match read_ranges(alloc, text.as_slice())? {
        Some(ranges) => {
            if ranges.is_empty() {
                bad_value(alloc, "DOMU_STATIC_MEM", Some(guest))
            } else {
                Ok(ranges)
            }
        }
        None => bad_value(alloc, "DOMU_STATIC_MEM", Some(guest)),
    }
}

/// The regions that a guest shares; none where the variable is missing.
#[tactic(auto, unfolding(crate::specs::Variables::value_of))]
fn shared_mem(
    alloc: Global,
    assigned: &Assignments,
    guest: u32,
) -> Result<List<ShmGroup>, ConfigFault>
    ensures { Gives (λ x. x) result (value_of (held assigned.now) table.DOMU_SHARED_MEM (Some guest)) }
{
    let Some(text) = assigned.text(alloc, "DOMU_SHARED_MEM", Some(guest))? else {
        return Ok(List::new(alloc));
    };
    match read_regions(alloc, text.as_slice())? {
        Some(regions) => {
            if regions.is_empty() {
                bad_value(alloc, "DOMU_SHARED_MEM", Some(guest))
            } else {
                Ok(regions)
            }
        }
        None => bad_value(alloc, "DOMU_SHARED_MEM", Some(guest)),
    }
}

/// The event channels of a guest; none where the variable is missing. `ports` has the groups of each guest.
#[tactic(auto, using(crate::proofs::GuestLemmas::port_lemmas), unfolding(crate::specs::Variables::value_of))]
fn event_channels(
    alloc: Global,
    assigned: &Assignments,
    ports: &[List<PortGroup>],
    count: u32,
    guest: u32,
) -> Result<List<PortGroup>, ConfigFault>
    requires { ports.now ≡ map (ports_at (held assigned.now)) (numbers 0 count) }
    ensures { Gives (λ x. x) result (value_of (held assigned.now) (table.DOMU_EVTCHNS (ports_at (held assigned.now)) count) (Some guest)) }
{
    let Some(text) = assigned.text(alloc, "DOMU_EVTCHNS", Some(guest))? else {
        return Ok(List::new(alloc));
    };
    match read_ports(alloc, text.as_slice())? {
        Some(groups) => {
            if groups.is_empty() || !all_linked(ports, groups.as_slice()) {
                bad_value(alloc, "DOMU_EVTCHNS", Some(guest))
            } else {
                Ok(groups)
            }
        }
        None => bad_value(alloc, "DOMU_EVTCHNS", Some(guest)),
    }
}

fn all_linked(ports: &[List<PortGroup>], groups: &[PortGroup]) -> bool
    ensures { result ≡ list_all (linked_in ports.now) groups.now }
{
    groups.iter().all(|group| is_linked(ports, *group))
}

/// Whether the peer of a group is a guest with a group of the peer's port.
fn is_linked(ports: &[List<PortGroup>], group: PortGroup) -> bool
    ensures { result ≡ linked_in ports.now group }
{
    let peer = group.peer as usize;
    if peer >= ports.len() {
        return false;
    }
    has_port(ports[peer].as_slice(), group.peer_port)
}

fn has_port(groups: &[PortGroup], port: u32) -> bool
    ensures { result ≡ list_any (λ g. g.port == port) groups.now }
{
    groups.iter().any(|group| group.port == port)
}

/// The port groups of a guest's text; none where its words are not whole groups.
fn guest_ports(
    alloc: Global,
    assigned: &Assignments,
    guest: u32,
) -> Result<List<PortGroup>, AllocError>
    ensures { IfOk result (λ ports. ports ≡ ports_at (held assigned.now) guest) }
{
    let Some(text) = assigned.text(alloc, "DOMU_EVTCHNS", Some(guest))? else {
        return Ok(List::new(alloc));
    };
    match read_ports(alloc, text.as_slice())? {
        Some(ports) => Ok(ports),
        None => Ok(List::new(alloc)),
    }
}

/// The port groups of each guest.
fn all_ports(
    alloc: Global,
    assigned: &Assignments,
    count: u32,
) -> Result<List<List<PortGroup>>, AllocError>
    ensures { IfOk result (λ ports. ports ≡ map (ports_at (held assigned.now)) (numbers 0 count)) }
{
    let mut ports = List::new(alloc);
    for guest in 0..count {
        ports.push(guest_ports(alloc, assigned, guest)?)?;
    }
    Ok(ports)
}

/// How many vCPUs a guest has.
fn vcpus(alloc: Global, assigned: &Assignments, guest: u32) -> Result<u32, ConfigFault>
    ensures { Gives (λ x. x) result (value_of (held assigned.now) table.DOMU_VCPUS (Some guest)) }
{
    match number_or(alloc, assigned, "DOMU_VCPUS", Some(guest), 1, 128, 1) {
        Ok(vcpus) => Ok(vcpus as u32),
        Err(fault) => Err(fault),
    }
}

/// Whether a guest is mapped directly; the variable is read with static memory alone.
fn direct_map(alloc: Global, assigned: &Assignments, guest: u32) -> Result<bool, ConfigFault>
    ensures { Gives (λ x. x) result (direct_value (held assigned.now) (has_static (held assigned.now) guest) guest) }
{
    if is_static(alloc, assigned, guest)? {
        flag_or_set(alloc, assigned, "DOMU_DIRECT_MAP", Some(guest))
    } else {
        Ok(false)
    }
}

/// How much memory a guest has, in MiB; without static memory it has 512 by default.
fn mem_mib(alloc: Global, assigned: &Assignments, guest: u32) -> Result<Option<u64>, ConfigFault>
    ensures { Gives (λ x. x) result (value_of (held assigned.now) (table.DOMU_MEM (has_static (held assigned.now) guest)) (Some guest)) }
{
    if is_static(alloc, assigned, guest)? {
        optional_number(alloc, assigned, "DOMU_MEM", Some(guest), 1, 1_048_576, None)
    } else {
        optional_number(
            alloc,
            assigned,
            "DOMU_MEM",
            Some(guest),
            1,
            1_048_576,
            Some(512),
        )
    }
}

/// What a guest boots.
fn read_boot(alloc: Global, assigned: &Assignments, guest: u32) -> Result<Boot, ConfigFault>
    ensures { Gives (λ x. x) result (boot_of (held assigned.now) guest) }
{
    let index = Some(guest);
    let kernel = required_file(alloc, assigned, "DOMU_KERNEL", index)?;
    let ramdisk = optional_file(alloc, assigned, "DOMU_RAMDISK", index)?;
    let cmd = optional_text(alloc, assigned, "DOMU_CMD", index)?;
    Ok(Boot {
        kernel,
        ramdisk,
        cmd,
    })
}

/// The memory of a guest, its processors and its console.
fn read_machine(alloc: Global, assigned: &Assignments, guest: u32) -> Result<Machine, ConfigFault>
    ensures { Gives (λ x. x) result (machine_of (held assigned.now) guest) }
{
    let mem_mib = mem_mib(alloc, assigned, guest)?;
    let vcpus = vcpus(alloc, assigned, guest)?;
    let vpl011 = flag_or_set(alloc, assigned, "DOMU_VPL011", Some(guest))?;
    Ok(Machine {
        mem_mib,
        vcpus,
        vpl011,
    })
}

/// What a guest is given of the host.
fn read_host_parts(
    alloc: Global,
    assigned: &Assignments,
    guest: u32,
) -> Result<HostParts, ConfigFault>
    ensures { Gives (λ x. x) result (host_parts_of (held assigned.now) guest) }
{
    let static_mem = static_mem(alloc, assigned, guest)?;
    let direct_map = direct_map(alloc, assigned, guest)?;
    let passthrough_dtb = optional_file(alloc, assigned, "DOMU_PASSTHROUGH_DTB", Some(guest))?;
    Ok(HostParts {
        static_mem,
        direct_map,
        passthrough_dtb,
    })
}

/// The variables of a guest, of so many guests, in the order in which they are tested.
fn read_guest(
    alloc: Global,
    assigned: &Assignments,
    ports: &[List<PortGroup>],
    count: u32,
    guest: u32,
) -> Result<Guest, ConfigFault>
    requires { ports.now ≡ map (ports_at (held assigned.now)) (numbers 0 count) }
    ensures { Gives (λ x. x) result (guest_settings (held assigned.now) count guest) }
{
    let boot = read_boot(alloc, assigned, guest)?;
    let machine = read_machine(alloc, assigned, guest)?;
    let parts = read_host_parts(alloc, assigned, guest)?;
    let shared_mem = shared_mem(alloc, assigned, guest)?;
    let evtchns = event_channels(alloc, assigned, ports, count, guest)?;
    Ok(Guest {
        kernel: boot.kernel,
        ramdisk: boot.ramdisk,
        cmd: boot.cmd,
        mem_mib: machine.mem_mib,
        vcpus: machine.vcpus,
        vpl011: machine.vpl011,
        static_mem: parts.static_mem,
        direct_map: parts.direct_map,
        passthrough_dtb: parts.passthrough_dtb,
        shared_mem,
        evtchns,
    })
}

/// The guests, or the first fault of one.
pub(crate) fn read_guests(
    alloc: Global,
    assigned: &Assignments,
    count: u32,
) -> Result<List<Guest>, ConfigFault>
    ensures value { Gives (λ x. x) result (each (guest_settings (held assigned.now) count) (numbers 0 count)) }
    ensures count { IfOk result (λ guests. length guests ≡ count) }
{
    let ports = all_ports(alloc, assigned, count)?;
    let mut guests = List::new(alloc);
    for guest in 0..count {
        let settings = read_guest(alloc, assigned, ports.as_slice(), count, guest)?;
        guests.push(settings)?;
    }
    Ok(guests)
}

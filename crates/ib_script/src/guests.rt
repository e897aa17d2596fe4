// Commands of guests.
ghost use Rattle.std.specs.Prelude.{◌≡◌, ◌≤◌, ◌<◌, ◌+◌, ◌++◌, IfOk, OnOk, IfSome, length, slice_get};
ghost use Rattle.std.specs.List.{flat_map};
ghost use Rattle.ib_placement.specs.Placement.{guest_files};
ghost use Rattle.ib_script.specs.Guests.{guest_path as path_of, node_commands, domain_commands, module_commands, link_commands, guest_commands, guests_commands};
ghost use Rattle.ib_script.specs.Phandles.{groups_before};

use crate::command::Command;
use crate::links::{put_channels, put_regions};
use crate::machine::{put_enhanced, put_machine, put_static};
use crate::modules::{one_if, place_at, places_behind, put_kernel, put_other_modules};
use crate::names::{below, numbered};
use crate::phandles::first_phandle;
use crate::properties::{put_node, put_two_and_two, put_word};
use ib_config::Config;
use ib_placement::FilePlace;
use std::alloc::{AllocError, Global};
use texts::{List, Text};

/// The path of a guest's node.
#[tactic(auto, unfolding(crate::specs::Guests::guest_path))]
fn guest_path(alloc: Global, guest: u32) -> Result<Text, AllocError>
    ensures { IfOk result (λ path. path ≡ path_of guest) }
{
    let name = numbered(alloc, "domU", guest as u64)?;
    below(alloc, "/chosen", name.as_str())
}

/// Adds the commands that make a guest's node.
fn put_guest_node(alloc: Global, out: &mut List<Command>, guest: u32) -> Result<(), AllocError>
    ensures { OnOk result (out.new ≡ out.old ++ node_commands guest) }
{
    let name = numbered(alloc, "domU", guest as u64)?;
    let node = guest_path(alloc, guest)?;
    let path = node.as_str();
    put_node(alloc, out, "/chosen", name.as_str())?;
    put_word(alloc, out, path, "compatible", "xen,domain")?;
    put_two_and_two(alloc, out, path)?;
    Ok(())
}

/// Adds the commands that say what a guest is.
fn put_domain(
    alloc: Global,
    out: &mut List<Command>,
    path: &str,
    config: &Config,
    guest: u32,
) -> Result<(), AllocError>
    requires guest { guest < length config.now.guests }
    requires path { path.now ≡ path_of guest }
    ensures { OnOk result (IfSome (slice_get config.now.guests guest) (λ g. out.new ≡ out.old ++ domain_commands guest g)) }
{
    config.known();
    let mib = config.mem_mib(guest);
    let vcpus = config.vcpus(guest);
    let vpl011 = config.vpl011(guest);
    let ranges = config.static_mem(guest).as_slice();
    let direct = config.direct_map(guest);
    let groups = config.evtchns(guest).as_slice();
    put_guest_node(alloc, out, guest)?;
    put_machine(alloc, out, path, mib, vcpus, vpl011)?;
    put_static(alloc, out, path, ranges, direct)?;
    put_enhanced(alloc, out, path, groups)?;
    Ok(())
}

/// Adds the commands of the modules that a guest is started from, whose files have the first of the places.
fn put_modules(
    alloc: Global,
    out: &mut List<Command>,
    path: &str,
    config: &Config,
    guest: u32,
    places: &[FilePlace],
) -> Result<(), AllocError>
    requires guest { guest < length config.now.guests }
    requires path { path.now ≡ path_of guest }
    requires places { IfSome (slice_get config.now.guests guest) (λ g. length (guest_files g) ≤ length places.now) }
    ensures { OnOk result (IfSome (slice_get config.now.guests guest) (λ g. out.new ≡ out.old ++ module_commands guest g places.now)) }
{
    let cmd = config.cmd(guest);
    let ramdisk = config.ramdisk(guest).is_some();
    let partial = config.passthrough_dtb(guest).is_some();
    let kernel = place_at(places, 0);
    put_kernel(alloc, out, path, cmd, kernel)?;
    put_other_modules(alloc, out, path, ramdisk, partial, places)?;
    Ok(())
}

/// Adds the commands of what a guest shares with others.
fn put_links(
    alloc: Global,
    out: &mut List<Command>,
    path: &str,
    config: &Config,
    guest: u32,
    highest: u32,
) -> Result<(), AllocError>
    requires guest { guest < length config.now.guests }
    requires path { path.now ≡ path_of guest }
    requires room { highest + groups_before config.now.guests (length config.now.guests) ≤ 0xfffffffe }
    ensures { OnOk result (IfSome (slice_get config.now.guests guest) (λ g. out.new ≡ out.old ++ link_commands config.now.guests highest guest g)) }
{
    let regions = config.shared_mem(guest).as_slice();
    let groups = config.evtchns(guest).as_slice();
    let first = first_phandle(config, highest, guest);
    put_regions(alloc, out, path, regions)?;
    put_channels(alloc, out, path, config, groups, first, highest)?;
    Ok(())
}

/// Adds the commands of a guest, whose files have the first of the places.
fn put_guest(
    alloc: Global,
    out: &mut List<Command>,
    config: &Config,
    guest: u32,
    places: &[FilePlace],
    highest: u32,
) -> Result<(), AllocError>
    requires guest { guest < length config.now.guests }
    requires places { IfSome (slice_get config.now.guests guest) (λ g. length (guest_files g) ≤ length places.now) }
    requires room { highest + groups_before config.now.guests (length config.now.guests) ≤ 0xfffffffe }
    ensures { OnOk result (IfSome (slice_get config.now.guests guest) (λ g. out.new ≡ out.old ++ guest_commands config.now.guests highest guest g places.now)) }
{
    let node = guest_path(alloc, guest)?;
    let path = node.as_str();
    put_domain(alloc, out, path, config, guest)?;
    put_modules(alloc, out, path, config, guest, places)?;
    put_links(alloc, out, path, config, guest, highest)?;
    Ok(())
}

/// How many files a guest has.
fn guest_file_count(config: &Config, guest: u32) -> usize
    requires { guest < length config.now.guests }
    ensures value { IfSome (slice_get config.now.guests guest) (λ g. result ≡ length (guest_files g)) }
    ensures few { result ≤ 3 }
{
    let ramdisk = config.ramdisk(guest).is_some();
    let partial = config.passthrough_dtb(guest).is_some();
    1 + one_if(ramdisk) + one_if(partial)
}

/// Adds the commands of all guests, whose files have the first of the places.
pub(crate) fn put_guests(
    alloc: Global,
    out: &mut List<Command>,
    config: &Config,
    places: &[FilePlace],
    highest: u32,
) -> Result<(), AllocError>
    requires places { length (flat_map guest_files config.now.guests) ≤ length places.now }
    requires room { highest + groups_before config.now.guests (length config.now.guests) ≤ 0xfffffffe }
    ensures { OnOk result (out.new ≡ out.old ++ guests_commands config.now.guests highest 0 config.now.guests places.now) }
{
    let mut left = places;
    for guest in 0..config.guests() {
        put_guest(alloc, out, config, guest, left, highest)?;
        left = places_behind(left, guest_file_count(config, guest));
    }
    Ok(())
}

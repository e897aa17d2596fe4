// The whole script, part by part.
ghost use Rattle.std.specs.Prelude.{◌≡◌, ◌≤◌, ◌+◌, ◌++◌, OnOk, map, length};
ghost use Rattle.std.specs.List.{flat_map};
ghost use Rattle.ib_placement.specs.Placement.{dom0_files, guest_files, files_of};
ghost use Rattle.ib_placement.specs.declared.places.FilePlace.{FilePlace as Place};
ghost use Rattle.ib_script.specs.Phandles.{groups_before};
ghost use Rattle.ib_script.specs.Script.{domains_commands, script_of};

use crate::command::Command;
use crate::guests::put_guests;
use crate::make::{HostFacts, LoadKind};
use crate::modules::{one_if, place_at, places_behind, put_dom0};
use crate::start::{put_chosen, put_loads, put_start, put_tree};
use ib_config::Config;
use ib_placement::FilePlace;
use std::alloc::{AllocError, Global};
use texts::List;

/// Adds the commands of dom0 and of the guests, whose files have the first of the places.
fn put_domains(
    alloc: Global,
    out: &mut List<Command>,
    config: &Config,
    places: &[FilePlace],
    highest: u32,
) -> Result<(), AllocError>
    requires places { length (dom0_files config.now) + length (flat_map guest_files config.now.guests) ≤ length places.now }
    requires room { highest + groups_before config.now.guests (length config.now.guests) ≤ 0xfffffffe }
    ensures { OnOk result (out.new ≡ out.old ++ domains_commands config.now highest places.now) }
{
    let kernel = config.dom0_kernel().is_some();
    let ramdisk = config.dom0_ramdisk().is_some();
    let guests = places_behind(places, one_if(kernel) + one_if(ramdisk));
    put_dom0(alloc, out, kernel, config.dom0_cmd(), ramdisk, places)?;
    put_guests(alloc, out, config, guests, highest)?;
    Ok(())
}

/// Adds the whole script.
pub(crate) fn put_script(
    alloc: Global,
    out: &mut List<Command>,
    config: &Config,
    places: &[FilePlace],
    facts: HostFacts,
    kind: LoadKind,
) -> Result<(), AllocError>
    requires names { map (λ (p : Place). p.name) places.now ≡ files_of config.now }
    requires room { facts.highest + groups_before config.now.guests (length config.now.guests) ≤ 0xfffffffe }
    ensures { OnOk result (out.new ≡ out.old ++ script_of config.now places.now facts kind) }
{
    let xen = place_at(places, 0).address;
    let tree = place_at(places, places.len() - 1).address;
    let behind_xen = places_behind(places, 1);
    put_loads(alloc, out, places, kind)?;
    put_tree(alloc, out, tree, facts.chosen)?;
    put_chosen(alloc, out, config.xen_cmd().as_str())?;
    put_domains(alloc, out, config, behind_xen, facts.highest)?;
    put_start(alloc, out, xen, tree)?;
    Ok(())
}

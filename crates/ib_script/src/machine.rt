// Commands that give a guest its memory, its vCPUs and its console.
ghost use Rattle.std.specs.Prelude.{◌≡◌, ◌≤◌, ◌*◌, ◌++◌, ◌∷◌, [], OnOk, IfSome, codes};
ghost use Rattle.std.specs.List.{flat_map};
ghost use Rattle.ib_script.specs.Guests.{machine_commands, range_cells, static_properties, static_commands, enhanced_commands};
ghost use Rattle.ib_script.specs.Properties.{two_cells, cells, on_some};

use crate::command::Command;
use crate::properties::{push_two, put_cell, put_cells, put_flag_where, put_wide, put_word};
use ib_config::PortGroup;
use std::alloc::{AllocError, Global};
use texts::{BaseSize, List};

/// Adds the command of a guest's memory in KiB, if it has memory beside its static memory.
fn put_memory(
    alloc: Global,
    out: &mut List<Command>,
    path: &str,
    mib: Option<u64>,
) -> Result<(), AllocError>
    requires { IfSome mib (λ mib. mib ≤ 1048576) }
    ensures { OnOk result (out.new ≡ out.old ++ on_some mib (λ mib. Command.Set path.now (codes "memory") (cells (two_cells (mib * 1024))) ∷ [])) }
{
    match mib {
        Some(mib) => put_wide(alloc, out, path, "memory", &[mib * 1024]),
        None => Ok(()),
    }
}

/// Adds the commands of a guest's memory, vCPUs and console.
pub(crate) fn put_machine(
    alloc: Global,
    out: &mut List<Command>,
    path: &str,
    mib: Option<u64>,
    vcpus: u32,
    vpl011: bool,
) -> Result<(), AllocError>
    requires { IfSome mib (λ mib. mib ≤ 1048576) }
    ensures { OnOk result (out.new ≡ out.old ++ machine_commands path.now mib vcpus vpl011) }
{
    put_memory(alloc, out, path, mib)?;
    put_cell(alloc, out, path, "cpus", vcpus)?;
    put_flag_where(alloc, out, path, "vpl011", vpl011)?;
    Ok(())
}

/// Adds the command of the ranges of a guest's static memory.
fn put_ranges(
    alloc: Global,
    out: &mut List<Command>,
    path: &str,
    ranges: &[BaseSize],
) -> Result<(), AllocError>
    ensures { OnOk result (out.new ≡ out.old ++ Command.Set path.now (codes "xen,static-mem") (cells (flat_map range_cells ranges.now)) ∷ []) }
{
    let mut numbers = List::new(alloc);
    for range in ranges {
        push_two(&mut numbers, range.base)?;
        push_two(&mut numbers, range.size)?;
    }
    put_cells(alloc, out, path, "xen,static-mem", numbers)?;
    Ok(())
}

/// Adds the properties of static memory.
fn put_static_properties(
    alloc: Global,
    out: &mut List<Command>,
    path: &str,
    ranges: &[BaseSize],
    direct: bool,
) -> Result<(), AllocError>
    ensures { OnOk result (out.new ≡ out.old ++ static_properties path.now ranges.now direct) }
{
    put_cell(alloc, out, path, "#xen,static-mem-address-cells", 2)?;
    put_cell(alloc, out, path, "#xen,static-mem-size-cells", 2)?;
    put_ranges(alloc, out, path, ranges)?;
    put_flag_where(alloc, out, path, "direct-map", direct)?;
    Ok(())
}

/// Adds the commands of a guest's static memory, if it has any.
#[tactic(auto, unfolding(crate::specs::Guests::static_commands))]
pub(crate) fn put_static(
    alloc: Global,
    out: &mut List<Command>,
    path: &str,
    ranges: &[BaseSize],
    direct: bool,
) -> Result<(), AllocError>
    ensures { OnOk result (out.new ≡ out.old ++ static_commands path.now ranges.now direct) }
{
    if ranges.is_empty() {
        Ok(())
    } else {
        put_static_properties(alloc, out, path, ranges, direct)
    }
}

/// Adds the command that makes a guest enhanced, if it has event channels.
#[tactic(auto, unfolding(crate::specs::Guests::enhanced_commands))]
pub(crate) fn put_enhanced(
    alloc: Global,
    out: &mut List<Command>,
    path: &str,
    groups: &[PortGroup],
) -> Result<(), AllocError>
    ensures { OnOk result (out.new ≡ out.old ++ enhanced_commands path.now groups.now) }
{
    if groups.is_empty() {
        Ok(())
    } else {
        put_word(alloc, out, path, "xen,enhanced", "no-xenstore")
    }
}

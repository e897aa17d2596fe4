// The warnings of guests.
ghost use Rattle.std.specs.Prelude.{◌≡◌, ◌<◌, ◌++◌, OnOk, Some, length, option_map, slice_get};
ghost use Rattle.ib_config_lint.specs.Warnings.{kernel_warnings, memory_warnings, link_warnings, guest_warnings, guests_warnings};

use crate::configuration::{add_file, add_optional_file, add_optional_text, add_where};
use crate::rows::{crosses, has_high_port, has_many_ranges, lacks_memory};
use crate::warning::{Trouble, Variable, Warning};
use ib_config::Config;
use std::alloc::AllocError;
use texts::List;

/// Adds the rows of a guest's files and its command line.
#[tactic(auto, unfolding(crate::specs::Warnings::kernel_warnings))]
fn add_kernel(found: &mut List<Warning>, config: &Config, guest: u32) -> Result<(), AllocError>
    requires { guest < length config.now.guests }
    ensures { OnOk result (option_map (λ g. found.old ++ kernel_warnings guest g) (slice_get config.now.guests guest) ≡ Some found.new) }
{
    add_file(
        found,
        Variable::DomuKernel(guest),
        config.kernel(guest).as_str(),
    )?;
    add_optional_file(found, Variable::DomuRamdisk(guest), config.ramdisk(guest))?;
    add_optional_text(found, Variable::DomuCmd(guest), config.cmd(guest))
}

/// Adds the rows of a guest's memory.
#[tactic(auto, unfolding(crate::specs::Warnings::memory_warnings))]
fn add_memory(found: &mut List<Warning>, config: &Config, guest: u32) -> Result<(), AllocError>
    requires { guest < length config.now.guests }
    ensures { OnOk result (option_map (λ g. found.old ++ memory_warnings guest g) (slice_get config.now.guests guest) ≡ Some found.new) }
{
    let ranges = config.static_mem(guest).as_slice();
    let lacks = lacks_memory(ranges, config.mem_mib(guest));
    add_where(found, lacks, Variable::DomuMem(guest), Trouble::NoMemory)?;
    let many = has_many_ranges(ranges);
    let variable = Variable::DomuStaticMem(guest);
    add_where(found, many, variable, Trouble::ManyRanges)?;
    let crossed = !config.direct_map(guest) && crosses(ranges);
    add_where(found, crossed, variable, Trouble::CrossedBank)
}

/// Adds the rows of a guest's partial device tree and its event channels.
#[tactic(auto, unfolding(crate::specs::Warnings::link_warnings))]
fn add_links(found: &mut List<Warning>, config: &Config, guest: u32) -> Result<(), AllocError>
    requires { guest < length config.now.guests }
    ensures { OnOk result (option_map (λ g. found.old ++ link_warnings guest g) (slice_get config.now.guests guest) ≡ Some found.new) }
{
    let partial = config.passthrough_dtb(guest);
    add_optional_file(found, Variable::DomuPassthroughDtb(guest), partial)?;
    let high = has_high_port(config.evtchns(guest).as_slice());
    add_where(found, high, Variable::DomuEvtchns(guest), Trouble::HighPort)
}

/// Adds the rows of a guest.
fn add_guest(found: &mut List<Warning>, config: &Config, guest: u32) -> Result<(), AllocError>
    requires { guest < length config.now.guests }
    ensures { OnOk result (option_map (λ g. found.old ++ guest_warnings guest g) (slice_get config.now.guests guest) ≡ Some found.new) }
{
    add_kernel(found, config, guest)?;
    add_memory(found, config, guest)?;
    add_links(found, config, guest)
}

/// Adds the rows of each guest.
pub(crate) fn add_guests(found: &mut List<Warning>, config: &Config) -> Result<(), AllocError>
    ensures { OnOk result (found.new ≡ found.old ++ guests_warnings 0 config.now.guests) }
{
    for guest in 0..config.guests() {
        add_guest(found, config, guest)?;
    }
    Ok(())
}

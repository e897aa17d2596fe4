// The lines of a guest.
ghost use Rattle.std.specs.Prelude.{◌≡◌, ◌<◌, ◌++◌, codes, OnOk, IfSome, length, option_map, slice_get, string_bytes, decimal};
ghost use Rattle.ib_config_show.specs.Lines.{optional_line};
ghost use Rattle.ib_config_show.specs.Shown.{kernel_lines, machine_lines, direct_line, static_lines, shared_lines, guest_lines};

use crate::line::{put_list, put_number, put_optional, put_switch, put_text};
use ib_config::Config;
use std::alloc::AllocError;
use texts::BaseSize;

#[tactic(auto, unfolding(crate::specs::Shown::kernel_lines))]
fn put_kernel(out: &mut String, config: &Config, guest: u32) -> Result<(), AllocError>
    requires { guest < length config.now.guests }
    ensures { OnOk result (IfSome (slice_get config.now.guests guest) (λ g. string_bytes out.new ≡ string_bytes out.old ++ kernel_lines guest g)) }
{
    let index = Some(guest);
    put_text(out, "DOMU_KERNEL", index, config.kernel(guest).as_str())?;
    put_optional(out, "DOMU_RAMDISK", index, config.ramdisk(guest))?;
    put_optional(out, "DOMU_CMD", index, config.cmd(guest))?;
    Ok(())
}

#[tactic(auto, unfolding(crate::specs::Lines::optional_line))]
fn put_memory(out: &mut String, guest: u32, mib: Option<u64>) -> Result<(), AllocError>
    ensures { OnOk result (string_bytes out.new ≡ string_bytes out.old ++ optional_line (codes "DOMU_MEM") (Some guest) (option_map decimal mib)) }
{
    match mib {
        Some(mib) => put_number(out, "DOMU_MEM", Some(guest), mib),
        None => Ok(()),
    }
}

#[tactic(auto, unfolding(crate::specs::Shown::machine_lines))]
fn put_machine(out: &mut String, config: &Config, guest: u32) -> Result<(), AllocError>
    requires { guest < length config.now.guests }
    ensures { OnOk result (IfSome (slice_get config.now.guests guest) (λ g. string_bytes out.new ≡ string_bytes out.old ++ machine_lines guest g)) }
{
    let index = Some(guest);
    put_memory(out, guest, config.mem_mib(guest))?;
    put_number(out, "DOMU_VCPUS", index, config.vcpus(guest) as u64)?;
    put_switch(out, "DOMU_VPL011", index, config.vpl011(guest))
}

#[tactic(auto, unfolding(crate::specs::Shown::direct_line))]
fn put_direct(
    out: &mut String,
    guest: u32,
    ranges: &[BaseSize],
    direct: bool,
) -> Result<(), AllocError>
    ensures { OnOk result (string_bytes out.new ≡ string_bytes out.old ++ direct_line guest ranges.now direct) }
{
    if ranges.is_empty() {
        return Ok(());
    }
    put_switch(out, "DOMU_DIRECT_MAP", Some(guest), direct)
}

#[tactic(auto, unfolding(crate::specs::Shown::static_lines))]
fn put_static(out: &mut String, config: &Config, guest: u32) -> Result<(), AllocError>
    requires { guest < length config.now.guests }
    ensures { OnOk result (IfSome (slice_get config.now.guests guest) (λ g. string_bytes out.new ≡ string_bytes out.old ++ static_lines guest g)) }
{
    let ranges = config.static_mem(guest).as_slice();
    put_list(out, "DOMU_STATIC_MEM", Some(guest), ranges)?;
    put_direct(out, guest, ranges, config.direct_map(guest))?;
    Ok(())
}

#[tactic(auto, unfolding(crate::specs::Shown::shared_lines))]
fn put_shared(out: &mut String, config: &Config, guest: u32) -> Result<(), AllocError>
    requires { guest < length config.now.guests }
    ensures { OnOk result (IfSome (slice_get config.now.guests guest) (λ g. string_bytes out.new ≡ string_bytes out.old ++ shared_lines guest g)) }
{
    let index = Some(guest);
    put_optional(
        out,
        "DOMU_PASSTHROUGH_DTB",
        index,
        config.passthrough_dtb(guest),
    )?;
    put_list(
        out,
        "DOMU_SHARED_MEM",
        index,
        config.shared_mem(guest).as_slice(),
    )?;
    put_list(out, "DOMU_EVTCHNS", index, config.evtchns(guest).as_slice())?;
    Ok(())
}

/// Adds the lines of a guest by its number.
pub(crate) fn put_guest(out: &mut String, config: &Config, guest: u32) -> Result<(), AllocError>
    requires { guest < length config.now.guests }
    ensures { OnOk result (IfSome (slice_get config.now.guests guest) (λ g. string_bytes out.new ≡ string_bytes out.old ++ guest_lines guest g)) }
{
    put_kernel(out, config, guest)?;
    put_machine(out, config, guest)?;
    put_static(out, config, guest)?;
    put_shared(out, config, guest)?;
    Ok(())
}

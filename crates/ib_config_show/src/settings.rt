// All that a configuration says.
ghost use Rattle.std.specs.Prelude.{◌≡◌, ◌++◌, OnOk, IfOk, string_bytes};
ghost use Rattle.std.specs.List.{flat_map};
ghost use Rattle.ib_config_show.specs.Lines.{unused_line};
ghost use Rattle.ib_config_show.specs.Shown.{host_lines, domain_lines, guests_lines, config_lines};

use crate::guest::put_guest;
use crate::line::{put_address, put_number, put_optional, put_text, put_unused};
use ib_config::Config;
use std::alloc::{AllocError, Global};
use texts::Text;

#[tactic(auto, unfolding(crate::specs::Shown::host_lines))]
fn put_host(out: &mut String, config: &Config) -> Result<(), AllocError>
    ensures { OnOk result (string_bytes out.new ≡ string_bytes out.old ++ host_lines config.now) }
{
    put_address(out, "MEMORY_START", config.memory_start())?;
    put_address(out, "MEMORY_END", config.memory_end())?;
    put_text(out, "DEVICE_TREE", None, config.device_tree().as_str())?;
    put_text(out, "XEN", None, config.xen().as_str())?;
    put_text(out, "XEN_CMD", None, config.xen_cmd().as_str())?;
    Ok(())
}

#[tactic(auto, unfolding(crate::specs::Shown::domain_lines))]
fn put_domains(out: &mut String, config: &Config) -> Result<(), AllocError>
    ensures { OnOk result (string_bytes out.new ≡ string_bytes out.old ++ domain_lines config.now) }
{
    put_optional(out, "DOM0_KERNEL", None, config.dom0_kernel())?;
    put_optional(out, "DOM0_RAMDISK", None, config.dom0_ramdisk())?;
    put_optional(out, "DOM0_CMD", None, config.dom0_cmd())?;
    put_number(out, "NUM_DOMUS", None, config.guests() as u64)?;
    Ok(())
}

fn put_guests(out: &mut String, config: &Config) -> Result<(), AllocError>
    ensures { OnOk result (string_bytes out.new ≡ string_bytes out.old ++ guests_lines 0 config.now.guests) }
{
    for guest in 0..config.guests() {
        put_guest(out, config, guest)?;
    }
    Ok(())
}

fn put_unused_names(out: &mut String, names: &[Text]) -> Result<(), AllocError>
    ensures { OnOk result (string_bytes out.new ≡ string_bytes out.old ++ flat_map unused_line names.now) }
{
    for name in names {
        put_unused(out, name.as_str())?;
    }
    Ok(())
}

/// What a configuration says: a line for each variable that is set or has a value, in the order in which the variables
/// are tested, and a line for each name that has no effect.
pub(crate) fn show_config(alloc: Global, config: &Config) -> Result<String, AllocError>
    ensures { IfOk result (λ text. string_bytes text ≡ config_lines config.now) }
{
    let mut out = String::new(alloc);
    put_host(&mut out, config)?;
    put_domains(&mut out, config)?;
    put_guests(&mut out, config)?;
    put_unused_names(&mut out, config.unused().as_slice())?;
    Ok(out)
}

// The variables of a configuration.
ghost use Rattle.std.specs.Prelude.{◌≡◌, ◌≤◌, IfOk, length};
ghost use Rattle.ib_config.specs.Settings.{Gives, settings_of};
ghost use Rattle.ib_config.specs.PrivateGroups.{base_of, dom0_of};
ghost use Rattle.ib_config.specs.PrivateScan.{held};

use crate::assignments::Assignments;
use crate::fault::ConfigFault;
use crate::guests::{Guest, read_guests};
use crate::unused::read_unused;
use crate::variables::{
    guest_count, optional_file, optional_text, required_file, required_number, text_or,
};
use std::alloc::Global;
use texts::{List, Text};

/// What a configuration says.
#[derive(Drop)]
pub(crate) struct Settings {
    pub(crate) memory_start: u64,
    pub(crate) memory_end: u64,
    pub(crate) device_tree: Text,
    pub(crate) xen: Text,
    pub(crate) xen_cmd: Text,
    pub(crate) dom0_kernel: Option<Text>,
    pub(crate) dom0_ramdisk: Option<Text>,
    pub(crate) dom0_cmd: Option<Text>,
    pub(crate) guests: List<Guest>,
    pub(crate) unused: List<Text>,
}

/// The memory that files are placed in, the host's tree, and Xen.
#[derive(Drop)]
pub(crate) struct Base {
    pub(crate) memory_start: u64,
    pub(crate) memory_end: u64,
    pub(crate) device_tree: Text,
    pub(crate) xen: Text,
    pub(crate) xen_cmd: Text,
}

/// What dom0 is started with.
#[derive(Drop)]
pub(crate) struct Dom0 {
    pub(crate) kernel: Option<Text>,
    pub(crate) ramdisk: Option<Text>,
    pub(crate) cmd: Option<Text>,
}

/// The highest address that a configuration may name, in bytes.
const TOP: u64 = 1 << 40;

/// The memory that files are placed in, the host's tree, and Xen.
fn read_base(alloc: Global, assigned: &Assignments) -> Result<Base, ConfigFault>
    ensures { Gives (λ x. x) result (base_of (held assigned.now)) }
{
    let memory_start = required_number(alloc, assigned, "MEMORY_START", None, 0, TOP)?;
    let memory_end = required_number(alloc, assigned, "MEMORY_END", None, 0, TOP)?;
    let device_tree = required_file(alloc, assigned, "DEVICE_TREE", None)?;
    let xen = required_file(alloc, assigned, "XEN", None)?;
    let xen_cmd = text_or(alloc, assigned, "XEN_CMD", None, "console=dtuart")?;
    Ok(Base {
        memory_start,
        memory_end,
        device_tree,
        xen,
        xen_cmd,
    })
}

/// What dom0 is started with.
fn read_dom0(alloc: Global, assigned: &Assignments) -> Result<Dom0, ConfigFault>
    ensures { Gives (λ x. x) result (dom0_of (held assigned.now)) }
{
    let kernel = optional_file(alloc, assigned, "DOM0_KERNEL", None)?;
    let ramdisk = optional_file(alloc, assigned, "DOM0_RAMDISK", None)?;
    let cmd = optional_text(alloc, assigned, "DOM0_CMD", None)?;
    Ok(Dom0 {
        kernel,
        ramdisk,
        cmd,
    })
}

/// The variables in the order in which they are tested: each value, or the first fault.
pub(crate) fn read_settings(alloc: Global, assigned: &Assignments) -> Result<Settings, ConfigFault>
    ensures value { Gives (λ x. x) result (settings_of (held assigned.now)) }
    ensures few { IfOk result (λ settings. length settings.guests ≤ 16) }
{
    let base = read_base(alloc, assigned)?;
    let dom0 = read_dom0(alloc, assigned)?;
    let count = guest_count(alloc, assigned)?;
    let guests = read_guests(alloc, assigned, count)?;
    let unused = read_unused(alloc, assigned, count)?;
    Ok(Settings {
        memory_start: base.memory_start,
        memory_end: base.memory_end,
        device_tree: base.device_tree,
        xen: base.xen,
        xen_cmd: base.xen_cmd,
        dom0_kernel: dom0.kernel,
        dom0_ramdisk: dom0.ramdisk,
        dom0_cmd: dom0.cmd,
        guests,
        unused,
    })
}

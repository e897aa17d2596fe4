// A configuration that was read.
ghost use Rattle.std.specs.Prelude.{◌≡◌, ◌<◌, ◌≤◌, length, slice_get, Some, option_map};
ghost use Rattle.std.specs.Option.{option_copied};
ghost use Rattle.ib_config.specs.Settings.{config_of, Gives, IsConfig};

use crate::assignments::read_assignments;
use crate::fault::ConfigFault;
use crate::groups::{PortGroup, ShmGroup};
use crate::guests::Guest;
use crate::settings::{Settings, read_settings};
use std::alloc::Global;
use std::marker::Model;
use texts::{BaseSize, List, Text};

/// What a configuration says: each variable's value, with its default.
#[derive(Drop)]
pub struct Config {
    settings: Settings,
}

impl Model for Config {
    ghost use Rattle.ib_config.specs.Settings.{IsConfig};
    ghost use Rattle.ib_config.specs.declared.settings.Settings.{Settings as TheSettings};
    ghost use Rattle.std.specs.Prelude.{length, ◌≤◌};

    ghost Value = { TheSettings };

    ghost view = { λ c. c.settings };

    ghost invariant = { λ c. (length c.settings.guests ≤ 16) × IsConfig c.settings };
}

impl Config {
    /// The settings are those of some file.
    pub fn known(&self)
        ensures { IsConfig self.now }
    {
        let _ = &self.settings;
    }

    /// The first address of the memory that files are placed in, in bytes.
    pub fn memory_start(&self) -> u64
        ensures { result ≡ self.now.memory_start }
    {
        self.settings.memory_start
    }

    /// The end of that memory, in bytes.
    pub fn memory_end(&self) -> u64
        ensures { result ≡ self.now.memory_end }
    {
        self.settings.memory_end
    }

    /// The file of the host's device tree.
    pub fn device_tree(&self) -> &Text
        ensures { result.now ≡ self.now.device_tree }
    {
        &self.settings.device_tree
    }

    /// The file of Xen.
    pub fn xen(&self) -> &Text
        ensures { result.now ≡ self.now.xen }
    {
        &self.settings.xen
    }

    /// The command line of Xen.
    pub fn xen_cmd(&self) -> &Text
        ensures { result.now ≡ self.now.xen_cmd }
    {
        &self.settings.xen_cmd
    }

    /// The file of dom0's kernel, if there is one.
    pub fn dom0_kernel(&self) -> Option<&Text>
        ensures { option_copied result ≡ self.now.dom0_kernel }
    {
        self.settings.dom0_kernel.as_ref()
    }

    /// The file of dom0's ramdisk, if there is one.
    pub fn dom0_ramdisk(&self) -> Option<&Text>
        ensures { option_copied result ≡ self.now.dom0_ramdisk }
    {
        self.settings.dom0_ramdisk.as_ref()
    }

    /// The command line of dom0, if there is one.
    pub fn dom0_cmd(&self) -> Option<&Text>
        ensures { option_copied result ≡ self.now.dom0_cmd }
    {
        self.settings.dom0_cmd.as_ref()
    }

    /// How many guests there are, at most 16.
    pub fn guests(&self) -> u32
        ensures count { result ≡ length self.now.guests }
        ensures few { result ≤ 16 }
    {
        self.settings.guests.len() as u32
    }

    fn guest(&self, guest: u32) -> &Guest
        requires { guest < length self.now.guests }
        ensures { slice_get self.now.guests guest ≡ Some result.now }
    {
        &self.settings.guests.as_slice()[guest as usize]
    }

    /// The file of a guest's kernel.
    pub fn kernel(&self, guest: u32) -> &Text
        requires { guest < length self.now.guests }
        ensures { option_map (λ g. g.kernel) (slice_get self.now.guests guest) ≡ Some result.now }
    {
        &self.guest(guest).kernel
    }

    /// The file of a guest's ramdisk, if it has one.
    pub fn ramdisk(&self, guest: u32) -> Option<&Text>
        requires { guest < length self.now.guests }
        ensures { option_map (λ g. g.ramdisk) (slice_get self.now.guests guest) ≡ Some (option_copied result) }
    {
        self.guest(guest).ramdisk.as_ref()
    }

    /// The command line of a guest, if it has one.
    pub fn cmd(&self, guest: u32) -> Option<&Text>
        requires { guest < length self.now.guests }
        ensures { option_map (λ g. g.cmd) (slice_get self.now.guests guest) ≡ Some (option_copied result) }
    {
        self.guest(guest).cmd.as_ref()
    }

    /// The memory of a guest in MiB; none where it has static memory alone.
    pub fn mem_mib(&self, guest: u32) -> Option<u64>
        requires { guest < length self.now.guests }
        ensures { option_map (λ g. g.mem_mib) (slice_get self.now.guests guest) ≡ Some result }
    {
        self.guest(guest).mem_mib
    }

    /// How many vCPUs a guest has.
    pub fn vcpus(&self, guest: u32) -> u32
        requires { guest < length self.now.guests }
        ensures { option_map (λ g. g.vcpus) (slice_get self.now.guests guest) ≡ Some result }
    {
        self.guest(guest).vcpus
    }

    /// Whether a guest has a virtual PL011.
    pub fn vpl011(&self, guest: u32) -> bool
        requires { guest < length self.now.guests }
        ensures { option_map (λ g. g.vpl011) (slice_get self.now.guests guest) ≡ Some result }
    {
        self.guest(guest).vpl011
    }

    /// The host ranges of a guest's static memory; none where it was not set.
    pub fn static_mem(&self, guest: u32) -> &List<BaseSize>
        requires { guest < length self.now.guests }
        ensures { option_map (λ g. g.static_mem) (slice_get self.now.guests guest) ≡ Some result.now }
    {
        &self.guest(guest).static_mem
    }

    /// Whether a guest with static memory is mapped directly.
    pub fn direct_map(&self, guest: u32) -> bool
        requires { guest < length self.now.guests }
        ensures { option_map (λ g. g.direct_map) (slice_get self.now.guests guest) ≡ Some result }
    {
        self.guest(guest).direct_map
    }

    /// The file of a guest's partial device tree, if it has one.
    pub fn passthrough_dtb(&self, guest: u32) -> Option<&Text>
        requires { guest < length self.now.guests }
        ensures { option_map (λ g. g.passthrough_dtb) (slice_get self.now.guests guest) ≡ Some (option_copied result) }
    {
        self.guest(guest).passthrough_dtb.as_ref()
    }

    /// The regions that a guest shares; none where it was not set.
    pub fn shared_mem(&self, guest: u32) -> &List<ShmGroup>
        requires { guest < length self.now.guests }
        ensures { option_map (λ g. g.shared_mem) (slice_get self.now.guests guest) ≡ Some result.now }
    {
        &self.guest(guest).shared_mem
    }

    /// The event channels of a guest; none where it was not set.
    pub fn evtchns(&self, guest: u32) -> &List<PortGroup>
        requires { guest < length self.now.guests }
        ensures { option_map (λ g. g.evtchns) (slice_get self.now.guests guest) ≡ Some result.now }
    {
        &self.guest(guest).evtchns
    }

    /// The assigned names that have no effect, with `[n]` where they have an index, in the order of their first
    /// assignments.
    pub fn unused(&self) -> &List<Text>
        ensures { result.now ≡ self.now.unused }
    {
        &self.settings.unused
    }
}

/// Reads a configuration of ImageBuilder. The first line at fault is refused, else the first variable at fault.
pub fn read_config(alloc: Global, bytes: &[u8]) -> Result<Config, ConfigFault>
    ensures { Gives (λ config. config) result (config_of bytes.now) }
{
    let assigned = read_assignments(alloc, bytes)?;
    let settings = read_settings(alloc, &assigned)?;
    Ok(Config { settings })
}

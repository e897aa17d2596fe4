// The files of a configuration, in the order in which they are placed.
ghost use Rattle.std.specs.Prelude.{◌≡◌, ◌<◌, ◌∷◌, ◌++◌, [], OnOk, IfOk, Some, length, slice_get, option_map, option_to_list};
ghost use Rattle.std.specs.Option.{option_copied};
ghost use Rattle.std.specs.List.{flat_map};
ghost use Rattle.ib_placement.specs.Placement.{guest_files, files_of};

use ib_config::Config;
use std::alloc::{AllocError, Global};
use texts::{List, Text};

/// The names of a configuration's files, in the order in which they are placed: Xen, dom0's kernel and ramdisk, each
/// guest's kernel, ramdisk and partial device tree, and the host's device tree. A file that is not set is left out.
#[tactic(auto, unfolding(crate::specs::Placement::files_of))]
pub fn files(alloc: Global, config: &Config) -> Result<List<Text>, AllocError>
    ensures { IfOk result (λ names. names ≡ files_of config.now) }
{
    let mut names = List::new(alloc);
    push_name(alloc, &mut names, config.xen())?;
    push_optional(alloc, &mut names, config.dom0_kernel())?;
    push_optional(alloc, &mut names, config.dom0_ramdisk())?;
    push_guests(alloc, &mut names, config)?;
    push_name(alloc, &mut names, config.device_tree())?;
    Ok(names)
}

/// Adds the files of each guest.
fn push_guests(alloc: Global, names: &mut List<Text>, config: &Config) -> Result<(), AllocError>
    ensures { OnOk result (names.new ≡ names.old ++ flat_map guest_files config.now.guests) }
{
    for guest in 0..config.guests() {
        push_guest(alloc, names, config, guest)?;
    }
    Ok(())
}

/// Adds the files of a guest.
fn push_guest(
    alloc: Global,
    names: &mut List<Text>,
    config: &Config,
    guest: u32,
) -> Result<(), AllocError>
    requires { guest < length config.now.guests }
    ensures { OnOk result (option_map (λ g. names.old ++ guest_files g) (slice_get config.now.guests guest) ≡ Some names.new) }
{
    push_name(alloc, names, config.kernel(guest))?;
    push_optional(alloc, names, config.ramdisk(guest))?;
    push_optional(alloc, names, config.passthrough_dtb(guest))
}

/// Adds a file, if it is set.
fn push_optional(
    alloc: Global,
    names: &mut List<Text>,
    name: Option<&Text>,
) -> Result<(), AllocError>
    ensures { OnOk result (names.new ≡ names.old ++ option_to_list (option_copied name.entry)) }
{
    match name {
        Some(name) => push_name(alloc, names, name),
        None => Ok(()),
    }
}

/// Adds a file.
fn push_name(alloc: Global, names: &mut List<Text>, name: &Text) -> Result<(), AllocError>
    ensures { OnOk result (names.new ≡ names.old ++ name.now ∷ []) }
{
    let mut copy = Text::new(alloc);
    copy.append(name.as_str())?;
    names.push(copy)
}

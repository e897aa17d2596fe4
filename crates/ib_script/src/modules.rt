// Commands of the modules of dom0 and of guests.
ghost use Rattle.std.specs.Prelude.{◌≡◌, ◌≤◌, ◌<◌, ◌++◌, true, OnOk, codes, length, drop};
ghost use Rattle.std.specs.Option.{option_copied};
ghost use Rattle.ib_script.specs.Guests.{kernel_commands, other_modules};
ghost use Rattle.ib_script.specs.PrivateCounts.{file_count};
ghost use Rattle.ib_script.specs.Properties.{on, module_at, place_at as the_place, one_if as one_where};
ghost use Rattle.ib_script.specs.Script.{dom0_commands};
ghost use Rattle.ib_script.specs.PrivateCounts.{dom0_count};

use crate::command::Command;
use crate::names::below;
use crate::properties::{put_module, put_optional_word};
use ib_placement::FilePlace;
use std::alloc::{AllocError, Global};
use texts::{List, Text};

/// One of the places.
pub(crate) fn place_at(places: &[FilePlace], index: usize) -> &FilePlace
    requires { index < length places.now }
    ensures { result.now ≡ the_place places.now index }
{
    &places[index]
}

/// The places behind the first `count`.
pub(crate) fn places_behind(places: &[FilePlace], count: usize) -> &[FilePlace]
    requires { count ≤ length places.now }
    ensures { result.now ≡ drop count places.now }
{
    &places[count..]
}

/// How many files there are: one where it is set.
pub(crate) fn one_if(set: bool) -> usize
    ensures value { result ≡ one_where set }
    ensures few { result ≤ 1 }
{
    if set { 1 } else { 0 }
}

/// Adds dom0's kernel, if it is set.
fn put_dom0_kernel(
    alloc: Global,
    out: &mut List<Command>,
    kernel: bool,
    places: &[FilePlace],
) -> Result<(), AllocError>
    requires { kernel ≡ true → 0 < length places.now }
    ensures { OnOk result (out.new ≡ out.old ++ on kernel (module_at (codes "/chosen") (codes "dom0") (codes "kernel") (the_place places.now 0))) }
{
    if kernel {
        put_module(alloc, out, "/chosen", "dom0", "kernel", place_at(places, 0))
    } else {
        Ok(())
    }
}

/// Adds dom0's ramdisk, if it is set, whose place has this index.
fn put_dom0_ramdisk(
    alloc: Global,
    out: &mut List<Command>,
    ramdisk: bool,
    places: &[FilePlace],
    index: usize,
) -> Result<(), AllocError>
    requires { ramdisk ≡ true → index < length places.now }
    ensures { OnOk result (out.new ≡ out.old ++ on ramdisk (module_at (codes "/chosen") (codes "dom0-ramdisk") (codes "ramdisk") (the_place places.now index))) }
{
    if ramdisk {
        let place = place_at(places, index);
        put_module(alloc, out, "/chosen", "dom0-ramdisk", "ramdisk", place)
    } else {
        Ok(())
    }
}

/// Adds the commands of dom0, whose files have the first of the places.
pub(crate) fn put_dom0(
    alloc: Global,
    out: &mut List<Command>,
    kernel: bool,
    cmd: Option<&Text>,
    ramdisk: bool,
    places: &[FilePlace],
) -> Result<(), AllocError>
    requires { dom0_count kernel ramdisk ≤ length places.now }
    ensures { OnOk result (out.new ≡ out.old ++ dom0_commands kernel (option_copied cmd.entry) ramdisk places.now) }
{
    put_dom0_kernel(alloc, out, kernel, places)?;
    put_optional_word(alloc, out, "/chosen", "xen,dom0-bootargs", cmd)?;
    put_dom0_ramdisk(alloc, out, ramdisk, places, one_if(kernel))?;
    Ok(())
}

/// Adds the kernel of a guest, and its command line if it has one.
pub(crate) fn put_kernel(
    alloc: Global,
    out: &mut List<Command>,
    path: &str,
    cmd: Option<&Text>,
    place: &FilePlace,
) -> Result<(), AllocError>
    ensures { OnOk result (out.new ≡ out.old ++ kernel_commands path.now (option_copied cmd.entry) place.now) }
{
    let kernel = below(alloc, path, "kernel")?;
    put_module(alloc, out, path, "kernel", "kernel", place)?;
    put_optional_word(alloc, out, kernel.as_str(), "bootargs", cmd)?;
    Ok(())
}

/// Adds the ramdisk of a guest, if it has one.
fn put_ramdisk(
    alloc: Global,
    out: &mut List<Command>,
    path: &str,
    ramdisk: bool,
    places: &[FilePlace],
) -> Result<(), AllocError>
    requires { ramdisk ≡ true → 1 < length places.now }
    ensures { OnOk result (out.new ≡ out.old ++ on ramdisk (module_at path.now (codes "ramdisk") (codes "ramdisk") (the_place places.now 1))) }
{
    if ramdisk {
        put_module(alloc, out, path, "ramdisk", "ramdisk", place_at(places, 1))
    } else {
        Ok(())
    }
}

/// Adds the partial tree of a guest, if it has one, whose place has this index.
fn put_partial(
    alloc: Global,
    out: &mut List<Command>,
    path: &str,
    partial: bool,
    places: &[FilePlace],
    index: usize,
) -> Result<(), AllocError>
    requires { partial ≡ true → index < length places.now }
    ensures { OnOk result (out.new ≡ out.old ++ on partial (module_at path.now (codes "passthrough") (codes "device-tree") (the_place places.now index))) }
{
    if partial {
        let place = place_at(places, index);
        put_module(alloc, out, path, "passthrough", "device-tree", place)
    } else {
        Ok(())
    }
}

/// Adds the ramdisk and the partial tree of a guest, as far as it has them.
pub(crate) fn put_other_modules(
    alloc: Global,
    out: &mut List<Command>,
    path: &str,
    ramdisk: bool,
    partial: bool,
    places: &[FilePlace],
) -> Result<(), AllocError>
    requires { file_count ramdisk partial ≤ length places.now }
    ensures { OnOk result (out.new ≡ out.old ++ other_modules path.now ramdisk partial places.now) }
{
    put_ramdisk(alloc, out, path, ramdisk, places)?;
    put_partial(alloc, out, path, partial, places, 1 + one_if(ramdisk))?;
    Ok(())
}

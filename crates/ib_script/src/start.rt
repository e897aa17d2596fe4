// Commands that load the files, prepare the device tree, and start Xen.
ghost use Rattle.std.specs.Prelude.{◌≡◌, ◌++◌, ◌∷◌, [], map, not, codes, IfOk, OnOk};
ghost use Rattle.ib_script.specs.Properties.{on};
ghost use Rattle.ib_script.specs.Script.{load_words as words_of, load_command, tree_commands, chosen_commands, start_commands};

use crate::command::Command;
use crate::make::LoadKind;
use crate::names::text_of;
use crate::properties::{put_node, put_two_and_two, put_word};
use ib_placement::FilePlace;
use std::alloc::{AllocError, Global};
use texts::List;

/// The words of the command that loads a file.
fn load_words(kind: LoadKind) -> &'static str
    ensures { result.now ≡ words_of kind }
{
    match kind {
        LoadKind::Tftp => "tftpb",
        LoadKind::Sd => "load mmc 0:1",
        LoadKind::Scsi => "load scsi 0:1",
        LoadKind::Usb => "load usb 0:1",
    }
}

/// The command that loads a file to its place.
fn load_of(alloc: Global, kind: LoadKind, place: &FilePlace) -> Result<Command, AllocError>
    ensures { IfOk result (λ command. command ≡ load_command kind place.now) }
{
    let how = text_of(alloc, load_words(kind))?;
    let name = text_of(alloc, place.name.as_str())?;
    let address = place.address;
    Ok(Command::Load { how, address, name })
}

/// Adds the commands that load the files to their places.
pub(crate) fn put_loads(
    alloc: Global,
    out: &mut List<Command>,
    places: &[FilePlace],
    kind: LoadKind,
) -> Result<(), AllocError>
    ensures { OnOk result (out.new ≡ out.old ++ map (load_command kind) places.now) }
{
    for place in places {
        out.push(load_of(alloc, kind, place)?)?;
    }
    Ok(())
}

/// Adds the command that makes `/chosen`, if the tree does not have it.
fn put_missing_chosen(
    alloc: Global,
    out: &mut List<Command>,
    chosen: bool,
) -> Result<(), AllocError>
    ensures { OnOk result (out.new ≡ out.old ++ on (not chosen) (Command.Mknod (codes "/") (codes "chosen") ∷ [])) }
{
    if chosen {
        Ok(())
    } else {
        put_node(alloc, out, "/", "chosen")
    }
}

/// How many bytes larger the device tree is made.
const TREE_ROOM: u64 = 0x8_0000;

/// Adds the commands that take the device tree at an address and make it larger, with `/chosen` in it.
pub(crate) fn put_tree(
    alloc: Global,
    out: &mut List<Command>,
    tree: u64,
    chosen: bool,
) -> Result<(), AllocError>
    ensures { OnOk result (out.new ≡ out.old ++ tree_commands tree chosen) }
{
    out.push(Command::Addr(tree))?;
    out.push(Command::Resize(TREE_ROOM))?;
    put_missing_chosen(alloc, out, chosen)?;
    Ok(())
}

/// Adds the commands of `/chosen` itself: its cells, and the command line of Xen.
pub(crate) fn put_chosen(
    alloc: Global,
    out: &mut List<Command>,
    cmd: &str,
) -> Result<(), AllocError>
    ensures { OnOk result (out.new ≡ out.old ++ chosen_commands cmd.now) }
{
    put_two_and_two(alloc, out, "/chosen")?;
    put_word(alloc, out, "/chosen", "xen,xen-bootargs", cmd)?;
    Ok(())
}

/// Adds the commands that start Xen at one address with the device tree at another.
pub(crate) fn put_start(
    alloc: Global,
    out: &mut List<Command>,
    xen: u64,
    tree: u64,
) -> Result<(), AllocError>
    ensures { OnOk result (out.new ≡ out.old ++ start_commands xen tree) }
{
    let name = text_of(alloc, "fdt_high")?;
    let value = text_of(alloc, "0xffffffffffffffff")?;
    out.push(Command::SetEnv { name, value })?;
    out.push(Command::Booti { kernel: xen, tree })?;
    Ok(())
}

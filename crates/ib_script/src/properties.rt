// Commands that make nodes and set their properties, added to a list.
ghost use Rattle.std.specs.Prelude.{◌≡◌, ◌++◌, ◌∷◌, [], OnOk, IfOk, codes};
ghost use Rattle.std.specs.List.{flat_map};
ghost use Rattle.std.specs.Option.{option_copied};
ghost use Rattle.ib_script.specs.Properties.{two_cells, cells, word, on, on_some, two_and_two, module_at};

use crate::command::{Command, Piece};
use crate::names::{below, text_of};
use ib_placement::FilePlace;
use std::alloc::{AllocError, Global};
use texts::{List, Text};

/// How many values a cell has.
const CELL: u64 = 1 << 32;

/// Adds the command that makes a node.
pub(crate) fn put_node(
    alloc: Global,
    out: &mut List<Command>,
    path: &str,
    name: &str,
) -> Result<(), AllocError>
    ensures { OnOk result (out.new ≡ out.old ++ Command.Mknod path.now name.now ∷ []) }
{
    let path = text_of(alloc, path)?;
    let name = text_of(alloc, name)?;
    out.push(Command::Mknod { path, name })
}

/// Adds the command that sets a property to these pieces.
pub(crate) fn put_pieces(
    alloc: Global,
    out: &mut List<Command>,
    path: &str,
    prop: &str,
    value: List<Piece>,
) -> Result<(), AllocError>
    ensures { OnOk result (out.new ≡ out.old ++ Command.Set path.now prop.now value ∷ []) }
{
    let path = text_of(alloc, path)?;
    let prop = text_of(alloc, prop)?;
    out.push(Command::Set { path, prop, value })
}

/// Adds the command that sets an empty property.
pub(crate) fn put_flag(
    alloc: Global,
    out: &mut List<Command>,
    path: &str,
    prop: &str,
) -> Result<(), AllocError>
    ensures { OnOk result (out.new ≡ out.old ++ Command.Set path.now prop.now [] ∷ []) }
{
    put_pieces(alloc, out, path, prop, List::new(alloc))
}

/// Adds the command that sets an empty property, if it is wanted.
pub(crate) fn put_flag_where(
    alloc: Global,
    out: &mut List<Command>,
    path: &str,
    prop: &str,
    wanted: bool,
) -> Result<(), AllocError>
    ensures { OnOk result (out.new ≡ out.old ++ on wanted (Command.Set path.now prop.now [] ∷ [])) }
{
    if wanted {
        put_flag(alloc, out, path, prop)
    } else {
        Ok(())
    }
}

/// Adds the command that sets a property to a text.
pub(crate) fn put_word(
    alloc: Global,
    out: &mut List<Command>,
    path: &str,
    prop: &str,
    text: &str,
) -> Result<(), AllocError>
    ensures { OnOk result (out.new ≡ out.old ++ Command.Set path.now prop.now (word text.now) ∷ []) }
{
    let mut value = List::new(alloc);
    value.push(Piece::Word(text_of(alloc, text)?))?;
    put_pieces(alloc, out, path, prop, value)
}

/// Adds the command that sets a property to a text, if there is one.
pub(crate) fn put_optional_word(
    alloc: Global,
    out: &mut List<Command>,
    path: &str,
    prop: &str,
    text: Option<&Text>,
) -> Result<(), AllocError>
    ensures { OnOk result (out.new ≡ out.old ++ on_some (option_copied text.entry) (λ text. Command.Set path.now prop.now (word text) ∷ [])) }
{
    match text {
        Some(text) => put_word(alloc, out, path, prop, text.as_str()),
        None => Ok(()),
    }
}

/// Adds the command that sets a property to cells.
pub(crate) fn put_cells(
    alloc: Global,
    out: &mut List<Command>,
    path: &str,
    prop: &str,
    numbers: List<u32>,
) -> Result<(), AllocError>
    ensures { OnOk result (out.new ≡ out.old ++ Command.Set path.now prop.now (cells numbers) ∷ []) }
{
    let mut value = List::new(alloc);
    value.push(Piece::Cells(numbers))?;
    put_pieces(alloc, out, path, prop, value)
}

/// Adds the command that sets a property to one cell.
pub(crate) fn put_cell(
    alloc: Global,
    out: &mut List<Command>,
    path: &str,
    prop: &str,
    number: u32,
) -> Result<(), AllocError>
    ensures { OnOk result (out.new ≡ out.old ++ Command.Set path.now prop.now (cells (number ∷ [])) ∷ []) }
{
    let mut numbers = List::new(alloc);
    numbers.push(number)?;
    put_cells(alloc, out, path, prop, numbers)
}

/// Adds a number of 64 bits as two cells, the high one first.
pub(crate) fn push_two(numbers: &mut List<u32>, number: u64) -> Result<(), AllocError>
    ensures { OnOk result (numbers.new ≡ numbers.old ++ two_cells number) }
{
    numbers.push((number / CELL) as u32)?;
    numbers.push((number % CELL) as u32)?;
    Ok(())
}

/// Adds the command that sets a property to numbers of 64 bits.
pub(crate) fn put_wide(
    alloc: Global,
    out: &mut List<Command>,
    path: &str,
    prop: &str,
    wide: &[u64],
) -> Result<(), AllocError>
    ensures { OnOk result (out.new ≡ out.old ++ Command.Set path.now prop.now (cells (flat_map two_cells wide.now)) ∷ []) }
{
    let mut numbers = List::new(alloc);
    for number in wide {
        push_two(&mut numbers, *number)?;
    }
    put_cells(alloc, out, path, prop, numbers)
}

/// Adds the commands that give a node two address cells and two size cells.
pub(crate) fn put_two_and_two(
    alloc: Global,
    out: &mut List<Command>,
    path: &str,
) -> Result<(), AllocError>
    ensures { OnOk result (out.new ≡ out.old ++ two_and_two path.now) }
{
    put_cell(alloc, out, path, "#address-cells", 2)?;
    put_cell(alloc, out, path, "#size-cells", 2)?;
    Ok(())
}

/// The two compatible strings of a module of a kind.
fn compatible_of(alloc: Global, kind: &str) -> Result<List<Piece>, AllocError>
    ensures { IfOk result (λ value. value ≡ Piece.Word (codes "multiboot," ++ kind.now) ∷ Piece.Word (codes "multiboot,module") ∷ []) }
{
    let mut first = text_of(alloc, "multiboot,")?;
    first.append(kind)?;
    let mut value = List::new(alloc);
    value.push(Piece::Word(first))?;
    value.push(Piece::Word(text_of(alloc, "multiboot,module")?))?;
    Ok(value)
}

/// Adds the commands of a module: its node, its compatible strings, and where its file lies.
pub(crate) fn put_module(
    alloc: Global,
    out: &mut List<Command>,
    parent: &str,
    name: &str,
    kind: &str,
    place: &FilePlace,
) -> Result<(), AllocError>
    ensures { OnOk result (out.new ≡ out.old ++ module_at parent.now name.now kind.now place.now) }
{
    let path = below(alloc, parent, name)?;
    let compatible = compatible_of(alloc, kind)?;
    put_node(alloc, out, parent, name)?;
    put_pieces(alloc, out, path.as_str(), "compatible", compatible)?;
    put_wide(
        alloc,
        out,
        path.as_str(),
        "reg",
        &[place.address, place.size],
    )?;
    Ok(())
}

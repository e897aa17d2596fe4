// The words of a command.
ghost use Rattle.std.specs.Prelude.{◌≡◌, ◌++◌, ◌∷◌, ◌/◌, ◌%◌, [], map, codes, IfOk, OnOk, string_bytes, if◌then◌else◌};
ghost use Rattle.texts.specs.NumberTexts.{hexadecimal};
ghost use Rattle.ib_config.specs.Runs.{is_empty};
ghost use Rattle.ib_script.specs.Text.{joined, spaced, two_digits, piece_word, prop_word};

use crate::command::Piece;
use std::alloc::AllocError;

/// Adds cells, each behind a space.
fn put_more_cells(out: &mut String, cells: &[u32]) -> Result<(), AllocError>
    ensures { OnOk result (string_bytes out.new ≡ string_bytes out.old ++ spaced (map hexadecimal cells.now)) }
{
    for cell in cells {
        write!(out, " 0x{cell:x}")?;
    }
    Ok(())
}

/// Adds cells with a space between each two.
fn put_cells(out: &mut String, cells: &[u32]) -> Result<(), AllocError>
    ensures { OnOk result (string_bytes out.new ≡ string_bytes out.old ++ joined (map hexadecimal cells.now)) }
{
    match cells.split_first() {
        Some((first, more)) => {
            write!(out, "0x{first:x}")?;
            put_more_cells(out, more)
        }
        None => Ok(()),
    }
}

/// Adds a byte as two hexadecimal digits.
#[tactic(auto, using(crate::proofs::Digits::byte_shown))]
fn put_byte(out: &mut String, byte: u8) -> Result<(), AllocError>
    ensures { OnOk result (string_bytes out.new ≡ string_bytes out.old ++ two_digits byte) }
{
    write!(out, "{byte:02x}")
}

/// Adds bytes, each behind a space.
fn put_more_bytes(out: &mut String, bytes: &[u8]) -> Result<(), AllocError>
    ensures { OnOk result (string_bytes out.new ≡ string_bytes out.old ++ spaced (map two_digits bytes.now)) }
{
    for byte in bytes {
        out.push_str(" ")?;
        put_byte(out, *byte)?;
    }
    Ok(())
}

/// Adds bytes with a space between each two.
fn put_bytes(out: &mut String, bytes: &[u8]) -> Result<(), AllocError>
    ensures { OnOk result (string_bytes out.new ≡ string_bytes out.old ++ joined (map two_digits bytes.now)) }
{
    match bytes.split_first() {
        Some((first, more)) => {
            put_byte(out, *first)?;
            put_more_bytes(out, more)
        }
        None => Ok(()),
    }
}

/// Adds a piece of a value.
#[tactic(auto, unfolding(crate::specs::Text::piece_word))]
fn put_piece(out: &mut String, piece: &Piece) -> Result<(), AllocError>
    ensures { OnOk result (string_bytes out.new ≡ string_bytes out.old ++ piece_word piece.now) }
{
    match piece {
        Piece::Cells(cells) => {
            out.push_str("<")?;
            put_cells(out, cells.as_slice())?;
            out.push_str(">")
        }
        Piece::Bytes(bytes) => {
            out.push_str("[")?;
            put_bytes(out, bytes.as_slice())?;
            out.push_str("]")
        }
        Piece::Word(text) => {
            out.push_str("\"")?;
            out.push_str(text.as_str())?;
            out.push_str("\"")
        }
    }
}

/// Adds the pieces of a value, each behind a space.
pub(crate) fn put_value(out: &mut String, value: &[Piece]) -> Result<(), AllocError>
    ensures { OnOk result (string_bytes out.new ≡ string_bytes out.old ++ spaced (map piece_word value.now)) }
{
    for piece in value {
        out.push_str(" ")?;
        put_piece(out, piece)?;
    }
    Ok(())
}

/// Adds the name of a property, with a backslash before `#`.
pub(crate) fn put_property(out: &mut String, name: &str) -> Result<(), AllocError>
    ensures { OnOk result (string_bytes out.new ≡ string_bytes out.old ++ prop_word name.now) }
{
    if name.as_bytes().first() == Some(&b'#') {
        out.push_str("\\")?;
    }
    out.push_str(name)
}

/// Adds a text behind a space, if it is not empty.
pub(crate) fn put_optional_word(out: &mut String, text: &str) -> Result<(), AllocError>
    ensures { OnOk result (string_bytes out.new ≡ string_bytes out.old ++ spaced (if is_empty text.now then [] else text.now ∷ [])) }
{
    if text.is_empty() {
        return Ok(());
    }
    write!(out, " {text}")
}

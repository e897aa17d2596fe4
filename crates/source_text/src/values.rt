// The text of a value, added to what is there. After want of memory what was added is no matter.
ghost use Rattle.std.specs.Prelude.{◌≡◌, ◌<◌, ◌++◌, ◌==◌, ◌∷◌, [], OnOk, codes};
ghost use Rattle.std.specs.List.{slice_split};
ghost use Rattle.texts.specs.NumberTexts.{hexadecimal};
ghost use Rattle.fdt_tree.specs.Values.{strings};
ghost use Rattle.source_text.specs.Printed.{behind_marks, is_text, are_ended_strings, quoted, words, digit_text, pair_text, strings_text, words_text, bytes_text, value_text, after_name};

use crate::characters::is_shown_in_quotes;
use std::alloc::{AllocError, Global};
use texts::{Bytes, cut};

/// Whether a value is shown as strings.
fn is_shown_as_strings(value: &[u8]) -> bool
    ensures { result ≡ is_text value.now }
{
    !value.is_empty() && has_ended_strings(value)
}

/// Whether the pieces between NULs are strings, each ended by its NUL.
fn has_ended_strings(value: &[u8]) -> bool
    ensures { result ≡ are_ended_strings (slice_split (λ byte. byte == 0) value.now) }
{
    let mut rest = value;
    while let Some((string, after)) = cut(rest, 0) {
        if !is_shown_in_quotes(string) {
            return false;
        }
        rest = after;
    }
    rest.is_empty()
}

/// Adds a string in quotes.
fn append_quoted(out: &mut Bytes, text: &[u8]) -> Result<(), AllocError>
    ensures { OnOk result (out.new ≡ out.old ++ quoted text.now) }
{
    out.append(b"\"")?;
    out.append(text)?;
    out.append(b"\"")
}

/// Adds the strings of a value, each behind a comma.
fn append_more_strings(out: &mut Bytes, value: &[u8]) -> Result<(), AllocError>
    ensures { OnOk result (out.new ≡ out.old ++ behind_marks (codes ", ") quoted (strings value.now)) }
{
    let mut rest = value;
    while let Some((string, after)) = cut(rest, 0) {
        out.append(b", ")?;
        append_quoted(out, string)?;
        rest = after;
    }
    Ok(())
}

/// Adds the strings of a value.
fn append_strings(out: &mut Bytes, value: &[u8]) -> Result<(), AllocError>
    ensures { OnOk result (out.new ≡ out.old ++ strings_text value.now) }
{
    let Some((first, rest)) = cut(value, 0) else {
        return Ok(());
    };
    append_quoted(out, first)?;
    append_more_strings(out, rest)?;
    Ok(())
}

/// Adds the words of a value, each behind a space.
fn append_more_words(alloc: Global, out: &mut Bytes, value: &[u8]) -> Result<(), AllocError>
    ensures { OnOk result (out.new ≡ out.old ++ behind_marks (codes " ") hexadecimal (words value.now)) }
{
    let mut rest = value;
    while let [a, b, c, d, after @ ..] = rest {
        out.append(b" ")?;
        out.append_hexadecimal(alloc, u64::from(u32::from_be_bytes([*a, *b, *c, *d])))?;
        rest = after;
    }
    Ok(())
}

/// Adds the words of a value, in `<` `>`.
fn append_words(alloc: Global, out: &mut Bytes, value: &[u8]) -> Result<(), AllocError>
    ensures { OnOk result (out.new ≡ out.old ++ words_text value.now) }
{
    out.append(b"<")?;
    if let [a, b, c, d, rest @ ..] = value {
        out.append_hexadecimal(alloc, u64::from(u32::from_be_bytes([*a, *b, *c, *d])))?;
        append_more_words(alloc, out, rest)?;
    }
    out.append(b">")
}

/// The character of a lower-case hexadecimal digit.
fn digit_of(digit: u8) -> u8
    requires { digit < 16 }
    ensures { result ≡ digit_text digit }
{
    if digit < 10 { 48 + digit } else { 87 + digit }
}

/// Adds a byte as two digits.
fn append_pair(out: &mut Bytes, byte: u8) -> Result<(), AllocError>
    ensures { OnOk result (out.new ≡ out.old ++ pair_text byte) }
{
    let pair = [digit_of(byte / 16), digit_of(byte % 16)];
    out.append(&pair)
}

/// Adds bytes, each behind a space.
fn append_more_bytes(out: &mut Bytes, value: &[u8]) -> Result<(), AllocError>
    ensures { OnOk result (out.new ≡ out.old ++ behind_marks (codes " ") pair_text value.now) }
{
    for byte in value {
        out.append(b" ")?;
        append_pair(out, *byte)?;
    }
    Ok(())
}

/// Adds the bytes of a value, in `[` `]`.
fn append_bytes(out: &mut Bytes, value: &[u8]) -> Result<(), AllocError>
    ensures { OnOk result (out.new ≡ out.old ++ bytes_text value.now) }
{
    out.append(b"[")?;
    if let [first, rest @ ..] = value {
        append_pair(out, *first)?;
        append_more_bytes(out, rest)?;
    }
    out.append(b"]")
}

/// Adds a value.
#[tactic(auto, unfolding(crate::specs::Printed::value_text))]
fn append_value(alloc: Global, out: &mut Bytes, value: &[u8]) -> Result<(), AllocError>
    ensures { OnOk result (out.new ≡ out.old ++ value_text value.now) }
{
    if is_shown_as_strings(value) {
        append_strings(out, value)
    } else if value.len() % 4 == 0 {
        append_words(alloc, out, value)
    } else {
        append_bytes(out, value)
    }
}

/// Adds what follows a property's name.
pub(crate) fn append_after_name(
    alloc: Global,
    out: &mut Bytes,
    value: &[u8],
) -> Result<(), AllocError>
    ensures { OnOk result (out.new ≡ out.old ++ after_name value.now) }
{
    if value.is_empty() {
        return out.append(b";");
    }
    out.append(b" = ")?;
    append_value(alloc, out, value)?;
    out.append(b";")
}

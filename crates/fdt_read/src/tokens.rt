// Tokens of the structure block.
ghost use Rattle.std.specs.Prelude.{◌≡◌, IsTrue, IfSome, false, ◌+◌, ◌≤◌, ◌<◌, ◌^◌, ◌==◌, length, position, slice_range};
ghost use Rattle.std.specs.Option.{option_copied};
ghost use Rattle.fdt_read.specs.Found.{meant};
ghost use Rattle.fdt_read.specs.Built.{has_no_nul, ends_names};
ghost use Rattle.fdt_read.specs.Header.{strings_block};
ghost use Rattle.fdt_read.specs.Tokens.{is_final, token_at, property_at, begin_node_at, padded, text};

use crate::strings::Strings;
use crate::words::word_of;
use fdt_tree::Excerpt;
use texts::Bytes;

/// A token, with what it holds of the input (5.4.1).
#[derive(Drop)]
pub enum Found<'a> {
    /// A node begins: its name.
    Begin(&'a [u8]),
    /// The open node ends.
    EndNode,
    /// A property: its name, if the strings block has it, and its value.
    Property(Option<Excerpt<'a>>, Excerpt<'a>),
    Nop,
    End,
    /// No token stands here.
    Broken,
}

/// Where the first NUL stands.
fn first_nul(bytes: &[u8]) -> Option<usize>
    ensures place { result ≡ position (λ c. c == 0) bytes.now }
    ensures within { IfSome result (λ n. n < length bytes.now) }
{
    bytes.iter().position(|c| *c == 0)
}

/// The bytes up to the first NUL, if there is one.
fn text_of(bytes: &[u8]) -> Option<&[u8]>
    ensures text { option_copied result ≡ text bytes.now }
    ensures no_nul { IfSome result (λ name. IsTrue (has_no_nul name.now)) }
{
    match first_nul(bytes) {
        None => None,
        Some(index) => Some(&bytes[..index]),
    }
}

/// A length with its padding to four bytes.
fn padded_of(length: usize) -> usize
    requires { length < 2 ^ 63 }
    ensures { result ≡ padded length }
{
    4 * ((length + 3) / 4)
}

/// The BEGIN_NODE at an offset, and the offset past it.
fn begin_at(bytes: &[u8], stop: usize, offset: usize) -> (Found, usize)
    requires within { stop ≤ length bytes.now }
    requires room { offset + 4 ≤ stop }
    ensures onward { is_final (meant result.0) ≡ false → (offset < result.1) × (result.1 ≤ stop) }
    ensures no_nul { IsTrue (ends_names (meant result.0)) }
    ensures token { (meant result.0, result.1)
        ≡ begin_node_at stop offset (text (slice_range bytes.now (offset + 4) stop)) }
{
    match text_of(&bytes[offset + 4..stop]) {
        None => (Found::Broken, offset),
        Some(name) => {
            let next = offset + 4 + padded_of(name.len() + 1);
            if next <= stop {
                (Found::Begin(name), next)
            } else {
                (Found::Broken, offset)
            }
        }
    }
}

/// The PROP at an offset, and the offset past it.
fn property_of<'a>(
    bytes: &'a Bytes,
    strings: &Strings<'a>,
    stop: usize,
    offset: usize,
) -> (Found<'a>, usize)
    requires within { stop ≤ length bytes.now }
    requires names { strings.now ≡ strings_block bytes.now }
    ensures onward { is_final (meant result.0) ≡ false → (offset < result.1) × (result.1 ≤ stop) }
    ensures no_nul { IsTrue (ends_names (meant result.0)) }
    ensures token { (meant result.0, result.1) ≡ property_at bytes.now stop offset }
{
    if stop < 12 || stop - 12 < offset {
        return (Found::Broken, offset);
    }
    let size = word_of(bytes.as_slice(), offset + 4) as usize;
    let place = word_of(bytes.as_slice(), offset + 8) as usize;
    let next = offset + 12 + padded_of(size);
    if next > stop {
        return (Found::Broken, offset);
    }
    let name = strings.name_at(place);
    let value = Excerpt::new(bytes, offset + 12, offset + 12 + size);
    (Found::Property(name, value), next)
}

/// The token at an offset of the structure block, which ends at `stop`, and the offset past it.
pub fn token<'a>(
    bytes: &'a Bytes,
    strings: &Strings<'a>,
    stop: usize,
    offset: usize,
) -> (Found<'a>, usize)
    requires within { stop ≤ length bytes.now }
    requires names { strings.now ≡ strings_block bytes.now }
    ensures onward { is_final (meant result.0) ≡ false → (offset < result.1) × (result.1 ≤ stop) }
    ensures no_nul { IsTrue (ends_names (meant result.0)) }
    ensures token { (meant result.0, result.1) ≡ token_at bytes.now stop offset }
{
    if stop < 4 || stop - 4 < offset {
        return (Found::Broken, offset);
    }
    match word_of(bytes.as_slice(), offset) {
        1 => begin_at(bytes.as_slice(), stop, offset),
        2 => (Found::EndNode, offset + 4),
        3 => property_of(bytes, strings, stop, offset),
        4 => (Found::Nop, offset + 4),
        9 => (Found::End, offset + 4),
        _ => (Found::Broken, offset),
    }
}

/// Whether no token follows this one.
pub fn is_last(found: &Found) -> bool
    ensures { result ≡ is_final (meant found.now) }
{
    match found {
        Found::End | Found::Broken => true,
        _ => false,
    }
}

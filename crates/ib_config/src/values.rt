// Texts as values.
ghost use Rattle.std.specs.Prelude.{◌≡◌, ◌≤◌, IfOk, IfSome};
ghost use Rattle.std.specs.List.{list_all};
ghost use Rattle.ib_config.specs.Rules as rules_of;
ghost use Rattle.ib_config.specs.Rules.{is_file_byte, is_id_byte};

use crate::assignments::copy_text;
use crate::classes::{is_digit_byte, is_letter_byte};
use crate::lines::{as_text, is_text};
use std::alloc::{AllocError, Global};
use texts::{Text, read_number};

/// The number below 2^64 that a word spells.
#[tactic(auto, using(crate::proofs::NumberLemmas::number_lemmas))]
pub(crate) fn number(word: &[u8]) -> Option<u64>
    ensures { result ≡ rules_of.number word.now }
{
    if !is_text(word) {
        return None;
    }
    read_number(as_text(word)).ok()
}

/// The number that a word spells, where it is from `low` to `high`.
pub(crate) fn number_between(low: u64, high: u64, word: &[u8]) -> Option<u64>
    ensures value { result ≡ rules_of.number_between low high word.now }
    ensures within { IfSome result (λ n. n ≤ high) }
{
    match number(word) {
        Some(n) if low <= n && n <= high => Some(n),
        _ => None,
    }
}

/// Whether a text is 1; it has to be 0 or 1.
pub(crate) fn flag(text: &[u8]) -> Option<bool>
    ensures { result ≡ rules_of.flag text.now }
{
    match number_between(0, 1, text) {
        Some(n) => Some(n == 1),
        None => None,
    }
}

/// The name of a file: 1 to 255 letters, digits and characters of `._-/+,@:`.
pub(crate) fn file_name(alloc: Global, text: &Text) -> Result<Option<Text>, AllocError>
    ensures { IfOk result (λ name. name ≡ rules_of.file_name text.now) }
{
    let bytes = text.as_slice();
    if 1 <= bytes.len() && bytes.len() <= 255 && all_file_bytes(bytes) {
        Ok(Some(copy_text(alloc, text.as_str())?))
    } else {
        Ok(None)
    }
}

fn all_file_bytes(bytes: &[u8]) -> bool
    ensures { result ≡ list_all is_file_byte bytes.now }
{
    bytes.iter().all(|c| is_file_character(*c))
}

fn is_file_character(c: u8) -> bool
    ensures { result ≡ is_file_byte c }
{
    is_letter_byte(c)
        || is_digit_byte(c)
        || matches!(c, b'.' | b'_' | b'-' | b'/' | b'+' | b',' | b'@' | b':')
}

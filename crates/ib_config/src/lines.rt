// One line of a configuration: what it assigns, or its first fault.
ghost use Rattle.std.specs.Prelude.{IsTrue, ◌≡◌, ◌<◌, ◌≤◌, ℕ, ◌==◌, ◌∷◌, [], ◌&&◌, ◌||◌, not, length, drop, option_map, IfOk, Ok, if◌then◌else◌, Some, None, bytes_eq};
ghost use Rattle.std.specs.List.{list_all, list_any, prefix_len};
ghost use Rattle.std.specs.Option.{option_copied};
ghost use Rattle.std.specs.Str.{is_utf8};
ghost use Rattle.std.specs.Str.Parse.{digits_value};
ghost use Rattle.std.specs.Prelude.{true, false};
ghost use Rattle.ib_config.specs.Runs.{run_of, after_run, first_is, is_empty};
ghost use Rattle.ib_config.specs.Line.{says_nothing, has_name, has_index, is_unsupported, is_blank, is_letter, is_name_start, is_plain, is_bare, is_tail, is_quoted, is_name_byte, is_digit, unsupported_names};
ghost use Rattle.ib_config.specs.Settings.{Gives};
ghost use Rattle.ib_config.specs.PrivateScan.{passes, line_read, part_read, body_steps, index_read, view};

use crate::classes::{Class, is_bare_byte, is_letter_byte, is_plain_byte, split_run};
use crate::fault::ConfigFault;
use crate::names::is_listed;
use std::str;

/// What a line assigns.
#[derive(Clone, Copy)]
pub(crate) struct Found<'a> {
    pub(crate) name: &'a str,
    pub(crate) index: Option<u32>,
    pub(crate) text: &'a str,
}

pub(crate) fn skip_one(bytes: &[u8]) -> &[u8]
    ensures { result.now ≡ drop 1 bytes.now }
{
    match bytes {
        [] => bytes,
        [_, rest @ ..] => rest,
    }
}

fn begins_with(bytes: &[u8], c: u8) -> bool
    ensures { result ≡ first_is (λ d. d == c) bytes.now }
{
    match bytes {
        [] => false,
        [first, ..] => *first == c,
    }
}

#[tactic(auto, unfolding(crate::specs::Line::is_tail))]
fn is_tail_part(tail: &[u8]) -> bool
    ensures { result ≡ is_tail tail.now }
{
    let (blanks, rest) = split_run(tail, Class::Blank);
    rest.is_empty() || (!blanks.is_empty() && rest[0] == 35)
}

fn all_plain(text: &[u8], quoted: bool) -> bool
    ensures { result ≡ list_all (if quoted then is_plain else is_bare) text.now }
{
    if quoted {
        text.iter().all(|c| is_plain_byte(*c))
    } else {
        text.iter().all(|c| is_bare_byte(*c))
    }
}

fn is_quoted_part(part: &[u8]) -> bool
    ensures { result ≡ is_quoted part.now }
{
    match part {
        [] => false,
        [first, ..] => *first == 34 || *first == 39,
    }
}

fn is_plain_value(value: &[u8], tail: &[u8], quoted: bool) -> bool
    ensures { result ≡ list_all (if quoted then is_plain else is_bare) value.now && is_tail tail.now }
{
    all_plain(value, quoted) && is_tail_part(tail)
}

/// Bytes that are a text, as one.
#[tactic(auto, using(crate::proofs::RunLemmas::utf8_lemmas))]
pub(crate) fn as_text(bytes: &[u8]) -> &str
    requires { is_utf8 bytes.now ≡ true }
    ensures { result.now ≡ bytes.now }
{
    match str::from_utf8(bytes) {
        Ok(text) => text,
        Err(_) => unreachable!(),
    }
}

/// The characters of a name are a text.
#[tactic(auto, using(crate::proofs::TextLemmas::name_is_text))]
fn text_of_name(name: &[u8]) -> &str
    requires { list_all is_name_byte name.now ≡ true }
    ensures { result.now ≡ name.now }
{
    as_text(name)
}

/// Plain characters are a text.
#[tactic(auto, using(crate::proofs::TextLemmas::plain_is_text))]
fn text_of_value(value: &[u8], quoted: bool) -> &str
    requires { list_all (if quoted then is_plain else is_bare) value.now ≡ true }
    ensures { result.now ≡ value.now }
{
    as_text(value)
}

/// The value of the part behind the `=`.
#[tactic(auto, unfolding(crate::specs::PrivateScan::part_read))]
fn value_in_part(number: u64, part: &[u8]) -> Result<&str, ConfigFault>
    ensures { Gives (λ v. v.now) result (part_read number part.now) }
{
    if is_quoted_part(part) {
        let (value, rest) = split_run(skip_one(part), Class::Until(part[0]));
        if rest.is_empty() {
            return Err(ConfigFault::OpenQuote(number));
        }
        if !is_plain_value(value, skip_one(rest), true) {
            return Err(ConfigFault::NotPlain(number));
        }
        Ok(text_of_value(value, true))
    } else {
        let (value, rest) = split_run(part, Class::Bare);
        if !is_plain_value(value, rest, false) {
            return Err(ConfigFault::NotPlain(number));
        }
        Ok(text_of_value(value, false))
    }
}

#[tactic(auto, using(crate::proofs::RunLemmas::utf8_lemmas))]
pub(crate) fn is_text(line: &[u8]) -> bool
    ensures { result ≡ is_utf8 line.now }
{
    str::from_utf8(line).is_ok()
}

#[tactic(auto, unfolding(crate::specs::Line::says_nothing))]
fn is_silent(body: &[u8]) -> bool
    ensures { result ≡ says_nothing body.now }
{
    body.is_empty() || begins_with(body, 35)
}

#[tactic(auto, unfolding(crate::specs::Line::is_name_start))]
fn begins_name(body: &[u8]) -> bool
    ensures { result ≡ first_is is_name_start body.now }
{
    match body {
        [] => false,
        [first, ..] => is_letter_byte(*first) || *first == 95,
    }
}

fn begins_value(after: &[u8]) -> bool
    ensures { result ≡ first_is (λ c. (c == 61) || (c == 91)) after.now }
{
    match after {
        [] => false,
        [first, ..] => *first == 61 || *first == 91,
    }
}

#[tactic(auto, unfolding(crate::specs::Line::has_index))]
fn is_index(after: &[u8]) -> bool
    ensures { result ≡ has_index after.now }
{
    let (digits, rest) = split_run(skip_one(after), Class::Digit);
    1 <= digits.len()
        && digits.len() <= 4
        && begins_with(rest, 93)
        && begins_with(skip_one(rest), 61)
}

/// The number that the one to four digits of an index spell.
#[tactic(auto, using(crate::proofs::TextLemmas::index_lemmas))]
fn index_value(digits: &[u8]) -> u32
    requires all { list_all is_digit digits.now ≡ true }
    requires some { 1 ≤ length digits.now }
    requires few { length digits.now ≤ 4 }
    ensures { result ≡ digits_value 10 digits.now }
{
    match u32::from_str_radix(as_text(digits), 10) {
        Ok(index) => index,
        Err(_) => unreachable!(),
    }
}

/// The index, if there is one, and the part behind the `=`.
#[tactic(auto, using(crate::proofs::TextLemmas::run_passes), unfolding(crate::specs::PrivateScan::index_read, crate::specs::Line::has_index))]
fn index_in(number: u64, after: &[u8]) -> Result<(Option<u32>, &[u8]), ConfigFault>
    ensures { Gives (λ x. (x.0, x.1.now)) result (index_read number after.now) }
{
    if !begins_with(after, 91) {
        return Ok((None, skip_one(after)));
    }
    if !is_index(after) {
        return Err(ConfigFault::BadIndex(number));
    }
    let (digits, rest) = split_run(skip_one(after), Class::Digit);
    Ok((Some(index_value(digits)), skip_one(skip_one(rest))))
}

/// Whether a name is one of ImageBuilder's that have no effect here and are refused.
#[tactic(auto, unfolding(crate::specs::Line::is_unsupported))]
fn is_refused_name(name: &[u8]) -> bool
    ensures { result ≡ is_unsupported name.now }
{
    is_listed(
        &[
            "XEN_COLORS",
            "DOM0_COLORS",
            "DOMU_COLORS",
            "NUM_CPUPOOLS",
            "CPUPOOL",
            "DOMU_CPUPOOL",
            "STATIC_HEAP",
            "NUM_DT_OVERLAY",
            "DT_OVERLAY",
            "DOM0_ROOTFS",
            "DOMU_ROOTFS",
            "DOMU_PASSTHROUGH_PATHS",
        ],
        name,
    )
}

/// What a line that says something assigns, without its leading blanks.
#[tactic(auto, using(crate::proofs::TextLemmas::run_passes), unfolding(crate::specs::PrivateScan::body_steps, crate::specs::Line::has_name))]
fn body_in(number: u64, body: &[u8]) -> Result<Found<'_>, ConfigFault>
    ensures { Gives view result (body_steps number body.now) }
{
    let (name, after) = split_run(body, Class::Name);
    if !(begins_name(body) && begins_value(after)) {
        return Err(ConfigFault::BadName(number));
    }
    let (index, part) = index_in(number, after)?;
    let text = value_in_part(number, part)?;
    if is_refused_name(name) {
        return Err(ConfigFault::Unsupported(number));
    }
    Ok(Found {
        name: text_of_name(name),
        index,
        text,
    })
}

/// What a line assigns, if it says something.
#[tactic(auto, using(crate::proofs::BodyLemmas::line_lemmas))]
pub(crate) fn read_line(number: u64, line: &[u8]) -> Result<Option<Found<'_>>, ConfigFault>
    ensures { Gives (option_map view) result (line_read number line.now) }
{
    if !is_text(line) {
        return Err(ConfigFault::NotUtf8(number));
    }
    let (_, body) = split_run(line, Class::Blank);
    if is_silent(body) {
        return Ok(None);
    }
    match body_in(number, body) {
        Ok(found) => Ok(Some(found)),
        Err(fault) => Err(fault),
    }
}

// Classes of bytes, and the longest front of a text that one class holds.
ghost use Rattle.std.specs.Prelude.{IsTrue, ◌≡◌, ◌<◌, ◌≤◌, length};
ghost use Rattle.std.specs.List.{prefix_len};
ghost use Rattle.ib_config.specs.Runs.{run_of, after_run};
ghost use Rattle.ib_config.specs.Line.{is_letter, is_digit, is_blank, is_plain, is_bare};
ghost use Rattle.ib_config.specs.PrivateScan.{passes};

/// A class of bytes that a part of a line consists of.
#[derive(Clone, Copy)]
pub(crate) enum Class {
    Blank,
    Space,
    Name,
    Digit,
    Bare,
    Until(u8),
}

#[tactic(auto, unfolding(crate::specs::Line::is_letter))]
pub(crate) fn is_letter_byte(c: u8) -> bool
    ensures { result ≡ is_letter c }
{
    (65 <= c && c <= 90) || (97 <= c && c <= 122)
}

#[tactic(auto, unfolding(crate::specs::Line::is_digit))]
pub(crate) fn is_digit_byte(c: u8) -> bool
    ensures { result ≡ is_digit c }
{
    48 <= c && c <= 57
}

#[tactic(auto, unfolding(crate::specs::Line::is_blank))]
pub(crate) fn is_blank_byte(c: u8) -> bool
    ensures { result ≡ is_blank c }
{
    c == 32 || c == 9
}

#[tactic(auto, unfolding(crate::specs::Line::is_plain))]
pub(crate) fn is_plain_byte(c: u8) -> bool
    ensures { result ≡ is_plain c }
{
    32 <= c && c <= 126 && !(c == 34 || c == 36 || c == 96 || c == 92)
}

#[tactic(auto, unfolding(crate::specs::Line::is_bare))]
pub(crate) fn is_bare_byte(c: u8) -> bool
    ensures { result ≡ is_bare c }
{
    is_plain_byte(c)
        && !(c == 39 || c == 59 || c == 38 || c == 124 || c == 60 || c == 62 || c == 40 || c == 41)
}

#[tactic(auto, unfolding(crate::specs::Line::is_name_byte))]
pub(crate) fn holds(class: Class, c: u8) -> bool
    ensures { result ≡ passes class c }
{
    match class {
        Class::Blank => is_blank_byte(c),
        Class::Space => c == 32,
        Class::Name => is_letter_byte(c) || is_digit_byte(c) || c == 95,
        Class::Digit => is_digit_byte(c),
        Class::Bare => !is_blank_byte(c),
        Class::Until(quote) => !(c == quote),
    }
}

#[tactic(auto, using(crate::proofs::RunLemmas::run_steps))]
pub(crate) fn run_len(bytes: &[u8], class: Class) -> usize
    ensures run { result ≡ prefix_len (passes class) bytes.now }
    ensures within { result ≤ length bytes.now }
{
    let mut n = 0;
    while n < bytes.len() && holds(class, bytes[n]) {
        n += 1;
    }
    n
}

#[tactic(auto, using(crate::proofs::RunLemmas::run_lemmas))]
pub(crate) fn split_run(bytes: &[u8], class: Class) -> (&[u8], &[u8])
    ensures front { result.0.now ≡ run_of (passes class) bytes.now }
    ensures rest { result.1.now ≡ after_run (passes class) bytes.now }
{
    bytes.split_at(run_len(bytes, class))
}

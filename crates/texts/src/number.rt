// Numbers as texts.
ghost use Rattle.std.specs.Prelude.{◌≡◌, ◌≤◌, ◌==◌, ◌||◌, ◌∷◌, [], IsTrue, nat_lt, length, nat_eq, codes, drop};
ghost use Rattle.std.specs.List.{list_all};
ghost use Rattle.std.specs.Char.{digit_value};
ghost use Rattle.texts.specs.NumberTexts.{number_of, number_in, is_hexadecimal};

/// Why a text is no number.
#[derive(Clone, Copy, Debug, PartialEq, Eq)]
pub enum NumberFault {
    /// It has no digit.
    Empty,
    /// A character is no digit of its base.
    BadDigit,
    /// The number is 2^64 or more.
    TooBig,
}

/// The number below 2^64 that a text spells: decimal digits, or hexadecimal ones behind `0x` or `0X`. `Empty` where
/// there is no digit, `BadDigit` where a character is no digit of the base, and `TooBig` for a number from 2^64 on.
/// Takes no memory.
#[tactic(auto, using(crate::proofs::Digits::prefix_lemmas))]
pub fn read_number(text: &str) -> Result<u64, NumberFault>
    ensures { result ≡ number_of text.now }
{
    if is_prefixed(text) {
        number_in_base(16, &text[2..])
    } else {
        number_in_base(10, text)
    }
}

fn is_prefixed(text: &str) -> bool
    ensures { result ≡ is_hexadecimal text.now }
{
    matches!(text.as_bytes(), [b'0', b'x' | b'X', ..])
}

#[tactic(auto, using(crate::proofs::Digits::digit_lemmas))]
fn number_in_base(base: u32, digits: &str) -> Result<u64, NumberFault>
    requires low { 2 ≤ base }
    requires high { base ≤ 16 }
    ensures { result ≡ number_in base digits.now }
{
    if digits.is_empty() {
        return Err(NumberFault::Empty);
    }
    if !all_digits(base, digits.as_bytes()) {
        return Err(NumberFault::BadDigit);
    }
    match u64::from_str_radix(digits, base) {
        Ok(number) => Ok(number),
        Err(_) => Err(NumberFault::TooBig),
    }
}

fn all_digits(base: u32, bytes: &[u8]) -> bool
    requires low { 2 ≤ base }
    requires high { base ≤ 16 }
    ensures { result ≡ list_all (λ digit. nat_lt (digit_value digit) base) bytes.now }
{
    bytes.iter().all(|byte| char::from(*byte).is_digit(base))
}

// Numbers in decimal digits.
ghost use Rattle.std.specs.Prelude.{◌≡◌, ◌^◌, ◌-◌, min, option_map};
ghost use Rattle.overlaid_trees.specs.Resolve.{decimal_of};

/// The number that decimal digits spell, or 2^64 - 1 where it is greater: `None` where another character stands among
/// them.
pub(crate) fn decimal_of(digits: &[u8]) -> Option<usize>
    ensures { result ≡ option_map (λ number. min number (2 ^ 64 - 1)) (decimal_of digits.now) }
{
    let mut number = 0usize;
    for &byte in digits {
        let Some(digit) = char::from(byte).to_digit(10) else {
            return None;
        };
        number = number.saturating_mul(10).saturating_add(digit as usize);
    }
    Some(number)
}

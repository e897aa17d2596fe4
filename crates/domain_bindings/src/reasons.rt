// Tests of ranges.
ghost use Rattle.std.specs.Prelude.{◌≡◌};
ghost use Rattle.domain_bindings.specs.Reasons.{is_not_pages, is_too_high};

use texts::BaseSize;

/// Whether a range is not whole pages, at least one.
pub(crate) fn is_not_pages(range: BaseSize) -> bool
    ensures { result ≡ is_not_pages range }
{
    range.base % 4096 != 0 || range.size % 4096 != 0 || range.size == 0
}

/// Whether a range ends past 2^40.
pub(crate) fn is_too_high(range: BaseSize) -> bool
    ensures { result ≡ is_too_high range }
{
    range.base > 1 << 40 || range.size > (1 << 40) - range.base
}

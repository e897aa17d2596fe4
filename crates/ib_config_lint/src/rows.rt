// What is tested of a value.
ghost use Rattle.std.specs.Prelude.{◌≡◌, ◌&&◌, not, is_none, length, nat_lt};
ghost use Rattle.ib_config.specs.Runs.{is_empty};
ghost use Rattle.ib_config_lint.specs.Rows as rows;

use ib_config::PortGroup;
use texts::BaseSize;

/// Whether a text has a `'`.
pub(crate) fn has_quote(text: &str) -> bool
    ensures { result ≡ rows.has_quote text.now }
{
    text.as_bytes().iter().any(|c| *c == b'\'')
}

/// Whether a text begins with `<` or `[`.
pub(crate) fn begins_as_cells(text: &str) -> bool
    ensures { result ≡ rows.begins_as_cells text.now }
{
    match text.as_bytes() {
        [] => false,
        [first, ..] => *first == b'<' || *first == b'[',
    }
}

/// Whether a text has more than 1,023 characters.
pub(crate) fn is_long(text: &str) -> bool
    ensures { result ≡ rows.is_long text.now }
{
    text.len() > 1023
}

/// Whether a file name has a `:`.
pub(crate) fn has_colon(name: &str) -> bool
    ensures { result ≡ rows.has_colon name.now }
{
    name.as_bytes().iter().any(|c| *c == b':')
}

/// Whether there are more than 62 ranges.
pub(crate) fn has_many_ranges(ranges: &[BaseSize]) -> bool
    ensures { result ≡ rows.has_many_ranges ranges.now }
{
    ranges.len() > 62
}

/// Whether a guest with these ranges of static memory has no memory in MiB.
pub(crate) fn lacks_memory(ranges: &[BaseSize], mib: Option<u64>) -> bool
    ensures { result ≡ (not (is_empty ranges.now) && is_none mib) }
{
    !ranges.is_empty() && mib.is_none()
}

/// The bytes of a guest's first bank.
const BANK: u64 = 0xc000_0000;

/// Whether a range lies over the end of the first bank, into which the ranges are laid in order.
pub(crate) fn crosses(ranges: &[BaseSize]) -> bool
    ensures { result ≡ rows.crosses_behind 0 ranges.now }
{
    let mut used = 0;
    for range in ranges {
        if range.size > BANK - used {
            return used < BANK;
        }
        used += range.size;
    }
    false
}

/// Whether a port is above 1,023.
pub(crate) fn has_high_port(groups: &[PortGroup]) -> bool
    ensures { result ≡ rows.has_high_port groups.now }
{
    groups.iter().any(|group| group.port > 1023)
}

// Names: whether one stands in a list, and the name on a line of a file.
ghost use Rattle.std.specs.Prelude.{◌≡◌, ◌==◌, ◌-◌, bytes_eq, slice_get, option_map};
ghost use Rattle.std.specs.List.{list_any, slice_split};
ghost use Rattle.ib_config.specs.FaultTexts.{name_on_line as the_name_on_line};
ghost use Rattle.ib_config.specs.Line.{body_of, name_of};

use crate::assignments::without_return;
use crate::classes::{Class, split_run};

/// Whether a name stands in a list of names.
pub(crate) fn is_listed(names: &[&str], name: &[u8]) -> bool
    ensures { result ≡ list_any (λ other. bytes_eq name.now other.now) names.now }
{
    names.iter().any(|other| name == other.as_bytes())
}

/// A part between line feeds, the first being 0.
fn part(bytes: &[u8], place: usize) -> Option<&[u8]>
    ensures { option_map (λ part. part.now) result ≡ slice_get (slice_split (λ c. c == 10) bytes.now) place }
{
    bytes.split(|c| *c == b'\n').nth(place)
}

/// The name that a line begins with behind its blanks.
fn name_in(line: &[u8]) -> &[u8]
    ensures { result.now ≡ name_of (body_of line.now) }
{
    let (_, body) = split_run(line, Class::Blank);
    split_run(body, Class::Name).0
}

/// The name on a line of a file, the first line being 1; no bytes where the file has no such line.
pub(crate) fn name_on_line(bytes: &[u8], number: u64) -> &[u8]
    ensures { result.now ≡ the_name_on_line bytes.now number }
{
    match part(bytes, number.saturating_sub(1) as usize) {
        Some(part) => name_in(without_return(part)),
        None => &[],
    }
}

// The lines of a case: a word, and behind a space what belongs to it.
use texts::read_number;

/// A text up to its first space, and what stands behind it.
pub(crate) fn parted(text: &str) -> (&str, &str) {
    text.split_once(' ').unwrap_or((text, ""))
}

/// A number in decimal or, behind `0x`, in hexadecimal; or 0.
pub(crate) fn number(text: &str) -> u64 {
    read_number(text).unwrap_or(0)
}

/// A number in decimal, or 0.
pub(crate) fn count(text: &str) -> u32 {
    text.parse::<u32>().unwrap_or(0)
}

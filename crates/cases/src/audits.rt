// A case that is run, and then once more, with the word `--check`, over the images that the first run wrote. Lines of
// the case say how they are changed before. Each line is a word of these, the name of an image, and what belongs to
// it:
//
//     root NAME FRAME              its root is this frame
//     count NAME COUNT             it says that it has so many pages
//     frame NAME PAGE FRAME        its page at this place lies in this frame
//     put NAME PAGE INDEX WORD     the word of this index of its page at this place is this
//     keep NAME COUNT              it has so many bytes: its first ones, and zeros behind them
//     copy NAME OTHER              it has the bytes of the output of this other name
use crate::case::Case;
use crate::lines::{number, parted};
use outside::Status;
use std::alloc::{AllocError, Global};

// The longest image that is changed, in bytes.
const LONGEST: u64 = 2_000_000;

// The bytes before the pages, and those of a page, of which the first eight are its frame.
const HEADER: usize = 24;

const PAGE: usize = 4104;

/// Runs the case, and its audit over the images as they are then changed, and answers what the audit does; or, where the
/// case is refused, what it does.
pub(crate) fn audit(alloc: Global, lines: &str, case: &mut Case) -> Result<Status, AllocError> {
    let status = case.run(alloc);
    if status != Status::Built {
        return Ok(status);
    }
    case.hold_outputs()?;
    change_images(alloc, lines, case)?;
    case.add_word(alloc, "--check")?;
    case.clear(alloc)?;
    Ok(case.run(alloc))
}

/// Changes the images as these lines say.
fn change_images(alloc: Global, lines: &str, case: &mut Case) -> Result<(), AllocError> {
    for line in lines.lines() {
        make_change(alloc, case, line)?;
    }
    Ok(())
}

/// How an image is changed.
#[derive(Clone, Copy)]
enum Change {
    Root,
    Count,
    Frame,
    Put,
    Keep,
    Copy,
}

/// The change of a word.
fn change_of(word: &str) -> Option<Change> {
    match word {
        "root" => Some(Change::Root),
        "count" => Some(Change::Count),
        "frame" => Some(Change::Frame),
        "put" => Some(Change::Put),
        "keep" => Some(Change::Keep),
        "copy" => Some(Change::Copy),
        _ => None,
    }
}

/// Changes an image as a line says.
fn make_change(alloc: Global, case: &mut Case, line: &str) -> Result<(), AllocError> {
    let (word, rest) = parted(line);
    let Some(change) = change_of(word) else {
        return Ok(());
    };
    let (name, values) = parted(rest);
    let source = match change {
        Change::Copy => values,
        _ => name,
    };
    let Some(mut bytes) = case.read_file(alloc, source, LONGEST) else {
        return Ok(());
    };
    change_bytes(change, values, &mut bytes)?;
    case.add_file(name, &bytes)
}

/// Changes the bytes of an image.
fn change_bytes(change: Change, values: &str, bytes: &mut Vec<u8>) -> Result<(), AllocError> {
    let (first, rest) = parted(values);
    let value = number(first);
    match change {
        Change::Root => write_number(bytes, 8, value),
        Change::Count => write_number(bytes, 16, value),
        Change::Frame => write_number(bytes, place_of(value), number(rest)),
        Change::Put => write_word(bytes, value, rest),
        Change::Keep => bytes.resize(value as usize, 0)?,
        Change::Copy => {}
    }
    Ok(())
}

/// Writes a word of a page: the text says its index and the word.
fn write_word(bytes: &mut [u8], page: u64, text: &str) {
    let (index, word) = parted(text);
    let offset = (number(index) as usize).saturating_mul(8);
    let place = place_of(page).saturating_add(8).saturating_add(offset);
    write_number(bytes, place, number(word));
}

/// Where a page begins.
fn place_of(page: u64) -> usize {
    (page as usize).saturating_mul(PAGE).saturating_add(HEADER)
}

/// Writes a number as eight bytes from a place on, the lowest first, where these are.
fn write_number(bytes: &mut [u8], place: usize, number: u64) {
    let spelled = number.to_le_bytes();
    for index in 0..8 {
        let at = place.saturating_add(index);
        if at < bytes.len() {
            bytes[at] = spelled[index];
        }
    }
}

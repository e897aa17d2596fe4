// Reading what a case runs. Each line is a word of these and what belongs to it:
//
//     program NAME      the program is `guest_load`, `fdt_overlay` or `fdt_source`; without this line it is `dom0less`
//     word TEXT         a further word of the run
//     fail PLACE CALL   the call of this number fails: of `files`, `outs`, `out` or `err`
//     file NAME         a file is held under this name, whose bytes are those of the lines up to the next file; not the
//                       first line
//     from PATH         the bytes of this file
//     line TEXT         a line of text
//     zeros COUNT       so many bytes that are zero
//     number VALUE      the eight bytes of this number, the lowest first
//
// or one that `ways`, `audits` or `content` reads.
use crate::case::Case;
use crate::lines::{count, number, parted};
use std::alloc::{AllocError, Global};
use std::{fs, io};

/// The case is what these lines say, with room for all that its run writes.
pub(crate) fn read_case(
    rt: &(impl std::rt::Files + AllocGlobal),
    lines: &str,
    case: &mut Case,
) -> io::Result<()> {
    case.reset(rt.alloc())?;
    read_words(rt.alloc(), lines, case)?;
    read_files(rt, lines, case)
}

/// Chooses the program, and adds the words and the calls that fail.
fn read_words(alloc: Global, lines: &str, case: &mut Case) -> Result<(), AllocError> {
    for line in lines.lines() {
        let (word, value) = parted(line);
        read_line(alloc, case, word, value)?;
    }
    Ok(())
}

/// Chooses the program, or adds a word or a call that fails.
fn read_line(alloc: Global, case: &mut Case, word: &str, value: &str) -> Result<(), AllocError> {
    match word {
        "program" => case.choose(alloc, value),
        "word" => case.add_word(alloc, value),
        "fail" => {
            let (place, call) = parted(value);
            case.fail_at(place, count(call) as u64)
        }
        _ => Ok(()),
    }
}

/// Adds the files of which these lines give the bytes.
fn read_files(
    rt: &(impl std::rt::Files + AllocGlobal),
    lines: &str,
    case: &mut Case,
) -> io::Result<()> {
    for file in lines.split("\nfile ").skip(1) {
        read_file(rt, file, case)?;
    }
    Ok(())
}

/// Adds a file: its first line is the name, and the others give the bytes.
fn read_file(
    rt: &(impl std::rt::Files + AllocGlobal),
    file: &str,
    case: &mut Case,
) -> io::Result<()> {
    let (name, lines) = file.split_once('\n').unwrap_or((file, ""));
    let mut bytes = Vec::new(rt.alloc());
    read_bytes(rt, lines, &mut bytes)?;
    Ok(case.add_file(name, &bytes)?)
}

/// Adds the bytes that lines give.
fn read_bytes(
    rt: &(impl std::rt::Files + AllocGlobal),
    lines: &str,
    bytes: &mut Vec<u8>,
) -> io::Result<()> {
    for line in lines.lines() {
        let (word, value) = parted(line);
        add_piece(rt, bytes, piece_of(word), value)?;
    }
    Ok(())
}

/// What a line gives to the bytes of a file.
#[derive(Clone, Copy)]
enum Piece {
    /// The bytes of a file of the folder.
    File,
    /// A line of text.
    Line,
    /// Bytes that are zero.
    Zeros,
    /// A number.
    Number,
    /// Nothing.
    Nothing,
}

/// The piece that a word gives.
fn piece_of(word: &str) -> Piece {
    match word {
        "from" => Piece::File,
        "line" => Piece::Line,
        "zeros" => Piece::Zeros,
        "number" => Piece::Number,
        _ => Piece::Nothing,
    }
}

/// Adds a piece to the bytes of a file.
fn add_piece(
    rt: &(impl std::rt::Files + AllocGlobal),
    bytes: &mut Vec<u8>,
    piece: Piece,
    value: &str,
) -> io::Result<()> {
    match piece {
        Piece::File => add_file(rt, bytes, value),
        _ => Ok(add_plain(bytes, piece, value)?),
    }
}

/// Adds a piece that is no file to the bytes of a file.
fn add_plain(bytes: &mut Vec<u8>, piece: Piece, value: &str) -> Result<(), AllocError> {
    match piece {
        Piece::Line => add_line(bytes, value),
        Piece::Zeros => add_zeros(bytes, count(value)),
        Piece::Number => bytes.extend_from_slice(&number(value).to_le_bytes()),
        _ => Ok(()),
    }
}

/// Adds the bytes of a file of the folder.
fn add_file(
    rt: &(impl std::rt::Files + AllocGlobal),
    bytes: &mut Vec<u8>,
    path: &str,
) -> io::Result<()> {
    let held = fs::read(rt, path)?;
    Ok(bytes.extend_from_slice(&held)?)
}

/// Adds a line of text.
fn add_line(bytes: &mut Vec<u8>, text: &str) -> Result<(), AllocError> {
    bytes.extend_from_slice(text.as_bytes())?;
    bytes.extend_from_slice(b"\n")
}

/// Adds bytes that are zero.
fn add_zeros(bytes: &mut Vec<u8>, count: u32) -> Result<(), AllocError> {
    let length = bytes.len().saturating_add(count as usize);
    bytes.resize(length, 0)
}

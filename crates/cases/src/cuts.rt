// A case that is run over the beginnings of a file.
use crate::case::{Case, OUTPUTS};
use crate::shown::show_lines;
use std::io;

// The longest file that is cut, in bytes.
const LONGEST: u64 = 100_000;

/// Which beginnings of a file a case is run over.
#[derive(Clone, Copy)]
pub(crate) enum Cutting {
    /// No line, and then with one line more each time.
    Lines,
    /// All but the last byte, and so on, so many times.
    Bytes(u32),
}

/// Runs the case over beginnings of this file, and shows what each run answers and says, and how much it writes.
pub(crate) fn show_cuts(
    rt: &(impl Print + AllocGlobal),
    name: &str,
    file: &str,
    cutting: Cutting,
    case: &mut Case,
) -> io::Result<()> {
    let Some(bytes) = case.read_file(rt.alloc(), file, LONGEST) else {
        return Ok(());
    };
    match cutting {
        Cutting::Lines => cut_lines(rt, name, file, &bytes, case),
        Cutting::Bytes(count) => cut_bytes(rt, name, file, &bytes, count, case),
    }
}

/// Runs the case over no line of these bytes, and over one more each time.
fn cut_lines(
    rt: &(impl Print + AllocGlobal),
    name: &str,
    file: &str,
    bytes: &[u8],
    case: &mut Case,
) -> io::Result<()> {
    let mut count = 0u32;
    for end in 0..bytes.len() + 1 {
        if end == 0 || bytes[end - 1] == b'\n' {
            print!(rt; "-- {name}, {count} lines")?;
            show_cut(rt, file, &bytes[..end], case)?;
            count = count.saturating_add(1);
        }
    }
    Ok(())
}

/// Runs the case so many times, and with one of these bytes less at the end each time.
fn cut_bytes(
    rt: &(impl Print + AllocGlobal),
    name: &str,
    file: &str,
    bytes: &[u8],
    count: u32,
    case: &mut Case,
) -> io::Result<()> {
    for cut in 0..count {
        let end = bytes.len().saturating_sub(cut as usize + 1);
        print!(rt; "-- {name}, {end} bytes")?;
        show_cut(rt, file, &bytes[..end], case)?;
    }
    Ok(())
}

/// Runs the case with these bytes in the file, and shows what the run answers and says, and how much it writes.
fn show_cut(
    rt: &(impl Print + AllocGlobal),
    file: &str,
    bytes: &[u8],
    case: &mut Case,
) -> io::Result<()> {
    case.add_file(file, bytes)?;
    case.clear(rt.alloc())?;
    let code = case.run(rt.alloc()).code();
    let (files, size) = size_of_outputs(case);
    println!(rt; ": status {code}, {files} files, {size} bytes")?;
    show_lines(rt, case.said())
}

/// How many outputs there are, and how many bytes they have.
fn size_of_outputs(case: &Case) -> (u32, usize) {
    let mut files = 0u32;
    let mut size = 0usize;
    for number in 0..OUTPUTS {
        if let Some((_name, bytes)) = case.written(number) {
            files = files.saturating_add(1);
            size = size.saturating_add(bytes.len());
        }
    }
    (files, size)
}

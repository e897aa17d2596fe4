// Outputs that are whole or not there: each is written beside its place, and then takes it. No memory is taken.
ghost use Rattle.std.specs.Prelude.{◌≡◌, ◌≤◌, length, IfSome};

use std::fs::{self, File};
use std::io::{ErrorKind, Write};
use std::rt::Files;

/// The longest name that the system takes, in bytes.
const NAME_LIMIT: usize = 4095;

/// The longest name of a part, in bytes: a name and an ending.
const PART_LIMIT: usize = NAME_LIMIT + 6;

/// What is put behind a name to write beside it, in the order in which it is tried.
const ENDINGS: [&str; 10] = [
    ".part", ".part1", ".part2", ".part3", ".part4", ".part5", ".part6", ".part7", ".part8",
    ".part9",
];

/// Writes a file whole. A file that is there, or none, is replaced at once when all bytes are written beside it, under its
/// name and an ending: so a failure leaves it as it was, and no file that is there is opened under that name. What is there
/// and no file of its own, as a device, a pipe or a link, is written to. Answers whether all bytes were written.
pub(crate) fn write_whole<R: Files>(rt: &R, name: &str, bytes: &[u8]) -> bool {
    if !is_replaced(rt, name) {
        return write_to(rt, name, bytes);
    }
    for ending in &ENDINGS {
        let mut place = [0u8; PART_LIMIT];
        let Some(part) = part_name(&mut place, name, ending) else {
            return false;
        };
        match File::create_new(rt, part) {
            Ok(mut file) => return replace_by(rt, part, file.write_all(bytes).is_ok(), name),
            Err(e) if e.kind() == ErrorKind::AlreadyExists => {}
            Err(_) => return false,
        }
    }
    false
}

/// The name with the ending behind it, where there is place for both.
fn part_name<'a>(place: &'a mut [u8; PART_LIMIT], name: &str, ending: &str) -> Option<&'a str> {
    let middle = name.len();
    if middle > NAME_LIMIT || ending.len() > PART_LIMIT - middle {
        return None;
    }
    let end = middle + ending.len();
    place[..middle].copy_from_slice(name.as_bytes());
    place[middle..end].copy_from_slice(ending.as_bytes());
    str::from_utf8(&place[..end]).ok()
}

/// Lets a part that was written whole take the place of the file of that name; one that was not is removed.
fn replace_by<R: Files>(rt: &R, part: &str, whole: bool, name: &str) -> bool {
    if whole && fs::rename(rt, part, name).is_ok() {
        return true;
    }
    // Where this fails, too, a part is left, under the name of none of the outputs.
    let _ = fs::remove_file(rt, part);
    false
}

/// Whether nothing has the name, or a file of its own.
fn is_replaced<R: Files>(rt: &R, name: &str) -> bool {
    match fs::symlink_metadata(rt, name) {
        Ok(metadata) => metadata.is_file(),
        Err(_) => true,
    }
}

/// Writes to what the name leads to.
fn write_to<R: Files>(rt: &R, name: &str, bytes: &[u8]) -> bool {
    match fs::create(rt, name) {
        Ok(mut file) => file.write_all(bytes).is_ok(),
        Err(_) => false,
    }
}

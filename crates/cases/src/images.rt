// What is shown of an image:
//
//     frames NAME               its root frame, and the frames of its pages, in order
//     walk NAME ADDRESS         where a walk through it ends, from this guest address below 2^40
//     words NAME ADDRESS        the words that this walk meets, and where it ends
//     entry NAME FRAME INDEX    the word of this index in the page of this frame
ghost use Rattle.std.specs.Prelude.{◌<◌, ◌^◌};

use crate::lines::{number, parted};
use stage2_walk::{Image, Step, pages_spanned, read_image};
use std::io;

/// What of an image is shown.
#[derive(Clone, Copy)]
pub(crate) enum Look {
    Frames,
    Walk,
    Words,
    Entry,
}

/// What a word shows of an image.
pub(crate) fn look_of(word: &str) -> Option<Look> {
    match word {
        "frames" => Some(Look::Frames),
        "walk" => Some(Look::Walk),
        "words" => Some(Look::Words),
        "entry" => Some(Look::Entry),
        _ => None,
    }
}

/// Shows this of the image that has these bytes.
pub(crate) fn show_image(
    rt: &(impl Print + AllocGlobal),
    bytes: &[u8],
    look: Look,
    value: &str,
) -> io::Result<()> {
    match read_image(rt.alloc(), Vec::from_slice(rt.alloc(), bytes)?) {
        Ok(image) => show_look(rt, &image, look, value),
        Err(_) => println!(rt; "no image"),
    }
}

/// Shows this of an image.
fn show_look(rt: &impl Print, image: &Image, look: Look, value: &str) -> io::Result<()> {
    match look {
        Look::Frames => show_frames(rt, image),
        Look::Walk => show_walk(rt, image, number(value) % (1 << 40)),
        Look::Words => show_words(rt, image, number(value) % (1 << 40)),
        Look::Entry => {
            let (frame, index) = parted(value);
            show_entry(rt, image, number(frame), number(index))
        }
    }
}

/// Shows the frames of an image.
fn show_frames(rt: &impl Print, image: &Image) -> io::Result<()> {
    let root = image.root();
    print!(rt; "  root {root:#x}, pages")?;
    for index in 0..image.page_count() {
        let frame = image.frame_at(index);
        print!(rt; " {frame:#x}")?;
    }
    println!(rt; "")
}

/// Shows where the walk of a guest address ends.
fn show_walk(rt: &impl Print, image: &Image, address: u64) -> io::Result<()>
    requires { address < 2 ^ 40 }
{
    match image.walk(address) {
        Step::Mapped {
            address: host,
            attr,
        } => println!(rt; "  {address:#x} walks to {host:#x}, attributes {attr:#x}"),
        _ => println!(rt; "  {address:#x} walks to none"),
    }
}

/// Shows the words that the walk of a guest address meets, and where it ends.
fn show_words(rt: &impl Print, image: &Image, address: u64) -> io::Result<()>
    requires { address < 2 ^ 40 }
{
    let Step::Mapped { address: host, .. } = image.walk(address) else {
        return println!(rt; "  {address:#x}: not mapped");
    };
    print!(rt; "  {address:#x}: words")?;
    show_words_met(rt, image, address)?;
    println!(rt; ", host address {host:#x}")
}

/// Shows the words that the walk of a guest address meets, down to the first that names no table.
fn show_words_met(rt: &impl Print, image: &Image, address: u64) -> io::Result<()>
    requires { address < 2 ^ 40 }
{
    let mut frame = image.root() + address / (1 << 39);
    for level in 1..4u8 {
        let index = (address / 4096 / pages_spanned(level) % 512) as usize;
        let Some(word) = image.word(frame, index) else {
            break;
        };
        print!(rt; " {word:#x}")?;
        if word % 4 != 3 {
            break;
        }
        frame = word / 4096 % (1 << 36);
    }
    Ok(())
}

/// Shows a word of an image.
fn show_entry(rt: &impl Print, image: &Image, frame: u64, index: u64) -> io::Result<()> {
    match image.word(frame, index as usize) {
        Some(word) => println!(rt; "  word {index} of frame {frame:#x} is {word:#x}"),
        None => println!(rt; "  word {index} of frame {frame:#x} is not there"),
    }
}

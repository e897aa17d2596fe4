// What is shown of an output beside its length. Each line is a word of these, the name of the output, and what belongs to
// it:
//
//     text NAME                 its text
//     bytes NAME                its bytes, two hexadecimal digits each
//     tree NAME PATH            the listing of its tree from this node down
//
// or one that `images` reads.
use crate::images::{Look, look_of, show_image};
use crate::lines::parted;
use crate::shown::show_lines;
use crate::trees::show_tree;
use std::io;

/// What of an output is shown.
#[derive(Clone, Copy)]
enum Content {
    Text,
    Bytes,
    Tree,
    Image(Look),
}

/// What a word shows.
fn content_of(word: &str) -> Option<Content> {
    match word {
        "text" => Some(Content::Text),
        "bytes" => Some(Content::Bytes),
        "tree" => Some(Content::Tree),
        _ => look_of(word).map(Content::Image),
    }
}

/// Shows what a line asks for, where it names this output.
pub(crate) fn show_content(
    rt: &(impl Print + AllocGlobal),
    line: &str,
    name: &[u8],
    bytes: &[u8],
) -> io::Result<()> {
    let (word, rest) = parted(line);
    let (of, value) = parted(rest);
    if of.as_bytes() != name {
        return Ok(());
    }
    match content_of(word) {
        None => Ok(()),
        Some(Content::Text) => show_lines(rt, bytes),
        Some(Content::Bytes) => show_bytes(rt, bytes),
        Some(Content::Tree) => show_tree(rt, bytes, value),
        Some(Content::Image(look)) => show_image(rt, bytes, look, value),
    }
}

/// Shows bytes, two hexadecimal digits each.
pub(crate) fn show_bytes(rt: &impl Print, bytes: &[u8]) -> io::Result<()> {
    print!(rt; "  ")?;
    for byte in bytes {
        print!(rt; "{byte:02x}")?;
    }
    println!(rt; "")
}

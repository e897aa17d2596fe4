// What is shown of a tree.
use crate::case::Case;
use std::alloc::{AllocError, Global};
use std::io;

/// Shows the listing of a tree from a node down: of all its lines, those of the node and of the nodes below it.
pub(crate) fn show_tree(
    rt: &(impl Print + AllocGlobal),
    bytes: &[u8],
    path: &str,
) -> io::Result<()> {
    let mut case = Case::new(rt.alloc());
    show_listing(rt, bytes, path, &mut case)
}

/// Shows what the case lists of a tree from a node down.
fn show_listing(
    rt: &(impl Print + AllocGlobal),
    bytes: &[u8],
    path: &str,
    case: &mut Case,
) -> io::Result<()> {
    list_tree(rt.alloc(), bytes, case)?;
    match str::from_utf8(case.report()) {
        Ok(listing) => show_below(rt, listing, path),
        Err(_) => Ok(()),
    }
}

/// Runs the case as one that lists a tree.
fn list_tree(alloc: Global, bytes: &[u8], case: &mut Case) -> Result<(), AllocError> {
    case.reset(alloc)?;
    case.add_word(alloc, "--show")?;
    case.add_word(alloc, "tree")?;
    case.add_file("tree", bytes)?;
    let _status = case.run(alloc);
    Ok(())
}

/// Shows of a listing the lines of a node and of the nodes below it.
fn show_below(rt: &impl Print, listing: &str, path: &str) -> io::Result<()> {
    let mut is_shown = false;
    for line in listing.lines() {
        if line.starts_with('/') {
            is_shown = is_below(line, path);
        }
        if is_shown {
            println!(rt; "{line}")?;
        }
    }
    Ok(())
}

/// A path is that of a node, or of one below it.
fn is_below(path: &str, node: &str) -> bool {
    match path.strip_prefix(node) {
        Some(rest) => node == "/" || rest.is_empty() || rest.starts_with('/'),
        None => false,
    }
}

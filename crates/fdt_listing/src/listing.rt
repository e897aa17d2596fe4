// The listing of a tree, token by token.
ghost use Rattle.std.specs.Prelude.{◌≡◌, ◌++◌, flat_map, IfOk, OnOk};
ghost use Rattle.fdt_write.specs.Meaning.{meaning};
ghost use Rattle.fdt_write.specs.Opened.{opened_after};
ghost use Rattle.fdt_listing.specs.Listing.{reserve_line, tree_lines, listing};
ghost use Rattle.fdt_listing.specs.PrivateOpened.{token_line};

use crate::lines::{append_line, append_property, append_reserve};
use fdt_tree::{Reserve, Tree};
use fdt_write::{OpenNodes, TreeToken, TreeTokens};
use std::alloc::{AllocError, Global};
use texts::Bytes;

/// Adds the lines of reservations.
fn append_reserves(alloc: Global, out: &mut Bytes, reserves: &[Reserve]) -> Result<(), AllocError>
    ensures { OnOk result (out.new ≡ out.old ++ flat_map reserve_line reserves.now) }
{
    for reserve in reserves {
        append_reserve(alloc, out, *reserve)?;
    }
    Ok(())
}

/// Adds the line of a token, if it has one, and goes into the node that begins or out of the one that ends.
fn append_token(
    alloc: Global,
    out: &mut Bytes,
    nodes: &mut OpenNodes,
    token: &TreeToken<'_>,
) -> Result<(), AllocError>
    ensures line { OnOk result (out.new ≡ out.old ++ token_line nodes.old (meaning token.now)) }
    ensures nodes { OnOk result (nodes.new ≡ opened_after nodes.old (meaning token.now)) }
{
    match token {
        TreeToken::BeginNode(name) => {
            nodes.enter(name)?;
            append_line(out, nodes.shown())
        }
        TreeToken::Property(name, value) => append_property(alloc, out, name, value),
        TreeToken::EndNode => {
            nodes.leave();
            Ok(())
        }
        TreeToken::End => Ok(()),
    }
}

/// Adds the lines of a tree.
fn append_nodes(alloc: Global, out: &mut Bytes, tree: &Tree) -> Result<(), AllocError>
    ensures { OnOk result (out.new ≡ out.old ++ tree_lines tree.now.tree) }
{
    let mut nodes = OpenNodes::new(alloc);
    for token in TreeTokens::new(tree) {
        append_token(alloc, out, &mut nodes, &token)?;
    }
    Ok(())
}

/// The listing of a tree and its reservations as text. Each line ends with a line feed: `reserve ADDRESS SIZE` for each
/// reservation; then for each node in document order its path and, two spaces in, its properties, each with its name and
/// its bytes in hexadecimal digits, or `-` where it has none. Names are shown as the bytes that they are.
pub fn list(alloc: Global, tree: &Tree, reserves: &[Reserve]) -> Result<Vec<u8>, AllocError>
    ensures { IfOk result (λ bytes. bytes.items ≡ listing reserves.now tree.now.tree) }
{
    let mut out = Bytes::new(alloc);
    append_reserves(alloc, &mut out, reserves)?;
    append_nodes(alloc, &mut out, tree)?;
    out.into_vec()
}

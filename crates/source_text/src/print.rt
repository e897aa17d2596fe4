// The printed text of a tree, token by token.
ghost use Rattle.std.specs.Prelude.{◌≡◌, ◌⊎◌, ◌++◌, not, IfOk, IfErr, OnOk, IsTrue, None, Some};
ghost use Rattle.std.specs.List.{list_all};
ghost use Rattle.fdt_read.specs.Reservations.{is_last_pair};
ghost use Rattle.fdt_tree.specs.Tree as trees;
ghost use Rattle.fdt_write.specs.Meaning.{meaning};
ghost use Rattle.fdt_write.specs.Opened.{opened_after};
ghost use Rattle.source_text.specs.Printed.{tree_lines, printed};
ghost use Rattle.source_text.specs.BadNames.{first_bad};
ghost use Rattle.source_text.specs.PrivateOpened.{is_bad_token, token_path};

use crate::characters::{is_node_name, is_property_name};
use crate::fault::PrintFault;
use crate::lines::{append_reserves, append_token};
use crate::tabs::Tabs;
use fdt_tree::{Reserve, Tree};
use fdt_write::{OpenNodes, TreeToken, TreeTokens};
use std::alloc::{AllocError, Global};
use texts::Bytes;

/// Adds the lines of a tree.
fn append_nodes(alloc: Global, out: &mut Bytes, tree: &Tree) -> Result<(), AllocError>
    ensures { OnOk result (out.new ≡ out.old ++ tree_lines tree.now.tree) }
{
    let mut tabs = Tabs::new(alloc);
    for token in TreeTokens::new(tree) {
        append_token(alloc, out, &mut tabs, &token)?;
    }
    Ok(())
}

/// Goes into the node that a token begins or out of the one that it ends, and says whether the token's name is bad.
fn is_bad(nodes: &mut OpenNodes, token: &TreeToken<'_>) -> Result<bool, AllocError>
    ensures bad { IfOk result (λ bad. bad ≡ is_bad_token nodes.old (meaning token.now)) }
    ensures nodes { OnOk result (nodes.new ≡ opened_after nodes.old (meaning token.now)) }
{
    match token {
        TreeToken::BeginNode(name) => {
            let bad = !nodes.is_empty() && !is_node_name(name);
            nodes.enter(name)?;
            Ok(bad)
        }
        TreeToken::Property(name, _) => Ok(!nodes.is_empty() && !is_property_name(name)),
        TreeToken::EndNode => {
            nodes.leave();
            Ok(false)
        }
        TreeToken::End => Ok(false),
    }
}

/// The path of the first node with a name that cannot be printed.
fn bad_path(alloc: Global, tree: &Tree) -> Result<Option<Bytes>, AllocError>
    ensures { IfOk result (λ path. path ≡ first_bad tree.now.tree) }
{
    let mut nodes = OpenNodes::new(alloc);
    for token in TreeTokens::new(tree) {
        if is_bad(&mut nodes, &token)? {
            let mut path = Bytes::new(alloc);
            path.append(nodes.shown())?;
            return Ok(Some(path));
        }
    }
    Ok(None)
}

/// The text of a tree whose names can be printed.
fn text_of(alloc: Global, tree: &Tree, reserves: &[Reserve]) -> Result<Vec<u8>, AllocError>
    ensures { IfOk result (λ bytes. bytes.items ≡ printed reserves.now tree.now.tree) }
{
    let mut out = Bytes::new(alloc);
    out.append(b"/dts-v1/;\n")?;
    append_reserves(alloc, &mut out, reserves)?;
    append_nodes(alloc, &mut out, tree)?;
    out.into_vec()
}

/// The one text of a tree and its reservations as device tree source, where all names can be printed. `BadName` has the
/// path of the first node, in document order, whose own name or that of one of its properties has a character outside its
/// set; the root has no name of its own.
pub fn print_source(alloc: Global, tree: &Tree, reserves: &[Reserve]) -> Result<Vec<u8>, PrintFault>
    requires { IsTrue (list_all (λ reserve. not (is_last_pair reserve)) reserves.now) }
    ensures printed { IfOk result (λ bytes. bytes.items ≡ printed reserves.now tree.now.tree) }
    ensures named { OnOk result (first_bad tree.now.tree ≡ None) }
    ensures bad_name { IfErr result (λ fault. (fault ≡ PrintFault.Memory) ⊎ ((path : trees.Bytes) × (fault ≡ PrintFault.BadName path) × (first_bad tree.now.tree ≡ Some path))) }
{
    if let Some(path) = bad_path(alloc, tree)? {
        return Err(PrintFault::BadName(path));
    }
    Ok(text_of(alloc, tree, reserves)?)
}

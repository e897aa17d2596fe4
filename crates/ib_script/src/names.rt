// Texts of commands: constants, paths and numbered names.
ghost use Rattle.std.specs.Prelude.{◌≡◌, IfOk};
ghost use Rattle.ib_script.specs.Properties.{below as path_below, numbered as name_numbered};

use std::alloc::{AllocError, Global};
use texts::Text;

/// A text of its own.
pub(crate) fn text_of(alloc: Global, text: &str) -> Result<Text, AllocError>
    ensures { IfOk result (λ copy. copy ≡ text.now) }
{
    let mut copy = Text::new(alloc);
    copy.append(text)?;
    Ok(copy)
}

/// The path of a child.
#[tactic(auto, unfolding(crate::specs::Properties::below))]
pub(crate) fn below(alloc: Global, path: &str, name: &str) -> Result<Text, AllocError>
    ensures { IfOk result (λ child. child ≡ path_below path.now name.now) }
{
    let mut child = Text::new(alloc);
    child.append(path)?;
    child.append("/")?;
    child.append(name)?;
    Ok(child)
}

/// The name of a numbered node.
#[tactic(auto, unfolding(crate::specs::Properties::numbered))]
pub(crate) fn numbered(alloc: Global, name: &str, number: u64) -> Result<Text, AllocError>
    ensures { IfOk result (λ text. text ≡ name_numbered name.now number) }
{
    let shown = format!(in alloc; "{name}{number}")?;
    text_of(alloc, shown.as_str())
}

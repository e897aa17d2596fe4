// The names of the strings block.
ghost use Rattle.std.specs.Prelude.{◌≡◌, ◌++◌, [], length, flat_map, IfOk, OnOk, OnErr};
ghost use Rattle.fdt_write.specs.PrivateNames.{texts, offset_of, saturated, with_name, IsIndex};
ghost use Rattle.fdt_write.specs.Strings.{ended, strings, strings_of};
ghost use Rattle.fdt_write.specs.PrivateUsed.{with_used};

use crate::tree_tokens::{TreeToken, TreeTokens};
use fdt_tree::Tree;
use std::alloc::{AllocError, Global};
use std::collections::BTreeMap;

/// The names of the strings block (5.5), each once, with its offset in bytes. An offset, or the size of all, that is past
/// 2^64 - 1 stands as 2^64 - 1. A look-up takes the time of a search in a sorted list, whatever the names are.
#[derive(Drop)]
pub(crate) struct Names<'a> {
    order: Vec<&'a [u8]>,
    offsets: BTreeMap<&'a [u8], u64>,
    size: u64,
    ghost indexed: { IsIndex offsets (texts order.items) },
    ghost sized: { size ≡ saturated (length (strings_of (texts order.items))) },
}

impl<'a> Names<'a> {
    ghost use Rattle.fdt_write.specs.PrivateHeld.{held};
    ghost use Rattle.fdt_write.specs.Meaning.{meaning};

    /// No names.
    pub(crate) fn new(alloc: Global) -> Names<'a>
        ensures { held result ≡ [] }
    {
        Names {
            order: Vec::new(alloc),
            offsets: BTreeMap::new(alloc),
            size: 0,
        }
    }

    /// Adds a name after the others, unless it is there. After want of memory the names are as they were.
    pub(crate) fn add(&mut self, name: &'a [u8]) -> Result<(), AllocError>
        ensures ok { OnOk result (held self.new ≡ with_name (held self.old) name.now) }
        ensures err { OnErr result (held self.new ≡ held self.old) }
    {
        if self.offset(name).is_some() {
            return Ok(());
        }
        self.order.push(name)?;
        match self.offsets.insert(name, self.size) {
            Ok(_) => {}
            Err(_) => {
                let _ = self.order.pop();
                return Err(AllocError);
            }
        }
        self.size = self
            .size
            .saturating_add(name.len() as u64)
            .saturating_add(1);
        Ok(())
    }

    /// Adds the name that a token uses, if it uses one.
    fn add_used(&mut self, token: TreeToken<'a>) -> Result<(), AllocError>
        ensures { OnOk result (held self.new ≡ with_used (held self.old) (meaning token.entry)) }
    {
        match token {
            TreeToken::Property(name, _) => self.add(name),
            _ => Ok(()),
        }
    }

    /// The names of the properties of a tree, in order of first use.
    pub(crate) fn of_tree(alloc: Global, tree: &'a Tree) -> Result<Names<'a>, AllocError>
        ensures { IfOk result (λ names. held names ≡ strings tree.now.tree) }
    {
        let mut names = Names::new(alloc);
        for token in TreeTokens::new(tree) {
            names.add_used(token)?;
        }
        Ok(names)
    }

    /// The offset of a name in bytes, if it is there.
    pub(crate) fn offset(&self, name: &[u8]) -> Option<u64>
        ensures { result ≡ offset_of (held self.now) name.now }
    {
        self.offsets.get(name).copied()
    }

    /// How many bytes the strings block has.
    pub(crate) fn size(&self) -> u64
        ensures { result ≡ saturated (length (strings_of (held self.now))) }
    {
        self.size
    }

    /// Writes the strings block (5.5): each name, and a NUL.
    pub(crate) fn push_to(&self, out: &mut Vec<u8>) -> Result<(), AllocError>
        ensures { OnOk result (out.new.items ≡ out.old.items ++ strings_of (held self.now)) }
    {
        push_each(out, self.order.as_slice())?;
        Ok(())
    }
}

/// Writes names, each with a NUL.
fn push_each(out: &mut Vec<u8>, names: &[&[u8]]) -> Result<(), AllocError>
    ensures { OnOk result (out.new.items ≡ out.old.items ++ flat_map (λ name. ended name.now) names.now) }
{
    for name in names {
        push_ended(out, name)?;
    }
    Ok(())
}

/// Writes a name, and a NUL.
fn push_ended(out: &mut Vec<u8>, name: &[u8]) -> Result<(), AllocError>
    ensures { OnOk result (out.new.items ≡ out.old.items ++ ended name.now) }
{
    out.extend_from_slice(name)?;
    out.push(0)?;
    Ok(())
}

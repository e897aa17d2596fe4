// The properties of one node.
ghost use Rattle.std.specs.Prelude.{◌≡◌, ◌<◌, ◌≤◌, ◌+◌, [], ◌∷◌, ◌++◌, Some, IfSome, IsSomeAnd, OnOk, OnErr, length, option_map, slice_get};
ghost use Rattle.fdt_tree.specs.Tree.{Bytes, property_of};
ghost use Rattle.fdt_tree.specs.PathEdits.{set_property};
ghost use Rattle.indexed_tree.specs.Words.{with_word};
ghost use Rattle.indexed_tree.specs.PrivateIndex.{first_at};

use crate::names::enter;
use crate::own_bytes::OwnBytes;
use std::alloc::{AllocError, Global};
use std::collections::BTreeMap;
use std::marker::Model;

/// The properties of a node in their order, and where the first of each name stands.
#[derive(Drop)]
pub(crate) struct Properties {
    items: Vec<(OwnBytes, OwnBytes)>,
    first: BTreeMap<Vec<u8>, usize>,
}

impl Model for Properties {
    ghost use Rattle.std.specs.Prelude.{List};
    ghost use Rattle.fdt_tree.specs.Tree.{Property};
    ghost use Rattle.indexed_tree.specs.PrivateIndex.{IsNameIndex};

    ghost Value = { List Property };

    ghost view = { λ p. p.items.items };

    ghost invariant = { λ p. IsNameIndex p.first p.items.items };
}

impl Properties {
    /// No properties. Takes no memory.
    pub(crate) fn new(alloc: Global) -> Properties
        ensures { result ≡ [] }
    {
        Properties {
            items: Vec::new(alloc),
            first: BTreeMap::new(alloc),
        }
    }

    /// How many there are.
    pub(crate) fn len(&self) -> usize
        ensures { result ≡ length self.now }
    {
        self.items.len()
    }

    /// The name and the value of the property at an index.
    pub(crate) fn at(&self, index: usize) -> (&[u8], &[u8])
        requires { index < length self.now }
        ensures { slice_get self.now index ≡ Some (result.0.now, result.1.now) }
    {
        let held = &self.items[index];
        (held.0.as_slice(), held.1.as_slice())
    }

    /// Where the first of a name stands.
    fn place(&self, name: &[u8]) -> Option<usize>
        ensures { result ≡ first_at name.now self.now }
    {
        self.first.get(name).copied()
    }

    /// The value of the first of a name.
    pub(crate) fn get(&self, name: &[u8]) -> Option<&[u8]>
        ensures { option_map (λ value. value.now) result ≡ property_of self.now name.now }
    {
        match self.place(name) {
            None => None,
            Some(index) => Some(self.at(index).1),
        }
    }

    /// Adds a last property, whatever the names before it. After want of memory they are as they were.
    pub(crate) fn push(&mut self, name: &[u8], bytes: &[u8]) -> Result<(), AllocError>
        ensures ok { OnOk result (self.new ≡ self.old ++ (name.now, bytes.now) ∷ []) }
        ensures err { OnErr result (self.new ≡ self.old) }
    {
        let alloc = *self.items.allocator();
        let held = (
            OwnBytes::copied(alloc, name)?,
            OwnBytes::copied(alloc, bytes)?,
        );
        let key = name.to_vec(alloc)?;
        let index = self.items.len();
        self.items.push(held)?;
        match enter(&mut self.first, key, index) {
            Ok(()) => Ok(()),
            Err(_) => {
                let _ = self.items.pop();
                Err(AllocError)
            }
        }
    }

    /// Replaces the value of the first of a name, or adds a last property. After want of memory they are as they were.
    pub(crate) fn set(&mut self, name: &[u8], bytes: &[u8]) -> Result<(), AllocError>
        ensures ok { OnOk result (self.new ≡ set_property name.now bytes.now self.old) }
        ensures err { OnErr result (self.new ≡ self.old) }
    {
        match self.place(name) {
            None => self.push(name, bytes),
            Some(index) => {
                let value = OwnBytes::copied(*self.items.allocator(), bytes)?;
                let held = &mut self.items[index];
                held.1 = value;
                Ok(())
            }
        }
    }

    /// Puts a word in its place within the value of the first of a name. Takes no memory.
    pub(crate) fn put_word(&mut self, name: &[u8], offset: usize, number: u32)
        requires { IsSomeAnd (property_of self.old name.now) (λ value. offset + 4 ≤ length value) }
        ensures { (value : Bytes) → property_of self.old name.now ≡ Some value → self.new ≡ set_property name.now (with_word value offset number) self.old }
    {
        match self.place(name) {
            None => {}
            Some(index) => {
                let held = &mut self.items[index];
                held.1.put_word(offset, number);
            }
        }
    }
}

// A tree whose children, properties and phandles are found by name or number.
ghost use Rattle.std.specs.Prelude.{◌≡◌, ◌<◌, ◌≤◌, ◌+◌, ◌==◌, [], ◌∷◌, ◌++◌, length, OnOk, IfOk, IfSome, IsSomeAnd, IsTrue, Some, option_map};
ghost use Rattle.std.specs.List.{slice_split};
ghost use Rattle.fdt_tree.specs.Tree.{Bytes, depth, depth_limit, descend, find_place, is_node_name, is_property_name, property_of};
ghost use Rattle.fdt_tree.specs.Document.{empty, place_of, name_of, properties_of, children_of, IsNumbering, IsNamed, with_child, with_properties, with_property};
ghost use Rattle.fdt_tree.specs.PathEdits.{set_property};
ghost use Rattle.indexed_tree.specs.Lookups.{child_place, place_of_phandle};
ghost use Rattle.indexed_tree.specs.Words.{with_word};

use crate::arena::{child, depth, value};
use crate::copies::copy;
use crate::entry::{Entry, root_entry};
use crate::holder_map::Holders;
use crate::node::IndexedNode;
use crate::phandles::{add_whole, holder, push_whole, put_whole, set_whole};
use crate::trees::tree_of;
use fdt_tree::Tree;
use std::alloc::{AllocError, Global};
use std::collections::BTreeMap;
use std::marker::Model;
use texts::cut;

/// A device tree whose children, properties and phandles are found by name or number in the time of a search in a sorted
/// list.
#[derive(Drop)]
pub struct IndexedTree {
    entries: Vec<Entry>,
    holders: Holders,
}

impl Model for IndexedTree {
    ghost use Rattle.fdt_tree.specs.Document.{Document};
    ghost use Rattle.fdt_tree.specs.Assembled.{coded_document};

    ghost Value = { Document };

    ghost coded = { coded_document };

    ghost use Rattle.indexed_tree.specs.PrivateArena.{held};
    ghost use Rattle.indexed_tree.specs.PrivateHolders.{IsWhole};

    ghost view = { λ t. held t.entries.items };

    ghost invariant = { λ t. IsWhole t.entries.items t.holders };
}

impl IndexedTree {
    /// A root alone, with no property.
    pub fn new(alloc: Global) -> Result<IndexedTree, AllocError>
        ensures { IfOk result (λ made. made ≡ empty) }
    {
        let mut entries = Vec::new(alloc);
        entries.push(root_entry(alloc)?)?;
        let holders = BTreeMap::new(alloc);
        Ok(IndexedTree { entries, holders })
    }

    /// A copy of a tree. Its nodes are numbered in document order.
    pub fn copied(alloc: Global, tree: &Tree) -> Result<IndexedTree, AllocError>
        ensures { IfOk result (λ made. made.tree ≡ tree.now.tree) }
    {
        copy(alloc, tree)
    }

    /// The tree alone.
    pub fn into_tree(self) -> Result<Tree, AllocError>
        ensures { IfOk result (λ made. made ≡ self) }
    {
        tree_of(*self.entries.allocator(), self.entries.as_slice())
    }

    /// The root. Its name is empty.
    pub fn root(&self) -> IndexedNode
        ensures live { result < length self.now.places }
        ensures place { place_of self.now result ≡ [] }
        ensures unnamed { name_of self.now result ≡ [] }
    {
        let _ = &self.entries;
        IndexedNode { number: 0 }
    }

    /// Every live number is of a node of its own.
    pub fn numbering(&self)
        ensures { IsNumbering self.now }
    {
        let _ = &self.entries;
    }

    /// Every node and every property has a name that it may have, and no node stands deeper than 32.
    pub fn names(&self)
        ensures { IsNamed self.now }
    {
        let _ = &self.entries;
    }

    /// Adds a last child with no property and no child, whatever the names beside it. After want of memory, which is
    /// answered, too, where the parent stands at the depth limit of 32, the tree may be of no use.
    pub fn add_node(&mut self, parent: IndexedNode, name: &[u8]) -> Result<IndexedNode, AllocError>
        requires live { parent < length self.old.places }
        requires node_name { IsTrue (is_node_name name.now) }
        ensures ok { OnOk result (self.new ≡ with_child self.old (place_of self.old parent) name.now) }
        ensures newest { IfOk result (λ node. node ≡ length self.old.places) }
        ensures longer { IfOk result (λ node. node < length self.new.places) }
    {
        let number = add_whole(&mut self.entries, &mut self.holders, parent.number, name)?;
        Ok(IndexedNode { number })
    }

    /// Adds a last property, whatever the names beside it.
    pub(crate) fn add_prop(
        &mut self,
        node: IndexedNode,
        name: &[u8],
        bytes: &[u8],
    ) -> Result<(), AllocError>
        requires live { node < length self.old.places }
        requires property_name { IsTrue (is_property_name name.now) }
        ensures ok { OnOk result (self.new ≡ with_property self.old (place_of self.old node) name.now bytes.now) }
        ensures places { self.new.places ≡ self.old.places }
    {
        push_whole(
            &mut self.entries,
            &mut self.holders,
            node.number,
            name,
            bytes,
        )
    }

    /// Replaces the bytes of the first property of this name of a node, or adds a last property. After want of memory the
    /// tree may be of no use.
    pub fn set_prop(
        &mut self,
        node: IndexedNode,
        name: &[u8],
        bytes: &[u8],
    ) -> Result<(), AllocError>
        requires live { node < length self.old.places }
        requires property_name { IsTrue (is_property_name name.now) }
        ensures ok { OnOk result (self.new ≡ with_properties self.old (place_of self.old node) (set_property name.now bytes.now)) }
        ensures places { self.new.places ≡ self.old.places }
    {
        set_whole(
            &mut self.entries,
            &mut self.holders,
            node.number,
            name,
            bytes,
        )
    }

    /// Puts a word in its place within the value of the first property of this name of a node, the most significant byte
    /// first (Devicetree Specification 0.4, 2.2.4, u32). After want of memory the tree may be of no use.
    pub fn put_word(
        &mut self,
        node: IndexedNode,
        name: &[u8],
        offset: usize,
        number: u32,
    ) -> Result<(), AllocError>
        requires live { node < length self.old.places }
        requires within { IsSomeAnd (property_of (properties_of self.old node) name.now) (λ value. offset + 4 ≤ length value) }
        ensures ok { (value : Bytes) → property_of (properties_of self.old node) name.now ≡ Some value → OnOk result (self.new ≡ with_properties self.old (place_of self.old node) (set_property name.now (with_word value offset number))) }
        ensures places { self.new.places ≡ self.old.places }
    {
        put_whole(
            &mut self.entries,
            &mut self.holders,
            node.number,
            name,
            offset,
            number,
        )
    }

    /// The number of nodes on the way from the root to a node, both counted.
    pub fn depth(&self, node: IndexedNode) -> usize
        requires { node < length self.now.places }
        ensures depth { result ≡ depth (place_of self.now node) }
        ensures shallow { result ≤ depth_limit }
    {
        depth(self.entries.as_slice(), node.number)
    }

    /// The value of the first property of this name.
    pub fn prop(&self, node: IndexedNode, name: &[u8]) -> Option<&[u8]>
        requires { node < length self.now.places }
        ensures { option_map (λ value. value.now) result ≡ property_of (properties_of self.now node) name.now }
    {
        value(self.entries.as_slice(), node.number, name)
    }

    /// The node that a path finds (Devicetree Specification 0.4, 2.2.3). A path begins with `/`; its components are
    /// matched exactly, the first child of a name counting; `/` is the root, and an empty component finds nothing.
    pub fn find(&self, path: &[u8]) -> Option<IndexedNode>
        ensures live { IfSome result (λ node. node < length self.now.places) }
        ensures place { option_map (λ node. place_of self.now node) result ≡ find_place self.now.tree path.now }
    {
        match path {
            [] => None,
            [first, rest @ ..] => {
                if *first != b'/' {
                    None
                } else if rest.is_empty() {
                    Some(self.root())
                } else {
                    self.descendant(rest)
                }
            }
        }
    }

    /// The node that the components of a path lead to from the root, where `/` stands between them.
    fn descendant(&self, components: &[u8]) -> Option<IndexedNode>
        ensures live { IfSome result (λ node. node < length self.now.places) }
        ensures place { option_map (λ node. place_of self.now node) result ≡ descend (slice_split (λ b. b == 47) components.now) self.now.tree.children }
    {
        let mut node = self.root();
        let mut rest = components;
        while let Some((name, after)) = cut(rest, b'/') {
            match self.component(node, name) {
                None => return None,
                Some(child) => node = child,
            }
            rest = after;
        }
        self.component(node, rest)
    }

    /// The first child of this name, which is none where the name is empty.
    fn component(&self, node: IndexedNode, name: &[u8]) -> Option<IndexedNode>
        requires { node < length self.now.places }
        ensures live { IfSome result (λ child. child < length self.now.places) }
        ensures place { option_map (λ child. place_of self.now child) result ≡ option_map (λ p. place_of self.now node ++ p) (descend (name.now ∷ []) (children_of self.now node)) }
    {
        if name.is_empty() {
            return None;
        }
        self.child_named(node, name)
    }

    /// The first child of a node that has this name.
    pub fn child_named(&self, node: IndexedNode, name: &[u8]) -> Option<IndexedNode>
        requires { node < length self.now.places }
        ensures live { IfSome result (λ child. child < length self.now.places) }
        ensures place { option_map (λ child. place_of self.now child) result ≡ child_place self.now node name.now }
    {
        match child(self.entries.as_slice(), node.number, name) {
            None => None,
            Some(number) => Some(IndexedNode { number }),
        }
    }

    /// The first node in document order that has this phandle (Devicetree Specification 0.4, 2.3.3).
    pub fn holder(&self, phandle: u32) -> Option<IndexedNode>
        ensures live { IfSome result (λ node. node < length self.now.places) }
        ensures place { option_map (λ node. place_of self.now node) result ≡ place_of_phandle self.now.tree phandle }
    {
        match holder(self.entries.as_slice(), &self.holders, phandle) {
            None => None,
            Some(number) => Some(IndexedNode { number }),
        }
    }
}

// A tree is an arena: a vector of nodes linked by number, of which the first is the root, and a vector of properties.
ghost use Rattle.std.specs.Prelude.{◌≡◌, ◌<◌, ◌≤◌, ◌+◌, ◌⊎◌, ◌==◌, [], ◌++◌, ◌∷◌, length, OnOk, OnErr, IfOk, IfErr, IsTrue, option_map, option_and_then, IfSome, slice_get};
ghost use Rattle.std.specs.List.{slice_split};
ghost use Rattle.fdt_tree.specs.Tree.{depth, descend, find_place, is_node_name, is_property_name, property_of};
ghost use Rattle.fdt_tree.specs.Whole.{IsKept};
ghost use Rattle.fdt_tree.specs.Document.{empty, place_of, name_of, properties_of, IsNumbering, IsNamed, children_of, if_there, next_place, parent_place, with_child_of, with_properties, with_property};
ghost use Rattle.fdt_tree.specs.PathEdits.{mknod, set, set_property, with_child_at};

use crate::edit_fault::EditFault;
use crate::excerpt::{Excerpt, Held};
use crate::node::{Node, Slot, alone, link};
use crate::node_id::NodeId;
use crate::slots::{end_at, find_from, follow, put_value, slot_from, slot_named};
use std::alloc::{AllocError, Global};
use std::marker::Model;
use texts::{Bytes, cut};

// The deepest that a node may stand, the root standing at depth 1.
const DEPTH_LIMIT: usize = 32;

/// A device tree (Devicetree Specification 0.4, 2.2): ordered children, ordered properties, and a depth of at most 32.
#[derive(Drop)]
pub struct Tree {
    nodes: Vec<Node>,
    slots: Vec<Slot>,
}

impl Model for Tree {
    ghost use Rattle.fdt_tree.specs.Document.{Document};

    ghost Value = { Document };

    ghost use Rattle.fdt_tree.specs.Assembled.{coded_document, document, IsLinked};

    ghost coded = { coded_document };

    ghost view = { λ t. document t.nodes.items t.slots.items };

    ghost invariant = { λ t. IsLinked (document t.nodes.items t.slots.items) t.nodes.items t.slots.items };
}

impl Tree {
    /// A root alone, with no property.
    pub fn new(alloc: Global) -> Result<Tree, AllocError>
        ensures { IfOk result (λ tree. tree ≡ empty) }
    {
        let mut nodes = Vec::new(alloc);
        nodes.push(alone(0, Bytes::new(alloc)))?;
        Ok(Tree {
            nodes,
            slots: Vec::new(alloc),
        })
    }

    /// The root. Its name is empty.
    pub fn root(&self) -> NodeId
        ensures live { result < length self.now.places }
        ensures place { place_of self.now result ≡ [] }
        ensures unnamed { name_of self.now result ≡ [] }
    {
        let _ = &self.nodes;
        NodeId { number: 0 }
    }

    /// Every live number is of a node of its own.
    pub fn numbering(&self)
        ensures { IsNumbering self.now }
    {
        let _ = &self.nodes;
    }

    /// Every node and every property has a name that it may have, and no node stands deeper than 32.
    pub fn names(&self)
        ensures { IsNamed self.now }
    {
        let _ = &self.nodes;
    }

    /// The whole tree is one that may stand in memory: an unnamed root, names that may be, and a depth of at most 32.
    pub fn kept(&self)
        ensures { IsKept self.now.tree }
    {
        let _ = &self.nodes;
    }

    /// Adds a last child with no property and no child, whatever the names beside it. `Deep` where the parent's depth
    /// is 32. After a refusal the tree is as it was.
    pub fn add_node(&mut self, parent: NodeId, name: &[u8]) -> Result<NodeId, EditFault>
        requires live { parent < length self.old.places }
        requires node_name { IsTrue (is_node_name name.now) }
        ensures ok { OnOk result (with_child_of self.old parent name.now ≡ Ok self.new) }
        ensures newest { IfOk result (λ node. node ≡ length self.old.places) }
        ensures longer { OnOk result (length self.new.places ≡ length self.old.places + 1) }
        ensures refused { IfErr result (λ e. (e ≡ EditFault.Memory) ⊎ (with_child_of self.old parent name.now ≡ Err e)) }
        ensures same { OnErr result (self.new ≡ self.old) }
    {
        if self.depth(parent) == DEPTH_LIMIT {
            return Err(EditFault::Deep);
        }
        let alloc = *self.nodes.allocator();
        let mut held = Bytes::new(alloc);
        match held.append(name) {
            Ok(()) => {}
            Err(_) => return Err(EditFault::Memory),
        }
        let number = self.nodes.len();
        let last = self.nodes[parent.number].last_child;
        let node = alone(parent.number, held);
        match link(&mut self.nodes, parent.number, last, node) {
            Ok(()) => Ok(NodeId { number }),
            Err(_) => Err(EditFault::Memory),
        }
    }

    /// The number of nodes on the way from the root to a node, both counted.
    fn depth(&self, node: NodeId) -> usize
        requires { node < length self.now.places }
        ensures depth { result ≡ depth (place_of self.now node) }
        ensures shallow { result ≤ 32 }
    {
        let mut above = node.number;
        let mut depth = 1;
        while above != 0 {
            above = self.nodes[above].parent;
            depth += 1;
        }
        depth
    }

    /// Adds a last property, whatever the names beside it. After want of memory the tree is as it was.
    pub fn add_prop(&mut self, node: NodeId, name: &[u8], bytes: &[u8]) -> Result<(), AllocError>
        requires live { node < length self.old.places }
        requires property_name { IsTrue (is_property_name name.now) }
        ensures ok { OnOk result (self.new ≡ with_property self.old (place_of self.old node) name.now bytes.now) }
        ensures places { self.new.places ≡ self.old.places }
        ensures err { OnErr result (self.new ≡ self.old) }
    {
        let alloc = *self.nodes.allocator();
        let held_name = Held::copied(alloc, name)?;
        let value = Held::copied(alloc, bytes)?;
        self.add_slot(node, held_name, value)
    }

    /// Adds a last property, whatever the names beside it, whose name and value are parts of bytes that the tree holds from
    /// then on. Where these are shared, no memory is taken for the parts, however many properties have them. After want of
    /// memory the tree is as it was.
    pub fn add_shared_prop(
        &mut self,
        node: NodeId,
        name: &Excerpt,
        value: &Excerpt,
    ) -> Result<(), AllocError>
        requires live { node < length self.old.places }
        requires property_name { IsTrue (is_property_name name.now) }
        ensures ok { OnOk result (self.new ≡ with_property self.old (place_of self.old node) name.now value.now) }
        ensures places { self.new.places ≡ self.old.places }
        ensures err { OnErr result (self.new ≡ self.old) }
    {
        let alloc = *self.nodes.allocator();
        let held_name = name.held(alloc)?;
        let held_value = value.held(alloc)?;
        self.add_slot(node, held_name, held_value)
    }

    /// Adds a last property with this name and this value.
    fn add_slot(&mut self, node: NodeId, name: Held, value: Held) -> Result<(), AllocError>
        requires live { node < length self.old.places }
        requires property_name { IsTrue (is_property_name name) }
        ensures ok { OnOk result (self.new ≡ with_property self.old (place_of self.old node) name value) }
        ensures places { self.new.places ≡ self.old.places }
        ensures err { OnErr result (self.new ≡ self.old) }
    {
        let slot = Slot {
            owner: node.number,
            name,
            value,
            next: None,
        };
        let last = self.nodes[node.number].last_property;
        follow(&mut self.slots, last, slot)?;
        let count = self.slots.len();
        end_at(&mut self.nodes, node.number, count);
        Ok(())
    }

    /// Adds a last child with no property and no child to the node that a path finds: `NoNode` exactly where it finds
    /// none, else `Exists` exactly where that node has a child of this name, else `Deep` exactly where its depth is 32. After
    /// a refusal the tree is as it was.
    pub fn mknod(&mut self, path: &[u8], name: &[u8]) -> Result<NodeId, EditFault>
        requires node_name { IsTrue (is_node_name name.now) }
        ensures tree { OnOk result (mknod self.old.tree path.now name.now ≡ Ok self.new.tree) }
        ensures ok { OnOk result (with_child_at self.old path.now name.now ≡ Ok self.new) }
        ensures newest { IfOk result (λ node. node ≡ length self.old.places) }
        ensures longer { OnOk result (length self.new.places ≡ length self.old.places + 1) }
        ensures refused { IfErr result (λ e. (e ≡ EditFault.Memory) ⊎ (mknod self.old.tree path.now name.now ≡ Err e)) }
        ensures same { OnErr result (self.new ≡ self.old) }
    {
        let Some(parent) = self.find(path) else {
            return Err(EditFault::NoNode);
        };
        if self.child_named(parent, name).is_some() {
            return Err(EditFault::Exists);
        }
        self.add_node(parent, name)
    }

    /// Replaces the bytes of the first property of this name in its place, or adds a last property, of the node that a path
    /// finds: `NoNode` exactly where it finds none. After a refusal the tree is as it was.
    pub fn set(&mut self, path: &[u8], prop: &[u8], bytes: &[u8]) -> Result<(), EditFault>
        requires property_name { IsTrue (is_property_name prop.now) }
        ensures tree { OnOk result (set self.old.tree path.now prop.now bytes.now ≡ Ok self.new.tree) }
        ensures places { self.new.places ≡ self.old.places }
        ensures refused { IfErr result (λ e. (e ≡ EditFault.Memory) ⊎ (set self.old.tree path.now prop.now bytes.now ≡ Err e)) }
        ensures same { OnErr result (self.new ≡ self.old) }
    {
        let Some(node) = self.find(path) else {
            return Err(EditFault::NoNode);
        };
        match self.set_prop(node, prop, bytes) {
            Ok(()) => Ok(()),
            Err(_) => Err(EditFault::Memory),
        }
    }

    /// Replaces the bytes of the first property of this name of a node, or adds a last property. After want of memory the
    /// tree is as it was.
    pub fn set_prop(&mut self, node: NodeId, name: &[u8], bytes: &[u8]) -> Result<(), AllocError>
        requires live { node < length self.old.places }
        requires property_name { IsTrue (is_property_name name.now) }
        ensures ok { OnOk result (self.new ≡ with_properties self.old (place_of self.old node) (set_property name.now bytes.now)) }
        ensures places { self.new.places ≡ self.old.places }
        ensures err { OnErr result (self.new ≡ self.old) }
    {
        let first = self.nodes[node.number].first_property;
        match slot_named(self.slots.as_slice(), node.number, first, name) {
            Some(number) => {
                let value = Held::copied(*self.nodes.allocator(), bytes)?;
                put_value(&mut self.slots, number, value);
                Ok(())
            }
            None => self.add_prop(node, name, bytes),
        }
    }

    /// The name of a node.
    pub fn name(&self, node: NodeId) -> &[u8]
        requires { node < length self.now.places }
        ensures { result.now ≡ name_of self.now node }
    {
        self.nodes[node.number].name.as_slice()
    }

    /// How many properties a node has.
    pub fn prop_count(&self, node: NodeId) -> usize
        requires { node < length self.now.places }
        ensures { result ≡ length (properties_of self.now node) }
    {
        self.nodes[node.number].property_count
    }

    /// The node above a node; the root has none.
    pub fn parent(&self, node: NodeId) -> Option<NodeId>
        requires { node < length self.now.places }
        ensures live { IfSome result (λ above. above < length self.now.places) }
        ensures earlier { IfSome result (λ above. above < node) }
        ensures place { option_map (λ above. place_of self.now above) result ≡ parent_place (place_of self.now node) }
    {
        if node.number == 0 {
            None
        } else {
            Some(NodeId {
                number: self.nodes[node.number].parent,
            })
        }
    }

    /// The first child of a node, if it has one.
    pub fn first_child(&self, node: NodeId) -> Option<NodeId>
        requires { node < length self.now.places }
        ensures live { IfSome result (λ child. child < length self.now.places) }
        ensures later { IfSome result (λ child. node < child) }
        ensures place { option_map (λ child. place_of self.now child) result ≡ if_there self.now (place_of self.now node ++ 0 ∷ []) }
    {
        match self.nodes[node.number].first_child {
            None => None,
            Some(number) => Some(NodeId { number }),
        }
    }

    /// The next child of the node's parent, if there is one; the root has none.
    pub fn next_sibling(&self, node: NodeId) -> Option<NodeId>
        requires { node < length self.now.places }
        ensures live { IfSome result (λ next. next < length self.now.places) }
        ensures later { IfSome result (λ next. node < next) }
        ensures place { option_map (λ next. place_of self.now next) result ≡ option_and_then (λ p. if_there self.now p) (next_place (place_of self.now node)) }
    {
        match self.nodes[node.number].next_sibling {
            None => None,
            Some(number) => Some(NodeId { number }),
        }
    }

    /// The name and the value of the property at an index.
    pub fn prop_at(&self, node: NodeId, index: usize) -> (&[u8], &[u8])
        requires live { node < length self.now.places }
        requires within { index < length (properties_of self.now node) }
        ensures { slice_get (properties_of self.now node) index ≡ Some (result.0.now, result.1.now) }
    {
        let held = &self.nodes[node.number];
        slot_from(self.slots.as_slice(), held.first_property, held.run, index)
    }

    /// The value of the first property of this name.
    pub fn prop(&self, node: NodeId, name: &[u8]) -> Option<&[u8]>
        requires { node < length self.now.places }
        ensures { option_map (λ value. value.now) result ≡ property_of (properties_of self.now node) name.now }
    {
        find_from(
            self.slots.as_slice(),
            self.nodes[node.number].first_property,
            name,
        )
    }

    /// The node that a path finds (Devicetree Specification 0.4, 2.2.3). A path begins with `/`; its components are
    /// matched exactly, the first child of a name counting; `/` is the root, and an empty component finds nothing.
    pub fn find(&self, path: &[u8]) -> Option<NodeId>
        ensures live { IfSome result (λ node. node < length self.now.places) }
        ensures place { option_map (λ node. place_of self.now node) result ≡ find_place self.now.tree path.now }
    {
        match path {
            [] => None,
            [first, rest @ ..] => {
                if *first != b'/' {
                    None
                } else if rest.is_empty() {
                    Some(self.root())
                } else {
                    self.descendant(rest)
                }
            }
        }
    }

    /// The node that the components of a path lead to from the root, where `/` stands between them.
    fn descendant(&self, components: &[u8]) -> Option<NodeId>
        ensures live { IfSome result (λ node. node < length self.now.places) }
        ensures place { option_map (λ node. place_of self.now node) result ≡ descend (slice_split (λ b. b == 47) components.now) self.now.tree.children }
    {
        let mut node = self.root();
        let mut rest = components;
        while let Some((name, after)) = cut(rest, b'/') {
            match self.child_named(node, name) {
                None => return None,
                Some(child) => node = child,
            }
            rest = after;
        }
        self.child_named(node, rest)
    }

    /// The first child of this name, which is none where the name is empty.
    fn child_named(&self, node: NodeId, name: &[u8]) -> Option<NodeId>
        requires { node < length self.now.places }
        ensures live { IfSome result (λ child. child < length self.now.places) }
        ensures place { option_map (λ child. place_of self.now child) result ≡ option_map (λ p. place_of self.now node ++ p) (descend (name.now ∷ []) (children_of self.now node)) }
    {
        if name.is_empty() {
            return None;
        }
        self.numbering();
        let mut next = self.first_child(node);
        while let Some(child) = next {
            if self.name(child) == name {
                return Some(child);
            }
            next = self.next_sibling(child);
        }
        None
    }
}

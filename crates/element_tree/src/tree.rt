//! The tree. Contracts describe each call in terms of a plain list of nodes.
ghost use Rattle.std.specs.Prelude.{◌≡◌, ℕ, ◌+◌, ◌<◌, ◌≤◌, ◌++◌, ◌∷◌, [], length, slice_get, option_map, Some, nat_lt, IfOk, OnOk, OnErr, IfErr, IsOk, IsErr, Err, ◌≢◌, MatchResult, None, true, false};
ghost use Rattle.element_tree.specs.Forest.{IsForest, parent_of, children_of, siblings_of, first_of, last_of, next_of, previous_of, depth, height, is_ancestor, names, most_levels};
ghost use Rattle.element_tree.specs.Edits.{inserted, removed, mark_of, lone, with_nodes};
ghost use Rattle.element_tree.specs.Answers.{append_fault, insert_fault, too_deep, IsAddFault};
ghost use Rattle.element_tree.specs.declared.fault.TreeFault as TreeFault;
ghost use Rattle.element_tree.specs.Links.{node_ids, number, IsMark};
ghost use Rattle.std.specs.Option.{ForSome};
ghost use Rattle.std.specs.Borrow.{sem};
ghost use Rattle.element_tree.specs.Lends.{lends_payload};

use crate::fault::TreeFault;
use crate::links::{link, links_of, unlink};
use crate::node::{Entry, Links, NodeId};
use slab::Slab;
use std::alloc::Global;
use std::marker::Model;

/// A set of ordered trees whose nodes each have a payload. A contract sees a plain list of nodes (`specs/Forest.antt`).
///
/// Nodes are numbered from 0 in creation order, and a number is never reused. Reading a sibling takes constant time;
/// moving a node without children takes time proportional to the depth of its new parent.
#[derive(Drop)]
pub struct Tree<P> {
    slots: Slab<Entry<P>>,
    count: u32,
    most_nodes: u32,
    most_depth: u32,
}

impl<P> Model for Tree<P> {
    ghost use Rattle.element_tree.specs.Forest.{Forest, forest_code};

    ghost Value = { Forest P };

    ghost coded = { forest_code P.code };

    ghost use Rattle.element_tree.specs.Links.{nodes_of, is_ready, IsSound};

    ghost view = { λ t. record { nodes = nodes_of t.slots t.count; most_nodes = t.most_nodes; most_depth = t.most_depth; ready = is_ready t.slots t.count } };

    ghost invariant = { λ t. IsSound t.slots t.count t.most_nodes t.most_depth };
}

impl<P> Tree<P> {
    /// Returns the parent of a node, or `None` for a root and for a node that isn't in this tree.
    pub fn parent(&self, node: NodeId) -> Option<NodeId>
        ensures value { result ≡ node_ids (parent_of self.now.nodes node.0) }
        ensures forest { IsForest self.now.most_depth self.now.nodes }
    {
        links_of(&self.slots, node).parent
    }

    /// Returns the first child of a node, or `None` if it has no children.
    pub fn first_child(&self, node: NodeId) -> Option<NodeId>
        ensures value { result ≡ node_ids (first_of (children_of self.now.nodes node.0)) }
        ensures forest { IsForest self.now.most_depth self.now.nodes }
    {
        links_of(&self.slots, node).first
    }

    /// Returns the last child of a node, or `None` if it has no children.
    pub fn last_child(&self, node: NodeId) -> Option<NodeId>
        ensures value { result ≡ node_ids (last_of (children_of self.now.nodes node.0)) }
        ensures forest { IsForest self.now.most_depth self.now.nodes }
    {
        links_of(&self.slots, node).last
    }

    /// Returns the next sibling of a node, or `None` for a last child and for a root.
    pub fn next_sibling(&self, node: NodeId) -> Option<NodeId>
        ensures value { result ≡ node_ids (next_of node.0 (siblings_of self.now.nodes node.0)) }
        ensures forest { IsForest self.now.most_depth self.now.nodes }
    {
        links_of(&self.slots, node).next
    }

    /// Returns the previous sibling of a node, or `None` for a first child and for a root.
    pub fn previous_sibling(&self, node: NodeId) -> Option<NodeId>
        ensures value { result ≡ node_ids (previous_of node.0 (siblings_of self.now.nodes node.0)) }
        ensures forest { IsForest self.now.most_depth self.now.nodes }
    {
        links_of(&self.slots, node).previous
    }

    /// Whether the tree has a node of this number.
    pub fn holds(&self, node: NodeId) -> bool
        ensures value { result ≡ nat_lt node.0 (length self.now.nodes) }
        ensures forest { IsForest self.now.most_depth self.now.nodes }
    {
        node.0 < self.count
    }

    /// Returns the depth of a node: the number of nodes on the path to its root, both included, so 1 for a root. Walks up to
    /// the root.
    pub fn depth(&self, node: NodeId) -> u32
        ensures value { result ≡ depth self.now.nodes node.0 }
        ensures forest { IsForest self.now.most_depth self.now.nodes }
    {
        let mut depth = 1;
        let mut at = node;
        while let Some(parent) = self.parent(at) {
            depth += 1;
            at = parent;
        }
        depth
    }

    /// Creates an empty tree; allocates nothing.
    ///
    /// At most `most_nodes` nodes can be added, and no node gets deeper than `most_depth`, which must be from 1 to 65,536.
    pub fn new(alloc: Global, most_nodes: u32, most_depth: u32) -> Tree<P>
        requires low { 1 ≤ most_depth }
        requires high { most_depth ≤ most_levels }
        ensures empty { result.nodes ≡ [] }
        ensures most_nodes { result.most_nodes ≡ most_nodes }
        ensures most_depth { result.most_depth ≡ most_depth }
        ensures unready { result.ready ≡ false }
    {
        Tree {
            slots: Slab::new(alloc),
            count: 0,
            most_nodes,
            most_depth,
        }
    }

    /// Makes room for one node, so that the next `add` can't fail with `Memory`, and returns the number that it will give.
    /// No node is added, and nothing else changes.
    ///
    /// # Errors
    /// `NodeLimit` exactly where `most_nodes` nodes have already been added; otherwise `Memory` if an allocation fails.
    pub fn reserve(&mut self) -> Result<NodeId, TreeFault>
        ensures node { IfOk result (λ node. node.0 ≡ length self.old.nodes) }
        ensures ready { OnOk result (self.new.ready ≡ true) }
        ensures kept { self.old.ready ≡ true → self.new.ready ≡ true }
        ensures same { self.new ≡ record self.old { ready = self.new.ready } }
        ensures full { length self.old.nodes ≡ self.old.most_nodes → result ≡ Err TreeFault.NodeLimit }
        ensures limit { length self.old.nodes ≡ self.old.most_nodes → self.new ≡ self.old }
        ensures refused { IfErr result (IsAddFault self.old) }
        ensures found { length self.old.nodes ≢ self.old.most_nodes → self.old.ready ≡ true → IsOk result }
    {
        if self.count == self.most_nodes {
            return Err(TreeFault::NodeLimit);
        }
        if self.slots.vacant_key() != self.count as usize {
            return Err(TreeFault::Memory);
        }
        if self.slots.reserve(1).is_err() {
            return Err(TreeFault::Memory);
        }
        Ok(NodeId(self.count))
    }

    /// Adds a node without parent and children, and returns its number.
    ///
    /// # Errors
    /// `NodeLimit` exactly where `most_nodes` nodes have already been added; otherwise `Memory` if an allocation fails. The
    /// payload is returned with the error.
    pub fn add(&mut self, payload: P) -> Result<NodeId, (TreeFault, P)>
        ensures node { IfOk result (λ node. node.0 ≡ length self.old.nodes) }
        ensures added { OnOk result (self.new ≡ record self.old { nodes = self.old.nodes ++ lone payload ∷ []; ready = self.new.ready }) }
        ensures same { OnErr result (self.new ≡ record self.old { ready = self.new.ready }) }
        ensures kept { OnErr result (self.old.ready ≡ true → self.new.ready ≡ true) }
        ensures returned { IfErr result (λ refused. refused.1 ≡ payload) }
        ensures full { length self.old.nodes ≡ self.old.most_nodes → IsErr result }
        ensures limit { length self.old.nodes ≡ self.old.most_nodes → self.new ≡ self.old }
        ensures refused { IfErr result (λ refused. IsAddFault self.old refused.0) }
        ensures found { length self.old.nodes ≢ self.old.most_nodes → self.old.ready ≡ true → IsOk result }
    {
        if self.count == self.most_nodes {
            return Err((TreeFault::NodeLimit, payload));
        }
        if self.slots.vacant_key() != self.count as usize {
            return Err((TreeFault::Memory, payload));
        }
        if self.slots.reserve(1).is_err() {
            return Err((TreeFault::Memory, payload));
        }
        let node = NodeId(self.count);
        self.slots.insert_reserved(Entry {
            payload,
            links: Links::detached(),
        });
        self.count += 1;
        Ok(node)
    }

    /// Removes a node, with its subtree, from its parent's children. Does nothing if it has no parent.
    pub fn remove(&mut self, node: NodeId)
        requires { node.0 < length self.old.nodes }
        ensures removed { self.new ≡ with_nodes (removed node.0) self.old }
        ensures count { length self.new.nodes ≡ length self.old.nodes }
    {
        unlink(&mut self.slots, node);
    }

    /// Whether `ancestor` is an inclusive ancestor of `node` (DOM, 1.1).
    pub fn is_ancestor(&self, ancestor: NodeId, node: NodeId) -> bool
        ensures { result ≡ is_ancestor self.now.nodes ancestor.0 node.0 }
    {
        let mut at = Some(node);
        while let Some(inclusive) = at {
            if inclusive.0 == ancestor.0 {
                return true;
            }
            at = self.parent(inclusive);
        }
        false
    }

    /// Returns how many levels the subtree of a node has, its own included.
    ///
    /// It walks the subtree and recurses once per level: 2,000 levels have been tried, while some 5,000 may overflow the
    /// stack. Choose `most_depth` accordingly.
    pub fn height(&self, node: NodeId) -> u32
        ensures value { result ≡ height self.now.nodes node.0 }
        ensures forest { IsForest self.now.most_depth self.now.nodes }
    {
        let mut below = 0;
        let mut next = self.first_child(node);
        while let Some(child) = next {
            below = below.max(self.height(child));
            next = self.next_sibling(child);
        }
        below + 1
    }

    /// Returns a node's payload.
    pub fn payload(&self, node: NodeId) -> &P
        requires { node.0 < length self.now.nodes }
        ensures value { option_map (λ k. k.payload) (slice_get self.now.nodes node.0) ≡ Some result.now }
        ensures forest { IsForest self.now.most_depth self.now.nodes }
    {
        &self.slots[node.0 as usize].payload
    }

    /// Returns a mutable reference to a node's payload; nothing else of the tree changes through it.
    pub fn payload_mut(&mut self, node: NodeId) -> &mut P
        requires { node.0 < length self.old.nodes }
        ensures* writes_back { sem 𝓛 (lends_payload P.row self.entry node.0 result) }
        ensures value { option_map (λ k. k.payload) (slice_get self.old.nodes node.0) ≡ Some result.now }
    {
        let entry = &mut self.slots[node.0 as usize];
        &mut entry.payload
    }

    /// Inserts a node, with its subtree, as the last child of a parent (DOM, 4.2.3 append). It is first removed from its old
    /// parent. Allocates nothing.
    ///
    /// # Errors
    /// `Hierarchy` if the node is an inclusive ancestor of the parent; otherwise `DepthLimit` if the depth of the parent plus
    /// the height of the node exceeds `most_depth`. Nothing changes then.
    pub fn append(&mut self, parent: NodeId, child: NodeId) -> Result<(), TreeFault>
        requires parent { parent.0 < length self.old.nodes }
        requires child { child.0 < length self.old.nodes }
        ensures answer { MatchResult result (λ _. append_fault self.old parent.0 child.0 ≡ None) (λ e. append_fault self.old parent.0 child.0 ≡ Some e) }
        ensures done { OnOk result (self.new ≡ with_nodes (inserted parent.0 child.0 None) self.old) }
        ensures refused { OnErr result (self.new ≡ self.old) }
        ensures count { length self.new.nodes ≡ length self.old.nodes }
    {
        if self.is_ancestor(child, parent) {
            return Err(TreeFault::Hierarchy);
        }
        if self.is_too_deep(parent, child) {
            return Err(TreeFault::DepthLimit);
        }
        self.place(parent, child, None);
        Ok(())
    }

    /// Inserts a node, with its subtree, into the children of a parent before a sibling (DOM, 4.2.3 insert). It is first
    /// removed from its old parent. If `sibling` is the node itself, its next sibling is used instead. Allocates nothing.
    ///
    /// # Errors
    /// `Hierarchy` if the node is an inclusive ancestor of the parent; otherwise `NotAChild` if the sibling isn't a child of
    /// the parent; otherwise `DepthLimit` if the depth of the parent plus the height of the node exceeds `most_depth`.
    /// Nothing changes then.
    pub fn insert_before(
        &mut self,
        parent: NodeId,
        child: NodeId,
        sibling: NodeId,
    ) -> Result<(), TreeFault>
        requires parent { parent.0 < length self.old.nodes }
        requires child { child.0 < length self.old.nodes }
        requires sibling { sibling.0 < length self.old.nodes }
        ensures answer { MatchResult result (λ _. insert_fault self.old parent.0 child.0 sibling.0 ≡ None) (λ e. insert_fault self.old parent.0 child.0 sibling.0 ≡ Some e) }
        ensures done { OnOk result (self.new ≡ with_nodes (inserted parent.0 child.0 (mark_of child.0 sibling.0 self.old.nodes)) self.old) }
        ensures refused { OnErr result (self.new ≡ self.old) }
        ensures count { length self.new.nodes ≡ length self.old.nodes }
    {
        if self.is_ancestor(child, parent) {
            return Err(TreeFault::Hierarchy);
        }
        if !self.is_child(parent, sibling) {
            return Err(TreeFault::NotAChild);
        }
        if self.is_too_deep(parent, child) {
            return Err(TreeFault::DepthLimit);
        }
        let mark = self.mark(child, sibling);
        self.place(parent, child, mark);
        Ok(())
    }

    fn is_too_deep(&self, parent: NodeId, child: NodeId) -> bool
        ensures { result ≡ too_deep self.now parent.0 child.0 }
    {
        self.depth(parent) + self.height(child) > self.most_depth
    }

    fn is_child(&self, parent: NodeId, node: NodeId) -> bool
        ensures { result ≡ names (parent_of self.now.nodes node.0) parent.0 }
    {
        match self.parent(node) {
            Some(found) => found.0 == parent.0,
            None => false,
        }
    }

    // Returns the sibling that the node is to be inserted before, or `None` if it goes last.
    fn mark(&self, child: NodeId, sibling: NodeId) -> Option<NodeId>
        ensures value { result ≡ node_ids (mark_of child.0 sibling.0 self.now.nodes) }
        ensures mark { (p : ℕ) → parent_of self.now.nodes sibling.0 ≡ Some p → ForSome result (λ s. IsMark self.now.nodes p child.0 s.0) }
    {
        if child.0 == sibling.0 {
            self.next_sibling(child)
        } else {
            Some(sibling)
        }
    }

    // Moves a node, with its subtree, before the child `mark` of a parent, or to the end without a mark.
    fn place(&mut self, parent: NodeId, child: NodeId, mark: Option<NodeId>)
        requires parent { parent.0 < length self.old.nodes }
        requires child { child.0 < length self.old.nodes }
        requires apart { is_ancestor self.old.nodes child.0 parent.0 ≡ false }
        requires fits { depth self.old.nodes parent.0 + height self.old.nodes child.0 ≤ self.old.most_depth }
        requires mark { ForSome mark (λ s. IsMark self.old.nodes parent.0 child.0 s.0) }
        ensures placed { self.new ≡ with_nodes (inserted parent.0 child.0 (option_map number mark)) self.old }
        ensures count { length self.new.nodes ≡ length self.old.nodes }
    {
        unlink(&mut self.slots, child);
        link(&mut self.slots, parent, child, mark);
    }
}

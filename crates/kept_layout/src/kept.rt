//! The cache of boxes.

ghost use Rattle.std.specs.Prelude.{◌≡◌, ◌+◌, ◌<◌, ◌≤◌, ◌||◌, ℕ, Bool, true, false, Option, Some, None, [], length, OnOk, OnErr};
ghost use Rattle.layout_model.specs.Nodes.{is_in_path};
ghost use Rattle.layout_model.specs.Boxes.{Inputs as InputsModel, box_in, inputs_in};
ghost use Rattle.element_tree.specs.Forest.{parent_of};
ghost use Rattle.block_layout.specs.Seen.{seen_inputs, as_size};
ghost use Rattle.block_layout.specs.Trees.{layout_tree};
ghost use Rattle.kept_layout.specs.Due.{is_due, due_count};
ghost use Rattle.kept_layout.specs.Fresh.{IsFresh};
ghost use Rattle.kept_layout.specs.Slots.{slot_in, with_slot, held_in, marked_if};
ghost use Rattle.kept_layout.specs.Sound.{IsReady, IsSoundBut};
ghost use Rattle.kept_layout.specs.Sizes.{size_held};

use crate::slots::{Slot, slot_of};
use crate::walk::{mark_path, refresh_tree};
use block_layout::{BoxOf, Boxes, Inputs, Styled};
use element_tree::{NodeId, Tree};
use px_units::{BoxKind, Size};
use std::alloc::{AllocError, Global};
use std::marker::Model;
use std::sync::ledger::Ledger;
use step_count::Steps;

/// The boxes of the elements of a tree, cached from one refresh to the next. Contracts see the slots by the nodes' numbers.
///
/// Whoever changes the tree must mark the nodes whose style, kind or children changed; when a child is removed or inserted,
/// its parent. Unmarked boxes then stay correct (`specs/Sound.antt`), and `refresh` recomputes the rest.
#[derive(Drop)]
pub struct Kept {
    slots: Vec<Slot>,
}

impl Model for Kept {
    ghost use Rattle.std.specs.Prelude.{List};
    ghost use Rattle.kept_layout.specs.declared.slots.Slot.{Slot};

    ghost Value = { List Slot };

    ghost view = { λ k. k.slots.items };
}

impl Boxes for Kept {
    ghost held = { held_in };

    fn box_of(&self, node: NodeId) -> Option<BoxOf> {
        match slot_of(self.slots.as_slice(), node).found {
            Some(found) => Some(found.own),
            None => None,
        }
    }
}

impl Kept {
    /// Creates an empty cache; allocates nothing.
    pub fn new(alloc: Global) -> Kept
        ensures { result ≡ [] }
    {
        Kept {
            slots: Vec::new(alloc),
        }
    }

    /// Adds the slot of a node, which needn't be in a tree yet, and those of all lower numbers; existing slots are unchanged.
    /// No other call on these nodes allocates. Fails only if the slot doesn't exist and can't be allocated, and then nothing
    /// changes.
    pub fn add(&mut self, node: NodeId) -> Result<(), AllocError>
        ensures added { OnOk result (self.new ≡ with_slot node.0 self.old) }
        ensures same { OnErr result (self.new ≡ self.old) }
        ensures needed { OnErr result (length self.old ≤ node.0) }
        ensures kept { (n : ℕ) → slot_in self.new n ≡ slot_in self.old n }
    {
        let count = node.0 as usize + 1;
        if self.slots.len() < count {
            self.slots.resize(count, Slot::EMPTY)?;
        }
        Ok(())
    }

    /// Returns the slot of a node.
    pub fn slot_of(&self, node: NodeId) -> Slot
        ensures { result ≡ slot_in self.now node.0 }
    {
        slot_of(self.slots.as_slice(), node)
    }

    /// Marks a node and its ancestors, because its style, its kind or its children have changed. The boxes are unchanged.
    ///
    /// If the cache is sound except at these nodes and some others, it is then sound except at the others (`mended`).
    pub fn mark<P: Styled>(&mut self, tree: &Tree<P>, node: NodeId)
        ensures marks { (m : ℕ) → m < length self.old →
            slot_in self.new m ≡ marked_if (is_in_path (layout_tree P.style P.kind tree.now.nodes) m node.0) (slot_in self.old m) }
        ensures mended { let at = layout_tree P.style P.kind tree.now.nodes in
            ((m : ℕ) → is_in_path at m node.0 ≡ true → m < length self.old) →
            (others : ℕ → Bool) → IsSoundBut at (slot_in self.old) (λ n. is_in_path at n node.0 || others n) →
            IsSoundBut at (slot_in self.new) others }
        ensures slots { length self.new ≡ length self.old }
    {
        mark_path(self.slots.as_mut_slice(), tree, node);
    }

    /// Recomputes every box that is due in the tree under a root element, from the root's inputs: first what is in flow, from
    /// the root down, then each box out of flow in preorder with what is in flow in it. If the cache is sound for the tree,
    /// and each node in it has a slot, each box of that tree is then up to date, with the height above it, and the cache is
    /// still sound. Nothing changes for a node without a box (CSS 2.2, 9.2.4).
    ///
    /// If the cache is sound for the tree, it takes one step for each node that is due, and leaves none due. It doesn't
    /// allocate, and recurses once per level: a tree of 2,000 levels was tested, while some 5,000 may overflow the stack.
    pub fn refresh<P: Styled, L: Ledger>(
        &mut self,
        tree: &Tree<P>,
        root: NodeId,
        inputs: Inputs,
        steps: &mut Steps<L>,
    )
        requires node { root.0 < length tree.now.nodes }
        requires top { parent_of tree.now.nodes root.0 ≡ None }
        requires flow { inputs.flow ≡ true }
        ensures boxes { let at = layout_tree P.style P.kind tree.now.nodes in
            IsReady at root.0 self.old → (n : ℕ) (own : InputsModel) → inputs_in at root.0 (seen_inputs inputs) n ≡ Some own →
            held_in self.new n ≡ Some (box_in at own n) }
        ensures fresh { let at = layout_tree P.style P.kind tree.now.nodes in
            IsReady at root.0 self.old → (n : ℕ) (own : InputsModel) → inputs_in at root.0 (seen_inputs inputs) n ≡ Some own →
            IsFresh at (slot_in self.new) n own }
        ensures done { let at = layout_tree P.style P.kind tree.now.nodes in
            IsReady at root.0 self.old → (n : ℕ) → is_due (inputs_in at root.0 (seen_inputs inputs)) (slot_in self.new) n ≡ false }
        ensures ready { let at = layout_tree P.style P.kind tree.now.nodes in IsReady at root.0 self.old → IsReady at root.0 self.new }
        ensures others { (n : ℕ) → inputs_in (layout_tree P.style P.kind tree.now.nodes) root.0 (seen_inputs inputs) n ≡ None →
            slot_in self.new n ≡ slot_in self.old n }
        ensures slots { length self.new ≡ length self.old }
        ensures ticks { let at = layout_tree P.style P.kind tree.now.nodes in
            IsReady at root.0 self.old →
            steps.new ≡ steps.old + due_count (inputs_in at root.0 (seen_inputs inputs)) (slot_in self.old) (length self.old) }
        ensures paid { let at = layout_tree P.style P.kind tree.now.nodes in
            IsReady at root.0 self.old →
            (wanted : ℕ → Option InputsModel) → ((n : ℕ) → is_in_path at root.0 n ≡ true → wanted n ≡ inputs_in at root.0 (seen_inputs inputs) n) →
            steps.new + due_count wanted (slot_in self.new) (length self.old) ≡ steps.old + due_count wanted (slot_in self.old) (length self.old) }
    {
        refresh_tree(self.slots.as_mut_slice(), tree, root, inputs, steps);
    }

    /// Returns the size of the box stored for a node, 0 by 0 if there is none.
    pub fn size_of(&self, node: NodeId, kind: BoxKind) -> Size
        ensures { result ≡ as_size (size_held kind (held_in self.now node.0)) }
    {
        match self.box_of(node) {
            Some(own) => own.size(kind),
            None => Size {
                width: 0,
                height: 0,
            },
        }
    }
}

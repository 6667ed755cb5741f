//! The walks over a tree that mark and recompute boxes.

ghost use Rattle.std.specs.Prelude.{◌≡◌, ◌≢◌, ◌+◌, ◌<◌, ◌≤◌, ℕ, Bool, true, false, Option, Some, None, ◌||◌, length};
ghost use Rattle.px_units.specs.Lengths.{cap};
ghost use Rattle.layout_model.specs.Nodes.{is_in_path, is_in_flow};
ghost use Rattle.layout_model.specs.Boxes.{Inputs as InputsModel, box_in, inputs_in};
ghost use Rattle.element_tree.specs.Forest.{IsForest, parent_of};
ghost use Rattle.block_layout.specs.Seen.{seen_inputs};
ghost use Rattle.block_layout.specs.Trees.{layout_tree};
ghost use Rattle.kept_layout.specs.Due.{is_due, due_count};
ghost use Rattle.kept_layout.specs.Fresh.{IsFresh};
ghost use Rattle.kept_layout.specs.Slots.{slot_in, held_in, marked_if};
ghost use Rattle.kept_layout.specs.Sound.{HasSlots, IsSound, IsSoundBut};
ghost use Rattle.kept_layout.specs.Walks.{IsRefreshed, IsEntered, IsBroughtTo, IsRefreshedInside};

use crate::slots::{
    Found, Slot, has_outside, height_held, hold, inputs_held, is_due, set_above, set_mark,
};
use block_layout::{Inputs, Styled, child_inputs, compute_box, first_inner, is_hidden};
use element_tree::{NodeId, Tree};
use layout_model::capped;
use positioned_layout::position;
use std::sync::ledger::Ledger;
use step_count::Steps;
use style_values::Position;

pub(crate) fn mark_path<P: Styled>(slots: &mut [Slot], tree: &Tree<P>, node: NodeId)
    ensures marks { (m : ℕ) → m < length slots.old → slot_in slots.new m ≡ marked_if (is_in_path (layout_tree P.style P.kind tree.now.nodes) m node.0) (slot_in slots.old m) }
    ensures mended { ((m : ℕ) → is_in_path (layout_tree P.style P.kind tree.now.nodes) m node.0 ≡ true → m < length slots.old) →
        (others : ℕ → Bool) → IsSoundBut (layout_tree P.style P.kind tree.now.nodes) (slot_in slots.old) (λ n. is_in_path (layout_tree P.style P.kind tree.now.nodes) n node.0 || others n) →
        IsSoundBut (layout_tree P.style P.kind tree.now.nodes) (slot_in slots.new) others }
{
    let mut up = tree.parent(node);
    set_mark(slots, node);
    while let Some(parent) = up {
        set_mark(slots, parent);
        up = tree.parent(parent);
    }
}

// Adds a height to a sum of heights, capped.
fn added(above: u64, height: u64) -> u64
    requires above { above ≤ 2147483647 }
    requires height { height ≤ 20000000000 }
    ensures value { result ≡ cap (above + height) }
    ensures bound { result ≤ 2147483647 }
{
    capped(above + height)
}

fn is_in_flow<P: Styled>(tree: &Tree<P>, node: NodeId) -> bool
    requires { node.0 < length tree.now.nodes }
    ensures { result ≡ is_in_flow (layout_tree P.style P.kind tree.now.nodes node.0) }
{
    match position(tree, node) {
        Position::Static | Position::Relative => true,
        Position::Absolute | Position::Fixed => false,
    }
}

// Recomputes the boxes that are due of a node with these inputs and of what is in flow in it; it enters no box out of flow,
// but sets the height stacked above each child with a box. The node stays marked until its own box is stored, so that every
// unmarked box is correct at every step.
pub(crate) fn refresh_below<P: Styled, L: Ledger>(
    slots: &mut [Slot],
    tree: &Tree<P>,
    node: NodeId,
    inputs: Inputs,
    steps: &mut Steps<L>,
)
    requires { node.0 < length tree.now.nodes }
    ensures { IsRefreshed (layout_tree P.style P.kind tree.now.nodes) node.0 (seen_inputs inputs) (length slots.old) (slot_in slots.old) (slot_in slots.new) steps.old steps.new }
{
    if !is_due(slots, node, inputs) {
        return;
    }
    set_mark(slots, node);
    let inner = child_inputs(tree.payload(node), inputs);
    let mut above = 0;
    let mut outside = false;
    let mut next = first_inner(tree, node);
    while let Some(child) = next {
        if !is_hidden(tree, child) {
            set_above(slots, child, above);
            if is_in_flow(tree, child) {
                refresh_below(slots, tree, child, inner, steps);
                above = added(above, height_held(slots, child));
                outside = outside || has_outside(slots, child);
            } else {
                outside = true;
            }
        }
        next = tree.next_sibling(child);
    }
    let own = compute_box(tree.payload(node), inputs, above as i64, steps);
    hold(
        slots,
        node,
        Found {
            own,
            inputs,
            outside,
        },
    );
}

// The inputs of boxes out of flow: the size of the holder of absolute ones, and that of the screen.
#[derive(Clone, Copy)]
pub(crate) struct Outside {
    absolute: Inputs,
    fixed: Inputs,
}

// Recomputes a displayed child that is out of flow, with what is in flow in it. One in flow was handled with its parent.
fn refresh_moved<P: Styled, L: Ledger>(
    slots: &mut [Slot],
    tree: &Tree<P>,
    node: NodeId,
    outside: Outside,
    steps: &mut Steps<L>,
)
    requires { node.0 < length tree.now.nodes }
    ensures { IsEntered (layout_tree P.style P.kind tree.now.nodes) node.0 outside (length slots.old) (slot_in slots.old) (slot_in slots.new) steps.old steps.new }
{
    match position(tree, node) {
        Position::Absolute => refresh_below(slots, tree, node, outside.absolute, steps),
        Position::Fixed => refresh_below(slots, tree, node, outside.fixed, steps),
        Position::Static | Position::Relative => {}
    }
}

// Returns the inputs of boxes out of flow in a child whose box is stored: a positioned child holds absolute boxes itself.
fn brought_to<P: Styled>(slots: &[Slot], tree: &Tree<P>, node: NodeId, outside: Outside) -> Outside
    requires { node.0 < length tree.now.nodes }
    ensures { IsBroughtTo (layout_tree P.style P.kind tree.now.nodes) node.0 outside result (slot_in slots.now) }
{
    match position(tree, node) {
        Position::Static => outside,
        Position::Relative | Position::Absolute | Position::Fixed => Outside {
            absolute: inputs_held(slots, node, outside.fixed),
            fixed: outside.fixed,
        },
    }
}

// Recomputes the boxes out of flow in a node that are due, in preorder, each with what is in flow in it. So the holder of a
// box, which belongs to an ancestor, is computed before it.
pub(crate) fn refresh_inside<P: Styled, L: Ledger>(
    slots: &mut [Slot],
    tree: &Tree<P>,
    node: NodeId,
    outside: Outside,
    steps: &mut Steps<L>,
)
    requires node { node.0 < length tree.now.nodes }
    requires forest { IsForest tree.now.most_depth tree.now.nodes }
    ensures { IsRefreshedInside (layout_tree P.style P.kind tree.now.nodes) node.0 outside (length slots.old) (slot_in slots.old) (slot_in slots.new) steps.old steps.new }
{
    if !has_outside(slots, node) {
        return;
    }
    let mut next = first_inner(tree, node);
    while let Some(child) = next {
        if !is_hidden(tree, child) {
            refresh_moved(slots, tree, child, outside, steps);
            let within = brought_to(slots, tree, child, outside);
            refresh_inside(slots, tree, child, within, steps);
        }
        next = tree.next_sibling(child);
    }
}

// Returns the inputs of boxes out of flow that no element holds, from those of a root element.
fn out_of_flow(inputs: Inputs) -> Inputs
    ensures { seen_inputs result ≡ record (seen_inputs inputs) { flow = false } }
{
    Inputs {
        flow: false,
        ..inputs
    }
}

// Recomputes the boxes that are due in the tree under a root element.
pub(crate) fn refresh_tree<P: Styled, L: Ledger>(
    slots: &mut [Slot],
    tree: &Tree<P>,
    root: NodeId,
    inputs: Inputs,
    steps: &mut Steps<L>,
)
    requires node { root.0 < length tree.now.nodes }
    requires top { parent_of tree.now.nodes root.0 ≡ None }
    requires flow { inputs.flow ≡ true }
    ensures boxes { HasSlots (layout_tree P.style P.kind tree.now.nodes) root.0 (length slots.old) → IsSound (layout_tree P.style P.kind tree.now.nodes) (slot_in slots.old) →
        (n : ℕ) (own : InputsModel) → inputs_in (layout_tree P.style P.kind tree.now.nodes) root.0 (seen_inputs inputs) n ≡ Some own →
        held_in slots.new n ≡ Some (box_in (layout_tree P.style P.kind tree.now.nodes) own n) }
    ensures fresh { HasSlots (layout_tree P.style P.kind tree.now.nodes) root.0 (length slots.old) → IsSound (layout_tree P.style P.kind tree.now.nodes) (slot_in slots.old) →
        (n : ℕ) (own : InputsModel) → inputs_in (layout_tree P.style P.kind tree.now.nodes) root.0 (seen_inputs inputs) n ≡ Some own →
        IsFresh (layout_tree P.style P.kind tree.now.nodes) (slot_in slots.new) n own }
    ensures done { HasSlots (layout_tree P.style P.kind tree.now.nodes) root.0 (length slots.old) → IsSound (layout_tree P.style P.kind tree.now.nodes) (slot_in slots.old) →
        (n : ℕ) → is_due (inputs_in (layout_tree P.style P.kind tree.now.nodes) root.0 (seen_inputs inputs)) (slot_in slots.new) n ≡ false }
    ensures sound { HasSlots (layout_tree P.style P.kind tree.now.nodes) root.0 (length slots.old) → IsSound (layout_tree P.style P.kind tree.now.nodes) (slot_in slots.old) →
        IsSound (layout_tree P.style P.kind tree.now.nodes) (slot_in slots.new) }
    ensures others { (n : ℕ) → inputs_in (layout_tree P.style P.kind tree.now.nodes) root.0 (seen_inputs inputs) n ≡ None →
        slot_in slots.new n ≡ slot_in slots.old n }
    ensures ticks { HasSlots (layout_tree P.style P.kind tree.now.nodes) root.0 (length slots.old) → IsSound (layout_tree P.style P.kind tree.now.nodes) (slot_in slots.old) →
        steps.new ≡ steps.old + due_count (inputs_in (layout_tree P.style P.kind tree.now.nodes) root.0 (seen_inputs inputs)) (slot_in slots.old) (length slots.old) }
    ensures paid { HasSlots (layout_tree P.style P.kind tree.now.nodes) root.0 (length slots.old) → IsSound (layout_tree P.style P.kind tree.now.nodes) (slot_in slots.old) →
        (wanted : ℕ → Option InputsModel) →
        ((n : ℕ) → is_in_path (layout_tree P.style P.kind tree.now.nodes) root.0 n ≡ true → wanted n ≡ inputs_in (layout_tree P.style P.kind tree.now.nodes) root.0 (seen_inputs inputs) n) →
        steps.new + due_count wanted (slot_in slots.new) (length slots.old) ≡ steps.old + due_count wanted (slot_in slots.old) (length slots.old) }
{
    if is_hidden(tree, root) {
        return;
    }
    refresh_below(slots, tree, root, inputs, steps);
    let viewport = out_of_flow(inputs);
    refresh_inside(
        slots,
        tree,
        root,
        Outside {
            absolute: viewport,
            fixed: viewport,
        },
        steps,
    );
}

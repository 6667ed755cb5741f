//! Tables of the boxes of a tree's nodes.

ghost use Rattle.std.specs.Prelude.{◌≡◌, ◌≢◌, ◌+◌, ◌^◌, ◌<◌, ◌≤◌, ℕ, true, false, Option, Some, None, [], length, option_map, OnOk, OnErr};
ghost use Rattle.layout_model.specs.Nodes.{depth_of, is_in_path};
ghost use Rattle.layout_model.specs.Boxes.{Inputs as InputsModel, computed, box_of_node};
ghost use Rattle.element_tree.specs.Forest.{IsForest};
ghost use Rattle.block_layout.specs.Counts.{if_displayed, box_count};
ghost use Rattle.block_layout.specs.Filling.{IsUnpositioned, GoesDown, if_shown, inputs_if_block, box_with, height_of, steps_of};
ghost use Rattle.block_layout.specs.Held.{held_in, with_place};
ghost use Rattle.block_layout.specs.Seen.{seen_inputs};
ghost use Rattle.block_layout.specs.Trees.{layout_tree};

use crate::boxes::{child_inputs, compute_box};
use crate::fresh::added;
use crate::trees::is_hidden;
use crate::{BoxOf, Inputs, ItemKind, Styled};
use element_tree::{NodeId, Tree};
use std::alloc::{AllocError, Global};
use std::marker::Model;
use std::sync::ledger::Ledger;
use step_count::Steps;

/// A table of the boxes of nodes.
pub trait Boxes {
    ghost use Rattle.std.specs.Prelude.{ℕ, Option};
    ghost use Rattle.layout_model.specs.Boxes.{Box};

    /// The box held for the node with this number.
    ghost held: { Self → ℕ → Option Box };

    /// Returns the box held for the node, `None` exactly when none is held.
    fn box_of(&self, node: NodeId) -> Option<BoxOf>
        ensures { result ≡ held self.now node.0 };
}

/// A slot for each node, which holds the box that was computed last. Contracts see the list of the slots, by the nodes'
/// numbers.
#[derive(Drop)]
pub struct FreshBoxes {
    places: Vec<Option<BoxOf>>,
}

impl Model for FreshBoxes {
    ghost use Rattle.std.specs.Prelude.{List, Option};
    ghost use Rattle.layout_model.specs.Boxes.{Box};

    ghost Value = { List (Option Box) };

    ghost view = { λ f. f.places.items };
}

impl Boxes for FreshBoxes {
    ghost held = { held_in };

    fn box_of(&self, node: NodeId) -> Option<BoxOf> {
        match self.places.get(node.0 as usize) {
            Some(place) => *place,
            None => None,
        }
    }
}

impl FreshBoxes {
    /// Creates a table without slots; allocates nothing.
    pub fn new(alloc: Global) -> FreshBoxes
        ensures { result ≡ [] }
    {
        FreshBoxes {
            places: Vec::new(alloc),
        }
    }

    /// Adds the slot of a node, which needn't be in a tree yet, and those of all lower numbers; existing slots are unchanged.
    /// Fails only if the slot doesn't exist and can't be allocated, and then nothing changes.
    pub fn add(&mut self, node: NodeId) -> Result<(), AllocError>
        ensures added { OnOk result (self.new ≡ with_place node.0 self.old) }
        ensures same { OnErr result (self.new ≡ self.old) }
        ensures needed { OnErr result (length self.old ≤ node.0) }
    {
        let count = node.0 as usize + 1;
        if self.places.len() < count {
            self.places.resize(count, None)?;
        }
        Ok(())
    }

    /// Recomputes every box of the tree under a root element, from the root's inputs, and stores it. The slots of nodes in
    /// that tree without a box are empty afterwards (CSS 2.2, 9.2.4), and a box without a slot isn't stored. It takes one
    /// step for each box. The root may have a parent: then the boxes in its subtree are computed. Exact if no element of
    /// the tree is positioned.
    ///
    /// It recurses once per level: a tree of 2,000 levels was tested, while some 5,000 may overflow the stack.
    pub fn fill<P: Styled, L: Ledger>(
        &mut self,
        tree: &Tree<P>,
        root: NodeId,
        inputs: Inputs,
        steps: &mut Steps<L>,
    )
        requires { root.0 < length tree.now.nodes }
        ensures boxes { let at = layout_tree P.style P.kind tree.now.nodes in
            IsUnpositioned at root.0 → inputs.flow ≡ true → (at root.0).parent ≡ None → (n : ℕ) → n < length self.old →
            is_in_path at root.0 n ≡ true → held_in self.new n ≡ box_of_node at root.0 (seen_inputs inputs) n }
        ensures under { let at = layout_tree P.style P.kind tree.now.nodes in
            IsUnpositioned at root.0 → (wanted : ℕ → Option InputsModel) → GoesDown at (depth_of at root.0) wanted →
            wanted root.0 ≡ if_shown (at root.0).item.style.hidden (Some (seen_inputs inputs)) →
            (n : ℕ) → n < length self.old → is_in_path at root.0 n ≡ true → held_in self.new n ≡ box_with at (wanted n) n }
        ensures others { (n : ℕ) → is_in_path (layout_tree P.style P.kind tree.now.nodes) root.0 n ≡ false →
            held_in self.new n ≡ held_in self.old n }
        ensures places { length self.new ≡ length self.old }
        ensures ticks { let at = layout_tree P.style P.kind tree.now.nodes in
            IsUnpositioned at root.0 → steps.new ≡ steps.old + if_displayed (at root.0).item.style.hidden (box_count at root.0) }
    {
        let shown = inputs_of_child(tree, root, Some(inputs));
        let _height = fill_below(self.places.as_mut_slice(), tree, root, shown, steps);
    }
}

// Returns the inputs of a node's children, `None` if they have no box.
fn inputs_within<P: Styled>(tree: &Tree<P>, node: NodeId, inputs: Option<Inputs>) -> Option<Inputs>
    requires { node.0 < length tree.now.nodes }
    ensures value { option_map seen_inputs result ≡ inputs_if_block (layout_tree P.style P.kind tree.now.nodes node.0).item.kind (layout_tree P.style P.kind tree.now.nodes node.0).item (option_map seen_inputs inputs) }
    ensures forest { IsForest tree.now.most_depth tree.now.nodes }
{
    let item = tree.payload(node);
    match item.kind() {
        ItemKind::Block => match inputs {
            Some(own) => Some(child_inputs(item, own)),
            None => None,
        },
        ItemKind::Image(_) | ItemKind::Frame => None,
    }
}

// Returns the inputs of a child, from those that its parent passes down, `None` if it isn't displayed.
fn inputs_of_child<P: Styled>(
    tree: &Tree<P>,
    node: NodeId,
    within: Option<Inputs>,
) -> Option<Inputs>
    requires { node.0 < length tree.now.nodes }
    ensures value { option_map seen_inputs result ≡ if_shown (layout_tree P.style P.kind tree.now.nodes node.0).item.style.hidden (option_map seen_inputs within) }
    ensures forest { IsForest tree.now.most_depth tree.now.nodes }
{
    if is_hidden(tree, node) { None } else { within }
}

fn put(places: &mut [Option<BoxOf>], node: NodeId, found: Option<BoxOf>)
    ensures own { node.0 < length places.old → held_in places.new node.0 ≡ found }
    ensures others { (n : ℕ) → n ≢ node.0 → held_in places.new n ≡ held_in places.old n }
{
    let number = node.0 as usize;
    if number < places.len() {
        places[number] = found;
    }
}

// Computes the box of a node from its inputs and the heights in it, and stores it; without inputs it has no box. Returns the
// height of the margin box, 0 without a box.
fn hold<P: Styled, L: Ledger>(
    places: &mut [Option<BoxOf>],
    tree: &Tree<P>,
    node: NodeId,
    inputs: Option<Inputs>,
    inside: u64,
    steps: &mut Steps<L>,
) -> u64
    requires node { node.0 < length tree.now.nodes }
    requires inside { inside ≤ 2147483647 }
    ensures value { result ≡ height_of (option_map (λ given. computed (layout_tree P.style P.kind tree.now.nodes node.0).item given inside) (option_map seen_inputs inputs)) }
    ensures bound { result ≤ 2 ^ 34 }
    ensures own { node.0 < length places.old → held_in places.new node.0 ≡ option_map (λ given. computed (layout_tree P.style P.kind tree.now.nodes node.0).item given inside) (option_map seen_inputs inputs) }
    ensures others { (n : ℕ) → n ≢ node.0 → held_in places.new n ≡ held_in places.old n }
    ensures ticks { steps.new ≡ steps.old + steps_of (option_map seen_inputs inputs) 1 }
{
    match inputs {
        Some(own) => {
            let found = compute_box(tree.payload(node), own, inside as i64, steps);
            put(places, node, Some(found));
            found.margin_units()
        }
        None => {
            put(places, node, None);
            0
        }
    }
}

// Computes and stores the boxes of a node with these inputs and of its descendants; without inputs none has a box. Returns
// the height of the node's margin box, 0 without a box.
fn fill_below<P: Styled, L: Ledger>(
    places: &mut [Option<BoxOf>],
    tree: &Tree<P>,
    node: NodeId,
    inputs: Option<Inputs>,
    steps: &mut Steps<L>,
) -> u64
    requires { node.0 < length tree.now.nodes }
    ensures value { IsUnpositioned (layout_tree P.style P.kind tree.now.nodes) node.0 → result ≡ height_of (box_with (layout_tree P.style P.kind tree.now.nodes) (option_map seen_inputs inputs) node.0) }
    ensures bound { result ≤ 2 ^ 34 }
    ensures under { IsUnpositioned (layout_tree P.style P.kind tree.now.nodes) node.0 → (wanted : ℕ → Option InputsModel) → GoesDown (layout_tree P.style P.kind tree.now.nodes) (depth_of (layout_tree P.style P.kind tree.now.nodes) node.0) wanted →
        wanted node.0 ≡ option_map seen_inputs inputs → (n : ℕ) → is_in_path (layout_tree P.style P.kind tree.now.nodes) node.0 n ≡ true → n < length places.old →
        held_in places.new n ≡ box_with (layout_tree P.style P.kind tree.now.nodes) (wanted n) n }
    ensures others { (n : ℕ) → is_in_path (layout_tree P.style P.kind tree.now.nodes) node.0 n ≡ false → held_in places.new n ≡ held_in places.old n }
    ensures ticks { IsUnpositioned (layout_tree P.style P.kind tree.now.nodes) node.0 → steps.new ≡ steps.old + steps_of (option_map seen_inputs inputs) (box_count (layout_tree P.style P.kind tree.now.nodes) node.0) }
{
    let within = inputs_within(tree, node, inputs);
    let mut inside = 0;
    let mut next = tree.first_child(node);
    while let Some(child) = next {
        let inner = inputs_of_child(tree, child, within);
        inside = added(inside, fill_below(places, tree, child, inner, steps));
        next = tree.next_sibling(child);
    }
    hold(places, tree, node, inputs, inside, steps)
}

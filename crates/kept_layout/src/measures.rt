//! The measures of cached boxes.

ghost use Rattle.std.specs.Prelude.{◌≡◌, ◌<◌, ◌≤◌, ℕ, true, option_map, unsigned_abs, length, IfSome};
ghost use Rattle.px_units.specs.Lengths.{cap};
ghost use Rattle.layout_model.specs.Boxes.{Inputs as InputsModel};
ghost use Rattle.layout_model.specs.Views.{View, inputs_in_view};
ghost use Rattle.block_layout.specs.Seen.{seen_inputs};
ghost use Rattle.block_layout.specs.Trees.{layout_tree};
ghost use Rattle.positioned_layout.specs.Measured.{AreMeasuresOf, AreMeasuresUp};
ghost use Rattle.positioned_layout.specs.Seen.{seen_measure, IsMeasure, IsSpan};
ghost use Rattle.kept_layout.specs.Fresh.{IsFresh, IsFreshPath};
ghost use Rattle.kept_layout.specs.Measures.{IsSized, above_kept, takes_part, measured_of, measured_in};
ghost use Rattle.kept_layout.specs.Slots.{slot_in};

use crate::Kept;
use block_layout::{BoxOf, Inputs, Styled, is_block, is_clipping, is_hidden};
use element_tree::{NodeId, Tree};
use layout_model::capped;
use positioned_layout::{Measure, Measures};
use px_units::BoxKind;

/// The cached boxes of a tree, as measures for `flat_place` and `reach` of `positioned_layout`.
#[derive(Drop)]
pub struct KeptMeasures<'a, P: Styled> {
    tree: &'a Tree<P>,
    kept: &'a Kept,
}

impl Kept {
    /// Returns the measures of the cached boxes of a tree, for `flat_place` and `reach` of `positioned_layout`. Exact if each
    /// box in a viewport is up to date (`refresh`); for the place of a node its own box and those of its ancestors suffice.
    /// Doesn't allocate.
    pub fn measures<'a, P: Styled>(&'a self, tree: &'a Tree<P>) -> KeptMeasures<'a, P>
        ensures tree { result.tree.now ≡ tree.now }
        ensures kept { result.kept.now ≡ self.now }
        ensures all { let at = layout_tree P.style P.kind tree.now.nodes in (view : View) → IsSized view →
            ((n : ℕ) (inputs : InputsModel) → inputs_in_view at view n ≡ Some inputs → IsFresh at (slot_in self.now) n inputs) →
            AreMeasuresOf at view (measured_in at (slot_in self.now)) }
        ensures path { let at = layout_tree P.style P.kind tree.now.nodes in (view : View) → IsSized view → (n : ℕ) →
            IsFreshPath at view (slot_in self.now) n → AreMeasuresUp at view n (measured_in at (slot_in self.now)) }
    {
        // Yields that the elements form trees.
        tree.holds(NodeId(0));
        KeptMeasures { tree, kept: self }
    }
}

impl<P: Styled> Measures for KeptMeasures<'_, P> {
    ghost use Rattle.block_layout.specs.Trees.{layout_tree};
    ghost use Rattle.kept_layout.specs.Measures.{measured_in};
    ghost use Rattle.kept_layout.specs.Slots.{slot_in};

    ghost measured = { λ it. measured_in (layout_tree P.style P.kind it.tree.now.nodes) (slot_in it.kept.now) };

    fn measure(&self, node: NodeId) -> Option<Measure> {
        if !takes_part(self.tree, node) {
            return None;
        }
        let slot = self.kept.slot_of(node);
        let found = slot.found?;
        let above = above(self.tree, node, slot.above);
        let clips = is_clipping(self.tree, node);
        Some(measure_of(&found.own, found.inputs, above, clips))
    }
}

// Whether a node has a box if its parent has one.
fn takes_part<P: Styled>(tree: &Tree<P>, node: NodeId) -> bool
    ensures value { result ≡ takes_part (layout_tree P.style P.kind tree.now.nodes) node.0 }
    ensures known { result ≡ true → node.0 < length tree.now.nodes }
{
    if !tree.holds(node) {
        return false;
    }
    if is_hidden(tree, node) {
        return false;
    }
    match tree.parent(node) {
        Some(parent) => is_block(tree, parent),
        None => true,
    }
}

// Returns the height stacked above a node, 0 for a root element.
fn above<P: Styled>(tree: &Tree<P>, node: NodeId, kept: u64) -> u64
    ensures value { result ≡ above_kept kept (layout_tree P.style P.kind tree.now.nodes node.0).parent }
    ensures bound { result ≤ 2147483647 }
{
    match tree.parent(node) {
        Some(_) => capped(kept),
        None => 0,
    }
}

// Caps a given length at the largest one.
fn span(units: i64) -> i64
    ensures value { unsigned_abs result ≡ cap (unsigned_abs units) }
    ensures range { IsSpan result }
{
    capped(units.unsigned_abs()) as i64
}

fn span_if(units: Option<i64>) -> Option<i64>
    ensures value { option_map unsigned_abs result ≡ option_map cap (option_map unsigned_abs units) }
    ensures range { IfSome result IsSpan }
{
    match units {
        Some(units) => Some(span(units)),
        None => None,
    }
}

fn measure_of(own: &BoxOf, inputs: Inputs, above: u64, clips: bool) -> Measure
    requires { above ≤ 2147483647 }
    ensures value { seen_measure result ≡ measured_of (seen_inputs inputs) own.now above clips }
    ensures range { IsMeasure result }
{
    Measure {
        width: span(inputs.width),
        height: span_if(inputs.height),
        inner: own.inner(),
        corner: own.padding_corner(),
        margin: own.margin_corner(),
        margin_height: own.margin_height(),
        above: above as i64,
        padding: own.padding_size(),
        border: own.size(BoxKind::Border),
        clips,
    }
}

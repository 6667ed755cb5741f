//! The box of a node with its whole subtree.

ghost use Rattle.std.specs.Prelude.{◌≡◌, ◌+◌, ◌^◌, ◌<◌, ◌≤◌, length};
ghost use Rattle.px_units.specs.Lengths.{cap};
ghost use Rattle.layout_model.specs.Boxes.{box_in};
ghost use Rattle.block_layout.specs.Counts.{box_count};
ghost use Rattle.block_layout.specs.Ranges.{IsBox};
ghost use Rattle.block_layout.specs.Seen.{seen_inputs};
ghost use Rattle.block_layout.specs.Trees.{layout_tree};

use crate::boxes::{child_inputs, compute_box};
use crate::trees::{first_inner, is_passed};
use crate::{BoxOf, Inputs, Styled};
use element_tree::{NodeId, Tree};
use layout_model::capped;
use std::sync::ledger::Ledger;
use step_count::Steps;

// Adds a height to a sum of heights, capped.
pub(crate) fn added(inside: u64, height: u64) -> u64
    requires inside { inside ≤ 2147483647 }
    requires height { height ≤ 2 ^ 34 }
    ensures value { result ≡ cap (inside + height) }
    ensures bound { result ≤ 2147483647 }
{
    capped(inside + height)
}

/// Computes the box of a node from its inputs, with all boxes in it (CSS 2.2, 10). The node's own `display` is ignored. Boxes
/// out of flow in it aren't computed: its own doesn't depend on them. It takes one step for each box computed.
///
/// It recurses once per level: a tree of 2,000 levels was tested, while some 5,000 may overflow the stack.
pub fn fresh_box<P: Styled, L: Ledger>(
    tree: &Tree<P>,
    node: NodeId,
    inputs: Inputs,
    steps: &mut Steps<L>,
) -> BoxOf
    requires { node.0 < length tree.now.nodes }
    ensures value { result ≡ box_in (layout_tree P.style P.kind tree.now.nodes) (seen_inputs inputs) node.0 }
    ensures range { IsBox result }
    ensures ticks { steps.new ≡ steps.old + box_count (layout_tree P.style P.kind tree.now.nodes) node.0 }
{
    let inner = child_inputs(tree.payload(node), inputs);
    let mut inside = 0;
    let mut next = first_inner(tree, node);
    while let Some(child) = next {
        if !is_passed(tree, child) {
            inside = added(inside, fresh_box(tree, child, inner, steps).margin_units());
        }
        next = tree.next_sibling(child);
    }
    compute_box(tree.payload(node), inputs, inside as i64, steps)
}

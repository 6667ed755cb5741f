//! The slot of each node.

ghost use Rattle.std.specs.Prelude.{◌≡◌, ◌≢◌, ◌<◌, ◌≤◌, ℕ, true, length, IfSome};
ghost use Rattle.layout_model.specs.Boxes.{margin_height, inputs_held};
ghost use Rattle.block_layout.specs.Seen.{seen_inputs};
ghost use Rattle.kept_layout.specs.Due.{same_inputs, is_due_at};
ghost use Rattle.kept_layout.specs.Slots.{slot_in, marked_if};
ghost use Rattle.kept_layout.specs.Sound.{box_held, outside_found};
ghost use Rattle.kept_layout.specs.Writes.{with_above, holding};

use block_layout::{BoxOf, Inputs};
use element_tree::NodeId;
use layout_model::capped;

/// A computed box, and the inputs it was computed from.
#[derive(Clone, Copy)]
pub struct Found {
    pub own: BoxOf,
    pub inputs: Inputs,
    /// Whether a box in it, reached through what is in flow, is out of flow.
    pub outside: bool,
}

/// What is cached for a node.
#[derive(Clone, Copy)]
pub struct Slot {
    /// Whether something that the box depends on may have changed since it was computed.
    pub marked: bool,
    /// The margin box heights of the earlier siblings in flow, at most 2,147,483,647 units. Meaningless at a root element.
    pub above: u64,
    /// `None` until a box is computed for the first time.
    pub found: Option<Found>,
}

impl Slot {
    pub(crate) const EMPTY: Slot = Slot {
        marked: false,
        above: 0,
        found: None,
    };
}

pub(crate) fn slot_of(slots: &[Slot], node: NodeId) -> Slot
    ensures { result ≡ slot_in slots.now node.0 }
{
    match slots.get(node.0 as usize) {
        Some(slot) => *slot,
        None => Slot::EMPTY,
    }
}

// Nothing is written for a node without a slot.
fn put(slots: &mut [Slot], node: NodeId, slot: Slot)
    ensures own { node.0 < length slots.old → slot_in slots.new node.0 ≡ slot }
    ensures others { (n : ℕ) → n ≢ node.0 → slot_in slots.new n ≡ slot_in slots.old n }
{
    let number = node.0 as usize;
    if number < slots.len() {
        slots[number] = slot;
    }
}

fn are_same(inputs: Inputs, others: Inputs) -> bool
    ensures { result ≡ same_inputs (seen_inputs inputs) (seen_inputs others) }
{
    let same_height = match (inputs.height, others.height) {
        (Some(height), Some(other)) => height.unsigned_abs() == other.unsigned_abs(),
        (None, None) => true,
        _ => false,
    };
    inputs.width.unsigned_abs() == others.width.unsigned_abs()
        && same_height
        && inputs.flow == others.flow
}

// Whether the box of a node with these inputs must be recomputed.
pub(crate) fn is_due(slots: &[Slot], node: NodeId, inputs: Inputs) -> bool
    ensures { result ≡ is_due_at (Some (seen_inputs inputs)) (slot_in slots.now node.0) }
{
    let Slot { marked, found, .. } = slot_of(slots, node);
    match found {
        Some(held) => marked || !are_same(held.inputs, inputs),
        None => true,
    }
}

pub(crate) fn set_mark(slots: &mut [Slot], node: NodeId)
    ensures own { node.0 < length slots.old → slot_in slots.new node.0 ≡ marked_if true (slot_in slots.old node.0) }
    ensures others { (n : ℕ) → n ≢ node.0 → slot_in slots.new n ≡ slot_in slots.old n }
{
    let kept = slot_of(slots, node);
    put(
        slots,
        node,
        Slot {
            marked: true,
            ..kept
        },
    );
}

// Sets the height that is stacked above a node.
pub(crate) fn set_above(slots: &mut [Slot], node: NodeId, above: u64)
    ensures own { node.0 < length slots.old → slot_in slots.new node.0 ≡ with_above above (slot_in slots.old node.0) }
    ensures others { (n : ℕ) → n ≢ node.0 → slot_in slots.new n ≡ slot_in slots.old n }
{
    let kept = slot_of(slots, node);
    put(slots, node, Slot { above, ..kept });
}

// Returns the height of the margin box stored for a node, 0 if there is none.
pub(crate) fn height_held(slots: &[Slot], node: NodeId) -> u64
    ensures value { result ≡ margin_height (box_held (slot_in slots.now) node.0) }
    ensures bound { result ≤ 20000000000 }
{
    match slot_of(slots, node).found {
        Some(found) => outer_height(&found.own),
        None => 0,
    }
}

fn outer_height(own: &BoxOf) -> u64
    ensures value { result ≡ margin_height own.now }
    ensures bound { result ≤ 20000000000 }
{
    own.margin_height().unsigned_abs()
}

// Stores a box and clears the mark of its node.
pub(crate) fn hold(slots: &mut [Slot], node: NodeId, found: Found)
    ensures own { node.0 < length slots.old → slot_in slots.new node.0 ≡ holding found.own found.inputs found.outside (slot_in slots.old node.0) }
    ensures others { (n : ℕ) → n ≢ node.0 → slot_in slots.new n ≡ slot_in slots.old n }
{
    let Slot { above, .. } = slot_of(slots, node);
    put(
        slots,
        node,
        Slot {
            marked: false,
            above,
            found: Some(found),
        },
    );
}

// Whether the slot of a node says that something in its box is out of flow.
pub(crate) fn has_outside(slots: &[Slot], node: NodeId) -> bool
    ensures { result ≡ outside_found (slot_in slots.now node.0).found }
{
    match slot_of(slots, node).found {
        Some(found) => found.outside,
        None => false,
    }
}

// Returns the inputs of the boxes out of flow that a node's box holds: the size of its padding box. If no box is stored,
// which can't be once the node's is computed, returns `or`.
pub(crate) fn inputs_held(slots: &[Slot], node: NodeId, or: Inputs) -> Inputs
    ensures { IfSome (slot_in slots.now node.0).found (λ found. seen_inputs result ≡ inputs_held found.own) }
{
    let Some(found) = slot_of(slots, node).found else {
        return or;
    };
    let padding = found.own.padding_size();
    Inputs {
        width: capped(padding.width.unsigned_abs()) as i64,
        height: Some(capped(padding.height.unsigned_abs()) as i64),
        flow: false,
    }
}

//! Hit testing on a page.

ghost use Rattle.std.specs.Prelude.{◌≡◌, ◌<◌, All, length, map, IfOk};
ghost use Rattle.element_tree.specs.Links.{number};
ghost use Rattle.page_state.specs.Boxes.{Computes};
ghost use Rattle.hit_test.specs.Hits.{hits};

use crate::among::hits_shown;
use element_tree::NodeId;
use page_state::Page;
use px_units::Point;
use std::alloc::{AllocError, Global};
use std::sync::ledger::Ledger;
use step_count::Steps;

/// Returns the elements of a page that a point of the viewport of `top` hits, topmost first (CSSOM View, 5:
/// `elementsFromPoint`). Boxes that are due are recomputed first, in one step each. The page is otherwise unchanged.
///
/// # Errors
///
/// If an allocation fails.
pub fn hits<L: Ledger>(
    alloc: Global,
    page: &mut Page,
    at: Point,
    steps: &mut Steps<L>,
) -> Result<Vec<NodeId>, AllocError>
    ensures list { IfOk result (λ found. map number found.items ≡ hits page.old.world at) }
    ensures there { IfOk result (λ found. All (λ node. node.0 < length page.old.world.tree.elements) found.items) }
    ensures same { page.new ≡ record page.old { kept = page.new.kept } }
    ensures boxes { Computes page.old.world page.old.kept page.new.kept steps.old steps.new }
{
    page.refresh_boxes(steps);
    let shown = page.geometry().with_documents(alloc);
    hits_shown(alloc, &shown, at)
}

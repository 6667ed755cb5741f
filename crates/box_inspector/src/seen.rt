//! The place and the visible part of a box.

ghost use Rattle.std.specs.Prelude.{◌≡◌, true, IfOk, IfSome};
ghost use Rattle.page_model.specs.Shown.{has_box, place_of, size_of};
ghost use Rattle.clip_chain.specs.Ranges.{IsBounds};
ghost use Rattle.page_model.specs.Chains.{moved_back, origin_of_element};
ghost use Rattle.page_model.specs.Readings.{rect_of};
ghost use Rattle.px_units.specs.declared.BoxKind.TheVariants.{Border};
ghost use Rattle.trace_text.specs.Ranges.{RectReaches};
ghost use Rattle.box_inspector.specs.Boxes.{seen_part};
ghost use Rattle.box_inspector.specs.Clips.{AreClips};

use clip_chain::Geometry;
use common_clips::{CommonClips, visible_rect};
use element_tree::{Container, DocumentId, NodeId};
use page_geometry::Shown;
use px_units::{Rect, shift};
use std::alloc::AllocError;

/// The viewport of the top document.
const SCREEN: Container = Container::Document(DocumentId(0));

// Maps a rectangle to the viewport of an element's document.
fn in_document(shown: &Shown<'_>, node: NodeId, part: Rect) -> Rect
    requires { IsBounds part }
    ensures value { result ≡ moved_back (origin_of_element shown.now node.0) part }
    ensures reach { RectReaches result }
{
    let own = shown.bounds(Container::Document(shown.document_of(node)));
    shift(part, -own.left, -own.top)
}

/// Returns the visible part of an element: what the clips between it and the viewport of `top`, and that viewport, leave of
/// its border box, in the viewport of the element's document (Intersection Observer, 3.2.7). Touching edges count. What is left
/// within the elements around it is looked up in `clips`, and noted there.
///
/// Requires that the element has a box. All edges, widths and heights lie between -2^50 and 2^50.
///
/// # Errors
///
/// If an allocation fails.
pub fn seen_part(
    shown: &Shown<'_>,
    node: NodeId,
    clips: &mut CommonClips,
) -> Result<Option<Rect>, AllocError>
    requires boxed { has_box shown.now node.0 ≡ true }
    requires clips { AreClips shown.now clips.old.inside }
    ensures value { IfOk result (λ part. part ≡ seen_part shown.now node.0) }
    ensures reach { IfOk result (λ part. IfSome part RectReaches) }
    ensures clips { AreClips shown.now clips.new.inside }
{
    // Yields that chains lead to the viewport of `top`, and a bound on their length.
    shown.document_count();
    let screen = shown.bounds(SCREEN);
    let visible = visible_rect(shown, Container::Element(node), SCREEN, screen, clips)?;
    match visible {
        Some(part) => Ok(Some(in_document(shown, node, part))),
        None => Ok(None),
    }
}

/// Returns the border box of an element in the viewport of its document (CSS 2.2, 8.1), zeros without a box. Doesn't
/// allocate.
pub fn place(shown: &Shown<'_>, node: NodeId) -> Rect
    ensures value { result ≡ rect_of (place_of shown.now node.0) (size_of shown.now node.0 Border) }
    ensures reach { RectReaches result }
{
    shown.border_rect(node)
}

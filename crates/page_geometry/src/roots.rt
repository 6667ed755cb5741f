//! Root rectangles before root margins are applied, and the origins of their documents (Intersection Observer, 2.2).

ghost use Rattle.std.specs.Prelude.{◌≡◌};
ghost use Rattle.page_model.specs.Chains.{root_bounds};
ghost use Rattle.page_model.specs.Findings.{root_origin};
ghost use Rattle.clip_chain.specs.Ranges.{IsBounds};
ghost use Rattle.intersection_observer.specs.Seen.{seen_root};
ghost use Rattle.page_geometry.specs.Ranges.{IsOrigin};

use crate::geometry::clips;
use crate::origins::{NOWHERE, origin};
use crate::rects::{NO_RECT, border_rect, padding_rect, viewport_rect};
use crate::shown::Shown;
use element_tree::DocumentId;
use intersection_observer::Root;
use px_units::{Point, Rect};

// Returns the origin of the viewport of the root's document.
pub(crate) fn root_origin(shown: &Shown<'_>, root: Root) -> Point
    ensures value { result ≡ root_origin shown.now (seen_root root) }
    ensures range { IsOrigin 64 result }
{
    match root {
        Root::Implicit => NOWHERE,
        Root::Document(document) => origin(shown, document),
        Root::Node(node) => {
            if shown.has_box(node) {
                origin(shown, shown.document_of(node))
            } else {
                NOWHERE
            }
        }
    }
}

// Returns the root rectangle before root margins are applied: the viewport of a document, the padding box of an element that
// clips, the border box of any other element, zeros without a box.
pub(crate) fn root_bounds(shown: &Shown<'_>, root: Root) -> Rect
    ensures value { result ≡ root_bounds shown.now (seen_root root) }
    ensures range { IsBounds result }
{
    match root {
        Root::Implicit => viewport_rect(shown, DocumentId(0)),
        Root::Document(document) => viewport_rect(shown, document),
        Root::Node(node) => {
            if !shown.has_box(node) {
                NO_RECT
            } else if clips(shown.page(), node) {
                padding_rect(shown, node)
            } else {
                border_rect(shown, node)
            }
        }
    }
}

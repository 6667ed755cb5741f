//! The origins of documents' viewports in that of `top` (HTML, 7.3; CSS 2.2, 8.1: the content box of a frame).

ghost use Rattle.std.specs.Prelude.{◌≡◌, ◌≤◌, ◌+◌};
ghost use Rattle.page_model.specs.Chains.{added, origin, origin_up};
ghost use Rattle.page_geometry.specs.Ranges.{IsCorner, IsOrigin};

use crate::shown::Shown;
use element_tree::DocumentId;
use px_units::Point;

pub(crate) const NOWHERE: Point = Point { left: 0, top: 0 };

fn added(corner: Point, around: Point, frames: u32) -> Point
    requires left { IsCorner corner.left }
    requires top { IsCorner corner.top }
    requires around { IsOrigin frames around }
    requires few { frames ≤ 64 }
    ensures value { result ≡ added corner around }
    ensures range { IsOrigin (frames + 1) result }
{
    Point {
        left: corner.left + around.left,
        top: corner.top + around.top,
    }
}

// Returns the origin of a document's viewport, following at most `high` frames.
fn origin_up(shown: &Shown<'_>, document: DocumentId, high: u32) -> Point
    requires { high ≤ 64 }
    ensures value { result ≡ origin_up high shown.now document.0 }
    ensures range { IsOrigin high result }
{
    if high == 0 {
        return NOWHERE;
    }
    let Some(frame) = shown.frame_of(document) else {
        return NOWHERE;
    };
    if !shown.has_box(frame) {
        return NOWHERE;
    }
    let corner = shown.content_origin(frame);
    let around = origin_up(shown, shown.document_of(frame), high - 1);
    added(corner, around, high - 1)
}

// Returns the origin of a document's viewport: (0, 0) for `top`, and for a document whose frame has no box.
//
// It recurses once for each frame around the document, up to one whose origin was precomputed.
pub(crate) fn origin(shown: &Shown<'_>, document: DocumentId) -> Point
    ensures value { result ≡ origin shown.now document.0 }
    ensures range { IsOrigin 64 result }
{
    match shown.found_origin(document) {
        Some(origin) => origin,
        None => origin_up(shown, document, shown.document_count()),
    }
}

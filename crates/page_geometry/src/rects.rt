//! Rectangles in the coordinates of the viewport of `top`.

ghost use Rattle.std.specs.Prelude.{◌≡◌, ◌-ℤ◌};
ghost use Rattle.page_model.specs.Chains.{moved_by, moved_back, viewport_rect, border_rect, padding_rect};
ghost use Rattle.clip_chain.specs.Ranges.{IsBounds};
ghost use Rattle.page_boxes.specs.Ranges.{AreEdges, IsSpan};
ghost use Rattle.page_geometry.specs.Ranges.{IsOrigin, IsMoved, IsRectReached};

use crate::origins::origin;
use crate::shown::Shown;
use element_tree::{DocumentId, NodeId};
use px_units::{Point, Rect, shift};

pub(crate) const NO_RECT: Rect = Rect {
    left: 0,
    top: 0,
    right: 0,
    bottom: 0,
};

// Maps a rectangle from the viewport of a document with origin `by` to that of `top`.
fn moved_by(by: Point, rect: Rect) -> Rect
    requires by { IsOrigin 64 by }
    requires edges { AreEdges rect }
    requires width { IsSpan (rect.right -ℤ rect.left) }
    requires height { IsSpan (rect.bottom -ℤ rect.top) }
    ensures value { result ≡ moved_by by rect }
    ensures range { IsBounds result }
{
    shift(rect, by.left, by.top)
}

// Maps a rectangle from the viewport of `top` to that of a document with origin `from`.
pub(crate) fn moved_back(from: Point, rect: Rect) -> Rect
    requires from { IsOrigin 64 from }
    requires rect { IsMoved rect }
    ensures value { result ≡ moved_back from rect }
    ensures range { IsRectReached result }
{
    shift(rect, -from.left, -from.top)
}

pub(crate) fn viewport_rect(shown: &Shown<'_>, document: DocumentId) -> Rect
    ensures value { result ≡ viewport_rect shown.now document.0 }
    ensures range { IsBounds result }
{
    let size = shown.viewport_of(document);
    let own = Rect {
        left: 0,
        top: 0,
        right: size.width,
        bottom: size.height,
    };
    moved_by(origin(shown, document), own)
}

pub(crate) fn border_rect(shown: &Shown<'_>, node: NodeId) -> Rect
    ensures value { result ≡ border_rect shown.now node.0 }
    ensures range { IsBounds result }
{
    let own = shown.border_rect(node);
    moved_by(origin(shown, shown.document_of(node)), own)
}

pub(crate) fn padding_rect(shown: &Shown<'_>, node: NodeId) -> Rect
    ensures value { result ≡ padding_rect shown.now node.0 }
    ensures range { IsBounds result }
{
    let own = shown.padding_rect(node);
    moved_by(origin(shown, shown.document_of(node)), own)
}

//! The record of a box.

use px_units::Rect;
use text_io::Name;

/// The box of an element. Rectangles are in units of 1/64 CSS pixel and in the viewport of the element's document.
#[derive(Clone, Copy, Debug, PartialEq, Eq)]
pub struct BoxLine {
    /// The element's name.
    pub name: Name,
    /// The depth of the element: the number of elements on the path to the root of its tree, both included, so 1 for a root
    /// element.
    pub depth: u32,
    /// The border box.
    pub place: Rect,
    /// Its visible part: what the clips between it and the viewport of `top`, and that viewport, leave. `None` if they leave
    /// nothing.
    pub seen: Option<Rect>,
}

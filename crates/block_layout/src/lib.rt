//! Boxes of block layout (CSS 2.2, 8 to 11): their sizes, their overflow, and tables of them. All lengths are in units of
//! 1/64 CSS pixel, and their absolute values count.
#![tactic(auto)]

mod boxes;
mod fresh;
mod held;
mod numbers;
mod reach;
mod sizes;
mod trees;

pub use boxes::{BoxOf, child_inputs, compute_box};
pub use fresh::fresh_box;
pub use held::{Boxes, FreshBoxes};
use px_units::Size;
pub use reach::overflow_reach;
pub use trees::{Styled, first_inner, is_block, is_clipping, is_hidden, is_scroll_container};

/// What a box depends on outside itself: the width of the containing block, and its height if that is definite (CSS 2.2, 10.1
/// and 10.5). Each is from 0 to 2,147,483,647 units.
#[derive(Clone, Copy, Debug, PartialEq, Eq)]
pub struct Inputs {
    pub width: i64,
    /// `None` if it depends on the heights of the content.
    pub height: Option<i64>,
    /// Whether the box is in flow (CSS 2.2, 9.3), as that of every root element is.
    pub flow: bool,
}

/// The kind of element that a box belongs to.
#[derive(Clone, Copy, Debug, PartialEq, Eq)]
pub enum ItemKind {
    /// A block container, which stacks the boxes of its children.
    Block,
    /// A replaced element with a natural size. Its descendants have no boxes.
    Image(Size),
    /// A nested viewport, 300 by 150 pixels if its size is automatic. Its descendants have no boxes: its document is a
    /// separate tree.
    Frame,
}

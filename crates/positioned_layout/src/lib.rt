//! Layout of positioned boxes: the holder (containing block) of each box, its place while nothing is scrolled, and the
//! scrollable overflow of scroll containers and viewports (CSS 2.2, 9.3, 9.4.3, 10.1, 10.3.7 and 10.6.4; CSS Positioned
//! Layout 3; CSS Overflow 3, 2.2). All lengths are in units of 1/64 CSS pixel.
#![tactic(auto)]

mod holders;
mod insets;
mod places;
mod reaches;

use block_layout::Styled;
use element_tree::NodeId;
pub use holders::{holder_of, position};
pub use places::flat_place;
use px_units::{Point, Size};
pub use reaches::reach;
use style_values::Style;

/// An element with a style, by which it is placed.
pub trait Placed {
    ghost use Rattle.std.specs.Prelude.{◌≡◌};
    ghost use Rattle.layout_model.specs.Styles.{Style as StyleModel};
    ghost use Rattle.style_values.specs.Ranges.{IsStyle};
    ghost use Rattle.style_values.specs.Seen.{seen_style};

    /// The style, as the definitions of layout see it.
    ghost placed: { Self → StyleModel };

    /// Returns the style of the element.
    fn style(&self) -> &Style
        ensures value { seen_style result.now ≡ placed self.now }
        ensures range { IsStyle result.now };
}

// An element that is laid out by a style is placed by the same style.
impl<P: Styled> Placed for P {
    ghost placed = { P.style };

    fn style(&self) -> &Style {
        Styled::style(self)
    }
}

/// The measures of a box. Each number is from 0 to 2^40 units, and no border is above 2,147,483,647.
#[derive(Clone, Copy, Debug, PartialEq, Eq)]
pub struct Measure {
    /// The width of the containing block.
    pub width: i64,
    /// The height of the containing block, `None` if it is indefinite.
    pub height: Option<i64>,
    /// The left and top borders and paddings.
    pub inner: Point,
    /// The left and top borders, each at most 2,147,483,647 units.
    pub corner: Point,
    /// The left and top margins.
    pub margin: Point,
    /// The height of the margin box.
    pub margin_height: i64,
    /// The heights of the margin boxes of the earlier siblings in flow, at most 2,147,483,647 units; 0 for a root element.
    pub above: i64,
    /// The size of the padding box.
    pub padding: Size,
    /// The size of the border box.
    pub border: Size,
    /// Whether it clips its content.
    pub clips: bool,
}

/// A source of the measures of boxes.
pub trait Measures {
    ghost use Rattle.std.specs.Prelude.{◌≡◌, ℕ, Option, option_map, IfSome};
    ghost use Rattle.positioned_layout.specs.Measured.{Measured};
    ghost use Rattle.positioned_layout.specs.Seen.{seen_measure, IsMeasure};

    /// The measures of the box of the node with this number.
    ghost measured: { Self → ℕ → Option Measured };

    /// Returns the measures of a node's box, `None` exactly when it has no box. Only called for nodes without a parent and
    /// for those whose parent has a box.
    fn measure(&self, node: NodeId) -> Option<Measure>
        ensures value { option_map seen_measure result ≡ measured self.now node.0 }
        ensures range { IfSome result IsMeasure };
}

/// The holder of a box (CSS 2.2, 10.1: containing block).
#[derive(Clone, Copy, Debug, PartialEq, Eq)]
pub enum Holder {
    /// The box of an element.
    Node(NodeId),
    /// The page, which the viewport scrolls (the initial containing block).
    Page,
    /// The screen, which nothing scrolls (the containing block of fixed boxes).
    Screen,
}

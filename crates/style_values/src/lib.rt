//! The styles of elements: properties and their values, which are parsed from words and applied.
#![tactic(auto)]

mod declarations;
mod keywords;
mod lengths;
mod properties;
mod styles;

pub use keywords::lookup;
pub use properties::first_version;
use px_units::{Length, Px};
use thiserror::Error;

/// Whether an element has a box (CSS Display 3, 2).
#[derive(Clone, Copy, Debug, PartialEq, Eq)]
pub enum Display {
    /// `block`
    Block,
    /// `none`: neither the element nor what it contains has a box.
    Hidden,
}

/// Which box `width` and `height` apply to (CSS Box Sizing 3, 3.1).
#[derive(Clone, Copy, Debug, PartialEq, Eq)]
pub enum BoxSizing {
    /// `content-box`
    Content,
    /// `border-box`
    Border,
}

/// What happens to content that doesn't fit its box (CSS Overflow 3, 3.1).
#[derive(Clone, Copy, Debug, PartialEq, Eq)]
pub enum Overflow {
    /// `visible`
    Visible,
    /// `hidden`: a scroll container.
    Hidden,
    /// `clip`: clips, but isn't a scroll container.
    Clip,
    /// `scroll`: a scroll container.
    Scroll,
    /// `auto`: a scroll container.
    Auto,
}

/// A dimension of a box (CSS 2.2, 10.2 and 10.5).
#[derive(Clone, Copy, Debug, PartialEq, Eq)]
pub enum Axis {
    /// `width`
    Width,
    /// `height`
    Height,
}

/// How a box is positioned (CSS Positioned Layout 3, 2).
#[derive(Clone, Copy, Debug, PartialEq, Eq)]
pub enum Position {
    /// `static`
    Static,
    /// `relative`: moved by its insets from where it is in the flow.
    Relative,
    /// `absolute`: out of flow, held by its nearest positioned ancestor, or by the page if there is none.
    Absolute,
    /// `fixed`: out of flow, held by the screen: it doesn't move as the viewport is scrolled.
    Fixed,
}

/// The sides that a declaration sets: a single one, or, for a shorthand, all four (CSS 2.2, 8.3 to 8.5).
#[derive(Clone, Copy, Debug, PartialEq, Eq)]
pub enum Sides {
    Top,
    Right,
    Bottom,
    Left,
    /// The shorthands `margin`, `padding` and `border`.
    All,
}

/// The values of an element's properties (CSS 2.2, 8 to 11). Lengths are in units of 1/64 pixel, at most 64,000,000,
/// percentages in hundredths of a percent, at most 1,000,000; only insets may be negative, down to the negatives of these bounds.
#[derive(Clone, Copy, Debug, PartialEq, Eq)]
pub struct Style {
    /// Initially `block`.
    pub display: Display,
    /// Initially `content-box`.
    pub box_sizing: BoxSizing,
    /// Initially `visible`.
    pub overflow: Overflow,
    /// Initially `auto`.
    pub width: Length,
    /// Initially `auto`.
    pub height: Length,
    /// A length or a percentage, initially 0.
    pub min_width: Length,
    /// A length or a percentage, initially 0.
    pub min_height: Length,
    /// A length or a percentage, `None` for `none`. Initially `None`.
    pub max_width: Option<Length>,
    /// A length or a percentage, `None` for `none`. Initially `None`.
    pub max_height: Option<Length>,
    /// Margins are lengths or percentages, initially 0.
    pub margin_top: Length,
    pub margin_right: Length,
    pub margin_bottom: Length,
    pub margin_left: Length,
    /// Paddings are lengths or percentages, initially 0.
    pub padding_top: Length,
    pub padding_right: Length,
    pub padding_bottom: Length,
    pub padding_left: Length,
    /// Borders are lengths, initially 0.
    pub border_top: Px,
    pub border_right: Px,
    pub border_bottom: Px,
    pub border_left: Px,
    /// Initially `static`.
    pub position: Position,
    /// The insets of a positioned box are `auto`, or lengths or percentages, which may be negative. Initially `auto`.
    pub top: Length,
    pub right: Length,
    pub bottom: Length,
    pub left: Length,
}

/// A property and its value (CSS 2.2, 4.1.8).
#[derive(Clone, Copy, Debug, PartialEq, Eq)]
pub enum Declaration {
    /// `display`
    Display(Display),
    /// `width`: `auto`, a length or a percentage.
    Width(Length),
    /// `height`: `auto`, a length or a percentage.
    Height(Length),
    /// `min-width`: a length or a percentage.
    MinWidth(Length),
    /// `min-height`: a length or a percentage.
    MinHeight(Length),
    /// `max-width`: a length or a percentage, `None` for `none`.
    MaxWidth(Option<Length>),
    /// `max-height`: a length or a percentage, `None` for `none`.
    MaxHeight(Option<Length>),
    /// `margin` and `margin-top` to `margin-left`: a length or a percentage.
    Margin(Sides, Length),
    /// `padding` and `padding-top` to `padding-left`: a length or a percentage.
    Padding(Sides, Length),
    /// `border` and `border-top` to `border-left`: a length.
    Border(Sides, Px),
    /// `box-sizing`
    BoxSizing(BoxSizing),
    /// `overflow`
    Overflow(Overflow),
    /// `position`
    Position(Position),
    /// `top`: `auto`, or a length or percentage, which may be negative.
    Top(Length),
    /// `right`: `auto`, or a length or percentage, which may be negative.
    Right(Length),
    /// `bottom`: `auto`, or a length or percentage, which may be negative.
    Bottom(Length),
    /// `left`: `auto`, or a length or percentage, which may be negative.
    Left(Length),
}

/// Why two words aren't a declaration.
#[derive(Clone, Copy, Debug, PartialEq, Eq, Error)]
pub enum StyleFault {
    /// There is no property of this name.
    #[error("there is no property of this name")]
    UnknownProperty,
    /// The value isn't valid for the property.
    #[error("the value is not valid for the property")]
    BadValue,
}

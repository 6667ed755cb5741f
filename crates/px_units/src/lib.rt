//! Lengths in 1/64 CSS pixel, percentages in hundredths, rectangles, and their texts.
#![tactic(auto)]

mod laws;
mod lengths;
mod rects;
mod texts;

pub use laws::{common_part_has_no_order, common_part_is_the_common_points, texts_of_units};
pub use lengths::{LengthFault, read_percent, read_px, resolve};
pub use rects::{area, meet, shift};
pub use texts::{print_px, push_px};

/// A length in units of 1/64 CSS pixel.
#[derive(Clone, Copy, Debug, PartialEq, Eq)]
pub struct Px(pub i64);

/// A percentage in hundredths of a percent.
#[derive(Clone, Copy, Debug, PartialEq, Eq)]
pub struct Percent(pub i32);

/// The value of a property that takes a length.
#[derive(Clone, Copy, Debug, PartialEq, Eq)]
pub enum Length {
    /// `auto`
    Auto,
    /// In pixels.
    Px(Px),
    /// Relative to a basis that depends on the property.
    Percent(Percent),
}

/// A width and a height, in units of 1/64 CSS pixel unless stated otherwise.
#[derive(Clone, Copy, Debug, PartialEq, Eq)]
pub struct Size {
    pub width: i64,
    pub height: i64,
}

/// A point in units of 1/64 CSS pixel: `left` grows to the right, `top` downwards.
#[derive(Clone, Copy, Debug, PartialEq, Eq)]
pub struct Point {
    pub left: i64,
    pub top: i64,
}

/// A rectangle given by its four edges, in units of 1/64 CSS pixel.
#[derive(Clone, Copy, Debug, PartialEq, Eq)]
pub struct Rect {
    pub left: i64,
    pub top: i64,
    pub right: i64,
    pub bottom: i64,
}

/// Which of an element's boxes a size refers to.
#[derive(Clone, Copy, Debug, PartialEq, Eq)]
pub enum BoxKind {
    Content,
    Border,
    /// The content box in device pixels.
    Device,
}

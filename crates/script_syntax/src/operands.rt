//! Operands and conditions.

use crate::texts::{MarginText, NumberList};
use px_units::Px;
use text_io::Name;

/// An operand that denotes a node.
#[derive(Clone, Copy, Debug, PartialEq, Eq)]
pub enum Operand {
    /// By its name.
    Named(Name),
    /// `$target`, the target of the present observer entry.
    Target,
}

/// An event target, which can have listeners.
#[derive(Clone, Copy, Debug, PartialEq, Eq)]
pub enum Aim {
    /// A node, a document or a media query list.
    Plain(Operand),
    /// The window of a document.
    Window(Name),
}

/// The operands of `io`, which creates an intersection observer.
#[derive(Drop)]
pub struct IoMaking {
    pub name: Name,
    pub document: Name,
    /// `None` for `-`.
    pub handler: Option<Name>,
    /// `None` for `-`, the implicit root.
    pub root: Option<Operand>,
    pub margin: MarginText,
    /// In ten-thousandths.
    pub thresholds: NumberList,
    /// `None` if it was omitted.
    pub scroll: Option<MarginText>,
}

/// What a `when` tests. Lengths are in units of 1/64 CSS pixel, from 0 to 64,000,000.
#[derive(Clone, Copy, Debug, PartialEq, Eq)]
pub enum Test {
    /// Whether the border box of a node is wider than a length.
    Wider(Operand, Px),
    /// Whether the border box of a node is higher than a length.
    Taller(Operand, Px),
    /// Whether a media query list matches its document's viewport.
    Matches(Name),
    /// Whether a node has a parent or is a root element.
    Attached(Operand),
    /// Whether the present observer entry is intersecting.
    Seen,
}

/// A test, which is negated after `not`.
#[derive(Clone, Copy, Debug, PartialEq, Eq)]
pub struct Condition {
    pub negated: bool,
    pub asks: Test,
}

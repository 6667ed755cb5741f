//! The entries passed to a callback.

ghost use Rattle.std.specs.Prelude.{◌≡◌};

use element_tree::NodeId;
use px_units::{Point, Size};
use std::marker::Model;

/// What is reported of a target (Resize Observer, 2.3: ResizeObserverEntry), in units of 1/64 CSS pixel except `device`.
#[derive(Clone, Copy, PartialEq, Eq, Debug)]
pub struct ResizeEntry {
    pub target: NodeId,
    /// The top left corner of the content box, relative to the padding box.
    pub corner: Point,
    /// The size of the content box.
    pub content: Size,
    /// The size of the border box.
    pub border: Size,
    /// The size of the content box in device pixels.
    pub device: Size,
    /// The depth of the target in its tree.
    pub depth: u32,
}

/// Entries in order. Contracts see them as a list.
#[derive(Drop)]
pub struct ResizeList {
    entries: Vec<ResizeEntry>,
}

impl Model for ResizeList {
    ghost use Rattle.std.specs.Prelude.{List};
    ghost use Rattle.depth_gather.specs.declared.entries.ResizeEntry.{ResizeEntry};

    ghost Value = { List ResizeEntry };

    ghost view = { λ list. list.entries.items };
}

impl ResizeList {
    /// Builds the list of these entries.
    pub fn new(entries: Vec<ResizeEntry>) -> ResizeList
        ensures { result ≡ entries.items }
    {
        ResizeList { entries }
    }

    /// Returns the entries.
    pub fn as_slice(&self) -> &[ResizeEntry]
        ensures { result.now ≡ self.now }
    {
        self.entries.as_slice()
    }
}

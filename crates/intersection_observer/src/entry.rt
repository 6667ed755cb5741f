//! The findings of an update, and the entries that report them.

ghost use Rattle.std.specs.Prelude.{◌≡◌};
ghost use Rattle.intersection_observer.specs.Seen.{seen_entries};

use element_tree::NodeId;
use px_units::Rect;
use std::marker::Model;
use thresholds::Ratio;

/// What an update computes for a target (Intersection Observer, 3.2: update intersection observations). Rectangles are in
/// units of 1/64 pixel.
#[derive(Clone, Copy, Debug)]
pub struct Finding {
    /// The threshold index: the number of thresholds that are at most the ratio.
    pub index: u32,
    /// Whether the target intersects the root (`isIntersecting`); touching edges count.
    pub meets: bool,
    /// The intersection ratio, as areas.
    pub ratio: Ratio,
    /// The root rectangle, in the coordinates of the root's document.
    pub root: Rect,
    /// The target's box, in the coordinates of its document, like `cut`.
    pub target: Rect,
    /// The visible part of the target (`intersectionRect`).
    pub cut: Rect,
}

/// A queued entry (Intersection Observer, 2.3: IntersectionObserverEntry).
#[derive(Clone, Copy, Debug)]
pub struct Entry {
    pub target: NodeId,
    /// The time of the update, in milliseconds.
    pub time: u64,
    pub finding: Finding,
}

/// Entries in the order in which they were queued. Contracts see them as a list.
#[derive(Drop)]
pub struct EntryList {
    entries: Vec<Entry>,
}

impl Model for EntryList {
    ghost use Rattle.std.specs.Prelude.{List};
    ghost use Rattle.page_model.specs.World.{Entry as ModelEntry};

    ghost Value = { List ModelEntry };

    ghost use Rattle.intersection_observer.specs.Seen.{seen_entries};

    ghost view = { λ list. seen_entries list.entries.items };
}

impl EntryList {
    pub(crate) fn new(entries: Vec<Entry>) -> EntryList
        ensures { result ≡ seen_entries entries.items }
    {
        EntryList { entries }
    }

    /// Returns the entries, oldest first.
    pub fn as_slice(&self) -> &[Entry]
        ensures { seen_entries result.now ≡ self.now }
    {
        self.entries.as_slice()
    }
}

//! The lines of a trace: writing them as text, and reading them back exactly.
#![tactic(auto)]

mod decimals;
mod fields;
mod kinds;
mod laws;
mod lengths;
mod read;
mod write;

pub use kinds::LineKind;
pub use laws::{line_ends_once, text_has_one_line, value_is_a_line};
use px_units::{Point, Rect, Size};
pub use read::read_line;
use text_io::{LimitKind, Name, ThrowKind};
use thiserror::Error;
pub use write::{push_field, push_number, push_rect, write_line};

/// An event that was fired.
#[derive(Clone, Copy, Debug, PartialEq, Eq)]
pub enum EventLine {
    /// `resize` at the window of this document (CSSOM View, run the resize steps).
    Resize(Name),
    /// `scroll` at this element or document (CSSOM View, run the scroll steps).
    Scroll(Name),
    /// `change` at this media query list, with whether it matches now (CSSOM View, 4.2).
    Change(Name, bool),
    /// `error` at the window of this document: a resize loop ended with undelivered observations (Resize Observer, 3.4.6).
    Error(Name),
}

/// A line of a trace. Times are ticks of the script's clock; lengths, edges and offsets are in units of 1/64 CSS pixel,
/// areas in square units.
#[derive(Clone, Copy, Debug, PartialEq, Eq)]
pub enum TraceLine {
    /// A tick begins at this time.
    Tick(u64),
    /// The document and the key of a due timer.
    Timer(Name, Name),
    /// The document and the key of a frame callback.
    Frame(Name, Name),
    /// The document and the handler of a posted task.
    Task(Name, Name),
    Event(EventLine),
    /// A resize entry: the content rectangle, whose origin is the left and top padding, the size of the border box, and, only
    /// in scripts of the second version, the size of the content box in whole device pixels, not in units.
    Resize {
        observer: Name,
        target: Name,
        rect: Rect,
        border: Size,
        device: Option<Size>,
    },
    /// A round of a document's resize loop: the document and the least depth delivered.
    Round(Name, u32),
    /// An intersection entry: `meets` is whether the target is intersecting, `part` and `whole` are the areas of the
    /// intersection and of the target, `root`, `bounds` and `cut` the rectangles of the root, the target and the intersection.
    Intersect {
        observer: Name,
        target: Name,
        time: u64,
        meets: bool,
        part: u128,
        whole: u128,
        root: Rect,
        bounds: Rect,
        cut: Rect,
    },
    /// An intersection observer's queue was taken (`takeRecords`), with this number of entries.
    Take(Name, u64),
    Say(Name),
    /// The border box of an element in its document's viewport, or the viewport of a document, and the scroll offset in force.
    Read {
        target: Name,
        rect: Rect,
        scroll: Point,
    },
    /// The script's line whose command threw, and the exception.
    Throw(u32, ThrowKind),
    /// A limit that ended the run, the script's line, and the value of the limit.
    Limit(LimitKind, u32, u64),
    /// The line and the column, from 1, of the first fault of a text that isn't a script.
    Syntax(u32, u32),
}

/// Why a text isn't a line of a trace.
#[derive(Clone, Copy, Debug, PartialEq, Eq, Error)]
pub enum TraceFault {
    /// No line has this text.
    #[error("not the text of a trace line")]
    NotALine,
}

//! The entries of a callback, their lines, and the entry that a command is run for.

ghost use Rattle.std.specs.Prelude.{◌≡◌, ◌<◌, ◌^◌, ◌∷◌, pos, unsigned_abs, map, length, IfSome, Some, None};
ghost use Rattle.script_model.specs.TraceLines.{TakeLine};
ghost use Rattle.trace_text.specs.Ranges.{HasReach, SizeReaches};
ghost use Rattle.trace_text.specs.Seen.{seen_line};
ghost use Rattle.page_model.specs.Callbacks.{SizeEntries, device_told, presents, entry_lines, resize_line};
ghost use Rattle.page_model.specs.EntryLines.{intersection_line, intersection_lines};
ghost use Rattle.page_model.specs.Names.{intersection_observer_text};
ghost use Rattle.resize_observer.specs.Observations.{seen_size};
ghost use Rattle.depth_gather.specs.Entries.{seen_entry};
ghost use Rattle.intersection_observer.specs.Seen as cuts;
ghost use Rattle.intersection_observer.specs.Seen.{seen_entries};
ghost use Rattle.intersection_update.specs.Watching.{AreWritten, IsWritten};
ghost use Rattle.trace_runs.specs.Writes.{Told};
ghost use Rattle.handlers.specs.Entries.{entries_of, present_at, subject_of, AreHanded};

use depth_gather::{ResizeEntry, ResizeList};
use element_tree::NodeId;
use event_tables::EventTarget;
use intersection_observer::{Entry, EntryList, WatcherId};
use page_state::{Label, Page};
use px_units::{Rect, Size};
use resize_observer::ObserverId;
use std::alloc::Global;
use text_io::{Sink, Version};
use trace_runs::{RunFault, write_one};
use trace_text::TraceLine;

/// The entries passed to a callback.
#[derive(Drop)]
pub enum Entries {
    /// No entries.
    Nothing,
    /// Those of a resize observer, in units of 1/64 CSS pixel (Resize Observer, 2.3: ResizeObserverEntry).
    Resize(ObserverId, ResizeList),
    /// Those of an intersection observer (Intersection Observer, 2.3: IntersectionObserverEntry).
    Intersection(WatcherId, EntryList),
}

impl Entries {
    // Returns the number of entries.
    pub(crate) fn count(&self) -> usize
        ensures { result ≡ length (presents (entries_of self.now)) }
    {
        match self {
            Entries::Nothing => 0,
            Entries::Resize(_, list) => list.as_slice().len(),
            Entries::Intersection(_, list) => list.as_slice().len(),
        }
    }
}

// The entry that a command is run for: its target, and isIntersecting if it is an intersection observer's.
#[derive(Clone, Copy)]
pub(crate) struct Subject {
    pub(crate) target: Option<NodeId>,
    pub(crate) meets: Option<bool>,
}

const NO_SUBJECT: Subject = Subject {
    target: None,
    meets: None,
};

// Returns the entry at an index, `NO_SUBJECT` if there is none.
fn entry_at(entries: &Entries, place: usize) -> Subject
    ensures { subject_of result ≡ present_at (presents (entries_of entries.now)) (Some place) }
{
    match entries {
        Entries::Nothing => NO_SUBJECT,
        Entries::Resize(_, list) => match list.as_slice().get(place) {
            None => NO_SUBJECT,
            Some(entry) => Subject {
                target: Some(entry.target),
                meets: None,
            },
        },
        Entries::Intersection(_, list) => match list.as_slice().get(place) {
            None => NO_SUBJECT,
            Some(entry) => Subject {
                target: Some(entry.target),
                meets: Some(entry.finding.meets),
            },
        },
    }
}

pub(crate) fn subject_at(entries: &Entries, place: Option<usize>) -> Subject
    ensures { subject_of result ≡ present_at (presents (entries_of entries.now)) place }
{
    match place {
        None => NO_SUBJECT,
        Some(place) => entry_at(entries, place),
    }
}

fn length_of(units: u64) -> i64
    requires { units < 2 ^ 63 }
    ensures { result ≡ pos units }
{
    units as i64
}

// The size in device pixels is written only in the second version. Its lengths are non-negative.
fn device_told(version: Version, size: Size) -> Option<Size>
    requires { IfSome (device_told version (seen_size size)) SizeReaches }
    ensures { result ≡ device_told version (seen_size size) }
{
    match version {
        Version::First => None,
        Version::Second => Some(Size {
            width: length_of(size.width.unsigned_abs()),
            height: length_of(size.height.unsigned_abs()),
        }),
    }
}

// Returns the line of an entry, whose lengths are non-negative.
fn resize_line(page: &Page, observer: ObserverId, entry: &ResizeEntry) -> TraceLine
    requires caller { observer.0 < length page.now.world.resize_observers.made }
    requires target { entry.now.target.0 < length page.now.world.tree.elements }
    requires reach { HasReach (resize_line page.now.world.version page.now.world.names observer.0 (seen_entry entry.now)) }
    ensures { seen_line result ≡ resize_line page.now.world.version page.now.world.names observer.0 (seen_entry entry.now) }
{
    let left = entry.corner.left.unsigned_abs();
    let top = entry.corner.top.unsigned_abs();
    TraceLine::Resize {
        observer: page.label(Label::Observer(observer)),
        target: page.label(Label::Target(EventTarget::Node(entry.target))),
        rect: Rect {
            left: length_of(left),
            top: length_of(top),
            right: length_of(left + entry.content.width.unsigned_abs()),
            bottom: length_of(top + entry.content.height.unsigned_abs()),
        },
        border: Size {
            width: length_of(entry.border.width.unsigned_abs()),
            height: length_of(entry.border.height.unsigned_abs()),
        },
        device: device_told(page.version(), entry.device),
    }
}

// Writes the lines of the entries of a resize observer.
fn write_sizes<K: Sink>(
    alloc: Global,
    page: &Page,
    observer: ObserverId,
    entries: &[ResizeEntry],
    sink: &mut K,
) -> Result<(), RunFault>
    requires { AreHanded page.now.world (SizeEntries observer.0 (map seen_entry entries.now)) }
    ensures { Told result (K.taken sink.old) (K.taken sink.new) (K.faults sink.old) (K.faults sink.new)
        (map (resize_line page.now.world.version page.now.world.names observer.0) (map seen_entry entries.now)) }
{
    for entry in entries {
        let line = resize_line(page, observer, entry);
        if let Err(fault) = write_one(alloc, &line, sink) {
            return Err(fault);
        }
    }
    Ok(())
}

// Returns the line of an entry of an intersection observer.
#[tactic(auto, unfolding(page_model::specs::EntryLines::intersection_line))]
fn intersection_line(page: &Page, observer: WatcherId, entry: &Entry) -> TraceLine
    requires caller { observer.0 < length page.now.world.intersection_observers.made }
    requires written { IsWritten (length page.now.world.tree.elements) (cuts.seen_entry entry.now) }
    ensures { seen_line result ≡ intersection_line page.now.world.names observer.0 (cuts.seen_entry entry.now) }
{
    let finding = entry.finding;
    TraceLine::Intersect {
        observer: page.label(Label::Watcher(observer)),
        target: page.label(Label::Target(EventTarget::Node(entry.target))),
        time: entry.time,
        meets: finding.meets,
        part: finding.ratio.part,
        whole: finding.ratio.whole,
        root: finding.root,
        bounds: finding.target,
        cut: finding.cut,
    }
}

// Writes the lines of the entries of an intersection observer.
fn write_cuts<K: Sink>(
    alloc: Global,
    page: &Page,
    observer: WatcherId,
    entries: &[Entry],
    sink: &mut K,
) -> Result<(), RunFault>
    requires caller { observer.0 < length page.now.world.intersection_observers.made }
    requires written { AreWritten (length page.now.world.tree.elements) (seen_entries entries.now) }
    ensures { Told result (K.taken sink.old) (K.taken sink.new) (K.faults sink.old) (K.faults sink.new)
        (intersection_lines page.now.world.names observer.0 (seen_entries entries.now)) }
{
    for entry in entries {
        let line = intersection_line(page, observer, entry);
        if let Err(fault) = write_one(alloc, &line, sink) {
            return Err(fault);
        }
    }
    Ok(())
}

/// Writes the number of entries taken from the queue of an intersection observer, and then their lines (Intersection
/// Observer, 2.2: `takeRecords`).
pub(crate) fn write_taken<K: Sink>(
    alloc: Global,
    page: &Page,
    observer: WatcherId,
    entries: &EntryList,
    sink: &mut K,
) -> Result<(), RunFault>
    requires caller { observer.0 < length page.now.world.intersection_observers.made }
    requires written { AreWritten (length page.now.world.tree.elements) entries.now }
    ensures { Told result (K.taken sink.old) (K.taken sink.new) (K.faults sink.old) (K.faults sink.new)
        (TakeLine (intersection_observer_text page.now.world.names observer.0) (length entries.now)
        ∷ intersection_lines page.now.world.names observer.0 entries.now) }
{
    let entries = entries.as_slice();
    let name = page.label(Label::Watcher(observer));
    match write_one(alloc, &TraceLine::Take(name, entries.len() as u64), sink) {
        Ok(()) => write_cuts(alloc, page, observer, entries, sink),
        Err(fault) => Err(fault),
    }
}

/// Writes the lines of the entries, before their callback is called.
pub(crate) fn write_entries<K: Sink>(
    alloc: Global,
    page: &Page,
    entries: &Entries,
    sink: &mut K,
) -> Result<(), RunFault>
    requires { AreHanded page.now.world (entries_of entries.now) }
    ensures { Told result (K.taken sink.old) (K.taken sink.new) (K.faults sink.old) (K.faults sink.new)
        (entry_lines page.now.world.version page.now.world.names (entries_of entries.now)) }
{
    match entries {
        Entries::Nothing => Ok(()),
        Entries::Resize(observer, list) => {
            write_sizes(alloc, page, *observer, list.as_slice(), sink)
        }
        Entries::Intersection(observer, list) => {
            write_cuts(alloc, page, *observer, list.as_slice(), sink)
        }
    }
}

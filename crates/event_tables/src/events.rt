//! Event targets, handlers and tasks.

ghost use Rattle.std.specs.Prelude.{◌≡◌};
ghost use Rattle.page_model.specs.Listeners.{is_same_target, is_same_event};
ghost use Rattle.page_model.specs.Tasks.{is_posted};
ghost use Rattle.event_tables.specs.Seen.{seen_target, seen_key, seen_task};

use element_tree::{DocumentId, NodeId};
use text_io::EventKind;

/// An event target: an element, a document, a document's window, or a media query list.
#[derive(Clone, Copy, PartialEq, Eq, Debug)]
pub enum EventTarget {
    Node(NodeId),
    Document(DocumentId),
    Window(DocumentId),
    Query(u32),
}

/// The id of a handler: its number, from 0 in the script's order.
#[derive(Clone, Copy, PartialEq, Eq, Hash, Debug)]
pub struct HandlerId(pub u32);

/// A queued task: to notify the intersection observers of a document, or to call a handler for a document.
#[derive(Clone, Copy, PartialEq, Eq, Debug)]
pub enum Task {
    Notify(DocumentId),
    Posted(DocumentId, HandlerId),
}

/// An event target as a part of a key.
#[derive(Clone, Copy, PartialEq, Eq, Hash)]
pub(crate) enum TargetKey {
    Node(u32),
    Document(DocumentId),
    Window(DocumentId),
    Query(u32),
}

impl TargetKey {
    pub(crate) fn of(target: EventTarget) -> TargetKey
        ensures { seen_key result ≡ seen_target target }
    {
        match target {
            EventTarget::Node(node) => TargetKey::Node(node.0),
            EventTarget::Document(document) => TargetKey::Document(document),
            EventTarget::Window(document) => TargetKey::Window(document),
            EventTarget::Query(query) => TargetKey::Query(query),
        }
    }
}

pub(crate) fn is_same_target(one: EventTarget, other: TargetKey) -> bool
    ensures { result ≡ is_same_target (seen_target one) (seen_key other) }
{
    match (one, other) {
        (EventTarget::Node(one), TargetKey::Node(other)) => one.0 == other,
        (EventTarget::Document(one), TargetKey::Document(other)) => one.0 == other.0,
        (EventTarget::Window(one), TargetKey::Window(other)) => one.0 == other.0,
        (EventTarget::Query(one), TargetKey::Query(other)) => one == other,
        _ => false,
    }
}

pub(crate) fn is_same_kind(one: EventKind, other: EventKind) -> bool
    ensures { result ≡ is_same_event one other }
{
    match (one, other) {
        (EventKind::Resize, EventKind::Resize) => true,
        (EventKind::Scroll, EventKind::Scroll) => true,
        (EventKind::Error, EventKind::Error) => true,
        (EventKind::Change, EventKind::Change) => true,
        _ => false,
    }
}

pub(crate) fn is_posted(task: Task) -> bool
    ensures { result ≡ is_posted (seen_task task) }
{
    match task {
        Task::Notify(_) => false,
        Task::Posted(..) => true,
    }
}

//! What a name refers to, and conversions to what a command expects.

ghost use Rattle.std.specs.Prelude.{◌≡◌, ◌<◌, IfOk};
ghost use Rattle.element_tree.specs.Documents.{document_number};
ghost use Rattle.element_tree.specs.Links.{number};
ghost use Rattle.page_model.specs.Operands.{as_document, as_element, as_container, as_resize_observer, as_intersection_observer, as_query_list, as_event_target};
ghost use Rattle.page_model.specs.Ranges.{Counts, IsThingIn, IsEventTargetIn};
ghost use Rattle.container_model.specs.Seen.{seen_container};
ghost use Rattle.event_tables.specs.Seen.{seen_target};
ghost use Rattle.page_names.specs.Answers.{Finds};
ghost use Rattle.page_names.specs.Known.{seen_key};
ghost use Rattle.page_names.specs.Things.{seen_thing, IsContainerBelow};

use element_tree::{Container, DocumentId, NodeId};
use event_tables::EventTarget;
use intersection_observer::WatcherId;
use resize_observer::ObserverId;
use text_io::ThrowKind;

/// What a name refers to.
#[derive(Clone, Copy, Debug, PartialEq, Eq)]
pub enum Thing {
    Document(DocumentId),
    Element(NodeId),
    ResizeObserver(ObserverId),
    IntersectionObserver(WatcherId),
    QueryList(u32),
}

/// A thing as a key.
#[derive(Clone, Copy, PartialEq, Eq, Hash)]
pub(crate) enum ThingKey {
    Document(DocumentId),
    Element(u32),
    ResizeObserver(u32),
    IntersectionObserver(u32),
    QueryList(u32),
}

impl ThingKey {
    pub(crate) fn of(thing: Thing) -> ThingKey
        ensures { seen_key result ≡ seen_thing thing }
    {
        match thing {
            Thing::Document(document) => ThingKey::Document(document),
            Thing::Element(node) => ThingKey::Element(node.0),
            Thing::ResizeObserver(observer) => ThingKey::ResizeObserver(observer.0),
            Thing::IntersectionObserver(watcher) => ThingKey::IntersectionObserver(watcher.0),
            Thing::QueryList(query) => ThingKey::QueryList(query),
        }
    }
}

pub(crate) fn as_document(thing: Thing) -> Result<DocumentId, ThrowKind>
    ensures answer { Finds document_number result (as_document (seen_thing thing)) }
    ensures held { (counts : Counts) → IsThingIn counts (seen_thing thing) → IfOk result (λ document. document.0 < counts.documents) }
{
    match thing {
        Thing::Document(document) => Ok(document),
        Thing::Element(_)
        | Thing::ResizeObserver(_)
        | Thing::IntersectionObserver(_)
        | Thing::QueryList(_) => Err(ThrowKind::TypeError),
    }
}

pub(crate) fn as_observer(thing: Thing) -> Result<ObserverId, ThrowKind>
    ensures answer { Finds (λ (observer : ObserverId). observer.0) result (as_resize_observer (seen_thing thing)) }
    ensures held { (counts : Counts) → IsThingIn counts (seen_thing thing) → IfOk result (λ observer. observer.0 < counts.resize_observers) }
{
    match thing {
        Thing::ResizeObserver(observer) => Ok(observer),
        Thing::Document(_)
        | Thing::Element(_)
        | Thing::IntersectionObserver(_)
        | Thing::QueryList(_) => Err(ThrowKind::TypeError),
    }
}

pub(crate) fn as_watcher(thing: Thing) -> Result<WatcherId, ThrowKind>
    ensures answer { Finds (λ (watcher : WatcherId). watcher.0) result (as_intersection_observer (seen_thing thing)) }
    ensures held { (counts : Counts) → IsThingIn counts (seen_thing thing) → IfOk result (λ watcher. watcher.0 < counts.intersection_observers) }
{
    match thing {
        Thing::IntersectionObserver(watcher) => Ok(watcher),
        Thing::Document(_) | Thing::Element(_) | Thing::ResizeObserver(_) | Thing::QueryList(_) => {
            Err(ThrowKind::TypeError)
        }
    }
}

pub(crate) fn as_element(thing: Thing) -> Result<NodeId, ThrowKind>
    ensures answer { Finds number result (as_element (seen_thing thing)) }
    ensures held { (counts : Counts) → IsThingIn counts (seen_thing thing) → IfOk result (λ node. node.0 < counts.elements) }
{
    match thing {
        Thing::Element(node) => Ok(node),
        Thing::Document(_)
        | Thing::ResizeObserver(_)
        | Thing::IntersectionObserver(_)
        | Thing::QueryList(_) => Err(ThrowKind::TypeError),
    }
}

pub(crate) fn as_container(thing: Thing) -> Result<Container, ThrowKind>
    ensures answer { Finds seen_container result (as_container (seen_thing thing)) }
    ensures held { (counts : Counts) → IsThingIn counts (seen_thing thing) → IfOk result (IsContainerBelow counts) }
{
    match thing {
        Thing::Element(node) => Ok(Container::Element(node)),
        Thing::Document(document) => Ok(Container::Document(document)),
        Thing::ResizeObserver(_) | Thing::IntersectionObserver(_) | Thing::QueryList(_) => {
            Err(ThrowKind::TypeError)
        }
    }
}

pub(crate) fn as_query_list(thing: Thing) -> Result<u32, ThrowKind>
    ensures answer { Finds (λ query. query) result (as_query_list (seen_thing thing)) }
    ensures held { (counts : Counts) → IsThingIn counts (seen_thing thing) → IfOk result (λ query. query < counts.queries) }
{
    match thing {
        Thing::QueryList(query) => Ok(query),
        Thing::Document(_)
        | Thing::Element(_)
        | Thing::ResizeObserver(_)
        | Thing::IntersectionObserver(_) => Err(ThrowKind::TypeError),
    }
}

pub(crate) fn as_event_target(thing: Thing) -> Result<EventTarget, ThrowKind>
    ensures answer { Finds seen_target result (as_event_target (seen_thing thing)) }
    ensures held { (counts : Counts) → IsThingIn counts (seen_thing thing) → IfOk result (λ target. IsEventTargetIn counts (seen_target target)) }
{
    match thing {
        Thing::Element(node) => Ok(EventTarget::Node(node)),
        Thing::Document(document) => Ok(EventTarget::Document(document)),
        Thing::QueryList(query) => Ok(EventTarget::Query(query)),
        Thing::ResizeObserver(_) | Thing::IntersectionObserver(_) => Err(ThrowKind::TypeError),
    }
}

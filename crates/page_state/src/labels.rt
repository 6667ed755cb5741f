//! The names in trace lines, and the document and handler of what they name.

ghost use Rattle.std.specs.Prelude.{◌≡◌, option_map};
ghost use Rattle.page_state.specs.Labels.{label_text, label_document, label_handler, IsLabelIn, IsCallerIn};

use crate::page::Page;
use element_tree::DocumentId;
use event_tables::{EventTarget, HandlerId};
use intersection_observer::WatcherId;
use resize_observer::ObserverId;
use text_io::Name;

/// A named object of a page.
#[derive(Clone, Copy, Debug, PartialEq, Eq)]
pub enum Label {
    /// An event target: an element, a document or its window, or a media query list.
    Target(EventTarget),
    /// A resize observer.
    Observer(ObserverId),
    /// An intersection observer.
    Watcher(WatcherId),
}

impl Page {
    /// Returns the name of a thing of this page; that of a window is its document's.
    pub fn label(&self, of: Label) -> Name
        requires { IsLabelIn self.now.world of }
        ensures { result ≡ label_text self.now.world of }
    {
        match of {
            Label::Target(EventTarget::Node(node)) => self.laid.page().name_of(node),
            Label::Target(EventTarget::Document(document) | EventTarget::Window(document)) => {
                self.document_name(document)
            }
            Label::Target(EventTarget::Query(query)) => self.query_list_name(query),
            Label::Observer(observer) => self.observer_name(observer),
            Label::Watcher(watcher) => self.watcher_name(watcher),
        }
    }

    /// Returns the document that decides whether the callbacks of a thing are called, and an observer's handler if it has
    /// one; event targets have no handler of their own. `top` for a query list that doesn't exist.
    pub fn callback_of(&self, of: Label) -> (DocumentId, Option<HandlerId>)
        requires { IsCallerIn self.now.world of }
        ensures document { result.0.0 ≡ label_document self.now.world of }
        ensures handler { option_map (λ handler. handler.0) result.1 ≡ label_handler self.now.world of }
    {
        match of {
            Label::Target(EventTarget::Node(node)) => (self.laid.page().document_of(node), None),
            Label::Target(EventTarget::Document(document) | EventTarget::Window(document)) => {
                (document, None)
            }
            Label::Target(EventTarget::Query(query)) => match self.queries.get(query as usize) {
                Some(list) => (list.document, None),
                None => (DocumentId(0), None),
            },
            Label::Observer(observer) => {
                let handler = self.observers.handler(observer);
                (self.observers.document(observer), handler.map(HandlerId))
            }
            Label::Watcher(watcher) => {
                let handler = self.watchers.handler_of(watcher);
                (self.watchers.document_of(watcher), handler.map(HandlerId))
            }
        }
    }
}

//! Operands and names looked up on a page; what is found exists. None of these calls allocates.

ghost use Rattle.std.specs.Prelude.{◌<◌, length, option_map, IfOk};
ghost use Rattle.element_tree.specs.Documents.{document_number};
ghost use Rattle.element_tree.specs.Links.{number};
ghost use Rattle.script_model.specs.Syntax.{Named};
ghost use Rattle.page_model.specs.Operands.{NoEntry, document_named, element_meant, container_meant, resize_observer_named, intersection_observer_named, query_list_named, root_meant, event_target_meant};
ghost use Rattle.container_model.specs.Seen.{seen_container};
ghost use Rattle.event_tables.specs.Seen.{seen_target};
ghost use Rattle.page_state.specs.Labels.{IsIn};
ghost use Rattle.intersection_observer.specs.declared.root.WatcherId.{WatcherId};
ghost use Rattle.intersection_observer.specs.Seen.{seen_root};
ghost use Rattle.resize_observer.specs.declared.observation.ObserverId.{ObserverId};
ghost use Rattle.script_syntax.specs.Seen.{operand_of, aim_of};
ghost use Rattle.page_names.specs.Answers.{Finds};
ghost use Rattle.page_names.specs.Things.{present_of, IsSubject};

use crate::page::Page;
use element_tree::{Container, DocumentId, NodeId};
use event_tables::EventTarget;
use intersection_observer::{Root, WatcherId};
use resize_observer::ObserverId;
use script_syntax::{Aim, Operand};
use text_io::{Name, ThrowKind};

impl Page {
    /// Returns the document with this name: a `ReferenceError` if the name refers to nothing, a `TypeError` if it refers to
    /// something else.
    pub fn document(&self, name: Name) -> Result<DocumentId, ThrowKind>
        ensures answer { Finds document_number result (document_named self.now.world.names name) }
        ensures there { IfOk result (λ document. document.0 < length self.now.world.tree.documents) }
    {
        self.names.document(name)
    }

    /// Returns the element with this name, with the same exceptions.
    pub fn element_named(&self, name: Name) -> Result<NodeId, ThrowKind>
        ensures answer { Finds number result (element_meant self.now.world.names NoEntry (Named name)) }
        ensures there { IfOk result (λ node. node.0 < length self.now.world.tree.elements) }
    {
        self.element(Operand::Named(name), None)
    }

    pub(crate) fn element(
        &self,
        operand: Operand,
        subject: Option<NodeId>,
    ) -> Result<NodeId, ThrowKind>
        requires { IsSubject (length self.now.world.tree.elements) subject }
        ensures answer { Finds number result (element_meant self.now.world.names (present_of subject) (operand_of operand)) }
        ensures there { IfOk result (λ node. node.0 < length self.now.world.tree.elements) }
    {
        self.names.element(operand, subject)
    }

    pub(crate) fn container(
        &self,
        operand: Operand,
        subject: Option<NodeId>,
    ) -> Result<Container, ThrowKind>
        requires { IsSubject (length self.now.world.tree.elements) subject }
        ensures answer { Finds seen_container result (container_meant self.now.world.names (present_of subject) (operand_of operand)) }
        ensures there { IfOk result (λ container. IsIn self.now.world container) }
    {
        self.names.container(operand, subject)
    }

    /// Returns the resize observer with this name, with the same exceptions.
    pub fn observer(&self, name: Name) -> Result<ObserverId, ThrowKind>
        ensures answer { Finds (λ (observer : ObserverId). observer.0) result (resize_observer_named self.now.world.names name) }
        ensures there { IfOk result (λ observer. observer.0 < length self.now.world.resize_observers.made) }
    {
        self.names.observer(name)
    }

    /// Returns the intersection observer with this name, with the same exceptions.
    pub fn watcher(&self, name: Name) -> Result<WatcherId, ThrowKind>
        ensures answer { Finds (λ (watcher : WatcherId). watcher.0) result (intersection_observer_named self.now.world.names name) }
        ensures there { IfOk result (λ watcher. watcher.0 < length self.now.world.intersection_observers.made) }
    {
        self.names.watcher(name)
    }

    // Returns the root of an intersection observer, the implicit one if none is named.
    pub(crate) fn root(
        &self,
        operand: Option<Operand>,
        subject: Option<NodeId>,
    ) -> Result<Root, ThrowKind>
        requires { IsSubject (length self.now.world.tree.elements) subject }
        ensures { Finds seen_root result (root_meant self.now.world.names (present_of subject) (option_map operand_of operand)) }
    {
        let Some(operand) = operand else {
            return Ok(Root::Implicit);
        };
        match self.container(operand, subject) {
            Ok(Container::Element(node)) => Ok(Root::Node(node)),
            Ok(Container::Document(document)) => Ok(Root::Document(document)),
            Err(kind) => Err(kind),
        }
    }

    /// Returns the number of the media query list with this name, with the same exceptions.
    pub fn query_list(&self, name: Name) -> Result<u32, ThrowKind>
        ensures answer { Finds (λ query. query) result (query_list_named self.now.world.names name) }
        ensures there { IfOk result (λ query. query < length self.now.world.queries) }
    {
        self.names.query_list(name)
    }

    pub(crate) fn event_target(
        &self,
        aim: Aim,
        subject: Option<NodeId>,
    ) -> Result<EventTarget, ThrowKind>
        requires { IsSubject (length self.now.world.tree.elements) subject }
        ensures { Finds seen_target result (event_target_meant self.now.world.names (present_of subject) (aim_of aim)) }
    {
        self.names.event_target(aim, subject)
    }
}

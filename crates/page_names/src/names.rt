//! The names of a page's objects.

ghost use Rattle.std.specs.Prelude.{List, ◌≡◌, ◌+◌, ◌<◌, ◌≤◌, ◌++◌, bytes_eq, false, ◌∷◌, [], find, option_map, None, IfOk, OnOk, OnErr, IsOk};
ghost use Rattle.indexmap.specs.IndexMap.{spare};
ghost use Rattle.element_tree.specs.Documents.{document_number};
ghost use Rattle.element_tree.specs.Links.{number};
ghost use Rattle.page_model.specs.World.{Name as ModelName};
ghost use Rattle.page_model.specs.Names.{named_thing, is_same_thing};
ghost use Rattle.page_model.specs.Operands.{new_name, thing_named, other_new_name, operand_thing, document_named, element_meant, container_meant, resize_observer_named, intersection_observer_named, query_list_named, event_target_meant};
ghost use Rattle.page_model.specs.Ranges.{Counts, IsThingIn, IsEventTargetIn};
ghost use Rattle.container_model.specs.Seen.{seen_container};
ghost use Rattle.event_tables.specs.Seen.{seen_target};
ghost use Rattle.script_syntax.specs.Seen.{operand_of, aim_of};
ghost use Rattle.page_names.specs.Answers.{Finds};
ghost use Rattle.page_names.specs.Known.{seen_key, AreFirst};
ghost use Rattle.page_names.specs.Things.{seen_thing, present_of, AreIn, IsSubject, IsContainerBelow};

use crate::Thing;
use crate::thing::{
    ThingKey, as_container, as_document, as_element, as_event_target, as_observer, as_query_list,
    as_watcher,
};
use element_tree::{Container, DocumentId, NodeId};
use event_tables::EventTarget;
use indexmap::IndexMap;
use intersection_observer::WatcherId;
use resize_observer::ObserverId;
use script_syntax::{Aim, Operand};
use std::alloc::{AllocError, Global};
use std::marker::Model;
use text_io::{Name, ThrowKind};

/// The names in the order in which they were assigned. Look-ups in both directions hash; none scans the list.
#[derive(Drop)]
pub struct Names {
    things: IndexMap<Name, Thing>,
    // The first name of each thing that has one, for trace lines.
    firsts: IndexMap<ThingKey, Name>,
}

impl Model for Names {
    ghost use Rattle.std.specs.Prelude.{map, min};
    ghost use Rattle.indexmap.specs.IndexMap.{spare};
    ghost use Rattle.page_names.specs.Known.{KnownNames};

    ghost Value = { KnownNames };

    ghost use Rattle.page_names.specs.Known.{AreFirst};
    ghost use Rattle.page_names.specs.Things.{seen_entry};

    ghost view = { λ n. record { list = map seen_entry n.things.entries; room = min (spare n.things) (spare n.firsts) } };

    ghost invariant = { λ n. AreFirst (map seen_entry n.things.entries) n.firsts.entries };
}

impl Names {
    /// Creates an empty set of names; allocates nothing.
    pub fn new(alloc: Global) -> Names
        ensures { result.list ≡ [] }
    {
        Names {
            things: IndexMap::new(alloc),
            firsts: IndexMap::new(alloc),
        }
    }

    /// Returns what a name refers to, `None` if it is free.
    #[tactic(auto, using(crate::proofs::Found::found_thing))]
    pub fn thing_of(&self, name: Name) -> Option<Thing>
        ensures { option_map seen_thing result ≡ named_thing self.now.list name }
    {
        match self.things.get(&name) {
            Some(thing) => Some(*thing),
            None => None,
        }
    }

    /// Reserves capacity for `count` names, so that assigning them doesn't allocate. The capacity never shrinks, not even if
    /// an allocation fails, and none is needed if there already is enough.
    pub fn reserve(&mut self, count: usize) -> Result<(), AllocError>
        ensures roomy { OnOk result (count ≤ self.new.room) }
        ensures same { self.new.list ≡ self.old.list }
        ensures kept { self.old.room ≤ self.new.room }
        ensures there { count ≤ self.old.room → IsOk result }
    {
        self.things.reserve(count)?;
        self.firsts.reserve(count)
    }

    /// Assigns a name, which must be free.
    pub fn insert(&mut self, name: Name, thing: Thing) -> Result<(), AllocError>
        requires { named_thing self.old.list name ≡ None }
        ensures given { OnOk result (self.new.list ≡ self.old.list ++ record { text = name; thing = seen_thing thing } ∷ []) }
        ensures same { OnErr result (self.new.list ≡ self.old.list) }
        ensures roomy { 0 < self.old.room → IsOk result }
        ensures left { self.old.room ≤ self.new.room + 1 }
    {
        self.firsts.reserve(1)?;
        let Ok(_) = self.things.insert(name, thing) else {
            return Err(AllocError);
        };
        keep_first(&mut self.firsts, ThingKey::of(thing), name);
        Ok(())
    }

    /// Returns the name of a thing: the first that refers to it.
    pub fn name_of(&self, thing: Thing) -> Option<Name>
        ensures { result ≡ option_map (λ (named : ModelName). named.text) (find (λ (named : ModelName). is_same_thing named.thing (seen_thing thing)) self.now.list) }
    {
        self.firsts.get(&ThingKey::of(thing)).copied()
    }

    /// Checks that a new name is free: a `TypeError` if it isn't.
    pub fn check_free(&self, name: Name) -> Result<(), ThrowKind>
        ensures answer { Finds (λ done. done) result (new_name self.now.list name) }
        ensures free { OnOk result (named_thing self.now.list name ≡ None) }
    {
        match self.thing_of(name) {
            Some(_) => Err(ThrowKind::TypeError),
            None => Ok(()),
        }
    }

    /// Checks that a second new name of one command is also free and differs from the first: a `TypeError` if not.
    pub fn check_also_free(&self, first: Name, name: Name) -> Result<(), ThrowKind>
        ensures answer { Finds (λ done. done) result (other_new_name self.now.list first name) }
        ensures free { OnOk result (named_thing self.now.list name ≡ None) }
        ensures other { OnOk result (bytes_eq first name ≡ false) }
    {
        if first == name {
            return Err(ThrowKind::TypeError);
        }
        self.check_free(name)
    }

    fn thing_named(&self, name: Name) -> Result<Thing, ThrowKind>
        ensures answer { Finds seen_thing result (thing_named self.now.list name) }
        ensures held { (counts : Counts) → AreIn counts self.now.list → IfOk result (λ thing. IsThingIn counts (seen_thing thing)) }
    {
        match self.thing_of(name) {
            Some(thing) => Ok(thing),
            None => Err(ThrowKind::ReferenceError),
        }
    }

    /// Returns the document with this name: a `ReferenceError` if the name refers to nothing, a `TypeError` if it refers to
    /// something else.
    pub fn document(&self, name: Name) -> Result<DocumentId, ThrowKind>
        ensures answer { Finds document_number result (document_named self.now.list name) }
        ensures held { (counts : Counts) → AreIn counts self.now.list → IfOk result (λ document. document.0 < counts.documents) }
    {
        match self.thing_named(name) {
            Ok(thing) => as_document(thing),
            Err(kind) => Err(kind),
        }
    }

    /// Returns the resize observer with this name, with the same exceptions.
    pub fn observer(&self, name: Name) -> Result<ObserverId, ThrowKind>
        ensures answer { Finds (λ (observer : ObserverId). observer.0) result (resize_observer_named self.now.list name) }
        ensures held { (counts : Counts) → AreIn counts self.now.list → IfOk result (λ observer. observer.0 < counts.resize_observers) }
    {
        match self.thing_named(name) {
            Ok(thing) => as_observer(thing),
            Err(kind) => Err(kind),
        }
    }

    /// Returns the intersection observer with this name, with the same exceptions.
    pub fn watcher(&self, name: Name) -> Result<WatcherId, ThrowKind>
        ensures answer { Finds (λ (watcher : WatcherId). watcher.0) result (intersection_observer_named self.now.list name) }
        ensures held { (counts : Counts) → AreIn counts self.now.list → IfOk result (λ watcher. watcher.0 < counts.intersection_observers) }
    {
        match self.thing_named(name) {
            Ok(thing) => as_watcher(thing),
            Err(kind) => Err(kind),
        }
    }

    /// Returns the query list with this name, with the same exceptions.
    pub fn query_list(&self, name: Name) -> Result<u32, ThrowKind>
        ensures answer { Finds (λ query. query) result (query_list_named self.now.list name) }
        ensures held { (counts : Counts) → AreIn counts self.now.list → IfOk result (λ query. query < counts.queries) }
    {
        match self.thing_named(name) {
            Ok(thing) => as_query_list(thing),
            Err(kind) => Err(kind),
        }
    }

    // Returns what an operand refers to: `$target` is the target of the present entry.
    fn thing(&self, operand: Operand, subject: Option<NodeId>) -> Result<Thing, ThrowKind>
        ensures answer { Finds seen_thing result (operand_thing self.now.list (present_of subject) (operand_of operand)) }
        ensures held { (counts : Counts) → AreIn counts self.now.list → IsSubject counts.elements subject → IfOk result (λ thing. IsThingIn counts (seen_thing thing)) }
    {
        match operand {
            Operand::Named(name) => self.thing_named(name),
            Operand::Target => match subject {
                Some(node) => Ok(Thing::Element(node)),
                None => Err(ThrowKind::ReferenceError),
            },
        }
    }

    /// Returns the element that an operand refers to, with the same exceptions; a `ReferenceError` for `$target` without a
    /// present entry.
    pub fn element(&self, operand: Operand, subject: Option<NodeId>) -> Result<NodeId, ThrowKind>
        ensures answer { Finds number result (element_meant self.now.list (present_of subject) (operand_of operand)) }
        ensures held { (counts : Counts) → AreIn counts self.now.list → IsSubject counts.elements subject → IfOk result (λ node. node.0 < counts.elements) }
    {
        match self.thing(operand, subject) {
            Ok(thing) => as_element(thing),
            Err(kind) => Err(kind),
        }
    }

    /// Returns the element or document that an operand refers to, with the same exceptions.
    pub fn container(
        &self,
        operand: Operand,
        subject: Option<NodeId>,
    ) -> Result<Container, ThrowKind>
        ensures answer { Finds seen_container result (container_meant self.now.list (present_of subject) (operand_of operand)) }
        ensures held { (counts : Counts) → AreIn counts self.now.list → IsSubject counts.elements subject → IfOk result (IsContainerBelow counts) }
    {
        match self.thing(operand, subject) {
            Ok(thing) => as_container(thing),
            Err(kind) => Err(kind),
        }
    }

    /// Returns the event target that an operand refers to: an element, a document, a query list, or the window of a document.
    pub fn event_target(&self, aim: Aim, subject: Option<NodeId>) -> Result<EventTarget, ThrowKind>
        ensures answer { Finds seen_target result (event_target_meant self.now.list (present_of subject) (aim_of aim)) }
        ensures held { (counts : Counts) → AreIn counts self.now.list → IsSubject counts.elements subject → IfOk result (λ target. IsEventTargetIn counts (seen_target target)) }
    {
        match aim {
            Aim::Plain(operand) => match self.thing(operand, subject) {
                Ok(thing) => as_event_target(thing),
                Err(kind) => Err(kind),
            },
            Aim::Window(document) => match self.document(document) {
                Ok(document) => Ok(EventTarget::Window(document)),
                Err(kind) => Err(kind),
            },
        }
    }
}

// Stores the name of a thing, unless the thing already has one. There is capacity for it.
fn keep_first(firsts: &mut IndexMap<ThingKey, Name>, key: ThingKey, name: Name)
    requires { 0 < spare firsts.old }
    ensures kept { (names : List ModelName) → AreFirst names firsts.old.entries → AreFirst (names ++ record { text = name; thing = seen_key key } ∷ []) firsts.new.entries }
    ensures left { spare firsts.old ≤ spare firsts.new + 1 }
{
    if !firsts.contains_key(&key) {
        firsts.insert(key, name).unwrap();
    }
}

//! One observer with its registrations and its queue.

ghost use Rattle.std.specs.Prelude.{◌≡◌, ◌-◌, slice_get, ◌∷◌, ◌++◌, [], false, true, None, IfSome, map, option_map, length, Ok, OnOk, OnErr};
ghost use Rattle.page_model.specs.World.{Registration};
ghost use Rattle.page_model.specs.IntersectionObserving.{is_registered};
ghost use Rattle.page_model.specs.Intersections.{is_news};
ghost use Rattle.intersection_observer.specs.Seen.{seen_root, seen_entries, seen_finding, seen_registration, serial_numbers};
ghost use Rattle.intersection_observer.specs.Settling.{settled_at, is_news_of};
ghost use Rattle.intersection_observer.specs.Watchers.{serial_of, without_target};
ghost use Rattle.intersection_observer.specs.Answers.{Settles};
ghost use Rattle.intersection_observer.specs.declared.registration.Settled.TheVariants.{Kept};

use crate::registration::Registered;
use crate::{Entry, EntryList, Finding, RegistrationId, Root, Settled};
use element_tree::{DocumentId, NodeId};
use indexmap::IndexMap;
use std::alloc::{AllocError, Global};
use std::marker::Model;
use std::mem;
use thresholds::{Margins, Thresholds};

#[derive(Drop)]
pub(crate) struct Watcher {
    document: DocumentId,
    handler: Option<u32>,
    root: Root,
    margins: Margins,
    thresholds: Thresholds,
    // By target, in order of observing. `names` has their ids in the same order, so that they can be borrowed as a slice.
    registered: IndexMap<u32, Registered>,
    names: Vec<RegistrationId>,
    queue: Vec<Entry>,
}

impl Model for Watcher {
    ghost use Rattle.std.specs.Prelude.{◌≡◌, map};
    ghost use Rattle.page_model.specs.World.{Registration, IntersectionObserver};

    ghost Value = { IntersectionObserver };

    ghost use Rattle.intersection_observer.specs.Seen.{seen_root, seen_registration, seen_entries, serial_numbers};

    ghost view = { λ w. record { document = w.document.0; handler = w.handler; root = seen_root w.root; margins = w.margins; thresholds = w.thresholds; registrations = map seen_registration w.registered.entries; queue = seen_entries w.queue.items } };

    ghost invariant = { λ w. serial_numbers w.names.items ≡ map (λ (it : Registration). it.serial) (map seen_registration w.registered.entries) };
}

impl Watcher {
    pub(crate) fn new(
        alloc: Global,
        document: DocumentId,
        handler: Option<u32>,
        root: Root,
        margins: Margins,
        thresholds: Thresholds,
    ) -> Watcher
        ensures { result ≡ record { document = document.0; handler = handler; root = seen_root root; margins = margins; thresholds = thresholds; registrations = []; queue = [] } }
    {
        Watcher {
            document,
            handler,
            root,
            margins,
            thresholds,
            registered: IndexMap::new(alloc),
            names: Vec::new(alloc),
            queue: Vec::new(alloc),
        }
    }

    pub(crate) fn document(&self) -> DocumentId
        ensures { result.0 ≡ self.now.document }
    {
        self.document
    }

    pub(crate) fn handler(&self) -> Option<u32>
        ensures { result ≡ self.now.handler }
    {
        self.handler
    }

    pub(crate) fn root(&self) -> Root
        ensures { seen_root result ≡ self.now.root }
    {
        self.root
    }

    pub(crate) fn margins(&self) -> &Margins
        ensures { result.now ≡ self.now.margins }
    {
        &self.margins
    }

    pub(crate) fn thresholds(&self) -> &Thresholds
        ensures { result.now ≡ self.now.thresholds }
    {
        &self.thresholds
    }

    pub(crate) fn names(&self) -> &[RegistrationId]
        ensures value { serial_numbers result.now ≡ map (λ (it : Registration). it.serial) self.now.registrations }
        ensures count { length result.now ≡ length self.now.registrations }
    {
        self.names.as_slice()
    }

    pub(crate) fn queue(&self) -> &[Entry]
        ensures { seen_entries result.now ≡ self.now.queue }
    {
        self.queue.as_slice()
    }

    pub(crate) fn observes(&self, target: NodeId) -> bool
        ensures { result ≡ is_registered target.0 self.now.registrations }
    {
        self.registered.contains_key(&target.0)
    }

    // Returns the target of the last registration.
    pub(crate) fn last_target(&self) -> Option<NodeId>
        ensures last { option_map (λ (target : NodeId). target.0) result ≡ option_map (λ (it : Registration). it.target) (slice_get self.now.registrations (length self.now.registrations - 1)) }
        ensures some { IfSome result (λ target. is_registered target.0 self.now.registrations ≡ true) }
        ensures none { result ≡ None → self.now.registrations ≡ [] }
    {
        match self.registered.last() {
            Some((target, _)) => Some(NodeId(*target)),
            None => None,
        }
    }

    // Appends a new registration, without a previous index and not intersecting.
    pub(crate) fn observe(
        &mut self,
        target: NodeId,
        registration: RegistrationId,
    ) -> Result<(), AllocError>
        requires { is_registered target.0 self.old.registrations ≡ false }
        ensures ok { OnOk result (self.new ≡ record self.old { registrations = self.old.registrations ++ record { serial = registration.0; target = target.0; previous_index = None; met = false } ∷ [] }) }
        ensures err { OnErr result (self.new ≡ self.old) }
    {
        self.names.reserve(1)?;
        let registered = Registered {
            registration,
            previous: None,
            met: false,
        };
        let Ok(_) = self.registered.insert(target.0, registered) else {
            return Err(AllocError);
        };
        self.names.push_reserved(registration);
        Ok(())
    }

    pub(crate) fn unobserve(&mut self, target: NodeId) -> Option<RegistrationId>
        ensures name { option_map (λ (it : RegistrationId). it.0) result ≡ serial_of target.0 self.old.registrations }
        ensures registrations { self.new ≡ record self.old { registrations = without_target target.0 self.old.registrations } }
    {
        let place = self.registered.get_index_of(&target.0)?;
        let (_, registered) = self.registered.shift_remove_index(place)?;
        self.names.remove(place);
        Some(registered.registration)
    }

    // Stores the finding of a target, and queues an entry if it is news.
    pub(crate) fn settle(
        &mut self,
        target: NodeId,
        time: u64,
        finding: Finding,
    ) -> Result<Settled, AllocError>
        requires { is_registered target.0 self.old.registrations ≡ true }
        ensures settled { OnOk result (self.new ≡ settled_at target.0 time (seen_finding finding) self.old) }
        ensures same { OnErr result (self.new ≡ self.old) }
        ensures answer { Settles result (is_news_of target.0 (seen_finding finding) self.old.registrations) }
        ensures kept { result ≡ Ok Kept → self.new ≡ self.old }
    {
        let Some(place) = self.registered.get_index_of(&target.0) else {
            return Ok(Settled::Kept);
        };
        let before = self.registered[place];
        if !is_news(target, before, finding) {
            return Ok(Settled::Kept);
        }
        self.queue.push(Entry {
            target,
            time,
            finding,
        })?;
        self.registered[place] = Registered {
            previous: Some(finding.index),
            met: finding.meets,
            ..before
        };
        Ok(Settled::Queued)
    }

    pub(crate) fn take_records(&mut self) -> EntryList
        ensures taken { result ≡ self.old.queue }
        ensures emptied { self.new ≡ record self.old { queue = [] } }
    {
        let alloc = *self.queue.allocator();
        EntryList::new(mem::replace(&mut self.queue, Vec::new(alloc)))
    }
}

// Whether the finding of a target is news for its registration.
fn is_news(target: NodeId, before: Registered, finding: Finding) -> bool
    ensures { result ≡ is_news (seen_registration (target.0, before)) (seen_finding finding) }
{
    before.previous != Some(finding.index) || before.met != finding.meets
}

//! One observer with its three lists.

ghost use Rattle.std.specs.Prelude.{◌≡◌, ◌<◌, [], ◌∷◌, ◌++◌, All, length, OnOk, OnErr};
ghost use Rattle.page_model.specs.ResizeObserving.{is_observed, without_observed};
ghost use Rattle.resize_observer.specs.Observations.{IsSize, HasSize, seen_size, seen_observation, seen_observations};
ghost use Rattle.resize_observer.specs.Serials.{IsAbove};
ghost use Rattle.resize_observer.specs.Observers.{ungathered, gathered_at, list_for, reported_at, inactive};

use crate::Observation;
use crate::observation::{put_last, remove_target, set_last};
use element_tree::{DocumentId, NodeId};
use px_units::Size;
use std::alloc::{AllocError, Global};
use std::collections::HashSet;
use std::marker::Model;

#[derive(Drop)]
pub(crate) struct Observer {
    document: DocumentId,
    handler: Option<u32>,
    // In order of their serial numbers, so that an observation is found by binary search. `observed` holds their elements, so
    // that the list needn't be scanned for one.
    targets: Vec<Observation>,
    observed: HashSet<u32>,
    // Each has capacity for as many observations as there are targets, so that gathering doesn't allocate.
    active: Vec<Observation>,
    skipped: Vec<Observation>,
}

impl Model for Observer {
    ghost use Rattle.std.specs.Prelude.{vec_capacity};
    ghost use Rattle.page_model.specs.World.{ResizeObserver};

    ghost Value = { ResizeObserver };

    ghost use Rattle.resize_observer.specs.Observations.{seen_observations};
    ghost use Rattle.resize_observer.specs.Held.{IsKept};

    ghost view = { λ o. record { document = o.document.0; handler = o.handler; targets = seen_observations o.targets.items; active = seen_observations o.active.items; skipped = seen_observations o.skipped.items } };

    ghost invariant = { λ o. IsKept o.targets.items o.active.items o.skipped.items o.observed (vec_capacity o.active) (vec_capacity o.skipped) };
}

impl Observer {
    pub(crate) fn new(alloc: Global, document: DocumentId, handler: Option<u32>) -> Observer
        ensures { result ≡ record { document = document.0; handler = handler; targets = []; active = []; skipped = [] } }
    {
        Observer {
            document,
            handler,
            targets: Vec::new(alloc),
            observed: HashSet::new(alloc),
            active: Vec::new(alloc),
            skipped: Vec::new(alloc),
        }
    }

    pub(crate) fn document(&self) -> DocumentId
        ensures { result.0 ≡ self.now.document }
    {
        self.document
    }

    pub(crate) fn handler(&self) -> Option<u32>
        ensures { result ≡ self.now.handler }
    {
        self.handler
    }

    pub(crate) fn targets(&self) -> &[Observation]
        ensures value { seen_observations result.now ≡ self.now.targets }
        ensures count { length result.now ≡ length self.now.targets }
        ensures sizes { All HasSize result.now }
    {
        self.targets.as_slice()
    }

    pub(crate) fn active(&self) -> &[Observation]
        ensures value { seen_observations result.now ≡ self.now.active }
        ensures count { length result.now ≡ length self.now.active }
        ensures sizes { All HasSize result.now }
    {
        self.active.as_slice()
    }

    pub(crate) fn skipped(&self) -> &[Observation]
        ensures value { seen_observations result.now ≡ self.now.skipped }
        ensures count { length result.now ≡ length self.now.skipped }
        ensures sizes { All HasSize result.now }
    {
        self.skipped.as_slice()
    }

    pub(crate) fn count(&self) -> usize
        ensures { result ≡ length self.now.targets }
    {
        self.targets.len()
    }

    pub(crate) fn observes(&self, target: NodeId) -> bool
        ensures { result ≡ is_observed target.0 self.now.targets }
    {
        self.observed.contains(&target.0)
    }

    // Appends a new observation; an older one of the same target is removed from the targets.
    pub(crate) fn observe(&mut self, observation: Observation) -> Result<(), AllocError>
        requires above { IsAbove observation.number self.old.targets }
        requires size { HasSize observation }
        ensures ok { OnOk result (self.new ≡ record self.old { targets = without_observed observation.target.0 self.old.targets ++ seen_observation observation ∷ [] }) }
        ensures err { OnErr result (self.new ≡ self.old) }
    {
        self.targets.reserve(1)?;
        let most = self.targets.len() + 1;
        self.active.reserve(most.saturating_sub(self.active.len()))?;
        self.skipped
            .reserve(most.saturating_sub(self.skipped.len()))?;
        let is_new = self.observed.insert(observation.target.0)?;
        put_last(&mut self.targets, observation, is_new);
        Ok(())
    }

    pub(crate) fn unobserve(&mut self, target: NodeId)
        ensures { self.new ≡ record self.old { targets = without_observed target.0 self.old.targets } }
    {
        if self.observed.remove(&target.0) {
            remove_target(&mut self.targets, target);
        }
    }

    pub(crate) fn disconnect(&mut self)
        ensures { self.new ≡ record self.old { targets = []; active = [] } }
    {
        self.targets.clear();
        self.observed = HashSet::new(*self.targets.allocator());
        self.active.clear();
    }

    pub(crate) fn begin_gather(&mut self)
        ensures { self.new ≡ ungathered self.old }
    {
        self.active.clear();
        self.skipped.clear();
    }

    pub(crate) fn gathered(&mut self, place: usize, active: bool)
        requires place { place < length self.old.targets }
        requires room { length (list_for active self.old) < length self.old.targets }
        ensures { self.new ≡ gathered_at place active self.old }
    {
        let observation = self.targets[place];
        if active {
            self.active.push_reserved(observation);
        } else {
            self.skipped.push_reserved(observation);
        }
    }

    pub(crate) fn report(&mut self, number: u64, last: Size)
        requires { IsSize last }
        ensures { self.new ≡ reported_at number (seen_size last) self.old }
    {
        set_last(self.targets.as_mut_slice(), number, last);
    }

    pub(crate) fn clear_active(&mut self)
        ensures { self.new ≡ inactive self.old }
    {
        self.active.clear();
    }
}

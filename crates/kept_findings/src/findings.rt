//! The cached findings.

ghost use Rattle.std.specs.Prelude.{◌≡◌, ◌⊎◌, ◌<◌, ◌+◌, ℕ, List, None, length, filter, Some, IsSome, IsTrue, IfOk, OnOk, OnErr, IsOk};
ghost use Rattle.std.specs.List.{All};
ghost use Rattle.std.specs.FinMap.{insert, contains_key};
ghost use Rattle.script_model.specs.Margins.{Margins as ScrollMargins};
ghost use Rattle.page_model.specs.World.{IntersectionObservers};
ghost use Rattle.page_model.specs.Lookups.{intersection_observer_at, scroll_margins_at};
ghost use Rattle.element_tree.specs.declared.container.Container.{Container as ContainerOf};
ghost use Rattle.clip_chain.specs.Scenes.{Scene as SceneOf, root_bounds};
ghost use Rattle.clip_chain.specs.Worlds.{element_spot, spot_of_root};
ghost use Rattle.intersection_observer.specs.Places.{IsStanding, standing_of};
ghost use Rattle.intersection_observer.specs.Seen.{seen_root, seen_finding, serial_numbers};
ghost use Rattle.kept_clips.specs.Held.{pair_at};
ghost use Rattle.kept_clips.specs.Looked.{MayBeSeen};
ghost use Rattle.kept_clips.specs.Numbers.{AreNumbered};
ghost use Rattle.candidate_index.specs.Ranges.{IsPlaced};
ghost use Rattle.candidate_index.specs.Registrations.{observer_of, serials_at, basis_for, finding_for, IsBetween};
ghost use Rattle.candidate_index.specs.Asked.{asked_for, steps_for, all_asked, all_steps};
ghost use Rattle.candidate_index.specs.Held.{is_stale_now};
ghost use Rattle.kept_findings.specs.Held.{no_findings, with_findings, without_findings, with_expired, with_room_to_see, with_room_for, IsRoomier};
ghost use Rattle.kept_findings.specs.Looks.{AreLooked, no_looks};
ghost use Rattle.kept_findings.specs.Walks.{AreChained, IsWalked};
ghost use Rattle.kept_findings.specs.Views.{seen_by, seen_for};
ghost use Rattle.kept_findings.specs.Registered.{AreHeld, AreRegistered};

use crate::Looks;
use crate::seen_scene::SeenScene;
use candidate_index::{Index, Scene, spot_of_root};
use clip_chain::{Scrolls, Through};
use element_tree::{Container, NodeId};
use intersection_observer::{Finding, RegistrationId, Root, WatcherId, Watchers};
use kept_clips::{Clips, Sightings};
use std::alloc::{AllocError, Global};
use std::marker::Model;
use std::sync::ledger::Ledger;
use step_count::Steps;
use thresholds::Margins;

/// The last known state of each spot, the cached clips, and the last finding of each registration with its inputs.
///
/// A stored clip that would be reused is always exact for the last known states, as its registration's observer sees them
/// through its scroll margins (`AreHeld`): it stays exact until a spot on its chain is found to have changed, and that spot
/// is then touched.
#[derive(Drop)]
pub struct KeptFindings {
    alloc: Global,
    pub(crate) seen: Sightings,
    pub(crate) clips: Clips,
    index: Index,
}

impl Model for KeptFindings {
    ghost use Rattle.kept_findings.specs.Held.{HeldFindings};

    ghost Value = { HeldFindings };

    ghost use Rattle.std.specs.Coded.{codes};
    ghost use Rattle.kept_clips.specs.Codes.{pairs_code};
    ghost use Rattle.candidate_index.specs.Codes.{index_code};

    ghost coded = { Prim.hlevel (codes, pairs_code, index_code) };

    ghost view = { λ f. record { seen = f.seen; clips = f.clips; kept = f.index } };
}

fn root_spot(watchers: &Watchers, watcher: WatcherId) -> Container
    requires { watcher.0 < length watchers.now.part.made }
    ensures { result ≡ spot_of_root (intersection_observer_at watchers.now.part watcher.0).root }
{
    spot_of_root(watchers.root_of(watcher))
}

fn margins_at(scroll_margins: &[Margins], watcher: WatcherId) -> Margins
    requires { watcher.0 < length scroll_margins.now }
    ensures { result ≡ scroll_margins_at scroll_margins.now watcher.0 }
{
    scroll_margins[watcher.0 as usize]
}

impl KeptFindings {
    /// Creates an empty cache; allocates nothing.
    pub fn new(alloc: Global) -> KeptFindings
        ensures empty { result ≡ no_findings }
        ensures registered { (watchers : IntersectionObservers) (margins : List ScrollMargins) → ((serial : ℕ) → standing_of serial watchers ≡ None) → AreRegistered watchers margins result }
    {
        KeptFindings {
            alloc,
            seen: Sightings::new(alloc),
            clips: Clips::new(alloc),
            index: Index::new(alloc),
        }
    }

    /// Returns the cached clips.
    pub fn clips(&self) -> &Clips
        ensures value { result.now ≡ self.now.clips }
        ensures numbered { AreNumbered self.now.clips }
    {
        // Yields that touches are numbered.
        self.clips.pair(0);
        &self.clips
    }

    /// Starts an update: returns a `Looks` in which no spot was looked at yet.
    ///
    /// # Errors
    /// If an allocation fails.
    pub fn looks(&self) -> Result<Looks, AllocError>
        ensures none { IfOk result (λ looks. looks ≡ no_looks self.now.seen) }
        ensures known { IfOk result (λ looks. (scene : SceneOf) (rank : ContainerOf → ℕ) → AreLooked scene rank self.now.seen looks) }
    {
        Looks::new(self.alloc, &self.seen)
    }

    /// Makes room for the state of a spot, and of all spots of its kind that have lower numbers. Fails only if an allocation
    /// fails, never if there already is room; some of the room may have been made then. Nothing else changes in either case.
    pub fn add(&mut self, of: Container) -> Result<(), AllocError>
        ensures roomier { IsRoomier self.old self.new }
        ensures room { OnOk result (MayBeSeen self.new.seen self.new.clips of) }
        ensures added { OnOk result (self.new ≡ with_room_for of self.old) }
        ensures refused { OnErr result ((self.new ≡ self.old) ⊎ (self.new ≡ with_room_to_see of self.old)) }
        ensures there { MayBeSeen self.old.seen self.old.clips of → IsOk result }
    {
        self.seen.add(of)?;
        self.clips.add(of)
    }

    /// Adds a registration that wasn't added, with a pair of the spots of its root and its target. It counts as never
    /// computed.
    ///
    /// # Errors
    /// If an allocation fails; nothing is changed then.
    pub fn register(
        &mut self,
        registration: RegistrationId,
        root: Root,
        target: NodeId,
    ) -> Result<(), AllocError>
        requires { pair_at self.old.clips registration.0 ≡ None }
        ensures registered { OnOk result (self.new ≡ with_findings registration.0 (spot_of_root (seen_root root)) (element_spot target.0) self.old) }
        ensures same { OnErr result (self.new ≡ self.old) }
    {
        self.clips.hold(
            registration.0,
            spot_of_root(root),
            Container::Element(target),
        )?;
        if let Err(error) = self.index.add(registration) {
            self.clips.release(registration.0);
            return Err(error);
        }
        Ok(())
    }

    /// Removes a registration that was added. Doesn't allocate.
    pub fn forget(&mut self, registration: RegistrationId)
        requires { IsSome (pair_at self.old.clips registration.0) }
        ensures { self.new ≡ without_findings registration.0 self.old }
    {
        self.clips.release(registration.0);
        self.index.forget(registration);
    }

    /// Returns the stale registrations of an observer, in order, as the observer sees the scene through its scroll margins
    /// (`Index::stale_registrations`). Requires that each spot of their chains was looked at. Clips that are out of date are
    /// recomputed.
    ///
    /// # Errors
    /// If the list can't be allocated.
    pub fn stale_registrations<S: Scene + Scrolls, L: Ledger>(
        &mut self,
        scene: &S,
        looks: &Looks,
        watchers: &Watchers,
        scroll_margins: &[Margins],
        watcher: WatcherId,
        steps: &mut Steps<L>,
    ) -> Result<Vec<RegistrationId>, AllocError>
        requires made { watcher.0 < length watchers.now.part.made }
        requires chained { AreChained (S.scene scene.now) (S.standings scene.now) }
        requires margins { length scroll_margins.now ≡ length watchers.now.part.made }
        requires held { AreHeld watchers.now.part scroll_margins.now self.old }
        requires known { AreLooked (S.scene scene.now) (S.rank scene.now) self.old.seen looks.now }
        requires walked { All (IsWalked (S.scene scene.now) (S.standings scene.now) watchers.now.part self.old.seen) (serials_at watchers.now.part watcher.0) }
        ensures stale { (between : ℕ → List ContainerOf) → All (IsBetween (S.scene scene.now) (S.standings scene.now) watchers.now.part between) (serials_at watchers.now.part watcher.0) →
            IfOk result (λ stale. serial_numbers stale.items
            ≡ filter (λ serial. is_stale_now (seen_for watchers.now.part scroll_margins.now serial (S.scene scene.now)) (S.standings scene.now) watchers.now.part between self.old.kept serial) (serials_at watchers.now.part watcher.0)) }
        ensures clips { (between : ℕ → List ContainerOf) → All (IsBetween (S.scene scene.now) (S.standings scene.now) watchers.now.part between) (serials_at watchers.now.part watcher.0) →
            OnOk result (self.new.clips ≡ all_asked (seen_by watchers.now.part scroll_margins.now watcher.0 (S.scene scene.now)) (S.standings scene.now) watchers.now.part between (serials_at watchers.now.part watcher.0) self.old.clips) }
        ensures ticks { (between : ℕ → List ContainerOf) → All (IsBetween (S.scene scene.now) (S.standings scene.now) watchers.now.part between) (serials_at watchers.now.part watcher.0) →
            OnOk result (steps.new ≡ steps.old + all_steps (seen_by watchers.now.part scroll_margins.now watcher.0 (S.scene scene.now)) (S.standings scene.now) watchers.now.part between (serials_at watchers.now.part watcher.0) self.old.clips) }
        ensures seen { self.new.seen ≡ self.old.seen }
        ensures kept { self.new.kept ≡ self.old.kept }
        ensures touches { self.new.clips.touches ≡ self.old.clips.touches }
        ensures held { AreHeld watchers.now.part scroll_margins.now self.new }
        ensures registered { AreRegistered watchers.now.part scroll_margins.now self.old → AreRegistered watchers.now.part scroll_margins.now self.new }
        ensures same_clips { OnErr result (self.new.clips ≡ self.old.clips) }
        ensures same_steps { OnErr result (steps.new ≡ steps.old) }
        ensures known { AreLooked (S.scene scene.now) (S.rank scene.now) self.new.seen looks.now }
    {
        // Yields that they exist.
        watchers.registrations(watcher);
        let seen = SeenScene {
            scene,
            seen: &self.seen,
            looks,
        };
        let view = Through {
            geometry: &seen,
            root: root_spot(watchers, watcher),
            margins: margins_at(scroll_margins, watcher),
        };
        self.index
            .stale_registrations(&view, &mut self.clips, watchers, watcher, steps)
    }

    /// Computes and stores the finding of a registration's target, as its observer sees the scene through its scroll margins
    /// (`Index::recompute`). Requires that each spot of its chain was looked at. It takes one step, and those of its clip if
    /// that is out of date. Doesn't allocate.
    pub fn recompute<S: Scene + Scrolls, L: Ledger>(
        &mut self,
        scene: &S,
        looks: &Looks,
        watchers: &Watchers,
        scroll_margins: &[Margins],
        registration: RegistrationId,
        steps: &mut Steps<L>,
    ) -> Finding
        requires standing { IsStanding registration.0 watchers.now.part }
        requires chained { AreChained (S.scene scene.now) (S.standings scene.now) }
        requires margins { length scroll_margins.now ≡ length watchers.now.part.made }
        requires held { AreHeld watchers.now.part scroll_margins.now self.old }
        requires known { AreLooked (S.scene scene.now) (S.rank scene.now) self.old.seen looks.now }
        requires walked { IsWalked (S.scene scene.now) (S.standings scene.now) watchers.now.part self.old.seen registration.0 }
        ensures finding { (between : ℕ → List ContainerOf) → IsBetween (S.scene scene.now) (S.standings scene.now) watchers.now.part between registration.0 →
            seen_finding result ≡ finding_for (seen_for watchers.now.part scroll_margins.now registration.0 (S.scene scene.now)) (S.standings scene.now) watchers.now.part registration.0 (between registration.0) }
        ensures placed { IsPlaced (root_bounds (S.scene scene.now) (spot_of_root (observer_of watchers.now.part registration.0).root)) (seen_finding result) }
        ensures clips { (between : ℕ → List ContainerOf) → IsBetween (S.scene scene.now) (S.standings scene.now) watchers.now.part between registration.0 →
            self.new.clips ≡ asked_for (seen_for watchers.now.part scroll_margins.now registration.0 (S.scene scene.now)) (S.standings scene.now) watchers.now.part between registration.0 self.old.clips }
        ensures ticks { (between : ℕ → List ContainerOf) → IsBetween (S.scene scene.now) (S.standings scene.now) watchers.now.part between registration.0 →
            steps.new ≡ steps.old + steps_for (seen_for watchers.now.part scroll_margins.now registration.0 (S.scene scene.now)) (S.standings scene.now) watchers.now.part between registration.0 self.old.clips + 1 }
        ensures seen { self.new.seen ≡ self.old.seen }
        ensures touches { self.new.clips.touches ≡ self.old.clips.touches }
        ensures kept { (between : ℕ → List ContainerOf) → IsBetween (S.scene scene.now) (S.standings scene.now) watchers.now.part between registration.0 →
            self.new.kept ≡ insert self.old.kept registration.0 (Some (record { basis = basis_for (seen_for watchers.now.part scroll_margins.now registration.0 (S.scene scene.now)) (S.standings scene.now) watchers.now.part registration.0 (between registration.0); finding = result })) }
        ensures held { AreHeld watchers.now.part scroll_margins.now self.new }
        ensures known { AreLooked (S.scene scene.now) (S.rank scene.now) self.new.seen looks.now }
    {
        let watcher = watchers.watcher_of(registration);
        let seen = SeenScene {
            scene,
            seen: &self.seen,
            looks,
        };
        let view = Through {
            geometry: &seen,
            root: root_spot(watchers, watcher),
            margins: margins_at(scroll_margins, watcher),
        };
        self.index
            .recompute(&view, &mut self.clips, watchers, registration, steps)
    }

    /// Discards the finding of a registration, which then counts as never computed. Doesn't allocate.
    pub fn expire(&mut self, registration: RegistrationId)
        requires { IsTrue (contains_key self.old.kept registration.0) }
        ensures { self.new ≡ with_expired registration.0 self.old }
    {
        self.index.expire(registration);
    }
}

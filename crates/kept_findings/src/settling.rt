//! Findings mapped to document coordinates, and settled.

ghost use Rattle.std.specs.Prelude.{◌≡◌, ◌+◌, ◌<◌, ℕ, List, true, false, Some, None, length, IfOk, OnOk, OnErr};
ghost use Rattle.std.specs.FinMap.{insert};
ghost use Rattle.page_model.specs.Lookups.{intersection_observer_at, scroll_margins_at};
ghost use Rattle.element_tree.specs.declared.container.Container.{Container as ContainerOf};
ghost use Rattle.clip_chain.specs.Scenes.{root_bounds};
ghost use Rattle.clip_chain.specs.Worlds.{spot_of_root};
ghost use Rattle.intersection_observer.specs.declared.entry.Finding.{Finding as FindingOf};
ghost use Rattle.intersection_observer.specs.Places.{standing_of};
ghost use Rattle.intersection_observer.specs.Seen.{seen_root, seen_finding};
ghost use Rattle.intersection_observer.specs.Serials.{HasSerials};
ghost use Rattle.intersection_observer.specs.Settling.{with_settled, is_news_for};
ghost use Rattle.candidate_index.specs.Ranges.{IsPlaced};
ghost use Rattle.candidate_index.specs.Registrations.{target_of, basis_for, IsBetween};
ghost use Rattle.candidate_index.specs.Asked.{asked_for, steps_for};
ghost use Rattle.candidate_index.specs.Held.{kept_of, is_stale_now};
ghost use Rattle.kept_findings.specs.Looks.{AreLooked};
ghost use Rattle.kept_findings.specs.Walks.{AreChained, IsWalked, found_in};
ghost use Rattle.kept_findings.specs.Views.{seen_for};
ghost use Rattle.kept_findings.specs.Registered.{AreHeld, AreRegistered};

use crate::{KeptFindings, Looks};
use candidate_index::Scene;
use clip_chain::Scrolls;
use element_tree::NodeId;
use intersection_observer::{Finding, RegistrationId, Root, Settled, WatcherId, Watchers};
use std::alloc::AllocError;
use std::sync::ledger::Ledger;
use step_count::Steps;
use thresholds::Margins;

/// A scene that maps a finding to the coordinates of an entry (Intersection Observer, 3.2.10): the target's box and its
/// visible part in those of the target's document, the root rectangle in those of the root's.
pub trait Tells: Scene + Scrolls {
    ghost use Rattle.std.specs.Prelude.{ℕ};
    ghost use Rattle.page_model.specs.World.{Root as ModelRoot, Finding as ModelFinding};

    /// The finding of a target, in the coordinates of an entry.
    ghost telling: { Self → ModelRoot → ℕ → ModelFinding → ModelFinding };

    /// A bound on the rectangles of a mapped finding.
    ghost reaches: { ModelFinding → Type 0 };

    /// Maps a finding of a target to the coordinates of an entry. `index` and `meets` are unchanged.
    fn told(&self, root: Root, target: NodeId, found: Finding) -> Finding
        requires { IsPlaced (root_bounds (Self.scene self.now) (spot_of_root (seen_root root))) (seen_finding found) }
        ensures value { seen_finding result ≡ telling self.now (seen_root root) target.0 (seen_finding found) }
        ensures reach { reaches (seen_finding result) }
        ensures index { result.index ≡ found.index }
        ensures meets { result.meets ≡ found.meets };
}

// Whether an entry was queued.
fn is_queued(settled: Settled) -> bool
    ensures queued { settled ≡ Settled.Queued → result ≡ true }
    ensures kept { settled ≡ Settled.Kept → result ≡ false }
{
    match settled {
        Settled::Queued => true,
        Settled::Kept => false,
    }
}

impl KeptFindings {
    // Computes and stores the current finding of an observer's registration, and returns it in the coordinates of an entry.
    fn tell<S: Tells, L: Ledger>(
        &mut self,
        scene: &S,
        looks: &Looks,
        watchers: &Watchers,
        scroll_margins: &[Margins],
        watcher: WatcherId,
        registration: RegistrationId,
        steps: &mut Steps<L>,
    ) -> Finding
        requires made { watcher.0 < length watchers.now.part.made }
        requires stands { standing_of registration.0 watchers.now.part ≡ Some (record { watcher = watcher.0; target = target_of watchers.now.part registration.0 }) }
        requires chained { AreChained (S.scene scene.now) (S.standings scene.now) }
        requires margins { length scroll_margins.now ≡ length watchers.now.part.made }
        requires held { AreHeld watchers.now.part scroll_margins.now self.old }
        requires known { AreLooked (S.scene scene.now) (S.rank scene.now) self.old.seen looks.now }
        requires walked { IsWalked (S.scene scene.now) (S.standings scene.now) watchers.now.part self.old.seen registration.0 }
        ensures told { (chained : AreChained (S.scene scene.now) (S.standings scene.now)) →
            seen_finding result ≡ found_in (S.scene scene.now) (S.standings scene.now) chained (S.telling scene.now) (scroll_margins_at scroll_margins.now watcher.0) (intersection_observer_at watchers.now.part watcher.0) (target_of watchers.now.part registration.0) }
        ensures reach { S.reaches (seen_finding result) }
        ensures kept { (found : FindingOf) × ((found.index ≡ result.index) × (found.meets ≡ result.meets)
            × ((between : ℕ → List ContainerOf) → IsBetween (S.scene scene.now) (S.standings scene.now) watchers.now.part between registration.0 →
            self.new.kept ≡ insert self.old.kept registration.0 (Some (record { basis = basis_for (seen_for watchers.now.part scroll_margins.now registration.0 (S.scene scene.now)) (S.standings scene.now) watchers.now.part registration.0 (between registration.0); finding = found })))) }
        ensures clips { (between : ℕ → List ContainerOf) → IsBetween (S.scene scene.now) (S.standings scene.now) watchers.now.part between registration.0 →
            self.new.clips ≡ asked_for (seen_for watchers.now.part scroll_margins.now registration.0 (S.scene scene.now)) (S.standings scene.now) watchers.now.part between registration.0 self.old.clips }
        ensures ticks { (between : ℕ → List ContainerOf) → IsBetween (S.scene scene.now) (S.standings scene.now) watchers.now.part between registration.0 →
            steps.new ≡ steps.old + steps_for (seen_for watchers.now.part scroll_margins.now registration.0 (S.scene scene.now)) (S.standings scene.now) watchers.now.part between registration.0 self.old.clips + 1 }
        ensures held { AreHeld watchers.now.part scroll_margins.now self.new }
        ensures seen { self.new.seen ≡ self.old.seen }
        ensures touches { self.new.clips.touches ≡ self.old.clips.touches }
        ensures known { AreLooked (S.scene scene.now) (S.rank scene.now) self.new.seen looks.now }
    {
        let found = self.recompute(scene, looks, watchers, scroll_margins, registration, steps);
        scene.told(
            watchers.root_of(watcher),
            watchers.target_of(registration),
            found,
        )
    }

    /// Computes the current finding of an observer's registration, and settles it in the coordinates of an entry. Requires
    /// that each spot of its chain was looked at. Returns whether an entry was queued, which is so exactly when the finding
    /// is news. It takes the steps of `recompute`.
    ///
    /// # Errors
    /// If the entry can't be allocated: the observers are unchanged then, and the registration counts as never
    /// computed.
    pub fn settle<S: Tells, L: Ledger>(
        &mut self,
        scene: &S,
        looks: &Looks,
        watchers: &mut Watchers,
        scroll_margins: &[Margins],
        watcher: WatcherId,
        registration: RegistrationId,
        time: u64,
        steps: &mut Steps<L>,
    ) -> Result<bool, AllocError>
        requires made { watcher.0 < length watchers.old.part.made }
        requires stands { standing_of registration.0 watchers.old.part ≡ Some (record { watcher = watcher.0; target = target_of watchers.old.part registration.0 }) }
        requires serials { HasSerials watchers.old.part }
        requires chained { AreChained (S.scene scene.now) (S.standings scene.now) }
        requires margins { length scroll_margins.now ≡ length watchers.old.part.made }
        requires registered { AreRegistered watchers.old.part scroll_margins.now self.old }
        requires known { AreLooked (S.scene scene.now) (S.rank scene.now) self.old.seen looks.now }
        requires walked { IsWalked (S.scene scene.now) (S.standings scene.now) watchers.old.part self.old.seen registration.0 }
        ensures settled { (chained : AreChained (S.scene scene.now) (S.standings scene.now)) →
            OnOk result (watchers.new ≡ record watchers.old { part = with_settled registration.0 time (found_in (S.scene scene.now) (S.standings scene.now) chained (S.telling scene.now) (scroll_margins_at scroll_margins.now watcher.0) (intersection_observer_at watchers.old.part watcher.0) (target_of watchers.old.part registration.0)) (watchers.old.part) }) }
        ensures queued { (chained : AreChained (S.scene scene.now) (S.standings scene.now)) →
            IfOk result (λ queued. queued ≡ is_news_for registration.0 (found_in (S.scene scene.now) (S.standings scene.now) chained (S.telling scene.now) (scroll_margins_at scroll_margins.now watcher.0) (intersection_observer_at watchers.old.part watcher.0) (target_of watchers.old.part registration.0)) watchers.old.part) }
        ensures reach { (chained : AreChained (S.scene scene.now) (S.standings scene.now)) →
            S.reaches (found_in (S.scene scene.now) (S.standings scene.now) chained (S.telling scene.now) (scroll_margins_at scroll_margins.now watcher.0) (intersection_observer_at watchers.old.part watcher.0) (target_of watchers.old.part registration.0)) }
        ensures same { OnErr result (watchers.new ≡ watchers.old) }
        ensures expired { OnErr result (kept_of self.new.kept registration.0 ≡ None) }
        ensures fresh { (between : ℕ → List ContainerOf) → IsBetween (S.scene scene.now) (S.standings scene.now) watchers.old.part between registration.0 →
            OnOk result (is_stale_now (seen_for watchers.old.part scroll_margins.now registration.0 (S.scene scene.now)) (S.standings scene.now) watchers.old.part between self.new.kept registration.0 ≡ false) }
        ensures others { (serial : ℕ) → (¬ serial ≡ registration.0) → kept_of self.new.kept serial ≡ kept_of self.old.kept serial }
        ensures clips { (between : ℕ → List ContainerOf) → IsBetween (S.scene scene.now) (S.standings scene.now) watchers.old.part between registration.0 →
            self.new.clips ≡ asked_for (seen_for watchers.old.part scroll_margins.now registration.0 (S.scene scene.now)) (S.standings scene.now) watchers.old.part between registration.0 self.old.clips }
        ensures ticks { (between : ℕ → List ContainerOf) → IsBetween (S.scene scene.now) (S.standings scene.now) watchers.old.part between registration.0 →
            steps.new ≡ steps.old + steps_for (seen_for watchers.old.part scroll_margins.now registration.0 (S.scene scene.now)) (S.standings scene.now) watchers.old.part between registration.0 self.old.clips + 1 }
        ensures registered { AreRegistered watchers.new.part scroll_margins.now self.new }
        ensures seen { self.new.seen ≡ self.old.seen }
        ensures touches { self.new.clips.touches ≡ self.old.clips.touches }
        ensures known { AreLooked (S.scene scene.now) (S.rank scene.now) self.new.seen looks.now }
    {
        let told = self.tell(
            scene,
            looks,
            watchers,
            scroll_margins,
            watcher,
            registration,
            steps,
        );
        match watchers.settle(registration, time, told) {
            Ok(settled) => Ok(is_queued(settled)),
            Err(error) => {
                self.expire(registration);
                Err(error)
            }
        }
    }
}

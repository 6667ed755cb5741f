//! The cached finding of each registration.

ghost use Rattle.std.specs.Prelude.{◌≡◌, ◌+◌, ◌<◌, ◌≤◌, ℕ, List, true, [], ◌∷◌, ◌++◌, length, filter, None, vec_len, vec_capacity, IfOk, IsOk, OnOk, OnErr};
ghost use Rattle.std.specs.List.{All};
ghost use Rattle.std.specs.FinMap as finite;
ghost use Rattle.element_tree.specs.declared.container.Container.{Container as ContainerOf};
ghost use Rattle.intersection_observer.specs.Places.{IsStanding};
ghost use Rattle.intersection_observer.specs.Seen.{seen_finding, serial_numbers};
ghost use Rattle.kept_clips.specs.Chains.{IsExact};
ghost use Rattle.candidate_index.specs.Registrations.{observer_of, serials_at, basis_for, finding_for, IsReady, IsBetween, IsRootUnmoved};
ghost use Rattle.candidate_index.specs.Asked.{asked_for, steps_for, all_asked, all_steps};
ghost use Rattle.candidate_index.specs.Held.{kept_of, IsAdded, is_stale, is_stale_now, AreFound};
ghost use Rattle.candidate_index.specs.Ranges.{IsPlaced};
ghost use Rattle.clip_chain.specs.Scenes.{root_bounds};
ghost use Rattle.clip_chain.specs.Worlds.{spot_of_root};
ghost use Rattle.page_model.specs.World.{IntersectionObservers};

use crate::finding::{basis_of, find};
use crate::{Basis, Scene};
use intersection_observer::{Finding, RegistrationId, WatcherId, Watchers};
use kept_clips::Clips;
use number_map::NumberMap;
use std::alloc::{AllocError, Global};
use std::marker::Model;
use std::sync::ledger::Ledger;
use step_count::Steps;

/// The result of the last computation for a registration.
#[derive(Clone, Copy, Debug)]
pub struct Kept {
    /// The inputs of the finding.
    pub basis: Basis,
    pub finding: Finding,
}

/// For each added registration the last finding and its inputs, or nothing if it counts as never computed. Contracts see this
/// as a map from serial numbers.
///
/// The pair of a registration in `Clips` has the registration's serial number. Its two spots are that of its observer's root,
/// which for the implicit root is the `View` of the top document, and that of its target.
///
/// The stored finding of a registration is the one that its basis and its observer's thresholds give (`AreFound`); each call
/// maintains this.
#[derive(Drop)]
pub struct Index {
    alloc: Global,
    kept: NumberMap<Option<Kept>>,
}

impl Model for Index {
    ghost use Rattle.std.specs.Prelude.{Option};
    ghost use Rattle.std.specs.Ordering.{nat_cmp};
    ghost use Rattle.std.specs.FinMap.{FinMap};
    ghost use Rattle.candidate_index.specs.declared.index.Kept.{Kept};

    ghost Value = { FinMap nat_cmp (Option Kept) };

    ghost use Rattle.candidate_index.specs.Codes.{index_code};

    ghost coded = { index_code };

    ghost view = { λ i. i.kept };
}

impl Index {
    /// Creates an empty cache; allocates nothing.
    pub fn new(alloc: Global) -> Index
        ensures empty { result ≡ finite.empty }
        ensures found { (watchers : IntersectionObservers) → AreFound watchers result }
    {
        Index {
            alloc,
            kept: NumberMap::new(alloc),
        }
    }

    /// Whether a registration was added and not forgotten.
    pub fn is_added(&self, registration: RegistrationId) -> bool
        ensures { result ≡ finite.contains_key self.now registration.0 }
    {
        self.kept.get(registration.0).is_some()
    }

    /// Returns what is stored for a registration, `None` if it counts as never computed.
    pub fn kept(&self, registration: RegistrationId) -> Option<Kept>
        ensures { result ≡ kept_of self.now registration.0 }
    {
        self.kept.get(registration.0)?
    }

    /// Adds a registration, which counts as never computed. Fails only if an allocation fails, never if the registration was
    /// already added; nothing changes then.
    pub fn add(&mut self, registration: RegistrationId) -> Result<(), AllocError>
        ensures added { OnOk result (self.new ≡ finite.insert self.old registration.0 None) }
        ensures same { OnErr result (self.new ≡ self.old) }
        ensures there { finite.contains_key self.old registration.0 ≡ true → IsOk result }
        ensures found { (watchers : IntersectionObservers) → AreFound watchers self.old → AreFound watchers self.new }
    {
        self.kept.insert(registration.0, None)
    }

    /// Removes a registration. Doesn't allocate.
    pub fn forget(&mut self, registration: RegistrationId)
        ensures forgotten { self.new ≡ finite.remove self.old registration.0 }
        ensures found { (watchers : IntersectionObservers) → AreFound watchers self.old → AreFound watchers self.new }
    {
        self.kept.remove(registration.0);
    }

    /// Discards the finding of a registration, which then counts as never computed. Doesn't allocate.
    pub fn expire(&mut self, registration: RegistrationId)
        requires { IsAdded self.old registration.0 }
        ensures expired { self.new ≡ finite.insert self.old registration.0 None }
        ensures found { (watchers : IntersectionObservers) → AreFound watchers self.old → AreFound watchers self.new }
    {
        self.kept.insert(registration.0, None).unwrap();
    }

    /// Returns the stale registrations of an observer, in order: those never computed, and those with a changed input, which
    /// is the relation of the target to the root, the root rectangle with the root margins applied, or, if the chain leads to
    /// the root, the target's box or the intersection of the clips strictly between.
    ///
    /// A registration that wasn't added counts as never computed.
    ///
    /// It takes the steps of `clip_of` for those whose chain leads to the root, and no others. Fails only if an allocation
    /// fails, and then nothing changes.
    pub fn stale_registrations<S: Scene, L: Ledger>(
        &self,
        scene: &S,
        clips: &mut Clips,
        watchers: &Watchers,
        watcher: WatcherId,
        steps: &mut Steps<L>,
    ) -> Result<Vec<RegistrationId>, AllocError>
        requires made { watcher.0 < length watchers.now.part.made }
        requires ready { All (IsReady (S.scene scene.now) (S.standings scene.now) watchers.now.part clips.old) (serials_at watchers.now.part watcher.0) }
        requires unmoved { All (IsRootUnmoved (S.scene scene.now) watchers.now.part) (serials_at watchers.now.part watcher.0) }
        ensures stale { (between : ℕ → List ContainerOf) → All (IsBetween (S.scene scene.now) (S.standings scene.now) watchers.now.part between) (serials_at watchers.now.part watcher.0) →
            IfOk result (λ stale. serial_numbers stale.items
            ≡ filter (is_stale_now (S.scene scene.now) (S.standings scene.now) watchers.now.part between self.now) (serials_at watchers.now.part watcher.0)) }
        ensures clips { (between : ℕ → List ContainerOf) → All (IsBetween (S.scene scene.now) (S.standings scene.now) watchers.now.part between) (serials_at watchers.now.part watcher.0) →
            OnOk result (clips.new ≡ all_asked (S.scene scene.now) (S.standings scene.now) watchers.now.part between (serials_at watchers.now.part watcher.0) clips.old) }
        ensures ticks { (between : ℕ → List ContainerOf) → All (IsBetween (S.scene scene.now) (S.standings scene.now) watchers.now.part between) (serials_at watchers.now.part watcher.0) →
            OnOk result (steps.new ≡ steps.old + all_steps (S.scene scene.now) (S.standings scene.now) watchers.now.part between (serials_at watchers.now.part watcher.0) clips.old) }
        ensures ready { (other : ℕ) → IsReady (S.scene scene.now) (S.standings scene.now) watchers.now.part clips.old other → IsReady (S.scene scene.now) (S.standings scene.now) watchers.now.part clips.new other }
        ensures exact { (other : ℕ) → IsExact (S.scene scene.now) clips.old other → IsExact (S.scene scene.now) clips.new other }
        ensures same_clips { OnErr result (clips.new ≡ clips.old) }
        ensures same_steps { OnErr result (steps.new ≡ steps.old) }
    {
        let registrations = watchers.registrations(watcher);
        let mut stale = Vec::with_capacity(self.alloc, registrations.len())?;
        for registration in registrations {
            self.look(scene, clips, watchers, *registration, &mut stale, steps);
        }
        Ok(stale)
    }

    // Appends a registration to a list that has capacity for it, if it is stale.
    fn look<S: Scene, L: Ledger>(
        &self,
        scene: &S,
        clips: &mut Clips,
        watchers: &Watchers,
        registration: RegistrationId,
        stale: &mut Vec<RegistrationId>,
        steps: &mut Steps<L>,
    )
        requires standing { IsStanding registration.0 watchers.now.part }
        requires ready { IsReady (S.scene scene.now) (S.standings scene.now) watchers.now.part clips.old registration.0 }
        requires unmoved { IsRootUnmoved (S.scene scene.now) watchers.now.part registration.0 }
        requires room { vec_len stale.old < vec_capacity stale.old }
        ensures stale { (between : ℕ → List ContainerOf) → IsBetween (S.scene scene.now) (S.standings scene.now) watchers.now.part between registration.0 →
            serial_numbers stale.new.items ≡ serial_numbers stale.old.items ++ filter (is_stale_now (S.scene scene.now) (S.standings scene.now) watchers.now.part between self.now) (registration.0 ∷ []) }
        ensures clips { (between : ℕ → List ContainerOf) → IsBetween (S.scene scene.now) (S.standings scene.now) watchers.now.part between registration.0 →
            clips.new ≡ asked_for (S.scene scene.now) (S.standings scene.now) watchers.now.part between registration.0 clips.old }
        ensures ticks { (between : ℕ → List ContainerOf) → IsBetween (S.scene scene.now) (S.standings scene.now) watchers.now.part between registration.0 →
            steps.new ≡ steps.old + steps_for (S.scene scene.now) (S.standings scene.now) watchers.now.part between registration.0 clips.old }
        ensures ready { (other : ℕ) → IsReady (S.scene scene.now) (S.standings scene.now) watchers.now.part clips.old other → IsReady (S.scene scene.now) (S.standings scene.now) watchers.now.part clips.new other }
        ensures exact { (other : ℕ) → IsExact (S.scene scene.now) clips.old other → IsExact (S.scene scene.now) clips.new other }
        ensures length { vec_len stale.new ≤ vec_len stale.old + 1 }
        ensures capacity { vec_capacity stale.new ≡ vec_capacity stale.old }
    {
        let basis = basis_of(scene, clips, watchers, registration, steps);
        if self.is_stale(registration, &basis) {
            stale.push_reserved(registration);
        }
    }

    // Whether a registration was never computed, or computed from other inputs.
    fn is_stale(&self, registration: RegistrationId, basis: &Basis) -> bool
        ensures { result ≡ is_stale (kept_of self.now registration.0) basis.now }
    {
        match self.kept(registration) {
            Some(kept) => !kept.basis.is_same(basis),
            None => true,
        }
    }

    /// Computes the current finding of a registration's target, and stores it with its inputs (Intersection Observer,
    /// 3.2.10). All rectangles are in the coordinates of the top document's viewport.
    ///
    /// It takes one step, and those of `clip_of` where the chain leads to the root. Doesn't allocate. Each edge of the root
    /// rectangle is moved by at most 100 times its width; the target's box and its visible part are in the range of boxes.
    pub fn recompute<S: Scene, L: Ledger>(
        &mut self,
        scene: &S,
        clips: &mut Clips,
        watchers: &Watchers,
        registration: RegistrationId,
        steps: &mut Steps<L>,
    ) -> Finding
        requires standing { IsStanding registration.0 watchers.now.part }
        requires added { IsAdded self.old registration.0 }
        requires ready { IsReady (S.scene scene.now) (S.standings scene.now) watchers.now.part clips.old registration.0 }
        requires unmoved { IsRootUnmoved (S.scene scene.now) watchers.now.part registration.0 }
        ensures finding { (between : ℕ → List ContainerOf) → IsBetween (S.scene scene.now) (S.standings scene.now) watchers.now.part between registration.0 →
            seen_finding result ≡ finding_for (S.scene scene.now) (S.standings scene.now) watchers.now.part registration.0 (between registration.0) }
        ensures kept { (between : ℕ → List ContainerOf) → IsBetween (S.scene scene.now) (S.standings scene.now) watchers.now.part between registration.0 →
            self.new ≡ finite.insert self.old registration.0 (Some (record { basis = basis_for (S.scene scene.now) (S.standings scene.now) watchers.now.part registration.0 (between registration.0); finding = result })) }
        ensures clips { (between : ℕ → List ContainerOf) → IsBetween (S.scene scene.now) (S.standings scene.now) watchers.now.part between registration.0 →
            clips.new ≡ asked_for (S.scene scene.now) (S.standings scene.now) watchers.now.part between registration.0 clips.old }
        ensures ticks { (between : ℕ → List ContainerOf) → IsBetween (S.scene scene.now) (S.standings scene.now) watchers.now.part between registration.0 →
            steps.new ≡ steps.old + steps_for (S.scene scene.now) (S.standings scene.now) watchers.now.part between registration.0 clips.old + 1 }
        ensures ready { (other : ℕ) → IsReady (S.scene scene.now) (S.standings scene.now) watchers.now.part clips.old other → IsReady (S.scene scene.now) (S.standings scene.now) watchers.now.part clips.new other }
        ensures exact { (other : ℕ) → IsExact (S.scene scene.now) clips.old other → IsExact (S.scene scene.now) clips.new other }
        ensures found { AreFound watchers.now.part self.old → AreFound watchers.now.part self.new }
        ensures placed { IsPlaced (root_bounds (S.scene scene.now) (spot_of_root (observer_of watchers.now.part registration.0).root)) (seen_finding result) }
    {
        let basis = basis_of(scene, clips, watchers, registration, steps);
        let finding = find(
            watchers.thresholds_of(watchers.watcher_of(registration)),
            &basis,
        );
        steps.tick();
        let kept = Kept { basis, finding };
        self.kept.insert(registration.0, Some(kept)).unwrap();
        finding
    }
}

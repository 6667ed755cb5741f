//! Looking at chains, each spot once in an update.

ghost use Rattle.std.specs.Prelude.{◌≡◌, ◌⊎◌, ◌<◌, ◌≤◌, ◌+◌, List, None, Some, length, IfSome};
ghost use Rattle.std.specs.List.{All};
ghost use Rattle.script_model.specs.Margins.{Margins as ScrollMargins};
ghost use Rattle.element_tree.specs.declared.container.Container.{Container as ContainerOf};
ghost use Rattle.clip_chain.specs.Chains.{IsAbove};
ghost use Rattle.intersection_observer.specs.Places.{IsStanding};
ghost use Rattle.kept_clips.specs.Looked.{IsLeft, Looked, MayBeSeen};
ghost use Rattle.candidate_index.specs.Registrations.{serials_at};
ghost use Rattle.kept_findings.specs.Looks.{AreLooked, is_looked, IsNoted, looked_count};
ghost use Rattle.kept_findings.specs.Registered.{AreRegistered};
ghost use Rattle.kept_findings.specs.Walks.{EachAlong, IsNot, AreChained, AlongChain, MayBeWalked, IsWalked};

use crate::seen_scene::SeenScene;
use crate::{KeptFindings, Looks};
use candidate_index::{Scene, Standing, spot_of_root};
use clip_chain::{Scrolls, container_below};
use element_tree::Container;
use intersection_observer::{RegistrationId, WatcherId, Watchers};

impl KeptFindings {
    // Looks at a spot, unless that was already done in this update.
    fn look_at<S: Scene + Scrolls>(&mut self, scene: &S, looks: &mut Looks, of: Container)
        requires room { MayBeSeen self.old.seen self.old.clips of }
        requires known { AreLooked (S.scene scene.now) (S.rank scene.now) self.old.seen looks.old }
        ensures looked { Looked (S.scene scene.now) self.old.seen self.new.seen self.old.clips self.new.clips }
        ensures kept { self.new.kept ≡ self.old.kept }
        ensures known { AreLooked (S.scene scene.now) (S.rank scene.now) self.new.seen looks.new }
        ensures noted { IsNoted looks.new of }
        ensures more { (other : ContainerOf) → IsNoted looks.old other → IsNoted looks.new other }
        ensures others { (spot : ContainerOf) → (¬ of ≡ spot) → is_looked looks.new spot ≡ is_looked looks.old spot }
        ensures touches { self.new.clips.touches.count + looked_count looks.old ≤ self.old.clips.touches.count + looked_count looks.new }
        ensures left { (spot : ContainerOf) → (¬ of ≡ spot) → IsLeft self.old.seen self.new.seen self.old.clips.touches self.new.clips.touches spot }
    {
        if !looks.is_looked(of) {
            self.seen.look(&mut self.clips, scene, of);
            looks.note(of);
        }
    }

    // Returns the container of a spot of a chain, `None` if that is the root.
    fn container_seen<S: Scene>(
        &self,
        scene: &S,
        looks: &Looks,
        of: Container,
        root: Container,
    ) -> Option<Container>
        requires known { AreLooked (S.scene scene.now) (S.rank scene.now) self.now.seen looks.now }
        ensures next { IfSome result (λ next. ((S.scene scene.now).container of ≡ Some next) × (¬ next ≡ root)) }
        ensures none { result ≡ None → ((S.scene scene.now).container of ≡ None) ⊎ ((S.scene scene.now).container of ≡ Some root) }
        ensures end { IfSome result (λ next. S.rank scene.now next < S.rank scene.now of) }
    {
        let scene = SeenScene {
            scene,
            seen: &self.seen,
            looks,
        };
        container_below(&scene, of, root)
    }

    // Looks at each spot of a chain, from a spot outwards to a root, these two included.
    fn look_along<S: Scene + Scrolls>(
        &mut self,
        scene: &S,
        looks: &mut Looks,
        root: Container,
        of: Container,
    )
        requires above { IsAbove (S.scene scene.now) root of }
        requires room { EachAlong (MayBeSeen self.old.seen self.old.clips) (S.scene scene.now) of root }
        requires known { AreLooked (S.scene scene.now) (S.rank scene.now) self.old.seen looks.old }
        ensures looked { Looked (S.scene scene.now) self.old.seen self.new.seen self.old.clips self.new.clips }
        ensures kept { self.new.kept ≡ self.old.kept }
        ensures known { AreLooked (S.scene scene.now) (S.rank scene.now) self.new.seen looks.new }
        ensures noted { EachAlong (IsNoted looks.new) (S.scene scene.now) of root }
        ensures more { (other : ContainerOf) → IsNoted looks.old other → IsNoted looks.new other }
        ensures others { (spot : ContainerOf) → EachAlong (IsNot spot) (S.scene scene.now) of root → is_looked looks.new spot ≡ is_looked looks.old spot }
        ensures touches { self.new.clips.touches.count + looked_count looks.old ≤ self.old.clips.touches.count + looked_count looks.new }
        ensures left { (spot : ContainerOf) → EachAlong (IsNot spot) (S.scene scene.now) of root → IsLeft self.old.seen self.new.seen self.old.clips.touches self.new.clips.touches spot }
    {
        self.look_at(scene, looks, of);
        self.look_at(scene, looks, root);
        let mut spot = of;
        while let Some(next) = self.container_seen(scene, looks, spot, root) {
            self.look_at(scene, looks, next);
            spot = next;
        }
    }

    // Looks along the chain of a registration, if it leads to the root.
    fn look_for<S: Scene + Scrolls>(
        &mut self,
        scene: &S,
        looks: &mut Looks,
        watchers: &Watchers,
        registration: RegistrationId,
    )
        requires standing { IsStanding registration.0 watchers.now.part }
        requires chained { AreChained (S.scene scene.now) (S.standings scene.now) }
        requires room { MayBeWalked (S.scene scene.now) (S.standings scene.now) watchers.now.part self.old.seen self.old.clips registration.0 }
        requires known { AreLooked (S.scene scene.now) (S.rank scene.now) self.old.seen looks.old }
        ensures looked { Looked (S.scene scene.now) self.old.seen self.new.seen self.old.clips self.new.clips }
        ensures kept { self.new.kept ≡ self.old.kept }
        ensures known { AreLooked (S.scene scene.now) (S.rank scene.now) self.new.seen looks.new }
        ensures noted { AlongChain (IsNoted looks.new) (S.scene scene.now) (S.standings scene.now) watchers.now.part registration.0 }
        ensures more { (other : ContainerOf) → IsNoted looks.old other → IsNoted looks.new other }
        ensures others { (spot : ContainerOf) → AlongChain (IsNot spot) (S.scene scene.now) (S.standings scene.now) watchers.now.part registration.0 →
            is_looked looks.new spot ≡ is_looked looks.old spot }
        ensures touches { self.new.clips.touches.count + looked_count looks.old ≤ self.old.clips.touches.count + looked_count looks.new }
        ensures left { (spot : ContainerOf) → AlongChain (IsNot spot) (S.scene scene.now) (S.standings scene.now) watchers.now.part registration.0 →
            IsLeft self.old.seen self.new.seen self.old.clips.touches self.new.clips.touches spot }
    {
        let root = watchers.root_of(watchers.watcher_of(registration));
        let target = watchers.target_of(registration);
        let Standing::Chained = scene.standing(root, target) else {
            return;
        };
        self.look_along(scene, looks, spot_of_root(root), Container::Element(target));
    }

    /// Looks at each spot on the chains of an observer's registrations that wasn't looked at yet, both ends included, and
    /// records its current state. It is touched if its container, clip, box or being a scroll container differs from the last
    /// known state, or there was none: once for each spot that is looked at, at most. Doesn't allocate.
    ///
    /// A chain is walked by the recorded states of its spots, so that the container of each spot is queried once.
    pub fn look<S: Scene + Scrolls>(
        &mut self,
        scene: &S,
        looks: &mut Looks,
        watchers: &Watchers,
        watcher: WatcherId,
    )
        requires made { watcher.0 < length watchers.now.part.made }
        requires chained { AreChained (S.scene scene.now) (S.standings scene.now) }
        requires room { All (MayBeWalked (S.scene scene.now) (S.standings scene.now) watchers.now.part self.old.seen self.old.clips) (serials_at watchers.now.part watcher.0) }
        requires known { AreLooked (S.scene scene.now) (S.rank scene.now) self.old.seen looks.old }
        ensures looked { Looked (S.scene scene.now) self.old.seen self.new.seen self.old.clips self.new.clips }
        ensures kept { self.new.kept ≡ self.old.kept }
        ensures known { AreLooked (S.scene scene.now) (S.rank scene.now) self.new.seen looks.new }
        ensures noted { All (AlongChain (IsNoted looks.new) (S.scene scene.now) (S.standings scene.now) watchers.now.part) (serials_at watchers.now.part watcher.0) }
        ensures more { (other : ContainerOf) → IsNoted looks.old other → IsNoted looks.new other }
        ensures walked { All (IsWalked (S.scene scene.now) (S.standings scene.now) watchers.now.part self.new.seen) (serials_at watchers.now.part watcher.0) }
        ensures others { (spot : ContainerOf) → All (AlongChain (IsNot spot) (S.scene scene.now) (S.standings scene.now) watchers.now.part) (serials_at watchers.now.part watcher.0) →
            is_looked looks.new spot ≡ is_looked looks.old spot }
        ensures touches { self.new.clips.touches.count + looked_count looks.old ≤ self.old.clips.touches.count + looked_count looks.new }
        ensures left { (spot : ContainerOf) → All (AlongChain (IsNot spot) (S.scene scene.now) (S.standings scene.now) watchers.now.part) (serials_at watchers.now.part watcher.0) →
            IsLeft self.old.seen self.new.seen self.old.clips.touches self.new.clips.touches spot }
        ensures registered { (margins : List ScrollMargins) → AreRegistered watchers.now.part margins self.old → AreRegistered watchers.now.part margins self.new }
    {
        let registrations = watchers.registrations(watcher);
        for registration in registrations {
            self.look_for(scene, looks, watchers, *registration);
        }
    }
}

//! A scene answered from recorded states.

ghost use Rattle.std.specs.Prelude.{◌≡◌, IfSome, Some};
ghost use Rattle.kept_clips.specs.Seen.{sighting_in};
ghost use Rattle.kept_clips.specs.Looked.{IsInRange};
ghost use Rattle.std.proofs.Props.{props};
ghost use Rattle.element_tree.specs.declared.container.Container.{Container as ContainerOf};
ghost use Rattle.kept_findings.specs.Looks.{IsNoted, IsSeenNow};

use crate::Looks;
use candidate_index::{Scene, Standing};
use clip_chain::{Geometry, Scrolls};
use element_tree::{Container, NodeId};
use intersection_observer::Root;
use kept_clips::{Sighting, Sightings};
use px_units::Rect;

// A scene that answers from the recorded state for each spot that was looked at, so that no query that climbs the page is
// repeated.
#[derive(Drop)]
pub(crate) struct SeenScene<'a, S: Scene> {
    pub(crate) scene: &'a S,
    pub(crate) seen: &'a Sightings,
    pub(crate) looks: &'a Looks,
    ghost known: { (spot : ContainerOf) → IsNoted looks.now spot → IsSeenNow (S.scene scene.now) (S.rank scene.now) seen.now spot } by { Prim.hlevel props },
}

impl<S: Scene> SeenScene<'_, S> {
    // Returns the recorded state of a spot, if it was looked at.
    fn sighting(&self, of: Container) -> Option<Sighting>
        ensures value { IfSome result (λ it. it ≡ sighting_in (S.scene self.now.scene.now) of) }
        ensures in_range { IfSome result (λ it. IsInRange (S.scene self.now.scene.now) (S.rank self.now.scene.now) of) }
    {
        if self.looks.is_looked(of) {
            self.seen.sighting(of)
        } else {
            None
        }
    }
}

impl<S: Scene> Geometry for SeenScene<'_, S> {
    ghost scene = { λ it. S.scene it.scene.now };

    ghost rank = { λ it. S.rank it.scene.now };

    fn container(&self, of: Container) -> Option<Container> {
        match self.sighting(of) {
            Some(seen) => seen.container,
            None => self.scene.container(of),
        }
    }

    fn clip(&self, of: Container) -> Option<Rect> {
        match self.sighting(of) {
            Some(seen) => seen.clip,
            None => self.scene.clip(of),
        }
    }

    fn bounds(&self, of: Container) -> Rect {
        match self.sighting(of) {
            Some(seen) => seen.bounds,
            None => self.scene.bounds(of),
        }
    }
}

impl<S: Scene> Scene for SeenScene<'_, S> {
    ghost standings = { λ it. S.standings it.scene.now };

    fn standing(&self, root: Root, target: NodeId) -> Standing {
        self.scene.standing(root, target)
    }
}

impl<S: Scene + Scrolls> Scrolls for SeenScene<'_, S> {
    fn scrolls(&self, of: Container) -> bool {
        match self.sighting(of) {
            Some(seen) => seen.scrolls,
            None => self.scene.scrolls(of),
        }
    }
}

//! The last known state of each spot.

ghost use Rattle.std.specs.Prelude.{◌≡◌, ◌↔◌, ◌<◌, ℕ, [], None, Some, length, IsTrue, IsOk, OnOk, OnErr};
ghost use Rattle.std.specs.List.{slice_index_or};
ghost use Rattle.element_tree.specs.declared.container.Container.{Container as ContainerOf};
ghost use Rattle.kept_clips.specs.Touches.{IsAdded, touched};
ghost use Rattle.kept_clips.specs.Held.{HeldClips};
ghost use Rattle.kept_clips.specs.Chains.{IsExact};
ghost use Rattle.clip_chain.specs.Scenes.{Scene};
ghost use Rattle.kept_clips.specs.Scenes.{AgreesAt, IsSpotwise};
ghost use Rattle.kept_clips.specs.Looked.{Looked, IsInRange};
ghost use Rattle.kept_clips.specs.Seen.{sighting_of, scene_seen, sighting_in, with_sighting, with_room, up_to, HasRoom};

use crate::Clips;
use clip_chain::Scrolls;
use element_tree::Container;
use px_units::Rect;
use std::alloc::{AllocError, Global};
use std::marker::Model;

/// The state of a spot when it was looked at: its container, its clip, its box, and whether it was a scroll container.
#[derive(Clone, Copy, Debug, PartialEq, Eq)]
pub struct Sighting {
    pub container: Option<Container>,
    pub clip: Option<Rect>,
    pub bounds: Rect,
    pub scrolls: bool,
}

fn is_same_rect(one: Rect, other: Rect) -> bool
    ensures { IsTrue result ↔ (one ≡ other) }
{
    one.left == other.left
        && one.top == other.top
        && one.right == other.right
        && one.bottom == other.bottom
}

fn is_same_clip(one: Option<Rect>, other: Option<Rect>) -> bool
    ensures { IsTrue result ↔ (one ≡ other) }
{
    match (one, other) {
        (Some(clip), Some(other_clip)) => is_same_rect(clip, other_clip),
        (None, None) => true,
        _ => false,
    }
}

impl Sighting {
    fn is_same(self, other: Sighting) -> bool
        ensures { IsTrue result ↔ (self ≡ other) }
    {
        self.container == other.container
            && is_same_clip(self.clip, other.clip)
            && is_same_rect(self.bounds, other.bounds)
            && self.scrolls == other.scrolls
    }
}

/// The last known state of each spot that has a slot; nothing for one that wasn't looked at yet.
#[derive(Drop)]
pub struct Sightings {
    nodes: Vec<Option<Sighting>>,
    views: Vec<Option<Sighting>>,
}

impl Model for Sightings {
    ghost use Rattle.kept_clips.specs.Seen.{Seen};

    ghost Value = { Seen };

    ghost view = { λ s. record { nodes = s.nodes.items; views = s.views.items } };
}

impl Sightings {
    /// Creates an empty table without slots; allocates nothing.
    pub fn new(alloc: Global) -> Sightings
        ensures { result ≡ record { nodes = []; views = [] } }
    {
        Sightings {
            nodes: Vec::new(alloc),
            views: Vec::new(alloc),
        }
    }

    /// Returns the number of slots for elements and for the viewports of documents.
    pub fn room(&self) -> (usize, usize)
        ensures { result ≡ (length self.now.nodes, length self.now.views) }
    {
        (self.nodes.len(), self.views.len())
    }

    /// Makes slots for a spot and for all spots of its kind that have lower numbers. What was recorded is unchanged. Fails
    /// only if an allocation fails, never if the slot already exists; nothing changes then.
    pub fn add(&mut self, of: Container) -> Result<(), AllocError>
        ensures added { OnOk result (self.new ≡ with_room of self.old) }
        ensures same { OnErr result (self.new ≡ self.old) }
        ensures there { HasRoom self.old of → IsOk result }
        ensures seen { (spot : ContainerOf) → sighting_of self.new spot ≡ sighting_of self.old spot }
        ensures exact { (view : Scene → Scene) (clips : HeldClips) (number : ℕ) → IsExact (view (scene_seen self.old)) clips number → IsExact (view (scene_seen self.new)) clips number }
    {
        match of {
            Container::Element(node) => extend(&mut self.nodes, node.0),
            Container::Document(document) => extend(&mut self.views, document.0),
        }
    }

    /// Returns the last known state of a spot.
    pub fn sighting(&self, of: Container) -> Option<Sighting>
        ensures { result ≡ sighting_of self.now of }
    {
        match of {
            Container::Element(node) => sighting_at(self.nodes.as_slice(), node.0),
            Container::Document(document) => sighting_at(self.views.as_slice(), document.0),
        }
    }

    fn put(&mut self, of: Container, sighting: Sighting)
        requires { HasRoom self.old of }
        ensures { self.new ≡ with_sighting of sighting self.old }
    {
        match of {
            Container::Element(node) => self.nodes[node.0 as usize] = Some(sighting),
            Container::Document(document) => self.views[document.0 as usize] = Some(sighting),
        }
    }

    /// Looks at a spot and records its current state. If its container, clip, box or being a scroll container differs from
    /// the last known state, or there was none, the spot is touched in `clips`.
    ///
    /// Clips that are exact for the last known states, or for a view of them that maps each spot by itself, stay exact.
    /// Doesn't allocate.
    pub fn look<G: Scrolls>(&mut self, clips: &mut Clips, geometry: &G, of: Container)
        requires room { HasRoom self.old of }
        requires added { IsAdded clips.old.touches of }
        ensures seen { self.new ≡ with_sighting of (sighting_in (G.scene geometry.now) of) self.old }
        ensures same { sighting_of self.old of ≡ Some (sighting_in (G.scene geometry.now) of) → clips.new ≡ clips.old }
        ensures touched { (¬ sighting_of self.old of ≡ Some (sighting_in (G.scene geometry.now) of)) → clips.new ≡ record clips.old { touches = touched of (clips.old.touches) } }
        ensures agrees { AgreesAt (scene_seen self.new) (G.scene geometry.now) of }
        ensures agreed { (other : ContainerOf) → AgreesAt (scene_seen self.old) (G.scene geometry.now) other → AgreesAt (scene_seen self.new) (G.scene geometry.now) other }
        ensures exact { (view : Scene → Scene) → IsSpotwise view → (number : ℕ) → IsExact (view (scene_seen self.old)) clips.old number → IsExact (view (scene_seen self.new)) clips.new number }
        ensures looked { Looked (G.scene geometry.now) self.old self.new clips.old clips.new }
        ensures in_range { IsInRange (G.scene geometry.now) (G.rank geometry.now) of }
    {
        let now = Sighting {
            container: geometry.container(of),
            clip: geometry.clip(of),
            bounds: geometry.bounds(of),
            scrolls: geometry.scrolls(of),
        };
        if !self.is_as_seen(of, now) {
            clips.touch(of);
            self.put(of, now);
        }
    }

    // Whether the current state of a spot is the last known one.
    fn is_as_seen(&self, of: Container, now: Sighting) -> bool
        ensures { IsTrue result ↔ (sighting_of self.now of ≡ Some now) }
    {
        match self.sighting(of) {
            Some(seen) => seen.is_same(now),
            None => false,
        }
    }
}

// Extends a list with empty slots up to this index.
fn extend(sightings: &mut Vec<Option<Sighting>>, place: u32) -> Result<(), AllocError>
    ensures extended { OnOk result (sightings.new.items ≡ up_to place sightings.old.items) }
    ensures same { OnErr result (sightings.new.items ≡ sightings.old.items) }
    ensures there { place < length sightings.old.items → IsOk result }
{
    let count = place as usize + 1;
    if sightings.len() < count {
        sightings.resize(count, None)?;
    }
    Ok(())
}

fn sighting_at(sightings: &[Option<Sighting>], place: u32) -> Option<Sighting>
    ensures { result ≡ slice_index_or sightings.now place None }
{
    *sightings.get(place as usize)?
}

//! The pairs whose clips are cached.

ghost use Rattle.std.specs.Prelude.{◌≡◌, ◌↔◌, ◌+◌, ◌≤◌, ℕ, ℤ, List, [], length, true, false, None, IsOk, OnOk, OnErr};
ghost use Rattle.std.specs.List.{All};
ghost use Rattle.std.specs.FinMap.{empty};
ghost use Rattle.element_tree.specs.declared.container.Container.{Container as ContainerOf};
ghost use Rattle.clip_chain.specs.Scenes.{Scene};
ghost use Rattle.clip_chain.specs.Chains.{Leads, IsAbove};
ghost use Rattle.kept_clips.specs.Clips.{clip_between, Contains, IsWithin};
ghost use Rattle.kept_clips.specs.Touches.{is_added, IsAdded, with_spot, touched};
ghost use Rattle.kept_clips.specs.Held.{pair_at, pair_of, spots_at, IsHeld, with_pair, without_pair, with_clip};
ghost use Rattle.kept_clips.specs.Numbers.{AreNumbered};
ghost use Rattle.kept_clips.specs.Chains.{chain_of, stands, standing_clip, is_current, IsExact};
ghost use Rattle.kept_clips.specs.Scenes.{DiffersOnlyAt};

use crate::between::{clip_between, is_untouched};
use crate::touches::Touches;
use crate::{Clip, Computed, Pair};
use clip_chain::Geometry;
use element_tree::Container;
use number_map::NumberMap;
use std::alloc::{AllocError, Global};
use std::marker::Model;
use std::sync::ledger::Ledger;
use step_count::Steps;

/// Pairs of a root and a spot below it, each with the clip strictly between the two once it was computed, and when each spot
/// was touched last. Contracts see the pairs by their numbers, which the caller assigns, and the number of each spot's last
/// touch.
///
/// A stored clip is reused while no spot on the chain from the pair's spot to its root, both included, was touched since it
/// was computed. So callers must touch each spot whose container or clip changed. Touches are counted up to 2^64 - 1; a clip
/// computed after that is never reused.
#[derive(Drop)]
pub struct Clips {
    touches: Touches,
    pairs: NumberMap<Pair>,
}

impl Model for Clips {
    ghost use Rattle.kept_clips.specs.Held.{HeldClips};

    ghost Value = { HeldClips };

    ghost use Rattle.std.specs.Coded.{codes};
    ghost use Rattle.kept_clips.specs.Codes.{pairs_code};

    ghost coded = { Prim.hlevel (codes, pairs_code) };

    ghost use Rattle.kept_clips.specs.Numbers.{AreNumbered};

    ghost view = { λ c. record { touches = c.touches; pairs = c.pairs } };

    ghost invariant = { λ c. AreNumbered (record { touches = c.touches; pairs = c.pairs }) };
}

impl Clips {
    /// Creates an empty cache without pairs or spots; allocates nothing.
    pub fn new(alloc: Global) -> Clips
        ensures empty { result ≡ record { touches = record { count = 0; nodes = []; views = [] }; pairs = empty } }
        ensures exact { (scene : Scene) (number : ℕ) → IsExact scene result number }
    {
        Clips {
            touches: Touches::new(alloc),
            pairs: NumberMap::new(alloc),
        }
    }

    /// Whether a spot was added, as `touch` requires.
    pub fn is_added(&self, of: Container) -> bool
        ensures { result ≡ is_added self.now.touches of }
    {
        self.touches.is_added(of)
    }

    /// Adds a spot, so that it may be touched, with all spots of its kind that have lower numbers. It needn't be in a tree
    /// yet; spots already added are unchanged. Fails only if an allocation fails, never if the spot was already added;
    /// nothing changes then.
    pub fn add(&mut self, of: Container) -> Result<(), AllocError>
        ensures added { OnOk result (self.new ≡ record self.old { touches = with_spot of (self.old.touches) }) }
        ensures same { OnErr result (self.new ≡ self.old) }
        ensures there { IsAdded self.old.touches of → IsOk result }
        ensures exact { (scene : Scene) (other : ℕ) → IsExact scene self.old other → IsExact scene self.new other }
    {
        self.touches.add(of)
    }

    /// Touches a spot: what depends on its container and its clip is recomputed when it is next asked for. A clip that is
    /// exact for a scene is then exact for any scene that differs at this spot only. Doesn't allocate.
    pub fn touch(&mut self, of: Container)
        requires { IsAdded self.old.touches of }
        ensures touched { self.new ≡ record self.old { touches = touched of (self.old.touches) } }
        ensures exact { (before after : Scene) (number : ℕ) → IsExact before self.old number → DiffersOnlyAt of before after → IsExact after self.new number }
        ensures count { self.old.touches.count ≤ self.new.touches.count }
        ensures stood { (number : ℕ) (chain : List ContainerOf) →
            stands self.new.touches (pair_of self.old number).computed chain ≡ true → stands self.old.touches (pair_of self.old number).computed chain ≡ true }
    {
        self.touches.touch(of);
    }

    /// Returns the pair with this number, `None` exactly when there is none. No touch number that is stored, of a clip or of
    /// a spot, exceeds the current count (`numbered`).
    pub fn pair(&self, number: u64) -> Option<Pair>
        ensures value { result ≡ pair_at self.now number }
        ensures numbered { AreNumbered self.now }
    {
        self.pairs.get(number)
    }

    /// Adds a pair of a root and a spot under a number that no pair has. Its clip isn't computed yet. Fails only if an
    /// allocation fails, and then nothing changes.
    pub fn hold(&mut self, number: u64, root: Container, of: Container) -> Result<(), AllocError>
        requires { pair_at self.old number ≡ None }
        ensures held { OnOk result (self.new ≡ with_pair number root of self.old) }
        ensures same { OnErr result (self.new ≡ self.old) }
        ensures exact { (scene : Scene) (other : ℕ) → IsExact scene self.old other → IsExact scene self.new other }
    {
        let pair = Pair {
            root,
            of,
            computed: None,
        };
        self.pairs.insert(number, pair)
    }

    /// Removes a pair. Doesn't allocate.
    pub fn release(&mut self, number: u64)
        requires { IsHeld self.old number }
        ensures released { self.new ≡ without_pair number self.old }
        ensures exact { (scene : Scene) (other : ℕ) → IsExact scene self.old other → IsExact scene self.new other }
    {
        self.pairs.remove(number);
    }

    /// Returns the intersection of the current clips strictly between the two spots of a pair, edges included: `Whole`
    /// exactly when no spot between clips, `Nothing` exactly when there is no common point (Intersection Observer, 3.2.7).
    ///
    /// If the clip was computed and no spot on the pair's chain was touched since, the stored clip is returned, and nothing
    /// changes. Otherwise it is computed, in one step for each spot strictly between, and stored. Doesn't allocate.
    ///
    /// Requires that the root is above the pair's spot (`clip_chain::reaches`), and that a stored clip which would be reused
    /// is exact (`exact`), which `touch` maintains.
    pub fn clip_of<G: Geometry, L: Ledger>(
        &mut self,
        geometry: &G,
        number: u64,
        steps: &mut Steps<L>,
    ) -> Clip
        requires held { IsHeld self.old number }
        requires above { IsAbove (G.scene geometry.now) (pair_of self.old number).root (pair_of self.old number).of }
        requires exact { IsExact (G.scene geometry.now) self.old number }
        ensures clip { (between : List ContainerOf) → Leads (G.scene geometry.now) (pair_of self.old number).of between (pair_of self.old number).root →
            result ≡ clip_between (G.scene geometry.now) between }
        ensures points { (between : List ContainerOf) → Leads (G.scene geometry.now) (pair_of self.old number).of between (pair_of self.old number).root → (x y : ℤ) →
            Contains result x y ↔ All (IsWithin (G.scene geometry.now) x y) between }
        ensures whole { (between : List ContainerOf) → Leads (G.scene geometry.now) (pair_of self.old number).of between (pair_of self.old number).root →
            (result ≡ Clip.Whole) ↔ All (λ spot. (G.scene geometry.now).clip spot ≡ None) between }
        ensures nothing { (between : List ContainerOf) → Leads (G.scene geometry.now) (pair_of self.old number).of between (pair_of self.old number).root →
            (result ≡ Clip.Nothing) ↔ ((x y : ℤ) → ¬ All (IsWithin (G.scene geometry.now) x y) between) }
        ensures kept { (between : List ContainerOf) → Leads (G.scene geometry.now) (pair_of self.old number).of between (pair_of self.old number).root →
            is_current self.old number between ≡ true → (self.new ≡ self.old) × (steps.new ≡ steps.old) }
        ensures computed { (between : List ContainerOf) → Leads (G.scene geometry.now) (pair_of self.old number).of between (pair_of self.old number).root →
            is_current self.old number between ≡ false → (self.new ≡ with_clip number result self.old) × (steps.new ≡ steps.old + length between) }
        ensures exact { (other : ℕ) → IsExact (G.scene geometry.now) self.old other → IsExact (G.scene geometry.now) self.new other }
        ensures spots { (other : ℕ) → spots_at self.new other ≡ spots_at self.old other }
    {
        self.current(geometry, number, steps)
    }

    // Returns the clip of a pair; computes and stores it if the stored one is out of date.
    fn current<G: Geometry, L: Ledger>(
        &mut self,
        geometry: &G,
        number: u64,
        steps: &mut Steps<L>,
    ) -> Clip
        requires held { IsHeld self.old number }
        requires above { IsAbove (G.scene geometry.now) (pair_of self.old number).root (pair_of self.old number).of }
        requires exact { IsExact (G.scene geometry.now) self.old number }
        ensures clip { (between : List ContainerOf) → Leads (G.scene geometry.now) (pair_of self.old number).of between (pair_of self.old number).root →
            result ≡ clip_between (G.scene geometry.now) between }
        ensures kept { (between : List ContainerOf) → Leads (G.scene geometry.now) (pair_of self.old number).of between (pair_of self.old number).root →
            is_current self.old number between ≡ true → (self.new ≡ self.old) × (steps.new ≡ steps.old) }
        ensures computed { (between : List ContainerOf) → Leads (G.scene geometry.now) (pair_of self.old number).of between (pair_of self.old number).root →
            is_current self.old number between ≡ false → (self.new ≡ with_clip number result self.old) × (steps.new ≡ steps.old + length between) }
        ensures exact { (other : ℕ) → IsExact (G.scene geometry.now) self.old other → IsExact (G.scene geometry.now) self.new other }
        ensures spots { (other : ℕ) → spots_at self.new other ≡ spots_at self.old other }
    {
        let pair = self.held_pair(number);
        if let Some(clip) = self.standing(geometry, pair) {
            return clip;
        }
        let clip = clip_between(geometry, pair.root, pair.of, steps);
        self.store(number, pair, clip);
        clip
    }

    fn held_pair(&self, number: u64) -> Pair
        requires { IsHeld self.now number }
        ensures { result ≡ pair_of self.now number }
    {
        self.pairs.get(number).unwrap()
    }

    // Returns the stored clip of a pair, `None` if it is out of date or wasn't computed.
    fn standing<G: Geometry>(&self, geometry: &G, pair: Pair) -> Option<Clip>
        requires { IsAbove (G.scene geometry.now) pair.root pair.of }
        ensures { (between : List ContainerOf) → Leads (G.scene geometry.now) pair.of between pair.root →
            result ≡ standing_clip self.now.touches pair.computed (chain_of pair between) }
    {
        let computed = pair.computed?;
        if computed.touches < u64::MAX
            && is_untouched(
                &self.touches,
                geometry,
                pair.root,
                pair.of,
                computed.touches,
            )
        {
            Some(computed.clip)
        } else {
            None
        }
    }

    // Stores the clip just computed for a pair.
    fn store(&mut self, number: u64, pair: Pair, clip: Clip)
        requires held { IsHeld self.old number }
        requires pair { pair_of self.old number ≡ pair }
        ensures { self.new ≡ with_clip number clip self.old }
    {
        let computed = Computed {
            clip,
            touches: self.touches.count(),
        };
        let now = Pair {
            computed: Some(computed),
            ..pair
        };
        self.pairs.insert(number, now).unwrap();
    }
}

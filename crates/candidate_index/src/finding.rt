//! The finding of a target, and its inputs.

ghost use Rattle.std.specs.Prelude.{◌≡◌, ◌+◌, ℕ, List, false, IfSome};
ghost use Rattle.page_model.specs.World.{Root as ModelRoot};
ghost use Rattle.page_model.specs.Chains.{moved_out};
ghost use Rattle.page_model.specs.Findings.{unseen};
ghost use Rattle.element_tree.specs.declared.container.Container.{Container as ContainerOf};
ghost use Rattle.clip_chain.specs.Ranges.{IsBounds};
ghost use Rattle.clip_chain.specs.Scenes.{root_bounds};
ghost use Rattle.clip_chain.specs.Chains.{Leads};
ghost use Rattle.clip_chain.specs.Worlds.{element_spot, spot_of_root};
ghost use Rattle.intersection_observer.specs.Places.{IsStanding};
ghost use Rattle.intersection_observer.specs.Seen.{seen_root, seen_finding};
ghost use Rattle.kept_clips.specs.Chains.{IsExact};
ghost use Rattle.thresholds.specs.Areas.{LiesIn};
ghost use Rattle.candidate_index.specs.Ranges.{HasBoundsIn, HasBounds};
ghost use Rattle.candidate_index.specs.Findings.{cut_to, seen, found_from, sight_over};
ghost use Rattle.thresholds.specs.Roots.{IsNear};
ghost use Rattle.candidate_index.specs.Registrations.{observer_of, basis_for, IfChained, HasClip, IsReady, IsBetween, IsRootUnmoved};
ghost use Rattle.candidate_index.specs.Asked.{asked_if, steps_if, asked_for, steps_for};

use crate::{Basis, Scene, Sight, Standing};
use clip_chain::{Geometry, root_rect};
use element_tree::{Container, DocumentId, NodeId};
use intersection_observer::{Finding, RegistrationId, Root, Watchers};
use kept_clips::{Clip, Clips};
use px_units::{Rect, meet};
use std::sync::ledger::Ledger;
use step_count::Steps;
use thresholds::{Margins, NOTHING, Thresholds, ratio_of};

const NO_RECT: Rect = Rect {
    left: 0,
    top: 0,
    right: 0,
    bottom: 0,
};

/// Returns the spot of a root (Intersection Observer, 2.2); that of the implicit root is the viewport of the top document.
pub fn spot_of_root(root: Root) -> Container
    ensures { result ≡ spot_of_root (seen_root root) }
{
    match root {
        Root::Implicit => Container::Document(DocumentId(0)),
        Root::Document(document) => Container::Document(document),
        Root::Node(node) => Container::Element(node),
    }
}

// Returns the root rectangle with the root margins applied.
fn limits_of<G: Geometry>(scene: &G, root: Root, margins: &Margins) -> Rect
    requires { (G.scene scene.now).moved (spot_of_root (seen_root root)) ≡ false }
    ensures value { result ≡ moved_out margins.now (root_bounds (G.scene scene.now) (spot_of_root (seen_root root))) }
    ensures near { IsNear (root_bounds (G.scene scene.now) (spot_of_root (seen_root root))) result }
{
    margins.dilate(root_rect(scene, spot_of_root(root)))
}

// Returns how a target currently relates to the root.
fn sight_of<S: Scene, L: Ledger>(
    scene: &S,
    clips: &mut Clips,
    root: Root,
    target: NodeId,
    serial: u64,
    steps: &mut Steps<L>,
) -> Sight
    requires { IfChained (S.standings scene.now (seen_root root) target.0) (HasClip (S.scene scene.now) clips.old serial (seen_root root) target.0) }
    ensures sight { (between : List ContainerOf) → IfChained (S.standings scene.now (seen_root root) target.0) (Leads (S.scene scene.now) (element_spot target.0) between (spot_of_root (seen_root root))) →
        result ≡ sight_over (S.scene scene.now) (S.standings scene.now (seen_root root) target.0) target.0 between }
    ensures clips { (between : List ContainerOf) → IfChained (S.standings scene.now (seen_root root) target.0) (Leads (S.scene scene.now) (element_spot target.0) between (spot_of_root (seen_root root))) →
        clips.new ≡ asked_if (S.standings scene.now (seen_root root) target.0) (S.scene scene.now) between serial clips.old }
    ensures ticks { (between : List ContainerOf) → IfChained (S.standings scene.now (seen_root root) target.0) (Leads (S.scene scene.now) (element_spot target.0) between (spot_of_root (seen_root root))) →
        steps.new ≡ steps.old + steps_if (S.standings scene.now (seen_root root) target.0) between serial clips.old }
    ensures ready { (other : ℕ) (its_root : ModelRoot) (its_target : ℕ) → HasClip (S.scene scene.now) clips.old other its_root its_target → HasClip (S.scene scene.now) clips.new other its_root its_target }
    ensures exact { (other : ℕ) → IsExact (S.scene scene.now) clips.old other → IsExact (S.scene scene.now) clips.new other }
    ensures range { HasBoundsIn result }
{
    match scene.standing(root, target) {
        Standing::Apart => Sight::Apart,
        Standing::NoBox => Sight::NoBox,
        Standing::Chained => Sight::Chained {
            bounds: scene.bounds(Container::Element(target)),
            clip: clips.clip_of(scene, serial, steps),
        },
    }
}

// Returns the current inputs of a registration's finding.
pub(crate) fn basis_of<S: Scene, L: Ledger>(
    scene: &S,
    clips: &mut Clips,
    watchers: &Watchers,
    registration: RegistrationId,
    steps: &mut Steps<L>,
) -> Basis
    requires standing { IsStanding registration.0 watchers.now.part }
    requires ready { IsReady (S.scene scene.now) (S.standings scene.now) watchers.now.part clips.old registration.0 }
    requires unmoved { IsRootUnmoved (S.scene scene.now) watchers.now.part registration.0 }
    ensures basis { (between : ℕ → List ContainerOf) → IsBetween (S.scene scene.now) (S.standings scene.now) watchers.now.part between registration.0 →
        result ≡ basis_for (S.scene scene.now) (S.standings scene.now) watchers.now.part registration.0 (between registration.0) }
    ensures clips { (between : ℕ → List ContainerOf) → IsBetween (S.scene scene.now) (S.standings scene.now) watchers.now.part between registration.0 →
        clips.new ≡ asked_for (S.scene scene.now) (S.standings scene.now) watchers.now.part between registration.0 clips.old }
    ensures ticks { (between : ℕ → List ContainerOf) → IsBetween (S.scene scene.now) (S.standings scene.now) watchers.now.part between registration.0 →
        steps.new ≡ steps.old + steps_for (S.scene scene.now) (S.standings scene.now) watchers.now.part between registration.0 clips.old }
    ensures ready { (other : ℕ) → IsReady (S.scene scene.now) (S.standings scene.now) watchers.now.part clips.old other → IsReady (S.scene scene.now) (S.standings scene.now) watchers.now.part clips.new other }
    ensures exact { (other : ℕ) → IsExact (S.scene scene.now) clips.old other → IsExact (S.scene scene.now) clips.new other }
    ensures range { HasBounds result }
    ensures near { IsNear (root_bounds (S.scene scene.now) (spot_of_root (observer_of watchers.now.part registration.0).root)) result.limits }
{
    let watcher = watchers.watcher_of(registration);
    let target = watchers.target_of(registration);
    let root = watchers.root_of(watcher);
    Basis {
        limits: limits_of(scene, root, watchers.margins_of(watcher)),
        sight: sight_of(scene, clips, root, target, registration.0, steps),
    }
}

// Returns what limits and a clip leave of a box.
fn cut_to(bounds: Rect, limits: Rect, clip: Clip) -> Option<Rect>
    requires { IsBounds bounds }
    ensures value { result ≡ cut_to bounds limits clip }
    ensures range { IfSome result IsBounds }
    ensures inside { IfSome result (LiesIn bounds) }
{
    let within = meet(bounds, limits)?;
    match clip {
        Clip::Whole => Some(within),
        Clip::Cut(part) => meet(within, part),
        Clip::Nothing => None,
    }
}

// Returns the finding of a target from the visible part of its box.
fn seen(thresholds: &Thresholds, bounds: Rect, cut: Option<Rect>, limits: Rect) -> Finding
    requires bounds { IsBounds bounds }
    requires inside { IfSome cut (LiesIn bounds) }
    requires cut { IfSome cut IsBounds }
    ensures value { seen_finding result ≡ seen thresholds.now bounds cut limits }
    ensures bounds { IsBounds result.target }
    ensures cut { IsBounds result.cut }
    ensures root { result.root ≡ limits }
{
    let ratio = ratio_of(bounds, cut);
    Finding {
        index: thresholds.index_of(ratio),
        meets: cut.is_some(),
        ratio,
        root: limits,
        target: bounds,
        cut: cut.unwrap_or(NO_RECT),
    }
}

// Returns the finding of a target that isn't in the root or has no box.
fn unseen(index: u32, limits: Rect) -> Finding
    ensures value { seen_finding result ≡ unseen index limits }
    ensures bounds { IsBounds result.target }
    ensures cut { IsBounds result.cut }
    ensures root { result.root ≡ limits }
{
    Finding {
        index,
        meets: false,
        ratio: NOTHING,
        root: limits,
        target: NO_RECT,
        cut: NO_RECT,
    }
}

// Computes the finding from its inputs and the thresholds.
pub(crate) fn find(thresholds: &Thresholds, basis: &Basis) -> Finding
    requires { HasBounds basis.now }
    ensures value { seen_finding result ≡ found_from thresholds.now basis.now }
    ensures bounds { IsBounds result.target }
    ensures cut { IsBounds result.cut }
    ensures root { result.root ≡ basis.now.limits }
{
    match basis.sight {
        Sight::Apart => unseen(0, basis.limits),
        Sight::NoBox => unseen(thresholds.index_of(NOTHING), basis.limits),
        Sight::Chained { bounds, clip } => {
            let cut = cut_to(bounds, basis.limits, clip);
            seen(thresholds, bounds, cut, basis.limits)
        }
    }
}

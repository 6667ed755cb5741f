//! Chains from a target to a root.

ghost use Rattle.std.specs.Prelude.{◌≡◌, ◌↔◌, ◌⊎◌, ◌<◌, true, false, ℤ, List, ◌∷◌, filter_map, IfSome, IsTrue};
ghost use Rattle.px_units.specs.Rects.{has_points, HeldBy};
ghost use Rattle.page_model.specs.Chains.{common_part};
ghost use Rattle.element_tree.specs.declared.container.Container.{Container as ContainerOf};
ghost use Rattle.clip_chain.specs.Ranges.{IsClip, IsBounds};
ghost use Rattle.clip_chain.specs.Scenes.{root_bounds};
ghost use Rattle.clip_chain.specs.Chains.{Leads, IsAbove};
ghost use Rattle.clip_chain.specs.Visible.{part_between, IsSeen};

use crate::Geometry;
use element_tree::Container;
use px_units::{Rect, meet};

/// Whether the root is on the chain of containers above the target. Doesn't allocate.
pub fn reaches<G: Geometry>(geometry: &G, target: Container, root: Container) -> bool
    ensures { IsTrue result ↔ IsAbove (G.scene geometry.now) root target }
{
    let mut spot = target;
    while let Some(next) = geometry.container(spot) {
        if next == root {
            return true;
        }
        spot = next;
    }
    false
}

/// Returns the root rectangle before root margins are applied (Intersection Observer, 2.2): the viewport of a document, the
/// padding box of an element that clips, the border box of any other element, zeros for an element without a box. The
/// implicit root is the viewport of the top document, its `View`. Doesn't allocate.
///
/// Each edge lies between -2^48 and 2^48, the width between -2^42 and 2^42, unless it was moved by scroll margins.
pub fn root_rect<G: Geometry>(geometry: &G, root: Container) -> Rect
    ensures root { result ≡ root_bounds (G.scene geometry.now) root }
    ensures range { (G.scene geometry.now).moved root ≡ false → IsClip result }
{
    match geometry.clip(root) {
        Some(clip) => clip,
        None => geometry.bounds(root),
    }
}

/// Returns the visible part of the target (Intersection Observer, 3.2.7): the intersection of its box, the clips of the spots
/// strictly between it and the root, and `limits`, the root rectangle with root margins applied. Edges count, so rectangles
/// that only touch do intersect. `None` exactly when there is no common point. Doesn't allocate.
///
/// Requires that the root is above the target (`reaches`). Each edge lies between -2^48 and 2^48, width and height from 0 to
/// 2^40.
pub fn visible_rect<G: Geometry>(
    geometry: &G,
    target: Container,
    root: Container,
    limits: Rect,
) -> Option<Rect>
    requires { IsAbove (G.scene geometry.now) root target }
    ensures part { (between : List ContainerOf) → Leads (G.scene geometry.now) target between root → result ≡ part_between (G.scene geometry.now) target between limits }
    ensures points { (between : List ContainerOf) → Leads (G.scene geometry.now) target between root → (x y : ℤ) →
        HeldBy result x y ↔ IsSeen (G.scene geometry.now) target between limits x y }
    ensures range { IfSome result IsBounds }
{
    let unclipped = meet(geometry.bounds(target), limits)?;
    clipped_below(geometry, target, root, unclipped)
}

// Returns what the clips of the spots strictly between the target and the root leave of a rectangle.
fn clipped_below<G: Geometry>(
    geometry: &G,
    target: Container,
    root: Container,
    first: Rect,
) -> Option<Rect>
    requires above { IsAbove (G.scene geometry.now) root target }
    requires points { has_points first ≡ true }
    ensures { (between : List ContainerOf) → Leads (G.scene geometry.now) target between root →
        result ≡ common_part first (filter_map (G.scene geometry.now).clip between) }
{
    let mut common = first;
    let mut spot = target;
    while let Some(next) = container_below(geometry, spot, root) {
        if let Some(clip) = geometry.clip(next) {
            common = meet(common, clip)?;
        }
        spot = next;
    }
    Some(common)
}

/// Returns the container of a spot, `None` if that is the root or there is none. Used to walk a chain outwards from a spot up
/// to its root. Doesn't allocate.
pub fn container_below<G: Geometry>(
    geometry: &G,
    of: Container,
    root: Container,
) -> Option<Container>
    ensures next { IfSome result (λ next. ((G.scene geometry.now).container of ≡ Some next) × (¬ next ≡ root)) }
    ensures none { result ≡ None → ((G.scene geometry.now).container of ≡ None) ⊎ ((G.scene geometry.now).container of ≡ Some root) }
    ensures end { IfSome result (λ next. G.rank geometry.now next < G.rank geometry.now of) }
{
    let next = geometry.container(of)?;
    if next == root { None } else { Some(next) }
}

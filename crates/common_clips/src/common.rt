//! What is left within elements of a root's rectangle.

ghost use Rattle.std.specs.Prelude.{◌≡◌, List, filter_map, IfOk, IfSome, OnOk, OnErr};
ghost use Rattle.px_units.specs.declared.Rect.{Rect as RectModel};
ghost use Rattle.page_model.specs.Chains.{common_part};
ghost use Rattle.element_tree.specs.declared.container.Container.{Container as ContainerOf};
ghost use Rattle.clip_chain.specs.Ranges.{IsBounds};
ghost use Rattle.clip_chain.specs.Scenes.{Scene};
ghost use Rattle.clip_chain.specs.Chains.{Leads, IsAbove};
ghost use Rattle.clip_chain.specs.Visible.{part_between};
ghost use Rattle.common_clips.specs.Common.{AreInside, clipped, known_of, left_inside, with_known};

use clip_chain::{Geometry, container_below};
use element_tree::Container;
use number_map::NumberMap;
use px_units::{Rect, meet};
use std::alloc::{AllocError, Global};

/// What is left of a root's rectangle within elements, by their numbers: its intersection with the clip of the element and those between
/// the element and the root; `None` if they have no common point.
#[derive(Drop)]
pub struct CommonClips {
    pub inside: NumberMap<Option<Rect>>,
}

impl CommonClips {
    /// Nothing is known of any element, whatever the geometry, the root and the limits are; allocates nothing.
    pub fn new(alloc: Global) -> CommonClips
        ensures { (scene : Scene) (root : ContainerOf) (limits : RectModel) → AreInside scene root limits result.inside }
    {
        CommonClips {
            inside: NumberMap::new(alloc),
        }
    }

    // Returns what is known of a spot, `None` of a document's viewport.
    fn of(&self, spot: Container) -> Option<Option<Rect>>
        ensures { result ≡ known_of self.now.inside spot }
    {
        match spot {
            Container::Element(node) => self.inside.get(u64::from(node.0)),
            Container::Document(_) => None,
        }
    }

    // Notes what is left within a spot, unless it is a document's viewport.
    fn note(&mut self, spot: Container, part: Option<Rect>) -> Result<(), AllocError>
        ensures noted { OnOk result (self.new.inside ≡ with_known self.old.inside spot part) }
        ensures same { OnErr result (self.new.inside ≡ self.old.inside) }
    {
        match spot {
            Container::Element(node) => self.inside.insert(u64::from(node.0), part),
            Container::Document(_) => Ok(()),
        }
    }
}

// Intersects what is left with a further clip, if there is one.
fn clipped(left: Option<Rect>, clip: Option<Rect>) -> Option<Rect>
    ensures { result ≡ clipped left clip }
{
    match (left, clip) {
        (Some(common), Some(clip)) => meet(common, clip),
        (left, None) => left,
        (None, Some(_)) => None,
    }
}

// Returns what is left of the root's rectangle within a spot, and notes it for the elements on its chain.
fn left_inside<G: Geometry>(
    geometry: &G,
    spot: Container,
    root: Container,
    limits: Rect,
    clips: &mut CommonClips,
) -> Result<Option<Rect>, AllocError>
    requires above { IsAbove (G.scene geometry.now) root spot }
    requires known { AreInside (G.scene geometry.now) root limits clips.old.inside }
    ensures part { IfOk result (λ part. (between : List ContainerOf) → Leads (G.scene geometry.now) spot between root →
        part ≡ left_inside (G.scene geometry.now) limits spot between) }
    ensures known { AreInside (G.scene geometry.now) root limits clips.new.inside }
{
    if let Some(part) = clips.of(spot) {
        return Ok(part);
    }
    let outside = match container_below(geometry, spot, root) {
        Some(next) => left_inside(geometry, next, root, limits, clips)?,
        None => meet(limits, limits),
    };
    let part = clipped(outside, geometry.clip(spot));
    clips.note(spot, part)?;
    Ok(part)
}

// Returns what the clips strictly between a spot and the root leave of the root's rectangle.
fn left_around<G: Geometry>(
    geometry: &G,
    spot: Container,
    root: Container,
    limits: Rect,
    clips: &mut CommonClips,
) -> Result<Option<Rect>, AllocError>
    requires above { IsAbove (G.scene geometry.now) root spot }
    requires known { AreInside (G.scene geometry.now) root limits clips.old.inside }
    ensures part { IfOk result (λ part. (between : List ContainerOf) → Leads (G.scene geometry.now) spot between root →
        part ≡ common_part limits (filter_map (G.scene geometry.now).clip between)) }
    ensures known { AreInside (G.scene geometry.now) root limits clips.new.inside }
{
    match container_below(geometry, spot, root) {
        Some(next) => left_inside(geometry, next, root, limits, clips),
        None => Ok(meet(limits, limits)),
    }
}

/// Returns the visible part of the target (Intersection Observer, 3.2.7), as `clip_chain::visible_rect` does: the intersection of its box,
/// the clips of the spots strictly between it and the root, and `limits`. What is known of the elements on its chain is looked up, and
/// noted for those of which nothing is: so each element's clip is looked at once, however many targets it holds, if `clips` is passed
/// on from target to target, with the same root and limits.
///
/// # Errors
///
/// If an allocation fails.
pub fn visible_rect<G: Geometry>(
    geometry: &G,
    target: Container,
    root: Container,
    limits: Rect,
    clips: &mut CommonClips,
) -> Result<Option<Rect>, AllocError>
    requires above { IsAbove (G.scene geometry.now) root target }
    requires known { AreInside (G.scene geometry.now) root limits clips.old.inside }
    ensures part { IfOk result (λ part. (between : List ContainerOf) → Leads (G.scene geometry.now) target between root →
        part ≡ part_between (G.scene geometry.now) target between limits) }
    ensures range { IfOk result (λ part. IfSome part IsBounds) }
    ensures known { AreInside (G.scene geometry.now) root limits clips.new.inside }
{
    let around = left_around(geometry, target, root, limits, clips)?;
    Ok(clipped(around, Some(geometry.bounds(target))))
}

//! Whether a point hits an element.

ghost use Rattle.std.specs.Prelude.{◌≡◌, List, IfOk};
ghost use Rattle.element_tree.specs.declared.container.Container.{Container as ContainerOf};
ghost use Rattle.element_tree.specs.declared.container.Container.TheVariants.{Element};
ghost use Rattle.clip_chain.specs.Chains.{IsAbove, Leads};
ghost use Rattle.clip_chain.specs.Worlds.{view_spot};
ghost use Rattle.common_clips.specs.Common.{AreInside};
ghost use Rattle.hit_test.specs.Hits.{has_point, is_between, shows_between};

use clip_chain::Geometry;
use common_clips::{CommonClips, visible_rect};
use element_tree::{Container, DocumentId, NodeId};
use px_units::{Point, Rect};
use std::alloc::AllocError;

/// The viewport of the top document.
const SCREEN: Container = Container::Document(DocumentId(0));

// Whether a coordinate lies between two edges, including the first but not the second.
fn is_between(low: i64, high: i64, at: i64) -> bool
    ensures { result ≡ is_between low high at }
{
    low <= at && at < high
}

// Whether a point lies in a rectangle, including its left and top edges but not its right and bottom ones.
fn has_point(rect: Rect, at: Point) -> bool
    ensures { result ≡ has_point at rect }
{
    is_between(rect.left, rect.right, at.left) && is_between(rect.top, rect.bottom, at.top)
}

/// Whether a point of the top document's viewport hits an element: its border box, each clip between it and that viewport,
/// and the viewport contain the point, including their left and top edges but not the right and bottom ones. What is left of
/// the viewport within the elements around it is looked up in `clips`, and noted there.
///
/// Requires that the element's chain of containers leads to the viewport (`reaches`), as it does if the element has a box.
///
/// # Errors
///
/// If an allocation fails.
pub fn shows_at<G: Geometry>(
    geometry: &G,
    node: NodeId,
    at: Point,
    clips: &mut CommonClips,
) -> Result<bool, AllocError>
    requires above { IsAbove (G.scene geometry.now) (view_spot 0) (Element node) }
    requires clips { AreInside (G.scene geometry.now) (view_spot 0) ((G.scene geometry.now).bounds (view_spot 0)) clips.old.inside }
    ensures shows { IfOk result (λ shows. (between : List ContainerOf) → Leads (G.scene geometry.now) (Element node) between (view_spot 0) →
        shows ≡ shows_between (G.scene geometry.now) at (Element node) between) }
    ensures clips { AreInside (G.scene geometry.now) (view_spot 0) ((G.scene geometry.now).bounds (view_spot 0)) clips.new.inside }
{
    let screen = geometry.bounds(SCREEN);
    // A point that lies in all of them lies in their intersection.
    let visible = visible_rect(geometry, Container::Element(node), SCREEN, screen, clips)?;
    match visible {
        Some(part) => Ok(has_point(part, at)),
        None => Ok(false),
    }
}

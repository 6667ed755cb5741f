//! The elements that a point hits.

ghost use Rattle.std.specs.Prelude.{◌≡◌, ◌<◌, All, length, filter, map, reverse, true, IfOk};
ghost use Rattle.element_tree.specs.Links.{number};
ghost use Rattle.page_model.specs.Shown.{has_box};
ghost use Rattle.hit_test.specs.Clips.{AreClips};
ghost use Rattle.hit_test.specs.Hits.{is_hit};
ghost use Rattle.hit_test.specs.Painting.{paint_order};

use crate::painting::paint_order;
use crate::points::shows_at;
use common_clips::CommonClips;
use element_tree::NodeId;
use page_geometry::Shown;
use px_units::Point;
use std::alloc::{AllocError, Global};

// Whether a point hits an element that has a box.
fn is_boxed_hit(
    shown: &Shown<'_>,
    node: NodeId,
    at: Point,
    clips: &mut CommonClips,
) -> Result<bool, AllocError>
    requires boxed { has_box shown.now node.0 ≡ true }
    requires clips { AreClips shown.now clips.old.inside }
    ensures hit { IfOk result (λ hit. hit ≡ is_hit shown.now at node.0) }
    ensures clips { AreClips shown.now clips.new.inside }
{
    // Yields that chains lead to the viewport of `top`, and a bound on their length.
    shown.document_count();
    shows_at(shown, node, at, clips)
}

// Whether a point hits an element.
#[tactic(auto, using(crate::proofs::Chains::boxless))]
fn is_hit(
    shown: &Shown<'_>,
    node: NodeId,
    at: Point,
    clips: &mut CommonClips,
) -> Result<bool, AllocError>
    requires { AreClips shown.now clips.old.inside }
    ensures hit { IfOk result (λ hit. hit ≡ is_hit shown.now at node.0) }
    ensures clips { AreClips shown.now clips.new.inside }
{
    if !shown.has_box(node) {
        return Ok(false);
    }
    is_boxed_hit(shown, node, at, clips)
}

// Returns those of the given elements that a point hits, in the same order.
fn hit_among(
    alloc: Global,
    shown: &Shown<'_>,
    nodes: &[NodeId],
    at: Point,
) -> Result<Vec<NodeId>, AllocError>
    ensures { IfOk result (λ found. found.items ≡ filter (λ node. is_hit shown.now at node.0) nodes.now) }
{
    let mut clips = CommonClips::new(alloc);
    let mut found = Vec::new(alloc);
    for node in nodes {
        let hit = is_hit(shown, *node, at, &mut clips)?;
        if hit {
            found.push(*node)?;
        }
    }
    Ok(found)
}

// Returns the elements that a point hits, topmost first.
pub(crate) fn hits_shown(
    alloc: Global,
    shown: &Shown<'_>,
    at: Point,
) -> Result<Vec<NodeId>, AllocError>
    ensures list { IfOk result (λ found. map number found.items ≡ reverse (filter (is_hit shown.now at) (paint_order shown.now.tree))) }
    ensures there { IfOk result (λ found. All (λ node. node.0 < length shown.now.tree.elements) found.items) }
{
    let painted = paint_order(alloc, shown.page())?;
    let mut found = hit_among(alloc, shown, &painted, at)?;
    found.reverse();
    Ok(found)
}

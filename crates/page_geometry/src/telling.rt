//! Findings over the scene of a page, mapped to the coordinates of an entry (Intersection Observer, 3.2.10).

ghost use Rattle.std.specs.Prelude.{◌≡◌};
ghost use Rattle.page_model.specs.Findings.{Relation};
ghost use Rattle.candidate_index.specs.Worlds.{standing_in, told_box, told_cut};
ghost use Rattle.page_geometry.specs.Ranges.{IsOrigin, IsMoved, IsRectReached};

use crate::origins::origin;
use crate::rects::moved_back;
use crate::roots::{root_bounds, root_origin};
use crate::shown::Shown;
use candidate_index::{Scene, Standing};
use element_tree::NodeId;
use intersection_observer::{Finding, Root};
use kept_findings::Tells;
use px_units::{Point, Rect};

// Maps the box of a target, given its relation to the root: zeros, which aren't moved, if the chain doesn't lead to the root.
fn told_box(standing: Standing, from: Point, rect: Rect) -> Rect
    requires from { IsOrigin 64 from }
    requires rect { IsMoved rect }
    ensures value { (relation : Relation) → standing ≡ standing_in relation → result ≡ told_box relation from rect }
    ensures range { IsRectReached result }
{
    match standing {
        Standing::Chained => moved_back(from, rect),
        Standing::Apart | Standing::NoBox => rect,
    }
}

// Maps the visible part of a target, zeros if it isn't visible.
fn told_cut(meets: bool, from: Point, cut: Rect) -> Rect
    requires from { IsOrigin 64 from }
    requires cut { IsMoved cut }
    ensures value { result ≡ told_cut meets from cut }
    ensures range { IsRectReached result }
{
    if meets { moved_back(from, cut) } else { cut }
}

impl Tells for Shown<'_> {
    ghost use Rattle.page_geometry.specs.Ranges.{IsReached};
    ghost use Rattle.page_geometry.specs.Scenes.{telling_of};

    ghost telling = { telling_of };

    ghost reaches = { IsReached };

    fn told(&self, root: Root, target: NodeId, found: Finding) -> Finding {
        let from = origin(self, self.document_of(target));
        // Yields a bound on the root rectangle before root margins were applied.
        root_bounds(self, root);
        Finding {
            root: moved_back(root_origin(self, root), found.root),
            target: told_box(self.standing(root, target), from, found.target),
            cut: told_cut(found.meets, from, found.cut),
            ..found
        }
    }
}

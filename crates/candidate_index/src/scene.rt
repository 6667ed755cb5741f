//! What a page must provide: the relation of targets to roots.

ghost use Rattle.std.specs.Prelude.{◌≡◌};
ghost use Rattle.intersection_observer.specs.Seen.{seen_root};

use clip_chain::{Geometry, Scrolls, Through};
use element_tree::NodeId;
use intersection_observer::Root;

/// How a target relates to a root (Intersection Observer, 3.2.10).
#[derive(Clone, Copy, Debug, PartialEq, Eq)]
pub enum Standing {
    /// The root isn't implicit and the target is in another document, or the root is an element that isn't on the target's
    /// chain of containing blocks, or one of the two has no box.
    Apart,
    /// Not `Apart`, but the target has no box.
    NoBox,
    /// The chain of containers leads from the target to the root.
    Chained,
}

/// Current containers, clips and boxes, and the relation of targets to roots.
pub trait Scene: Geometry {
    ghost use Rattle.std.specs.Prelude.{ℕ};
    ghost use Rattle.page_model.specs.World.{Root as ModelRoot};
    ghost use Rattle.candidate_index.specs.declared.scene.Standing.{Standing as StandingOf};

    /// The relation of the target with this number to a root.
    ghost standings: { Self → ModelRoot → ℕ → StandingOf };

    /// Returns how a target relates to a root.
    fn standing(&self, root: Root, target: NodeId) -> Standing
        ensures { result ≡ standings self.now (seen_root root) target.0 };
}

// Scroll margins don't affect how targets relate to roots.
impl<S: Scene + Scrolls> Scene for Through<'_, S> {
    ghost standings = { λ it. S.standings it.geometry.now };

    fn standing(&self, root: Root, target: NodeId) -> Standing {
        self.geometry.standing(root, target)
    }
}

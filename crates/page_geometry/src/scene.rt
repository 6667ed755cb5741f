//! The relation of targets to roots on a page.

use crate::relations::is_apart;
use crate::shown::Shown;
use candidate_index::{Scene, Standing};
use element_tree::NodeId;
use intersection_observer::Root;

impl Scene for Shown<'_> {
    ghost use Rattle.page_geometry.specs.Scenes.{standings_of};

    ghost standings = { standings_of };

    fn standing(&self, root: Root, target: NodeId) -> Standing {
        if is_apart(self, root, target) {
            Standing::Apart
        } else if self.has_box(target) {
            Standing::Chained
        } else {
            Standing::NoBox
        }
    }
}

//! The geometry seen through scroll margins.

ghost use Rattle.std.specs.Prelude.{◌≡◌, false};
ghost use Rattle.clip_chain.specs.Scenes.{through};

use crate::{Geometry, Scrolls};
use element_tree::Container;
use px_units::Rect;
use thresholds::Margins;

/// A geometry as an observer with this root and these scroll margins sees it: the margins move the clip of each scroll
/// container other than the root outward, percentages being of the clip's width on all sides (Intersection Observer, 2.2:
/// scrollMargin). Nothing else differs.
#[derive(Drop)]
pub struct Through<'a, G: Scrolls> {
    pub geometry: &'a G,
    pub root: Container,
    pub margins: Margins,
}

impl<G: Scrolls> Through<'_, G> {
    // Whether margins move the clip of a spot.
    fn is_moved(&self, of: Container) -> bool
        ensures moved { result ≡ (through self.now.root self.now.margins (G.scene self.now.geometry.now)).moved of }
        ensures before { (G.scene self.now.geometry.now).moved of ≡ false }
    {
        self.geometry.scrolls(of) && self.root != of
    }
}

impl<G: Scrolls> Geometry for Through<'_, G> {
    ghost use Rattle.clip_chain.specs.Scenes.{through};

    ghost scene = { λ it. through it.root it.margins (G.scene it.geometry.now) };

    ghost rank = { λ it. G.rank it.geometry.now };

    fn container(&self, of: Container) -> Option<Container> {
        self.geometry.container(of)
    }

    fn clip(&self, of: Container) -> Option<Rect> {
        let clip = self.geometry.clip(of)?;
        if self.is_moved(of) {
            Some(self.margins.dilate(clip))
        } else {
            Some(clip)
        }
    }

    fn bounds(&self, of: Container) -> Rect {
        self.geometry.bounds(of)
    }
}

//! What a page must provide: containers, clips and boxes.

ghost use Rattle.std.specs.Prelude.{◌≡◌, ◌<◌, false, IfSome};
ghost use Rattle.clip_chain.specs.Ranges.{IsClip, IsBounds};

use element_tree::Container;
use px_units::Rect;

/// The current container, clip and box of each spot: a link in a chain, an element or the viewport of a document. Rectangles
/// are in units of 1/64 CSS pixel and in the coordinates of the top document's viewport.
pub trait Geometry {
    ghost use Rattle.std.specs.Prelude.{ℕ};
    ghost use Rattle.element_tree.specs.declared.container.Container.{Container as ContainerOf};
    ghost use Rattle.clip_chain.specs.Scenes.{Scene};

    /// The whole geometry, by spot.
    ghost scene: { Self → Scene };

    /// An upper bound on the length of the chain outwards from a spot: lower for its container.
    ghost rank: { Self → ContainerOf → ℕ };

    /// Returns the container of a spot: for an element its containing block (another element or its document's viewport), for
    /// the viewport of a nested document the frame element. `None` for the viewport of the top document and for an element
    /// without a box. Every chain is finite.
    fn container(&self, of: Container) -> Option<Container>
        ensures container { result ≡ (scene self.now).container of }
        ensures end { IfSome result (λ next. rank self.now next < rank self.now of) };

    /// Returns the rectangle that a spot clips its content to: the padding box of an element that clips, the viewport of a
    /// document. `None` for an element that doesn't clip or has no box. Each edge lies between -2^48 and 2^48, the width
    /// between -2^42 and 2^42, unless it was moved by scroll margins.
    fn clip(&self, of: Container) -> Option<Rect>
        ensures clip { result ≡ (scene self.now).clip of }
        ensures range { (scene self.now).moved of ≡ false → IfSome result IsClip };

    /// Returns the border box of an element, zeros without a box, or the viewport of a document. Each edge lies between -2^48
    /// and 2^48, width and height from 0 to 2^40.
    fn bounds(&self, of: Container) -> Rect
        ensures bounds { result ≡ (scene self.now).bounds of }
        ensures range { IsBounds result };
}

/// A geometry without scroll margins applied, which also tells which spots are scroll containers.
pub trait Scrolls: Geometry {
    /// Whether a spot is an element that clips its content and whose content can be scrolled, so that scroll margins apply to
    /// its clip (Intersection Observer, 2.2: scrollMargin). False for the viewport of a document.
    fn scrolls(&self, of: Container) -> bool
        ensures scrolls { result ≡ (Self.scene self.now).scrolls of }
        ensures unmoved { (Self.scene self.now).moved of ≡ false };
}

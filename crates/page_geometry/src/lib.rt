//! The current geometry of a page, or of one document of it: boxes, sizes, places, scroll ranges and offsets; and for a page
//! the containers, clips and boxes in the coordinates of the top document's viewport, the relation of targets to the roots of
//! intersection observers, and the mapping of findings to document coordinates (CSS 2.2, 8 to 11; CSSOM View, 4 to 6;
//! Intersection Observer, 2.2, 3.2.7 and 3.2.10). All lengths are in units of 1/64 CSS pixel.
//!
//! Boxes, elements and scroll positions are borrowed, and nothing but `with_documents` allocates.
#![tactic(auto)]

mod documents;
mod geometry;
mod laws;
mod meant;
mod origins;
mod page_readings;
mod readings;
mod rects;
mod relations;
mod roots;
mod scene;
mod scrolled;
mod shown;
mod shown_document;
mod sizes;
mod telling;
mod view;

pub use laws::{chains_lead_to_roots, what_is_told_is_found};
pub use meant::document_of_container;
pub use readings::Reading;
pub use shown::Shown;
pub use shown_document::ShownDocument;

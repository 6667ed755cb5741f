//! The boxes of a page's documents: whether an element has one, sizes, the size of a document's viewport, and within one
//! document places, scroll ranges and scroll offsets (CSS 2.2, 8 to 11; CSS Overflow 3, 2.2; CSSOM View, 4 to 6). All lengths
//! are in units of 1/64 CSS pixel.
//!
//! The boxes are cached beside the page in a `Kept`, which gets a slot for each element when it is created, and marks where
//! the page changes. `refresh` recomputes what is due in all documents, `refresh_in` in one and its ancestor documents, and
//! `refresh_for` what one reading depends on; a reading computes no box and doesn't allocate, except `boxed_offsets`. The
//! stored scroll positions are supplied by the caller.
#![tactic(auto)]

mod climb;
mod documents;
mod exact;
mod found;
mod in_force;
mod laid_out;
mod laws;
mod layout;
mod least;
mod offsets;
mod ranges;
mod readings;
mod screens;

pub use documents::{
    ShownRoot, box_below, has_box, has_box_below, root_above, shown_root, shown_root_below,
    viewport_below, viewport_of,
};
pub use exact::undue_boxes_are_exact;
pub use found::boxed_offsets;
pub use in_force::{boxed_offset, is_at_start, shown_offset};
pub use laws::nothing_kept_fits;
pub use layout::{refresh, refresh_for, refresh_in};
pub use offsets::place_in;
pub use ranges::{boxed_range, is_scroller, shown_range};
pub use readings::size_of;
pub use screens::{Screen, size_on};

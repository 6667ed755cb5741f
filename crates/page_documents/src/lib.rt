//! The documents of a page: the life cycle of a document in a frame, and the tree of documents that frames form (HTML, 4.8.5
//! and 7.3; DOM, 4.2.3 and 4.5).
#![tactic(auto)]

mod adoption;
mod documents;
mod entry;
mod finding;
mod found;
mod laws;
mod owned;

pub use documents::Documents;
pub use entry::DocumentState;
pub use found::MOST_DOCUMENTS;
pub use laws::{
    making_elements_keeps_frames, making_frames_keeps_frames, placing_keeps_frames,
    removing_keeps_frames, styles_keep_frames, the_opening_tree_is_framed,
};
pub use owned::Owned;

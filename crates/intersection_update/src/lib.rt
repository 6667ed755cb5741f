//! The update of a document's intersection observations: computes the stale findings and settles them (Intersection Observer,
//! 3.2.10: run the update intersection observations steps). All lengths are in units of 1/64 CSS pixel, times in
//! milliseconds.
#![tactic(auto)]

mod laws;
mod rooted;
mod settling;

pub use laws::{a_further_update_is_no_news, an_update_settles_each_registration_once};
pub use rooted::{have_entries, is_watched, watchers_of};
pub use settling::{tell_serials, update};

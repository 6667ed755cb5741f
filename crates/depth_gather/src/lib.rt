//! Gathers resize observations at a depth, and delivers them observer by observer while callbacks change the lists (Resize
//! Observer, 3.4).
//!
//! Sizes, corners and depths are queried from the caller when needed, so nothing is cached here. A delivery is found by an
//! index among a document's observers and owns its entries, so nothing is borrowed while the callback runs. Only
//! `next_delivery` allocates.
#![tactic(auto)]

mod deliveries;
mod entries;
mod gathering;
mod laws;
mod observation;
mod sizes;
mod turns;

pub use deliveries::{Delivery, end_delivery, least_depth, next_delivery};
pub use entries::{ResizeEntry, ResizeList};
pub use gathering::gather;
pub use laws::{
    entries_are_those_of_a_broadcast, something_is_active_where_it_is_counted,
    turns_are_those_of_a_broadcast,
};
pub use sizes::Sizes;
pub use turns::has_skipped;

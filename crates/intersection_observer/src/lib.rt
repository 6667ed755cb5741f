//! The intersection observers of a page with their registrations and their queues of entries (Intersection Observer, 3.1
//! and 3.2).
#![tactic(auto)]

mod entry;
mod laws;
mod registration;
mod root;
mod watcher;
mod watchers;

pub use entry::{Entry, EntryList, Finding};
pub use laws::{
    settling_each_observer_is_an_update, settling_each_registration_settles_the_observer,
    settling_without_news_changes_nothing,
};
pub use registration::{RegistrationId, Settled};
pub use root::{Root, WatcherId};
pub use watchers::{WatchFault, Watchers};

//! Static certificates for scripts: which commands the handlers of resize observers may contain so that resize loops always go deeper, or
//! never end with an error.
#![tactic(auto, unfolding(crate::specs::Examples::seen))]

mod check;
pub mod examples;
mod kinds;
pub mod laws;
mod marks;
mod search;

pub use check::{blame, lint};
pub use kinds::{Law, Verdict};

//! Worked examples of the definitions: scripts and the traces that they must have, computed from bytes to bytes.
#![tactic(auto, unfolding(page_model::specs::Outcome::trace, page_model::specs::Outcome::check_text, page_model::specs::Outcome::summary_of, script_model::specs::Generator::generated))]

pub mod commanding;
pub mod counting;
pub mod intersecting;
pub mod positioning;
pub mod resizing;
pub mod ticking;

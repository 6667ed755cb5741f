//! Compares recorded traces with expected ones: whether they are equal, and otherwise where and how they first differ.
#![tactic(auto)]

mod comparison;
mod judgement;
mod laws;
mod recording;

pub use comparison::judge;
pub use judgement::{How, Judgement};
pub use laws::{
    a_source_is_its_parts, equal_exactly_where_the_same, lines_before_a_difference_are_the_same,
    lines_make_the_text, what_a_trace_line_is,
};
pub use recording::is_divider;

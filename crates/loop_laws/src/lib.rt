//! Laws about the resize loop and the queued tasks.
#![tactic(auto, unfolding(crate::specs::Examples::loop_seen))]

mod counts;
mod deepening;
mod examples;
mod listing;
mod rounds;
mod tasks;

pub use counts::{moments_are_the_commands_begun, nothing_changes_while_no_command_begins};
pub use deepening::{loops_go_deeper, loops_have_few_rounds, rounds_go_deeper};
pub use examples::{
    a_second_round_is_deeper, depths_fall_where_commands_uproot,
    to_remove_what_stands_nowhere_uproots_nothing,
};
pub use listing::{all_loops_are_listed, listed_loops_are_exact};
pub use rounds::{loop_errors_are_exact, resize_loops_come_to_rest};
pub use tasks::runs_of_tasks_come_to_rest;

//! The tests of whole scripts, over what the crates that run and read them offer in public.
#![tactic(auto)]

#[cfg(test)]
mod common;
#[cfg(test)]
mod handlers_tests;
#[cfg(test)]
mod line_sink_tests;
#[cfg(test)]
mod live_page_tests;
#[cfg(test)]
mod loop_lint_tests;
#[cfg(test)]
mod page_listing_tests;
#[cfg(test)]
mod page_names_tests;
#[cfg(test)]
mod page_sights;
#[cfg(test)]
mod replay_run_forms;
#[cfg(test)]
mod replay_run_judging;
#[cfg(test)]
mod replay_run_limits;
#[cfg(test)]
mod replay_run_pages;
#[cfg(test)]
mod replay_run_print;
#[cfg(test)]
mod replay_run_scripts;
#[cfg(test)]
mod replay_run_tests;
#[cfg(test)]
mod same;

// Nothing stands on the tests, so they are a program, which does nothing by itself: for a library the gate would sum up all crates below it
// twice, along every path of crates.txt.
fn main(_rt: HostRuntime) {}

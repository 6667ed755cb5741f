//! The tests of the observers and of what stands beside them, over what their crates offer in public.
#![tactic(auto)]

#[cfg(test)]
mod candidate_index_tests;
#[cfg(test)]
mod clip_chain_tests;
#[cfg(test)]
mod common;
#[cfg(test)]
mod depth_gather_tests;
#[cfg(test)]
mod event_tables_tests;
#[cfg(test)]
mod intersection_observer_tests;
#[cfg(test)]
mod kept_clips_tests;
#[cfg(test)]
mod readme_examples;
#[cfg(test)]
mod resize_observer_tests;
#[cfg(test)]
mod same;
#[cfg(test)]
mod scrolling_tests;
#[cfg(test)]
mod thresholds_tests;

//! The tests of the crates of trees and boxes, from `number_map` to `kept_layout`, a module for each, over what they offer in
//! public.
#![tactic(auto)]

#[cfg(test)]
mod block_layout_tests;
#[cfg(test)]
mod element_tree_tests;
#[cfg(test)]
mod elements;
#[cfg(test)]
mod kept_layout_tests;
#[cfg(test)]
mod layout_model_tests;
#[cfg(test)]
mod number_map_tests;
#[cfg(test)]
mod readme_examples;
#[cfg(test)]
mod same;

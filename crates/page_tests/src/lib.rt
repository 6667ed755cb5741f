//! The tests of the page, its layout and its observers, over what their crates offer in public.
#![tactic(auto)]

#[cfg(test)]
mod common;
#[cfg(test)]
mod page_boxes_tests;
#[cfg(test)]
mod page_documents_tests;
#[cfg(test)]
mod page_geometry_tests;
#[cfg(test)]
mod page_layout_tests;
#[cfg(test)]
mod page_tree_tests;
#[cfg(test)]
mod readme_examples;
#[cfg(test)]
mod same;

//! Streams of pages: the scripts in one source, run side by side, each on a page of its own.
#![tactic(auto)]

mod named;
mod side_by_side;
mod stream_page;

pub use side_by_side::run_pages;

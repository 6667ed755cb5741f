//! Streams of pages: the scripts of several pages in one source, with lines that switch from page to page.
#![tactic(auto)]

mod fault;
mod page_line;
mod splitting;
mod stream;

pub use fault::StreamFault;
pub use stream::{Part, Stream, split};

//! Byte sources and sinks that count their failed calls, reading and writing of whole texts, and the
//! names and kinds that scripts and traces share.
#![tactic(auto)]

mod kinds;
mod memory;
mod name;
mod std_streams;
mod streams;

pub use kinds::{EventKind, LimitKind, ThrowKind, Version};
pub use memory::{MemorySink, MemorySource};
pub use name::Name;
pub use std_streams::{StdSink, StdSource};
pub use streams::{Failed, Sink, Source, TextFault, line_feeds, read_all, write_all};

//! Sources and sinks in memory of which one call fails, or none.

use std::alloc::{AllocError, Global};
use text_io::{MemorySink, MemorySource};

// The numbers of the calls that fail: one or none.
fn calls(alloc: Global, failing: Option<u64>) -> Result<Vec<u64>, AllocError> {
    let mut calls = Vec::new(alloc);
    if let Some(call) = failing {
        calls.push(call)?;
    }
    Ok(calls)
}

/// A source of these bytes, which gives at most `piece` of them a call.
pub fn source(
    alloc: Global,
    bytes: &[u8],
    piece: usize,
    failing: Option<u64>,
) -> Result<MemorySource, AllocError> {
    let bytes = bytes.to_vec(alloc)?;
    Ok(MemorySource::new(bytes, piece, calls(alloc, failing)?))
}

/// A sink with room for `room` bytes, which takes at most `piece` of them a call.
pub fn sink(
    alloc: Global,
    room: usize,
    piece: usize,
    failing: Option<u64>,
) -> Result<MemorySink, AllocError> {
    MemorySink::new(alloc, room, piece, calls(alloc, failing)?)
}

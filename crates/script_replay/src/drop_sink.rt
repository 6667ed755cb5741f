//! A sink for a trace that isn't written.

ghost use Rattle.std.specs.Prelude.{◌≡◌, ◌<◌, None};

use text_io::{Failed, Sink};

/// A sink that takes and drops whatever is written to it, and so needs no memory. No write fails. A contract doesn't see the bytes.
#[derive(Drop)]
pub struct DropSink {}

impl Sink for DropSink {
    ghost taken = { λ sink. None };

    ghost faults = { λ sink. 0 };

    fn write(&mut self, piece: &[u8]) -> Result<usize, Failed> {
        Ok(piece.len())
    }
}

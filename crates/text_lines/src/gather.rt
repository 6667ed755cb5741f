//! A sink that collects bytes in memory.

ghost use Rattle.std.specs.Prelude.{◌≡◌, ◌<◌, ◌≤◌, ◌++◌, length, [], Some, IfOk, OnOk, OnErr};
ghost use Rattle.std.specs.Io.KnownBytes.{WriteAppends};
ghost use Rattle.text_io.specs.Memory.{next_count};
ghost use Rattle.text_io.specs.Streams.{Rose};

use std::alloc::Global;
use std::marker::Model;
use text_io::{Failed, Sink};

/// A sink that collects all bytes in memory. A contract sees these bytes and the number of failed writes.
#[derive(Drop)]
pub struct GatherSink {
    bytes: Vec<u8>,
    faults: u64,
}

impl Model for GatherSink {
    ghost use Rattle.text_lines.specs.Gathered.{Gathered};

    ghost Value = { Gathered };

    ghost view = { λ s. record { taken = s.bytes.items; faults = s.faults } };
}

impl GatherSink {
    /// Creates an empty sink; allocates nothing.
    pub fn new(alloc: Global) -> GatherSink
        ensures { result ≡ record { taken = []; faults = 0 } }
    {
        GatherSink {
            bytes: Vec::new(alloc),
            faults: 0,
        }
    }

    /// Returns the bytes taken so far.
    pub fn taken(&self) -> &[u8]
        ensures { result.now ≡ self.now.taken }
    {
        self.bytes.as_slice()
    }
}

impl Sink for GatherSink {
    ghost taken = { λ s. Some s.taken };

    ghost faults = { λ s. s.faults };

    /// Takes the whole piece. Fails only if an allocation fails; the fault count, which saturates at 2^64 - 1, rises only
    /// then.
    fn write(&mut self, piece: &[u8]) -> Result<usize, Failed>
        requires { 0 < length piece.now }
        ensures whole { IfOk result (λ n. n ≡ length piece.now) }
        ensures takes { OnOk result (self.new ≡ record self.old { taken = self.old.taken ++ piece.now }) }
        ensures refuses { OnErr result (self.new ≡ record self.old { faults = next_count self.old.faults }) }
        ensures some { IfOk result (λ n. 0 < n) }
        ensures within { IfOk result (λ n. n ≤ length piece.now) }
        ensures bytes { WriteAppends (Some self.old.taken) (Some self.new.taken) result piece.now }
        ensures failed { OnErr result (Rose self.old.faults self.new.faults) }
        ensures only_by_failing { OnOk result (self.new.faults ≡ self.old.faults) }
        ensures never_falls { self.old.faults ≤ self.new.faults }
    {
        match self.bytes.extend_from_slice(piece) {
            Ok(()) => Ok(piece.len()),
            Err(_) => {
                self.faults = self.faults.saturating_add(1);
                Err(Failed)
            }
        }
    }
}

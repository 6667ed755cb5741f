ghost use Rattle.std.specs.Prelude.{◌≡◌, ◌<◌, ◌≤◌, length, OnOk, OnErr, IfOk};
ghost use Rattle.text_io.specs.Memory.{next_count};
ghost use Rattle.std.specs.Io.KnownBytes.{ReadConsumes, WriteAppends};
ghost use Rattle.std.specs.Io.{ReadsAtMost};
ghost use Rattle.text_io.specs.Streams.{Rose};

use crate::streams::{Failed, Sink, Source};
use std::io::{Read, Write};
use std::marker::Model;

/// A std reader as a source. It specifies the bytes left if the reader does, and counts each read that
/// failed. A contract sees these two.
#[derive(Drop)]
pub struct StdSource<R: Read> {
    inner: R,
    faults: u64,
}

impl<R: Read> Model for StdSource<R> {
    ghost use Rattle.text_io.specs.Edges.{Reading};

    ghost Value = { Reading };

    ghost view = { λ s. record { left = R.remaining s.inner; faults = s.faults } };
}

impl<R: Read> StdSource<R> {
    /// Creates a source that reads from `inner`, with a fault count of 0.
    pub fn new(inner: R) -> StdSource<R>
        ensures { result ≡ record { left = R.remaining inner; faults = 0 } }
    {
        StdSource { inner, faults: 0 }
    }
}

impl<R: Read> Source for StdSource<R> {
    ghost left = { λ s. s.left };

    ghost faults = { λ s. s.faults };

    fn read(&mut self, into: &mut [u8]) -> Result<usize, Failed>
        requires { 0 < length into.old }
        ensures counted { OnErr result (self.new.faults ≡ next_count self.old.faults) }
        ensures within { ReadsAtMost result into.new }
        ensures bytes { ReadConsumes self.old.left self.new.left result into.new }
        ensures failed { OnErr result (Rose self.old.faults self.new.faults) }
        ensures only_by_failing { OnOk result (self.new.faults ≡ self.old.faults) }
        ensures never_falls { self.old.faults ≤ self.new.faults }
    {
        match self.inner.read(into) {
            Ok(count) => Ok(count),
            Err(_) => {
                self.faults = self.faults.saturating_add(1);
                Err(Failed)
            }
        }
    }
}

/// A std writer as a sink. It specifies the bytes taken if the writer does, and counts each write that
/// failed or took no byte, which is a failure too. A contract sees these two.
#[derive(Drop)]
pub struct StdSink<W: Write> {
    inner: W,
    faults: u64,
}

impl<W: Write> Model for StdSink<W> {
    ghost use Rattle.text_io.specs.Edges.{Writing};

    ghost Value = { Writing };

    ghost view = { λ s. record { taken = W.contents s.inner; faults = s.faults } };
}

impl<W: Write> StdSink<W> {
    /// Creates a sink that writes to `inner`, with a fault count of 0.
    pub fn new(inner: W) -> StdSink<W>
        ensures { result ≡ record { taken = W.contents inner; faults = 0 } }
    {
        StdSink { inner, faults: 0 }
    }
}

impl<W: Write> Sink for StdSink<W> {
    ghost taken = { λ s. s.taken };

    ghost faults = { λ s. s.faults };

    fn write(&mut self, piece: &[u8]) -> Result<usize, Failed>
        requires { 0 < length piece.now }
        ensures counted { OnErr result (self.new.faults ≡ next_count self.old.faults) }
        ensures some { IfOk result (λ n. 0 < n) }
        ensures within { IfOk result (λ n. n ≤ length piece.now) }
        ensures bytes { WriteAppends self.old.taken self.new.taken result piece.now }
        ensures failed { OnErr result (Rose self.old.faults self.new.faults) }
        ensures only_by_failing { OnOk result (self.new.faults ≡ self.old.faults) }
        ensures never_falls { self.old.faults ≤ self.new.faults }
    {
        match self.inner.write(piece) {
            Ok(count) if count > 0 => Ok(count),
            _ => {
                self.faults = self.faults.saturating_add(1);
                Err(Failed)
            }
        }
    }
}

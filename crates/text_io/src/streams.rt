ghost use Rattle.std.specs.Prelude.{◌≡◌, ℕ, ◌+◌, ◌^◌, ◌<◌, ◌≤◌, ◌==◌, List, [], length, vec_len, count_by, Option, IfOk, IfErr, OnOk, OnErr, IfSome};
ghost use Rattle.std.specs.Io.KnownBytes.{ReadConsumes, WriteAppends, Appends};
ghost use Rattle.std.specs.Io.{ReadsAtMost};
ghost use Rattle.text_io.specs.Streams.{Rose, IsCauseOfReading, TakesAtMost, TakesPart};

use std::alloc::Global;
use thiserror::Error;

/// A read or a write that failed.
#[derive(Clone, Copy, Debug, PartialEq, Eq)]
pub struct Failed;

/// Why a whole text couldn't be read or written.
#[derive(Clone, Copy, Debug, PartialEq, Eq, Error)]
pub enum TextFault {
    /// A read failed.
    #[error("a read failed")]
    ReadFault,
    /// A write failed.
    #[error("a write failed")]
    WriteFault,
    /// The source gave more bytes than the limit allows.
    #[error("more bytes than the limit allows")]
    TooLong {
        /// The number of line feeds among the bytes within the limit.
        feeds: u32,
    },
    /// Out of memory.
    #[error("out of memory")]
    Memory,
}

/// A source of bytes, which it gives in pieces.
pub trait Source {
    // The bytes left, if the source specifies them.
    ghost left: { Self → Option (List ℕ) };

    // How many reads failed; the count saturates.
    ghost faults: { Self → ℕ };

    /// Reads the next bytes into the start of the buffer, and returns how many. It returns 0 exactly at the end. The rest of
    /// the buffer is unspecified. A read that fails consumes nothing, and is counted.
    fn read(&mut self, into: &mut [u8]) -> Result<usize, Failed>
        requires { 0 < length into.old }
        ensures within { ReadsAtMost result into.new }
        ensures bytes { ReadConsumes (left self.old) (left self.new) result into.new }
        ensures failed { OnErr result (Rose (faults self.old) (faults self.new)) }
        ensures only_by_failing { OnOk result (faults self.new ≡ faults self.old) }
        ensures never_falls { faults self.old ≤ faults self.new };
}

/// A sink for bytes, which it takes in pieces.
pub trait Sink {
    // The bytes taken, if the sink specifies them.
    ghost taken: { Self → Option (List ℕ) };

    // How many writes failed; the count saturates.
    ghost faults: { Self → ℕ };

    /// Takes the first bytes of the piece, at least one, and returns how many. A write that fails takes nothing, and is
    /// counted.
    fn write(&mut self, piece: &[u8]) -> Result<usize, Failed>
        requires { 0 < length piece.now }
        ensures some { IfOk result (λ n. 0 < n) }
        ensures within { IfOk result (λ n. n ≤ length piece.now) }
        ensures bytes { WriteAppends (taken self.old) (taken self.new) result piece.now }
        ensures failed { OnErr result (Rose (faults self.old) (faults self.new)) }
        ensures only_by_failing { OnOk result (faults self.new ≡ faults self.old) }
        ensures never_falls { faults self.old ≤ faults self.new };
}

// The most bytes per read.
const PIECE: usize = 4096;

/// Reads all the bytes that the source has left, at most `limit`; the source is then at its end.
///
/// # Errors
/// - `ReadFault` only where the source's fault count rose in this call.
/// - `TooLong` only where the source had more than `limit` bytes left; `limit + 1` of them have been consumed.
/// - `Memory` if an allocation fails.
pub fn read_all<S: Source>(
    alloc: Global,
    source: &mut S,
    limit: usize,
) -> Result<Vec<u8>, TextFault>
    requires { limit < 2 ^ 32 }
    ensures all { IfOk result (λ bytes. IfSome (S.left source.old) (λ text. bytes.items ≡ text)) }
    ensures end { OnOk result (IfSome (S.left source.old) (λ _. S.left source.new ≡ Some [])) }
    ensures within { IfOk result (λ bytes. vec_len bytes ≤ limit) }
    ensures fault { IfErr result (λ fault. IsCauseOfReading fault (S.left source.old) (S.left source.new) limit
        (S.faults source.old) (S.faults source.new)) }
    ensures only_by_failing { OnOk result (S.faults source.new ≡ S.faults source.old) }
    ensures never_falls { S.faults source.old ≤ S.faults source.new }
    ensures at_most { TakesAtMost (S.left source.old) (S.left source.new) (limit + 1) }
{
    let mut bytes = Vec::new(alloc);
    let mut buffer = [0u8; PIECE];
    while bytes.len() <= limit {
        let room = (limit + 1 - bytes.len()).min(PIECE);
        match source.read(&mut buffer[..room]) {
            Err(Failed) => return Err(TextFault::ReadFault),
            Ok(0) => return Ok(bytes),
            Ok(given) => bytes
                .extend_from_slice(&buffer[..given])
                .map_err(|_| TextFault::Memory)?,
        }
    }
    let feeds = line_feeds(&bytes[..limit]);
    Err(TextFault::TooLong { feeds })
}

/// Returns the number of line feeds. Allocates nothing.
pub fn line_feeds(bytes: &[u8]) -> u32
    requires { length bytes.now < 2 ^ 32 }
    ensures number { result ≡ count_by (λ b. b == 10) bytes.now }
    ensures bound { result ≤ length bytes.now }
{
    bytes.iter().filter(|byte| **byte == b'\n').count() as u32
}

/// Writes the whole piece to the sink, in as many writes as it takes; none for an empty piece. Allocates nothing.
///
/// # Errors
/// `WriteFault`, and no other fault, only where the sink's fault count rose in this call; a proper prefix of the piece has
/// been taken then.
pub fn write_all<K: Sink>(sink: &mut K, bytes: &[u8]) -> Result<(), TextFault>
    ensures whole { OnOk result (Appends (K.taken sink.old) (K.taken sink.new) bytes.now) }
    ensures part { OnErr result (TakesPart (K.taken sink.old) (K.taken sink.new) bytes.now) }
    ensures fault { IfErr result (λ fault. fault ≡ TextFault.WriteFault) }
    ensures failed { OnErr result (Rose (K.faults sink.old) (K.faults sink.new)) }
    ensures only_by_failing { OnOk result (K.faults sink.new ≡ K.faults sink.old) }
    ensures never_falls { K.faults sink.old ≤ K.faults sink.new }
    ensures nothing { length bytes.now ≡ 0 → sink.new ≡ sink.old }
{
    let mut done = 0;
    while done < bytes.len() {
        match sink.write(&bytes[done..]) {
            Ok(taken) => done += taken,
            Err(Failed) => return Err(TextFault::WriteFault),
        }
    }
    Ok(())
}

//! A sink that gathers bytes before it writes them, so that the system is called once for many lines.

ghost use Rattle.std.specs.Prelude.{◌≡◌, ◌<◌, ◌≤◌, ℕ, List, [], ◌+◌, ◌++◌, vec_len, Option, None, if◌then◌else◌, IsOk, OnOk, OnErr};
ghost use Rattle.std.specs.Io.KnownBytes.{Appends, Keeps, append_known};
ghost use Rattle.text_io.specs.Streams.{Rose};
ghost use Rattle.trace_runs.specs.Writes.{AppendsPart};
ghost use Rattle.replay.specs.Gathered.{BeginsWith};

use std::alloc::Global;
use std::marker::{Brand, Model, PhantomData};
use text_io::{Failed, Sink};

/// The bytes that a sink had taken before a gathering one was made of it, if they are known.
pub(crate) trait Before {
    ghost taken: { Option (List ℕ) };
}

impl Before for Brand {
    ghost taken = { None };
}

// The most bytes that are gathered.
const ROOM: usize = 65_536;

/// Takes bytes for another sink, and passes them on when there is no room for more. A contract sees the other sink and the bytes that are
/// still to be passed on to it, which are lost if it is dropped.
#[derive(Drop)]
pub(crate) struct Gathering<K: Sink, B: Before> {
    inner: K,
    bytes: Vec<u8>,
    // How many of the bytes were passed on before a write failed.
    passed: usize,
    before: PhantomData<B>,
}

impl<K: Sink, B: Before> Model for Gathering<K, B> {
    ghost use Rattle.std.specs.Prelude.{◌≤◌, drop, vec_len};
    ghost use Rattle.replay.specs.Gathered.{Gathered, BeginsWith};

    ghost Value = { Gathered K };

    ghost view = { λ s. record { inner = s.inner; gathered = drop s.passed s.bytes.items } };

    ghost invariant = { λ s. (s.passed ≤ vec_len s.bytes) × BeginsWith (K.taken s.inner) B.taken };
}

// Appends a piece if there is room for it, and returns whether there was.
fn gather(bytes: &mut Vec<u8>, piece: &[u8]) -> bool
    ensures items { bytes.new.items ≡ (if result then bytes.old.items ++ piece.now else bytes.old.items) }
    ensures len { vec_len bytes.old ≤ vec_len bytes.new }
{
    piece.len() <= bytes.capacity() - bytes.len() && bytes.extend_from_slice(piece).is_ok()
}

impl<K: Sink, B: Before> Gathering<K, B> {
    /// Gathers nothing yet. Where there is no memory for it, each piece is passed on as it comes.
    pub(crate) fn new(alloc: Global, inner: K) -> Gathering<K, B>
        requires { K.taken inner ≡ B.taken }
        ensures { result ≡ record { inner = inner; gathered = [] } }
    {
        let mut bytes = Vec::new(alloc);
        // Without room nothing is gathered.
        let _ = bytes.reserve(ROOM);
        Gathering {
            inner,
            bytes,
            passed: 0,
            before: PhantomData,
        }
    }

    /// Passes on what is gathered. After a write that failed, what wasn't taken is still gathered.
    pub(crate) fn pass_on(&mut self) -> Result<(), Failed>
        ensures passed { OnOk result ((self.new.gathered ≡ []) × Appends (K.taken self.old.inner) (K.taken self.new.inner) self.old.gathered) }
        ensures part { OnErr result (AppendsPart (K.taken self.old.inner) (K.taken self.new.inner) self.old.gathered) }
        ensures taken { Keeps (append_known (K.taken self.old.inner) self.old.gathered) (append_known (K.taken self.new.inner) self.new.gathered) }
        ensures failed { OnErr result (Rose (K.faults self.old.inner) (K.faults self.new.inner)) }
        ensures only_by_failing { OnOk result (K.faults self.new.inner ≡ K.faults self.old.inner) }
        ensures never_falls { K.faults self.old.inner ≤ K.faults self.new.inner }
        ensures nothing { self.old.gathered ≡ [] → IsOk result × (self.new ≡ self.old) }
    {
        while self.passed < self.bytes.len() {
            self.passed += self.inner.write(&self.bytes[self.passed..])?;
        }
        self.bytes.clear();
        self.passed = 0;
        Ok(())
    }

    /// Hands back the sink that is written to, without what is still gathered.
    pub(crate) fn into_inner(self) -> K
        ensures inner { result ≡ self.inner }
        ensures begins { BeginsWith (K.taken result) B.taken }
    {
        self.inner
    }
}

impl<K: Sink, B: Before> Sink for Gathering<K, B> {
    ghost use Rattle.std.specs.Io.KnownBytes.{append_known};

    ghost taken = { λ s. append_known (K.taken s.inner) s.gathered };

    ghost faults = { λ s. K.faults s.inner };

    fn write(&mut self, piece: &[u8]) -> Result<usize, Failed> {
        if gather(&mut self.bytes, piece) {
            return Ok(piece.len());
        }
        self.pass_on()?;
        if gather(&mut self.bytes, piece) {
            return Ok(piece.len());
        }
        self.inner.write(piece)
    }
}

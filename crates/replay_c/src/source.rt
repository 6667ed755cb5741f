ghost use Rattle.std.specs.Prelude.{◌≡◌, ◌<◌, ◌≤◌, length, Some, OnOk, OnErr};
ghost use Rattle.std.specs.Io.KnownBytes.{ReadConsumes};
ghost use Rattle.std.specs.Io.{ReadsAtMost};
ghost use Rattle.text_io.specs.Streams.{Rose};
ghost use Rattle.replay_c.specs.Slices.{no_faults};

use std::marker::Model;
use text_io::{Failed, Source};

/// A source that gives the bytes of a slice. None of its reads fails. A contract sees the bytes left.
#[derive(Drop)]
pub struct SliceSource<'a> {
    bytes: &'a [u8],
}

impl<'a> Model for SliceSource<'a> {
    ghost use Rattle.std.specs.Prelude.{ℕ, List};

    ghost Value = { List ℕ };

    ghost view = { λ source. source.bytes.now };
}

impl<'a> SliceSource<'a> {
    /// Creates a source that gives these bytes.
    pub fn new(bytes: &'a [u8]) -> SliceSource<'a>
        ensures { result ≡ bytes.now }
    {
        SliceSource { bytes }
    }
}

impl<'a> Source for SliceSource<'a> {
    ghost left = { λ source. Some source };

    ghost faults = { λ source. no_faults };

    fn read(&mut self, into: &mut [u8]) -> Result<usize, Failed>
        requires { 0 < length into.old }
        ensures within { ReadsAtMost result into.new }
        ensures bytes { ReadConsumes (Some self.old) (Some self.new) result into.new }
        ensures failed { OnErr result (Rose no_faults no_faults) }
        ensures only_by_failing { OnOk result (no_faults ≡ no_faults) }
        ensures never_falls { no_faults ≤ no_faults }
    {
        let count = into.len().min(self.bytes.len());
        let (given, left) = self.bytes.split_at(count);
        into[..count].copy_from_slice(given);
        self.bytes = left;
        Ok(count)
    }
}

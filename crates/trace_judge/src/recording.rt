//! The line between a script and a recorded trace in one source.

ghost use Rattle.std.specs.Prelude.{◌≡◌};
ghost use Rattle.trace_judge.specs.Recordings.{is_divider};

/// Whether this is the line `trace`, which separates a script from its recorded trace. Allocates nothing.
///
/// Its line feed may be preceded by a carriage return, or missing at the end of the source.
pub fn is_divider(line: &[u8]) -> bool
    ensures { result ≡ is_divider line.now }
{
    line == b"trace".as_slice() || line == b"trace\n".as_slice() || line == b"trace\r\n".as_slice()
}

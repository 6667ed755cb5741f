//! Writing of texts line by line.

ghost use Rattle.std.specs.Prelude.{◌≡◌};
ghost use Rattle.run_replies.specs.Answers.{Tells};
ghost use Rattle.run_replies.specs.Replies.{done_with};

use crate::status::Status;
use text_io::{Sink, write_all};
use text_lines::split_line;

/// Writes a text line by line; no clause says how it is divided into writes.
///
/// Returns `WriteFault` only where the sink's fault count rose in this call; a prefix of the text was written then. Otherwise `Done`.
pub fn write_lines<K: Sink>(text: &[u8], sink: &mut K) -> Status
    ensures tells { Tells result (done_with text.now) (K.taken sink.old) (K.taken sink.new) (K.faults sink.old) (K.faults sink.new) }
    ensures memory { result ≡ Status.NoMemory → ⊥ }
{
    let mut rest = text;
    while !rest.is_empty() {
        let (line, behind) = split_line(rest);
        match write_all(sink, line) {
            Ok(()) => rest = behind,
            Err(_) => return Status::WriteFault,
        }
    }
    Status::Done
}

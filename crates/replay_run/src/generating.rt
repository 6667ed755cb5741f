//! The texts of generated scripts.

ghost use Rattle.std.specs.Prelude.{◌≡◌};
ghost use Rattle.script_model.specs.Generator.{generated};
ghost use Rattle.run_replies.specs.Answers.{Tells};
ghost use Rattle.run_replies.specs.Replies.{done_with};

use run_replies::{Status, write_lines};
use script_generator::text_of;
use std::alloc::Global;
use text_io::Sink;

/// Writes the text of the script that is generated from a number, line by line.
///
/// Returns `NoMemory` if an allocation fails, with nothing written; or `WriteFault`, only where the sink's fault count rose in this call, with
/// a prefix of the text written. Otherwise `Done`.
pub fn write_generated<K: Sink>(alloc: Global, number: u64, sink: &mut K) -> Status
    ensures tells { Tells result (done_with (generated number)) (K.taken sink.old) (K.taken sink.new) (K.faults sink.old) (K.faults sink.new) }
    ensures memory { result ≡ Status.NoMemory → sink.new ≡ sink.old }
{
    match text_of(alloc, number) {
        Ok(text) => write_lines(&text, sink),
        Err(_) => Status::NoMemory,
    }
}

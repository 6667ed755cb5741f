//! The reply with a printed script.

ghost use Rattle.std.specs.Prelude.{◌≡◌};
ghost use Rattle.script_text.specs.ScriptText.{printed};
ghost use Rattle.run_replies.specs.Answers.{Tells};
ghost use Rattle.run_replies.specs.Replies.{done_with};

use crate::lines::write_lines;
use crate::status::Status;
use script_print::print;
use script_syntax::Script;
use std::alloc::Global;
use text_io::Sink;

/// Writes the printed text of a script, line by line.
///
/// Returns `NoMemory` if an allocation fails, with nothing written; or `WriteFault`, only where the sink's fault count rose in this call, with
/// a prefix of the text written. Otherwise `Done`.
pub fn write_script<K: Sink>(alloc: Global, script: &Script, sink: &mut K) -> Status
    ensures tells { Tells result (done_with (printed script.now)) (K.taken sink.old) (K.taken sink.new) (K.faults sink.old) (K.faults sink.new) }
    ensures memory { result ≡ Status.NoMemory → sink.new ≡ sink.old }
{
    match print(alloc, script) {
        Ok(text) => write_lines(&text, sink),
        Err(_) => Status::NoMemory,
    }
}

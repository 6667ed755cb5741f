ghost use Rattle.std.specs.Prelude.{◌≡◌, ◌<◌, ◌≤◌, length, map, string_bytes, true, false};
ghost use Rattle.replay_c.specs.Answers.{Answers, IsLonger, IsPut, TellsNothing, unanswered};
ghost use Rattle.run_replies.specs.Statuses.{is_whole};
ghost use Rattle.run_replies.specs.Words.{asked};

use crate::source::SliceSource;
use replay_run::{Status, run_uncounted};
use std::alloc::Global;
use std::marker::Brand;
use std::sync::ledger::Blank;
use text_lines::GatherSink;

// Copies a text that was written whole to the start of the buffer if it fits there.
fn hand_over(status: Status, text: &[u8], reply: &mut [u8], needed: &mut usize) -> Status
    ensures put { is_whole status ≡ true → length text.now ≤ length reply.old → (result ≡ status) × IsPut text.now reply.old reply.new needed.new }
    ensures longer { is_whole status ≡ true → length reply.old < length text.now → (result ≡ Status.WriteFault) × IsLonger text.now reply.old reply.new needed.new }
    ensures nothing { is_whole status ≡ false → (result ≡ unanswered status) × TellsNothing reply.old reply.new needed.new }
{
    if !status.is_whole() {
        *needed = 0;
        return match status {
            Status::Usage => Status::Usage,
            // No read fails, and a write to memory fails only if an allocation fails.
            _ => Status::NoMemory,
        };
    }
    *needed = text.len();
    if reply.len() < text.len() {
        return Status::WriteFault;
    }
    reply[..text.len()].copy_from_slice(text);
    status
}

/// Does what the words ask for with these bytes, and puts the reply at the start of the buffer if it fits there. `needed` is its
/// length. The status is that of a run, but for `WriteFault`, which says that the reply is longer than the buffer.
pub fn answer(
    alloc: Global,
    words: &[String],
    source: &[u8],
    reply: &mut [u8],
    needed: &mut usize,
) -> Status
    ensures { Answers (asked (map string_bytes words.now)) source.now result reply.old reply.new needed.new }
{
    let mut bytes = SliceSource::new(source);
    let mut gathered = GatherSink::new(alloc);
    let report = run_uncounted::<_, _, Brand>(
        Blank::new(1),
        alloc,
        words,
        &mut bytes,
        &mut gathered,
    );
    hand_over(report.status, gathered.taken(), reply, needed)
}

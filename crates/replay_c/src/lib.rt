//! The program's jobs for callers in C, each from bytes to bytes in a buffer of the caller's.
//!
//! Each call returns the number of its status (`docs/TRACE.md`): 0, 1, 2 and 7 say that the reply is at the start of the buffer, whole;
//! 5 that it is longer than the buffer; 3 that memory ran out; 6 that a number or a length isn't one that the program takes. `needed` is
//! the length of the reply, or 0 if there is none. No other byte of the buffer changes.
#![tactic(auto)]

ghost use Rattle.std.specs.Prelude.{◌∷◌, [], codes};
ghost use Rattle.std.specs.Str.Lossy.{utf8_lossy};
ghost use Rattle.replay_c.specs.Answers.{AnswersBy};
ghost use Rattle.run_replies.specs.Words.{asked};
ghost use Rattle.word_model.specs.Numbers.{decimal};

mod answering;
mod source;
mod words;

use answering::answer;
use std::alloc::Global;
use words::{answer_hit, answer_number, answer_word};

/// Replays the script; the reply is its trace.
#[tactic(auto, using(crate::proofs::Answered::by_code))]
#[unsafe(no_mangle)]
pub extern "C" fn mifdagus_raw_replay(
    alloc: Global,
    script: &[u8],
    reply: &mut [u8],
    needed: &mut usize,
) -> u8
    ensures { AnswersBy (asked ([])) script.now result reply.old reply.new needed.new }
{
    answer(alloc, &[], script, reply, needed).code()
}

/// Reads the script; the reply is `ok` and the number of its commands.
#[tactic(auto, using(crate::proofs::Answered::by_code))]
#[unsafe(no_mangle)]
pub extern "C" fn mifdagus_raw_check(
    alloc: Global,
    script: &[u8],
    reply: &mut [u8],
    needed: &mut usize,
) -> u8
    ensures { AnswersBy (asked (codes "--check" ∷ [])) script.now result reply.old reply.new needed.new }
{
    answer_word(alloc, "--check", script, reply, needed).code()
}

/// Reads the script; the reply says whether its resize loops always go deeper, and whether none ends with the error.
#[tactic(auto, using(crate::proofs::Answered::by_code))]
#[unsafe(no_mangle)]
pub extern "C" fn mifdagus_raw_lint(
    alloc: Global,
    script: &[u8],
    reply: &mut [u8],
    needed: &mut usize,
) -> u8
    ensures { AnswersBy (asked (codes "--lint" ∷ [])) script.now result reply.old reply.new needed.new }
{
    answer_word(alloc, "--lint", script, reply, needed).code()
}

/// Replays the script; the reply is the number of trace lines of each kind.
#[tactic(auto, using(crate::proofs::Answered::by_code))]
#[unsafe(no_mangle)]
pub extern "C" fn mifdagus_raw_summary(
    alloc: Global,
    script: &[u8],
    reply: &mut [u8],
    needed: &mut usize,
) -> u8
    ensures { AnswersBy (asked (codes "--summary" ∷ [])) script.now result reply.old reply.new needed.new }
{
    answer_word(alloc, "--summary", script, reply, needed).code()
}

/// Reads the script; the reply is its one printed form.
#[tactic(auto, using(crate::proofs::Answered::by_code))]
#[unsafe(no_mangle)]
pub extern "C" fn mifdagus_raw_print(
    alloc: Global,
    script: &[u8],
    reply: &mut [u8],
    needed: &mut usize,
) -> u8
    ensures { AnswersBy (asked (codes "--print" ∷ [])) script.now result reply.old reply.new needed.new }
{
    answer_word(alloc, "--print", script, reply, needed).code()
}

/// Judges the trace that is recorded after the script's line `trace`.
#[tactic(auto, using(crate::proofs::Answered::by_code))]
#[unsafe(no_mangle)]
pub extern "C" fn mifdagus_raw_judge(
    alloc: Global,
    recording: &[u8],
    reply: &mut [u8],
    needed: &mut usize,
) -> u8
    ensures { AnswersBy (asked (codes "--judge" ∷ [])) recording.now result reply.old reply.new needed.new }
{
    answer_word(alloc, "--judge", recording, reply, needed).code()
}

/// Replays the scripts of several pages, each after lines `page NAME`.
#[tactic(auto, using(crate::proofs::Answered::by_code))]
#[unsafe(no_mangle)]
pub extern "C" fn mifdagus_raw_pages(
    alloc: Global,
    stream: &[u8],
    reply: &mut [u8],
    needed: &mut usize,
) -> u8
    ensures { AnswersBy (asked (codes "--pages" ∷ [])) stream.now result reply.old reply.new needed.new }
{
    answer_word(alloc, "--pages", stream, reply, needed).code()
}

/// Runs the script until its tick of this number ends; the reply is each box then.
#[tactic(auto, using(crate::proofs::Answered::by_code))]
#[unsafe(no_mangle)]
pub extern "C" fn mifdagus_raw_inspect(
    alloc: Global,
    tick: u64,
    script: &[u8],
    reply: &mut [u8],
    needed: &mut usize,
) -> u8
    ensures { AnswersBy (asked (codes "--inspect" ∷ decimal tick ∷ [])) script.now result reply.old reply.new needed.new }
{
    answer_number(alloc, "--inspect", tick, script, reply, needed).code()
}

/// The same with the elements that a point of the viewport hits, given by two lengths as in `5px`, topmost first.
#[tactic(auto, using(crate::proofs::Answered::by_code))]
#[unsafe(no_mangle)]
pub extern "C" fn mifdagus_raw_hit(
    alloc: Global,
    tick: u64,
    left: &[u8],
    top: &[u8],
    script: &[u8],
    reply: &mut [u8],
    needed: &mut usize,
) -> u8
    ensures { AnswersBy (asked (codes "--hit" ∷ decimal tick ∷ utf8_lossy left.now ∷ utf8_lossy top.now ∷ [])) script.now result reply.old reply.new needed.new }
{
    answer_hit(alloc, tick, left, top, script, reply, needed).code()
}

/// Writes the script that is generated from this number.
#[tactic(auto, using(crate::proofs::Answered::by_code))]
#[unsafe(no_mangle)]
pub extern "C" fn mifdagus_raw_generate(
    alloc: Global,
    number: u64,
    reply: &mut [u8],
    needed: &mut usize,
) -> u8
    ensures { AnswersBy (asked (codes "--generate" ∷ decimal number ∷ [])) [] result reply.old reply.new needed.new }
{
    answer_number(alloc, "--generate", number, &[], reply, needed).code()
}

/// Replays the script that is generated from this number; the reply is the summary of its trace.
#[tactic(auto, using(crate::proofs::Answered::by_code))]
#[unsafe(no_mangle)]
pub extern "C" fn mifdagus_raw_generate_run(
    alloc: Global,
    number: u64,
    reply: &mut [u8],
    needed: &mut usize,
) -> u8
    ensures { AnswersBy (asked (codes "--generate-run" ∷ decimal number ∷ [])) [] result reply.old reply.new needed.new }
{
    answer_number(alloc, "--generate-run", number, &[], reply, needed).code()
}

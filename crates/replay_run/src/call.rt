//! The top-level call.

ghost use Rattle.std.specs.Prelude.{◌≡◌, ◌⊎◌, ◌↔◌, ◌<◌, ◌&&◌, false, None, Some, Err, drop, is_some, map, string_bytes, IfSome};
ghost use Rattle.text_io.specs.Streams.{Rose};
ghost use Rattle.script_model.specs.Generator.{generated};
ghost use Rattle.script_model.specs.Reading.{Refusal, reading};
ghost use Rattle.page_model.specs.Outcome.{outcome_read};
ghost use Rattle.run_replies.specs.Answers.{Ends, IsTaken, Tells};
ghost use Rattle.stream_replay.specs.StreamReplies.{IsolatesPages};
ghost use Rattle.script_replay.specs.Ready.{IsReadyOfSome};
ghost use Rattle.script_replay.specs.ScriptReplies.{read_reply, takes_steps};
ghost use Rattle.replay_run.specs.Replies.{IsRefused, reply, script_text, steps_for};
ghost use Rattle.run_replies.specs.Statuses.{is_done};
ghost use Rattle.run_replies.specs.Words.{asked, has_page, is_run, looked_at, seen};

use crate::generating::write_generated;
use crate::judging::judge_source;
use run_replies::{Job, Status, Words};
use script_generator::{generated_text_is_a_script, make};
use script_replay::{Report, perform, perform_on_text};
use script_source::{SourceFault, read_script};
use std::alloc::Global;
use std::sync::ledger::{Blank, Ledger};
use step_count::Steps;
use stream_replay::run_pages;
use text_io::{Sink, Source};

// Performs a job on the script of the source.
fn perform_on_source<S: Source, K: Sink, L: Ledger>(
    alloc: Global,
    job: Job,
    source: &mut S,
    sink: &mut K,
    steps: &mut Steps<L>,
) -> Report
    ensures usage { result.status ≡ Status.Usage → ⊥ }
    ensures ends { IfSome (S.left source.old) (λ text.
        Ends result.status (read_reply job (reading text)) (K.taken sink.old) (K.taken sink.new) (K.faults sink.old) (K.faults sink.new)) }
    ensures read { IfSome (S.left source.old) (λ text. IsTaken result.status 16777217 text (S.left source.new)) }
    ensures out_of_memory { result.status ≡ Status.NoMemory → (sink.new ≡ sink.old) ⊎ IfSome (S.left source.old) (λ text. S.left source.new ≡ Some (drop 16777217 text)) }
    ensures read_fault { result.status ≡ Status.ReadFault → Rose (S.faults source.old) (S.faults source.new) × (sink.new ≡ sink.old) }
    ensures write_fault { result.status ≡ Status.WriteFault → Rose (K.faults sink.old) (K.faults sink.new) }
    ensures unfailed_read { (result.status ≡ Status.ReadFault → ⊥) → S.faults source.new ≡ S.faults source.old }
    ensures unfailed_write { (result.status ≡ Status.WriteFault → ⊥) → K.faults sink.new ≡ K.faults sink.old }
    ensures page { is_some result.page ≡ (is_run job && is_done result.status) }
    ensures world { IfSome result.page (λ page. IfSome (S.left source.old) (λ text. page.world ≡ (outcome_read (reading text)).world)) }
    ensures ready { IfSome result.page (λ page. IsReadyOfSome page.world) }
    ensures steps { takes_steps job ≡ false → steps.new ≡ steps.old }
    ensures refused_steps { IfSome (S.left source.old) (λ text. (refusal : Refusal) → reading text ≡ Err refusal → steps.new ≡ steps.old) }
{
    match read_script(alloc, source) {
        Ok(text) => perform_on_text(alloc, job, text, sink, steps),
        Err(SourceFault::ReadFault) => Report::without_page(Status::ReadFault),
        Err(SourceFault::Memory) => Report::without_page(Status::NoMemory),
    }
}

// The same with the script generated from a number.
fn perform_on_made<K: Sink, L: Ledger>(
    alloc: Global,
    job: Job,
    number: u64,
    sink: &mut K,
    steps: &mut Steps<L>,
) -> Report
    ensures tells { Tells result.status (read_reply job (reading (generated number))) (K.taken sink.old) (K.taken sink.new) (K.faults sink.old) (K.faults sink.new) }
    ensures page { is_some result.page ≡ (is_run job && is_done result.status) }
    ensures world { IfSome result.page (λ page. page.world ≡ (outcome_read (reading (generated number))).world) }
    ensures ready { IfSome result.page (λ page. IsReadyOfSome page.world) }
    ensures steps { takes_steps job ≡ false → steps.new ≡ steps.old }
{
    match make(alloc, number) {
        Ok(script) => perform(alloc, job, &script, sink, steps),
        Err(_) => Report::without_page(Status::NoMemory),
    }
}

// The same; a script that is to be printed is written as its text is generated, without parsing it.
fn perform_on_number<K: Sink, L: Ledger>(
    alloc: Global,
    job: Job,
    number: u64,
    sink: &mut K,
    steps: &mut Steps<L>,
) -> Report
    ensures tells { Tells result.status (read_reply job (reading (generated number))) (K.taken sink.old) (K.taken sink.new) (K.faults sink.old) (K.faults sink.new) }
    ensures page { is_some result.page ≡ (is_run job && is_done result.status) }
    ensures world { IfSome result.page (λ page. page.world ≡ (outcome_read (reading (generated number))).world) }
    ensures ready { IfSome result.page (λ page. IsReadyOfSome page.world) }
    ensures steps { takes_steps job ≡ false → steps.new ≡ steps.old }
{
    match job {
        Job::Print => {
            // the law by which the text is what its script prints as
            generated_text_is_a_script();
            Report {
                status: write_generated(alloc, number, sink),
                page: None,
            }
        }
        _ => perform_on_made(alloc, job, number, sink, steps),
    }
}

/// Executes a command line, given as `words`, and writes the result line by line to the sink:
///
/// - no words: replays the script in the rest of the source, and writes its trace;
/// - `--check`: parses that script, and writes `ok` and the number of its commands, including those in handlers and blocks;
/// - `--lint`: parses it, and writes whether its resize loops always go deeper (`steady`) and whether none of them ends with
///   the error (`quiet`), judged by the commands in its loop handlers, or the line of the first command that prevents it
///   (`unsteady`, `unquiet`);
/// - `--summary`: replays it, and writes the number of trace lines of each kind;
/// - `--print`: parses it, and writes its printed text, which reads as the same script;
/// - `--inspect K`: runs it until its K-th tick ends, and writes each box of the page then with its visible part, or `ticks`
///   and the number of its ticks if it has fewer, or the line of a limit that is met before;
/// - `--hit K X Y`: the same with the elements that the point hits, topmost first, or `miss`;
/// - `--judge`: replays the script before the source's first line `trace`, and judges the trace recorded after that line:
///   writes `equal` and the number of lines, or `differs`, the line and how;
/// - `--pages`: replays the scripts of several pages, whose lines are interleaved in the source, each section after a line
///   `page NAME`: each page as if it ran alone. Writes the lines of their traces as they are produced, each with the name of
///   its page;
/// - `--generate N`: writes the script generated from the number N, which is at most 1,000,000; reads nothing;
/// - `--generate-run N`: replays the script generated from the number, and writes its summary; reads nothing.
///
/// If the source isn't a script, the first seven write only the line that says where the fault is; for a judgement that line is the script's
/// trace. `steps` counts the boxes, clips and findings computed; no clause here bounds it, except that `Usage`,
/// `--check`, `--lint`, `--print`, `--generate` and a text that isn't a script leave it unchanged.
///
/// - `Done`, `Syntax`, `Limit` and `Differs`: exactly as the reply to the words and the source's bytes says, and all of its
///   text was written.
/// - A source that was read is at its end after these and `WriteFault`; if it has more bytes than it may have, one more than that
///   many were consumed. After `NoMemory` and `ReadFault` no more than these were.
/// - With `--pages` and one of these statuses, each page's lines in the output are the trace of its script alone, unless the
///   stream is rejected.
/// - `NoMemory` if an allocation fails: the first lines of the text were written, each of them whole. If there are any, the source was
///   read as after `Done`.
/// - `ReadFault` and `WriteFault`: only if that fault count rose in this call; with any other status that count is unchanged. After
///   `WriteFault` a prefix of the text was written: whole lines, and at most a part of one.
/// - `Usage`: exactly for any other words; nothing is read, written or allocated.
pub fn run<S: Source, K: Sink, L: Ledger>(
    alloc: Global,
    words: &[String],
    source: &mut S,
    sink: &mut K,
    steps: &mut Steps<L>,
) -> Report
    ensures usage { (result.status ≡ Status.Usage) ↔ (asked (map string_bytes words.now) ≡ None) }
    ensures untouched { asked (map string_bytes words.now) ≡ None → (source.new ≡ source.old) × (sink.new ≡ sink.old) }
    // What the status says about the reply, by the bytes of the source if they are known, and about what was written.
    ensures ends { IfSome (asked (map string_bytes words.now)) (λ asks. IfSome (seen asks (S.left source.old)) (λ text.
        Ends result.status (reply asks text) (K.taken sink.old) (K.taken sink.new) (K.faults sink.old) (K.faults sink.new))) }
    // With several pages, each is as if its script ran alone.
    ensures alone { asked (map string_bytes words.now) ≡ Some Words.Pages → IfSome (S.left source.old) (λ text. IsolatesPages result.status text) }
    ensures read { IfSome (asked (map string_bytes words.now)) (λ asks. IfSome (S.left source.old) (λ text. IsTaken result.status (looked_at asks) text (S.left source.new))) }
    // Nothing is written before the source is read.
    ensures out_of_memory { result.status ≡ Status.NoMemory → (sink.new ≡ sink.old) ⊎ IfSome (asked (map string_bytes words.now)) (λ asks. IfSome (S.left source.old) (λ text. S.left source.new ≡ Some (drop (looked_at asks) text))) }
    ensures unread { IfSome (asked (map string_bytes words.now)) (λ asks. looked_at asks ≡ 0 → source.new ≡ source.old) }
    // The causes, even if neither tells its bytes.
    ensures read_fault { result.status ≡ Status.ReadFault → Rose (S.faults source.old) (S.faults source.new) × (sink.new ≡ sink.old) }
    ensures write_fault { result.status ≡ Status.WriteFault → Rose (K.faults sink.old) (K.faults sink.new) }
    ensures unfailed_read { (result.status ≡ Status.ReadFault → ⊥) → S.faults source.new ≡ S.faults source.old }
    ensures unfailed_write { (result.status ≡ Status.WriteFault → ⊥) → K.faults sink.new ≡ K.faults sink.old }
    ensures page { is_some result.page ≡ (has_page (asked (map string_bytes words.now)) && is_done result.status) }
    ensures world { IfSome result.page (λ page. IfSome (asked (map string_bytes words.now)) (λ asks. IfSome (seen asks (S.left source.old)) (λ text.
        page.world ≡ (outcome_read (reading (script_text asks text))).world))) }
    // A host can go on with it (`more_handlers_leave_a_page_ready` of `frame_update`).
    ensures ready { IfSome result.page (λ page. IsReadyOfSome page.world) }
    // No step is taken where no script is run.
    ensures steps { steps_for (asked (map string_bytes words.now)) ≡ false → steps.new ≡ steps.old }
    ensures refused_steps { IfSome (asked (map string_bytes words.now)) (λ asks. IfSome (S.left source.old) (λ text. IsRefused asks text → steps.new ≡ steps.old)) }
{
    match Words::read(words) {
        None => Report::without_page(Status::Usage),
        Some(Words::Script(job)) => perform_on_source(alloc, job, source, sink, steps),
        Some(Words::Generated(job, number)) => perform_on_number(alloc, job, number, sink, steps),
        Some(Words::Judge) => Report {
            status: judge_source(alloc, source, sink, steps),
            page: None,
        },
        Some(Words::Pages) => Report {
            status: run_pages(alloc, source, sink, steps),
            page: None,
        },
    }
}

/// `run` without counting steps. Its clauses are those of `run`.
pub fn run_uncounted<S: Source, K: Sink, L: Ledger>(
    blank: Blank,
    alloc: Global,
    words: &[String],
    source: &mut S,
    sink: &mut K,
) -> Report
    requires name { blank.name ≡ L.name }
    requires parts { blank.parts ≡ L.parts }
    requires one_part { 0 < blank.parts }
    ensures usage { (result.status ≡ Status.Usage) ↔ (asked (map string_bytes words.now) ≡ None) }
    ensures untouched { asked (map string_bytes words.now) ≡ None → (source.new ≡ source.old) × (sink.new ≡ sink.old) }
    // What the status says about the reply, by the bytes of the source if they are known, and about what was written.
    ensures ends { IfSome (asked (map string_bytes words.now)) (λ asks. IfSome (seen asks (S.left source.old)) (λ text.
        Ends result.status (reply asks text) (K.taken sink.old) (K.taken sink.new) (K.faults sink.old) (K.faults sink.new))) }
    // With several pages, each is as if its script ran alone.
    ensures alone { asked (map string_bytes words.now) ≡ Some Words.Pages → IfSome (S.left source.old) (λ text. IsolatesPages result.status text) }
    ensures read { IfSome (asked (map string_bytes words.now)) (λ asks. IfSome (S.left source.old) (λ text. IsTaken result.status (looked_at asks) text (S.left source.new))) }
    // Nothing is written before the source is read.
    ensures out_of_memory { result.status ≡ Status.NoMemory → (sink.new ≡ sink.old) ⊎ IfSome (asked (map string_bytes words.now)) (λ asks. IfSome (S.left source.old) (λ text. S.left source.new ≡ Some (drop (looked_at asks) text))) }
    ensures unread { IfSome (asked (map string_bytes words.now)) (λ asks. looked_at asks ≡ 0 → source.new ≡ source.old) }
    // The causes, even if neither tells its bytes.
    ensures read_fault { result.status ≡ Status.ReadFault → Rose (S.faults source.old) (S.faults source.new) × (sink.new ≡ sink.old) }
    ensures write_fault { result.status ≡ Status.WriteFault → Rose (K.faults sink.old) (K.faults sink.new) }
    ensures unfailed_read { (result.status ≡ Status.ReadFault → ⊥) → S.faults source.new ≡ S.faults source.old }
    ensures unfailed_write { (result.status ≡ Status.WriteFault → ⊥) → K.faults sink.new ≡ K.faults sink.old }
    ensures page { is_some result.page ≡ (has_page (asked (map string_bytes words.now)) && is_done result.status) }
    ensures world { IfSome result.page (λ page. IfSome (asked (map string_bytes words.now)) (λ asks. IfSome (seen asks (S.left source.old)) (λ text.
        page.world ≡ (outcome_read (reading (script_text asks text))).world))) }
    // A host can go on with it (`more_handlers_leave_a_page_ready` of `frame_update`).
    ensures ready { IfSome result.page (λ page. IsReadyOfSome page.world) }
{
    let mut steps = Steps::<L>::new(blank);
    run(alloc, words, source, sink, &mut steps)
}

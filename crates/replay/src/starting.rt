//! The start of the program: from its arguments, a source and a sink to its exit status.

ghost use Rattle.std.specs.Prelude.{◌≡◌, ◌↔◌, [], drop, map, string_bytes, None, IfErr, IfOk, IfSome};
ghost use Rattle.std.specs.IoError.{error_kind};
ghost use Rattle.text_io.specs.Streams.{Rose};
ghost use Rattle.run_replies.specs.Answers.{Ends, IsTaken};
ghost use Rattle.run_replies.specs.Words.{asked, looked_at, seen};
ghost use Rattle.replay_run.specs.Replies.{reply};
ghost use Rattle.replay.specs.Gathered.{is_write_fault, PassesOn};
ghost use Rattle.replay.specs.Starts.{unread_status, words_of};

use crate::gathering::{Before, Gathering};
use replay_run::{Status, run_uncounted};
use std::alloc::Global;
use std::io;
use std::marker::Brand;
use std::sync::ledger::Blank;
use text_io::{Failed, Sink, Source};

// Returns the arguments behind the program's name.
fn behind_name(arguments: &[String]) -> &[String]
    ensures { result.now ≡ drop 1 arguments.now }
{
    match arguments {
        [] => arguments,
        [_, words @ ..] => words,
    }
}

// Maps an error in reading the arguments.
fn status_of(error: &io::Error) -> Status
    ensures { result ≡ unread_status (error_kind error.now) }
{
    match error.kind() {
        io::ErrorKind::InvalidData => Status::Usage,
        _ => Status::NoMemory,
    }
}

/// How a call ended, with its sink.
#[derive(Drop)]
pub(crate) struct Ended<K: Sink> {
    pub(crate) status: Status,
    pub(crate) sink: K,
}

fn is_write_fault(status: Status) -> bool
    ensures { result ≡ is_write_fault status }
{
    match status {
        Status::WriteFault => true,
        _ => false,
    }
}

// Passes on what is gathered at the end of a call with this status, and returns with which one the program exits.
fn passed_on<K: Sink, B: Before>(status: Status, gathering: &mut Gathering<K, B>) -> Status
    ensures passes { PassesOn (is_write_fault status) status result gathering.old.gathered (K.taken gathering.old.inner) (K.taken gathering.new.inner) (K.faults gathering.old.inner) (K.faults gathering.new.inner) }
    ensures nothing { gathering.old.gathered ≡ [] → (result ≡ status) × (gathering.new ≡ gathering.old) }
{
    if is_write_fault(status) {
        return status;
    }
    match gathering.pass_on() {
        Ok(()) => status,
        Err(Failed) => Status::WriteFault,
    }
}

// `run` with a sink that gathers. Its clauses are those of `run`, by the sink that is written to.
fn run_gathering<S: Source, K: Sink, B: Before>(
    alloc: Global,
    words: &[String],
    source: &mut S,
    sink: K,
) -> Ended<K>
    requires { K.taken sink ≡ B.taken }
    ensures usage { (result.status ≡ Status.Usage) ↔ (asked (map string_bytes words.now) ≡ None) }
    ensures untouched { asked (map string_bytes words.now) ≡ None → (source.new ≡ source.old) × (result.sink ≡ sink) }
    ensures ends { IfSome (asked (map string_bytes words.now)) (λ asks. IfSome (seen asks (S.left source.old)) (λ text.
        Ends result.status (reply asks text) (K.taken sink) (K.taken result.sink) (K.faults sink) (K.faults result.sink))) }
    ensures read { IfSome (asked (map string_bytes words.now)) (λ asks. IfSome (S.left source.old) (λ text. IsTaken result.status (looked_at asks) text (S.left source.new))) }
    ensures read_fault { result.status ≡ Status.ReadFault → Rose (S.faults source.old) (S.faults source.new) × (result.sink ≡ sink) }
    ensures write_fault { result.status ≡ Status.WriteFault → Rose (K.faults sink) (K.faults result.sink) }
    ensures unfailed_read { (result.status ≡ Status.ReadFault → ⊥) → S.faults source.new ≡ S.faults source.old }
    ensures unfailed_write { (result.status ≡ Status.WriteFault → ⊥) → K.faults result.sink ≡ K.faults sink }
{
    let mut gathering = Gathering::<K, B>::new(alloc, sink);
    let ran = run_uncounted::<_, _, Brand>(Blank::new(1), alloc, words, source, &mut gathering);
    let status = passed_on(ran.status, &mut gathering);
    Ended {
        status,
        sink: gathering.into_inner(),
    }
}

/// Does what the arguments ask for, of which the first is the program's name, and returns the status with which the program exits, and the
/// sink. Its clauses are those of `run`, by the words behind that name. Arguments that can't be read touch neither the source nor the sink.
pub(crate) fn start<S: Source, K: Sink>(
    alloc: Global,
    arguments: io::Result<Vec<String>>,
    source: &mut S,
    sink: K,
) -> Ended<K>
    ensures unread { IfErr arguments (λ error. (result.status ≡ unread_status (error_kind error)) × (source.new ≡ source.old) × (result.sink ≡ sink)) }
    ensures usage { IfOk arguments (λ given. (result.status ≡ Status.Usage) ↔ (asked (words_of given.items) ≡ None)) }
    ensures untouched { IfOk arguments (λ given. asked (words_of given.items) ≡ None → (source.new ≡ source.old) × (result.sink ≡ sink)) }
    // What the status says about the reply, by the bytes of the source if they are known, and about what was written.
    ensures ends { IfOk arguments (λ given. IfSome (asked (words_of given.items)) (λ asks. IfSome (seen asks (S.left source.old)) (λ text.
        Ends result.status (reply asks text) (K.taken sink) (K.taken result.sink) (K.faults sink) (K.faults result.sink)))) }
    ensures read { IfOk arguments (λ given. IfSome (asked (words_of given.items)) (λ asks. IfSome (S.left source.old) (λ text.
        IsTaken result.status (looked_at asks) text (S.left source.new)))) }
    // The causes, even if neither tells its bytes.
    ensures read_fault { result.status ≡ Status.ReadFault → Rose (S.faults source.old) (S.faults source.new) × (result.sink ≡ sink) }
    ensures write_fault { result.status ≡ Status.WriteFault → Rose (K.faults sink) (K.faults result.sink) }
    ensures unfailed_read { (result.status ≡ Status.ReadFault → ⊥) → S.faults source.new ≡ S.faults source.old }
    ensures unfailed_write { (result.status ≡ Status.WriteFault → ⊥) → K.faults result.sink ≡ K.faults sink }
{
    match arguments {
        Ok(given) => {
            let words = behind_name(given.as_slice());
            run_gathering::<_, _, Brand>(alloc, words, source, sink)
        }
        Err(error) => Ended {
            status: status_of(&error),
            sink,
        },
    }
}

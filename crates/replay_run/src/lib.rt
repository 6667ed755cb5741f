//! Replays scripts: reads the text of a script from a source, and writes what its page is told to a sink, line by line.
//!
//! `run` is the top-level call. A host passes any source and sink, and can read the returned page if the script ran to its
//! end.
#![tactic(auto)]

mod call;
mod generating;
mod judging;
mod laws;
mod reader_laws;

pub use call::{run, run_uncounted};
pub use laws::no_words_give_the_trace;
pub use reader_laws::{
    a_judgement_is_done_where_the_traces_are_the_same, a_number_gives_its_script,
    certificates_hold_for_each_run,
};
pub use run_replies::Status;
pub use script_replay::Report;

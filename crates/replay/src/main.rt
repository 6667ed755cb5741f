//! Replays a script from standard input and writes its trace to standard output.
#![tactic(auto)]

mod gathering;
mod starting;

use starting::start;
use std::process::ExitCode;
use std::{env, io};
use text_io::{StdSink, StdSource};

// Returns the arguments, beginning with the program's name.
fn arguments(rt: &HostRuntime) -> io::Result<Vec<String>> {
    let mut arguments = Vec::new(rt.alloc());
    for argument in env::args(rt)? {
        arguments.push(argument)?;
    }
    Ok(arguments)
}

fn main(rt: HostRuntime) -> ExitCode {
    let mut source = StdSource::new(rt.stdin());
    let sink = StdSink::new(rt.stdout());
    let ended = start(rt.alloc(), arguments(&rt), &mut source, sink);
    ExitCode::from(ended.status.code())
}

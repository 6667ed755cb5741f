//! Why a call on a live page did nothing, or was stopped.

use script_syntax::ParseFault;
use thiserror::Error;
use trace_runs::RunFault;

/// Why a call on a live page did nothing, or was stopped. The page can be used further after each of them.
#[derive(Debug, Drop, Error)]
pub enum LiveFault {
    /// The text isn't a script: its first fault or limit, or no memory was left to read it. Nothing was done.
    #[error("{0}")]
    Text(ParseFault),
    /// The script isn't of the page's version. Nothing was done.
    #[error("the script is of another version than the page")]
    OtherVersion,
    /// The script has handlers, but not first those of the page, by their names and in their order. Nothing was done.
    #[error("the script's first handlers aren't those of the page")]
    OtherHandlers,
    /// The time is past 1,000,000,000,000 milliseconds or, for a clock that is set, before the page's. Nothing was done.
    #[error("the time is out of range")]
    Time,
    /// The run was stopped: at a limit, for want of memory, or since a write failed.
    #[error("{0}")]
    Stopped(RunFault),
}

//! How a run ended.

ghost use Rattle.std.specs.Prelude.{◌≡◌, false};
ghost use Rattle.run_replies.specs.Statuses.{code_of, is_done, is_whole, status_after};

use trace_runs::RunFault;

/// How a run ended.
#[derive(Clone, Copy, Debug, PartialEq, Eq)]
pub enum Status {
    /// The job was carried out to its end; the whole text was written.
    Done,
    /// The text isn't a script; the line with the position of its fault was written.
    Syntax,
    /// A limit was met; the text up to its line was written.
    Limit,
    /// Out of memory; a prefix of the text was written.
    NoMemory,
    /// A read failed; nothing was written.
    ReadFault,
    /// A write failed; a prefix of the text was written.
    WriteFault,
    /// The command line is invalid; nothing was read or written.
    Usage,
    /// The recorded trace isn't that of the script; the judgement was written.
    Differs,
}

impl Status {
    /// Returns the exit status of the program.
    pub fn code(&self) -> u8
        ensures { result ≡ code_of self.now }
    {
        match self {
            Status::Done => 0,
            Status::Syntax => 1,
            Status::Limit => 2,
            Status::NoMemory => 3,
            Status::ReadFault => 4,
            Status::WriteFault => 5,
            Status::Usage => 6,
            Status::Differs => 7,
        }
    }

    /// Whether the whole text was written.
    pub fn is_whole(&self) -> bool
        ensures { result ≡ is_whole self.now }
    {
        match self {
            Status::Done | Status::Syntax | Status::Limit | Status::Differs => true,
            Status::NoMemory | Status::ReadFault | Status::WriteFault | Status::Usage => false,
        }
    }
}

/// Returns `status` if everything was written, otherwise the status for the fault.
pub fn status_of(wrote: Result<(), RunFault>, status: Status) -> Status
    ensures status { result ≡ status_after wrote status }
    ensures done { is_done status ≡ false → is_done result ≡ false }
{
    match wrote {
        Ok(()) => status,
        Err(RunFault::Limit { .. }) => Status::Limit,
        Err(RunFault::Memory) => Status::NoMemory,
        Err(RunFault::WriteFault) => Status::WriteFault,
    }
}

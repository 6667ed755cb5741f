//! A page that a host keeps: it is given scripts and ticks at any time, and stays usable whatever they answer.
#![tactic(auto)]

mod clock;
mod engine;
mod faults;
mod further;
mod laws;
mod live;
mod runs;

pub use engine::{LiveTask, Turn};
pub use faults::LiveFault;
pub use laws::commands_and_callbacks_leave_worlds_ready;
pub use live::LivePage;

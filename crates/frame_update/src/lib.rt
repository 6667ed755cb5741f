//! A tick of a page's clock: the due timers, one update of the rendering, and the queued tasks (HTML, event loops; CSSOM
//! View, 13; Resize Observer, 3.4).
#![tactic(auto)]

mod events;
mod frames;
mod laws;
mod notify;
mod rounds;
mod run;
mod steps;
mod tasks;
mod ticks;
mod timers;
mod update;

pub use laws::{more_handlers_leave_a_page_ready, what_is_delivered_can_be_handed};
pub use ticks::tick;

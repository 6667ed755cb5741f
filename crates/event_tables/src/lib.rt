//! The event tables of a page: the listeners, frame callbacks, timers and queued tasks, in creation order, and the batches in
//! which they are run.
#![tactic(auto)]

mod answers;
mod callbacks;
mod entries;
mod events;
mod frame_callbacks;
mod laws;
mod listeners;
mod tasks;
mod timers;

pub use answers::TableFault;
pub use callbacks::Batch;
pub use events::{EventTarget, HandlerId, Task};
pub use frame_callbacks::FrameCallbacks;
pub use laws::handing_out_runs_each_that_stands;
pub use listeners::{Dispatch, Listeners};
pub use tasks::Tasks;
pub use timers::Timers;

//! The command line and the replies to it: words, jobs, statuses, and those replies that need no page.
//!
//! A reply is a text and a status (`specs/Replies.antt`); `Tells` of `specs/Answers.antt` defines what each returned status means for the
//! reply and for what was written to the sink.
#![tactic(auto)]

mod certificates;
mod check;
mod lines;
mod printing;
mod refusing;
mod status;
mod summary;
mod words;

pub use certificates::write_certificates;
pub use check::write_check;
pub use lines::write_lines;
pub use printing::write_script;
pub use refusing::{meet_limit, refuse_at, write_limit};
pub use status::{Status, status_of};
pub use summary::{summarize_to_limit, write_summary};
pub use words::{Job, Sight, Words};

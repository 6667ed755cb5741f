//! The state of a run, as passed to commands, callbacks and the parts of a tick.

use page_state::Page;
use script_syntax::Script;
use std::alloc::Global;
use std::sync::ledger::Ledger;
use step_count::Steps;
use text_io::Sink;

/// A page with the script whose handlers it has, the sink that receives the lines, and the count of steps, lent to a run.
#[derive(Drop)]
pub struct Run<'p, 's, 'k, 't, K: Sink, L: Ledger> {
    /// The allocator of all that is run.
    pub alloc: Global,
    /// The page.
    pub page: &'p mut Page,
    /// The script whose handlers are called.
    pub script: &'s Script,
    /// What receives the lines, as they are produced.
    pub sink: &'k mut K,
    /// The count of steps.
    pub steps: &'t mut Steps<L>,
}

//! Queued tasks.

ghost use Rattle.std.specs.Prelude.{◌≡◌, List, [], Some, not, option_map, OnOk, OnErr};
ghost use Rattle.event_tables.specs.Answers.{Queues};
ghost use Rattle.event_tables.specs.Seen.{seen_task};
ghost use Rattle.page_model.specs.Tasks.{with_task};
ghost use Rattle.page_model.specs.World.{Task as ModelTask};
ghost use Rattle.event_tables.specs.Tasks.{has_room, may_queue, first_of, others_of};

use crate::events::is_posted;
use crate::{TableFault, Task};
use std::alloc::Global;
use std::collections::VecDeque;
use std::marker::Model;

/// The queued tasks of a page, in queueing order. Contracts see them as the definitions of a world do, with the limit of
/// posted tasks.
#[derive(Drop)]
pub struct Tasks {
    waiting: VecDeque<Task>,
    posted: u32,
    most: u32,
}

impl Model for Tasks {
    ghost use Rattle.std.specs.Prelude.{◌≡◌, map};
    ghost use Rattle.std.specs.List.{count_by};
    ghost use Rattle.page_model.specs.Tasks.{is_posted};
    ghost use Rattle.event_tables.specs.Tasks.{WaitingTasks};

    ghost Value = { WaitingTasks };

    ghost use Rattle.event_tables.specs.Seen.{seen_task};

    ghost view = { λ t. record { part = map seen_task t.waiting.items; most = t.most } };

    ghost invariant = { λ t. t.posted ≡ count_by is_posted (map seen_task t.waiting.items) };
}

impl Tasks {
    /// Creates an empty set of tasks; allocates nothing. At most `most` posted tasks can be queued.
    pub fn new(alloc: Global, most: u32) -> Tasks
        ensures { result ≡ record { part = []; most = most } }
    {
        Tasks {
            waiting: VecDeque::new(alloc),
            posted: 0,
            most,
        }
    }

    // Whether the maximum number of posted tasks is queued, so that a further one would meet `Limit`.
    fn is_full(&self) -> bool
        ensures { result ≡ not (has_room self.now) }
    {
        self.posted >= self.most
    }

    /// Queues a task.
    ///
    /// `Limit` exactly for a posted task when `most` posted tasks are queued; otherwise `Memory` if an allocation fails;
    /// never `Taken`.
    pub fn push(&mut self, task: Task) -> Result<(), TableFault>
        ensures answer { Queues result (may_queue (seen_task task) self.old) }
        ensures queued { OnOk result (self.new ≡ record self.old { part = with_task (seen_task task) (self.old.part) }) }
        ensures same { OnErr result (self.new ≡ self.old) }
    {
        let posted = is_posted(task);
        if posted && self.is_full() {
            return Err(TableFault::Limit);
        }
        let Ok(()) = self.waiting.push_back(task) else {
            return Err(TableFault::Memory);
        };
        if posted {
            self.posted += 1;
        }
        Ok(())
    }

    /// Removes and returns the first task. `None` exactly when no task is queued.
    pub fn pop(&mut self) -> Option<Task>
        ensures value { option_map seen_task result ≡ first_of self.old.part }
        ensures left { self.new ≡ record self.old { part = others_of (self.old.part) } }
    {
        let task = self.waiting.pop_front()?;
        if is_posted(task) {
            self.posted -= 1;
        }
        Some(task)
    }
    /// Takes back the task that was queued last, and returns it. `None` exactly when no task is queued.
    pub fn take_back(&mut self) -> Option<Task>
        ensures value { (others : List ModelTask) (task : ModelTask) → self.old.part ≡ with_task task others → option_map seen_task result ≡ Some task }
        ensures left { (others : List ModelTask) (task : ModelTask) → self.old.part ≡ with_task task others → self.new ≡ record self.old { part = others } }
        ensures none { self.old.part ≡ [] → self.new ≡ self.old }
        ensures limit { self.new ≡ record self.old { part = self.new.part } }
    {
        let task = self.waiting.pop_back()?;
        if is_posted(task) {
            self.posted -= 1;
        }
        Some(task)
    }
}

//! The results and errors of a page's calls.

use intersection_observer::{EntryList, WatcherId};
use page_tree::MakeFault;
use std::alloc::AllocError;
use text_io::{LimitKind, ThrowKind};
use thiserror::Error;
use trace_text::TraceLine;

/// What the caller has to do after a command was applied.
#[derive(Drop)]
pub enum Effect {
    Nothing,
    /// To write this line.
    Line(TraceLine),
    /// To write how many entries were taken of an intersection observer's queue, and then a line for each (Intersection
    /// Observer, 2.2: `takeRecords`).
    Taken(WatcherId, EntryList),
}

/// Why a call failed. The page's world is unchanged then.
#[derive(Clone, Copy, Debug, PartialEq, Eq, Error)]
pub enum PageFault {
    /// The command throws an exception.
    #[error("{} is thrown", .0.text())]
    Throw(ThrowKind),
    /// The command meets a limit.
    #[error("the limit of {} is met", .0.text())]
    Limit(LimitKind),
    /// Out of memory.
    #[error("out of memory")]
    Memory,
}

impl From<ThrowKind> for PageFault {
    ghost use Rattle.std.specs.Prelude.{◌≡◌};
    ghost use Rattle.page_state.specs.declared.answers.PageFault.TheVariants.{Throw};

    ghost from_gives = { λ kind fault. fault ≡ Throw kind };

    fn from(kind: ThrowKind) -> PageFault {
        PageFault::Throw(kind)
    }
}

impl From<AllocError> for PageFault {
    ghost use Rattle.std.specs.Prelude.{◌≡◌};
    ghost use Rattle.page_state.specs.declared.answers.PageFault.TheVariants.{Memory};

    ghost from_gives = { λ _ fault. fault ≡ Memory };

    fn from(_error: AllocError) -> PageFault {
        PageFault::Memory
    }
}

impl From<MakeFault> for PageFault {
    ghost use Rattle.std.specs.Prelude.{◌≡◌};
    ghost use Rattle.page_state.specs.Faults.{unmade};

    ghost from_gives = { λ given fault. fault ≡ unmade given };

    fn from(fault: MakeFault) -> PageFault {
        match fault {
            MakeFault::Limit(kind) => PageFault::Limit(kind),
            MakeFault::Memory => PageFault::Memory,
        }
    }
}

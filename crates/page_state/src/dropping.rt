//! Dropping the parts of a page. Each function is proved once, and takes what can be released together in short time: the proof of
//! a drop takes longer the more fields it has.

use event_tables::{FrameCallbacks, Listeners, Tasks, Timers};
use intersection_observer::Watchers;
use kept_findings::KeptFindings;
use page_layout::LaidTree;
use page_names::Names;
use resize_observer::Observers;
use scrolling::Scrolls;
use thresholds::Margins;

pub(crate) fn drop_elements(_names: Names, _laid: LaidTree, _scrolls: Scrolls) {}

pub(crate) fn drop_observers(
    _observers: Observers,
    _watchers: Watchers,
    _scroll_margins: Vec<Margins>,
    _findings: KeptFindings,
) {}

pub(crate) fn drop_tables(
    _listeners: Listeners,
    _frame_callbacks: FrameCallbacks,
    _timers: Timers,
    _tasks: Tasks,
) {}

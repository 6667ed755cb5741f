//! The parts of a page, to be listed, and its clock and counts. None of these calls allocates.

ghost use Rattle.std.specs.Prelude.{◌≡◌, ◌+◌, ◌<◌, length};
ghost use Rattle.text_io.specs.declared.kinds.LimitKind.TheVariants as limits;
ghost use Rattle.text_io.specs.Limits.{limit_number};
ghost use Rattle.page_model.specs.Lookups.{query_list_at};

use crate::page::{Page, most};
use element_tree::DocumentId;
use event_tables::Timers;
use intersection_observer::Watchers;
use page_tree::PageTree;
use resize_observer::Observers;
use scrolling::Scrolls;
use text_io::LimitKind;
use thresholds::Margins;

impl Page {
    /// Returns the clock of the page, in milliseconds: the time of the last tick that began, at first 0.
    pub fn clock(&self) -> u64
        ensures { result ≡ self.now.world.clock }
    {
        self.clock
    }

    /// Returns how many more commands can be begun, each tick among them, before `begin_command` returns
    /// `Limit(Commands)`.
    pub fn commands_left(&self) -> u32
        ensures { result + self.now.world.begun ≡ limit_number self.now.world.version limits.Commands }
    {
        most(LimitKind::Commands, self.version) - self.count
    }

    /// Returns the elements and documents of the page.
    pub fn elements(&self) -> &PageTree
        ensures { result.now.tree ≡ self.now.world.tree }
    {
        self.laid.page()
    }

    /// Returns the resize observers of the page, with their targets, the size last reported of each, and those that are
    /// active.
    pub fn resize_observers(&self) -> &Observers
        ensures { result.now.part ≡ self.now.world.resize_observers }
    {
        &self.observers
    }

    /// Returns the intersection observers of the page, with their registrations and queues.
    pub fn intersection_observers(&self) -> &Watchers
        ensures { result.now.part ≡ self.now.world.intersection_observers }
    {
        &self.watchers
    }

    /// Returns the scroll margins of each intersection observer, in creation order.
    pub fn scroll_margins(&self) -> &[Margins]
        ensures value { result.now ≡ self.now.world.scroll_margins }
        ensures count { length result.now ≡ length self.now.world.intersection_observers.made }
    {
        self.scroll_margins.as_slice()
    }

    /// Returns what is scrolled, with the targets whose scroll events are pending.
    pub fn scrolls(&self) -> &Scrolls
        ensures { result.now ≡ self.now.world.scrolls }
    {
        &self.scrolls
    }

    /// Returns the timers that are set.
    pub fn timers(&self) -> &Timers
        ensures { result.now.part ≡ self.now.world.timers }
    {
        &self.timers
    }

    /// Returns how many media query lists there are. Their numbers begin with 0.
    pub fn query_list_count(&self) -> u32
        ensures { result ≡ length self.now.world.queries }
    {
        self.queries.len() as u32
    }

    /// Returns the document of a media query list, and whether the list matched when it was last evaluated, or created.
    pub fn query_list_state(&self, query: u32) -> (DocumentId, bool)
        requires { query < length self.now.world.queries }
        ensures document { result.0.0 ≡ (query_list_at self.now.world.queries query).document }
        ensures matched { result.1 ≡ (query_list_at self.now.world.queries query).matched }
    {
        let list = &self.queries[query as usize];
        (list.document, list.matched)
    }
}

//! A page, with commands begun and applied.

ghost use Rattle.std.specs.Prelude.{◌≡◌, ◌<◌, ◌≤◌, ◌+◌, ℕ, [], true, false, length, unsigned_abs, IfOk, OnOk, OnErr};
ghost use Rattle.text_io.specs.Limits.{limit_number};
ghost use Rattle.script_model.specs.Scripts.{handlers_in};
ghost use Rattle.style_values.specs.Ranges.{IsHundredths};
ghost use Rattle.page_model.specs.World.{InDocument};
ghost use Rattle.page_model.specs.Names.{document_text, resize_observer_text, intersection_observer_text, query_list_text};
ghost use Rattle.page_model.specs.Callbacks.{handler_names};
ghost use Rattle.page_model.specs.Commands.{begun_in, does};
ghost use Rattle.page_model.specs.Outcome.{opening_world};
ghost use Rattle.page_model.specs.PageBoxes.{viewport_of};
ghost use Rattle.page_model.specs.Shown.{shown_of, shown_with};
ghost use Rattle.page_model.specs.Ticks.{time_set};
ghost use Rattle.page_laws.specs.Ready.{IsReadyFor};
ghost use Rattle.page_boxes.specs.Around.{rests_on, LeavesOthers};
ghost use Rattle.page_boxes.specs.Fresh.{IsFreshIn, IsFreshAbove};
ghost use Rattle.page_boxes.specs.Kept.{AreKept, FillsOnly, LeavesUnboxed, IsExact, is_due, due_count};
ghost use Rattle.page_boxes.specs.Pages.{seen_size, seen_screen, IsScreen};
ghost use Rattle.page_tree.specs.Items.{IsNatural};
ghost use Rattle.script_syntax.specs.Allowed.{ActionAllowed, IsTime};
ghost use Rattle.script_syntax.specs.Seen.{action_of};
ghost use Rattle.page_state.specs.Answers.{Applied, Moved, Kept, IsHanded};
ghost use Rattle.kept_findings.specs.Held.{no_findings, IsRoomier};
ghost use Rattle.page_state.specs.Boxes.{Computes, BoxesAfter};
ghost use Rattle.kept_findings.specs.Registered.{AreRegistered};
ghost use Rattle.intersection_update.specs.Keeping.{HaveChains, is_stale_in};
ghost use Rattle.page_state.specs.Findings.{KeepsFindings, IsFound};
ghost use Rattle.page_names.specs.Things.{present_of, IsSubject};

use crate::answers::{Effect, PageFault};
use crate::by_document::ByDocument;
use crate::queries::QueryList;
use crate::settled::Settled;
use crate::{dropping, first};
use element_tree::{Container, DocumentId, NodeId};
use event_tables::{FrameCallbacks, Listeners, Tasks, Timers};
use intersection_observer::{WatcherId, Watchers};
use intersection_update::is_watched;
use kept_findings::KeptFindings;
use page_boxes::{Screen, viewport_of};
use page_geometry::{Shown, ShownDocument};
use page_layout::LaidTree;
use page_names::{Names, Thing};
use px_units::{Percent, Size};
use resize_observer::{ObserverId, Observers};
use script_syntax::{Action, Script};
use scrolling::Scrolls;
use std::alloc::{AllocError, Global};
use std::marker::Model;
use std::sync::ledger::Ledger;
use step_count::Steps;
use text_io::{LimitKind, Name, ThrowKind, Version};
use thresholds::Margins;
use trace_text::TraceLine;

/// The initial screen: a viewport of 800 by 600 pixels, with one device pixel per CSS pixel.
const FIRST_SCREEN: Screen = Screen {
    size: Size {
        width: 51200,
        height: 38400,
    },
    ratio: Percent(10_000),
};

/// A page with the document `top`. A contract sees it as a world of the definitions, and as whether a command was begun
/// and not applied yet (`specs/Views.antt`).
///
/// A new page is ready for a tick of `frame_update` (`IsReadyFor` of `page_laws`), for any number of handlers, and each call
/// keeps it ready (clause `ready`): `apply` for the handlers of its script, and `notify_list` under the condition stated
/// there.
///
/// Every number in a page refers to something that the page created. Boxes are cached from one reading to the next
/// (`page_layout`): a reading first recomputes those that are due.
pub struct Page {
    pub(crate) names: Names,
    // The elements and documents with their cached boxes.
    pub(crate) laid: LaidTree,
    pub(crate) observers: Observers,
    pub(crate) watchers: Watchers,
    // The scroll margins of each observer, in creation order.
    pub(crate) scroll_margins: Vec<Margins>,
    // The cached findings of their registrations.
    pub(crate) findings: KeptFindings,
    // The documents that are as their last update of intersections left them.
    pub(crate) settled: Settled,
    // Whether a notify task of a document is queued.
    pub(crate) notifying: ByDocument<bool>,
    pub(crate) scrolls: Scrolls,
    pub(crate) queries: Vec<QueryList>,
    pub(crate) listeners: Listeners,
    pub(crate) frame_callbacks: FrameCallbacks,
    pub(crate) timers: Timers,
    pub(crate) tasks: Tasks,
    pub(crate) screen: Screen,
    // The size of each document's viewport at its last resize steps.
    pub(crate) noted: ByDocument<Option<Size>>,
    // The version of the script that the page is for, which determines its limits.
    pub(crate) version: Version,
    pub(crate) clock: u64,
    pub(crate) count: u32,
    pub(crate) begun: bool,
}

// Written by hand since a derived `drop` is proved anew, field by field, in each function that drops a page.
impl Drop for Page {
    fn drop(self) {
        let Page {
            names,
            laid,
            observers,
            watchers,
            scroll_margins,
            findings,
            settled: _,
            notifying: _,
            scrolls,
            queries: _,
            listeners,
            frame_callbacks,
            timers,
            tasks,
            screen: _,
            noted: _,
            version: _,
            clock: _,
            count: _,
            begun: _,
        } = self;
        dropping::drop_elements(names, laid, scrolls);
        dropping::drop_observers(observers, watchers, scroll_margins, findings);
        dropping::drop_tables(listeners, frame_callbacks, timers, tasks);
    }
}

impl Model for Page {
    ghost use Rattle.page_state.specs.Views.{PageView};

    ghost Value = { PageView };

    ghost use Rattle.std.specs.Coded.{codes};
    ghost use Rattle.kept_clips.specs.Codes.{pairs_code};
    ghost use Rattle.candidate_index.specs.Codes.{index_code};

    ghost coded = { Prim.hlevel (codes, pairs_code, index_code) };

    ghost use Rattle.page_state.specs.Worlds.{view_of};
    ghost use Rattle.page_state.specs.Whole.{IsPage};

    ghost view = { view_of };

    ghost invariant = { IsPage };
}

impl Page {
    /// Creates a page for a script of a version, with only the document `top`, which has no elements, and with a viewport of
    /// 800 by 600 pixels at a ratio of 100%.
    pub fn new(alloc: Global, version: Version) -> Result<Page, AllocError>
        ensures opened { IfOk result (λ page. page ≡ record { world = opening_world version; begun = false; kept = []; found = page.found }) }
        ensures findings { IfOk result (λ page. IsRoomier no_findings page.found) }
        ensures ready { IfOk result (λ page. (handlers : ℕ) → IsReadyFor handlers page.world) }
    {
        // What can fail comes first, while there is little that would have to be dropped.
        let laid = LaidTree::new(alloc, version)?;
        let (names, findings, notifying, noted) = first::parts(alloc)?;
        let (listeners, frame_callbacks, timers, tasks) = first::tables(alloc, version);
        Ok(Page {
            names,
            laid,
            observers: first::observers(alloc, version),
            watchers: first::watchers(alloc, version),
            scroll_margins: Vec::new(alloc),
            findings,
            settled: Settled::new(),
            notifying,
            scrolls: Scrolls::new(alloc),
            queries: Vec::new(alloc),
            listeners,
            frame_callbacks,
            timers,
            tasks,
            screen: FIRST_SCREEN,
            noted,
            version,
            clock: 0,
            count: 0,
            begun: false,
        })
    }

    /// Counts a command, which may then be applied.
    ///
    /// # Errors
    /// `Limit(Commands)` exactly when the maximum of the page's version was begun. Nothing is changed then. Doesn't
    /// allocate.
    #[tactic(auto, unfolding(page_model::specs::Commands::begun_in))]
    pub fn begin_command(&mut self) -> Result<(), PageFault>
        ensures counted { Moved result self.old.world self.new.world (begun_in self.old.world) }
        ensures boxes { self.new.kept ≡ self.old.kept }
        ensures findings { self.new.found ≡ self.old.found }
        ensures begun { OnOk result (self.new.begun ≡ true) }
        ensures same { OnErr result (self.new ≡ self.old) }
        ensures ready { (handlers : ℕ) → IsReadyFor handlers self.old.world → IsReadyFor handlers self.new.world }
    {
        if self.count >= most(LimitKind::Commands, self.version) {
            return Err(PageFault::Limit(LimitKind::Commands));
        }
        self.count += 1;
        self.begun = true;
        Ok(())
    }

    /// Sets the clock, in milliseconds, to a time of at most 1,000,000,000,000.
    ///
    /// # Errors
    /// `Throw(RangeError)` exactly when the time is before the clock's. Nothing is changed then. Doesn't allocate.
    pub fn set_time(&mut self, time: u64) -> Result<(), PageFault>
        requires { IsTime time }
        ensures set { Moved result self.old.world self.new.world (time_set time self.old.world) }
        ensures boxes { self.new.kept ≡ self.old.kept }
        ensures findings { self.new.found ≡ self.old.found }
        ensures begun { self.new.begun ≡ self.old.begun }
        ensures same { OnErr result (self.new ≡ self.old) }
        ensures ready { (handlers : ℕ) → IsReadyFor handlers self.old.world → IsReadyFor handlers self.new.world }
    {
        if time < self.clock {
            return Err(PageFault::Throw(ThrowKind::RangeError));
        }
        self.clock = time;
        Ok(())
    }

    /// Applies a command that was begun, as the definition of commands says, for the target of the present entry if there is
    /// one.
    ///
    /// # Errors
    /// `Throw` and `Limit` exactly when the definition says so; `Memory` only if it says neither. The world is
    /// unchanged then.
    pub fn apply<L: Ledger>(
        &mut self,
        script: &Script,
        action: &Action,
        subject: Option<NodeId>,
        steps: &mut Steps<L>,
    ) -> Result<Effect, PageFault>
        requires begun { self.old.begun ≡ true }
        requires allowed { ActionAllowed action.now }
        requires subject { IsSubject (length self.old.world.tree.elements) subject }
        ensures applied { Applied result self.old.world self.new.world
            (does (handler_names (handlers_in script.now.items)) self.old.world (present_of subject) (action_of action.now)) }
        ensures begun { self.new.begun ≡ false }
        ensures handed { IfOk result (IsHanded self.new.world) }
        ensures boxes { BoxesAfter (present_of subject) (action_of action.now) result self.old.world self.new.world.tree self.old.kept self.new.kept steps.old steps.new }
        ensures findings { KeepsFindings self.old.world.intersection_observers self.new.world.intersection_observers self.old.found self.new.found }
        ensures ready { IsReadyFor (length (handlers_in script.now.items)) self.old.world → IsReadyFor (length (handlers_in script.now.items)) self.new.world }
    {
        self.begun = false;
        self.act(script, action, subject, steps)
    }

    // Applies a command that was counted, so that each table can give out one more serial number.
    #[tactic(auto, using(crate::proofs::Doing::kept_at))]
    fn act<L: Ledger>(
        &mut self,
        script: &Script,
        action: &Action,
        subject: Option<NodeId>,
        steps: &mut Steps<L>,
    ) -> Result<Effect, PageFault>
        requires flag { self.old.begun ≡ false }
        requires observations { self.old.world.resize_observers.given < self.old.world.begun }
        requires registrations { self.old.world.intersection_observers.given < self.old.world.begun }
        requires listeners { self.old.world.listeners.given < self.old.world.begun }
        requires frame_callbacks { self.old.world.frame_callbacks.given < self.old.world.begun }
        requires timers { self.old.world.timers.given < self.old.world.begun }
        requires allowed { ActionAllowed action.now }
        requires subject { IsSubject (length self.old.world.tree.elements) subject }
        ensures done { Kept self.old self.new result (does (handler_names (handlers_in script.now.items)) self.old.world (present_of subject) (action_of action.now)) }
        ensures boxes { BoxesAfter (present_of subject) (action_of action.now) result self.old.world self.new.world.tree self.old.kept self.new.kept steps.old steps.new }
        ensures findings { KeepsFindings self.old.world.intersection_observers self.new.world.intersection_observers self.old.found self.new.found }
    {
        match action {
            Action::Viewport(size) => self.set_viewport(*size),
            Action::Ratio(ratio) => self.set_ratio(*ratio),
            Action::Block { name, document } => self.make_block(*name, *document),
            Action::Image {
                name,
                document,
                size,
            } => self.make_image(*name, *document, *size),
            Action::Append { parent, node } => self.append(*parent, *node, subject),
            Action::Before {
                parent,
                node,
                sibling,
            } => self.insert(*parent, *node, *sibling, subject),
            Action::Remove(node) => self.remove(*node, subject),
            Action::Set { node, declaration } => self.set(*node, *declaration, subject),
            Action::Grow { node, axis, by } => self.grow(*node, *axis, *by, subject),
            Action::Load { node, size } => self.load(*node, *size, subject),
            Action::Ro {
                name,
                document,
                handler,
            } => self.make_observer(script, *name, *document, *handler),
            Action::RoObserve {
                observer,
                node,
                observed,
            } => self.observe(*observer, *node, *observed, subject),
            Action::RoUnobserve { observer, node } => self.unobserve(*observer, *node, subject),
            Action::RoDisconnect(observer) => self.disconnect(*observer),
            Action::Listen {
                aim,
                event,
                handler,
            } => self.listen(script, *aim, *event, *handler, subject),
            Action::Unlisten {
                aim,
                event,
                handler,
            } => self.unlisten(script, *aim, *event, *handler, subject),
            Action::Media {
                name,
                document,
                query,
            } => self.make_query_list(*name, *document, query, steps),
            Action::Raf {
                document,
                key,
                handler,
            } => self.request_frame(script, *document, *key, *handler),
            Action::CancelRaf { document, key } => self.cancel_frame(*document, *key),
            Action::Timer {
                document,
                key,
                delay,
                handler,
            } => self.set_timer(script, *document, *key, *delay, *handler),
            Action::ClearTimer { document, key } => self.clear_timer(*document, *key),
            Action::Post { document, handler } => self.post(script, *document, *handler),
            Action::Say(word) => Ok(Effect::Line(TraceLine::Say(*word))),
            Action::Read(node) => self.read(*node, subject, steps),
            Action::Frame {
                name,
                document,
                inside,
            } => self.make_frame(*name, *document, *inside),
            Action::Io(making) => self.make_watcher(script, making, subject),
            Action::IoObserve { observer, node } => self.register(*observer, *node, subject),
            Action::IoUnobserve { observer, node } => self.unregister(*observer, *node, subject),
            Action::IoDisconnect(observer) => self.unregister_all(*observer),
            Action::IoTake(observer) => self.take_entries(*observer),
            Action::Scroll { target, to } => self.scroll_to(*target, *to, subject, steps),
            Action::ScrollBy { target, by } => self.scroll_by(*target, *by, subject, steps),
        }
    }

    /// Returns the version of the script that the page is for. Doesn't allocate.
    pub fn version(&self) -> Version
        ensures { result ≡ self.now.world.version }
    {
        self.version
    }

    /// Returns the number of device pixels per CSS pixel of the screen, in hundredths of a percent (CSSOM View, 4:
    /// `devicePixelRatio`). Doesn't allocate.
    pub fn ratio(&self) -> Percent
        ensures value { unsigned_abs result.0 ≡ self.now.world.viewports.screen.ratio }
        ensures range { IsHundredths result.0 }
    {
        self.screen.ratio
    }

    /// Recomputes the boxes that are due: each box of the page is then up to date, and none is due. It takes one step for
    /// each box that was due, and changes nothing for an element without a box. The world, and whether a command was begun,
    /// are unchanged. Doesn't allocate.
    pub fn refresh_boxes<L: Ledger>(&mut self, steps: &mut Steps<L>)
        ensures same { self.new ≡ record self.old { kept = self.new.kept } }
        ensures done { (n : ℕ) → is_due self.new.world.tree self.new.world.viewports.screen self.new.kept n ≡ false }
        ensures boxes { Computes self.old.world self.old.kept self.new.kept steps.old steps.new }
        ensures ready { (handlers : ℕ) → IsReadyFor handlers self.old.world → IsReadyFor handlers self.new.world }
    {
        self.laid.refresh(self.screen, steps);
    }

    /// Returns the cached boxes. The stored box of an element that has a box and isn't due is its current box, and if a
    /// displayed child of a block, in flow or not, is marked, so is the block.
    pub fn boxes(&self) -> &kept_layout::Kept
        ensures value { result.now ≡ self.now.kept }
        ensures kept { AreKept self.now.world.tree self.now.kept }
        ensures exact { IsExact self.now.world.tree self.now.world.viewports.screen self.now.kept }
    {
        self.laid.boxes()
    }

    /// Returns the cached findings, of exactly the existing registrations. That of a registration that isn't stale is its
    /// current finding, in the coordinates of `top` (`telling_of` maps it to those of an entry). The clips are exact for the
    /// last known states of the spots, as each observer sees them through its scroll margins (`AreHeld` of `kept_findings`).
    pub fn findings(&self) -> &KeptFindings
        ensures value { result.now ≡ self.now.found }
        ensures registered { AreRegistered self.now.world.intersection_observers self.now.world.scroll_margins self.now.found }
        ensures chains { HaveChains (shown_of self.now.world) }
        ensures exact { (chained : HaveChains (shown_of self.now.world)) (serial : ℕ) → is_stale_in (shown_of self.now.world) self.now.world.scroll_margins chained self.now.world.intersection_observers self.now.found.kept serial ≡ false →
            IsFound (shown_of self.now.world) self.now.world.scroll_margins self.now.world.intersection_observers self.now.found serial }
    {
        // These yield what holds for the elements and documents of every page.
        let page = self.laid.page();
        page.holds(NodeId(0));
        page.document_count();
        &self.findings
    }

    /// Returns the current geometry of the page: boxes, places, containers and clips (Intersection Observer, 3.2.7), in units
    /// of 1/64 pixel. Requires that no box is due, as after `refresh_boxes`. Doesn't allocate.
    pub fn geometry(&self) -> Shown<'_>
        requires { (n : ℕ) → is_due self.now.world.tree self.now.world.viewports.screen self.now.kept n ≡ false }
        ensures { result ≡ shown_of self.now.world }
    {
        shown_now(&self.laid, &self.scrolls, self.screen)
    }

    pub(crate) fn document_name(&self, document: DocumentId) -> Name
        requires { document.0 < length self.now.world.tree.documents }
        ensures { result ≡ document_text self.now.world.names document.0 }
    {
        self.names.name_of(Thing::Document(document)).unwrap()
    }

    pub(crate) fn observer_name(&self, observer: ObserverId) -> Name
        requires { observer.0 < length self.now.world.resize_observers.made }
        ensures { result ≡ resize_observer_text self.now.world.names observer.0 }
    {
        self.names.name_of(Thing::ResizeObserver(observer)).unwrap()
    }

    pub(crate) fn watcher_name(&self, watcher: WatcherId) -> Name
        requires { watcher.0 < length self.now.world.intersection_observers.made }
        ensures { result ≡ intersection_observer_text self.now.world.names watcher.0 }
    {
        self.names
            .name_of(Thing::IntersectionObserver(watcher))
            .unwrap()
    }

    pub(crate) fn query_list_name(&self, query: u32) -> Name
        requires { query < length self.now.world.queries }
        ensures { result ≡ query_list_text self.now.world.names query }
    {
        self.names.name_of(Thing::QueryList(query)).unwrap()
    }
}

// Returns the limit of this kind for a page for a script of this version.
#[tactic(auto, using(crate::proofs::Limits::fits))]
pub(crate) fn most(kind: LimitKind, version: Version) -> u32
    ensures { result ≡ limit_number version kind }
{
    kind.number(version) as u32
}

// Returns the current size of a document's viewport.
pub(crate) fn viewport_now<L: Ledger>(
    laid: &mut LaidTree,
    screen: Screen,
    document: DocumentId,
    steps: &mut Steps<L>,
) -> Size
    requires { IsScreen screen }
    ensures value { seen_size result ≡ viewport_of laid.new.elements.tree (seen_screen screen) document.0 }
    ensures natural { IsNatural result }
    ensures same { laid.new.elements ≡ laid.old.elements }
    ensures others { LeavesOthers laid.old.elements.tree (rests_on laid.old.elements.tree (InDocument document.0)) laid.old.kept laid.new.kept }
    ensures unboxed { LeavesUnboxed laid.old.elements.tree (seen_screen screen) laid.old.kept laid.new.kept }
    ensures fills { FillsOnly laid.old.kept laid.new.kept }
    ensures ticks { steps.new + due_count laid.old.elements.tree (seen_screen screen) laid.new.kept ≡ steps.old + due_count laid.old.elements.tree (seen_screen screen) laid.old.kept }
{
    laid.refresh_for(screen, Container::Document(document), steps);
    viewport_of(laid.page(), laid.boxes(), screen, document)
}

// Returns the geometry of a page without due boxes.
pub(crate) fn shown_now<'a>(laid: &'a LaidTree, scrolls: &'a Scrolls, screen: Screen) -> Shown<'a>
    requires screen { IsScreen screen }
    requires done { (n : ℕ) → is_due laid.now.elements.tree (seen_screen screen) laid.now.kept n ≡ false }
    ensures { result ≡ shown_with laid.now.elements.tree (seen_screen screen) scrolls.now }
{
    Shown::new(laid.page(), laid.boxes(), scrolls, screen)
}

// Returns the geometry of a page without due boxes, for reading the sizes of what is observed of a document. If any observer is of
// the document, many elements may be read, so the views are precomputed.
pub(crate) fn sizes_now<'a>(
    laid: &'a LaidTree,
    scrolls: &'a Scrolls,
    screen: Screen,
    observers: &Observers,
    document: DocumentId,
) -> Shown<'a>
    requires screen { IsScreen screen }
    requires done { (n : ℕ) → is_due laid.now.elements.tree (seen_screen screen) laid.now.kept n ≡ false }
    ensures { result ≡ shown_with laid.now.elements.tree (seen_screen screen) scrolls.now }
{
    let shown = shown_now(laid, scrolls, screen);
    match observers.of_document(document, 0) {
        Some(_) => shown.with_views(),
        None => shown,
    }
}

// Returns the geometry of a document whose boxes, and those of the document that its frame is in, are up to date.
pub(crate) fn shown_in<'a>(
    laid: &'a LaidTree,
    scrolls: &'a Scrolls,
    screen: Screen,
    document: DocumentId,
) -> ShownDocument<'a>
    requires screen { IsScreen screen }
    requires fresh { IsFreshIn laid.now.elements.tree (seen_screen screen) laid.now.kept document.0 }
    requires above { IsFreshAbove laid.now.elements.tree (seen_screen screen) laid.now.kept document.0 }
    ensures { result ≡ record { shown = shown_with laid.now.elements.tree (seen_screen screen) scrolls.now; document = document.0 } }
{
    ShownDocument::new(laid.page(), laid.boxes(), scrolls, screen, document)
}

// Returns the geometry of a page without due boxes, for an update of the intersection observers of a document. If the update looks
// at any registration, many elements may be read, so the views and scroll offsets are precomputed.
pub(crate) fn shown_at_once<'a>(
    alloc: Global,
    laid: &'a LaidTree,
    scrolls: &'a Scrolls,
    screen: Screen,
    watchers: &Watchers,
    document: DocumentId,
) -> Shown<'a>
    requires screen { IsScreen screen }
    requires done { (n : ℕ) → is_due laid.now.elements.tree (seen_screen screen) laid.now.kept n ≡ false }
    ensures { result ≡ shown_with laid.now.elements.tree (seen_screen screen) scrolls.now }
{
    let shown = shown_now(laid, scrolls, screen);
    if is_watched(laid.page(), watchers, document) {
        shown.with_documents(alloc)
    } else {
        shown
    }
}

//! Media query lists (CSSOM View, 4.2).

ghost use Rattle.std.specs.Prelude.{◌≡◌, ◌<◌, ℕ, true, length, map, option_map, IfSome};
ghost use Rattle.script_model.specs.Syntax.{MakeQueryList};
ghost use Rattle.page_model.specs.World.{InDocument};
ghost use Rattle.page_model.specs.Commands.{does, matches_now};
ghost use Rattle.page_model.specs.Lookups.{query_list_at};
ghost use Rattle.page_model.specs.Operands.{Present};
ghost use Rattle.page_laws.specs.Ready.{IsReadyFor};
ghost use Rattle.page_boxes.specs.Around.{rests_on};
ghost use Rattle.page_boxes.specs.Pages.{seen_size};
ghost use Rattle.page_state.specs.Answers.{Keeps};
ghost use Rattle.page_state.specs.Boxes.{ComputesIn, viewport_rests_on};
ghost use Rattle.page_state.specs.Queries.{seen_query_list, is_changed, changed_from, next_changed, once_evaluated};

use crate::answers::{Effect, PageFault};
use crate::page::{Page, most, viewport_now};
use element_tree::DocumentId;
use media_queries::Query;
use page_names::Thing;
use px_units::Size;
use std::sync::ledger::Ledger;
use step_count::Steps;
use text_io::{LimitKind, Name};

/// A media query list, with its state at the last evaluation or at creation.
#[derive(Drop)]
pub(crate) struct QueryList {
    pub(crate) document: DocumentId,
    pub(crate) query: Query,
    pub(crate) matched: bool,
}

/// A query list whose state has changed since its last evaluation.
#[derive(Clone, Copy, PartialEq, Eq, Debug)]
pub struct Change {
    pub query: u32,
    /// Whether it matches now.
    pub matches: bool,
    /// The index from which to look for the next change.
    pub place: usize,
}

impl QueryList {
    // Whether it belongs to a document and its state in a viewport of this size differs from that at its last evaluation.
    fn is_changed(&self, document: DocumentId, viewport: Size) -> bool
        ensures { result ≡ is_changed document.0 (seen_size viewport) (seen_query_list self.now) }
    {
        self.document.0 == document.0 && self.query.matches(viewport) != self.matched
    }
}

// Returns the number of the first such query list from an index on.
fn changed_from(
    queries: &[QueryList],
    document: DocumentId,
    viewport: Size,
    place: usize,
) -> Option<usize>
    ensures value { result ≡ changed_from document.0 place (seen_size viewport) (map seen_query_list queries.now) }
    ensures there { IfSome result (λ number. number < length queries.now) }
    ensures changed { IfSome result (λ number. is_changed document.0 (seen_size viewport) (query_list_at (map seen_query_list queries.now) number) ≡ true) }
{
    if place >= queries.len() {
        return None;
    }
    let from = queries[place..]
        .iter()
        .position(|list| list.is_changed(document, viewport))?;
    Some(place + from)
}

impl Page {
    #[tactic(auto, unfolding(page_model::specs::Commands::does), using(crate::proofs::Laid::computes_nothing))]
    pub(crate) fn make_query_list<L: Ledger>(
        &mut self,
        name: Name,
        document: Name,
        query: &Query,
        steps: &mut Steps<L>,
    ) -> Result<Effect, PageFault>
        ensures done { (present : Present) → Keeps self.old self.new result (λ handlers. does handlers self.old.world present (MakeQueryList name document query.now)) }
        ensures boxes { ComputesIn self.old.world (viewport_rests_on self.old.world document) self.old.kept self.new.kept steps.old steps.new }
        ensures findings { self.new.found ≡ self.old.found }
    {
        self.names.check_free(name)?;
        let document = self.document(document)?;
        let number = self.queries.len();
        if number >= most(LimitKind::Queries, self.version) as usize {
            return Err(PageFault::Limit(LimitKind::Queries));
        }
        let query = query.copy(*self.queries.allocator())?;
        self.names.reserve(1)?;
        let viewport = viewport_now(&mut self.laid, self.screen, document, steps);
        let matched = query.matches(viewport);
        let list = QueryList {
            document,
            query,
            matched,
        };
        let Ok(()) = self.queries.push(list) else {
            return Err(PageFault::Memory);
        };
        self.names.insert(name, Thing::QueryList(number as u32))?;
        Ok(Effect::Nothing)
    }

    // Whether a query list currently matches its document's viewport.
    pub(crate) fn matches_now<L: Ledger>(&mut self, query: u32, steps: &mut Steps<L>) -> bool
        requires { query < length self.old.world.queries }
        ensures value { let list = query_list_at self.old.world.queries query in
            result ≡ matches_now self.old.world list.document list.query }
        ensures same { self.new ≡ record self.old { kept = self.new.kept } }
        ensures boxes { let list = query_list_at self.old.world.queries query in
            ComputesIn self.old.world (rests_on self.old.world.tree (InDocument list.document)) self.old.kept self.new.kept steps.old steps.new }
    {
        let list = &self.queries[query as usize];
        let viewport = viewport_now(&mut self.laid, self.screen, list.document, steps);
        list.query.matches(viewport)
    }

    /// Evaluates the query lists of a document from an index on, counted over the lists of all documents, up to the first
    /// whose state has changed since its last evaluation or creation; the new state is stored (CSSOM View, 4.2: evaluate
    /// media queries and report changes). `None` exactly when there is none. Doesn't allocate.
    pub fn next_change<L: Ledger>(
        &mut self,
        document: DocumentId,
        place: usize,
        steps: &mut Steps<L>,
    ) -> Option<Change>
        requires { document.0 < length self.old.world.tree.documents }
        ensures query { option_map (λ change. change.query) result ≡ next_changed document.0 place self.old.world }
        ensures matches { IfSome result (λ change. change.matches ≡ matches_now self.old.world document.0 (query_list_at self.old.world.queries change.query).query) }
        ensures place { IfSome result (λ change. (change.place ≡ ℕ.suc change.query) × change.query < length self.old.world.queries) }
        ensures evaluated { self.new ≡ record self.old { world = once_evaluated document.0 (next_changed document.0 place self.old.world) (self.old.world); kept = self.new.kept } }
        ensures boxes { ComputesIn self.old.world (rests_on self.old.world.tree (InDocument document.0)) self.old.kept self.new.kept steps.old steps.new }
        ensures ready { (handlers : ℕ) → IsReadyFor handlers self.old.world → IsReadyFor handlers self.new.world }
    {
        let size = viewport_now(&mut self.laid, self.screen, document, steps);
        let query = changed_from(self.queries.as_slice(), document, size, place)?;
        let list = &mut self.queries[query];
        list.matched = !list.matched;
        Some(Change {
            query: query as u32,
            matches: list.matched,
            place: query + 1,
        })
    }
}

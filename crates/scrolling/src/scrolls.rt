//! The scroll state of a page.

ghost use Rattle.std.specs.Prelude.{◌≡◌, ◌<◌, ◌≤◌, true, [], map, min, unsigned_abs, vec_len, IfOk, OnOk, OnErr, IsOk};
ghost use Rattle.std.specs.List.{list_any};
ghost use Rattle.page_model.specs.Edits.{kept_within};
ghost use Rattle.page_model.specs.Lookups.{no_extent, entry_or, put_at, is_same_container};
ghost use Rattle.page_model.specs.Scrolls.{with_listed, position_of, pending_of, offset_of, with_position, with_pending, without_pending, stays, scrolled};
ghost use Rattle.scrolling.specs.Pending.{seen_lists};
ghost use Rattle.scrolling.specs.Positions.{seen_position};
ghost use Rattle.scrolling.specs.Ranges.{IsLength, IsRange};
ghost use Rattle.scrolling.specs.Held.{unscrolled, is_pending, HasNoDoubles};
ghost use Rattle.container_model.specs.Seen.{seen_container, seen_containers};
ghost use Rattle.scrolling.specs.Seen.{seen_size, point_of, kept_in, outcome_of};

use crate::Outcome;
use crate::pending::{add_pending, list_of, take_list};
use crate::positions::{Position, position_at, reserve_place, store};
use element_tree::{Container, DocumentId};
use px_units::{Point, Size};
use std::alloc::{AllocError, Global};
use std::marker::Model;

/// The stored scroll positions of elements and documents, and for each document the targets whose scroll events are pending,
/// in order and without duplicates (CSSOM View, 4 to 6 and 13). Contracts see lists by number.
///
/// A range passed in is how far a target can currently be scrolled: how far its content overflows its box or viewport, from 0
/// to 2,147,483,647 units on both axes. Ranges aren't stored, and layout changes nothing that is stored here.
#[derive(Drop)]
pub struct Scrolls {
    elements: Vec<Position>,
    documents: Vec<Position>,
    pending: Vec<Vec<Container>>,
}

impl Model for Scrolls {
    ghost use Rattle.std.specs.Prelude.{map};
    ghost use Rattle.scrolling.specs.Pending.{seen_lists};
    ghost use Rattle.scrolling.specs.Positions.{seen_position};
    ghost use Rattle.scrolling.specs.Held.{IsHeld};
    ghost use Rattle.page_model.specs.World.{Scrolls as ModelScrolls};

    ghost Value = { ModelScrolls };

    ghost view = { λ o. record { elements = map seen_position o.elements.items; documents = map seen_position o.documents.items; pending = seen_lists o.pending.items } };

    ghost invariant = { λ o. IsHeld (record { elements = map seen_position o.elements.items; documents = map seen_position o.documents.items; pending = seen_lists o.pending.items }) };
}

// Returns the lesser of a position and a non-negative length.
fn lesser(units: u64, most: i64) -> u64
    requires { IsLength most }
    ensures value { result ≡ min units (unsigned_abs most) }
    ensures bound { result ≤ 2147483647 }
{
    units.min(most.unsigned_abs())
}

// Clamps a requested position to 0 up to a length.
fn kept(wanted: i64, most: i64) -> u64
    requires { IsLength most }
    ensures { result ≡ kept_within wanted (unsigned_abs most) }
{
    if wanted < 0 {
        return 0;
    }
    wanted.unsigned_abs().min(most.unsigned_abs())
}

// Stores the position of a number, and adds a target to the pending list of a document.
fn move_in(
    held: &mut Vec<Position>,
    pending: &mut Vec<Vec<Container>>,
    number: u32,
    document: DocumentId,
    target: Container,
    position: Position,
) -> Result<(), AllocError>
    ensures held { OnOk result (map seen_position held.new.items ≡ put_at no_extent number (seen_position position) (map seen_position held.old.items)) }
    ensures pending { OnOk result (seen_lists pending.new.items ≡ put_at [] document.0 (with_listed (seen_container target) (entry_or [] (seen_lists pending.old.items) document.0)) (seen_lists pending.old.items)) }
    ensures same_held { OnErr result (map seen_position held.new.items ≡ map seen_position held.old.items) }
    ensures same_pending { OnErr result (seen_lists pending.new.items ≡ seen_lists pending.old.items) }
    ensures there { number < vec_len held.old → list_any (is_same_container (seen_container target)) (entry_or [] (seen_lists pending.old.items) document.0) ≡ true → IsOk result }
{
    reserve_place(held, number)?;
    add_pending(pending, document, target)?;
    store(held, number, position);
    Ok(())
}

impl Scrolls {
    /// Creates the initial state: nothing is scrolled and nothing is pending; allocates nothing.
    pub fn new(alloc: Global) -> Scrolls
        ensures { result ≡ unscrolled }
    {
        Scrolls {
            elements: Vec::new(alloc),
            documents: Vec::new(alloc),
            pending: Vec::new(alloc),
        }
    }

    fn position(&self, target: Container) -> Position
        ensures { seen_position result ≡ position_of (seen_container target) self.now }
    {
        match target {
            Container::Element(node) => position_at(self.elements.as_slice(), node.0),
            Container::Document(document) => position_at(self.documents.as_slice(), document.0),
        }
    }

    fn in_force(&self, target: Container, range: Size) -> Position
        requires { IsRange range }
        ensures value { seen_position result ≡ offset_of (seen_container target) (seen_size range) self.now }
        ensures across { result.across ≤ 2147483647 }
        ensures down { result.down ≤ 2147483647 }
    {
        let stored = self.position(target);
        Position {
            across: lesser(stored.across, range.width),
            down: lesser(stored.down, range.height),
        }
    }

    /// Returns the scroll offset in force: on each axis the lesser of the stored position and the range. It is 0 if no
    /// position is stored.
    pub fn offset_in_force(&self, target: Container, range: Size) -> Point
        requires { IsRange range }
        ensures value { result ≡ point_of (offset_of (seen_container target) (seen_size range) self.now) }
        ensures bound { IsLength result.left × IsLength result.top }
    {
        let offset = self.in_force(target, range);
        Point {
            left: offset.across as i64,
            top: offset.down as i64,
        }
    }

    // Stores a position, and adds the target to the pending list of a document.
    fn move_to(
        &mut self,
        document: DocumentId,
        target: Container,
        position: Position,
    ) -> Result<(), AllocError>
        ensures moved { OnOk result (self.new ≡ with_pending document.0 (seen_container target) (with_position (seen_container target) (seen_position position) self.old)) }
        ensures same { OnErr result (self.new ≡ self.old) }
        ensures pending { is_pending document.0 (seen_container target) self.old ≡ true → IsOk result }
    {
        match target {
            Container::Element(node) => move_in(
                &mut self.elements,
                &mut self.pending,
                node.0,
                document,
                target,
                position,
            ),
            Container::Document(scrolled) => move_in(
                &mut self.documents,
                &mut self.pending,
                scrolled.0,
                document,
                target,
                position,
            ),
        }
    }

    /// Scrolls a target to a requested position, clamped to its range (CSSOM View, 6: `scrollTo`). If that is already the
    /// offset in force, returns `Same`, and nothing changes, including the stored position. Otherwise it is stored, and the
    /// target is appended to the pending list of the given document unless it is already there.
    ///
    /// It can fail only if the target moves and isn't pending there; nothing changes then.
    pub fn scroll_to(
        &mut self,
        document: DocumentId,
        target: Container,
        wanted: Point,
        range: Size,
    ) -> Result<Outcome, AllocError>
        requires { IsRange range }
        ensures scrolled { OnOk result (self.new ≡ scrolled document.0 (seen_container target) (kept_in range wanted) (seen_size range) self.old) }
        ensures outcome { IfOk result (λ outcome. outcome ≡ outcome_of (stays (seen_container target) (kept_in range wanted) (seen_size range) self.old)) }
        ensures same { OnErr result (self.new ≡ self.old) }
        ensures still { stays (seen_container target) (kept_in range wanted) (seen_size range) self.old ≡ true → IsOk result }
        ensures pending { is_pending document.0 (seen_container target) self.old ≡ true → IsOk result }
    {
        let position = Position {
            across: kept(wanted.left, range.width),
            down: kept(wanted.top, range.height),
        };
        let offset = self.in_force(target, range);
        if position.across == offset.across && position.down == offset.down {
            return Ok(Outcome::Same);
        }
        self.move_to(document, target, position)?;
        Ok(Outcome::Moved)
    }

    /// Returns a document's pending list, which stays as it is: the targets whose scroll events are pending, in the order in
    /// which they scrolled first (CSSOM View, 13). It doesn't allocate.
    pub fn pending(&self, document: DocumentId) -> &[Container]
        ensures { seen_containers result.now ≡ pending_of document.0 self.now }
    {
        list_of(self.pending.as_slice(), document)
    }

    /// Takes a document's pending list, leaving it empty (CSSOM View, 13: run the scroll steps). It doesn't allocate.
    pub fn take_pending(&mut self, document: DocumentId) -> Vec<Container>
        ensures value { seen_containers result.items ≡ pending_of document.0 self.old }
        ensures taken { self.new ≡ without_pending document.0 self.old }
        ensures distinct { HasNoDoubles (seen_containers result.items) }
    {
        take_list(&mut self.pending, document)
    }
}

//! Layout of a page over the cached boxes: what is due is recomputed, document by document.

ghost use Rattle.std.specs.Prelude.{◌≡◌, ◌≢◌, ℕ, ◌+◌, ◌<◌, ◌≤◌, ◌∷◌, [], true, false, Some, List, option_map, length, unsigned_abs};
ghost use Rattle.page_model.specs.Documents.{first_of_list, is_active};
ghost use Rattle.page_model.specs.PageBoxes.{view_of};
ghost use Rattle.page_model.specs.World.{Screen as WorldScreen};
ghost use Rattle.element_tree.specs.Links.{number};
ghost use Rattle.page_documents.specs.Frames.{AreFramed};
ghost use Rattle.page_documents.specs.Paths.{way_down};
ghost use Rattle.block_layout.specs.Seen.{seen_inputs};
ghost use Rattle.container_model.specs.Seen.{seen_container};
ghost use Rattle.kept_layout.specs.declared.slots.Slot.{Slot};
ghost use Rattle.page_boxes.specs.Around.{rests_on, LeavesOthers};
ghost use Rattle.page_boxes.specs.Fresh.{IsFresh, IsFreshIn, IsFreshAbove, IsFreshFor};
ghost use Rattle.page_boxes.specs.Kept.{AreKept, FillsOnly, LeavesUnboxed, is_due, due_count};
ghost use Rattle.page_boxes.specs.LaidOut.{is_marked, IsLaidOut, IsMarkedAbove, IsSoFar, MarksMore, ChangesOnlyIn};
ghost use Rattle.page_boxes.specs.Pages.{seen_screen, IsRootAbove};

use crate::documents::framed_size;
use crate::laid_out::LaidOut;
use crate::screens::Screen;
use block_layout::Inputs;
use element_tree::{Container, DocumentId, NodeId};
use kept_layout::Kept;
use page_tree::PageTree;
use px_units::Size;
use std::sync::ledger::Ledger;
use step_count::Steps;

// Returns the inputs of a root element, from the viewport (CSS 2.2, 10.1).
fn root_inputs(viewport: Size) -> Inputs
    ensures seen { seen_inputs result ≡ record { width = unsigned_abs viewport.width; height = Some (unsigned_abs viewport.height); flow = true } }
    ensures flow { result.flow ≡ true }
{
    Inputs {
        width: viewport.width,
        height: Some(viewport.height),
        flow: true,
    }
}

// Recomputes the boxes that are due in an Active document, once those of the document that its frame is in are up to date, given
// the root element that is shown around it. Returns the one that the document itself shows.
fn lay_out<L: Ledger>(
    boxes: &mut Kept,
    page: &PageTree,
    screen: Screen,
    around: Option<NodeId>,
    document: DocumentId,
    steps: &mut Steps<L>,
) -> Option<NodeId>
    requires kept { AreKept page.now.tree boxes.old }
    requires active { is_active page.now.tree document.0 ≡ true }
    requires around { IsRootAbove page.now.tree (seen_screen screen) document.0 (option_map number around) }
    requires above { IsFreshAbove page.now.tree (seen_screen screen) boxes.old document.0 }
    ensures shown { option_map number result ≡ (view_of page.now.tree (seen_screen screen) document.0).root }
    ensures laid_out { IsLaidOut page.now.tree (seen_screen screen) boxes.new document.0 }
    ensures others { (other : ℕ) → other ≢ document.0 → IsLaidOut page.now.tree (seen_screen screen) boxes.old other →
        IsLaidOut page.now.tree (seen_screen screen) boxes.new other }
    ensures left { ChangesOnlyIn page.now.tree (document.0 ∷ []) boxes.old boxes.new }
    ensures kept { AreKept page.now.tree boxes.new }
    ensures slots { length boxes.new ≡ length boxes.old }
    ensures unboxed { LeavesUnboxed page.now.tree (seen_screen screen) boxes.old boxes.new }
    ensures fills { FillsOnly boxes.old boxes.new }
    ensures ticks { steps.new + due_count page.now.tree (seen_screen screen) boxes.new
        ≡ steps.old + due_count page.now.tree (seen_screen screen) boxes.old }
{
    let Some(root) = page.root(document) else {
        return None;
    };
    let Some(size) = framed_size(page, boxes, screen, around, document) else {
        return None;
    };
    boxes.refresh(page.tree(), root, root_inputs(size), steps);
    Some(root)
}

// Returns the root element that is shown around a document, as it was noted when the document that its frame is in was laid out.
fn root_around(page: &PageTree, laid_out: &LaidOut, document: DocumentId) -> Option<NodeId>
    ensures { (screen : WorldScreen) (kept : List Slot) → IsSoFar page.now.tree screen laid_out.now kept →
        IsMarkedAbove page.now.tree laid_out.now.marks document.0 →
        IsRootAbove page.now.tree screen document.0 (option_map number result) }
{
    let Some(frame) = page.frame_of(document) else {
        return None;
    };
    let holder = page.document_of(frame);
    if page.is_active(holder) {
        laid_out.root(holder)
    } else {
        None
    }
}

// Lays out an Active document, once the one that its frame is in is marked, and marks it.
fn lay_out_once<L: Ledger>(
    boxes: &mut Kept,
    page: &PageTree,
    screen: Screen,
    document: DocumentId,
    laid_out: &mut LaidOut,
    steps: &mut Steps<L>,
)
    requires kept { AreKept page.now.tree boxes.old }
    requires known { document.0 < 64 }
    requires active { is_active page.now.tree document.0 ≡ true }
    requires above { IsMarkedAbove page.now.tree laid_out.old.marks document.0 }
    requires so_far { IsSoFar page.now.tree (seen_screen screen) laid_out.old boxes.old }
    ensures so_far { IsSoFar page.now.tree (seen_screen screen) laid_out.new boxes.new }
    ensures more { MarksMore laid_out.old laid_out.new }
    ensures marked { is_marked laid_out.new.marks document.0 ≡ true }
    ensures left { ChangesOnlyIn page.now.tree (document.0 ∷ []) boxes.old boxes.new }
    ensures kept { AreKept page.now.tree boxes.new }
    ensures slots { length boxes.new ≡ length boxes.old }
    ensures unboxed { LeavesUnboxed page.now.tree (seen_screen screen) boxes.old boxes.new }
    ensures fills { FillsOnly boxes.old boxes.new }
    ensures ticks { steps.new + due_count page.now.tree (seen_screen screen) boxes.new
        ≡ steps.old + due_count page.now.tree (seen_screen screen) boxes.old }
{
    let around = root_around(page, laid_out, document);
    let root = lay_out(boxes, page, screen, around, document, steps);
    laid_out.mark(document, root);
}

// Lays out a document that isn't marked, after its ancestor documents up to the first that is marked, following at most `high`
// frames, which lead up to `top`.
fn lay_out_up<L: Ledger>(
    boxes: &mut Kept,
    page: &PageTree,
    screen: Screen,
    document: DocumentId,
    high: u32,
    laid_out: &mut LaidOut,
    steps: &mut Steps<L>,
)
    requires kept { AreKept page.now.tree boxes.old }
    requires framed { AreFramed page.now.tree }
    requires leads { is_active page.now.tree document.0 ≡ true → first_of_list (way_down high page.now.tree document.0) ≡ Some 0 }
    requires so_far { IsSoFar page.now.tree (seen_screen screen) laid_out.old boxes.old }
    ensures so_far { IsSoFar page.now.tree (seen_screen screen) laid_out.new boxes.new }
    ensures more { MarksMore laid_out.old laid_out.new }
    ensures marked { is_active page.now.tree document.0 ≡ true → is_marked laid_out.new.marks document.0 ≡ true }
    ensures left { ChangesOnlyIn page.now.tree (way_down high page.now.tree document.0) boxes.old boxes.new }
    ensures kept { AreKept page.now.tree boxes.new }
    ensures slots { length boxes.new ≡ length boxes.old }
    ensures unboxed { LeavesUnboxed page.now.tree (seen_screen screen) boxes.old boxes.new }
    ensures fills { FillsOnly boxes.old boxes.new }
    ensures ticks { steps.new + due_count page.now.tree (seen_screen screen) boxes.new
        ≡ steps.old + due_count page.now.tree (seen_screen screen) boxes.old }
{
    if high == 0 {
        return;
    }
    if !page.is_active(document) {
        return;
    }
    if laid_out.has(document) {
        return;
    }
    match page.frame_of(document) {
        Some(frame) => {
            let holder = page.document_of(frame);
            lay_out_up(boxes, page, screen, holder, high - 1, laid_out, steps);
            lay_out_once(boxes, page, screen, document, laid_out, steps);
        }
        None => lay_out_once(boxes, page, screen, document, laid_out, steps),
    }
}

/// Recomputes the page's boxes that are due, for this screen of `top`: each box of the page is then up to date, and none is
/// due. Requires that the cache is sound for the page, and keeps it so. It takes one step for each box that was due, sets no
/// mark, drops no box, changes nothing for an element without a box, and doesn't allocate.
pub fn refresh<L: Ledger>(boxes: &mut Kept, page: &PageTree, screen: Screen, steps: &mut Steps<L>)
    requires { AreKept page.now.tree boxes.old }
    ensures fresh { IsFresh page.now.tree (seen_screen screen) boxes.new }
    ensures kept { AreKept page.now.tree boxes.new }
    ensures done { (n : ℕ) → is_due page.now.tree (seen_screen screen) boxes.new n ≡ false }
    ensures slots { length boxes.new ≡ length boxes.old }
    ensures unboxed { LeavesUnboxed page.now.tree (seen_screen screen) boxes.old boxes.new }
    ensures fills { FillsOnly boxes.old boxes.new }
    ensures ticks { steps.new + due_count page.now.tree (seen_screen screen) boxes.new ≡ steps.old + due_count page.now.tree (seen_screen screen) boxes.old }
{
    let mut laid_out = LaidOut::new();
    let count = page.document_count();
    for document in 0..count {
        lay_out_up(
            boxes,
            page,
            screen,
            DocumentId(document),
            count,
            &mut laid_out,
            steps,
        );
    }
}

// Recomputes the boxes that are due in a document, if it is Active, and in its ancestor documents: together they are at most
// the 64 documents that a page may have.
fn refresh_document<L: Ledger>(
    boxes: &mut Kept,
    page: &PageTree,
    screen: Screen,
    document: DocumentId,
    steps: &mut Steps<L>,
)
    requires { AreKept page.now.tree boxes.old }
    ensures framed { AreFramed page.now.tree }
    ensures fresh { IsFreshIn page.now.tree (seen_screen screen) boxes.new document.0 }
    ensures above { is_active page.now.tree document.0 ≡ true → IsFreshAbove page.now.tree (seen_screen screen) boxes.new document.0 }
    ensures left { (high : ℕ) → 64 ≤ high → ChangesOnlyIn page.now.tree (way_down high page.now.tree document.0) boxes.old boxes.new }
    ensures kept { AreKept page.now.tree boxes.new }
    ensures slots { length boxes.new ≡ length boxes.old }
    ensures unboxed { LeavesUnboxed page.now.tree (seen_screen screen) boxes.old boxes.new }
    ensures fills { FillsOnly boxes.old boxes.new }
    ensures ticks { steps.new + due_count page.now.tree (seen_screen screen) boxes.new ≡ steps.old + due_count page.now.tree (seen_screen screen) boxes.old }
{
    let mut laid_out = LaidOut::new();
    let count = page.document_count();
    lay_out_up(boxes, page, screen, document, count, &mut laid_out, steps);
}

/// Recomputes the boxes that are due in a document and its ancestor documents, for this screen of `top`: those of the
/// document and of the one that its frame is in are then up to date, and boxes of other documents are unchanged. A document
/// that isn't Active has no boxes; those of its ancestor documents are recomputed. Requires that the cache is sound for the
/// page, and keeps it so. It takes one step for each box that was due and no longer is, changes nothing for an element
/// without a box, and doesn't allocate.
pub fn refresh_in<L: Ledger>(
    boxes: &mut Kept,
    page: &PageTree,
    screen: Screen,
    document: DocumentId,
    steps: &mut Steps<L>,
)
    requires { AreKept page.now.tree boxes.old }
    ensures fresh { IsFreshIn page.now.tree (seen_screen screen) boxes.new document.0 }
    ensures above { IsFreshAbove page.now.tree (seen_screen screen) boxes.new document.0 }
    ensures left { LeavesOthers page.now.tree (Some document.0) boxes.old boxes.new }
    ensures kept { AreKept page.now.tree boxes.new }
    ensures slots { length boxes.new ≡ length boxes.old }
    ensures unboxed { LeavesUnboxed page.now.tree (seen_screen screen) boxes.old boxes.new }
    ensures fills { FillsOnly boxes.old boxes.new }
    ensures ticks { steps.new + due_count page.now.tree (seen_screen screen) boxes.new ≡ steps.old + due_count page.now.tree (seen_screen screen) boxes.old }
{
    if page.is_active(document) {
        refresh_document(boxes, page, screen, document, steps);
    } else if let Some(frame) = page.frame_of(document) {
        refresh_document(boxes, page, screen, page.document_of(frame), steps);
    }
}

/// Recomputes the boxes that are due and that a reading of an element or a document depends on, for this screen of `top`:
/// those of one document and its ancestor documents are then up to date, and boxes of other documents are unchanged. Requires
/// that the cache is sound for the page, and keeps it so. It takes one step for each box that was due and no longer is,
/// changes nothing for an element without a box, and doesn't allocate.
pub fn refresh_for<L: Ledger>(
    boxes: &mut Kept,
    page: &PageTree,
    screen: Screen,
    container: Container,
    steps: &mut Steps<L>,
)
    requires { AreKept page.now.tree boxes.old }
    ensures fresh { IsFreshFor page.now.tree (seen_screen screen) boxes.new (seen_container container) }
    ensures left { LeavesOthers page.now.tree (rests_on page.now.tree (seen_container container)) boxes.old boxes.new }
    ensures kept { AreKept page.now.tree boxes.new }
    ensures slots { length boxes.new ≡ length boxes.old }
    ensures unboxed { LeavesUnboxed page.now.tree (seen_screen screen) boxes.old boxes.new }
    ensures fills { FillsOnly boxes.old boxes.new }
    ensures ticks { steps.new + due_count page.now.tree (seen_screen screen) boxes.new ≡ steps.old + due_count page.now.tree (seen_screen screen) boxes.old }
{
    let around = match container {
        Container::Element(node) => Some(node),
        Container::Document(document) => page.frame_of(document),
    };
    if let Some(node) = around {
        refresh_document(boxes, page, screen, page.document_of(node), steps);
    }
}

//! The boxes of a page.

ghost use Rattle.std.specs.Prelude.{◌≡◌, ◌++◌, map, true, All, IfOk, OnOk};
ghost use Rattle.page_model.specs.Shown.{shown_of, has_box};
ghost use Rattle.page_state.specs.Boxes.{Computes};
ghost use Rattle.box_inspector.specs.Boxes.{box_line, box_list, boxed_elements};
ghost use Rattle.box_inspector.specs.Clips.{AreClips};
ghost use Rattle.box_inspector.specs.Ranges.{BoxReaches};

use crate::boxed::elements;
use crate::lines::BoxLine;
use crate::seen::{place, seen_part};
use common_clips::CommonClips;
use element_tree::{DocumentId, NodeId};
use event_tables::EventTarget;
use page_geometry::Shown;
use page_state::{Label, Page};
use std::alloc::{AllocError, Global};
use std::sync::ledger::Ledger;
use step_count::Steps;

// Returns the record of an element's box.
fn box_line(
    page: &Page,
    shown: &Shown<'_>,
    node: NodeId,
    clips: &mut CommonClips,
) -> Result<BoxLine, AllocError>
    requires shown { shown.now ≡ shown_of page.now.world }
    requires boxed { has_box shown.now node.0 ≡ true }
    requires clips { AreClips shown.now clips.old.inside }
    ensures value { IfOk result (λ line. line ≡ box_line page.now.world node.0) }
    ensures reach { IfOk result BoxReaches }
    ensures clips { AreClips shown.now clips.new.inside }
{
    let seen = seen_part(shown, node, clips)?;
    Ok(BoxLine {
        name: page.label(Label::Target(EventTarget::Node(node))),
        depth: shown.page().depth(node),
        place: place(shown, node),
        seen,
    })
}

// Appends the boxes of some elements.
fn push_boxes(
    page: &Page,
    shown: &Shown<'_>,
    nodes: &[NodeId],
    clips: &mut CommonClips,
    lines: &mut Vec<BoxLine>,
) -> Result<(), AllocError>
    requires shown { shown.now ≡ shown_of page.now.world }
    requires boxed { All (λ node. has_box shown.now node.0 ≡ true) nodes.now }
    requires clips { AreClips shown.now clips.old.inside }
    requires reach { All BoxReaches lines.old.items }
    ensures clips { AreClips shown.now clips.new.inside }
    ensures pushed { OnOk result (lines.new.items ≡ lines.old.items ++ map (λ node. box_line page.now.world node.0) nodes.now) }
    ensures reach { OnOk result (All BoxReaches lines.new.items) }
{
    for node in nodes {
        let line = box_line(page, shown, *node, clips)?;
        lines.push(line)?;
    }
    Ok(())
}

// Appends the boxes of a document.
fn push_document(
    alloc: Global,
    page: &Page,
    shown: &Shown<'_>,
    document: DocumentId,
    clips: &mut CommonClips,
    lines: &mut Vec<BoxLine>,
) -> Result<(), AllocError>
    requires shown { shown.now ≡ shown_of page.now.world }
    requires clips { AreClips shown.now clips.old.inside }
    requires reach { All BoxReaches lines.old.items }
    ensures clips { AreClips shown.now clips.new.inside }
    ensures pushed { OnOk result (lines.new.items ≡ lines.old.items ++ map (box_line page.now.world) (boxed_elements (shown_of page.now.world) document.0)) }
    ensures reach { OnOk result (All BoxReaches lines.new.items) }
{
    let nodes = elements(alloc, shown, document)?;
    push_boxes(page, shown, &nodes, clips, lines)
}

// Returns the boxes of a page, of which none is due.
fn list_boxes(alloc: Global, page: &Page, shown: &Shown<'_>) -> Result<Vec<BoxLine>, AllocError>
    requires { shown.now ≡ shown_of page.now.world }
    ensures list { IfOk result (λ lines. lines.items ≡ box_list page.now.world) }
    ensures reach { IfOk result (λ lines. All BoxReaches lines.items) }
{
    let documents = page.active_documents()?;
    let mut clips = CommonClips::new(alloc);
    let mut lines = Vec::new(alloc);
    for document in &documents {
        push_document(alloc, page, shown, *document, &mut clips, &mut lines)?;
    }
    Ok(lines)
}

/// Returns the current boxes of a page: of each Active document, in the order in which documents are updated, each element
/// with a box in tree order, with its name, depth, place and visible part. Boxes that are due are recomputed first, in at
/// most one step each. The page is otherwise unchanged.
///
/// # Errors
///
/// If an allocation fails.
pub fn inspect<L: Ledger>(
    alloc: Global,
    page: &mut Page,
    steps: &mut Steps<L>,
) -> Result<Vec<BoxLine>, AllocError>
    ensures list { IfOk result (λ lines. lines.items ≡ box_list page.old.world) }
    ensures reach { IfOk result (λ lines. All BoxReaches lines.items) }
    ensures same { page.new ≡ record page.old { kept = page.new.kept } }
    ensures boxes { Computes page.old.world page.old.kept page.new.kept steps.old steps.new }
{
    page.refresh_boxes(steps);
    let shown = page.geometry().with_documents(alloc);
    list_boxes(alloc, page, &shown)
}

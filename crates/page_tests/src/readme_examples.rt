//! The examples of the crates' README files, each the body of a function here, as `tools/check-documents` sees.

ghost use Rattle.std.specs.Prelude.{◌≡◌, ◌<◌};

use crate::common::{SCREEN, any_name, declaration};
use block_layout::ItemKind;
use element_tree::{Container, DocumentId};
use page_boxes::size_of;
use page_layout::LaidTree;
use page_tree::PageTree;
use px_units::{BoxKind, Px};
use std::alloc::Global;
use std::marker::Brand;
use std::process::Abort;
use std::sync::ledger::{Blank, Ledger};
use std::test::Fail;
use step_count::Steps;
use style_values::Axis;
use text_io::{ThrowKind, Version};

#[test]
fn a_frame_comes_into_a_page(rt: HostRuntime) -> Result<(), Fail> {
    let mut page = PageTree::new(rt.alloc(), Version::First)?;
    assert!(rt; page.document_count() == 1); // `top`
    let top = DocumentId(0);
    let body = page.make(top, any_name(&rt), ItemKind::Block)?;
    let (frame, inside) = page.make_frame(top, any_name(&rt))?; // a Fresh document in it
    assert!(rt; page.place(Container::Document(top), body, None).is_ok()); // the root element of `top`
    assert!(rt; page.place(Container::Element(body), frame, None).is_ok());
    assert!(rt; page.is_active(inside));
    let grown = page.grow(body, Axis::Width, Px(64));
    assert_eq!(rt; grown, Err(ThrowKind::TypeError)); // its width is automatic
    Ok(())
}

fn see_height<L: Ledger>(blank: Blank, rt: &impl Abort, alloc: Global) -> Result<(), Fail>
    requires name { blank.name ≡ L.name }
    requires parts { blank.parts ≡ L.parts }
    requires one_part { 0 < blank.parts }
{
    let mut steps = Steps::<L>::new(blank);
    let mut laid = LaidTree::new(alloc, Version::First)?;
    assert!(rt; laid.page().document_count() == 1); // `top`
    let top = DocumentId(0);
    let body = laid.make(top, any_name(rt), ItemKind::Block)?;
    assert!(rt; laid.place(Container::Document(top), body, None).is_ok());
    laid.set(body, declaration(rt, "height", "20px")); // marks the element
    laid.refresh(SCREEN, &mut steps); // computes the boxes that are due
    let size = size_of(laid.page(), laid.boxes(), SCREEN, body, BoxKind::Border);
    assert_eq!(rt; (size.width, size.height), (51200, 1280)); // 800 by 20 pixels
    Ok(())
}

fn see_height_counted(rt: &impl Abort, alloc: Global) -> Result<(), Fail> {
    see_height::<Brand>(Blank::new(1), rt, alloc)
}

#[test]
fn a_height_is_laid_out(rt: HostRuntime) -> Result<(), Fail> {
    see_height_counted(&rt, rt.alloc())
}

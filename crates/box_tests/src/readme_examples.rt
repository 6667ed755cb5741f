//! The examples of the crates' README files, each the body of a function here or a whole one, as `tools/check-documents` sees.

ghost use Rattle.std.specs.Prelude.{◌≡◌, ◌+◌, ◌<◌};

use crate::elements::{Element, SCREEN, styled};
use block_layout::{BoxOf, ItemKind, compute_box};
use element_tree::{NodeId, Tree, TreeFault};
use kept_layout::Kept;
use number_map::NumberMap;
use positioned_layout::{Holder, holder_of};
use px_units::BoxKind;
use std::alloc::Global;
use std::marker::Brand;
use std::process::Abort;
use std::sync::ledger::{Blank, Ledger};
use std::test::Fail;
use step_count::Steps;

// In a viewport of 800 by 600 pixels, with 100 pixels of content in it.
fn counted_box<L: Ledger>(item: &Element, steps: &mut Steps<L>) -> BoxOf
    ensures ticks { steps.new ≡ steps.old + 1 }
{
    compute_box(item, SCREEN, 6400, steps)
}

fn see_content<L: Ledger>(blank: Blank, rt: &impl Abort)
    requires name { blank.name ≡ L.name }
    requires parts { blank.parts ≡ L.parts }
    requires one_part { 0 < blank.parts }
{
    let mut steps = Steps::<L>::new(blank);
    let item = styled(rt, ItemKind::Block, "padding:1px");
    let size = counted_box(&item, &mut steps).size(BoxKind::Content);
    assert_eq!(rt; (size.width, size.height), (51072, 6400));
}

fn see_content_counted(rt: &impl Abort) {
    see_content::<Brand>(Blank::new(1), rt);
}

#[test]
fn a_box_is_computed_in_a_step(rt: HostRuntime) {
    see_content_counted(&rt);
}

fn see_padding<L: Ledger>(blank: Blank, rt: &impl Abort)
    requires name { blank.name ≡ L.name }
    requires parts { blank.parts ≡ L.parts }
    requires one_part { 0 < blank.parts }
{
    let mut steps = Steps::<L>::new(blank);
    let item = styled(rt, ItemKind::Block, "padding:1px");
    let own = compute_box(&item, SCREEN, 6400, &mut steps); // 100 pixels of content, in 800 by 600
    let size = own.size(BoxKind::Border);
    assert_eq!(rt; (size.width, size.height), (51200, 6528)); // 800 by 102 pixels
}

fn see_padding_counted(rt: &impl Abort) {
    see_padding::<Brand>(Blank::new(1), rt);
}

#[test]
fn a_padding_counts_in_the_border_box(rt: HostRuntime) {
    see_padding_counted(&rt);
}

#[test]
fn a_number_has_a_value(rt: HostRuntime) -> Result<(), Fail> {
    let mut map = NumberMap::new(rt.alloc());
    map.insert(7, 'a')?;
    assert_eq!(rt; map.get(7), Some('a'));
    map.remove(7);
    assert_eq!(rt; map.get(7), None);
    Ok(())
}

#[test]
fn no_node_is_put_into_its_own_child(rt: HostRuntime) -> Result<(), Fail> {
    let mut tree = Tree::new(rt.alloc(), 20_000, 256); // at most 20,000 nodes, 256 levels
    let page = tree.add("page").map_err(|refused| refused.0)?;
    let aside = tree.add("aside").map_err(|refused| refused.0)?;
    tree.append(page, aside)?;
    let refused = tree.append(aside, page);
    assert!(rt; matches!(refused, Err(TreeFault::Hierarchy)));
    assert_eq!(rt; tree.parent(aside), Some(page)); // nothing has changed
    Ok(())
}

fn see_card<L: Ledger>(blank: Blank, rt: &impl Abort, alloc: Global) -> Result<(), Fail>
    requires name { blank.name ≡ L.name }
    requires parts { blank.parts ≡ L.parts }
    requires one_part { 0 < blank.parts }
{
    let mut steps = Steps::<L>::new(blank);
    let mut tree = Tree::new(alloc, 20_000, 256);
    let page = tree
        .add(styled(rt, ItemKind::Block, "padding:1px"))
        .map_err(|refused| refused.0)?;
    let card = tree
        .add(styled(rt, ItemKind::Block, "height:20px"))
        .map_err(|refused| refused.0)?;
    tree.append(page, card)?;
    let mut kept = Kept::new(alloc);
    kept.add(card)?; // a slot for it, and one for each lower number
    kept.mark(&tree, page);
    kept.refresh(&tree, page, SCREEN, &mut steps);
    let size = kept.size_of(card, BoxKind::Border);
    assert_eq!(rt; (size.width, size.height), (51072, 1280)); // 798 by 20 pixels
    Ok(())
}

fn see_card_counted(rt: &impl Abort, alloc: Global) -> Result<(), Fail> {
    see_card::<Brand>(Blank::new(1), rt, alloc)
}

#[test]
fn a_card_is_laid_out(rt: HostRuntime) -> Result<(), Fail> {
    see_card_counted(&rt, rt.alloc())
}

#[test]
fn a_badge_is_held_by_its_card(rt: HostRuntime) -> Result<(), Fail> {
    let mut tree = Tree::new(rt.alloc(), 20_000, 256);
    let page = tree
        .add(styled(&rt, ItemKind::Block, "padding:1px"))
        .map_err(|refused| refused.0)?;
    let card = tree
        .add(styled(&rt, ItemKind::Block, "position:relative"))
        .map_err(|refused| refused.0)?;
    let badge = tree
        .add(styled(&rt, ItemKind::Block, "position:absolute"))
        .map_err(|refused| refused.0)?;
    tree.append(page, card)?;
    tree.append(card, badge)?;
    assert_eq!(rt; holder_of(&tree, badge), Holder::Node(card));
    tree.append(page, badge)?; // a root element counts as static
    assert_eq!(rt; holder_of(&tree, badge), Holder::Page);
    Ok(())
}

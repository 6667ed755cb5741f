//! Names given to things, looked up and told.

use crate::same::same;
use element_tree::{Container, DocumentId, NodeId};
use event_tables::EventTarget;
use intersection_observer::WatcherId;
use page_names::{Names, Thing};
use resize_observer::ObserverId;
use script_syntax::{Aim, Operand};
use std::alloc::AllocError;
use std::process::Abort;
use std::test::Fail;
use text_io::{Name, ThrowKind};

fn named(rt: &impl Abort, text: &[u8]) -> Name {
    Name::read(text).expect(rt, "a name")
}

// Gives a name where it is free, and tells whether it was.
fn give(names: &mut Names, name: Name, thing: Thing) -> Result<bool, AllocError> {
    match names.check_free(name) {
        Ok(()) => {
            names.insert(name, thing)?;
            Ok(true)
        }
        Err(_) => Ok(false),
    }
}

#[test]
fn an_element_is_named(rt: HostRuntime) -> Result<(), Fail> {
    let mut names = Names::new(rt.alloc());
    let page = Name::read(b"page").expect(&rt, "a name");
    assert!(rt; give(&mut names, page, Thing::Element(NodeId(0)))?);
    assert_eq!(rt; names.element(Operand::Named(page), None), Ok(NodeId(0)));
    assert_eq!(rt; names.document(page), Err(ThrowKind::TypeError)); // it is no document
    assert_eq!(rt; names.check_free(page), Err(ThrowKind::TypeError)); // nor is it free any more
    Ok(())
}

#[test]
fn the_first_name_of_a_thing_is_told(rt: HostRuntime) -> Result<(), Fail> {
    let mut names = Names::new(rt.alloc());
    names.reserve(3)?;
    let (first, second, other) = (named(&rt, b"a"), named(&rt, b"b"), named(&rt, b"c"));
    assert!(rt; give(&mut names, first, Thing::QueryList(4))?);
    assert!(rt; give(&mut names, second, Thing::QueryList(4))?);
    assert!(rt; give(&mut names, other, Thing::Element(NodeId(4)))?);
    same(
        &rt,
        &names.name_of(Thing::QueryList(4)),
        &Some(first),
        "the name of a query list",
    );
    same(
        &rt,
        &names.name_of(Thing::Element(NodeId(4))),
        &Some(other),
        "the name of element 4",
    );
    same(
        &rt,
        &names.name_of(Thing::Element(NodeId(3))),
        &None,
        "no name",
    );
    same(
        &rt,
        &names.thing_of(second),
        &Some(Thing::QueryList(4)),
        "what the second is",
    );
    same(&rt, &names.query_list(second), &Ok(4), "its number");
    Ok(())
}

#[test]
fn operands_are_things_of_their_kinds(rt: HostRuntime) -> Result<(), Fail> {
    let mut names = Names::new(rt.alloc());
    let (top, watch, seen) = (
        named(&rt, b"top"),
        named(&rt, b"watch"),
        named(&rt, b"seen"),
    );
    assert!(rt; give(&mut names, top, Thing::Document(DocumentId(0)))?);
    assert!(rt; give(&mut names, watch, Thing::ResizeObserver(ObserverId(0)))?);
    assert!(rt; give(&mut names, seen, Thing::IntersectionObserver(WatcherId(1)))?);
    let target = Some(NodeId(7));
    same(&rt, &names.document(top), &Ok(DocumentId(0)), "top");
    same(&rt, &names.observer(watch), &Ok(ObserverId(0)), "watch");
    same(&rt, &names.watcher(seen), &Ok(WatcherId(1)), "seen");
    same(
        &rt,
        &names.watcher(watch),
        &Err(ThrowKind::TypeError),
        "watch as an intersection observer",
    );
    same(
        &rt,
        &names.container(Operand::Named(top), target),
        &Ok(Container::Document(DocumentId(0))),
        "top as a container",
    );
    same(
        &rt,
        &names.element(Operand::Target, target),
        &Ok(NodeId(7)),
        "the target",
    );
    same(
        &rt,
        &names.element(Operand::Target, None),
        &Err(ThrowKind::ReferenceError),
        "no target",
    );
    let window = Ok(EventTarget::Window(DocumentId(0)));
    same(
        &rt,
        &names.event_target(Aim::Window(top), None),
        &window,
        "a window",
    );
    let second = names.check_also_free(named(&rt, b"f"), named(&rt, b"f"));
    same(&rt, &second, &Err(ThrowKind::TypeError), "a name twice");
    same(
        &rt,
        &names.check_also_free(named(&rt, b"f"), named(&rt, b"g")),
        &Ok(()),
        "two new names",
    );
    Ok(())
}

//! Edits of a tree of ten nodes, with the lists of children that DOM's rules give.
use crate::same::same;
use element_tree::{NodeId, Tree, TreeFault};
use std::alloc::Global;
use std::process::Abort;
use std::test::Fail;

#[derive(Clone, Copy)]
enum Edit {
    Append(u32, u32),
    Before(u32, u32, u32),
    Remove(u32),
}

fn answer(outcome: Result<(), TreeFault>) -> &'static str {
    match outcome {
        Ok(()) => "Ok",
        Err(TreeFault::Hierarchy) => "Hierarchy",
        Err(TreeFault::NotAChild) => "NotAChild",
        Err(TreeFault::NodeLimit) => "NodeLimit",
        Err(TreeFault::DepthLimit) => "DepthLimit",
        Err(TreeFault::Memory) => "Memory",
    }
}

fn apply(rt: &impl Abort, tree: &mut Tree<u32>, edit: Edit) -> &'static str {
    match edit {
        Edit::Append(parent, child) => {
            assert!(rt; tree.holds(NodeId(parent)) && tree.holds(NodeId(child)));
            answer(tree.append(NodeId(parent), NodeId(child)))
        }
        Edit::Before(parent, child, sibling) => {
            assert!(rt; tree.holds(NodeId(parent)) && tree.holds(NodeId(child)));
            assert!(rt; tree.holds(NodeId(sibling)));
            answer(tree.insert_before(NodeId(parent), NodeId(child), NodeId(sibling)))
        }
        Edit::Remove(node) => {
            assert!(rt; tree.holds(NodeId(node)));
            tree.remove(NodeId(node));
            "Ok"
        }
    }
}

// Appends the children of a node in order, ended by a bar.
fn push_children(
    rt: &impl Abort,
    text: &mut String,
    alloc: Global,
    tree: &Tree<u32>,
    node: NodeId,
) -> Result<(), Fail> {
    let mut previous = None;
    let mut next = tree.first_child(node);
    for _ in 0..10 {
        let Some(child) = next else {
            break;
        };
        same(rt, &tree.parent(child), &Some(node), "the parent");
        same(
            rt,
            &tree.previous_sibling(child),
            &previous,
            "the sibling before",
        );
        text.push_str(format!(in alloc; "{}", child.0)?.as_str())?;
        previous = next;
        next = tree.next_sibling(child);
    }
    text.push('|')?;
    Ok(())
}

fn push_shape(
    rt: &impl Abort,
    text: &mut String,
    alloc: Global,
    tree: &Tree<u32>,
) -> Result<(), Fail> {
    for number in 0..10 {
        push_children(rt, text, alloc, tree, NodeId(number))?;
    }
    Ok(())
}

fn see_shape(rt: &impl Abort, alloc: Global, tree: &Tree<u32>, children: &str) -> Result<(), Fail> {
    let mut shape = String::new(alloc);
    push_shape(rt, &mut shape, alloc, tree)?;
    same(rt, &shape.as_str(), &children, "the lists of children");
    Ok(())
}

fn add_ten(rt: &impl Abort, tree: &mut Tree<u32>) {
    for number in 0..10 {
        match tree.add(100 + number) {
            Ok(node) => same(rt, &node, &NodeId(number), "a node"),
            Err(_) => assert!(rt; false, "no node {number}"),
        }
    }
}

/// An edit, its answer, and the lists of children then, each ended by a bar.
type Step = (Edit, &'static str, &'static str);

const STEPS: [Step; 27] = [
    (Edit::Append(0, 1), "Ok", "1||||||||||"),
    (Edit::Append(0, 2), "Ok", "12||||||||||"),
    (Edit::Before(0, 3, 1), "Ok", "312||||||||||"),
    (Edit::Append(1, 4), "Ok", "312|4|||||||||"),
    (Edit::Append(4, 0), "Hierarchy", "312|4|||||||||"),
    (Edit::Append(1, 1), "Hierarchy", "312|4|||||||||"),
    (Edit::Before(0, 5, 4), "NotAChild", "312|4|||||||||"),
    (Edit::Before(4, 1, 9), "Hierarchy", "312|4|||||||||"),
    (Edit::Append(4, 5), "Ok", "312|4|||5||||||"),
    (Edit::Append(5, 6), "DepthLimit", "312|4|||5||||||"),
    (Edit::Append(6, 7), "Ok", "312|4|||5||7||||"),
    (Edit::Append(4, 6), "DepthLimit", "312|4|||5||7||||"),
    (Edit::Before(4, 6, 5), "DepthLimit", "312|4|||5||7||||"),
    (Edit::Append(2, 6), "Ok", "312|4|6||5||7||||"),
    (Edit::Append(0, 1), "Ok", "321|4|6||5||7||||"),
    (Edit::Before(0, 3, 3), "Ok", "321|4|6||5||7||||"),
    (Edit::Before(0, 1, 1), "Ok", "321|4|6||5||7||||"),
    (Edit::Before(0, 1, 2), "Ok", "312|4|6||5||7||||"),
    (Edit::Before(0, 8, 2), "Ok", "3182|4|6||5||7||||"),
    (Edit::Remove(1), "Ok", "382|4|6||5||7||||"),
    (Edit::Remove(1), "Ok", "382|4|6||5||7||||"),
    (Edit::Remove(3), "Ok", "82|4|6||5||7||||"),
    (Edit::Remove(2), "Ok", "8|4|6||5||7||||"),
    (Edit::Before(8, 9, 8), "NotAChild", "8|4|6||5||7||||"),
    (Edit::Append(2, 1), "Ok", "8|4|61||5||7||||"),
    (Edit::Append(6, 4), "Ok", "8||61||5||74||||"),
    (Edit::Before(6, 4, 7), "Ok", "8||61||5||47||||"),
];

fn take_steps(rt: &impl Abort, alloc: Global, tree: &mut Tree<u32>) -> Result<(), Fail> {
    for (edit, answered, children) in STEPS {
        same(rt, &apply(rt, tree, edit), &answered, children);
        see_shape(rt, alloc, tree, children)?;
    }
    Ok(())
}

#[test]
fn edits_give_the_lists_of_children(rt: HostRuntime) -> Result<(), Fail> {
    let mut tree = Tree::new(rt.alloc(), 10, 4);
    add_ten(&rt, &mut tree);
    take_steps(&rt, rt.alloc(), &mut tree)?;
    measures(&rt, &tree);
    Ok(())
}

// Of the last tree: 0 has 8; 2 has 6 and 1; 6 has 4 and 7; 4 has 5.
fn measures(rt: &impl Abort, tree: &Tree<u32>) {
    let depths = [1, 2, 1, 1, 3, 4, 2, 3, 2, 1];
    let heights = [2, 1, 4, 1, 2, 1, 3, 1, 1, 1];
    for number in 0..10 {
        same(
            rt,
            &tree.depth(NodeId(number)),
            &depths[number as usize],
            "a depth",
        );
        same(
            rt,
            &tree.height(NodeId(number)),
            &heights[number as usize],
            "a height",
        );
    }
    for (ancestor, node, is) in [(2, 5, true), (5, 2, false), (5, 5, true), (1, 5, false)] {
        same(
            rt,
            &tree.is_ancestor(NodeId(ancestor), NodeId(node)),
            &is,
            "an ancestor",
        );
    }
}

// A tree for one node, before the node is made.
fn see_making(rt: &impl Abort, small: &mut Tree<u32>) -> Result<(), Fail> {
    assert!(rt; !small.holds(NodeId(0)));
    same(rt, &small.reserve()?, &NodeId(0), "the first number");
    assert!(rt; !small.holds(NodeId(0)));
    assert!(rt; small.add(7).is_ok());
    assert!(rt; small.holds(NodeId(0)));
    Ok(())
}

fn see_full(rt: &impl Abort, small: &mut Tree<u32>) {
    assert!(rt; matches!(small.reserve(), Err(TreeFault::NodeLimit)));
    assert!(rt; matches!(small.add(8), Err((TreeFault::NodeLimit, 8))));
}

fn see_payload(rt: &impl Abort, small: &mut Tree<u32>) {
    assert!(rt; small.holds(NodeId(0)));
    let payload = small.payload_mut(NodeId(0));
    *payload = payload.saturating_add(2);
    assert!(rt; small.holds(NodeId(0)));
    same(rt, small.payload(NodeId(0)), &9, "the payload");
}

#[test]
fn nodes_are_numbered_up_to_the_limit(rt: HostRuntime) -> Result<(), Fail> {
    let mut small = Tree::new(rt.alloc(), 1, 1);
    see_making(&rt, &mut small)?;
    see_full(&rt, &mut small);
    see_payload(&rt, &mut small);
    Ok(())
}

//! The links in the slab: reading, writing, and relinking as a node is removed from or inserted into a list of children.
ghost use Rattle.std.specs.Prelude.{◌≡◌, IsSome};
ghost use Rattle.std.specs.Option.{ForSome};
ghost use Rattle.element_tree.specs.Links.{no_links, links_at, payload_at, put, following, leading, unlinked, linked, previous_at, IsRelinked, IsClosed};

use crate::node::{Entry, Links, NodeId};
use slab::Slab;

impl Links {
    pub(crate) fn detached() -> Links
        ensures { result ≡ no_links }
    {
        Links {
            parent: None,
            first: None,
            last: None,
            next: None,
            previous: None,
        }
    }
}

pub(crate) fn links_of<P>(slots: &Slab<Entry<P>>, node: NodeId) -> Links
    ensures { result ≡ links_at slots.now node.0 }
{
    match slots.get(node.0 as usize) {
        Some(entry) => entry.links,
        None => Links::detached(),
    }
}

fn set_links<P>(slots: &mut Slab<Entry<P>>, node: NodeId, links: Links)
    requires { IsSome (payload_at slots.old node.0) }
    ensures { IsRelinked slots.old slots.new (put (links_at slots.old) node.0 links) }
{
    slots[node.0 as usize].links = links;
}

// Makes `node` follow `previous` among the children of a parent, or be its first child if there is no previous one.
fn set_following<P>(
    slots: &mut Slab<Entry<P>>,
    parent: NodeId,
    previous: Option<NodeId>,
    node: Option<NodeId>,
)
    requires parent { IsSome (payload_at slots.old parent.0) }
    requires previous { ForSome previous (λ q. IsSome (payload_at slots.old q.0)) }
    ensures { IsRelinked slots.old slots.new (following (links_at slots.old) parent.0 previous node) }
{
    match previous {
        Some(before) => {
            let links = links_of(slots, before);
            set_links(
                slots,
                before,
                Links {
                    next: node,
                    ..links
                },
            );
        }
        None => {
            let links = links_of(slots, parent);
            set_links(
                slots,
                parent,
                Links {
                    first: node,
                    ..links
                },
            );
        }
    }
}

// Makes `node` precede `next` among the children of a parent, or be its last child if there is no next one.
fn set_leading<P>(
    slots: &mut Slab<Entry<P>>,
    parent: NodeId,
    next: Option<NodeId>,
    node: Option<NodeId>,
)
    requires parent { IsSome (payload_at slots.old parent.0) }
    requires next { ForSome next (λ s. IsSome (payload_at slots.old s.0)) }
    ensures { IsRelinked slots.old slots.new (leading (links_at slots.old) parent.0 next node) }
{
    match next {
        Some(after) => {
            let links = links_of(slots, after);
            set_links(
                slots,
                after,
                Links {
                    previous: node,
                    ..links
                },
            );
        }
        None => {
            let links = links_of(slots, parent);
            set_links(
                slots,
                parent,
                Links {
                    last: node,
                    ..links
                },
            );
        }
    }
}

// Removes a node from its parent's children.
pub(crate) fn unlink<P>(slots: &mut Slab<Entry<P>>, node: NodeId)
    requires node { IsSome (payload_at slots.old node.0) }
    requires closed { IsClosed slots.old }
    ensures { IsRelinked slots.old slots.new (unlinked (links_at slots.old) node.0) }
{
    let links = links_of(slots, node);
    if let Some(parent) = links.parent {
        set_following(slots, parent, links.previous, links.next);
        set_leading(slots, parent, links.next, links.previous);
        let kept = links_of(slots, node);
        let own = Links {
            first: kept.first,
            last: kept.last,
            ..Links::detached()
        };
        set_links(slots, node, own);
    }
}

// Returns the sibling before `mark`, or the last child without a mark.
fn previous_to<P>(slots: &Slab<Entry<P>>, parent: NodeId, mark: Option<NodeId>) -> Option<NodeId>
    ensures { result ≡ previous_at (links_at slots.now) parent.0 mark }
{
    match mark {
        Some(sibling) => links_of(slots, sibling).previous,
        None => links_of(slots, parent).last,
    }
}

// Inserts a node that has no parent into the children of `parent` before `mark`, or last without a mark.
pub(crate) fn link<P>(
    slots: &mut Slab<Entry<P>>,
    parent: NodeId,
    node: NodeId,
    mark: Option<NodeId>,
)
    requires parent { IsSome (payload_at slots.old parent.0) }
    requires node { IsSome (payload_at slots.old node.0) }
    requires mark { ForSome mark (λ s. IsSome (payload_at slots.old s.0)) }
    requires closed { IsClosed slots.old }
    ensures { IsRelinked slots.old slots.new (linked (links_at slots.old) parent.0 node.0 mark) }
{
    let previous = previous_to(slots, parent, mark);
    set_following(slots, parent, previous, Some(node));
    set_leading(slots, parent, mark, Some(node));
    let own = links_of(slots, node);
    set_links(
        slots,
        node,
        Links {
            parent: Some(parent),
            next: mark,
            previous,
            ..own
        },
    );
}

//! When each spot was touched last.

ghost use Rattle.std.specs.Prelude.{◌≡◌, ◌<◌, [], length, slice_index, IsOk, OnOk, OnErr};
ghost use Rattle.kept_clips.specs.Touches.{last_touch, is_added, IsAdded, with_spot, touched, up_to};

use element_tree::Container;
use std::alloc::{AllocError, Global};
use std::marker::Model;

// The touch count, and for each spot the number of its last touch, 0 if it was never touched.
#[derive(Drop)]
pub(crate) struct Touches {
    count: u64,
    nodes: Vec<u64>,
    views: Vec<u64>,
}

impl Model for Touches {
    ghost use Rattle.kept_clips.specs.Touches.{Touched};

    ghost Value = { Touched };

    ghost view = { λ t. record { count = t.count; nodes = t.nodes.items; views = t.views.items } };
}

impl Touches {
    pub(crate) fn new(alloc: Global) -> Touches
        ensures { result ≡ record { count = 0; nodes = []; views = [] } }
    {
        Touches {
            count: 0,
            nodes: Vec::new(alloc),
            views: Vec::new(alloc),
        }
    }

    pub(crate) fn count(&self) -> u64
        ensures { result ≡ self.now.count }
    {
        self.count
    }

    pub(crate) fn is_added(&self, of: Container) -> bool
        ensures { result ≡ is_added self.now of }
    {
        match of {
            Container::Element(node) => (node.0 as usize) < self.nodes.len(),
            Container::Document(document) => (document.0 as usize) < self.views.len(),
        }
    }

    pub(crate) fn add(&mut self, of: Container) -> Result<(), AllocError>
        ensures added { OnOk result (self.new ≡ with_spot of self.old) }
        ensures same { OnErr result (self.new ≡ self.old) }
        ensures there { IsAdded self.old of → IsOk result }
    {
        match of {
            Container::Element(node) => extend(&mut self.nodes, node.0),
            Container::Document(document) => extend(&mut self.views, document.0),
        }
    }

    pub(crate) fn last(&self, of: Container) -> u64
        ensures { result ≡ last_touch self.now of }
    {
        match of {
            Container::Element(node) => number_at(self.nodes.as_slice(), node.0),
            Container::Document(document) => number_at(self.views.as_slice(), document.0),
        }
    }

    pub(crate) fn touch(&mut self, of: Container)
        requires { IsAdded self.old of }
        ensures { self.new ≡ touched of self.old }
    {
        self.count = self.count.saturating_add(1);
        match of {
            Container::Element(node) => self.nodes[node.0 as usize] = self.count,
            Container::Document(document) => self.views[document.0 as usize] = self.count,
        }
    }
}

// Extends a list of numbers with 0 up to this index.
fn extend(numbers: &mut Vec<u64>, place: u32) -> Result<(), AllocError>
    ensures extended { OnOk result (numbers.new.items ≡ up_to place numbers.old.items) }
    ensures same { OnErr result (numbers.new.items ≡ numbers.old.items) }
    ensures there { place < length numbers.old.items → IsOk result }
{
    let count = place as usize + 1;
    if numbers.len() < count {
        numbers.resize(count, 0)?;
    }
    Ok(())
}

fn number_at(numbers: &[u64], place: u32) -> u64
    ensures { result ≡ slice_index numbers.now place }
{
    match numbers.get(place as usize) {
        Some(number) => *number,
        None => 0,
    }
}

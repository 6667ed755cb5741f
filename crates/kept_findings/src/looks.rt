//! Which spots were looked at.

ghost use Rattle.std.specs.Prelude.{◌≡◌, false, IfOk};
ghost use Rattle.std.specs.List.{slice_index_or};
ghost use Rattle.kept_findings.specs.Looks.{is_looked, HasPlace, no_looks, noted};

use element_tree::Container;
use kept_clips::Sightings;
use std::alloc::{AllocError, Global};
use std::marker::Model;

/// The spots looked at in an update, so that none is looked at twice: its recorded state is current until the update ends.
#[derive(Drop)]
pub struct Looks {
    nodes: Vec<bool>,
    views: Vec<bool>,
}

impl Model for Looks {
    ghost use Rattle.kept_findings.specs.Looks.{LookedAt};

    ghost Value = { LookedAt };

    ghost view = { λ l. record { nodes = l.nodes.items; views = l.views.items } };
}

impl Looks {
    pub(crate) fn new(alloc: Global, sightings: &Sightings) -> Result<Looks, AllocError>
        ensures { IfOk result (λ looks. looks ≡ no_looks sightings.now) }
    {
        let (elements, documents) = sightings.room();
        Ok(Looks {
            nodes: vec![in alloc; false; elements]?,
            views: vec![in alloc; false; documents]?,
        })
    }

    /// Whether a spot was looked at.
    pub fn is_looked(&self, of: Container) -> bool
        ensures { result ≡ is_looked self.now of }
    {
        match of {
            Container::Element(node) => is_marked(self.nodes.as_slice(), node.0),
            Container::Document(document) => is_marked(self.views.as_slice(), document.0),
        }
    }

    pub(crate) fn note(&mut self, of: Container)
        requires { HasPlace self.old of }
        ensures { self.new ≡ noted of self.old }
    {
        match of {
            Container::Element(node) => self.nodes[node.0 as usize] = true,
            Container::Document(document) => self.views[document.0 as usize] = true,
        }
    }
}

fn is_marked(marks: &[bool], place: u32) -> bool
    ensures { result ≡ slice_index_or marks.now place false }
{
    match marks.get(place as usize) {
        Some(mark) => *mark,
        None => false,
    }
}

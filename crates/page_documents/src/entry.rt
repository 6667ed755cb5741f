//! One document.

ghost use Rattle.std.specs.Prelude.{◌≡◌, option_map, Some, None};
ghost use Rattle.element_tree.specs.Links.{number};
ghost use Rattle.page_model.specs.World.{Active};
ghost use Rattle.page_model.specs.Edits.{new_document};
ghost use Rattle.page_documents.specs.States.{seen_state, is_in, put_in};

use element_tree::NodeId;
use std::marker::Model;

/// The state in the life cycle of a document.
#[derive(Clone, Copy, Debug, PartialEq, Eq)]
pub enum DocumentState {
    /// Its frame was never in the tree of an Active document.
    Fresh,
    /// `top`, or a document whose frame is in the tree of an Active document (HTML: fully active).
    Active,
    /// Its frame was removed from the tree of an Active document (HTML: destroyed). This state is final.
    Dead,
}

/// A document: its state, the frame that it is in and its root element.
#[derive(Drop)]
pub(crate) struct Entry {
    state: DocumentState,
    frame: Option<NodeId>,
    root: Option<NodeId>,
}

impl Model for Entry {
    ghost use Rattle.std.specs.Prelude.{option_map};
    ghost use Rattle.element_tree.specs.Links.{number};
    ghost use Rattle.page_model.specs.World.{Document};
    ghost use Rattle.page_documents.specs.States.{seen_state};

    ghost Value = { Document };

    ghost view = { λ e. record { state = seen_state e.state; frame = option_map number e.frame; root = option_map number e.root } };
}

impl Entry {
    // The document `top`.
    pub(crate) fn top() -> Entry
        ensures { result ≡ record { state = Active; frame = None; root = None } }
    {
        Entry {
            state: DocumentState::Active,
            frame: None,
            root: None,
        }
    }

    // A new document in a frame.
    pub(crate) fn framed_by(frame: NodeId) -> Entry
        ensures { result ≡ new_document frame.0 }
    {
        Entry {
            state: DocumentState::Fresh,
            frame: Some(frame),
            root: None,
        }
    }

    pub(crate) fn state(&self) -> DocumentState
        ensures { seen_state result ≡ self.now.state }
    {
        self.state
    }

    pub(crate) fn is_in(&self, state: DocumentState) -> bool
        ensures { result ≡ is_in state self.now.state }
    {
        match state {
            DocumentState::Fresh => matches!(self.state, DocumentState::Fresh),
            DocumentState::Active => matches!(self.state, DocumentState::Active),
            DocumentState::Dead => matches!(self.state, DocumentState::Dead),
        }
    }

    pub(crate) fn frame(&self) -> Option<NodeId>
        ensures { option_map number result ≡ self.now.frame }
    {
        self.frame
    }

    pub(crate) fn root(&self) -> Option<NodeId>
        ensures { option_map number result ≡ self.now.root }
    {
        self.root
    }

    pub(crate) fn set_root(&mut self, root: Option<NodeId>)
        ensures { self.new ≡ record self.old { root = option_map number root } }
    {
        self.root = root;
    }

    pub(crate) fn set_state(&mut self, state: DocumentState)
        ensures { self.new ≡ put_in state self.old }
    {
        self.state = state;
    }
}

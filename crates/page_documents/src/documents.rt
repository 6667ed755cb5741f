//! The documents of a page.

ghost use Rattle.std.specs.Prelude.{◌≡◌, ◌≢◌, ℕ, Option, ◌<◌, ◌≤◌, ◌+◌, ◌++◌, ◌∷◌, [], length, option_map, Some, None, IfOk, not, IsSome, false, true};
ghost use Rattle.smallvec.specs.SmallVec.{small_vec_len};
ghost use Rattle.element_tree.specs.Documents.{document_number, document_numbers};
ghost use Rattle.element_tree.specs.Links.{number};
ghost use Rattle.page_model.specs.World.{Active, Dead, Tree as TreeModel, Container};
ghost use Rattle.page_model.specs.Lookups.{change_each, entry_or, no_document};
ghost use Rattle.page_model.specs.Edits.{new_document};
ghost use Rattle.page_model.specs.Documents.{document_of_container, documents_inside, active_documents, adopted, shown, first_of_list, is_active, tree_document};
ghost use Rattle.page_documents.specs.States.{seen_state, is_in, put_in};
ghost use Rattle.page_documents.specs.Seen.{seen_tree};
ghost use Rattle.page_documents.specs.Held.{has_room, changing, ending, opening};
ghost use Rattle.page_documents.specs.Walks.{marked_in};
ghost use Rattle.page_documents.specs.Paths.{holder_of, way_down, path_to};
ghost use Rattle.page_documents.specs.Frames.{AreFramed};
ghost use Rattle.page_documents.specs.Places.{IsTakenOut, IsPutIn};
ghost use Rattle.page_documents.specs.Adoption.{adopted_in};

use crate::adoption::{adopt, stands_in_active, tree_document};
use crate::entry::{DocumentState, Entry};
use crate::finding::{LEVELS, find_from, find_in, is_in};
use crate::found::{Listed, Marks};
use crate::owned::Owned;
use element_tree::{DocumentId, NodeId, Tree};
use smallvec::SmallVec;
use std::alloc::{AllocError, Global};
use std::marker::Model;

/// The documents of a page by number, from 0 in creation order: `top` is number 0, and each other one belongs to a frame.
/// Contracts see them as the definitions of a world do.
///
/// A frame's document, a frame or a root element that doesn't exist is treated as absent.
#[derive(Drop)]
pub struct Documents {
    held: Vec<Entry>,
    most: u32,
}

impl Model for Documents {
    ghost use Rattle.std.specs.Prelude.{vec_capacity};
    ghost use Rattle.page_documents.specs.Held.{HeldDocuments, IsKept};

    ghost Value = { HeldDocuments };

    ghost view = { λ d. record { held = d.held.items; most = d.most } };

    ghost invariant = { λ d. IsKept d.held.items d.most (vec_capacity d.held) };
}

impl Documents {
    /// Creates the document `top`, which is Active. There can be at most `most` documents, from 1 to 64; capacity for all of
    /// them is reserved here.
    ///
    /// # Errors
    ///
    /// If an allocation fails.
    pub fn new(alloc: Global, most: u32) -> Result<Documents, AllocError>
        requires least { 1 ≤ most }
        requires bounded { most ≤ 64 }
        ensures { IfOk result (λ documents. documents ≡ record { held = record { state = Active; frame = None; root = None } ∷ []; most = most }) }
    {
        let mut held = Vec::with_capacity(alloc, most as usize)?;
        held.push_reserved(Entry::top());
        Ok(Documents { held, most })
    }

    /// Whether the maximum number of documents exists, so that no further one can be created.
    pub fn is_full(&self) -> bool
        ensures { result ≡ not (has_room self.now) }
    {
        self.count() >= self.most
    }

    /// Creates a Fresh document for a frame, and returns its id, whose number is the previous `count` (HTML, 7.3: content
    /// navigables). It doesn't allocate. Requires that the maximum isn't reached (`is_full`).
    pub fn make(&mut self, frame: NodeId) -> DocumentId
        requires { has_room self.old ≡ true }
        ensures number { result.0 ≡ length self.old.held }
        ensures made { self.new ≡ record self.old { held = self.old.held ++ new_document frame.0 ∷ [] } }
    {
        let document = DocumentId(self.count());
        self.held.push_reserved(Entry::framed_by(frame));
        document
    }

    /// Returns the number of documents, which never exceeds `most`.
    pub fn count(&self) -> u32
        ensures value { result ≡ length self.now.held }
        ensures bound { length self.now.held ≤ self.now.most }
    {
        self.held.len() as u32
    }

    /// Returns the state of a document.
    pub fn state(&self, document: DocumentId) -> DocumentState
        requires { document.0 < length self.now.held }
        ensures { seen_state result ≡ (entry_or no_document self.now.held document.0).state }
    {
        self.held[document.0 as usize].state()
    }

    /// Returns the frame of a document, `None` exactly for `top`.
    pub fn frame_of(&self, document: DocumentId) -> Option<NodeId>
        requires { document.0 < length self.now.held }
        ensures value { option_map number result ≡ (entry_or no_document self.now.held document.0).frame }
        ensures top { document.0 ≡ 0 → result ≡ None }
        ensures framed { document.0 ≢ 0 → IsSome result }
    {
        self.held[document.0 as usize].frame()
    }

    /// Returns the root element of a document, `None` if it has none (DOM, 4.5: document element).
    pub fn root_of(&self, document: DocumentId) -> Option<NodeId>
        requires { document.0 < length self.now.held }
        ensures { option_map number result ≡ (entry_or no_document self.now.held document.0).root }
    {
        self.held[document.0 as usize].root()
    }

    /// Sets or clears the root element of a document.
    pub fn set_root(&mut self, document: DocumentId, root: Option<NodeId>)
        requires { document.0 < length self.old.held }
        ensures { self.new ≡ changing (λ it. record it { root = option_map number root }) document.0 self.old }
    {
        self.held[document.0 as usize].set_root(root);
    }

    /// Returns the document whose tree contains an element, `None` if it is in no document's tree (DOM, 4.2.1: in a document
    /// tree).
    pub fn tree_document<P: Owned>(&self, tree: &Tree<P>, node: NodeId) -> Option<DocumentId>
        requires { node.0 < length tree.now.nodes }
        ensures { option_map document_number result ≡ tree_document (seen_tree P.carried tree.now self.now.held) node.0 }
    {
        tree_document(self.held.as_slice(), tree, node)
    }

    /// Updates the documents for the removal of an element with its subtree from the tree of a document: if that is Active,
    /// the Active documents in frames of the subtree become Dead for good, recursively. It may be called before or after the
    /// element is removed.
    pub fn left<P: Owned>(&mut self, tree: &Tree<P>, node: NodeId, document: DocumentId)
        requires { node.0 < length tree.now.nodes }
        ensures ended { self.new ≡ ending (is_active (seen_tree P.carried tree.now self.old.held) document.0) (seen_tree P.carried tree.now self.old.held) node.0 self.old }
        ensures framed { (before : TreeModel) → AreFramed before → IsTakenOut before (seen_tree P.carried tree.now self.old.held) node.0 document.0 →
            AreFramed (seen_tree P.carried tree.now self.new.held) }
    {
        if is_in(self.held.as_slice(), document, DocumentState::Active) {
            self.change_inside(tree, node, DocumentState::Active, DocumentState::Dead);
        }
    }

    /// Updates elements and documents after the insertion of an element with its subtree into a document, or into an element
    /// with this node document: the subtree is adopted (DOM, 4.5), and if it is in the tree of an Active document, the Fresh
    /// documents in its frames become Active, recursively. Elements of documents in its frames aren't adopted.
    pub fn entered<P: Owned>(&mut self, tree: &mut Tree<P>, node: NodeId, document: DocumentId)
        requires { node.0 < length tree.old.nodes }
        ensures adopted { tree.new ≡ adopted_in P.carried P.adopted document.0 node.0 tree.old }
        ensures inserted { seen_tree P.carried tree.new self.new.held ≡ shown (adopted (seen_tree P.carried tree.old self.old.held) document.0 node.0) node.0 }
        ensures shown { self.new ≡ opening (seen_tree P.carried tree.new self.old.held) node.0 self.old }
        ensures framed { (before : TreeModel) (container : Container) (sibling : Option ℕ) → AreFramed before →
            IsPutIn before (seen_tree P.carried tree.old self.old.held) container node.0 sibling → document_of_container before container ≡ document.0 →
            AreFramed (seen_tree P.carried tree.new self.new.held) }
    {
        adopt(tree, node, document);
        if stands_in_active(self.held.as_slice(), tree, node) {
            self.change_inside(tree, node, DocumentState::Fresh, DocumentState::Active);
        }
    }

    /// Returns the Active documents in preorder of the frame tree, the frames of one document in tree order.
    ///
    /// # Errors
    ///
    /// If an allocation fails.
    pub fn active<P: Owned>(&self, tree: &Tree<P>) -> Result<Vec<DocumentId>, AllocError>
        ensures { IfOk result (λ found. document_numbers found.items ≡ active_documents (seen_tree P.carried tree.now self.now.held)) }
    {
        let mut found = Listed::new(*self.held.allocator());
        find_from(
            self.held.as_slice(),
            tree,
            DocumentState::Active,
            Some(DocumentId(0)),
            LEVELS,
            &mut found,
        )?;
        Ok(found.into_documents())
    }

    /// Returns the documents from `top` to this one, each containing the frame of the next. It doesn't allocate.
    pub fn path<P: Owned>(&self, tree: &Tree<P>, document: DocumentId) -> SmallVec<DocumentId, 64>
        requires { document.0 < length self.now.held }
        ensures path { document_numbers result.items ≡ path_to (seen_tree P.carried tree.now self.now.held) document.0 }
        ensures top { AreFramed (seen_tree P.carried tree.now self.now.held) → is_active (seen_tree P.carried tree.now self.now.held) document.0 ≡ true →
            first_of_list (document_numbers result.items) ≡ Some 0 }
    {
        let mut path = SmallVec::new(*self.held.allocator());
        self.climb(tree, document, self.count(), &mut path);
        path
    }

    // Appends the last documents of the path down to a document, at most `high`.
    fn climb<P: Owned>(
        &self,
        tree: &Tree<P>,
        document: DocumentId,
        high: u32,
        path: &mut SmallVec<DocumentId, 64>,
    )
        requires { small_vec_len path.old + high ≤ path.old.capacity }
        ensures path { document_numbers path.new.items ≡ document_numbers path.old.items ++ way_down high (seen_tree P.carried tree.now self.now.held) document.0 }
        ensures length { small_vec_len path.new ≤ small_vec_len path.old + high }
        ensures capacity { path.new.capacity ≡ path.old.capacity }
    {
        if high == 0 {
            return;
        }
        if let Some(holder) = self.holder_of(tree, document) {
            self.climb(tree, holder, high - 1, path);
        }
        path.push_reserved(document);
    }

    // Returns the document that contains the frame of a document, if there is one.
    fn holder_of<P: Owned>(&self, tree: &Tree<P>, document: DocumentId) -> Option<DocumentId>
        ensures { option_map document_number result ≡ holder_of (seen_tree P.carried tree.now self.now.held) document.0 }
    {
        let frame = self.held.get(document.0 as usize)?.frame()?;
        if tree.holds(frame) {
            Some(tree.payload(frame).document())
        } else {
            None
        }
    }

    // Changes the state of all documents that are in a given state and in frames of an element's subtree, recursively.
    fn change_inside<P: Owned>(
        &mut self,
        tree: &Tree<P>,
        node: NodeId,
        from: DocumentState,
        to: DocumentState,
    )
        requires node { node.0 < length tree.now.nodes }
        requires sought { is_in from Dead ≡ false }
        ensures { self.new ≡ record self.old { held = change_each (put_in to) (documents_inside (is_in from) (seen_tree P.carried tree.now self.old.held) node.0) self.old.held } }
    {
        let mut found = Marks::new();
        let Ok(()) = find_in(
            self.held.as_slice(),
            tree,
            from,
            node,
            LEVELS,
            LEVELS,
            &mut found,
        );
        self.set_states(&found, to);
    }

    fn set_states(&mut self, found: &Marks, state: DocumentState)
        requires { length found.now ≡ 64 }
        ensures { self.new ≡ record self.old { held = marked_in (put_in state) found.now self.old.held } }
    {
        for document in 0..self.held.len() {
            if found.has(document) {
                self.held[document].set_state(state);
            }
        }
    }
}

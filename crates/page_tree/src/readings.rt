//! Queries on the elements and documents of a page.

ghost use Rattle.std.specs.Prelude.{◌≡◌, ◌≢◌, ℕ, ◌<◌, ◌≤◌, nat_lt, length, option_map, slice_get, Some, None, IfOk, IfSome, IsSome, is_some, true};
ghost use Rattle.text_io.specs.Limits.{common_limit};
ghost use Rattle.text_io.specs.declared.kinds.LimitKind.TheVariants as limits;
ghost use Rattle.element_tree.specs.Documents.{document_number, document_numbers};
ghost use Rattle.element_tree.specs.Links.{number};
ghost use Rattle.style_values.specs.Ranges.{IsStyle};
ghost use Rattle.style_values.specs.Seen.{seen_style};
ghost use Rattle.page_model.specs.Lookups.{element_at, document_at};
ghost use Rattle.page_model.specs.Documents.{nodes_of, element_depth, container_of, is_active, active_documents, tree_document, first_of_list};
ghost use Rattle.page_documents.specs.States.{seen_state};
ghost use Rattle.page_documents.specs.Paths.{path_to};
ghost use Rattle.page_documents.specs.Frames.{AreFramed};
ghost use Rattle.block_layout.specs.Seen.{seen_kind};
ghost use Rattle.block_layout.specs.Trees.{layout_tree as tree_in};
ghost use Rattle.page_tree.specs.Items.{IsKind, style_in, kind_in};
ghost use Rattle.page_tree.specs.Views.{seen_with};
ghost use Rattle.container_model.specs.Seen.{seen_container};
ghost use Rattle.page_tree.specs.Trees.{AreTrees};

use crate::element::Element;
use crate::page::PageTree;
use crate::standing::{container_of, document_of, root_of};
use block_layout::{ItemKind, Styled};
use element_tree::{Container, DocumentId, NodeId, Tree};
use page_documents::{DocumentState, Owned};
use smallvec::SmallVec;
use std::alloc::AllocError;
use style_values::Style;
use text_io::Name;

/// Documents.
impl PageTree {
    /// Returns the number of documents, which is the number of the next one. Also ensures that documents and frames are
    /// consistent (`framed`).
    pub fn document_count(&self) -> u32
        ensures value { result ≡ length self.now.tree.documents }
        ensures bound { length self.now.tree.documents ≤ common_limit limits.Documents }
        ensures framed { AreFramed (self.now.tree) }
    {
        self.documents.count()
    }

    /// Returns the state of a document, Dead if there is no such document.
    pub fn state(&self, document: DocumentId) -> DocumentState
        ensures { seen_state result ≡ (document_at (self.now.tree) document.0).state }
    {
        if document.0 < self.documents.count() {
            self.documents.state(document)
        } else {
            DocumentState::Dead
        }
    }

    /// Whether a document is Active (HTML, 7.3: active document). False if there is no such document.
    pub fn is_active(&self, document: DocumentId) -> bool
        ensures value { result ≡ is_active (self.now.tree) document.0 }
        ensures bound { result ≡ true → document.0 < common_limit limits.Documents }
    {
        if document.0 >= self.document_count() {
            return false;
        }
        match self.state(document) {
            DocumentState::Active => true,
            DocumentState::Fresh | DocumentState::Dead => false,
        }
    }

    /// Returns the Active documents in preorder of the frame tree, the frames of one document in tree order.
    ///
    /// # Errors
    ///
    /// If an allocation fails.
    pub fn active_documents(&self) -> Result<Vec<DocumentId>, AllocError>
        ensures { IfOk result (λ found. document_numbers found.items ≡ active_documents (self.now.tree)) }
    {
        self.documents.active(&self.tree)
    }

    /// Returns the root element of a document, `None` if it has none or there is no such document. A root element has no
    /// parent.
    pub fn root(&self, document: DocumentId) -> Option<NodeId>
        ensures value { option_map number result ≡ (document_at (self.now.tree) document.0).root }
        ensures alone { (n : ℕ) → (document_at (self.now.tree) document.0).root ≡ Some n → (element_at (self.now.tree) n).parent ≡ None }
        ensures held { IfSome result (λ root. root.0 < length self.now.tree.elements) }
        ensures framed { AreFramed (self.now.tree) }
    {
        root_of(&self.tree, &self.documents, document)
    }

    /// Returns the frame of a document (HTML, 7.3: container), `None` exactly for `top` and if there is no such document.
    pub fn frame_of(&self, document: DocumentId) -> Option<NodeId>
        ensures value { option_map number result ≡ (document_at (self.now.tree) document.0).frame }
        ensures top { document.0 ≡ 0 → result ≡ None }
        ensures framed { document.0 ≢ 0 → document.0 < length self.now.tree.documents → IsSome result }
    {
        if document.0 < self.documents.count() {
            self.documents.frame_of(document)
        } else {
            None
        }
    }

    /// Returns the documents from `top` to this one, each containing the frame of the next. It doesn't allocate.
    pub fn path(&self, document: DocumentId) -> SmallVec<DocumentId, 64>
        requires { document.0 < length self.now.tree.documents }
        ensures path { document_numbers result.items ≡ path_to (self.now.tree) document.0 }
        ensures top { is_active (self.now.tree) document.0 ≡ true → first_of_list (document_numbers result.items) ≡ Some 0 }
    {
        self.documents.path(&self.tree, document)
    }

    /// Returns the node document of an element (DOM, 4.4), `top` if there is no such element.
    pub fn document_of(&self, node: NodeId) -> DocumentId
        ensures { result.0 ≡ (element_at (self.now.tree) node.0).document }
    {
        document_of(&self.tree, &self.documents, node)
    }

    /// Returns the document whose tree contains an element, `None` if it is in no document's tree (DOM, 4.2.1: in a document
    /// tree).
    pub fn tree_document(&self, node: NodeId) -> Option<DocumentId>
        requires { node.0 < length self.now.tree.elements }
        ensures { option_map document_number result ≡ tree_document (self.now.tree) node.0 }
    {
        self.documents.tree_document(&self.tree, node)
    }

    /// Returns the document in a frame (HTML, 4.8.5: content navigable), `None` for any other element.
    pub fn framed(&self, node: NodeId) -> Option<DocumentId>
        ensures { option_map document_number result ≡ (element_at (self.now.tree) node.0).framed }
    {
        if self.tree.holds(node) {
            self.tree.payload(node).framed()
        } else {
            None
        }
    }
}

/// Elements.
impl PageTree {
    /// Whether the page has this element. Also ensures that the lists are trees (`trees`) and that no element is deeper than
    /// the limit (`deep`).
    pub fn holds(&self, node: NodeId) -> bool
        ensures value { result ≡ nat_lt node.0 (length self.now.tree.elements) }
        ensures trees { AreTrees (nodes_of (self.now.tree)) }
        ensures deep { (n : ℕ) → element_depth (self.now.tree) n ≤ common_limit limits.Depth }
    {
        self.tree.holds(node)
    }

    /// Returns the name of an element.
    pub fn name_of(&self, node: NodeId) -> Name
        requires { node.0 < length self.now.tree.elements }
        ensures { slice_get self.now.names node.0 ≡ Some result }
    {
        self.tree.payload(node).name()
    }

    /// Returns the style of an element.
    pub fn style(&self, node: NodeId) -> &Style
        requires { node.0 < length self.now.tree.elements }
        ensures value { seen_style result.now ≡ (element_at (self.now.tree) node.0).item.style }
        ensures range { IsStyle result.now }
    {
        self.tree.payload(node).style()
    }

    /// Returns the kind of an element.
    pub fn kind(&self, node: NodeId) -> ItemKind
        requires { node.0 < length self.now.tree.elements }
        ensures value { seen_kind result ≡ (element_at (self.now.tree) node.0).item.kind }
        ensures range { IsKind result }
    {
        self.tree.payload(node).kind()
    }

    /// Returns the depth of an element: the number of elements on the path to its root, both included, so 1 at a root (Resize
    /// Observer, 3.4 calculate depth for node).
    pub fn depth(&self, node: NodeId) -> u32
        ensures { result ≡ element_depth (self.now.tree) node.0 }
    {
        self.tree.depth(node)
    }

    /// Returns the container of an element: its parent, or its node document if it is the root element; `None` if it is
    /// detached.
    pub fn container_of(&self, node: NodeId) -> Option<Container>
        ensures { option_map seen_container result ≡ container_of (self.now.tree) node.0 }
    {
        container_of(&self.tree, &self.documents, node)
    }

    /// Whether an element has a parent or is a root element.
    pub fn is_attached(&self, node: NodeId) -> bool
        ensures { result ≡ is_some (container_of (self.now.tree) node.0) }
    {
        self.container_of(node).is_some()
    }

    /// Returns the tree that layout reads. No element is more than 256 deep in it.
    pub fn tree(&self) -> &Tree<Element>
        ensures value { seen_with self.now.version result.now self.now.tree.documents ≡ self.now }
        ensures nodes { nodes_of (self.now.tree) ≡ tree_in style_in kind_in result.now.nodes }
        ensures depth { result.now.most_depth ≡ common_limit limits.Depth }
        ensures framed { AreFramed (self.now.tree) }
    {
        &self.tree
    }
}

//! The elements of the tree.

ghost use Rattle.std.specs.Prelude.{◌≡◌, refl, option_map};
ghost use Rattle.element_tree.specs.Documents.{document_number};
ghost use Rattle.px_units.specs.declared.Size.{Size};
ghost use Rattle.style_values.specs.Ranges.{IsAllowed, IsStyle};
ghost use Rattle.style_values.specs.Seen.{seen_style, seen_declaration};
ghost use Rattle.block_layout.specs.Seen.{seen_kind};
ghost use Rattle.page_tree.specs.Items.{IsNatural, IsKind, described, owned_by, with_item, declared_in, sized_in};

use block_layout::{ItemKind, Styled};
use element_tree::DocumentId;
use page_documents::Owned;
use px_units::Size;
use std::marker::Model;
use style_values::{Declaration, Style};
use text_io::Name;

/// An element without its place in the tree: its name, its style and its kind, its node document (DOM, 4.4), and the document
/// in it if it is a frame (HTML, 4.8.5). Of its lengths only insets may be negative.
#[derive(Drop)]
pub struct Element {
    name: Name,
    kind: ItemKind,
    style: Style,
    document: DocumentId,
    framed: Option<DocumentId>,
}

impl Model for Element {
    ghost use Rattle.std.specs.Prelude.{option_map};
    ghost use Rattle.element_tree.specs.Documents.{document_number};
    ghost use Rattle.page_tree.specs.Items.{Described, IsKind};
    ghost use Rattle.block_layout.specs.Seen.{seen_kind};
    ghost use Rattle.style_values.specs.Seen.{seen_style};
    ghost use Rattle.style_values.specs.Ranges.{IsStyle};

    ghost Value = { Described };

    ghost view = { λ e. record { name = e.name; item = record { style = seen_style e.style; kind = seen_kind e.kind }; document = e.document.0; framed = option_map document_number e.framed } };

    ghost invariant = { λ e. IsStyle e.style × IsKind e.kind };
}

impl Element {
    // An element created in `document`; `framed` is the document in it if it is a frame.
    pub(crate) fn new(
        name: Name,
        kind: ItemKind,
        document: DocumentId,
        framed: Option<DocumentId>,
    ) -> Element
        requires { IsKind kind }
        ensures { result ≡ described name (seen_kind kind) document.0 (option_map document_number framed) }
    {
        Element {
            name,
            kind,
            style: Style::new(),
            document,
            framed,
        }
    }

    /// Returns its name.
    pub fn name(&self) -> Name
        ensures { result ≡ self.now.name }
    {
        self.name
    }

    pub(crate) fn apply(&mut self, declaration: Declaration)
        requires { IsAllowed declaration }
        ensures { self.new ≡ with_item (declared_in (seen_declaration declaration)) self.old }
    {
        self.style.apply(declaration);
    }

    pub(crate) fn set_natural_size(&mut self, size: Size)
        requires { IsNatural size }
        ensures { self.new ≡ with_item (sized_in size) self.old }
    {
        self.kind = ItemKind::Image(size);
    }
}

impl Styled for Element {
    ghost use Rattle.page_tree.specs.Items.{style_in, kind_in};

    ghost style = { style_in };

    ghost kind = { kind_in };

    fn style(&self) -> &Style
        ensures value { seen_style result.now ≡ self.now.item.style }
        ensures range { IsStyle result.now }
    {
        &self.style
    }

    fn kind(&self) -> ItemKind
        ensures value { seen_kind result ≡ self.now.item.kind }
        ensures range { IsKind result }
    {
        self.kind
    }
}

impl Owned for Element {
    ghost use Rattle.page_tree.specs.Items.{carried_in};

    ghost carried = { carried_in };

    ghost adopted = { owned_by };

    fn document(&self) -> DocumentId {
        self.document
    }

    fn set_document(&mut self, document: DocumentId) {
        self.document = document;
    }

    fn framed(&self) -> Option<DocumentId> {
        self.framed
    }

    ghost adopts = { λ document it. refl };
}

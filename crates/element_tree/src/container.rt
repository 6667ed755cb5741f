//! An element or a document.

use crate::{DocumentId, NodeId};

/// An element or a document. Elements are inserted into either (DOM, 4.2.3). Either can be scrolled: an element that is a scroll
/// container, or a document's viewport (CSSOM View, 4 to 6). Chains of containing blocks and clips go through both (Intersection
/// Observer, 3.2.7).
#[derive(Clone, Copy, PartialEq, Eq, Debug)]
pub enum Container {
    /// This element.
    Element(NodeId),
    /// This document, or its viewport; `top` is number 0.
    Document(DocumentId),
}

//! Document ids.

/// Identifies a document (DOM, 4.5) by its number, from 0 in creation order. 0, the default, is the page's own document, `top`.
#[derive(Clone, Copy, PartialEq, Eq, Hash, Debug, Default)]
pub struct DocumentId(pub u32);

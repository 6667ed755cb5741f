use thiserror::Error;

/// The span of a word in the text: a half-open range of byte offsets.
#[derive(Clone, Copy, Debug, PartialEq, Eq)]
pub struct Span {
    /// The offset of its first byte.
    pub from: usize,
    /// The offset after its last byte.
    pub to: usize,
}

/// A line with at least one word.
#[derive(Clone, Copy, Debug, PartialEq, Eq)]
pub struct Line {
    /// Its number, from 1.
    pub number: u32,
    /// The offset of its first byte in the text.
    pub start: usize,
    /// The index of its first word among the text's words, from 0.
    pub first: usize,
    /// The number of its words, at least 1.
    pub count: usize,
}

/// A fault that ends a text early. Lines and columns count from 1; a column is a byte's position in its line.
#[derive(Clone, Copy, Debug, PartialEq, Eq, Error)]
pub enum LexFault {
    /// A byte that isn't allowed: none of 32 to 126, a tab, the line feed that ends a line, or a carriage return directly
    /// before it.
    #[error("line {line}, column {column}: a byte that is not allowed")]
    BadByte {
        /// The byte's line.
        line: u32,
        /// The byte's column.
        column: u32,
    },
    /// A line has more bytes than allowed. The text ends at the first byte beyond the limit, whatever byte it is.
    #[error("line {line}: more bytes than a line may have")]
    LineTooLong {
        /// The line's number.
        line: u32,
    },
}

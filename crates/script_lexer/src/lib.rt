//! An incremental lexer for scripts: lines and words as spans of the text, and the first fault of its bytes.
#![tactic(auto)]

mod class;
mod lexer;
mod places;
mod scan;
mod text;

pub use lexer::Lexer;
pub use places::{LexFault, Line, Span};
pub use text::Text;

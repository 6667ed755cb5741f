//! The definitions of how a stream of pages runs (`specs/`), and their laws: each page behaves as if it ran alone.
#![tactic(auto)]

pub mod laws;

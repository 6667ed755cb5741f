//! The definitions of a page and its runs (`specs/`). This crate has no code; the laws of the definitions are in `page_laws`.
#![tactic(auto)]

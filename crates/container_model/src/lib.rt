//! Maps the elements and documents of `element_tree` to those of a page's definitions (`specs/`). It has no code.
#![tactic(auto)]

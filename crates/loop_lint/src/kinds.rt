//! The two laws that a script can be checked against.

/// A law that a script is checked against.
#[derive(Clone, Copy, Debug, PartialEq, Eq)]
pub enum Law {
    /// No loop handler contains an `append`, `before` or `remove`.
    Steady,
    /// No loop handler contains one of these three, nor `viewport`, `ratio`, `set`, `grow`, `load` or `ro-observe`.
    Quiet,
}

/// Which laws a script obeys. What that promises about its runs is stated by the clauses of `lint`.
#[derive(Clone, Copy, Debug, PartialEq, Eq)]
pub struct Verdict {
    /// Whether it obeys `Law::Steady`.
    pub steady: bool,
    /// Whether it obeys `Law::Quiet`.
    pub quiet: bool,
}

//! Kinds of splits.

/// What a split does.
#[derive(Clone, Copy, Debug, PartialEq, Eq)]
pub enum Kind {
    /// Each value of the variable has a class of its own then, so that the abstraction is a projection to a pattern.
    Pattern,
    /// One value of the variable has a class of its own then, so that the abstraction is a domain abstraction.
    Domain,
}

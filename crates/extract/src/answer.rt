//! The answer of a search.

ghost use Rattle.std.specs.Prelude.{◌≡◌};

/// The result that the owners of a search have found.
#[derive(Clone, Copy, Debug, PartialEq, Eq)]
pub enum SearchAnswer {
    /// The cost of a cheapest plan.
    Solved(u64),
    /// There is no plan.
    Unsolvable,
}

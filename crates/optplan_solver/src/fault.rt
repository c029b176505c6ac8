//! The reason why a task is not solved.

ghost use Rattle.std.specs.Prelude.{◌≡◌};
ghost use Rattle.optplan_solver.specs.declared.fault.SolveFault.TheVariants as solve;

use optplan_search::SearchFault;

/// The reason why a task that texts spell is not solved; `E` is a fault of the texts.
#[derive(Debug, Drop)]
pub enum SolveFault<E: Drop> {
    /// The texts are refused.
    Texts(E),
    /// The search has no finding.
    Search(SearchFault),
}

impl<E: Drop> From<SearchFault> for SolveFault<E> {
    ghost from_gives = { λ fault e. e ≡ solve.Search fault };

    fn from(fault: SearchFault) -> SolveFault<E> {
        SolveFault::Search(fault)
    }
}

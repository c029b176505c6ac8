//! Laws of domain abstractions, for every task.

ghost use Rattle.std.specs.Prelude.{◌≡◌, ◌↔◌, ℕ, true, List, All};
ghost use Rattle.std.specs.List.Sorted.{IsStrictlyIncreasing};
ghost use Rattle.fdr.specs.Tasks.{FiniteDomainTask, ranges, IsTask, IsState};
ghost use Rattle.abstraction.specs.Abstractions.{IsAbstractionOf};
ghost use Rattle.abstraction.specs.Projections.{projection, AllExist};
ghost use Rattle.abstraction_domain.specs.Rows.{Row, AreNumbered, are_numbered};
ghost use Rattle.abstraction_domain.specs.Domains.{variables, domain, IsFit, weighted_classes, identity_rows, AreSame};

/// Proves that a domain abstraction by rows that fit the task is an abstraction of the task, and that, if the variables
/// of the rows are strictly increasing, the index of a state is the sum of the classes of its values, each times the
/// product of the numbers of classes of the rows before its own.
pub fn domain_is_abstraction()
    ensures abstraction { (task : FiniteDomainTask) (rows : List Row) → IsTask task → All (IsFit (ranges task)) rows →
        IsAbstractionOf task (domain task rows) }
    ensures index { (task : FiniteDomainTask) (rows : List Row) (state : List ℕ) → All (IsFit (ranges task)) rows →
        IsStrictlyIncreasing (variables rows) → IsState (ranges task) state →
        (domain task rows).index state ≡ weighted_classes rows state 1 }
{}

/// Proves that the domain abstraction in which each value is its own class is the projection to the variables of the
/// rows.
pub fn identity_rows_give_projection()
    ensures { (task : FiniteDomainTask) (pattern : List ℕ) → IsTask task → AllExist (ranges task) pattern →
        AreSame (ranges task) (domain task (identity_rows (ranges task) pattern)) (projection task pattern) }
{}

/// Proves that the test decides whether classes are numbered in the order of their first occurrences in their row.
pub fn numbered_by_test()
    ensures { (classes : List ℕ) → (are_numbered classes ≡ true) ↔ AreNumbered classes }
{}

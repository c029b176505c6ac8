//! Laws of abstractions, for every task.

ghost use Rattle.std.specs.Prelude.{◌≡◌, ℕ, List, All};
ghost use Rattle.cost.specs.Distances.{Finite, ◌≤ᵈ◌};
ghost use Rattle.fdr.specs.Tasks.{FiniteDomainTask, ranges, IsTask, IsState, LeadsToGoal, plan_cost};
ghost use Rattle.abstraction.specs.Abstractions.{Table, IsAbstractionOf};
ghost use Rattle.abstraction.specs.Projections.{projection, weighted_sum, AllExist};
ghost use Rattle.abstraction.specs.Columns.{IsColumn, heuristic};

/// Proves that a projection to existing variables is an abstraction of the task, and that the index of a state is the
/// sum of the values of the pattern's variables, each times the product of the ranges before it.
pub fn projection_is_abstraction()
    ensures abstraction { (task : FiniteDomainTask) (pattern : List ℕ) → IsTask task → AllExist (ranges task) pattern →
        IsAbstractionOf task (projection task pattern) }
    ensures index { (task : FiniteDomainTask) (pattern state : List ℕ) →
        (projection task pattern).index state ≡ weighted_sum (ranges task) pattern state 1 }
{}

/// Proves that the heuristic of cost-partitioned columns is admissible: its value is at most the cost of every sequence
/// of operators that reaches a goal state from the state (Seipp, Keller and Helmert 2020).
pub fn heuristic_is_lower_bound()
    ensures { (task : FiniteDomainTask) (columns : List (List Table)) (state plan : List ℕ) →
        IsTask task → All (IsColumn task) columns → IsState (ranges task) state → LeadsToGoal task state plan →
        heuristic columns state ≤ᵈ Finite (plan_cost task plan) }
{}

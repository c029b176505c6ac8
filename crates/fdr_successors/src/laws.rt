//! Laws of the applicable operators.

ghost use Rattle.std.specs.Prelude.{◌≡◌, ℕ, ◌<◌, true, List, [], ◌∷◌, length, Contains};
ghost use Rattle.std.specs.List.Sorted.{IsStrictlyIncreasing};
ghost use Rattle.fdr.specs.Tasks.{FiniteDomainTask, applies_at};
ghost use Rattle.fdr_successors.specs.Applicable.{applicable_operators};
ghost use Rattle.fdr_successors.specs.Examples.{road, road_with_return};

/// Proves that the numbers of the applicable operators are strictly increasing, and are exactly those of the operators
/// that apply.
pub fn applicable_operators_are_those_that_apply()
    ensures increasing { (task : FiniteDomainTask) (state : List ℕ) → IsStrictlyIncreasing (applicable_operators task state) }
    ensures sound { (task : FiniteDomainTask) (state : List ℕ) (o : ℕ) → Contains (applicable_operators task state) o → applies_at task o state ≡ true }
    ensures complete { (task : FiniteDomainTask) (state : List ℕ) (o : ℕ) → applies_at task o state ≡ true → Contains (applicable_operators task state) o }
{}

/// Proves worked examples: on a road from 0 by 1 to 2 the first operator applies at 0, the second at 1 and none at 2;
/// one more operator, without precondition, applies everywhere.
pub fn worked_example()
    ensures first { applicable_operators road (0 ∷ []) ≡ 0 ∷ [] }
    ensures second { applicable_operators road (1 ∷ []) ≡ 1 ∷ [] }
    ensures last { applicable_operators road (2 ∷ []) ≡ [] }
    ensures first_or_return { applicable_operators road_with_return (0 ∷ []) ≡ 0 ∷ 1 ∷ [] }
    ensures second_or_return { applicable_operators road_with_return (1 ∷ []) ≡ 1 ∷ 2 ∷ [] }
    ensures return_alone { applicable_operators road_with_return (2 ∷ []) ≡ 1 ∷ [] }
{}

//! Laws of the clauses, for every task and every certificate.

ghost use Rattle.std.specs.Prelude.{◌≡◌, ℕ, ◌<◌, true, false, [], ◌∷◌, ◌⊎◌};
ghost use Rattle.cost.specs.Distances.{Finite, Infinite};
ghost use Rattle.fdr.specs.Tasks.{FiniteDomainTask, IsTask, EveryPlanCostsAtLeast, HasNoPlan};
ghost use Rattle.cert_value.specs.Certificates.{CertificateValue};
ghost use Rattle.reduction_classes.specs.Lamp.{road_with_lamp};
ghost use Rattle.checker_clauses.specs.declared.violation.Violation.{Violation};
ghost use Rattle.checker_clauses.specs.declared.violation.Violation.TheVariants.{Classes, ClosedState, ClosedGoal};
ghost use Rattle.checker_clauses.specs.Clauses.{judged_task, is_within_cost, has_form, is_goal_at_zero, falls_within_share, is_state, is_behind, is_covered, is_dear_if_goal, covers_successor};
ghost use Rattle.checker_clauses.specs.Violations.{clause_of, IsMet, IsFirstViolation, IsHeld};
ghost use Rattle.checker_clauses.specs.Examples.{road, reached, with_closed, two_closed, table, listing, with_column, with_classes, locations, first_two_merged, lamp_merged};

/// Proves that a certificate without a violation implies its bound for the task itself, whoever wrote it and whichever
/// values share a class: every plan costs at least the bound, and there is no plan if it is infinite.
pub fn clauses_imply_bound()
    ensures bound { (task : FiniteDomainTask) (c : CertificateValue) → IsTask task → IsHeld task c → EveryPlanCostsAtLeast task c.bound }
    ensures none { (task : FiniteDomainTask) (c : CertificateValue) → IsTask task → IsHeld task c → c.bound ≡ Infinite → HasNoPlan task }
{}

/// Proves that a certificate has at most one first violation, and none if it has no violation.
pub fn one_first_violation()
    ensures one { (task : FiniteDomainTask) (c : CertificateValue) (v w : Violation) → IsFirstViolation task c v → IsFirstViolation task c w → v ≡ w }
    ensures none { (task : FiniteDomainTask) (c : CertificateValue) (v : Violation) → IsFirstViolation task c v → IsHeld task c → ⊥ }
{}

/// Proves worked examples of the clauses, on a road of three towns.
pub fn worked_road()
    ensures listed { (is_covered road (two_closed (Finite 2)) (0 ∷ []) 0 ≡ true) × (is_covered road (with_closed (Finite 2) []) (0 ∷ []) 0 ≡ false) ×
        (is_covered road (with_closed (Finite 0) []) (0 ∷ []) 0 ≡ true) }
    ensures successors { (covers_successor road (two_closed (Finite 2)) (reached 1 1) 1 ≡ true) × (covers_successor road (two_closed (Finite 3)) (reached 1 1) 1 ≡ false) ×
        (covers_successor road (two_closed (Finite 3)) (reached 0 0) 1 ≡ true) }
    ensures goals { (is_dear_if_goal road (two_closed (Finite 2)) (reached 2 2) ≡ true) × (is_dear_if_goal road (two_closed (Finite 3)) (reached 2 2) ≡ false) }
    ensures states { (is_state (3 ∷ []) (3 ∷ []) ≡ false) × (is_state (3 ∷ []) (1 ∷ 1 ∷ []) ≡ false) × (is_state (3 ∷ []) (2 ∷ []) ≡ true) ×
        (is_behind (reached 1 1 ∷ reached 0 0 ∷ []) 1 (0 ∷ []) ≡ false) × (is_behind (reached 1 1 ∷ reached 0 1 ∷ []) 1 (1 ∷ []) ≡ false) }
    ensures shares { (is_within_cost road (table 1 2 ∷ []) 1 ≡ true) × (is_within_cost road (table 2 2 ∷ []) 1 ≡ false) × (is_within_cost road (table 1 2 ∷ table 1 2 ∷ []) 0 ≡ false) }
    ensures listed_operators { (is_within_cost road (listing 2 ∷ []) 2 ≡ false) × (is_within_cost road (table 1 2 ∷ listing 2 ∷ []) 2 ≡ false) × (is_within_cost road (listing 1 ∷ []) 1 ≡ true) ×
        (is_within_cost road (listing 1 ∷ []) 2 ≡ true) }
    ensures tables { (has_form road (table 1 2) ≡ true) × (falls_within_share road (table 1 2) 0 0 ≡ true) × (falls_within_share road (table 1 3) 0 0 ≡ false) ×
        (is_goal_at_zero road (table 1 2) 2 ≡ true) × (is_covered road (with_column (Finite 2) (table 1 2 ∷ [])) (0 ∷ []) 0 ≡ true) ×
        (is_covered road (with_column (Finite 3) (table 1 2 ∷ [])) (0 ∷ []) 0 ≡ false) }
{}

/// Proves that a certificate without classes is judged for the task itself, and has no violation of C0.
pub fn without_classes()
    ensures task { (task : FiniteDomainTask) → judged_task task [] ≡ task }
    ensures clause { (task : FiniteDomainTask) (c : CertificateValue) → c.classes ≡ [] → IsMet task c 0 }
{}

/// Proves worked examples of certificates with classes, on a road with a lamp that no goal needs. With the lamp left
/// out the first two locations are closed at 0 and 1, and the bound is 2. With the first two locations merged the
/// bound is 1: for 2 the second closed state is a goal state that costs too little. C0 names the least variable for
/// which a row or a variable is missing, or whose row has another number of classes than the variable has values.
pub fn worked_road_with_lamp()
    ensures lamp_left_out { IsHeld road_with_lamp (with_classes (Finite 2) (locations ∷ lamp_merged ∷ []) (reached 0 0 ∷ reached 1 1 ∷ [])) }
    ensures locations_merged { IsHeld road_with_lamp (with_classes (Finite 1) (first_two_merged ∷ lamp_merged ∷ []) (reached 0 0 ∷ [])) }
    ensures merged_goal { IsFirstViolation road_with_lamp (with_classes (Finite 2) (first_two_merged ∷ lamp_merged ∷ []) (reached 0 0 ∷ reached 1 1 ∷ [])) (ClosedGoal 1) }
    ensures row_missing { IsFirstViolation road_with_lamp (with_classes (Finite 1) (first_two_merged ∷ []) (reached 0 0 ∷ [])) (Classes 1) }
    ensures variable_missing { IsFirstViolation road_with_lamp (with_classes (Finite 1) (first_two_merged ∷ lamp_merged ∷ (0 ∷ []) ∷ []) (reached 0 0 ∷ [])) (Classes 2) }
    ensures another_range { IsFirstViolation road_with_lamp (with_classes (Finite 2) (locations ∷ (0 ∷ 0 ∷ 0 ∷ []) ∷ []) (reached 0 0 ∷ reached 1 1 ∷ [])) (Classes 1) }
    ensures not_reduced { IsFirstViolation road_with_lamp (with_closed (Finite 2) (reached 0 0 ∷ reached 1 1 ∷ [])) (ClosedState 0) }
{}

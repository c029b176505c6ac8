//! Laws of certificates that are made from closed lists, for every task.

ghost use Rattle.std.specs.Prelude.{◌≡◌, ℕ, ◌<◌, ◌≤◌, ◌^◌, List, [], length, All};
ghost use Rattle.std.specs.List.Sorted.{IsPermutation};
ghost use Rattle.cost.specs.Distances.{Distance, IsWithin};
ghost use Rattle.fdr.specs.Tasks.{FiniteDomainTask, ranges, IsState, IsWithinLimits};
ghost use Rattle.cert_value.specs.declared.certificate.Version.TheVariants.{Two};
ghost use Rattle.cert_value.specs.Certificates.{Kind, Table, Entry, CertificateValue};
ghost use Rattle.cert_value.specs.Lawful.{IsLawfulKind, IsLawful};
ghost use Rattle.checker_clauses.specs.Clauses.{heuristic_of};
ghost use Rattle.checker_clauses.specs.ClosedLists.{IsFinished};
ghost use Rattle.checker_clauses.specs.Violations.{IsHeld};
ghost use Rattle.owner_theory.specs.Families.{NoTwice};
ghost use Rattle.scp.specs.Partitions.{AreCostPartitioned};
ghost use Rattle.cert.specs.Orders.{IsInOrder, IsRising};

/// Proves that a closed list that is finished for a bound, under the heuristic of cost-partitioned columns, and
/// strictly increasing by state, makes with these columns a certificate without a violation. That it has none is a
/// proposition, so a truncated proof that the columns are cost-partitioned is enough.
pub fn finished_list_is_held()
    ensures held { (task : FiniteDomainTask) (kind : Kind) (bound : Distance) (columns : List (List Table)) (closed : List Entry) →
        ∥ AreCostPartitioned task columns ∥₁ → IsFinished task (heuristic_of task columns) bound closed → IsRising closed →
        IsHeld task (record { version = Two; kind = kind; bound = bound; classes = []; columns = columns; closed = closed }) }
    ensures proposition { (task : FiniteDomainTask) (c : CertificateValue) → IsProp (IsHeld task c) }
{}

/// Proves that such a certificate has a text if its parts are within the limits of the format: the task is within its
/// own limits, and the closed list has fewer than 2^32 states, at costs of at most 2^62.
pub fn finished_list_has_text()
    ensures { (task : FiniteDomainTask) (kind : Kind) (bound : Distance) (columns : List (List Table)) (closed : List Entry) →
        IsWithinLimits task → ∥ AreCostPartitioned task columns ∥₁ → IsLawfulKind kind → IsWithin (2 ^ 62) bound →
        All (λ e. IsState (ranges task) e.state) closed → All (λ e. e.cost ≤ 2 ^ 62) closed → length closed < 2 ^ 32 →
        IsLawful (record { version = Two; kind = kind; bound = bound; classes = []; columns = columns; closed = closed }) }
{}

/// Proves that any permutation of a finished closed list is finished, and any permutation of a closed list without
/// duplicate states has none.
pub fn order_does_not_matter()
    ensures finished { (task : FiniteDomainTask) (h : List ℕ → Distance) (bound : Distance) (closed again : List Entry) →
        IsPermutation closed again → IsFinished task h bound closed → IsFinished task h bound again }
    ensures once { (closed again : List Entry) → IsPermutation closed again → NoTwice closed → NoTwice again }
{}

/// Proves that a closed list that is sorted by state and has no duplicate state is strictly increasing by state.
pub fn sorted_once_rises()
    ensures { (closed : List Entry) → IsInOrder closed → NoTwice closed → IsRising closed }
{}

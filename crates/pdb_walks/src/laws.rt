//! Laws of distances and shares, for every abstraction.

ghost use Rattle.std.specs.Prelude.{◌≡◌, ℕ, ◌≤◌, List, All};
ghost use Rattle.cost.specs.Distances.{Distance};
ghost use Rattle.fdr.specs.Tasks.{FiniteDomainTask, cost_of};
ghost use Rattle.abstraction.specs.Abstractions.{Abstraction, Table, IsAbstractionOf, IsConsistent};
ghost use Rattle.abstraction.specs.Columns.{IsColumn};
ghost use Rattle.pdb_walks.specs.Walks.{IsDistanceFrom, IsGreatestFall, HasDistances, IsSaturated, IsPartition};

/// Proves that the distance of an abstract state and the saturated share of an operator are unique.
pub fn distances_and_falls_are_unique()
    ensures distance { (a : Abstraction) (share : ℕ → ℕ) (i : ℕ) (d e : Distance) →
        IsDistanceFrom a share i d → IsDistanceFrom a share i e → d ≡ e }
    ensures fall { (a : Abstraction) (value : ℕ → Distance) (o m n : ℕ) →
        IsGreatestFall a value o m → IsGreatestFall a value o n → m ≡ n }
{}

/// Proves that a table of distances under its own shares is consistent.
pub fn distances_are_consistent()
    ensures { (task : FiniteDomainTask) (t : Table) → IsAbstractionOf task t.abstraction → HasDistances t t.share →
        IsConsistent t }
{}

/// Proves that a table that is consistent under some shares is also consistent under its saturated shares, and that
/// these are at most the former.
pub fn saturated_shares_suffice()
    ensures kept { (t : Table) (made_with : ℕ → ℕ) →
        IsSaturated t → IsConsistent (record t { share = made_with }) → IsConsistent t }
    ensures at_most { (t : Table) (made_with : ℕ → ℕ) →
        IsSaturated t → IsConsistent (record t { share = made_with }) → (o : ℕ) → t.share o ≤ made_with o }
{}

/// Proves that tables that are made one after another from the remaining costs are a cost-partitioned column (saturated
/// cost partitioning, Seipp, Keller and Helmert 2020).
pub fn partition_is_column()
    ensures { (task : FiniteDomainTask) (column : List Table) → All (λ t. IsAbstractionOf task t.abstraction) column →
        IsPartition (cost_of task) column → IsColumn task column }
{}

//! Laws of reductions, for every task.

ghost use Rattle.std.specs.Prelude.{◌≡◌, ℕ, List};
ghost use Rattle.fdr.specs.Tasks.{FiniteDomainTask, IsTask, IsPlan, plan_cost, EveryPlanCostsAtLeast};
ghost use Rattle.cost.specs.Distances.{Finite};
ghost use Rattle.reduction.specs.Reductions.{IsReduction, IsExact, retained_task, in_task};

/// Proves that the reduction by asked facts and retained operators is exact: a plan of the reduced task is, operator by
/// operator, a plan of the task at the same cost, and a cheapest plan of the reduced task is a cheapest plan of the
/// task.
pub fn reduction_is_exact()
    ensures exact { (task : FiniteDomainTask) (classes : List (List ℕ)) (retained : List ℕ) → IsTask task →
        IsReduction task classes retained → IsExact task (retained_task task classes retained) retained }
    ensures cheapest { (task : FiniteDomainTask) (classes : List (List ℕ)) (retained plan : List ℕ) → IsTask task →
        IsReduction task classes retained → IsPlan (retained_task task classes retained) plan →
        EveryPlanCostsAtLeast (retained_task task classes retained) (Finite (plan_cost (retained_task task classes retained) plan)) →
        IsPlan task (in_task retained plan) × EveryPlanCostsAtLeast task (Finite (plan_cost task (in_task retained plan))) }
{}

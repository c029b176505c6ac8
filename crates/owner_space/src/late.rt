//! Successors that are reached at a cost at the bound or past it. Their f-values are, too, so that they are dropped:
//! they need not be generated.

ghost use Rattle.std.specs.Prelude.{◌≡◌, ◌≤◌, ◌^◌, not, filter};
ghost use Rattle.cost.specs.Distances.{Finite, is_at_most};
ghost use Rattle.owner_space.specs.Keyed.{max_total};
ghost use Rattle.owner_space.specs.Late as late;

use crate::bounds::{finite, is_within};
use crate::space::Space;
use crate::ties::MAX_TOTAL;
use cost::Dist;
use fdr::FdrTask;
use openlist::Rank;
use packed_spread::Spread;

/// Returns whether a cost is at the bound or past it.
fn is_late(bound: Dist, cost: u64) -> bool
    requires { cost ≤ 2 ^ 63 }
    ensures { result ≡ is_at_most bound (Finite cost) }
{
    is_within(bound, finite(cost))
}

/// Returns whether no successor of a node of this rank has a cost or a number of operators above 2^62, and each is
/// reached at a cost at the bound or past it, by the greatest and the least cost of an operator: whichever apply.
pub fn all_are_late<S: Spread + Drop>(space: &Space<'_, S>, bound: Dist, rank: Rank) -> bool
    requires cost { rank.cost ≤ max_total }
    requires steps { rank.steps ≤ max_total }
    ensures { result ≡ late.all_are_late space.now.task bound rank }
{
    rank.cost + space.greatest_cost() <= MAX_TOTAL
        && rank.steps + 1 <= MAX_TOTAL
        && is_late(bound, rank.cost + space.least_cost())
}

/// Removes the operators whose successors, of a node of this rank, are reached at a cost at the bound or past it.
pub fn drop_late(task: &FdrTask, bound: Dist, rank: Rank, operators: &mut Vec<usize>)
    requires { rank.cost ≤ max_total }
    ensures { operators.new.items ≡ filter (λ o. not (late.is_late task.now bound rank o)) operators.old.items }
{
    operators.retain(|operator| !is_late(bound, rank.cost + task.cost(*operator).get()));
}

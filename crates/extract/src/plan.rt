ghost use Rattle.std.specs.Prelude.{◌≡◌, ◌<◌, ◌≤◌, ℕ, length, Some, IfOk};
ghost use Rattle.cost.specs.Distances.{Finite};
ghost use Rattle.fdr.specs.Tasks.{IsPlan, plan_cost};
ghost use Rattle.owner_theory.specs.Owners.{At, Node};
ghost use Rattle.closed.specs.Tables.{node_with};
ghost use Rattle.owner.specs.Owned.{OwnerOf, max_total};
ghost use Rattle.extract.specs.Ends.{space_at, IsSettledAt, IsBestGoal, IsGoalNodeAt};

use crate::joined::Joined;
use owner::{Entry, Owner};
use packed::StateForm;
use packed_spread::Spread;
use std::alloc::{AllocError, Global};

/// Returns the entry of the node at index `index` of owner `worker`.
fn entry_at<S: Spread + Drop, F: StateForm + Drop>(
    owners: &[Owner<'_, S, F>],
    worker: usize,
    index: usize,
) -> Entry
    requires worker { worker < length owners.now }
    requires index { (o : OwnerOf S) → At owners.now worker o → index < length o.nodes }
    ensures entry { (o : OwnerOf S) (n : Node) → At owners.now worker o → At o.nodes index n → n ≡ node_with n.state result }
    ensures small { result.rank.steps ≤ max_total }
{
    let owner = &owners[worker];
    owner.recall();
    owner.entry(index)
}

/// Returns the plan to a goal node, given by its worker and index: the numbers of the operators, from the initial state
/// on. The operators are found from the last one to the first, by following the nodes' current parents from owner to
/// owner. The plan costs at most the goal node's cost, and exactly the bound if the owners are settled.
pub fn plan_of<'a, S: Spread + Drop, F: StateForm + Drop>(
    alloc: Global,
    joined: &Joined<'a, S, F>,
    goal: (usize, usize),
) -> Result<Vec<usize>, AllocError>
    requires { IsBestGoal joined.now (Some goal) }
    ensures plan { IfOk result (λ plan. IsPlan joined.now.space.task plan.items) }
    ensures cost { (cost : ℕ) → IsSettledAt (space_at S.owner joined.now) joined.now.owners joined.now.left (Finite cost) →
        IfOk result (λ plan. plan_cost joined.now.space.task plan.items ≡ cost) }
    ensures bound { (n : Node) → IsGoalNodeAt joined.now goal.0 goal.1 n → IfOk result (λ plan. plan_cost joined.now.space.task plan.items ≤ n.cost) }
{
    joined.recall();
    let owners = joined.owners();
    let (worker, index) = goal;
    let mut plan = Vec::new(alloc);
    let mut entry = entry_at(owners, worker, index);
    while let Some(parent) = entry.parent {
        plan.push(parent.operator)?;
        entry = entry_at(owners, parent.worker, parent.index);
    }
    plan.reverse();
    Ok(plan)
}

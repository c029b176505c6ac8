//! Effects of a task's operators, ranks of the states that these reach, and goal states.

ghost use Rattle.std.specs.Prelude.{◌≡◌, ◌+◌, ◌≤◌, ◌||◌, nat_lt};
ghost use Rattle.std.specs.List.{list_any};
ghost use Rattle.fdr.specs.Tasks.{ranges, IsAssignment, is_goal_state, cost_of};
ghost use Rattle.owner_space.specs.Keyed.{max_total};
ghost use Rattle.owner_space.specs.Steps.{IsSmallStep};
ghost use Rattle.packed.specs.Masks.{effect_at};

use crate::ties::MAX_TOTAL;
use fdr::{Fact, FdrTask};
use openlist::Rank;
use packed::{Layout, StateForm};

/// Returns the effect of the operator with this number, which is empty if there is no such operator.
pub fn effect_of(task: &FdrTask, operator: usize) -> &[Fact]
    ensures effect { result.now ≡ effect_at task.now operator }
    ensures assignment { IsAssignment (ranges task.now) result.now }
{
    match task.operators().get(operator) {
        Some(operator) => &operator.effect,
        None => &[],
    }
}

/// Returns whether the state of a form is a goal state. It reads the values of the goal's variables, up to the first
/// that differs from the goal's.
pub fn is_goal_form<F: StateForm + Drop>(task: &FdrTask, layout: &Layout, form: &F) -> bool
    requires layout { layout.now ≡ ranges task.now }
    requires fits { F.Fits (ranges task.now) }
    requires form { F.IsForm (ranges task.now) form.now }
    ensures { result ≡ is_goal_state task.now (F.values (ranges task.now) form.now) }
{
    for fact in task.goal() {
        if form.value(layout, fact.variable) != fact.value {
            return false;
        }
    }
    true
}

/// Returns whether the successor by one of these operators would have a cost or a number of operators above 2^62.
pub fn has_large_successor(task: &FdrTask, operators: &[usize], rank: Rank) -> bool
    requires cost { rank.cost ≤ max_total }
    requires steps { rank.steps ≤ max_total }
    ensures { result ≡ list_any (λ o. nat_lt max_total (rank.cost + cost_of task.now o) || nat_lt max_total (rank.steps + 1)) operators.now }
{
    operators.iter().any(|operator| {
        rank.cost + task.cost(*operator).get() > MAX_TOTAL || rank.steps + 1 > MAX_TOTAL
    })
}

/// Returns the rank of the successor, by this operator, of a state that has rank `rank`.
pub fn rank_after(task: &FdrTask, rank: Rank, operator: usize) -> Rank
    requires { IsSmallStep task.now rank operator }
    ensures cost { result.cost ≡ rank.cost + cost_of task.now operator }
    ensures steps { result.steps ≡ rank.steps + 1 }
{
    Rank {
        cost: rank.cost + task.cost(operator).get(),
        steps: rank.steps + 1,
    }
}

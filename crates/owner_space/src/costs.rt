//! The least and the greatest cost of the operators of a task.

ghost use Rattle.std.specs.Prelude.{◌≡◌, ◌≤◌};
ghost use Rattle.owner_space.specs.Costs as costs;

use cost::MAX_COST;
use fdr::FdrTask;

/// Returns the least cost of an operator of the task. Without operators it is the greatest cost there is.
pub(crate) fn least_cost(task: &FdrTask) -> u64
    ensures value { result ≡ costs.least_cost task.now }
    ensures bound { result ≤ MAX_COST }
{
    let mut least = MAX_COST;
    for operator in 0..task.operators().len() {
        least = least.min(task.cost(operator).get());
    }
    least
}

/// Returns the greatest cost of an operator of the task, 0 without operators.
pub(crate) fn greatest_cost(task: &FdrTask) -> u64
    ensures value { result ≡ costs.greatest_cost task.now }
    ensures bound { result ≤ MAX_COST }
{
    let mut greatest = 0;
    for operator in 0..task.operators().len() {
        greatest = greatest.max(task.cost(operator).get());
    }
    greatest
}

//! Plans, and the test of one by running it.

ghost use Rattle.std.specs.Prelude.{IfOk};
ghost use Rattle.first_plan_search.specs.Replays.{IsReplayed};

use fdr::FdrTask;
use std::alloc::{AllocError, Global};

/// The greatest cost of a plan, 2^62.
pub const MAX_TOTAL: u64 = 4_611_686_018_427_387_904;

/// The operators of a plan, in order, and their cost.
#[derive(Drop)]
pub struct Plan {
    /// The numbers of the operators.
    pub operators: Vec<usize>,
    /// The sum of their costs.
    pub cost: u64,
}

/// Runs operators from the initial state. Returns the sum of their costs if they are a plan, that is if each exists and
/// applies in turn and the goal holds at the end, and if the sum is at most 2^62; otherwise `None`.
pub fn replay(alloc: Global, task: &FdrTask, operators: &[usize]) -> Result<Option<u64>, AllocError>
    ensures { IfOk result (IsReplayed task.now operators.now) }
{
    let mut state = Vec::from_slice(alloc, task.initial())?;
    let mut total: u64 = 0;
    for operator in operators {
        if !task.apply(*operator, &mut state) {
            return Ok(None);
        }
        total += task.cost(*operator).get();
        if total > MAX_TOTAL {
            return Ok(None);
        }
    }
    if !task.is_goal(&state) {
        return Ok(None);
    }
    Ok(Some(total))
}

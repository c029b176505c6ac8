//! The costs of operators that tables leave to later ones.

ghost use Rattle.std.specs.Prelude.{◌≡◌, ℕ, ◌<◌, ◌-◌, ◌^◌, length, slice_index, IfOk};
ghost use Rattle.fdr.specs.Tasks.{cost_of};
ghost use Rattle.cert_value.specs.Lawful.{AreShares};
ghost use Rattle.checker_clauses.specs.Clauses.{share_of};

use cert_value::Share;
use fdr::FdrTask;
use std::alloc::{AllocError, Global};

/// Returns the cost of each operator.
pub(crate) fn costs_of(alloc: Global, task: &FdrTask) -> Result<Vec<u32>, AllocError>
    ensures len { IfOk result (λ costs. length costs.items ≡ length task.now.operators) }
    ensures costs { IfOk result (λ costs. (o : ℕ) → o < length task.now.operators →
        (slice_index costs.items o ≡ cost_of task.now o) × (slice_index costs.items o < 2 ^ 31)) }
{
    let mut costs = Vec::with_capacity(alloc, task.operator_count())?;
    for operator in 0..task.operator_count() {
        costs.push(task.cost(operator).get() as u32)?;
    }
    Ok(costs)
}

/// Subtracts the share of each operator from its remaining cost.
pub(crate) fn take_shares(left: &mut [u32], shares: &[Share])
    requires { AreShares shares.now }
    ensures len { length left.new ≡ length left.old }
    ensures left { (o : ℕ) → slice_index left.new o ≡ slice_index left.old o - share_of shares.now o }
{
    for share in shares {
        let operator = share.operator as usize;
        if operator < left.len() {
            left[operator] = left[operator].saturating_sub(share.amount);
        }
    }
}

//! Shares of the operators of a task.

ghost use Rattle.std.specs.Prelude.{◌≡◌, ℕ, ◌<◌, ◌≤◌, All, IfSome, length, slice_index, slice_index_or, IfOk};
ghost use Rattle.std.specs.Option.{option_map_or};
ghost use Rattle.fdr.specs.Limits.{max_operators};
ghost use Rattle.checker_clauses.specs.Clauses.{share_of};
ghost use Rattle.reduction_certs.specs.InTask as spec;

use cert_value::Share;
use std::alloc::{AllocError, Global};

/// Returns the share of each of the first `count` operators.
fn amounts_of(alloc: Global, count: usize, shares: &[Share]) -> Result<Vec<u32>, AllocError>
    ensures len { IfOk result (λ amounts. length amounts.items ≡ count) }
    ensures amounts { IfOk result (λ amounts. (o : ℕ) → o < count → slice_index amounts.items o ≡ share_of shares.now o) }
{
    let mut amounts = vec![in alloc; 0; count]?;
    // from the last share to the first, since an operator that is listed twice has the first of its shares
    for place in 0..shares.len() {
        let share = shares[shares.len() - 1 - place];
        let operator = share.operator as usize;
        if operator >= count {
            continue;
        }
        amounts[operator] = share.amount;
    }
    Ok(amounts)
}

/// Returns the share of the operator with this representative. `amounts` has the shares of representatives.
fn amount_of(amounts: &[u32], representative: Option<usize>) -> u32
    requires { IfSome representative (λ k. k < length amounts.now) }
    ensures { result ≡ option_map_or (slice_index amounts.now) representative 0 }
{
    match representative {
        Some(operator) => amounts[operator],
        None => 0,
    }
}

/// Returns the shares of the operators of a task. `count` is the number of retained operators, and `shares` are theirs.
pub(crate) fn shares_in_task(
    alloc: Global,
    count: usize,
    representatives: &[Option<usize>],
    shares: &[Share],
) -> Result<Vec<Share>, AllocError>
    requires few { length representatives.now ≤ max_operators }
    requires exist { All (λ r. IfSome r (λ k. k < count)) representatives.now }
    ensures { IfOk result (λ made. made.items ≡ spec.shares_in_task representatives.now shares.now) }
{
    let amounts = amounts_of(alloc, count, shares)?;
    let mut made = Vec::new(alloc);
    for operator in 0..representatives.len() {
        let amount = amount_of(&amounts, representatives[operator]);
        if amount == 0 {
            continue;
        }
        made.push(Share {
            operator: operator as u32,
            amount,
        })?;
    }
    Ok(made)
}

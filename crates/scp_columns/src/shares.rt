//! The shares of a table.

ghost use Rattle.std.specs.Prelude.{◌≡◌, ℕ, ◌<◌, ◌^◌, length, slice_index, IfOk};
ghost use Rattle.checker_clauses.specs.Clauses.{share_of};
ghost use Rattle.cert_value.specs.Lawful.{AreShares};

use cert_value::Share;
use std::alloc::{AllocError, Global};

#[tactic(auto, using(crate::proofs::SparseShares::none_yet, crate::proofs::SparseShares::with_share, crate::proofs::SparseShares::without_share, crate::proofs::SparseShares::all_shares, crate::proofs::SparseShares::all_same))]
/// Returns the positive shares among those of all operators, which are given in the order of their numbers.
pub(crate) fn shares_of(alloc: Global, needed: &[u32]) -> Result<Vec<Share>, AllocError>
    requires few { length needed.now < 2 ^ 32 }
    requires small { (o : ℕ) → slice_index needed.now o < 2 ^ 31 }
    ensures lawful { IfOk result (λ shares. AreShares shares.items) }
    ensures same { IfOk result (λ shares. (o : ℕ) → share_of shares.items o ≡ slice_index needed.now o) }
{
    let mut shares = Vec::new(alloc);
    for operator in 0..needed.len() {
        if needed[operator] > 0 {
            shares.push(Share {
                operator: operator as u32,
                amount: needed[operator],
            })?;
        }
    }
    Ok(shares)
}

//! Shares of classes of operators.

ghost use Rattle.std.specs.Prelude.{◌≡◌, ◌≢◌, ℕ, ◌-◌, ◌<◌, ◌≤◌, ◌⊎◌, length, slice_index, IfOk, OnOk, Contains};
ghost use Rattle.std.specs.List.Sorted.{IsStrictlyIncreasing};
ghost use Rattle.pdb.specs.Classes.{share_by, share_below, AreLeast, IsLeastOf};

use abstraction_groups::BackwardTransitions;
use std::alloc::{AllocError, Global};

/// Returns the least share of these operators, and `most` if none of them exists. No share may exceed `most`.
fn least_of(shares: &[u32], operators: &[u32], most: u32) -> u32
    requires { (o : ℕ) → slice_index shares.now o ≤ most }
    ensures { IsLeastOf shares.now operators.now most result }
{
    let mut least = most;
    for operator in operators {
        let index = *operator as usize;
        if index < shares.len() {
            least = least.min(shares[index]);
        }
    }
    least
}

/// Replaces the content of `least` by the least share of the operators of each class. No share may exceed `most`, which
/// is the number of a class without operators. On failure the content is not specified.
pub(crate) fn set_least<T: BackwardTransitions>(
    transitions: &T,
    shares: &[u32],
    most: u32,
    least: &mut Vec<u32>,
) -> Result<(), AllocError>
    requires { (o : ℕ) → slice_index shares.now o ≤ most }
    ensures len { OnOk result (length least.new.items ≡ (T.classes transitions.now).count) }
    ensures small { OnOk result ((c : ℕ) → slice_index least.new.items c ≤ most) }
    ensures least { OnOk result (AreLeast (T.classes transitions.now) shares.now least.new.items) }
{
    least.clear();
    for class in 0..transitions.class_count() {
        let operators = transitions.operators_of(class);
        least.push(least_of(shares, operators, most))?;
    }
    Ok(())
}

/// Sets the shares of these operators, of which each that exists has an element in `shares`.
fn set_shares(shares: &mut [u32], operators: &[u32], share: u32)
    ensures set { (o : ℕ) → o < length shares.old → Contains operators.now o → slice_index shares.new o ≡ share }
    ensures others { (o : ℕ) → (Contains operators.now o → ⊥) → slice_index shares.new o ≡ slice_index shares.old o }
{
    for operator in operators {
        let index = *operator as usize;
        if index < shares.len() {
            shares[index] = share;
        }
    }
}

/// Returns for each of `count` operators the element of `numbers` for its class, and 0 for an operator without a class.
#[tactic(auto, using(crate::proofs::Shares::below_first))]
pub(crate) fn shares_by_class<T: BackwardTransitions>(
    alloc: Global,
    transitions: &T,
    numbers: &[u32],
    count: usize,
) -> Result<Vec<u32>, AllocError>
    requires { length numbers.now ≡ (T.classes transitions.now).count }
    ensures len { IfOk result (λ shares. length shares.items ≡ count) }
    ensures shares { IfOk result (λ shares. (o : ℕ) → o < count →
        slice_index shares.items o ≡ share_by (T.classes transitions.now) numbers.now o) }
{
    let mut shares = vec![in alloc; 0; count]?;
    for class in 0..numbers.len() {
        set_shares(&mut shares, transitions.operators_of(class), numbers[class]);
    }
    Ok(shares)
}

/// Subtracts a share from the costs of these operators, of which each that exists has an element in `left`.
fn subtract_share(left: &mut [u32], operators: &[u32], share: u32)
    requires { IsStrictlyIncreasing operators.now }
    ensures less { (o : ℕ) → Contains operators.now o → slice_index left.new o ≡ slice_index left.old o - share }
    ensures others { (o : ℕ) → (Contains operators.now o → ⊥) → slice_index left.new o ≡ slice_index left.old o }
{
    for operator in operators {
        let index = *operator as usize;
        if index < left.len() {
            left[index] = left[index].saturating_sub(share);
        }
    }
}

/// Subtracts from the cost of each operator that has a class the element of `numbers` for the class.
pub(crate) fn subtract_by_class<T: BackwardTransitions>(
    transitions: &T,
    numbers: &[u32],
    left: &mut [u32],
)
    requires { length numbers.now ≡ (T.classes transitions.now).count }
    ensures { (o : ℕ) → slice_index left.new o ≡
        slice_index left.old o - share_by (T.classes transitions.now) numbers.now o }
{
    for class in 0..numbers.len() {
        if numbers[class] > 0 {
            subtract_share(left, transitions.operators_of(class), numbers[class]);
        }
    }
}

//! The saturated cost function of a table.

ghost use Rattle.std.specs.Prelude.{◌≡◌, ℕ, ◌^◌, ◌<◌, ◌≤◌, length, slice_index, Some, IfOk, OnOk};
ghost use Rattle.cost.specs.Distances.{Finite};
ghost use Rattle.fdr.specs.Tasks.{FiniteDomainTask};
ghost use Rattle.pdb_walks.specs.Walks.{IsGreatestFall, value_in, fall};
ghost use Rattle.abstraction_groups.specs.Entrances.{AreEntering, LeadsTo};
ghost use Rattle.pdb.specs.Saturations.{AreConsistent, AreFalls, AreFull, AreWithin, IsCoveredAt};
ghost use Rattle.pdb.specs.Numbers.{distance_in};

use crate::kept::{as_numbers, distance_of};
use crate::least::{set_least, shares_by_class};
use abstraction_groups::{BackwardAbstraction, BackwardTransitions, Transition};
use cert_value::Values;
use std::alloc::{AllocError, Global};

/// Returns by how much `value` is below the value of a state, and 0 if it is not below or that value is infinite.
fn fall_from(values: &[u64], state: usize, value: u64) -> u32
    requires state { state < length values.now }
    requires small { fall (distance_in values.now state) (Finite value) < 2 ^ 32 }
    ensures { result ≡ fall (distance_in values.now state) (Finite value) }
{
    match distance_of(values[state]).get() {
        Some(from) => from.saturating_sub(value) as u32,
        None => 0,
    }
}

/// Raises the numbers of the classes to the decreases of the values over these transitions, which are those into a
/// state with this value.
fn raise<T: BackwardTransitions>(
    transitions: &T,
    values: &[u64],
    state: usize,
    value: u64,
    entering: &[Transition],
    greatest: &mut [u32],
)
    requires len { length greatest.old ≡ (T.classes transitions.now).count }
    requires values { length values.now ≡ (T.abstraction transitions.now).size }
    requires state { state < (T.abstraction transitions.now).size }
    requires value { distance_in values.now state ≡ Finite value }
    requires entering { AreEntering (T.abstraction transitions.now) (T.classes transitions.now) state entering.now }
    requires falls { (o i c : ℕ) → (T.classes transitions.now).class o ≡ Some c → LeadsTo (T.abstraction transitions.now) o i state →
        fall (distance_in values.now i) (distance_in values.now state) < 2 ^ 32 }
    requires reached { AreFalls (T.abstraction transitions.now) (T.classes transitions.now) (distance_in values.now) greatest.old }
    ensures reached { AreFalls (T.abstraction transitions.now) (T.classes transitions.now) (distance_in values.now) greatest.new }
    ensures kept { (c : ℕ) → slice_index greatest.old c ≤ slice_index greatest.new c }
    ensures covered { IsCoveredAt (T.abstraction transitions.now) (T.classes transitions.now) (distance_in values.now) state greatest.new }
{
    for transition in entering {
        let class = transition.class as usize;
        let fall = fall_from(values, transition.source as usize, value);
        greatest[class] = greatest[class].max(fall);
    }
}

/// Raises the numbers of the classes to the decreases of the values over the transitions into one state. `digits` and
/// `entering` are buffers, for transitions that are not stored.
fn cover<T: BackwardTransitions>(
    transitions: &T,
    values: &[u64],
    state: usize,
    greatest: &mut [u32],
    digits: &mut Vec<u32>,
    entering: &mut Vec<Transition>,
) -> Result<(), AllocError>
    requires len { length greatest.old ≡ (T.classes transitions.now).count }
    requires values { length values.now ≡ (T.abstraction transitions.now).size }
    requires state { state < (T.abstraction transitions.now).size }
    requires falls { (o i c : ℕ) → (T.classes transitions.now).class o ≡ Some c → LeadsTo (T.abstraction transitions.now) o i state →
        fall (distance_in values.now i) (distance_in values.now state) < 2 ^ 32 }
    requires reached { AreFalls (T.abstraction transitions.now) (T.classes transitions.now) (distance_in values.now) greatest.old }
    ensures reached { OnOk result
        (AreFalls (T.abstraction transitions.now) (T.classes transitions.now) (distance_in values.now) greatest.new) }
    ensures kept { OnOk result ((c : ℕ) → slice_index greatest.old c ≤ slice_index greatest.new c) }
    ensures covered { OnOk result
        (IsCoveredAt (T.abstraction transitions.now) (T.classes transitions.now) (distance_in values.now) state greatest.new) }
{
    let Some(value) = distance_of(values[state]).get() else {
        return Ok(());
    };
    if let Some(stored) = transitions.stored(state) {
        raise(transitions, values, state, value, stored, greatest);
        return Ok(());
    }
    transitions.entering(state, digits, entering)?;
    raise(transitions, values, state, value, entering, greatest);
    Ok(())
}

/// Returns the first class from `first` on whose number is below its least share, or the number of classes if there is
/// none.
fn first_below(greatest: &[u32], least: &[u32], first: usize) -> usize
    requires len { length least.now ≡ length greatest.now }
    requires first { first ≤ length greatest.now }
    requires full { AreFull first least.now greatest.now }
    ensures within { result ≤ length greatest.now }
    ensures full { AreFull result least.now greatest.now }
    ensures below { result < length greatest.now → slice_index greatest.now result < slice_index least.now result }
{
    for class in first..greatest.len() {
        if greatest[class] < least[class] {
            return class;
        }
    }
    greatest.len()
}

/// Raises the numbers of the classes to the decreases of the values over all transitions. It ends as soon as each
/// number is the least share of its class, since no decrease is greater. `digits` and the list of transitions are
/// buffers for `cover`.
fn cover_all<T: BackwardTransitions>(
    transitions: &T,
    values: &[u64],
    least: &[u32],
    greatest: &mut [u32],
    digits: &mut Vec<u32>,
    entering: &mut Vec<Transition>,
) -> Result<(), AllocError>
    requires len { length greatest.old ≡ (T.classes transitions.now).count }
    requires least_len { length least.now ≡ (T.classes transitions.now).count }
    requires values { length values.now ≡ (T.abstraction transitions.now).size }
    requires falls { AreWithin (T.abstraction transitions.now) (T.classes transitions.now) (distance_in values.now) least.now }
    requires reached { AreFalls (T.abstraction transitions.now) (T.classes transitions.now) (distance_in values.now) greatest.old }
    ensures reached { OnOk result
        (AreFalls (T.abstraction transitions.now) (T.classes transitions.now) (distance_in values.now) greatest.new) }
    ensures covered { OnOk result ((j : ℕ) → j < (T.abstraction transitions.now).size →
        IsCoveredAt (T.abstraction transitions.now) (T.classes transitions.now) (distance_in values.now) j greatest.new) }
{
    let mut first = 0;
    for state in 0..values.len() {
        first = first_below(greatest, least, first);
        if first == greatest.len() {
            return Ok(());
        }
        cover(transitions, values, state, greatest, digits, entering)?;
    }
    Ok(())
}

/// Replaces the content of `greatest` by the greatest decrease of the values over the transitions of each class.
/// `least` has the least share of each class, which no decrease exceeds. On failure the content is not specified.
/// `digits` and the list of transitions are buffers.
pub(crate) fn set_greatest<T: BackwardTransitions>(
    transitions: &T,
    values: &[u64],
    least: &[u32],
    greatest: &mut Vec<u32>,
    digits: &mut Vec<u32>,
    entering: &mut Vec<Transition>,
) -> Result<(), AllocError>
    requires least_len { length least.now ≡ (T.classes transitions.now).count }
    requires values { length values.now ≡ (T.abstraction transitions.now).size }
    requires falls { AreWithin (T.abstraction transitions.now) (T.classes transitions.now) (distance_in values.now) least.now }
    ensures len { OnOk result (length greatest.new.items ≡ (T.classes transitions.now).count) }
    ensures reached { OnOk result
        (AreFalls (T.abstraction transitions.now) (T.classes transitions.now) (distance_in values.now) greatest.new.items) }
    ensures covered { OnOk result ((j : ℕ) → j < (T.abstraction transitions.now).size →
        IsCoveredAt (T.abstraction transitions.now) (T.classes transitions.now) (distance_in values.now) j greatest.new.items) }
{
    greatest.clear();
    greatest.resize(least.len(), 0)?;
    cover_all(transitions, values, least, greatest, digits, entering)
}

/// Returns the saturated cost function of a table: for each operator of the task, in order, the least share that
/// preserves the values (Seipp, Keller and Helmert 2020). It is the greatest decrease of the values over the operator's
/// transitions, from a finite value to a lesser one, and 0 if there is none.
///
/// `shares` must have one share for each operator, and `values` one value for each abstract state. No transition may
/// lower the value by more than the operator's share. The distances under these shares meet that, and so do other
/// values: they may be too low, and those of abstract goals need not be 0.
pub fn saturate<A: BackwardAbstraction>(
    alloc: Global,
    abstraction: &A,
    shares: &[u32],
    values: &Values,
) -> Result<Vec<u32>, AllocError>
    requires operators { length shares.now ≡ length (A.task abstraction.now).operators }
    requires values { length values.now ≡ (A.abstraction abstraction.now).size }
    requires steps { AreConsistent (A.abstraction abstraction.now) (λ o. slice_index shares.now o) values.now }
    ensures len { IfOk result (λ needed. length needed.items ≡ length shares.now) }
    ensures greatest { IfOk result (λ needed. (o : ℕ) →
        IsGreatestFall (A.abstraction abstraction.now) (value_in values.now) o (slice_index needed.items o)) }
{
    let transitions = abstraction.transitions();
    let mut least = Vec::new(alloc);
    set_least(transitions, shares, u32::MAX, &mut least)?;
    let numbers = as_numbers(alloc, values)?;
    let mut greatest = Vec::new(alloc);
    let mut digits = Vec::new(alloc);
    let mut entering = Vec::new(alloc);
    set_greatest(
        transitions,
        &numbers,
        &least,
        &mut greatest,
        &mut digits,
        &mut entering,
    )?;
    shares_by_class(alloc, transitions, &greatest, shares.len())
}

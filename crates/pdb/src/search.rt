//! The search backwards from the abstract goals.

ghost use Rattle.std.specs.Prelude.{◌≡◌, [], ℕ, ◌+◌, ◌^◌, ◌<◌, ◌≤◌, length, slice_index, map, All, IfOk, OnOk};
ghost use Rattle.cost.specs.Distances.{IsWithin};
ghost use Rattle.fdr.specs.Tasks.{FiniteDomainTask};
ghost use Rattle.cert_value.specs.Kept.{kept_distance};
ghost use Rattle.abstraction_groups.specs.Entrances.{AreEntering};
ghost use Rattle.pdb_walks.specs.Walks.{AreDistances};
ghost use Rattle.pdb.specs.Classes.{share_by, AreLeast};
ghost use Rattle.pdb.specs.Searches.{IsSearch, IsSearchBut, HasLowered, work};

use crate::kept::as_distances;
use crate::least::set_least;
use crate::queue::Queue;
use crate::scratch::Scratch;
use abstraction_groups::{BackwardAbstraction, BackwardTransitions, Transition};
use cert_value::Values;
use std::alloc::{AllocError, Global};

/// The greatest share of an operator.
pub(crate) const GREATEST_SHARE: u32 = 2_147_483_647;

/// The value of an abstract state from which no walk to an abstract goal has been found.
const UNREACHED: u64 = 18_446_744_073_709_551_615;

/// Removes all entries of the queue, and sets the values of this number of abstract states to `UNREACHED`. On failure
/// the content of both is not specified.
fn reset(values: &mut Vec<u64>, queue: &mut Queue, size: usize) -> Result<(), AllocError>
    ensures len { OnOk result (length values.new.items ≡ size) }
    ensures values { OnOk result ((k : ℕ) → k < size → slice_index values.new.items k ≡ UNREACHED) }
    ensures empty { queue.new ≡ [] }
{
    queue.clear();
    values.clear();
    values.resize(size, UNREACHED)
}

/// Sets the values of the abstract goals to 0 and queues them. No state may have a value before, and the queue must be
/// empty. On failure the content of the queue is not specified.
fn add_goals<A: BackwardAbstraction>(
    abstraction: &A,
    values: &mut [u64],
    queue: &mut Queue,
) -> Result<(), AllocError>
    requires size { length values.old ≡ (A.abstraction abstraction.now).size }
    requires values { (k : ℕ) → k < length values.old → slice_index values.old k ≡ UNREACHED }
    requires empty { queue.old ≡ [] }
    ensures { OnOk result ((share : ℕ → ℕ) → IsSearch (A.abstraction abstraction.now) share values.new queue.new) }
{
    for state in 0..values.len() {
        if abstraction.is_goal(state) {
            values[state] = 0;
            queue.add(0, state as u32)?;
        }
    }
    Ok(())
}

/// Lowers the value of a state to `value`, if that is less, and then queues the state. On failure the content of the
/// queue is not specified.
fn lower(values: &mut [u64], queue: &mut Queue, state: u32, value: u64) -> Result<(), AllocError>
    requires { state < length values.old }
    ensures { OnOk result (HasLowered values.old queue.old values.new queue.new state value) }
{
    if value < values[state as usize] {
        values[state as usize] = value;
        queue.add(value, state)?;
    }
    Ok(())
}

/// Relaxes these transitions, which are those into a state: lowers the values of the states that they come from.
/// `least` has the share of each class of operators.
fn relax<T: BackwardTransitions>(
    transitions: &T,
    least: &[u32],
    values: &mut [u64],
    queue: &mut Queue,
    state: usize,
    entering: &[Transition],
) -> Result<(), AllocError>
    requires classes { length least.now ≡ (T.classes transitions.now).count }
    requires small { (c : ℕ) → slice_index least.now c < 2 ^ 31 }
    requires entering { AreEntering (T.abstraction transitions.now) (T.classes transitions.now) state entering.now }
    requires search { IsSearchBut (T.abstraction transitions.now) (share_by (T.classes transitions.now) least.now)
        values.old queue.old state }
    ensures search { OnOk result (IsSearch (T.abstraction transitions.now) (share_by (T.classes transitions.now) least.now)
        values.new queue.new) }
    ensures work { OnOk result (work values.new queue.new ≤ work values.old queue.old) }
{
    let value = values[state];
    for transition in entering {
        let total = value + u64::from(least[transition.class as usize]);
        lower(values, queue, transition.source, total)?;
    }
    Ok(())
}

/// Relaxes all transitions into a state. `digits` and `entering` are buffers, for transitions that are not stored.
fn expand<T: BackwardTransitions>(
    transitions: &T,
    least: &[u32],
    values: &mut [u64],
    queue: &mut Queue,
    state: usize,
    digits: &mut Vec<u32>,
    entering: &mut Vec<Transition>,
) -> Result<(), AllocError>
    requires classes { length least.now ≡ (T.classes transitions.now).count }
    requires small { (c : ℕ) → slice_index least.now c < 2 ^ 31 }
    requires search { IsSearchBut (T.abstraction transitions.now) (share_by (T.classes transitions.now) least.now)
        values.old queue.old state }
    ensures search { OnOk result (IsSearch (T.abstraction transitions.now) (share_by (T.classes transitions.now) least.now)
        values.new queue.new) }
    ensures work { OnOk result (work values.new queue.new ≤ work values.old queue.old) }
{
    if let Some(stored) = transitions.stored(state) {
        return relax(transitions, least, values, queue, state, stored);
    }
    transitions.entering(state, digits, entering)?;
    relax(transitions, least, values, queue, state, entering)
}

/// Removes entries from the queue and relaxes the transitions into their states until the queue is empty. An entry is
/// stale if the value of its state has decreased since: the state was added once more, and only then is it expanded.
fn settle<T: BackwardTransitions>(
    transitions: &T,
    least: &[u32],
    values: &mut [u64],
    queue: &mut Queue,
    digits: &mut Vec<u32>,
    entering: &mut Vec<Transition>,
) -> Result<(), AllocError>
    requires classes { length least.now ≡ (T.classes transitions.now).count }
    requires small { (c : ℕ) → slice_index least.now c < 2 ^ 31 }
    requires search { IsSearch (T.abstraction transitions.now) (share_by (T.classes transitions.now) least.now)
        values.old queue.old }
    ensures search { OnOk result (IsSearch (T.abstraction transitions.now) (share_by (T.classes transitions.now) least.now)
        values.new queue.new) }
    ensures empty { OnOk result (queue.new ≡ []) }
{
    while let Some(entry) = queue.take()? {
        let state = entry.state as usize;
        if values[state] == entry.value {
            expand(transitions, least, values, queue, state, digits, entering)?;
        }
    }
    Ok(())
}

/// Finds the distance of each abstract state under `shares`, which has a share below 2^31 for each operator of the
/// task, in order. In `scratch` the distances are the values, and `least` has the least share of each class of
/// operators.
pub(crate) fn search<A: BackwardAbstraction>(
    abstraction: &A,
    transitions: &A::Transitions,
    shares: &[u32],
    scratch: &mut Scratch,
) -> Result<(), AllocError>
    requires transitions { A.Transitions.abstraction transitions.now ≡ A.abstraction abstraction.now }
    requires operators { length shares.now ≡ length (A.task abstraction.now).operators }
    requires small { (o : ℕ) → slice_index shares.now o < 2 ^ 31 }
    ensures small { OnOk result (All (IsWithin (2 ^ 55)) (map kept_distance scratch.new.values.items)) }
    ensures distances { OnOk result
        (AreDistances (A.abstraction abstraction.now) (λ o. slice_index shares.now o)
        (map kept_distance scratch.new.values.items)) }
    ensures len { OnOk result (length scratch.new.least.items ≡ (A.Transitions.classes transitions.now).count) }
    ensures least { OnOk result (AreLeast (A.Transitions.classes transitions.now) shares.now scratch.new.least.items) }
{
    set_least(transitions, shares, GREATEST_SHARE, &mut scratch.least)?;
    reset(&mut scratch.values, &mut scratch.queue, abstraction.size())?;
    add_goals(abstraction, &mut scratch.values, &mut scratch.queue)?;
    settle(
        transitions,
        &scratch.least,
        &mut scratch.values,
        &mut scratch.queue,
        &mut scratch.digits,
        &mut scratch.entering,
    )?;
    Ok(())
}

/// Returns the distance of each abstract state, in order: the least total of shares over the walks from it to an
/// abstract goal, and infinite if there is no walk. `shares` has a share below 2^31 for each operator of the task, in
/// order. Finite distances are at most 2^55.
///
/// This is a search backwards from the goals (Dijkstra 1959; for pattern databases Culberson and Schaeffer 1998). It
/// allocates the memory of a `Scratch`, besides the result.
pub fn distances<A: BackwardAbstraction>(
    alloc: Global,
    abstraction: &A,
    shares: &[u32],
) -> Result<Values, AllocError>
    requires operators { length shares.now ≡ length (A.task abstraction.now).operators }
    requires small { (o : ℕ) → slice_index shares.now o < 2 ^ 31 }
    ensures small { IfOk result (λ values. All (IsWithin (2 ^ 55)) values) }
    ensures distances { IfOk result
        (λ values. AreDistances (A.abstraction abstraction.now) (λ o. slice_index shares.now o) values) }
{
    let mut scratch = Scratch::new(alloc)?;
    search(abstraction, abstraction.transitions(), shares, &mut scratch)?;
    as_distances(alloc, &scratch.values)
}

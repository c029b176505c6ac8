//! The goal node of least cost.

ghost use Rattle.std.specs.Prelude.{◌≡◌, ◌<◌, length, map, slice_get, All, Some, IfOk};
ghost use Rattle.cost.specs.Distances.{Finite, least};
ghost use Rattle.owner_theory.specs.Owners.{Node};
ghost use Rattle.extract.specs.Goals.{is_goal_at, first_from, first_goal};

use crate::settled::best_goal;
use owner::{Owner, Space};
use packed::StateForm;
use packed_spread::Spread;
use std::alloc::{AllocError, Global};

/// Returns whether the node at the index has this cost and a goal state. Only the state of a node with this cost is
/// unpacked. `state` is a buffer.
fn is_goal_at<S: Spread + Drop, F: StateForm + Drop>(
    owner: &Owner<'_, S, F>,
    cost: u64,
    index: usize,
    state: &mut [u32],
) -> bool
    requires index { index < length owner.now.nodes }
    requires buffer { length state.old ≡ length owner.now.space.task.value_names }
    ensures { (n : Node) → slice_get owner.now.nodes index ≡ Some n → result ≡ is_goal_at owner.now.space.task cost n }
{
    if owner.entry(index).rank.cost != cost {
        return false;
    }
    owner.copy_state(index, state);
    owner.space().task().is_goal(state)
}

/// Returns the index of an owner's first goal node of this cost, or `None` if it has none. `state` is a buffer.
fn first_of_owner<S: Spread + Drop, F: StateForm + Drop>(
    owner: &Owner<'_, S, F>,
    cost: u64,
    state: &mut [u32],
) -> Option<usize>
    requires { length state.old ≡ length owner.now.space.task.value_names }
    ensures { result ≡ first_from (is_goal_at owner.now.space.task cost) 0 owner.now.nodes }
{
    for index in 0..owner.len() {
        if is_goal_at(owner, cost, index, state) {
            return Some(index);
        }
    }
    None
}

/// Returns the worker and the index of the first goal node of this cost, or `None` if there is none. The owners are all
/// of this space. `state` is a buffer.
fn first_of_owners<S: Spread + Drop, F: StateForm + Drop>(
    space: &Space<'_, S>,
    owners: &[Owner<'_, S, F>],
    cost: u64,
    state: &mut [u32],
) -> Option<(usize, usize)>
    requires spaces { All (λ o. o.space ≡ space.now) owners.now }
    requires buffer { length state.old ≡ length space.now.task.value_names }
    ensures { result ≡ first_goal space.now.task (Finite cost) owners.now }
{
    for (worker, owner) in owners.iter().enumerate() {
        if let Some(index) = first_of_owner(owner, cost, state) {
            return Some((worker, index));
        }
    }
    None
}

/// Returns the worker and the index of the first goal node whose cost is the least at which any of these owners took a
/// goal state, or `None` if none did. The owners are all of this space.
pub(crate) fn first_best<S: Spread + Drop, F: StateForm + Drop>(
    alloc: Global,
    space: &Space<'_, S>,
    owners: &[Owner<'_, S, F>],
) -> Result<Option<(usize, usize)>, AllocError>
    requires { All (λ o. o.space ≡ space.now) owners.now }
    ensures { IfOk result (λ place. place ≡ first_goal space.now.task (least (map (λ o. o.best) owners.now)) owners.now) }
{
    match best_goal(owners).get() {
        Some(cost) => {
            let mut state = vec![in alloc; 0u32; space.task().variable_count()]?;
            Ok(first_of_owners(space, owners, cost, &mut state))
        }
        None => Ok(None),
    }
}

//! Construction of the tables of an action index.

ghost use Rattle.std.specs.Prelude.{◌≡◌, ◌<◌, ◌==◌, ℕ, [], length, map, slice_index_or, replicate, true, false, ◌&&◌, ◌||◌, IfOk, OnOk};
ghost use Rattle.std.specs.List.{list_any};
ghost use Rattle.index_rows.specs.Numbers.{has, IsTranspose};
ghost use Rattle.mutex_index.specs.Places.{places_of, literal_places, removed_places};

use crate::row::{row_of_atoms, row_of_literals, row_of_removed};
use ground_atoms::Atoms;
use index_rows::Rows;
use pddl_task::{GroundAction, Task};
use std::alloc::{AllocError, Global};

/// Returns for each action the indices of the atoms of its positive preconditions.
pub(crate) fn wanted_rows(
    alloc: Global,
    atoms: &Atoms,
    actions: &[GroundAction],
) -> Result<Rows, AllocError>
    ensures { IfOk result (λ rows. rows ≡ map (λ a. literal_places atoms.now true a.precondition) actions.now) }
{
    let mut rows = Rows::new(alloc);
    for action in actions {
        let row = row_of_literals(alloc, atoms, true, &action.precondition)?;
        rows.push(row.as_slice())?;
    }
    Ok(rows)
}

/// Returns for each action the indices of the atoms that it adds.
pub(crate) fn added_rows(
    alloc: Global,
    atoms: &Atoms,
    actions: &[GroundAction],
) -> Result<Rows, AllocError>
    ensures { IfOk result (λ rows. rows ≡ map (λ a. places_of atoms.now a.adds) actions.now) }
{
    let mut rows = Rows::new(alloc);
    for action in actions {
        let row = row_of_atoms(alloc, atoms, &action.adds)?;
        rows.push(row.as_slice())?;
    }
    Ok(rows)
}

/// Returns for each action the indices of the atoms that it removes.
pub(crate) fn removed_rows(
    alloc: Global,
    atoms: &Atoms,
    actions: &[GroundAction],
) -> Result<Rows, AllocError>
    ensures { IfOk result (λ rows. rows ≡ map (λ a. removed_places atoms.now a.adds a.deletes) actions.now) }
{
    let mut rows = Rows::new(alloc);
    for action in actions {
        let row = row_of_removed(alloc, atoms, &action.adds, &action.deletes)?;
        rows.push(row.as_slice())?;
    }
    Ok(rows)
}

/// Sets the flag at index `place`, if there is one.
fn mark_one(flags: &mut [bool], place: usize)
    ensures { (p : ℕ) → p < length flags.old →
        slice_index_or flags.new p false ≡ (slice_index_or flags.old p false || place == p) }
{
    if place < flags.len() {
        flags[place] = true;
    }
}

/// Sets the flags at these indices.
fn mark(flags: &mut [bool], places: &[usize])
    ensures { (p : ℕ) → p < length flags.old →
        slice_index_or flags.new p false ≡ (slice_index_or flags.old p false || has places.now p) }
{
    for place in places {
        mark_one(flags, *place);
    }
}

/// Returns for each atom whether it is initially true.
pub(crate) fn initial_flags(
    alloc: Global,
    task: &Task,
    atoms: &Atoms,
) -> Result<Vec<bool>, AllocError>
    ensures { IfOk result (λ flags. (p : ℕ) → p < length atoms.now →
        slice_index_or flags.items p false ≡ has (places_of atoms.now task.now.initial) p) }
{
    let mut flags = vec![in alloc; false; atoms.len()]?;
    let row = row_of_atoms(alloc, atoms, &task.initial)?;
    mark(&mut flags, row.as_slice());
    Ok(flags)
}

/// Returns for each atom whether a precondition or the goal contains its negation.
pub(crate) fn excluded_flags(
    alloc: Global,
    task: &Task,
    atoms: &Atoms,
    actions: &[GroundAction],
) -> Result<Vec<bool>, AllocError>
    ensures { IfOk result (λ flags. (p : ℕ) → p < length atoms.now → slice_index_or flags.items p false
        ≡ (list_any (λ a. has (literal_places atoms.now false a.precondition) p) actions.now
        || has (literal_places atoms.now false task.now.goal) p)) }
{
    let mut flags = vec![in alloc; false; atoms.len()]?;
    for action in actions {
        let row = row_of_literals(alloc, atoms, false, &action.precondition)?;
        mark(&mut flags, row.as_slice());
    }
    let row = row_of_literals(alloc, atoms, false, &task.goal)?;
    mark(&mut flags, row.as_slice());
    Ok(flags)
}

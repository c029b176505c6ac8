//! The index of a task's actions by the atoms that they add or remove, and the tests that use it.

ghost use Rattle.std.specs.Prelude.{◌≡◌, ℕ, ◌<◌, All, length, slice_get, IfOk, IfSome};
ghost use Rattle.std.specs.List.Sorted.{IsStrictlyIncreasing};
ghost use Rattle.mutex_index.specs.Groups.{is_usable, is_full, is_constant, is_excluded};
ghost use Rattle.index_rows.specs.Numbers.{AreSameSet};
ghost use Rattle.mutex_index.specs.Places.{atoms_at};

use crate::tables::Tables;
use ground_atoms::Atoms;
use pddl_task::{GroundAction, Task};
use std::alloc::{AllocError, Global};
use std::marker::Model;

/// A task, a list of atoms and a list of ground actions, with look-up tables: for each action the indices of its
/// positive preconditions and of the atoms that it adds and removes, and for each atom the actions that add it and
/// those that remove it. An action removes an atom if it deletes and does not add it. Atoms that are not in the list
/// are ignored.
///
/// A group is a list of atoms, represented by their indices in the list of atoms.
#[derive(Drop)]
pub struct ActionIndex<'a> {
    task: &'a Task,
    atoms: &'a Atoms,
    actions: &'a [GroundAction],
    tables: Tables,
}

impl<'a> Model for ActionIndex<'a> {
    ghost use Rattle.mutex_index.specs.Places.{Indexed};
    ghost use Rattle.mutex_index.specs.Tables.{AreTables};

    ghost Value = { Indexed };

    ghost view = { λ i. record { task = i.task.now; atoms = i.atoms.now; actions = i.actions.now } };

    ghost invariant = { λ i. AreTables i.task.now i.atoms.now i.actions.now i.tables };
}

impl<'a> ActionIndex<'a> {
    /// Returns the index of these actions.
    ///
    /// Takes time linear in the numbers of atoms and of the literals and effects of the task and the actions, and for
    /// each action in the product of the numbers of its delete and add effects.
    pub fn new(
        alloc: Global,
        task: &'a Task,
        atoms: &'a Atoms,
        actions: &'a [GroundAction],
    ) -> Result<ActionIndex<'a>, AllocError>
        ensures { IfOk result (λ index. index ≡ record { task = task.now; atoms = atoms.now; actions = actions.now }) }
    {
        let tables = Tables::new(alloc, task, atoms, actions)?;
        Ok(ActionIndex {
            task,
            atoms,
            actions,
            tables,
        })
    }

    /// Returns the task.
    pub fn task(&self) -> &'a Task
        ensures { result.now ≡ self.now.task }
    {
        self.task
    }

    /// Returns the list of atoms, to which the indices refer.
    pub fn atoms(&self) -> &'a Atoms
        ensures { result.now ≡ self.now.atoms }
    {
        self.atoms
    }

    /// Returns whether the atoms at these indices are a usable group: at most one is initially true; an action adds at
    /// most one, and then has a precondition in the group that is this atom or that it removes; and an action that
    /// removes one and adds none has a precondition in the group (Helmert 2009, mutex groups).
    ///
    /// Examines only the actions that add or remove one of the atoms.
    pub fn is_usable(&self, places: &[usize]) -> bool
        requires rising { IsStrictlyIncreasing places.now }
        requires within { All (λ p. p < length self.now.atoms) places.now }
        ensures { result ≡ is_usable self.now.task self.now.actions (atoms_at self.now.atoms places.now) }
    {
        self.tables.is_usable(places)
    }

    /// Returns the result of `is_usable` for indices in any order and with repetitions.
    pub fn is_group(&self, alloc: Global, places: &[usize]) -> Result<bool, AllocError>
        requires within { All (λ p. p < length self.now.atoms) places.now }
        ensures { IfOk result (λ is. is ≡ is_usable self.now.task self.now.actions (atoms_at self.now.atoms places.now)) }
    {
        let group = in_order(alloc, places)?;
        Ok(self.is_usable(&group))
    }

    /// Returns whether the group of the atoms at these indices is full: at least one is initially true, and every
    /// action that removes one adds one.
    ///
    /// Examines only the actions that remove one of the atoms.
    pub fn is_full(&self, places: &[usize]) -> bool
        requires rising { IsStrictlyIncreasing places.now }
        requires within { All (λ p. p < length self.now.atoms) places.now }
        ensures { result ≡ is_full self.now.task self.now.actions (atoms_at self.now.atoms places.now) }
    {
        self.tables.is_full(places)
    }

    /// Returns whether the atom at index `place` is constant: it is initially true, no action removes it, and neither a
    /// precondition nor the goal contains its negation.
    pub fn is_constant(&self, place: usize) -> bool
        requires { place < length self.now.atoms }
        ensures { IfSome (slice_get self.now.atoms place) (λ p. result ≡ is_constant self.now.task self.now.actions p) }
    {
        self.tables.is_constant(place)
    }

    /// Returns whether the atom at index `place` is excluded: a precondition or the goal contains its negation.
    pub fn is_excluded(&self, place: usize) -> bool
        requires { place < length self.now.atoms }
        ensures { IfSome (slice_get self.now.atoms place) (λ p. result ≡ is_excluded self.now.task self.now.actions p) }
    {
        self.tables.is_excluded(place)
    }
}

/// Returns the numbers in increasing order, without repetitions.
fn in_order(alloc: Global, numbers: &[usize]) -> Result<Vec<usize>, AllocError>
    ensures rising { IfOk result (λ sorted. IsStrictlyIncreasing sorted.items) }
    ensures same { IfOk result (λ sorted. AreSameSet sorted.items numbers.now) }
{
    let mut sorted = Vec::from_slice(alloc, numbers)?;
    sorted.sort_unstable();
    sorted.dedup();
    Ok(sorted)
}

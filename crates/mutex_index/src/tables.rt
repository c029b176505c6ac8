//! The tables of an action index, and the tests of groups with these tables. Atoms are represented by their indices.

ghost use Rattle.std.specs.Prelude.{◌≡◌, ◌==◌, [], length, slice_index_or, false, nat_le, count_by, IfOk};
ghost use Rattle.std.specs.List.{list_any, list_all};
ghost use Rattle.std.specs.List.Sorted.{IsStrictlyIncreasing};
ghost use Rattle.index_rows.specs.Numbers.{has};
ghost use Rattle.mutex_index.specs.Places.{adds_alone, gives_way, meets};

use crate::build::{added_rows, excluded_flags, initial_flags, removed_rows, wanted_rows};
use ground_atoms::Atoms;
use index_rows::{Rows, transpose};
use pddl_task::{GroundAction, Task};
use std::alloc::{AllocError, Global};

/// For each action the atoms of its positive preconditions, those that it adds and those that it removes; for each atom
/// the actions that add it and those that remove it, whether it is initially true, and whether a precondition or the
/// goal contains its negation.
#[derive(Drop)]
pub(crate) struct Tables {
    pub(crate) wanted: Rows,
    pub(crate) added: Rows,
    pub(crate) removed: Rows,
    pub(crate) adders: Rows,
    pub(crate) removers: Rows,
    pub(crate) initial: Vec<bool>,
    pub(crate) excluded: Vec<bool>,
}

impl Tables {
    ghost use Rattle.mutex_index.specs.Tables.{AreTables, takes_over_at, is_taken_over, starts_inside_at, is_left_inside};
    ghost use Rattle.mutex_index.specs.Tables.{is_refilled, is_usable_by, is_full_by, is_constant_by};

    pub(crate) fn new(
        alloc: Global,
        task: &Task,
        atoms: &Atoms,
        actions: &[GroundAction],
    ) -> Result<Tables, AllocError>
        ensures { IfOk result (λ tables. AreTables task.now atoms.now actions.now tables) }
    {
        let count = atoms.as_slice().len();
        let wanted = wanted_rows(alloc, atoms, actions)?;
        let added = added_rows(alloc, atoms, actions)?;
        let removed = removed_rows(alloc, atoms, actions)?;
        let adders = transpose(alloc, count, &added)?;
        let removers = transpose(alloc, count, &removed)?;
        let initial = initial_flags(alloc, task, atoms)?;
        let excluded = excluded_flags(alloc, task, atoms, actions)?;
        Ok(Tables {
            wanted,
            added,
            removed,
            adders,
            removers,
            initial,
            excluded,
        })
    }

    /// Returns whether the action adds no other atom of the group than the one at `place`, and one of its positive
    /// preconditions in the group is that atom or is removed.
    fn takes_over(&self, group: &[usize], place: usize, action: usize) -> bool
        requires { IsStrictlyIncreasing group.now }
        ensures { result ≡ takes_over_at self.now group.now place action }
    {
        adds_alone(group, place, self.added.row(action))
            && gives_way(
                group,
                place,
                self.wanted.row(action),
                self.removed.row(action),
            )
    }

    /// Returns whether `takes_over` holds for each action that adds this atom.
    fn is_taken_over(&self, group: &[usize], place: usize) -> bool
        requires { IsStrictlyIncreasing group.now }
        ensures { result ≡ is_taken_over self.now group.now place }
    {
        self.adders
            .row(place)
            .iter()
            .all(|action| self.takes_over(group, place, *action))
    }

    /// Returns whether the action adds an atom of the group or has one as a positive precondition.
    fn starts_inside(&self, group: &[usize], action: usize) -> bool
        requires { IsStrictlyIncreasing group.now }
        ensures { result ≡ starts_inside_at self.now group.now action }
    {
        meets(group, self.added.row(action)) || meets(group, self.wanted.row(action))
    }

    /// Returns whether each action that removes this atom adds an atom of the group or has one as a positive
    /// precondition.
    fn is_left_inside(&self, group: &[usize], place: usize) -> bool
        requires { IsStrictlyIncreasing group.now }
        ensures { result ≡ is_left_inside self.now group.now place }
    {
        self.removers
            .row(place)
            .iter()
            .all(|action| self.starts_inside(group, *action))
    }

    /// Returns whether each action that removes this atom adds an atom of the group.
    fn is_refilled(&self, group: &[usize], place: usize) -> bool
        requires { IsStrictlyIncreasing group.now }
        ensures { result ≡ is_refilled self.now group.now place }
    {
        self.removers
            .row(place)
            .iter()
            .all(|action| meets(group, self.added.row(*action)))
    }

    /// Returns whether the atom at `place` is initially true.
    fn is_initial(&self, place: usize) -> bool
        ensures { result ≡ slice_index_or self.now.initial.items place false }
    {
        self.initial.get(place).copied().unwrap_or(false)
    }

    /// Returns whether a precondition or the goal contains the negation of the atom at `place`.
    pub(crate) fn is_excluded(&self, place: usize) -> bool
        ensures { result ≡ slice_index_or self.now.excluded.items place false }
    {
        self.excluded.get(place).copied().unwrap_or(false)
    }

    /// Returns whether no action removes the atom at `place`.
    fn is_kept(&self, place: usize) -> bool
        ensures { result ≡ (length (slice_index_or self.now.removers place []) == 0) }
    {
        self.removers.row(place).is_empty()
    }

    /// Returns whether the atom at `place` is initially true, is not removed and is not excluded.
    pub(crate) fn is_constant(&self, place: usize) -> bool
        ensures { result ≡ is_constant_by self.now place }
    {
        self.is_initial(place) && self.is_kept(place) && !self.is_excluded(place)
    }

    /// Returns whether at most one atom of the group is initially true.
    fn starts_with_one(&self, group: &[usize]) -> bool
        ensures { result ≡ nat_le (count_by (λ p. slice_index_or self.now.initial.items p false) group.now) 1 }
    {
        group
            .iter()
            .filter(|place| self.is_initial(**place))
            .count()
            <= 1
    }

    /// Returns whether at least one atom of the group is initially true.
    fn starts_with_some(&self, group: &[usize]) -> bool
        ensures { result ≡ list_any (λ p. slice_index_or self.now.initial.items p false) group.now }
    {
        group.iter().any(|place| self.is_initial(*place))
    }

    fn are_taken_over(&self, group: &[usize]) -> bool
        requires { IsStrictlyIncreasing group.now }
        ensures { result ≡ list_all (is_taken_over self.now group.now) group.now }
    {
        group.iter().all(|place| self.is_taken_over(group, *place))
    }

    fn are_left_inside(&self, group: &[usize]) -> bool
        requires { IsStrictlyIncreasing group.now }
        ensures { result ≡ list_all (is_left_inside self.now group.now) group.now }
    {
        group.iter().all(|place| self.is_left_inside(group, *place))
    }

    fn are_refilled(&self, group: &[usize]) -> bool
        requires { IsStrictlyIncreasing group.now }
        ensures { result ≡ list_all (is_refilled self.now group.now) group.now }
    {
        group.iter().all(|place| self.is_refilled(group, *place))
    }

    /// Returns whether the group is usable, by the tables.
    pub(crate) fn is_usable(&self, group: &[usize]) -> bool
        requires { IsStrictlyIncreasing group.now }
        ensures { result ≡ is_usable_by self.now group.now }
    {
        self.starts_with_one(group) && self.are_taken_over(group) && self.are_left_inside(group)
    }

    /// Returns whether the group is full, by the tables.
    pub(crate) fn is_full(&self, group: &[usize]) -> bool
        requires { IsStrictlyIncreasing group.now }
        ensures { result ≡ is_full_by self.now group.now }
    {
        self.starts_with_some(group) && self.are_refilled(group)
    }
}

/// Returns whether `place` is in the group.
fn is_one_of(group: &[usize], place: usize) -> bool
    requires { IsStrictlyIncreasing group.now }
    ensures { result ≡ has group.now place }
{
    group.binary_search(&place).is_ok()
}

/// Returns whether one of `places` is in the group.
fn meets(group: &[usize], places: &[usize]) -> bool
    requires { IsStrictlyIncreasing group.now }
    ensures { result ≡ meets group.now places.now }
{
    places.iter().any(|place| is_one_of(group, *place))
}

/// Returns whether no other atom of the group than the one at `place` is added.
fn adds_alone(group: &[usize], place: usize, added: &[usize]) -> bool
    requires { IsStrictlyIncreasing group.now }
    ensures { result ≡ adds_alone group.now place added.now }
{
    added
        .iter()
        .all(|other| *other == place || !is_one_of(group, *other))
}

/// Returns whether one of the positive preconditions `wanted` in the group is the atom at `place` or is removed.
fn gives_way(group: &[usize], place: usize, wanted: &[usize], removed: &[usize]) -> bool
    requires { IsStrictlyIncreasing group.now }
    ensures { result ≡ gives_way group.now place wanted.now removed.now }
{
    wanted.iter().any(|other| is_one_of(group, *other)
        && (*other == place || removed.contains(other)))
}

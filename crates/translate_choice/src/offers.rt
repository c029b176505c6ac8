//! The proposed groups, and the variables of their untaken atoms.

ghost use Rattle.std.specs.Prelude.{◌≡◌, ◌<◌, ℕ, length, true, false, not, slice_index_or, nat_le, count_by, position, None, if◌then◌else◌, All, IfOk, OnOk};
ghost use Rattle.std.specs.List.Sorted.{IsStrictlyIncreasing};
ghost use Rattle.pddl_task.specs.Atoms.{same_atom};
ghost use Rattle.ground_atoms.specs.Order.{AreDistinct};
ghost use Rattle.mutex_index.specs.Places.{literal_places};
ghost use Rattle.mutex.specs.Proposals.{IsProposal};
ghost use Rattle.index_rows.specs.Numbers.{has};
ghost use Rattle.translate_choice.specs.Choices.{AreGoals, IsRest};
ghost use Rattle.translate_choice.specs.Greedy.{is_fit, variable_of, group_at, left_of, AreQueued, IsQueuedIfFit, Keeps};

use crate::flags::{is_set, set_flags};
use crate::queue::Queue;
use ground_atoms::Atoms;
use mutex::{ActionIndex, Group, Groups};
use pddl_task::GroundLiteral;
use std::alloc::{AllocError, Global};
use translate_theory::ListedVariable;

/// Groups of an index's atoms, and for each atom, by its index, whether it is a goal.
#[derive(Drop)]
pub(crate) struct Offers<'a> {
    pub(crate) index: &'a ActionIndex<'a>,
    pub(crate) groups: &'a [Group],
    goals: Vec<bool>,
    ghost proposed: { All (IsProposal index.now) groups.now },
    ghost goals_marked: { AreGoals index.now goals.items },
    ghost distinct: { AreDistinct index.now.atoms },
}

impl<'a> Offers<'a> {
    pub(crate) fn new(
        alloc: Global,
        index: &'a ActionIndex<'a>,
        groups: &'a Groups,
    ) -> Result<Offers<'a>, AllocError>
        requires { All (IsProposal index.now) groups.now }
        ensures index { IfOk result (λ offers. offers.index.now ≡ index.now) }
        ensures groups { IfOk result (λ offers. offers.groups.now ≡ groups.now) }
    {
        // only for the proof: reading the list of atoms makes its invariant available, that they are distinct
        let _ = index.atoms().as_slice().len();
        Ok(Offers {
            index,
            groups: groups.as_slice(),
            goals: goal_flags(alloc, index)?,
        })
    }

    pub(crate) fn groups(&self) -> &'a [Group]
        ensures { result.now ≡ self.now.groups.now }
    {
        self.groups
    }

    /// Returns the atom indices of the group with this number, or none if there is no such group.
    fn places_of(&self, group: usize) -> &[usize]
        ensures { result.now ≡ group_at self.now.groups.now group }
    {
        match self.groups.get(group) {
            Some(group) => group.places(),
            None => &[],
        }
    }

    /// Returns the atom indices of the group that are not taken.
    pub(crate) fn rest(
        &self,
        alloc: Global,
        group: usize,
        taken: &[bool],
    ) -> Result<Vec<usize>, AllocError>
        ensures places { IfOk result (λ rest. rest.items ≡ left_of taken.now (group_at self.now.groups.now group)) }
        ensures rest { IfOk result (λ rest. IsRest self.now.index.now taken.now rest.items) }
    {
        untaken(alloc, taken, self.places_of(group))
    }

    /// Returns whether at most one of the atoms is a goal.
    fn has_one_goal(&self, places: &[usize]) -> bool
        ensures { result ≡ nat_le (count_by (λ p. slice_index_or self.now.goals.items p false) places.now) 1 }
    {
        places
            .iter()
            .filter(|place| is_set(&self.goals, **place))
            .count()
            <= 1
    }

    /// Returns whether there are several atoms, at most one of them a goal, and they are a usable group.
    pub(crate) fn is_fit(&self, places: &[usize]) -> bool
        requires rising { IsStrictlyIncreasing places.now }
        requires within { All (λ p. p < length self.now.index.now.atoms) places.now }
        ensures { result ≡ is_fit self.now.index.now places.now }
    {
        if places.len() < 2 || !self.has_one_goal(places) {
            return false;
        }
        self.index.is_usable(places)
    }

    /// Returns the variable of the atoms at the indices `places`.
    pub(crate) fn variable(&self, places: Vec<usize>) -> ListedVariable
        requires rising { IsStrictlyIncreasing places.items }
        requires within { All (λ p. p < length self.now.index.now.atoms) places.items }
        ensures { result ≡ variable_of self.now.index.now places.items }
    {
        let has_none = !self.index.is_full(&places);
        ListedVariable { places, has_none }
    }

    /// Queues the group with the number of its atoms that are not taken, unless they are fewer than two.
    fn queue_one(&self, queue: &mut Queue, group: usize, taken: &[bool]) -> Result<(), AllocError>
        ensures keeps { OnOk result (Keeps queue.old queue.new) }
        ensures queued { OnOk result (IsQueuedIfFit self.now.index.now self.now.groups.now taken.now queue.new group) }
    {
        let size = left_count(taken, self.places_of(group));
        if size > 1 {
            queue.push(size, group)?;
        }
        Ok(())
    }

    /// Queues these groups.
    pub(crate) fn queue_each(
        &self,
        queue: &mut Queue,
        groups: &[usize],
        taken: &[bool],
    ) -> Result<(), AllocError>
        ensures keeps { OnOk result (Keeps queue.old queue.new) }
        ensures queued { OnOk result ((g : ℕ) → has groups.now g ≡ true →
            IsQueuedIfFit self.now.index.now self.now.groups.now taken.now queue.new g) }
    {
        for group in groups {
            self.queue_one(queue, *group, taken)?;
        }
        Ok(())
    }

    /// Returns the queue of all groups.
    pub(crate) fn queue_all(&self, alloc: Global, taken: &[bool]) -> Result<Queue, AllocError>
        ensures { IfOk result (AreQueued self.now.index.now self.now.groups.now taken.now) }
    {
        let mut queue = Queue::new(alloc);
        for group in 0..self.groups.len() {
            self.queue_one(&mut queue, group, taken)?;
        }
        Ok(queue)
    }
}

/// Returns those of the indices `places` that are not taken.
fn untaken(alloc: Global, taken: &[bool], places: &[usize]) -> Result<Vec<usize>, AllocError>
    ensures { IfOk result (λ rest. rest.items ≡ left_of taken.now places.now) }
{
    places
        .iter()
        .copied()
        .filter(|place| !is_set(taken, *place))
        .collect(alloc)
}

/// Returns how many of the indices `places` are not taken.
fn left_count(taken: &[bool], places: &[usize]) -> usize
    ensures { result ≡ count_by (λ p. not (slice_index_or taken.now p false)) places.now }
{
    places
        .iter()
        .filter(|place| !is_set(taken, **place))
        .count()
}

/// Returns the index of the literal's atom, if the literal is positive and the atom is listed.
fn place_of_goal(atoms: &Atoms, literal: &GroundLiteral) -> Option<usize>
    ensures { result ≡ (if (if literal.now.positive then true else not true)
        then position (same_atom literal.now.atom) atoms.now else None) }
{
    if literal.positive {
        atoms.place_of(&literal.atom)
    } else {
        None
    }
}

/// Returns the indices of the atoms of the goal.
fn goal_places(alloc: Global, index: &ActionIndex<'_>) -> Result<Vec<usize>, AllocError>
    ensures { IfOk result (λ places. places.items ≡ literal_places index.now.atoms true index.now.task.goal) }
{
    let atoms = index.atoms();
    index
        .task()
        .goal
        .iter()
        .filter_map(|literal| place_of_goal(atoms, literal))
        .collect(alloc)
}

/// Returns for each atom, by its index, whether it is a goal.
fn goal_flags(alloc: Global, index: &ActionIndex<'_>) -> Result<Vec<bool>, AllocError>
    ensures { IfOk result (λ flags. AreGoals index.now flags.items) }
{
    let places = goal_places(alloc, index)?;
    set_flags(alloc, index.atoms().as_slice().len(), &places)
}

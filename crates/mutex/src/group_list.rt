//! Lists of distinct groups.

ghost use Rattle.std.specs.Prelude.{◌≡◌, ◌≢◌, ◌<◌, ◌&&◌, if◌then◌else◌, [], length, slice_get, AllPairs, All, OnOk};
ghost use Rattle.std.proofs.Common.{rules};
ghost use Rattle.std.specs.Cmp.Rules.{comparing, hashing};
ghost use Rattle.std.specs.Hash as fed;
ghost use Rattle.std.specs.List.Sorted.{IsStrictlyIncreasing};
ghost use Rattle.pddl_task.specs.Atoms.{same_numbers};
ghost use Rattle.mutex.specs.Candidates.{is_proposal};
ghost use Rattle.mutex.specs.Proposals.{is_movable, with_group};

use indexmap::IndexSet;
use mutex_index::ActionIndex;
use std::alloc::{AllocError, Global};
use std::hash::{Hash, Hasher};
use std::marker::Model;

/// A group of atoms, represented by their indices.
#[derive(Debug, Drop)]
pub struct Group {
    places: Vec<usize>,
}

impl Model for Group {
    ghost use Rattle.std.specs.Prelude.{ℕ, List};

    ghost Value = { List ℕ };

    ghost view = { λ g. g.places.items };
}

impl Group {
    /// Returns the indices, in order.
    pub fn places(&self) -> &[usize]
        ensures { result.now ≡ self.now }
    {
        self.places.as_slice()
    }
}

impl PartialEq for Group {
    ghost eq = { same_numbers };

    ghost laws = { Prim.search (comparing, rules) };

    fn eq(&self, other: &Group) -> bool {
        self.places == other.places
    }
}

impl Eq for Group {
    ghost laws = { Prim.search (comparing, rules) };
}

impl Hash for Group {
    ghost hash_input = { fed.slice fed.usize };

    ghost respects_eq = { Prim.search (hashing, rules) };

    fn hash<H: Hasher>(&self, state: &mut H) {
        self.places.hash(state);
    }
}

/// Distinct groups, in order.
#[derive(Drop)]
pub struct Groups {
    set: IndexSet<Group>,
}

impl Model for Groups {
    ghost use Rattle.std.specs.Prelude.{ℕ, List};

    ghost Value = { List (List ℕ) };

    ghost view = { λ g. g.set.keys };
}

impl Groups {
    pub(crate) fn new(alloc: Global) -> Groups
        ensures { result ≡ [] }
    {
        Groups {
            set: IndexSet::new(alloc),
        }
    }

    /// Returns the groups, in order. They are distinct.
    pub fn as_slice(&self) -> &[Group]
        ensures groups { result.now ≡ self.now }
        ensures distinct { AllPairs (λ g h. g ≢ h) self.now }
    {
        self.set.as_slice()
    }

    /// Appends the group if it is not in the list.
    fn push(&mut self, group: Group) -> Result<(), AllocError>
        ensures { OnOk result (self.new ≡ with_group self.old group) }
    {
        self.set.insert(group)?;
        Ok(())
    }

    /// Appends the group of the atoms at these indices if it is a proposal and is not in the list.
    pub(crate) fn offer(
        &mut self,
        alloc: Global,
        index: &ActionIndex<'_>,
        places: &[usize],
    ) -> Result<(), AllocError>
        requires rising { IsStrictlyIncreasing places.now }
        requires within { All (λ p. p < length index.now.atoms) places.now }
        ensures { OnOk result (self.new ≡ (if is_proposal index.now places.now then with_group self.old places.now else self.old)) }
    {
        if !is_proposal(index, places) {
            return Ok(());
        }
        let places = Vec::from_slice(alloc, places)?;
        self.push(Group { places })
    }
}

/// Returns whether there are two or more indices, and their atoms are a usable group.
fn is_proposal(index: &ActionIndex<'_>, places: &[usize]) -> bool
    requires rising { IsStrictlyIncreasing places.now }
    requires within { All (λ p. p < length index.now.atoms) places.now }
    ensures { result ≡ is_proposal index.now places.now }
{
    2 <= places.len() && index.is_usable(places)
}

/// Returns whether there is an atom at index `place`, and it is neither constant nor excluded.
pub(crate) fn is_movable(index: &ActionIndex<'_>, place: usize) -> bool
    ensures { result ≡ is_movable index.now place }
{
    place < index.atoms().len() && !index.is_constant(place) && !index.is_excluded(place)
}

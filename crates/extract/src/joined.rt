//! The end of a search.

ghost use Rattle.std.specs.Prelude.{◌≡◌, IfOk};
ghost use Rattle.fdr.specs.Tasks.{ranges};
ghost use Rattle.owner_theory.specs.Families.{Family, IsSearchSpace, IsLowerBound};
ghost use Rattle.extract.specs.Ends.{EndOf, IsEndOf, IsSettledAnswer, IsBestGoal, IsForm, space_at};
ghost use Rattle.extract.specs.Bounds.{lower_bound};
ghost use Rattle.extract.specs.Views.{all_packets};

use crate::best::first_best;
use crate::packet::Packet;
use crate::settled::{lower_bound, settled_bound};
use cost::Dist;
use owner::{Owner, Space};
use packed::StateForm;
use packed_spread::Spread;
use std::alloc::{AllocError, Global};
use std::collections::VecDeque;
use std::marker::Model;

/// Owners and the messages not taken, at the end of a lawful family: however the owners' events were interleaved, each
/// message that was taken had been handed out, and each bound that was read is at least the least cost that was
/// offered.
#[derive(Drop)]
pub struct Joined<'a, S: Spread + Drop, F: StateForm + Drop> {
    space: &'a Space<'a, S>,
    owners: Vec<Owner<'a, S, F>>,
    /// The messages not taken, in a queue for each owner, the oldest first.
    left: Vec<VecDeque<Packet<F>>>,
    ghost lawful: { ∥ ((family : Family) × IsEndOf S.owner
        (record { space = space.now; owners = owners.items; left = all_packets (F.values (ranges space.now.task)) left.items }) family) ∥₁ },
    ghost form: { IsForm (record { space = space.now; owners = owners.items; left = all_packets (F.values (ranges space.now.task)) left.items }) },
}

impl<'a, S: Spread + Drop, F: StateForm + Drop> Model for Joined<'a, S, F> {
    ghost use Rattle.fdr.specs.Tasks.{ranges};
    ghost use Rattle.extract.specs.Ends.{EndOf};
    ghost use Rattle.extract.specs.Views.{all_packets};

    ghost Value = { EndOf S };

    ghost view = { λ j. record { space = j.space.now; owners = j.owners.items; left = all_packets (F.values (ranges j.space.now.task)) j.left.items } };
}

impl<'a, S: Spread + Drop, F: StateForm + Drop> Joined<'a, S, F> {
    /// Returns the end of a lawful family, from the space, the owners and the messages that were not taken.
    pub fn new(
        space: &'a Space<'a, S>,
        owners: Vec<Owner<'a, S, F>>,
        left: Vec<VecDeque<Packet<F>>>,
    ) -> Joined<'a, S, F>
        requires lawful { ∥ ((family : Family) × IsEndOf S.owner
            (record { space = space.now; owners = owners.items; left = all_packets (F.values (ranges space.now.task)) left.items }) family) ∥₁ }
        requires form { IsForm (record { space = space.now; owners = owners.items; left = all_packets (F.values (ranges space.now.task)) left.items }) }
        ensures { result ≡ record { space = space.now; owners = owners.entry.items; left = all_packets (F.values (ranges space.now.task)) left.items } }
    {
        Joined {
            space,
            owners,
            left,
        }
    }

    /// Returns the bound at which the family is settled: the least cost at which a goal state was taken, infinite if
    /// none was, provided that no pending f-value is below it. Returns `None` if the family is not settled.
    pub fn settled(&self, alloc: Global) -> Result<Option<Dist>, AllocError>
        ensures { IfOk result (IsSettledAnswer (space_at S.owner self.now) self.now.owners self.now.left) }
    {
        settled_bound(alloc, self.space, &self.owners, &self.left)
    }

    /// Returns the lower bound: no plan costs less, whether the family is settled or not. It is the lesser of the least
    /// cost at which a goal state was taken and the least pending f-value, infinite if there is neither; a finite one
    /// is at most 2^62.
    pub fn lower_bound(&self, alloc: Global) -> Result<Dist, AllocError>
        ensures { IfOk result (λ bound. bound ≡ lower_bound S.owner self.now) }
    {
        lower_bound(alloc, self.space, &self.owners, &self.left)
    }

    /// Returns the worker and the index of a goal node of least cost, or `None` if there is no goal node. Among equal
    /// costs it is the one of the lowest worker, and there of the lowest index.
    pub fn best(&self, alloc: Global) -> Result<Option<(usize, usize)>, AllocError>
        ensures { IfOk result (IsBestGoal self.now) }
    {
        self.recall();
        first_best(alloc, self.space, &self.owners)
    }

    /// Returns the space that was searched.
    pub fn space(&self) -> &'a Space<'a, S>
        ensures { result.now ≡ self.now.space }
    {
        self.space
    }

    /// Returns the owners, in the order of their numbers.
    pub fn owners(&self) -> &[Owner<'a, S, F>]
        ensures { result.now ≡ self.now.owners }
    {
        &self.owners
    }

    /// Proves the type's invariant, which holds of every end: it is the end of a lawful family, each owner has this
    /// space and its own number, the space is a search space, and the heuristic of a state is at most the cost of any
    /// operators from it to a goal state. Only for the proof.
    pub fn recall(&self)
        ensures lawful { ∥ ((family : Family) × IsEndOf S.owner self.now family) ∥₁ }
        ensures form { IsForm self.now }
        ensures space { IsSearchSpace (space_at S.owner self.now) }
        ensures lower { IsLowerBound self.now.space.task (space_at S.owner self.now).heuristic }
    {
        // only for the proof: reading a field makes the type's invariant available
        self.owners[0].recall();
    }
}

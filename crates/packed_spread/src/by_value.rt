//! Owners by the value of one variable.

ghost use Rattle.std.specs.Prelude.{◌≡◌, ◌<◌, All, length};
ghost use Rattle.fdr.specs.Tasks.{with_values};
ghost use Rattle.packed_spread.specs.Spreads as spec;

use crate::spread::Spread;
use fdr::{Fact, FdrTask};
use std::marker::Model;

/// The spread by which the owner of a state is the value of variable 0 modulo the number of owners, and 0 for a task
/// without variables. All states with the same value of variable 0 have the same owner, so at most as many owners have
/// states as that variable has values. In contracts its value is the task.
#[derive(Drop)]
pub struct ByValue<'a> {
    task: &'a FdrTask,
}

impl<'a> Model for ByValue<'a> {
    ghost use Rattle.fdr.specs.Tasks.{FiniteDomainTask};

    ghost Value = { FiniteDomainTask };

    ghost view = { λ b. b.task.now };
}

impl<'a> ByValue<'a> {
    /// Returns the spread for the task.
    pub fn new(task: &'a FdrTask) -> ByValue<'a>
        ensures { result ≡ task.now }
    {
        ByValue { task }
    }
}

/// Returns the owner, by the value of variable 0, of the state in which the variables of these facts have the facts'
/// values, and all others their value in `state`.
fn value_owner_after(state: &[u32], facts: &[Fact], owners: usize) -> usize
    requires facts { All (λ f. f.variable < length state.now) facts.now }
    requires some { 0 < owners }
    ensures { result ≡ spec.value_owner (with_values facts.now state.now) owners }
{
    if state.is_empty() {
        return 0;
    }
    let mut value = state[0];
    for fact in facts {
        if fact.variable == 0 {
            value = fact.value;
        }
    }
    value as usize % owners
}

impl<'a> Spread for ByValue<'a> {
    ghost use Rattle.fdr.specs.Tasks as tasks;
    ghost use Rattle.packed_spread.specs.Spreads.{value_owner};
    ghost use Rattle.packed_spread.specs.OwnerLaws.{value_owner_is_below};

    ghost ranges = { λ b. tasks.ranges b };

    ghost owner = { λ b. value_owner };

    ghost state_hash = { λ _ _. 0 };

    ghost is_below = { λ b. value_owner_is_below };

    fn owner_of(&self, state: &[u32], owners: usize) -> usize {
        match state.first() {
            Some(value) => *value as usize % owners,
            None => 0,
        }
    }

    fn hash_of(&self, state: &[u32]) -> u64 {
        let _ = state;
        0 // the owner of a changed state is found without it
    }

    fn owner_after(&self, state: &[u32], hash: u64, facts: &[Fact], owners: usize) -> usize {
        let _ = hash;
        value_owner_after(state, facts, owners)
    }
}

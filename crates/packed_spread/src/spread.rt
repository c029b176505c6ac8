//! The trait of spreads.

use fdr::Fact;

/// A rule that assigns each state of a task to one of several owners (Kishimoto, Fukunaga and Botea 2013).
pub trait Spread {
    ghost use Rattle.std.specs.Prelude.{◌≡◌, ℕ, ◌<◌, List};
    ghost use Rattle.fdr.specs.Tasks.{IsState, IsAssignment, with_values};

    /// The number of values of each variable of the task.
    ghost ranges: { Self → List ℕ };

    /// The owner of a state, given the number of owners.
    ghost owner: { Self → List ℕ → ℕ → ℕ };

    /// A hash of each state, from which the owners of states that differ from it in some variables are computed
    /// incrementally.
    ghost state_hash: { Self → List ℕ → ℕ };

    /// Returns the owner of a state of the task, given the number of owners.
    fn owner_of(&self, state: &[u32], owners: usize) -> usize
        requires some { 0 < owners }
        requires state { IsState (ranges self.now) state.now }
        ensures value { result ≡ owner self.now state.now owners }
        ensures below { result < owners };

    /// Returns the hash of a state of the task that `owner_after` takes.
    fn hash_of(&self, state: &[u32]) -> u64
        requires { IsState (ranges self.now) state.now }
        ensures { result ≡ state_hash self.now state.now };

    /// Returns the owner, given the number of owners, of the state in which the variables of these facts have the
    /// facts' values, and all others their value in `state`; `hash` is the result of `hash_of` for `state`.
    fn owner_after(&self, state: &[u32], hash: u64, facts: &[Fact], owners: usize) -> usize
        requires some { 0 < owners }
        requires state { IsState (ranges self.now) state.now }
        requires hash { hash ≡ state_hash self.now state.now }
        requires facts { IsAssignment (ranges self.now) facts.now }
        ensures value { result ≡ owner self.now (with_values facts.now state.now) owners }
        ensures below { result < owners };

    /// The owner is below the number of owners.
    ghost is_below: { (s : Self) (state : List ℕ) (owners : ℕ) → 0 < owners → owner s state owners < owners };
}

//! Progress of a worker.

ghost use Rattle.std.specs.Prelude.{◌≡◌, length};
ghost use Rattle.owner.specs.Owned.{least_open, space_of};
ghost use Rattle.owner_theory.specs.Worlds.{waiting};
ghost use Rattle.packed.specs.Fields.{word_count};
ghost use Rattle.worker.specs.Turns.{is_to_expand};
ghost use Rattle.fdr.specs.Tasks.{ranges};

use cost::Dist;
use packed::StateForm;
use packed_spread::Spread;
use worker::Worker;

/// The progress of a worker, which a gate receives before each of its turns.
#[derive(Clone, Copy, Debug, PartialEq, Eq)]
pub struct Progress {
    /// The number of states that its owner stores.
    pub states: usize,
    /// The number of messages in its outboxes.
    pub messages: u128,
    /// The number of 64-bit words that the packed values of a state take.
    pub words: usize,
    /// The least f-value of the states that its owner has yet to expand, infinite if there is none.
    pub least_open: Dist,
    /// The least cost at which its owner has taken a goal state, infinite if it has taken none.
    pub best: Dist,
    /// Whether the turn expands a state, as far as is known before it: its outboxes are not congested, and its owner
    /// has a state to expand whose f-value is below the bound that it read last. In the turn the worker may read a
    /// lesser bound first, or take a message of a state that is then expanded.
    pub expands: bool,
}

/// Returns the progress of this worker.
pub(crate) fn progress_of<'a, S: Spread + Drop, F: StateForm + Drop>(
    worker: &Worker<'a, S, F>,
) -> Progress
    ensures states { result.states ≡ length worker.now.owner.nodes }
    ensures messages { result.messages ≡ waiting worker.now.owner.outboxes }
    ensures words { result.words ≡ word_count (ranges worker.now.owner.space.task) }
    ensures least_open { result.least_open ≡ least_open (space_of S.owner worker.now.owner) worker.now.owner.nodes }
    ensures best { result.best ≡ worker.now.owner.best }
    ensures expands { result.expands ≡ is_to_expand S.owner worker.now }
{
    let owner = worker.owner();
    Progress {
        states: owner.len(),
        messages: owner.messages(),
        words: owner.space().layout().word_count(),
        least_open: owner.least_open(),
        best: owner.best_goal(),
        expands: worker.is_to_expand(),
    }
}

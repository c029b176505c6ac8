//! Whether the owners of a team are settled.

ghost use Rattle.std.specs.Prelude.{◌≡◌, [], map, length, IfOk};
ghost use Rattle.cost.specs.Distances.{least};
ghost use Rattle.owner.specs.Spaces.{searched};
ghost use Rattle.extract.specs.Ends.{IsSettledAnswer};
ghost use Rattle.extract.specs.Pending.{least_held};
ghost use Rattle.engine.specs.Teams.{AreMembers};

use crate::drain::recall_each;
use crate::team::Team;
use cost::Dist;
use extract::least_of_owner;
use owner::Space;
use packed::StateForm;
use packed_spread::Spread;
use std::alloc::{AllocError, Global};
use worker::Worker;

/// Returns the least cost at which the owner of any of these workers has taken a goal state, infinite if none has.
fn best_goal<S: Spread + Drop, F: StateForm + Drop>(workers: &[Worker<'_, S, F>]) -> Dist
    ensures { result ≡ least (map (λ w. w.owner.best) workers.now) }
{
    let mut best = Dist::inf();
    for worker in workers {
        best = best.min(worker.best_goal());
    }
    best
}

/// Returns the least f-value that is pending at the owner of any of these workers, all of this space; `state` is a
/// buffer.
fn least_pending<S: Spread + Drop, F: StateForm + Drop>(
    space: &Space<'_, S>,
    workers: &[Worker<'_, S, F>],
    state: &mut [u32],
) -> Dist
    requires members { AreMembers space.now workers.now }
    requires buffer { length state.old ≡ length space.now.task.value_names }
    ensures { result ≡ least (map (λ w. least_held S.owner w.owner) workers.now) }
{
    let mut least = Dist::inf();
    for worker in workers {
        worker.recall();
        least = least.min(least_of_owner(worker.owner(), worker.workers(), state));
    }
    least
}

impl<'a, S: Spread + Drop, F: StateForm + Drop> Team<'a, S, F> {
    /// Returns the bound at which the owners are settled, not counting messages in rings: the least cost at which a
    /// goal state was taken, infinite if none was, provided that no pending f-value is below it. Returns `None` if they
    /// are not settled.
    pub fn settled(&self, alloc: Global) -> Result<Option<Dist>, AllocError>
        ensures { IfOk result (IsSettledAnswer (searched S.owner self.now.space (length self.now.workers)) (map (λ w. w.owner) self.now.workers) []) }
    {
        let mut state = vec![in alloc; 0u32; self.space.task().variable_count()]?;
        recall_each(&self.workers);
        let best = best_goal(&self.workers);
        if best <= least_pending(self.space, &self.workers, &mut state) {
            Ok(Some(best))
        } else {
            Ok(None)
        }
    }
}

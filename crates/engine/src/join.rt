//! The end of a search.

ghost use Rattle.std.specs.Prelude.{◌≡◌, [], map, IfOk};
ghost use Rattle.engine.specs.Teams.{AreEmpty};

use crate::drain::recall_each;
use crate::team::Team;
use extract::Joined;
use owner::Owner;
use packed::StateForm;
use packed_spread::Spread;
use std::alloc::{AllocError, Global};
use worker::Worker;

/// Returns the owners of these workers.
fn owners_of<'a, S: Spread + Drop, F: StateForm + Drop>(
    alloc: Global,
    workers: Vec<Worker<'a, S, F>>,
) -> Result<Vec<Owner<'a, S, F>>, AllocError>
    ensures { IfOk result (λ owners. owners.items ≡ map (λ w. w.owner) workers.entry.items) }
{
    let mut owners = Vec::with_capacity(alloc, workers.len())?;
    for worker in workers {
        owners.push(worker.into_parts().owner)?;
    }
    Ok(owners)
}

impl<'a, S: Spread + Drop, F: StateForm + Drop> Team<'a, S, F> {
    /// Returns the owners as the end of a search. No message may be left in a ring.
    pub fn into_joined(self, alloc: Global) -> Result<Joined<'a, S, F>, AllocError>
        requires { AreEmpty F.values self }
        ensures space { IfOk result (λ j. j.space ≡ self.entry.space) }
        ensures owners { IfOk result (λ j. j.owners ≡ map (λ w. w.owner) self.entry.workers) }
        ensures left { IfOk result (λ j. j.left ≡ []) }
    {
        let Team { space, workers, .. } = self;
        recall_each(&workers);
        workers[0].owner().recall();
        let owners = owners_of(alloc, workers)?;
        Ok(Joined::new(space, owners, Vec::new(alloc)))
    }
}

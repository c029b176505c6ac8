//! Asks a worker of a team to expand a node, between rounds.

ghost use Rattle.std.specs.Prelude.{◌≡◌, ◌<◌, length, IfOk};
ghost use Rattle.cost.specs.Distances.{lesser};
ghost use Rattle.owner.specs.Spaces.{SpaceOf};
ghost use Rattle.engine.specs.Teams.{AreMembers};
ghost use Rattle.engine.specs.Asking.{AreAsked, IsAsked};

use crate::team::Team;
use board::Board;
use cost::Dist;
use owner::OwnerFault;
use packed::StateForm;
use packed_spread::Spread;
use std::alloc::{AllocError, Global};
use worker::Worker;

/// Makes the worker read this bound, from a new board on which only it was offered.
fn tell<S: Spread + Drop, F: StateForm + Drop>(
    alloc: Global,
    worker: &mut Worker<'_, S, F>,
    bound: Dist,
) -> Result<(), AllocError>
    ensures { IfOk result (λ _. worker.new ≡ record worker.old { bound = bound; seen = lesser worker.old.seen bound }) }
{
    let (board, mut seat) = Board::new(alloc)?;
    board.offer(&mut seat, bound);
    worker.look(&board, &mut seat);
    let _closed = board.close(seat);
    Ok(())
}

/// Makes worker `number` read this bound, and expand the next node below it, if there is one. Returns the owner's fault
/// if it refused.
fn expand_at<S: Spread + Drop, F: StateForm + Drop>(
    alloc: Global,
    workers: &mut Vec<Worker<'_, S, F>>,
    number: usize,
    bound: Dist,
) -> Result<Option<OwnerFault>, AllocError>
    requires number { number < length workers.old.items }
    requires members { (space : SpaceOf S) × AreMembers space workers.old.items }
    ensures { IfOk result (AreAsked S.owner number bound workers.old.items workers.new.items) }
{
    let worker = &mut workers[number];
    tell(alloc, worker, bound)?;
    let refused = match worker.expand() {
        Ok(_) => None,
        Err(OwnerFault::OutOfMemory) => return Err(AllocError),
        Err(OwnerFault::LimitReached) => Some(OwnerFault::LimitReached),
        Err(OwnerFault::TotalTooLarge) => Some(OwnerFault::TotalTooLarge),
    };
    worker.begin_round(); // what it has put into outboxes is counted when the next round begins
    Ok(refused)
}

impl<'a, S: Spread + Drop, F: StateForm + Drop> Team<'a, S, F> {
    /// Makes worker `number` read the least cost that was offered, and asks it to expand the next node below it.
    /// Returns the team, and the fault for which the owner refused, if it did; then the owner is unchanged. If
    /// allocation fails, the team is lost.
    pub fn ask(
        self,
        alloc: Global,
        number: usize,
    ) -> Result<(Team<'a, S, F>, Option<OwnerFault>), AllocError>
        requires { number < length self.workers }
        ensures { IfOk result (IsAsked S.owner number self.entry) }
    {
        let Team {
            space,
            mut workers,
            best,
        } = self;
        let refused = expand_at(alloc, &mut workers, number, best)?;
        Ok((
            Team {
                space,
                workers,
                best,
            },
            refused,
        ))
    }
}

//! Empties the rings between workers, between rounds, while no other thread has a worker.

ghost use Rattle.std.specs.Prelude.{◌≡◌, ◌≢◌, ℕ, ◌+◌, ◌<◌, ◌≤◌, [], length, IfOk};
ghost use Rattle.std.specs.List.{insert};
ghost use Rattle.fdr.specs.Tasks.{ranges};
ghost use Rattle.owner_theory.specs.Owners.{At};
ghost use Rattle.owner.specs.Spaces.{SpaceOf};
ghost use Rattle.worker.specs.Workers.{WorkerOf, values_in, IsKept};
ghost use Rattle.engine.specs.Teams.{AreMembers};
ghost use Rattle.engine.specs.Draining.{AreLookedAt, IsLinkMatched, IsLinkEmptied, AreLinksEmptied, AreDrained, IsDrained};

use crate::team::Team;
use packed::StateForm;
use packed_spread::Spread;
use std::alloc::AllocError;
use worker::Worker;

/// Proves the invariant of all workers. Only for the proof.
pub(crate) fn recall_each<S: Spread + Drop, F: StateForm + Drop>(workers: &Vec<Worker<'_, S, F>>)
    ensures { (v : ℕ) (w : WorkerOf S F) → At workers.now.items v w → IsKept S.owner F.values w }
{
    for worker in workers {
        worker.recall();
    }
}

/// Returns the index of worker `from` among all workers but worker `to`.
fn place_beside(from: usize, to: usize) -> usize
    requires { from ≢ to }
    ensures before { from < to → result ≡ from }
    ensures behind { to ≤ from → result + 1 ≡ from }
{
    if from < to { from } else { from - 1 }
}

/// Returns the number of messages in the ring from worker `from` to the receiver, which is worker `to` and not among
/// `others`.
fn match_link<'a, S: Spread + Drop, F: StateForm + Drop>(
    others: &mut Vec<Worker<'a, S, F>>,
    receiver: &mut Worker<'a, S, F>,
    from: usize,
    to: usize,
) -> usize
    requires from { from ≤ length others.old.items }
    requires to { to ≤ length others.old.items }
    requires members { (space : SpaceOf S) × AreMembers space (insert others.old.items to receiver.old) }
    ensures { IsLinkMatched S.owner from to (insert others.old.items to receiver.old) (insert others.new.items to receiver.new) result }
{
    if from == to {
        return receiver.match_own_link();
    }
    let place = place_beside(from, to);
    others[place].match_link(receiver)
}

/// Matches both ends of each link to the receiver. Only for the proof that the receiver has set no message aside.
fn match_links<'a, S: Spread + Drop, F: StateForm + Drop>(
    others: &mut Vec<Worker<'a, S, F>>,
    receiver: &mut Worker<'a, S, F>,
    to: usize,
)
    requires to { to ≤ length others.old.items }
    requires members { (space : SpaceOf S) × AreMembers space (insert others.old.items to receiver.old) }
    ensures looked { AreLookedAt S.owner (insert others.old.items to receiver.old) (insert others.new.items to receiver.new) }
    ensures none_aside { receiver.new.misfits ≡ [] }
{
    for from in 0..receiver.workers() {
        let _ = match_link(others, receiver, from, to);
    }
    recall_each(others);
    receiver.recall();
    receiver.owner().recall();
}

/// Makes the receiver take all messages in the ring from worker `from`.
fn empty_ring<'a, S: Spread + Drop, F: StateForm + Drop>(
    others: &mut Vec<Worker<'a, S, F>>,
    receiver: &mut Worker<'a, S, F>,
    from: usize,
    to: usize,
) -> Result<(), AllocError>
    requires from { from ≤ length others.old.items }
    requires to { to ≤ length others.old.items }
    requires members { (space : SpaceOf S) × AreMembers space (insert others.old.items to receiver.old) }
    requires none_aside { receiver.old.misfits ≡ [] }
    ensures { IfOk result (λ _. IsLinkEmptied S.owner (values_in F.values receiver.old) from to
        (insert others.old.items to receiver.old) (insert others.new.items to receiver.new)) }
{
    let waiting = match_link(others, receiver, from, to);
    for _ in 0..waiting {
        receiver.begin_round(); // what is taken here is counted in no round
        let _ = receiver.receive(from)?;
        let _ = match_link(others, receiver, from, to);
        recall_each(others);
        receiver.recall();
        receiver.owner().recall();
    }
    Ok(())
}

/// Makes the receiver take all messages in the rings to it.
fn empty_rings<'a, S: Spread + Drop, F: StateForm + Drop>(
    others: &mut Vec<Worker<'a, S, F>>,
    receiver: &mut Worker<'a, S, F>,
    to: usize,
) -> Result<(), AllocError>
    requires to { to ≤ length others.old.items }
    requires members { (space : SpaceOf S) × AreMembers space (insert others.old.items to receiver.old) }
    ensures { IfOk result (λ _. AreLinksEmptied S.owner (values_in F.values receiver.old) (length (insert others.old.items to receiver.old)) to
        (insert others.old.items to receiver.old) (insert others.new.items to receiver.new)) }
{
    match_links(others, receiver, to);
    for from in 0..receiver.workers() {
        empty_ring(others, receiver, from, to)?;
    }
    Ok(())
}

/// Makes worker `to` take all messages in the rings to it.
fn empty_rings_to<S: Spread + Drop, F: StateForm + Drop>(
    workers: &mut Vec<Worker<'_, S, F>>,
    to: usize,
) -> Result<(), AllocError>
    requires to { to < length workers.old.items }
    requires members { (space : SpaceOf S) × AreMembers space workers.old.items }
    ensures { IfOk result (λ _. (space : SpaceOf S) → AreMembers space workers.old.items →
        AreLinksEmptied S.owner (F.values (ranges space.task)) (length workers.old.items) to workers.old.items workers.new.items) }
{
    let mut receiver = workers.remove(to);
    empty_rings(workers, &mut receiver, to)?;
    workers.insert(to, receiver)?;
    Ok(())
}

/// Makes each of these workers take all messages in the rings to it.
fn empty_all<S: Spread + Drop, F: StateForm + Drop>(
    workers: &mut Vec<Worker<'_, S, F>>,
) -> Result<(), AllocError>
    requires { (space : SpaceOf S) × AreMembers space workers.old.items }
    ensures { IfOk result (λ _. (space : SpaceOf S) → AreMembers space workers.old.items →
        AreDrained S.owner (F.values (ranges space.task)) (length workers.old.items) workers.old.items workers.new.items) }
{
    for to in 0..workers.len() {
        empty_rings_to(workers, to)?;
    }
    Ok(())
}

impl<'a, S: Spread + Drop, F: StateForm + Drop> Team<'a, S, F> {
    /// Makes each worker take the messages that were left in the rings to it: those from worker 0 first, and of each
    /// sender the oldest first. Returns the team; if allocation fails, it is lost.
    pub fn drain(self) -> Result<Team<'a, S, F>, AllocError>
        ensures { IfOk result (IsDrained S.owner F.values self.entry) }
    {
        let Team {
            space,
            mut workers,
            best,
        } = self;
        empty_all(&mut workers)?;
        Ok(Team {
            space,
            workers,
            best,
        })
    }
}

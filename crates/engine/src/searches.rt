//! Multi-threaded searches.

ghost use Rattle.std.specs.Prelude.{◌≡◌, ◌<◌, [], None, length, map, All, IfOk, IfErr};
ghost use Rattle.fdr.specs.Tasks.{ranges};
ghost use Rattle.owner.specs.Spaces.{searched};
ghost use Rattle.extract.specs.Ends.{IsSettledAnswer};
ghost use Rattle.engine.specs.Teams.{AreEmpty};
ghost use Rattle.engine.specs.Searches.{IsSearched, IsSearchFault};
ghost use Rattle.engine.specs.Steps.{no_stop, IsHalt, IsTeamIn, IsOutcome};

use crate::fault::EngineFault;
use crate::halt::{Halt, halt_of};
use crate::searched::{Cause, Searched};
use crate::team::{Parts, Team};
use engine_round::{Gate, RoundEnd, round};
use owner::{OwnerFault, Space};
use packed::StateForm;
use packed_spread::Spread;
use std::alloc::Global;
use std::sync::Wait;
use std::thread::Threads;
use std::time::Clock;

/// The outcome of a round.
enum Outcome<'a, S: Spread + Drop, F: StateForm + Drop> {
    /// Another round follows, of this team.
    Next(Team<'a, S, F>),
    /// The search ends.
    Last(Searched<'a, S, F>),
}

/// Runs a round of the team's workers; returns the team and why the round ended while units of work were left, if it
/// did. Fails with `Gate` if the gate makes the search fail, or if allocation fails; then the team is lost.
fn play<
    'a,
    R: Threads + Wait + Clock + Sync,
    S: Spread + Drop + Send + Sync,
    F: StateForm + Drop + Send,
    G: Gate + Sync,
>(
    rt: &R,
    alloc: Global,
    team: Team<'a, S, F>,
    gate: &G,
) -> Result<(Team<'a, S, F>, Option<Halt>), EngineFault>
    requires { All (λ w. w.misfits ≡ []) team.workers }
    ensures team { IfOk result (λ r. IsTeamIn team.entry.space (length team.entry.workers) r.0) }
    ensures halt { IfOk result (λ r. IsHalt (G.may_stop gate.now) (length team.entry.workers) r.1) }
    ensures fault { IfErr result (IsSearchFault S.owner (G.may_stop gate.now) team.entry.space (length team.entry.workers)) }
{
    let Parts {
        space,
        workers,
        best,
    } = team.into_parts();
    let end = round(rt, alloc, best, workers, gate)?;
    let RoundEnd {
        workers,
        best,
        fault,
    } = end;
    let halt = halt_of(fault)?;
    Ok((Team::of_workers(space, workers, best), halt))
}

/// Returns the outcome of a round after which the owners are not settled and in which a worker's owner refused to
/// expand a node: the owner is asked again, because it may have taken messages and read a bound since then. Fails with
/// `TotalTooLarge` if it refuses again for that reason, or if allocation fails.
fn after_refusal<'a, S: Spread + Drop, F: StateForm + Drop>(
    alloc: Global,
    team: Team<'a, S, F>,
    number: usize,
) -> Result<Outcome<'a, S, F>, EngineFault>
    requires number { number < length team.workers }
    requires none_aside { All (λ w. w.misfits ≡ []) team.workers }
    requires empty { AreEmpty F.values team }
    requires unsettled { IsSettledAnswer (searched S.owner team.space (length team.workers)) (map (λ w. w.owner) team.workers) [] None }
    ensures outcome { IfOk result (IsOutcome S.owner no_stop team.entry.space (length team.entry.workers)) }
    ensures fault { IfErr result (IsSearchFault S.owner no_stop team.entry.space (length team.entry.workers)) }
{
    let (team, refused) = team.ask(alloc, number)?;
    match refused {
        None => Ok(Outcome::Next(team)),
        Some(OwnerFault::LimitReached) => {
            let joined = team.into_joined(alloc)?;
            joined.recall(); // the end of a lawful family
            Ok(Outcome::Last(Searched::Stopped(joined, Cause::Limit)))
        }
        Some(OwnerFault::TotalTooLarge) => {
            team.into_joined(alloc)?.recall();
            Err(EngineFault::TotalTooLarge)
        }
        Some(OwnerFault::OutOfMemory) => Err(EngineFault::OutOfMemory),
    }
}

/// Runs a round, empties the rings, and returns the outcome. Fails as `search` does.
fn step<
    'a,
    R: Threads + Wait + Clock + Sync,
    S: Spread + Drop + Send + Sync,
    F: StateForm + Drop + Send,
    G: Gate + Sync,
>(rt: &R, alloc: Global, team: Team<'a, S, F>, gate: &G) -> Result<Outcome<'a, S, F>, EngineFault>
    requires { All (λ w. w.misfits ≡ []) team.workers }
    ensures outcome { IfOk result (IsOutcome S.owner (G.may_stop gate.now) team.entry.space (length team.entry.workers)) }
    ensures fault { IfErr result (IsSearchFault S.owner (G.may_stop gate.now) team.entry.space (length team.entry.workers)) }
{
    let (played, halt) = play(rt, alloc, team, gate)?;
    let drained = played.drain()?;
    if drained.settled(alloc)?.is_some() {
        let joined = drained.into_joined(alloc)?;
        joined.recall(); // the end of a lawful family
        return Ok(Outcome::Last(Searched::Settled(joined)));
    }
    match halt {
        None => Ok(Outcome::Next(drained)),
        Some(Halt::Refused(number)) => after_refusal(alloc, drained, number),
        Some(Halt::ByGate(cause)) => {
            let joined = drained.into_joined(alloc)?;
            joined.recall(); // the end of a lawful family
            Ok(Outcome::Last(Searched::Stopped(joined, cause)))
        }
    }
}

/// Searches a space with `workers` workers, each in a thread of its own, with a link from each to each that has room
/// for `capacity` messages (for 1 if that is 0): runs rounds of turns until the owners are settled, one of them has
/// reached its limit, or the gate ends the search or its stage. States of the task have the form `F`. If workers stop
/// for several reasons in one round, that of the lowest worker counts.
///
/// Fails with `TotalTooLarge` if a path would have a cost or a number of operators above 2^62 (the contract states this
/// of some end of a search, not of this one), with `Gate` if the gate makes it fail, or if allocation fails.
/// Termination is not guaranteed: an unfair scheduler may keep every worker from making progress.
pub fn search<
    'a,
    R: Threads + Wait + Clock + Sync,
    S: Spread + Drop + Send + Sync,
    F: StateForm + Drop + Send,
    G: Gate + Sync,
>(
    rt: &R,
    alloc: Global,
    space: &'a Space<'a, S>,
    workers: usize,
    capacity: usize,
    gate: &G,
) -> Result<Searched<'a, S, F>, EngineFault>
    requires workers { 0 < workers }
    requires fits { F.Fits (ranges space.now.task) }
    ensures searched { IfOk result (IsSearched S.owner (G.may_stop gate.now) space.now workers) }
    ensures fault { IfErr result (IsSearchFault S.owner (G.may_stop gate.now) space.now workers) }
{
    let mut team = Team::start(alloc, space, workers, capacity)?;
    for _ in rt.forever() {
        match step(rt, alloc, team, gate)? {
            Outcome::Next(next) => team = next,
            Outcome::Last(end) => return Ok(end),
        }
    }
    unreachable!()
}

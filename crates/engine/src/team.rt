//! The team.

ghost use Rattle.std.specs.Prelude.{◌≡◌, ℕ, ◌<◌, length, max, IfOk};
ghost use Rattle.fdr.specs.Tasks.{ranges};
ghost use Rattle.links.specs.Tables.{rows};
ghost use Rattle.engine.specs.Teams.{IsTeam, IsFirstTeam, AreFreshLinks, AreFirstWorkers};

use cost::Dist;
use links::LinkTable;
use owner::Space;
use packed::StateForm;
use packed_spread::Spread;
use std::alloc::{AllocError, Global};
use std::marker::Model;
use worker::Worker;

/// The workers of a search in the order of their numbers, each with a link to each, and the least cost that any of them
/// has offered.
#[derive(Drop)]
pub struct Team<'a, S: Spread + Drop, F: StateForm + Drop> {
    pub(crate) space: &'a Space<'a, S>,
    pub(crate) workers: Vec<Worker<'a, S, F>>,
    pub(crate) best: Dist,
}

impl<'a, S: Spread + Drop, F: StateForm + Drop> Model for Team<'a, S, F> {
    ghost use Rattle.engine.specs.Teams.{TeamOf, IsTeam};

    ghost Value = { TeamOf S F };

    ghost view = { λ t. record { space = t.space.now; workers = t.workers.items; best = t.best } };

    ghost invariant = { λ t. IsTeam (record { space = t.space.now; workers = t.workers.items; best = t.best }) };
}

/// The parts of a team.
#[derive(Drop)]
pub struct Parts<'a, S: Spread + Drop, F: StateForm + Drop> {
    /// The search space.
    pub space: &'a Space<'a, S>,
    /// The workers, in the order of their numbers.
    pub workers: Vec<Worker<'a, S, F>>,
    /// The least cost that any of them has offered, infinite if none was.
    pub best: Dist,
}

/// Returns the workers at the start, from the ends of their links.
fn first_workers<'a, S: Spread + Drop, F: StateForm + Drop>(
    alloc: Global,
    space: &'a Space<'a, S>,
    links: LinkTable<F>,
) -> Result<Vec<Worker<'a, S, F>>, AllocError>
    requires fits { F.Fits (ranges space.now.task) }
    requires links { (capacity : ℕ) × AreFreshLinks capacity (length links.outs.items) (rows links.outs.items) (rows links.ins.items) }
    ensures { IfOk result (λ workers. AreFirstWorkers space.now (length links.outs.items) (rows links.outs.items) (rows links.ins.items) workers.items) }
{
    let count = links.outs.len();
    let mut workers = Vec::with_capacity(alloc, count)?;
    for (outs, ins) in links.outs.into_iter().zip(links.ins) {
        let number = workers.len();
        workers.push(Worker::start(alloc, space, number, count, outs, ins)?)?;
    }
    Ok(workers)
}

impl<'a, S: Spread + Drop, F: StateForm + Drop> Team<'a, S, F> {
    /// Creates `workers` workers at the start, with a link from each to each that has room for `capacity` messages (for
    /// 1 if that is 0). States of the task have the form `F`.
    pub fn start(
        alloc: Global,
        space: &'a Space<'a, S>,
        workers: usize,
        capacity: usize,
    ) -> Result<Team<'a, S, F>, AllocError>
        requires workers { 0 < workers }
        requires fits { F.Fits (ranges space.now.task) }
        ensures { IfOk result (IsFirstTeam space.now workers (max capacity 1)) }
    {
        let links = LinkTable::new(alloc, workers, capacity.max(1))?;
        Ok(Team {
            space,
            workers: first_workers(alloc, space, links)?,
            best: Dist::inf(),
        })
    }

    /// Returns the team of these workers of a space; `best` is the least cost that any of them has offered.
    pub fn of_workers(
        space: &'a Space<'a, S>,
        workers: Vec<Worker<'a, S, F>>,
        best: Dist,
    ) -> Team<'a, S, F>
        requires { IsTeam (record { space = space.now; workers = workers.items; best = best }) }
        ensures { result ≡ record { space = space.now; workers = workers.entry.items; best = best } }
    {
        Team {
            space,
            workers,
            best,
        }
    }

    /// Returns the parts of the team.
    pub fn into_parts(self) -> Parts<'a, S, F>
        ensures space { result.space.now ≡ self.entry.space }
        ensures workers { result.workers.items ≡ self.entry.workers }
        ensures best { result.best ≡ self.entry.best }
        ensures team { IsTeam self.entry }
    {
        let Team {
            space,
            workers,
            best,
        } = self;
        Parts {
            space,
            workers,
            best,
        }
    }

    /// Returns the workers, in the order of their numbers.
    pub fn workers(&self) -> &[Worker<'a, S, F>]
        ensures { result.now ≡ self.now.workers }
    {
        &self.workers
    }

    /// Returns the least cost that any of them has offered, infinite if none was.
    pub fn best(&self) -> Dist
        ensures { result ≡ self.now.best }
    {
        self.best
    }
}

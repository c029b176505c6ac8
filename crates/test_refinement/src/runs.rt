//! Runs of refinement as a caller makes them.

ghost use Rattle.std.specs.Prelude.{◌≡◌, ◌≤◌, ◌^◌};

use fdr::FdrTask;
use pdb_refinement::{Kind, Limits, Refined, Refiner, banned_variables, considered_goals};
use rand_xoshiro::SplitMix64;
use std::alloc::{AllocError, Global};

/// Limits that no small task meets.
pub const LARGE: Limits = Limits {
    states: 100_000,
    transitions: 10_000_000,
    work: 100_000_000,
};

/// Makes run `number`, with at most 2^24 abstract states and at least 1.
pub(crate) fn run(
    alloc: Global,
    task: &FdrTask,
    kind: Kind,
    limits: &Limits,
    number: u64,
    words: &mut SplitMix64,
) -> Result<Refined, AllocError> {
    let limits = Limits {
        states: limits.states.max(1).min(16_777_216),
        transitions: limits.transitions,
        work: limits.work,
    };
    let refiner = Refiner::new(alloc, task)?;
    let considered = considered_goals(alloc, task, number, words)?;
    let banned = banned_variables(alloc, task, &considered, number, words)?;
    refiner.refine(alloc, &considered, &banned, kind, &limits, words)
}

//! Sampled states of a task, by which orders are made and compared (Seipp, Keller and Helmert 2020).

ghost use Rattle.std.specs.Prelude.{◌≡◌, ◌≤◌, ℕ};
ghost use Rattle.fdr.specs.Tasks.{ranges, IsState};

use crate::pool::Pool;
use crate::walks::{heads, walk_end};
use fdr_successors::SuccessorGenerator;
use rand_core::{Rng, SeedableRng};
use rand_xoshiro::SplitMix64;
use rayon::prelude::*;
use std::alloc::{AllocError, Global};
use std::thread::Threads;

/// The least number of walks for which a thread is begun.
const WALKS_OF_A_THREAD: usize = 64;

/// Returns the abstract state in each entry of the pool of the last state of a random walk. All its random choices come
/// from the seed. Its length is the number of heads in four times as many tosses of a coin as a plan is estimated to
/// have operators (Seipp, Keller and Helmert 2020).
fn walked(
    alloc: Global,
    pool: &Pool<'_>,
    generator: &SuccessorGenerator<'_>,
    plan_length: usize,
    seed: u64,
) -> Result<Vec<u32>, AllocError>
    requires generator { generator.now ≡ pool.now.task.now }
    requires length { plan_length ≤ 10000 }
{
    let mut words = SplitMix64::seed_from_u64(seed);
    let length = heads(&mut words, 4 * plan_length);
    let mut applicable = Vec::new(alloc);
    let mut state = Vec::new(alloc);
    walk_end(
        pool.task,
        generator,
        length,
        &mut words,
        &mut applicable,
        &mut state,
    )?;
    let mut abstract_states = Vec::new(alloc);
    pool.abstract_states(&state, &mut abstract_states)?;
    Ok(abstract_states)
}

/// Returns the abstract states of `walked` for each of these seeds, in their order. The walks are made in parallel.
fn all_walked<R: Threads + Sync>(
    rt: &R,
    alloc: Global,
    pool: &Pool<'_>,
    generator: &SuccessorGenerator<'_>,
    plan_length: usize,
    seeds: &[u64],
) -> Result<Vec<Vec<u32>>, AllocError>
    requires generator { generator.now ≡ pool.now.task.now }
    requires length { plan_length ≤ 10000 }
{
    seeds
        .par_iter()
        .with_min_len(WALKS_OF_A_THREAD)
        .map(
            |seed: &u64| -> Result<Vec<u32>, AllocError>
                requires generator { generator.now ≡ pool.now.task.now }
                requires length { plan_length ≤ 10000 }
            { walked(alloc, pool, generator, plan_length, *seed) },
        )
        .collect::<Result<Vec<Vec<u32>>, AllocError>>(rt, alloc)?
}

/// Sampled states, in none of which an abstraction of the pool has an infinite distance, so that they may be on a
/// plan.
#[derive(Drop)]
pub struct Samples {
    /// For each entry of the pool, the abstract state of each sample.
    pub abstract_states: Vec<Vec<u32>>,
    /// The number of samples.
    pub count: usize,
    /// For each entry of the pool, whether a state was dropped because its distance there is infinite.
    pub has_dead_end: Vec<bool>,
}

impl Samples {
    /// Returns no samples, with room for `count` of them, for a pool of this many abstractions.
    pub fn new(alloc: Global, entries: usize, count: usize) -> Result<Samples, AllocError> {
        let mut abstract_states = Vec::with_capacity(alloc, entries)?;
        for _ in 0..entries {
            abstract_states.push(Vec::with_capacity(alloc, count)?)?;
        }
        Ok(Samples {
            abstract_states,
            count: 0,
            has_dead_end: vec![in alloc; false; entries]?,
        })
    }

    /// Returns whether the state with these abstract states has an infinite distance in an abstraction, and marks each
    /// abstraction in which it has.
    fn mark_dead_end(&mut self, pool: &Pool<'_>, abstract_states: &[u32]) -> bool {
        let mut is_dead_end = false;
        for (index, entry) in pool.entries.iter().enumerate() {
            if let Some(state) = abstract_states.get(index) {
                if entry.height(*state).is_none() && index < self.has_dead_end.len() {
                    self.has_dead_end[index] = true;
                    is_dead_end = true;
                }
            }
        }
        is_dead_end
    }

    /// Appends the state with these abstract states.
    fn append(&mut self, abstract_states: &[u32]) -> Result<(), AllocError> {
        let lists = self.abstract_states.iter_mut();
        for (list, state) in lists.zip(abstract_states) {
            list.push(*state)?;
        }
        self.count = self.count.saturating_add(1);
        Ok(())
    }

    /// Appends the state with these abstract states, unless its distance is infinite in an abstraction, which is marked
    /// then.
    fn append_if_alive(
        &mut self,
        pool: &Pool<'_>,
        abstract_states: &[u32],
    ) -> Result<(), AllocError> {
        if !self.mark_dead_end(pool, abstract_states) {
            self.append(abstract_states)?;
        }
        Ok(())
    }

    /// Adds a state of the task, unless its distance is infinite in an abstraction, which is marked then.
    /// `abstract_states` is a buffer. After an error some of the lists may have the state and others not.
    pub fn add(
        &mut self,
        pool: &Pool<'_>,
        state: &[u32],
        abstract_states: &mut Vec<u32>,
    ) -> Result<(), AllocError>
        requires { IsState (ranges pool.now.task.now) state.now }
    {
        pool.abstract_states(state, abstract_states)?;
        self.append_if_alive(pool, abstract_states)
    }

    /// Adds the last states of this many random walks from the initial state, whose lengths are about twice the number
    /// of operators that a plan is estimated to have. Threads make the walks; the samples do not depend on their number.
    /// After an error the last state may be in some of the lists only.
    pub fn add_walks<R: Threads + Sync>(
        &mut self,
        rt: &R,
        alloc: Global,
        pool: &Pool<'_>,
        walks: usize,
        plan_length: usize,
        words: &mut SplitMix64,
    ) -> Result<(), AllocError>
        requires { plan_length ≤ 10000 }
    {
        let generator = SuccessorGenerator::new(alloc, pool.task)?;
        let first = words.next_u64();
        let mut seeds = Vec::with_capacity(alloc, walks)?;
        for number in 0..walks {
            seeds.push(first.wrapping_sub(number as u64))?;
        }
        for abstract_states in &all_walked(rt, alloc, pool, &generator, plan_length, &seeds)? {
            self.append_if_alive(pool, abstract_states)?;
        }
        Ok(())
    }
}

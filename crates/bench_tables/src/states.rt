//! The states whose lower bounds are evaluated.

ghost use Rattle.std.specs.Prelude.{◌≡◌, length, All, IfOk};
ghost use Rattle.fdr.specs.Tasks.{ranges, IsState};

use fdr::FdrTask;
use rand_core::{Rng, SeedableRng};
use rand_xoshiro::SplitMix64;
use std::alloc::{AllocError, Global};

/// The number of random states.
const STATES: usize = 1000;

/// Returns a state with random values.
fn draw_state(
    alloc: Global,
    task: &FdrTask,
    generator: &mut SplitMix64,
) -> Result<Vec<u32>, AllocError>
    ensures { IfOk result (λ state. IsState (ranges task.now) state.items) }
{
    task.recall();
    let mut state = Vec::with_capacity(alloc, task.variable_count())?;
    for variable in 0..task.variable_count() {
        let value = generator.next_u64() % task.range(variable) as u64;
        state.push(u32::try_from(value).unwrap_or(0))?;
    }
    Ok(state)
}

/// Returns 1000 states with random values from SplitMix64 (Steele, Lea and Flood 2014), seed 1, state by state.
pub(crate) fn draw_states(alloc: Global, task: &FdrTask) -> Result<Vec<Vec<u32>>, AllocError>
    ensures len { IfOk result (λ states. length states.items ≡ 1000) }
    ensures states { IfOk result (λ states. All (λ state. IsState (ranges task.now) state.items) states.items) }
{
    let mut generator = SplitMix64::seed_from_u64(1);
    let mut states = Vec::with_capacity(alloc, STATES)?;
    for _ in 0..STATES {
        states.push(draw_state(alloc, task, &mut generator)?)?;
    }
    Ok(states)
}

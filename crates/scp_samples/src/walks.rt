//! Random walks from the initial state (Seipp, Keller and Helmert 2020).

ghost use Rattle.std.specs.Prelude.{◌≡◌, ◌<◌, ◌≤◌, OnOk};
ghost use Rattle.fdr.specs.Tasks.{ranges, IsState};

use fdr::FdrTask;
use fdr_successors::SuccessorGenerator;
use rand_core::Rng;
use rand_xoshiro::SplitMix64;
use std::alloc::{AllocError, Global};

/// The estimated number of operators of a plan is at most this.
const MAX_ESTIMATE: u128 = 10_000;

/// The estimate if the heuristic value of the initial state is 0.
const DEFAULT_ESTIMATE: usize = 10;

/// Returns a random number below `count`.
pub fn below(words: &mut SplitMix64, count: usize) -> usize
    requires { 0 < count }
    ensures { result < count }
{
    let word = words.next_u64() >> 11; // the low bits are the weakest
    (word % count as u64) as usize
}

/// Returns the sum of the costs of all operators.
fn total_cost(task: &FdrTask) -> u128 {
    let mut sum: u128 = 0;
    for operator in 0..task.operator_count() {
        sum = sum.saturating_add(u128::from(task.cost(operator).get()));
    }
    sum
}

/// Returns the estimated number of operators of a plan of cost `h`, a heuristic value of the initial state: the
/// quotient by the mean cost of an operator, rounded up, from 1 to 10,000. It is 10 if `h` or the cost of every
/// operator is 0.
pub fn plan_length(task: &FdrTask, h: u64) -> usize
    ensures { result ≤ 10000 }
{
    let sum = total_cost(task);
    if h == 0 || sum == 0 {
        return DEFAULT_ESTIMATE;
    }
    let count = task.operator_count() as u128;
    let estimate = u128::from(h).saturating_mul(count).div_ceil(sum);
    estimate.clamp(1, MAX_ESTIMATE) as usize
}

/// Returns the number of heads in this many tosses of a coin.
pub(crate) fn heads(words: &mut SplitMix64, tosses: usize) -> usize {
    let mut count: usize = 0;
    for _ in 0..tosses {
        if below(words, 2) == 1 {
            count = count.saturating_add(1);
        }
    }
    count
}

/// Replaces the content of `state` by the last state of a random walk of at most this length from the initial state. It
/// ends early in a state in which no operator applies. `applicable` is a buffer.
pub(crate) fn walk_end(
    task: &FdrTask,
    generator: &SuccessorGenerator<'_>,
    length: usize,
    words: &mut SplitMix64,
    applicable: &mut Vec<usize>,
    state: &mut Vec<u32>,
) -> Result<(), AllocError>
    requires { generator.now ≡ task.now }
    ensures { OnOk result (IsState (ranges task.now) state.new.items) }
{
    task.recall();
    state.clear();
    state.extend_from_slice(task.initial())?;
    for _ in 0..length {
        generator.applicable(state, applicable)?;
        if applicable.is_empty() {
            break;
        }
        let operator = applicable[below(words, applicable.len())];
        task.apply(operator, state);
    }
    Ok(())
}

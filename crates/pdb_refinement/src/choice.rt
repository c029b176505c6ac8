//! Random choices.

ghost use Rattle.std.specs.Prelude.{◌≡◌, ◌<◌, ◌%◌, true, false, length, slice_index_or, All, Contains, IfOk};
ghost use Rattle.std.specs.List.{range_with_len};
ghost use Rattle.std.specs.List.Sorted.{IsPermutation};
ghost use Rattle.pdb_refinement.specs.Refinements.{AllowsConsidered};

use fdr::{Fact, FdrTask};
use pdb_flaws::{is_set, number_below};
use rand_xoshiro::SplitMix64;
use std::alloc::{AllocError, Global};

/// The numbers below `count`, in order.
fn numbers_below(alloc: Global, count: usize) -> Result<Vec<usize>, AllocError>
    ensures { IfOk result (λ numbers. numbers.items ≡ range_with_len 0 count) }
{
    let mut numbers = Vec::with_capacity(alloc, count)?;
    for number in 0..count {
        numbers.push(number)?;
    }
    Ok(numbers)
}

/// The numbers below `count` in random order (Fisher and Yates 1938).
fn shuffled(alloc: Global, count: usize, words: &mut SplitMix64) -> Result<Vec<usize>, AllocError>
    ensures { IfOk result (λ order. IsPermutation (range_with_len 0 count) order.items) }
{
    let mut order = numbers_below(alloc, count)?;
    for done in 1..count {
        let position = count - done;
        let other = number_below(words, position + 1);
        order.swap(position, other);
    }
    Ok(order)
}

/// This many flags, of which those at the indices are set.
fn flags_at(alloc: Global, count: usize, indices: &[usize]) -> Result<Vec<bool>, AllocError>
    requires { All (λ i. i < count) indices.now }
    ensures len { IfOk result (λ flags. length flags.items ≡ count) }
    ensures set { IfOk result (λ flags. All (λ i. slice_index_or flags.items i false ≡ true) indices.now) }
{
    let mut flags = vec![in alloc; false; count]?;
    for index in indices {
        flags[*index] = true;
    }
    Ok(flags)
}

/// Chooses the goals that run `run` of refinement considers: all in run 0, and in each other run a random number of
/// them, at least 1 if there is one, chosen at random. The result has one entry for each fact of the goal.
pub fn considered_goals(
    alloc: Global,
    task: &FdrTask,
    run: u64,
    words: &mut SplitMix64,
) -> Result<Vec<bool>, AllocError>
    ensures len { IfOk result (λ considered. length considered.items ≡ length task.now.goal) }
    ensures first { IfOk result (λ considered. run ≡ 0 → All (λ c. c ≡ true) considered.items) }
    ensures some { IfOk result (λ considered. 0 < length task.now.goal → Contains considered.items true) }
{
    let count = task.goal().len();
    if run == 0 {
        let all = vec![in alloc; true; count]?;
        return Ok(all);
    }
    let chosen = number_below(words, count).saturating_add(1).min(count);
    let order = shuffled(alloc, count, words)?;
    let considered = flags_at(alloc, count, &order[..chosen])?;
    Ok(considered)
}

/// Unsets the flag of the variable of each considered fact.
fn allow(goal: &[Fact], considered: &[bool], banned: &mut [bool])
    ensures { AllowsConsidered goal.now considered.now banned.new }
{
    for position in 0..goal.len() {
        let variable = goal[position].variable;
        if is_set(considered, position) && variable < banned.len() {
            banned[variable] = false;
        }
    }
}

/// Chooses the variables that run `run` of refinement does not split: none in even runs. In odd runs a random p from
/// 0 to 99 is chosen, and then each variable with a probability of p percent, except those of considered goals. The
/// result has one entry for each variable.
pub fn banned_variables(
    alloc: Global,
    task: &FdrTask,
    considered: &[bool],
    run: u64,
    words: &mut SplitMix64,
) -> Result<Vec<bool>, AllocError>
    ensures len { IfOk result (λ banned. length banned.items ≡ length task.now.value_names) }
    ensures even { IfOk result (λ banned. run % 2 ≡ 0 → All (λ b. b ≡ false) banned.items) }
    ensures allowed { IfOk result (λ banned. AllowsConsidered task.now.goal considered.now banned.items) }
{
    let mut banned = vec![in alloc; false; task.variable_count()]?;
    if run % 2 == 0 {
        return Ok(banned);
    }
    let percent = number_below(words, 100);
    for is_banned in banned.iter_mut() {
        *is_banned = number_below(words, 100) < percent;
    }
    allow(task.goal(), considered, &mut banned);
    Ok(banned)
}

//! One word for each value of each variable.

ghost use Rattle.std.specs.Prelude.{◌≡◌, ◌+◌, ◌<◌, ◌≤◌, length, sum, IfOk, OnOk};
ghost use Rattle.fdr.specs.Tasks.{ranges};
ghost use Rattle.packed_spread.specs.Drawn.{IsDrawn};
ghost use Rattle.packed_spread.specs.Projections.{cleared, cleared_unless, projected, projected_words};
ghost use Rattle.packed_spread.specs.Spreads as spec;

use crate::projection::projection_of;
use fdr::FdrTask;
use rand_core::{Rng, SeedableRng};
use rand_xoshiro::SplitMix64;
use std::alloc::{AllocError, Global};

/// The seed of the random words.
const SEED: u64 = 1;

/// The words of all variables, one variable after the other, and the index of each variable's first word.
#[derive(Drop)]
pub(crate) struct Words {
    pub(crate) words: Vec<u64>,
    pub(crate) firsts: Vec<usize>,
}

/// Appends `count` random words.
fn draw(generator: &mut SplitMix64, count: usize, words: &mut Vec<u64>) -> Result<(), AllocError>
    requires { IsDrawn 1 words.old.items generator.old }
    ensures drawn { OnOk result (IsDrawn 1 words.new.items generator.new) }
    ensures count { OnOk result (length words.new.items ≡ length words.old.items + count) }
{
    for _ in 0..count {
        words.push(generator.next_u64())?;
    }
    Ok(())
}

/// Returns a random word for each value of each variable of a task, in the order of variables and then of values.
pub(crate) fn words_of(alloc: Global, task: &FdrTask) -> Result<Words, AllocError>
    ensures words { IfOk result (λ made. made.words.items ≡ spec.splitmix_words 1 (sum (ranges task.now))) }
    ensures firsts { IfOk result (λ made. made.firsts.items ≡ spec.firsts_of (ranges task.now)) }
{
    let mut generator = SplitMix64::seed_from_u64(SEED);
    let mut words = Vec::new(alloc);
    let mut firsts = Vec::new(alloc);
    for variable in 0..task.variable_count() {
        firsts.push(words.len())?;
        draw(&mut generator, task.range(variable), &mut words)?;
    }
    Ok(Words { words, firsts })
}

/// Sets `count` words to 0, from index `first` on.
fn clear(words: &mut [u64], first: usize, count: usize)
    requires { first + count ≤ length words.old }
    ensures { words.new ≡ cleared words.old first count }
{
    for value in 0..count {
        words[first + value] = 0;
    }
}

/// Sets the words of a variable to 0 unless it is chosen. `firsts` has the indices of the variables' first words.
fn clear_unless_chosen(
    task: &FdrTask,
    chosen: &[usize],
    variable: usize,
    firsts: &[usize],
    words: &mut [u64],
)
    requires variable { variable < length task.now.value_names }
    requires words { length words.old ≡ sum (ranges task.now) }
    requires firsts { firsts.now ≡ spec.firsts_of (ranges task.now) }
    ensures words { words.new ≡ cleared_unless (ranges task.now) chosen.now words.old variable }
{
    if !chosen.contains(&variable) {
        clear(words, firsts[variable], task.range(variable));
    }
}

/// Sets the words of all variables that are not chosen to 0. `firsts` has the indices of the variables' first words.
fn clear_others(task: &FdrTask, chosen: &[usize], firsts: &[usize], words: &mut [u64])
    requires words { length words.old ≡ sum (ranges task.now) }
    requires firsts { firsts.now ≡ spec.firsts_of (ranges task.now) }
    ensures words { words.new ≡ projected (ranges task.now) chosen.now words.old }
    ensures long { length words.new ≡ length words.old }
{
    for variable in 0..task.variable_count() {
        clear_unless_chosen(task, chosen, variable, firsts, words);
    }
}

/// Returns the words of the spread by the projection of a task: those of `words_of` for the variables of the
/// projection, and 0 for each value of the others.
pub(crate) fn projected_words_of(alloc: Global, task: &FdrTask) -> Result<Words, AllocError>
    ensures words { IfOk result (λ made. made.words.items ≡ projected_words task.now) }
    ensures firsts { IfOk result (λ made. made.firsts.items ≡ spec.firsts_of (ranges task.now)) }
{
    let chosen = projection_of(alloc, task)?;
    let Words { mut words, firsts } = words_of(alloc, task)?;
    clear_others(task, &chosen, &firsts, &mut words);
    Ok(Words { words, firsts })
}

//! Random tasks.

use abstraction_domain::ClassRow;
use fdr::{Fact, FdrTask, Operator};
use std::alloc::Global;
use std::process::Abort;
use testing_tasks::{fact, operator, task};

/// A generator of pseudo-random numbers: a linear congruential generator (Knuth's MMIX).
#[derive(Drop)]
pub(crate) struct Random {
    state: u64,
}

impl Random {
    pub(crate) fn new(seed: u64) -> Random {
        Random { state: seed }
    }

    /// Returns a number below `bound`, or 0 if that is 0.
    pub(crate) fn below(&mut self, bound: u32) -> u32 {
        self.state = self
            .state
            .wrapping_mul(6_364_136_223_846_793_005)
            .wrapping_add(1_442_695_040_888_963_407);
        let high = (self.state >> 33) as u32;
        if bound == 0 { 0 } else { high % bound }
    }
}

/// Returns facts on some of the variables, on each with this chance out of 8.
fn facts(
    rt: &impl Abort,
    alloc: Global,
    random: &mut Random,
    ranges: &[usize],
    chance: u32,
) -> Vec<Fact> {
    let mut facts = Vec::new(alloc);
    for variable in 0..ranges.len() {
        if random.below(8) < chance && ranges[variable] < 100 {
            let value = random.below(ranges[variable] as u32);
            facts.push(fact(variable, value)).expect(rt, "memory");
        }
    }
    facts
}

/// Returns `count` random operators.
pub(crate) fn operators(
    rt: &impl Abort,
    alloc: Global,
    random: &mut Random,
    ranges: &[usize],
    count: usize,
) -> Vec<Operator> {
    let mut operators = Vec::new(alloc);
    for _ in 0..count {
        let precondition = facts(rt, alloc, random, ranges, 3);
        let effect = facts(rt, alloc, random, ranges, 2);
        let next = operator(alloc, &precondition, &effect).expect(rt, "memory");
        operators.push(next).expect(rt, "memory");
    }
    operators
}

/// Returns the task with these operators, initially 0 everywhere.
pub(crate) fn task_with(
    rt: &impl Abort,
    alloc: Global,
    ranges: &[usize],
    operators: Vec<Operator>,
) -> FdrTask {
    let initial = vec![in alloc; 0u32; ranges.len()].expect(rt, "memory");
    task(alloc, ranges, &initial, &[], operators)
        .expect(rt, "memory")
        .expect(rt, "a task")
}

/// Returns a row with random classes for the values of a variable, at most `most` of them.
pub(crate) fn row(
    rt: &impl Abort,
    alloc: Global,
    random: &mut Random,
    variable: usize,
    range: usize,
    most: u32,
) -> ClassRow {
    let mut classes = Vec::new(alloc);
    let mut next: u32 = 0;
    for _ in 0..range {
        let class = random.below(next.saturating_add(1).min(most));
        classes.push(class).expect(rt, "memory");
        if class == next && next < 1000 {
            next += 1;
        }
    }
    match ClassRow::new(variable, classes) {
        Ok(row) => row,
        Err(_) => panic!(rt; "numbered classes"),
    }
}

//! Random tasks.

use crate::ordering::is_in_walk_order;
use crate::representatives::are_represented;
use crate::tasks::{add, same_optimum};
use fdr::{Fact, FdrTask, Operator};
use reduction::reduce;
use std::alloc::Global;
use std::process::Abort;
use testing_tasks::{fact, task};

/// A generator of pseudo-random numbers: a linear congruential generator (Knuth's MMIX).
#[derive(Drop)]
struct Random {
    state: u64,
}

impl Random {
    /// Returns a number below `bound`, or 0 if that is 0.
    fn below(&mut self, bound: u32) -> u32 {
        self.state = self
            .state
            .wrapping_mul(6_364_136_223_846_793_005)
            .wrapping_add(1_442_695_040_888_963_407);
        let high = (self.state >> 33) as u32;
        if bound == 0 { 0 } else { high % bound }
    }
}

/// Returns facts on some of the variables, on each with this chance out of 8.
fn facts(
    rt: &impl Abort,
    alloc: Global,
    random: &mut Random,
    ranges: &[usize],
    chance: u32,
) -> Vec<Fact> {
    let mut facts = Vec::new(alloc);
    for variable in 0..ranges.len() {
        if random.below(8) < chance && ranges[variable] < 100 {
            let value = random.below(ranges[variable] as u32);
            facts.push(fact(variable, value)).expect(rt, "memory");
        }
    }
    facts
}

/// Returns a random initial state.
fn state(rt: &impl Abort, alloc: Global, random: &mut Random, ranges: &[usize]) -> Vec<u32> {
    let mut values = Vec::new(alloc);
    for range in ranges {
        let value = if *range < 100 {
            random.below(*range as u32)
        } else {
            0
        };
        values.push(value).expect(rt, "memory");
    }
    values
}

/// Returns a random task: at most 5 variables of at most 3 values, and `count` operators.
fn random_task(rt: &impl Abort, alloc: Global, random: &mut Random, count: u32) -> FdrTask {
    let mut ranges = Vec::new(alloc);
    for _ in 0..random.below(4).saturating_add(2) {
        let range = if random.below(8) == 0 {
            1
        } else {
            2 + random.below(2) as usize
        };
        ranges.push(range).expect(rt, "memory");
    }
    let mut operators: Vec<Operator> = Vec::new(alloc);
    let mut precondition = Vec::new(alloc);
    let mut effect = Vec::new(alloc);
    for _ in 0..count {
        // one in four has the conditions and effects of the one before, at another cost
        if random.below(4) > 0 {
            precondition = facts(rt, alloc, random, &ranges, 2);
            effect = facts(rt, alloc, random, &ranges, 3);
        }
        let cost = u64::from(random.below(5));
        add(rt, alloc, &mut operators, &precondition, &effect, cost);
    }
    let initial = state(rt, alloc, random, &ranges);
    let goal = facts(rt, alloc, random, &ranges, 4);
    task(alloc, &ranges, &initial, &goal, operators)
        .expect(rt, "memory")
        .expect(rt, "a task")
}

/// On 300 random tasks, the least cost is that of the reduced task, whose plans are plans of the task, operators have
/// their representatives, and the retained ones are in the order of the successor generator. Each kind of task occurs:
/// solvable or not, with variables or operators left out or without.
#[test]
fn random_tasks(rt: HostRuntime) {
    let alloc = rt.alloc();
    let mut random = Random { state: 1 };
    let mut solvable = 0u32;
    let mut with_less = 0u32;
    let mut with_all = 0u32;
    let mut with_steps = 0u32;
    for _ in 0..300 {
        let count = random.below(15).saturating_add(6);
        let task = random_task(&rt, alloc, &mut random, count);
        let reduction = reduce(alloc, &task).expect(&rt, "memory");
        are_represented(&rt, alloc, &task, &reduction);
        is_in_walk_order(&rt, alloc, &reduction);
        let cost = same_optimum(&rt, alloc, &task, &reduction);
        if cost.is_some() {
            solvable = solvable.saturating_add(1);
        }
        if cost.unwrap_or(0) > 0 {
            with_steps = with_steps.saturating_add(1);
        }
        if reduction.task.variable_count() < task.variable_count() {
            with_less = with_less.saturating_add(1);
        } else {
            with_all = with_all.saturating_add(1);
        }
    }
    assert!(rt;
        solvable > 150 && solvable < 250,
        "solvable and unsolvable tasks"
    );
    assert!(rt; with_steps > 50, "plans that cost something");
    assert!(rt;
        with_less > 100 && with_all > 100,
        "tasks with variables left out, and without"
    );
}

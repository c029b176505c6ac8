//! Tables of random abstractions, compared with the algorithm of Bellman and Ford.

ghost use Rattle.std.specs.Prelude.{◌≡◌, ◌<◌, length, IfOk};

use crate::comparison::{NONE, agrees, graph_of};
use crate::graph::Graph;
use abstraction::Abstraction;
use pdb::Scratch;
use rand_core::{Rng, SeedableRng};
use rand_xoshiro::SplitMix64;
use std::alloc::Global;
use std::process::Abort;
use std::test::*;

/// What a random abstraction has.
#[derive(Clone, Copy)]
struct Range {
    /// The number of abstract states.
    states: u64,
    /// The number of classes.
    classes: u64,
    /// The number of operators.
    operators: u64,
    /// One target in this many exists.
    gaps: u64,
    /// One abstract state in this many is a goal.
    goals: u64,
    /// The least cost.
    least: u64,
    /// The number of different costs.
    costs: u64,
}

/// Returns a random number below `bound`.
fn number_below(generator: &mut SplitMix64, bound: u64) -> u64
    requires { 0 < bound }
    ensures { result < bound }
{
    generator.next_u64() % bound
}

/// Returns a random abstraction.
fn random_graph(
    rt: &impl Abort,
    alloc: Global,
    generator: &mut SplitMix64,
    range: Range,
) -> Result<Graph, Fail> {
    assert!(rt; 0 < range.gaps && 0 < range.goals && 0 < range.states);
    assert!(rt; range.states < 100 && range.classes < 100);
    let mut goals = Vec::new(alloc);
    for _ in 0..range.states {
        goals.push(number_below(generator, range.goals) == 0)?;
    }
    let mut kinds = Vec::new(alloc);
    for _ in 0..range.operators {
        kinds.push(number_below(generator, range.classes + 1) as u32)?;
    }
    let mut targets = Vec::new(alloc);
    for _ in 0..range.classes * range.states {
        let exists = number_below(generator, range.gaps) == 0;
        let target = number_below(generator, range.states);
        let chosen = if exists { target } else { range.states };
        targets.push(chosen as u32)?;
    }
    graph_of(rt, alloc, goals, range.classes as usize, kinds, targets)
}

/// Returns random costs of the operators.
fn random_costs(
    rt: &impl Abort,
    alloc: Global,
    generator: &mut SplitMix64,
    range: Range,
) -> Result<Vec<u32>, Fail> {
    assert!(rt; 0 < range.costs && range.costs <= 2_147_483_648);
    assert!(rt; range.least <= 2_147_483_648 - range.costs);
    let mut costs = Vec::new(alloc);
    for _ in 0..range.operators {
        costs.push((range.least + number_below(generator, range.costs)) as u32)?;
    }
    Ok(costs)
}

/// Relaxes the transitions of all operators once.
fn relax(graph: &Graph, costs: &[u32], values: &mut [u64])
    requires { length values.old ≡ length graph.now.goals }
{
    for state in 0..values.len() {
        for operator in 0..costs.len() {
            if let Some(next) = graph.transition(state, operator) {
                let total = values[next].saturating_add(u64::from(costs[operator]));
                values[state] = values[state].min(total);
            }
        }
    }
}

/// Returns the distances by the algorithm of Bellman and Ford.
fn bellman_ford(alloc: Global, graph: &Graph, costs: &[u32]) -> Result<Vec<u64>, Fail>
    ensures { IfOk result (λ values. length values.items ≡ length graph.now.goals) }
{
    let mut values = Vec::new(alloc);
    for state in 0..graph.size() {
        values.push(if graph.is_goal(state) { 0 } else { NONE })?;
    }
    for _ in 0..graph.size() {
        relax(graph, costs, &mut values);
    }
    Ok(values)
}

/// Returns the greatest decrease of the values over the transitions of an operator.
fn greatest_fall(graph: &Graph, values: &[u64], operator: usize) -> u64
    requires { length values.now ≡ length graph.now.goals }
{
    let mut greatest = 0;
    for state in 0..values.len() {
        if let Some(next) = graph.transition(state, operator) {
            if values[state] != NONE && values[next] != NONE {
                greatest = greatest.max(values[state].saturating_sub(values[next]));
            }
        }
    }
    greatest
}

/// Checks the tables of a random abstraction.
fn is_right(
    rt: &impl Abort,
    alloc: Global,
    generator: &mut SplitMix64,
    range: Range,
    scratch: &mut Scratch,
) -> Result<(), Fail> {
    let graph = random_graph(rt, alloc, generator, range)?;
    let costs = random_costs(rt, alloc, generator, range)?;
    let expected = bellman_ford(alloc, &graph, &costs)?;
    let mut saturated = Vec::new(alloc);
    for operator in 0..costs.len() {
        let fall = greatest_fall(&graph, &expected, operator);
        saturated.push(u32::try_from(fall).expect(rt, "a share"))?;
    }
    agrees(rt, alloc, &graph, &costs, &expected, &saturated, scratch)
}

/// Least costs, and numbers of different costs.
const COSTS: &[(u64, u64)] = &[
    (0, 1),
    (1, 1),
    (0, 3),
    (0, 100),
    (2_147_483_640, 8),
    (0, 2_147_483_648),
];

#[test]
fn tables_are_those_of_bellman_and_ford(rt: HostRuntime) -> Result<(), Fail> {
    let alloc = rt.alloc();
    let mut generator = SplitMix64::seed_from_u64(7);
    let mut scratch = Scratch::new(alloc)?;
    for _ in 0..100 {
        for (least, costs) in COSTS {
            let range = Range {
                states: 1 + number_below(&mut generator, 20),
                classes: number_below(&mut generator, 6),
                operators: number_below(&mut generator, 12),
                gaps: 1 + number_below(&mut generator, 8),
                goals: 1 + number_below(&mut generator, 12),
                least: *least,
                costs: *costs,
            };
            is_right(&rt, alloc, &mut generator, range, &mut scratch)?;
        }
    }
    Ok(())
}

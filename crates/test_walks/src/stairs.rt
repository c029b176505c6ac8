//! Tables of staircases, worked out by hand.

use crate::comparison::{NONE, agrees, are_distances, graph_of};
use crate::consistency::is_saturated_by;
use crate::graph::Graph;
use cert_value::Values;
use pdb::{Job, Scratch, build_all};
use std::alloc::Global;
use std::process::Abort;
use std::test::*;
use std::thread::Threads;

/// Returns a staircase: each abstract state is a step, counted from 0 at the bottom. Each of the first `touching`
/// operators maps each step to the one below it by the operator's number plus 1, if there is such a step, and each of
/// the others maps each step to itself.
fn stairs(
    rt: &impl Abort,
    alloc: Global,
    goals: &[bool],
    touching: usize,
    operators: usize,
) -> Result<Graph, Fail> {
    assert!(rt; goals.len() < 100 && touching <= operators && operators < 100);
    let mut kinds = Vec::new(alloc);
    for operator in 0..operators {
        kinds.push(operator as u32)?;
    }
    let mut targets = Vec::new(alloc);
    for operator in 0..touching {
        for step in 0..goals.len() {
            let target = if operator < step {
                step - (operator + 1)
            } else {
                goals.len()
            };
            targets.push(target as u32)?;
        }
    }
    let goals = Vec::from_slice(alloc, goals)?;
    graph_of(rt, alloc, goals, touching, kinds, targets)
}

/// Checks the distances and the saturated shares of a staircase.
fn stairs_agree(
    rt: &impl Abort,
    alloc: Global,
    goals: &[bool],
    touching: usize,
    costs: &[u32],
    expected: &[u64],
    saturated: &[u32],
) -> Result<(), Fail> {
    let graph = stairs(rt, alloc, goals, touching, costs.len())?;
    let mut scratch = Scratch::new(alloc)?;
    agrees(rt, alloc, &graph, costs, expected, saturated, &mut scratch)?;
    agrees(rt, alloc, &graph, costs, expected, saturated, &mut scratch)
}

#[test]
fn finds_distances(rt: HostRuntime) -> Result<(), Fail> {
    let alloc = rt.alloc();
    let ground = [true, false, false, false, false];
    stairs_agree(&rt, alloc, &ground, 1, &[3], &[0, 3, 6, 9, 12], &[3])?;
    stairs_agree(&rt, alloc, &ground, 2, &[3, 4], &[0, 3, 4, 7, 8], &[3, 4])?;
    stairs_agree(&rt, alloc, &ground, 2, &[1, 7], &[0, 1, 2, 3, 4], &[1, 2])?;
    stairs_agree(
        &rt,
        alloc,
        &ground,
        2,
        &[100, 1],
        &[0, 100, 1, 101, 2],
        &[100, 1],
    )?;
    stairs_agree(
        &rt,
        alloc,
        &ground,
        1,
        &[2_147_483_647],
        &[
            0,
            2_147_483_647,
            4_294_967_294,
            6_442_450_941,
            8_589_934_588,
        ],
        &[2_147_483_647],
    )
}

#[test]
fn takes_operators_that_cost_nothing_or_do_not_touch(rt: HostRuntime) -> Result<(), Fail> {
    let alloc = rt.alloc();
    let ground = [true, false, false, false, false];
    stairs_agree(&rt, alloc, &ground, 2, &[0, 5], &[0, 0, 0, 0, 0], &[0, 0])?;
    stairs_agree(
        &rt,
        alloc,
        &ground,
        1,
        &[2, 9, 0],
        &[0, 2, 4, 6, 8],
        &[2, 0, 0],
    )?;
    stairs_agree(
        &rt,
        alloc,
        &ground,
        0,
        &[7],
        &[0, NONE, NONE, NONE, NONE],
        &[0],
    )
}

#[test]
fn takes_any_goals(rt: HostRuntime) -> Result<(), Fail> {
    let alloc = rt.alloc();
    let middle = [false, false, true, false, false];
    stairs_agree(&rt, alloc, &middle, 1, &[1], &[NONE, NONE, 0, 1, 2], &[1])?;
    let two = [false, true, false, false, true];
    stairs_agree(&rt, alloc, &two, 2, &[5, 6], &[NONE, 0, 5, 6, 0], &[5, 6])?;
    let all = [true, true, true, true, true];
    stairs_agree(&rt, alloc, &all, 2, &[5, 6], &[0, 0, 0, 0, 0], &[0, 0])?;
    let none = [false, false, false, false, false];
    stairs_agree(
        &rt,
        alloc,
        &none,
        1,
        &[1],
        &[NONE, NONE, NONE, NONE, NONE],
        &[0],
    )
}

#[test]
fn a_single_state_has_a_table(rt: HostRuntime) -> Result<(), Fail> {
    let alloc = rt.alloc();
    stairs_agree(&rt, alloc, &[true], 1, &[3], &[0], &[0])?;
    stairs_agree(&rt, alloc, &[false], 1, &[3, 4], &[NONE], &[0, 0])
}

#[test]
fn costs_are_left_for_the_next_table(rt: HostRuntime) -> Result<(), Fail> {
    let alloc = rt.alloc();
    let mut scratch = Scratch::new(alloc)?;
    let first = stairs(&rt, alloc, &[true, false, false, false, false], 2, 2)?;
    agrees(
        &rt,
        alloc,
        &first,
        &[1, 7],
        &[0, 1, 2, 3, 4],
        &[1, 2],
        &mut scratch,
    )?;
    let second = stairs(&rt, alloc, &[true, false, false], 2, 2)?;
    agrees(
        &rt,
        alloc,
        &second,
        &[0, 5],
        &[0, 0, 0],
        &[0, 0],
        &mut scratch,
    )
}

/// Checks the saturated shares of a table of a staircase, which is consistent and not of distances.
fn stairs_need(
    rt: &impl Abort,
    alloc: Global,
    goals: &[bool],
    shares: &[u32],
    values: &[u64],
    saturated: &[u32],
) -> Result<(), Fail> {
    let graph = stairs(rt, alloc, goals, shares.len(), shares.len())?;
    is_saturated_by(rt, alloc, &graph, shares, values, saturated)
}

/// The distances are 0 1 2.
#[test]
fn a_table_of_zeros_needs_no_shares(rt: HostRuntime) -> Result<(), Fail> {
    stairs_need(
        &rt,
        rt.alloc(),
        &[true, false, false],
        &[1],
        &[0, 0, 0],
        &[0],
    )
}

/// The distances are 0 3 6 9 with one operator, and 0 3 4 7 with two. The first operator goes down one step and the
/// second two steps, so that the values 0 1 3 4 decrease by 1, 2 and 1 over the transitions of the first operator, and
/// by 3 and 3 over those of the second.
#[test]
fn values_that_are_too_low_are_saturated(rt: HostRuntime) -> Result<(), Fail> {
    let alloc = rt.alloc();
    let ground = [true, false, false, false];
    stairs_need(&rt, alloc, &ground, &[3], &[0, 1, 3, 4], &[2])?;
    stairs_need(&rt, alloc, &ground, &[3, 4], &[0, 1, 3, 4], &[2, 3])
}

/// The abstract goal has the value 1 in the first table, and an infinite value in the second, whose finite values
/// decrease by 2 and by 1 from one step to the step below it.
#[test]
fn abstract_goals_may_have_any_value(rt: HostRuntime) -> Result<(), Fail> {
    let alloc = rt.alloc();
    let ground = [true, false, false, false];
    stairs_need(&rt, alloc, &ground, &[3], &[1, 2, 4, 5], &[2])?;
    stairs_need(&rt, alloc, &ground, &[3], &[NONE, 3, 4, 6], &[2])
}

/// Checks the values of two tables.
fn are_two_tables(rt: &impl Abort, tables: &[Values]) {
    match tables {
        [first, second] => {
            are_distances(rt, first, &[0, 3, 4, 7]);
            are_distances(rt, second, &[0, 1, 2, 3]);
        }
        _ => panic!(rt; "two tables"),
    }
}

#[test]
fn makes_the_table_of_each_job(rt: HostRuntime) -> Result<(), Fail> {
    let alloc = rt.alloc();
    let graph = stairs(&rt, alloc, &[true, false, false, false], 2, 2)?;
    assert_eq!(rt; graph.operator_count(), 2);
    let jobs = [
        Job {
            abstraction: &graph,
            shares: &[3, 4],
        },
        Job {
            abstraction: &graph,
            shares: &[1, 7],
        },
    ];
    let tables = build_all(&rt, alloc, &jobs).expect(&rt, "memory");
    are_two_tables(&rt, &tables);
    Ok(())
}

/// Returns the number of tables of no job.
fn count_of_no_tables(rt: &(impl Abort + Threads + Sync), alloc: Global) -> usize {
    let none: [Job<'_, Graph>; 0] = [];
    build_all(rt, alloc, &none).expect(rt, "memory").len()
}

#[test]
fn makes_no_table_of_no_job(rt: HostRuntime) {
    assert_eq!(rt; count_of_no_tables(&rt, rt.alloc()), 0);
}

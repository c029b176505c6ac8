//! The order of expansion among nodes of the same f-value, worked out by hand for one owner.

use cost::Dist;
use fdr::FdrTask;
use owner::{Owner, Rank, Space, Ties};
use packed::{Plain, StateForm};
use packed_spread::{ByValue, Spread};
use scp::{choose_columns, make_columns};
use std::alloc::Global;
use std::process::Abort;
use std::test::Fail;
use std::thread::Threads;
use testing_tasks::walk;

/// From 0 to 1 and to 2 at cost 1, from 2 to 3 at no cost, and from 3 to 4, which is the goal.
const SAME_COSTS: &[(u32, u32, u64)] = &[(0, 1, 1), (0, 2, 1), (2, 3, 0), (3, 4, 1)];

/// From 0 over 1 and over 2 to 3, which is the goal, at cost 3 each.
const TWO_WAYS: &[(u32, u32, u64)] = &[(0, 1, 1), (0, 2, 2), (1, 3, 2), (2, 3, 1)];

/// From 0 to 3 at cost 2: by three operators over 1 and 2, and by two operators over 4, which is found later. From 3 to
/// 5, which is the goal.
const SHORTER_WAY: &[(u32, u32, u64)] = &[
    (0, 1, 0),
    (0, 4, 1),
    (1, 2, 0),
    (2, 3, 2),
    (4, 3, 1),
    (3, 5, 1),
];

/// From 0 to 6, to 4 and to 1; from there to 3: over 1 and 2, and over 4 by one operator less, which is found after 3
/// was expanded. From 3 to 5, which is the goal. Only the last operator has a cost.
const REOPENED: &[(u32, u32, u64)] = &[
    (0, 6, 0),
    (0, 4, 0),
    (0, 1, 0),
    (1, 2, 0),
    (2, 3, 0),
    (4, 3, 0),
    (3, 5, 1),
];

/// Expands the next node, and checks that it is the one at this index.
fn expands_at<S: Spread + Drop, F: StateForm + Drop>(
    rt: &impl Abort,
    owner: &mut Owner<'_, S, F>,
    place: usize,
) {
    assert!(rt; place < owner.len(), "the node {place}");
    assert!(rt; !owner.entry(place).expanded, "the node {place} is open");
    assert_eq!(rt; owner.expand(Dist::inf()), Ok(Some(0)));
    assert!(rt; place < owner.len(), "the node {place}");
    assert!(rt; owner.entry(place).expanded, "the node {place} is next");
}

/// Checks that one owner expands the nodes at these indices in this order, and no other, and that the last node that it
/// found has this rank.
fn expands_in_order<'a, S: Spread + Drop>(
    rt: &impl Abort,
    alloc: Global,
    space: &'a Space<'a, S>,
    places: &[usize],
    last: Rank,
) -> Result<(), Fail> {
    let mut owner: Owner<'a, S, Plain> = Owner::start(alloc, space, 0, 1)?;
    for &place in places {
        expands_at(rt, &mut owner, place);
    }
    assert_eq!(rt; owner.expand(Dist::inf()), Ok(None));
    assert!(rt; owner.len() > 0, "a node");
    assert_eq!(rt; owner.entry(owner.len() - 1).rank, last);
    Ok(())
}

/// Runs `expands_in_order` over the task without columns: f is the cost.
fn by_cost<'t, R: Threads + Sync + Abort>(
    rt: &R,
    alloc: Global,
    task: &'t FdrTask,
    ties: Ties,
    places: &[usize],
    last: Rank,
) -> Result<(), Fail> {
    let columns = make_columns(rt, alloc, task, &[])?;
    // the type is given so that the borrow checker need not infer how long the space is borrowed
    let space: Space<'t, ByValue<'t>> = Space::new(
        alloc,
        task,
        columns,
        ByValue::new(task),
        None,
        ties,
    )?;
    expands_in_order(rt, alloc, &space, places, last)
}

/// Runs `expands_in_order` over the task with columns of one table, of its one variable, so that the heuristic is the
/// cost to the goal.
fn by_distance<'t, R: Threads + Sync + Abort>(
    rt: &R,
    alloc: Global,
    task: &'t FdrTask,
    ties: Ties,
    places: &[usize],
    last: Rank,
) -> Result<(), Fail> {
    let columns = choose_columns(rt, alloc, task, 100)?;
    // the type is given so that the borrow checker need not infer how long the space is borrowed
    let space: Space<'t, ByValue<'t>> = Space::new(
        alloc,
        task,
        columns,
        ByValue::new(task),
        None,
        ties,
    )?;
    expands_in_order(rt, alloc, &space, places, last)
}

#[test]
fn nodes_of_the_same_cost(rt: HostRuntime) -> Result<(), Fail> {
    let task = walk(rt.alloc(), 5, 4, SAME_COSTS)?.ok_or("a task")?;
    let last = Rank { cost: 2, steps: 3 };
    // 1 and 2 have the same rank, and 3 has one operator more
    by_cost(
        &rt,
        rt.alloc(),
        &task,
        Ties::Shallow,
        &[0, 1, 2, 3, 4],
        last,
    )?;
    by_cost(&rt, rt.alloc(), &task, Ties::Deep, &[0, 2, 3, 1, 4], last)
}

#[test]
fn nodes_of_the_same_f_value(rt: HostRuntime) -> Result<(), Fail> {
    let task = walk(rt.alloc(), 4, 3, TWO_WAYS)?.ok_or("a task")?;
    let last = Rank { cost: 3, steps: 2 };
    // each node has f-value 3: 1 at cost 1, 2 at cost 2, and the goal at cost 3
    by_distance(&rt, rt.alloc(), &task, Ties::Shallow, &[0, 1, 2, 3], last)?;
    by_distance(&rt, rt.alloc(), &task, Ties::Deep, &[0, 2, 3, 1], last)
}

#[test]
fn a_node_improved_at_the_same_cost(rt: HostRuntime) -> Result<(), Fail> {
    let task = walk(rt.alloc(), 6, 5, SHORTER_WAY)?.ok_or("a task")?;
    // 3 has index 4: its stale entry, of three operators, would come first in the deep order, and 5 would be reached by
    // four operators
    let last = Rank { cost: 3, steps: 3 };
    let places = [0, 1, 3, 2, 4, 5];
    by_cost(&rt, rt.alloc(), &task, Ties::Shallow, &places, last)?;
    by_cost(&rt, rt.alloc(), &task, Ties::Deep, &places, last)
}

#[test]
fn a_node_that_is_reopened(rt: HostRuntime) -> Result<(), Fail> {
    let task = walk(rt.alloc(), 7, 5, REOPENED)?.ok_or("a task")?;
    let last = Rank { cost: 1, steps: 3 };
    // 3 has index 5, and is expanded at two ranks; 6 has index 1, and fewer operators than 3 at each of them
    by_cost(
        &rt,
        rt.alloc(),
        &task,
        Ties::Deep,
        &[0, 3, 4, 5, 2, 5, 1, 6],
        last,
    )?;
    by_cost(
        &rt,
        rt.alloc(),
        &task,
        Ties::Fresh,
        &[0, 3, 4, 5, 2, 1, 5, 6],
        last,
    )
}

//! The order of the retained operators: by their conditions in the reduced task, those on variables with more values
//! first, then by the numbers of variables and values; operators by these lists of facts, one that another list begins
//! with first; operators with equal conditions by number.

use crate::representatives::are_represented;
use crate::tasks::{add, check, task_with};
use fdr::FdrTask;
use fdr_successors::{SuccessorGenerator, walk_order};
use reduction::{Reduction, reduce};
use std::alloc::Global;
use std::process::Abort;
use testing_tasks::fact;

/// Checks that the successor generator of the reduced task lists the operators in the order of their numbers.
pub(crate) fn is_in_walk_order(rt: &impl Abort, alloc: Global, reduction: &Reduction) {
    let order = walk_order(alloc, &reduction.task).expect(rt, "memory");
    for place in 0..order.len() {
        assert_eq!(rt; order[place], place);
    }
}

/// A switch, a dial with three positions, and a lamp that nobody asks for. In the reduced task the conditions of the
/// operators are, those on the dial first, 0: dial 1, switch 1; 1: switch 0; 2: dial 1; 3: none; 4 and 6: dial 0 and
/// switch 0; 5: dial 1. Operators 4 and 6 are equal, and 6 is the cheaper one; 7 switches the lamp.
fn dial(rt: &impl Abort, alloc: Global) -> FdrTask {
    let [off, on] = [fact(0, 0), fact(0, 1)];
    let mut operators = Vec::new(alloc);
    add(
        rt,
        alloc,
        &mut operators,
        &[on, fact(1, 1)],
        &[fact(1, 2)],
        1,
    );
    add(rt, alloc, &mut operators, &[off], &[on], 2);
    add(rt, alloc, &mut operators, &[fact(1, 1)], &[on], 5);
    add(rt, alloc, &mut operators, &[], &[off], 1);
    add(
        rt,
        alloc,
        &mut operators,
        &[fact(1, 0), off],
        &[fact(1, 1)],
        4,
    );
    add(rt, alloc, &mut operators, &[fact(1, 1)], &[off], 1);
    add(
        rt,
        alloc,
        &mut operators,
        &[off, fact(1, 0)],
        &[fact(1, 1)],
        3,
    );
    add(rt, alloc, &mut operators, &[], &[fact(2, 1)], 1);
    task_with(rt, alloc, &[2, 3, 2], &[fact(1, 2)], operators)
}

/// Operators that are given in another order are retained in that of the successor generator. The cheapest plan turns
/// the dial, switches, and turns the dial.
#[test]
fn operators_in_another_order(rt: HostRuntime) {
    let alloc = rt.alloc();
    let task = dial(&rt, alloc);
    let classes: [&[u32]; 3] = [&[0, 1], &[0, 1, 2], &[0, 0]];
    let cost = check(&rt, alloc, &task, &classes, &[3, 1, 6, 2, 5, 0]);
    assert_eq!(rt; cost, Some(6));
}

/// With the dial at 1 the successor generator of the reduced task finds the operator without a condition, then those
/// for the dial, in this order, and of these the one for the switch last.
#[test]
fn applicable_in_order(rt: HostRuntime) {
    let alloc = rt.alloc();
    let task = dial(&rt, alloc);
    let reduction = reduce(alloc, &task).expect(&rt, "memory");
    is_in_walk_order(&rt, alloc, &reduction);
    let generator = SuccessorGenerator::new(alloc, &reduction.task).expect(&rt, "memory");
    let mut found = Vec::new(alloc);
    let state: [u32; 2] = [1, 1];
    assert_eq!(rt; state.len(), reduction.task.variable_count());
    generator
        .applicable(&state, &mut found)
        .expect(&rt, "memory");
    assert_eq!(rt; found.as_slice(), [0, 3, 4, 5].as_slice());
}

/// Representatives are indices in this order: of equal operators both have the one of the cheaper, and the lamp's has
/// none.
#[test]
fn representatives_in_order(rt: HostRuntime) {
    let alloc = rt.alloc();
    let task = dial(&rt, alloc);
    let reduction = reduce(alloc, &task).expect(&rt, "memory");
    are_represented(&rt, alloc, &task, &reduction);
    let want = [
        Some(5),
        Some(1),
        Some(3),
        Some(0),
        Some(2),
        Some(4),
        Some(2),
        None,
    ];
    assert_eq!(rt; reduction.representatives.as_slice(), want.as_slice());
}

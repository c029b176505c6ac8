//! Orders of small pools, and the value of the initial state in their columns, worked out by hand.

ghost use Rattle.std.specs.Prelude.{◌≡◌, map, IfOk};
ghost use Rattle.scp_orders.specs.Orders.{AreOrders, mappings_of};

use abstraction_mapping::Mapping;
use cost::Cost;
use fdr::{Fact, FdrTask, Operator};
use pdb_patterns::choose_mappings;
use rand_core::SeedableRng;
use rand_xoshiro::SplitMix64;
use scp::{Columns, make_columns};
use scp_orders::{Effort, choose_orders};
use std::alloc::{AllocError, Global};
use std::process::Abort;
use std::thread::Threads;
use testing_tasks::{fact, is_state_of, task};

/// A precondition, an effect, and a cost.
type Step = (&'static [(usize, u32)], &'static [(usize, u32)], u64);

/// A task with the initial value 0 of each variable, the limit of a mapping's abstract states, orders of an earlier
/// stage, the variables of the mappings of the chosen orders, and the value of the initial state.
#[derive(Drop)]
struct Row {
    ranges: &'static [usize],
    goal: &'static [(usize, u32)],
    steps: &'static [Step],
    limit: usize,
    earlier: &'static [&'static [usize]],
    orders: &'static str,
    value: Option<u64>,
}

fn facts(alloc: Global, pairs: &[(usize, u32)]) -> Result<Vec<Fact>, AllocError> {
    let mut facts = Vec::new(alloc);
    for &(variable, value) in pairs {
        facts.push(fact(variable, value))?;
    }
    Ok(facts)
}

fn operators(alloc: Global, steps: &[Step]) -> Result<Vec<Operator>, AllocError> {
    let mut operators = Vec::new(alloc);
    for &(precondition, effect, cost) in steps {
        operators.push(Operator {
            name: String::new(alloc),
            precondition: facts(alloc, precondition)?,
            effect: facts(alloc, effect)?,
            cost: Cost::new(cost).unwrap_or(Cost::ZERO),
        })?;
    }
    Ok(operators)
}

fn task_of(rt: &impl Abort, alloc: Global, row: &Row) -> FdrTask {
    let initial = vec![in alloc; 0; row.ranges.len()].expect(rt, "memory");
    let goal = facts(alloc, row.goal).expect(rt, "memory");
    let operators = operators(alloc, row.steps).expect(rt, "memory");
    task(alloc, row.ranges, &initial, &goal, operators)
        .expect(rt, "memory")
        .expect(rt, "a task")
}

/// The variables of mappings, each followed by a space, and orders separated by slashes.
fn text_of(alloc: Global, orders: &[Vec<Mapping>]) -> Result<String, AllocError> {
    let mut text = String::new(alloc);
    for order in orders {
        for mapping in order {
            push_mapping(&mut text, mapping)?;
        }
        text.push_str("/")?;
    }
    Ok(text)
}

fn push_mapping(text: &mut String, mapping: &Mapping) -> Result<(), AllocError> {
    match mapping {
        Mapping::Pattern(pattern) => {
            for variable in pattern {
                write!(text, "{variable}")?;
            }
        }
        Mapping::Domains(rows) => {
            for row in rows {
                let variable = row.variable();
                write!(text, "d{variable}")?;
            }
        }
    }
    text.push_str(" ")
}

fn effort() -> Effort {
    Effort {
        samples: 50,
        candidates: 40,
        steps: 100_000,
    }
}

fn earlier_of(alloc: Global, row: &Row) -> Result<Vec<Vec<usize>>, AllocError> {
    let mut earlier = Vec::new(alloc);
    for &order in row.earlier {
        earlier.push(Vec::from_slice(alloc, order)?)?;
    }
    Ok(earlier)
}

fn orders_of<R: Threads + Sync>(
    rt: &R,
    alloc: Global,
    task: &FdrTask,
    row: &Row,
) -> Result<Vec<Vec<Mapping>>, AllocError>
    ensures { IfOk result (λ orders. AreOrders task.now (map mappings_of orders.items)) }
{
    let limit = row.limit.clamp(1, 1_000);
    let pool = choose_mappings(alloc, task, limit)?;
    let earlier = earlier_of(alloc, row)?;
    let mut words = SplitMix64::seed_from_u64(1);
    choose_orders(rt, alloc, task, &pool, &earlier, &effort(), &mut words)
}

fn columns_of<'a, R: Threads + Sync + Abort>(
    rt: &R,
    alloc: Global,
    task: &'a FdrTask,
    orders: &[Vec<Mapping>],
) -> Columns<'a>
    requires { AreOrders task.now (map mappings_of orders.now) }
    ensures { result.task ≡ task.now }
{
    make_columns(rt, alloc, task, orders).expect(rt, "memory")
}

fn has_orders<R: Threads + Sync + Abort>(rt: &R, alloc: Global, row: &Row) {
    let task = task_of(rt, alloc, row);
    let orders = orders_of(rt, alloc, &task, row).expect(rt, "memory");
    let text = text_of(alloc, &orders).expect(rt, "memory");
    assert_eq!(rt; text.as_str(), row.orders);
    let columns = columns_of(rt, alloc, &task, &orders);
    assert_eq!(rt; columns.h(task.initial()).get(), row.value);
}

/// Variable 0 has steps 0 to 1 to 2 of cost 1, and variable 1 a step of cost 5. No costs are stolen, so that the
/// distances 2 and 5 are the scores.
const APART: Row = Row {
    ranges: &[3, 2],
    goal: &[(0, 2), (1, 1)],
    steps: &[
        (&[(0, 0)], &[(0, 1)], 1),
        (&[(0, 1)], &[(0, 2)], 1),
        (&[(1, 0)], &[(1, 1)], 5),
    ],
    limit: 3,
    earlier: &[],
    orders: "1 0 /",
    value: Some(7),
};

#[test]
fn independent_variables(rt: HostRuntime) {
    has_orders(&rt, rt.alloc(), &APART);
}

/// The columns of both orders have equal values, so that only the first is stored, which is the earlier one.
#[test]
fn earlier_orders_come_first(rt: HostRuntime) {
    let row = Row {
        ranges: APART.ranges,
        goal: APART.goal,
        steps: APART.steps,
        limit: 3,
        earlier: &[&[7, 0, 2, 0, 1, 1]],
        orders: "0 1 /",
        value: Some(7),
    };
    has_orders(&rt, rt.alloc(), &row);
}

/// The first operator sets both variables at cost 2, which both abstractions need in full. The others reset one
/// variable at cost 1 each. In the states (0, 1) and (1, 0) only the table of the variable that is 0 has a positive
/// value, and the second table of an order has no costs left.
const SHARED: Row = Row {
    ranges: &[2, 2],
    goal: &[(0, 1), (1, 1)],
    steps: &[
        (&[], &[(0, 1), (1, 1)], 2),
        (&[], &[(0, 0)], 1),
        (&[], &[(1, 0)], 1),
    ],
    limit: 2,
    earlier: &[],
    orders: "",
    value: Some(2),
};

#[test]
fn an_order_for_each_of_two_states(rt: HostRuntime) {
    let alloc = rt.alloc();
    let task = task_of(&rt, alloc, &SHARED);
    let orders = orders_of(&rt, alloc, &task, &SHARED).expect(&rt, "memory");
    let text = text_of(alloc, &orders).expect(&rt, "memory");
    assert!(rt;
        text.as_str() == "0 /1 /" || text.as_str() == "1 /0 /",
        "{text}"
    );
    let columns = columns_of(&rt, alloc, &task, &orders);
    for (state, value) in [([0, 0], 2), ([0, 1], 2), ([1, 0], 2), ([1, 1], 0)] {
        assert!(rt; is_state_of(&task, &state));
        assert_eq!(rt; columns.h(&state).get(), Some(value));
    }
}

/// Both abstractions have the distance 3. Of operator 0 they need 3 each, beyond its cost by 3, so that both take 3;
/// the abstraction of variable 1 also needs 3 of operator 1, and nobody else does.
///
/// `0 1`: variable 0 has the value 3, and nothing is left for variable 1. `1 0`: the same with 3 for variable 1.
const STOLEN: Row = Row {
    ranges: &[2, 2],
    goal: &[(0, 1), (1, 1)],
    steps: &[
        (&[(0, 0)], &[(0, 1), (1, 1)], 3),
        (&[(0, 1), (1, 0)], &[(1, 1)], 3),
    ],
    limit: 2,
    earlier: &[],
    orders: "0 /",
    value: Some(3),
};

#[test]
fn competing_variables(rt: HostRuntime) {
    has_orders(&rt, rt.alloc(), &STOLEN);
}

/// Variable 0 has steps of cost 0.
const ZERO: Row = Row {
    ranges: &[3],
    goal: &[(0, 2)],
    steps: &[(&[(0, 0)], &[(0, 1)], 0), (&[(0, 1)], &[(0, 2)], 0)],
    limit: 3,
    earlier: &[],
    orders: "0 /",
    value: Some(0),
};

#[test]
fn the_first_mapping_if_all_tables_are_zero(rt: HostRuntime) {
    has_orders(&rt, rt.alloc(), &ZERO);
}

/// No goal, and so no mapping.
const EMPTY: Row = Row {
    ranges: &[3],
    goal: &[],
    steps: &[(&[(0, 0)], &[(0, 1)], 1)],
    limit: 3,
    earlier: &[&[0]],
    orders: "",
    value: Some(0),
};

#[test]
fn no_order_without_a_mapping(rt: HostRuntime) {
    has_orders(&rt, rt.alloc(), &EMPTY);
}

/// No operator changes variable 1.
const UNSOLVABLE: Row = Row {
    ranges: &[2, 2],
    goal: &[(0, 1), (1, 1)],
    steps: &[(&[(0, 0)], &[(0, 1)], 1)],
    limit: 2,
    earlier: &[],
    orders: "1 /",
    value: None,
};

#[test]
fn the_abstraction_that_proves_a_task_unsolvable(rt: HostRuntime) {
    has_orders(&rt, rt.alloc(), &UNSOLVABLE);
}

/// Variable 1 must not be changed, but an operator of cost 0 changes it. All its finite distances are 0.
const DEAD_END: Row = Row {
    ranges: &[2, 2],
    goal: &[(0, 1), (1, 0)],
    steps: &[(&[(0, 0)], &[(0, 1)], 4), (&[(1, 0)], &[(1, 1)], 0)],
    limit: 2,
    earlier: &[],
    orders: "0 1 /",
    value: Some(4),
};

#[test]
fn dead_ends_are_appended(rt: HostRuntime) {
    has_orders(&rt, rt.alloc(), &DEAD_END);
}

/// A domain abstraction of variable 0 with a class for its goal value and one for all others.
const DOMAIN: Row = Row {
    ranges: &[4, 2],
    goal: &[(0, 3), (1, 1)],
    steps: &[
        (&[(0, 0)], &[(0, 1)], 1),
        (&[(0, 1)], &[(0, 2)], 1),
        (&[(0, 2)], &[(0, 3)], 1),
        (&[(1, 0)], &[(1, 1)], 2),
    ],
    limit: 2,
    earlier: &[],
    orders: "1 d0 /",
    value: Some(3),
};

#[test]
fn a_domain_abstraction(rt: HostRuntime) {
    has_orders(&rt, rt.alloc(), &DOMAIN);
}

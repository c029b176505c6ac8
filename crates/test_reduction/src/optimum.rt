//! Plans of the least cost of small tasks, by uniform-cost search.

use fdr::FdrTask;
use std::alloc::{AllocError, Global};

/// More states than a task of these tests has.
const STATES: usize = 5_000;

/// A state that was reached, and a plan to it.
#[derive(Drop)]
struct Reached {
    state: Vec<u32>,
    plan: Vec<usize>,
    cost: u64,
    is_expanded: bool,
}

/// A plan of the least cost.
#[derive(Drop)]
pub(crate) struct Cheapest {
    pub(crate) plan: Vec<usize>,
    pub(crate) cost: u64,
}

/// Returns the cheapest state that is not expanded, after marking it as expanded.
fn take_cheapest(alloc: Global, reached: &mut [Reached]) -> Result<Option<Reached>, AllocError> {
    let mut least = u64::MAX;
    for entry in &*reached {
        if !entry.is_expanded {
            least = least.min(entry.cost);
        }
    }
    for entry in reached {
        if !entry.is_expanded && entry.cost == least {
            entry.is_expanded = true;
            return Ok(Some(Reached {
                state: Vec::from_slice(alloc, &entry.state)?,
                plan: Vec::from_slice(alloc, &entry.plan)?,
                cost: least,
                is_expanded: true,
            }));
        }
    }
    Ok(None)
}

/// Records that a state is reached. A state that was reached at no greater cost stays as it is.
fn reach(reached: &mut Vec<Reached>, next: Reached) -> Result<(), AllocError> {
    for entry in reached.iter_mut() {
        if entry.state == next.state {
            if next.cost < entry.cost {
                *entry = next;
            }
            return Ok(());
        }
    }
    reached.push(next)?;
    Ok(())
}

/// Returns a plan of the least cost, or `None` if there is none.
pub(crate) fn cheapest_plan(alloc: Global, task: &FdrTask) -> Result<Option<Cheapest>, AllocError> {
    let mut reached = Vec::new(alloc);
    reached.push(Reached {
        state: Vec::from_slice(alloc, task.initial())?,
        plan: Vec::new(alloc),
        cost: 0,
        is_expanded: false,
    })?;
    for _ in 0..STATES {
        let Some(
            Reached {
                state,
                plan,
                cost,
                is_expanded: _,
            },
        ) = take_cheapest(alloc, &mut reached)?
        else {
            return Ok(None);
        };
        if state.len() != task.variable_count() {
            return Ok(None);
        }
        if task.is_goal(&state) {
            return Ok(Some(Cheapest { plan, cost }));
        }
        for operator in 0..task.operator_count() {
            let mut successor = Vec::from_slice(alloc, &state)?;
            if task.apply(operator, &mut successor) {
                let mut longer = Vec::from_slice(alloc, &plan)?;
                longer.push(operator)?;
                reach(
                    &mut reached,
                    Reached {
                        state: successor,
                        plan: longer,
                        cost: cost.saturating_add(task.cost(operator).get()),
                        is_expanded: false,
                    },
                )?;
            }
        }
    }
    Ok(None)
}

/// Returns the cost of a plan of the task, or `None` if it is not one.
pub(crate) fn cost_of_plan(
    alloc: Global,
    task: &FdrTask,
    plan: &[usize],
) -> Result<Option<u64>, AllocError> {
    let mut state = Vec::from_slice(alloc, task.initial())?;
    let mut cost: u64 = 0;
    for operator in plan {
        if state.len() != task.variable_count() || !task.apply(*operator, &mut state) {
            return Ok(None);
        }
        cost = cost.saturating_add(task.cost(*operator).get());
    }
    if state.len() != task.variable_count() || !task.is_goal(&state) {
        return Ok(None);
    }
    Ok(Some(cost))
}

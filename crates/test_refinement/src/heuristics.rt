//! Heuristic values by distances that are proved to be exact.

ghost use Rattle.std.specs.Prelude.{◌≡◌, ℕ, ◌<◌, ◌^◌, length, slice_index, IfOk};

use abstraction::Abstraction;
use abstraction_groups::{FactoredAbstraction, Groups, Listed, OperatorIndex};
use abstraction_mapping::{Mapping, TableAbstraction};
use fdr::FdrTask;
use pdb::distances;
use std::alloc::{AllocError, Global};

/// The cost of each operator.
fn costs_of(alloc: Global, task: &FdrTask) -> Result<Vec<u32>, AllocError>
    ensures len { IfOk result (λ costs. length costs.items ≡ length task.now.operators) }
    ensures small { IfOk result (λ costs. (o : ℕ) → o < length costs.items → slice_index costs.items o < 2 ^ 31) }
{
    let mut costs = Vec::new(alloc);
    for operator in 0..task.operator_count() {
        costs.push(task.cost(operator).get() as u32)?;
    }
    Ok(costs)
}

/// The distance of an abstract state to the goals. `None` if it is infinite, or there is no such abstract state.
fn distance_at<A: FactoredAbstraction>(
    alloc: Global,
    task: &FdrTask,
    abstraction: &A,
    index: usize,
) -> Result<Option<u64>, AllocError>
    requires { A.task abstraction.now ≡ task.now }
{
    let costs = costs_of(alloc, task)?;
    let operators = OperatorIndex::new(alloc, task)?;
    let groups = Groups::new(alloc, abstraction, &operators)?;
    let listed = Listed::new(alloc, groups)?;
    let values = distances(alloc, &listed, &costs)?;
    if index >= values.len() {
        return Ok(None);
    }
    Ok(values.get(index).get())
}

/// The cost of a cheapest abstract plan from the initial state, in the abstraction by the mapping. `None` if there is
/// none.
pub(crate) fn initial_value(
    alloc: Global,
    task: &FdrTask,
    mapping: &Mapping,
) -> Result<Option<u64>, AllocError> {
    task.recall(); // the initial state is a state
    match TableAbstraction::new(alloc, task, mapping)? {
        Some(TableAbstraction::Projection(projection)) => {
            let index = projection.index(task.initial());
            distance_at(alloc, task, &projection, index)
        }
        Some(TableAbstraction::Domain(domain)) => {
            let index = domain.index(task.initial());
            distance_at(alloc, task, &domain, index)
        }
        None => Ok(None),
    }
}

/// The mapping that keeps each variable.
pub(crate) fn whole(alloc: Global, task: &FdrTask) -> Result<Mapping, AllocError> {
    task.recall(); // there are fewer than 2^32 variables
    let mut pattern = Vec::new(alloc);
    for variable in 0..task.variable_count() {
        pattern.push(variable as u32)?;
    }
    Ok(Mapping::Pattern(pattern))
}

/// The number of abstract states by a mapping.
pub(crate) fn size_of(task: &FdrTask, mapping: &Mapping) -> usize {
    let mut size: usize = 1;
    match mapping {
        Mapping::Pattern(pattern) => {
            for variable in pattern {
                if let Some(names) = task.value_names().get(*variable as usize) {
                    size = size.saturating_mul(names.len());
                }
            }
        }
        Mapping::Domains(rows) => {
            for row in rows {
                size = size.saturating_mul(row.class_count());
            }
        }
    }
    size
}

/// The number of abstract states by a mapping, and 1 without one.
pub(crate) fn size_by(task: &FdrTask, mapping: &Option<Mapping>) -> usize {
    match mapping {
        None => 1,
        Some(mapping) => size_of(task, mapping),
    }
}

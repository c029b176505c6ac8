//! The costs of groups of operators.

use crate::numbers::NONE;
use abstraction_groups::{FactoredAbstraction, Groups};
use fdr::FdrTask;
use std::alloc::AllocError;

/// Returns the least cost of these operators.
fn least_cost(task: &FdrTask, operators: &[u32]) -> u32 {
    let mut least = NONE;
    for operator in operators {
        least = least.min(task.cost(*operator as usize).get() as u32);
    }
    least
}

/// Replaces the costs by those of the groups of an abstraction: the least cost of the operators of each group. Returns
/// the number of operators of all groups. On failure the costs are not specified.
pub(crate) fn set_costs<A: FactoredAbstraction>(
    task: &FdrTask,
    groups: &Groups<'_, A>,
    costs: &mut Vec<u32>,
) -> Result<u64, AllocError> {
    let mut operators: u64 = 0;
    costs.clear();
    costs.reserve(groups.len())?;
    for group in 0..groups.len() {
        let members = groups.operators_of(group);
        costs.push(least_cost(task, members))?;
        operators = operators.saturating_add(members.len() as u64);
    }
    Ok(operators)
}

//! Writing the text of a plan.
#![tactic(auto, using(crate::proofs::Appends::appending))]

ghost use Rattle.std.specs.Prelude.{◌≡◌, ◌++◌, ◌<◌, All, length, flat_map, decimal, string_bytes, IfOk, OnOk};
ghost use Rattle.sasfile_writer.specs.Plans.{operator_line, cost_kind, sas_plan_text};

use fdr::FdrTask;
use itoa::Buffer;
use std::alloc::{AllocError, Global};

/// Appends the line of the operator with this number. The operator must exist.
fn push_operator(text: &mut String, task: &FdrTask, operator: usize) -> Result<(), AllocError>
    requires { operator < length task.now.operators }
    ensures { OnOk result (string_bytes text.new ≡ string_bytes text.old ++ operator_line task.now operator) }
{
    let operator = &task.operators()[operator];
    text.push_str("(")?;
    text.push_str(operator.name.as_str())?;
    text.push_str(")\n")?;
    Ok(())
}

/// Appends the line of each operator.
fn push_operators(text: &mut String, task: &FdrTask, plan: &[usize]) -> Result<(), AllocError>
    requires { All (λ o. o < length task.now.operators) plan.now }
    ensures { OnOk result (string_bytes text.new ≡ string_bytes text.old ++ flat_map (operator_line task.now) plan.now) }
{
    for operator in plan {
        push_operator(text, task, *operator)?;
    }
    Ok(())
}

/// Appends the end of the line that states the cost.
fn push_cost_kind(text: &mut String, metric: bool) -> Result<(), AllocError>
    ensures { OnOk result (string_bytes text.new ≡ string_bytes text.old ++ cost_kind metric) }
{
    text.push_str(if metric {
        " (general cost)\n"
    } else {
        " (unit cost)\n"
    })
}

/// Returns the text of a plan, as Fast Downward writes it: for each operator, given by its number, a line with its name
/// in parentheses, and a last line that states `cost`, such as `; cost = 2 (unit cost)`, or `(general cost)` if the
/// task has the metric. The operators must exist.
pub fn sas_plan_text(
    alloc: Global,
    task: &FdrTask,
    plan: &[usize],
    cost: u64,
) -> Result<String, AllocError>
    requires { All (λ o. o < length task.now.operators) plan.now }
    ensures { IfOk result (λ text. string_bytes text ≡ sas_plan_text task.now plan.now cost) }
{
    let mut text = String::new(alloc);
    push_operators(&mut text, task, plan)?;
    text.push_str("; cost = ")?;
    let mut buffer = Buffer::new();
    text.push_str(buffer.format(cost))?;
    push_cost_kind(&mut text, task.has_metric())?;
    Ok(text)
}

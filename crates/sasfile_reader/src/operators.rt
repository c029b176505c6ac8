//! Reading operators.

ghost use Rattle.std.specs.Prelude.{◌≡◌, ◌+◌, [], length, IfOk};
ghost use Rattle.sasfile_reader.specs.Reading.{Gives, repeated, cost_at, operator_at, operator_step, operators_at};
ghost use Rattle.sasfile_reader.specs.Remains.{remaining};
ghost use Rattle.sasfile_reader.specs.Marks.{AreEarlier};

use crate::effects::{Halves, precondition_and_effect};
use crate::fault::SasFault;
use crate::line_forms::{count_line, keyword};
use crate::lines::Lines;
use crate::variables::string_line;
use cost::Cost;
use fdr::{Operator, TaskLimit};
use std::alloc::Global;

/// The greatest number of operators of a task.
const MAX_OPERATORS: u64 = fdr::MAX_OPERATORS as u64;

/// Reads the cost of an operator.
#[tactic(auto, unfolding(crate::specs::Reading::cost_at))]
fn cost_line(lines: Lines<'_>) -> Result<(Cost, Lines<'_>), SasFault>
    ensures next { IfOk result (λ x. x.1.number ≡ lines.entry.number + 1) }
    ensures cost { Gives (λ x. (x.0, remaining x.1)) result (cost_at (remaining lines.entry)) }
{
    let (cost, rest) = count_line(lines)?;
    match Cost::new(cost) {
        Some(cost) => Ok((cost, rest)),
        None => Err(SasFault::Range(lines.number)),
    }
}

#[tactic(auto, unfolding(crate::specs::Reading::operator_at))]
fn operator<'a>(
    alloc: Global,
    ranges: &[u32],
    named: &mut [usize],
    lines: Lines<'a>,
) -> Result<(Operator, Lines<'a>), SasFault>
    requires len { length named.old ≡ length ranges.now }
    requires earlier { AreEarlier named.old lines.number }
    ensures read { Gives (λ x. (x.0, remaining x.1)) result (operator_at ranges.now (remaining lines.entry)) }
    ensures earlier { IfOk result (λ x. AreEarlier named.new x.1.number) }
{
    let lines = keyword(lines, b"begin_operator")?;
    let (name, lines) = string_line(alloc, lines)?;
    let (halves, lines) = precondition_and_effect(alloc, ranges, named, lines)?;
    let Halves {
        precondition,
        effect,
    } = halves;
    let (cost, lines) = match cost_line(lines) {
        Ok(read) => read,
        Err(fault) => return Err(fault),
    };
    let lines = keyword(lines, b"end_operator")?;
    let operator = Operator {
        name,
        precondition,
        effect,
        cost,
    };
    Ok((operator, lines))
}

/// Reads one more operator and adds it.
fn push_operator<'a>(
    alloc: Global,
    operators: &mut Vec<Operator>,
    ranges: &[u32],
    named: &mut [usize],
    lines: Lines<'a>,
) -> Result<Lines<'a>, SasFault>
    requires len { length named.old ≡ length ranges.now }
    requires earlier { AreEarlier named.old lines.number }
    ensures read { Gives (λ x. (operators.new.items, remaining x)) result (operator_step ranges.now operators.old.items (remaining lines.entry)) }
    ensures earlier { IfOk result (λ x. AreEarlier named.new x.number) }
{
    let (operator, rest) = operator(alloc, ranges, named, lines)?;
    operators.push(operator)?;
    Ok(rest)
}

fn counted_operators<'a>(
    alloc: Global,
    count: u64,
    ranges: &[u32],
    named: &mut [usize],
    lines: Lines<'a>,
) -> Result<(Vec<Operator>, Lines<'a>), SasFault>
    requires len { length named.old ≡ length ranges.now }
    requires earlier { AreEarlier named.old lines.number }
    ensures { Gives (λ x. (x.0.items, remaining x.1)) result (repeated (operator_step ranges.now) count [] (remaining lines.entry)) }
{
    let mut operators = Vec::new(alloc);
    let mut rest = lines;
    for _ in 0..count {
        rest = push_operator(alloc, &mut operators, ranges, named, rest)?;
    }
    Ok((operators, rest))
}

/// Reads the number of operators, and then each of them.
#[tactic(auto, unfolding(crate::specs::Reading::operators_at))]
pub(crate) fn operators<'a>(
    alloc: Global,
    ranges: &[u32],
    named: &mut [usize],
    lines: Lines<'a>,
) -> Result<(Vec<Operator>, Lines<'a>), SasFault>
    requires len { length named.old ≡ length ranges.now }
    requires earlier { AreEarlier named.old lines.number }
    ensures { Gives (λ x. (x.0.items, remaining x.1)) result (operators_at ranges.now (remaining lines.entry)) }
{
    let (count, lines) = count_line(lines)?;
    if count > MAX_OPERATORS {
        return Err(SasFault::Limit(TaskLimit::Operators));
    }
    counted_operators(alloc, count, ranges, named, lines)
}

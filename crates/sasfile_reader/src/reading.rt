//! Reading a whole text.

ghost use Rattle.std.specs.Prelude.{◌≡◌, length, map, IfOk, Ok};
ghost use Rattle.sasfile_reader.specs.Reading.{Gives, version_at, flag, metric_at, empty_from, axioms_at, head_at, body_at, task_at, task_in};
ghost use Rattle.fdr.specs.Tasks.{FiniteDomainTask};
ghost use Rattle.sasfile_reader.specs.SasTexts.{SpellsTask};
ghost use Rattle.sasfile_reader.specs.Remains.{remaining, names_of, ranges_of, head, body};

use crate::facts::{goal, groups, state};
use crate::fault::SasFault;
use crate::line_forms::{keyword, number_line};
use crate::lines::Lines;
use crate::number::Number;
use crate::operators::operators;
use crate::variables::{Variables, variable_list};
use fdr::{Fact, FdrTask, Operator};
use std::alloc::Global;

/// Reads the version, which must be 3.
#[tactic(auto, unfolding(crate::specs::Reading::version_at))]
fn version(lines: Lines<'_>) -> Result<Lines<'_>, SasFault>
    ensures { Gives remaining result (version_at (remaining lines.entry)) }
{
    let lines = keyword(lines, b"begin_version")?;
    let (version, rest) = number_line(lines)?;
    match version {
        Number::Natural(3) => keyword(rest, b"end_version"),
        _ => Err(SasFault::Version(lines.number)),
    }
}

/// Returns the flag that a number denotes: 0 or 1.
fn flag_of(number: Number) -> Option<bool>
    ensures { result ≡ flag number }
{
    match number {
        Number::Natural(0) => Some(false),
        Number::Natural(1) => Some(true),
        _ => None,
    }
}

/// Reads the metric: whether operators have costs of their own.
#[tactic(auto, unfolding(crate::specs::Reading::metric_at))]
fn metric(lines: Lines<'_>) -> Result<(bool, Lines<'_>), SasFault>
    ensures { Gives (λ x. (x.0, remaining x.1)) result (metric_at (remaining lines.entry)) }
{
    let lines = keyword(lines, b"begin_metric")?;
    let (flag, rest) = number_line(lines)?;
    let Some(metric) = flag_of(flag) else {
        return Err(SasFault::Range(lines.number));
    };
    let rest = keyword(rest, b"end_metric")?;
    Ok((metric, rest))
}

/// The sections before those that refer to variables: the metric and the variables.
#[derive(Drop)]
pub(crate) struct Head {
    pub metric: bool,
    pub variables: Variables,
}

#[tactic(auto, unfolding(crate::specs::Reading::head_at))]
fn head_of(alloc: Global, lines: Lines<'_>) -> Result<(Head, Lines<'_>), SasFault>
    ensures head { Gives (λ x. (head x.0, remaining x.1)) result (head_at (remaining lines.entry)) }
    ensures ranges { IfOk result (λ x. ranges_of x.0.variables ≡ map length (names_of x.0.variables)) }
{
    let lines = version(lines)?;
    let (metric, lines) = metric(lines)?;
    let (variables, lines) = variable_list(alloc, lines)?;
    Ok((Head { metric, variables }, lines))
}

/// Reads the number of axioms, which must be 0.
#[tactic(auto, unfolding(crate::specs::Reading::axioms_at))]
fn axioms(lines: Lines<'_>) -> Result<Lines<'_>, SasFault>
    ensures { Gives remaining result (axioms_at (remaining lines.entry)) }
{
    let (count, rest) = number_line(lines)?;
    match count {
        Number::Natural(0) => Ok(rest),
        _ => Err(SasFault::Axioms(lines.number)),
    }
}

/// Checks that the remaining lines are empty.
fn end(lines: Lines<'_>) -> Result<(), SasFault>
    ensures { Gives (λ x. x) result (empty_from lines.entry.number (remaining lines.entry).lines) }
{
    let mut rest = lines;
    while let Ok((line, after)) = rest.first() {
        if !line.is_empty() {
            return Err(SasFault::Trailing(rest.number));
        }
        rest = after;
    }
    Ok(())
}

/// The sections after the variables.
#[derive(Drop)]
pub(crate) struct Body {
    pub initial: Vec<u32>,
    pub goal: Vec<Fact>,
    pub operators: Vec<Operator>,
}

#[tactic(auto, unfolding(crate::specs::Reading::body_at))]
fn body_of(alloc: Global, ranges: &[u32], lines: Lines<'_>) -> Result<Body, SasFault>
    ensures { Gives body result (body_at ranges.now (remaining lines.entry)) }
{
    let mut named = vec![in alloc; 0; ranges.len()]?;
    let lines = groups(ranges, lines)?;
    let (initial, lines) = state(alloc, ranges, lines)?;
    let (goal, lines) = goal(alloc, ranges, &mut named, lines)?;
    let (operators, lines) = operators(alloc, ranges, &mut named, lines)?;
    let lines = axioms(lines)?;
    end(lines)?;
    Ok(Body {
        initial,
        goal,
        operators,
    })
}

/// Reads the task of a whole text.
fn whole(alloc: Global, bytes: &[u8]) -> Result<FdrTask, SasFault>
    ensures { Gives (λ x. x) result (task_in bytes.now) }
{
    let (head, lines) = head_of(alloc, Lines::new(bytes))?;
    let body = body_of(alloc, &head.variables.ranges, lines)?;
    let Head { metric, variables } = head;
    let Variables {
        value_names,
        ranges: _,
    } = variables;
    let Body {
        initial,
        goal,
        operators,
    } = body;
    match FdrTask::new(metric, value_names, initial, goal, operators) {
        Ok(task) => Ok(task),
        Err(limit) => Err(SasFault::Limit(limit)),
    }
}

/// Reads a task from a text in the format `output.sas`, version 3 (Helmert 2009).
///
/// Lines end with a line feed, which the last line may lack; blanks and carriage returns at the end of a line are
/// ignored. Operators have the costs that are written, whatever the metric. The facts of mutex groups are checked to be
/// in range; mutex groups and the names of variables are not stored.
///
/// Fails with the first fault of the text, or if allocation fails.
pub fn read_sas(alloc: Global, bytes: &[u8]) -> Result<FdrTask, SasFault>
    // The result is what the text spells.
    ensures found { IfOk result (λ task. SpellsTask bytes.now task) }
    // A text that spells a task is read, unless allocation fails.
    ensures only { (task : FiniteDomainTask) → SpellsTask bytes.now task → Gives (λ x. x) result (Ok task) }
    // An error is the first fault of the text, or that allocation failed.
    ensures fault { Gives (λ x. x) result (task_in bytes.now) }
{
    whole(alloc, bytes)
}

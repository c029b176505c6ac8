//! Facts: mutex groups, the initial state, the goal and lists of conditions.

ghost use Rattle.std.specs.Prelude.{◌≡◌, ◌<◌, ◌≤◌, ◌+◌, [], length, IfOk, IfSome};
ghost use Rattle.fdr.specs.Tasks.{names_variable};
ghost use Rattle.sasfile_reader.specs.Reading.{Gives, repeated, fact_of, fact_at, fact_step, facts_at, skip_step, group_step, groups_at, value_step, values_at, state_at, goal_at};
ghost use Rattle.sasfile_reader.specs.Remains.{remaining};
ghost use Rattle.sasfile_reader.specs.Marks.{Marks, AreEarlier};

use crate::fault::SasFault;
use crate::line_forms::{count_line, keyword, two_numbers};
use crate::lines::Lines;
use crate::number::Number;
use fdr::Fact;
use std::alloc::Global;

/// Returns the fact of these two numbers, if the variable and its value exist.
pub(crate) fn fact_of(ranges: &[u32], variable: Number, value: Number) -> Option<Fact>
    ensures variable { IfSome result (λ f. f.variable < length ranges.now) }
    ensures fact { result ≡ fact_of ranges.now variable value }
{
    let (Number::Natural(variable), Number::Natural(value)) = (variable, value) else {
        return None;
    };
    if variable < ranges.len() as u64 && value < u64::from(ranges[variable as usize]) {
        Some(Fact {
            variable: variable as usize,
            value: value as u32,
        })
    } else {
        None
    }
}

/// Reads a line with a fact.
#[tactic(auto, unfolding(crate::specs::Reading::fact_at))]
fn fact_line<'a>(ranges: &[u32], lines: Lines<'a>) -> Result<(Fact, Lines<'a>), SasFault>
    ensures next { IfOk result (λ x. x.1.number ≡ lines.entry.number + 1) }
    ensures variable { IfOk result (λ x. x.0.variable < length ranges.now) }
    ensures fact { Gives (λ x. (x.0, remaining x.1)) result (fact_at ranges.now (remaining lines.entry)) }
{
    let (line, rest) = lines.first()?;
    let Some((variable, value)) = two_numbers(line) else {
        return Err(SasFault::Expected(lines.number));
    };
    match fact_of(ranges, variable, value) {
        Some(fact) => Ok((fact, rest)),
        None => Err(SasFault::Range(lines.number)),
    }
}

/// Reads a fact and discards it.
#[tactic(auto, unfolding(crate::specs::Reading::skip_step))]
fn skip_fact<'a>(ranges: &[u32], lines: Lines<'a>) -> Result<Lines<'a>, SasFault>
    ensures { Gives (λ x. (tt, remaining x)) result (skip_step ranges.now tt (remaining lines.entry)) }
{
    let (_, rest) = fact_line(ranges, lines)?;
    Ok(rest)
}

fn skip_facts<'a>(ranges: &[u32], count: u64, lines: Lines<'a>) -> Result<Lines<'a>, SasFault>
    ensures { Gives (λ x. (tt, remaining x)) result (repeated (skip_step ranges.now) count tt (remaining lines.entry)) }
{
    let mut rest = lines;
    for _ in 0..count {
        rest = skip_fact(ranges, rest)?;
    }
    Ok(rest)
}

/// Reads a mutex group. Its facts are only checked to be in range.
#[tactic(auto, unfolding(crate::specs::Reading::group_step))]
fn group<'a>(ranges: &[u32], lines: Lines<'a>) -> Result<Lines<'a>, SasFault>
    ensures { Gives (λ x. (tt, remaining x)) result (group_step ranges.now tt (remaining lines.entry)) }
{
    let lines = keyword(lines, b"begin_mutex_group")?;
    let (count, lines) = count_line(lines)?;
    let lines = skip_facts(ranges, count, lines)?;
    let lines = keyword(lines, b"end_mutex_group")?;
    Ok(lines)
}

fn counted_groups<'a>(ranges: &[u32], count: u64, lines: Lines<'a>) -> Result<Lines<'a>, SasFault>
    ensures { Gives (λ x. (tt, remaining x)) result (repeated (group_step ranges.now) count tt (remaining lines.entry)) }
{
    let mut rest = lines;
    for _ in 0..count {
        rest = group(ranges, rest)?;
    }
    Ok(rest)
}

/// Reads the number of mutex groups, and then each of them.
#[tactic(auto, unfolding(crate::specs::Reading::groups_at))]
pub(crate) fn groups<'a>(ranges: &[u32], lines: Lines<'a>) -> Result<Lines<'a>, SasFault>
    ensures { Gives (λ x. (tt, remaining x)) result (groups_at ranges.now (remaining lines.entry)) }
{
    let (count, lines) = count_line(lines)?;
    counted_groups(ranges, count, lines)
}

/// Reads one more value of the initial state.
#[tactic(auto, unfolding(crate::specs::Reading::value_step))]
fn push_value<'a>(
    values: &mut Vec<u32>,
    range: u32,
    lines: Lines<'a>,
) -> Result<Lines<'a>, SasFault>
    ensures { Gives (λ x. (values.new.items, remaining x)) result (value_step range values.old.items (remaining lines.entry)) }
{
    let (value, rest) = count_line(lines)?;
    if value >= u64::from(range) {
        return Err(SasFault::Range(lines.number));
    }
    values.push(value as u32)?;
    Ok(rest)
}

fn values<'a>(
    alloc: Global,
    ranges: &[u32],
    lines: Lines<'a>,
) -> Result<(Vec<u32>, Lines<'a>), SasFault>
    ensures { Gives (λ x. (x.0.items, remaining x.1)) result (values_at ranges.now [] (remaining lines.entry)) }
{
    let mut values = Vec::new(alloc);
    let mut rest = lines;
    for range in ranges {
        rest = push_value(&mut values, *range, rest)?;
    }
    Ok((values, rest))
}

/// Reads the initial state.
#[tactic(auto, unfolding(crate::specs::Reading::state_at))]
pub(crate) fn state<'a>(
    alloc: Global,
    ranges: &[u32],
    lines: Lines<'a>,
) -> Result<(Vec<u32>, Lines<'a>), SasFault>
    ensures { Gives (λ x. (x.0.items, remaining x.1)) result (state_at ranges.now (remaining lines.entry)) }
{
    let lines = keyword(lines, b"begin_state")?;
    let (values, lines) = values(alloc, ranges, lines)?;
    let lines = keyword(lines, b"end_state")?;
    Ok((values, lines))
}

/// Reads one more fact and appends it. It is a fault if its variable has been named since the line `since`.
#[tactic(auto, unfolding(crate::specs::Reading::fact_step))]
fn push_fact<'a>(
    facts: &mut Vec<Fact>,
    ranges: &[u32],
    named: &mut [usize],
    since: usize,
    lines: Lines<'a>,
) -> Result<Lines<'a>, SasFault>
    requires len { length named.old ≡ length ranges.now }
    requires marks { Marks named.old since lines.number (names_variable facts.old.items) }
    requires since { since ≤ lines.number }
    ensures read { Gives (λ x. (facts.new.items, remaining x)) result (fact_step ranges.now facts.old.items (remaining lines.entry)) }
    ensures marks { IfOk result (λ x. Marks named.new since x.number (names_variable facts.new.items)) }
    ensures later { IfOk result (λ x. since ≤ x.number) }
{
    let (fact, rest) = fact_line(ranges, lines)?;
    if named[fact.variable] >= since {
        return Err(SasFault::Range(lines.number));
    }
    named[fact.variable] = lines.number;
    facts.push(fact)?;
    Ok(rest)
}

fn counted_facts<'a>(
    alloc: Global,
    count: u64,
    ranges: &[u32],
    named: &mut [usize],
    since: usize,
    lines: Lines<'a>,
) -> Result<(Vec<Fact>, Lines<'a>), SasFault>
    requires len { length named.old ≡ length ranges.now }
    requires earlier { AreEarlier named.old since }
    requires since { since ≤ lines.number }
    ensures read { Gives (λ x. (x.0.items, remaining x.1)) result (repeated (fact_step ranges.now) count [] (remaining lines.entry)) }
    ensures marks { IfOk result (λ x. Marks named.new since x.1.number (names_variable x.0.items)) }
    ensures later { IfOk result (λ x. since ≤ x.1.number) }
{
    let mut facts = Vec::new(alloc);
    let mut rest = lines;
    for _ in 0..count {
        rest = push_fact(&mut facts, ranges, named, since, rest)?;
    }
    Ok((facts, rest))
}

/// Reads the number of facts, and then each of them, on distinct variables. `named` has for each variable the last line
/// that named it; lines before that of the number do not count.
#[tactic(auto, unfolding(crate::specs::Reading::facts_at))]
pub(crate) fn facts<'a>(
    alloc: Global,
    ranges: &[u32],
    named: &mut [usize],
    lines: Lines<'a>,
) -> Result<(Vec<Fact>, Lines<'a>), SasFault>
    requires len { length named.old ≡ length ranges.now }
    requires earlier { AreEarlier named.old lines.number }
    ensures read { Gives (λ x. (x.0.items, remaining x.1)) result (facts_at ranges.now (remaining lines.entry)) }
    ensures marks { IfOk result (λ x. Marks named.new lines.entry.number x.1.number (names_variable x.0.items)) }
    ensures later { IfOk result (λ x. lines.entry.number ≤ x.1.number) }
{
    let since = lines.number;
    let (count, lines) = count_line(lines)?;
    counted_facts(alloc, count, ranges, named, since, lines)
}

/// Reads the goal.
#[tactic(auto, unfolding(crate::specs::Reading::goal_at))]
pub(crate) fn goal<'a>(
    alloc: Global,
    ranges: &[u32],
    named: &mut [usize],
    lines: Lines<'a>,
) -> Result<(Vec<Fact>, Lines<'a>), SasFault>
    requires len { length named.old ≡ length ranges.now }
    requires earlier { AreEarlier named.old lines.number }
    ensures read { Gives (λ x. (x.0.items, remaining x.1)) result (goal_at ranges.now (remaining lines.entry)) }
    ensures earlier { IfOk result (λ x. AreEarlier named.new x.1.number) }
{
    let lines = keyword(lines, b"begin_goal")?;
    let (facts, lines) = facts(alloc, ranges, named, lines)?;
    let lines = keyword(lines, b"end_goal")?;
    Ok((facts, lines))
}

//! Effects of operators.

ghost use Rattle.std.specs.Prelude.{◌≡◌, ◌<◌, ◌≤◌, ◌+◌, length, IfOk, IfSome};
ghost use Rattle.sasfile_reader.specs.Lines.{words};
ghost use Rattle.sasfile_reader.specs.Reading.{Gives, repeated, is_conditional, quadruple, change_of, change_at, before_of, change_step, halves_at, is_named};
ghost use Rattle.sasfile_reader.specs.Remains.{remaining, halves};
ghost use Rattle.sasfile_reader.specs.Marks.{Marks, AreEarlier};

use crate::facts::{fact_of, facts};
use crate::fault::SasFault;
use crate::line_forms::count_line;
use crate::lines::Lines;
use crate::number::{Number, number_of};
use crate::pieces::next_word;
use fdr::Fact;
use std::alloc::Global;

/// The four numbers of an effect line.
#[derive(Clone, Copy, Debug, PartialEq, Eq)]
pub struct Quadruple {
    pub conditions: Number,
    pub variable: Number,
    pub before: Number,
    pub after: Number,
}

/// An effect, and the value that its variable must have before it: `None` for any value.
#[derive(Clone, Copy, Debug, PartialEq, Eq)]
pub struct Change {
    pub before: Option<u32>,
    pub after: Fact,
}

/// Returns whether the first word of a line spells a number above 0.
fn is_conditional(line: &[u8]) -> bool
    ensures { result ≡ is_conditional (words line.now) }
{
    match next_word(line) {
        None => false,
        Some((word, _)) => match number_of(word) {
            Some(Number::Natural(conditions)) => conditions > 0,
            _ => false,
        },
    }
}

/// Returns the four numbers of an effect line, or `None` if the line is not of that form.
fn four_numbers(line: &[u8]) -> Option<Quadruple>
    ensures { result ≡ quadruple (words line.now) }
{
    let (conditions, rest) = next_word(line)?;
    let (variable, rest) = next_word(rest)?;
    let (before, rest) = next_word(rest)?;
    let (after, rest) = next_word(rest)?;
    match next_word(rest) {
        None => Some(Quadruple {
            conditions: number_of(conditions)?,
            variable: number_of(variable)?,
            before: number_of(before)?,
            after: number_of(after)?,
        }),
        Some(_) => None,
    }
}

/// Returns the value that a variable must have before an effect, or `Some(None)` for any value. Returns `None` if it is
/// out of range.
fn before_of(range: u32, before: Number) -> Option<Option<u32>>
    ensures { result ≡ before_of range before }
{
    match before {
        Number::Natural(value) if value < u64::from(range) => Some(Some(value as u32)),
        Number::Negative(1) => Some(None),
        _ => None,
    }
}

/// Returns the effect of four numbers, or `None` if one of them is out of range.
fn change_of(ranges: &[u32], numbers: Quadruple) -> Option<Change>
    ensures variable { IfSome result (λ c. c.after.variable < length ranges.now) }
    ensures change { result ≡ change_of ranges.now numbers }
{
    match numbers.conditions {
        Number::Natural(0) => {
            let after = fact_of(ranges, numbers.variable, numbers.after)?;
            let before = before_of(ranges[after.variable], numbers.before)?;
            Some(Change { before, after })
        }
        _ => None,
    }
}

/// Reads an effect line.
#[tactic(auto, unfolding(crate::specs::Reading::change_at))]
fn change_line<'a>(ranges: &[u32], lines: Lines<'a>) -> Result<(Change, Lines<'a>), SasFault>
    ensures next { IfOk result (λ x. x.1.number ≡ lines.entry.number + 1) }
    ensures variable { IfOk result (λ x. x.0.after.variable < length ranges.now) }
    ensures change { Gives (λ x. (x.0, remaining x.1)) result (change_at ranges.now (remaining lines.entry)) }
{
    let (line, rest) = lines.first()?;
    if is_conditional(line) {
        return Err(SasFault::ConditionalEffect(lines.number));
    }
    let Some(numbers) = four_numbers(line) else {
        return Err(SasFault::Expected(lines.number));
    };
    match change_of(ranges, numbers) {
        Some(change) => Ok((change, rest)),
        None => Err(SasFault::Range(lines.number)),
    }
}

/// The precondition and the effect of an operator.
#[derive(Drop)]
pub(crate) struct Halves {
    pub precondition: Vec<Fact>,
    pub effect: Vec<Fact>,
}

/// Reads one more effect and appends it. It is a fault if its variable has been named since the line `since`.
#[tactic(auto, unfolding(crate::specs::Reading::change_step))]
fn push_change<'a>(
    kept: &mut Halves,
    ranges: &[u32],
    named: &mut [usize],
    since: usize,
    lines: Lines<'a>,
) -> Result<Lines<'a>, SasFault>
    requires len { length named.old ≡ length ranges.now }
    requires marks { Marks named.old since lines.number (is_named (halves kept.old)) }
    requires since { since ≤ lines.number }
    ensures read { Gives (λ x. (halves kept.new, remaining x)) result (change_step ranges.now (halves kept.old) (remaining lines.entry)) }
    ensures marks { IfOk result (λ x. Marks named.new since x.number (is_named (halves kept.new))) }
    ensures later { IfOk result (λ x. since ≤ x.number) }
{
    let (change, rest) = change_line(ranges, lines)?;
    let variable = change.after.variable;
    if named[variable] >= since {
        return Err(SasFault::Range(lines.number));
    }
    named[variable] = lines.number;
    if let Some(value) = change.before {
        kept.precondition.push(Fact { variable, value })?;
    }
    kept.effect.push(change.after)?;
    Ok(rest)
}

fn counted_changes<'a>(
    count: u64,
    mut kept: Halves,
    ranges: &[u32],
    named: &mut [usize],
    since: usize,
    lines: Lines<'a>,
) -> Result<(Halves, Lines<'a>), SasFault>
    requires len { length named.old ≡ length ranges.now }
    requires marks { Marks named.old since lines.number (is_named (halves kept)) }
    requires since { since ≤ lines.number }
    ensures read { Gives (λ x. (halves x.0, remaining x.1)) result (repeated (change_step ranges.now) count (halves kept) (remaining lines.entry)) }
    ensures earlier { IfOk result (λ x. AreEarlier named.new x.1.number) }
{
    let mut rest = lines;
    for _ in 0..count {
        rest = push_change(&mut kept, ranges, named, since, rest)?;
    }
    Ok((kept, rest))
}

/// Reads the precondition and the effect of an operator: its prevail conditions, and then its effects. `named` has for
/// each variable the last line that named it.
#[tactic(auto, unfolding(crate::specs::Reading::halves_at))]
pub(crate) fn precondition_and_effect<'a>(
    alloc: Global,
    ranges: &[u32],
    named: &mut [usize],
    lines: Lines<'a>,
) -> Result<(Halves, Lines<'a>), SasFault>
    requires len { length named.old ≡ length ranges.now }
    requires earlier { AreEarlier named.old lines.number }
    ensures read { Gives (λ x. (halves x.0, remaining x.1)) result (halves_at ranges.now (remaining lines.entry)) }
    ensures earlier { IfOk result (λ x. AreEarlier named.new x.1.number) }
{
    let since = lines.number;
    let (precondition, lines) = facts(alloc, ranges, named, lines)?;
    let (count, lines) = count_line(lines)?;
    let effect = Vec::new(alloc);
    let kept = Halves {
        precondition,
        effect,
    };
    counted_changes(count, kept, ranges, named, since, lines)
}

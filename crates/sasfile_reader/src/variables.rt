//! Reading variables.

ghost use Rattle.std.specs.Prelude.{◌≡◌, ◌+◌, ◌≤◌, [], length, map, IfOk, OnOk, vec_len, string_bytes};
ghost use Rattle.sasfile_reader.specs.Reading.{Gives, repeated, text_at, text_step, layer_at, range_at, variable_at, variable_step, variables_at};
ghost use Rattle.sasfile_reader.specs.Remains.{remaining, names_of, ranges_of};
ghost use Rattle.fdr.specs.Limits.{max_values};

use crate::fault::SasFault;
use crate::line_forms::{count_line, keyword, number_line, text_line};
use crate::lines::Lines;
use crate::number::Number;
use fdr::TaskLimit;
use std::alloc::Global;

/// The greatest number of variables of a task.
const MAX_VARIABLES: u64 = fdr::MAX_VARIABLES as u64;

/// The greatest number of values of a variable.
const MAX_VALUES: u64 = fdr::MAX_VALUES as u64;

/// The variables of a task that have been read.
#[derive(Drop)]
pub(crate) struct Variables {
    pub value_names: Vec<Vec<String>>,
    /// The number of values of each variable.
    pub ranges: Vec<u32>,
}

/// Reads a line with a name, or the name of a value, as a string.
pub(crate) fn string_line(alloc: Global, lines: Lines<'_>) -> Result<(String, Lines<'_>), SasFault>
    ensures next { IfOk result (λ x. x.1.number ≡ lines.entry.number + 1) }
    ensures text { Gives (λ x. (string_bytes x.0, remaining x.1)) result (text_at (remaining lines.entry)) }
{
    let (text, rest) = text_line(lines)?;
    Ok((String::from_str(alloc, text)?, rest))
}

/// Reads one more name and adds it.
fn push_text<'a>(
    alloc: Global,
    texts: &mut Vec<String>,
    lines: Lines<'a>,
) -> Result<Lines<'a>, SasFault>
    ensures text { Gives (λ x. (map string_bytes texts.new.items, remaining x)) result (text_step (map string_bytes texts.old.items) (remaining lines.entry)) }
    ensures len { OnOk result (vec_len texts.new ≡ vec_len texts.old + 1) }
{
    let (text, rest) = string_line(alloc, lines)?;
    texts.push(text)?;
    Ok(rest)
}

fn counted_texts(
    alloc: Global,
    count: u64,
    lines: Lines<'_>,
) -> Result<(Vec<String>, Lines<'_>), SasFault>
    ensures texts { Gives (λ x. (map string_bytes x.0.items, remaining x.1)) result (repeated text_step count [] (remaining lines.entry)) }
    ensures len { IfOk result (λ x. vec_len x.0 ≡ count) }
{
    let mut texts = Vec::new(alloc);
    let mut rest = lines;
    for _ in 0..count {
        rest = push_text(alloc, &mut texts, rest)?;
    }
    Ok((texts, rest))
}

/// Reads the axiom layer, which must be -1.
#[tactic(auto, unfolding(crate::specs::Reading::layer_at))]
fn layer_line(lines: Lines<'_>) -> Result<Lines<'_>, SasFault>
    ensures { Gives remaining result (layer_at (remaining lines.entry)) }
{
    let (layer, rest) = number_line(lines)?;
    match layer {
        Number::Negative(1) => Ok(rest),
        _ => Err(SasFault::Axioms(lines.number)),
    }
}

/// Reads the number of values of a variable.
#[tactic(auto, unfolding(crate::specs::Reading::range_at))]
fn range_line(lines: Lines<'_>) -> Result<(u64, Lines<'_>), SasFault>
    ensures range { Gives (λ x. (x.0, remaining x.1)) result (range_at (remaining lines.entry)) }
    ensures bound { IfOk result (λ x. x.0 ≤ max_values) }
{
    let (range, rest) = count_line(lines)?;
    if range == 0 {
        return Err(SasFault::Range(lines.number));
    }
    if range > MAX_VALUES {
        return Err(SasFault::Limit(TaskLimit::Values));
    }
    Ok((range, rest))
}

/// Reads a variable and returns the names of its values.
#[tactic(auto, unfolding(crate::specs::Reading::variable_at))]
fn variable(alloc: Global, lines: Lines<'_>) -> Result<(Vec<String>, Lines<'_>), SasFault>
    ensures names { Gives (λ x. (map string_bytes x.0.items, remaining x.1)) result (variable_at (remaining lines.entry)) }
    ensures bound { IfOk result (λ x. vec_len x.0 ≤ max_values) }
{
    let lines = keyword(lines, b"begin_variable")?;
    let (_, lines) = text_line(lines)?;
    let lines = layer_line(lines)?;
    let (range, lines) = range_line(lines)?;
    let (names, lines) = counted_texts(alloc, range, lines)?;
    let lines = keyword(lines, b"end_variable")?;
    Ok((names, lines))
}

/// Reads one more variable and adds it.
fn push_variable<'a>(
    alloc: Global,
    variables: &mut Variables,
    lines: Lines<'a>,
) -> Result<Lines<'a>, SasFault>
    requires { ranges_of variables.old ≡ map length (names_of variables.old) }
    ensures names { Gives (λ x. (names_of variables.new, remaining x)) result (variable_step (names_of variables.old) (remaining lines.entry)) }
    ensures ranges { OnOk result (ranges_of variables.new ≡ map length (names_of variables.new)) }
{
    let (names, rest) = variable(alloc, lines)?;
    variables.ranges.push(names.len() as u32)?;
    variables.value_names.push(names)?;
    Ok(rest)
}

fn counted_variables(
    alloc: Global,
    count: u64,
    lines: Lines<'_>,
) -> Result<(Variables, Lines<'_>), SasFault>
    ensures names { Gives (λ x. (names_of x.0, remaining x.1)) result (repeated variable_step count [] (remaining lines.entry)) }
    ensures ranges { IfOk result (λ x. ranges_of x.0 ≡ map length (names_of x.0)) }
{
    let mut variables = Variables {
        value_names: Vec::new(alloc),
        ranges: Vec::new(alloc),
    };
    let mut rest = lines;
    for _ in 0..count {
        rest = push_variable(alloc, &mut variables, rest)?;
    }
    Ok((variables, rest))
}

/// Reads the number of variables, and then each of them.
#[tactic(auto, unfolding(crate::specs::Reading::variables_at))]
pub(crate) fn variable_list(
    alloc: Global,
    lines: Lines<'_>,
) -> Result<(Variables, Lines<'_>), SasFault>
    ensures names { Gives (λ x. (names_of x.0, remaining x.1)) result (variables_at (remaining lines.entry)) }
    ensures ranges { IfOk result (λ x. ranges_of x.0 ≡ map length (names_of x.0)) }
{
    let (count, lines) = count_line(lines)?;
    if count > MAX_VARIABLES {
        return Err(SasFault::Limit(TaskLimit::Variables));
    }
    counted_variables(alloc, count, lines)
}

//! Groups of operators that test one variable next.

ghost use Rattle.std.specs.Prelude.{◌≡◌, ◌<◌, ◌≤◌, All, length, slice_get, true, Some, None};
ghost use Rattle.fdr_successors.specs.Listings.{IsPlaced, facts_at};
ghost use Rattle.fdr_successors.specs.Trees.{IsRun};

use crate::candidate::{Candidate, Part};
use fdr::{Fact, FdrTask};

/// The candidates of a part from the index `first` on, which test the same variable next. The range is the number of
/// the variable's values if the candidates are worth a table of them, and otherwise 0.
#[derive(Clone, Copy)]
pub(crate) struct Group {
    pub(crate) first: usize,
    pub(crate) variable: usize,
    pub(crate) range: usize,
}

/// Returns the fact that the candidate at index `place` tests after its first `tested` facts.
fn next_fact(facts: &[Fact], candidates: &[Candidate], place: usize, tested: usize) -> Option<Fact>
    requires rows { All (IsPlaced (length facts.now)) candidates.now }
    requires place { place < length candidates.now }
    ensures { result ≡ slice_get (facts_at facts.now candidates.now place) tested }
{
    let candidate = candidates[place];
    facts[candidate.first..candidate.end].get(tested).copied()
}

/// Returns whether the candidate at index `place` tests the fact of `variable` and `value` next.
fn tests_next(
    facts: &[Fact],
    candidates: &[Candidate],
    place: usize,
    tested: usize,
    variable: usize,
    value: usize,
) -> bool
    requires rows { All (IsPlaced (length facts.now)) candidates.now }
    requires place { place < length candidates.now }
    ensures { result ≡ true → slice_get (facts_at facts.now candidates.now place) tested ≡ Some (record { variable = variable; value = value }) }
{
    match next_fact(facts, candidates, place, tested) {
        Some(fact) => fact.variable == variable && fact.value as usize == value,
        None => false,
    }
}

/// Returns the index, at or after the group's first, from which on the candidates of the part test the group's variable
/// for `value` next.
pub(crate) fn run_start(
    facts: &[Fact],
    candidates: &[Candidate],
    part: Part,
    group: Group,
    value: usize,
) -> usize
    requires rows { All (IsPlaced (length facts.now)) candidates.now }
    requires rising { group.first ≤ part.end }
    requires within { part.end ≤ length candidates.now }
    ensures within { group.first ≤ result }
    ensures run { IsRun facts.now candidates.now part.tested (record { variable = group.variable; value = value }) result part.end }
{
    let mut start = part.end;
    while start > group.first
        && tests_next(
            facts,
            candidates,
            start - 1,
            part.tested,
            group.variable,
            value,
        )
    {
        start -= 1;
    }
    start
}

/// Returns the variable that the candidate at index `place` tests next, or `none` if it has no further fact.
fn next_variable(
    facts: &[Fact],
    candidates: &[Candidate],
    place: usize,
    tested: usize,
    none: usize,
) -> usize
    requires rows { All (IsPlaced (length facts.now)) candidates.now }
    requires place { place < length candidates.now }
{
    match next_fact(facts, candidates, place, tested) {
        Some(fact) => fact.variable,
        None => none,
    }
}

/// Returns the number of values of the variable if `count` candidates are worth a table of them: more than one, and at
/// least a quarter of that number. Otherwise, or if there is no such variable, returns 0.
fn table_range(task: &FdrTask, variable: usize, count: usize) -> usize
    ensures { 0 < result → variable < length task.now.value_names }
{
    if variable < task.variable_count() && count > 1 {
        let range = task.range(variable);
        if range.div_ceil(4) <= count {
            return range;
        }
    }
    0
}

/// Returns the group of the last candidate of a part. Its range is 0 if no further level is allowed.
pub(crate) fn last_group(
    task: &FdrTask,
    facts: &[Fact],
    candidates: &[Candidate],
    part: Part,
) -> Group
    requires rows { All (IsPlaced (length facts.now)) candidates.now }
    requires rising { part.first < part.end }
    requires within { part.end ≤ length candidates.now }
    ensures low { part.first ≤ result.first }
    ensures high { result.first < part.end }
    ensures variable { 0 < result.range → result.variable < length task.now.value_names }
{
    let none = task.variable_count();
    let mut first = part.end - 1;
    let variable = next_variable(facts, candidates, first, part.tested, none);
    while first > part.first
        && next_variable(facts, candidates, first - 1, part.tested, none) == variable
    {
        first -= 1;
    }
    let range = if part.levels > 0 {
        table_range(task, variable, part.end - first)
    } else {
        0
    };
    Group {
        first,
        variable,
        range,
    }
}

/// Returns the index from which on the candidates of a part are in no group that is worth a table.
pub(crate) fn list_start(
    task: &FdrTask,
    facts: &[Fact],
    candidates: &[Candidate],
    part: Part,
) -> usize
    requires rows { All (IsPlaced (length facts.now)) candidates.now }
    requires rising { part.first ≤ part.end }
    requires within { part.end ≤ length candidates.now }
    ensures low { part.first ≤ result }
    ensures high { result ≤ part.end }
{
    let mut start = part.end;
    while start > part.first {
        let before = Part { end: start, ..part };
        let group = last_group(task, facts, candidates, before);
        if group.range > 0 {
            return start;
        }
        start = group.first;
    }
    start
}

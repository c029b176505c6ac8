//! Small finite-domain tasks for tests, each of which is checked to be a task before it is returned.
#![tactic(auto)]

ghost use Rattle.std.specs.Prelude.{◌≡◌, ◌<◌, ◌↔◌, All, [], map, replicate, length, string_bytes, slice_index, IsTrue, IfOk, IfSome, IfNone};
ghost use Rattle.std.specs.List.Sorted.{IsStrictlyIncreasing};
ghost use Rattle.fdr.specs.Tasks as spec;
ghost use Rattle.fdr.specs.Tasks.{IsAssignment, IsOperator, IsState, IsTask, IsWithinLimits, names_in};
ghost use Rattle.testing_tasks.specs.SmallTasks.{unnamed, blank_names, task_with, walk_task, IsPriced};

use cost::Cost;
use fdr::{Fact, FdrTask, Operator};
use std::alloc::{AllocError, Global};

/// Returns the fact that a variable has a value.
pub fn fact(variable: usize, value: u32) -> Fact
    ensures { result ≡ record { variable = variable; value = value } }
{
    Fact { variable, value }
}

/// Returns an operator without a name, at that cost.
fn priced(
    alloc: Global,
    precondition: &[Fact],
    effect: &[Fact],
    cost: Cost,
) -> Result<Operator, AllocError>
    ensures { IfOk result (λ o. o ≡ unnamed precondition.now effect.now cost) }
{
    Ok(Operator {
        name: String::new(alloc),
        precondition: Vec::from_slice(alloc, precondition)?,
        effect: Vec::from_slice(alloc, effect)?,
        cost,
    })
}

/// Returns an operator without a name, at cost 1.
pub fn operator(
    alloc: Global,
    precondition: &[Fact],
    effect: &[Fact],
) -> Result<Operator, AllocError>
    ensures { IfOk result (λ o. o ≡ unnamed precondition.now effect.now 1) }
{
    priced(alloc, precondition, effect, Cost::ONE)
}

/// Returns whether one of the facts is on the variable.
fn names_variable(facts: &[Fact], variable: usize) -> bool
    ensures { result ≡ spec.names_variable facts.now variable }
{
    facts.iter().any(|fact| fact.variable == variable)
}

/// Returns whether the facts are in range, with at most one for each variable.
fn is_assignment(ranges: &[usize], facts: &[Fact]) -> bool
    ensures { IsTrue result ↔ IsAssignment ranges.now facts.now }
{
    for place in 0..facts.len() {
        let fact = facts[place];
        if fact.variable >= ranges.len() || fact.value as usize >= ranges[fact.variable] {
            return false;
        }
        if names_variable(&facts[place + 1..], fact.variable) {
            return false;
        }
    }
    true
}

/// Returns whether the operators' conditions and effects are assignments.
fn are_operators(ranges: &[usize], operators: &[Operator]) -> bool
    ensures { IsTrue result ↔ All (IsOperator ranges.now) operators.now }
{
    for operator in operators {
        if !is_assignment(ranges, &operator.precondition)
            || !is_assignment(ranges, &operator.effect)
        {
            return false;
        }
    }
    true
}

/// Returns whether the values are a state.
fn is_state(ranges: &[usize], state: &[u32]) -> bool
    ensures { IsTrue result ↔ IsState ranges.now state.now }
{
    if state.len() != ranges.len() {
        return false;
    }
    for variable in 0..ranges.len() {
        if state[variable] as usize >= ranges[variable] {
            return false;
        }
    }
    true
}

/// Returns `count` empty names.
fn blank(alloc: Global, count: usize) -> Result<Vec<String>, AllocError>
    ensures { IfOk result (λ names. map string_bytes names.items ≡ replicate count []) }
{
    let mut names = Vec::new(alloc);
    for _ in 0..count {
        names.push(String::new(alloc))?;
    }
    Ok(names)
}

/// Returns that many empty names for each range.
fn names_of(alloc: Global, ranges: &[usize]) -> Result<Vec<Vec<String>>, AllocError>
    ensures { IfOk result (λ names. names_in names.items ≡ blank_names ranges.now) }
{
    let mut names = Vec::new(alloc);
    for &range in ranges {
        names.push(blank(alloc, range)?)?;
    }
    Ok(names)
}

/// Returns the number of values of each variable.
fn ranges_of(alloc: Global, names: &[Vec<String>]) -> Result<Vec<usize>, AllocError>
    ensures { IfOk result (λ ranges. ranges.items ≡ map length (names_in names.now)) }
{
    let mut ranges = Vec::new(alloc);
    for values in names {
        ranges.push(values.len())?;
    }
    Ok(ranges)
}

/// Returns the task with these ranges and parts, and with the metric; `None` if that is not a task or exceeds a limit.
pub fn task(
    alloc: Global,
    ranges: &[usize],
    initial: &[u32],
    goal: &[Fact],
    operators: Vec<Operator>,
) -> Result<Option<FdrTask>, AllocError>
    ensures task { IfOk result (λ t. IfSome t (λ t. t ≡ task_with ranges.now initial.now goal.now operators.items)) }
    ensures none { IfOk result (λ t. IfNone t (IsTask (task_with ranges.now initial.now goal.now operators.items) →
        IsWithinLimits (task_with ranges.now initial.now goal.now operators.items) → ⊥)) }
{
    let names = names_of(alloc, ranges)?;
    let ranges = ranges_of(alloc, &names)?;
    let initial = Vec::from_slice(alloc, initial)?;
    let goal = Vec::from_slice(alloc, goal)?;
    if !is_state(&ranges, &initial)
        || !is_assignment(&ranges, &goal)
        || !are_operators(&ranges, &operators)
    {
        return Ok(None);
    }
    Ok(FdrTask::new(true, names, initial, goal, operators).ok())
}

/// Returns the task with these ranges and this initial state, without goals and operators, as by `task`.
pub fn states(
    alloc: Global,
    ranges: &[usize],
    initial: &[u32],
) -> Result<Option<FdrTask>, AllocError>
    ensures task { IfOk result (λ t. IfSome t (λ t. t ≡ task_with ranges.now initial.now [] [])) }
    ensures none { IfOk result (λ t. IfNone t (IsTask (task_with ranges.now initial.now [] []) →
        IsWithinLimits (task_with ranges.now initial.now [] []) → ⊥)) }
{
    task(alloc, ranges, initial, &[], Vec::new(alloc))
}

/// Returns the task, as by `task`, of one variable that is initially 0 and has the goal value `goal`; each step (from,
/// to, cost) is an operator. `None` also if a cost is too large.
pub fn walk(
    alloc: Global,
    values: usize,
    goal: u32,
    steps: &[(u32, u32, u64)],
) -> Result<Option<FdrTask>, AllocError>
    ensures task { IfOk result (λ t. IfSome t (λ t. t ≡ walk_task values goal steps.now)) }
    ensures none { IfOk result (λ t. IfNone t (All IsPriced steps.now → IsTask (walk_task values goal steps.now) →
        IsWithinLimits (walk_task values goal steps.now) → ⊥)) }
{
    let mut operators = Vec::new(alloc);
    for &(from, to, cost) in steps {
        let Some(cost) = Cost::new(cost) else {
            return Ok(None);
        };
        operators.push(priced(alloc, &[fact(0, from)], &[fact(0, to)], cost)?)?;
    }
    task(alloc, &[values], &[0], &[fact(0, goal)], operators)
}

/// Returns whether the values are a state of the task.
pub fn is_state_of(task: &FdrTask, state: &[u32]) -> bool
    ensures { IsTrue result ↔ IsState (spec.ranges task.now) state.now }
{
    if state.len() != task.variable_count() {
        return false;
    }
    for variable in 0..state.len() {
        if state[variable] as usize >= task.range(variable) {
            return false;
        }
    }
    true
}

/// Returns whether the numbers are strictly increasing.
pub fn is_increasing(numbers: &[usize]) -> bool
    ensures { IsTrue result ↔ IsStrictlyIncreasing numbers.now }
{
    for place in 1..numbers.len() {
        if numbers[place - 1] >= numbers[place] {
            return false;
        }
    }
    true
}

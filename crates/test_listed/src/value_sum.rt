//! The sum of two values of a state as an abstraction, for tests.

ghost use Rattle.std.specs.Prelude.{◌≡◌, ◌<◌, ◌≤◌, ◌+◌, ◌^◌, ◌↔◌, ◌||◌, not, IsTrue, IfSome, IfNone};
ghost use Rattle.std.specs.List.{list_all};
ghost use Rattle.fdr.specs.Tasks as tasks;
ghost use Rattle.test_listed.specs.ValueSums as spec;

use abstraction::Abstraction;
use fdr::{Fact, FdrTask, Operator};
use std::marker::Model;

/// The greatest sum of the ranges of the two variables.
const MAX_SIZE: usize = 16_777_216;

/// The abstraction of a task that maps each state to the sum of the values of two variables. It is no projection, and
/// no domain abstraction: an operator adds to the sum and subtracts from it, whatever the two values are.
#[derive(Drop)]
pub struct ValueSum<'a> {
    task: &'a FdrTask,
    first: usize,
    second: usize,
    ghost summable: { spec.IsSummable task.now first second },
}

impl<'a> Model for ValueSum<'a> {
    ghost use Rattle.test_listed.specs.ValueSums as spec;

    ghost Value = { spec.ValueSum };

    ghost view = { λ s. record {
      task = s.task.now;
      first = s.first;
      second = s.second;
      summable = s.summable;
    } };
}

/// Returns whether one of the facts is on the variable.
fn names_variable(facts: &[Fact], variable: usize) -> bool
    ensures { result ≡ tasks.names_variable facts.now variable }
{
    facts.iter().any(|fact| fact.variable == variable)
}

/// Returns the value of the last fact on the variable, or 0 if there is none.
fn value_of(facts: &[Fact], variable: usize) -> usize
    ensures value { result ≡ spec.value_of facts.now variable }
    ensures small { result < 2 ^ 32 }
{
    let mut value = 0;
    for fact in facts {
        if fact.variable == variable {
            value = fact.value;
        }
    }
    value as usize
}

/// Returns the value of the variable before the operator if the operator has an effect on it, otherwise 0.
fn value_before(operator: &Operator, variable: usize) -> usize
    ensures value { result ≡ spec.value_before operator.now variable }
    ensures small { result < 2 ^ 32 }
{
    if names_variable(&operator.effect, variable) {
        value_of(&operator.precondition, variable)
    } else {
        0
    }
}

/// Returns whether the operator has a condition on the variable if it has an effect on it.
fn is_conditioned(operator: &Operator, variable: usize) -> bool
    ensures { result ≡ spec.is_conditioned operator.now variable }
{
    !names_variable(&operator.effect, variable) || names_variable(&operator.precondition, variable)
}

/// Returns whether each operator has conditions on the two variables if it has effects on them.
fn are_conditioned(operators: &[Operator], first: usize, second: usize) -> bool
    ensures { result ≡ list_all (spec.is_conditioned_on first second) operators.now }
{
    operators.iter().all(|operator| is_conditioned(operator, first)
        && is_conditioned(operator, second))
}

/// Returns the abstract state with this decrease and increase, if there is one.
fn moved(size: usize, less: usize, more: usize, abstract_state: usize) -> Option<usize>
    requires { abstract_state + more < 2 ^ 64 }
    ensures value { result ≡ spec.moved size less more abstract_state }
    ensures below { IfSome result (λ next. next < size) }
{
    if abstract_state < less {
        return None;
    }
    let next = abstract_state + more - less;
    if next < size { Some(next) } else { None }
}

/// Returns whether the abstraction has at most `MAX_SIZE` abstract states by these ranges.
fn is_small(first: usize, second: usize) -> bool
    ensures { IsTrue result ↔ (first + second ≤ 2 ^ 24) }
{
    first <= MAX_SIZE && second <= MAX_SIZE - first
}

impl<'a> ValueSum<'a> {
    /// Returns the abstraction by the sum of the values of two variables. `None` if one of them does not exist, if an
    /// operator has an effect but no condition on one of them, or if their ranges are too large.
    pub fn new(task: &'a FdrTask, first: usize, second: usize) -> Option<ValueSum<'a>>
        ensures sum { IfSome result (λ s. (s.task ≡ task.now) × (s.first ≡ first) × (s.second ≡ second)) }
        ensures none { IfNone result (spec.IsSummable task.now first second → ⊥) }
    {
        task.recall();
        if first >= task.variable_count() || second >= task.variable_count() {
            return None;
        }
        if !are_conditioned(task.operators(), first, second) {
            return None;
        }
        if !is_small(task.range(first), task.range(second)) {
            return None;
        }
        Some(ValueSum {
            task,
            first,
            second,
        })
    }

    /// Returns what the operator subtracts from the sum.
    fn decrease(&self, operator: &Operator) -> usize
        ensures value { result ≡ spec.decrease self.now.first self.now.second operator.now }
        ensures small { result < 2 ^ 33 }
    {
        value_before(operator, self.first) + value_before(operator, self.second)
    }

    /// Returns the sum of the facts' values for the two variables.
    fn sum_of(&self, facts: &[Fact]) -> usize
        ensures value { result ≡ spec.sum_of self.now.first self.now.second facts.now }
        ensures small { result < 2 ^ 33 }
    {
        value_of(facts, self.first) + value_of(facts, self.second)
    }
}

impl<'a> Abstraction for ValueSum<'a> {
    ghost use Rattle.test_listed.specs.ValueSums as spec;
    ghost use Rattle.test_listed.specs.ValueSumLaws.{sum_abstracts, sum_small};

    ghost task = { λ s. s.task };

    ghost abstraction = { λ s. spec.value_sum s.task s.first s.second };

    ghost abstracts = { λ s. sum_abstracts s.task s.first s.second s.summable };

    ghost is_small = { λ s. sum_small s.task s.first s.second s.summable };

    fn size(&self) -> usize {
        let ranges = self.task.range(self.first) + self.task.range(self.second);
        ranges.saturating_sub(1)
    }

    fn index(&self, state: &[u32]) -> usize {
        state[self.first] as usize + state[self.second] as usize
    }

    fn transition(&self, abstract_state: usize, operator: usize) -> Option<usize> {
        let operator = self.task.operators().get(operator)?;
        let less = self.decrease(operator);
        let more = self.sum_of(&operator.effect);
        moved(self.size(), less, more, abstract_state)
    }

    fn touches(&self, operator: usize) -> bool {
        match self.task.operators().get(operator) {
            Some(operator) => self.decrease(operator) != self.sum_of(&operator.effect),
            None => false,
        }
    }

    fn is_goal(&self, abstract_state: usize) -> bool {
        let goal = self.task.goal();
        if names_variable(goal, self.first) && names_variable(goal, self.second) {
            abstract_state == self.sum_of(goal)
        } else {
            true
        }
    }
}

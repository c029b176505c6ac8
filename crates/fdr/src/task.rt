//! Finite-domain tasks and their limits.

ghost use Rattle.std.specs.Prelude.{◌≡◌, ◌<◌, Some, true, All, length, slice_index, unwrap_or, IfOk, IfErr, OnOk};
ghost use Rattle.fdr.specs.Tasks as spec;
ghost use Rattle.fdr.specs.Tasks.{IsTask, IsWithinLimits, IsState};

use crate::fact::{Fact, all_hold, set_values};
use crate::operator::Operator;
use cost::Cost;
use std::marker::Model;
use thiserror::Error;

/// The greatest number of variables of a task.
pub const MAX_VARIABLES: usize = 65_536;

/// The greatest number of values of a variable.
pub const MAX_VALUES: usize = 65_536;

/// The greatest number of operators of a task.
pub const MAX_OPERATORS: usize = 4_294_967_295;

/// The limit that a task exceeds. Its text is the word that F18 prints.
#[derive(Clone, Copy, Debug, PartialEq, Eq, Error)]
pub enum TaskLimit {
    /// More than 65,536 variables.
    #[error("variables")]
    Variables,
    /// More than 65,536 values of one variable.
    #[error("values")]
    Values,
    /// More than 4,294,967,295 operators.
    #[error("operators")]
    Operators,
}

/// A finite-domain task (SAS+: Bäckström and Nebel 1995). All values are in range, the goal and each precondition and
/// effect name a variable at most once, and no limit of `TaskLimit` is exceeded.
#[derive(Drop)]
pub struct FdrTask {
    metric: bool,
    value_names: Vec<Vec<String>>,
    initial: Vec<u32>,
    goal: Vec<Fact>,
    operators: Vec<Operator>,
}

impl Model for FdrTask {
    ghost use Rattle.fdr.specs.Tasks.{FiniteDomainTask, IsTask, IsWithinLimits, task_of};

    ghost Value = { FiniteDomainTask };

    ghost view = { λ t. task_of t.metric t.value_names.items t.initial.items t.goal.items t.operators.items };

    ghost invariant = { λ t.
        IsTask (task_of t.metric t.value_names.items t.initial.items t.goal.items t.operators.items) ×
        IsWithinLimits (task_of t.metric t.value_names.items t.initial.items t.goal.items t.operators.items) };
}

/// Returns whether a variable has more than `MAX_VALUES` values.
fn has_long_range(value_names: &[Vec<String>]) -> bool
    ensures { result ≡ spec.has_long_range (spec.names_in value_names.now) }
{
    for names in value_names {
        if names.len() > MAX_VALUES {
            return true;
        }
    }
    false
}

impl FdrTask {
    /// Returns the task with these parts. A variable is given by the names of its values, and `initial` has one value
    /// for each variable. All values must be in range, and the goal and each precondition and effect must name a
    /// variable at most once.
    ///
    /// Fails with the first limit that is exceeded: variables before values, and values before operators.
    pub fn new(
        metric: bool,
        value_names: Vec<Vec<String>>,
        initial: Vec<u32>,
        goal: Vec<Fact>,
        operators: Vec<Operator>,
    ) -> Result<FdrTask, TaskLimit>
        requires { IsTask (spec.task_of metric value_names.items initial.items goal.items operators.items) }
        ensures task { IfOk result (λ t. t ≡ spec.task_of metric value_names.items initial.items goal.items operators.items) }
        ensures within { OnOk result (IsWithinLimits (spec.task_of metric value_names.items initial.items goal.items operators.items)) }
        ensures past { IfErr result (λ limit. spec.IsPastLimit (spec.task_of metric value_names.items initial.items goal.items operators.items) limit) }
    {
        if value_names.len() > MAX_VARIABLES {
            return Err(TaskLimit::Variables);
        }
        if has_long_range(&value_names) {
            return Err(TaskLimit::Values);
        }
        if operators.len() > MAX_OPERATORS {
            return Err(TaskLimit::Operators);
        }
        Ok(FdrTask {
            metric,
            value_names,
            initial,
            goal,
            operators,
        })
    }

    /// Proves the type's invariant: the task is well-formed and within the limits. Only for the proof.
    pub fn recall(&self)
        ensures task { IsTask self.now }
        ensures limits { IsWithinLimits self.now }
    {
        // only for the proof: reading a field makes the type's invariant available
        let _ = self.operators.len();
    }

    /// Returns whether operators have the costs that they state. Without the metric each operator costs 1.
    pub fn has_metric(&self) -> bool
        ensures { result ≡ self.now.metric }
    {
        self.metric
    }

    /// Returns the number of variables.
    pub fn variable_count(&self) -> usize
        ensures { result ≡ length self.now.value_names }
    {
        self.value_names.len()
    }

    /// Returns the names of the values of each variable.
    pub fn value_names(&self) -> &[Vec<String>]
        ensures { spec.names_in result.now ≡ self.now.value_names }
    {
        &self.value_names
    }

    /// Returns the number of values of a variable.
    pub fn range(&self, variable: usize) -> usize
        requires { variable < length self.now.value_names }
        ensures { result ≡ slice_index (spec.ranges self.now) variable }
    {
        self.value_names[variable].len()
    }

    /// Returns the number of operators.
    pub fn operator_count(&self) -> usize
        ensures { result ≡ length self.now.operators }
    {
        self.operators.len()
    }

    /// Returns the initial state: one value for each variable.
    pub fn initial(&self) -> &[u32]
        ensures value { result.now ≡ self.now.initial }
        ensures state { IsState (spec.ranges self.now) result.now }
    {
        &self.initial
    }

    /// Returns the facts of the goal, at most one for each variable.
    pub fn goal(&self) -> &[Fact]
        ensures value { result.now ≡ self.now.goal }
        ensures assignment { spec.IsAssignment (spec.ranges self.now) result.now }
    {
        &self.goal
    }

    /// Returns the operators, in the order of their numbers.
    pub fn operators(&self) -> &[Operator]
        ensures value { result.now ≡ self.now.operators }
        ensures operators { All (spec.IsOperator (spec.ranges self.now)) result.now }
    {
        &self.operators
    }

    /// Returns whether the goal holds in the state.
    pub fn is_goal(&self, state: &[u32]) -> bool
        requires { length state.now ≡ length self.now.value_names }
        ensures { result ≡ spec.is_goal_state self.now state.now }
    {
        all_hold(&self.goal, state)
    }

    /// Returns whether the operator with this number exists and applies in the state.
    pub fn applies(&self, operator: usize, state: &[u32]) -> bool
        requires { length state.now ≡ length self.now.value_names }
        ensures { result ≡ spec.applies_at self.now operator state.now }
    {
        match self.operators.get(operator) {
            Some(operator) => all_hold(&operator.precondition, state),
            None => false,
        }
    }

    /// Replaces the state by its successor under the operator with this number, if that operator exists and applies.
    /// Returns whether it does; if not, the state is unchanged.
    pub fn apply(&self, operator: usize, state: &mut [u32]) -> bool
        requires { length state.old ≡ length self.now.value_names }
        ensures applied { result ≡ spec.applies_at self.now operator state.old }
        ensures state { state.new ≡ unwrap_or (spec.step self.now state.old operator) state.old }
    {
        match self.operators.get(operator) {
            Some(operator) if all_hold(&operator.precondition, state) => {
                set_values(&operator.effect, state);
                true
            }
            _ => false,
        }
    }

    /// Replaces the state by its successor under the operator with this number, which must apply in the state: this is
    /// not tested again.
    pub fn advance(&self, operator: usize, state: &mut [u32])
        requires state { length state.old ≡ length self.now.value_names }
        requires applies { spec.applies_at self.now operator state.old ≡ true }
        ensures { spec.step self.now state.old operator ≡ Some state.new }
    {
        if let Some(operator) = self.operators.get(operator) {
            set_values(&operator.effect, state);
        }
    }

    /// Returns the cost of the operator with this number: 1 without the metric, and 0 if there is no such operator.
    pub fn cost(&self, operator: usize) -> Cost
        ensures { result ≡ spec.cost_of self.now operator }
    {
        match self.operators.get(operator) {
            Some(operator) if self.metric => operator.cost,
            Some(_) => Cost::ONE,
            None => Cost::ZERO,
        }
    }
}

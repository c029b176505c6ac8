//! Projections to patterns.

ghost use Rattle.std.specs.Prelude.{◌≡◌, ◌^◌, ◌<◌, ◌≤◌, All, length, take, slice_index, IfOk, IfErr, OnOk, IfSome, IfNone};
ghost use Rattle.std.specs.List.{list_all, list_any};
ghost use Rattle.std.specs.List.Sorted.{IsStrictlyIncreasing};
ghost use Rattle.fdr.specs.Tasks.{ranges, IsTask, IsState, IsInRange, names_variable};
ghost use Rattle.abstraction.specs.Digits.{digit_of, with_fact, IsDigitBelow, digits_from};
ghost use Rattle.abstraction.specs.Projections.{size_of, index_of, AllExist, IsFaultOf};
ghost use Rattle.abstraction.specs.Projections as spec;

use crate::abstraction::Abstraction;
use crate::digit::Digit;
use crate::fault::ProjectionFault;
use fdr::{Fact, FdrTask};
use std::alloc::Global;
use std::marker::Model;

/// The greatest number of abstract states of a projection.
const MAX_SIZE: usize = 16_777_216;

/// The projection of a task to a pattern, a list of its variables (Culberson and Schaeffer 1998). An abstract state is
/// an assignment of values to the pattern's variables. Its number is the sum of these values, each times the product of
/// the ranges of the pattern's variables before it.
#[derive(Drop)]
pub struct Projection<'a> {
    task: &'a FdrTask,
    pattern: Vec<usize>,
    digits: Vec<Digit>,
    size: usize,
    ghost is_task: { IsTask task.now },
    ghost increasing: { IsStrictlyIncreasing pattern.items },
    ghost exist: { AllExist (ranges task.now) pattern.items },
    ghost small: { size_of (ranges task.now) pattern.items ≤ 2 ^ 24 },
}

impl<'a> Model for Projection<'a> {
    ghost use Rattle.std.specs.Prelude.{◌≡◌};
    ghost use Rattle.fdr.specs.Tasks.{ranges};
    ghost use Rattle.abstraction.specs.Digits.{digits_from};
    ghost use Rattle.abstraction.specs.Projections as spec;

    ghost Value = { spec.Projection };

    ghost view = { λ p. record {
      task = p.task.now;
      pattern = p.pattern.items;
      is_task = p.is_task;
      increasing = p.increasing;
      exist = p.exist;
      small = p.small;
    } };

    ghost invariant = { λ p.
        (p.digits.items ≡ digits_from (ranges p.task.now) 1 p.pattern.items) ×
        (p.size ≡ spec.size_of (ranges p.task.now) p.pattern.items) };
}

/// Returns the first index in the pattern whose variable the task does not have.
fn first_unknown(task: &FdrTask, pattern: &[usize]) -> Option<usize>
    ensures unknown { IfSome result (λ k. IsFaultOf task.now pattern.now (ProjectionFault.UnknownVariable k)) }
    ensures exist { IfNone result (AllExist (ranges task.now) pattern.now) }
{
    for place in 0..pattern.len() {
        if pattern[place] >= task.variable_count() {
            return Some(place);
        }
    }
    None
}

/// Returns the index of a variable in a pattern, if the pattern has it.
fn place_of(pattern: &[usize], variable: usize) -> Option<usize>
    requires { IsStrictlyIncreasing pattern.now }
    ensures found { IfSome result (λ k. (k < length pattern.now) × (slice_index pattern.now k ≡ variable)) }
    ensures absent { IfNone result (All (λ p. p ≡ variable → ⊥) pattern.now) }
{
    match pattern.binary_search(&variable) {
        Ok(place) => Some(place),
        Err(_) => None,
    }
}

/// Returns whether one of the facts is on the variable.
fn names_variable(facts: &[Fact], variable: usize) -> bool
    ensures { result ≡ names_variable facts.now variable }
{
    facts.iter().any(|fact| fact.variable == variable)
}

/// Returns whether an effect is on one of these variables.
pub fn is_on_any(effect: &[Fact], variables: &[usize]) -> bool
    ensures { result ≡ list_any (names_variable effect.now) variables.now }
{
    variables
        .iter()
        .any(|variable| names_variable(effect, *variable))
}

/// Returns the digits of the pattern's variables, and the number of abstract states.
fn digits_of(
    alloc: Global,
    task: &FdrTask,
    pattern: &[usize],
) -> Result<(Vec<Digit>, usize), ProjectionFault>
    requires task { IsTask task.now }
    requires exist { AllExist (ranges task.now) pattern.now }
    ensures digits { IfOk result (λ made. made.0.items ≡ digits_from (ranges task.now) 1 pattern.now) }
    ensures size { IfOk result (λ made. made.1 ≡ size_of (ranges task.now) pattern.now) }
    ensures small { IfOk result (λ made. made.1 ≤ 2 ^ 24) }
    ensures fault { IfErr result (λ fault. IsFaultOf task.now pattern.now fault) }
{
    let mut digits = Vec::new(alloc);
    let mut size = 1;
    for place in 0..pattern.len() {
        let range = task.range(pattern[place]);
        if range > MAX_SIZE / size {
            return Err(ProjectionFault::TableTooLarge);
        }
        let digit = Digit {
            weight: size,
            range,
        };
        if digits.push(digit).is_err() {
            return Err(ProjectionFault::OutOfMemory);
        }
        size *= range;
    }
    Ok((digits, size))
}

/// Returns the abstract state of a state in the projection of a task to a pattern, whose digits are `digits`: the sum
/// of the values of the pattern's variables, each times the weight of its digit.
pub fn projected_index(task: &FdrTask, pattern: &[usize], digits: &[Digit], state: &[u32]) -> usize
    requires task { IsTask task.now }
    requires exist { AllExist (ranges task.now) pattern.now }
    requires small { size_of (ranges task.now) pattern.now ≤ 2 ^ 24 }
    requires digits { digits.now ≡ digits_from (ranges task.now) 1 pattern.now }
    requires state { IsState (ranges task.now) state.now }
    ensures value { result ≡ index_of (ranges task.now) pattern.now state.now }
    ensures below { result < size_of (ranges task.now) pattern.now }
{
    let _ = task;
    let mut index = 0;
    for place in 0..pattern.len() {
        index += state[pattern[place]] as usize * digits[place].weight;
    }
    index
}

impl<'a> Projection<'a> {
    /// Returns the projection of the task to the pattern, whose variables must be strictly increasing.
    ///
    /// Fails with the first index in the pattern whose variable does not exist; otherwise if there are more than 2^24
    /// abstract states; or if allocation fails.
    pub fn new(
        alloc: Global,
        task: &'a FdrTask,
        pattern: &[usize],
    ) -> Result<Projection<'a>, ProjectionFault>
        requires { IsStrictlyIncreasing pattern.now }
        ensures projection { IfOk result (λ p. (p.task ≡ task.now) × (p.pattern ≡ pattern.now)) }
        ensures within { OnOk result
            (AllExist (ranges task.now) pattern.now × (size_of (ranges task.now) pattern.now ≤ 2 ^ 24)) }
        ensures fault { IfErr result (λ fault. IsFaultOf task.now pattern.now fault) }
    {
        if let Some(place) = first_unknown(task, pattern) {
            return Err(ProjectionFault::UnknownVariable(place));
        }
        task.recall();
        let (digits, size) = digits_of(alloc, task, pattern)?;
        let pattern = Vec::from_slice(alloc, pattern)?;
        Ok(Projection {
            task,
            pattern,
            digits,
            size,
        })
    }

    /// Returns the task.
    pub fn task(&self) -> &FdrTask
        ensures { result.now ≡ self.now.task }
    {
        self.task
    }

    /// Returns the pattern: the variables of the task, by their numbers, whose values make up the abstract states.
    pub fn pattern(&self) -> &[usize]
        ensures { result.now ≡ self.now.pattern }
    {
        &self.pattern
    }

    /// Returns the positions of the values of the pattern's variables in an abstract state, in the order of the
    /// pattern.
    pub fn digits(&self) -> &[Digit]
        ensures { result.now ≡ digits_from (ranges self.now.task) 1 self.now.pattern }
    {
        &self.digits
    }

    /// Returns the digit of a variable, if the pattern has it.
    fn digit(&self, variable: usize) -> Option<Digit>
        ensures digit { result ≡ digit_of (ranges self.now.task) self.now.pattern variable }
        ensures below { IfSome result (IsDigitBelow (2 ^ 24)) }
        ensures range { IfSome result (λ digit. digit.range ≡ slice_index (ranges self.now.task) variable) }
    {
        match place_of(&self.pattern, variable) {
            Some(place) => Some(self.digits[place]),
            None => None,
        }
    }

    /// Returns whether the fact holds in the abstract state, or its variable is not in the pattern.
    fn agrees(&self, abstract_state: usize, fact: Fact) -> bool
        ensures { result ≡ spec.agrees (ranges self.now.task) self.now.pattern abstract_state fact }
    {
        match self.digit(fact.variable) {
            Some(digit) => digit.value(abstract_state) == fact.value as usize,
            None => true,
        }
    }

    /// Returns whether each fact agrees with the abstract state.
    fn all_agree(&self, abstract_state: usize, facts: &[Fact]) -> bool
        ensures { result ≡ list_all (spec.agrees (ranges self.now.task) self.now.pattern abstract_state) facts.now }
    {
        facts.iter().all(|fact| self.agrees(abstract_state, *fact))
    }

    /// Returns the abstract state with the value of the fact, if the pattern has its variable, otherwise the same.
    fn with_fact(&self, abstract_state: usize, fact: Fact) -> usize
        requires state { abstract_state < size_of (ranges self.now.task) self.now.pattern }
        requires fact { IsInRange (ranges self.now.task) fact }
        ensures value { result ≡ with_fact (ranges self.now.task) self.now.pattern abstract_state fact }
        ensures below { result < size_of (ranges self.now.task) self.now.pattern }
    {
        match self.digit(fact.variable) {
            Some(digit) => digit.with_value(abstract_state, fact.value as usize),
            None => abstract_state,
        }
    }

    /// Returns the abstract state after the effect.
    fn index_after(&self, abstract_state: usize, effect: &[Fact]) -> usize
        requires state { abstract_state < size_of (ranges self.now.task) self.now.pattern }
        requires effect { All (IsInRange (ranges self.now.task)) effect.now }
        ensures value { result ≡ spec.index_after (ranges self.now.task) self.now.pattern abstract_state effect.now }
        ensures below { result < size_of (ranges self.now.task) self.now.pattern }
    {
        let mut next = abstract_state;
        for fact in effect {
            next = self.with_fact(next, *fact);
        }
        next
    }
}

impl<'a> Abstraction for Projection<'a> {
    ghost use Rattle.abstraction.specs.Projections as spec;
    ghost use Rattle.abstraction.specs.ProjectionLaws.{projection_abstracts};

    ghost task = { λ p. p.task };

    ghost abstraction = { λ p. spec.projection p.task p.pattern };

    ghost abstracts = { λ p. projection_abstracts p.task p.is_task p.pattern p.exist };

    ghost is_small = { λ p. p.small };

    fn size(&self) -> usize {
        self.size
    }

    fn index(&self, state: &[u32]) -> usize {
        projected_index(self.task, &self.pattern, &self.digits, state)
    }

    fn transition(&self, abstract_state: usize, operator: usize) -> Option<usize> {
        let operator = self.task.operators().get(operator)?;
        if self.all_agree(abstract_state, &operator.precondition) {
            Some(self.index_after(abstract_state, &operator.effect))
        } else {
            None
        }
    }

    fn touches(&self, operator: usize) -> bool {
        match self.task.operators().get(operator) {
            Some(operator) => is_on_any(&operator.effect, &self.pattern),
            None => false,
        }
    }

    fn is_goal(&self, abstract_state: usize) -> bool {
        self.all_agree(abstract_state, self.task.goal())
    }
}

//! Domain abstractions.

ghost use Rattle.std.specs.Prelude.{◌≡◌, ◌^◌, ◌<◌, ◌≤◌, ◌↔◌, IsTrue, All, length, slice_index, option_map, IfOk, IfErr, OnOk, IfSome, IfNone};
ghost use Rattle.std.specs.List.{list_all};
ghost use Rattle.std.specs.List.Sorted.{IsStrictlyIncreasing};
ghost use Rattle.fdr.specs.Tasks.{ranges, IsTask, IsState, IsInRange};
ghost use Rattle.abstraction.specs.Digits.{digits_from, digit_of, with_value, with_fact, IsDigitBelow};
ghost use Rattle.abstraction.specs.Projections.{size_of};
ghost use Rattle.abstraction.specs.Projections as projections;
ghost use Rattle.abstraction_domain.specs.Domains as spec;
ghost use Rattle.abstraction_domain.specs.Domains.{variables, class_counts, counts_in, class_fact, class_facts, IsFit, IsFaultOf};

use crate::fault::DomainFault;
use crate::row::{ClassRow, copied_rows};
use abstraction::{Abstraction, Digit, is_on_any};
use fdr::{Fact, FdrTask};
use std::alloc::{AllocError, Global};
use std::marker::Model;

/// The greatest number of abstract states of a domain abstraction.
const MAX_SIZE: usize = 16_777_216;

/// The domain abstraction of a task by rows of classes (Hernádvölgyi and Holte 2000). An abstract state is an
/// assignment of classes to the variables of the rows. Its number is the sum of these classes, each times the product
/// of the numbers of classes of the rows before its own.
#[derive(Drop)]
pub struct DomainAbstraction<'a> {
    task: &'a FdrTask,
    rows: Vec<ClassRow>,
    variables: Vec<usize>,
    digits: Vec<Digit>,
    size: usize,
    ghost is_task: { IsTask task.now },
    ghost increasing: { IsStrictlyIncreasing (spec.variables rows.items) },
    ghost fit: { All (spec.IsFit (ranges task.now)) rows.items },
    ghost small: { (spec.domain task.now rows.items).size ≤ 2 ^ 24 },
}

impl<'a> Model for DomainAbstraction<'a> {
    ghost use Rattle.std.specs.Prelude.{◌≡◌};
    ghost use Rattle.fdr.specs.Tasks.{ranges};
    ghost use Rattle.abstraction.specs.Digits.{digits_from};
    ghost use Rattle.abstraction_domain.specs.Domains as spec;

    ghost Value = { spec.Domain };

    ghost view = { λ d. record {
      task = d.task.now;
      rows = d.rows.items;
      is_task = d.is_task;
      increasing = d.increasing;
      fit = d.fit;
      small = d.small;
    } };

    ghost invariant = { λ d.
        (d.variables.items ≡ spec.variables d.rows.items) ×
        (d.digits.items ≡ digits_from (spec.class_counts d.rows.items (ranges d.task.now)) 1 (spec.variables d.rows.items)) ×
        (d.size ≡ (spec.domain d.task.now d.rows.items).size) };
}

/// Returns whether the variables of the rows are strictly increasing, as those of a domain abstraction must be.
pub fn are_increasing(rows: &[ClassRow]) -> bool
    ensures { IsTrue result ↔ IsStrictlyIncreasing (variables rows.now) }
{
    for place in 1..rows.len() {
        if rows[place - 1].variable() >= rows[place].variable() {
            return false;
        }
    }
    true
}

/// Checks that each row fits the task: it has a class for each value of its variable. Fails with the first row that
/// does not.
fn check_rows(task: &FdrTask, rows: &[ClassRow]) -> Result<(), DomainFault>
    ensures fit { OnOk result (All (IsFit (ranges task.now)) rows.now) }
    ensures fault { IfErr result (λ fault. IsFaultOf task.now rows.now fault) }
{
    for place in 0..rows.len() {
        let row = &rows[place];
        let variable = row.variable();
        if variable >= task.variable_count() {
            return Err(DomainFault::UnknownVariable(place));
        }
        if row.classes().len() != task.range(variable) {
            return Err(DomainFault::WrongRange(place));
        }
    }
    Ok(())
}

/// Returns the positions of the classes of the rows' variables in an abstract state, and the number of abstract states.
fn digits_of(
    alloc: Global,
    task: &FdrTask,
    rows: &[ClassRow],
) -> Result<(Vec<Digit>, usize), DomainFault>
    requires task { IsTask task.now }
    requires increasing { IsStrictlyIncreasing (variables rows.now) }
    requires fit { All (IsFit (ranges task.now)) rows.now }
    ensures digits { IfOk result (λ made. made.0.items ≡ digits_from (class_counts rows.now (ranges task.now)) 1 (variables rows.now)) }
    ensures size { IfOk result (λ made. made.1 ≡ (spec.domain task.now rows.now).size) }
    ensures small { IfOk result (λ made. made.1 ≤ 2 ^ 24) }
    ensures fault { IfErr result (λ fault. IsFaultOf task.now rows.now fault) }
{
    let mut digits = Vec::new(alloc);
    let mut size = 1;
    for place in 0..rows.len() {
        let range = rows[place].class_count();
        if range > MAX_SIZE / size {
            return Err(DomainFault::TableTooLarge);
        }
        let digit = Digit {
            weight: size,
            range,
        };
        if digits.push(digit).is_err() {
            return Err(DomainFault::OutOfMemory);
        }
        size *= range;
    }
    Ok((digits, size))
}

/// Returns the list of the rows' variables.
fn variables_of(alloc: Global, rows: &[ClassRow]) -> Result<Vec<usize>, AllocError>
    ensures { IfOk result (λ listed. listed.items ≡ variables rows.now) }
{
    let mut listed = Vec::with_capacity(alloc, rows.len())?;
    for row in rows {
        listed.push(row.variable())?;
    }
    Ok(listed)
}

/// Returns the index of a variable in strictly increasing variables, if it is there.
fn place_of(variables: &[usize], variable: usize) -> Option<usize>
    requires { IsStrictlyIncreasing variables.now }
    ensures found { IfSome result (λ k. (k < length variables.now) × (slice_index variables.now k ≡ variable)) }
    ensures absent { IfNone result (All (λ v. v ≡ variable → ⊥) variables.now) }
{
    match variables.binary_search(&variable) {
        Ok(place) => Some(place),
        Err(_) => None,
    }
}

/// Returns the abstract state in which the variable of the digit has another class, and all others are unchanged.
fn with_class(digit: Digit, abstract_state: usize, class: usize) -> usize
    requires digit { IsDigitBelow (2 ^ 24) digit }
    requires state { abstract_state < 2 ^ 24 }
    requires class { class < digit.range }
    ensures { result ≡ with_value digit abstract_state class }
{
    abstract_state - digit.value(abstract_state) * digit.weight + class * digit.weight
}

/// Returns the abstract state of a state in the domain abstraction of a task by rows, whose digits are `digits`: the
/// sum of the classes of the values of the rows' variables, each times the weight of its digit.
pub fn class_index(task: &FdrTask, rows: &[ClassRow], digits: &[Digit], state: &[u32]) -> usize
    requires task { IsTask task.now }
    requires increasing { IsStrictlyIncreasing (variables rows.now) }
    requires fit { All (IsFit (ranges task.now)) rows.now }
    requires small { (spec.domain task.now rows.now).size ≤ 2 ^ 24 }
    requires digits { digits.now ≡ digits_from (class_counts rows.now (ranges task.now)) 1 (variables rows.now) }
    requires state { IsState (ranges task.now) state.now }
    ensures value { result ≡ (spec.domain task.now rows.now).index state.now }
    ensures below { result < (spec.domain task.now rows.now).size }
{
    let _ = task;
    let mut index = 0;
    for place in 0..rows.len() {
        let row = &rows[place];
        index += row.class(state[row.variable()]) * digits[place].weight;
    }
    index
}

/// A class of a variable, and the position of the variable's class in an abstract state.
#[derive(Clone, Copy)]
pub struct ClassDigit {
    /// The position. Its range is the number of the variable's classes.
    pub digit: Digit,
    /// The class.
    pub class: usize,
}

impl<'a> DomainAbstraction<'a> {
    /// Returns the domain abstraction of the task by the rows, whose variables must be strictly increasing. It stores a
    /// copy of the rows.
    ///
    /// Fails with the index of the first row that does not fit the task: its variable does not exist, or it does not
    /// have exactly one class for each of the variable's values; otherwise if there are more than 2^24 abstract states;
    /// or if allocation fails.
    pub fn new(
        alloc: Global,
        task: &'a FdrTask,
        rows: &[ClassRow],
    ) -> Result<DomainAbstraction<'a>, DomainFault>
        requires { IsStrictlyIncreasing (variables rows.now) }
        ensures domain { IfOk result (λ d. (d.task ≡ task.now) × (d.rows ≡ rows.now)) }
        ensures within { OnOk result
            (All (IsFit (ranges task.now)) rows.now × ((spec.domain task.now rows.now).size ≤ 2 ^ 24)) }
        ensures fault { IfErr result (λ fault. IsFaultOf task.now rows.now fault) }
    {
        check_rows(task, rows)?;
        task.recall();
        let (digits, size) = digits_of(alloc, task, rows)?;
        let rows = copied_rows(alloc, rows)?;
        let variables = variables_of(alloc, &rows)?;
        Ok(DomainAbstraction {
            task,
            rows,
            variables,
            digits,
            size,
        })
    }

    /// Returns the task.
    pub fn task(&self) -> &FdrTask
        ensures { result.now ≡ self.now.task }
    {
        self.task
    }

    /// Returns the rows, by strictly increasing variables.
    pub fn rows(&self) -> &[ClassRow]
        ensures { result.now ≡ self.now.rows }
    {
        &self.rows
    }

    /// Returns the variables of the rows, in their order.
    pub fn variables(&self) -> &[usize]
        ensures { result.now ≡ variables self.now.rows }
    {
        &self.variables
    }

    /// Returns the positions of the classes of the rows' variables in an abstract state, in the order of the rows.
    pub fn digits(&self) -> &[Digit]
        ensures { result.now ≡ digits_from (counts_in self.now) 1 (variables self.now.rows) }
    {
        &self.digits
    }

    /// Returns the fact with the class of its value, or the fact itself if its variable has no row. The domain
    /// abstraction treats a fact as the projection to the variables treats the resulting fact.
    pub fn class_fact(&self, fact: Fact) -> Fact
        requires { IsInRange (ranges self.now.task) fact }
        ensures { result ≡ class_fact self.now.rows fact }
    {
        match place_of(&self.variables, fact.variable) {
            Some(place) => Fact {
                variable: fact.variable,
                value: self.rows[place].classes()[fact.value as usize],
            },
            None => fact,
        }
    }

    /// Returns the class of the fact's value, and the position of the variable's class in an abstract state, or `None`
    /// if the variable has no row.
    pub fn class_digit(&self, fact: Fact) -> Option<ClassDigit>
        requires { IsInRange (ranges self.now.task) fact }
        ensures digit { option_map (λ found. found.digit) result ≡ digit_of (counts_in self.now) (variables self.now.rows) fact.variable }
        ensures class { IfSome result (λ found. found.class ≡ (class_fact self.now.rows fact).value) }
        ensures within { IfSome result (λ found. found.class < found.digit.range) }
        ensures below { IfSome result (λ found. IsDigitBelow (2 ^ 24) found.digit) }
    {
        match place_of(&self.variables, fact.variable) {
            Some(place) => Some(ClassDigit {
                digit: self.digits[place],
                class: self.rows[place].class(fact.value),
            }),
            None => None,
        }
    }

    /// Returns whether the fact's class is that of the abstract state, or its variable has no row.
    fn agrees(&self, abstract_state: usize, fact: Fact) -> bool
        requires { IsInRange (ranges self.now.task) fact }
        ensures { result ≡ projections.agrees (counts_in self.now) (variables self.now.rows) abstract_state
            (class_fact self.now.rows fact) }
    {
        match self.class_digit(fact) {
            Some(found) => found.digit.value(abstract_state) == found.class,
            None => true,
        }
    }

    /// Returns whether each fact's class agrees with the abstract state.
    fn all_agree(&self, abstract_state: usize, facts: &[Fact]) -> bool
        requires { All (IsInRange (ranges self.now.task)) facts.now }
        ensures { result ≡ list_all (projections.agrees (counts_in self.now) (variables self.now.rows) abstract_state)
            (class_facts self.now.rows facts.now) }
    {
        for fact in facts {
            if !self.agrees(abstract_state, *fact) {
                return false;
            }
        }
        true
    }

    /// Returns the abstract state with the class of the fact, if its variable has a row, otherwise the same.
    fn with_fact(&self, abstract_state: usize, fact: Fact) -> usize
        requires state { abstract_state < size_of (counts_in self.now) (variables self.now.rows) }
        requires fact { IsInRange (ranges self.now.task) fact }
        ensures value { result ≡ with_fact (counts_in self.now) (variables self.now.rows) abstract_state (class_fact self.now.rows fact) }
        ensures below { result < size_of (counts_in self.now) (variables self.now.rows) }
    {
        match self.class_digit(fact) {
            Some(found) => with_class(found.digit, abstract_state, found.class),
            None => abstract_state,
        }
    }

    /// Returns the abstract state after the effect.
    fn index_after(&self, abstract_state: usize, effect: &[Fact]) -> usize
        requires state { abstract_state < size_of (counts_in self.now) (variables self.now.rows) }
        requires effect { All (IsInRange (ranges self.now.task)) effect.now }
        ensures value { result ≡ projections.index_after (counts_in self.now) (variables self.now.rows) abstract_state
            (class_facts self.now.rows effect.now) }
        ensures below { result < size_of (counts_in self.now) (variables self.now.rows) }
    {
        let mut next = abstract_state;
        for fact in effect {
            next = self.with_fact(next, *fact);
        }
        next
    }
}

impl<'a> Abstraction for DomainAbstraction<'a> {
    ghost use Rattle.abstraction_domain.specs.Domains as spec;
    ghost use Rattle.abstraction_domain.specs.DomainLaws.{domain_abstracts};

    ghost task = { λ d. d.task };

    ghost abstraction = { λ d. spec.domain d.task d.rows };

    ghost abstracts = { λ d. domain_abstracts d.task d.rows d.is_task d.fit };

    ghost is_small = { λ d. d.small };

    fn size(&self) -> usize {
        self.size
    }

    fn index(&self, state: &[u32]) -> usize {
        class_index(self.task, &self.rows, &self.digits, state)
    }

    fn transition(&self, abstract_state: usize, operator: usize) -> Option<usize> {
        let operator = self.task.operators().get(operator)?;
        if self.all_agree(abstract_state, &operator.precondition) {
            Some(self.index_after(abstract_state, &operator.effect))
        } else {
            None
        }
    }

    fn touches(&self, operator: usize) -> bool {
        match self.task.operators().get(operator) {
            Some(operator) => is_on_any(&operator.effect, &self.variables),
            None => false,
        }
    }

    fn is_goal(&self, abstract_state: usize) -> bool {
        self.all_agree(abstract_state, self.task.goal())
    }
}

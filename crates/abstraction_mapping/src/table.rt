//! The abstractions of a task by mappings.

ghost use Rattle.std.specs.Prelude.{◌≡◌, ◌<◌, ◌^◌, ◌≤◌, true, false, IfOk, IsTrue, MatchOption};
ghost use Rattle.std.specs.List.Sorted.{IsStrictlyIncreasing};
ghost use Rattle.fdr.specs.Tasks.{ranges, IsInRange};
ghost use Rattle.abstraction.specs.Digits.{digits_from, IsDigitBelow};
ghost use Rattle.abstraction_mapping.specs.Mappings.{variables_of, fact_by, is_mapping};
ghost use Rattle.abstraction_mapping.specs.Mappings as spec;
ghost use Rattle.abstraction_mapping.specs.Views.{mapping_of, task_in, mapping_in, counts_in};

use crate::mapping::Mapping;
use abstraction::{Abstraction, Digit, Projection, ProjectionFault};
use abstraction_domain::{ClassRow, DomainAbstraction, DomainFault, are_increasing};
use fdr::{Fact, FdrTask};
use std::alloc::{AllocError, Global};

/// The abstraction of a task by a mapping.
#[derive(Drop)]
pub enum TableAbstraction<'a> {
    /// The projection to a pattern.
    Projection(Projection<'a>),
    /// A domain abstraction.
    Domain(DomainAbstraction<'a>),
}

/// Returns whether the numbers are strictly increasing.
fn is_increasing(numbers: &[u32]) -> bool
    ensures { result ≡ spec.is_increasing numbers.now }
{
    let Some((first, rest)) = numbers.split_first() else {
        return true;
    };
    let mut before = *first;
    for number in rest {
        if before >= *number {
            return false;
        }
        before = *number;
    }
    true
}

/// Returns the variables of the pattern as indices into a state.
fn places_of(alloc: Global, pattern: &[u32]) -> Result<Vec<usize>, AllocError>
    ensures { IfOk result (λ places. places.items ≡ pattern.now) }
{
    let mut places = Vec::with_capacity(alloc, pattern.len())?;
    for variable in pattern {
        places.push(*variable as usize)?;
    }
    Ok(places)
}

/// Returns the projection to a pattern, or `None` if there is none.
fn projection_to<'a>(
    alloc: Global,
    task: &'a FdrTask,
    pattern: &[u32],
) -> Result<Option<TableAbstraction<'a>>, AllocError>
    ensures { IfOk result (λ found. MatchOption found
        (is_mapping task.now (spec.Pattern pattern.now) ≡ false)
        (λ a. (is_mapping task.now (spec.Pattern pattern.now) ≡ true) × (task_in a ≡ task.now) × (mapping_in a ≡ spec.Pattern pattern.now))) }
{
    if !is_increasing(pattern) {
        return Ok(None);
    }
    let places = places_of(alloc, pattern)?;
    match Projection::new(alloc, task, &places) {
        Ok(projection) => Ok(Some(TableAbstraction::Projection(projection))),
        Err(ProjectionFault::OutOfMemory) => Err(AllocError),
        Err(_) => Ok(None),
    }
}

/// Returns the domain abstraction by rows, or `None` if there is none.
fn domain_by<'a>(
    alloc: Global,
    task: &'a FdrTask,
    rows: &[ClassRow],
) -> Result<Option<TableAbstraction<'a>>, AllocError>
    ensures { IfOk result (λ found. MatchOption found
        (is_mapping task.now (spec.Domains rows.now) ≡ false)
        (λ a. (is_mapping task.now (spec.Domains rows.now) ≡ true) × (task_in a ≡ task.now) × (mapping_in a ≡ spec.Domains rows.now))) }
{
    if !are_increasing(rows) {
        return Ok(None);
    }
    match DomainAbstraction::new(alloc, task, rows) {
        Ok(domain) => Ok(Some(TableAbstraction::Domain(domain))),
        Err(DomainFault::OutOfMemory) => Err(AllocError),
        Err(_) => Ok(None),
    }
}

impl<'a> TableAbstraction<'a> {
    /// Returns the abstraction of the task by the mapping, or `None` if the task has no such abstraction: the variables
    /// are not strictly increasing, one of them does not exist, a row does not have exactly one class for each value of
    /// its variable, or there are more than 2^24 abstract states.
    pub fn new(
        alloc: Global,
        task: &'a FdrTask,
        mapping: &Mapping,
    ) -> Result<Option<TableAbstraction<'a>>, AllocError>
        ensures { IfOk result (λ found. MatchOption found
            (is_mapping task.now (mapping_of mapping.now) ≡ false)
            (λ a. (is_mapping task.now (mapping_of mapping.now) ≡ true) × (task_in a ≡ task.now) × (mapping_in a ≡ mapping_of mapping.now))) }
    {
        match mapping {
            Mapping::Pattern(pattern) => projection_to(alloc, task, pattern),
            Mapping::Domains(rows) => domain_by(alloc, task, rows),
        }
    }

    /// Returns the task.
    pub fn task(&self) -> &FdrTask
        ensures { result.now ≡ task_in self.now }
    {
        match self {
            TableAbstraction::Projection(projection) => projection.task(),
            TableAbstraction::Domain(domain) => domain.task(),
        }
    }

    /// Returns the variables of the pattern or of the rows, strictly increasing.
    pub fn variables(&self) -> &[usize]
        ensures { result.now ≡ variables_of (mapping_in self.now) }
    {
        match self {
            TableAbstraction::Projection(projection) => projection.pattern(),
            TableAbstraction::Domain(domain) => domain.variables(),
        }
    }

    /// Returns the positions in an abstract state of the values or classes of these variables, in their order.
    pub fn digits(&self) -> &[Digit]
        ensures { result.now ≡ digits_from (counts_in self.now) 1 (variables_of (mapping_in self.now)) }
    {
        match self {
            TableAbstraction::Projection(projection) => projection.digits(),
            TableAbstraction::Domain(domain) => domain.digits(),
        }
    }

    /// Returns the fact, with the class of its value if the variable has a row.
    pub fn class_fact(&self, fact: Fact) -> Fact
        requires { IsInRange (ranges (task_in self.now)) fact }
        ensures { result ≡ fact_by (mapping_in self.now) fact }
    {
        match self {
            TableAbstraction::Projection(_) => fact,
            TableAbstraction::Domain(domain) => domain.class_fact(fact),
        }
    }
}

impl<'a> Abstraction for TableAbstraction<'a> {
    ghost use Rattle.abstraction_mapping.specs.Views.{task_in, abstraction_in};
    ghost use Rattle.abstraction_mapping.specs.MappingLaws.{mapping_abstracts, mapping_is_small};

    ghost task = { task_in };

    ghost abstraction = { abstraction_in };

    ghost abstracts = { mapping_abstracts };

    ghost is_small = { mapping_is_small };

    fn size(&self) -> usize {
        match self {
            TableAbstraction::Projection(projection) => projection.size(),
            TableAbstraction::Domain(domain) => domain.size(),
        }
    }

    fn index(&self, state: &[u32]) -> usize {
        match self {
            TableAbstraction::Projection(projection) => projection.index(state),
            TableAbstraction::Domain(domain) => domain.index(state),
        }
    }

    fn transition(&self, abstract_state: usize, operator: usize) -> Option<usize> {
        match self {
            TableAbstraction::Projection(projection) => {
                projection.transition(abstract_state, operator)
            }
            TableAbstraction::Domain(domain) => domain.transition(abstract_state, operator),
        }
    }

    fn touches(&self, operator: usize) -> bool {
        match self {
            TableAbstraction::Projection(projection) => projection.touches(operator),
            TableAbstraction::Domain(domain) => domain.touches(operator),
        }
    }

    fn is_goal(&self, abstract_state: usize) -> bool {
        match self {
            TableAbstraction::Projection(projection) => projection.is_goal(abstract_state),
            TableAbstraction::Domain(domain) => domain.is_goal(abstract_state),
        }
    }
}

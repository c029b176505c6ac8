//! Mappings of a task, and the abstract states of its states.

ghost use Rattle.std.specs.Prelude.{◌≡◌, ◌≢◌, ◌<◌, true, false, IfOk};
ghost use Rattle.fdr.specs.Tasks.{ranges, IsTask, IsState};
ghost use Rattle.abstraction_mapping.specs.Mappings.{is_mapping};
ghost use Rattle.abstraction_mapping.specs.TaskMappings.{abstraction_for};
ghost use Rattle.abstraction_mapping.specs.Views.{mapping_of};

use crate::mapping::Mapping;
use crate::table::TableAbstraction;
use abstraction::{Abstraction, Digit, is_on_any, projected_index};
use abstraction_domain::class_index;
use fdr::FdrTask;
use std::alloc::{AllocError, Global};
use std::marker::Model;

/// A mapping of a task, which computes the abstract states of its states. It has no transitions and no goals, unlike
/// `TableAbstraction`. In contracts its value is the task and the mapping.
#[derive(Drop)]
pub struct TaskMapping<'a> {
    task: &'a FdrTask,
    mapping: Mapping,
    variables: Vec<usize>,
    digits: Vec<Digit>,
    size: usize,
    ghost is_task: { IsTask task.now },
    ghost is_of_task: { is_mapping task.now (mapping_of mapping) ≡ true },
}

impl<'a> Model for TaskMapping<'a> {
    ghost use Rattle.std.specs.Prelude.{◌≡◌};
    ghost use Rattle.fdr.specs.Tasks.{ranges};
    ghost use Rattle.abstraction.specs.Digits.{digits_from};
    ghost use Rattle.abstraction_mapping.specs.Mappings.{variables_of, counts_by, abstraction_by};
    ghost use Rattle.abstraction_mapping.specs.Views.{mapping_of};
    ghost use Rattle.abstraction_mapping.specs.TaskMappings as spec;

    ghost Value = { spec.TaskMapping };

    ghost view = { λ m. record {
      task = m.task.now;
      mapping = mapping_of m.mapping;
      is_task = m.is_task;
      is_of_task = m.is_of_task;
    } };

    ghost invariant = { λ m.
        (m.variables.items ≡ variables_of (mapping_of m.mapping)) ×
        (m.digits.items ≡ digits_from (counts_by (mapping_of m.mapping) (ranges m.task.now)) 1 (variables_of (mapping_of m.mapping))) ×
        (m.size ≡ (abstraction_by m.task.now (mapping_of m.mapping)).size) };
}

impl<'a> TaskMapping<'a> {
    /// Returns the mapping as one of the task. The mapping is copied.
    pub fn new(
        alloc: Global,
        task: &'a FdrTask,
        mapping: &Mapping,
    ) -> Result<TaskMapping<'a>, AllocError>
        requires { is_mapping task.now (mapping_of mapping.now) ≡ true }
        ensures { IfOk result (λ m. (m.task ≡ task.now) × (m.mapping ≡ mapping_of mapping.now)) }
    {
        task.recall();
        let Some(abstraction) = TableAbstraction::new(alloc, task, mapping)? else {
            unreachable!()
        };
        let variables = Vec::from_slice(alloc, abstraction.variables())?;
        let digits = Vec::from_slice(alloc, abstraction.digits())?;
        let size = abstraction.size();
        let mapping = mapping.copied(alloc)?;
        Ok(TaskMapping {
            task,
            mapping,
            variables,
            digits,
            size,
        })
    }

    /// Returns the number of abstract states, at most 2^24.
    pub fn size(&self) -> usize
        ensures { result ≡ (abstraction_for self.now).size }
    {
        self.size
    }

    /// Returns whether its mapping is this one.
    pub fn is_of(&self, mapping: &Mapping) -> bool
        ensures same { result ≡ true → self.now.mapping ≡ mapping_of mapping.now }
        ensures different { result ≡ false → self.now.mapping ≢ mapping_of mapping.now }
    {
        self.mapping.is_same(mapping)
    }

    /// Returns the abstract state of a state of the task.
    pub fn index(&self, state: &[u32]) -> usize
        requires { IsState (ranges self.now.task) state.now }
        ensures value { result ≡ (abstraction_for self.now).index state.now }
        ensures below { result < (abstraction_for self.now).size }
    {
        match &self.mapping {
            Mapping::Pattern(_) => {
                projected_index(self.task, &self.variables, &self.digits, state)
            }
            Mapping::Domains(rows) => class_index(self.task, rows, &self.digits, state),
        }
    }

    /// Returns whether the operator with this number affects the abstraction: whether it may reach a different abstract
    /// state.
    pub fn touches(&self, operator: usize) -> bool
        ensures { result ≡ (abstraction_for self.now).touches operator }
    {
        match self.task.operators().get(operator) {
            Some(operator) => is_on_any(&operator.effect, &self.variables),
            None => false,
        }
    }
}

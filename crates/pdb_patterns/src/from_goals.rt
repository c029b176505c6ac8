//! The growth of mappings from single variables of the goal.

ghost use Rattle.std.specs.Prelude.{◌≡◌, ◌≤◌, ◌<◌, ◌^◌, true, length, slice_index, IfOk, IfSome, IfNone};
ghost use Rattle.fdr.specs.Tasks.{ranges};
ghost use Rattle.abstraction_mapping.specs.Views.{mapping_of};
ghost use Rattle.pdb_patterns.specs.Choices.{IsMappingWithin, keeps};

use crate::choice::mapping_from;
use crate::effects::{Effect, effects_of};
use abstraction_mapping::Mapping;
use fdr::FdrTask;
use std::alloc::{AllocError, Global};
use std::marker::Model;

/// Makes mappings that grow from single variables of a task. In contracts its value is the task.
#[derive(Drop)]
pub struct Growth<'a> {
    task: &'a FdrTask,
    effects: Vec<Effect>,
}

impl<'a> Model for Growth<'a> {
    ghost use Rattle.fdr.specs.Tasks.{FiniteDomainTask};

    ghost Value = { FiniteDomainTask };

    ghost view = { λ g. g.task.now };
}

impl<'a> Growth<'a> {
    /// Prepares the growth of mappings of a task: indexes the effects of its operators.
    pub fn new(alloc: Global, task: &'a FdrTask) -> Result<Growth<'a>, AllocError>
        ensures { IfOk result (λ g. g ≡ task.now) }
    {
        let effects = effects_of(alloc, task)?;
        Ok(Growth { task, effects })
    }

    /// Returns the mapping that `choose_mappings` starts with a variable for which the goal requires the value `goal`.
    /// `None` if the limit is 1 and the variable has more values.
    pub fn mapping_from(
        &self,
        alloc: Global,
        first: usize,
        goal: usize,
        limit: usize,
    ) -> Result<Option<Mapping>, AllocError>
        requires first { first < length self.now.value_names }
        requires some { 1 ≤ limit }
        requires small { limit ≤ 2 ^ 24 }
        ensures within { IfOk result (λ found. IfSome found (λ mapping. IsMappingWithin self.now limit (mapping_of mapping))) }
        ensures kept { IfOk result (λ found. IfSome found (λ mapping. keeps first (mapping_of mapping) ≡ true)) }
        ensures none { IfOk result (λ found. IfNone found ((limit < 2) × (limit < slice_index (ranges self.now) first))) }
    {
        mapping_from(alloc, self.task, &self.effects, first, goal, limit)
    }
}

//! Sets of facts of a task.

ghost use Rattle.std.specs.Prelude.{◌≡◌, ◌<◌, [], length, map, slice_index_or, IfOk};
ghost use Rattle.fdr.specs.Tasks.{ranges, IsInRange};
ghost use Rattle.reduction.specs.Facts as spec;

use fdr::{Fact, FdrTask};
use std::alloc::{AllocError, Global};
use std::marker::Model;

/// A set of facts of a task. In contracts its value is, for each variable, the list that says of each of its values
/// whether the fact is in the set.
#[derive(Drop)]
pub(crate) struct FactSet {
    members: Vec<Vec<bool>>,
}

impl Model for FactSet {
    ghost use Rattle.std.specs.Prelude.{Bool, List, map};

    ghost Value = { List (List Bool) };

    ghost view = { λ s. map (λ r. r.items) s.members.items };
}

impl FactSet {
    /// Returns the empty set of facts of a task.
    pub(crate) fn new(alloc: Global, task: &FdrTask) -> Result<FactSet, AllocError>
        ensures { IfOk result (λ s. s ≡ spec.no_facts (ranges task.now)) }
    {
        let mut members = Vec::with_capacity(alloc, task.variable_count())?;
        for variable in 0..task.variable_count() {
            let row = vec![in alloc; false; task.range(variable)]?;
            members.push(row)?;
        }
        Ok(FactSet { members })
    }

    /// Returns whether the fact is in the set.
    pub(crate) fn contains(&self, fact: Fact) -> bool
        requires { IsInRange (map length self.now) fact }
        ensures { result ≡ spec.is_in self.now fact }
    {
        let row: &[bool] = &self.members[fact.variable];
        row[fact.value as usize]
    }

    /// Adds the fact.
    pub(crate) fn insert(&mut self, fact: Fact)
        requires { IsInRange (map length self.old) fact }
        ensures { self.new ≡ spec.with_fact self.old fact }
    {
        let row = &mut self.members[fact.variable];
        row[fact.value as usize] = true;
    }

    /// Returns for each value of a variable whether the fact is in the set.
    pub(crate) fn values_of(&self, variable: usize) -> &[bool]
        requires { variable < length self.now }
        ensures { result.now ≡ slice_index_or self.now variable [] }
    {
        &self.members[variable]
    }
}

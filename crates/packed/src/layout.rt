//! The part of a task on which forms depend: the ranges of the variables.

ghost use Rattle.std.specs.Prelude.{◌≡◌, ◌<◌, ◌↔◌, length, slice_index, IsTrue, IfOk};
ghost use Rattle.fdr.specs.Tasks as tasks;
ghost use Rattle.fdr.specs.Tasks.{IsState};
ghost use Rattle.packed.specs.Fields as spec;

use crate::field::{Field, place_fields};
use fdr::FdrTask;
use std::alloc::{AllocError, Global};
use std::marker::Model;

/// The range (number of values) of each variable of a task, from which a form computes the room it needs. In contracts
/// its value is the list of ranges.
#[derive(Drop)]
pub struct Layout {
    ranges: Vec<usize>,
    /// The bits of each variable, in a form of bits.
    fields: Vec<Field>,
    /// The number of words that the fields take.
    word_count: usize,
}

impl Model for Layout {
    ghost use Rattle.std.specs.Prelude.{ℕ, List};
    ghost use Rattle.packed.specs.Fields.{IsLayout};

    ghost Value = { List ℕ };

    ghost view = { λ l. l.ranges.items };

    ghost invariant = { λ l. IsLayout l.ranges.items l.fields.items l.word_count };
}

impl Layout {
    /// Returns the layout of the task's states.
    pub fn new(alloc: Global, task: &FdrTask) -> Result<Layout, AllocError>
        ensures { IfOk result (λ l. l ≡ tasks.ranges task.now) }
    {
        task.recall();
        let mut ranges = Vec::with_capacity(alloc, task.variable_count())?;
        for variable in 0..task.variable_count() {
            ranges.push(task.range(variable))?;
        }
        let (fields, word_count) = place_fields(alloc, &ranges)?;
        Ok(Layout {
            ranges,
            fields,
            word_count,
        })
    }

    /// Returns the number of variables.
    pub fn variable_count(&self) -> usize
        ensures { result ≡ length self.now }
    {
        self.ranges.len()
    }

    /// Returns whether these are the values of a state: one for each variable, below the variable's range.
    pub fn is_state(&self, values: &[u32]) -> bool
        ensures { IsTrue result ↔ IsState self.now values.now }
    {
        values.len() == self.ranges.len()
            && values
                .iter()
                .zip(&self.ranges)
                .all(|(value, range)| (*value as usize) < *range)
    }

    /// Returns the number of words of 64 bits that a state takes in a form of bits, at least one.
    pub fn word_count(&self) -> usize
        ensures { result ≡ spec.word_count self.now }
    {
        self.word_count
    }

    /// Returns the range of a variable.
    pub(crate) fn range(&self, variable: usize) -> usize
        requires { variable < length self.now }
        ensures { result ≡ slice_index self.now variable }
    {
        self.ranges[variable]
    }

    /// Returns the bits of each variable, in a form of bits.
    pub(crate) fn fields(&self) -> &[Field]
        ensures fields { result.now ≡ spec.fields self.now }
        ensures limits { spec.AreWithinLimits self.now }
    {
        &self.fields
    }
}

//! The reduced task.

ghost use Rattle.std.specs.Prelude.{◌≡◌, [], ◌<◌, ◌≤◌, All, length, map, replicate, string_bytes, IfOk};
ghost use Rattle.std.specs.List.{range_with_len};
ghost use Rattle.fdr.specs.Limits.{max_operators};
ghost use Rattle.fdr.specs.Tasks.{ranges, names_in, IsState, IsOperator};
ghost use Rattle.abstraction_domain.specs.Rows.{class_count};
ghost use Rattle.reduction_classes.specs.Classes.{AreClassesFor, row_of, staying};
ghost use Rattle.reduction_classes.specs.Reduced.{reduced_state, reduced_operator, reduced_with, reduced_task, chosen};

use crate::classes::Classes;
use fdr::{FdrTask, Operator};
use std::alloc::{AllocError, Global};

/// Returns `count` empty names.
fn empty_names(alloc: Global, count: usize) -> Result<Vec<String>, AllocError>
    ensures { IfOk result (λ names. map string_bytes names.items ≡ replicate count []) }
{
    let mut names = Vec::with_capacity(alloc, count)?;
    for _ in 0..count {
        names.push(String::new(alloc))?;
    }
    Ok(names)
}

/// Returns the numbers below `count`.
fn all_numbers(alloc: Global, count: usize) -> Result<Vec<usize>, AllocError>
    ensures { IfOk result (λ numbers. numbers.items ≡ range_with_len 0 count) }
{
    let mut numbers = Vec::with_capacity(alloc, count)?;
    for number in 0..count {
        numbers.push(number)?;
    }
    Ok(numbers)
}

impl Classes {
    /// Returns the image of a state.
    pub fn state(&self, alloc: Global, state: &[u32]) -> Result<Vec<u32>, AllocError>
        requires { IsState (map length self.now) state.now }
        ensures { IfOk result (λ image. image.items ≡ reduced_state self.now state.now) }
    {
        let staying = self.staying();
        let mut image = Vec::with_capacity(alloc, staying.len())?;
        for variable in staying {
            image.push(self.class(*variable, state[*variable]))?;
        }
        Ok(image)
    }

    /// Returns the image of an operator. It has no name.
    pub fn operator(&self, alloc: Global, operator: &Operator) -> Result<Operator, AllocError>
        requires { IsOperator (map length self.now) operator.now }
        ensures { IfOk result (λ image. image ≡ reduced_operator self.now operator.now) }
    {
        let precondition = self.facts(alloc, &operator.precondition)?;
        let effect = self.facts(alloc, &operator.effect)?;
        Ok(Operator {
            name: String::new(alloc),
            precondition,
            effect,
            cost: operator.cost,
        })
    }

    /// Returns the names of the values of the reduced task, which are empty.
    fn value_names(&self, alloc: Global) -> Result<Vec<Vec<String>>, AllocError>
        ensures { IfOk result (λ names. names_in names.items ≡
            map (λ v. replicate (class_count (row_of self.now v)) []) (staying self.now)) }
    {
        let staying = self.staying();
        let mut names = Vec::with_capacity(alloc, staying.len())?;
        for variable in staying {
            let empty = empty_names(alloc, self.class_count(*variable))?;
            names.push(empty)?;
        }
        Ok(names)
    }

    /// Returns the images of the operators of the task with these numbers.
    fn operators(
        &self,
        alloc: Global,
        task: &FdrTask,
        numbers: &[usize],
    ) -> Result<Vec<Operator>, AllocError>
        requires fit { AreClassesFor (ranges task.now) self.now }
        requires exist { All (λ o. o < length task.now.operators) numbers.now }
        ensures { IfOk result (λ images. images.items ≡
            map (reduced_operator self.now) (chosen task.now.operators numbers.now)) }
    {
        let operators = task.operators();
        let mut images = Vec::with_capacity(alloc, numbers.len())?;
        for number in numbers {
            let image = self.operator(alloc, &operators[*number])?;
            images.push(image)?;
        }
        Ok(images)
    }

    /// Returns the reduced task with the images of the operators with these numbers, in this order. Takes time linear
    /// in the size of the task.
    pub fn task_with(
        &self,
        alloc: Global,
        task: &FdrTask,
        numbers: &[usize],
    ) -> Result<FdrTask, AllocError>
        requires fit { AreClassesFor (ranges task.now) self.now }
        requires exist { All (λ o. o < length task.now.operators) numbers.now }
        requires few { length numbers.now ≤ max_operators }
        ensures { IfOk result (λ t. t ≡ reduced_with self.now task.now (chosen task.now.operators numbers.now)) }
    {
        // only for the proof: the task is well-formed and within the limits, and the classes are numbered
        task.recall();
        self.recall();
        let value_names = self.value_names(alloc)?;
        let initial = self.state(alloc, task.initial())?;
        let goal = self.facts(alloc, task.goal())?;
        let operators = self.operators(alloc, task, numbers)?;
        match FdrTask::new(task.has_metric(), value_names, initial, goal, operators) {
            Ok(reduced) => Ok(reduced),
            Err(limit) => {
                let _ = limit; // the reduced task exceeds no limit that the task does not exceed
                unreachable!()
            }
        }
    }

    /// Returns the reduced task. Its operators have the numbers that they have in the task.
    pub fn task(&self, alloc: Global, task: &FdrTask) -> Result<FdrTask, AllocError>
        requires { AreClassesFor (ranges task.now) self.now }
        ensures { IfOk result (λ t. t ≡ reduced_task self.now task.now) }
    {
        // only for the proof: the task is within the limits
        task.recall();
        let numbers = all_numbers(alloc, task.operator_count())?;
        self.task_with(alloc, task, &numbers)
    }
}

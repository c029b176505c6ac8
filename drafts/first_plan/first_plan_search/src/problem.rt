//! What is searched.

ghost use Rattle.std.specs.Prelude.{◌≡◌, length, IfOk};
ghost use Rattle.fdr.specs.Tasks as tasks;

use fdr::FdrTask;
use fdr_successors::SuccessorGenerator;
use packed::{Layout, TaskMasks};
use scp::Columns;
use std::alloc::{AllocError, Global};
use std::marker::Model;

/// What is searched: a task, the columns of its heuristic, and what finds successors and stores states. In contracts
/// its value is the task.
#[derive(Drop)]
pub struct Problem<'a> {
    task: &'a FdrTask,
    columns: &'a Columns<'a>,
    generator: SuccessorGenerator<'a>,
    layout: Layout,
    masks: TaskMasks<'a>,
    ghost columns_are_of_task: { columns.now.task ≡ task.now },
    ghost generator_is_of_task: { generator ≡ task.now },
    ghost layout_is_of_task: { layout ≡ tasks.ranges task.now },
    ghost masks_are_of_task: { masks ≡ task.now },
}

impl<'a> Model for Problem<'a> {
    ghost use Rattle.fdr.specs.Tasks.{FiniteDomainTask};

    ghost Value = { FiniteDomainTask };

    ghost view = { λ p. p.task.now };
}

impl<'a> Problem<'a> {
    /// Returns what is searched for a task with the heuristic of these columns.
    pub fn new(alloc: Global, columns: &'a Columns<'a>) -> Result<Problem<'a>, AllocError>
        ensures { IfOk result (λ p. p ≡ columns.now.task) }
    {
        let task = columns.task();
        let generator = SuccessorGenerator::new(alloc, task)?;
        let layout = Layout::new(alloc, task)?;
        let masks = TaskMasks::new(alloc, &layout, task)?;
        Ok(Problem {
            task,
            columns,
            generator,
            layout,
            masks,
        })
    }

    /// Returns the task.
    pub fn task(&self) -> &'a FdrTask
        ensures { result.now ≡ self.now }
    {
        self.task
    }

    /// Returns the columns of the heuristic.
    pub fn columns(&self) -> &'a Columns<'a>
        ensures { result.now.task ≡ self.now }
    {
        self.columns
    }

    /// Returns the successor generator.
    pub fn generator(&self) -> &SuccessorGenerator<'a>
        ensures { result.now ≡ self.now }
    {
        &self.generator
    }

    /// Returns the layout of the forms of states.
    pub fn layout(&self) -> &Layout
        ensures { result.now ≡ tasks.ranges self.now }
    {
        &self.layout
    }

    /// Returns the effects of the operators, and the goal, as masks over the words of packed states.
    pub fn masks(&self) -> &TaskMasks<'a>
        ensures { result.now ≡ self.now }
    {
        &self.masks
    }
}

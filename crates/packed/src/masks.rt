//! The effects of a task's operators, and its goal, as masks over the words of packed states.

ghost use Rattle.std.specs.Prelude.{◌≡◌, ◌<◌, ◌++◌, [], ◌∷◌, All, length, IfOk, OnOk};
ghost use Rattle.fdr.specs.Tasks.{ranges, IsInRange};
ghost use Rattle.packed.specs.Masks as spec;

use crate::layout::Layout;
use crate::mask::{WordMask, WordTest};
use fdr::{Fact, FdrTask};
use keyed_lists::Lists;
use std::alloc::{AllocError, Global};
use std::marker::Model;

/// The effects of a task's operators, and its goal, as masks over the words of packed states: each is applied to the
/// words that it is about, whatever number of variables it names in each. In contracts its value is the task.
#[derive(Drop)]
pub struct TaskMasks<'a> {
    task: &'a FdrTask,
    /// For each operator what its effect writes.
    effects: Lists<WordMask>,
    /// What the goal asks.
    goal: Vec<WordTest>,
}

impl<'a> Model for TaskMasks<'a> {
    ghost use Rattle.fdr.specs.Tasks.{FiniteDomainTask};
    ghost use Rattle.packed.specs.Masks.{AreMasks};

    ghost Value = { FiniteDomainTask };

    ghost view = { λ m. m.task.now };

    ghost invariant = { λ m. AreMasks m.task.now m.effects m.goal.items };
}

/// Appends a mask, or joins it with the last one if both are of the same word.
fn add_mask(masks: &mut Vec<WordMask>, mask: WordMask) -> Result<(), AllocError>
    ensures { OnOk result (spec.DoAs (masks.old.items ++ mask ∷ []) masks.new.items) }
{
    match masks.pop() {
        Some(last) if last.word == mask.word => masks.push(last.then(mask))?,
        Some(last) => {
            masks.push(last)?;
            masks.push(mask)?;
        }
        None => masks.push(mask)?,
    }
    Ok(())
}

/// Appends a test, or joins it with the last one if both are of the same word and ask the same of the bits of both.
fn add_test(tests: &mut Vec<WordTest>, test: WordTest) -> Result<(), AllocError>
    ensures { OnOk result (spec.AskAs (tests.old.items ++ test ∷ []) tests.new.items) }
{
    match tests.pop() {
        Some(last) => match last.and(test) {
            Some(both) => tests.push(both)?,
            None => {
                tests.push(last)?;
                tests.push(test)?;
            }
        },
        None => tests.push(test)?,
    }
    Ok(())
}

/// Replaces the content of `masks` by masks that write the facts.
fn write_masks(layout: &Layout, facts: &[Fact], masks: &mut Vec<WordMask>) -> Result<(), AllocError>
    requires { All (IsInRange layout.now) facts.now }
    ensures { OnOk result (spec.Write layout.now facts.now masks.new.items) }
{
    masks.clear();
    for fact in facts {
        let field = layout.fields()[fact.variable];
        add_mask(masks, WordMask::new(field, fact.value))?;
    }
    Ok(())
}

/// Returns tests that ask for the facts.
fn tests_of(alloc: Global, layout: &Layout, facts: &[Fact]) -> Result<Vec<WordTest>, AllocError>
    requires { All (IsInRange layout.now) facts.now }
    ensures { IfOk result (λ tests. spec.AskFor layout.now facts.now tests.items) }
{
    let mut tests = Vec::new(alloc);
    for fact in facts {
        let field = layout.fields()[fact.variable];
        add_test(&mut tests, WordTest::new(field, fact.value))?;
    }
    Ok(tests)
}

/// Returns for each operator of the task masks that write its effect.
fn effects_of(alloc: Global, layout: &Layout, task: &FdrTask) -> Result<Lists<WordMask>, AllocError>
    requires { layout.now ≡ ranges task.now }
    ensures { IfOk result (λ effects. spec.WriteEffects task.now (length task.now.operators) effects) }
{
    let mut effects = Lists::empty(alloc);
    let mut masks = Vec::new(alloc);
    for operator in task.operators() {
        write_masks(layout, &operator.effect, &mut masks)?;
        effects.push(&masks)?;
    }
    Ok(effects)
}

impl<'a> TaskMasks<'a> {
    /// Returns the masks of a task.
    pub fn new(
        alloc: Global,
        layout: &Layout,
        task: &'a FdrTask,
    ) -> Result<TaskMasks<'a>, AllocError>
        requires { layout.now ≡ ranges task.now }
        ensures { IfOk result (λ m. m ≡ task.now) }
    {
        Ok(TaskMasks {
            task,
            effects: effects_of(alloc, layout, task)?,
            goal: tests_of(alloc, layout, task.goal())?,
        })
    }

    /// Returns the task.
    pub fn task(&self) -> &'a FdrTask
        ensures { result.now ≡ self.now }
    {
        self.task
    }

    /// Returns what the operator's effect writes.
    pub(crate) fn effect(&self, operator: usize) -> &[WordMask]
        requires { operator < length self.now.operators }
        ensures { spec.Write (ranges self.now) (spec.effect_at self.now operator) result.now }
    {
        self.effects.get(operator)
    }

    /// Returns what the goal asks.
    pub(crate) fn goal(&self) -> &[WordTest]
        ensures { spec.AskFor (ranges self.now) self.now.goal result.now }
    {
        &self.goal
    }
}

//! The operators of a task by the variables of their effects.

ghost use Rattle.std.specs.Prelude.{◌≡◌, ℕ, ◌<◌, ◌^◌, ◌↔◌, ◌++◌, All, length, Contains, IfOk, OnOk};
ghost use Rattle.std.specs.List.Sorted.{IsStrictlyIncreasing};
ghost use Rattle.abstraction_groups.specs.Indexes as spec;

use fdr::{Fact, FdrTask};
use keyed_lists::{Keyed, Lists};
use std::alloc::{AllocError, Global};
use std::marker::Model;

/// The operators of a task by the variables of their effects. In contracts its value is the task.
#[derive(Drop)]
pub struct OperatorIndex<'a> {
    task: &'a FdrTask,
    lists: Lists<u32>,
}

impl<'a> Model for OperatorIndex<'a> {
    ghost use Rattle.fdr.specs.Tasks.{FiniteDomainTask};
    ghost use Rattle.abstraction_groups.specs.Indexes as spec;

    ghost Value = { FiniteDomainTask };

    ghost view = { λ i. i.task.now };

    ghost invariant = { λ i. spec.AreOperatorsByEffect i.task.now i.lists };
}

/// Appends an entry for each effect of an operator: its variable, and the operator.
fn append_effects(
    effect: &[Fact],
    number: u32,
    entries: &mut Vec<Keyed<u32>>,
) -> Result<(), AllocError>
    requires { All (λ f. f.variable < 2 ^ 32) effect.now }
    ensures { OnOk result (entries.new.items ≡ entries.old.items ++ spec.entries_of number effect.now) }
{
    for fact in effect {
        entries.push(Keyed {
            key: fact.variable as u32,
            item: number,
        })?;
    }
    Ok(())
}

/// Returns an entry for each effect of each operator: its variable, and the operator.
fn effect_entries(alloc: Global, task: &FdrTask) -> Result<Vec<Keyed<u32>>, AllocError>
    ensures { IfOk result (λ entries. spec.AreEffects task.now (length task.now.operators) entries.items) }
{
    task.recall();
    let operators = task.operators();
    let mut entries = Vec::new(alloc);
    for number in 0..operators.len() {
        let operator = &operators[number];
        append_effects(&operator.effect, number as u32, &mut entries)?;
    }
    Ok(entries)
}

impl<'a> OperatorIndex<'a> {
    /// Returns the index of a task. Time and memory are linear in the number of variables and of effects.
    pub fn new(alloc: Global, task: &'a FdrTask) -> Result<OperatorIndex<'a>, AllocError>
        ensures { IfOk result (λ i. i ≡ task.now) }
    {
        let entries = effect_entries(alloc, task)?;
        let lists = Lists::new(alloc, task.variable_count(), &entries)?;
        Ok(OperatorIndex { task, lists })
    }

    /// Returns the operators with an effect on the variable, by strictly increasing numbers.
    pub fn operators_of(&self, variable: usize) -> &[u32]
        requires { variable < length self.now.value_names }
        ensures increasing { IsStrictlyIncreasing result.now }
        ensures operators { (o : ℕ) → Contains result.now o ↔ spec.HasEffectOn self.now o variable }
    {
        self.lists.get(variable)
    }
}

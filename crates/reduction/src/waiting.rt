//! An index of operators by the facts that they wait for.

ghost use Rattle.std.specs.Prelude.{◌≡◌, ℕ, ◌<◌, ◌↔◌, All, Contains, length, map, slice_index, IfOk};
ghost use Rattle.std.specs.List.{range_with_len};
ghost use Rattle.fdr.specs.Tasks.{ranges, IsInRange};
ghost use Rattle.keyed_lists.specs.Lists.{items_with, lists_by};
ghost use Rattle.reduction.specs.Facts.{fact};
ghost use Rattle.reduction.specs.Waiting as spec;

use crate::entries::Entries;
use fdr::{Fact, FdrTask};
use keyed_lists::{Keyed, Lists};
use std::alloc::{AllocError, Global};
use std::marker::Model;

/// The operators of a task by the facts that they wait for. In contracts its value is the task.
#[derive(Drop)]
pub(crate) struct Waiting<'a> {
    task: &'a FdrTask,
    /// For each variable and each of its values the operators that wait for the fact.
    by_value: Vec<Lists<u32>>,
    /// For each variable the operators that wait for any fact on it.
    by_variable: Lists<u32>,
}

impl<'a> Model for Waiting<'a> {
    ghost use Rattle.fdr.specs.Tasks.{FiniteDomainTask};
    ghost use Rattle.reduction.specs.Waiting.{AreWaiting};

    ghost Value = { FiniteDomainTask };

    ghost view = { λ w. w.task.now };

    ghost invariant = { λ w. AreWaiting w.task.now w.by_value.items w.by_variable };
}

/// Returns for each variable and each of its values the operators of the entries.
fn lists_of(
    alloc: Global,
    task: &FdrTask,
    entries: &[Keyed<Keyed<u32>>],
) -> Result<Vec<Lists<u32>>, AllocError>
    requires { All (λ e. IsInRange (ranges task.now) (fact e.key e.item.key)) entries.now }
    ensures { IfOk result (λ made. made.items ≡
        map (λ v. lists_by (slice_index (ranges task.now) v) (items_with v entries.now)) (range_with_len 0 (length (ranges task.now)))) }
{
    let count = task.variable_count();
    let by_variable = Lists::new(alloc, count, entries)?;
    let mut lists = Vec::with_capacity(alloc, count)?;
    for variable in 0..count {
        let listed = Lists::new(alloc, task.range(variable), by_variable.get(variable))?;
        lists.push(listed)?;
    }
    Ok(lists)
}

impl<'a> Waiting<'a> {
    /// Returns the index of a task. Takes time linear in the number of values of all variables and in the facts of the
    /// operators.
    pub(crate) fn new(alloc: Global, task: &'a FdrTask) -> Result<Waiting<'a>, AllocError>
        ensures { IfOk result (λ w. w ≡ task.now) }
    {
        let entries = Entries::new(alloc, task)?;
        let by_value = lists_of(alloc, task, &entries.by_value)?;
        let by_variable = Lists::new(alloc, task.variable_count(), &entries.by_variable)?;
        Ok(Waiting {
            task,
            by_value,
            by_variable,
        })
    }

    /// Returns the operators that wait for the fact.
    pub(crate) fn for_fact(&self, fact: Fact) -> &[u32]
        requires { IsInRange (ranges self.now) fact }
        ensures { (o : ℕ) → Contains result.now o ↔ spec.WaitsFor self.now fact o }
    {
        self.by_value[fact.variable].get(fact.value as usize)
    }

    /// Returns the operators that wait for any fact on the variable.
    pub(crate) fn for_variable(&self, variable: usize) -> &[u32]
        requires { variable < length (ranges self.now) }
        ensures { (o : ℕ) → Contains result.now o ↔ spec.WaitsForAny self.now variable o }
    {
        self.by_variable.get(variable)
    }
}

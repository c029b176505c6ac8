//! The entries of an index of operators by the facts that they wait for.

ghost use Rattle.std.specs.Prelude.{◌≡◌, ℕ, ◌<◌, ◌^◌, [], ◌∷◌, ◌++◌, true, None, All, length, slice_index_or, IfOk, OnOk};
ghost use Rattle.std.specs.List.{flat_map};
ghost use Rattle.fdr.specs.Tasks.{are_distinct};
ghost use Rattle.abstraction.specs.Facts.{value_in};
ghost use Rattle.reduction.specs.Waiting as spec;

use fdr::{Fact, FdrTask};
use keyed_lists::Keyed;
use std::alloc::{AllocError, Global};

/// Entries of operators. An operator waits for a fact if it changes a class of values as soon as the fact is asked for.
#[derive(Drop)]
pub(crate) struct Entries {
    /// By variable, then by value: operators that turn the value into another one, or another one into it.
    pub(crate) by_value: Vec<Keyed<Keyed<u32>>>,
    /// By variable: operators that set the variable and ask no value of it.
    pub(crate) by_variable: Vec<Keyed<u32>>,
}

/// Records the value of each fact for its variable.
fn set_values(facts: &[Fact], values: &mut [Option<u32>])
    requires exist { All (λ f. f.variable < length values.old) facts.now }
    requires distinct { are_distinct facts.now ≡ true }
    requires none { (v : ℕ) → slice_index_or values.old v None ≡ None }
    ensures values { (v : ℕ) → slice_index_or values.new v None ≡ value_in facts.now v }
    ensures len { length values.new ≡ length values.old }
{
    for fact in facts {
        values[fact.variable] = Some(fact.value);
    }
}

/// Erases the values of the facts.
fn clear_values(facts: &[Fact], values: &mut [Option<u32>])
    requires exist { All (λ f. f.variable < length values.old) facts.now }
    requires values { (v : ℕ) → slice_index_or values.old v None ≡ value_in facts.now v }
    ensures none { (v : ℕ) → slice_index_or values.new v None ≡ None }
    ensures len { length values.new ≡ length values.old }
{
    for fact in facts {
        values[fact.variable] = None;
    }
}

impl Entries {
    /// Adds an entry by variable and value.
    fn push_value(&mut self, variable: usize, value: u32, operator: u32) -> Result<(), AllocError>
        requires { variable < 2 ^ 32 }
        ensures by_value { OnOk result (self.new.by_value.items ≡ self.old.by_value.items ++ spec.value_entry variable value operator ∷ []) }
        ensures by_variable { self.new.by_variable.items ≡ self.old.by_variable.items }
    {
        self.by_value.push(Keyed {
            key: variable as u32,
            item: Keyed {
                key: value,
                item: operator,
            },
        })?;
        Ok(())
    }

    /// Adds the entries of an operator for one effect. `condition` is the value that the operator asks of the effect's
    /// variable.
    fn push(
        &mut self,
        operator: u32,
        condition: Option<u32>,
        effect: Fact,
    ) -> Result<(), AllocError>
        requires { effect.variable < 2 ^ 32 }
        ensures by_value { OnOk result (self.new.by_value.items ≡ self.old.by_value.items ++ spec.value_entries operator condition effect) }
        ensures by_variable { OnOk result (self.new.by_variable.items ≡ self.old.by_variable.items ++ spec.variable_entries operator condition effect) }
    {
        match condition {
            None => self.by_variable.push(Keyed {
                key: effect.variable as u32,
                item: operator,
            })?,
            Some(value) if value != effect.value => {
                self.push_value(effect.variable, value, operator)?;
                self.push_value(effect.variable, effect.value, operator)?;
            }
            Some(_) => {}
        }
        Ok(())
    }

    /// Adds the entries of an operator. `values` has the value that it asks of each variable.
    fn push_all(
        &mut self,
        operator: u32,
        values: &[Option<u32>],
        effect: &[Fact],
    ) -> Result<(), AllocError>
        requires exist { All (λ f. f.variable < length values.now) effect.now }
        requires few { length values.now < 2 ^ 32 }
        ensures by_value { OnOk result (self.new.by_value.items ≡ self.old.by_value.items ++ flat_map (λ e. spec.value_entries operator (slice_index_or values.now e.variable None) e) effect.now) }
        ensures by_variable { OnOk result (self.new.by_variable.items ≡ self.old.by_variable.items ++ flat_map (λ e. spec.variable_entries operator (slice_index_or values.now e.variable None) e) effect.now) }
    {
        for fact in effect {
            self.push(operator, values[fact.variable], *fact)?;
        }
        Ok(())
    }

    /// Returns the entries of the operators of a task. Takes time linear in the number of variables and in the facts of
    /// the operators.
    pub(crate) fn new(alloc: Global, task: &FdrTask) -> Result<Entries, AllocError>
        ensures { IfOk result (λ made. spec.AreEntries task.now (length task.now.operators) made.by_value.items made.by_variable.items) }
    {
        // only for the proof: the task is well-formed and within the limits
        task.recall();
        let mut values = vec![in alloc; None; task.variable_count()]?;
        let mut entries = Entries {
            by_value: Vec::new(alloc),
            by_variable: Vec::new(alloc),
        };
        let operators = task.operators();
        for number in 0..operators.len() {
            let operator = &operators[number];
            set_values(&operator.precondition, &mut values);
            entries.push_all(number as u32, &values, &operator.effect)?;
            clear_values(&operator.precondition, &mut values);
        }
        Ok(entries)
    }
}

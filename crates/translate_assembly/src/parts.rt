//! The parts of a finite-domain task.

ghost use Rattle.std.specs.Prelude.{◌≡◌, ◌<◌, ◌≤◌, All, IfOk, is_some, length, map};
ghost use Rattle.std.specs.List.{filter_map};
ghost use Rattle.fdr.specs.Tasks.{names_in};
ghost use Rattle.translate_theory.specs.Translations.{value_names_of};
ghost use Rattle.translate_theory.specs.Variables.{variables_at};
ghost use Rattle.translate_assembly.specs.Slots.{slot_of, values_of};
ghost use Rattle.translate_assembly.specs.Operators.{condition_facts, made_operator, places_where};
ghost use Rattle.pddl_task.specs.Limits.{max_cost};
ghost use Rattle.fdr.specs.Limits.{max_values};

use crate::conditions::condition;
use crate::initial::initial_state;
use crate::operators::CarriedOperators;
use crate::table::Table;
use crate::texts::value_names;
use fdr::{Fact, Operator};
use ground_atoms::Atoms;
use pddl_task::{GroundAction, Task};
use std::alloc::{AllocError, Global};
use translate_theory::ListedVariable;

/// The parts that make up a finite-domain task.
#[derive(Drop)]
pub struct Parts {
    /// For each variable the names of its values.
    pub value_names: Vec<Vec<String>>,
    /// The initial value of each variable.
    pub initial: Vec<u32>,
    /// The facts of the goal.
    pub goal: Vec<Fact>,
    /// The operators, in the order of their actions.
    pub operators: Vec<Operator>,
    /// For each operator the index of its action in the list of actions.
    pub carried: Vec<usize>,
}

/// Returns the parts of the finite-domain task over listed atoms and variables, from the literals of the task and of
/// the actions.
///
/// `value_names` and `initial` have one item for each variable, and `operators` and `carried` one for each action that
/// has an operator.
pub fn parts_of(
    alloc: Global,
    task: &Task,
    atoms: &Atoms,
    actions: &[GroundAction],
    variables: &[ListedVariable],
) -> Result<Parts, AllocError>
    requires within { All (λ v. All (λ p. p < length atoms.now) v.places) variables.now }
    requires short { All (λ v. length v.places ≤ max_values) variables.now }
    requires costs { All (λ a. a.cost ≤ max_cost) actions.now }
    ensures value_names { IfOk result (λ r. names_in r.value_names.items
        ≡ map (value_names_of task.now.vocabulary) (variables_at atoms.now variables.now)) }
    ensures initial { IfOk result (λ r. r.initial.items
        ≡ values_of (slot_of (variables_at atoms.now variables.now)) (map (λ v. length v.places) variables.now)
        task.now.initial) }
    ensures goal { IfOk result (λ r. r.goal.items
        ≡ condition_facts (slot_of (variables_at atoms.now variables.now)) task.now.goal) }
    ensures operators { IfOk result (λ r. r.operators.items
        ≡ filter_map (made_operator (slot_of (variables_at atoms.now variables.now)) task.now.vocabulary) actions.now) }
    ensures carried { IfOk result (λ r. r.carried.items
        ≡ places_where (λ a. is_some (made_operator (slot_of (variables_at atoms.now variables.now)) task.now.vocabulary a))
        0 actions.now) }
{
    let table = Table::new(alloc, atoms, variables)?;
    let value_names = value_names(alloc, &task.vocabulary, atoms, variables)?;
    let initial = initial_state(alloc, &table, variables, &task.initial)?;
    let goal = condition(alloc, &table, &task.goal)?.into_facts();
    let CarriedOperators { operators, carried } = CarriedOperators::new(
        alloc,
        &task.vocabulary,
        &table,
        actions,
    )?;
    Ok(Parts {
        value_names,
        initial,
        goal,
        operators,
        carried,
    })
}

//! Operators.

ghost use Rattle.std.specs.Prelude.{◌≡◌, ◌≤◌, ◌++◌, [], ◌∷◌, All, Option, IfOk, OnOk, is_some, if◌then◌else◌};
ghost use Rattle.std.specs.List.{filter_map, cons_option};
ghost use Rattle.translate_assembly.specs.Slots.{look_up};
ghost use Rattle.translate_assembly.specs.Operators.{made_operator, places_where};
ghost use Rattle.pddl_task.specs.Limits.{max_cost};

use crate::conditions::{are_consistent, condition};
use crate::effects::effect;
use crate::table::Table;
use crate::texts::action_name;
use cost::Cost;
use fdr::Operator;
use pddl_task::{GroundAction, Vocabulary};
use std::alloc::{AllocError, Global};

/// Operators, and for each the index of its action in the list of actions.
#[derive(Drop)]
pub(crate) struct CarriedOperators {
    pub(crate) operators: Vec<Operator>,
    pub(crate) carried: Vec<usize>,
}

impl CarriedOperators {
    /// Returns the operators of those actions that have one.
    pub(crate) fn new(
        alloc: Global,
        vocabulary: &Vocabulary,
        table: &Table<'_>,
        actions: &[GroundAction],
    ) -> Result<CarriedOperators, AllocError>
        requires { All (λ a. a.cost ≤ max_cost) actions.now }
        ensures operators { IfOk result (λ r. r.operators.items
            ≡ filter_map (made_operator (look_up table.now) vocabulary.now) actions.now) }
        ensures carried { IfOk result (λ r. r.carried.items
            ≡ places_where (λ a. is_some (made_operator (look_up table.now) vocabulary.now a)) 0 actions.now) }
    {
        let mut made = CarriedOperators {
            operators: Vec::new(alloc),
            carried: Vec::new(alloc),
        };
        for (place, action) in actions.iter().enumerate() {
            made.push(place, operator(alloc, vocabulary, table, action)?)?;
        }
        Ok(made)
    }

    /// Appends the operator of the action at index `place`, if it has one.
    fn push(&mut self, place: usize, operator: Option<Operator>) -> Result<(), AllocError>
        ensures operators { OnOk result (self.new.operators.items ≡ self.old.operators.items ++ cons_option operator []) }
        ensures carried { OnOk result (self.new.carried.items
            ≡ self.old.carried.items ++ (if is_some operator then place ∷ [] else [])) }
    {
        if let Some(operator) = operator {
            self.operators.push(operator)?;
            self.carried.push(place)?;
        }
        Ok(())
    }
}

/// Returns the operator of an action, or `None` if its precondition cannot hold in a reachable state.
fn operator(
    alloc: Global,
    vocabulary: &Vocabulary,
    table: &Table<'_>,
    action: &GroundAction,
) -> Result<Option<Operator>, AllocError>
    requires { action.now.cost ≤ max_cost }
    ensures { IfOk result (λ o. o ≡ made_operator (look_up table.now) vocabulary.now action.now) }
{
    let condition = condition(alloc, table, &action.precondition)?;
    if !are_consistent(table, &condition, &action.precondition) {
        return Ok(None);
    }
    let effect = effect(alloc, table, &condition, action)?;
    Ok(Some(Operator {
        name: action_name(alloc, vocabulary, action)?,
        precondition: condition.into_facts(),
        effect,
        cost: Cost::new(action.cost).unwrap(),
    }))
}

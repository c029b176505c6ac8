//! The initial state.

ghost use Rattle.std.specs.Prelude.{◌≡◌, ◌≤◌, All, length, map, IfOk};
ghost use Rattle.translate_assembly.specs.Slots.{with_slot, values_of, look_up};
ghost use Rattle.fdr.specs.Limits.{max_values};

use crate::slot::Slot;
use crate::table::Table;
use pddl_task::GroundAtom;
use std::alloc::{AllocError, Global};
use translate_theory::ListedVariable;

/// Returns for each variable the value of its initially true atom, or the none value.
pub(crate) fn initial_state(
    alloc: Global,
    table: &Table<'_>,
    variables: &[ListedVariable],
    atoms: &[GroundAtom],
) -> Result<Vec<u32>, AllocError>
    requires { All (λ v. length v.places ≤ max_values) variables.now }
    ensures { IfOk result (λ state. state.items
        ≡ values_of (look_up table.now) (map (λ v. length v.places) variables.now) atoms.now) }
{
    let mut state = none_values(alloc, variables)?;
    for atom in atoms {
        set_value(&mut state, table.slot(atom));
    }
    Ok(state)
}

/// Returns the none value of each variable: its number of atoms.
fn none_values(alloc: Global, variables: &[ListedVariable]) -> Result<Vec<u32>, AllocError>
    requires { All (λ v. length v.places ≤ max_values) variables.now }
    ensures { IfOk result (λ values. values.items ≡ map (λ v. length v.places) variables.now) }
{
    let mut values = Vec::new(alloc);
    for variable in variables {
        values.push(variable.places.len() as u32)?;
    }
    Ok(values)
}

/// Sets the variable of the slot to the value of the slot.
fn set_value(values: &mut [u32], slot: Option<Slot>)
    ensures { values.new ≡ with_slot values.old slot }
{
    if let Some(slot) = slot
        && slot.variable < values.len()
    {
        values[slot.variable] = slot.value;
    }
}

//! The slots of listed atoms.

ghost use Rattle.std.specs.Prelude.{◌≡◌, ◌==◌, ◌<◌, ◌≤◌, ℕ, All, None, Some, if◌then◌else◌, length, map, slice_index_or, IfOk};
ghost use Rattle.std.specs.Option.{option_or};
ghost use Rattle.translate_theory.specs.Variables.{variables_at};
ghost use Rattle.translate_assembly.specs.Slots.{first_slot, slots_from, slot_of, look_up};
ghost use Rattle.pddl_task.specs.Atoms.{Atom};
ghost use Rattle.fdr.specs.Limits.{max_values};

use crate::slot::Slot;
use ground_atoms::Atoms;
use pddl_task::GroundAtom;
use std::alloc::{AllocError, Global};
use std::marker::Model;
use translate_theory::ListedVariable;

/// The slot of each listed atom that is in a variable, by the index of the atom in the list.
#[derive(Drop)]
pub(crate) struct Table<'a> {
    atoms: &'a Atoms,
    slots: Vec<Option<Slot>>,
}

impl<'a> Model for Table<'a> {
    ghost use Rattle.translate_assembly.specs.Slots.{SlotTable};

    ghost Value = { SlotTable };

    ghost view = { λ t. record { atoms = t.atoms.now; slots = t.slots.items } };
}

impl<'a> Table<'a> {
    /// Returns the table of these variables. If an atom is in several, the first one counts.
    pub(crate) fn new(
        alloc: Global,
        atoms: &'a Atoms,
        variables: &[ListedVariable],
    ) -> Result<Table<'a>, AllocError>
        requires within { All (λ v. All (λ p. p < length atoms.now) v.places) variables.now }
        requires short { All (λ v. length v.places ≤ max_values) variables.now }
        ensures { IfOk result (λ table. (p : Atom) → look_up table p ≡ slot_of (variables_at atoms.now variables.now) p) }
    {
        let count = atoms.as_slice().len();
        let slots = slots(alloc, count, variables)?;
        Ok(Table { atoms, slots })
    }

    /// Returns the slot of an atom, if it is in a variable.
    pub(crate) fn slot(&self, atom: &GroundAtom) -> Option<Slot>
        ensures { result ≡ look_up self.now atom.now }
    {
        let place = self.atoms.place_of(atom)?;
        self.slots.get(place).copied().unwrap_or(None)
    }
}

/// Returns the slot of each index below `count`.
fn slots(
    alloc: Global,
    count: usize,
    variables: &[ListedVariable],
) -> Result<Vec<Option<Slot>>, AllocError>
    requires within { All (λ v. All (λ p. p < count) v.places) variables.now }
    requires short { All (λ v. length v.places ≤ max_values) variables.now }
    ensures { IfOk result (λ slots. (q : ℕ) →
        slice_index_or slots.items q None ≡ slots_from (λ p. p == q) 0 (map (λ v. v.places) variables.now)) }
{
    let mut slots = vec![in alloc; None; count]?;
    for (number, variable) in variables.iter().enumerate() {
        mark(&mut slots, number, &variable.places);
    }
    Ok(slots)
}

/// Sets the slots at the indices `places` to the values of this variable, unless they are set.
fn mark(slots: &mut [Option<Slot>], variable: usize, places: &[usize])
    requires within { All (λ p. p < length slots.old) places.now }
    requires short { length places.now ≤ max_values }
    ensures { (q : ℕ) → slice_index_or slots.new q None
        ≡ option_or (slice_index_or slots.old q None) (first_slot (λ p. p == q) variable (length places.now) 0 places.now) }
{
    let count = places.len() as u32;
    for (value, place) in places.iter().enumerate() {
        let value = value as u32;
        mark_one(
            slots,
            *place,
            Slot {
                variable,
                value,
                count,
            },
        );
    }
}

/// Sets the slot at index `place`, unless it is set.
fn mark_one(slots: &mut [Option<Slot>], place: usize, slot: Slot)
    requires { place < length slots.old }
    ensures { (q : ℕ) → slice_index_or slots.new q None
        ≡ option_or (slice_index_or slots.old q None) (if place == q then Some slot else None) }
{
    if slots[place].is_none() {
        slots[place] = Some(slot);
    }
}

//! A part of an index: the slots of the states whose hashes select it.

ghost use Rattle.std.specs.Prelude.{◌≡◌, ◌<◌, ◌≤◌, ◌^◌, true, All, length, None, IfOk, IfSome};
ghost use Rattle.slots.specs.Slots.{links_of, empties};
ghost use Rattle.checker_states.specs.Indexes.{IndexesPart, IsPart};

use crate::hash::{hash_of, number_of, part_of};
use crate::note::{EMPTY, Note};
use cert_value::ClosedList;
use slots::{Slot, add, home_of};
use std::alloc::{AllocError, Global};

/// Returns the number of slots for `states` states: two for each, but at least one and fewer than 2^32.
pub(crate) fn slot_count(states: usize) -> usize
    requires { states < 2 ^ 32 }
    ensures some { 0 < result }
    ensures few { result < 2 ^ 32 }
    ensures room { states ≤ result }
{
    states.saturating_mul(2).clamp(1, u32::MAX as usize)
}

/// Adds each state of the part to the slots, which must be empty. Returns whether there was room. `state` is a buffer
/// for the values of one state.
fn fill(
    closed: &ClosedList,
    multipliers: &[u64],
    part: usize,
    parts: usize,
    slots: &mut [Slot<Note>],
    state: &mut [u32],
) -> bool
    requires some { 0 < parts }
    requires parts { parts < 2 ^ 32 }
    requires places { length closed.now < 2 ^ 32 }
    requires slots { 0 < length slots.old }
    requires few { length slots.old < 2 ^ 32 }
    requires empty { empties (links_of slots.old) ≡ length slots.old }
    requires state { All (λ e. length e.state ≡ length state.old) closed.now }
    ensures len { length slots.new ≡ length slots.old }
    ensures holds { result ≡ true → IndexesPart parts part multipliers.now closed.now (length closed.now) slots.new }
    ensures room { length closed.now ≤ length slots.old → result ≡ true }
{
    let mut room = slots.len();
    for place in 0..closed.len() {
        closed.copy_state(place, state);
        let hash = hash_of(multipliers, state);
        if part_of(hash, parts) == part {
            if room == 0 {
                return false;
            }
            room -= 1;
            let home = home_of(number_of(hash, parts), slots.len());
            let link = place as u32 + 1;
            let note = Note::new(hash, closed.cost(place));
            add(slots, home, Slot { link, note });
        }
    }
    true
}

/// Returns `size` slots with the states of a part, or `None` if the part has more than `size` states.
fn filled(
    alloc: Global,
    closed: &ClosedList,
    multipliers: &[u64],
    part: usize,
    parts: usize,
    size: usize,
) -> Result<Option<Vec<Slot<Note>>>, AllocError>
    requires some { 0 < parts }
    requires parts { parts < 2 ^ 32 }
    requires places { length closed.now < 2 ^ 32 }
    requires slots { 0 < size }
    requires few { size < 2 ^ 32 }
    ensures part { IfOk result (λ filled. IfSome filled (λ slots. IsPart parts part multipliers.now closed.now slots.items)) }
    ensures room { IfOk result (λ filled. filled ≡ None → size < length closed.now) }
{
    let mut state = closed.buffer(alloc)?;
    let mut slots = vec![in alloc; EMPTY; size]?;
    if fill(closed, multipliers, part, parts, &mut slots, &mut state) {
        Ok(Some(slots))
    } else {
        Ok(None)
    }
}

/// Returns the slots of a part: two for each state of an average part, or, if the part has more states than that number
/// of slots, two for each state of the whole list.
pub(crate) fn part_slots(
    alloc: Global,
    closed: &ClosedList,
    multipliers: &[u64],
    part: usize,
    parts: usize,
) -> Result<Vec<Slot<Note>>, AllocError>
    requires some { 0 < parts }
    requires parts { parts < 2 ^ 32 }
    requires places { length closed.now < 2 ^ 32 }
    ensures { IfOk result (λ slots. IsPart parts part multipliers.now closed.now slots.items) }
{
    let share = slot_count(closed.len().div_ceil(parts));
    if let Some(slots) = filled(alloc, closed, multipliers, part, parts, share)? {
        return Ok(slots);
    }
    match filled(
        alloc,
        closed,
        multipliers,
        part,
        parts,
        slot_count(closed.len()),
    )? {
        Some(slots) => Ok(slots),
        None => unreachable!(),
    }
}

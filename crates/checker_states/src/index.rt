//! The index of a closed list.

ghost use Rattle.std.specs.Prelude.{◌≡◌, ◌≢◌, ◌-◌, ◌<◌, ◌≤◌, ◌^◌, nat_le, map, false, Ok, All, length, slice_get, IfOk};
ghost use Rattle.std.specs.Option.{option_map_or};
ghost use Rattle.checker_clauses.specs.Clauses.{is_listed};
ghost use Rattle.checker_states.specs.Hashes as hashes;
ghost use Rattle.checker_states.specs.Indexes.{IndexesTo, IsNoted, IsPart};
ghost use Rattle.checker_states.specs.Lists.{lists};

use crate::hash::{hash_of, multipliers, number_of, part_of, tag_of};
use crate::note::{MAX_SHORT_COST, Note};
use crate::part::{part_slots, slot_count};
use cert_value::ClosedList;
use slots::{Slot, home_of, slot_after};
use std::alloc::{AllocError, Global};
use std::marker::Model;
use std::num::NonZeroUsize;
use std::thread;
use std::thread::Threads;

/// The greatest number of parts. The thread of each part hashes all states, so that the total work grows with the
/// number of parts.
const MAX_PARTS: usize = 16;

/// The least number of states for which another thread is worth its start.
const STATES_OF_A_THREAD: usize = 4096;

/// A hash index of a closed list by the values of its states. It takes 16 bytes for each state, in two slots. A usual
/// hash map would store each state a second time, as its key. In contracts its value is the closed list.
///
/// Its slots are in parts, which threads fill in parallel; the upper bits of a state's hash select its part. A look-up
/// hashes the state once and probes the part linearly from the home slot up to an empty slot: 1.5 adjacent slots on
/// average for a listed state, and 2.5 for others. The state is compared only with those whose slots have the same tag,
/// so hardly ever with another one; if the states were chosen so that their hashes collide, with all of them.
#[derive(Drop)]
pub struct ClosedIndex<'a> {
    closed: &'a ClosedList,
    multipliers: Vec<u64>,
    parts: Vec<Vec<Slot<Note>>>,
}

impl<'a> Model for ClosedIndex<'a> {
    ghost use Rattle.std.specs.Prelude.{List};
    ghost use Rattle.cert_value.specs.Certificates.{Entry};
    ghost use Rattle.checker_states.specs.Indexes.{IndexesTo};

    ghost Value = { List Entry };

    ghost view = { λ index. index.closed.now };

    ghost invariant = { λ index. IndexesTo index.multipliers.items index.closed.now index.parts.items };
}

/// Raises each number to the state's value if that is greater.
fn raise(greatest: &mut [u32], state: &[u32])
    requires { length greatest.old ≡ length state.now }
    ensures { length greatest.new ≡ length greatest.old }
{
    for variable in 0..state.len() {
        greatest[variable] = greatest[variable].max(state[variable]);
    }
}

/// The greatest number of states that are sampled for the greatest values.
const MAX_SAMPLES: usize = 4096;

/// Raises the numbers to the greatest value of each variable in states sampled at regular distances from the list.
/// `state` is a buffer for the values of one state.
fn raise_to_samples(closed: &ClosedList, greatest: &mut [u32], state: &mut [u32])
    requires buffer { All (λ e. length e.state ≡ length state.old) closed.now }
    requires greatest { length greatest.old ≡ length state.old }
    ensures { length state.new ≡ length state.old }
{
    let apart = closed.len().div_ceil(MAX_SAMPLES).max(1);
    let mut place = 0usize;
    while place < closed.len() {
        closed.copy_state(place, state);
        raise(greatest, state);
        place = place.saturating_add(apart);
    }
}

/// Returns a multiplier for each variable.
fn multipliers_for(alloc: Global, closed: &ClosedList) -> Result<Vec<u64>, AllocError>
    requires { length closed.now < 2 ^ 32 }
{
    let mut state = closed.buffer(alloc)?;
    let mut greatest = vec![in alloc; 0; state.len()]?;
    raise_to_samples(closed, &mut greatest, &mut state);
    multipliers(alloc, &greatest, slot_count(closed.len()))
}

/// Returns the number of parts of an index of `states` states: one for each processor, at most `MAX_PARTS`, and one if
/// there are too few states for a second thread.
fn part_count(rt: &impl Threads, states: usize) -> usize
    ensures some { 0 < result }
    ensures few { result < 2 ^ 32 }
{
    thread::available_parallelism(rt)
        .map_or(1, NonZeroUsize::get)
        .min(states / STATES_OF_A_THREAD)
        .clamp(1, MAX_PARTS)
}

/// Returns the parts. Fails if one of them failed, or if allocation fails.
fn all_made(
    alloc: Global,
    made: Vec<Result<Vec<Slot<Note>>, AllocError>>,
) -> Result<Vec<Vec<Slot<Note>>>, AllocError>
    ensures { IfOk result (λ parts. map Ok parts.items ≡ made.items) }
{
    let mut parts = Vec::with_capacity(alloc, made.len())?;
    for part in made {
        parts.push(part?)?;
    }
    Ok(parts)
}

/// Returns the slots of each part, which threads fill in parallel.
fn parts_side_by_side<R: Threads + Sync>(
    rt: &R,
    alloc: Global,
    closed: &ClosedList,
    multipliers: &[u64],
    parts: usize,
) -> Result<Vec<Vec<Slot<Note>>>, AllocError>
    requires some { 0 < parts }
    requires few { parts < 2 ^ 32 }
    requires places { length closed.now < 2 ^ 32 }
    ensures { IfOk result (λ made. IndexesTo multipliers.now closed.now made.items) }
{
    let made = thread::map_indices(
        rt,
        alloc,
        parts,
        &|part: usize| -> Result<Vec<Slot<Note>>, AllocError>
            requires some { 0 < parts }
            requires few { parts < 2 ^ 32 }
            requires places { length closed.now < 2 ^ 32 }
            ensures { IfOk result (λ slots. IsPart parts part multipliers.entry.now closed.entry.now slots.items) }
        { part_slots(alloc, closed, multipliers, part, parts) },
    )?;
    all_made(alloc, made)
}

/// Returns whether the state to which the slot points has at most this cost. A cost too great for the slot is read from
/// the list.
fn costs_at_most(closed: &ClosedList, multipliers: &[u64], slot: Slot<Note>, cost: u64) -> bool
    requires taken { slot.link ≢ 0 }
    requires noted { IsNoted multipliers.now closed.now (length closed.now) slot }
    ensures { result ≡ option_map_or (λ e. nat_le e.cost cost) (slice_get closed.now (slot.link - 1)) false }
{
    if slot.note.cost < MAX_SHORT_COST {
        u64::from(slot.note.cost) <= cost
    } else {
        closed.cost(slot.link as usize - 1) <= cost
    }
}

/// Returns whether the entry to which the slot points has the state, with the tag `tag`, at most at this cost.
fn lists_at(
    closed: &ClosedList,
    multipliers: &[u64],
    slot: Slot<Note>,
    tag: u16,
    state: &[u32],
    cost: u64,
) -> bool
    requires taken { slot.link ≢ 0 }
    requires noted { IsNoted multipliers.now closed.now (length closed.now) slot }
    requires tag { tag ≡ hashes.tag_of (hashes.hash_of multipliers.now state.now) }
    ensures { result ≡ option_map_or (lists state.now cost) (slice_get closed.now (slot.link - 1)) false }
{
    slot.note.tag == tag
        && closed.has_state(slot.link as usize - 1, state)
        && costs_at_most(closed, multipliers, slot, cost)
}

/// Returns whether the state with this hash is found in the slots of its part with at most this cost.
fn is_found(
    closed: &ClosedList,
    multipliers: &[u64],
    slots: &[Slot<Note>],
    parts: usize,
    hash: u64,
    state: &[u32],
    cost: u64,
) -> bool
    requires parts { parts < 2 ^ 32 }
    requires hash { hash ≡ hashes.hash_of multipliers.now state.now }
    requires part { IsPart parts (hashes.part_of hash parts) multipliers.now closed.now slots.now }
    ensures { result ≡ is_listed closed.now state.now cost }
{
    let tag = tag_of(hash);
    let home = home_of(number_of(hash, parts), slots.len());
    for steps in 0..slots.len() {
        let slot = slot_after(slots, home, steps);
        if slot.link == 0 {
            return false;
        }
        if lists_at(closed, multipliers, slot, tag, state, cost) {
            return true;
        }
    }
    false
}

impl<'a> ClosedIndex<'a> {
    /// Builds the index of the list in linear time, with as many threads as there are processors if the list is long.
    /// Fails if allocation fails, or if there are 2^32 states or more, whose index would take 64 GiB.
    pub fn new<R: Threads + Sync>(
        rt: &R,
        alloc: Global,
        closed: &'a ClosedList,
    ) -> Result<ClosedIndex<'a>, AllocError>
        ensures { IfOk result (λ index. index ≡ closed.now) }
    {
        if closed.len() > u32::MAX as usize {
            return Err(AllocError);
        }
        let multipliers = multipliers_for(alloc, closed)?;
        let count = part_count(rt, closed.len());
        let parts = parts_side_by_side(rt, alloc, closed, &multipliers, count)?;
        Ok(ClosedIndex {
            closed,
            multipliers,
            parts,
        })
    }

    /// Returns whether the state is in the closed list with at most this cost.
    pub fn is_listed(&self, state: &[u32], cost: u64) -> bool
        ensures { result ≡ is_listed self.now state.now cost }
    {
        let hash = hash_of(&self.multipliers, state);
        let parts = self.parts.len();
        let slots = &self.parts[part_of(hash, parts)];
        is_found(
            self.closed,
            &self.multipliers,
            slots,
            parts,
            hash,
            state,
            cost,
        )
    }
}

//! Linear probing from a home slot.

ghost use Rattle.std.specs.Prelude.{◌≡◌, ◌+◌, ◌<◌, ◌^◌, Some, length, slice_get};
ghost use Rattle.slots.specs.Slots as spec;
ghost use Rattle.slots.specs.Slots.{IsFirstEmpty, AddsSlot, links_of, empties};

/// A slot of the hash index: the index of an entry, and a tag that rules out most others.
#[derive(Clone, Copy)]
pub struct Slot<N> {
    /// The entry's index plus one; 0 marks an empty slot.
    pub link: u32,
    /// The tag, without meaning in an empty slot.
    pub note: N,
}

/// Returns the number of the slot after `steps` probes from slot `home`. The first slot follows the last.
fn probed(size: usize, home: usize, steps: usize) -> usize
    requires home { home < size }
    requires steps { steps < size }
    requires few { size < 2 ^ 32 }
    ensures value { result ≡ spec.probed size home steps }
    ensures below { result < size }
{
    let at = home + steps;
    if at < size { at } else { at - size }
}

/// Returns the slot after `steps` probes from slot `home`. The first slot follows the last.
pub fn slot_after<N: Copy>(slots: &[Slot<N>], home: usize, steps: usize) -> Slot<N>
    requires home { home < length slots.now }
    requires steps { steps < length slots.now }
    requires few { length slots.now < 2 ^ 32 }
    ensures { slice_get slots.now (spec.probed (length slots.now) home steps) ≡ Some result }
{
    slots[probed(slots.len(), home, steps)]
}

/// Returns the number of probes from slot `home` to the first empty slot.
fn steps_to_empty<N: Copy>(slots: &[Slot<N>], home: usize) -> usize
    requires home { home < length slots.now }
    requires few { length slots.now < 2 ^ 32 }
    requires some { 0 < empties (links_of slots.now) }
    ensures { IsFirstEmpty (links_of slots.now) home result }
{
    for steps in 0..slots.len() {
        if slot_after(slots, home, steps).link == 0 {
            return steps;
        }
    }
    unreachable!()
}

/// Writes a slot into the first empty one of the probe sequence from slot `home`, which comes after `steps` probes.
pub fn fill<N: Copy>(slots: &mut [Slot<N>], home: usize, steps: usize, slot: Slot<N>)
    requires home { home < length slots.old }
    requires few { length slots.old < 2 ^ 32 }
    requires first { IsFirstEmpty (links_of slots.old) home steps }
    ensures { AddsSlot home slot slots.old slots.new }
{
    slots[probed(slots.len(), home, steps)] = slot;
}

/// Writes a slot into the first empty one of the probe sequence from slot `home`.
pub fn add<N: Copy>(slots: &mut [Slot<N>], home: usize, slot: Slot<N>)
    requires home { home < length slots.old }
    requires few { length slots.old < 2 ^ 32 }
    requires some { 0 < empties (links_of slots.old) }
    ensures { AddsSlot home slot slots.old slots.new }
{
    let steps = steps_to_empty(slots, home);
    fill(slots, home, steps, slot);
}

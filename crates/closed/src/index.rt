//! The slots of the hash index, through which rows are found.

ghost use Rattle.std.specs.Prelude.{◌≡◌, ℕ, ◌+◌, ◌^◌, ◌<◌, ◌≤◌, List, length, position, Some, None, IfSome, IfOk, IfErr, OnOk, OnErr};
ghost use Rattle.std.specs.Map.{keys_of};
ghost use Rattle.slots.specs.Slots.{links_of, empties, home_of, IsFirstEmpty};
ghost use Rattle.closed.specs.Rows as spec;
ghost use Rattle.closed.specs.Rows.{HasTag, IsAmongFirst, Holds, AreIndexed, tags_of};

use crate::rows::Hint;
use crate::small_entry::SmallEntry;
use slots::{Slot, add, home_of, slot_after};
use std::alloc::AllocError;
use std::hash::{FoldHasher, Hash, Hasher};

/// The number of slots of a new table.
pub(crate) const FIRST_SLOTS: usize = 24;

/// The greatest number of slots, 2^32 - 1.
const MAX_SLOTS: usize = 4_294_967_295;

/// The greatest number of rows, two thirds of the greatest number of slots.
const MAX_ROWS: usize = 2_863_311_530;

/// A slot without a row.
pub(crate) const EMPTY: Slot<u32> = Slot { link: 0, note: 0 };

/// Returns the tag of a form: the upper half of the hash that std's maps compute of it.
#[tactic(auto, unfolding(crate::specs::Rows::tag_of))]
pub(crate) fn tag_of<F: Hash>(form: &F) -> u32
    ensures { result ≡ spec.tag_of (F.hash_input form.now) }
{
    let mut hasher = FoldHasher::default();
    form.hash(&mut hasher);
    (hasher.finish() >> 32) as u32
}

/// Returns the number of rows for which `size` slots have room: two thirds, so that runs of taken slots stay short.
fn room_in(size: usize) -> usize
    requires { size < 2 ^ 32 }
    ensures { result ≡ spec.room_in size }
{
    size / 3 * 2
}

/// Returns the number of slots to grow to from `size`, which are too few for `rows` rows: twice as many, or as many as
/// the rows need if that is more; `None` if no number of slots suffices.
fn grown_count(size: usize, rows: usize) -> Option<usize>
    requires few { size < 2 ^ 32 }
    requires short { spec.room_in size < rows }
    ensures some { IfSome result (λ n. 0 < n) }
    ensures few { IfSome result (λ n. n < 2 ^ 32) }
    ensures room { IfSome result (λ n. rows ≤ spec.room_in n) }
{
    if rows > MAX_ROWS {
        return None;
    }
    Some((size * 2).min(MAX_SLOTS).max(rows.div_ceil(2) * 3))
}

/// Adds the taken slots to slots that are empty. It follows their order, in which their home slots nearly increase, so
/// that memory is written nearly in order, and no row is read.
fn add_taken(taken: &[Slot<u32>], slots: &mut [Slot<u32>])
    requires few { length slots.old < 2 ^ 32 }
    requires empty { empties (links_of slots.old) ≡ length slots.old }
    requires room { length taken.now < length slots.old + empties (links_of taken.now) }
    ensures len { length slots.new ≡ length slots.old }
    ensures count { empties (links_of slots.new) + length taken.now ≡ length slots.old + empties (links_of taken.now) }
    ensures holds { Holds (IsAmongFirst (length taken.now) taken.now) slots.new }
{
    for slot in taken {
        if slot.link != 0 {
            let home = home_of(slot.note, slots.len());
            add(slots, home, *slot);
        }
    }
}

/// Adds a slot for each row to slots that are empty.
pub(crate) fn add_rows<F: Hash>(rows: &[(F, SmallEntry)], slots: &mut [Slot<u32>])
    requires few { length slots.old < 2 ^ 32 }
    requires empty { empties (links_of slots.old) ≡ length slots.old }
    requires room { length rows.now < length slots.old }
    ensures len { length slots.new ≡ length slots.old }
    ensures count { length rows.now + empties (links_of slots.new) ≡ length slots.old }
    ensures holds { Holds (HasTag (tags_of F.hash_input rows.now)) slots.new }
{
    for (place, row) in rows.iter().enumerate() {
        let note = tag_of(&row.0);
        let home = home_of(note, slots.len());
        let link = place as u32 + 1;
        add(slots, home, Slot { link, note });
    }
}

/// Makes room for `rows` rows, at least as many as there are. Fails if allocation fails or `rows` exceeds `MAX_ROWS`;
/// the slots are then unchanged.
pub(crate) fn make_room(slots: &mut Vec<Slot<u32>>, rows: usize) -> Result<(), AllocError>
    requires some { 0 < length slots.old.items }
    requires few { length slots.old.items < 2 ^ 32 }
    requires held { length slots.old.items ≤ rows + empties (links_of slots.old.items) }
    ensures some { 0 < length slots.new.items }
    ensures few { length slots.new.items < 2 ^ 32 }
    ensures count { empties (links_of slots.new.items) + length slots.old.items ≡ length slots.new.items + empties (links_of slots.old.items) }
    ensures holds { (tags : List ℕ) → Holds (HasTag tags) slots.old.items → Holds (HasTag tags) slots.new.items }
    ensures room { OnOk result (rows ≤ spec.room_in (length slots.new.items)) }
    ensures unchanged { OnErr result (slots.new.items ≡ slots.old.items) }
{
    if rows <= room_in(slots.len()) {
        return Ok(());
    }
    let Some(count) = grown_count(slots.len(), rows) else {
        return Err(AllocError);
    };
    let mut grown = vec![in *slots.allocator(); EMPTY; count]?;
    add_taken(slots, &mut grown);
    *slots = grown;
    Ok(())
}

/// Returns the home slot of a tag and the next one. Nothing here depends on what the slots hold, so reads for several
/// forms overlap.
pub(crate) fn first_slots(slots: &[Slot<u32>], tag: u32) -> (Slot<u32>, Slot<u32>)
    requires some { 0 < length slots.now }
    requires few { length slots.now < 2 ^ 32 }
{
    let size = slots.len();
    let home = home_of(tag, size);
    (
        slot_after(slots, home, 0),
        slot_after(slots, home, size.min(2) - 1),
    )
}

/// Looks up the form that has this tag. Returns the index of its row, or, if there is none, as an error, after how many
/// probes from the tag's home slot the first empty slot comes, which the form's row would take. Forms are compared only
/// if their tags are equal.
fn find<F: Hash>(
    rows: &[(F, SmallEntry)],
    slots: &[Slot<u32>],
    form: &F,
    tag: u32,
) -> Result<usize, usize>
    requires indexed { AreIndexed F.eq F.hash_input rows.now slots.now }
    requires tag { tag ≡ spec.tag_of (F.hash_input form.now) }
    ensures index { IfOk result (λ i. position (F.eq form.now) (keys_of rows.now) ≡ Some i) }
    ensures within { IfOk result (λ i. i < length rows.now) }
    ensures absent { IfErr result (λ _. position (F.eq form.now) (keys_of rows.now) ≡ None) }
    ensures free { IfErr result (λ steps. IsFirstEmpty (links_of slots.now) (home_of tag (length slots.now)) steps) }
{
    let home = home_of(tag, slots.len());
    for steps in 0..slots.len() {
        let slot = slot_after(slots, home, steps);
        if slot.link == 0 {
            return Err(steps);
        }
        let index = slot.link as usize - 1;
        if slot.note == tag && *form == rows[index].0 {
            return Ok(index);
        }
    }
    unreachable!() // at least a third of the slots are empty
}

/// Returns the same as `find`, after trying the row that one of the hint's slots names by the tag, if any: if it has
/// the form, no slot is read.
pub(crate) fn find_hinted<F: Hash>(
    rows: &[(F, SmallEntry)],
    slots: &[Slot<u32>],
    form: &F,
    hint: Hint,
) -> Result<usize, usize>
    requires indexed { AreIndexed F.eq F.hash_input rows.now slots.now }
    requires tag { hint.tag ≡ spec.tag_of (F.hash_input form.now) }
    ensures index { IfOk result (λ i. position (F.eq form.now) (keys_of rows.now) ≡ Some i) }
    ensures within { IfOk result (λ i. i < length rows.now) }
    ensures absent { IfErr result (λ _. position (F.eq form.now) (keys_of rows.now) ≡ None) }
    ensures free { IfErr result (λ steps. IsFirstEmpty (links_of slots.now) (home_of hint.tag (length slots.now)) steps) }
{
    let index = (hint.link() as usize).wrapping_sub(1);
    match rows.get(index) {
        Some(row) if *form == row.0 => Ok(index),
        _ => find(rows, slots, form, hint.tag),
    }
}

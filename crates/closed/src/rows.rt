//! Rows: the forms of states with their entries, and a hash index of them.

ghost use Rattle.std.specs.Prelude.{◌≡◌, ◌<◌, [], ◌∷◌, ◌++◌, take, length, position, Some, None, slice_get, IfOk, IfSome, IfNone, OnErr};
ghost use Rattle.std.specs.Option.{option_copied};
ghost use Rattle.std.specs.Map.{keys_of, values_of};
ghost use Rattle.closed.specs.Entries.{set_entry_at};
ghost use Rattle.closed.specs.Hints.{IsHintFor};

use crate::index::{EMPTY, FIRST_SLOTS, add_rows, find_hinted, first_slots, make_room, tag_of};
use crate::small_entry::SmallEntry;
use packed::StateForm;
use slots::{Slot, fill, home_of};
use std::alloc::{AllocError, Global};
use std::hash::Hash;
use std::marker::Model;

/// What later look-ups of a form start with, so that it is hashed once: its tag, and its first slots, which may name
/// its row. The result of a look-up depends on the tag, and not on the slots.
#[derive(Clone, Copy)]
pub struct Hint {
    /// The form's tag.
    pub(crate) tag: u32,
    /// The form's home slot, as it was when it was read.
    pub(crate) home: Slot<u32>,
    /// The slot after it.
    pub(crate) next: Slot<u32>,
}

impl Hint {
    /// The hint for no form.
    pub const NONE: Hint = Hint {
        tag: 0,
        home: EMPTY,
        next: EMPTY,
    };

    /// Returns a hint for the form, without reading its slots.
    pub(crate) fn of<F: Hash>(form: &F) -> Hint
        ensures { IsHintFor F.hash_input form.now result }
    {
        Hint {
            tag: tag_of(form),
            ..Hint::NONE
        }
    }

    /// Returns the link of the first of the two slots that has the tag, 0 if none has it: most often that of the row of
    /// the form with this tag, if it has one.
    pub(crate) fn link(&self) -> u32 {
        if self.home.note == self.tag {
            self.home.link
        } else if self.next.note == self.tag {
            self.next.link
        } else {
            0
        }
    }
}

/// The forms of states, each stored with its entry, with a hash index of the forms: open addressing, 8 bytes a slot, at
/// most two thirds of the slots taken. A look-up probes linearly from the home slot of the form's tag to an empty slot,
/// mostly within one cache line. It reads a row only if the slot has the form's tag, hardly ever that of another form.
///
/// No two forms are equal, and there are at most 2,863,311,530. In contracts its value is the list of the rows.
#[derive(Drop)]
pub(crate) struct Rows<F: StateForm + Drop> {
    rows: Vec<(F, SmallEntry)>,
    /// The slots of the hash index, tagged by the forms' tags.
    slots: Vec<Slot<u32>>,
}

impl<F: StateForm + Drop> Model for Rows<F> {
    ghost use Rattle.std.specs.Prelude.{List};
    ghost use Rattle.closed.specs.declared.small_entry.SmallEntry.{SmallEntry};
    ghost use Rattle.closed.specs.Rows.{AreIndexed};

    ghost Value = { List (F × SmallEntry) };

    ghost view = { λ r. r.rows.items };

    ghost invariant = { λ r. AreIndexed F.eq F.hash_input r.rows.items r.slots.items };
}

impl<F: StateForm + Drop> Rows<F> {
    /// Returns a table without rows.
    pub(crate) fn new(alloc: Global) -> Result<Rows<F>, AllocError>
        ensures { IfOk result (λ rows. rows ≡ []) }
    {
        Ok(Rows {
            rows: Vec::new(alloc),
            slots: vec![in alloc; EMPTY; FIRST_SLOTS]?,
        })
    }

    /// Returns the allocator.
    pub(crate) fn allocator(&self) -> &Global {
        self.rows.allocator()
    }

    /// Returns the number of rows.
    pub(crate) fn len(&self) -> usize
        ensures len { result ≡ length self.now }
    {
        self.rows.len()
    }

    /// Hashes `form` and reads its first slots, and returns these as a hint.
    pub(crate) fn hint(&self, form: &F) -> Hint
        ensures { IsHintFor F.hash_input form.now result }
    {
        let tag = tag_of(form);
        let (home, next) = first_slots(&self.slots, tag);
        Hint { tag, home, next }
    }

    /// Returns the index of the row with this form, or `None` if there is none. The hint is one for the form.
    pub(crate) fn index_of(&self, form: &F, hint: Hint) -> Option<usize>
        requires hint { IsHintFor F.hash_input form.now hint }
        ensures index { result ≡ position (F.eq form.now) (keys_of self.now) }
        ensures within { IfSome result (λ i. i < length self.now) }
    {
        match find_hinted(&self.rows, &self.slots, form, hint) {
            Ok(index) => Some(index),
            Err(_) => None,
        }
    }

    /// Returns the row at the index, or `None` past the last row.
    pub(crate) fn get(&self, index: usize) -> Option<&(F, SmallEntry)>
        ensures { option_copied result ≡ slice_get self.now index }
    {
        self.rows.get(index)
    }

    /// Returns the entry at the index.
    pub(crate) fn entry(&self, index: usize) -> SmallEntry
        requires { index < length self.now }
        ensures { slice_get (values_of self.now) index ≡ Some result }
    {
        self.rows[index].1
    }

    /// Replaces the entry at the index.
    pub(crate) fn set_entry(&mut self, index: usize, entry: SmallEntry)
        requires { index < length self.old }
        ensures { self.new ≡ set_entry_at self.old index entry }
    {
        self.rows[index].1 = entry;
    }

    /// Returns the index of the row with this form. If there is none, appends a row with it and this entry, and returns
    /// `None`: the row's slot is the one at which the look-up ended. The hint is one for the form. Fails if allocation
    /// fails or there are too many rows; the rows are then unchanged.
    pub(crate) fn index_or_push(
        &mut self,
        form: F,
        entry: SmallEntry,
        hint: Hint,
    ) -> Result<Option<usize>, AllocError>
        requires hint { IsHintFor F.hash_input form hint }
        ensures index { IfOk result (λ index. index ≡ position (F.eq form) (keys_of self.old)) }
        ensures within { IfOk result (λ index. IfSome index (λ i. i < length self.old)) }
        ensures pushed { IfOk result (λ index. IfNone index (self.new ≡ self.old ++ (form, entry) ∷ [])) }
        ensures same { IfOk result (λ index. IfSome index (λ _. self.new ≡ self.old)) }
        ensures unchanged { OnErr result (self.new ≡ self.old) }
    {
        make_room(&mut self.slots, self.rows.len() + 1)?;
        let steps = match find_hinted(&self.rows, &self.slots, &form, hint) {
            Ok(index) => return Ok(Some(index)),
            Err(steps) => steps,
        };
        self.rows.push((form, entry))?;
        let link = self.rows.len() as u32;
        let note = hint.tag;
        let home = home_of(note, self.slots.len());
        fill(&mut self.slots, home, steps, Slot { link, note });
        Ok(None)
    }

    /// Removes the rows from index `len` on. If there are any, it takes time linear in the size of the table, because a
    /// single slot cannot be emptied: probe sequences of other forms pass it. It is used only to undo writes after an
    /// allocation has failed.
    pub(crate) fn truncate(&mut self, len: usize)
        ensures { self.new ≡ take len self.old }
    {
        if len < self.rows.len() {
            self.rows.truncate(len);
            self.slots.fill(EMPTY);
            add_rows(&self.rows, &mut self.slots);
        }
    }
}

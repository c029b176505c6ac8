//! The table of reached states.

ghost use Rattle.std.specs.Prelude.{◌≡◌, ◌≢◌, IsTrue, ℕ, ◌<◌, ◌≤◌, ◌==◌, ◌⊎◌, true, false, List, [], take, length, map, fold, Option, slice_get, slice_set, position, Some, None, IfOk, IfSome, IfNone, OnOk, OnErr, All};
ghost use Rattle.std.specs.Map.{keys_of};
ghost use Rattle.fdr.specs.Tasks as tasks;
ghost use Rattle.fdr.specs.Tasks.{IsState};
ghost use Rattle.owner_theory.specs.Owners.{Node, marked};
ghost use Rattle.closed.specs.declared.message.Parent.{Parent};
ghost use Rattle.closed.specs.declared.table.Outcome.TheVariants.{New, Better, Kept};
ghost use Rattle.closed.specs.Tables.{padded, was_expanded, reached, outcome_of, outcomes_of, node_with, fresh, arrival};
ghost use Rattle.closed.specs.Hints.{IsHintFor, AreHintsFor};
ghost use Rattle.closed.specs.Limits.{IsPastEntry};
ghost use Rattle.closed.specs.Entries.{entry_in, nodes_of, ever_of, with_entry, taken_back, Notes};

use crate::message::{Message, Parent};
use crate::rows::{Hint, Rows};
use crate::small_entry::SmallEntry;
use fdr::FdrTask;
use openlist::Rank;
use packed::{Layout, StateForm};
use std::alloc::{AllocError, Global};
use std::marker::Model;

/// The data stored for a state besides its values.
#[derive(Clone, Copy, Debug, PartialEq, Eq)]
pub struct Entry {
    /// The least rank at which the state was reached.
    pub rank: Rank,
    /// The origin of the state at that rank, or `None` for the initial state.
    pub parent: Option<Parent>,
    /// Whether it was expanded at that rank.
    pub expanded: bool,
}

/// The outcome of reaching a state, with the state's index in the table if it is new or improved.
#[derive(Clone, Copy, Debug, PartialEq, Eq)]
pub enum Outcome {
    /// The state had not been reached before.
    New(usize),
    /// It had been reached at a greater rank. It now has the lesser one, and is not expanded at it.
    Better(usize),
    /// It had been reached at this rank or a lesser one, and is unchanged: a duplicate.
    Kept,
}

/// The reached states, in the order in which they were first reached, with a hash index of their forms. In contracts
/// its value is the ranges of the task's variables, a node for each state, and for each whether it was ever expanded. A
/// state takes the size of its form, 24 bytes for its entry and 12 to 24 bytes of the index.
///
/// A table holds at most 2,863,311,530 states; adding another fails like a failed allocation. It holds ranks of at most
/// 2^32 - 1 steps, and parents whose index and operator are at most 2^32 - 1 and whose worker is at most 255.
#[derive(Drop)]
pub struct ClosedTable<F: StateForm + Drop> {
    layout: Layout,
    rows: Rows<F>,
    /// A buffer for the form of the state that is looked up.
    sought: F,
}

impl<F: StateForm + Drop> Model for ClosedTable<F> {
    ghost use Rattle.closed.specs.Tables.{Table};
    ghost use Rattle.closed.specs.Entries.{nodes_of, ever_of, AreForms};

    ghost Value = { Table };

    ghost view = { λ t. record { ranges = t.layout; nodes = nodes_of (F.values t.layout) t.rows; ever = ever_of t.rows } };

    ghost invariant = { λ t. AreForms F.Fits F.IsForm t.layout t.rows t.sought };
}

/// Returns the outcome of reaching the state of a form at a rank, if all keys are forms of states with the same ranges.
/// A form that equals none of them is new, even if it is no form of a state. The hint is one for the form.
fn outcome_among<F: StateForm + Drop>(rows: &Rows<F>, form: &F, rank: Rank, hint: Hint) -> Outcome
    requires hint { IsHintFor F.hash_input form.now hint }
    ensures outcome { (ranges : List ℕ) (parent : Option Parent) → F.IsForm ranges form.now →
        All (λ p. F.IsForm ranges p.0) rows.now →
        result ≡ outcome_of (nodes_of (F.values ranges) rows.now) (fresh (F.values ranges form.now) rank parent) }
    ensures form { result ≡ Kept → (ranges : List ℕ) → All (λ p. F.IsForm ranges p.0) rows.now → F.IsForm ranges form.now }
{
    match rows.index_of(form, hint) {
        None => Outcome::New(rows.len()),
        Some(index) if rank < rows.entry(index).rank() => Outcome::Better(index),
        Some(_) => Outcome::Kept,
    }
}

/// Applies the outcome of reaching the state of a form. A new state is stored as a copy of the form; it was never
/// expanded. For an improved state, whether it was ever expanded stays as it was. The hint is one for the form. It can
/// fail only for a new state; the entries are then unchanged.
fn write<F: StateForm + Drop>(
    rows: &mut Rows<F>,
    form: &F,
    entry: SmallEntry,
    outcome: Outcome,
    hint: Hint,
) -> Result<(), AllocError>
    requires form { (ranges : List ℕ) × F.IsForm ranges form.now }
    requires hint { IsHintFor F.hash_input form.now hint }
    requires absent { (i : ℕ) → outcome ≡ New i → position (F.eq form.now) (keys_of rows.old) ≡ None }
    requires within { (i : ℕ) → outcome ≡ Better i → i < length rows.old }
    requires never { entry.ever ≡ false }
    ensures keys { (ranges : List ℕ) → F.IsForm ranges form.now → All (λ p. F.IsForm ranges p.0) rows.old →
        All (λ p. F.IsForm ranges p.0) rows.new }
    ensures nodes { OnOk result ((ranges : List ℕ) → F.IsForm ranges form.now → All (λ p. F.IsForm ranges p.0) rows.old →
        outcome ≡ outcome_of (nodes_of (F.values ranges) rows.old) (node_with (F.values ranges form.now) (entry_in entry)) →
        nodes_of (F.values ranges) rows.new ≡
        reached (nodes_of (F.values ranges) rows.old) (node_with (F.values ranges form.now) (entry_in entry))) }
    ensures ever { OnOk result (ever_of rows.new ≡ padded (ever_of rows.old) (length rows.new)) }
    ensures unchanged { OnErr result (rows.new ≡ rows.old) }
    ensures refused { OnErr result ((i : ℕ) × (outcome ≡ New i)) }
{
    match outcome {
        Outcome::New(_) => {
            let key = form.copy(*rows.allocator())?;
            rows.index_or_push(key, entry, hint)?;
        }
        Outcome::Better(index) => {
            let replacement = entry.in_place_of(rows.entry(index));
            rows.set_entry(index, replacement);
        }
        Outcome::Kept => {}
    }
    Ok(())
}

/// Records that the state of a form was reached, and returns the outcome: the same as `outcome_among`, and then
/// `write`, in one look-up. Appends the entry that this replaces, if there is one, to `replaced`. The hint is one for
/// the form. On failure both lists are unchanged.
fn enter<F: StateForm + Drop>(
    rows: &mut Rows<F>,
    form: &F,
    entry: SmallEntry,
    hint: Hint,
    replaced: &mut Vec<(usize, SmallEntry)>,
) -> Result<Outcome, AllocError>
    requires form { (ranges : List ℕ) × F.IsForm ranges form.now }
    requires hint { IsHintFor F.hash_input form.now hint }
    requires never { entry.ever ≡ false }
    ensures keys { (ranges : List ℕ) → F.IsForm ranges form.now → All (λ p. F.IsForm ranges p.0) rows.old →
        All (λ p. F.IsForm ranges p.0) rows.new }
    ensures outcome { IfOk result (λ o. (ranges : List ℕ) → F.IsForm ranges form.now → All (λ p. F.IsForm ranges p.0) rows.old →
        o ≡ outcome_of (nodes_of (F.values ranges) rows.old) (node_with (F.values ranges form.now) (entry_in entry))) }
    ensures nodes { OnOk result ((ranges : List ℕ) → F.IsForm ranges form.now → All (λ p. F.IsForm ranges p.0) rows.old →
        nodes_of (F.values ranges) rows.new ≡
        reached (nodes_of (F.values ranges) rows.old) (node_with (F.values ranges form.now) (entry_in entry))) }
    ensures noted { IfOk result (λ o. (ranges : List ℕ) →
        Notes (nodes_of (F.values ranges) rows.old) o replaced.old.items replaced.new.items) }
    ensures ever { OnOk result (ever_of rows.new ≡ padded (ever_of rows.old) (length rows.new)) }
    ensures unchanged { OnErr result (rows.new ≡ rows.old) }
    ensures same { OnErr result (replaced.new.items ≡ replaced.old.items) }
{
    let len = rows.len();
    let key = form.copy(*rows.allocator())?;
    let index = match rows.index_or_push(key, entry, hint)? {
        None => return Ok(Outcome::New(len)),
        Some(index) => index,
    };
    let old = rows.entry(index);
    if entry.rank() < old.rank() {
        replaced.push((index, old))?;
        rows.set_entry(index, entry.in_place_of(old));
        return Ok(Outcome::Better(index));
    }
    Ok(Outcome::Kept)
}

impl<F: StateForm + Drop> ClosedTable<F> {
    /// Returns an empty table for the task's states, which have this form.
    pub fn new(alloc: Global, task: &FdrTask) -> Result<ClosedTable<F>, AllocError>
        requires { F.Fits (tasks.ranges task.now) }
        ensures ranges { IfOk result (λ t. t.ranges ≡ tasks.ranges task.now) }
        ensures none { IfOk result (λ t. t.nodes ≡ []) }
        ensures none_ever { IfOk result (λ t. t.ever ≡ []) }
    {
        let layout = Layout::new(alloc, task)?;
        let sought = F::pack(alloc, &layout, task.initial())?;
        Ok(ClosedTable {
            layout,
            rows: Rows::new(alloc)?,
            sought,
        })
    }

    /// Returns the number of states in the table.
    pub fn len(&self) -> usize
        ensures { result ≡ length self.now.nodes }
    {
        self.rows.len()
    }

    /// Returns whether the table is empty.
    pub fn is_empty(&self) -> bool
        ensures { result ≡ (length self.now.nodes == 0) }
    {
        self.len() == 0
    }

    /// Proves, from the type's invariant, that every state in the table is a state of the task, that states of the task
    /// have the form, and that as many states as there are were expanded or not. Only for the proof.
    pub fn recall(&self)
        ensures states { All (λ n. IsState self.now.ranges n.state) self.now.nodes }
        ensures ever { length self.now.ever ≡ length self.now.nodes }
        ensures fits { F.Fits self.now.ranges }
    {
        let _ = self.rows.len();
    }

    /// Returns the form of the state at the index, or `None` past the last state.
    pub fn form(&self, index: usize) -> Option<&F>
        ensures form { IfSome result (λ f. F.IsForm self.now.ranges f.now × ((n : Node) →
            slice_get self.now.nodes index ≡ Some n → F.values self.now.ranges f.now ≡ n.state)) }
        ensures past { IfNone result (length self.now.nodes ≤ index) }
    {
        let row = self.rows.get(index)?;
        Some(&row.0)
    }

    /// Returns the entry of the state at the index.
    pub fn entry(&self, index: usize) -> Entry
        requires { index < length self.now.nodes }
        ensures { (n : Node) → slice_get self.now.nodes index ≡ Some n → n ≡ node_with n.state result }
    {
        self.rows.entry(index).entry()
    }

    /// Returns whether the state at the index was ever expanded, at whatever rank; `false` past the last state.
    pub fn was_expanded(&self, index: usize) -> bool
        ensures { result ≡ was_expanded self.now.ever index }
    {
        match self.rows.get(index) {
            Some(row) => row.1.was_expanded(),
            None => false,
        }
    }

    /// Writes the values of the state at the index into `values`.
    pub fn copy_state(&self, index: usize, values: &mut [u32])
        requires index { index < length self.now.nodes }
        requires len { length values.old ≡ length self.now.ranges }
        ensures { (n : Node) → slice_get self.now.nodes index ≡ Some n → values.new ≡ n.state }
    {
        let row = self.rows.get(index).unwrap();
        row.0.unpack(&self.layout, values);
    }

    /// Marks the state at the index as expanded at its rank.
    pub fn mark_expanded(&mut self, index: usize)
        requires { index < length self.old.nodes }
        ensures nodes { (n : Node) → slice_get self.old.nodes index ≡ Some n →
            self.new.nodes ≡ slice_set self.old.nodes index (marked n) }
        ensures ever { self.new.ever ≡ slice_set self.old.ever index true }
        ensures ranges { self.new.ranges ≡ self.old.ranges }
    {
        let mut entry = self.rows.entry(index);
        entry.expand();
        self.rows.set_entry(index, entry);
    }

    /// Marks the state at the index as not expanded, and sets whether it was ever expanded. With `ever` as it was
    /// before, this undoes `mark_expanded`.
    pub fn mark_open(&mut self, index: usize, ever: bool)
        requires { index < length self.old.nodes }
        ensures nodes { (n : Node) → slice_get self.old.nodes index ≡ Some n →
            self.new.nodes ≡ slice_set self.old.nodes index (record n { expanded = false }) }
        ensures ever { self.new.ever ≡ slice_set self.old.ever index ever }
        ensures ranges { self.new.ranges ≡ self.old.ranges }
    {
        let mut entry = self.rows.entry(index);
        entry.reopen(ever);
        self.rows.set_entry(index, entry);
    }

    /// Returns the outcome that reaching a state at a rank would have. Only the buffer of the look-up changes.
    pub fn look(&mut self, state: &[u32], rank: Rank) -> Outcome
        requires { IsState self.old.ranges state.now }
        ensures outcome { (parent : Option Parent) → result ≡ outcome_of self.old.nodes (fresh state.now rank parent) }
        ensures same { self.new ≡ self.old }
    {
        self.sought.repack(&self.layout, state);
        let hint = Hint::of(&self.sought);
        outcome_among(&self.rows, &self.sought, rank, hint)
    }

    /// Records that a state was reached, with the outcome that `look` returned. Fails if allocation fails, which can
    /// happen only for a new state, or if the rank or the parent exceeds the limits of an entry (`steps`, `index` or
    /// `operator` above 2^32 - 1, or `worker` above 255); the table is then unchanged.
    pub fn reach(
        &mut self,
        state: &[u32],
        rank: Rank,
        parent: Option<Parent>,
        outcome: Outcome,
    ) -> Result<(), AllocError>
        requires state { IsState self.old.ranges state.now }
        requires outcome { outcome ≡ outcome_of self.old.nodes (fresh state.now rank parent) }
        ensures nodes { OnOk result (self.new.nodes ≡ reached self.old.nodes (fresh state.now rank parent)) }
        ensures ever { OnOk result (self.new.ever ≡ padded self.old.ever (length self.new.nodes)) }
        ensures ranges { self.new.ranges ≡ self.old.ranges }
        ensures unchanged { OnErr result (self.new ≡ self.old) }
        ensures refused { OnErr result ((outcome ≡ New (length self.old.nodes)) ⊎ IsPastEntry rank parent) }
    {
        let Some(entry) = SmallEntry::of(rank, parent) else {
            return Err(AllocError);
        };
        self.sought.repack(&self.layout, state);
        let hint = Hint::of(&self.sought);
        write(&mut self.rows, &self.sought, entry, outcome, hint)
    }

    /// Hashes `form` and reads its first slots, and returns these as a hint for it. Reading those of all successors
    /// before any row lets cache misses overlap.
    pub fn hint(&self, form: &F) -> Hint
        ensures { IsHintFor F.hash_input form.now result }
    {
        self.rows.hint(form)
    }

    /// Returns the outcome that reaching the state of a form at a rank would have, the same as `look`. With the hint,
    /// one for the form, a look-up mostly reads one row and no slot.
    pub fn look_hinted(&self, form: &F, rank: Rank, hint: Hint) -> Outcome
        requires form { F.IsForm self.now.ranges form.now }
        requires hint { IsHintFor F.hash_input form.now hint }
        ensures { (parent : Option Parent) →
            result ≡ outcome_of self.now.nodes (fresh (F.values self.now.ranges form.now) rank parent) }
    {
        outcome_among(&self.rows, form, rank, hint)
    }

    /// Records that the state of a form was reached, with the outcome that `look_hinted` returned. The hint is one for
    /// the form. Fails as `reach` does; the table is then unchanged.
    pub fn reach_hinted(
        &mut self,
        form: &F,
        rank: Rank,
        parent: Option<Parent>,
        outcome: Outcome,
        hint: Hint,
    ) -> Result<(), AllocError>
        requires form { F.IsForm self.old.ranges form.now }
        requires hint { IsHintFor F.hash_input form.now hint }
        requires outcome { outcome ≡ outcome_of self.old.nodes (fresh (F.values self.old.ranges form.now) rank parent) }
        ensures nodes { OnOk result (self.new.nodes ≡ reached self.old.nodes (fresh (F.values self.old.ranges form.now) rank parent)) }
        ensures ever { OnOk result (self.new.ever ≡ padded self.old.ever (length self.new.nodes)) }
        ensures ranges { self.new.ranges ≡ self.old.ranges }
        ensures unchanged { OnErr result (self.new ≡ self.old) }
        ensures refused { OnErr result ((outcome ≡ New (length self.old.nodes)) ⊎ IsPastEntry rank parent) }
    {
        let Some(entry) = SmallEntry::of(rank, parent) else {
            return Err(AllocError);
        };
        write(&mut self.rows, form, entry, outcome, hint)
    }

    /// Returns whether the state of this form is in the table at this rank or a lesser one, so that reaching it again
    /// is a duplicate. The form need not be that of a state.
    pub fn knows(&self, form: &F, rank: Rank) -> bool
        ensures known { IsTrue result → F.IsForm self.now.ranges form.now × ((parent : Option Parent) →
            outcome_of self.now.nodes (fresh (F.values self.now.ranges form.now) rank parent) ≡ Kept) }
        ensures unknown { result ≡ false → F.IsForm self.now.ranges form.now → (parent : Option Parent) →
            outcome_of self.now.nodes (fresh (F.values self.now.ranges form.now) rank parent) ≢ Kept }
    {
        let outcome = outcome_among(&self.rows, form, rank, Hint::of(form));
        matches!(outcome, Outcome::Kept)
    }

    /// Records that a state was reached, and returns the outcome. Fails as `reach` does; the table is then unchanged.
    pub fn improve(
        &mut self,
        state: &[u32],
        rank: Rank,
        parent: Option<Parent>,
    ) -> Result<Outcome, AllocError>
        requires { IsState self.old.ranges state.now }
        ensures nodes { OnOk result (self.new.nodes ≡ reached self.old.nodes (fresh state.now rank parent)) }
        ensures ever { OnOk result (self.new.ever ≡ padded self.old.ever (length self.new.nodes)) }
        ensures outcome { IfOk result (λ o. o ≡ outcome_of self.old.nodes (fresh state.now rank parent)) }
        ensures ranges { self.new.ranges ≡ self.old.ranges }
        ensures unchanged { OnErr result (self.new ≡ self.old) }
        ensures refused { OnErr result
            ((outcome_of self.old.nodes (fresh state.now rank parent) ≡ New (length self.old.nodes)) ⊎ IsPastEntry rank parent) }
    {
        let Some(entry) = SmallEntry::of(rank, parent) else {
            return Err(AllocError);
        };
        self.sought.repack(&self.layout, state);
        let hint = Hint::of(&self.sought);
        let outcome = outcome_among(&self.rows, &self.sought, rank, hint);
        write(&mut self.rows, &self.sought, entry, outcome, hint)?;
        Ok(outcome)
    }

    /// Records that the state of a message was reached, for which this is a hint, and appends the entry that this
    /// replaces, if there is one, to `replaced`. Fails as `reach` does. In either case `take_back` with `replaced` undoes
    /// the writes.
    fn reach_noting(
        &mut self,
        message: &Message<F>,
        hint: Hint,
        replaced: &mut Vec<(usize, SmallEntry)>,
    ) -> Result<Outcome, AllocError>
        requires form { F.IsForm self.old.ranges message.now.state }
        requires hint { IsHintFor F.hash_input message.now.state hint }
        ensures nodes { OnOk result (self.new.nodes ≡ reached self.old.nodes (arrival (F.values self.old.ranges) message.now)) }
        ensures ever { OnOk result (self.new.ever ≡ padded self.old.ever (length self.new.nodes)) }
        ensures same_ever { OnErr result (self.new.ever ≡ self.old.ever) }
        ensures outcome { IfOk result (λ o. o ≡ outcome_of self.old.nodes (arrival (F.values self.old.ranges) message.now)) }
        ensures ranges { self.new.ranges ≡ self.old.ranges }
        ensures no_fewer { length self.old.nodes ≤ length self.new.nodes }
        ensures taken_back { (len : ℕ) → len ≤ length self.old.nodes →
            taken_back replaced.new.items (take len self.new.nodes) ≡ taken_back replaced.old.items (take len self.old.nodes) }
    {
        let Some(entry) = SmallEntry::of(message.rank, Some(message.parent)) else {
            return Err(AllocError);
        };
        let outcome = enter(&mut self.rows, &message.state, entry, hint, replaced)?;
        Ok(outcome)
    }

    /// Records that the states of messages, each with a hint for it, were reached, one after the other, with the outcome
    /// of each and the entries that were replaced. Fails as `reach` does; `take_back` with `replaced` then undoes the
    /// writes.
    fn reach_all(
        &mut self,
        messages: &[Message<F>],
        hints: &[Hint],
        outcomes: &mut Vec<Outcome>,
        replaced: &mut Vec<(usize, SmallEntry)>,
    ) -> Result<(), AllocError>
        requires forms { All (λ m. F.IsForm self.old.ranges m.state) messages.now }
        requires hints { AreHintsFor F.hash_input messages.now hints.now }
        requires outcomes { outcomes.old.items ≡ [] }
        requires replaced { replaced.old.items ≡ [] }
        requires ever { length self.old.ever ≡ length self.old.nodes }
        ensures nodes { OnOk result (self.new.nodes ≡ fold reached self.old.nodes (map (arrival (F.values self.old.ranges)) messages.now)) }
        ensures outcomes { OnOk result (outcomes.new.items ≡ outcomes_of self.old.nodes (map (arrival (F.values self.old.ranges)) messages.now)) }
        ensures ever { OnOk result (self.new.ever ≡ padded self.old.ever (length self.new.nodes)) }
        ensures first { take (length self.old.ever) self.new.ever ≡ self.old.ever }
        ensures ranges { self.new.ranges ≡ self.old.ranges }
        ensures taken_back { taken_back replaced.new.items (take (length self.old.nodes) self.new.nodes) ≡ self.old.nodes }
    {
        for (place, message) in messages.iter().enumerate() {
            let outcome = self.reach_noting(message, hints[place], replaced)?;
            outcomes.push(outcome)?;
        }
        Ok(())
    }

    /// Removes the states from index `len` on. If there are any, it takes time linear in the size of the table.
    fn truncate(&mut self, len: usize)
        ensures nodes { self.new.nodes ≡ take len self.old.nodes }
        ensures ever { self.new.ever ≡ take len self.old.ever }
        ensures ranges { self.new.ranges ≡ self.old.ranges }
    {
        self.rows.truncate(len);
    }

    /// Restores an entry at the index, if there is a state. Whether the state was ever expanded stays as it is.
    fn put_back(&mut self, index: usize, entry: SmallEntry)
        ensures nodes { self.new.nodes ≡ with_entry self.old.nodes index (entry_in entry) }
        ensures ever { self.new.ever ≡ self.old.ever }
        ensures ranges { self.new.ranges ≡ self.old.ranges }
    {
        if index < self.rows.len() {
            let restored = entry.in_place_of(self.rows.entry(index));
            self.rows.set_entry(index, restored);
        }
    }

    /// Removes the states from index `len` on, and restores the replaced entries of the others, the last one first.
    fn take_back(&mut self, len: usize, mut replaced: Vec<(usize, SmallEntry)>)
        ensures nodes { self.new.nodes ≡ taken_back replaced.items (take len self.old.nodes) }
        ensures ever { self.new.ever ≡ take len self.old.ever }
        ensures ranges { self.new.ranges ≡ self.old.ranges }
    {
        self.truncate(len);
        while let Some((index, entry)) = replaced.pop() {
            self.put_back(index, entry);
        }
    }

    /// Records that the states of messages, each with a hint for it, were reached, one after the other, and replaces the
    /// content of `outcomes` by the outcome of each. Fails as `reach` does; the table is then unchanged.
    pub fn improve_all(
        &mut self,
        messages: &[Message<F>],
        hints: &[Hint],
        outcomes: &mut Vec<Outcome>,
    ) -> Result<(), AllocError>
        requires hints { AreHintsFor F.hash_input messages.now hints.now }
        requires forms { All (λ m. F.IsForm self.old.ranges m.state) messages.now }
        ensures nodes { OnOk result (self.new.nodes ≡ fold reached self.old.nodes (map (arrival (F.values self.old.ranges)) messages.now)) }
        ensures ever { OnOk result (self.new.ever ≡ padded self.old.ever (length self.new.nodes)) }
        ensures outcomes { OnOk result (outcomes.new.items ≡ outcomes_of self.old.nodes (map (arrival (F.values self.old.ranges)) messages.now)) }
        ensures ranges { self.new.ranges ≡ self.old.ranges }
        ensures unchanged { OnErr result (self.new ≡ self.old) }
    {
        self.recall(); // as many states as there are were expanded or not
        outcomes.clear();
        let mut replaced = Vec::new(*self.rows.allocator()); // takes memory only where a state is improved
        let len = self.len();
        match self.reach_all(messages, hints, outcomes, &mut replaced) {
            Ok(()) => Ok(()),
            Err(error) => {
                self.take_back(len, replaced);
                Err(error)
            }
        }
    }
}

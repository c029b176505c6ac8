//! The states that an owner has reached, and the order in which it expands them.

ghost use Rattle.std.specs.Prelude.{◌≡◌, ◌≢◌, true, false, ℕ, ◌<◌, ◌≤◌, ◌^◌, ◌++◌, ◌∷◌, [], length, map, fold, slice_get, slice_set, Some, List, All, Option, IfOk, OnOk, OnErr, IfSome, IfNone, IsTrue};
ghost use Rattle.std.specs.List.Sorted.{IsPermutation};
ghost use Rattle.cost.specs.Distances.{Distance, Finite, ◌+ᵈ◌};
ghost use Rattle.fdr.specs.Tasks.{ranges};
ghost use Rattle.owner_theory.specs.Owners.{At, Node, marked};
ghost use Rattle.openlist.specs.BucketLists.{all_entries};
ghost use Rattle.openlist.specs.declared.entry.OpenEntry.{OpenEntry as EntryOf};
ghost use Rattle.closed.specs.declared.message.Parent.{Parent};
ghost use Rattle.closed.specs.declared.table.Outcome.TheVariants.{Kept};
ghost use Rattle.closed.specs.Tables.{padded, reached, outcome_of, outcomes_of, fresh, node_with, arrival};
ghost use Rattle.closed.specs.Hints.{IsHintFor, AreHintsFor};
ghost use Rattle.owner_space.specs.Keyed.{max_total, IsSmall, IsKeyed, denoted};
ghost use Rattle.owner_reached.specs.Queues.{added, keyed_in, h_of, IsCurrent, AreQueued, IsQueue, IsLeast, HasNoneOpen};

use closed::{ClosedTable, Entry, Hint, Message, Outcome, Parent};
use cost::Dist;
use openlist::{Buckets, OpenEntry, OpenList, Rank};
use owner_space::{Space, Ties};
use packed::StateForm;
use packed_spread::Spread;
use std::alloc::{AllocError, Global};
use std::marker::Model;

/// The reached states, and the open ones in the order in which they are to be expanded. In contracts its value is the
/// space, a node for each state, and for each whether it was ever expanded.
#[derive(Drop)]
pub struct Reached<'a, S: Spread + Drop, F: StateForm + Drop> {
    space: &'a Space<'a, S>,
    table: ClosedTable<F>,
    /// The open nodes, and stale entries: nodes as they were before they were improved or expanded. Each entry is keyed
    /// by the space's tie-breaking rule and by whether its node was ever expanded, so that the list pops entries in the
    /// order of the rule.
    queue: Buckets,
}

impl<'a, S: Spread + Drop, F: StateForm + Drop> Model for Reached<'a, S, F> {
    ghost use Rattle.std.specs.Prelude.{◌≡◌};
    ghost use Rattle.fdr.specs.Tasks.{ranges};
    ghost use Rattle.openlist.specs.BucketLists.{all_entries};
    ghost use Rattle.owner_reached.specs.Queues.{ReachedOf, IsQueue, h_of};

    ghost Value = { ReachedOf S };

    ghost view = { λ r. record { space = r.space.now; nodes = r.table.nodes; ever = r.table.ever } };

    ghost invariant = { λ r. (r.table.ranges ≡ ranges r.space.now.task) × IsQueue r.space.now.ties
        (h_of r.space.now) r.table.nodes r.table.ever (all_entries r.queue) };
}

/// Makes room for an entry of this f-value, if it is finite.
fn make_room<L: OpenList>(list: &mut L, f: Option<u64>) -> Result<(), AllocError>
    ensures entries { IsPermutation (L.entries list.old) (L.entries list.new) }
    ensures room { OnOk result (IfSome f (λ f. (fs : List ℕ) × L.HasRoom list.new (f ∷ fs))) }
{
    match f {
        Some(f) => list.reserve(&[f]),
        None => Ok(()),
    }
}

/// Pushes an open entry, keyed by the tie-breaking rule, if the state is new or improved and f is finite. `table` has
/// the state.
fn put_in<L: OpenList, F: StateForm + Drop>(
    list: &mut L,
    table: &ClosedTable<F>,
    ties: Ties,
    f: Option<u64>,
    rank: Rank,
    outcome: Outcome,
)
    requires room { IfSome f (λ f. (fs : List ℕ) × L.HasRoom list.old (f ∷ fs)) }
    requires cost { rank.cost ≤ max_total }
    requires steps { rank.steps ≤ max_total }
    ensures entries { IsPermutation (map (keyed_in ties table.now.ever) (added f rank outcome) ++ L.entries list.old) (L.entries list.new) }
    ensures small { All IsSmall (added f rank outcome) }
    ensures room { IfSome f (λ f. (fs : List ℕ) → L.HasRoom list.old (f ∷ fs) → L.HasRoom list.new fs) }
{
    if let (Some(f), Outcome::New(index) | Outcome::Better(index)) = (f, outcome) {
        let ever = table.was_expanded(index);
        let pushed = list.push(ties.keyed(OpenEntry { f, rank, index }, ever));
        let _ = pushed; // there is room
    }
}

/// Pushes open entries, keyed by the tie-breaking rule, for the states of messages that were reached, each with its
/// f-value and its outcome. `table` has these states.
fn put_all_in<L: OpenList, F: StateForm + Drop>(
    list: &mut L,
    table: &ClosedTable<F>,
    ties: Ties,
    messages: &[Message<F>],
    fs: &[u64],
    outcomes: &[Outcome],
)
    requires fs { length fs.now ≡ length messages.now }
    requires outcomes { length outcomes.now ≡ length messages.now }
    requires room { L.HasRoom list.old fs.now }
    requires small { All (λ m. (m.rank.cost ≤ max_total) × (m.rank.steps ≤ max_total)) messages.now }
    ensures stored { All (IsKeyed ties) (L.entries list.old) → All (IsKeyed ties) (L.entries list.new) }
    ensures queued { (values : F → List ℕ) (h : List ℕ → Distance) (nodes : List Node) →
        map (λ m. Finite m.rank.cost +ᵈ h (values m.state)) messages.now ≡ map Finite fs.now → All (λ f. f ≤ 2 ^ 63) fs.now →
        outcomes.now ≡ outcomes_of nodes (map (arrival values) messages.now) →
        AreQueued ties h nodes table.now.ever (L.entries list.old) →
        AreQueued ties h (fold reached nodes (map (arrival values) messages.now)) table.now.ever (L.entries list.new) }
{
    for (place, message) in messages.iter().enumerate() {
        let (f, outcome) = (Some(fs[place]), outcomes[place]);
        put_in(list, table, ties, f, message.rank, outcome);
    }
}

/// Returns whether a stored entry is that of its node as it is: the node is not expanded, has the entry's rank, and the
/// entry is keyed by whether the node was ever expanded.
fn is_current<F: StateForm + Drop>(table: &ClosedTable<F>, ties: Ties, stored: OpenEntry) -> bool
    requires stored { IsKeyed ties stored }
    requires within { (denoted ties stored).index < length table.now.nodes }
    ensures current { IsTrue result → IsCurrent ties table.now.nodes table.now.ever stored }
    ensures stale { IsCurrent ties table.now.nodes table.now.ever stored → IsTrue result }
{
    let entry = ties.denoted(stored);
    let node = table.entry(entry.index);
    let ever = table.was_expanded(entry.index);
    !node.expanded && node.rank == entry.rank && ties.keyed(entry, ever) == stored
}

/// Pops stale entries until the first entry is current or none is left.
fn drop_stale<F: StateForm + Drop, L: OpenList>(table: &ClosedTable<F>, ties: Ties, list: &mut L)
    requires stored { All (IsKeyed ties) (L.entries list.old) }
    requires within { All (λ e. (denoted ties e).index < length table.now.nodes) (L.entries list.old) }
    ensures { (h : List ℕ → Distance) → AreQueued ties h table.now.nodes table.now.ever (L.entries list.old) →
        IsQueue ties h table.now.nodes table.now.ever (L.entries list.new) }
{
    while let Some(entry) = list.least() {
        if is_current(table, ties, entry) {
            return;
        }
        let _ = list.pop();
    }
}

impl<'a, S: Spread + Drop, F: StateForm + Drop> Reached<'a, S, F> {
    /// Returns an empty table with an empty open list.
    pub fn new(alloc: Global, space: &'a Space<'a, S>) -> Result<Reached<'a, S, F>, AllocError>
        requires { F.Fits (ranges space.now.task) }
        ensures { IfOk result (λ r. r ≡ record { space = space.now; nodes = []; ever = [] }) }
    {
        Ok(Reached {
            space,
            table: ClosedTable::new(alloc, space.task())?,
            queue: Buckets::new(alloc),
        })
    }

    /// Proves, from the type's invariant, that states of the task have the form, and that as many states as there are
    /// were expanded or not. Only for the proof.
    pub fn recall(&self)
        ensures fits { F.Fits (ranges self.now.space.task) }
        ensures ever { length self.now.ever ≡ length self.now.nodes }
    {
        self.table.recall();
    }

    /// Returns the space that is searched.
    pub fn space(&self) -> &'a Space<'a, S>
        ensures { result.now ≡ self.now.space }
    {
        self.space
    }

    /// Records that the state of a form, with this f-value, was reached, with the outcome that `look_hinted` returned. The
    /// hint is one for the form. On failure the states are unchanged.
    fn reach_at(
        &mut self,
        form: &F,
        rank: Rank,
        parent: Option<Parent>,
        outcome: Outcome,
        hint: Hint,
        f: Dist,
    ) -> Result<(), AllocError>
        requires form { F.IsForm (ranges self.old.space.task) form.now }
        requires hint { IsHintFor F.hash_input form.now hint }
        requires outcome { outcome ≡ outcome_of self.old.nodes (fresh (F.values (ranges self.old.space.task) form.now) rank parent) }
        requires f { f ≡ Finite rank.cost +ᵈ h_of self.old.space (F.values (ranges self.old.space.task) form.now) }
        requires cost { rank.cost ≤ max_total }
        requires steps { rank.steps ≤ max_total }
        ensures nodes { OnOk result (self.new.nodes
            ≡ reached self.old.nodes (fresh (F.values (ranges self.old.space.task) form.now) rank parent)) }
        ensures ever { OnOk result (self.new.ever ≡ padded self.old.ever (length self.new.nodes)) }
        ensures space { self.new.space ≡ self.old.space }
        ensures unchanged { OnErr result (self.new ≡ self.old) }
    {
        let f = f.get();
        make_room(&mut self.queue, f)?;
        self.table.reach_hinted(form, rank, parent, outcome, hint)?;
        let ties = self.space.ties();
        put_in(&mut self.queue, &self.table, ties, f, rank, outcome);
        if let Outcome::Better(_) = outcome {
            drop_stale(&self.table, ties, &mut self.queue); // the old entry of the state may be on top
        }
        Ok(())
    }

    /// Records that the state of a form was reached. `state` is the form's values, for the heuristic, which is computed
    /// only if this changes something. On failure the states are unchanged.
    pub fn reach(
        &mut self,
        form: &F,
        state: &[u32],
        rank: Rank,
        parent: Option<Parent>,
    ) -> Result<(), AllocError>
        requires form { F.IsForm (ranges self.old.space.task) form.now }
        requires values { F.values (ranges self.old.space.task) form.now ≡ state.now }
        requires cost { rank.cost ≤ max_total }
        requires steps { rank.steps ≤ max_total }
        ensures nodes { OnOk result (self.new.nodes ≡ reached self.old.nodes (fresh state.now rank parent)) }
        ensures ever { OnOk result (self.new.ever ≡ padded self.old.ever (length self.new.nodes)) }
        ensures space { self.new.space ≡ self.old.space }
        ensures unchanged { OnErr result (self.new ≡ self.old) }
    {
        self.recall(); // there is a bit for each state
        let hint = self.table.hint(form);
        match self.look_hinted(form, rank, hint) {
            Outcome::Kept => Ok(()),
            outcome => {
                let f = self.space.f(state, rank.cost);
                self.reach_at(form, rank, parent, outcome, hint, f)
            }
        }
    }

    /// Returns the open list. Its entries are keyed by the tie-breaking rule and by whether their nodes were ever
    /// expanded. Entries other than the first may be stale: those of nodes that have since been improved or expanded.
    pub fn queue(&self) -> &Buckets
        ensures { IsQueue self.now.space.ties (h_of self.now.space) self.now.nodes self.now.ever (all_entries result.now) }
    {
        &self.queue
    }

    /// Returns the entry of the open node that is to be expanded next, or `None` if no node is open.
    pub fn least(&self) -> Option<OpenEntry>
        ensures some { IfSome result (IsLeast self.now.space.ties (h_of self.now.space) self.now.nodes self.now.ever) }
        ensures none { IfNone result (HasNoneOpen (h_of self.now.space) self.now.nodes) }
    {
        let stored = self.queue.least()?;
        Some(self.space.ties().denoted(stored))
    }

    /// Expands the node that is to be expanded next: marks it, and records that the states of these messages, each with
    /// a hint for it, with f-values `fs`, were reached, one after the other. `outcomes` is a buffer. On failure the
    /// states are unchanged.
    pub fn expand_least(
        &mut self,
        messages: &[Message<F>],
        hints: &[Hint],
        fs: &[u64],
        outcomes: &mut Vec<Outcome>,
    ) -> Result<(), AllocError>
        requires some { (e : EntryOf) × IsLeast self.old.space.ties (h_of self.old.space) self.old.nodes self.old.ever e }
        requires forms { All (λ m. F.IsForm (ranges self.old.space.task) m.state) messages.now }
        requires hints { AreHintsFor F.hash_input messages.now hints.now }
        requires fs { map (λ m. Finite m.rank.cost +ᵈ h_of self.old.space (F.values (ranges self.old.space.task) m.state)) messages.now ≡ map Finite fs.now }
        requires bound { All (λ f. f ≤ 2 ^ 63) fs.now }
        requires small { All (λ m. (m.rank.cost ≤ max_total) × (m.rank.steps ≤ max_total)) messages.now }
        ensures nodes { OnOk result ((e : EntryOf) (n : Node) →
            IsLeast self.old.space.ties (h_of self.old.space) self.old.nodes self.old.ever e → At self.old.nodes e.index n →
            self.new.nodes ≡ fold reached (slice_set self.old.nodes e.index (marked n)) (map (arrival (F.values (ranges self.old.space.task))) messages.now)) }
        ensures ever { OnOk result ((e : EntryOf) → IsLeast self.old.space.ties (h_of self.old.space) self.old.nodes self.old.ever e →
            self.new.ever ≡ padded (slice_set self.old.ever e.index true) (length self.new.nodes)) }
        ensures space { self.new.space ≡ self.old.space }
        ensures unchanged { OnErr result (self.new ≡ self.old) }
    {
        let Some(next) = self.least() else {
            return Ok(()); // there is one
        };
        self.queue.reserve(fs)?;
        let ever = self.table.was_expanded(next.index);
        self.table.mark_expanded(next.index);
        if let Err(error) = self.table.improve_all(messages, hints, outcomes) {
            self.table.mark_open(next.index, ever);
            return Err(error);
        }
        let _ = self.queue.pop();
        let ties = self.space.ties();
        put_all_in(&mut self.queue, &self.table, ties, messages, fs, outcomes);
        drop_stale(&self.table, ties, &mut self.queue);
        Ok(())
    }

    /// Returns the number of states.
    pub fn len(&self) -> usize
        ensures { result ≡ length self.now.nodes }
    {
        self.table.len()
    }

    /// Returns the entry of the state at the index.
    pub fn entry(&self, index: usize) -> Entry
        requires { index < length self.now.nodes }
        ensures { (n : Node) → slice_get self.now.nodes index ≡ Some n → n ≡ node_with n.state result }
    {
        self.table.entry(index)
    }

    /// Writes the values of the state at the index into `state`.
    pub fn copy_state(&self, index: usize, state: &mut [u32])
        requires index { index < length self.now.nodes }
        requires len { length state.old ≡ length self.now.space.task.value_names }
        ensures { (n : Node) → slice_get self.now.nodes index ≡ Some n → state.new ≡ n.state }
    {
        self.table.copy_state(index, state)
    }

    /// Returns the form of the state at the index.
    pub fn form(&self, index: usize) -> &F
        requires { index < length self.now.nodes }
        ensures form { F.IsForm (ranges self.now.space.task) result.now }
        ensures values { (n : Node) → slice_get self.now.nodes index ≡ Some n → F.values (ranges self.now.space.task) result.now ≡ n.state }
    {
        match self.table.form(index) {
            Some(form) => form,
            None => unreachable!(),
        }
    }

    /// Hashes `form` and reads its first slots, and returns these as a hint for it.
    pub fn hint(&self, form: &F) -> Hint
        ensures { IsHintFor F.hash_input form.now result }
    {
        self.table.hint(form)
    }

    /// Returns the outcome that reaching the state of a form at a rank would have. The hint is one for the form.
    pub fn look_hinted(&self, form: &F, rank: Rank, hint: Hint) -> Outcome
        requires form { F.IsForm (ranges self.now.space.task) form.now }
        requires hint { IsHintFor F.hash_input form.now hint }
        ensures { (parent : Option Parent) →
            result ≡ outcome_of self.now.nodes (fresh (F.values (ranges self.now.space.task) form.now) rank parent) }
    {
        self.table.look_hinted(form, rank, hint)
    }

    /// Returns whether the state of this form was reached at this rank or a lesser one, so that reaching it again is a
    /// duplicate. The form need not be that of a state.
    pub fn knows(&self, form: &F, rank: Rank) -> bool
        ensures form { IsTrue result → F.IsForm (ranges self.now.space.task) form.now }
        ensures known { IsTrue result → (parent : Option Parent) →
            outcome_of self.now.nodes (fresh (F.values (ranges self.now.space.task) form.now) rank parent) ≡ Kept }
        ensures unknown { result ≡ false → F.IsForm (ranges self.now.space.task) form.now → (parent : Option Parent) →
            outcome_of self.now.nodes (fresh (F.values (ranges self.now.space.task) form.now) rank parent) ≢ Kept }
    {
        self.table.knows(form, rank)
    }
}

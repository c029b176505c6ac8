//! The successors of a node that is to be expanded, before the node is marked.

ghost use Rattle.std.specs.Prelude.{◌≡◌, ℕ, ◌<◌, ◌≤◌, ◌^◌, [], length, List, Some, None, true, false, map, filter_map, All, OnOk};
ghost use Rattle.cost.specs.Distances.{Distance, Finite, ◌+ᵈ◌, is_at_most};
ghost use Rattle.fdr.specs.Tasks.{ranges, IsState, applies_at, step, is_goal_state};
ghost use Rattle.owner_theory.specs.Owners.{Node, treat, treat_all, successor_by, message_to};
ghost use Rattle.closed.specs.Tables.{message_of, fresh};
ghost use Rattle.closed.specs.Hints.{IsHintFor, AreHintsFor};
ghost use Rattle.owner.specs.Owned.{space_of, IsMessageTo};
ghost use Rattle.owner_reached.specs.Queues.{h_of};
ghost use Rattle.owner_space.specs.Steps.{IsSmallStep};
ghost use Rattle.owner.specs.Held.{places_in};
ghost use Rattle.owner.specs.Successors.{IsSuccessor, AreKnown, AreOwnHints};
ghost use Rattle.owner.specs.Batches.{pending, IsBatch, ArePosted};

use crate::holdings::Holdings;
use crate::successors::Successor;
use closed::{Hint, Message, Outcome, Parent};
use cost::Dist;
use openlist::OpenEntry;
use owner_space::{best_with, f_after, is_within, rank_after};
use packed::StateForm;
use packed_spread::Spread;
use scp::Places;
use std::alloc::{AllocError, Global};

/// The effects of a node's successors. No successor is taken before there is memory for all, so that an expansion that
/// fails only has messages to withdraw.
#[derive(Drop)]
pub(crate) struct Batch<F: StateForm + Drop> {
    /// The successors that belong to this owner.
    pub(crate) own: Vec<Message<F>>,
    /// Their f-values.
    pub(crate) fs: Vec<u64>,
    /// Hints for their forms.
    pub(crate) hints: Vec<Hint>,
    /// The receivers of the other successors, in the order in which these were put into the outboxes.
    pub(crate) receivers: Vec<usize>,
    /// The least cost at which a goal state was taken, including the owner's own successors.
    pub(crate) best: Dist,
    /// A buffer for the outcomes of taking the owner's own successors.
    pub(crate) outcomes: Vec<Outcome>,
}

impl<F: StateForm + Drop> Batch<F> {
    /// Returns an empty batch.
    pub(crate) fn new(alloc: Global) -> Batch<F> {
        Batch {
            own: Vec::new(alloc),
            fs: Vec::new(alloc),
            hints: Vec::new(alloc),
            receivers: Vec::new(alloc),
            best: Dist::inf(),
            outcomes: Vec::new(alloc),
        }
    }

    /// Removes all successors; `best` is the least cost at which a goal state was taken.
    pub(crate) fn clear(&mut self, best: Dist)
        ensures own { self.new.own.items ≡ [] }
        ensures fs { self.new.fs.items ≡ [] }
        ensures hints { self.new.hints.items ≡ [] }
        ensures receivers { self.new.receivers.items ≡ [] }
        ensures best { self.new.best ≡ best }
    {
        self.own.clear();
        self.fs.clear();
        self.hints.clear();
        self.receivers.clear();
        self.best = best;
    }
}

/// Adds a successor's message, with f-value `f` and a hint for its form, to the batch if it is for this owner, and
/// otherwise puts it into the outbox for owner `to`.
fn put<S: Spread + Drop, F: StateForm + Drop>(
    holdings: &mut Holdings<'_, S, F>,
    batch: &mut Batch<F>,
    to: usize,
    message: Message<F>,
    hint: Hint,
    f: u64,
    is_goal: bool,
) -> Result<(), AllocError>
    requires to { to < length holdings.old.outboxes }
    requires fits { IsMessageTo (space_of S.owner holdings.old) to (message_of (F.values (ranges holdings.old.space.task)) message) }
    requires form { F.IsForm (ranges holdings.old.space.task) message.state }
    requires f { Finite message.rank.cost +ᵈ h_of holdings.old.space (F.values (ranges holdings.old.space.task) message.state) ≡ Finite f }
    requires bound { f ≤ 2 ^ 63 }
    requires hint { to ≡ holdings.old.worker → IsHintFor F.hash_input message.state hint }
    requires hints { AreHintsFor F.hash_input batch.old.own.items batch.old.hints.items }
    requires goal { is_goal ≡ is_goal_state holdings.old.space.task (F.values (ranges holdings.old.space.task) message.state) }
    requires batch { IsBatch F.IsForm F.values S.owner holdings.old batch.old }
    ensures treated { OnOk result ((bound : Distance) (nodes : List Node) → is_at_most bound (Finite f) ≡ false →
        pending F.values bound nodes holdings.new batch.new ≡ treat (space_of S.owner holdings.old) holdings.old.worker
        (pending F.values bound nodes holdings.old batch.old) (message_of (F.values (ranges holdings.old.space.task)) message)) }
    ensures batch { OnOk result (IsBatch F.IsForm F.values S.owner holdings.new batch.new) }
    ensures hints { OnOk result (AreHintsFor F.hash_input batch.new.own.items batch.new.hints.items) }
    ensures posted { ArePosted holdings.old holdings.new batch.old.receivers.items batch.new.receivers.items }
{
    if to == holdings.worker() {
        batch.best = best_with(batch.best, is_goal, message.rank.cost);
        batch.own.push(message)?;
        batch.hints.push(hint)?;
        batch.fs.push(f)?;
        return Ok(());
    }
    holdings.post(to, message, &mut batch.receivers)?;
    Ok(())
}

/// Routes a successor of the state whose table indices are cached: drops it if its f-value reaches the bound, adds it
/// to the batch if it belongs to this owner, with the hint, which is then one for its form, and otherwise puts it into
/// the outbox for its owner.
fn place<S: Spread + Drop, F: StateForm + Drop>(
    alloc: Global,
    holdings: &mut Holdings<'_, S, F>,
    bound: Dist,
    next: OpenEntry,
    places: &mut Places<'_>,
    successor: &Successor<F>,
    hint: Hint,
    batch: &mut Batch<F>,
) -> Result<(), AllocError>
    requires state { IsState (ranges holdings.old.space.task) places.old.state }
    requires places { places.old ≡ places_in holdings.old.space places.old.state }
    requires successor { IsSuccessor F.IsForm F.values (space_of S.owner holdings.old) places.old.state successor.now }
    requires applies { applies_at holdings.old.space.task successor.now.operator places.old.state ≡ true }
    requires small { IsSmallStep holdings.old.space.task next.rank successor.now.operator }
    requires hint { successor.now.owner ≡ holdings.old.worker → IsHintFor F.hash_input successor.now.state hint }
    requires hints { AreHintsFor F.hash_input batch.old.own.items batch.old.hints.items }
    requires batch { IsBatch F.IsForm F.values S.owner holdings.old batch.old }
    ensures treated { OnOk result ((nodes : List Node) (t : List ℕ) → step holdings.old.space.task places.old.state successor.now.operator ≡ Some t →
        pending F.values bound nodes holdings.new batch.new
        ≡ treat (space_of S.owner holdings.old) holdings.old.worker (pending F.values bound nodes holdings.old batch.old)
        (message_to holdings.old.space.task holdings.old.worker next.index (fresh places.old.state next.rank None) successor.now.operator t)) }
    ensures batch { OnOk result (IsBatch F.IsForm F.values S.owner holdings.new batch.new) }
    ensures hints { OnOk result (AreHintsFor F.hash_input batch.new.own.items batch.new.hints.items) }
    ensures posted { ArePosted holdings.old holdings.new batch.old.receivers.items batch.new.receivers.items }
    ensures places { places.new ≡ places.old }
{
    let task = holdings.space().task();
    let rank = rank_after(task, next.rank, successor.operator);
    let f = f_after(places, successor.operator, rank.cost);
    if is_within(bound, f) {
        return Ok(()); // no memory is taken for it
    }
    let message = Message {
        state: successor.state.copy(alloc)?,
        rank,
        parent: Parent {
            worker: holdings.worker(),
            index: next.index,
            operator: successor.operator,
        },
    };
    let f = f.get().unwrap(); // it is below the bound
    put(
        holdings,
        batch,
        successor.owner,
        message,
        hint,
        f,
        successor.is_goal,
    )?;
    Ok(())
}

/// Routes the successors of the state whose table indices are cached, in their order, except those that `known` marks
/// as changing nothing. Those that belong to this owner have hints for their forms.
pub(crate) fn place_unknown<S: Spread + Drop, F: StateForm + Drop>(
    alloc: Global,
    holdings: &mut Holdings<'_, S, F>,
    bound: Dist,
    next: OpenEntry,
    places: &mut Places<'_>,
    successors: &[Successor<F>],
    hints: &[Hint],
    known: &[bool],
    batch: &mut Batch<F>,
) -> Result<(), AllocError>
    requires state { IsState (ranges holdings.old.space.task) places.old.state }
    requires places { places.old ≡ places_in holdings.old.space places.old.state }
    requires each { All (IsSuccessor F.IsForm F.values (space_of S.owner holdings.old) places.old.state) successors.now }
    requires small { All (λ s. IsSmallStep holdings.old.space.task next.rank s.operator) successors.now }
    requires apply { All (λ s. applies_at holdings.old.space.task s.operator places.old.state ≡ true) successors.now }
    requires own_hints { AreOwnHints F.hash_input holdings.old.worker successors.now hints.now }
    requires as_many_hints { length hints.now ≡ length successors.now }
    requires hints { AreHintsFor F.hash_input batch.old.own.items batch.old.hints.items }
    requires known { length known.now ≡ length successors.now }
    requires batch { IsBatch F.IsForm F.values S.owner holdings.old batch.old }
    ensures treated { OnOk result ((nodes : List Node) →
        AreKnown (space_of S.owner holdings.old) holdings.old.worker next.index (fresh places.old.state next.rank None)
        (pending F.values bound nodes holdings.old batch.old).nodes (map (λ s. s.operator) successors.now) known.now →
        pending F.values bound nodes holdings.new batch.new
        ≡ treat_all (space_of S.owner holdings.old) holdings.old.worker (pending F.values bound nodes holdings.old batch.old)
        (filter_map (successor_by holdings.old.space.task holdings.old.worker next.index (fresh places.old.state next.rank None))
        (map (λ s. s.operator) successors.now))) }
    ensures batch { OnOk result (IsBatch F.IsForm F.values S.owner holdings.new batch.new) }
    ensures hints { OnOk result (AreHintsFor F.hash_input batch.new.own.items batch.new.hints.items) }
    ensures posted { ArePosted holdings.old holdings.new batch.old.receivers.items batch.new.receivers.items }
    ensures places { places.new ≡ places.old }
{
    for at in 0..successors.len() {
        if known[at] {
            continue; // nothing changes
        }
        let (successor, hint) = (&successors[at], hints[at]);
        place(alloc, holdings, bound, next, places, successor, hint, batch)?;
    }
    Ok(())
}

//! The data of an owner, without its buffers.

ghost use Rattle.std.specs.Prelude.{◌≡◌, ◌≢◌, ◌⊎◌, suc, ◌+◌, ◌<◌, ◌++◌, ◌∷◌, [], ◌==◌, length, map, fold, All, slice_get, slice_set, Option, Some, None, true, false, is_some, if◌then◌else◌, IsTrue, ◌↔◌, IfOk, IfSome, IfNone, OnOk, OnErr};
ghost use Rattle.std.specs.Option.{option_to_list};
ghost use Rattle.cost.specs.Distances.{Distance, Infinite, is_at_most, lesser, Finite};
ghost use Rattle.fdr.specs.Tasks.{ranges, is_goal_state};
ghost use Rattle.owner_theory.specs.Owners.{At, Node, list_at, marked, improve, took, start_owner};
ghost use Rattle.owner_theory.specs.Worlds.{idle, no_open, waiting};
ghost use Rattle.openlist.specs.declared.entry.OpenEntry.{OpenEntry as EntryOf};
ghost use Rattle.closed.specs.declared.message.Parent.{Parent};
ghost use Rattle.closed.specs.declared.table.Outcome.TheVariants.{Kept};
ghost use Rattle.closed.specs.Tables.{padded, message_of, outcome_of, fresh, arrival};
ghost use Rattle.closed.specs.Hints.{IsHintFor, AreHintsFor};
ghost use Rattle.owner_space.specs.Spaces.{searched};
ghost use Rattle.owner.specs.Owned.{space_of, under, IsMessageTo, least_open};
ghost use Rattle.owner_reached.specs.Queues.{h_of, IsLeast};
ghost use Rattle.owner.specs.Outboxes.{withdrawn};
ghost use Rattle.owner.specs.Held.{IsOwner, message_at};
ghost use Rattle.owner.specs.Successors.{ChangesNothing};
ghost use Rattle.owner.specs.Batches.{IsBatch};

use crate::batch::Batch;
use closed::{Hint, Message, Outcome, Parent};
use cost::Dist;
use openlist::{OpenEntry, Rank};
use owner_outboxes::Outboxes;
use owner_reached::Reached;
use owner_space::{Space, best_with, finite, is_goal_form, is_within};
use packed::StateForm;
use packed_spread::Spread;
use std::alloc::{AllocError, Global};
use std::collections::VecDeque;
use std::marker::Model;

/// The data of an owner: the states that it has taken, an outbox for each owner, and the least cost at which it has
/// taken a goal state. In contracts its value is the owner.
#[derive(Drop)]
pub(crate) struct Holdings<'a, S: Spread + Drop, F: StateForm + Drop> {
    worker: usize,
    pub(crate) reached: Reached<'a, S, F>,
    pub(crate) outboxes: Outboxes<F>,
    pub(crate) best: Dist,
    pub(crate) expansions: u64,
}

impl<'a, S: Spread + Drop, F: StateForm + Drop> Model for Holdings<'a, S, F> {
    ghost use Rattle.fdr.specs.Tasks.{ranges};
    ghost use Rattle.owner.specs.Owned.{OwnerOf};
    ghost use Rattle.owner.specs.Held.{IsOwner};
    ghost use Rattle.owner.specs.Outboxes.{shown};

    ghost Value = { OwnerOf S };

    ghost view = { λ o. record {
      space = o.reached.space;
      worker = o.worker;
      nodes = o.reached.nodes;
      ever = o.reached.ever;
      outboxes = shown (F.values (ranges o.reached.space.task)) o.outboxes;
      best = o.best;
      expansions = o.expansions;
    } };

    ghost invariant = { λ o. IsOwner S.owner (record {
      space = o.reached.space;
      worker = o.worker;
      nodes = o.reached.nodes;
      ever = o.reached.ever;
      outboxes = shown (F.values (ranges o.reached.space.task)) o.outboxes;
      best = o.best;
      expansions = o.expansions;
    }) };
}

impl<'a, S: Spread + Drop, F: StateForm + Drop> Holdings<'a, S, F> {
    /// Returns the data of worker `worker` of `owners` at the start.
    pub(crate) fn start(
        alloc: Global,
        space: &'a Space<'a, S>,
        worker: usize,
        owners: usize,
    ) -> Result<Holdings<'a, S, F>, AllocError>
        requires worker { worker < owners }
        requires fits { F.Fits (ranges space.now.task) }
        ensures started { IfOk result (λ o. under o Infinite
            ≡ start_owner (searched S.owner space.now owners) (S.owner space.now.spread space.now.task.initial owners == worker)) }
        ensures ever { IfOk result (λ o. o.ever ≡ padded [] (length o.nodes)) }
        ensures space { IfOk result (λ o. o.space ≡ space.now) }
        ensures worker { IfOk result (λ o. o.worker ≡ worker) }
        ensures expansions { IfOk result (λ o. o.expansions ≡ 0) }
        ensures owners { IfOk result (λ o. length o.outboxes ≡ owners) }
    {
        let task = space.task();
        let initial = task.initial();
        let mut reached = Reached::new(alloc, space)?;
        let mut best = Dist::inf();
        if space.owner_of(initial, owners) == worker {
            let form = F::pack(alloc, space.layout(), initial)?;
            reached.reach(&form, initial, Rank { cost: 0, steps: 0 }, None)?;
            best = best_with(best, task.is_goal(initial), 0);
        }
        Ok(Holdings {
            worker,
            reached,
            outboxes: Outboxes::empty(alloc, owners)?,
            best,
            expansions: 0,
        })
    }

    /// Takes a state of its own. `state` is the form's values. On failure the owner is unchanged.
    pub(crate) fn take(
        &mut self,
        form: &F,
        state: &[u32],
        rank: Rank,
        parent: Parent,
    ) -> Result<(), AllocError>
        requires message { IsMessageTo (space_of S.owner self.old) self.old.worker (message_at state.now rank parent) }
        requires form { F.IsForm (ranges self.old.space.task) form.now }
        requires values { F.values (ranges self.old.space.task) form.now ≡ state.now }
        ensures taken { OnOk result ((bound : Distance) → under self.new bound
            ≡ took (space_of S.owner self.old) (under self.old bound) (message_at state.now rank parent)) }
        ensures ever { OnOk result (self.new.ever ≡ padded self.old.ever (length self.new.nodes)) }
        ensures space { self.new.space ≡ self.old.space }
        ensures worker { self.new.worker ≡ self.old.worker }
        ensures expansions { self.new.expansions ≡ self.old.expansions }
        ensures unchanged { OnErr result (self.new ≡ self.old) }
    {
        self.reached.reach(form, state, rank, Some(parent))?;
        let is_goal = self.reached.space().task().is_goal(state);
        self.best = best_with(self.best, is_goal, rank.cost);
        Ok(())
    }

    /// Returns the form of the state at the index.
    pub(crate) fn form(&self, index: usize) -> &F
        requires { index < length self.now.nodes }
        ensures form { F.IsForm (ranges self.now.space.task) result.now }
        ensures values { (n : Node) → slice_get self.now.nodes index ≡ Some n → F.values (ranges self.now.space.task) result.now ≡ n.state }
    {
        self.reached.form(index)
    }

    /// Returns the outcome that reaching the state of a form at a rank would have. The hint is one for the form.
    pub(crate) fn look_hinted(&self, form: &F, rank: Rank, hint: Hint) -> Outcome
        requires form { F.IsForm (ranges self.now.space.task) form.now }
        requires hint { IsHintFor F.hash_input form.now hint }
        ensures { (parent : Option Parent) →
            result ≡ outcome_of self.now.nodes (fresh (F.values (ranges self.now.space.task) form.now) rank parent) }
    {
        self.reached.look_hinted(form, rank, hint)
    }

    /// Returns whether the message is a duplicate that changes nothing when it is taken: its state was reached at its
    /// rank or a lesser one, and is no goal state. The message need not be one for this owner.
    pub(crate) fn knows(&self, message: &Message<F>) -> bool
        ensures form { IsTrue result → F.IsForm (ranges self.now.space.task) message.now.state }
        ensures known { IsTrue result →
            ChangesNothing (space_of S.owner self.now) self.now.worker self.now.nodes (message_of (F.values (ranges self.now.space.task)) message.now) }
        ensures unknown { result ≡ false → F.IsForm (ranges self.now.space.task) message.now.state →
            (outcome_of self.now.nodes (arrival (F.values (ranges self.now.space.task)) message.now) ≢ Kept)
            ⊎ (is_goal_state self.now.space.task (F.values (ranges self.now.space.task) message.now.state) ≡ true) }
    {
        if !self.reached.knows(&message.state, message.rank) {
            return false;
        }
        self.reached.recall(); // states of the task have the form
        let space = self.reached.space();
        !is_goal_form(space.task(), space.layout(), &message.state)
    }

    /// Puts a message into the outbox for owner `to`, its state's owner, and appends that owner to `receivers`. On
    /// failure both are unchanged.
    pub(crate) fn post(
        &mut self,
        to: usize,
        message: Message<F>,
        receivers: &mut Vec<usize>,
    ) -> Result<(), AllocError>
        requires to { to < length self.old.outboxes }
        requires fits { IsMessageTo (space_of S.owner self.old) to (message_of (F.values (ranges self.old.space.task)) message) }
        ensures posted { OnOk result (self.new
            ≡ record self.old {
              outboxes = slice_set self.old.outboxes to
                  (list_at self.old.outboxes to ++ message_of (F.values (ranges self.old.space.task)) message ∷ []);
            }) }
        ensures receivers { OnOk result (receivers.new.items ≡ receivers.old.items ++ to ∷ []) }
        ensures unchanged { OnErr result (self.new ≡ self.old) }
        ensures same { OnErr result (receivers.new.items ≡ receivers.old.items) }
    {
        receivers.reserve(1)?;
        self.outboxes.post(to, message)?;
        let noted = receivers.push(to);
        let _ = noted; // there is room
        Ok(())
    }

    /// Removes the newest message of the outbox for each of these receivers, starting with the last.
    pub(crate) fn withdraw(&mut self, receivers: &mut Vec<usize>)
        requires { All (λ to. to < length self.old.outboxes) receivers.old.items }
        ensures { self.new ≡ record self.old { outboxes = withdrawn receivers.old.items self.old.outboxes } }
    {
        self.outboxes.withdraw(receivers);
    }

    /// Returns the entry of the open node that is to be expanded next, if its f-value is below the bound.
    pub(crate) fn next(&self, bound: Dist) -> Option<OpenEntry>
        ensures some { IfSome result
            (λ e. IsLeast self.now.space.ties (h_of self.now.space) self.now.nodes self.now.ever e × (is_at_most bound (Finite e.f) ≡ false)) }
        ensures none { result ≡ None → no_open (space_of S.owner self.now) (under self.now bound) ≡ true }
    {
        let entry = self.reached.least()?;
        if is_within(bound, finite(entry.f)) {
            return None;
        }
        Some(entry)
    }

    /// Returns whether the owner has expanded as many nodes as its limit allows.
    pub(crate) fn is_at_limit(&self) -> bool
        ensures { IsTrue result ↔ (self.now.space.limit ≡ Some self.now.expansions) }
    {
        self.reached.space().limit() == Some(self.expansions)
    }

    /// Marks the node that is to be expanded next as expanded, and takes the batch's messages. On failure the owner is
    /// unchanged.
    pub(crate) fn expand_next(&mut self, batch: &mut Batch<F>) -> Result<(), AllocError>
        requires allowed { self.old.space.limit ≢ Some self.old.expansions }
        requires some { (e : EntryOf) × IsLeast self.old.space.ties (h_of self.old.space) self.old.nodes self.old.ever e }
        requires batch { IsBatch F.IsForm F.values S.owner self.old batch.old }
        requires hints { AreHintsFor F.hash_input batch.old.own.items batch.old.hints.items }
        ensures expanded { OnOk result ((e : EntryOf) (n : Node) →
            IsLeast self.old.space.ties (h_of self.old.space) self.old.nodes self.old.ever e → At self.old.nodes e.index n →
            self.new ≡ record self.old {
              nodes = fold improve (slice_set self.old.nodes e.index (marked n)) (map (message_of (F.values (ranges self.old.space.task))) batch.old.own.items);
              ever = padded (slice_set self.old.ever e.index true) (length self.new.nodes);
              best = batch.old.best;
              expansions = if is_some self.old.space.limit then suc self.old.expansions else self.old.expansions;
            }) }
        ensures unchanged { OnErr result (self.new ≡ self.old) }
        ensures receivers { batch.new.receivers ≡ batch.old.receivers }
    {
        self.reached
            .expand_least(&batch.own, &batch.hints, &batch.fs, &mut batch.outcomes)?;
        self.best = batch.best;
        if self.reached.space().limit().is_some() {
            self.expansions += 1;
        }
        Ok(())
    }

    /// Removes and returns the oldest message for owner `to`, or returns `None` if there is none.
    pub(crate) fn next_out(&mut self, to: usize) -> Option<Message<F>>
        requires { to < length self.old.outboxes }
        ensures first { list_at self.old.outboxes to
            ≡ map (message_of (F.values (ranges self.old.space.task))) (option_to_list result) ++ list_at self.new.outboxes to }
        ensures others { self.new ≡ record self.old { outboxes = slice_set self.old.outboxes to (list_at self.new.outboxes to) } }
        ensures fits { IfSome result (λ m. IsMessageTo (space_of S.owner self.old) to (message_of (F.values (ranges self.old.space.task)) m)) }
        ensures none { IfNone result (list_at self.old.outboxes to ≡ []) }
    {
        self.outboxes.take_out(to)
    }

    /// Returns whether there is no node to expand below the bound and no message to send.
    pub(crate) fn is_idle(&self, bound: Dist) -> bool
        ensures { result ≡ idle (space_of S.owner self.now) (under self.now bound) }
    {
        self.next(bound).is_none() && self.outboxes.are_empty()
    }

    /// Returns the least f-value of the nodes that are not expanded, infinite if there is none.
    pub(crate) fn least_open(&self) -> Dist
        ensures { result ≡ least_open (space_of S.owner self.now) self.now.nodes }
    {
        match self.reached.least() {
            Some(entry) => finite(entry.f),
            None => Dist::inf(),
        }
    }

    pub(crate) fn worker(&self) -> usize
        ensures { result ≡ self.now.worker }
    {
        self.worker
    }

    pub(crate) fn space(&self) -> &'a Space<'a, S>
        ensures { result.now ≡ self.now.space }
    {
        self.reached.space()
    }

    pub(crate) fn outbox(&self, to: usize) -> &VecDeque<Message<F>>
        requires { to < length self.now.outboxes }
        ensures { map (message_of (F.values (ranges self.now.space.task))) result.now.items ≡ list_at self.now.outboxes to }
    {
        self.outboxes.outbox(to)
    }

    /// Returns the number of owners.
    pub(crate) fn owners(&self) -> usize
        ensures { result ≡ length self.now.outboxes }
    {
        self.outboxes.len()
    }

    pub(crate) fn messages(&self) -> u128
        ensures { result ≡ waiting self.now.outboxes }
    {
        self.outboxes.messages()
    }

    /// Proves the type's invariant, which holds of every owner. Only for the proof.
    pub(crate) fn recall(&self)
        ensures owner { IsOwner S.owner self.now }
        ensures ever { length self.now.ever ≡ length self.now.nodes }
        ensures fits { F.Fits (ranges self.now.space.task) }
    {
        self.reached.recall();
    }
}

//! The owner of states.

ghost use Rattle.std.specs.Prelude.{◌≡◌, ◌≢◌, ◌⊎◌, true, false, IsTrue, ℕ, ◌<◌, ◌++◌, [], ◌==◌, length, map, slice_get, slice_set, Some, All, IfOk, IfErr, IfSome, IfNone, OnOk, OnErr};
ghost use Rattle.std.specs.Option.{option_to_list};
ghost use Rattle.cost.specs.Distances.{Distance, Infinite};
ghost use Rattle.fdr.specs.Tasks.{ranges, IsState, is_goal_state};
ghost use Rattle.owner_theory.specs.Owners.{Node, list_at, took, start_owner};
ghost use Rattle.owner_theory.specs.Worlds.{idle, waiting};
ghost use Rattle.owner_theory.specs.Families.{IsSearchSpace, IsLowerBound};
ghost use Rattle.closed.specs.declared.table.Outcome.TheVariants.{Kept};
ghost use Rattle.closed.specs.Tables.{padded, message_of, node_with, outcome_of, arrival};
ghost use Rattle.openlist.specs.BucketLists.{all_entries};
ghost use Rattle.owner_space.specs.Spaces.{searched};
ghost use Rattle.owner_reached.specs.Queues.{h_of, IsQueue};
ghost use Rattle.owner.specs.Outboxes.{count_in_use};
ghost use Rattle.owner.specs.Owned.{space_of, under, IsMessageTo, IsExpansion, IsRefusal, IsKept, least_open};

use crate::expansion::{Buffers, expand_alone, expand_node};
use crate::fault::OwnerFault;
use crate::holdings::Holdings;
use closed::{Entry, Message};
use cost::Dist;
use openlist::Buckets;
use owner_space::{Space, all_are_late, drop_late, has_large_successor};
use packed::{Layout, StateForm};
use packed_spread::Spread;
use scp::Places;
use std::alloc::{AllocError, Global};
use std::collections::VecDeque;
use std::marker::Model;

/// One owner of states: the states that it has taken, those of them that it has yet to expand, an outbox for each
/// owner, and the least cost at which it has taken a goal state. In contracts its value lacks the bound that it has
/// read last, which is an argument of each call that needs it.
#[derive(Drop)]
pub struct Owner<'a, S: Spread + Drop, F: StateForm + Drop> {
    alloc: Global,
    holdings: Holdings<'a, S, F>,
    /// A buffer for the values of a state.
    state: Vec<u32>,
    /// A buffer for the operators that apply in that state.
    applicable: Vec<usize>,
    /// Buffers for the successors of that state.
    buffers: Buffers<F>,
    /// The cached table indices of that state, while its successors are generated.
    places: Places<'a>,
}

impl<'a, S: Spread + Drop, F: StateForm + Drop> Model for Owner<'a, S, F> {
    ghost use Rattle.std.specs.Prelude.{◌≡◌, length};
    ghost use Rattle.owner.specs.Owned.{OwnerOf};
    ghost use Rattle.owner.specs.Held.{places_in};

    ghost Value = { OwnerOf S };

    ghost view = { λ o. o.holdings };

    ghost invariant = { λ o.
        (length o.state.items ≡ length o.holdings.space.task.value_names)
        × (o.places ≡ places_in o.holdings.space o.places.state) };
}

/// Writes the values of a message's state into `state`.
fn unpack<F: StateForm + Drop>(message: &Message<F>, layout: &Layout, state: &mut Vec<u32>)
    requires fits { F.Fits layout.now }
    requires values { IsState layout.now (F.values layout.now message.now.state) }
    requires len { length state.old.items ≡ length layout.now }
    ensures { state.new.items ≡ F.values layout.now message.now.state }
{
    message.state.unpack(layout, state);
}

/// Takes a message whose state has the values `state`. It may be in another form than those that are stored, as bits
/// outside all values are ignored, and is then packed again. On failure the owner is unchanged.
fn take_form<S: Spread + Drop, F: StateForm + Drop>(
    alloc: Global,
    holdings: &mut Holdings<'_, S, F>,
    message: &Message<F>,
    state: &[u32],
) -> Result<(), AllocError>
    requires fits { IsMessageTo (space_of S.owner holdings.old) holdings.old.worker
        (message_of (F.values (ranges holdings.old.space.task)) message.now) }
    requires values { F.values (ranges holdings.old.space.task) message.now.state ≡ state.now }
    ensures taken { OnOk result ((bound : Distance) → under holdings.new bound
        ≡ took (space_of S.owner holdings.old) (under holdings.old bound)
        (message_of (F.values (ranges holdings.old.space.task)) message.now)) }
    ensures ever { OnOk result (holdings.new.ever ≡ padded holdings.old.ever (length holdings.new.nodes)) }
    ensures space { holdings.new.space ≡ holdings.old.space }
    ensures worker { holdings.new.worker ≡ holdings.old.worker }
    ensures expansions { holdings.new.expansions ≡ holdings.old.expansions }
    ensures unchanged { OnErr result (holdings.new ≡ holdings.old) }
{
    holdings.recall(); // states of the task have the form
    let layout = holdings.space().layout();
    if message.state.is_form(layout) {
        return holdings.take(&message.state, state, message.rank, message.parent);
    }
    let form = F::pack(alloc, layout, state)?;
    holdings.take(&form, state, message.rank, message.parent)
}

/// Writes the values of the state at the index into `state`.
fn read_state<S: Spread + Drop, F: StateForm + Drop>(
    holdings: &Holdings<'_, S, F>,
    index: usize,
    state: &mut Vec<u32>,
)
    requires index { index < length holdings.now.nodes }
    requires len { length state.old.items ≡ length holdings.now.space.task.value_names }
    ensures state { (n : Node) → slice_get holdings.now.nodes index ≡ Some n → state.new.items ≡ n.state }
    ensures len { length state.new.items ≡ length state.old.items }
{
    holdings.reached.copy_state(index, state)
}

impl<'a, S: Spread + Drop, F: StateForm + Drop> Owner<'a, S, F> {
    /// Returns an owner at the start: worker `worker` of `owners`. States of the task have the form `F`. The owner of
    /// the initial state starts with that state, at cost 0.
    pub fn start(
        alloc: Global,
        space: &'a Space<'a, S>,
        worker: usize,
        owners: usize,
    ) -> Result<Owner<'a, S, F>, AllocError>
        requires worker { worker < owners }
        requires fits { F.Fits (ranges space.now.task) }
        ensures started { IfOk result (λ o. under o Infinite
            ≡ start_owner (searched S.owner space.now owners) (S.owner space.now.spread space.now.task.initial owners == worker)) }
        ensures ever { IfOk result (λ o. o.ever ≡ padded [] (length o.nodes)) }
        ensures space { IfOk result (λ o. o.space ≡ space.now) }
        ensures worker { IfOk result (λ o. o.worker ≡ worker) }
        ensures expansions { IfOk result (λ o. o.expansions ≡ 0) }
        ensures owners { IfOk result (λ o. length o.outboxes ≡ owners) }
    {
        let width = space.task().variable_count();
        let state = vec![in alloc; 0; width]?;
        let places = space.columns().places(alloc)?;
        Ok(Owner {
            alloc,
            holdings: Holdings::start(alloc, space, worker, owners)?,
            state,
            applicable: Vec::new(alloc),
            buffers: Buffers::new(alloc),
            places,
        })
    }

    /// Takes a message. On failure returns the message, and the owner is unchanged.
    pub fn take(&mut self, message: Message<F>) -> Result<(), (Message<F>, AllocError)>
        requires { IsMessageTo (space_of S.owner self.old) self.old.worker (message_of (F.values (ranges self.old.space.task)) message) }
        ensures taken { OnOk result ((bound : Distance) → under self.new bound
            ≡ took (space_of S.owner self.old) (under self.old bound) (message_of (F.values (ranges self.old.space.task)) message)) }
        ensures ever { OnOk result (self.new.ever ≡ padded self.old.ever (length self.new.nodes)) }
        ensures space { self.new.space ≡ self.old.space }
        ensures worker { self.new.worker ≡ self.old.worker }
        ensures expansions { self.new.expansions ≡ self.old.expansions }
        ensures refused { IfErr result (λ e. (e.0 ≡ message) × (self.new ≡ self.old)) }
    {
        self.holdings.recall(); // states of the task have the form
        unpack(&message, self.holdings.space().layout(), &mut self.state);
        match take_form(self.alloc, &mut self.holdings, &message, &self.state) {
            Ok(()) => Ok(()),
            Err(error) => Err((message, error)),
        }
    }

    /// Returns whether the owner has the message's state at the message's rank or a lesser one, and the state is no
    /// goal state: the message is then a duplicate that changes nothing when it is taken. It need not be one for this
    /// owner.
    pub fn knows(&self, message: &Message<F>) -> bool
        ensures state { IsTrue result → IsState (ranges self.now.space.task) (F.values (ranges self.now.space.task) message.now.state) }
        ensures owner { IsTrue result → (space_of S.owner self.now).owner_of (F.values (ranges self.now.space.task) message.now.state) ≡ self.now.worker }
        ensures nothing { IsTrue result → (bound : Distance) → under self.now bound
            ≡ took (space_of S.owner self.now) (under self.now bound) (message_of (F.values (ranges self.now.space.task)) message.now) }
        ensures unknown { result ≡ false → F.IsForm (ranges self.now.space.task) message.now.state →
            (outcome_of self.now.nodes (arrival (F.values (ranges self.now.space.task)) message.now) ≢ Kept)
            ⊎ (is_goal_state self.now.space.task (F.values (ranges self.now.space.task) message.now.state) ≡ true) }
    {
        self.holdings.knows(message)
    }

    /// Expands the next node whose f-value is below `bound`, the bound that the owner has read last: the node of least
    /// f, and among these the first by the tie-breaking rule of the space. Its successors whose f-value reaches the
    /// bound are dropped, those that belong to this owner are taken, and the others are put into outboxes.
    ///
    /// Returns the number of messages that were put into outboxes, or `None` if there is no such node, which changes
    /// nothing. On failure the owner is unchanged.
    pub fn expand(&mut self, bound: Dist) -> Result<Option<usize>, OwnerFault>
        ensures expanded { IfOk result (IsExpansion S.owner bound self.old self.new) }
        ensures refused { IfErr result (IsRefusal S.owner bound self.old self.new) }
        ensures space { self.new.space ≡ self.old.space }
        ensures worker { self.new.worker ≡ self.old.worker }
        ensures owners { length self.new.outboxes ≡ length self.old.outboxes }
    {
        let Some(next) = self.holdings.next(bound) else {
            return Ok(None);
        };
        if self.holdings.is_at_limit() {
            return Err(OwnerFault::LimitReached);
        }
        self.holdings.recall(); // the node is of a state of the task, and its rank is not too great
        let space = self.holdings.space();
        if all_are_late(space, bound, next.rank) {
            expand_alone(&mut self.holdings, &mut self.buffers)?;
            return Ok(Some(0));
        }
        read_state(&self.holdings, next.index, &mut self.state);
        space.applicable(&self.state, &mut self.applicable)?;
        if has_large_successor(space.task(), &self.applicable, next.rank) {
            return Err(OwnerFault::TotalTooLarge);
        }
        drop_late(space.task(), bound, next.rank, &mut self.applicable);
        self.places.enter(&self.state);
        let posted = expand_node(
            self.alloc,
            &mut self.holdings,
            bound,
            next,
            &mut self.places,
            &self.applicable,
            &mut self.buffers,
        )?;
        Ok(Some(posted))
    }

    /// Removes and returns the oldest message for owner `to`, or returns `None` if there is none.
    pub fn next_out(&mut self, to: usize) -> Option<Message<F>>
        requires { to < length self.old.outboxes }
        ensures first { list_at self.old.outboxes to
            ≡ map (message_of (F.values (ranges self.old.space.task))) (option_to_list result) ++ list_at self.new.outboxes to }
        ensures others { self.new ≡ record self.old { outboxes = slice_set self.old.outboxes to (list_at self.new.outboxes to) } }
        ensures fits { IfSome result (λ m. IsMessageTo (space_of S.owner self.old) to (message_of (F.values (ranges self.old.space.task)) m)) }
        ensures none { IfNone result (list_at self.old.outboxes to ≡ []) }
    {
        self.holdings.next_out(to)
    }

    /// Returns whether there is no node to expand below the bound and no message to send.
    pub fn is_idle(&self, bound: Dist) -> bool
        ensures { result ≡ idle (space_of S.owner self.now) (under self.now bound) }
    {
        self.holdings.is_idle(bound)
    }

    /// Returns the least cost at which a goal state was taken, infinite if none was.
    pub fn best_goal(&self) -> Dist
        ensures { result ≡ self.now.best }
    {
        self.holdings.best
    }

    /// Returns the least f-value of the nodes that are not expanded, infinite if there is none.
    pub fn least_open(&self) -> Dist
        ensures { result ≡ least_open (space_of S.owner self.now) self.now.nodes }
    {
        self.holdings.least_open()
    }

    /// Returns the number of messages in the outbox for owner `to`.
    pub fn outbox_len(&self, to: usize) -> usize
        requires { to < length self.now.outboxes }
        ensures { result ≡ length (list_at self.now.outboxes to) }
    {
        self.holdings.outbox(to).len()
    }

    /// Returns the messages in the outbox for owner `to`, the oldest first.
    pub fn outbox(&self, to: usize) -> &VecDeque<Message<F>>
        requires { to < length self.now.outboxes }
        ensures { map (message_of (F.values (ranges self.now.space.task))) result.now.items ≡ list_at self.now.outboxes to }
    {
        self.holdings.outbox(to)
    }

    /// Returns the number of outboxes with a message.
    pub fn outboxes_in_use(&self) -> usize
        ensures { result ≡ count_in_use self.now.outboxes }
    {
        self.holdings.outboxes.in_use()
    }

    /// Returns the number of messages in all outboxes.
    pub fn messages(&self) -> u128
        ensures { result ≡ waiting self.now.outboxes }
    {
        self.holdings.messages()
    }

    /// Returns the number of nodes that the owner has expanded if there is a limit on it, and 0 otherwise.
    pub fn expansions(&self) -> u64
        ensures { result ≡ self.now.expansions }
    {
        self.holdings.expansions
    }

    /// Returns the open list. Its entries are keyed by the tie-breaking rule and by whether their nodes were ever
    /// expanded. Entries other than the first may be stale: those of nodes that have since been improved or expanded.
    pub fn queue(&self) -> &Buckets
        ensures { IsQueue self.now.space.ties (h_of self.now.space) self.now.nodes self.now.ever (all_entries result.now) }
    {
        self.holdings.reached.queue()
    }

    /// Returns the space that the owner searches.
    pub fn space(&self) -> &'a Space<'a, S>
        ensures { result.now ≡ self.now.space }
    {
        self.holdings.space()
    }

    /// Returns the number of states that the owner has taken.
    pub fn len(&self) -> usize
        ensures { result ≡ length self.now.nodes }
    {
        self.holdings.reached.len()
    }

    /// Returns the entry of the state at the index.
    pub fn entry(&self, index: usize) -> Entry
        requires { index < length self.now.nodes }
        ensures { (n : Node) → slice_get self.now.nodes index ≡ Some n → n ≡ node_with n.state result }
    {
        self.holdings.reached.entry(index)
    }

    /// Writes the values of the state at the index into `state`.
    pub fn copy_state(&self, index: usize, state: &mut [u32])
        requires index { index < length self.now.nodes }
        requires len { length state.old ≡ length self.now.space.task.value_names }
        ensures { (n : Node) → slice_get self.now.nodes index ≡ Some n → state.new ≡ n.state }
    {
        self.holdings.reached.copy_state(index, state)
    }

    /// Proves the type's invariant, which holds of every owner: the space is a search space whose heuristic is a lower
    /// bound, nodes have states of the task that belong to this owner, messages have states of the task that belong to
    /// their receiver, costs and numbers of operators are at most 2^62, states of the task have the form, and as many
    /// states as there are were expanded or not. Only for the proof.
    pub fn recall(&self)
        ensures space { IsSearchSpace (space_of S.owner self.now) }
        ensures lower { IsLowerBound self.now.space.task (space_of S.owner self.now).heuristic }
        ensures owners { self.now.worker < length self.now.outboxes }
        ensures nodes { All (IsKept (space_of S.owner self.now) self.now.worker) self.now.nodes }
        ensures ever { length self.now.ever ≡ length self.now.nodes }
        ensures messages { (to : ℕ) → to < length self.now.outboxes →
            All (IsMessageTo (space_of S.owner self.now) to) (list_at self.now.outboxes to) }
        ensures fits { F.Fits (ranges self.now.space.task) }
    {
        self.holdings.recall();
        self.holdings.space().recall();
    }
}

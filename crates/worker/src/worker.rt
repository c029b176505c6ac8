//! The worker and its single steps.

ghost use Rattle.std.specs.Prelude.{◌≡◌, ℕ, ◌+◌, ◌^◌, ◌<◌, [], length, IfOk, IfErr};
ghost use Rattle.fdr.specs.Tasks.{ranges};
ghost use Rattle.board.specs.Seats.{IsSeatOf, view};
ghost use Rattle.worker.specs.Workers.{sent_to, received_from, values_in, misfits_of, IsFirstWorker, IsKept};
ghost use Rattle.worker.specs.Turns.{HasLooked, HasOffered, HasExpanded, IsExpandRefusal, posted_by, SendsOrNot, HasReceived, HasHeld};

use crate::ends::{give_back, has_room, pop, push};
use crate::fitting::is_for;
use crate::outcome::Received;
use board::{Board, Seat};
use cost::Dist;
use extract::Packet;
use links::{In, Out};
use owner::{Owner, OwnerFault, Space};
use packed::StateForm;
use packed_spread::Spread;
use std::alloc::{AllocError, Global};
use std::marker::Model;

/// An owner with its ends of the links to other workers, and what it has seen of the board and offered there. Contracts
/// do not see its buffer.
#[derive(Drop)]
pub struct Worker<'a, S: Spread + Drop, F: StateForm + Drop> {
    pub(crate) owner: Owner<'a, S, F>,
    pub(crate) outs: Vec<Out<F>>,
    pub(crate) ins: Vec<In<F>>,
    /// The bound that was read last.
    pub(crate) bound: Dist,
    /// The least bound that was read.
    seen: Dist,
    /// The least cost that was offered.
    offered: Dist,
    /// A message that was taken from a link and is not for this owner.
    misfit: Option<Packet<F>>,
    /// The owner's number.
    pub(crate) number: usize,
    /// A buffer for the values of a state.
    state: Vec<u32>,
    /// Whether it is not counted among the units.
    pub(crate) resting: bool,
    /// The number of messages in its outboxes that are not yet added to the units.
    pub(crate) uncounted: u64,
    /// The number of messages that it has taken and not yet subtracted from the units.
    pub(crate) taken: u64,
    /// The number of turns since the last one that polled, which counts itself; 0 if this turn polls.
    pub(crate) turns: u32,
}

impl<'a, S: Spread + Drop, F: StateForm + Drop> Model for Worker<'a, S, F> {
    ghost use Rattle.std.specs.Prelude.{◌≡◌, length};
    ghost use Rattle.fdr.specs.Tasks.{ranges};
    ghost use Rattle.worker.specs.Workers.{WorkerOf, IsKept, misfits_of};

    ghost Value = { WorkerOf S F };

    ghost view = { λ w. record {
      owner = w.owner;
      outs = w.outs.items;
      ins = w.ins.items;
      bound = w.bound;
      seen = w.seen;
      offered = w.offered;
      misfits = misfits_of (F.values (ranges w.owner.space.task)) w.misfit;
      resting = w.resting;
      uncounted = w.uncounted;
      taken = w.taken;
    } };

    ghost invariant = { λ w. (w.number ≡ w.owner.worker) × (length w.state.items ≡ length w.owner.space.task.value_names) × IsKept S.owner F.values (record {
      owner = w.owner;
      outs = w.outs.items;
      ins = w.ins.items;
      bound = w.bound;
      seen = w.seen;
      offered = w.offered;
      misfits = misfits_of (F.values (ranges w.owner.space.task)) w.misfit;
      resting = w.resting;
      uncounted = w.uncounted;
      taken = w.taken;
    }) };
}

/// Returns the number of messages that an expansion put into outboxes, 0 if there was none.
fn posted_by(posted: Option<usize>) -> u64
    ensures { result ≡ posted_by posted }
{
    match posted {
        Some(count) => count as u64,
        None => 0,
    }
}

/// The parts of a worker.
#[derive(Drop)]
pub struct Parts<'a, S: Spread + Drop, F: StateForm + Drop> {
    /// The owner.
    pub owner: Owner<'a, S, F>,
    /// The sending ends of its links, by receiver.
    pub outs: Vec<Out<F>>,
    /// The receiving ends of its links, by sender.
    pub ins: Vec<In<F>>,
    /// A message that was taken from a link and is not for the owner.
    pub misfit: Option<Packet<F>>,
}

impl<'a, S: Spread + Drop, F: StateForm + Drop> Worker<'a, S, F> {
    /// Creates worker `number` of `workers`, with its ends of links over which nothing was sent. States of the task
    /// have the form `F`.
    pub fn start(
        alloc: Global,
        space: &'a Space<'a, S>,
        number: usize,
        workers: usize,
        outs: Vec<Out<F>>,
        ins: Vec<In<F>>,
    ) -> Result<Worker<'a, S, F>, AllocError>
        requires number { number < workers }
        requires fits { F.Fits (ranges space.now.task) }
        requires outs { (length outs.items ≡ workers) × ((v : ℕ) → sent_to (F.values (ranges space.now.task)) outs.items v ≡ []) }
        requires ins { (length ins.items ≡ workers) × ((v : ℕ) → received_from (F.values (ranges space.now.task)) ins.items v ≡ []) }
        ensures { IfOk result (IsFirstWorker space.now number workers outs.items ins.items) }
    {
        Ok(Worker {
            owner: Owner::start(alloc, space, number, workers)?,
            outs,
            ins,
            bound: Dist::inf(),
            seen: Dist::inf(),
            offered: Dist::inf(),
            misfit: None,
            number,
            state: vec![in alloc; 0u32; space.task().variable_count()]?,
            resting: false,
            uncounted: 0,
            taken: 0,
            turns: 0,
        })
    }

    /// Reads the bound of the board.
    pub fn look(&mut self, board: &Board, seat: &mut Seat)
        requires { IsSeatOf board.now seat.old }
        ensures seat { IsSeatOf board.now seat.new }
        ensures looked { HasLooked self.old self.new (view seat.old) (view seat.new) }
    {
        self.bound = board.look(seat);
        self.seen = self.seen.min(self.bound);
    }

    /// Offers the least cost at which the owner has taken a goal state.
    pub fn offer(&mut self, board: &Board, seat: &mut Seat)
        requires { IsSeatOf board.now seat.old }
        ensures seat { IsSeatOf board.now seat.new }
        ensures offered { HasOffered self.old self.new (view seat.old) (view seat.new) }
    {
        let best = self.owner.best_goal();
        board.offer(seat, best);
        self.offered = self.offered.min(best);
    }

    /// Sends the oldest message for worker `to`, if there is one and the link has room for it. Returns whether one was
    /// sent.
    pub fn send(&mut self, to: usize) -> bool
        requires within { to < length self.old.outs }
        requires none_uncounted { self.old.uncounted ≡ 0 }
        ensures { SendsOrNot F.values to self.old self.new result }
    {
        if self.owner.outbox_len(to) == 0 {
            return false;
        }
        if !has_room(&mut self.outs, to) {
            return false;
        }
        let Some(message) = self.owner.next_out(to) else {
            return false;
        };
        push(&mut self.outs, to, message);
        true
    }

    /// Takes the oldest message from worker `from`, if the link is found to hold one. A message that is not for this
    /// owner is set aside. If allocation fails, the worker holds the message: it is the next that is taken from that
    /// worker, and it still counts as pending.
    pub fn receive(&mut self, from: usize) -> Result<Received, AllocError>
        requires within { from < length self.old.ins }
        requires none_aside { self.old.misfits ≡ [] }
        requires countable { self.old.taken + 1 < 2 ^ 64 }
        ensures received { IfOk result (HasReceived S.owner F.values from self.old self.new) }
        ensures refused { IfErr result (λ _. HasHeld F.values from self.old self.new) }
    {
        self.owner.recall();
        let Some(message) = pop(&mut self.ins, from) else {
            return Ok(Received::Nothing);
        };
        if self.owner.knows(&message) {
            self.taken += 1; // nothing changes when the owner takes it
            return Ok(Received::Taken);
        }
        let owners = self.outs.len();
        if !is_for(
            self.owner.space(),
            self.number,
            owners,
            &message,
            &mut self.state,
        ) {
            self.misfit = Some(Packet {
                sender: from,
                message,
            });
            return Ok(Received::SetAside);
        }
        match self.owner.take(message) {
            Ok(()) => {
                self.taken += 1;
                Ok(Received::Taken)
            }
            Err((returned, error)) => {
                give_back(&mut self.ins, from, returned);
                Err(error)
            }
        }
    }

    /// Expands the next node below the bound that was read last. Returns the number of messages that this put into
    /// outboxes, or `None` if there is no such node. Fails as `Owner::expand` does; the worker is then unchanged.
    pub fn expand(&mut self) -> Result<Option<usize>, OwnerFault>
        requires { self.old.uncounted ≡ 0 }
        ensures expanded { IfOk result (HasExpanded S.owner self.old self.new) }
        ensures refused { IfErr result (IsExpandRefusal S.owner self.old self.new) }
    {
        let posted = self.owner.expand(self.bound)?;
        self.uncounted = posted_by(posted);
        Ok(posted)
    }

    /// Returns the number of messages that it has taken and not yet subtracted from the units.
    pub fn taken(&self) -> u64
        ensures { result ≡ self.now.taken }
    {
        self.taken
    }

    /// Returns the number of workers.
    pub fn workers(&self) -> usize
        ensures outs { result ≡ length self.now.outs }
        ensures ins { result ≡ length self.now.ins }
    {
        self.outs.len()
    }

    /// Returns its owner of states.
    pub fn owner(&self) -> &Owner<'a, S, F>
        ensures { result.now ≡ self.now.owner }
    {
        &self.owner
    }

    /// Returns the least cost at which its owner has taken a goal state, infinite if it took none.
    pub fn best_goal(&self) -> Dist
        ensures { result ≡ self.now.owner.best }
    {
        self.owner.best_goal()
    }

    /// Returns whether it is not counted among the units, because it had nothing to do.
    pub fn is_resting(&self) -> bool
        ensures { result ≡ self.now.resting }
    {
        self.resting
    }

    /// Proves the type's invariant: the worker has a link to each worker and from each, and its owner is at the end of
    /// a run that records what went over its links, and what was seen and offered. Only for the proof.
    pub fn recall(&self)
        ensures { IsKept S.owner F.values self.now }
    {
        let _ = &self.owner; // what is told of a worker is known where a field of it is read
    }

    /// Returns the owner, the ends of its links, and the message that was set aside, if there is one.
    pub fn into_parts(self) -> Parts<'a, S, F>
        ensures owner { result.owner ≡ self.entry.owner }
        ensures outs { result.outs.items ≡ self.entry.outs }
        ensures ins { result.ins.items ≡ self.entry.ins }
        ensures misfit { misfits_of (values_in F.values self.entry) result.misfit ≡ self.entry.misfits }
    {
        let Worker {
            owner,
            outs,
            ins,
            misfit,
            ..
        } = self;
        Parts {
            owner,
            outs,
            ins,
            misfit,
        }
    }
}

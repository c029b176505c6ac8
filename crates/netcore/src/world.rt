//! The world of owners.

ghost use Rattle.std.specs.Prelude.{◌≡◌, ◌≢◌, ℕ, ◌<◌, ◌+◌, ◌-◌, ◌^◌, min, not, sum_by, count_by, List, [], Option, false, map, length, slice_get, replicate, IfOk, IfErr, MatchResult};
ghost use Rattle.fdr.specs.Tasks.{ranges, IsState};
ghost use Rattle.owner_theory.specs.Worlds as machine;
ghost use Rattle.cost.specs.Distances.{Distance};
ghost use Rattle.owner_theory.specs.Worlds.{world_start, family_of, waiting, IsQuiet};
ghost use Rattle.owner.specs.Spaces.{searched};
ghost use Rattle.netcore.specs.declared.step.WorldStep.{WorldStep};
ghost use Rattle.netcore.specs.Worlds.{space_in, left_in, world_after_run, Shows, Steps, IsAfter, IsStepRefusal, IsFilled, IsRun, IsRunRefusal, would_change};
ghost use Rattle.netcore.specs.Possible.{possible_steps};
ghost use Rattle.netcore.specs.Kept.{IsStepDone, IsStepRefused};
ghost use Rattle.netcore.specs.Starts.{IsFirstOwner};
ghost use Rattle.netcore.specs.declared.step.WorldStep.TheVariants.{Expand, Send, Deliver, Offer, Look, Rest};
ghost use Rattle.extract.specs.Ends.{IsEndOf, IsSettledAnswer, answer_of};
ghost use Rattle.extract.specs.Views.{packets_in};
ghost use Rattle.owner_theory.specs.Owners.{At};
ghost use Rattle.owner.specs.Owned.{OwnerOf};
ghost use Rattle.owner.specs.declared.fault.OwnerFault.TheVariants.{OutOfMemory};

use crate::counts::{awake_count, underway_count, waiting_count};
use crate::step::WorldStep;
use cost::Dist;
use extract::{Joined, Packet, SearchAnswer, settled_bound};
use owner::{Owner, OwnerFault, Space};
use packed::StateForm;
use packed_spread::Spread;
use std::alloc::{AllocError, Global};
use std::collections::VecDeque;
use std::marker::Model;

/// Owners of states, the messages underway to each of them, the bound that each has read last, the least cost that was
/// offered, which owners are at rest, and whether a list of steps was ended by an owner's limit.
#[derive(Drop)]
pub struct World<'a, S: Spread + Drop, F: StateForm + Drop> {
    pub(crate) space: &'a Space<'a, S>,
    pub(crate) owners: Vec<Owner<'a, S, F>>,
    pub(crate) underway: Vec<VecDeque<Packet<F>>>,
    pub(crate) seen: Vec<Dist>,
    pub(crate) bound: Dist,
    pub(crate) resting: Vec<bool>,
    pub(crate) limited: bool,
}

impl<'a, S: Spread + Drop, F: StateForm + Drop> Model for World<'a, S, F> {
    ghost use Rattle.std.specs.Prelude.{map};
    ghost use Rattle.fdr.specs.Tasks.{ranges};
    ghost use Rattle.netcore.specs.Worlds.{WorldOf};
    ghost use Rattle.extract.specs.Views.{packets_in};

    ghost Value = { WorldOf S };

    ghost view = { λ w. record {
      space = w.space.now;
      owners = w.owners.items;
      underway = map (packets_in (F.values (ranges w.space.now.task))) w.underway.items;
      seen = w.seen.items;
      bound = w.bound;
      resting = w.resting.items;
      limited = w.limited;
    } };

    ghost use Rattle.netcore.specs.Kept.{IsWorld};

    ghost invariant = { λ w. IsWorld S.owner (record {
      space = w.space.now;
      owners = w.owners.items;
      underway = map (packets_in (F.values (ranges w.space.now.task))) w.underway.items;
      seen = w.seen.items;
      bound = w.bound;
      resting = w.resting.items;
      limited = w.limited;
    }) };
}

/// Returns `count` owners at the start, each with its number.
fn first_owners<'a, S: Spread + Drop, F: StateForm + Drop>(
    alloc: Global,
    space: &'a Space<'a, S>,
    count: usize,
) -> Result<Vec<Owner<'a, S, F>>, AllocError>
    requires { F.Fits (ranges space.now.task) }
    ensures len { IfOk result (λ owners. length owners.items ≡ count) }
    ensures each { IfOk result (λ owners. (v : ℕ) (o : OwnerOf S) → At owners.items v o → IsFirstOwner S.owner space.now count v o) }
{
    let mut owners = Vec::with_capacity(alloc, count)?;
    for worker in 0..count {
        owners.push(Owner::start(alloc, space, worker, count)?)?;
    }
    Ok(owners)
}

/// Returns `count` empty queues.
fn empty_queues<F: StateForm + Drop>(
    alloc: Global,
    count: usize,
) -> Result<Vec<VecDeque<Packet<F>>>, AllocError>
    ensures { IfOk result (λ queues. (values : F → List ℕ) → map (packets_in values) queues.items ≡ replicate count []) }
{
    let mut queues = Vec::with_capacity(alloc, count)?;
    for _ in 0..count {
        queues.push(VecDeque::new(alloc))?;
    }
    Ok(queues)
}

impl<'a, S: Spread + Drop, F: StateForm + Drop> World<'a, S, F> {
    /// Returns a world at its start: no owner is at rest or has read a bound, and the owner of the initial state starts
    /// with that state. States of the task have the form `F`.
    pub fn start(
        alloc: Global,
        space: &'a Space<'a, S>,
        owners: usize,
    ) -> Result<World<'a, S, F>, AllocError>
        requires owners { 0 < owners }
        requires fits { F.Fits (ranges space.now.task) }
        ensures started { IfOk result (λ w. Shows S.owner w (world_start (searched S.owner space.now owners))) }
        ensures limited { IfOk result (λ w. w.limited ≡ false) }
        ensures space { IfOk result (λ w. w.space ≡ space.now) }
        ensures owners { IfOk result (λ w. length w.owners ≡ owners) }
    {
        Ok(World {
            space,
            owners: first_owners(alloc, space, owners)?,
            underway: empty_queues(alloc, owners)?,
            seen: vec![in alloc; Dist::inf(); owners]?,
            bound: Dist::inf(),
            resting: vec![in alloc; false; owners]?,
            limited: false,
        })
    }

    /// Expands the worker's next node below the bound that it has read last. Returns whether there was one. Fails as
    /// `Owner::expand` does; the world is then unchanged.
    fn expand(&mut self, worker: usize) -> Result<bool, OwnerFault>
        ensures { MatchResult result (IsStepDone S.owner self.old self.new (Expand worker)) (IsStepRefused S.owner self.old self.new (Expand worker)) }
    {
        if worker >= self.owners.len() {
            return Ok(false);
        }
        match self.owners[worker].expand(self.seen[worker]) {
            Ok(posted) => Ok(posted.is_some()),
            Err(fault) => Err(fault),
        }
    }

    /// Puts the worker's oldest message for worker `to` underway. Returns whether there was one. On failure the world
    /// is unchanged.
    fn send(&mut self, worker: usize, to: usize) -> Result<bool, AllocError>
        ensures { MatchResult result (IsStepDone S.owner self.old self.new (Send worker to))
            (λ _. IsStepRefused S.owner self.old self.new (Send worker to) OutOfMemory) }
    {
        if worker >= self.owners.len() {
            return Ok(false);
        }
        if to >= self.owners.len() {
            return Ok(false);
        }
        if self.owners[worker].outbox_len(to) == 0 {
            return Ok(false);
        }
        self.underway[to].reserve(1)?; // the message stays in its outbox until there is room for it
        let Some(message) = self.owners[worker].next_out(to) else {
            unreachable!() // there is a message
        };
        self.underway[to].push_back_reserved(Packet {
            sender: worker,
            message,
        });
        Ok(true)
    }

    /// Delivers message number `number` of those underway to the worker, which is then not at rest. Returns whether
    /// there was one. On failure the world is unchanged.
    fn deliver(&mut self, worker: usize, number: usize) -> Result<bool, AllocError>
        ensures { MatchResult result (IsStepDone S.owner self.old self.new (Deliver worker number))
            (λ _. IsStepRefused S.owner self.old self.new (Deliver worker number) OutOfMemory) }
    {
        if worker >= self.owners.len() {
            return Ok(false);
        }
        let Some(packet) = self.underway[worker].remove(number) else {
            return Ok(false);
        };
        let sender = packet.sender;
        match self.owners[worker].take(packet.message) {
            Ok(()) => {
                self.resting[worker] = false;
                Ok(true)
            }
            Err((message, error)) => {
                let packet = Packet { sender, message };
                let Ok(()) = self.underway[worker].insert(number, packet) else {
                    unreachable!() // there is the room that it left
                };
                Err(error)
            }
        }
    }

    /// Lowers the bound to the least cost at which the worker has taken a goal state, if that is less. Returns whether
    /// the bound changed.
    fn offer(&mut self, worker: usize) -> bool
        ensures { IsStepDone S.owner self.old self.new (Offer worker) result }
    {
        if worker >= self.owners.len() {
            return false;
        }
        let best = self.owners[worker].best_goal();
        if best >= self.bound {
            return false;
        }
        self.bound = best;
        true
    }

    /// Makes the worker read the current bound. Returns whether it had read another one.
    fn look(&mut self, worker: usize) -> bool
        ensures { IsStepDone S.owner self.old self.new (Look worker) result }
    {
        if worker >= self.owners.len() {
            return false;
        }
        if self.seen[worker].cmp(&self.bound).is_eq() {
            return false;
        }
        self.seen[worker] = self.bound;
        true
    }

    /// Puts the worker at rest if it has no node to expand and no message to send. Returns whether it did and was not
    /// at rest before.
    fn rest(&mut self, worker: usize) -> bool
        ensures { IsStepDone S.owner self.old self.new (Rest worker) result }
    {
        if worker >= self.owners.len() {
            return false;
        }
        if self.resting[worker] {
            return false;
        }
        if !self.owners[worker].is_idle(self.seen[worker]) {
            return false;
        }
        self.resting[worker] = true;
        true
    }

    /// Does a step, and returns whether something changed. Fails with the fault of the owner that is to expand a node,
    /// or if allocation fails in a step that would change something; the world is then unchanged.
    pub fn step(&mut self, step: WorldStep) -> Result<bool, OwnerFault>
        ensures stepped { (world : machine.World) → Shows S.owner self.old world → IfOk result (λ _. Steps S.owner self.old world step self.new) }
        ensures changed { IfOk result (λ changed. changed ≡ would_change S.owner self.old step) }
        ensures unchanged { IfOk result (λ changed. changed ≡ false → self.new ≡ self.old) }
        ensures refused { IfErr result (IsStepRefusal S.owner self.old self.new step) }
        ensures limited { IfOk result (λ _. self.new.limited ≡ self.old.limited) }
        ensures space { self.new.space ≡ self.old.space }
        ensures owners { length self.new.owners ≡ length self.old.owners }
    {
        match step {
            WorldStep::Expand(worker) => self.expand(worker),
            WorldStep::Send(worker, to) => Ok(self.send(worker, to)?),
            WorldStep::Deliver(worker, number) => Ok(self.deliver(worker, number)?),
            WorldStep::Offer(worker) => Ok(self.offer(worker)),
            WorldStep::Look(worker) => Ok(self.look(worker)),
            WorldStep::Rest(worker) => Ok(self.rest(worker)),
        }
    }

    /// Returns the world after these steps, from the start. If one of them asks an owner for more nodes than its limit
    /// allows, it returns the world before that step, which is then limited, and no later step is done. Fails with
    /// `TotalTooLarge` if a step does (the contract states this of some world after the steps before it, not of this
    /// one), or if allocation fails.
    pub fn run(
        alloc: Global,
        space: &'a Space<'a, S>,
        owners: usize,
        steps: &[WorldStep],
    ) -> Result<World<'a, S, F>, OwnerFault>
        requires owners { 0 < owners }
        requires fits { F.Fits (ranges space.now.task) }
        ensures run { IfOk result (IsRun S.owner space.now owners steps.now) }
        ensures refused { IfErr result (IsRunRefusal S.owner space.now owners steps.now) }
        ensures space { IfOk result (λ w. w.space ≡ space.now) }
        ensures owners { IfOk result (λ w. length w.owners ≡ owners) }
    {
        let mut world = World::start(alloc, space, owners)?;
        for step in steps {
            match world.step(*step) {
                Ok(_) => {}
                Err(OwnerFault::LimitReached) => {
                    world.limited = true;
                    world.recall(); // each owner has a queue, a bound and a flag
                    return Ok(world);
                }
                Err(OwnerFault::TotalTooLarge) => return Err(OwnerFault::TotalTooLarge),
                Err(OwnerFault::OutOfMemory) => return Err(OwnerFault::OutOfMemory),
            }
        }
        world.recall(); // each owner has a queue, a bound and a flag
        Ok(world)
    }

    /// Returns whether `run` ended before one of its steps, because that asks an owner for more nodes than its limit
    /// allows.
    pub fn limited(&self) -> bool
        ensures { result ≡ self.now.limited }
    {
        self.limited
    }

    /// Returns the number of messages underway or in outboxes plus the number of owners not at rest, capped at 2^128 -
    /// 1.
    fn pending(&self) -> u128
        ensures { result ≡ min (length (left_in self.now) + sum_by (λ o. waiting o.outboxes) self.now.owners + count_by not self.now.resting) (2 ^ 128 - 1) }
    {
        let messages = underway_count(&self.underway).saturating_add(waiting_count(&self.owners));
        messages.saturating_add(awake_count(&self.resting) as u128)
    }

    /// Returns the number of messages underway or in outboxes plus the number of owners not at rest, capped at
    /// `u128::MAX`. If it is 0, the owners are settled; if not, some step would change something.
    pub fn count(&self) -> u128
        ensures count { (world : machine.World) → Shows S.owner self.now world → result ≡ min (machine.count (space_in S.owner self.now) world) (2 ^ 128 - 1) }
        ensures quiet { result ≡ 0 → (asked : List WorldStep) (after : IsAfter S.owner (space_in S.owner self.now) asked self.now) →
            IsQuiet (space_in S.owner self.now) (world_after_run (space_in S.owner self.now) after.steps) }
        ensures possible { result ≢ 0 → 0 < length (possible_steps S.owner self.now) }
    {
        let first = &self.owners[0];
        first.recall();
        self.pending()
    }

    /// Returns the bound at which the owners are settled: the least cost at which a goal state was taken, infinite if
    /// none was, provided that no pending f-value is below it. Returns `None` if they are not settled.
    pub fn settled(&self, alloc: Global) -> Result<Option<Dist>, AllocError>
        ensures { IfOk result (IsSettledAnswer (space_in S.owner self.now) self.now.owners (left_in self.now)) }
    {
        settled_bound(alloc, self.space, &self.owners, &self.underway)
    }

    /// Returns the result that the owners have found: the cost of a cheapest plan, or that there is no plan; `None` if
    /// they are not settled.
    pub fn answer(&self, alloc: Global) -> Result<Option<SearchAnswer>, AllocError>
        ensures { IfOk result
            (λ answer. (at : Option Distance) × IsSettledAnswer (space_in S.owner self.now) self.now.owners (left_in self.now) at × (answer ≡ answer_of at)) }
    {
        let Some(bound) = self.settled(alloc)? else {
            return Ok(None);
        };
        match bound.get() {
            Some(cost) => Ok(Some(SearchAnswer::Solved(cost))),
            None => Ok(Some(SearchAnswer::Unsolvable)),
        }
    }

    /// Returns the end of the search, as the end of a lawful family.
    pub fn joined(self) -> Joined<'a, S, F>
        ensures shown { (asked : List WorldStep) (after : IsAfter S.owner (space_in S.owner self.entry) asked self.entry) →
            IsEndOf S.owner result (family_of (world_after_run (space_in S.owner self.entry) after.steps)) }
        ensures space { result.space ≡ self.entry.space }
        ensures owners { result.owners ≡ self.entry.owners }
        ensures left { result.left ≡ left_in self.entry }
    {
        let first = &self.owners[0];
        first.recall();
        Joined::new(self.space, self.owners, self.underway)
    }

    /// Returns the owners, in the order of their numbers.
    pub fn owners(&self) -> &[Owner<'a, S, F>]
        ensures { result.now ≡ self.now.owners }
    {
        &self.owners
    }

    /// Proves the type's invariant: every world is the world after some run, and it has owners, each with a queue, a
    /// bound and a flag. Only for the proof.
    pub fn recall(&self)
        ensures run { ∥ ((asked : List WorldStep) × IsAfter S.owner (space_in S.owner self.now) asked self.now) ∥₁ }
        ensures some { 0 < length self.now.owners }
        ensures filled { IsFilled self.now }
    {
        let _ = self.owners.len();
    }
}

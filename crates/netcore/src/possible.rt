//! The steps that would change something.

ghost use Rattle.std.specs.Prelude.{◌≡◌, ℕ, List, ◌<◌, ◌-◌, ◌^◌, ◌++◌, min, length, map, slice_get, flat_map};
ghost use Rattle.extract.specs.Views.{packets_in};
ghost use Rattle.netcore.specs.Worlds.{would_change};
ghost use Rattle.netcore.specs.Possible.{own_step, by_owner, sends_of, deliveries, possible_steps, below};
ghost use Rattle.netcore.specs.declared.step.WorldStep.TheVariants.{Expand, Send, Deliver, Offer, Look, Rest};

use crate::counts::underway_count;
use crate::step::WorldStep;
use crate::world::World;
use extract::Packet;
use packed::StateForm;
use packed_spread::Spread;
use std::collections::VecDeque;

/// A kind of step that an owner does alone, without a message.
#[derive(Clone, Copy)]
enum OwnStep {
    Expand,
    Offer,
    Look,
    Rest,
}

impl OwnStep {
    /// Returns the step of this kind by this worker.
    fn of(self, worker: usize) -> WorldStep
        ensures { result ≡ own_step self worker }
    {
        match self {
            OwnStep::Expand => WorldStep::Expand(worker),
            OwnStep::Offer => WorldStep::Offer(worker),
            OwnStep::Look => WorldStep::Look(worker),
            OwnStep::Rest => WorldStep::Rest(worker),
        }
    }
}

/// Returns step number `number` among those that deliver a message of these queues.
fn nth_delivery<F: StateForm + Drop>(
    queues: &[VecDeque<Packet<F>>],
    number: u128,
) -> Option<WorldStep>
    ensures { (values : F → List ℕ) → result ≡ slice_get (deliveries 0 (map (packets_in values) queues.now)) number }
{
    let mut left = number;
    for (worker, queue) in queues.iter().enumerate() {
        let count = queue.len() as u128;
        if left < count {
            return Some(WorldStep::Deliver(worker, left as usize));
        }
        left -= count;
    }
    None
}

impl<'a, S: Spread + Drop, F: StateForm + Drop> World<'a, S, F> {
    /// Returns whether the step would change something. A step of an owner or a message that does not exist would not.
    /// The limit on expansions is ignored.
    pub fn would_change(&self, step: WorldStep) -> bool
        ensures { result ≡ would_change S.owner self.now step }
    {
        match step {
            WorldStep::Expand(worker) => self.could_expand(worker),
            WorldStep::Send(worker, to) => self.could_send(worker, to),
            WorldStep::Deliver(worker, number) => self.could_deliver(worker, number),
            WorldStep::Offer(worker) => self.could_offer(worker),
            WorldStep::Look(worker) => self.could_look(worker),
            WorldStep::Rest(worker) => self.could_rest(worker),
        }
    }

    /// Returns whether the worker has a node to expand below the bound that it has read last.
    fn could_expand(&self, worker: usize) -> bool
        ensures { result ≡ would_change S.owner self.now (Expand worker) }
    {
        if worker >= self.owners.len() {
            return false;
        }
        self.owners[worker].least_open() < self.seen[worker]
    }

    /// Returns whether the worker has a message in its outbox for worker `to`.
    fn could_send(&self, worker: usize, to: usize) -> bool
        ensures { result ≡ would_change S.owner self.now (Send worker to) }
    {
        if worker >= self.owners.len() {
            return false;
        }
        if to >= self.owners.len() {
            return false;
        }
        self.owners[worker].outbox_len(to) > 0
    }

    /// Returns whether message number `number` is underway to the worker.
    fn could_deliver(&self, worker: usize, number: usize) -> bool
        ensures { result ≡ would_change S.owner self.now (Deliver worker number) }
    {
        match self.underway.get(worker) {
            Some(queue) => number < queue.len(),
            None => false,
        }
    }

    /// Returns whether the worker has taken a goal state at a cost below the bound.
    fn could_offer(&self, worker: usize) -> bool
        ensures { result ≡ would_change S.owner self.now (Offer worker) }
    {
        if worker >= self.owners.len() {
            return false;
        }
        self.owners[worker].best_goal() < self.bound
    }

    /// Returns whether the bound that the worker has read last differs from the current one.
    fn could_look(&self, worker: usize) -> bool
        ensures { result ≡ would_change S.owner self.now (Look worker) }
    {
        match self.seen.get(worker) {
            Some(seen) => *seen != self.bound,
            None => false,
        }
    }

    /// Returns whether the worker is idle and not at rest.
    fn could_rest(&self, worker: usize) -> bool
        ensures { result ≡ would_change S.owner self.now (Rest worker) }
    {
        if worker >= self.owners.len() {
            return false;
        }
        if self.resting[worker] {
            return false;
        }
        self.owners[worker].is_idle(self.seen[worker])
    }

    /// Returns the number of owners.
    fn owner_count(&self) -> usize
        ensures { result ≡ length self.now.owners }
    {
        self.owners.len()
    }

    /// Returns the number of steps of this kind that would change something.
    fn own_count(&self, kind: OwnStep) -> usize
        ensures { result ≡ length (by_owner S.owner self.now (own_step kind)) }
    {
        (0..self.owner_count())
            .filter(|worker| self.would_change(kind.of(*worker)))
            .count()
    }

    /// Returns step number `number` among those of this kind that would change something.
    fn nth_own(&self, kind: OwnStep, number: u128) -> Option<WorldStep>
        ensures { result ≡ slice_get (by_owner S.owner self.now (own_step kind)) number }
    {
        let mut left = number;
        for worker in 0..self.owner_count() {
            let step = kind.of(worker);
            if !self.would_change(step) {
                continue;
            }
            if left == 0 {
                return Some(step);
            }
            left -= 1;
        }
        None
    }

    /// Returns the number of owners for which this one has a message.
    fn send_count_of(&self, worker: usize) -> usize
        requires { worker < length self.now.owners }
        ensures { result ≡ length (sends_of S.owner self.now worker) }
    {
        self.owners[worker].outboxes_in_use()
    }

    /// Returns step number `number` among those that send a message of this owner.
    fn nth_send_of(&self, worker: usize, number: usize) -> Option<WorldStep>
        ensures { result ≡ slice_get (sends_of S.owner self.now worker) number }
    {
        let mut left = number;
        for to in 0..self.owner_count() {
            if !self.could_send(worker, to) {
                continue;
            }
            if left == 0 {
                return Some(WorldStep::Send(worker, to));
            }
            left -= 1;
        }
        None
    }

    /// Returns the number of pairs of owners of which the first has a message for the second, capped at 2^128 - 1.
    fn send_count(&self) -> u128
        ensures { result ≡ min (length (flat_map (sends_of S.owner self.now) (below (length self.now.owners)))) (2 ^ 128 - 1) }
    {
        let mut count: u128 = 0;
        for worker in 0..self.owner_count() {
            count = count.saturating_add(self.send_count_of(worker) as u128);
        }
        count
    }

    /// Returns the number of messages underway, capped at 2^128 - 1.
    fn delivery_count(&self) -> u128
        ensures { result ≡ min (length (deliveries 0 self.now.underway)) (2 ^ 128 - 1) }
    {
        underway_count(&self.underway)
    }

    /// Returns the number of steps that would change something, capped at 2^128 - 1. It takes time linear in the number
    /// of owners, whatever the number of states and messages.
    pub fn possible_count(&self) -> u128
        ensures { result ≡ min (length (possible_steps S.owner self.now)) (2 ^ 128 - 1) }
    {
        (self.own_count(OwnStep::Expand) as u128)
            .saturating_add(self.send_count())
            .saturating_add(self.delivery_count())
            .saturating_add(self.own_count(OwnStep::Offer) as u128)
            .saturating_add(self.own_count(OwnStep::Look) as u128)
            .saturating_add(self.own_count(OwnStep::Rest) as u128)
    }

    /// Returns step number `number` among those that send a message.
    fn nth_send(&self, number: u128) -> Option<WorldStep>
        ensures { result ≡ slice_get (flat_map (sends_of S.owner self.now) (below (length self.now.owners))) number }
    {
        let mut left = number;
        for worker in 0..self.owner_count() {
            let count = self.send_count_of(worker) as u128;
            if left < count {
                return self.nth_send_of(worker, left as usize);
            }
            left -= count;
        }
        None
    }

    /// Returns step number `number` among those by which an owner offers, reads or rests and that would change
    /// something.
    fn nth_later(&self, number: u128) -> Option<WorldStep>
        ensures { result ≡ slice_get (by_owner S.owner self.now Offer ++ by_owner S.owner self.now Look ++ by_owner S.owner self.now Rest) number }
    {
        if let Some(step) = self.nth_own(OwnStep::Offer, number) {
            return Some(step);
        }
        let number = number - self.own_count(OwnStep::Offer) as u128;
        if let Some(step) = self.nth_own(OwnStep::Look, number) {
            return Some(step);
        }
        let number = number - self.own_count(OwnStep::Look) as u128;
        self.nth_own(OwnStep::Rest, number)
    }

    /// Returns step number `number` among those that would change something, in the order Expand, Send, Deliver, Offer,
    /// Look, Rest, and in each kind by increasing numbers. Returns `None` if at most `number` steps would change
    /// something. It takes time linear in the number of owners.
    pub fn possible_step(&self, number: u128) -> Option<WorldStep>
        ensures { result ≡ slice_get (possible_steps S.owner self.now) number }
    {
        if let Some(step) = self.nth_own(OwnStep::Expand, number) {
            return Some(step);
        }
        // none was found, so their number is at most `number`, and the counts are exact
        let number = number - self.own_count(OwnStep::Expand) as u128;
        if let Some(step) = self.nth_send(number) {
            return Some(step);
        }
        let number = number - self.send_count();
        if let Some(step) = nth_delivery(&self.underway, number) {
            return Some(step);
        }
        self.nth_later(number - self.delivery_count())
    }
}

//! A queue for each receiver.

ghost use Rattle.std.specs.Prelude.{◌≡◌, ◌<◌, ◌++◌, ◌∷◌, [], length, slice_set, replicate, All, IfOk, IfNone, OnOk, OnErr};
ghost use Rattle.std.specs.List.{list_all};
ghost use Rattle.std.specs.Option.{option_to_list};
ghost use Rattle.owner_theory.specs.Owners.{list_at};
ghost use Rattle.owner_theory.specs.Worlds.{is_empty};
ghost use Rattle.owner_outboxes.specs.Outboxes.{boxes_of, count_in_use, message_count, without_last, withdrawn};

use closed::Message;
use packed::StateForm;
use std::alloc::{AllocError, Global};
use std::collections::VecDeque;
use std::marker::Model;

/// An outbox for each owner. In contracts its value is the messages of each, the oldest first.
#[derive(Drop)]
pub struct Outboxes<F: StateForm + Drop> {
    queues: Vec<VecDeque<Message<F>>>,
    /// The number of outboxes with a message. It is stored, as is `messages`, so that no query has to visit all
    /// outboxes.
    in_use: usize,
    /// The number of messages in all outboxes.
    messages: u128,
}

impl<F: StateForm + Drop> Model for Outboxes<F> {
    ghost use Rattle.std.specs.Prelude.{◌≡◌, List};
    ghost use Rattle.closed.specs.declared.message.Message.{Message as MessageOf};
    ghost use Rattle.owner_outboxes.specs.Outboxes.{boxes_of, count_in_use, message_count};

    ghost Value = { List (List (MessageOf F)) };

    ghost view = { λ o. boxes_of o.queues.items };

    ghost invariant = { λ o.
        (o.in_use ≡ count_in_use (boxes_of o.queues.items))
        × (o.messages ≡ message_count (boxes_of o.queues.items)) };
}

/// Returns `owners` empty queues.
fn empty_queues<F: StateForm + Drop>(
    alloc: Global,
    owners: usize,
) -> Result<Vec<VecDeque<Message<F>>>, AllocError>
    ensures { IfOk result (λ queues. boxes_of queues.items ≡ replicate owners []) }
{
    let mut queues = Vec::with_capacity(alloc, owners)?;
    for _ in 0..owners {
        queues.push(VecDeque::new(alloc))?;
    }
    Ok(queues)
}

/// Appends a message to queue `to`. On failure the queues are unchanged.
fn push_last<F: StateForm + Drop>(
    queues: &mut Vec<VecDeque<Message<F>>>,
    to: usize,
    message: Message<F>,
) -> Result<(), AllocError>
    requires { to < length queues.old.items }
    ensures posted { OnOk result (boxes_of queues.new.items
        ≡ slice_set (boxes_of queues.old.items) to (list_at (boxes_of queues.old.items) to ++ message ∷ [])) }
    ensures unchanged { OnErr result (boxes_of queues.new.items ≡ boxes_of queues.old.items) }
{
    queues[to].push_back(message)?;
    Ok(())
}

/// Removes and returns the oldest message of queue `to`, or returns `None` if it is empty.
fn pop_oldest<F: StateForm + Drop>(
    queues: &mut Vec<VecDeque<Message<F>>>,
    to: usize,
) -> Option<Message<F>>
    requires { to < length queues.old.items }
    ensures first { list_at (boxes_of queues.old.items) to ≡ option_to_list result ++ list_at (boxes_of queues.new.items) to }
    ensures others { boxes_of queues.new.items ≡ slice_set (boxes_of queues.old.items) to (list_at (boxes_of queues.new.items) to) }
    ensures none { IfNone result (list_at (boxes_of queues.old.items) to ≡ []) }
    ensures len { length queues.new.items ≡ length queues.old.items }
{
    queues[to].pop_front()
}

/// Removes and returns the newest message of queue `to`, or returns `None` if it is empty.
fn pop_newest<F: StateForm + Drop>(
    queues: &mut Vec<VecDeque<Message<F>>>,
    to: usize,
) -> Option<Message<F>>
    requires { to < length queues.old.items }
    ensures last { list_at (boxes_of queues.old.items) to ≡ list_at (boxes_of queues.new.items) to ++ option_to_list result }
    ensures rest { boxes_of queues.new.items ≡ slice_set (boxes_of queues.old.items) to (without_last (list_at (boxes_of queues.old.items) to)) }
    ensures len { length queues.new.items ≡ length queues.old.items }
{
    queues[to].pop_back()
}

impl<F: StateForm + Drop> Outboxes<F> {
    /// Returns `owners` empty outboxes.
    pub fn empty(alloc: Global, owners: usize) -> Result<Outboxes<F>, AllocError>
        ensures { IfOk result (λ outboxes. outboxes ≡ replicate owners []) }
    {
        Ok(Outboxes {
            queues: empty_queues(alloc, owners)?,
            in_use: 0,
            messages: 0,
        })
    }

    /// Appends a message to the outbox for owner `to`. On failure the outboxes are unchanged.
    pub fn post(&mut self, to: usize, message: Message<F>) -> Result<(), AllocError>
        requires { to < length self.old }
        ensures posted { OnOk result (self.new ≡ slice_set self.old to (list_at self.old to ++ message ∷ [])) }
        ensures unchanged { OnErr result (self.new ≡ self.old) }
    {
        let is_first = self.outbox(to).is_empty();
        push_last(&mut self.queues, to, message)?;
        self.messages += 1;
        if is_first {
            self.in_use += 1;
        }
        Ok(())
    }

    /// Removes and returns the oldest message of the outbox for owner `to`, or returns `None` if it is empty.
    pub fn take_out(&mut self, to: usize) -> Option<Message<F>>
        requires { to < length self.old }
        ensures first { list_at self.old to ≡ option_to_list result ++ list_at self.new to }
        ensures others { self.new ≡ slice_set self.old to (list_at self.new to) }
        ensures none { IfNone result (list_at self.old to ≡ []) }
    {
        let message = pop_oldest(&mut self.queues, to)?;
        self.messages -= 1;
        if self.queues[to].is_empty() {
            self.in_use -= 1;
        }
        Some(message)
    }

    /// Removes the newest message of the outbox for owner `to`, if there is one.
    fn remove_newest(&mut self, to: usize)
        requires { to < length self.old }
        ensures { self.new ≡ slice_set self.old to (without_last (list_at self.old to)) }
    {
        let Some(_) = pop_newest(&mut self.queues, to) else {
            return;
        };
        self.messages -= 1;
        let is_last = self.queues[to].is_empty();
        if is_last {
            self.in_use -= 1;
        }
    }

    /// Removes the newest message of the outbox for each of these owners, starting with the last.
    pub fn withdraw(&mut self, receivers: &mut Vec<usize>)
        requires { All (λ to. to < length self.old) receivers.old.items }
        ensures { self.new ≡ withdrawn receivers.old.items self.old }
    {
        while let Some(to) = receivers.pop() {
            self.remove_newest(to);
        }
    }

    /// Returns the outbox for owner `to`.
    pub fn outbox(&self, to: usize) -> &VecDeque<Message<F>>
        requires { to < length self.now }
        ensures { result.now.items ≡ list_at self.now to }
    {
        &self.queues[to]
    }

    /// Returns the number of owners.
    pub fn len(&self) -> usize
        ensures { result ≡ length self.now }
    {
        self.queues.len()
    }

    /// Returns the number of outboxes with a message.
    pub fn in_use(&self) -> usize
        ensures { result ≡ count_in_use self.now }
    {
        self.in_use
    }

    /// Returns the number of messages in all outboxes.
    pub fn messages(&self) -> u128
        ensures { result ≡ message_count self.now }
    {
        self.messages
    }

    /// Returns whether all outboxes are empty.
    pub fn are_empty(&self) -> bool
        ensures { result ≡ list_all is_empty self.now }
    {
        self.in_use == 0
    }
}

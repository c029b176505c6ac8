//! The two ends of a link.

ghost use Rattle.std.specs.Prelude.{◌≡◌, ◌++◌, All};
ghost use Rattle.std.specs.Option.{option_to_list};
ghost use Rattle.rtrb.specs.Ring as ring;
ghost use Rattle.links.specs.Ranks.{HasSmallRank};
ghost use Rattle.links.specs.Returned.{but_returned};

use closed::Message;
use packed::StateForm;
use rtrb::{Consumer, Producer, Protocol, PushError};
use std::alloc::Global;

/// The protocol of a ring: messages at a cost of at most 2^62 and over at most 2^62 operators.
pub struct SmallRanks;

impl<F: StateForm + Drop> Protocol<Message<F>> for SmallRanks {
    ghost use Rattle.links.specs.Ranks.{HasSmallRank};

    ghost allows = { λ before m. HasSmallRank m };
}

/// The sending end of a link. Contracts see the messages sent so far.
#[derive(Drop)]
pub struct Out<F: StateForm + Drop> {
    pub(crate) producer: Producer<Message<F>, Global, SmallRanks>,
}

/// The receiving end of a link, with room for one message that was put back. Contracts see the messages that were taken
/// and not put back, and those that are known to be left to take.
#[derive(Drop)]
pub struct In<F: StateForm + Drop> {
    pub(crate) consumer: Consumer<Message<F>, Global, SmallRanks>,
    /// A message that was taken and put back; the next one to be taken.
    pub(crate) returned: Option<Message<F>>,
    ghost returned_last: { ring.received consumer ≡ but_returned (ring.received consumer) returned ++ option_to_list returned },
    ghost returned_small: { All HasSmallRank (option_to_list returned) },
}

impl<F: StateForm + Drop> Out<F> {
    ghost use Rattle.std.specs.Prelude.{◌≡◌, ◌<◌, ◌++◌, ◌∷◌, [], IfErr, OnOk, IsOk, IsTrue};
    ghost use Rattle.links.specs.Ranks.{HasSmallRank};
    ghost use Rattle.links.specs.Ends.{sent, room, SameOut};

    /// Returns whether the ring certainly has room for a message. Polls the receiver's counter only if no room is
    /// known, because that cache line belongs to the receiver.
    pub fn has_room(&mut self) -> bool
        ensures ring { SameOut self.old self.new }
        ensures same { sent self.new ≡ sent self.old }
        ensures room { IsTrue result → 0 < room self.new }
        ensures known { 0 < room self.old → IsTrue result }
    {
        !self.producer.is_full()
    }

    /// Sends a message, or returns it if the ring is full.
    pub fn push(&mut self, message: Message<F>) -> Result<(), Message<F>>
        requires { HasSmallRank message }
        ensures ring { SameOut self.old self.new }
        ensures ok { OnOk result (sent self.new ≡ sent self.old ++ message ∷ []) }
        ensures full { IfErr result (λ back. (back ≡ message) × (sent self.new ≡ sent self.old)) }
        ensures succeeds { 0 < room self.old → IsOk result }
    {
        match self.producer.push(message) {
            Ok(()) => Ok(()),
            Err(PushError::Full(back)) => Err(back),
        }
    }
}

impl<F: StateForm + Drop> In<F> {
    ghost use Rattle.std.specs.Prelude.{◌≡◌, ◌+◌, ◌<◌, ◌≤◌, ◌++◌, ◌∷◌, [], length, ◌↔◌, IsTrue, IfSome, IfNone, IsSome};
    ghost use mathlib.Core.List.{IsPrefix};
    ghost use Rattle.links.specs.Ranks.{HasSmallRank};
    ghost use Rattle.links.specs.Ends.{received, known, capacity, SameIn, WasTakenLast};

    /// Takes the message that was put back, or else the oldest one of the ring. Returns `None` if it finds the ring
    /// empty, which cannot happen while a message is known to be left.
    pub fn pop(&mut self) -> Option<Message<F>>
        ensures ring { SameIn self.old self.new }
        ensures some { IfSome result (λ m. received self.new ≡ received self.old ++ m ∷ []) }
        ensures last { IfSome result (WasTakenLast self.new) }
        ensures small { IfSome result HasSmallRank }
        ensures none { IfNone result (received self.new ≡ received self.old) }
        ensures known { 0 < length (known self.old) → IsSome result }
        ensures next { IfSome result (λ m. IsPrefix (known self.old) (m ∷ known self.new)) }
        ensures fewer { length (known self.old) ≤ length (known self.new) + 1 }
    {
        if let Some(message) = self.returned.take() {
            return Some(message);
        }
        match self.consumer.pop() {
            Ok(message) => Some(message),
            Err(_) => None,
        }
    }

    /// Returns the number of messages for which the ring has room.
    pub fn capacity(&self) -> usize
        ensures { result ≡ capacity self.now }
    {
        self.consumer.capacity()
    }

    /// Returns whether no message is known to be left to take. Does not poll the sender's counter, because that cache
    /// line belongs to the sender; messages sent since the last poll do not count.
    pub fn knows_none(&self) -> bool
        ensures { IsTrue result ↔ (length (known self.now) ≡ 0) }
    {
        self.returned.is_none() && self.consumer.cached_slots() == 0
    }

    /// Returns the number of messages that are known to be left to take. Does not poll the sender's counter.
    pub fn known_len(&self) -> usize
        ensures { result ≡ length (known self.now) }
    {
        let in_ring = self.consumer.cached_slots();
        if self.returned.is_some() {
            in_ring + 1
        } else {
            in_ring
        }
    }

    /// Puts back the message that was taken last; it is the next that `pop` returns.
    pub fn give_back(&mut self, message: Message<F>)
        requires last { WasTakenLast self.old message }
        requires small { HasSmallRank message }
        ensures ring { SameIn self.old self.new }
        ensures taken { received self.old ≡ received self.new ++ message ∷ [] }
        ensures known { known self.new ≡ message ∷ known self.old }
    {
        self.returned = Some(message);
    }
}

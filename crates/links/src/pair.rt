//! Both ends of a link.

ghost use Rattle.std.specs.Prelude.{◌≡◌, ◌++◌, length, IfOk};
ghost use Rattle.links.specs.Ends.{sent, received, known, AreEnds, IsFresh};

use crate::ends::{In, Out, SmallRanks};
use packed::StateForm;
use rtrb::RingBuffer;
use std::alloc::{AllocError, Global};

/// Creates a link with room for `capacity` messages, and returns both its ends.
pub fn link<F: StateForm + Drop>(
    alloc: Global,
    capacity: usize,
) -> Result<(Out<F>, In<F>), AllocError>
    ensures { IfOk result (λ r. IsFresh capacity r.0 r.1) }
{
    let (producer, consumer) = RingBuffer::with_protocol::<Global, SmallRanks>(alloc, capacity)?;
    Ok((
        Out { producer },
        In {
            consumer,
            returned: None,
        },
    ))
}

/// Returns the number of messages left to take from a link: those in its ring, and one that was put back. The messages
/// taken, followed by these, are the messages sent. As many further calls of `pop` return a message each.
pub fn match_up<F: StateForm + Drop>(sender: &mut Out<F>, receiver: &mut In<F>) -> usize
    requires { AreEnds sender.old receiver.old }
    ensures ends { AreEnds sender.new receiver.new }
    ensures same { (sent sender.new ≡ sent sender.old) × (received receiver.new ≡ received receiver.old) }
    ensures left { received receiver.new ++ known receiver.new ≡ sent sender.new }
    ensures count { result ≡ length (known receiver.new) }
{
    let in_ring = receiver.consumer.slots_beside(&mut sender.producer);
    if receiver.returned.is_some() {
        in_ring + 1
    } else {
        in_ring
    }
}

//! The numbers of messages and of active owners in a world.

ghost use Rattle.std.specs.Prelude.{◌≡◌, ℕ, List, ◌-◌, ◌^◌, length, min, not, sum_by, count_by};
ghost use Rattle.owner_theory.specs.Worlds.{waiting};
ghost use Rattle.extract.specs.Views.{all_packets};

use extract::Packet;
use owner::Owner;
use packed::StateForm;
use packed_spread::Spread;
use std::collections::VecDeque;

/// Returns the number of messages in the owners' outboxes, capped at 2^128 - 1.
pub fn waiting_count<S: Spread + Drop, F: StateForm + Drop>(owners: &[Owner<'_, S, F>]) -> u128
    ensures { result ≡ min (sum_by (λ o. waiting o.outboxes) owners.now) (2 ^ 128 - 1) }
{
    let mut count: u128 = 0;
    for owner in owners {
        count = count.saturating_add(owner.messages());
    }
    count
}

/// Returns the number of messages underway, capped at 2^128 - 1.
pub fn underway_count<F: StateForm + Drop>(queues: &[VecDeque<Packet<F>>]) -> u128
    ensures { (values : F → List ℕ) → result ≡ min (length (all_packets values queues.now)) (2 ^ 128 - 1) }
{
    let mut count: u128 = 0;
    for queue in queues {
        count = count.saturating_add(queue.len() as u128);
    }
    count
}

/// Returns the number of owners that are not at rest.
pub fn awake_count(resting: &[bool]) -> usize
    ensures { result ≡ count_by not resting.now }
{
    resting.iter().filter(|rests| !**rests).count()
}

//! Whether the owners of a search are settled, and its lower bound.

ghost use Rattle.std.specs.Prelude.{◌≡◌, length, map, IfOk, All};
ghost use Rattle.cost.specs.Distances.{least};
ghost use Rattle.fdr.specs.Tasks.{ranges};
ghost use Rattle.closed.specs.Tables.{message_of};
ghost use Rattle.owner.specs.Spaces.{searched};
ghost use Rattle.extract.specs.Ends.{IsForm, IsSettledAnswer};
ghost use Rattle.extract.specs.Views.{all_packets};
ghost use Rattle.extract.specs.Pending.{IsSmallMessage, f_at, least_packet, least_held};
ghost use Rattle.extract.specs.Bounds.{least_pending, stated, lower_bound};

use crate::packet::Packet;
use cost::Dist;
use owner::{MAX_TOTAL, Message, Owner, Space};
use packed::StateForm;
use packed_spread::Spread;
use std::alloc::{AllocError, Global};
use std::collections::VecDeque;

/// Returns the f-value of a message. `state` is a buffer.
fn f_of<S: Spread + Drop, F: StateForm + Drop>(
    space: &Space<'_, S>,
    message: &Message<F>,
    state: &mut [u32],
) -> Dist
    requires fits { F.Fits (ranges space.now.task) }
    requires small { IsSmallMessage space.now.task (message_of (F.values (ranges space.now.task)) message.now) }
    requires buffer { length state.old ≡ length space.now.task.value_names }
    ensures { result ≡ f_at space.now (message_of (F.values (ranges space.now.task)) message.now) }
{
    message.state.unpack(space.layout(), state);
    space.f(state, message.rank.cost)
}

/// Returns the least f-value of these messages, infinite if there is none. `state` is a buffer.
fn least_of_messages<S: Spread + Drop, F: StateForm + Drop>(
    space: &Space<'_, S>,
    messages: &VecDeque<Message<F>>,
    state: &mut [u32],
) -> Dist
    requires fits { F.Fits (ranges space.now.task) }
    requires small { All (λ m. IsSmallMessage space.now.task (message_of (F.values (ranges space.now.task)) m)) messages.now.items }
    requires buffer { length state.old ≡ length space.now.task.value_names }
    ensures { result ≡ least (map (λ m. f_at space.now (message_of (F.values (ranges space.now.task)) m)) messages.now.items) }
{
    let mut least = Dist::inf();
    for i in 0..messages.len() {
        least = least.min(f_of(space, &messages[i], state));
    }
    least
}

/// Returns the least f-value of these messages underway, infinite if there is none. `state` is a buffer.
fn least_of_packets<S: Spread + Drop, F: StateForm + Drop>(
    space: &Space<'_, S>,
    packets: &VecDeque<Packet<F>>,
    state: &mut [u32],
) -> Dist
    requires fits { F.Fits (ranges space.now.task) }
    requires small { All (λ p. IsSmallMessage space.now.task (message_of (F.values (ranges space.now.task)) p.message)) packets.now.items }
    requires buffer { length state.old ≡ length space.now.task.value_names }
    ensures { result ≡ least (map (λ p. f_at space.now (message_of (F.values (ranges space.now.task)) p.message)) packets.now.items) }
{
    let mut least = Dist::inf();
    for i in 0..packets.len() {
        least = least.min(f_of(space, &packets[i].message, state));
    }
    least
}

/// Returns the least f-value of an owner's nodes that are not expanded and of the messages in its outboxes, infinite if
/// there are neither. `owners` is the number of owners, and `state` a buffer.
pub fn least_of_owner<S: Spread + Drop, F: StateForm + Drop>(
    owner: &Owner<'_, S, F>,
    owners: usize,
    state: &mut [u32],
) -> Dist
    requires owners { length owner.now.outboxes ≡ owners }
    requires buffer { length state.old ≡ length owner.now.space.task.value_names }
    ensures { result ≡ least_held S.owner owner.now }
{
    owner.recall();
    let mut least = owner.least_open();
    for to in 0..owners {
        least = least.min(least_of_messages(owner.space(), owner.outbox(to), state));
    }
    least
}

/// Returns the least pending f-value: of the owners' nodes and outboxes, and of the messages underway. `state` is a
/// buffer.
fn least_pending<S: Spread + Drop, F: StateForm + Drop>(
    space: &Space<'_, S>,
    owners: &[Owner<'_, S, F>],
    left: &[VecDeque<Packet<F>>],
    state: &mut [u32],
) -> Dist
    requires fits { F.Fits (ranges space.now.task) }
    requires form { IsForm (record { space = space.now; owners = owners.now; left = all_packets (F.values (ranges space.now.task)) left.now }) }
    requires buffer { length state.old ≡ length space.now.task.value_names }
    ensures { result ≡ least_pending S.owner
        (record { space = space.now; owners = owners.now; left = all_packets (F.values (ranges space.now.task)) left.now }) }
{
    let mut least = Dist::inf();
    for owner in owners {
        least = least.min(least_of_owner(owner, owners.len(), state));
    }
    for queue in left {
        least = least.min(least_of_packets(space, queue, state));
    }
    least
}

/// Returns the least cost at which any of the owners took a goal state, infinite if none did.
pub fn best_goal<S: Spread + Drop, F: StateForm + Drop>(owners: &[Owner<'_, S, F>]) -> Dist
    ensures { result ≡ least (map (λ o. o.best) owners.now) }
{
    let mut best = Dist::inf();
    for owner in owners {
        best = best.min(owner.best_goal());
    }
    best
}

/// Returns the bound at which the owners of a space are settled, given the messages that were handed out and not taken:
/// the least cost at which a goal state was taken, infinite if none was, provided that no pending f-value is below it.
/// Returns `None` if they are not settled.
pub fn settled_bound<'a, S: Spread + Drop, F: StateForm + Drop>(
    alloc: Global,
    space: &Space<'a, S>,
    owners: &[Owner<'a, S, F>],
    left: &[VecDeque<Packet<F>>],
) -> Result<Option<Dist>, AllocError>
    requires { IsForm (record { space = space.now; owners = owners.now; left = all_packets (F.values (ranges space.now.task)) left.now }) }
    ensures { IfOk result
        (IsSettledAnswer (searched S.owner space.now (length owners.now)) owners.now (all_packets (F.values (ranges space.now.task)) left.now)) }
{
    let mut state = vec![in alloc; 0u32; space.task().variable_count()]?;
    owners[0].recall(); // states of the task have the form
    let best = best_goal(owners);
    if best <= least_pending(space, owners, left, &mut state) {
        Ok(Some(best))
    } else {
        Ok(None)
    }
}

/// Returns the bound as a certificate states it: finite bounds are capped at 2^62.
fn stated(bound: Dist) -> Dist
    ensures { result ≡ stated bound }
{
    match bound.get() {
        Some(value) => Dist::fin(value.min(MAX_TOTAL)).unwrap(),
        None => Dist::inf(),
    }
}

/// Returns the lower bound of the owners of a space, given the messages that were handed out and not taken: the lesser
/// of the least cost at which a goal state was taken and the least pending f-value, infinite if there is neither; a
/// finite one is at most 2^62.
pub(crate) fn lower_bound<'a, S: Spread + Drop, F: StateForm + Drop>(
    alloc: Global,
    space: &Space<'a, S>,
    owners: &[Owner<'a, S, F>],
    left: &[VecDeque<Packet<F>>],
) -> Result<Dist, AllocError>
    requires { IsForm (record { space = space.now; owners = owners.now; left = all_packets (F.values (ranges space.now.task)) left.now }) }
    ensures { IfOk result (λ bound. bound
        ≡ lower_bound S.owner (record { space = space.now; owners = owners.now; left = all_packets (F.values (ranges space.now.task)) left.now })) }
{
    let mut state = vec![in alloc; 0u32; space.task().variable_count()]?;
    owners[0].recall(); // states of the task have the form
    let pending = least_pending(space, owners, left, &mut state);
    Ok(stated(best_goal(owners).min(pending)))
}

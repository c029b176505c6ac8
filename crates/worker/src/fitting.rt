//! Whether a message is for an owner.

ghost use Rattle.std.specs.Prelude.{◌≡◌, ◌<◌, false, length, IsTrue};
ghost use Rattle.fdr.specs.Tasks.{ranges, IsState};
ghost use Rattle.owner_theory.specs.Owners.{fits};
ghost use Rattle.closed.specs.Tables.{message_of};
ghost use Rattle.owner.specs.Spaces.{searched};

use links::Message;
use owner::Space;
use packed::StateForm;
use packed_spread::Spread;

/// Returns whether the message is for owner `number` of `owners`: its state is one of the task and belongs to this
/// owner. `state` is a buffer.
pub(crate) fn is_for<S: Spread + Drop, F: StateForm + Drop>(
    space: &Space<'_, S>,
    number: usize,
    owners: usize,
    message: &Message<F>,
    state: &mut Vec<u32>,
) -> bool
    requires owners { 0 < owners }
    requires fits { F.Fits (ranges space.now.task) }
    requires buffer { length state.old.items ≡ length space.now.task.value_names }
    ensures state { IsTrue result → IsState (ranges space.now.task) (F.values (ranges space.now.task) message.now.state) }
    ensures owner { IsTrue result → S.owner space.now.spread (F.values (ranges space.now.task) message.now.state) owners ≡ number }
    ensures not { result ≡ false → fits (searched S.owner space.now owners) number (message_of (F.values (ranges space.now.task)) message.now) ≡ false }
    ensures buffer { length state.new.items ≡ length state.old.items }
{
    let layout = space.layout();
    if !message.state.holds_state(layout) {
        return false;
    }
    message.state.unpack(layout, state);
    space.owner_of(state, owners) == number
}

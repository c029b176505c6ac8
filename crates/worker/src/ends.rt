//! Rows of ends of links.

ghost use Rattle.std.specs.Prelude.{◌≡◌, ℕ, List, suc, ◌≢◌, ◌<◌, ◌≤◌, ◌++◌, ◌∷◌, [], false, length, slice_get, Some, IsTrue, IfSome, IfNone};
ghost use Rattle.owner_theory.specs.Owners.{put};
ghost use Rattle.closed.specs.Tables.{message_of};
ghost use Rattle.links.specs.declared.ends.Out.{Out as OutOf};
ghost use Rattle.links.specs.declared.ends.In.{In as InOf};
ghost use Rattle.links.specs.Ends.{room, known, WasTakenLast};
ghost use Rattle.links.specs.Ranks.{HasSmallRank};
ghost use Rattle.worker.specs.Workers.{sent_to, received_from, known_from, AreSameOuts, AreSameIns};

use links::{In, Message, Out};
use packed::StateForm;

/// Returns whether there certainly is room for a message to worker `to`.
pub(crate) fn has_room<F: StateForm + Drop>(outs: &mut Vec<Out<F>>, to: usize) -> bool
    requires { to < length outs.old.items }
    ensures same { AreSameOuts outs.old.items outs.new.items }
    ensures sent { (values : F → List ℕ) (v : ℕ) → sent_to values outs.new.items v ≡ sent_to values outs.old.items v }
    ensures room { IsTrue result → (o : OutOf F) → slice_get outs.new.items to ≡ Some o → 0 < room o }
    ensures full { result ≡ false → (o : OutOf F) → slice_get outs.old.items to ≡ Some o → room o ≡ 0 }
{
    outs[to].has_room()
}

/// Sends a message to worker `to`; there must be room for it.
pub(crate) fn push<F: StateForm + Drop>(outs: &mut Vec<Out<F>>, to: usize, message: Message<F>)
    requires within { to < length outs.old.items }
    requires small { HasSmallRank message }
    requires room { (o : OutOf F) → slice_get outs.old.items to ≡ Some o → 0 < room o }
    ensures same { AreSameOuts outs.old.items outs.new.items }
    ensures sent { (values : F → List ℕ) (v : ℕ) → sent_to values outs.new.items v
        ≡ put (sent_to values outs.old.items) to (sent_to values outs.old.items to ++ message_of values message ∷ []) v }
{
    let pushed = outs[to].push(message);
    let _ = pushed; // there is room
}

/// Takes the oldest message from worker `from`, if the link is found to hold one.
pub(crate) fn pop<F: StateForm + Drop>(ins: &mut Vec<In<F>>, from: usize) -> Option<Message<F>>
    requires { from < length ins.old.items }
    ensures same { AreSameIns ins.old.items ins.new.items }
    ensures some { IfSome result (λ m. (values : F → List ℕ) (v : ℕ) → received_from values ins.new.items v
        ≡ put (received_from values ins.old.items) from (received_from values ins.old.items from ++ message_of values m ∷ []) v) }
    ensures last { IfSome result (λ m. (i : InOf F) → slice_get ins.new.items from ≡ Some i → WasTakenLast i m) }
    ensures small { IfSome result HasSmallRank }
    ensures none { IfNone result ((values : F → List ℕ) (v : ℕ) → received_from values ins.new.items v ≡ received_from values ins.old.items v) }
    ensures fewer { (values : F → List ℕ) → length (known_from values ins.old.items from) ≤ suc (length (known_from values ins.new.items from)) }
    ensures unknown { IfNone result ((i : InOf F) → slice_get ins.old.items from ≡ Some i → known i ≡ []) }
{
    ins[from].pop()
}

/// Returns whether no message from worker `from` is known to be left to take. Does not poll the link.
pub(crate) fn knows_none<F: StateForm + Drop>(ins: &[In<F>], from: usize) -> bool
    requires { from < length ins.now }
    ensures { IsTrue result → (i : InOf F) → slice_get ins.now from ≡ Some i → known i ≡ [] }
{
    ins[from].knows_none()
}

/// Puts back the message that was taken last from worker `from`.
pub(crate) fn give_back<F: StateForm + Drop>(ins: &mut Vec<In<F>>, from: usize, message: Message<F>)
    requires within { from < length ins.old.items }
    requires last { (i : InOf F) → slice_get ins.old.items from ≡ Some i → WasTakenLast i message }
    requires small { HasSmallRank message }
    ensures same { AreSameIns ins.old.items ins.new.items }
    ensures taken { (values : F → List ℕ) (v : ℕ) → received_from values ins.old.items v
        ≡ put (received_from values ins.new.items) from (received_from values ins.new.items from ++ message_of values message ∷ []) v }
    ensures known { (values : F → List ℕ) → known_from values ins.new.items from ≢ [] }
{
    ins[from].give_back(message);
}

//! Laws of flow control.

ghost use Rattle.std.specs.Prelude.{◌≡◌, ◌≢◌, ℕ, ◌<◌, true, false, [], List, length, Option, is_some};
ghost use Rattle.owner_theory.specs.Owners.{Message, list_at};
ghost use Rattle.owner_theory.specs.Worlds.{waiting};
ghost use Rattle.worker.specs.Workers.{WorkerOf};
ghost use Rattle.worker.specs.Turns.{ExpandsUnless, congestion, is_congested, is_to_expand, link_congestion};

use packed::StateForm;
use packed_spread::Spread;

/// Proves that flow control holds a worker back only while messages wait: if fewer wait for each link than its
/// constants allow, and fewer in all, the outboxes are not congested; and if they are congested, a message waits for
/// some link.
pub fn congestion_needs_messages()
    ensures few { (outboxes : List (List Message)) → ((to : ℕ) → length (list_at outboxes to) < link_congestion) →
        waiting outboxes < congestion → is_congested outboxes ≡ false }
    ensures some { (outboxes : List (List Message)) → is_congested outboxes ≡ true → (to : ℕ) × (list_at outboxes to ≢ []) }
{}

/// Proves that a turn expands a node exactly if the worker is to expand one when it has read the bound.
pub fn expansions_are_told<S: Spread + Drop, F: StateForm + Drop>()
    ensures { (looked expanded : WorkerOf S F) (posted : Option ℕ) →
        ExpandsUnless S.owner looked expanded posted (is_congested looked.owner.outboxes) →
        is_to_expand S.owner looked ≡ is_some posted }
{}

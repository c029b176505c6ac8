//! What a slot of the index stores of a state.

ghost use Rattle.std.specs.Prelude.{◌≡◌};
ghost use Rattle.checker_states.specs.Indexes as spec;

use crate::hash::tag_of;
use slots::Slot;

/// The greatest cost that a slot can store.
pub(crate) const MAX_SHORT_COST: u16 = 65_535;

/// A slot without a state.
pub(crate) const EMPTY: Slot<Note> = Slot {
    link: 0,
    note: Note { tag: 0, cost: 0 },
};

/// A tag that rules out most other states, and the cost of the closed state.
#[derive(Clone, Copy)]
pub(crate) struct Note {
    /// The lower 16 bits of the state's hash.
    pub(crate) tag: u16,
    /// The state's cost, capped at `MAX_SHORT_COST`.
    pub(crate) cost: u16,
}

impl Note {
    /// Returns what a slot stores of a state with this hash and cost.
    pub(crate) fn new(hash: u64, cost: u64) -> Note
        ensures { result ≡ spec.note_of hash cost }
    {
        Note {
            tag: tag_of(hash),
            cost: cost.min(65_535) as u16,
        }
    }
}

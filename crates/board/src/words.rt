//! The words of a board; three of them are used. All workers read the bound and the flag in each turn, and these rarely
//! change; the units change in almost every turn. So the units are 128 bytes away from the others, in another cache
//! line, and reading the bound does not wait for other workers.

ghost use Rattle.std.specs.Prelude.{◌≡◌};

use crate::views::{BoardRule, View};
use atomic_table::Table;
use std::alloc::Global;

/// The index of the word for the least cost offered.
pub(crate) const BOUND: usize = 0;

/// The index of the word that is 1 once the round is ended.
pub(crate) const STOP: usize = 1;

/// The index of the word for the units of work that are left.
pub(crate) const UNITS: usize = 16;

/// The words at the start of a round: no cost is offered, the round is not ended, and the units are 0.
pub(crate) const FIRST_WORDS: [u64; 17] = [
    u64::MAX,
    0,
    0,
    0,
    0,
    0,
    0,
    0,
    0,
    0,
    0,
    0,
    0,
    0,
    0,
    0,
    0,
];

/// A board: a bound, a number of units and a flag, which threads read and change through their seats.
#[derive(Drop)]
pub struct Board {
    pub(crate) table: Table<(), View, (), BoardRule, Global>,
    ghost sized: { (table.shared.table_id.words ≡ 17) × (table.shared.table_id.slots ≡ 0) },
}

//! What a seat at the board knows, and the rule of the board.

use atomic_table::TableRule;
use cost::Dist;

/// What a seat knows of its board. Only for the proof: no value of it is made.
pub struct View {
    /// The bound that it last read.
    pub seen: Dist,
    /// The least cost that it offered.
    pub offered: Dist,
    /// The number of units that it added, less the number that it subtracted.
    pub share: i64,
    /// Its parts of the right to conclude that all seats are joined: the seat with all parts is the only one.
    pub parts: u64,
}

/// The rule of the board: the bound is the least cost that was offered, and no seat has seen less; the units are the
/// sum of all shares modulo 2^64; and the flag is 0 or 1.
pub struct BoardRule;

impl TableRule<(), View, ()> for BoardRule {
    ghost use Rattle.board.specs.Rule.{IsRuled, first_view};

    ghost holds = { λ _. IsRuled };

    ghost first = { λ _. first_view };
}

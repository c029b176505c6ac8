//! Jobs of a round, as the functions that begin threads see them.

use crate::gate::Gate;
use board::Board;
use std::sync::Wait;
use std::time::Clock;

/// A job of a round, whose turns leave a `W`. It hides the worker's types from the functions that begin threads, as
/// the prover compares the types of all that a thread captures, and meets its step limit at a worker's.
pub(crate) trait Turns<W>: Drop + Send {
    ghost use Rattle.board.specs.declared.words.Board.{Board};
    ghost use Rattle.engine_round.specs.Turns.{MayStop};

    /// Whether the turns may be taken at this board.
    ghost is_ready: { Board → Self → Type 0 };

    /// Whether the turns at this board may end with this result, with a gate that may end them in these ways.
    ghost has_done: { MayStop → Board → Self → W → Type 0 };

    /// Takes the turns.
    fn run<R: Wait + Clock, G: Gate>(self, rt: &R, board: &Board, gate: &G) -> W
        requires { is_ready board.now self }
        ensures { has_done (G.may_stop gate.now) board.now self result };
}

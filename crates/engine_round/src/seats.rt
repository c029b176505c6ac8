//! Seats for all workers of a round.

ghost use Rattle.std.specs.Prelude.{◌<◌, ◌≤◌, IfOk};
ghost use Rattle.board.specs.Seats.{IsSeatOf, view};
ghost use Rattle.engine_round.specs.Jobs.{AreSplit};

use board::{Board, Seat};
use std::alloc::{AllocError, Global};

/// Splits one seat into `count` seats by halving, so that each keeps enough parts for the workers split from it.
pub(crate) fn split_seats(
    alloc: Global,
    board: &Board,
    mut seat: Seat,
    count: usize,
) -> Result<Vec<Seat>, AllocError>
    requires seat { IsSeatOf board.now seat }
    requires count { (0 < count) × (count ≤ (view seat).parts) }
    ensures { IfOk result (λ seats. AreSplit board.now (view seat) count seats.items) }
{
    if count == 1 {
        let mut seats = Vec::with_capacity(alloc, 1)?;
        seats.push(seat)?;
        return Ok(seats);
    }
    let half = count / 2;
    let other = board.split_seat(&mut seat);
    let mut seats = split_seats(alloc, board, seat, half)?;
    let mut others = split_seats(alloc, board, other, count - half)?;
    seats.append(&mut others)?;
    Ok(seats)
}

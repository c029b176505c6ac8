//! Two seats at one board, in one thread.

ghost use Rattle.std.specs.Prelude.{◌≡◌};
ghost use Rattle.board.specs.Seats.{IsSeatOf, view};

use board::{Board, Seat};
use cost::Dist;
use std::process::Abort;
use std::test::Fail;

/// Returns a number as a distance.
fn dist(rt: &impl Abort, value: u64) -> Dist {
    Dist::fin(value).expect(rt, "a small number")
}

/// Checks that the board is unchanged since its creation.
fn is_new(rt: &impl Abort, board: &Board, seat: &mut Seat)
    requires { IsSeatOf board.now seat.old }
    ensures { IsSeatOf board.now seat.new × ((view seat.new).parts ≡ (view seat.old).parts) }
{
    assert_eq!(rt; board.look(seat), Dist::inf());
    assert_eq!(rt; board.count(seat), 0);
    assert!(rt; !board.halted(seat));
}

#[test]
fn what_one_seat_does_another_reads(rt: HostRuntime) -> Result<(), Fail> {
    let (board, mut first) = Board::new(rt.alloc())?;
    let mut second = board.split_seat(&mut first);
    is_new(&rt, &board, &mut second);
    board.offer(&mut first, dist(&rt, 5));
    board.offer(&mut first, dist(&rt, 6));
    board.add(&mut first, 3);
    assert_eq!(rt; board.look(&mut second), dist(&rt, 5));
    assert_eq!(rt; board.count(&mut second), 3);
    board.halt(&mut first);
    assert!(rt; board.halted(&mut second));
    Ok(())
}

#[test]
fn the_end_of_a_round(rt: HostRuntime) -> Result<(), Fail> {
    let (board, mut first) = Board::new(rt.alloc())?;
    let mut second = board.split_seat(&mut first);
    board.add(&mut first, 3);
    board.sub(&mut second, 4);
    assert_eq!(rt; board.count(&mut first), u64::MAX);
    board.offer(&mut second, dist(&rt, 9_223_372_036_854_775_808));
    board.offer(&mut first, Dist::inf());
    board.join_seat(&mut first, second);
    let (bound, units) = board.close(first);
    assert_eq!(rt; bound, dist(&rt, 9_223_372_036_854_775_808));
    assert_eq!(rt; units, u64::MAX);
    Ok(())
}

//! The operations on a board, and its seats.

ghost use Rattle.std.specs.Prelude.{◌≡◌, ◌≤◌, ◌+ℤ◌, ◌-ℤ◌, pos, true, ◌↔◌, IsTrue, IfOk};
ghost use Rattle.cost.specs.Distances.{◌≤ᵈ◌, lesser};
ghost use Rattle.board.specs.Rule.{first_view, all_parts, with_seen, with_offered, with_share, kept_part, new_part, joined, IsModulo};
ghost use Rattle.board.specs.Seats.{IsSeatOf, view};

use crate::distances::{distance_at, word_of};
use crate::steps::{Adds, FindsFlag, Halves, Looks, Offers, Stays, Subtracts};
use crate::views::View;
use crate::words::{BOUND, Board, FIRST_WORDS, STOP, UNITS};
use atomic_table::Table;
use cost::Dist;
use std::alloc::{AllocError, Global};

/// A seat at a board, through which one thread at a time reads and changes it. It has size zero.
pub type Seat = atomic_table::Seat<(), View>;

impl Board {
    /// Creates a board at the start of a round, and its one seat: no cost is offered, the units are 0, and the round is
    /// not ended.
    pub fn new(alloc: Global) -> Result<(Board, Seat), AllocError>
        ensures { IfOk result (λ r. IsSeatOf r.0 r.1 × (view r.1 ≡ first_view)) }
    {
        let (table, seat) = Table::of_words(alloc, &FIRST_WORDS, &())?;
        Ok((Board { table }, seat))
    }

    /// Reads the bound, in one atomic step. It is at most the bound that the seat had seen, and at most the least cost
    /// that the seat had offered.
    pub fn look(&self, seat: &mut Seat) -> Dist
        requires { IsSeatOf self.now seat.old }
        ensures seat { IsSeatOf self.now seat.new }
        ensures view { view seat.new ≡ with_seen (view seat.old) result }
        ensures falls { (result ≤ᵈ (view seat.old).seen) × (result ≤ᵈ (view seat.old).offered) }
    {
        distance_at(self.table.shared.load::<Looks>(seat, BOUND))
    }

    /// Lowers the bound to `cost`, if it is above it, in one atomic step. Offering an infinite cost takes no step.
    pub fn offer(&self, seat: &mut Seat, cost: Dist)
        requires { IsSeatOf self.now seat.old }
        ensures seat { IsSeatOf self.now seat.new }
        ensures view { view seat.new ≡ with_offered (view seat.old) (lesser (view seat.old).offered cost) }
    {
        if cost.get().is_none() {
            return; // no bound is above it
        }
        self.table
            .shared
            .fetch_min::<Offers>(seat, BOUND, word_of(cost));
    }

    /// Adds `count` units, modulo 2^64, in one atomic step.
    pub fn add(&self, seat: &mut Seat, count: u64)
        requires { IsSeatOf self.now seat.old }
        ensures seat { IsSeatOf self.now seat.new }
        ensures view { view seat.new ≡ with_share (view seat.old) ((view seat.old).share +ℤ pos count) }
    {
        self.table.shared.fetch_add::<Adds>(seat, UNITS, count);
    }

    /// Subtracts `count` units, modulo 2^64, in one atomic step.
    pub fn sub(&self, seat: &mut Seat, count: u64)
        requires { IsSeatOf self.now seat.old }
        ensures seat { IsSeatOf self.now seat.new }
        ensures view { view seat.new ≡ with_share (view seat.old) ((view seat.old).share -ℤ pos count) }
    {
        self.table.shared.fetch_sub::<Subtracts>(seat, UNITS, count);
    }

    /// Reads the units, in one atomic step. What other seats have added concurrently may or may not be included.
    pub fn count(&self, seat: &mut Seat) -> u64
        requires { IsSeatOf self.now seat.old }
        ensures seat { IsSeatOf self.now seat.new }
        ensures view { view seat.new ≡ view seat.old }
    {
        self.table.shared.load::<Stays>(seat, UNITS)
    }

    /// Ends the round for all workers, in one atomic step.
    pub fn halt(&self, seat: &mut Seat)
        requires { IsSeatOf self.now seat.old }
        ensures seat { IsSeatOf self.now seat.new }
        ensures view { view seat.new ≡ view seat.old }
    {
        self.table.shared.fetch_or::<Stays>(seat, STOP, 1);
    }

    /// Returns whether the round was ended, read in one atomic step.
    pub fn halted(&self, seat: &mut Seat) -> bool
        requires { IsSeatOf self.now seat.old }
        ensures seat { IsSeatOf self.now seat.new }
        ensures view { view seat.new ≡ view seat.old }
    {
        match self.table.shared.load::<FindsFlag>(seat, STOP) {
            0 => false,
            1 => true,
            _ => unreachable!(),
        }
    }

    /// Splits off a seat for another thread, which has seen the same bound, and has offered and added nothing. Each of
    /// the two seats gets half of the parts; there must be at least two.
    pub fn split_seat(&self, seat: &mut Seat) -> Seat
        requires { IsSeatOf self.now seat.old × (2 ≤ (view seat.old).parts) }
        ensures seat { IsSeatOf self.now seat.new × (view seat.new ≡ kept_part (view seat.old)) }
        ensures new { IsSeatOf self.now result × (view result ≡ new_part (view seat.old)) }
    {
        self.table.shared.split_seat::<Halves>(seat)
    }

    /// Joins another seat into this one: the result has seen the lesser bound and offered the lesser cost of the two,
    /// and has the shares and the parts of both.
    pub fn join_seat(&self, seat: &mut Seat, other: Seat)
        requires { IsSeatOf self.now seat.old × IsSeatOf self.now other }
        ensures seat { IsSeatOf self.now seat.new }
        ensures view { view seat.new ≡ joined (view seat.old) (view other) }
    {
        self.table.shared.join_seat::<Halves>(seat, other);
    }

    /// Returns the bound and the units (modulo 2^64) at the end, when all seats are joined: the bound is the least cost
    /// that was offered, and no seat has ever seen less.
    pub fn close(self, seat: Seat) -> (Dist, u64)
        requires { IsSeatOf self seat × ((view seat).parts ≡ all_parts) }
        ensures bound { result.0 ≡ (view seat).offered }
        ensures seen { (view seat).offered ≤ᵈ (view seat).seen }
        ensures units { IsModulo result.1 (view seat).share }
    {
        let Board { table } = self;
        let closed = table.close_with(seat);
        let bound = distance_at(closed.word(BOUND));
        let units = closed.word(UNITS);
        closed.free();
        (bound, units)
    }
}

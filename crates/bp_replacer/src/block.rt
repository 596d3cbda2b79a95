//! Blocks of seats in a row, and the first candidate of one.
ghost use Rattle.std.specs.Prelude.{◌≡◌, ◌⊎◌, ◌*◌, ◌+◌, ◌/◌, ◌<◌, ◌≤◌, length, min};
ghost use Rattle.bp_references.specs.Candidates.{is_before};
ghost use Rattle.bp_replacer.specs.Seats.{winner, seat_at};
ghost use Rattle.bp_replacer.specs.Tree.{blocks, is_aged, IsLeader, IsFirstOfBlock, IsFirstBut, IsFirstIn};

use crate::seat_list::SeatList;
use crate::tournament::{Seat, precedes};

/// The number of seats in a row that make a block. A scan of a block is predicted well, a walk up a tree is not; so the
/// tree of winners has a leaf for each block, and not for each seat.
pub const BLOCK: usize = 16;

/// Returns the number of blocks of so many seats, at least one.
#[tactic(auto, unfolding(crate::specs::Tree::blocks))]
pub fn blocks(seats: usize) -> usize
    ensures { result ≡ blocks seats }
{
    seats.saturating_sub(1) / BLOCK + 1
}

/// Returns the number after the last seat of a block, where there are so many seats.
#[tactic(auto, unfolding(crate::specs::Tree::blocks))]
pub fn end_of(block: usize, seats: usize) -> usize
    requires { block < blocks seats }
    ensures end { result ≡ min (16 * block + 16) seats }
    ensures start { 16 * block ≤ result }
{
    let start = block * BLOCK;
    start + (seats - start).min(BLOCK)
}

/// Of two seats, the one whose candidate comes first.
pub fn winner(seats: &SeatList, a: usize, b: usize) -> usize
    ensures either { (result ≡ a) ⊎ (result ≡ b) }
    ensures first { seat_at seats.now result ≡ winner (seat_at seats.now a) (seat_at seats.now b) }
{
    match (seats.at(a), seats.at(b)) {
        (None, _) => b,
        (Some(_), None) => a,
        (Some(x), Some(y)) => if precedes(&y, &x) { b } else { a },
    }
}

/// Returns true if a seat is empty, or its candidate was last referenced before a time.
pub fn is_aged(seats: &SeatList, seat: usize, time: u64) -> bool
    ensures { result ≡ is_aged time (seat_at seats.now seat) }
{
    match seats.at(seat) {
        None => true,
        Some(entry) => entry.1 < time,
    }
}

/// The seat of the first of some candidates, with its K-th stamp and last time. Where there is none, the seat is a
/// number past the seats, and both are the greatest number.
#[derive(Clone, Copy)]
pub struct Leader {
    pub seat: usize,
    pub stamp: u64,
    pub last: u64,
}

impl Leader {
    /// The leader of no candidates, at so many seats.
    pub fn nobody(seats: &SeatList) -> Leader
        ensures seat { result.seat ≡ length seats.now }
        ensures leads { IsLeader seats.now result }
    {
        Leader {
            seat: seats.len(),
            stamp: u64::MAX,
            last: u64::MAX,
        }
    }

    /// Of the leader and whoever stands at another seat, the one that comes first. The times are compared without a
    /// branch, since no processor could predict it.
    pub fn or(self, seats: &SeatList, seat: usize, entry: &Seat) -> Leader
        requires leads { IsLeader seats.now self }
        requires stands { entry.now ≡ seat_at seats.now seat }
        ensures leads { IsLeader seats.now result }
        ensures either { (result.seat ≡ self.seat) ⊎ (result.seat ≡ seat) }
        ensures first { seat_at seats.now result.seat
            ≡ winner (seat_at seats.now self.seat) (seat_at seats.now seat) }
    {
        let Some(x) = entry else {
            return self;
        };
        if x.0 == self.stamp && x.1 == self.last {
            return Leader {
                seat: winner(seats, self.seat, seat),
                stamp: self.stamp,
                last: self.last,
            };
        }
        let before = (x.0 < self.stamp) | ((x.0 == self.stamp) & (x.1 < self.last));
        Leader {
            seat: if before { seat } else { self.seat },
            stamp: if before { x.0 } else { self.stamp },
            last: if before { x.1 } else { self.last },
        }
    }
}

/// Returns the seat in a block whose candidate comes first, or a number past the seats where there is none.
pub fn first_of_block(seats: &SeatList, block: usize) -> usize
    requires { block < blocks (length seats.now) }
    ensures { IsFirstOfBlock seats.now block result }
{
    let mut leader = Leader::nobody(seats);
    let end = end_of(block, seats.len());
    for seat in block * BLOCK..end {
        leader = leader.or(seats, seat, &seats.find(seat));
    }
    leader.seat
}

/// Returns the seat in a block whose candidate comes first of those last referenced before a time, or a number past the
/// seats where there is none.
pub fn first_aged(seats: &SeatList, block: usize, time: u64) -> usize
    requires { block < blocks (length seats.now) }
    ensures { IsFirstIn seats.now block (λ e. e.1 < time) (seat_at seats.now result) }
{
    let mut leader = Leader::nobody(seats);
    let end = end_of(block, seats.len());
    for seat in block * BLOCK..end {
        if is_aged(seats, seat, time) {
            leader = leader.or(seats, seat, &seats.find(seat));
        }
    }
    leader.seat
}

/// Returns the seat in a block whose candidate comes first, after one seat of it was changed, where another seat was
/// known to have the first before, or the changed one. It scans the block only where that was the changed one.
pub fn first_again(seats: &SeatList, known: usize, seat: usize) -> usize
    requires seat { seat < length seats.now }
    requires others { IsFirstBut seats.now seat known }
    ensures { IsFirstOfBlock seats.now (seat / 16) result }
{
    if known == seat {
        first_of_block(seats, seat / BLOCK)
    } else {
        winner(seats, known, seat)
    }
}

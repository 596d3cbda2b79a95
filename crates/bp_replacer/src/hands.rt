//! `Hands`: a few seats whose candidates came of age, beside the tree.
ghost use Rattle.std.specs.Prelude.{◌≡◌, IsTrue};
ghost use Rattle.bp_replacer.specs.Seats.{winner, seat_at};
ghost use Rattle.bp_replacer.specs.Hands.{InHand, IsExchanged, IsAgedAt, IsHeld};

use crate::seat_list::SeatList;
use crate::tournament::{Seat, precedes};
use std::marker::Model;

/// The most seats in hand. With one, a third more walks were taken where references are spread evenly, and half more
/// where most go to a few pages; eight would hardly save one more.
const HANDS: usize = 4;

/// The seats in hand. A number past the seats stands for none.
#[derive(Drop)]
pub struct Hands {
    seats: [usize; HANDS],
}

impl Model for Hands {
    ghost use Rattle.std.specs.Prelude.{ℕ, List};

    ghost Value = { List ℕ };

    ghost view = { λ h. h.seats };
}

// The candidate at a seat, if it was last referenced before a time.
fn aged_at(seats: &SeatList, seat: usize, time: u64) -> Seat
    ensures { IsAgedAt seats.now seat time result }
{
    let entry = seats.at(seat)?;
    if entry.1 < time { Some(entry) } else { None }
}

/// Of two candidates, the one that comes first.
pub fn earlier(a: Seat, b: Seat) -> Seat
    ensures { result ≡ winner a b }
{
    match (a, b) {
        (None, _) => b,
        (Some(_), None) => a,
        (Some(x), Some(y)) => if precedes(&y, &x) { b } else { a },
    }
}

// Returns true if the first would rather go than the second: nobody before somebody, and else who comes later.
fn goes_rather(entry: &Seat, other: &Seat) -> bool {
    match (entry, other) {
        (_, None) => false,
        (None, Some(_)) => true,
        (Some(x), Some(y)) => precedes(y, x),
    }
}

impl Hands {
    /// Makes empty hands beside so many seats.
    pub fn new(size: usize) -> Hands {
        Hands {
            seats: [size; HANDS],
        }
    }

    /// Returns true only if a seat is in hand.
    pub fn has(&self, seat: usize) -> bool
        ensures { IsTrue result → InHand self.now seat }
    {
        for i in 0..HANDS {
            if self.seats[i] == seat {
                return true;
            }
        }
        false
    }

    // The place in hand of a seat that would rather go than another one, or a number past the places. No answer depends
    // on it.
    fn place_for(&self, seats: &SeatList, seat: usize, time: u64) -> usize {
        let (mut place, mut last) = (HANDS, aged_at(seats, seat, time));
        for i in 0..HANDS {
            let entry = aged_at(seats, self.seats[i], time);
            if goes_rather(&entry, &last) {
                (place, last) = (i, entry);
            }
        }
        place
    }

    /// Takes a seat in hand, and returns the one that goes for it: of those in hand and itself one whose candidate is
    /// not old enough, or else the one whose candidate comes last.
    pub fn exchange(&mut self, seats: &SeatList, seat: usize, time: u64) -> usize
        ensures { IsExchanged self.old seat self.new result }
    {
        let place = self.place_for(seats, seat, time);
        if place >= HANDS {
            return seat;
        }
        let other = self.seats[place];
        self.seats[place] = seat;
        other
    }

    /// Returns the first candidate in hand of those last referenced before a time, or `None` where there is none.
    pub fn first(&self, seats: &SeatList, time: u64) -> Seat
        ensures { IsHeld seats.now self.now 4 time result }
    {
        let mut first = None;
        for i in 0..HANDS {
            first = earlier(first, aged_at(seats, self.seats[i], time));
        }
        first
    }
}

//! `SeatList`: numbered seats, each empty or with a candidate.
ghost use Rattle.std.specs.Prelude.{◌≡◌, ◌<◌, Some, None, IfOk, length, replicate, set};
ghost use Rattle.std.specs.Option.{is_some};
ghost use Rattle.bp_replacer.specs.Seats.{seat_at};

use crate::tournament::Seat;
use bp_page::PageNo;
use std::alloc::{AllocError, Global};
use std::marker::Model;

/// The candidate at each seat. The candidates stand apart from the flags that tell whether a seat is taken: 25 bytes a
/// seat.
#[derive(Drop)]
pub struct SeatList {
    taken: Vec<bool>,
    entries: Vec<(u64, u64, PageNo)>,
}

impl Model for SeatList {
    ghost use Rattle.std.specs.Prelude.{◌≡◌, List, Option, length};
    ghost use Rattle.bp_references.specs.Candidates.{Candidate};
    ghost use Rattle.bp_replacer.specs.SeatList.{seated_by};

    ghost Value = { List (Option Candidate) };

    ghost view = { λ s. seated_by s.taken.items s.entries.items };

    ghost invariant = { λ s. length s.taken.items ≡ length s.entries.items };
}

// Sets a flag. One that stays as it is is not written, since its line of memory has the flags of many seats, which
// other processors may have.
fn set_flag(flags: &mut Vec<bool>, at: usize, flag: bool)
    requires { at < length flags.old.items }
    ensures { flags.new.items ≡ set flags.old.items at flag }
{
    if flags[at] != flag {
        flags[at] = flag;
    }
}

impl SeatList {
    /// Makes `size` empty seats. It fails by want of memory alone; no other call takes any.
    pub fn new(alloc: Global, size: usize) -> Result<SeatList, AllocError>
        ensures { IfOk result (λ s. s ≡ replicate size None) }
    {
        let taken = vec![in alloc; false; size]?;
        let entries = vec![in alloc; (0, 0, PageNo::new(0)); size]?;
        Ok(SeatList { taken, entries })
    }

    pub fn len(&self) -> usize
        ensures { result ≡ length self.now }
    {
        self.entries.len()
    }

    pub fn is_taken(&self, seat: usize) -> bool
        requires { seat < length self.now }
        ensures { result ≡ is_some (seat_at self.now seat) }
    {
        self.taken[seat]
    }

    /// Returns the candidate at a seat, or `None` where it is empty.
    pub fn find(&self, seat: usize) -> Seat
        requires { seat < length self.now }
        ensures { result ≡ seat_at self.now seat }
    {
        if self.is_taken(seat) {
            Some(self.entries[seat])
        } else {
            None
        }
    }

    /// Returns the candidate at a seat, or `None` where it is empty, and for a number past the seats.
    pub fn at(&self, seat: usize) -> Seat
        ensures { result ≡ seat_at self.now seat }
    {
        if seat < self.entries.len() {
            self.find(seat)
        } else {
            None
        }
    }

    /// Puts a candidate on a seat, or empties it.
    pub fn put(&mut self, seat: usize, entry: Seat)
        requires { seat < length self.old }
        ensures { self.new ≡ set self.old seat entry }
    {
        set_flag(&mut self.taken, seat, entry.is_some());
        if let Some(candidate) = entry {
            self.entries[seat] = candidate;
        }
    }
}

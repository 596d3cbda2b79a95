//! `LaggingTree`: the candidate at each seat, and the first of them in the order of replacement, by a tree of winners
//! that is brought up to date only where a look needs it.
ghost use Rattle.std.specs.Prelude.{◌≡◌, ◌⊎◌, ◌<◌, IsTrue, IsFalse, Some, None, IfOk, length, replicate, set};
ghost use Rattle.bp_replacer.specs.Seats.{winner, seat_at, same_seat, Lags, IsFirst};
ghost use Rattle.bp_replacer.specs.Young.{since, AreYoung, AreAnew, IsLater, IsSettled};

use crate::hands::{Hands, earlier};
use crate::marks::Marks;
use crate::seat_list::SeatList;
use crate::tournament::{Seat, Tournament, precedes};
use crate::young::Young;
use std::alloc::{AllocError, Global};
use std::marker::Model;

/// The most walks of one look before a pass may take their place.
const FEW_WALKS: usize = 16;

/// A pass may take the place of walks where the tree lags behind at least one seat in so many.
const SEATS_A_WALK: usize = 16;

/// The fewest seats that one look takes out of the queue before a pass takes the place of the others.
const FEW_TAKEN: usize = 64;

/// A look takes one more seat out of the queue for so many seats before a pass takes the place of the others.
const SEATS_A_TAKE: usize = 128;

/// The candidate at each seat, and a tree of winners over them.
///
/// The tree may lag behind a seat: it may still have a candidate that left the seat, or one that comes before the one
/// that stands there now and was last referenced before it. So the first of the tree is the first of all, or the tree
/// lags behind its seat. A page that is referenced again only falls in the order: it stays where it was in the tree
/// until it would come first there, and is put in its place then, by a walk up the tree from its seat.
///
/// Whoever enters at a seat that the tree may not lag behind waits apart, in a queue by last time, so that nobody who
/// is too young hides the others in the tree. A look first takes out of the queue who came of age. Four of them are kept
/// in hand, out of the tree too: those who come first. So one that is replaced soon after it is old enough takes no
/// walk; the others mostly take one. A page that a look finds in a wrong place, and too young, waits apart as well,
/// unless it is likely to be old enough before it comes first. Where it comes first too soon after all, it is let wait,
/// up to 16 pages a look.
///
/// Where one look took 16 walks already, and the tree may lag behind one in 16 of the seats, a pass takes the place of
/// the next walk: the tree copies the seats of all that do not wait, each node is computed once from scratch, and who
/// is too young waits anew. So it does where more than 64 and one in 128 of the seats came out of the queue in one
/// look. So a pass copies some 16 seats for each that was changed since the pass before, or less than 128 for each that
/// came of age.
#[derive(Drop)]
pub struct LaggingTree {
    seats: SeatList,
    tree: Tournament,
    /// The seats that the tree may lag behind: but for those that wait and those in hand, it lags behind no other.
    behind: Marks,
    /// The seats whose candidates wait to come of age.
    young: Young,
    /// The seats that are in hand.
    hands: Hands,
}

impl Model for LaggingTree {
    ghost use Rattle.std.specs.Prelude.{List, Option};
    ghost use Rattle.bp_references.specs.Candidates.{Candidate};
    ghost use Rattle.bp_replacer.specs.Young.{AreCovered};

    ghost Value = { List (Option Candidate) };

    ghost view = { λ s. s.seats };

    ghost invariant = { λ s. AreCovered s.tree s.young s.seats s.hands };
}

// Returns true if a tree that has the first at a seat may lag behind the second there.
fn may_lag(known: &Seat, entry: &Seat) -> bool
    ensures { IsTrue result → Lags known.now entry.now }
{
    match (known, entry) {
        (_, None) => true,
        (Some(x), Some(y)) => !precedes(y, x) && x.1 <= y.1,
        (None, Some(_)) => false,
    }
}

// Returns true if both seats are empty, or have the same candidate with the same times.
fn same_seat(a: &Seat, b: &Seat) -> bool
    ensures { result ≡ same_seat a.now b.now }
{
    match (a, b) {
        (None, None) => true,
        (Some(x), Some(y)) => x.0 == y.0 && x.1 == y.1 && x.2 == y.2,
        _ => false,
    }
}

// Brings the tree up to date at one seat, by a walk, or at all seats, by a pass. Who was not last referenced before the
// time, nor ages in time, waits apart instead. A number past the seats stands for none.
fn settle(
    tree: &mut Tournament,
    seats: &SeatList,
    behind: &mut Marks,
    young: &mut Young,
    seat: usize,
    time: u64,
    least: u64,
    all: bool,
)
    requires as_many { length tree.old ≡ length seats.now }
    requires waiting { length young.old ≡ length seats.now }
    ensures { IsSettled tree.old young.old seats.now seat time tree.new young.new }
{
    if all {
        tree.put_all(seats, young, time, least);
        behind.unset_all();
        return;
    }
    if seat >= seats.len() {
        return;
    }
    behind.unset(seat);
    let entry = seats.find(seat);
    if !young.wait_from(seat, &entry, time, least) {
        tree.put(seat, entry);
    } else if tree.find(seat).is_some() {
        tree.put(seat, None);
    }
}

// Returns true if there is a first candidate, and it comes before the second.
fn leads(first: &Seat, second: &Seat) -> bool
    ensures { IsTrue result → winner first.now second.now ≡ first.now }
{
    match (first, second) {
        (None, _) => false,
        (Some(_), None) => true,
        (Some(x), Some(y)) => precedes(x, y),
    }
}

// The K-th stamp of a candidate, or the greatest number where there is none.
fn stamp_of(entry: &Seat) -> u64 {
    match entry {
        None => u64::MAX,
        Some(candidate) => candidate.0,
    }
}

impl LaggingTree {
    /// Makes `size` empty seats. It fails by want of memory alone; no other call takes any.
    pub fn new(alloc: Global, size: usize) -> Result<LaggingTree, AllocError>
        ensures { IfOk result (λ s. s ≡ replicate size None) }
    {
        let seats = SeatList::new(alloc, size)?;
        let tree = Tournament::new(alloc, size)?;
        let behind = Marks::new(alloc, size)?;
        let young = Young::new(alloc, size)?;
        Ok(LaggingTree {
            seats,
            tree,
            behind,
            young,
            hands: Hands::new(size),
        })
    }

    /// Puts a candidate on a seat, or empties it. The tree is left to lag behind the seat where it may. Else the
    /// candidate waits apart; one whose last time is 0 is put in its place in the tree.
    #[inline(always)]
    pub fn put(&mut self, seat: usize, entry: Seat)
        requires { seat < length self.old }
        ensures { self.new ≡ set self.old seat entry }
    {
        self.seats.put(seat, entry);
        if may_lag(&self.tree.find(seat), &entry) {
            self.behind.set(seat);
            return;
        }
        if self.hands.has(seat) {
            return;
        }
        self.behind.unset(seat);
        if !self.young.wait_from(seat, &entry, 0, u64::MAX) {
            self.tree.put(seat, entry);
        }
    }

    /// Returns the first candidate of those last referenced before a time, or `None` where there is none. Whoever
    /// waited apart and was last referenced before the time comes into hand, or into the tree. Until the
    /// first in hand comes before whoever is first in the tree, rightly or not, the tree catches up with each seat that
    /// comes first in it wrongly, or one comes first rightly. After a pass the next look finds it.
    pub fn first_before(&mut self, time: u64) -> Seat
        ensures same { self.new ≡ self.old }
        ensures first { IsFirst self.new (λ e. e.1 < time) result }
    {
        let many = self.seats.len() / SEATS_A_TAKE + FEW_TAKEN;
        let least = match self.tree.first() {
            None => stamp_of(&self.hands.first(&self.seats, time)),
            first => stamp_of(&first),
        };
        let mut taken = 0usize;
        while let Some(seat) = self.young.take_below(time) {
            let other = self.hands.exchange(&self.seats, seat, time);
            let all = taken >= many;
            settle(
                &mut self.tree,
                &self.seats,
                &mut self.behind,
                &mut self.young,
                other,
                time,
                least,
                all,
            );
            taken = taken.saturating_add(1);
        }
        let held = self.hands.first(&self.seats, time);
        let (mut moved, mut walks) = (0usize, 0usize);
        loop {
            if leads(&held, &self.tree.first()) {
                return held;
            }
            if moved < FEW_WALKS
                && let Some(seat) = self.tree.hiding(time)
            {
                settle(
                    &mut self.tree,
                    &self.seats,
                    &mut self.behind,
                    &mut self.young,
                    seat,
                    time,
                    u64::MAX,
                    false,
                );
                moved += 1;
                continue;
            }
            let Some(seat) = self.tree.first_before(time) else {
                return held;
            };
            let entry = self.seats.find(seat);
            if same_seat(&self.tree.find(seat), &entry) {
                return earlier(entry, held);
            }
            let many = self.seats.len() / SEATS_A_WALK;
            let all = walks >= FEW_WALKS && self.behind.count() >= many;
            settle(
                &mut self.tree,
                &self.seats,
                &mut self.behind,
                &mut self.young,
                seat,
                time,
                least,
                all,
            );
            walks = walks.saturating_add(1);
        }
    }
}

//! `Tournament`: a tree of winners over seats, which finds the first candidate that was last referenced before a time.
ghost use Rattle.std.specs.Prelude.{◌≡◌, ◌⊎◌, ◌*◌, ◌+◌, ◌/◌, ◌^◌, ◌<◌, ◌≤◌, IfOk, IfSome, IfNone, None, length, replicate, set};
ghost use Rattle.bp_references.specs.Candidates.{Candidate, is_before};
ghost use Rattle.bp_replacer.specs.Seats.{seat_at, LeadsAll, IsFirst, IsFirstAt};
ghost use Rattle.bp_replacer.specs.Tree.{blocks, leaf_of, HasLeaves, IsFirstOfBlock, IsFirstBelow, IsTournament};
ghost use Rattle.bp_replacer.specs.Replay.{IsWonUpTo, IsWonFrom, NotYet, IsCopied};
ghost use Rattle.bp_replacer.specs.Young.{AreAnew, AreKnown};

use crate::block::{BLOCK, Leader, blocks, end_of, first_again, first_aged, is_aged, winner};
use crate::seat_list::SeatList;
use crate::young::Young;
use bp_page::PageNo;
use std::alloc::{AllocError, Global};
use std::marker::Model;

/// A candidate as (K-th stamp, last time, page), or `None` for an empty seat.
pub type Seat = Option<(u64, u64, PageNo)>;

/// Seats, and a tree over them that has at each node the number of the seat below it whose candidate comes first. Each
/// leaf stands for a block of 16 seats in a row.
///
/// `put` finds the first of its seat's block, by one comparison, or by a scan of the block where the seat itself had the
/// first. Then it goes up from the leaf as far as it changes what a node has, at most to the root: O(log seats). It ends
/// at the first node that has the number it had, if that is not the number of the seat: no node above has the candidate
/// that stood there or stands there now. So it takes one step where the seat, before and after the change, comes after
/// another one of its block. `put_all` changes all seats at once, by no walk: it copies block by block, keeps the first
/// of each as it copies, and computes each other node from scratch, from the last one to the root. That is O(seats), and
/// it reads each seat once.
///
/// `first_before` asks the root, and goes down below those nodes whose candidate was not last referenced before the
/// time that is asked for, as far as a scan of a block. So the root knows the answer where none was that comes first of
/// all. Else `first_before` looks at O(log seats) nodes and one block for each candidate that was not, and never at more
/// than each seat once, and one node for 16 seats. The memory is taken once, by `new`: 26 bytes a seat.
#[derive(Drop)]
pub struct Tournament {
    nodes: Vec<usize>,
    seats: SeatList,
}

impl Model for Tournament {
    ghost use Rattle.std.specs.Prelude.{List, Option};
    ghost use Rattle.bp_references.specs.Candidates.{Candidate};
    ghost use Rattle.bp_replacer.specs.Tree.{IsTournament};

    ghost Value = { List (Option Candidate) };

    ghost view = { λ t. t.seats };

    ghost invariant = { λ t. IsTournament t.nodes.items t.seats };
}

// The sibling of a node.
fn beside(at: usize) -> usize
    requires positive { 1 ≤ at }
    requires fits { at + 1 < 2 ^ 64 }
    ensures { at + result ≡ 4 * (at / 2) + 1 }
{
    if at % 2 == 0 { at + 1 } else { at - 1 }
}

// Recomputes the nodes above the leaf of a changed seat, up to the first that has the number it had, and not that of
// the seat.
fn replay(nodes: &mut [usize], seats: &SeatList, seat: usize)
    requires seat { seat < length seats.now }
    requires changed { IsWonUpTo nodes.old seats.now seat (leaf_of seats.now seat) }
    ensures won { IsTournament nodes.new seats.now }
{
    let mut at = nodes.len() / 2 + seat / BLOCK;
    let mut first = nodes[at];
    while at > 1 {
        let other = nodes[beside(at)];
        at /= 2;
        first = winner(seats, first, other);
        if first != seat && nodes[at] == first {
            return;
        }
        nodes[at] = first;
    }
}

// Recomputes each node before the leaves, from the last one to the root: so each comes after the two below it.
fn replay_all(nodes: &mut [usize], seats: &SeatList)
    requires { HasLeaves nodes.old seats.now }
    ensures won { IsTournament nodes.new seats.now }
{
    let mut at = nodes.len() / 2;
    while at > 1 {
        at -= 1;
        nodes[at] = winner(seats, nodes[2 * at], nodes[2 * at + 1]);
    }
}

// Puts a candidate on a seat, or empties it, and recomputes the leaf and the nodes above it, up to the first that has
// the number it had, and not that of the seat.
fn put_and_replay(nodes: &mut [usize], seats: &mut SeatList, seat: usize, entry: Seat)
    requires seat { seat < length seats.old }
    requires won { IsTournament nodes.old seats.old }
    ensures seats { seats.new ≡ set seats.old seat entry }
    ensures won { IsTournament nodes.new seats.new }
{
    seats.put(seat, entry);
    let leaf = nodes.len() / 2 + seat / BLOCK;
    let known = nodes[leaf];
    let first = first_again(seats, known, seat);
    if first != seat && first == known {
        return;
    }
    nodes[leaf] = first;
    replay(nodes, seats, seat);
}

// The seat of the first candidate below a node that was last referenced before a time; a number past the seats where
// there is none. It looks below nodes whose candidate was not.
fn first_below(nodes: &[usize], seats: &SeatList, at: usize, time: u64) -> usize
    requires won { IsTournament nodes.now seats.now }
    requires positive { 1 ≤ at }
    requires in_range { at < length nodes.now }
    ensures first { IsFirstBelow seats.now at (λ e. e.1 < time) (seat_at seats.now result) }
{
    let first = nodes[at];
    if is_aged(seats, first, time) {
        return first;
    }
    let leaves = nodes.len() / 2;
    if at >= leaves {
        return first_aged(seats, at - leaves, time);
    }
    let left = first_below(nodes, seats, 2 * at, time);
    let right = first_below(nodes, seats, 2 * at + 1, time);
    winner(seats, left, right)
}

// Copies the seats of a block of another list, but for those whose candidates wait: these are emptied. Each candidate
// that was not last referenced before a time, nor ages in time, waits, and no other does. Returns the seat of the first
// that was copied, or a number past the seats.
fn copy_block(
    known: &mut SeatList,
    seats: &SeatList,
    young: &mut Young,
    block: usize,
    time: u64,
    least: u64,
) -> usize
    requires block { block < blocks (length seats.now) }
    requires as_many { length known.old ≡ length seats.now }
    requires anew { AreAnew time young.old seats.now }
    requires not_yet { NotYet young.old block }
    ensures anew { AreAnew time young.new seats.now }
    ensures copied { IsCopied known.old young.old seats.now block known.new young.new }
    ensures first { IsFirstOfBlock known.new block result }
{
    let mut leader = Leader::nobody(known);
    let end = end_of(block, seats.len());
    for seat in block * BLOCK..end {
        let entry = seats.find(seat);
        let waits = young.wait_from(seat, &entry, time, least);
        let kept = if waits { None } else { entry };
        known.put(seat, kept);
        leader = leader.or(known, seat, &kept);
    }
    leader.seat
}

// Copies all seats of another list, as `copy_block` does, and recomputes each node: each leaf as its block is copied,
// and then the others.
fn copy_and_replay(
    nodes: &mut [usize],
    known: &mut SeatList,
    seats: &SeatList,
    young: &mut Young,
    time: u64,
    least: u64,
)
    requires nodes { length nodes.old ≡ 2 * blocks (length seats.now) }
    requires as_many { length known.old ≡ length seats.now }
    requires waiting { length young.old ≡ length seats.now }
    ensures anew { AreAnew time young.new seats.now }
    ensures known { AreKnown known.new young.new seats.now }
    ensures won { IsTournament nodes.new known.new }
{
    young.clear();
    let leaves = nodes.len() / 2;
    for block in 0..leaves {
        nodes[leaves + block] = copy_block(known, seats, young, block, time, least);
    }
    replay_all(nodes, known);
}

impl Tournament {
    /// Makes `size` empty seats. It fails by want of memory alone; no other call takes any.
    pub fn new(alloc: Global, size: usize) -> Result<Tournament, AllocError>
        ensures { IfOk result (λ t. t ≡ replicate size None) }
    {
        let nodes = vec![in alloc; size; 2 * blocks(size)]?;
        let seats = SeatList::new(alloc, size)?;
        Ok(Tournament { nodes, seats })
    }

    /// Returns the candidate at a seat, or `None` where it is empty.
    pub fn find(&self, seat: usize) -> Seat
        requires { seat < length self.now }
        ensures { result ≡ seat_at self.now seat }
    {
        self.seats.find(seat)
    }

    /// Returns the seat of the first candidate of those last referenced before a time, or `None` where there is none.
    pub fn first_before(&self, time: u64) -> Option<usize>
        ensures found { IfSome result (IsFirstAt self.now (λ e. e.1 < time)) }
        ensures none { IfNone result (IsFirst self.now (λ e. e.1 < time) None) }
    {
        let first = first_below(&self.nodes, &self.seats, 1, time);
        if self.seats.at(first).is_some() {
            Some(first)
        } else {
            None
        }
    }

    /// Returns the candidate that comes first of all, whenever it was last referenced, or `None` where there is none.
    pub fn first(&self) -> Seat
        ensures { LeadsAll self.now result }
    {
        self.seats.at(self.nodes[1])
    }

    /// Returns the seat of the first candidate, if that one was not last referenced before a time, and so hides others.
    /// No answer depends on it.
    pub fn hiding(&self, time: u64) -> Option<usize> {
        let first = self.nodes[1];
        if is_aged(&self.seats, first, time) {
            None
        } else {
            Some(first)
        }
    }

    /// Puts a candidate on a seat, or empties it.
    pub fn put(&mut self, seat: usize, entry: Seat)
        requires { seat < length self.old }
        ensures { self.new ≡ set self.old seat entry }
    {
        put_and_replay(&mut self.nodes, &mut self.seats, seat, entry);
    }

    /// Copies all seats of a list of as many, but for those whose candidates wait: these are emptied. Who waits is told
    /// anew, as by `Young::wait_from`.
    pub fn put_all(&mut self, seats: &SeatList, young: &mut Young, time: u64, least: u64)
        requires as_many { length seats.now ≡ length self.old }
        requires waiting { length young.old ≡ length self.old }
        ensures anew { AreAnew time young.new seats.now }
        ensures known { AreKnown self.new young.new seats.now }
    {
        copy_and_replay(&mut self.nodes, &mut self.seats, seats, young, time, least);
    }
}

/// Returns true if candidate `a` is replaced before `b`: by K-th stamp, then last time, then page number.
pub fn precedes(a: &(u64, u64, PageNo), b: &(u64, u64, PageNo)) -> bool
    ensures { result ≡ is_before a.now b.now }
{
    a < b
}

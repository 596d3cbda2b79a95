//! `Young`: the seats whose candidates wait to come of age.
ghost use Rattle.std.specs.Prelude.{◌≡◌, ◌⊎◌, ℕ, ◌<◌, ◌≤◌, nat_lt, IsTrue, IsFalse, IfOk, IfSome, IfNone, length, replicate, set};
ghost use Rattle.bp_replacer.specs.Young.{since, IsYoung, NoneBelow, AreYoung, IsLater};

use crate::queue::Queue;
use crate::tournament::Seat;
use bp_page::PageNo;
use std::alloc::{AllocError, Global};
use std::marker::Model;

/// The time since which each seat waits, or 0 where it does not wait. A queue has the seats that wait, the least time
/// first. A seat that is asked to wait again from a later time on stays where it is. The memory is taken once, by
/// `new`: 24 bytes a seat.
#[derive(Drop)]
pub struct Young {
    since: Vec<u64>,
    queue: Queue,
}

impl Model for Young {
    ghost use Rattle.std.specs.Prelude.{ℕ, List};
    ghost use Rattle.bp_replacer.specs.Young.{AreQueued};

    ghost Value = { List ℕ };

    ghost view = { λ y. y.since.items };

    ghost invariant = { λ y. AreQueued y.since.items y.queue.pages };
}

// Returns true if a candidate is likely to be old enough before it comes first, where `least` is the K-th stamp of who
// comes first at this time: K-th stamps of victims rise about as the time does. No answer depends on it.
fn ages_in_time(candidate: &(u64, u64, PageNo), time: u64, least: u64) -> bool {
    candidate.0 >= least.saturating_add(candidate.1.saturating_sub(time))
}

impl Young {
    /// Makes `size` seats, none of which waits. It fails by want of memory alone; no other call takes any.
    pub fn new(alloc: Global, size: usize) -> Result<Young, AllocError>
        ensures { IfOk result (λ y. y ≡ replicate size 0) }
    {
        let since = vec![in alloc; 0; size]?;
        let mut queue = Queue::new(alloc);
        queue.reserve(size)?;
        Ok(Young { since, queue })
    }

    /// Lets no seat wait any more. Where none is in the queue, it takes no time.
    pub fn clear(&mut self)
        ensures { self.new ≡ replicate (length self.old) 0 }
    {
        if !self.queue.is_empty() {
            self.since.fill(0);
            self.queue.clear();
        }
    }

    /// Lets a seat wait since a time, or an earlier one since which it waits already. Returns false, and changes
    /// nothing, where there is no room, or the time is 0.
    pub fn wait(&mut self, seat: usize, time: u64) -> bool
        requires { seat < length self.old }
        ensures waits { IsTrue result → IsYoung (since self.new seat) time }
        ensures refused { IsFalse result → self.new ≡ self.old }
        ensures others { (self.new ≡ self.old) ⊎ (self.new ≡ set self.old seat time) }
    {
        let known = self.since[seat];
        if known > 0 && known <= time {
            return true;
        }
        if time == 0 || !self.queue.has_room() {
            return false;
        }
        self.queue.push(time, seat as u64);
        self.since[seat] = time;
        true
    }

    /// Lets the candidate of a seat wait, if it was not last referenced before a time, nor is likely to be old enough
    /// before it comes first, where `least` is the K-th stamp of who comes first at that time. Returns false, and
    /// changes nothing, where it does not wait.
    pub fn wait_from(&mut self, seat: usize, entry: &Seat, time: u64, least: u64) -> bool
        requires { seat < length self.old }
        ensures waits { IsTrue result → AreYoung (since self.new seat) entry.now }
        ensures refused { IsFalse result → self.new ≡ self.old }
        ensures later { IsLater time seat self.old self.new }
    {
        match entry {
            None => false,
            Some(x) => x.1 >= time && !ages_in_time(x, time, least) && self.wait(seat, x.1),
        }
    }

    /// Takes out a seat that waits since before a time. `None` where none does.
    pub fn take_below(&mut self, time: u64) -> Option<usize>
        ensures in_range { IfSome result (λ seat. seat < length self.old) }
        ensures waited { IfSome result (λ seat. 0 < since self.old seat) }
        ensures below { IfSome result (λ seat. since self.old seat < time) }
        ensures taken { IfSome result (λ seat. self.new ≡ set self.old seat 0) }
        ensures unchanged { IfNone result (self.new ≡ self.old) }
        ensures none_below { IfNone result (NoneBelow self.new time) }
    {
        while let Some((known, seat)) = self.queue.pop_below(time) {
            let seat = seat as usize;
            if known > 0 && seat < self.since.len() && self.since[seat] == known {
                self.since[seat] = 0;
                return Some(seat);
            }
        }
        None
    }
}

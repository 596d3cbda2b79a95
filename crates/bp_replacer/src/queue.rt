//! `Queue`: what waits by time, the least time first: pages to be purged, and seats whose candidates are too young.
ghost use Rattle.std.specs.Prelude.{◌≡◌, ◌<◌, ◌≤◌, [], ◌∷◌, All, IsTrue, IfSome, IfNone, OnOk, length};
ghost use Rattle.std.specs.List.Sorted.{IsPermutation};

use std::alloc::{AllocError, Global};
use std::cmp::Reverse;
use std::collections::BinaryHeap;
use std::marker::Model;

/// Pages, or seats, with times, of which the one of the least time is taken out first. One may wait more than once.
/// Putting one in or taking one out moves no more than one a level of a binary tree, and only `reserve` takes memory.
#[derive(Drop)]
pub(crate) struct Queue {
    pages: BinaryHeap<Reverse<(u64, u64)>>,
}

impl Model for Queue {
    ghost use Rattle.bp_replacer.specs.Queue.{Waiting};

    ghost Value = { Waiting };

    ghost use Rattle.std.specs.Prelude.{map};
    ghost use Rattle.std.specs.BinaryHeap.{heap_items, heap_len, heap_capacity};
    ghost use Rattle.bp_replacer.specs.Queue.{IsInOrder};

    ghost view = { λ q. record {
      pages = map (λ e. e.0) (heap_items q.pages);
      room = heap_capacity q.pages;
    } };

    ghost invariant = { λ q. IsInOrder (heap_items q.pages) (heap_len q.pages) };
}

impl Queue {
    /// Makes an empty queue. It takes no memory.
    pub(crate) fn new(alloc: Global) -> Queue
        ensures { result.pages ≡ [] }
    {
        Queue {
            pages: BinaryHeap::new(alloc),
        }
    }

    /// Makes room for `room` pages in all. It fails by want of memory alone, and then the pages stay.
    pub(crate) fn reserve(&mut self, room: usize) -> Result<(), AllocError>
        ensures pages { self.new.pages ≡ self.old.pages }
        ensures grows { self.old.room ≤ self.new.room }
        ensures room { OnOk result (room ≤ self.new.room) }
    {
        self.pages.reserve(room.saturating_sub(self.pages.len()))
    }

    /// Returns true if no page waits.
    pub(crate) fn is_empty(&self) -> bool
        ensures { IsTrue result → self.now.pages ≡ [] }
    {
        self.pages.len() == 0
    }

    /// Returns true if there is room for one more page.
    pub(crate) fn has_room(&self) -> bool
        ensures { IsTrue result → length self.now.pages < self.now.room }
    {
        self.pages.len() < self.pages.capacity()
    }

    /// Takes all pages out.
    pub(crate) fn clear(&mut self)
        ensures pages { self.new.pages ≡ [] }
        ensures room { self.new.room ≡ self.old.room }
    {
        self.pages.clear();
    }

    /// Adds a page; a page that waits already is added again. It takes no memory.
    pub(crate) fn push(&mut self, time: u64, page: u64)
        requires { length self.old.pages < self.old.room }
        ensures pages { IsPermutation ((time, page) ∷ self.old.pages) self.new.pages }
        ensures room { self.old.room ≤ self.new.room }
    {
        let Ok(()) = self.pages.push(Reverse((time, page))) else {
            unreachable!()
        };
    }

    /// Takes out the (time, page) of the least time, if that time is below the bound. Else returns `None`.
    pub(crate) fn pop_below(&mut self, bound: u64) -> Option<(u64, u64)>
        ensures below { IfSome result (λ e. e.0 < bound) }
        ensures taken { IfSome result (λ e. IsPermutation self.old.pages (e ∷ self.new.pages)) }
        ensures unchanged { IfNone result (self.new.pages ≡ self.old.pages) }
        ensures none_below { IfNone result (All (λ e. bound ≤ e.0) self.old.pages) }
        ensures room { self.new.room ≡ self.old.room }
    {
        let Some(first) = self.pages.peek() else {
            return None;
        };
        if first.0.0 >= bound {
            return None;
        }
        let Some(first) = self.pages.pop() else {
            unreachable!()
        };
        Some(first.0)
    }
}

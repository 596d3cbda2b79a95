//! `Marks`: a flag for each seat, and the number of flags that are set.
use std::alloc::{AllocError, Global};

/// A mark at each of some seats, and their count. It serves to choose the cheaper way to catch up, and no answer
/// depends on it.
#[derive(Drop)]
pub struct Marks {
    is_marked: Vec<bool>,
    count: usize,
}

impl Marks {
    /// Makes `size` seats with no mark: a byte a seat.
    pub fn new(alloc: Global, size: usize) -> Result<Marks, AllocError> {
        let is_marked = vec![in alloc; false; size]?;
        Ok(Marks {
            is_marked,
            count: 0,
        })
    }

    /// Returns the number of marked seats.
    pub fn count(&self) -> usize {
        self.count
    }

    /// Marks a seat. A number past the seats is ignored, here and in `unset`.
    pub fn set(&mut self, seat: usize) {
        if seat < self.is_marked.len() && !self.is_marked[seat] {
            self.is_marked[seat] = true;
            self.count = self.count.saturating_add(1);
        }
    }

    pub fn unset(&mut self, seat: usize) {
        if seat < self.is_marked.len() && self.is_marked[seat] {
            self.is_marked[seat] = false;
            self.count = self.count.saturating_sub(1);
        }
    }

    pub fn unset_all(&mut self) {
        self.is_marked.fill(false);
        self.count = 0;
    }
}

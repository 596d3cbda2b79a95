//! `PageSet`: a set of page numbers that finds the first of them from a number on.
ghost use Rattle.std.specs.Prelude.{◌≡◌, ℕ, ◌+◌, ◌*◌, ◌/◌, ◌==◌, ◌^◌, ◌<◌, ◌≤◌, IfOk, IfSome, IfNone, true, false};
ghost use Rattle.std.specs.Prelude.{length, if◌then◌else◌};
ghost use Rattle.bp_frames.specs.PageSets.{IsNext, NoneFrom, has, holds, row_at, AreSummed, AreShaped};

use crate::bit_row::BitRow;
use std::alloc::{AllocError, Global};
use std::marker::Model;

/// A set of numbers below a limit.
///
/// It has a bit for each number, in words of 64, and above them rows of bits that tell which words of the row below
/// have any, up to a row of one word. So each call looks at one or two words of each row, of which there are four for
/// 1,048,576 numbers. `insert` and `remove` go up only as far as a word gets its first bit or loses its last. The
/// memory is taken once, by `with_capacity`: some 1.02 bits a number.
#[derive(Drop)]
pub(crate) struct PageSet {
    limit: usize,
    rows: Vec<BitRow>,
}

impl Model for PageSet {
    ghost use Rattle.bp_frames.specs.PageSets.{Numbers, ArePageRows, row_at};

    ghost Value = { Numbers };

    ghost view = { λ s. record { limit = s.limit; row = row_at s.rows.items 0 } };

    ghost invariant = { λ s. ArePageRows s.limit s.rows.items };
}

// Sets or clears a bit of a row, and of each row above that this changes.
fn put(rows: &mut [BitRow], level: usize, at: usize, is_in: bool)
    requires level { level < length rows.old }
    requires shaped { AreShaped rows.old }
    requires summed { AreSummed rows.old level }
    requires at { at / 64 < length (row_at rows.old level) }
    ensures count { length rows.new ≡ length rows.old }
    ensures lengths { (k : ℕ) → length (row_at rows.new k) ≡ length (row_at rows.old k) }
    ensures below { (k : ℕ) → k < level → row_at rows.new k ≡ row_at rows.old k }
    ensures put { (q : ℕ) → holds (row_at rows.new level) q
        ≡ (if q == at then is_in else holds (row_at rows.old level) q) }
    ensures summed { AreSummed rows.new level }
{
    let row = &mut rows[level];
    let had_any = row.has_any(at / 64);
    row.put(at, is_in);
    let has_any = row.has_any(at / 64);
    if has_any != had_any && level + 1 < rows.len() {
        put(rows, level + 1, at / 64, has_any);
    }
}

// The first set bit of a row from a number on.
fn first_from(rows: &[BitRow], level: usize, from: usize) -> Option<usize>
    requires shaped { AreShaped rows.now }
    requires summed { AreSummed rows.now level }
    ensures found { IfSome result (IsNext (holds (row_at rows.now level)) from) }
    ensures none { IfNone result (NoneFrom (holds (row_at rows.now level)) from) }
{
    if level >= rows.len() {
        return None;
    }
    let row = &rows[level];
    if let Some(found) = row.first_in(from) {
        return Some(found);
    }
    let word = first_from(rows, level + 1, from / 64 + 1)?;
    row.first_in(word * 64)
}

impl PageSet {
    /// Makes an empty set of numbers below the limit. It fails by want of memory alone; no other call takes any.
    pub fn with_capacity(alloc: Global, limit: usize) -> Result<PageSet, AllocError>
        requires { limit ≤ 2 ^ 32 }
        ensures limit { IfOk result (λ s. s.limit ≡ limit) }
        ensures none { IfOk result (λ s. (q : ℕ) → has s q ≡ false) }
    {
        let mut words = limit / 64 + 1;
        let mut rows = Vec::new(alloc);
        rows.push(BitRow::new(alloc, words)?)?;
        while words > 1 {
            words = words / 64 + 1;
            rows.push(BitRow::new(alloc, words)?)?;
        }
        Ok(PageSet { limit, rows })
    }

    pub fn insert(&mut self, number: usize)
        requires { number < self.old.limit }
        ensures limit { self.new.limit ≡ self.old.limit }
        ensures has { (q : ℕ) → has self.new q ≡ (if q == number then true else has self.old q) }
    {
        put(&mut self.rows, 0, number, true);
    }

    pub fn remove(&mut self, number: usize)
        requires { number < self.old.limit }
        ensures limit { self.new.limit ≡ self.old.limit }
        ensures has { (q : ℕ) → has self.new q ≡ (if q == number then false else has self.old q) }
    {
        put(&mut self.rows, 0, number, false);
    }

    /// Returns the first number of the set that is `from` or greater.
    pub fn next(&self, from: usize) -> Option<usize>
        ensures found { IfSome result (IsNext (has self.now) from) }
        ensures none { IfNone result (NoneFrom (has self.now) from) }
    {
        first_from(&self.rows, 0, from)
    }
}

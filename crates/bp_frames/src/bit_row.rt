//! A row of bits, in words of 64.
ghost use Rattle.std.specs.Prelude.{◌≡◌, ◌≢◌, ℕ, ◌/◌, ◌%◌, ◌==◌, ◌<◌, ◌≤◌, IfOk, IfSome, IfNone, true, false, length};
ghost use Rattle.std.specs.Prelude.{replicate, slice_index, if◌then◌else◌};
ghost use Rattle.bp_frames.specs.PageSets.{is_set, holds, holds_any};

use std::alloc::{AllocError, Global};
use std::marker::Model;

/// Bits with numbers from 0, 64 in a word.
#[derive(Drop)]
pub(crate) struct BitRow {
    words: Vec<u64>,
}

impl Model for BitRow {
    ghost use Rattle.std.specs.Prelude.{ℕ, List};

    ghost Value = { List ℕ };

    ghost view = { λ row. row.words.items };
}

// The word with one bit set or cleared.
fn with_bit(word: u64, bit: usize, is_in: bool) -> u64
    requires { bit < 64 }
    ensures { (i : ℕ) → i < 64 → is_set result i ≡ (if i == bit then is_in else is_set word i) }
{
    let mask = 1u64 << bit;
    if is_in { word | mask } else { word & !mask }
}

impl BitRow {
    /// Makes a row of so many words with no bit set. It fails by want of memory alone; no other call takes any.
    pub fn new(alloc: Global, words: usize) -> Result<BitRow, AllocError>
        ensures { IfOk result (λ row. row ≡ replicate words 0) }
    {
        let words = vec![in alloc; 0; words]?;
        Ok(BitRow { words })
    }

    /// Returns true if a word has a bit set.
    pub fn has_any(&self, word: usize) -> bool
        requires { word < length self.now }
        ensures { result ≡ holds_any self.now word }
    {
        self.word(word) != 0
    }

    fn word(&self, at: usize) -> u64
        requires { at < length self.now }
        ensures { result ≡ slice_index self.now at }
    {
        self.words[at]
    }

    /// Sets a bit, or clears it.
    pub fn put(&mut self, at: usize, is_in: bool)
        requires { at / 64 < length self.old }
        ensures length { length self.new ≡ length self.old }
        ensures put { (q : ℕ) → holds self.new q ≡ (if q == at then is_in else holds self.old q) }
        ensures others { (w : ℕ) → w ≢ at / 64 → holds_any self.new w ≡ holds_any self.old w }
    {
        self.words[at / 64] = with_bit(self.word(at / 64), at % 64, is_in);
    }

    /// Returns the first set bit from a number on, in the word of that number alone.
    pub fn first_in(&self, from: usize) -> Option<usize>
        ensures not_before { IfSome result (λ q. from ≤ q) }
        ensures same_word { IfSome result (λ q. q / 64 ≡ from / 64) }
        ensures here { IfSome result (λ q. holds self.now q ≡ true) }
        ensures none_between { IfSome result (λ q. (r : ℕ) → from ≤ r → r < q
            → holds self.now r ≡ false) }
        ensures none { IfNone result ((r : ℕ) → from ≤ r → r / 64 ≡ from / 64
            → holds self.now r ≡ false) }
        ensures empty { IfNone result (from % 64 ≡ 0 → holds_any self.now (from / 64) ≡ false) }
    {
        if from / 64 >= self.words.len() {
            return None;
        }
        let rest = self.word(from / 64) >> (from % 64);
        if rest == 0 {
            return None;
        }
        Some(from + rest.trailing_zeros() as usize)
    }
}

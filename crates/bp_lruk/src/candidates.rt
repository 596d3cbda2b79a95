//! `Candidates`: the pages that may be replaced, in a list in the order in which LRU-K replaces them.
ghost use Rattle.std.specs.Prelude.{◌≡◌, ◌≢◌, ℕ, ◌+◌, ◌-◌, ◌<◌, ◌≤◌, ◌↔◌, nat_lt, [], IsTrue, IsFalse, IsSome, Some, None, IfOk, OnErr, IfSome, IfNone, length, find, Contains, AllPairs, slice_index_or};
ghost use Rattle.bp_references.specs.Candidates.{Candidate, entry_of, find_entry, is_before, is_entered, is_eligible, IsVictim, NoPageTwice, SameLimits};
ghost use Rattle.bp_lruk.specs.Index.{IsInOrder, IsPlaceFor};

use crate::page_index::PageIndex;
use bp_page::{PageNo, Refusal};
use bp_replacer::Settings;
use bp_replacer::tournament::precedes;
use std::alloc::Global;
use std::marker::Model;

/// The pages that may be replaced, each with its K-th stamp and the time of its newest reference.
///
/// One list stands in the order of replacement, and one in the order of page numbers. Both are searched by halving, and
/// their memory is taken once, by `new`: 24 bytes a frame for the one and 64 for the other. To enter a page or to take
/// it out moves what stands behind it in the order of replacement, and hot pages stand near its end. `victim` looks at
/// no more than those entries that are too young and stand before it.
#[derive(Drop)]
pub struct Candidates {
    frames: usize,
    correlated: u64,
    order: Vec<(u64, u64, PageNo)>,
    pages: PageIndex,
}

impl Model for Candidates {
    ghost use Rattle.std.specs.Prelude.{◌≡◌, ◌≤◌, vec_len};
    ghost use Rattle.std.specs.Vec.{vec_capacity};
    ghost use Rattle.bp_references.specs.Candidates.{Entered, NoPageTwice};
    ghost use Rattle.bp_lruk.specs.Index.{AreAlike, IsInOrder};

    ghost Value = { Entered };

    ghost view = { λ c. record {
      frames = c.frames;
      correlated = c.correlated;
      entries = c.order.items;
    } };

    ghost invariant = { λ c. IsInOrder c.order.items × NoPageTwice c.order.items ×
        AreAlike c.order.items c.pages.entries × (c.pages.frames ≡ c.frames) ×
        (vec_len c.order ≤ c.frames) × (c.frames ≤ vec_capacity c.order) };
}

impl Candidates {
    /// Makes room for as many candidates as there are frames. It fails by want of memory alone, as `OutOfMemory`; no
    /// other call takes any.
    pub fn new(alloc: Global, frames: usize, settings: Settings) -> Result<Self, Refusal>
        ensures frames { IfOk result (λ c. c.frames ≡ frames) }
        ensures correlated { IfOk result (λ c. c.correlated ≡ settings.correlated) }
        ensures empty { IfOk result (λ c. c.entries ≡ []) }
        ensures err { OnErr result (result ≡ Err Refusal.OutOfMemory) }
    {
        let order = Vec::with_capacity(alloc, frames)?;
        let pages = PageIndex::new(alloc, frames)?;
        Ok(Candidates {
            frames,
            correlated: settings.correlated,
            order,
            pages,
        })
    }

    pub fn contains(&self, page: PageNo) -> bool
        ensures { result ≡ is_entered self.now page }
    {
        self.pages.find(page).is_some()
    }

    /// Returns true if as many pages are entered as there are frames.
    pub fn is_full(&self) -> bool
        ensures full { IsTrue result ↔ (length self.now.entries ≡ self.now.frames) }
        ensures few { length self.now.entries ≤ self.now.frames }
    {
        self.order.len() == self.frames
    }

    /// Enters a page with its K-th stamp and the time of its newest reference.
    pub fn enter(&mut self, page: PageNo, hist_k: u64, last: u64)
        requires apart { entry_of self.old page ≡ None }
        requires room { length self.old.entries < self.old.frames }
        ensures entered { entry_of self.new page ≡ Some (hist_k, last) }
        ensures others { (q : ℕ) → q ≢ page → entry_of self.new q ≡ entry_of self.old q }
        ensures count { length self.new.entries ≡ length self.old.entries + 1 }
        ensures pages { NoPageTwice self.new.entries }
        ensures limits { SameLimits self.old self.new }
    {
        let entry = (hist_k, last, page);
        let at = order_place(&self.order, &entry);
        self.order.insert(at, entry).unwrap();
        self.pages.enter(page, hist_k, last);
    }

    pub fn leave(&mut self, page: PageNo)
        requires { IsSome (entry_of self.old page) }
        ensures left { entry_of self.new page ≡ None }
        ensures others { (q : ℕ) → q ≢ page → entry_of self.new q ≡ entry_of self.old q }
        ensures count { length self.new.entries + 1 ≡ length self.old.entries }
        ensures pages { NoPageTwice self.new.entries }
        ensures limits { SameLimits self.old self.new }
    {
        let (hist_k, last) = self.pages.leave(page);
        let at = order_place(&self.order, &(hist_k, last, page));
        self.order.remove(at);
    }

    /// Returns the victim at the time `t`: of the pages last referenced more than the correlated period before, the
    /// first by K-th stamp, then by last time, then by page number. `None` where no page was last referenced so long
    /// ago.
    pub fn victim(&self, t: u64) -> Option<PageNo>
        ensures found { IfSome result (λ page. IsVictim self.now t page) }
        ensures none { IfNone result ((page : ℕ) → IsFalse (is_eligible self.now t page)) }
    {
        let first = first_old(&self.order, self.correlated, t)?;
        Some(first.2)
    }

    /// Returns all entries as (K-th stamp, last time, page), in the order of replacement.
    pub fn ordered(&self) -> &[(u64, u64, PageNo)]
        ensures all { (e : Candidate) → (entry_of self.now e.2 ≡ Some
            (e.0, e.1)) ↔ Contains result.now e }
        ensures in_order { AllPairs (λ a b. IsTrue (is_before a b)) result.now }
        ensures count { length result.now ≡ length self.now.entries }
    {
        &self.order
    }
}

// The place at which an entry stands or would go.
fn order_place(entries: &[(u64, u64, PageNo)], entry: &(u64, u64, PageNo)) -> usize
    requires { IsInOrder entries.now }
    ensures { IsPlaceFor entries.now entry.now result }
{
    entries.partition_point(|e| precedes(e, entry))
}

// The first entry with a last time more than the period before `t`.
fn first_old(entries: &[(u64, u64, PageNo)], period: u64, t: u64) -> Option<(u64, u64, PageNo)>
    ensures { result ≡ find (λ e. nat_lt period (t - e.1)) entries.now }
{
    entries
        .iter()
        .copied()
        .find(|entry| t.saturating_sub(entry.1) > period)
}

//! Candidates for replacement as a plain list, which `victim` scans from end to end, as figure 2.1 of "The LRU-K Page
//! Replacement Algorithm" (SIGMOD 1993) does. It is the body that others are compared with. The
//! core uses `bp_replacer::seats`; [`crate::Candidates`] has the same contract as this.
ghost use Rattle.std.specs.Prelude.{◌≡◌, ◌≢◌, ℕ, ◌+◌, ◌-◌, ◌<◌, ◌≤◌, ◌==◌, ◌↔◌, nat_lt, [], IsTrue, IsFalse, IsSome, Some, None, IfOk, OnErr, IfSome, IfNone, length, filter, position};
ghost use Rattle.std.specs.List.{list_any, reduce};
ghost use Rattle.bp_references.specs.Candidates.{earlier, entry_of, is_entered, is_eligible, IsVictim, NoPageTwice, SameLimits};

use bp_page::{PageNo, Refusal};
use bp_replacer::Settings;
use bp_replacer::tournament::precedes;
use std::alloc::Global;
use std::marker::Model;

/// The pages that may be replaced, in the order in which they were entered.
#[derive(Drop)]
pub struct Candidates {
    frames: usize,
    correlated: u64,
    entries: Vec<(u64, u64, PageNo)>,
}

impl Model for Candidates {
    ghost use Rattle.std.specs.Prelude.{◌≤◌, length, vec_len};
    ghost use Rattle.std.specs.Vec.{vec_capacity};
    ghost use Rattle.bp_references.specs.Candidates.{NoPageTwice, Entered};

    ghost Value = { Entered };

    ghost view = { λ c. record {
      frames = c.frames;
      correlated = c.correlated;
      entries = c.entries.items;
    } };

    ghost invariant = { λ c. NoPageTwice c.entries.items × (vec_len c.entries ≤ c.frames) ×
        (c.frames ≤ vec_capacity c.entries) };
}

impl Candidates {
    /// Makes room for as many candidates as there are frames. It fails by want of memory alone, as `OutOfMemory`; no
    /// other call takes any.
    pub fn new(alloc: Global, frames: usize, settings: Settings) -> Result<Self, Refusal>
        ensures frames { IfOk result (λ c. c.frames ≡ frames) }
        ensures correlated { IfOk result (λ c. c.correlated ≡ settings.correlated) }
        ensures empty { IfOk result (λ c. c.entries ≡ []) }
        ensures err { OnErr result (result ≡ Err Refusal.OutOfMemory) }
    {
        let entries = Vec::with_capacity(alloc, frames)?;
        Ok(Candidates {
            frames,
            correlated: settings.correlated,
            entries,
        })
    }

    pub fn contains(&self, page: PageNo) -> bool
        ensures { result ≡ is_entered self.now page }
    {
        has_entry(&self.entries, page)
    }

    /// Returns true if as many pages are entered as there are frames.
    pub fn is_full(&self) -> bool
        ensures full { IsTrue result ↔ (length self.now.entries ≡ self.now.frames) }
        ensures few { length self.now.entries ≤ self.now.frames }
    {
        self.entries.len() == self.frames
    }

    /// Enters a page with its K-th stamp and the time of its newest reference.
    pub fn enter(&mut self, page: PageNo, hist_k: u64, last: u64)
        requires apart { entry_of self.old page ≡ None }
        requires room { length self.old.entries < self.old.frames }
        ensures entered { entry_of self.new page ≡ Some (hist_k, last) }
        ensures others { (q : ℕ) → q ≢ page → entry_of self.new q ≡ entry_of self.old q }
        ensures count { length self.new.entries ≡ length self.old.entries + 1 }
        ensures pages { NoPageTwice self.new.entries }
        ensures limits { SameLimits self.old self.new }
    {
        self.entries.push_reserved((hist_k, last, page));
    }

    pub fn leave(&mut self, page: PageNo)
        requires { IsSome (entry_of self.old page) }
        ensures left { entry_of self.new page ≡ None }
        ensures others { (q : ℕ) → q ≢ page → entry_of self.new q ≡ entry_of self.old q }
        ensures count { length self.new.entries + 1 ≡ length self.old.entries }
        ensures pages { NoPageTwice self.new.entries }
        ensures limits { SameLimits self.old self.new }
    {
        let at = place(&self.entries, page).unwrap();
        self.entries.remove(at);
    }

    /// Returns the victim at the time `t`: of the pages last referenced more than the correlated period before, the
    /// first by K-th stamp, then by last time, then by page number. `None` where no page was last referenced so long
    /// ago.
    pub fn victim(&self, t: u64) -> Option<PageNo>
        ensures found { IfSome result (λ page. IsVictim self.now t page) }
        ensures none { IfNone result ((page : ℕ) → IsFalse (is_eligible self.now t page)) }
    {
        let first = least(&self.entries, self.correlated, t)?;
        Some(first.2)
    }
}

fn has_entry(entries: &[(u64, u64, PageNo)], page: PageNo) -> bool
    ensures { result ≡ list_any (λ e. e.2 == page) entries.now }
{
    entries.iter().any(|entry| entry.2 == page)
}

fn place(entries: &[(u64, u64, PageNo)], page: PageNo) -> Option<usize>
    ensures { result ≡ position (λ e. e.2 == page) entries.now }
{
    entries.iter().position(|entry| entry.2 == page)
}

// The first in the order of replacement, of those with a last time more than the period before `t`.
fn least(entries: &[(u64, u64, PageNo)], period: u64, t: u64) -> Option<(u64, u64, PageNo)>
    ensures { result ≡ reduce earlier (filter (λ e. nat_lt period (t - e.1)) entries.now) }
{
    entries
        .iter()
        .copied()
        .filter(|entry| t.saturating_sub(entry.1) > period)
        .reduce(|first, entry| if precedes(&entry, &first) {
            entry
        } else {
            first
        })
}

//! `PageIndex`: the K-th stamp and the last time with which each candidate was entered, found by its page number.
ghost use Rattle.std.specs.Prelude.{◌≡◌, ◌≢◌, ℕ, ◌+◌, ◌<◌, ◌≤◌, [], IsSome, Some, None, IfOk, IfErr, length, slice_index_or, vec_len};
ghost use Rattle.std.specs.Vec.{vec_capacity};
ghost use Rattle.bp_references.specs.Candidates.{find_entry, NoPageTwice};
ghost use Rattle.bp_lruk.specs.Index.{entered_in, IsByPage, IsGapFor};

use bp_page::PageNo;
use std::alloc::{AllocError, Global};
use std::marker::Model;

/// A page with the K-th stamp and the last time that it is entered with, or nothing once it has left.
#[derive(Clone, Copy)]
pub struct PageEntry {
    page: PageNo,
    entered: Option<(u64, u64)>,
}

/// The K-th stamp and the last time with which each candidate was entered, in the order of page numbers. A page that
/// leaves keeps its place, since a hot page comes back soon, and nothing has then to move. The places of such pages are
/// given up together once the list is full, which has room for twice the candidates.
#[derive(Drop)]
pub struct PageIndex {
    frames: usize,
    room: usize,
    entries: Vec<PageEntry>,
}

impl Model for PageIndex {
    ghost use Rattle.std.specs.Prelude.{◌≤◌, vec_len};
    ghost use Rattle.std.specs.Vec.{vec_capacity};
    ghost use Rattle.bp_lruk.specs.Index.{entered_in, IsByPage, Listed};

    ghost Value = { Listed };

    ghost view = { λ p. record { frames = p.frames; entries = entered_in p.entries.items } };

    ghost invariant = { λ p. IsByPage p.entries.items × (p.frames ≤ p.room) ×
        (vec_len p.entries ≤ p.room) × (p.room ≤ vec_capacity p.entries) };
}

impl PageIndex {
    /// Makes an empty list for so many candidates. It fails by want of memory alone; no other call takes any.
    pub fn new(alloc: Global, frames: usize) -> Result<PageIndex, AllocError>
        ensures frames { IfOk result (λ p. p.frames ≡ frames) }
        ensures empty { IfOk result (λ p. p.entries ≡ []) }
    {
        let room = frames.saturating_mul(2);
        let entries = Vec::with_capacity(alloc, room)?;
        Ok(PageIndex {
            frames,
            room,
            entries,
        })
    }

    /// Returns the K-th stamp and the last time of a page, or `None` where it is not entered.
    pub fn find(&self, page: PageNo) -> Option<(u64, u64)>
        ensures { result ≡ find_entry self.now.entries page }
    {
        match place(&self.entries, page) {
            Ok(at) => self.entries[at].entered,
            Err(_) => None,
        }
    }

    pub fn enter(&mut self, page: PageNo, hist_k: u64, last: u64)
        requires apart { find_entry self.old.entries page ≡ None }
        requires room { length self.old.entries < self.old.frames }
        ensures entered { find_entry self.new.entries page ≡ Some (hist_k, last) }
        ensures others { (q : ℕ) → q ≢ page → find_entry self.new.entries q
            ≡ find_entry self.old.entries q }
        ensures count { length self.new.entries ≡ length self.old.entries + 1 }
        ensures frames { self.new.frames ≡ self.old.frames }
    {
        make_room(&mut self.entries, self.room);
        let entered = Some((hist_k, last));
        match place(&self.entries, page) {
            Ok(at) => self.entries[at].entered = entered,
            Err(at) => self
                .entries
                .insert(at, PageEntry { page, entered })
                .unwrap(),
        }
    }

    /// Takes a page out. Returns the K-th stamp and the last time with which it was entered.
    pub fn leave(&mut self, page: PageNo) -> (u64, u64)
        requires { IsSome (find_entry self.old.entries page) }
        ensures found { find_entry self.old.entries page ≡ Some result }
        ensures left { find_entry self.new.entries page ≡ None }
        ensures others { (q : ℕ) → q ≢ page → find_entry self.new.entries q
            ≡ find_entry self.old.entries q }
        ensures count { length self.new.entries + 1 ≡ length self.old.entries }
        ensures frames { self.new.frames ≡ self.old.frames }
    {
        let at = place(&self.entries, page).unwrap();
        let entered = self.entries[at].entered.unwrap();
        self.entries[at].entered = None;
        entered
    }
}

// The place of the page's entry, or as `Err` the place at which it would go.
fn place(entries: &[PageEntry], page: PageNo) -> Result<usize, usize>
    requires { IsByPage entries.now }
    ensures in_range { IfOk result (λ at. at < length entries.now) }
    ensures here { IfOk result (λ at. (d : PageEntry) →
        (slice_index_or entries.now at d).page ≡ page) }
    ensures gap { IfErr result (λ at. IsGapFor entries.now page at) }
{
    entries.binary_search_by_key(&page.number(), |entry| entry.page.number())
}

// Gives up the places of the pages that have left, if the list is full.
fn make_room(entries: &mut Vec<PageEntry>, room: usize)
    requires in_order { IsByPage entries.old.items }
    requires few { length (entered_in entries.old.items) < room }
    requires in_room { vec_len entries.old ≤ room }
    ensures in_order { IsByPage entries.new.items }
    ensures same { entered_in entries.new.items ≡ entered_in entries.old.items }
    ensures has_room { vec_len entries.new < room }
    ensures capacity { vec_capacity entries.new ≡ vec_capacity entries.old }
{
    if entries.len() == room {
        entries.retain(|entry| entry.entered.is_some());
    }
}

//! `Unsaved`: the unsaved pages of a frame table, in the order of the least LSNs of their unsaved writes.
ghost use Rattle.std.specs.Prelude.{◌≡◌, ℕ, ◌+◌, ◌^◌, ◌<◌, ◌≤◌, ◌==◌, IsTrue, IsFalse, IfOk, IfSome, IfNone, Some};
ghost use Rattle.std.specs.Prelude.{None, true, false, is_some, length, replicate, if◌then◌else◌};
ghost use Rattle.bp_references.specs.Candidates.{is_eligible, IsVictim, NoPageTwice};
ghost use Rattle.bp_replacer.specs.Seats.{entered, seat_of, with_seat, seated_in};
ghost use Rattle.bp_frames.specs.Frames.{seat_for};
ghost use Rattle.bp_frames.specs.PageSets.{IsNext, NoneFrom, has};

use crate::frame::FrameSlot;
use crate::page_set::PageSet;
use bp_page::{Lsn, PageNo};
use bp_replacer::Settings;
use bp_replacer::seats::Candidates;
use std::alloc::{AllocError, Global};

/// The unsaved pages, their number, and their order by the least LSN of their unsaved writes.
#[derive(Drop)]
pub(crate) struct Unsaved {
    count: usize,
    /// The unsaved pages at the seats of their slots, from the least LSN on.
    order: Candidates,
    pages: PageSet,
}

impl Unsaved {
    /// Starts with no page unsaved, of a file of so many pages and in so many frames. It fails by want of memory alone;
    /// no other call takes any.
    pub fn new(
        alloc: Global,
        frames: usize,
        pages: usize,
        settings: Settings,
    ) -> Result<Unsaved, AllocError>
        requires { pages ≤ 2 ^ 32 }
        ensures count { IfOk result (λ u. u.count ≡ 0) }
        ensures order { IfOk result (λ u. u.order ≡ record {
          correlated = 0;
          seats = replicate frames
              None;
        }) }
        ensures pages { IfOk result (λ u. u.pages.limit ≡ pages) }
        ensures none { IfOk result (λ u. (q : ℕ) → has u.pages q ≡ false) }
    {
        let at_once = Settings {
            k: settings.k,
            correlated: 0,
            retained: settings.retained,
        };
        let order = Candidates::new(alloc, frames, at_once)?;
        let pages = PageSet::with_capacity(alloc, pages)?;
        Ok(Unsaved {
            count: 0,
            order,
            pages,
        })
    }

    pub fn len(&self) -> usize
        ensures { result ≡ self.now.count }
    {
        self.count
    }

    /// Changes the least LSN of the unsaved writes of the page in a slot from `before` to `after`, of which `None`
    /// stands for a saved page. It costs a compare where they are the same, and else O(log frames).
    pub fn note(&mut self, slot: &FrameSlot, before: Option<Lsn>, after: Option<Lsn>)
        requires seat { slot.now.index < length self.old.order.seats }
        requires was { seat_of self.old.order slot.now.index ≡ seat_for slot.now.page before }
        requires page { slot.now.page < self.old.pages.limit }
        requires noted { has self.old.pages slot.now.page ≡ is_some before }
        requires counted { IsTrue (is_some before) → 0 < self.old.count }
        requires few { self.old.count < 2 ^ 63 }
        ensures count { self.new.count + (if is_some before then 1 else 0)
            ≡ self.old.count + (if is_some after then 1 else 0) }
        ensures order { self.new.order ≡ with_seat self.old.order slot.now.index
            (seat_for slot.now.page after) }
        ensures limit { self.new.pages.limit ≡ self.old.pages.limit }
        ensures pages { (q : ℕ) → has self.new.pages q
            ≡ (if q == slot.now.page then is_some after else has self.old.pages q) }
    {
        match (before, after) {
            (None, None) => (),
            (None, Some(lsn)) => self.enter(slot, lsn),
            (Some(_), None) => self.leave(slot),
            (Some(least), Some(lsn)) => {
                if least != lsn {
                    self.change(slot, lsn);
                }
            }
        }
    }

    // Enters a page that was saved before.
    fn enter(&mut self, slot: &FrameSlot, lsn: Lsn)
        requires seat { slot.now.index < length self.old.order.seats }
        requires empty { seat_of self.old.order slot.now.index ≡ None }
        requires page { slot.now.page < self.old.pages.limit }
        requires few { self.old.count < 2 ^ 63 }
        ensures count { self.new.count ≡ self.old.count + 1 }
        ensures order { self.new.order ≡ with_seat self.old.order slot.now.index
            (Some (lsn, 0, slot.now.page)) }
        ensures limit { self.new.pages.limit ≡ self.old.pages.limit }
        ensures pages { (q : ℕ) → has self.new.pages q
            ≡ (if q == slot.now.page then true else has self.old.pages q) }
    {
        self.count += 1;
        self.order.enter(slot.index, slot.page, lsn.number(), 0);
        self.pages.insert(slot.page.number() as usize);
    }

    // Takes out a page that is saved now.
    fn leave(&mut self, slot: &FrameSlot)
        requires seat { slot.now.index < length self.old.order.seats }
        requires page { slot.now.page < self.old.pages.limit }
        requires counted { 0 < self.old.count }
        ensures count { self.new.count + 1 ≡ self.old.count }
        ensures order { self.new.order ≡ with_seat self.old.order slot.now.index None }
        ensures limit { self.new.pages.limit ≡ self.old.pages.limit }
        ensures pages { (q : ℕ) → has self.new.pages q
            ≡ (if q == slot.now.page then false else has self.old.pages q) }
    {
        self.count -= 1;
        self.order.leave(slot.index);
        self.pages.remove(slot.page.number() as usize);
    }

    // Changes the least LSN of a page that stays unsaved.
    fn change(&mut self, slot: &FrameSlot, lsn: Lsn)
        requires seat { slot.now.index < length self.old.order.seats }
        ensures count { self.new.count ≡ self.old.count }
        ensures order { self.new.order ≡ with_seat self.old.order slot.now.index
            (Some (lsn, 0, slot.now.page)) }
        ensures pages { self.new.pages ≡ self.old.pages }
    {
        self.order.leave(slot.index);
        self.order.enter(slot.index, slot.page, lsn.number(), 0);
    }

    /// Returns the page with the least LSN of an unsaved write, or `None` where all pages are saved.
    pub fn first(&mut self) -> Option<PageNo>
        requires { NoPageTwice (seated_in self.old.order.seats) }
        ensures same { self.new ≡ self.old }
        ensures found { IfSome result (λ page. IsVictim (entered self.old.order) 1 page) }
        ensures none { IfNone result ((page : ℕ) → IsFalse
            (is_eligible (entered self.old.order) 1 page)) }
    {
        self.order.victim(1)
    }

    /// Returns the number of the first unsaved page from this number on.
    pub fn next(&self, from: usize) -> Option<usize>
        ensures found { IfSome result (IsNext (has self.now.pages) from) }
        ensures none { IfNone result (NoneFrom (has self.now.pages) from) }
    {
        self.pages.next(from)
    }
}

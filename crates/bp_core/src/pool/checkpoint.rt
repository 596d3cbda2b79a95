//! Questions of a checkpoint: which pages are unsaved, and from which LSN on the log is needed.
ghost use Rattle.std.specs.Prelude.{◌≡◌, true, false, IfSome, IfNone};
ghost use Rattle.bp_trail.specs.Places.{resident};
ghost use Rattle.bp_trail.specs.Saved.{unsaved, page_lsn, first_lsn, IsRedoFrom};
ghost use Rattle.bp_core.specs.CoreView.{EachPast};
ghost use Rattle.bp_core.specs.Outcomes.{KnowsPass, LacksPass};
ghost use Rattle.bp_core.specs.Unsaved.{FindsUnsaved};

use crate::passes::Pass;
use crate::pool::PoolCore;
use bp_keeper::Keeper;
use bp_page::{Lsn, PageNo};

impl<K: Keeper> PoolCore<K> {
    /// Returns true if the page is unsaved: some write of it has no good write-out that began after it.
    pub fn is_unsaved(&self, page: PageNo) -> bool
        ensures { EachPast self.now (λ past. result ≡ unsaved past page) }
    {
        // An unsaved page is in a frame.
        self.keeps_the_rules();
        match self.frame(page) {
            Some(frame) => frame.is_unsaved,
            None => false,
        }
    }

    /// Returns the first unsaved page from this number on, if there is one. It looks at one or two words of each of at
    /// most four rows of bits, however many pages there are, and adds no entry.
    pub fn next_unsaved(&self, from: u64) -> Option<PageNo>
        ensures { EachPast self.now (λ past.
            FindsUnsaved self.now.parameters.pages from past result) }
    {
        self.state.frames.next_unsaved(from)
    }

    /// Returns the LSN from which redo has to begin: the least of all unsaved writes. `None` where each page is saved.
    /// It costs O(log frames) at most, and adds no entry.
    pub fn redo_from(&mut self) -> Option<Lsn>
        ensures same { self.new ≡ self.old }
        ensures least { EachPast self.old (λ past. IsRedoFrom past result) }
    {
        self.state.frames.least_unsaved()
    }

    /// Returns the least LSN of the page's unsaved writes, which is that of the first of them where LSNs rise. `None`
    /// where the page is saved.
    pub fn first_lsn(&self, page: PageNo) -> Option<Lsn>
        ensures { EachPast self.now (λ past. result ≡ first_lsn past page) }
    {
        // An unsaved page is in a frame.
        self.keeps_the_rules();
        match self.frame(page) {
            Some(frame) => frame.first_lsn,
            None => None,
        }
    }

    /// Returns the page LSN of a resident page, and `None` for any other.
    pub fn resident_lsn(&self, page: PageNo) -> Option<Lsn>
        ensures here { IfSome result (λ lsn. EachPast self.now
            (λ past. (resident past page ≡ true) × (lsn ≡ page_lsn past page))) }
        ensures away { IfNone result (EachPast self.now (λ past. resident past page ≡ false)) }
    {
        match self.frame(page) {
            Some(frame) => Some(frame.page_lsn),
            None => None,
        }
    }

    /// Returns the page LSN of the page of a pass: the greatest LSN of its writes since it was loaded, or 0. `None`
    /// where the pass is not out here.
    pub fn page_lsn(&self, pass: &Pass) -> Option<Lsn>
        ensures known { IfSome result (λ lsn. KnowsPass self.now pass.now) }
        ensures lsn { IfSome result (λ lsn. EachPast self.now
            (λ past. lsn ≡ page_lsn past pass.now.page)) }
        ensures unknown { IfNone result (LacksPass self.now pass.now) }
    {
        if !self.knows(pass) {
            return None;
        }
        let slot = self.state.frames.find(pass.page).unwrap();
        Some(self.state.frames.frame(&slot).page_lsn)
    }
}

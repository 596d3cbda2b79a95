//! The calls that need no pass and change nothing. They add no entry.
ghost use Rattle.std.specs.Prelude.{◌≡◌};
ghost use Rattle.bp_trail.specs.PageMap.{next_victim};
ghost use Rattle.bp_trail.specs.Saved.{IsRedoFrom};
ghost use Rattle.bp_core.specs.CoreView.{EachPast};
ghost use Rattle.hojzmated_c.specs.Tellers.{TellsResident, TellsStats, TellsUnsaved};

use crate::forms::{HzStats, HzUnsaved};
use crate::pool::Pool;
use bp_page::{Lsn, PageNo, Refusal};

impl Pool {
    /// Returns the first unsaved page whose number is at least `from`.
    pub(crate) fn next_unsaved(&self, from: u64) -> HzUnsaved
        ensures { TellsUnsaved self.now from result }
    {
        let Some(page) = self.core.next_unsaved(from) else {
            return HzUnsaved {
                page: 0,
                lsn: 0,
                first_lsn: 0,
                has_page: 0,
            };
        };
        // An unsaved page is in a frame, and has an unsaved write.
        self.core.keeps_the_rules();
        let lsn = self.core.resident_lsn(page).unwrap();
        let first = self.core.first_lsn(page).unwrap();
        HzUnsaved {
            page: page.number(),
            lsn: lsn.number(),
            first_lsn: first.number(),
            has_page: 1,
        }
    }

    /// Returns the page whose frame the next fix of a page that is away takes, or None.
    pub(crate) fn victim(&mut self) -> Option<PageNo>
        ensures same { self.new ≡ self.old }
        ensures next { EachPast self.old (λ past. result ≡ next_victim self.old.parameters past) }
    {
        self.core.victim()
    }

    /// Returns the LSN from which redo must begin, or None where all is saved.
    pub(crate) fn redo_from(&mut self) -> Option<Lsn>
        ensures same { self.new ≡ self.old }
        ensures least { EachPast self.old (λ past. IsRedoFrom past result) }
    {
        self.core.redo_from()
    }

    pub(crate) fn stats(&self) -> HzStats
        ensures { TellsStats self.now result }
    {
        HzStats::of(&self.core.stats())
    }

    /// Returns true if the page is in a frame. It is `OutOfPage` where the file has no such page.
    pub(crate) fn is_resident(&self, page: u64) -> Result<bool, Refusal>
        ensures { TellsResident self.now page result }
    {
        match self.core.geometry().page(page) {
            Some(page) => Ok(self.core.is_resident(page)),
            None => Err(Refusal::OutOfPage),
        }
    }
}

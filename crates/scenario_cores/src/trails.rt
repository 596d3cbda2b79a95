//! Calls about the trail of a core that has it in memory.

use crate::pools::Pool;
use bp_check::Setup;
use bp_core::{RecordingKeeper, SilentKeeper};
use bp_trail::Entry;
use scenario_words::{Answer, Said, Verb, entry_of, refusals_of, totals_of};
use std::sync::Wait;

impl Pool<RecordingKeeper> {
    /// Cuts the trail, and appends it to the pieces that were cut before.
    pub fn cut(&mut self) -> Answer {
        match self.core.cut() {
            Ok(mut piece) => self.lists.keep_entries(&mut piece),
            Err(refusal) => Answer::Refused(refusal),
        }
    }

    /// Makes a call of the core or about its trail.
    pub fn ask(&mut self, rt: &impl Wait, call: &Said) -> Answer {
        let [n, _, _] = call.numbers.list;
        match call.verb {
            Verb::Trail => Answer::Number(self.counted(self.core.trail())),
            Verb::Totals => totals_of(self.alloc, self.core.trail(), self.unread),
            Verb::Refusals => refusals_of(self.core.trail()),
            Verb::Fresh => Answer::yes_or_no(self.core.fresh()),
            Verb::Cut => self.cut(),
            Verb::Entry => entry_of(self.alloc, self.core.trail(), n),
            _ => self.call(rt, call),
        }
    }

    /// Cuts the rest of the trail. Where memory is refused, it tries again.
    pub fn gather(&mut self) {
        if let Answer::Refused(_) = self.cut() {
            self.cut();
        }
    }

    /// Returns true if all entries were cut, and none was lost.
    pub fn is_gathered(&self) -> bool {
        self.core.trail().is_empty() && !self.lists.is_short
    }

    /// Returns the number of entries, less those of the reads that are not counted.
    fn counted(&self, entries: &[Entry]) -> u64 {
        (entries.len() as u64).saturating_sub(self.unread.saturating_mul(2))
    }

    /// Returns true if another core made the same entries. Where reads are not counted, only their numbers are
    /// compared.
    pub fn is_joined(&self, pieces: &Pool<RecordingKeeper>) -> bool {
        if self.unread == 0 && pieces.unread == 0 {
            return self.entries() == pieces.entries();
        }
        self.counted(self.entries()) == pieces.counted(pieces.entries())
    }

    /// Returns true if a core that only counts made as many entries. All entries of this one must be cut.
    pub fn is_counted(&self, counted: &Pool<SilentKeeper>) -> bool {
        self.core.free() as u64 == counted.free().saturating_add(self.counted(self.entries()))
    }

    /// Returns the entries that were cut, oldest first.
    pub fn entries(&self) -> &[Entry] {
        &self.lists.entries
    }

    pub fn setup(&self) -> Setup {
        Setup {
            geometry: self.core.geometry(),
            settings: self.core.settings(),
            frames: self.core.frames(),
            clients: self.core.clients(),
        }
    }
}

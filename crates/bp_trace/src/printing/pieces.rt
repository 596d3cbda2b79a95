//! `ReportRun`, a report of a trail that comes piece by piece.
ghost use Rattle.std.specs.Prelude.{◌≡◌, ◌+◌, ◌<◌, ◌≤◌, ◌^◌, true, false, length, Decides, OnOk, OnErr};
ghost use Rattle.std.specs.Io.KnownBytes.{Appends};
ghost use Rattle.bp_trace.specs.Counts.{AreWithin};

use super::steps_of;
use crate::lines::write_event;
use crate::total_lines::write_totals;
use bp_trail::{Entry, Totals};
use std::io;
use std::io::{ErrorKind, Write};

/// The greatest time of a report, in ticks.
const TIME_END: u128 = 1 << 62;

const ENTRIES_END: u128 = 1 << 64;

/// A report under way: the time and the counts so far.
#[derive(Drop)]
pub struct ReportRun {
    time: u64,
    entries: u64,
    totals: Totals,
    has_failed: bool,
    ghost within: { AreWithin entries totals },
}

impl ReportRun {
    ghost use Rattle.bp_trace.specs.Lines.{event_line};
    ghost use Rattle.bp_trace.specs.Report.{steps_of};
    ghost use Rattle.bp_trace.specs.Totals.{totals_text};
    ghost use Rattle.bp_trace.specs.Pieces.{lines_from, taken_by, none_taken, and_one, and_taken, MayTake, TakesNoMore};

    pub fn new() -> ReportRun
        ensures taken { taken_by result ≡ none_taken }
        ensures well { result.has_failed ≡ false }
    {
        ReportRun {
            time: 1,
            entries: 0,
            totals: Totals::none(),
            has_failed: false,
        }
    }

    /// Returns true if these entries may come next: with them all ticks sum to less than 2^62, and there are fewer than
    /// 2^64 entries.
    pub fn takes(&self, entries: &[Entry]) -> bool
        ensures { Decides result (MayTake (taken_by self.now) entries.now) }
    {
        // The sum is wide enough for any list of entries.
        let mut time = u128::from(self.time);
        for entry in entries {
            time += u128::from(steps_of(&entry.call));
        }
        time <= TIME_END && entries.len() as u128 + u128::from(self.entries) < ENTRIES_END
    }

    /// Writes the line of an entry, if it has one, and counts the entry. Where the writer fails it is not counted.
    fn line<W: Write>(&mut self, entry: &Entry, writer: &mut W) -> io::Result<()>
        requires time { self.old.time + steps_of entry.now.call ≤ 2 ^ 62 }
        requires few { self.old.entries + 1 < 2 ^ 64 }
        ensures line { OnOk result (Appends (W.contents writer.old) (W.contents writer.new)
            (event_line self.old.time entry.now)) }
        ensures taken { OnOk result (taken_by self.new ≡ and_one entry.now (taken_by self.old)) }
        ensures stays { OnErr result (taken_by self.new ≡ taken_by self.old) }
        ensures well { self.new.has_failed ≡ self.old.has_failed }
    {
        write_event(u128::from(self.time), entry, writer)?;
        self.totals.count(&entry.reply);
        self.entries += 1;
        self.time += steps_of(&entry.call);
        Ok(())
    }

    /// Writes the lines of the next piece, oldest entry first. In all pieces so far the ticks must sum to less than
    /// 2^62, and there must be fewer than 2^64 entries.
    ///
    /// A fault of the writer is passed on. After it each later call fails too, and nothing more is written. No more
    /// than the piece was counted then, so what may come after the piece may still come.
    pub fn lines<W: Write>(&mut self, entries: &[Entry], writer: &mut W) -> io::Result<()>
        requires taken { MayTake (taken_by self.old) entries.now }
        ensures lines { OnOk result (Appends (W.contents writer.old) (W.contents writer.new)
            (lines_from self.old.time entries.now)) }
        ensures taken { OnOk result (taken_by self.new ≡ and_taken
            (taken_by self.old) entries.now) }
        ensures well { OnOk result (self.new.has_failed ≡ false) }
        ensures refused { OnOk result (self.old.has_failed ≡ false) }
        ensures fault { OnErr result (self.new.has_failed ≡ true) }
        ensures no_more { OnErr result (TakesNoMore
            (taken_by self.old) entries.now (taken_by self.new)) }
        ensures silent { self.old.has_failed ≡ true → writer.new ≡ writer.old }
    {
        if self.has_failed {
            return Err(io::Error::from(ErrorKind::Other));
        }
        for entry in entries {
            match self.line(entry, writer) {
                Ok(()) => {}
                Err(fault) => {
                    self.has_failed = true;
                    return Err(fault);
                }
            }
        }
        Ok(())
    }

    /// Writes the totals of all pieces. A fault of the writer is passed on. After a fault in `lines` it fails, and
    /// writes nothing.
    pub fn totals<W: Write>(self, writer: &mut W) -> io::Result<()>
        ensures written { OnOk result (Appends (W.contents writer.old) (W.contents writer.new)
            (totals_text self.totals)) }
        ensures well { OnOk result (self.has_failed ≡ false) }
        ensures silent { self.has_failed ≡ true → writer.new ≡ writer.old }
    {
        if self.has_failed {
            return Err(io::Error::from(ErrorKind::Other));
        }
        write_totals(&self.totals, writer)
    }
}

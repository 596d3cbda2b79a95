//! The report of a run: lines of events, totals, and the lines of refused rows.
ghost use Rattle.std.specs.Prelude.{◌≡◌, [], IfOk, OnOk};
ghost use Rattle.std.specs.Io.KnownBytes.{Appends};
ghost use Rattle.bp_trace.specs.Totals.{totals_text};
ghost use Rattle.bp_trail.specs.Totals.{totals_of};
ghost use Rattle.bp_trace.specs.Report.{lines_after, report_text, rows_text, steps_of};

mod front;
mod kept;
mod pieces;

use crate::lines::{write_event, write_refused};
use crate::total_lines::write_totals;
use bp_scripts::Refused;
use bp_trail::{Call, Entry, Totals};
pub use kept::ReportLines;
pub use pieces::ReportRun;
use std::io;
use std::io::Write;

/// Returns the number of ticks by which a call moves the clock.
fn steps_of(call: &Call) -> u64
    ensures { result ≡ steps_of call.now }
{
    match call {
        Call::Tick(steps) => *steps,
        _ => 0,
    }
}

/// Writes the lines of the entries, and counts their replies.
fn write_events<W: Write>(entries: &[Entry], writer: &mut W) -> io::Result<Totals>
    ensures lines { OnOk result (Appends (W.contents writer.old) (W.contents writer.new)
        (lines_after [] entries.now)) }
    ensures totals { IfOk result (λ totals. totals ≡ totals_of entries.now) }
{
    // The time is wide enough for any list of entries, legal or not.
    let mut time: u128 = 1;
    let mut totals = Totals::none();
    for entry in entries {
        write_event(time, entry, writer)?;
        totals.count(&entry.reply);
        time += u128::from(steps_of(&entry.call));
    }
    Ok(totals)
}

/// Writes the report of the entries, oldest first: a line for each eviction, discard, write-out and read, and then the
/// totals.
///
/// A fault of the writer is passed on; the writer may then hold any part of the report.
pub fn report<W: Write>(entries: &[Entry], writer: &mut W) -> io::Result<()>
    ensures { OnOk result (Appends (W.contents writer.old) (W.contents writer.new)
        (report_text entries.now)) }
{
    let totals = write_events(entries, writer)?;
    write_totals(&totals, writer)
}

/// Writes only the totals of the entries.
///
/// A fault of the writer is passed on; the writer may then hold any part of the totals.
pub fn report_totals<W: Write>(entries: &[Entry], writer: &mut W) -> io::Result<()>
    ensures { OnOk result (Appends (W.contents writer.old) (W.contents writer.new)
        (totals_text (totals_of entries.now))) }
{
    let totals = Totals::of(entries);
    write_totals(&totals, writer)
}

/// Writes a line for each refused row, in the order of the list.
///
/// A fault of the writer is passed on; the writer may then hold any part of the lines.
pub fn report_rows<W: Write>(rows: &[Refused], writer: &mut W) -> io::Result<()>
    ensures { OnOk result (Appends (W.contents writer.old) (W.contents writer.new)
        (rows_text rows.now)) }
{
    for refused in rows {
        write_refused(refused, writer)?;
    }
    Ok(())
}

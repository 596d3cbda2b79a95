//! The lines of the totals of a report: six, and one of the discards where there are any.
ghost use Rattle.std.specs.Prelude.{OnOk};
ghost use Rattle.std.specs.Io.KnownBytes.{Appends};
ghost use Rattle.bp_trace.specs.Totals.{discards_text, total_line, totals_text};

use bp_trail::Totals;
use std::io;
use std::io::Write;

/// A fault of the writer is passed on; the writer may then hold any part of the lines.
pub(crate) fn write_totals<W: Write>(totals: &Totals, writer: &mut W) -> io::Result<()>
    ensures { OnOk result (Appends (W.contents writer.old) (W.contents writer.new)
        (totals_text totals.now)) }
{
    write_total("hits", totals.hits, writer)?;
    write_total("faults", totals.faults, writer)?;
    write_total("evictions", totals.evictions, writer)?;
    write_total("writes", totals.writes, writer)?;
    write_total("failed", totals.failed, writer)?;
    write_total("refused", totals.refused, writer)?;
    write_discards(totals.discards, writer)
}

#[tactic(auto, unfolding(crate::specs::Totals::discards_text))]
fn write_discards<W: Write>(count: u64, writer: &mut W) -> io::Result<()>
    ensures { OnOk result (Appends (W.contents writer.old) (W.contents writer.new)
        (discards_text count)) }
{
    if count == 0 {
        return Ok(());
    }
    write_total("discards", count, writer)
}

#[tactic(auto, unfolding(crate::specs::Totals::total_line))]
fn write_total<W: Write>(name: &str, count: u64, writer: &mut W) -> io::Result<()>
    ensures { OnOk result (Appends (W.contents writer.old) (W.contents writer.new)
        (total_line name.now count)) }
{
    writeln!(writer, "{name} {count}")
}

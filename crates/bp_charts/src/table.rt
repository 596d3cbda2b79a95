//! `write_table`, which prints the lines of a sweep as CSV.
ghost use Rattle.std.specs.Prelude.{◌≡◌, OnOk, None, Some};
ghost use Rattle.std.specs.Io.KnownBytes.{Appends};
ghost use Rattle.bp_charts.specs.Table.{counts_text, line_text, lines_text, table_text};

use crate::ratio::Ratio;
use std::io;
use std::io::Write;

/// A line of the table: a pool, and the counts of its replies.
#[derive(Clone, Copy, Drop)]
pub struct Line {
    pub frames: usize,
    /// The K of LRU-K, or None where the line is of the optimum.
    pub k: Option<usize>,
    pub fixes: u64,
    /// Fixes that found their page in a frame.
    pub hits: u64,
    /// Pages that were read into a frame.
    pub faults: u64,
    pub evictions: u64,
    /// Write-outs that ended well. The optimum writes nothing out.
    pub writes: u64,
    /// Reads and write-outs that failed. Nothing of the optimum fails.
    pub failed: u64,
    /// Calls that were refused with 11, 12 or 13. The optimum refuses nothing.
    pub refused: u64,
}

/// Writes the columns that both kinds of line have.
fn write_counts<W: Write>(line: &Line, out: &mut W) -> io::Result<()>
    ensures { OnOk result (Appends (W.contents out.old) (W.contents out.new)
        (counts_text line.now)) }
{
    let Line {
        fixes,
        hits,
        faults,
        evictions,
        ..
    } = *line;
    let ratio = Ratio::of(hits, fixes);
    write!(out, ",{fixes},{hits},{faults},{ratio},{evictions}")
}

fn write_pool<W: Write>(line: &Line, k: usize, out: &mut W) -> io::Result<()>
    requires { line.now.k ≡ Some k }
    ensures { OnOk result (Appends (W.contents out.old) (W.contents out.new) (line_text line.now)) }
{
    let Line {
        frames,
        writes,
        failed,
        refused,
        ..
    } = *line;
    write!(out, "{frames},{k}")?;
    write_counts(line, out)?;
    writeln!(out, ",{writes},{failed},{refused}")
}

fn write_optimum<W: Write>(line: &Line, out: &mut W) -> io::Result<()>
    requires { line.now.k ≡ None }
    ensures { OnOk result (Appends (W.contents out.old) (W.contents out.new) (line_text line.now)) }
{
    let frames = line.frames;
    write!(out, "{frames},opt")?;
    write_counts(line, out)?;
    writeln!(out, ",,,")
}

fn write_line<W: Write>(line: &Line, out: &mut W) -> io::Result<()>
    ensures { OnOk result (Appends (W.contents out.old) (W.contents out.new) (line_text line.now)) }
{
    match line.k {
        Some(k) => write_pool(line, k, out),
        None => write_optimum(line, out),
    }
}

fn write_lines<W: Write>(lines: &[Line], out: &mut W) -> io::Result<()>
    ensures { OnOk result (Appends (W.contents out.old) (W.contents out.new)
        (lines_text lines.now)) }
{
    for line in lines {
        write_line(line, out)?;
    }
    Ok(())
}

/// Writes the table as CSV: a header, and then the lines in their order, with `\n` at the end of each. The columns are
/// `frames,k,fixes,hits,faults,hit_ratio,evictions,writes,failed,refused`.
///
/// `hit_ratio` is hits over fixes, rounded down to four decimals, and `0.0000` where there are no fixes. In a line of
/// the optimum `k` is `opt`, and the last three columns are empty. A fault of the writer is passed on; the writer may
/// then hold any part of the table.
pub fn write_table<W: Write>(lines: &[Line], out: &mut W) -> io::Result<()>
    ensures { OnOk result (Appends (W.contents out.old) (W.contents out.new)
        (table_text lines.now)) }
{
    writeln!(
        out,
        "frames,k,fixes,hits,faults,hit_ratio,evictions,writes,failed,refused"
    )?;
    write_lines(lines, out)
}

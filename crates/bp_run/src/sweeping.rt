//! A sweep: counts the replies to references for several numbers of frames and several K, and writes the table and its
//! picture.
ghost use Rattle.std.specs.Prelude.{◌≡◌, ◌≢◌, false, true, IfErr, IfOk, IfSome, None, OnErr, OnOk};
ghost use Rattle.std.specs.Io.KnownBytes.{Appends};
ghost use Rattle.bp_charts.specs.Table.{table_text};
ghost use Rattle.bp_sweep.specs.Sweeping.{AreCells};
ghost use Rattle.bp_cli.specs.Asked.{IsColumn, SweepsInLimits, sweep_of};
ghost use Rattle.bp_cli.specs.Words.{trace_given};
ghost use Rattle.bp_run.specs.Drawing.{IsDrawn};
ghost use Rattle.bp_run.specs.Opening.{Ends};
ghost use Rattle.bp_run.specs.Sweep.{AreReferencesOf, AreTaken, HasNoReferences, NotCounted, NotShown};
ghost use Rattle.bp_run.specs.Sweep.{NotTaken, NotWritten, Shows, StopsSweep, Sweeps};
ghost use Rattle.bp_run.specs.Sweep.{plans_given};

use crate::drawing::picture_of;
use crate::endings::{ListSource, STANDARD_INPUT, output_failed, references_refused};
use crate::meter::{SweepMeter, clear_line};
use crate::noted::Noted;
use crate::opening::Ports;
use bp_charts::{Line, write_table};
use bp_cli::{Ending, Reason, Stop, SweepWords, SystemFault, TraceSource};
use bp_page::Refusal;
use bp_sweep::{
    Progress, ReferenceFault, References, Unwatched, count_cells, plans_of, read_column,
    read_references,
};
use bp_trace::InputFault;
use std::alloc::Global;
use std::io;
use std::io::{BufReader, Read, Write};
use std::rt::Files;
use std::sync::Wait;
use std::time::Clock;

/// Reads the references of a list with one number a line.
fn references_in_lines<I: Read>(
    alloc: Global,
    name: &str,
    reader: &mut I,
) -> Result<References, Stop>
    ensures read { IfOk result (AreReferencesOf None (I.remaining reader.old)) }
    ensures fault { IfErr result (Ends (HasNoReferences None (I.remaining reader.old))) }
{
    let source = ListSource { name, column: None };
    let Ok(mut lines) = BufReader::new(alloc, Noted::new(reader)) else {
        let fault = ReferenceFault::new(0, InputFault::OutOfMemory);
        return Err(references_refused(alloc, source, fault, None));
    };
    match read_references(alloc, &mut lines) {
        Ok(references) => Ok(references),
        Err(fault) => {
            let error = lines.get_ref().error();
            Err(references_refused(alloc, source, fault, error))
        }
    }
}

/// Reads the references of a list: of its lines, or of a column where it is CSV.
fn references_from<I: Read>(
    alloc: Global,
    name: &str,
    column: Option<usize>,
    reader: &mut I,
) -> Result<References, Stop>
    requires few { IfSome column IsColumn }
    ensures read { IfOk result (AreReferencesOf column (I.remaining reader.old)) }
    ensures fault { IfErr result (Ends (HasNoReferences column (I.remaining reader.old))) }
{
    let Some(field) = column else {
        return references_in_lines(alloc, name, reader);
    };
    let mut noted = Noted::new(reader);
    match read_column(alloc, &mut noted, field as u32) {
        Ok(references) => Ok(references),
        Err(fault) => {
            let error = noted.error();
            Err(references_refused(alloc, ListSource { name, column }, fault, error))
        }
    }
}

/// Reads the references from standard input, or from the file at their path.
fn references_of<I: Read, R: Files, O: Ports<R>>(
    rt: &R,
    alloc: Global,
    words: &SweepWords<'_>,
    reader: &mut I,
    ports: &mut O,
) -> Result<References, Stop>
    requires possible { SweepsInLimits (sweep_of words.now) }
    ensures taken { IfOk result (AreTaken O.ways.traces O.T.remaining
        (trace_given words.now.references) words.now.column (I.remaining reader.old)) }
    ensures fault { IfErr result (Ends (NotTaken O.ways.traces O.T.remaining
        (trace_given words.now.references) words.now.column (I.remaining reader.old))) }
{
    match words.references {
        TraceSource::Stdin => references_from(alloc, STANDARD_INPUT, words.column, reader),
        TraceSource::Path(path) => {
            let Some(mut file) = ports.trace(rt, path) else {
                return Err(Stop {
                    ending: Ending::ReferencesNotOpened,
                    reason: ports.reason(),
                });
            };
            references_from(alloc, path, words.column, &mut file)
        }
    }
}

/// Counts the cells: each number of frames that the words name with each K, and with the optimum.
fn count<R: Wait, G: Progress>(
    rt: &R,
    alloc: Global,
    words: &SweepWords<'_>,
    references: &References,
    progress: &mut G,
) -> Result<Vec<Line>, Stop>
    ensures cells { IfOk result (λ lines. AreCells references.now
        (plans_given (sweep_of words.now)) lines.items) }
    ensures fault { IfErr result (Ends (NotCounted (sweep_of words.now) references.now)) }
{
    let Ok(plans) = plans_of(alloc, &words.frames, &words.ks, words.correlated) else {
        return Err(Stop::from(Ending::RunRefused(Refusal::OutOfMemory)));
    };
    match count_cells(rt, alloc, references, &plans, progress) {
        Ok(lines) => Ok(lines),
        Err(fault) => Err(Stop {
            ending: Ending::RunRefused(fault.refusal),
            reason: Reason::Unsaid,
        }),
    }
}

/// Counts the cells. Where somebody watches, the error output shows the progress.
fn count_watched<R: Wait + Clock, E: Write>(
    rt: &R,
    alloc: Global,
    words: &SweepWords<'_>,
    references: &References,
    is_watched: bool,
    err: &mut E,
) -> Result<Vec<Line>, Stop>
    ensures cells { IfOk result (λ lines. AreCells references.now
        (plans_given (sweep_of words.now)) lines.items) }
    ensures fault { IfErr result (Ends (NotCounted (sweep_of words.now) references.now)) }
    ensures err_kept { is_watched ≡ false → err.new ≡ err.old }
{
    if is_watched {
        let mut meter = SweepMeter::new(rt, err);
        let counted = count(rt, alloc, words, references, &mut meter);
        clear_line(err);
        counted
    } else {
        count(rt, alloc, words, references, &mut Unwatched)
    }
}

fn write_whole<W: Write>(lines: &[Line], out: &mut W) -> io::Result<()>
    ensures { OnOk result (Appends (W.contents out.old) (W.contents out.new)
        (table_text lines.now)) }
{
    write_table(lines, out)?;
    out.flush()
}

fn print_table<W: Write>(alloc: Global, lines: &[Line], out: &mut W) -> Result<(), Stop>
    ensures written { OnOk result (Appends (W.contents out.old) (W.contents out.new)
        (table_text lines.now)) }
    ensures fault { IfErr result (λ stop. stop.ending ≡ Ending.OutputFailed) }
{
    match write_whole(lines, out) {
        Ok(()) => Ok(()),
        Err(error) => Err(output_failed(alloc, error)),
    }
}

fn save<R: Files, O: Ports<R>>(
    rt: &R,
    alloc: Global,
    path: &str,
    bytes: &[u8],
    ports: &mut O,
) -> Result<(), Stop>
    ensures saved { OnOk result (O.ways.saves path.now bytes.now true) }
    ensures failed { OnErr result (O.ways.saves path.now bytes.now false) }
    ensures fault { IfErr result (λ stop. stop.ending ≡ Ending.PictureNotWritten) }
{
    match ports.save(rt, path, bytes) {
        Ok(()) => Ok(()),
        Err(error) => {
            let fault = SystemFault { name: path, error };
            Err(Stop::because(alloc, Ending::PictureNotWritten, &fault))
        }
    }
}

/// Writes the table of these lines, and then their picture, where the words ask for one. The picture is drawn before
/// anything is written.
fn write_lines<R: Files, O: Ports<R>, W: Write>(
    rt: &R,
    alloc: Global,
    words: &SweepWords<'_>,
    lines: &[Line],
    ports: &mut O,
    out: &mut W,
) -> Result<(), Stop>
    ensures written { OnOk result (Appends (W.contents out.old) (W.contents out.new)
        (table_text lines.now)) }
    ensures drawn { OnOk result (IsDrawn O.ways.saves (sweep_of words.now).svg
        (sweep_of words.now).ks lines.now) }
    ensures fault { IfErr result (Ends (NotWritten O.ways.saves (sweep_of words.now) lines.now
        (W.contents out.old) (W.contents out.new))) }
    ensures kept { IfErr result (λ stop. stop.ending ≢ Ending.OutputFailed
        → stop.ending ≢ Ending.PictureNotWritten → out.new ≡ out.old) }
{
    let Some(path) = words.svg else {
        return print_table(alloc, lines, out);
    };
    let Ok(picture) = picture_of(alloc, &words.ks, lines) else {
        return Err(Stop::from(Ending::RunRefused(Refusal::OutOfMemory)));
    };
    print_table(alloc, lines, out)?;
    save(rt, alloc, path, &picture, ports)
}

/// Counts the cells, and writes the table and the picture once all are counted.
fn show<R: Files + Wait + Clock, O: Ports<R>, W: Write, E: Write>(
    rt: &R,
    alloc: Global,
    words: &SweepWords<'_>,
    references: &References,
    is_watched: bool,
    ports: &mut O,
    out: &mut W,
    err: &mut E,
) -> Result<(), Stop>
    ensures shown { OnOk result (Shows O.ways.saves (sweep_of words.now) references.now
        (W.contents out.old) (W.contents out.new)) }
    ensures fault { IfErr result (Ends (NotShown O.ways.saves (sweep_of words.now) references.now
        (W.contents out.old) (W.contents out.new))) }
    ensures kept { IfErr result (λ stop. stop.ending ≢ Ending.OutputFailed
        → stop.ending ≢ Ending.PictureNotWritten → out.new ≡ out.old) }
    ensures err_kept { is_watched ≡ false → err.new ≡ err.old }
{
    let lines = count_watched(rt, alloc, words, references, is_watched, err)?;
    write_lines(rt, alloc, words, &lines, ports, out)
}

/// Reads the references, counts a cell for each number of frames with each K and with the optimum, writes the table,
/// and draws its picture where the words ask for one. Where somebody watches, the error output shows the progress.
///
/// All references are read before any cell is counted, all cells are counted before the table is written, and the
/// picture is written last. `PictureNotWritten` comes only where that last step fails; memory for the picture is asked
/// for before the table is written.
pub(crate) fn sweep_as_asked<R: Files + Wait + Clock, I: Read, O: Ports<R>, W: Write, E: Write>(
    rt: &R,
    alloc: Global,
    words: &SweepWords<'_>,
    reader: &mut I,
    ports: &mut O,
    out: &mut W,
    err: &mut E,
) -> Result<(), Stop>
    requires possible { SweepsInLimits (sweep_of words.now) }
    ensures swept { OnOk result (Sweeps O.ways O.T.remaining (sweep_of words.now)
        (I.remaining reader.old) (W.contents out.old) (W.contents out.new)) }
    ensures stopped { IfErr result (Ends (StopsSweep O.ways O.T.remaining (sweep_of words.now)
        (I.remaining reader.old) (W.contents out.old) (W.contents out.new))) }
    ensures kept { IfErr result (λ stop. stop.ending ≢ Ending.OutputFailed
        → stop.ending ≢ Ending.PictureNotWritten → out.new ≡ out.old) }
    ensures err_kept { O.watched ports.old ≡ false → err.new ≡ err.old }
{
    let is_watched = ports.is_watched();
    let references = references_of(rt, alloc, words, reader, ports)?;
    show(rt, alloc, words, &references, is_watched, ports, out, err)
}

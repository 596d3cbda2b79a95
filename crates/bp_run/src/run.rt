//! `run_with`, the whole program: it runs the rows of a trace over a new core and a page file, and reports, or does
//! another task of its words.
ghost use Rattle.std.specs.Prelude.{◌≡◌, ◌≢◌, ◌⊎◌, ◌++◌, ◌<◌, ◌≤◌, reverse, All, IfErr, IfOk, OnOk, [], if◌then◌else◌, vec_len, Ok, Err};
ghost use Rattle.std.specs.Io.KnownBytes.{Appends};
ghost use Rattle.clap.specs.Walk.{texts};
ghost use Rattle.bp_scripts.specs.Fits.{RowFits};
ghost use Rattle.bp_trace.specs.InRange.{IsInRange};
ghost use Rattle.bp_trace.specs.Report.{rows_text};
ghost use Rattle.bp_cli.specs.Decision.{AsksForAnswer, AsksForHelp, AsksForVersion, IsDecision, IsRunnable};
ghost use Rattle.bp_cli.specs.Ending.{message_of};
ghost use Rattle.bp_cli.specs.Words.{options_of, trace_given, words_or_default};
ghost use Rattle.bp_run.specs.Opening.{Ends, ending_of};
ghost use Rattle.bp_run.specs.PageFile.{IsNamed};
ghost use Rattle.bp_run.specs.Run.{AreRead, AreRowsOf, Reports, ReportsIn, Runs, DoesWords};
ghost use Rattle.bp_run.specs.Run.{parameters_for, ports_for, report_of, room_for};
ghost use Rattle.bp_run.specs.Stops.{Ended, EndsBy, HasNoRows, IsShown, NotConnected, NotOpened};
ghost use Rattle.bp_run.specs.Stops.{NotRead, NotReported, Prints, StopsRun};

use crate::endings::{STANDARD_INPUT, output_failed, trace_refused};
use crate::explaining::explain;
use crate::free::run_free;
use crate::migration::migrate;
use crate::noted::Noted;
use crate::opening::Ports;
use crate::scripts::client_count;
use crate::sweeping::sweep_as_asked;
use bp_cli::{Ending, Order, Reason, RunWords, Stop, Task, TraceSource, decide};
use bp_core::config::MAX_CLIENTS;
use bp_core::{Entry, Keeper, PoolCore, RecordingKeeper, Settings};
use bp_page::{Geometry, PortFault, Refusal};
use bp_ports::{OpenFault, Port};
use bp_replay::drive_all;
use bp_scripts::{Refused, Row};
use bp_trace::{ReportKeeper, read_script_into, report, report_rows, report_totals};
use std::alloc::Global;
use std::io;
use std::io::{Read, Write};
use std::marker::{Send, Sync};
use std::rt::Files;
use std::sync::Wait;
use std::thread::Threads;
use std::time::Clock;

/// Returns the room of the trail for so many rows, in entries.
pub(crate) fn room_for(order: Order, rows: usize) -> usize
    ensures { result ≡ room_for order rows }
{
    let room = match order {
        Order::Trace => rows.saturating_mul(8).saturating_add(16),
        Order::Free => rows.saturating_mul(64).saturating_add(1_024),
    };
    room.min(RecordingKeeper::MOST_ROOM)
}

/// Returns the number of ports of a run: in free order one for each client, as each is a thread, else 1.
fn ports_for(order: Order, rows: &[Row]) -> usize
    ensures { result ≡ ports_for order rows.now }
{
    match order {
        Order::Trace => 1,
        Order::Free => client_count(rows),
    }
}

/// Writes the report of the entries, or only its totals.
fn print_report<W: Write>(totals: bool, entries: &[Entry], out: &mut W) -> io::Result<()>
    ensures { OnOk result (Appends (W.contents out.old) (W.contents out.new)
        (report_of totals entries.now)) }
{
    if totals {
        report_totals(entries, out)
    } else {
        report(entries, out)
    }
}

/// Writes the refused rows, which end what is printed.
fn print_rows<W: Write>(refused: &[Refused], out: &mut W) -> io::Result<()>
    ensures { OnOk result (Appends (W.contents out.old) (W.contents out.new)
        (rows_text refused.now)) }
{
    report_rows(refused, out)?;
    out.flush()
}

fn print_whole<W: Write>(
    totals: bool,
    entries: &[Entry],
    refused: &[Refused],
    out: &mut W,
) -> io::Result<()>
    ensures { OnOk result (Appends (W.contents out.old) (W.contents out.new)
        (report_of totals entries.now ++ rows_text refused.now)) }
{
    print_report(totals, entries, out)?;
    print_rows(refused, out)
}

/// Writes the report of the entries, or only its totals, and then the refused rows.
pub(crate) fn print_run<W: Write>(
    alloc: Global,
    totals: bool,
    entries: &[Entry],
    refused: &[Refused],
    out: &mut W,
) -> Result<(), Stop>
    ensures written { OnOk result (Appends (W.contents out.old) (W.contents out.new)
        (report_of totals entries.now ++ rows_text refused.now)) }
    ensures fault { IfErr result (λ stop. stop.ending ≡ Ending.OutputFailed) }
{
    match print_whole(totals, entries, refused, out) {
        Ok(()) => Ok(()),
        Err(error) => Err(output_failed(alloc, error)),
    }
}

/// Writes the report of a core's entries, or only its totals, and then the refused rows.
fn print_core<W: Write>(
    totals: bool,
    core: &PoolCore<ReportKeeper>,
    refused: &[Refused],
    out: &mut W,
) -> io::Result<()>
    requires new { core.now.before ≡ [] }
    ensures { OnOk result (Appends (W.contents out.old) (W.contents out.new)
        (report_of totals (reverse core.now.past) ++ rows_text refused.now)) }
{
    core.keeper().report(totals, out)?;
    print_rows(refused, out)
}

/// Makes a core for these rows in the order of the trace. Its keeper has no more than the report needs.
fn new_core(
    alloc: Global,
    run: &RunWords<'_>,
    geometry: Geometry,
    rows: &[Row],
) -> Result<PoolCore<ReportKeeper>, Stop>
    requires runnable { IsRunnable (options_of run.now) }
    ensures made { IfOk result (λ core. (core.parameters ≡ parameters_for Order.Trace
        (options_of run.now) geometry rows.now) × (core.before ≡ []) × (core.past ≡ [])) }
    ensures fault { IfErr result (λ stop.
        stop.ending ≡ Ending.RunRefused Refusal.OutOfMemory) }
{
    let settings = Settings::new(run.k, run.correlated, run.retained).unwrap();
    match PoolCore::new(
        alloc,
        geometry,
        settings,
        run.frames,
        MAX_CLIENTS,
        room_for(Order::Trace, rows.len()),
    ) {
        Ok(core) => Ok(core),
        Err(refusal) => Err(Stop::from(Ending::RunRefused(refusal))),
    }
}

/// Runs the rows over a core and the port, and writes the report and the refused rows. Returns true if no row was
/// refused.
fn drive_rows<P: Port, R: Wait, W: Write>(
    rt: &R,
    alloc: Global,
    core: &mut PoolCore<ReportKeeper>,
    port: &mut P,
    totals: bool,
    rows: &[Row],
    out: &mut W,
) -> Result<bool, Stop>
    requires new { (core.old.before ≡ []) × (core.old.past ≡ []) }
    requires size { (P.geometry_of port.old).size ≡ core.old.parameters.size }
    requires fits { All (RowFits core.old.parameters) rows.now }
    ensures reported { IfOk result (λ ok. Reports P.read_gives P.write_gives totals
        core.old.parameters port.old rows.now ok (W.contents out.old) (W.contents out.new)) }
    ensures fault { IfErr result (Ends NotReported) }
    ensures kept { IfErr result (λ stop. stop.ending ≢ Ending.OutputFailed
        → out.new ≡ out.old) }
{
    let refused = match drive_all(rt, alloc, core, port, rows) {
        Ok(refused) => refused,
        Err(refusal) => return Err(Stop::from(Ending::RunRefused(refusal))),
    };
    core.keeps_the_rules();
    match print_core(totals, core, &refused, out) {
        Ok(()) => Ok(refused.is_empty()),
        Err(error) => Err(output_failed(alloc, error)),
    }
}

/// Runs the rows in the order of the trace over a new core and the port, and writes the report and the refused rows.
/// Returns true if no row was refused.
fn run_rows<P: Port, R: Wait, W: Write>(
    rt: &R,
    alloc: Global,
    run: &RunWords<'_>,
    port: &mut P,
    rows: &[Row],
    out: &mut W,
) -> Result<bool, Stop>
    requires runnable { IsRunnable (options_of run.now) }
    requires fits { All (IsInRange (P.geometry_of port.old)) rows.now }
    ensures reported { IfOk result (λ ok. Reports P.read_gives P.write_gives run.now.totals
        (parameters_for Order.Trace (options_of run.now) (P.geometry_of port.old) rows.now)
        port.old rows.now ok (W.contents out.old) (W.contents out.new)) }
    ensures fault { IfErr result (Ends NotReported) }
    ensures kept { IfErr result (λ stop. stop.ending ≢ Ending.OutputFailed
        → out.new ≡ out.old) }
{
    let mut core = new_core(alloc, run, port.geometry(), rows)?;
    let driven = drive_rows(rt, alloc, &mut core, port, run.totals, rows, out);
    drop(core);
    driven
}

fn rows_from<I: Read>(
    alloc: Global,
    source: &str,
    reader: &mut I,
    geometry: &Geometry,
) -> Result<Vec<Row>, Stop>
    ensures read { IfOk result (λ rows. AreRowsOf geometry.now
        (I.remaining reader.old) rows.items) }
    ensures fits { IfOk result (λ rows. All (IsInRange geometry.now) rows.items) }
    ensures fault { IfErr result (Ends (HasNoRows geometry.now (I.remaining reader.old))) }
{
    let mut noted = Noted::new(reader);
    let mut text = Vec::new(alloc);
    match read_script_into(alloc, &mut noted, geometry, &mut text) {
        Ok(rows) => Ok(rows),
        Err(fault) => {
            let error = noted.error();
            Err(trace_refused(alloc, source, &text, geometry, fault, error))
        }
    }
}

/// Reads the rows of the trace from standard input, or from the file at its path.
fn rows_of<I: Read, R: Files, O: Ports<R>>(
    rt: &R,
    alloc: Global,
    trace: TraceSource<'_>,
    reader: &mut I,
    ports: &mut O,
    geometry: &Geometry,
) -> Result<Vec<Row>, Stop>
    ensures read { IfOk result (λ rows. AreRead O.ways.traces O.T.remaining
        (trace_given trace.entry) geometry.now (I.remaining reader.old) rows.items) }
    ensures fits { IfOk result (λ rows. All (IsInRange geometry.now) rows.items) }
    ensures fault { IfErr result (Ends (NotRead O.ways.traces O.T.remaining
        (trace_given trace.entry) geometry.now (I.remaining reader.old))) }
{
    match trace {
        TraceSource::Stdin => rows_from(alloc, STANDARD_INPUT, reader, geometry),
        TraceSource::Path(path) => {
            let Some(mut file) = ports.trace(rt, path) else {
                return Err(Stop {
                    ending: Ending::TraceNotOpened,
                    reason: ports.reason(),
                });
            };
            rows_from(alloc, path, &mut file, geometry)
        }
    }
}

/// Returns the end of the program for a page file that is not opened.
fn ending_of(fault: OpenFault) -> Ending
    ensures { result ≡ ending_of fault }
{
    match fault {
        OpenFault::Refused(refusal) => Ending::PageFileRefused(refusal),
        // No page is read yet, so none is a wrong page.
        OpenFault::Port(PortFault::Device | PortFault::WrongPage) => Ending::PageFileNotOpened,
        OpenFault::Port(PortFault::Memory) => Ending::PageFileRefused(Refusal::OutOfMemory),
    }
}

fn open_file<R: Files, O: Ports<R>>(rt: &R, ports: &mut O, run: &RunWords<'_>) -> Result<O::F, Stop>
    requires runnable { IsRunnable (options_of run.now) }
    ensures gave { IfOk result (λ file. O.ways.opens run.now.page_file.now run.now.page_size
        run.now.format (Ok file)) }
    ensures named { IfOk result (λ file. IsNamed run.now.page_file.now run.now.page_size
        run.now.format (O.ways.memory file) (O.ways.geometry file) (O.ways.headed file)) }
    ensures fault { IfErr result (Ends (NotOpened O.ways (options_of run.now))) }
{
    match ports.open(rt, run.page_file, run.page_size, run.format) {
        Ok(file) => Ok(file),
        Err(fault) => Err(Stop {
            ending: ending_of(fault),
            reason: ports.reason(),
        }),
    }
}

/// Returns the ports to the page file that a run of these rows needs.
fn connect<R: Files, O: Ports<R>>(
    rt: &R,
    ports: &mut O,
    order: Order,
    file: O::F,
    rows: &[Row],
) -> Result<Vec<O::P>, Stop>
    ensures gave { IfOk result (λ opened. O.ways.connects file (ports_for order rows.now)
        (Ok opened)) }
    ensures count { IfOk result (λ opened. vec_len opened ≡ ports_for order rows.now) }
    ensures alike { IfOk result (λ opened. All (λ p.
        O.P.geometry_of p ≡ O.ways.geometry file) opened.items) }
    ensures fault { IfErr result (Ends (NotConnected O.ways file (ports_for order rows.now))) }
{
    let clients = ports_for(order, rows);
    match ports.connect(rt, file, clients) {
        Ok(opened) => Ok(opened),
        Err(fault) => Err(Stop {
            ending: ending_of(fault),
            reason: ports.reason(),
        }),
    }
}

/// Runs the rows in the order that the words name, and writes the report and the refused rows. Returns true if no row
/// was refused.
fn run_in_order<P: Port + Send, R: Threads + Wait + Sync, W: Write>(
    rt: &R,
    alloc: Global,
    run: &RunWords<'_>,
    ports: Vec<P>,
    geometry: Geometry,
    rows: Vec<Row>,
    out: &mut W,
) -> Result<bool, Stop>
    requires runnable { IsRunnable (options_of run.now) }
    requires ports { vec_len ports ≡ ports_for run.now.order rows.items }
    requires alike { All (λ p. P.geometry_of p ≡ geometry) ports.items }
    requires fits { All (IsInRange geometry) rows.items }
    ensures reported { IfOk result (λ ok. ReportsIn P.read_gives P.write_gives run.now.order
        run.now.totals (parameters_for run.now.order (options_of run.now) geometry rows.items)
        ports.items rows.items ok (W.contents out.old) (W.contents out.new)) }
    ensures fault { IfErr result (Ends NotReported) }
    ensures kept { IfErr result (λ stop. stop.ending ≢ Ending.OutputFailed
        → out.new ≡ out.old) }
{
    let mut ports = ports;
    match run.order {
        Order::Trace => run_rows(rt, alloc, run, &mut ports[0], &rows, out),
        Order::Free => run_free(rt, alloc, run, ports, geometry, rows, out),
    }
}

/// Opens the page file, then reads the trace, opens the page file for further clients, and runs the rows. Returns true
/// if no row was refused.
///
/// The trace is read whole first: where it has no script, nothing is written.
fn run_as_asked<R: Files + Threads + Wait + Sync, I: Read, O: Ports<R>, W: Write>(
    rt: &R,
    alloc: Global,
    run: &RunWords<'_>,
    reader: &mut I,
    ports: &mut O,
    out: &mut W,
) -> Result<bool, Stop>
    requires runnable { IsRunnable (options_of run.now) }
    ensures ran { IfOk result (λ ok. Runs O.ways O.T.remaining O.P.read_gives O.P.write_gives
        (options_of run.now) (I.remaining reader.old) ok (W.contents out.old) (W.contents out.new)) }
    ensures stopped { IfErr result (Ends (StopsRun O.ways O.T.remaining (options_of run.now)
        (I.remaining reader.old))) }
    ensures kept { IfErr result (λ stop. stop.ending ≢ Ending.OutputFailed
        → out.new ≡ out.old) }
{
    let file = open_file(rt, ports, run)?;
    let geometry = ports.geometry(&file);
    let rows = rows_of(rt, alloc, run.trace, reader, ports, &geometry)?;
    let opened = connect(rt, ports, run.order, file, &rows)?;
    run_in_order(rt, alloc, run, opened, geometry, rows, out)
}

/// Decides by the words what is to be done, or how the program ends otherwise.
fn task_of<'a>(alloc: Global, words: &'a [&'a str]) -> Result<Task<'a>, Stop>
    ensures task { IfOk result (λ task. IsDecision (words_or_default (texts words.now)) (Ok task)) }
    ensures fault { IfErr result (λ stop.
        IsDecision (words_or_default (texts words.now)) (Err stop.ending)) }
{
    match decide(alloc, words) {
        Ok(task) => Ok(task),
        Err(ending) => Err(Stop {
            ending,
            reason: Reason::Unsaid,
        }),
    }
}

fn status_of_run(all_accepted: bool) -> u8
    ensures { result ≡ (if all_accepted then 0 else 1) }
{
    if all_accepted { 0 } else { 1 }
}

/// Does what the words of the command line say, and returns the exit status. The words do not have the program's name;
/// no words are those of the default run. They are checked first.
///
/// An `Err` is how the program ends otherwise, by its cause. It is not printed yet, and `out` is unchanged, except
/// where a report, a table or an explanation was begun: then it is `OutputFailed`, or `PictureNotWritten` where the
/// whole table is there. Where somebody watches a migration or a sweep, `err` shows its progress; else `err` is
/// unchanged.
pub fn carry_out<
    R: Files + Clock + Threads + Wait + Sync,
    I: Read,
    O: Ports<R>,
    W: Write,
    E: Write,
>(
    rt: &R,
    alloc: Global,
    words: &[&str],
    reader: &mut I,
    ports: &mut O,
    out: &mut W,
    err: &mut E,
) -> Result<u8, Stop>
    ensures done { IfOk result (λ status. DoesWords O.ways O.T.remaining O.P.read_gives
        O.P.write_gives (words_or_default (texts words.entry.now)) (I.remaining reader.old) status
        (W.contents out.old) (W.contents out.new)) }
    ensures ended { IfErr result (Ends (EndsBy O.ways O.T.remaining
        (words_or_default (texts words.entry.now)) (I.remaining reader.old)
        (W.contents out.old) (W.contents out.new))) }
    ensures out_kept { IfErr result (λ stop. stop.ending ≢ Ending.OutputFailed
        → stop.ending ≢ Ending.PictureNotWritten → out.new ≡ out.old) }
    ensures err_kept { IsShown (O.watched ports.old) (words_or_default (texts words.entry.now))
        ⊎ (err.new ≡ err.old) }
    ensures status { IfOk result (λ status. status < 2) }
{
    match task_of(alloc, words)? {
        Task::Run(run) => {
            let all_accepted = run_as_asked(rt, alloc, &run, reader, ports, out)?;
            Ok(status_of_run(all_accepted))
        }
        Task::Migrate(migration) => {
            migrate(rt, alloc, &migration, ports, err)?;
            Ok(0)
        }
        Task::Sweep(sweep) => {
            sweep_as_asked(rt, alloc, &sweep, reader, ports, out, err)?;
            Ok(0)
        }
        Task::Explain(text) => {
            explain(alloc, text, out)?;
            Ok(0)
        }
    }
}

/// Does what the words of the command line say, prints the end of the program, and returns the exit status. The words
/// do not have the program's name; no words are those of the default run. They are checked first.
///
/// A run opens the page file by `ports`, and then reads the trace: from `reader` where its word is `stdin`, else from
/// what `ports` opens at that path. In the order `trace` it runs the rows one after the other; in the order `free` each
/// client is a thread, which runs its own rows over a port of its own. A sweep reads the references, from `reader` or
/// from what `ports` opens at their path, and writes the table of each pool's replies; then `ports` saves the picture
/// of the table, where one is asked for. A migration writes the page file of version 1 again in version 2, and nothing
/// to `out`. An explanation writes the text of a refusal's number, as one line.
///
/// Status 0: help, the version, an explanation, a table, a migration, or a run without refused rows. Status 1: a run
/// with refused rows. Their report, and then the refused rows, are in `out`; `err` is unchanged, except for the
/// progress of a watched migration or sweep. Status 2: there is no report, no table or no new page file. A line in
/// `err` says what failed, and one after it the reason, where it is known; neither does where the reader of `out` has
/// gone. `out` is unchanged, except where the first line is `output failed`, which comes after whatever was written, or
/// `picture not written`, which comes after the whole table.
pub fn run_with<R: Files + Clock + Threads + Wait + Sync, I: Read, O: Ports<R>, W: Write, E: Write>(
    rt: &R,
    alloc: Global,
    words: &[&str],
    reader: &mut I,
    ports: &mut O,
    out: &mut W,
    err: &mut E,
) -> u8
    ensures reported { ¬ AsksForAnswer (words_or_default (texts words.entry.now)) → result < 2
        → DoesWords O.ways O.T.remaining O.P.read_gives O.P.write_gives
        (words_or_default (texts words.entry.now)) (I.remaining reader.old) result
        (W.contents out.old) (W.contents out.new) }
    ensures status { result ≤ 2 }
    ensures answer { AsksForAnswer (words_or_default (texts words.entry.now)) → result ≢ 1 }
    ensures printed { AsksForAnswer (words_or_default (texts words.entry.now)) → result ≡ 0
        → Prints (W.contents out.old) (W.contents out.new) }
    ensures version { ¬ AsksForHelp (words_or_default (texts words.entry.now))
        → AsksForVersion (words_or_default (texts words.entry.now)) → result ≡ 0
        → Appends (W.contents out.old) (W.contents out.new) (message_of Ending.Version) }
    ensures ended { result ≡ 2 → Ended (EndsBy O.ways O.T.remaining
        (words_or_default (texts words.entry.now)) (I.remaining reader.old)
        (W.contents out.old) (W.contents out.new)) out.old out.new }
    ensures err_kept { result < 2 → IsShown (O.watched ports.old)
        (words_or_default (texts words.entry.now)) ⊎ (err.new ≡ err.old) }
{
    match carry_out(rt, alloc, words, reader, ports, out, err) {
        Ok(status) => status,
        Err(stop) => stop.finish(out, err),
    }
}

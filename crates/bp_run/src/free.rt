//! A run in free order: one thread for each client.
ghost use Rattle.std.specs.Prelude.{◌≡◌, ◌≢◌, All, List, IfErr, IfOk, vec_len};
ghost use Rattle.bp_core.specs.Outcomes.{IsFit};
ghost use Rattle.bp_replay.specs.Scripts.{lists};
ghost use Rattle.bp_replay.specs.ScriptRuns.{IsRun};
ghost use Rattle.bp_core.specs.Agreement.{parameters_with};
ghost use Rattle.bp_trace.specs.InRange.{IsInRange};
ghost use Rattle.bp_cli.specs.Decision.{IsRunnable};
ghost use Rattle.bp_run.specs.Opening.{Ends};
ghost use Rattle.bp_run.specs.Run.{ReportsFree, parameters_for};
ghost use Rattle.bp_run.specs.Scripts.{clients_of, scripts_of};
ghost use Rattle.bp_run.specs.Stops.{NotReported};
ghost use Rattle.bp_cli.specs.Words.{options_of};

use crate::run::{print_run, room_for};
use crate::scripts::{client_count, split};
use bp_cli::{Ending, Order, Reason, RunWords, Stop};
use bp_core::Settings;
use bp_page::Geometry;
use bp_ports::Port;
use bp_replay::{Config, Outcome, run_clients};
use bp_scripts::Row;
use std::alloc::Global;
use std::io::Write;
use std::marker::{Send, Sync};
use std::sync::Wait;
use std::thread::Threads;

fn config_of(run: &RunWords<'_>, geometry: Geometry, rows: &[Row]) -> Config
    requires runnable { IsRunnable (options_of run.now) }
    ensures parameters { parameters_with result (clients_of rows.now) ≡ parameters_for Order.Free
        (options_of run.now) geometry rows.now }
    ensures geometry { result.geometry ≡ geometry }
{
    let settings = Settings::new(run.k, run.correlated, run.retained).unwrap();
    Config {
        geometry,
        settings,
        frames: run.frames,
        room: room_for(Order::Free, rows.len()),
    }
}

/// Runs the rows with one thread for each client. Each thread runs the rows of its client over a port of its own.
fn run_threads<P: Port + Send, R: Threads + Wait + Sync>(
    rt: &R,
    alloc: Global,
    config: Config,
    ports: Vec<P>,
    rows: Vec<Row>,
) -> Result<Outcome, Stop>
    requires ports { vec_len ports ≡ clients_of rows.items }
    requires alike { All (λ p. P.geometry_of p ≡ config.geometry) ports.items }
    requires fits { All (IsInRange config.geometry) rows.items }
    requires fit { IsFit (parameters_with config (clients_of rows.items)) }
    ensures run { IfOk result (λ run. (after : List P) × IsRun P.read_gives P.write_gives
        (parameters_with config (clients_of rows.items)) (scripts_of rows.items) ports.items
        run.trail.items (lists run.said.items) run.refused.items after) }
    ensures fault { IfErr result (Ends NotReported) }
{
    let clients = client_count(&rows);
    let scripts = match split(alloc, rows, clients) {
        Ok(scripts) => scripts,
        Err(refusal) => return Err(Stop::from(Ending::RunRefused(refusal))),
    };
    match run_clients(rt, alloc, config, scripts, ports) {
        Ok(ran) => {
            let (outcome, _) = ran;
            Ok(outcome)
        }
        Err(refusal) => Err(Stop {
            ending: Ending::RunRefused(refusal),
            reason: Reason::Unsaid,
        }),
    }
}

/// Runs the rows with one thread for each client, and writes the report and the refused rows. Returns true if no row
/// was refused.
pub(crate) fn run_free<P: Port + Send, R: Threads + Wait + Sync, W: Write>(
    rt: &R,
    alloc: Global,
    run: &RunWords<'_>,
    ports: Vec<P>,
    geometry: Geometry,
    rows: Vec<Row>,
    out: &mut W,
) -> Result<bool, Stop>
    requires runnable { IsRunnable (options_of run.now) }
    requires ports { vec_len ports ≡ clients_of rows.items }
    requires alike { All (λ p. P.geometry_of p ≡ geometry) ports.items }
    requires fits { All (IsInRange geometry) rows.items }
    ensures reported { IfOk result (λ all_accepted. ReportsFree P.read_gives P.write_gives
        run.now.totals (parameters_for Order.Free (options_of run.now) geometry rows.items)
        ports.items (scripts_of rows.items) all_accepted
        (W.contents out.old) (W.contents out.new)) }
    ensures fault { IfErr result (Ends NotReported) }
    ensures kept { IfErr result (λ stop. stop.ending ≢ Ending.OutputFailed
        → out.new ≡ out.old) }
{
    let config = config_of(run, geometry, &rows);
    let outcome = run_threads(rt, alloc, config, ports, rows)?;
    print_run(alloc, run.totals, &outcome.trail, &outcome.refused, out)?;
    Ok(outcome.refused.is_empty())
}

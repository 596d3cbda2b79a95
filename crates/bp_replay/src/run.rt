//! `run_clients`: runs a thread for each client, and joins what they left.
ghost use Rattle.std.specs.Prelude.{◌≡◌, ◌≤◌, ◌<◌, IfErr, IfOk, OnErr, OnOk, All, [], map};
ghost use Rattle.std.specs.Prelude.{reverse, vec_len};
ghost use Rattle.bp_page.specs.declared.refusals.Refusal.TheVariants as Refusal;
ghost use Rattle.bp_core.specs.Agreement.{parameters_with};
ghost use Rattle.bp_core.specs.Outcomes.{IsFit};
ghost use Rattle.bp_replay.specs.Scripts.{EachCanPlay, EachScriptFits, lists};
ghost use Rattle.bp_replay.specs.Players.{left_value, new_players};
ghost use Rattle.bp_replay.specs.ScriptRuns.{RunAnswers, Joined, IsRun};

use crate::collecting::collect;
use crate::player::ScriptPlayer;
use bp_core::config::CoreConfig;
use bp_core::{Config, Entry, Keeper, RecordingKeeper};
use bp_page::{Geometry, Refusal};
use bp_ports::Port;
use bp_scripts::{Refused, Row};
use bp_workers::{Run, run_workers};
use std::alloc::Global;
use std::marker::{Send, Sync};
use std::sync::Wait;
use std::thread::Threads;

/// The trail of a run, the clients' own lists and the refused rows.
#[derive(Drop)]
pub struct Outcome {
    /// All entries, in order.
    pub trail: Vec<Entry>,
    /// Each client's own list, in order.
    pub said: Vec<Vec<Entry>>,
    /// The rows that were refused, in the order of their numbers.
    pub refused: Vec<Refused>,
}

/// `BadSettings` where no core can be made of this configuration for so many clients.
fn check_fit(config: &Config, clients: usize) -> Result<(), Refusal>
    requires few { clients ≤ 64 }
    ensures fit { OnOk result (IsFit (parameters_with config.now clients)) }
    ensures unfit { IfErr result (λ why. (why ≡ Refusal.BadSettings)
        × ¬ IsFit (parameters_with config.now clients)) }
{
    CoreConfig::new(
        config.geometry,
        config.settings,
        config.frames,
        clients as u8,
        config.room,
        RecordingKeeper::MOST_ROOM,
    )?;
    Ok(())
}

fn count_rows(scripts: &[Vec<Row>]) -> usize {
    let mut rows = 0usize;
    for script in scripts {
        rows = rows.saturating_add(script.len());
    }
    rows
}

/// Makes a player for each script, of the client with its number.
fn make_players(
    alloc: Global,
    geometry: Geometry,
    scripts: Vec<Vec<Row>>,
) -> Result<Vec<ScriptPlayer>, Refusal>
    requires few { vec_len scripts ≤ 64 }
    requires fits { EachCanPlay geometry 0 (lists scripts.items) }
    ensures players { IfOk result (λ players.
        players.items ≡ new_players geometry 0 (lists scripts.items)) }
    ensures refused { OnErr result (result ≡ Err Refusal.OutOfMemory) }
{
    let mut players = Vec::new(alloc);
    for script in scripts {
        let player = ScriptPlayer::new(alloc, players.len() as u8, geometry, script)?;
        let Ok(()) = players.push(player) else {
            return Err(Refusal::OutOfMemory);
        };
    }
    Ok(players)
}

/// Makes empty lists for what a run leaves, with room for so many clients and rows: what each client said, the rows
/// refused, and the ports.
fn empty_lists<P: Port>(
    alloc: Global,
    clients: usize,
    rows: usize,
) -> Result<(Vec<Vec<Entry>>, Vec<Refused>, Vec<P>), Refusal>
    ensures empty { IfOk result (λ made. (made.0.items ≡ []) × (made.1.items ≡ []) ×
        (made.2.items ≡ [])) }
    ensures refused { OnErr result (result ≡ Err Refusal.OutOfMemory) }
{
    let said = Vec::with_capacity(alloc, clients)?;
    let refused = Vec::with_capacity(alloc, rows)?;
    let ports = Vec::with_capacity(alloc, clients)?;
    Ok((said, refused, ports))
}

/// Joins what the clients left: each one's list, and the refused rows of all in the order of their numbers; and each
/// client's port.
fn joined<P: Port>(
    run: Run<P, ScriptPlayer>,
    said: Vec<Vec<Entry>>,
    refused: Vec<Refused>,
    ports: Vec<P>,
) -> Result<(Outcome, Vec<P>), Refusal>
    requires uncut { (run.core.before ≡ []) × All (λ one. one.book.before ≡ []) run.left.items }
    requires empty { (said.items ≡ []) × (refused.items ≡ []) × (ports.items ≡ []) }
    ensures own { IfOk result (λ out. reverse out.0.trail.items ≡ run.core.past) }
    ensures room { IfOk result (λ out. vec_len out.0.trail ≤ run.core.parameters.room) }
    ensures joined { IfOk result (λ out. Joined (map left_value run.left.items)
        (lists out.0.said.items) out.0.refused.items out.1.items) }
    ensures refused { OnErr result (result ≡ Err Refusal.OutOfMemory) }
{
    let Run { core, left } = run;
    let mut said = said;
    let mut refused = refused;
    let mut ports = ports;
    // By the core's type its entries are within the room.
    let _ = core.trail();
    match collect(left, &mut said, &mut refused, &mut ports) {
        Ok(()) => {}
        Err(refusal) => {
            drop(core);
            return Err(refusal);
        }
    }
    refused.sort_unstable_by_key(|refused| refused.row);
    let outcome = Outcome {
        trail: core.into_trail(),
        said,
        refused,
    };
    Ok((outcome, ports))
}

/// Runs the clients of one pool, each in a thread of its own: client c runs `scripts[c]` over `ports[c]`, and gives
/// back what it holds at the end. Client 0 has the log: a log row raises the durable mark, once client 0 has looked at the
/// trail, for which it takes the pool's lock.
///
/// It takes 1 to 64 scripts and as many ports, whose pages are those of the configuration. A script has rows of its own
/// client, of pages of the file and of bytes within a page, and log rows stand in script 0 alone.
///
/// At `Ok` the trail is one legal history of at most `config.room` entries, by the rules of the pool; each client's
/// list is the trail's entries of that client and follows its script; no mark is ahead of the log rows of client 0; and
/// each port, which comes back, did the work that its client's list tells and nothing else. `BadSettings` where the
/// frames are not 1 to 65,536 or the room not 1 to 16,777,216, before any thread starts. `OutOfMemory` where memory is
/// refused outside a row. No other refusal comes: nothing is looked at when the threads have ended. Threads have ended at
/// every return.
pub fn run_clients<P: Port + Send, R: Threads + Wait + Sync>(
    rt: &R,
    alloc: Global,
    config: Config,
    scripts: Vec<Vec<Row>>,
    ports: Vec<P>,
) -> Result<(Outcome, Vec<P>), Refusal>
    requires clients { (0 < vec_len scripts) × (vec_len scripts ≤ 64) }
    requires ports { vec_len ports ≡ vec_len scripts }
    requires geometry { All (λ p. P.geometry_of p ≡ config.geometry) ports.items }
    requires fits { EachScriptFits (parameters_with config (vec_len scripts))
        (lists scripts.items) }
    ensures run { IfOk result (λ run. IsRun P.read_gives P.write_gives
        (parameters_with config (vec_len scripts)) (lists scripts.items) ports.items
        run.0.trail.items (lists run.0.said.items) run.0.refused.items run.1.items) }
    ensures room { IfOk result (λ run. vec_len run.0.trail ≤ config.room) }
    ensures answers { RunAnswers (parameters_with config (vec_len scripts)) result }
{
    let clients = scripts.len();
    check_fit(&config, clients)?;
    // The memory for what the clients leave is taken before any thread starts.
    let (said, refused, left_ports) = empty_lists(alloc, clients, count_rows(&scripts))?;
    let players = make_players(alloc, config.geometry, scripts)?;
    let run = run_workers(rt, alloc, config, ports, players)?;
    joined(run, said, refused, left_ports)
}

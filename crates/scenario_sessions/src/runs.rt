//! `play_run`, which plays the lines of a pool that client threads use.
ghost use Rattle.std.specs.Prelude.{◌≡◌, All, IfOk};
ghost use Rattle.bp_page.specs.declared.limits.Geometry.{Geometry as AGeometry};

use crate::answers::Answers;
use crate::making::{new_port, new_ports};
use crate::ran::Ran;
use crate::scripts::{Asked, Script, script_of};
use bp_check::Setup;
use bp_core::Settings;
use bp_device::{MemDevice, MemPort, Port};
use bp_page::{Geometry, Refusal};
use bp_replay::{Config, Outcome, run_clients, scripts_fit};
use bp_scripts::Row;
use scenario_cores::{Device, new_device};
use scenario_words::Shape;
use std::alloc::Global;
use std::marker::{Send, Sync};
use std::sync::Wait;
use std::thread::Threads;
use test_ports::{FusePort, GatePort};

#[derive(Drop)]
struct Run {
    device: Device,
    asked: Vec<Option<Asked>>,
    outcome: Outcome,
}

/// Makes a port for each client. One call of client 0's port may fail.
fn fuses(
    alloc: Global,
    device: &MemDevice,
    shape: &Shape,
) -> Result<Vec<FusePort<MemPort>>, Refusal>
    ensures { IfOk result (λ ports. All (λ p. p.inner.device ≡ device.now) ports.items) }
{
    let mut ports = Vec::new(alloc);
    for client in 0..shape.clients {
        let n = if client == 0 { shape.fuse } else { 0 };
        let port = new_port(alloc, device, n, shape.spoils)?;
        let Ok(()) = ports.push(port) else {
            return Err(Refusal::OutOfMemory);
        };
    }
    Ok(ports)
}

/// Makes two ports of which each waits for a call of the other. One call of the first may fail.
fn gates(
    alloc: Global,
    device: &MemDevice,
    shape: &Shape,
) -> Result<Vec<GatePort<FusePort<MemPort>>>, Refusal>
    ensures { IfOk result (λ ports. All (λ p. p.inner.inner.device ≡ device.now) ports.items) }
{
    let (first, second) = new_ports(alloc, device, shape)?;
    let (first, second) = GatePort::pair(alloc, first, second, shape.turns)?;
    let mut ports = Vec::with_capacity(alloc, 2)?;
    ports.push_reserved(first);
    ports.push_reserved(second);
    Ok(ports)
}

/// Runs these scripts. It is `BadSettings` where they do not meet what a run requires.
fn run_over<P: Port + Send, R: Threads + Wait + Sync>(
    rt: &R,
    alloc: Global,
    config: Config,
    scripts: Vec<Vec<Row>>,
    ports: Vec<P>,
) -> Result<Outcome, Refusal>
    requires geometry { All (λ p. P.geometry_of p ≡ config.geometry) ports.items }
{
    if ports.len() == scripts.len() && scripts_fit(&config, &scripts) {
        let (outcome, _) = run_clients(rt, alloc, config, scripts, ports)?;
        Ok(outcome)
    } else {
        Err(Refusal::BadSettings)
    }
}

/// Runs the scripts over ports to this device.
fn run_on<R: Threads + Wait + Sync>(
    rt: &R,
    alloc: Global,
    config: Config,
    device: &MemDevice,
    shape: &Shape,
    scripts: Vec<Vec<Row>>,
) -> Result<Outcome, Refusal>
    requires { device.now ≡ config.geometry }
{
    if shape.turns > 0 {
        return match gates(alloc, device, shape) {
            Ok(ports) => run_over(rt, alloc, config, scripts, ports),
            Err(refusal) => Err(refusal),
        };
    }
    match fuses(alloc, device, shape) {
        Ok(ports) => run_over(rt, alloc, config, scripts, ports),
        Err(refusal) => Err(refusal),
    }
}

fn config_of(shape: &Shape) -> Result<Config, Refusal> {
    Ok(Config {
        geometry: Geometry::new(shape.pages, shape.size)?,
        settings: Settings::new(shape.k, shape.correlated, shape.retained)?,
        frames: shape.frames,
        room: shape.room,
    })
}

fn try_run<R: Threads + Wait + Sync>(
    rt: &R,
    alloc: Global,
    config: Config,
    shape: &Shape,
    lines: &[String],
) -> Result<Run, Refusal> {
    let Some(script) = script_of(alloc, &config.geometry, shape.clients, lines) else {
        return Err(Refusal::OutOfMemory);
    };
    let Script { asked, by_client } = script;
    let device = new_device(alloc, config.geometry, 0, false)?;
    match run_on(rt, alloc, config, &device.memory, shape, by_client) {
        Ok(outcome) => Ok(Run {
            device,
            asked,
            outcome,
        }),
        Err(refusal) => Err(refusal),
    }
}

/// Returns true if one row was refused memory, or its port had none for the image of a read: a port of this shape fails
/// for no other reason. At most one request is refused, so a run with two such rows is not made again, and is reported.
fn lacks_memory(run: &Run, shape: &Shape) -> bool {
    let is_sound = shape.fuse == 0 && shape.turns == 0;
    let mut lacking = 0u64;
    for refused in &run.outcome.refused {
        if refused.number == 22 || (is_sound && refused.number == 17) {
            lacking = lacking.saturating_add(1);
        }
    }
    lacking == 1
}

fn is_to_be_made_again(run: &Result<Run, Refusal>, shape: &Shape) -> bool {
    match run {
        Ok(run) => lacks_memory(run, shape),
        Err(refusal) => matches!(refusal, Refusal::OutOfMemory),
    }
}

/// Makes a run, and makes it again where memory was refused.
fn run_again<R: Threads + Wait + Sync>(
    rt: &R,
    alloc: Global,
    config: Config,
    shape: &Shape,
    lines: &[String],
    answers: &mut Answers,
) -> Result<Run, Refusal> {
    let run = try_run(rt, alloc, config, shape, lines);
    if !is_to_be_made_again(&run, shape) {
        return run;
    }
    drop(run);
    answers.count();
    try_run(rt, alloc, config, shape, lines)
}

fn left_by(alloc: Global, config: &Config, clients: u8, run: Run, answers: &mut Answers) -> Ran {
    let Run {
        device,
        asked,
        outcome,
    } = run;
    answers.tell(alloc, &asked, &outcome);
    let setup = Setup {
        geometry: config.geometry,
        settings: config.settings,
        frames: config.frames,
        clients,
    };
    Ran::new(alloc, device, setup, outcome)
}

/// Runs client threads over a pool of this shape, by the lines after the one that makes it; the last of them ends it.
/// Each other line is a row of a trace. A run that was refused memory is made again; where it is refused, no line was
/// called.
pub fn play_run<R: Threads + Wait + Sync>(
    rt: &R,
    alloc: Global,
    shape: &Shape,
    lines: &[String],
    answers: &mut Answers,
) -> Option<Ran> {
    let rows = match lines.split_last() {
        Some((_, rows)) => rows,
        None => lines,
    };
    let ran = match config_of(shape) {
        Ok(config) => match run_again(rt, alloc, config, shape, rows, answers) {
            Ok(run) => Ok(left_by(alloc, &config, shape.clients, run, answers)),
            Err(refusal) => Err(refusal),
        },
        Err(refusal) => Err(refusal),
    };
    match ran {
        Ok(ran) => Some(ran),
        Err(refusal) => {
            answers.refuse(refusal, lines.len().saturating_add(1));
            None
        }
    }
}

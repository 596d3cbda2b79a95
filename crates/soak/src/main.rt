//! Runs 64 client threads over a recording pool of 16 frames, whose ports fail now and then. One of them cuts the trail
//! and has each piece judged as it comes. The argument is the number of seconds; without it the run takes four, and
//! prints the same each time.
//!
//! It fails if an entry is not lawful, if a refusal has no cause, if a list has other entries than its client's, or if
//! the memory grew.
#![tactic(auto)]

ghost use Rattle.std.specs.Prelude.{◌≡◌};

mod answers;
mod client;
mod findings;
mod flaky_port;
mod judging;
mod memory;

use crate::answers::Answers;
use crate::client::{Deeds, Meeting, Own, Shared, Using};
use crate::findings::{Finding, ensure};
use crate::flaky_port::FlakyPort;
use crate::judging::{Heard, Judging};
use crate::memory::Memory;
use bp_check::Setup;
use hojzmated::{
    Config, Geometry, Left, MemDevice, MemPort, PoolName, Port, RecordingKeeper, Run, Settings,
    SharedPool, Upkeep, Worker, run_workers,
};
use std::alloc::Global;
use std::env;
use std::fs::File;
use std::marker::Send;
use std::rt::{Files, Runtime};
use std::sync::atomic::Ordering;
use std::sync::{Arc, Wait};
use std::thread::Threads;
use std::time::Clock;

const CLIENTS: u8 = 64;

const FRAMES: usize = 16;

const PAGES: u64 = 96;

const ROOM: usize = 4096;

/// The seconds of a run, where no argument says them.
const SECONDS: u64 = 10;

/// What a client does.
#[derive(Drop)]
enum Role<C: Clock + Drop> {
    Judges(Judging<C>),
    Uses(Using),
}

#[derive(Drop)]
struct Soaker<C: Clock + Drop> {
    alloc: Global,
    role: Role<C>,
}

impl<P: Port, C: Clock + Drop> Worker<P, RecordingKeeper> for Soaker<C> {
    fn work<N: PoolName, R: Wait>(&mut self, rt: &R, pool: &SharedPool<N>, own: &mut Own<N, P>) {
        if let Role::Uses(using) = &mut self.role {
            using.run(rt, self.alloc, pool, own);
        }
    }

    fn lead<N: PoolName, R: Wait>(
        &mut self,
        rt: &R,
        pool: &SharedPool<N>,
        own: &mut Own<N, P>,
        upkeep: &mut Upkeep<N>,
    ) {
        if let Role::Judges(judging) = &mut self.role {
            judging.run(rt, self.alloc, pool, own, upkeep);
        }
    }
}

type Flaky = FlakyPort<MemPort>;

/// Makes a port for each client. Client 0's never fails.
fn make_ports(alloc: Global, geometry: Geometry) -> Result<Vec<Flaky>, anyhow::Error> {
    let device = MemDevice::new(alloc, geometry)?;
    let mut ports = Vec::new(alloc);
    for client in 0..CLIENTS {
        let n = if client == 0 {
            0
        } else {
            20 + u64::from(client)
        };
        ports.push(FlakyPort::new(device.port()?, n))?;
    }
    Ok(ports)
}

/// Makes the judge of client 0.
fn make_judging<R: Runtime<A = Global> + Clock + Files<File = File>>(
    rt: &R,
    config: &Config,
    shared: &Meeting,
    seconds: u64,
) -> Result<Judging<R>, anyhow::Error> {
    Ok(Judging {
        shared: Arc::try_clone(shared)?,
        deeds: Deeds::none(),
        setup: Setup {
            geometry: config.geometry,
            settings: config.settings,
            frames: config.frames,
            clients: CLIENTS,
        },
        clock: rt.clone()?,
        seconds,
        others: u64::from(CLIENTS) - 1,
        memory: Memory::open(rt)?,
        heard: Heard::nothing(),
    })
}

/// Makes a worker for each client.
fn make_workers<R: Runtime<A = Global> + Clock + Files<File = File>>(
    rt: &R,
    config: &Config,
    seconds: u64,
) -> Result<Vec<Soaker<R>>, anyhow::Error> {
    let alloc = rt.alloc();
    let shared = Arc::new(alloc, Shared::new())?;
    let mut workers = Vec::new(alloc);
    let role = Role::Judges(make_judging(rt, config, &shared, seconds)?);
    workers.push(Soaker { alloc, role })?;
    for client in 1..CLIENTS {
        let using = Using {
            shared: Arc::try_clone(&shared)?,
            deeds: Deeds::none(),
            random: u64::from(client),
        };
        let role = Role::Uses(using);
        workers.push(Soaker { alloc, role })?;
    }
    Ok(workers)
}

/// What all clients did together.
#[derive(Drop)]
struct Sum {
    answers: Answers,
    listed: u64,
    fixes: u64,
}

/// Adds what a client did. It fails if a refusal had no cause, or a pass did not go back.
fn add<C: Clock + Drop>(
    sum: &mut Sum,
    left: &Left<Flaky, Soaker<C>, RecordingKeeper>,
) -> Result<(), anyhow::Error> {
    let deeds = match &left.worker.role {
        Role::Judges(judging) => &judging.deeds,
        Role::Uses(using) => &using.deeds,
    };
    if let Some(refusal) = deeds.stray {
        return Err(refusal.into());
    }
    ensure(
        deeds.answers.failed == left.port.failures(),
        Finding::NoFailure,
    )?;
    ensure(left.all_went_back && left.held == 0, Finding::Held)?;
    sum.answers.add(&deeds.answers);
    sum.fixes = sum.fixes.saturating_add(deeds.fixes);
    let listed = (left.said().len() as u64).saturating_add(deeds.listed);
    sum.listed = sum.listed.saturating_add(listed);
    Ok(())
}

/// Looks at what the judge was told, beside what all clients did.
fn look<C: Clock + Drop>(judging: &Judging<C>, sum: &Sum, full: u64) -> Result<(), anyhow::Error> {
    let heard = &judging.heard;
    if let Some(finding) = heard.finding {
        return Err(finding.into());
    }
    ensure(heard.answers == sum.answers, Finding::NotInTrail)?;
    ensure(heard.entries == sum.listed, Finding::NotInLists)?;
    // Each client may hold a pass and a ticket, which have their places in the room.
    let most = (ROOM as u64).saturating_sub(4 * u64::from(CLIENTS));
    ensure(full == 0 || heard.fullest >= most, Finding::NotFull)?;
    let _ = judging.memory.is_flat();
    Ok(())
}

/// Looks at the run, and tells of it.
fn tell<C: Clock + Drop>(
    rt: &impl Print,
    run: &Run<Flaky, Soaker<C>>,
    is_counted: bool,
) -> Result<(), anyhow::Error> {
    let mut sum = Sum {
        answers: Answers::none(),
        listed: 0,
        fixes: 0,
    };
    for left in &run.left {
        add(&mut sum, left)?;
    }
    ensure(run.core.trail().is_empty(), Finding::Unjudged)?;
    let Some(first) = run.left.first() else {
        return Err(Finding::Unjudged.into());
    };
    let Role::Judges(judging) = &first.worker.role else {
        return Err(Finding::Unjudged.into());
    };
    let full = judging.shared.full.load(Ordering::SeqCst);
    look(judging, &sum, full)?;
    println!(rt;
        "64 clients over 16 frames: each entry is lawful, each refusal has its cause, memory is flat"
    )?;
    if is_counted {
        let (heard, memory) = (&judging.heard, &judging.memory);
        println!(rt;
            "{} entries in {} pieces; {} fixes",
            heard.entries, heard.pieces, sum.fixes
        )?;
        println!(rt; "refused: {:?}; the trail full: {full}", sum.answers)?;
        println!(rt;
            "blocks of 4 KiB: {} at first, {} later",
            memory.first, memory.later
        )?;
    }
    Ok(())
}

fn main(rt: HostRuntime) -> Result<(), anyhow::Error> {
    let (rt, alloc) = (&rt, rt.alloc());
    let word = env::args(rt)?.skip(1).next();
    let seconds = match &word {
        Some(word) => word.parse::<u64>()?,
        None => SECONDS,
    };
    let geometry = Geometry::new(PAGES, 64)?;
    let config = Config::new(geometry)
        .with_frames(FRAMES)
        .with_settings(Settings::new(2, 1, 1000)?)
        .with_room(ROOM);
    let ports = make_ports(alloc, geometry)?;
    let workers = make_workers(rt, &config, seconds)?;
    let run = run_workers(rt, alloc, config, ports, workers)?;
    // A run is dropped by a call: to drop it at each exit takes longer to prove.
    let told = tell(rt, &run, word.is_some());
    drop(run);
    told
}

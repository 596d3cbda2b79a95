//! Times client threads over a silent pool in parts: the same uses as over one shared pool, with as many frames in all.
ghost use Rattle.std.specs.Prelude.{◌≡◌, ◌<◌};

use crate::threads::{
    CALLS_A_PART, Caller, FIXES_A_TICK, FRAMES, ROWS, SIZE, THREADS, Use, Work, callers,
};
use anyhow::Context;
use bp_core::{MAX_PERIOD, PassNote, Settings};
use bp_keeper::SilentKeeper;
use bp_page::{Format, Lsn};
use bp_part_workers::{PartedClient, PartedLeft, PartedWorker, SharedLog, run_parted};
use bp_parts::{PartCount, PartedPool};
use bp_ports::{Port, StripedPort};
use bp_shared::PartNames;
use bp_workers::Config;
use std::alloc::Global;
use std::fs::File;
use std::marker::{Send, Sync};
use std::rt::{Files, Runtime};
use std::sync::{Mutex, Wait};
use std::thread;
use std::thread::Threads;
use std::time::{Clock, Duration};

type Own<N> = PartedClient<N, File, SilentKeeper>;

/// The clock of a part moves on once in so many fixes of the part: in 16, and in 8 above 32 parts, where a period of an
/// eighth of the frames is 8 fixes.
fn fixes_a_tick(parts: u8) -> u64
    ensures some { 0 < result }
{
    if parts > 32 {
        FIXES_A_TICK / 2
    } else {
        FIXES_A_TICK
    }
}

impl<C: Clock + Drop> Caller<C> {
    /// Uses a page. It is counted if nothing was refused.
    fn parted_call<N: PartNames + PartCount, R: Wait>(
        &mut self,
        rt: &R,
        pool: &PartedPool<N, SilentKeeper>,
        own: &mut Own<N>,
    )
        ensures client { own.new.session.client ≡ own.old.session.client }
    {
        let Some(page) = own.page(self.draw()) else {
            return;
        };
        let mut bytes = [0; 16];
        if let Use::Read = self.what() {
            let (session, port) = (&mut own.session, &mut own.port);
            if pool
                .read_page_into(rt, session, port, page, 0, &mut bytes)
                .is_ok()
            {
                self.count();
            }
            return;
        }
        let Ok(pass) = pool.fix(rt, &mut own.session, &mut own.port, page) else {
            return;
        };
        let used = match self.what() {
            Use::Nothing | Use::Read => Ok(()),
            Use::Look => pool.read_into(rt, &mut own.session, &pass, 0, &mut bytes),
            Use::Update => {
                let bytes = self.drawn().to_le_bytes();
                pool.write_from(rt, &mut own.session, &pass, 0, &bytes, Lsn::new(0))
            }
        };
        if let Err((pass, _)) = pool.unfix_draining(rt, &mut own.session, pass) {
            let _: PassNote = pass.into_pass().1.note();
        }
        if used.is_ok() {
            self.count();
        }
    }

    /// Makes the calls of a part of the work. The clocks of the pool's parts move on in turn.
    fn parted_part<N: PartNames + PartCount, R: Wait>(
        &mut self,
        rt: &R,
        pool: &PartedPool<N, SilentKeeper>,
        own: &mut Own<N>,
    )
        ensures client { own.new.session.client ≡ own.old.session.client }
    {
        let fixes = fixes_a_tick(pool.count());
        'calls: for call in 0..CALLS_A_PART {
            if call % fixes == 0 {
                let part = (call / fixes) % u64::from(pool.count());
                let _ = pool.tick(rt, &mut own.session, part as u8, 1);
            }
            self.parted_call(rt, pool, own);
        }
    }
}

impl<C: Clock + Drop> PartedWorker<File, SilentKeeper, ()> for Caller<C> {
    fn work<N: PartNames + PartCount, R: Wait>(
        &mut self,
        rt: &R,
        pool: &PartedPool<N, SilentKeeper>,
        own: &mut Own<N>,
        _log: &Mutex<SharedLog<N>>,
    ) {
        'first_parts: for _ in 0..self.parts_before() {
            self.parted_part(rt, pool, own);
        }
        self.settle();
        'settles: for _ in rt.forever() {
            if self.have_settled() {
                break;
            }
            thread::yield_now();
        }
        self.begin();
        'parts: for _ in 0..self.parts() {
            self.parted_part(rt, pool, own);
        }
        self.end();
    }
}

/// Runs callers over a new pool of so many parts, one for each port. Returns the calls that were not refused, and the
/// time from the first begin to the last end.
fn run<R: Runtime<A = Global> + Clock + Threads + Wait + Send + Sync>(
    rt: &R,
    ports: Vec<StripedPort>,
    parts: u8,
    work: Work,
) -> Result<(u64, Duration), anyhow::Error> {
    let (_, _, period, _) = work;
    let stripe = ports.first().context("no port")?.geometry();
    let count = u64::from(parts).max(1);
    let period = period.saturating_mul(FIXES_A_TICK) / fixes_a_tick(parts);
    let config = Config::new(stripe)
        .with_frames(FRAMES / count as usize)
        .with_settings(Settings::new(2, period / count, MAX_PERIOD)?);
    let callers = callers(rt, ports.len() as u64, work)?;
    let run = run_parted::<SilentKeeper, File, (), Caller<R>, R>(
        rt,
        rt.alloc(),
        config,
        parts,
        ports,
        callers,
        (),
    )?;
    let told = sum(&run.left);
    drop(run);
    told.context("no thread ran")
}

/// Returns the sum of what was done, and the time from the first begin to the last end.
fn sum<C: Clock + Drop>(left: &[PartedLeft<Caller<C>>]) -> Option<(u64, Duration)> {
    let (mut began, mut ended, mut done) = (
        left.first()?.worker.began,
        left.first()?.worker.ended,
        0u64,
    );
    for one in left {
        began = began.min(one.worker.began);
        ended = ended.max(one.worker.ended);
        done = done.wrapping_add(one.worker.done);
    }
    Some((done, ended.saturating_sub(began)))
}

/// Opens a port to the stripes of the page file for each thread.
fn striped_ports(
    rt: &(impl Runtime<A = Global> + Files<File = File>),
    path: &str,
    threads: u64,
    parts: u8,
) -> Result<Vec<StripedPort>, anyhow::Error> {
    let count = u64::from(parts).clamp(1, 64);
    let mut ports = Vec::new(rt.alloc());
    for _ in 0..threads {
        ports.push(StripedPort::open(rt, rt.alloc(), path, SIZE, Format::Plain, count)?)?;
    }
    Ok(ports)
}

/// Times 1, 2 and 4 threads over a page file and a pool of so many parts, at each row.
pub(crate) fn time_parts(
    rt: &(impl Runtime<A = Global> + Clock + Files<File = File> + Threads + Wait + Send + Sync),
    path: &str,
    parts: u8,
) -> Result<(), anyhow::Error> {
    for threads in THREADS {
        for work in ROWS {
            let (_, pages, period, timed) = work;
            let ports = striped_ports(rt, path, threads, parts)?;
            let (done, spent) = run(rt, ports, parts, work)?;
            let all = threads * timed * CALLS_A_PART;
            let rate = done as u128 * 1000000000 / spent.as_nanos().max(1);
            println!(rt;
                "{threads} threads, {pages} pages, period {period}: {rate} a second; {done} of {all} were not refused"
            )?;
        }
    }
    Ok(())
}

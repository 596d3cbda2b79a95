//! Durable fixes, which wait for the log or for a victim.
ghost use Rattle.std.specs.Prelude.{◌≡◌, ◌<◌};
ghost use Rattle.bp_workers.specs.Logs.{RaisesWithin};

use crate::making::{config, expect_lawful, ports};
use bp_core::{Call, Entry, Pass, RecordingKeeper};
use bp_device::{MemPort, Port};
use bp_page::{Lsn, PageNo, Refusal};
use bp_shared::{PoolName, SharedPool};
use bp_trail::Totals;
use bp_workers::{
    Client, Leading, Left, Log, LogWriter, Patience, Upkeep, Worker, fix_durably, run_workers,
};
use std::alloc::Global;
use std::process::Abort;
use std::rt::HostRuntime;
use std::sync::Wait;
use std::thread::Threads;
use std::time::Duration;
use test_support::pools::{fix, unfix_draining, write};

/// A log that notes what it was asked for. It may be one that can't be made durable.
#[derive(Drop)]
struct Notes {
    asked: u64,
    times: u64,
    durable: u64,
    is_broken: bool,
}

impl Log for Notes {
    ghost durable_to = { λ n. n.durable };

    fn make_durable<R: Wait>(&mut self, _rt: &R, lsn: Lsn) -> bool {
        self.asked = lsn.number();
        self.times = self.times.saturating_add(1);
        if !self.is_broken && self.durable < lsn.number() {
            self.durable = lsn.number();
        }
        lsn.number() <= self.durable
    }
}

/// Fixes a page durably by this log and this mark. The mark is raised at most to where the log is durable.
fn fix_by<N: PoolName, P: Port, R: Wait>(
    rt: &R,
    pool: &SharedPool<N>,
    client: &mut Client<N, P>,
    log: &mut Notes,
    writer: &mut LogWriter<N>,
    page: PageNo,
    patience: Patience,
) -> Result<Pass, Refusal>
    requires { page < N.parameters.pages }
    ensures client { client.new.session.client ≡ client.old.session.client }
    ensures raises { RaisesWithin log.old.durable writer.old log.new.durable writer.new }
{
    let mut both = Leading::new(log, writer);
    fix_durably(rt, pool, client, &mut both, page, patience)
}

/// Writes to page 0 under log record 5, and then fixes page 1 durably, in a pool of one frame.
#[derive(Drop)]
struct Waiter {
    alloc: Global,
    log: Notes,
    rounds: u32,
    /// The ticks by which a durable fix moves the clock on.
    ticks: u64,
    /// Whether it keeps the pass of page 0.
    holds: bool,
    is_fixed: bool,
    refused: Option<Refusal>,
}

impl Waiter {
    fn new(alloc: Global, rounds: u32, ticks: u64, holds: bool, is_broken: bool) -> Waiter {
        Waiter {
            alloc,
            log: Notes {
                asked: 0,
                times: 0,
                durable: 0,
                is_broken,
            },
            rounds,
            ticks,
            holds,
            is_fixed: false,
            refused: None,
        }
    }

    fn note(&mut self, outcome: Result<(), Refusal>) {
        match outcome {
            Ok(()) => self.is_fixed = true,
            Err(refusal) => self.refused = Some(refusal),
        }
    }
}

/// Writes a byte at offset 0 of page 0 under log record 5, and keeps the pass or gives it back.
pub(crate) fn change<N: PoolName, P: Port, R: Wait>(
    rt: &R,
    alloc: Global,
    pool: &SharedPool<N>,
    client: &mut Client<N, P>,
    keeps: bool,
) -> Result<(), Refusal>
    ensures client { client.new.session.client ≡ client.old.session.client }
{
    let note = fix(rt, pool, client, 0)?;
    let written = write(rt, alloc, pool, client, note, 7, 5);
    if !keeps {
        unfix_draining(rt, pool, client, note)?;
    }
    written
}

impl<P: Port> Worker<P, RecordingKeeper> for Waiter {
    fn work<N: PoolName, R: Wait>(
        &mut self,
        _rt: &R,
        _pool: &SharedPool<N>,
        _client: &mut Client<N, P>,
    ) {}

    fn lead<N: PoolName, R: Wait>(
        &mut self,
        rt: &R,
        pool: &SharedPool<N>,
        client: &mut Client<N, P>,
        upkeep: &mut Upkeep<N>,
    ) {
        if let Err(refusal) = change(rt, self.alloc, pool, client, self.holds) {
            self.refused = Some(refusal);
            return;
        }
        let Some(second) = client.port.geometry().page(1) else {
            return;
        };
        let patience = Patience {
            rounds: self.rounds,
            ticks: self.ticks,
            pause: Duration::from_millis(1),
        };
        let writer = &mut upkeep.log;
        let fixed = match fix_by(rt, pool, client, &mut self.log, writer, second, patience) {
            Ok(pass) => unfix_draining(rt, pool, client, pass.note()),
            Err(refusal) => Err(refusal),
        };
        self.note(fixed);
    }
}

/// Runs one waiter over one frame, and asserts that its trail is legal.
fn run<R: Abort + AllocGlobal + Threads + Wait + Sync>(
    rt: &R,
    waiter: Waiter,
) -> Left<MemPort, Waiter> {
    let mut workers = Vec::new(rt.alloc());
    workers.push(waiter).expect(rt, "a place");
    let run = run_workers(rt, rt.alloc(), config(rt, 1), ports(rt, 1), workers);
    let mut run = run.expect(rt, "the run");
    expect_lawful(rt, &run.core);
    let left = run.left.pop().expect(rt, "what the waiter left");
    drop(run);
    left
}

/// Returns how often the clock was moved.
fn ticks(entries: &[Entry]) -> usize {
    let mut ticks = 0usize;
    for entry in entries {
        if matches!(entry.call, Call::Tick(_)) {
            ticks = ticks.saturating_add(1);
        }
    }
    ticks
}

/// Asserts that the fix was done, and that the log was asked once, for LSN 5.
fn expect_fixed<R: Abort>(rt: &R, waiter: &Waiter) {
    let log = &waiter.log;
    assert_eq!(rt;
        (waiter.is_fixed, log.asked, log.times, log.durable),
        (true, 5, 1, 5)
    );
}

/// Asserts that the fix was refused, and how often the log was asked.
fn expect_refused<R: Abort>(rt: &R, waiter: &Waiter, why: Refusal, times: u64) {
    assert_eq!(rt;
        (waiter.is_fixed, waiter.refused, waiter.log.times),
        (false, Some(why), times)
    );
}

/// Asserts how many calls were refused, and how often the clock was moved.
fn expect_tries<R: Abort>(rt: &R, entries: &[Entry], refused: u64, moved: usize) {
    assert_eq!(rt;
        (Totals::of(entries).refused, ticks(entries)),
        (refused, moved)
    );
}

/// Asserts the list of a fix that waited for the log.
fn expect_entries<R: Abort>(rt: &R, entries: &[Entry]) {
    let wanted = Totals {
        hits: 0,
        faults: 2,
        evictions: 1,
        writes: 1,
        failed: 0,
        refused: 2,
        discards: 0,
    };
    assert_eq!(rt;
        (Totals::of(entries), ticks(entries), entries.len()),
        (wanted, 1, 13)
    );
}

/// The first fix finds no victim, the second needs the log, and the third writes page 0 out and reads page 1.
#[test]
fn log_is_made_durable(rt: HostRuntime) {
    let rt = &rt;
    let left = run(rt, Waiter::new(rt.alloc(), 2, 1, false, false));
    expect_fixed(rt, &left.worker);
    expect_entries(rt, left.said());
}

/// A pinned page never leaves: each attempt is one entry, and the clock is moved once. If the clock can't be moved so
/// far, the fix is refused at once.
#[test]
fn held_page_stays(rt: HostRuntime) {
    let rt = &rt;
    let left = run(rt, Waiter::new(rt.alloc(), 3, 1, true, false));
    expect_refused(rt, &left.worker, Refusal::NoVictim, 0);
    expect_tries(rt, left.said(), 4, 1);
    assert_eq!(rt; left.held, 1);
    drop(left);
    let left = run(rt, Waiter::new(rt.alloc(), 3, 1 << 62, true, false));
    expect_refused(rt, &left.worker, Refusal::ClockFull, 0);
    expect_tries(rt, left.said(), 1, 0);
    drop(left);
}

/// A log that can't be made durable ends the fix at once, however many rounds are allowed.
#[test]
fn broken_log_ends_the_fix(rt: HostRuntime) {
    let rt = &rt;
    let left = run(rt, Waiter::new(rt.alloc(), 1_000_000, 1, false, true));
    expect_refused(rt, &left.worker, Refusal::NeedLog(Lsn::new(5)), 1);
    assert_eq!(rt; left.said().len(), 7);
}

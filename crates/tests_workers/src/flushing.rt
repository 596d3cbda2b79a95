//! Checkpoints by client 0, while the other clients write to their pages under a log.
ghost use Rattle.std.specs.Prelude.{◌≡◌};

use crate::making::{config, expect_lawful, ports};
use bp_core::RecordingKeeper;
use bp_device::{MemPort, Port};
use bp_page::{Lsn, PageNo, Refusal};
use bp_shared::{PoolName, SharedPool};
use bp_trail::Totals;
use bp_workers::{Client, Left, Run, Upkeep, Worker, run_workers};
use std::alloc::Global;
use std::cmp::min;
use std::process::Abort;
use std::rt::HostRuntime;
use std::sync::{Arc, Mutex, Wait};
use std::thread::Parker;
use std::time::Duration;
use test_support::pools::{fix, unfix_draining, write};

/// The number of writes of each other client.
const TURNS: u8 = 100;

/// A log without records. The LSN of a record is its number, from 1.
#[derive(Drop)]
struct Log {
    last: u64,
    /// The number of clients that still write.
    writers: u64,
}

/// Client 0, or a client that writes to a page of its own.
#[derive(Drop)]
struct Hand {
    alloc: Global,
    log: Arc<Mutex<Log>, Global>,
    page: u64,
    outcome: Result<(), Refusal>,
    /// The LSN from which redo would begin, after each checkpoint.
    redo: Vec<Lsn>,
}

impl Hand {
    /// Writes to its page under a new record. The log is locked from the record to the write.
    fn put<N: PoolName, P: Port, R: Wait>(
        &self,
        rt: &R,
        pool: &SharedPool<N>,
        client: &mut Client<N, P>,
        byte: u8,
    ) -> Result<(), Refusal>
        ensures client { client.new.session.client ≡ client.old.session.client }
    {
        let note = fix(rt, pool, client, self.page)?;
        let mut log = self.log.lock(rt);
        log.last = log.last.saturating_add(1);
        let written = write(rt, self.alloc, pool, client, note, byte, log.last);
        drop(log);
        unfix_draining(rt, pool, client, note)?;
        written
    }

    /// Makes a checkpoint, and returns the LSN from which redo would begin.
    fn checkpoint<N: PoolName, P: Port, R: Wait>(
        &self,
        rt: &R,
        pool: &SharedPool<N>,
        client: &mut Client<N, P>,
        upkeep: &mut Upkeep<N>,
    ) -> Result<Lsn, Refusal>
        ensures client { client.new.session.client ≡ client.old.session.client }
    {
        let log = self.log.lock(rt);
        let next = Lsn::new(log.last.saturating_add(1));
        // Here an engine makes the log durable.
        upkeep.log.raise(pool, Lsn::new(log.last));
        drop(log);
        let flushed = pool.flush_all(rt, &mut client.session, &mut client.port);
        flushed.map_err(|stop| stop.why)?;
        let least = pool.redo_from(rt, &mut client.session);
        client.port.sync(rt).map_err(|_| Refusal::WriteFailed)?;
        Ok(least.map_or(next, |least| min(least, next)))
    }
}

impl<P: Port> Worker<P, RecordingKeeper> for Hand {
    fn work<N: PoolName, R: Wait>(
        &mut self,
        rt: &R,
        pool: &SharedPool<N>,
        client: &mut Client<N, P>,
    ) {
        for turn in 1..=TURNS {
            if self.outcome.is_ok() {
                self.outcome = self.put(rt, pool, client, turn);
            }
        }
        let mut log = self.log.lock(rt);
        log.writers = log.writers.saturating_sub(1);
    }

    fn lead<N: PoolName, R: Wait>(
        &mut self,
        rt: &R,
        pool: &SharedPool<N>,
        client: &mut Client<N, P>,
        upkeep: &mut Upkeep<N>,
    ) {
        for _ in rt.forever() {
            let is_last = self.log.lock(rt).writers == 0;
            match self.checkpoint(rt, pool, client, upkeep) {
                Ok(redo) => {
                    if self.redo.push(redo).is_err() {
                        self.outcome = Err(Refusal::OutOfMemory);
                    }
                }
                // A page was written to after the mark was raised. The next mark is beyond that write.
                Err(Refusal::NeedLog(_)) => {}
                Err(refusal) => self.outcome = Err(refusal),
            }
            if is_last {
                return;
            }
            Parker::new().park_timeout(rt, Duration::from_micros(50));
        }
    }
}

/// Makes client 0, and three clients that write, over one log.
fn hands<R: Abort + AllocGlobal>(rt: &R) -> Vec<Hand> {
    let log = Log {
        last: 0,
        writers: 3,
    };
    let log = Arc::new(rt.alloc(), Mutex::new(log)).expect(rt, "the log");
    let mut hands = Vec::new(rt.alloc());
    for page in 0..4u64 {
        let hand = Hand {
            alloc: rt.alloc(),
            log: Arc::try_clone(&log).expect(rt, "the log"),
            page,
            outcome: Ok(()),
            redo: Vec::new(rt.alloc()),
        };
        hands.push(hand).expect(rt, "a place");
    }
    hands
}

/// Asserts that the LSN from which redo would begin never falls, and is beyond the last record in the end.
fn expect_rising<R: Abort>(rt: &R, redo: &[Lsn]) {
    let mut before = Lsn::new(0);
    for redo in redo {
        assert!(rt; before <= *redo);
        before = *redo;
    }
    assert_eq!(rt; before, Lsn::new(3 * u64::from(TURNS) + 1));
}

/// Asserts that the device has the last write of each page.
fn expect_last_writes<R: Abort + Wait>(rt: &R, port: &mut MemPort) {
    for number in 1..4u64 {
        let image = port.read(rt, PageNo::new(number)).expect(rt, "the page");
        assert_eq!(rt; image.bytes().first(), Some(&TURNS));
    }
}

/// Asserts that a run was lawful, that each client did its work, and what client 0 saw of it.
fn expect_run<R: Abort + AllocGlobal + Wait>(rt: &R, run: &mut Run<MemPort, Hand>) {
    expect_lawful(rt, &run.core);
    assert!(rt; Totals::of(run.core.trail()).writes >= 3);
    for left in &run.left {
        assert_eq!(rt; left.worker.outcome, Ok(()));
    }
    let first: &mut Left<MemPort, Hand> = run.left.first_mut().expect(rt, "what client 0 left");
    expect_rising(rt, &first.worker.redo);
    expect_last_writes(rt, &mut first.port);
}

/// The LSN from which redo would begin never falls, and is beyond the last record in the end. The device then has the
/// last write of each page.
#[test]
fn checkpoints_beside_writers(rt: HostRuntime) {
    let rt = &rt;
    let run = run_workers(rt, rt.alloc(), config(rt, 4), ports(rt, 4), hands(rt));
    let mut run = run.expect(rt, "the run");
    expect_run(rt, &mut run);
    drop(run);
}

//! Checkpoints that have seen the write of each record: the log has a receipt, under one lock with it.
ghost use Rattle.std.specs.Prelude.{◌≡◌, IfOk};
ghost use Rattle.bp_trail.specs.Recovery.{redo_point};
ghost use Rattle.tests_workers.specs.Receipts.{HasWrites, RedoMayBegin};

use crate::making::{config, expect_lawful, ports};
use bp_core::{PassNote, RecordingKeeper};
use bp_device::{MemPort, Port};
use bp_page::{Lsn, Refusal};
use bp_shared::{PoolName, SharedPool};
use bp_workers::{
    Client, Run, SharedState, SharingWorker, Upkeep, WithReceipt, run_sharing_workers,
};
use std::process::Abort;
use std::rt::HostRuntime;
use std::sync::{Mutex, Wait};
use std::thread::{Parker, Threads};
use std::time::Duration;
use test_support::pools::{fix, unfix_draining};

/// The number of writes of each other client.
const TURNS: u8 = 50;

/// A log without records. The LSN of a record is its number, from 1.
#[derive(Drop)]
struct Log {
    last: u64,
    /// The number of clients that still write.
    writers: u64,
}

impl SharedState for Log {
    ghost use Rattle.tests_workers.specs.Receipts.{HasWrites};

    // The trail has the write of each record.
    ghost agrees = { λ log seen. HasWrites log.last seen };
}

/// Writes a byte to the page of a pass, under a new record of the log.
fn put<N: PoolName, P: Port, R: Wait>(
    rt: &R,
    pool: &SharedPool<N>,
    client: &mut Client<N, P>,
    log: &mut WithReceipt<N, Log>,
    note: PassNote,
    byte: u8,
) -> Result<(), Refusal>
    ensures client { client.new.session.client ≡ client.old.session.client }
{
    if !client.port.geometry().fits(0, 1) {
        return Err(Refusal::OutOfPage);
    }
    let lsn = log.state.last.saturating_add(1);
    let pass = note.pass();
    let written = pool.write_from(rt, &mut client.session, &pass, 0, &[byte], Lsn::new(lsn));
    pass.note();
    written?;
    pool.show(rt, &mut client.session, &mut log.receipt);
    log.state.last = lsn;
    Ok(())
}

/// Returns the LSN that comes next, or the least of what has not gone out where that is less.
fn lesser(least: Option<Lsn>, next: Lsn) -> Lsn
    ensures { result ≡ redo_point least next }
{
    match least {
        Some(least) if least.number() <= next.number() => least,
        _ => next,
    }
}

/// Makes a checkpoint, and returns the LSN from which redo may begin after a crash at any later time: if each record is
/// of one write, no write below it has yet to go out, or to come.
fn checkpoint<N: PoolName, P: Port, R: Wait>(
    rt: &R,
    pool: &SharedPool<N>,
    client: &mut Client<N, P>,
    upkeep: &mut Upkeep<N>,
    log: &Mutex<WithReceipt<N, Log>>,
) -> Result<Lsn, Refusal>
    ensures client { client.new.session.client ≡ client.old.session.client }
    ensures point { IfOk result (λ redo. RedoMayBegin redo client.new.session.seen) }
{
    let mut log = log.lock(rt);
    pool.show(rt, &mut client.session, &mut log.receipt);
    let last = log.state.last;
    // Here an engine makes the log durable.
    upkeep.log.raise(pool, Lsn::new(last));
    drop(log);
    let next = Lsn::new(last.saturating_add(1));
    let flushed = pool.flush_all(rt, &mut client.session, &mut client.port);
    flushed.map_err(|stop| stop.why)?;
    let least = pool.redo_from(rt, &mut client.session);
    client.port.sync(rt).map_err(|_| Refusal::WriteFailed)?;
    Ok(lesser(least, next))
}

/// Client 0, or a client that writes to a page of its own.
#[derive(Drop)]
struct Hand {
    outcome: Result<(), Refusal>,
    /// The LSN from which redo would begin, after each checkpoint.
    redo: Vec<Lsn>,
}

impl Hand {
    /// Writes to its page under a new record. The log is locked from the record to its write, and to the receipt.
    fn turn<N: PoolName, P: Port, R: Wait>(
        &self,
        rt: &R,
        pool: &SharedPool<N>,
        client: &mut Client<N, P>,
        log: &Mutex<WithReceipt<N, Log>>,
        byte: u8,
    ) -> Result<(), Refusal>
        ensures client { client.new.session.client ≡ client.old.session.client }
    {
        let number = u64::from(client.session.client());
        let note = fix(rt, pool, client, number)?;
        let mut log = log.lock(rt);
        let written = put(rt, pool, client, &mut log, note, byte);
        drop(log);
        unfix_draining(rt, pool, client, note)?;
        written
    }
}

impl<P: Port> SharingWorker<P, RecordingKeeper, Log> for Hand {
    fn work<N: PoolName, R: Wait>(
        &mut self,
        rt: &R,
        pool: &SharedPool<N>,
        client: &mut Client<N, P>,
        log: &Mutex<WithReceipt<N, Log>>,
    ) {
        for byte in 1..=TURNS {
            if self.outcome.is_ok() {
                self.outcome = self.turn(rt, pool, client, log, byte);
            }
        }
        let mut log = log.lock(rt);
        log.state.writers = log.state.writers.saturating_sub(1);
    }

    fn lead<N: PoolName, R: Wait>(
        &mut self,
        rt: &R,
        pool: &SharedPool<N>,
        client: &mut Client<N, P>,
        upkeep: &mut Upkeep<N>,
        log: &Mutex<WithReceipt<N, Log>>,
    ) {
        for _ in rt.forever() {
            let is_last = log.lock(rt).state.writers == 0;
            match checkpoint(rt, pool, client, upkeep, log) {
                Ok(redo) => {
                    if self.redo.push(redo).is_err() {
                        self.outcome = Err(Refusal::OutOfMemory);
                    }
                }
                // A page was written to after the mark was raised. The next mark is beyond that write.
                Err(Refusal::NeedLog(_)) => {}
                Err(refusal) => self.outcome = Err(refusal),
            }
            if is_last {
                return;
            }
            Parker::new().park_timeout(rt, Duration::from_micros(50));
        }
    }
}

/// Makes client 0, and three clients that write.
fn hands<R: Abort + AllocGlobal>(rt: &R) -> Vec<Hand> {
    let mut hands = Vec::new(rt.alloc());
    for _ in 0..4 {
        let hand = Hand {
            outcome: Ok(()),
            redo: Vec::new(rt.alloc()),
        };
        hands.push(hand).expect(rt, "a place");
    }
    hands
}

/// Runs client 0 and three clients that write. The log comes back, and the trail has the write of each of its records.
fn run_hands<R: Abort + AllocGlobal + Threads + Wait + Sync>(rt: &R) -> (Run<MemPort, Hand>, Log)
    ensures { HasWrites result.1.last result.0.core.past }
{
    let log = Log {
        last: 0,
        writers: 3,
    };
    let ran = run_sharing_workers(rt, rt.alloc(), config(rt, 4), ports(rt, 4), hands(rt), log);
    ran.expect(rt, "the run")
}

/// Asserts that each client did its work, and that the LSN from which redo would begin never falls, and is beyond the
/// last record in the end.
fn expect_run<R: Abort + AllocGlobal>(rt: &R, run: &Run<MemPort, Hand>, log: &Log) {
    expect_lawful(rt, &run.core);
    assert_eq!(rt; log.last, 3 * u64::from(TURNS));
    for left in &run.left {
        assert_eq!(rt; left.worker.outcome, Ok(()));
    }
    let first = run.left.first().expect(rt, "what client 0 left");
    let mut before = Lsn::new(0);
    for redo in &first.worker.redo {
        assert!(rt; before <= *redo);
        before = *redo;
    }
    assert_eq!(rt; before, Lsn::new(log.last.saturating_add(1)));
}

/// A checkpoint by client 0 sees the write of each record that was in the log when it began, whoever made it.
#[test]
fn checkpoints_see_each_record(rt: HostRuntime) {
    let rt = &rt;
    let (run, log) = run_hands(rt);
    expect_run(rt, &run, &log);
    drop(run);
}

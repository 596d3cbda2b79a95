//! A client other than client 0 that needs the log: it asks client 0 to make it durable, and waits.
ghost use Rattle.std.specs.Prelude.{◌≡◌};

use crate::durable::change;
use crate::making::{config, expect_lawful, ports};
use bp_core::RecordingKeeper;
use bp_device::{MemPort, Port};
use bp_keeper::ListKeeper;
use bp_page::{Lsn, Refusal};
use bp_shared::{PoolName, SharedPool};
use bp_workers::{Client, DurableLog, Patience, Run, Upkeep, Worker, fix_durably, run_workers};
use std::alloc::Global;
use std::process::Abort;
use std::rt::HostRuntime;
use std::sync::{Arc, Mutex, Wait};
use std::thread::{Parker, Threads};
use std::time::Duration;
use test_support::pools::unfix_draining;

#[derive(Drop)]
struct Log {
    /// The LSN up to which the log must be made durable.
    wanted: u64,
    /// The LSN up to which the log is durable and the mark is raised.
    raised: u64,
    /// Whether client 1 has ended.
    is_over: bool,
}

/// Client 1's way to the log. Only client 0 can raise the mark.
#[derive(Drop)]
struct Following {
    log: Arc<Mutex<Log>, Global>,
    /// The LSN up to which this client knows that the mark is raised.
    known: u64,
}

impl<N: PoolName> DurableLog<N> for Following {
    ghost use Rattle.std.specs.Prelude.{[]};

    ghost durable_to = { λ following. following.known };

    ghost raised_to = { λ following. following.known };

    ghost lent = { λ _. [] };

    /// Asks client 0 for the LSN, and waits up to ten seconds.
    fn reach<K: ListKeeper, R: Wait>(&mut self, rt: &R, _: &SharedPool<N, K>, lsn: Lsn) -> bool {
        for _ in 0..10000 {
            let mut log = self.log.lock(rt);
            log.wanted = log.wanted.max(lsn.number());
            self.known = self.known.max(log.raised);
            if lsn.number() <= self.known {
                break;
            }
            drop(log);
            Parker::new().park_timeout(rt, Duration::from_millis(1));
        }
        lsn.number() <= self.known
    }
}

#[derive(Drop)]
struct Sharer {
    alloc: Global,
    following: Following,
    outcome: Result<(), Refusal>,
}

impl Sharer {
    /// Writes to page 0 under log record 5, and then fixes page 1 durably, in a pool of one frame.
    fn visit<N: PoolName, P: Port, R: Wait>(
        &mut self,
        rt: &R,
        pool: &SharedPool<N>,
        client: &mut Client<N, P>,
    ) -> Result<(), Refusal>
        ensures client { client.new.session.client ≡ client.old.session.client }
    {
        change(rt, self.alloc, pool, client, false)?;
        let page = client.port.geometry().page(1).ok_or(Refusal::OutOfPage)?;
        let patience = Patience {
            rounds: 10,
            ticks: 1,
            pause: Duration::from_millis(1),
        };
        let pass = fix_durably(rt, pool, client, &mut self.following, page, patience)?;
        unfix_draining(rt, pool, client, pass.note())
    }
}

impl<P: Port> Worker<P, RecordingKeeper> for Sharer {
    fn work<N: PoolName, R: Wait>(
        &mut self,
        rt: &R,
        pool: &SharedPool<N>,
        client: &mut Client<N, P>,
    ) {
        self.outcome = self.visit(rt, pool, client);
        self.following.log.lock(rt).is_over = true;
    }

    fn lead<N: PoolName, R: Wait>(
        &mut self,
        rt: &R,
        pool: &SharedPool<N>,
        _client: &mut Client<N, P>,
        upkeep: &mut Upkeep<N>,
    ) {
        for _ in rt.forever() {
            let mut log = self.following.log.lock(rt);
            if log.raised < log.wanted {
                // An engine syncs its log here.
                upkeep.log.raise(pool, Lsn::new(log.wanted));
                log.raised = log.wanted;
            }
            if log.is_over {
                return;
            }
            drop(log);
            Parker::new().park_timeout(rt, Duration::from_millis(1));
        }
    }
}

/// Makes two clients over one log.
fn sharers<R: Abort + AllocGlobal>(rt: &R, log: &Arc<Mutex<Log>, Global>) -> Vec<Sharer> {
    let mut sharers = Vec::new(rt.alloc());
    for _ in 0..2 {
        let log = Arc::try_clone(log).expect(rt, "the log");
        let sharer = Sharer {
            alloc: rt.alloc(),
            following: Following { log, known: 0 },
            outcome: Ok(()),
        };
        sharers.push(sharer).expect(rt, "a place");
    }
    sharers
}

/// Asserts that a run was lawful, that the mark is at LSN 5, and that no client was refused.
fn expect_followed<R: Abort + AllocGlobal>(rt: &R, run: &Run<MemPort, Sharer>) {
    expect_lawful(rt, &run.core);
    assert_eq!(rt; run.core.durable(), Lsn::new(5));
    for left in &run.left {
        assert_eq!(rt; left.worker.outcome, Ok(()));
    }
}

/// Runs two clients over the log.
fn follow<R: Threads + Wait + Sync + Abort + AllocGlobal>(rt: &R, log: &Arc<Mutex<Log>, Global>) {
    let workers = sharers(rt, log);
    let run = run_workers(rt, rt.alloc(), config(rt, 1), ports(rt, 2), workers);
    let run = run.expect(rt, "the run");
    expect_followed(rt, &run);
    drop(run);
}

/// Asserts that the log was asked for LSN 5.
fn expect_asked<R: Wait + Abort>(rt: &R, log: &Mutex<Log>) {
    let log = log.lock(rt);
    assert_eq!(rt; (log.wanted, log.raised), (5, 5));
}

/// Page 0 goes out once client 0 was asked for LSN 5, and has raised the mark to it.
#[test]
fn client_one_waits_for_client_zero(rt: HostRuntime) {
    let rt = &rt;
    let log = Log {
        wanted: 0,
        raised: 0,
        is_over: false,
    };
    let log = Arc::new(rt.alloc(), Mutex::new(log)).expect(rt, "the log");
    follow(rt, &log);
    expect_asked(rt, &log);
}

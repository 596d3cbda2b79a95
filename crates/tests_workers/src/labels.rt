//! A worker over a silent pool, which keeps no entries: it reads back what it wrote to pages that were evicted.
ghost use Rattle.std.specs.Prelude.{◌≡◌};

use crate::making::{PAGES, config, ports};
use crate::writer::{DURABLE, write_page};
use bp_core::SilentKeeper;
use bp_device::{MemPort, Port};
use bp_keeper::ListKeeper;
use bp_page::{Lsn, Refusal};
use bp_shared::{PoolName, SharedPool};
use bp_workers::{Client, Left, Run, Upkeep, Worker, run_workers_over};
use std::alloc::Global;
use std::process::Abort;
use std::rt::HostRuntime;
use std::sync::Wait;
use test_support::pools::{fix, read, unfix_draining};

/// The label of page 0. Each further page has one more.
const FIRST: u8 = 10;

/// Writes a label to the first byte of each page, and then reads the labels.
#[derive(Drop)]
struct Labeler {
    alloc: Global,
    put: u64,
    /// The number of pages that still had their label.
    found: u64,
    latest: Option<Refusal>,
}

fn label_of(number: u64) -> u8 {
    (number % 100) as u8 + FIRST
}

/// Returns true if a page has its label.
fn has_label<N: PoolName, P: Port, K: ListKeeper, R: Wait>(
    rt: &R,
    pool: &SharedPool<N, K>,
    client: &mut Client<N, P, K>,
    number: u64,
) -> Result<bool, Refusal>
    ensures client { client.new.session.client ≡ client.old.session.client }
{
    let note = fix(rt, pool, client, number)?;
    let image = read(rt, pool, client, note);
    unfix_draining(rt, pool, client, note)?;
    Ok(image?.bytes().first() == Some(&label_of(number)))
}

impl Labeler {
    fn put_all<N: PoolName, P: Port, K: ListKeeper, R: Wait>(
        &mut self,
        rt: &R,
        pool: &SharedPool<N, K>,
        client: &mut Client<N, P, K>,
    )
        ensures client { client.new.session.client ≡ client.old.session.client }
    {
        for number in 0..client.port.geometry().pages {
            match write_page(
                rt,
                self.alloc,
                pool,
                client,
                number,
                label_of(number),
                number,
            ) {
                Ok(()) => self.put = self.put.saturating_add(1),
                Err(refusal) => self.latest = Some(refusal),
            }
            let _ = pool.tick(rt, &mut client.session, 1);
        }
    }

    fn find_all<N: PoolName, P: Port, K: ListKeeper, R: Wait>(
        &mut self,
        rt: &R,
        pool: &SharedPool<N, K>,
        client: &mut Client<N, P, K>,
    )
        ensures client { client.new.session.client ≡ client.old.session.client }
    {
        for number in 0..client.port.geometry().pages {
            match has_label(rt, pool, client, number) {
                Ok(true) => self.found = self.found.saturating_add(1),
                Ok(false) => {}
                Err(refusal) => self.latest = Some(refusal),
            }
            let _ = pool.tick(rt, &mut client.session, 1);
        }
    }
}

impl<P: Port, K: ListKeeper> Worker<P, K> for Labeler {
    fn work<N: PoolName, R: Wait>(
        &mut self,
        _rt: &R,
        _pool: &SharedPool<N, K>,
        _client: &mut Client<N, P, K>,
    ) {}

    fn lead<N: PoolName, R: Wait>(
        &mut self,
        rt: &R,
        pool: &SharedPool<N, K>,
        client: &mut Client<N, P, K>,
        upkeep: &mut Upkeep<N>,
    ) {
        upkeep.log.raise(pool, Lsn::new(DURABLE));
        self.put_all(rt, pool, client);
        self.find_all(rt, pool, client);
    }
}

/// Makes one worker that has not begun.
fn labelers<R: Abort + AllocGlobal>(rt: &R) -> Vec<Labeler> {
    let mut labelers = Vec::new(rt.alloc());
    let labeler = Labeler {
        alloc: rt.alloc(),
        put: 0,
        found: 0,
        latest: None,
    };
    labelers.push(labeler).expect(rt, "a place");
    labelers
}

/// Asserts that each label was put and found.
fn expect_labels<R: Abort>(rt: &R, left: &Left<MemPort, Labeler, SilentKeeper>) {
    let worker = &left.worker;
    assert_eq!(rt;
        (worker.latest, worker.put, worker.found, left.held),
        (None, PAGES, PAGES, 0)
    );
}

/// Asserts what holds of a run of one worker.
fn expect_run<R: Abort>(rt: &R, run: &Run<MemPort, Labeler, SilentKeeper>) {
    for left in &run.left {
        expect_labels(rt, left);
    }
    let core = &run.core;
    assert_eq!(rt;
        (run.left.len(), core.clock(), core.durable()),
        (1, 9, Lsn::new(DURABLE))
    );
}

/// Two of four pages are in no frame at any time, so labels are written out and read again.
#[test]
fn silent_labels_are_read_back(rt: HostRuntime) {
    let rt = &rt;
    let mut config = config(rt, 2);
    // The greatest room of a silent pool.
    config.room = 1 << 61;
    let run = run_workers_over::<SilentKeeper, MemPort, Labeler, HostRuntime>(
        rt,
        rt.alloc(),
        config,
        ports(rt, 1),
        labelers(rt),
    );
    let run = run.expect(rt, "the run");
    expect_run(rt, &run);
    drop(run);
}

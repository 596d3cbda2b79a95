//! The upkeep of client 0, which cuts the trail; and a ring that is full.
ghost use Rattle.std.specs.Prelude.{◌≡◌};

use crate::making::{config, ports};
use bp_core::{Entry, RecordingKeeper};
use bp_device::{MemPort, Port};
use bp_shared::{PoolName, SharedPool};
use bp_workers::{Client, Left, Run, Upkeep, Worker, run_workers};
use std::process::Abort;
use std::rt::HostRuntime;
use std::sync::Wait;
use test_support::judging::{setup_of, unlawful};
use test_support::pools::{fix, unfix_draining};

/// The passes of one page at the same time: one more than a ring holds.
const PASSES: usize = 33;

/// Fixes page 0 many times, gives the passes back one after the other, and cuts the trail if it can.
#[derive(Drop)]
struct Hoarder {
    taken: usize,
    given: usize,
    cut: Vec<Entry>,
}

impl Hoarder {
    fn take<N: PoolName, P: Port, R: Wait>(
        &mut self,
        rt: &R,
        pool: &SharedPool<N>,
        client: &mut Client<N, P>,
    )
        ensures client { client.new.session.client ≡ client.old.session.client }
    {
        for _ in 0..PASSES {
            if fix(rt, pool, client, 0).is_ok() {
                self.taken = self.taken.saturating_add(1);
            }
        }
    }

    fn unfix_held<N: PoolName, P: Port, R: Wait>(
        &mut self,
        rt: &R,
        pool: &SharedPool<N>,
        client: &mut Client<N, P>,
    )
        ensures client { client.new.session.client ≡ client.old.session.client }
    {
        for _ in 0..PASSES {
            let Some(note) = client.session.oldest_held() else {
                return;
            };
            if unfix_draining(rt, pool, client, note).is_ok() {
                self.given = self.given.saturating_add(1);
            }
        }
    }
}

impl<P: Port> Worker<P, RecordingKeeper> for Hoarder {
    fn work<N: PoolName, R: Wait>(
        &mut self,
        rt: &R,
        pool: &SharedPool<N>,
        client: &mut Client<N, P>,
    ) {
        self.take(rt, pool, client);
        self.unfix_held(rt, pool, client);
    }

    fn lead<N: PoolName, R: Wait>(
        &mut self,
        rt: &R,
        pool: &SharedPool<N>,
        client: &mut Client<N, P>,
        upkeep: &mut Upkeep<N>,
    ) {
        self.take(rt, pool, client);
        if let Ok(piece) = pool.cut(rt, &mut upkeep.taker) {
            self.cut = piece;
        }
        self.unfix_held(rt, pool, client);
    }
}

fn hoarders<R: AllocGlobal + Abort>(rt: &R) -> Vec<Hoarder> {
    let mut hoarders = Vec::new(rt.alloc());
    for _ in 0..2 {
        let hoarder = Hoarder {
            taken: 0,
            given: 0,
            cut: Vec::new(rt.alloc()),
        };
        hoarders.push(hoarder).expect(rt, "a place");
    }
    hoarders
}

/// Asserts that each pass was taken and given back. It moves what was cut to the trail, and returns how many entries
/// the lists have.
fn gather<R: Abort>(
    rt: &R,
    clients: &mut [Left<MemPort, Hoarder>],
    trail: &mut Vec<Entry>,
) -> usize {
    let mut said = 0usize;
    for left in clients {
        let worker = &left.worker;
        assert_eq!(rt;
            (worker.taken, worker.given, left.held),
            (PASSES, PASSES, 0)
        );
        said = said.saturating_add(left.said().len());
        trail.append(&mut left.worker.cut).expect(rt, "the entries");
    }
    said
}

/// The last pass finds the ring full, which is then emptied. What client 0 cut, with the rest, has as many entries as
/// all lists, and is a legal trail.
#[test]
fn full_ring_is_emptied(rt: HostRuntime) {
    let rt = &rt;
    let run = run_workers(rt, rt.alloc(), config(rt, 4), ports(rt, 2), hoarders(rt));
    let Run { core, mut left } = run.expect(rt, "the run");
    let setup = setup_of(&core);
    let mut trail = Vec::new(rt.alloc());
    let said = gather(rt, &mut left, &mut trail);
    drop(left);
    assert!(rt; trail.len() > PASSES);
    trail
        .append(&mut core.into_trail())
        .expect(rt, "the entries");
    assert_eq!(rt; trail.len(), said);
    assert_eq!(rt; unlawful(rt.alloc(), &setup, &trail), Ok(None));
}

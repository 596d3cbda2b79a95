//! Runs of two workers over a pool of either kind, each on a page of its own.
ghost use Rattle.std.specs.Prelude.{◌≡◌};

use crate::memory::devices::{device, port_of};
use crate::memory::telling::all_went_back;
use bp_check::agrees;
use bp_core::{PassNote, RecordingKeeper, Settings, SilentKeeper};
use bp_device::{MemPort, Port};
use bp_keeper::ListKeeper;
use bp_page::{Geometry, Refusal};
use bp_shared::{PoolName, SharedPool};
use bp_workers::{Client, Config, Kind, Run, Upkeep, Worker, run_workers_over};
use std::alloc::Global;
use std::marker::Sync;
use std::process::Abort;
use std::sync::Wait;
use std::thread::Threads;
use test_support::judging::unlawful_in;
use test_support::pools::{fix, read, unfix_draining, write};

/// The room of the trail, in entries.
const ROOM: usize = 100;

/// Visits the page of its client's number. Where that is refused, it tries again.
#[derive(Drop)]
struct Visitor {
    alloc: Global,
    refused: Option<Refusal>,
    /// The page's first byte at the end of the visit, or the refusal.
    seen: Result<u8, Refusal>,
}

/// The byte that a client writes to its page, different for each client.
fn byte_of(client: u8) -> u8 {
    client.saturating_add(7)
}

/// Returns the first byte of the page that a client holds.
fn first_byte<N: PoolName, P: Port, K: ListKeeper, R: Wait>(
    rt: &R,
    pool: &SharedPool<N, K>,
    client: &mut Client<N, P, K>,
    note: PassNote,
) -> Result<u8, Refusal>
    ensures client { client.new.session.client ≡ client.old.session.client }
{
    let image = read(rt, pool, client, note)?;
    Ok(image.bytes().first().copied().unwrap_or(0))
}

/// Has the session take room, writes the client's byte to its page and reads it, gives the page back in any case, and
/// moves the clock on.
fn visit<N: PoolName, P: Port, K: ListKeeper, R: Wait>(
    rt: &R,
    alloc: Global,
    pool: &SharedPool<N, K>,
    client: &mut Client<N, P, K>,
) -> Result<u8, Refusal>
    ensures client { client.new.session.client ≡ client.old.session.client }
{
    client.session.reserve(1)?;
    let own = client.session.client();
    let note = fix(rt, pool, client, u64::from(own))?;
    let wrote = write(rt, alloc, pool, client, note, byte_of(own), 0);
    let seen = first_byte(rt, pool, client, note);
    unfix_draining(rt, pool, client, note)?;
    wrote?;
    let byte = seen?;
    pool.tick(rt, &mut client.session, 1)?;
    Ok(byte)
}

impl Visitor {
    ghost use Rattle.std.specs.Prelude.{◌≡◌};

    fn run<N: PoolName, P: Port, K: ListKeeper, R: Wait>(
        &mut self,
        rt: &R,
        pool: &SharedPool<N, K>,
        client: &mut Client<N, P, K>,
    )
        ensures client { client.new.session.client ≡ client.old.session.client }
    {
        self.seen = visit(rt, self.alloc, pool, client);
        if let Err(refusal) = self.seen {
            self.refused = Some(refusal);
            self.seen = visit(rt, self.alloc, pool, client);
        }
    }
}

impl<P: Port, K: ListKeeper> Worker<P, K> for Visitor {
    fn work<N: PoolName, R: Wait>(
        &mut self,
        rt: &R,
        pool: &SharedPool<N, K>,
        client: &mut Client<N, P, K>,
    ) {
        self.run(rt, pool, client);
    }

    fn lead<N: PoolName, R: Wait>(
        &mut self,
        rt: &R,
        pool: &SharedPool<N, K>,
        client: &mut Client<N, P, K>,
        _upkeep: &mut Upkeep<N>,
    ) {
        self.run(rt, pool, client);
    }
}

/// Makes a list of two. Where memory is refused, it tries again.
fn two_of<T: Drop, R: Abort + AllocGlobal>(rt: &R, one: T, other: T) -> Vec<T> {
    let mut two = match Vec::with_capacity(rt.alloc(), 2) {
        Ok(two) => two,
        Err(_) => Vec::with_capacity(rt.alloc(), 2).expect(rt, "the list, with memory"),
    };
    two.push_reserved(one);
    two.push_reserved(other);
    two
}

fn new_visitor(alloc: Global) -> Visitor {
    Visitor {
        alloc,
        refused: None,
        seen: Ok(0),
    }
}

/// Runs two visitors. It returns None where memory was refused outside of their visits.
fn try_run<K: Kind, R: Threads + Wait + Sync + Abort + AllocGlobal>(
    rt: &R,
) -> Option<Run<MemPort, Visitor, K>> {
    let config = Config {
        geometry: Geometry::new(4, 16).expect(rt, "the geometry"),
        settings: Settings::new(2, 0, 1000).expect(rt, "the settings"),
        frames: 2,
        room: ROOM,
    };
    let device = device(rt, config.geometry);
    let ports = two_of(rt, port_of(rt, &device), port_of(rt, &device));
    let workers = two_of(rt, new_visitor(rt.alloc()), new_visitor(rt.alloc()));
    match run_workers_over::<K, MemPort, Visitor, R>(rt, rt.alloc(), config, ports, workers) {
        Ok(run) => Some(run),
        Err(refusal) => {
            assert!(rt; refusal == Refusal::OutOfMemory);
            None
        }
    }
}

/// Runs two visitors. Where memory is refused outside of their visits, it tries again.
fn run_visitors<K: Kind, R: Threads + Wait + Sync + Abort + AllocGlobal>(
    rt: &R,
) -> Run<MemPort, Visitor, K> {
    match try_run::<K, R>(rt) {
        Some(run) => run,
        None => try_run::<K, R>(rt).expect(rt, "the run, with memory"),
    }
}

/// Asserts that each visitor read its own byte in the end, and holds no pass. At most one visit was refused, for want
/// of memory of the pool, or of the port at the end of a read. A visit has six entries. A refused one adds none where
/// its room or its fix was refused, two where its read failed, three where the write or the read by its pass was
/// refused, and four where the tick was.
fn expect_visits<K: Kind>(rt: &impl Abort, run: &Run<MemPort, Visitor, K>) {
    assert_eq!(rt; run.left.len(), 2);
    let mut refused = None;
    for client in 0..2u8 {
        let left = run.left.get(usize::from(client)).expect(rt, "the worker");
        assert_eq!(rt;
            (left.worker.seen, left.held, left.all_went_back),
            (Ok(byte_of(client)), 0, true)
        );
        assert!(rt; refused.is_none() || left.worker.refused.is_none());
        refused = refused.or(left.worker.refused);
    }
    let more = ROOM.saturating_sub(run.core.free()).checked_sub(12);
    let is_counted = match refused {
        None => more == Some(0),
        Some(Refusal::ReadFailed) => more == Some(2),
        Some(refusal) => refusal == Refusal::OutOfMemory && matches!(more, Some(0 | 3 | 4)),
    };
    assert!(rt; is_counted, "{more:?}");
    assert_eq!(rt; run.core.clock(), 3);
}

#[test]
fn workers_visit_their_pages(rt: HostRuntime) {
    let run = run_visitors::<SilentKeeper, _>(&rt);
    expect_visits(&rt, &run);
    drop(run);
    let run = run_visitors::<RecordingKeeper, _>(&rt);
    expect_visits(&rt, &run);
    let trail = run.core.trail();
    assert_eq!(rt; unlawful_in(rt.alloc(), &run.core), Ok(None));
    assert!(rt; all_went_back(trail));
    for client in 0..2u8 {
        let left = run.left.get(usize::from(client)).expect(&rt, "the worker");
        assert!(rt; agrees(trail, left.said(), client));
    }
    drop(run);
}

//! The room of a pool's trail is the same in pools of either kind.
ghost use Rattle.std.specs.Prelude.{◌≡◌};

use crate::making::{config, ports};
use bp_core::{RecordingKeeper, SilentKeeper};
use bp_device::{MemPort, Port};
use bp_keeper::ListKeeper;
use bp_page::Refusal;
use bp_shared::{PoolName, SharedPool};
use bp_workers::{Client, Kind, Left, Run, Upkeep, Worker, run_workers_over};
use std::process::Abort;
use std::rt::HostRuntime;
use std::sync::Wait;
use std::thread::Threads;

/// Moves the clock on by 1, eight times.
#[derive(Drop)]
struct Ticker {
    /// The ticks that were done, and those that found no room.
    done: u64,
    full: u64,
}

impl Ticker {
    fn run<N: PoolName, P: Port, K: ListKeeper, R: Wait>(
        &mut self,
        rt: &R,
        pool: &SharedPool<N, K>,
        client: &mut Client<N, P, K>,
    )
        ensures client { client.new.session.client ≡ client.old.session.client }
    {
        for _ in 0..8 {
            match pool.tick(rt, &mut client.session, 1) {
                Ok(()) => self.done = self.done.saturating_add(1),
                Err(Refusal::TrailFull) => self.full = self.full.saturating_add(1),
                Err(_) => {}
            }
        }
    }
}

impl<P: Port, K: ListKeeper> Worker<P, K> for Ticker {
    fn work<N: PoolName, R: Wait>(
        &mut self,
        rt: &R,
        pool: &SharedPool<N, K>,
        client: &mut Client<N, P, K>,
    ) {
        self.run(rt, pool, client);
    }

    fn lead<N: PoolName, R: Wait>(
        &mut self,
        rt: &R,
        pool: &SharedPool<N, K>,
        client: &mut Client<N, P, K>,
        _upkeep: &mut Upkeep<N>,
    ) {
        self.run(rt, pool, client);
    }
}

fn tickers<R: Abort + AllocGlobal>(rt: &R) -> Vec<Ticker> {
    let mut tickers = Vec::new(rt.alloc());
    for _ in 0..2 {
        let ticker = Ticker { done: 0, full: 0 };
        tickers.push(ticker).expect(rt, "a place");
    }
    tickers
}

/// Returns the ticks that were done, and those that found no room.
fn count<K: Kind>(clients: &[Left<MemPort, Ticker, K>]) -> (u64, u64) {
    let (mut done, mut full) = (0u64, 0u64);
    for left in clients {
        done = done.saturating_add(left.worker.done);
        full = full.saturating_add(left.worker.full);
    }
    (done, full)
}

/// Asserts that ten ticks were done, each by one entry, and that six found no room.
fn expect_counted<K: Kind, R: Abort>(rt: &R, run: &Run<MemPort, Ticker, K>) {
    assert_eq!(rt; (count(&run.left), run.core.clock()), ((10, 6), 11));
}

/// Runs two workers that tick, over a pool with room for ten entries. Of their sixteen ticks ten are done, and the
/// others find no room.
fn run_tickers<K: Kind, R: Abort + AllocGlobal + Threads + Wait + Sync>(
    rt: &R,
) -> Run<MemPort, Ticker, K> {
    let mut config = config(rt, 4);
    config.room = 10;
    let (ports, workers) = (ports(rt, 2), tickers(rt));
    let run = run_workers_over::<K, MemPort, Ticker, R>(rt, rt.alloc(), config, ports, workers);
    let run = run.expect(rt, "the run");
    expect_counted(rt, &run);
    run
}

/// A tick of any worker is one entry, in a pool of either kind.
#[test]
fn room_is_counted_alike(rt: HostRuntime) {
    drop(run_tickers::<SilentKeeper, HostRuntime>(&rt));
    let recording = run_tickers::<RecordingKeeper, HostRuntime>(&rt);
    assert_eq!(rt; recording.core.trail().len(), 10);
    drop(recording);
}

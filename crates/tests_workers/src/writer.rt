//! A worker that writes to all pages in turn.
ghost use Rattle.std.specs.Prelude.{◌≡◌};

use bp_device::Port;
use bp_keeper::ListKeeper;
use bp_page::{Lsn, Refusal};
use bp_shared::{PoolName, SharedPool};
use bp_workers::{Client, Upkeep, Worker};
use std::alloc::Global;
use std::process::Abort;
use std::sync::Wait;
use test_support::pools::{fix, unfix_draining, write};

/// Writes to each page in turn, for so many rounds. Client 0 first raises the mark beyond all writes.
#[derive(Drop)]
pub(crate) struct Writer {
    pub(crate) alloc: Global,
    pub(crate) rounds: u64,
    /// Whether it keeps the pass of page 0 when it returns.
    pub(crate) keeps: bool,
    /// The writes that were done, and the calls that were refused.
    pub(crate) done: u64,
    pub(crate) refused: u64,
    pub(crate) latest: Option<Refusal>,
}

pub(crate) const DURABLE: u64 = 100;

impl Writer {
    pub(crate) fn new(alloc: Global, rounds: u64, keeps: bool) -> Writer {
        Writer {
            alloc,
            rounds,
            keeps,
            done: 0,
            refused: 0,
            latest: None,
        }
    }

    fn note(&mut self, outcome: Result<(), Refusal>) {
        match outcome {
            Ok(()) => self.done = self.done.saturating_add(1),
            Err(refusal) => {
                self.refused = self.refused.saturating_add(1);
                self.latest = Some(refusal);
            }
        }
    }

    fn run<N: PoolName, P: Port, K: ListKeeper, R: Wait>(
        &mut self,
        rt: &R,
        pool: &SharedPool<N, K>,
        client: &mut Client<N, P, K>,
    )
        ensures client { client.new.session.client ≡ client.old.session.client }
    {
        let byte = client.session.client();
        for round in 0..self.rounds {
            for number in 0..client.port.geometry().pages {
                let lsn = round % DURABLE;
                let outcome = write_page(rt, self.alloc, pool, client, number, byte, lsn);
                self.note(outcome);
                let _ = pool.tick(rt, &mut client.session, 1);
            }
        }
        if self.keeps {
            match fix(rt, pool, client, 0) {
                Ok(_) => self.note(Ok(())),
                Err(refusal) => self.note(Err(refusal)),
            }
        }
    }
}

impl<P: Port, K: ListKeeper> Worker<P, K> for Writer {
    fn work<N: PoolName, R: Wait>(
        &mut self,
        rt: &R,
        pool: &SharedPool<N, K>,
        client: &mut Client<N, P, K>,
    ) {
        self.run(rt, pool, client);
    }

    fn lead<N: PoolName, R: Wait>(
        &mut self,
        rt: &R,
        pool: &SharedPool<N, K>,
        client: &mut Client<N, P, K>,
        upkeep: &mut Upkeep<N>,
    ) {
        upkeep.log.raise(pool, Lsn::new(DURABLE));
        self.run(rt, pool, client);
    }
}

/// Makes so many writers of three rounds, which keep a pass where `keeps` is true.
pub(crate) fn writers<R: Abort + AllocGlobal>(rt: &R, count: usize, keeps: bool) -> Vec<Writer> {
    let mut writers = Vec::new(rt.alloc());
    for _ in 0..count {
        let writer = Writer::new(rt.alloc(), 3, keeps);
        writers.push(writer).expect(rt, "a place");
    }
    writers
}

/// Writes a byte at offset 0 of a page.
pub(crate) fn write_page<N: PoolName, P: Port, K: ListKeeper, R: Wait>(
    rt: &R,
    alloc: Global,
    pool: &SharedPool<N, K>,
    client: &mut Client<N, P, K>,
    number: u64,
    byte: u8,
    lsn: u64,
) -> Result<(), Refusal>
    ensures client { client.new.session.client ≡ client.old.session.client }
{
    let note = fix(rt, pool, client, number)?;
    let written = write(rt, alloc, pool, client, note, byte, lsn);
    unfix_draining(rt, pool, client, note)?;
    written
}

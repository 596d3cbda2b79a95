//! Workers that look at pages by one call each, while others write all bytes of them.
ghost use Rattle.std.specs.Prelude.{◌≡◌};

use crate::making::{PAGES, config, expect_lawful, ports_to};
use bp_core::RecordingKeeper;
use bp_device::Port;
use bp_page::{Geometry, Lsn, Refusal};
use bp_shared::{PoolName, SharedPool};
use bp_workers::{Client, Upkeep, Worker, run_workers};
use std::process::Abort;
use std::rt::HostRuntime;
use std::sync::Wait;
use std::thread::Threads;

const SIZE: usize = 512;

const ROUNDS: u8 = 60;

/// Fills each page in turn with one byte, and looks at it.
#[derive(Drop)]
struct Looker {
    /// The looks that saw what one client wrote.
    whole: u8,
    refused: Option<Refusal>,
}

/// Fills a page with a byte by one call, looks at it, and moves the clock on. It returns true if the look saw one byte
/// all over, of those that clients write to that page.
fn visit<N: PoolName, P: Port, R: Wait>(
    rt: &R,
    pool: &SharedPool<N>,
    client: &mut Client<N, P>,
    number: u64,
    byte: u8,
) -> Result<bool, Refusal>
    ensures client { client.new.session.client ≡ client.old.session.client }
{
    let (geometry, bytes, mut seen) = (client.port.geometry(), [byte; SIZE], [255; SIZE]);
    let Some(page) = geometry.page(number) else {
        return Err(Refusal::OutOfPage);
    };
    if !geometry.fits(0, bytes.len()) || !geometry.fits(0, seen.len()) {
        return Err(Refusal::OutOfPage);
    }
    let pass = pool.fix(rt, &mut client.session, &mut client.port, page)?;
    let written = pool.write_from(rt, &mut client.session, &pass, 0, &bytes, Lsn::new(0));
    if let Err((pass, refusal)) = pool.unfix_draining(rt, &mut client.session, pass) {
        pass.note();
        return Err(refusal);
    }
    written?;
    pool.read_page_into(
        rt,
        &mut client.session,
        &mut client.port,
        page,
        0,
        &mut seen,
    )?;
    pool.tick(rt, &mut client.session, 1)?;
    let first = seen[0];
    Ok(u64::from(first) % PAGES == number && seen.iter().all(|byte| *byte == first))
}

impl Looker {
    fn run<N: PoolName, P: Port, R: Wait>(
        &mut self,
        rt: &R,
        pool: &SharedPool<N>,
        client: &mut Client<N, P>,
    )
        ensures client { client.new.session.client ≡ client.old.session.client }
    {
        // A byte tells its client, its round, and by its remainder the page.
        let least = client.session.client().wrapping_mul(ROUNDS);
        for round in 0..ROUNDS {
            let number = u64::from(round) % PAGES;
            match visit(rt, pool, client, number, least.wrapping_add(round)) {
                Ok(true) => self.whole = self.whole.saturating_add(1),
                Ok(false) => {}
                Err(refusal) => self.refused = Some(refusal),
            }
        }
    }
}

impl<P: Port> Worker<P, RecordingKeeper> for Looker {
    fn work<N: PoolName, R: Wait>(
        &mut self,
        rt: &R,
        pool: &SharedPool<N>,
        client: &mut Client<N, P>,
    ) {
        self.run(rt, pool, client);
    }

    fn lead<N: PoolName, R: Wait>(
        &mut self,
        rt: &R,
        pool: &SharedPool<N>,
        client: &mut Client<N, P>,
        _upkeep: &mut Upkeep<N>,
    ) {
        self.run(rt, pool, client);
    }
}

/// Runs so many lookers. Each look of each was whole, and none of their calls was refused.
fn expect_whole<R: Abort + AllocGlobal + Threads + Wait + Sync>(
    rt: &R,
    frames: usize,
    count: usize,
) {
    let mut config = config(rt, frames);
    config.geometry = Geometry::new(PAGES, SIZE).expect(rt, "the geometry");
    let mut lookers = Vec::new(rt.alloc());
    for _ in 0..count {
        let (whole, refused) = (0, None);
        lookers
            .push(Looker { whole, refused })
            .expect(rt, "a place");
    }
    let ports = ports_to(rt, config.geometry, count);
    let run = run_workers(rt, rt.alloc(), config, ports, lookers).expect(rt, "the run");
    expect_lawful(rt, &run.core);
    for left in &run.left {
        assert_eq!(rt;
            (left.worker.refused, left.worker.whole, left.held),
            (None, ROUNDS, 0)
        );
    }
    drop(run);
}

/// A look sees all of a write or nothing of it. Four clients share the pages in four frames; of two clients in three
/// frames each finds one for a page that is away.
#[test]
fn looks_are_not_torn(rt: HostRuntime) {
    expect_whole(&rt, 4, 4);
    expect_whole(&rt, 3, 2);
}

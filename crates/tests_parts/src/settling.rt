//! More passes than a ring has places, given back in one part.
ghost use Rattle.std.specs.Prelude.{◌≡◌};

use crate::scratch::scratch;
use bp_core::{Config, Settings};
use bp_keeper::RecordingKeeper;
use bp_page::{Format, Geometry, Refusal};
use bp_part_workers::{PartedClient, PartedWorker, SharedLog, run_parted};
use bp_parts::{PartCount, PartPass, PartedPool};
use bp_ports::{Store, StripedPort, create_striped_file};
use bp_shared::PartNames;
use std::sync::{Mutex, Wait};
use std::{fs, process};

/// How often passes went back, and how often the ring was full, at which the rings are settled.
#[derive(Clone, Copy, PartialEq, Eq, Drop)]
struct Counts {
    posted: u64,
    full: u64,
}

/// Gives a pass back. Where the ring is full it settles the rings, and gives the pass back then.
fn post<N: PartNames + PartCount, S: Store, R: Wait>(
    rt: &R,
    pool: &PartedPool<N>,
    client: &mut PartedClient<N, S>,
    pass: PartPass,
    counts: &mut Counts,
) -> Result<(), Refusal>
    ensures client { client.new.session.client ≡ client.old.session.client }
{
    let unfixed = match pool.unfix(&mut client.session, pass) {
        Err((pass, Refusal::RingFull)) => {
            counts.full = counts.full.saturating_add(1);
            pool.settle(rt, &mut client.session);
            pool.unfix(&mut client.session, pass)
        }
        unfixed => unfixed,
    };
    match unfixed {
        Ok(()) => {
            counts.posted = counts.posted.saturating_add(1);
            Ok(())
        }
        // A pass can't be dropped: one that does not go back is spent as a note.
        Err((pass, refusal)) => {
            let _ = pass.into_pass().1.note();
            Err(refusal)
        }
    }
}

/// Fixes a page so many times more, and gives the passes back, the last one first, with no fix in between.
fn fix_and_post<N: PartNames + PartCount, S: Store, R: Wait>(
    rt: &R,
    pool: &PartedPool<N>,
    client: &mut PartedClient<N, S>,
    number: u64,
    more: u64,
    counts: &mut Counts,
) -> Result<(), Refusal>
    ensures client { client.new.session.client ≡ client.old.session.client }
{
    if more == 0 {
        return Ok(());
    }
    let Some(page) = client.page(number) else {
        return Err(Refusal::OutOfPage);
    };
    let pass = pool.fix(rt, &mut client.session, &mut client.port, page)?;
    let others = fix_and_post(rt, pool, client, number, more - 1, counts);
    let own = post(rt, pool, client, pass, counts);
    others.and(own)
}

/// Fixes page 3, which is of part 1, forty times, and then gives the passes back.
#[derive(Drop)]
struct Poster {
    counts: Counts,
    refused: Option<Refusal>,
}

impl<S: Store> PartedWorker<S, RecordingKeeper, ()> for Poster {
    fn work<N: PartNames + PartCount, R: Wait>(
        &mut self,
        rt: &R,
        pool: &PartedPool<N>,
        client: &mut PartedClient<N, S>,
        _log: &Mutex<SharedLog<N>>,
    ) {
        let posted = fix_and_post(rt, pool, client, 3, 40, &mut self.counts);
        self.refused = posted.err();
    }
}

/// A ring takes 32 passes. Once the rings are settled it takes the other eight.
#[test]
fn settled_rings_have_room(rt: HostRuntime) {
    let path = scratch(&rt, process::id(rt.process()), "settled");
    let name = path.as_path().as_str();
    let stripe = Geometry::new(3, 16).expect(&rt, "the geometry");
    let made = create_striped_file(&rt, rt.alloc(), name, stripe, Format::Plain, 2);
    let port: StripedPort = made.expect(&rt, "the file");
    let settings = Settings::new(2, 0, 1000).expect(&rt, "settings");
    let config = Config::new(stripe)
        .with_frames(2)
        .with_settings(settings)
        .with_room(200);
    let (mut ports, mut workers) = (Vec::new(rt.alloc()), Vec::new(rt.alloc()));
    ports.push(port).expect(&rt, "memory");
    let poster = Poster {
        counts: Counts { posted: 0, full: 0 },
        refused: None,
    };
    workers.push(poster).expect(&rt, "memory");
    let ran = run_parted::<RecordingKeeper, _, _, _, _>(
        &rt,
        rt.alloc(),
        config,
        2,
        ports,
        workers,
        (),
    );
    let run = ran.expect(&rt, "a run");
    let worker = &run.left[0].worker;
    assert!(&rt; worker.refused.is_none());
    assert!(&rt;
        worker.counts
            == Counts {
                posted: 40,
                full: 1
            }
    );
    fs::remove_file(&rt, path.as_path()).expect(&rt, "the file is removed");
}

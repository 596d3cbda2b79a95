//! Two parts over one file of six pages.
ghost use Rattle.std.specs.Prelude.{◌≡◌};

use crate::scratch::scratch;
use bp_core::{Config, NotFlushed, Settings};
use bp_keeper::RecordingKeeper;
use bp_page::{Format, Geometry, Lsn, PageNo, Refusal};
use bp_part_workers::{LogState, PartedClient, PartedWorker, SharedLog, run_parted};
use bp_parts::{PartCount, PartedPool};
use bp_ports::{FilePort, Store, StripedPort, create_striped_file};
use bp_shared::PartNames;
use std::sync::{Mutex, Wait};
use std::{fs, process};

/// Writes pages 3 and 4, which are of parts 1 and 0, and notes what the pool answers.
#[derive(Drop)]
struct Writer {
    /// What was refused of the two uses of pages.
    refused: Option<Refusal>,
    /// From where redo has to begin before the flushes and after them.
    redo: (Option<Lsn>, Option<Lsn>),
    /// What the flush before the log was durable answered, and that after it.
    flushes: (Result<(), (u8, NotFlushed)>, Result<(), (u8, NotFlushed)>),
}

/// The greatest LSN that the marks were raised to.
#[derive(Drop)]
struct Raised {
    to: Lsn,
}

impl LogState for Raised {
    ghost use Rattle.std.specs.Prelude.{◌≡◌};

    ghost agrees = { λ s raised. s.to ≡ raised };
}

/// Raises the marks of both parts, and notes how far.
fn raise<N: PartNames + PartCount>(pool: &PartedPool<N>, log: &mut SharedLog<N, Raised>, lsn: Lsn) {
    log.writer.raise(pool, lsn);
    log.state.to = log.writer.durable();
}

/// Writes 7 in byte 0 of a page under an LSN.
fn write_seven<N: PartNames + PartCount, S: Store, R: Wait>(
    rt: &R,
    pool: &PartedPool<N>,
    client: &mut PartedClient<N, S>,
    page: u64,
    lsn: u64,
) -> Result<(), Refusal>
    ensures client { client.new.session.client ≡ client.old.session.client }
{
    let Some(page) = client.page(page) else {
        return Err(Refusal::OutOfPage);
    };
    let pass = pool.fix(rt, &mut client.session, &mut client.port, page)?;
    let written = pool.write_from(rt, &mut client.session, &pass, 0, &[7], Lsn::new(lsn));
    // A pass can't be dropped: one that does not go back is spent as a note.
    if let Err((pass, refusal)) = pool.unfix(&mut client.session, pass) {
        let _ = pass.into_pass().1.note();
        return Err(refusal);
    }
    written
}

impl<S: Store> PartedWorker<S, RecordingKeeper, Raised> for Writer {
    fn work<N: PartNames + PartCount, R: Wait>(
        &mut self,
        rt: &R,
        pool: &PartedPool<N>,
        client: &mut PartedClient<N, S>,
        log: &Mutex<SharedLog<N, Raised>>,
    ) {
        let three = write_seven(rt, pool, client, 3, 20);
        let four = write_seven(rt, pool, client, 4, 10);
        self.refused = three.and(four).err();
        self.redo.0 = pool.redo_from(rt, &mut client.session);
        self.flushes.0 = pool.flush_all(rt, &mut client.session, &mut client.port);
        raise(pool, &mut log.lock(rt), Lsn::new(20));
        self.flushes.1 = pool.flush_all(rt, &mut client.session, &mut client.port);
        self.redo.1 = pool.redo_from(rt, &mut client.session);
    }
}

/// The least LSN is where redo begins, the log goes before its page, and the file has both pages after a flush.
#[test]
fn pages_of_both_parts_reach_the_file(rt: HostRuntime) {
    let path = scratch(&rt, process::id(rt.process()), "both");
    let name = path.as_path().as_str();
    let stripe = Geometry::new(3, 16).expect(&rt, "the geometry");
    let made = create_striped_file(&rt, rt.alloc(), name, stripe, Format::Headed, 2);
    let port: StripedPort = made.expect(&rt, "the file");
    let settings = Settings::new(2, 0, 1000).expect(&rt, "settings");
    let config = Config::new(stripe)
        .with_frames(2)
        .with_settings(settings)
        .with_room(100);
    let (mut ports, mut workers) = (Vec::new(rt.alloc()), Vec::new(rt.alloc()));
    ports.push(port).expect(&rt, "memory");
    workers
        .push(Writer {
            refused: None,
            redo: (None, None),
            flushes: (Ok(()), Ok(())),
        })
        .expect(&rt, "memory");
    let state = Raised { to: Lsn::new(0) };
    let ran = run_parted::<RecordingKeeper, _, _, _, _>(
        &rt,
        rt.alloc(),
        config,
        2,
        ports,
        workers,
        state,
    );
    let run = ran.expect(&rt, "a run");
    let wrote = &run.left[0].worker;
    assert!(&rt; wrote.refused.is_none());
    assert!(&rt; wrote.redo == (Some(Lsn::new(10)), None));
    assert!(&rt; run.state.to == Lsn::new(20));
    assert!(&rt; run.raised == Lsn::new(20));
    let stopped = &wrote.flushes.0;
    assert!(&rt;
        matches!(stopped, Err((0, stop)) if stop.page == PageNo::new(2) && stop.why == Refusal::NeedLog(Lsn::new(10)))
    );
    assert!(&rt; wrote.flushes.1.is_ok());
    let opened = FilePort::open(&rt, rt.alloc(), name, 16, Format::Headed);
    let mut whole = opened.expect(&rt, "the page file");
    for (page, byte, lsn) in [
        (0, 0, 0),
        (1, 0, 0),
        (2, 0, 0),
        (3, 7, 20),
        (4, 7, 10),
        (5, 0, 0),
    ] {
        let (found, image) = whole.read_with_lsn(PageNo::new(page)).expect(&rt, "a page");
        assert!(&rt; image.bytes()[0] == byte, "page {page}");
        assert!(&rt; found == Some(Lsn::new(lsn)), "page {page}");
    }
    fs::remove_file(&rt, path.as_path()).expect(&rt, "the file is removed");
}

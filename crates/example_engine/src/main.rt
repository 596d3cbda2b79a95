//! An engine to copy. Client 1 adds to counters on pages, each change under a record of a log; client 0 syncs the log,
//! and in the end makes a checkpoint. The arguments are the paths of page file and log, of which each is made where it
//! is not there. It does not recover: that takes the records whose LSN is above that of their page.
#![tactic(auto)]

ghost use Rattle.std.specs.Prelude.{◌≡◌};

use anyhow::Context;
use hojzmated::{
    Client, Config, FilePort, Format, Geometry, Left, Lsn, PageNo, PoolName, Port, Refusal,
    SilentKeeper, SilentPool, Upkeep, Worker, create_page_file, run_workers_over,
};
use std::alloc::Global;
use std::os::unix::fs::FileExt;
use std::rt::Files;
use std::sync::{Arc, Mutex, Wait};
use std::thread::Parker;
use std::time::Duration;
use std::{env, fs};

/// A client's session and port. The session stays that client's: the clause `client` and the loops' invariants say so.
type Own<N, P> = Client<N, P, SilentKeeper>;

/// The log. A record is the number of a page to which 1 is added, in 8 bytes. Its LSN is its own number, from 1.
#[derive(Drop)]
struct Log {
    file: fs::File,
    last: Lsn,
    /// The number of clients that still add.
    adders: u64,
    /// Whether the pool refused a write whose record the log has. Redo makes that write, so the pool has to end.
    ended: bool,
}

impl Log {
    /// Appends a record, and returns its LSN.
    fn append(&mut self, page: PageNo) -> Result<Lsn, Refusal> {
        if self.ended {
            return Err(Refusal::WriteFailed);
        }
        let place = self.last.number().wrapping_mul(8);
        let written = self.file.write_all_at(&page.number().to_le_bytes(), place);
        written.map_err(|_| Refusal::WriteFailed)?;
        self.last = Lsn::new(self.last.number().wrapping_add(1));
        Ok(self.last)
    }
}

type SharedLog = Arc<Mutex<Log>, Global>;

#[derive(Drop)]
struct Adding {
    log: SharedLog,
    /// The latest value of a counter, or why there is none.
    latest: Result<u64, Refusal>,
}

impl Adding {
    /// Adds 1 in the page whose turn it is. The log's lock makes it one step: first the record, then the write.
    fn add<N: PoolName, P: Port>(
        &self,
        rt: &impl Wait,
        pool: &SilentPool<N>,
        own: &mut Own<N, P>,
    ) -> Result<u64, Refusal>
        ensures client { own.new.session.client ≡ own.old.session.client }
    {
        pool.tick(rt, &mut own.session, 1)?;
        let page = PageNo::new(self.log.lock(rt).last.number() % own.port.geometry().pages);
        let pass = pool.fix(rt, &mut own.session, &mut own.port, page)?;
        let (mut log, mut counter) = (self.log.lock(rt), [0; 8]);
        let read = pool.read_into(rt, &mut own.session, &pass, 0, &mut counter);
        let value = u64::from_le_bytes(counter).wrapping_add(1);
        let written = match read.and_then(|()| log.append(page)) {
            Ok(lsn) => {
                let bytes = value.to_le_bytes();
                let written = pool.write_from(rt, &mut own.session, &pass, 0, &bytes, lsn);
                log.ended = written.is_err();
                written
            }
            Err(refusal) => Err(refusal),
        };
        // A pass can't be dropped: one that does not go back is spent as a note.
        let back = pool.unfix_draining(rt, &mut own.session, pass);
        let _ = back.map_err(|(pass, _)| pass.note());
        written.and(Ok(value))
    }
}

impl<P: Port> Worker<P, SilentKeeper> for Adding {
    fn work<N: PoolName, R: Wait>(&mut self, rt: &R, pool: &SilentPool<N>, own: &mut Own<N, P>) {
        'adds: for _ in 0..10 * own.port.geometry().pages {
            for _ in 0..1000 {
                self.latest = self.add(rt, pool, own);
                if self.latest.is_ok() {
                    continue 'adds;
                }
                // Refused: the clock has still to move on, or client 0 to sync the log.
                Parker::new().park_timeout(rt, Duration::from_millis(1));
            }
            break;
        }
        let mut log = self.log.lock(rt);
        log.adders = log.adders.saturating_sub(1);
    }

    fn lead<N: PoolName, R: Wait>(
        &mut self,
        rt: &R,
        pool: &SilentPool<N>,
        own: &mut Own<N, P>,
        upkeep: &mut Upkeep<N>,
    ) {
        for _ in rt.forever() {
            Parker::new().park_timeout(rt, Duration::from_millis(1));
            let log = self.log.lock(rt);
            if log.ended || log.file.sync_data().is_err() {
                // Records may be lost, even if the next sync passes, or the pool lacks a write: the mark stays.
                self.latest = Err(Refusal::WriteFailed);
                return;
            }
            upkeep.log.raise(pool, log.last);
            if log.adders == 0 {
                break;
            }
        }
        // The checkpoint: each unsaved page goes out, and then all of them reach the device. The log is durable by now.
        let flushed = pool.flush_all(rt, &mut own.session, &mut own.port);
        let synced = own.port.sync(rt).map_err(|_| Refusal::WriteFailed);
        let done = flushed.map_err(|stop| stop.why).and(synced);
        self.latest = done.and(self.latest);
    }
}

/// Returns the paths of page file and log.
fn paths(rt: &HostRuntime) -> Result<(String, String), anyhow::Error> {
    let mut words = env::args(rt)?.skip(1);
    let path = words.next().context("no page file is named")?;
    let log = words.next().context("no log is named")?;
    Ok((path, log))
}

/// Opens the log, which is made where it is not there.
fn open_log(rt: &HostRuntime, path: &str) -> Result<SharedLog, anyhow::Error> {
    let file = fs::File::options().write(true).create(true).open(rt, path)?;
    let log = Log {
        last: Lsn::new(file.metadata()?.len() / 8),
        file,
        adders: 1,
        ended: false,
    };
    Ok(Arc::new(rt.alloc(), Mutex::new(log))?)
}

/// Opens a port on the page file for each of the two clients.
fn open_ports(
    rt: &(impl Files<File = fs::File> + Wait),
    alloc: Global,
    path: &str,
    geometry: Geometry,
) -> Result<Vec<FilePort>, anyhow::Error> {
    // It makes nothing where the file is there.
    let _ = create_page_file(rt, alloc, path, geometry, Format::Headed);
    let mut ports = Vec::new(alloc);
    for _ in 0..2 {
        ports.push(FilePort::open(rt, alloc, path, 64, Format::Headed)?)?;
    }
    Ok(ports)
}

/// Makes a worker for each of the two clients.
fn make_workers(alloc: Global, log: &SharedLog) -> Result<Vec<Adding>, anyhow::Error> {
    let mut workers = Vec::new(alloc);
    for _ in 0..2 {
        let (log, latest) = (Arc::try_clone(log)?, Ok(0));
        workers.push(Adding { log, latest })?;
    }
    Ok(workers)
}

/// Prints each worker's latest counter, up to one that was refused.
fn tell(
    rt: &HostRuntime,
    left: &[Left<FilePort, Adding, SilentKeeper>],
) -> Result<(), anyhow::Error> {
    for one in left {
        println!(rt; "a worker's latest counter: {}", one.worker.latest?)?;
    }
    Ok(())
}

fn main(rt: HostRuntime) -> Result<(), anyhow::Error> {
    let (rt, alloc) = (&rt, rt.alloc());
    let (path, log) = paths(rt)?;
    let geometry = Geometry::new(32, 64)?;
    let ports = open_ports(rt, alloc, &path, geometry)?;
    let workers = make_workers(alloc, &open_log(rt, &log)?)?;
    let config = Config::new(geometry).with_frames(8);
    let run = run_workers_over::<SilentKeeper, _, _, _>(rt, alloc, config, ports, workers)?;
    // A run is dropped by a call: to drop it at each exit takes longer to prove.
    let result = tell(rt, &run.left);
    drop(run);
    result
}

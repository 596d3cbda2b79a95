//! Times client threads over one shared pool: fixes and unfixes of random pages, and what they do in between.
ghost use Rattle.std.specs.Prelude.{◌≡◌};

use crate::next;
use anyhow::Context;
use bp_core::{Entry, MAX_PERIOD, PassNote, Settings};
use bp_device::{FilePort, MemDevice, Port};
use bp_keeper::{ListKeeper, RecordingKeeper, SilentKeeper};
use bp_page::{Format, Geometry, Lsn};
use bp_shared::{PoolName, Session, SharedPool};
use bp_workers::{Client, Config, Kind, Left, Upkeep, Worker, run_workers_over};
use std::alloc::Global;
use std::fs::File;
use std::marker::{Send, Sync};
use std::rt::{Files, Runtime};
use std::sync::atomic::{AtomicU64, Ordering};
use std::sync::{Arc, Wait};
use std::thread::Threads;
use std::time::{Clock, Duration};
use std::{mem, thread};

pub(crate) const SIZE: usize = 1024;

pub(crate) const FRAMES: usize = 4096;

/// The clock moves on once in so many fixes of a thread.
pub(crate) const FIXES_A_TICK: u64 = 16;

/// The calls of a thread between two looks at the memory of its list.
pub(crate) const CALLS_A_PART: u64 = 1024;

/// So many calls for each frame come before those that are timed, of all threads together.
const CALLS_BEFORE: u64 = 8;

/// The room of a trail in memory.
const RECORDING_ROOM: usize = 1048576;

/// What is done with a page between its fix and its unfix.
#[derive(Clone, Copy)]
pub(crate) enum Use {
    Nothing,
    /// 16 bytes are looked at.
    Look,
    /// 16 bytes are looked at, by one call that fixes, reads and unfixes.
    Read,
    /// 8 bytes are written.
    Update,
}

/// What each thread does: the use, the pages, the correlated period in ticks, and the parts that are timed.
pub(crate) type Work = (Use, u64, u64, u64);

/// How many threads use the pool at once, one after the other.
pub(crate) const THREADS: [u64; 3] = [1, 2, 4];

/// Hits of hot pages and of all pages that fit, and pages of which four times as many are used as there are frames, with
/// a period of an eighth of the frames in fixes and with none.
pub(crate) const ROWS: [Work; 8] = [
    (Use::Nothing, 64, 32, 1024),
    (Use::Look, 64, 32, 1024),
    (Use::Look, 4096, 32, 1024),
    (Use::Read, 4096, 32, 1024),
    (Use::Update, 4096, 32, 1024),
    (Use::Look, 16384, 32, 256),
    (Use::Look, 16384, 0, 256),
    (Use::Read, 16384, 32, 256),
];

/// A kind of pool, and how its room and the memory of its lists are kept.
pub(crate) trait Tended: ListKeeper {
    fn name() -> &'static str;

    fn room() -> usize;

    /// Lets go of the entries of a session's list, if they are in memory.
    fn cut_list<N: PoolName>(session: &mut Session<N, Self>, alloc: Global, spare: &mut Vec<Entry>)
        ensures client { session.new.client ≡ session.old.client };

    /// Lets go of the entries of the trail, if they are in memory.
    fn cut_trail<N: PoolName, R: Wait>(
        rt: &R,
        pool: &SharedPool<N, Self>,
        upkeep: &mut Upkeep<N>,
        alloc: Global,
        spare: &mut Vec<Entry>,
    );
}

impl Tended for RecordingKeeper {
    fn name() -> &'static str {
        "recording"
    }

    fn room() -> usize {
        RECORDING_ROOM
    }

    fn cut_list<N: PoolName>(session: &mut Session<N>, alloc: Global, spare: &mut Vec<Entry>) {
        let empty = mem::replace(spare, Vec::new(alloc));
        if let Ok(list) = session.cut_into(empty) {
            *spare = list;
        }
    }

    fn cut_trail<N: PoolName, R: Wait>(
        rt: &R,
        pool: &SharedPool<N>,
        upkeep: &mut Upkeep<N>,
        alloc: Global,
        spare: &mut Vec<Entry>,
    ) {
        let empty = mem::replace(spare, Vec::new(alloc));
        if let Ok(piece) = pool.cut_into(rt, &mut upkeep.taker, empty) {
            *spare = piece;
        }
    }
}

impl Tended for SilentKeeper {
    fn name() -> &'static str {
        "silent"
    }

    fn room() -> usize {
        1 << 61
    }

    fn cut_list<N: PoolName>(
        _session: &mut Session<N, SilentKeeper>,
        _alloc: Global,
        _spare: &mut Vec<Entry>,
    ) {}

    fn cut_trail<N: PoolName, R: Wait>(
        _rt: &R,
        _pool: &SharedPool<N, SilentKeeper>,
        _upkeep: &mut Upkeep<N>,
        _alloc: Global,
        _spare: &mut Vec<Entry>,
    ) {}
}

/// Where the threads meet before they are timed, and after it.
#[derive(Drop)]
struct Meeting {
    settled: AtomicU64,
    ended: AtomicU64,
}

/// A client's session and port.
type Own<N, P, K> = Client<N, P, K>;

/// One thread's work, and how long it took.
#[derive(Drop)]
pub(crate) struct Caller<C: Clock + Drop> {
    alloc: Global,
    clock: C,
    meeting: Arc<Meeting, Global>,
    work: Work,
    threads: u64,
    /// The state of the generator of random numbers.
    state: u64,
    /// The calls that were not refused.
    pub(crate) done: u64,
    pub(crate) began: Duration,
    pub(crate) ended: Duration,
    /// The lists that were cut last. The next cuts leave their memory to the session's list and to the trail.
    list: Vec<Entry>,
    trail: Vec<Entry>,
}

impl<C: Clock + Drop> Caller<C> {
    /// Uses a page. It is counted if nothing was refused.
    fn call<N: PoolName, P: Port, K: Tended, R: Wait>(
        &mut self,
        rt: &R,
        pool: &SharedPool<N, K>,
        own: &mut Own<N, P, K>,
    )
        ensures client { own.new.session.client ≡ own.old.session.client }
    {
        let Some(page) = own.port.geometry().page(self.draw()) else {
            return;
        };
        let mut bytes = [0; 16];
        if let Use::Read = self.what() {
            let (session, port) = (&mut own.session, &mut own.port);
            if pool
                .read_page_into(rt, session, port, page, 0, &mut bytes)
                .is_ok()
            {
                self.count();
            }
            return;
        }
        let Ok(pass) = pool.fix(rt, &mut own.session, &mut own.port, page) else {
            return;
        };
        let used = match self.what() {
            Use::Nothing | Use::Read => Ok(()),
            Use::Look => pool.read_into(rt, &mut own.session, &pass, 0, &mut bytes),
            Use::Update => {
                let bytes = self.drawn().to_le_bytes();
                pool.write_from(rt, &mut own.session, &pass, 0, &bytes, Lsn::new(0))
            }
        };
        if let Err((pass, _)) = pool.unfix_draining(rt, &mut own.session, pass) {
            let _: PassNote = pass.note();
        }
        if used.is_ok() {
            self.count();
        }
    }

    /// Draws the number of the next page.
    pub(crate) fn draw(&mut self) -> u64 {
        self.state = next(self.state);
        let (_, pages, _, _) = self.work;
        (self.state >> 33) % pages.max(1)
    }

    /// Returns the number that was drawn last.
    pub(crate) fn drawn(&self) -> u64 {
        self.state
    }

    /// Returns what is done with each page.
    pub(crate) fn what(&self) -> Use {
        self.work.0
    }

    /// Returns how many parts of the work are timed.
    pub(crate) fn parts(&self) -> u64 {
        self.work.3
    }

    /// Counts a use that was not refused.
    pub(crate) fn count(&mut self) {
        self.done = self.done.wrapping_add(1);
    }

    /// Makes the calls of a part, and lets go of the entries of the client's list.
    fn part<N: PoolName, P: Port, K: Tended, R: Wait>(
        &mut self,
        rt: &R,
        pool: &SharedPool<N, K>,
        own: &mut Own<N, P, K>,
    )
        ensures client { own.new.session.client ≡ own.old.session.client }
    {
        'calls: for call in 0..CALLS_A_PART {
            if call % FIXES_A_TICK == 0 {
                let _ = pool.tick(rt, &mut own.session, 1);
            }
            self.call(rt, pool, own);
        }
        K::cut_list(&mut own.session, self.alloc, &mut self.list);
    }

    /// The parts that come before those that are timed.
    pub(crate) fn parts_before(&self) -> u64 {
        let calls = CALLS_BEFORE * FRAMES as u64 / self.threads.max(1);
        calls / CALLS_A_PART
    }

    fn now(&self) -> Duration {
        self.clock.monotonic().unwrap_or(Duration::from_nanos(0))
    }

    /// Notes that this thread's pages are there.
    pub(crate) fn settle(&mut self) {
        self.meeting.settled.fetch_add(1, Ordering::SeqCst);
    }

    pub(crate) fn have_settled(&self) -> bool {
        self.meeting.settled.load(Ordering::SeqCst) >= self.threads
    }

    pub(crate) fn begin(&mut self) {
        self.done = 0;
        self.began = self.now();
    }

    pub(crate) fn end(&mut self) {
        self.ended = self.now();
        self.meeting.ended.fetch_add(1, Ordering::SeqCst);
    }

    fn have_ended(&self) -> bool {
        self.meeting.ended.load(Ordering::SeqCst) >= self.threads
    }

    fn cut_trail<N: PoolName, K: Tended, R: Wait>(
        &mut self,
        rt: &R,
        pool: &SharedPool<N, K>,
        upkeep: &mut Upkeep<N>,
    ) {
        K::cut_trail(rt, pool, upkeep, self.alloc, &mut self.trail);
    }
}

impl<P: Port, K: Tended, C: Clock + Drop> Worker<P, K> for Caller<C> {
    fn work<N: PoolName, R: Wait>(
        &mut self,
        rt: &R,
        pool: &SharedPool<N, K>,
        own: &mut Own<N, P, K>,
    ) {
        'first_parts: for _ in 0..self.parts_before() {
            self.part(rt, pool, own);
        }
        self.settle();
        'settles: for _ in rt.forever() {
            if self.have_settled() {
                break;
            }
            thread::yield_now();
        }
        self.begin();
        'parts: for _ in 0..self.parts() {
            self.part(rt, pool, own);
        }
        self.end();
    }

    /// The trail's room is kept by client 0, also while it waits for the others.
    fn lead<N: PoolName, R: Wait>(
        &mut self,
        rt: &R,
        pool: &SharedPool<N, K>,
        own: &mut Own<N, P, K>,
        upkeep: &mut Upkeep<N>,
    ) {
        'first_parts: for _ in 0..self.parts_before() {
            self.part(rt, pool, own);
            self.cut_trail(rt, pool, upkeep);
        }
        self.settle();
        'settles: for _ in rt.forever() {
            if self.have_settled() {
                break;
            }
            self.cut_trail(rt, pool, upkeep);
        }
        self.begin();
        'parts: for _ in 0..self.parts() {
            self.part(rt, pool, own);
            self.cut_trail(rt, pool, upkeep);
        }
        self.end();
        'ends: for _ in rt.forever() {
            if self.have_ended() {
                break;
            }
            self.cut_trail(rt, pool, upkeep);
        }
    }
}

/// Makes a caller for each thread.
pub(crate) fn callers<R: Runtime<A = Global> + Clock>(
    rt: &R,
    threads: u64,
    work: Work,
) -> Result<Vec<Caller<R>>, anyhow::Error> {
    let alloc = rt.alloc();
    let meeting = Meeting {
        settled: AtomicU64::new(0),
        ended: AtomicU64::new(0),
    };
    let meeting = Arc::new(alloc, meeting)?;
    let mut callers = Vec::new(alloc);
    for thread in 0..threads {
        callers.push(Caller {
            alloc,
            clock: rt.clone()?,
            meeting: Arc::try_clone(&meeting)?,
            work,
            threads,
            state: thread.wrapping_mul(7919).wrapping_add(1),
            done: 0,
            began: Duration::from_nanos(0),
            ended: Duration::from_nanos(0),
            list: Vec::new(alloc),
            trail: Vec::new(alloc),
        })?;
    }
    Ok(callers)
}

/// Runs callers over a new pool, one for each port. Returns the calls that were not refused, and the time from the first
/// begin to the last end.
fn run<
    K: Kind + Tended,
    P: Port + Send,
    R: Runtime<A = Global> + Clock + Threads + Wait + Send + Sync,
>(rt: &R, ports: Vec<P>, geometry: Geometry, work: Work) -> Result<(u64, Duration), anyhow::Error> {
    let (_, _, period, _) = work;
    let config = Config::new(geometry)
        .with_frames(FRAMES)
        .with_settings(Settings::new(2, period, MAX_PERIOD)?)
        .with_room(K::room());
    let callers = callers(rt, ports.len() as u64, work)?;
    let run = run_workers_over::<K, P, Caller<R>, R>(rt, rt.alloc(), config, ports, callers)?;
    let told = sum(&run.left);
    drop(run);
    told.context("no thread ran")
}

/// Returns the sum of what was done, and the time from the first begin to the last end.
fn sum<P: Port, K: Tended, C: Clock + Drop>(
    left: &[Left<P, Caller<C>, K>],
) -> Option<(u64, Duration)> {
    let first = left.first()?;
    let (mut began, mut ended, mut done) = (first.worker.began, first.worker.ended, 0u64);
    for one in left {
        began = began.min(one.worker.began);
        ended = ended.max(one.worker.ended);
        done = done.wrapping_add(one.worker.done);
    }
    Some((done, ended.saturating_sub(began)))
}

/// Opens a port to the page file for each thread.
fn file_ports(
    rt: &(impl Runtime<A = Global> + Files<File = File>),
    path: &str,
    threads: u64,
) -> Result<Vec<FilePort>, anyhow::Error> {
    let mut ports = Vec::new(rt.alloc());
    for _ in 0..threads {
        ports.push(FilePort::open(rt, rt.alloc(), path, SIZE, Format::Plain)?)?;
    }
    Ok(ports)
}

/// Times 1, 2 and 4 threads over a page file, at each row.
pub(crate) fn time_threads<K: Kind + Tended>(
    rt: &(impl Runtime<A = Global> + Clock + Files<File = File> + Threads + Wait + Send + Sync),
    path: &str,
) -> Result<(), anyhow::Error> {
    for threads in THREADS {
        for work in ROWS {
            let (_, pages, period, parts) = work;
            let ports = file_ports(rt, path, threads)?;
            let geometry = ports.first().context("no port")?.geometry();
            let (done, spent) = run::<K, _, _>(rt, ports, geometry, work)?;
            let all = threads * parts * CALLS_A_PART;
            let rate = done as u128 * 1000000000 / spent.as_nanos().max(1);
            println!(rt;
                "{threads} threads, {pages} pages, period {period}: {rate} a second; {done} of {all} were not refused"
            )?;
        }
    }
    Ok(())
}

/// Has four threads use a pool in memory for a moment, by writes and by reads, and prints how many uses were not refused.
pub(crate) fn try_threads<K: Kind + Tended>(
    rt: &(impl Runtime<A = Global> + Clock + Threads + Wait + Send + Sync),
) -> Result<(), anyhow::Error> {
    let geometry = Geometry::new(64, SIZE)?;
    for what in [Use::Update, Use::Read] {
        let device = MemDevice::new(rt.alloc(), geometry)?;
        let mut ports = Vec::new(rt.alloc());
        for _ in 0..4 {
            ports.push(device.port()?)?;
        }
        let (done, _) = run::<K, _, _>(rt, ports, geometry, (what, 64, 32, 4))?;
        println!(rt;
            "4 threads over a {} pool: {done} of 16384 uses were not refused",
            K::name()
        )?;
    }
    Ok(())
}

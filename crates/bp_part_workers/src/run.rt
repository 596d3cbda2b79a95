//! `run_parted`: runs workers over a pool in parts, each in a thread of its own.
ghost use Rattle.std.specs.Prelude.{◌≡◌, ◌<◌, ◌≤◌, ◌↔◌, ℕ, [], All, IfOk, OnErr, IsTrue, length, slice_index_or, vec_len, vec_capacity};
ghost use Rattle.bp_page.specs.declared.refusals.Refusal.TheVariants as Refusal;
ghost use Rattle.bp_core.specs.Agreement.{parameters_with};
ghost use Rattle.bp_ports.specs.Stripes.{IsParts};
ghost use Rattle.bp_parts.specs.Making.{AreNamed, IsNewCore, new_clients};
ghost use Rattle.bp_part_workers.specs.Workers.{IsPortTo};
ghost use Rattle.bp_part_workers.specs.Jobs.{AreNewJobs, AreTakenApart, IsReady, Ran};
ghost use Rattle.bp_part_workers.specs.Runs.{AreLegalCores, AreLeftBy, CanRunUpTo, FitTogether, IsPortOf, RunAnswers};

use crate::job::Job;
use crate::shared_log::{LogState, SharedLog};
use crate::worker::{PartedClient, PartedLeft, PartedWorker};
use bp_core::config::MAX_CLIENTS;
use bp_core::{Config, PoolCore};
use bp_keeper::{ListKeeper, RecordingKeeper};
use bp_page::{Geometry, Lsn, Refusal};
use bp_parts::{
    PartCount, Parted, PartedPool, PartedSession, end_parts, make_parts, new_cores, new_names,
};
use bp_ports::{Port, Store, StripedPort};
use bp_session_log::Book;
use bp_shared::{PartNames, Parts};
use bp_workers::Kind;
use std::alloc::Global;
use std::fs::File;
use std::marker::{Brand, Send, Sync};
use std::sync::{Mutex, Wait};
use std::thread;
use std::thread::Threads;

/// What a run over a pool in parts leaves.
#[derive(Drop)]
pub struct PartedRun<W: Drop, S: Store = File, K: ListKeeper = RecordingKeeper, T: LogState = ()> {
    /// The core of each part, with all entries of its trail.
    pub cores: Vec<PoolCore<K>>,
    /// What the workers shared beside the log writer.
    pub state: T,
    /// The greatest LSN that the workers raised the marks to, or 0. The state agrees with it. A part's trail has no mark
    /// above it, but may lack it: a raise is in a trail only once a session of that part has looked at the mark.
    pub raised: Lsn,
    /// Of each client, in order, the book of its session in each part.
    pub books: Vec<Vec<Book<K>>>,
    /// Each worker with its port, in the order in which they were given.
    pub left: Vec<PartedLeft<W, S>>,
}

/// Makes a job of each client's sessions, with the port and the worker of the same number.
fn make_jobs<N: PartNames + PartCount, S: Store, K: ListKeeper, W: Drop>(
    alloc: Global,
    sessions: Vec<PartedSession<N, K>>,
    ports: Vec<StripedPort<S>>,
    workers: Vec<W>,
) -> Result<Vec<Job<N, S, K, W>>, Refusal>
    requires parts { IsParts N.parts }
    requires sessions { sessions.items ≡ new_clients N.parts (vec_len workers) }
    requires ports { vec_len ports ≡ vec_len workers }
    requires stripes { All (IsPortTo N.parts N.parameters) ports.items }
    ensures jobs { IfOk result (λ jobs.
        AreNewJobs N.parts workers.items ports.items jobs.items) }
    ensures refused { OnErr result (result ≡ Err Refusal.OutOfMemory) }
{
    let Ok(mut jobs) = Vec::with_capacity(alloc, workers.len()) else {
        drop(sessions);
        return Err(Refusal::OutOfMemory);
    };
    let mut sessions = sessions.into_iter();
    let mut ports = ports.into_iter();
    for worker in workers {
        let Some(session) = sessions.next() else {
            unreachable!()
        };
        let Some(port) = ports.next() else {
            unreachable!()
        };
        jobs.push_reserved(Job::new(worker, PartedClient { session, port }));
    }
    Ok(jobs)
}

/// Runs each job in a thread of its own. All have ended at the return.
fn run_jobs<
    N: PartNames + PartCount + Send + Sync,
    S: Store + Send,
    K: Kind,
    T: LogState + Send,
    W: PartedWorker<S, K, T> + Send,
    R: Threads + Wait + Sync,
>(rt: &R, pool: &PartedPool<N, K>, log: &Mutex<SharedLog<N, T>>, jobs: &mut [Job<N, S, K, W>])
    requires some { 0 < length jobs.old }
    requires ready { All (IsReady N.parts) jobs.old }
    ensures counted { length jobs.new ≡ length jobs.old }
    ensures ran { (k : ℕ) (d : _) → k < length jobs.old
        → Ran W.leaves (slice_index_or jobs.old k d) (slice_index_or jobs.new k d) }
{
    let count = jobs.len();
    thread::for_each_mut(rt, jobs, count, &|_, job| job.run(rt, pool, log));
}

/// The sessions of some jobs, and what else is left of these. There is room for all, so that no memory is taken.
fn take_apart<N: PartNames + PartCount, S: Store, K: ListKeeper, W: Drop>(
    jobs: Vec<Job<N, S, K, W>>,
    sessions: Vec<PartedSession<N, K>>,
    left: Vec<PartedLeft<W, S>>,
) -> (Vec<PartedSession<N, K>>, Vec<PartedLeft<W, S>>)
    requires empty { (sessions.items ≡ []) × (left.items ≡ []) }
    requires room { (vec_len jobs ≤ vec_capacity sessions) × (vec_len jobs ≤ vec_capacity left) }
    ensures apart { AreTakenApart jobs.items result.0.items result.1.items }
{
    let (mut sessions, mut left) = (sessions, left);
    for job in jobs {
        let (session, one) = job.into_left();
        sessions.push_reserved(session);
        left.push_reserved(one);
    }
    (sessions, left)
}

/// Runs the workers over a pool whose parts agree on N. All memory is taken before any thread starts.
fn run_named<
    N: PartNames + PartCount + Send + Sync,
    S: Store + Send,
    K: Kind,
    T: LogState + Send,
    W: PartedWorker<S, K, T> + Send,
    R: Threads + Wait + Sync,
>(
    rt: &R,
    alloc: Global,
    cores: Vec<PoolCore<K>>,
    names: Vec<Parts>,
    ports: Vec<StripedPort<S>>,
    workers: Vec<W>,
    state: T,
) -> Result<PartedRun<W, S, K, T>, Refusal>
    requires parts { (vec_len cores ≡ N.parts) × (vec_len names ≡ N.parts) }
    requires few_parts { IsParts N.parts }
    requires cores { All (IsNewCore N.parameters) cores.items }
    requires new { (N.before ≡ []) × (N.past ≡ []) }
    requires named { AreNamed N.mark N.ring N.parameters.clients names.items }
    requires clients { vec_len workers ≡ N.parameters.clients }
    requires some { 0 < vec_len workers }
    requires few { vec_len workers ≤ 64 }
    requires ports { vec_len ports ≡ vec_len workers }
    requires stripes { All (IsPortTo N.parts N.parameters) ports.items }
    requires agrees { T.agrees state 0 }
    ensures parts { IfOk result (λ run. vec_len run.cores ≡ N.parts) }
    ensures legal { IfOk result (λ run. AreLegalCores N.parameters run.raised run.cores.items) }
    ensures agrees { IfOk result (λ run. T.agrees run.state run.raised) }
    ensures left { IfOk result (λ run.
        AreLeftBy W.leaves N.parts workers.items ports.items run.cores.items run.left.items
        run.books.items) }
    ensures refused { OnErr result (result ≡ Err Refusal.OutOfMemory) }
{
    let clients = workers.len();
    let Parted {
        pool,
        sessions,
        takers,
        log,
        room,
    } = make_parts::<N, K>(alloc, cores, names, clients as u8)?;
    let mut jobs = make_jobs(alloc, sessions, ports, workers)?;
    let sessions = Vec::with_capacity(alloc, clients)?;
    let left = Vec::with_capacity(alloc, clients)?;
    let log = Mutex::new(SharedLog { state, writer: log });
    run_jobs(rt, &pool, &log, jobs.as_mut_slice());
    let (sessions, left) = take_apart(jobs, sessions, left);
    let SharedLog { state, writer } = log.into_inner();
    let raised = writer.durable();
    let parted = Parted {
        pool,
        sessions,
        takers,
        log: writer,
        room,
    };
    let ended = end_parts(rt, parted);
    Ok(PartedRun {
        cores: ended.cores,
        state,
        raised,
        books: ended.books,
        left,
    })
}

fn is_same(one: &Geometry, other: &Geometry) -> bool
    ensures { IsTrue result ↔ one.now ≡ other.now }
{
    one.pages == other.pages && one.size == other.size
}

/// Returns true if each port is to as many stripes, each of the configuration's geometry.
fn are_of<S: Store>(ports: &[StripedPort<S>], config: &Config, parts: u8) -> bool
    ensures { IsTrue result ↔ All (IsPortOf config.now parts) ports.now }
{
    for port in ports {
        if port.parts() != u64::from(parts) || !is_same(&port.geometry(), &config.geometry) {
            return false;
        }
    }
    true
}

/// Returns true if there are 1 to 64 parts, 1 to 64 workers, and a port to so many stripes for each.
fn fit_together<S: Store>(
    config: &Config,
    parts: u8,
    ports: &[StripedPort<S>],
    workers: usize,
) -> bool
    ensures { IsTrue result ↔ FitTogether config.now parts ports.now workers }
{
    if parts < 1 || parts > 64 {
        return false;
    }
    if workers < 1 || workers > MAX_CLIENTS as usize || ports.len() != workers {
        return false;
    }
    are_of(ports, config, parts)
}

/// Runs workers over a pool in parts, each in a thread of its own with a session in each part and a port to the stripes
/// of the file: `workers[c]` is client c and has `ports[c]`. It waits until all have returned, and ends the pool, which
/// is of the kind that K says. The configuration is that of one part: its frames and room are a part's own, its geometry
/// is that of a stripe. The workers share the log writer, and the state beside it, which agrees with marks at 0.
///
/// It takes 1 to 64 parts, 1 to 64 workers, and as many ports to as many stripes. At `Ok` each worker did its work, and
/// at its place stand the worker, its own port, and the books of its client's sessions, one of each part. The trail of
/// each part's core is one legal history, whole from its first entry on, in which no mark is above what the workers
/// raised all marks to. The state comes back, and agrees with that. A client's book of a part has exactly that history's
/// entries of the client, each unfix in its place.
///
/// `BadSettings` where the parts or the workers are not 1 to 64, the ports are not as many or one is of other stripes,
/// the frames are not 1 to 65,536 or the room not 1 to its keeper's most; `OutOfMemory` where there is not the memory.
/// Both come before any thread starts, and all that was given is dropped. Device faults and the pool's refusals go to
/// the worker that called, and end no run.
pub fn run_parted<
    K: Kind,
    S: Store + Send,
    T: LogState + Send,
    W: PartedWorker<S, K, T> + Send,
    R: Threads + Wait + Sync,
>(
    rt: &R,
    alloc: Global,
    config: Config,
    parts: u8,
    ports: Vec<StripedPort<S>>,
    workers: Vec<W>,
    state: T,
) -> Result<PartedRun<W, S, K, T>, Refusal>
    requires agrees { T.agrees state 0 }
    ensures parts { IfOk result (λ run. vec_len run.cores ≡ parts) }
    ensures legal { IfOk result (λ run.
        AreLegalCores (parameters_with config (vec_len workers)) run.raised run.cores.items) }
    ensures agrees { IfOk result (λ run. T.agrees run.state run.raised) }
    ensures left { IfOk result (λ run.
        AreLeftBy W.leaves parts workers.items ports.items run.cores.items run.left.items
        run.books.items) }
    ensures answers { RunAnswers (CanRunUpTo K.MOST_ROOM config parts ports.items
        (vec_len workers)) result }
{
    if !fit_together(&config, parts, &ports, workers.len()) {
        return Err(Refusal::BadSettings);
    }
    let clients = workers.len() as u8;
    let cores = match new_cores::<K>(alloc, &config, parts, clients) {
        Ok(cores) => cores,
        Err(refusal) => return Err(refusal),
    };
    let names = match new_names(alloc, parts, clients) {
        Ok(names) => names,
        Err(refusal) => return Err(refusal),
    };
    run_named::<Brand, S, K, T, W, R>(rt, alloc, cores, names, ports, workers, state)
}

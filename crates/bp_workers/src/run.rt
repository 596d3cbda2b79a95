//! `run_workers`: runs workers over one pool, each in a thread of its own.
ghost use Rattle.std.specs.Prelude.{◌≡◌, ◌<◌, ◌≤◌, ◌↔◌, ℕ, [], length, IfOk, OnErr, Some, IsSome, IsTrue};
ghost use Rattle.std.specs.Prelude.{All, zip, vec_len, vec_capacity, slice_index_or};
ghost use Rattle.bp_page.specs.declared.refusals.Refusal.TheVariants as Refusal;
ghost use Rattle.bp_trail.specs.Legal.{Legal};
ghost use Rattle.bp_core.specs.Agreement.{parameters_with};
ghost use Rattle.bp_shared.specs.Sessions.{new_sessions};
ghost use Rattle.bp_workers.specs.Workers.{upkeep_value, unused_upkeep};
ghost use Rattle.bp_workers.specs.Jobs.{IsReady, Ran, IsLeftOf, IsOfPool, AreNumbered, first_upkeep};
ghost use Rattle.bp_workers.specs.Lists.{SideBySide};
ghost use Rattle.bp_workers.specs.Sharing.{AgreesSoFar};
ghost use Rattle.bp_workers.specs.Runs.{FitTogether, CanRun, CanRunUpTo, RunAnswers, LeftBy, IsNewJob};

use crate::job::Job;
use crate::kinds::Kind;
use crate::sharing::{SharedState, SharingWorker, WithReceipt};
use crate::worker::{Client, Left, Upkeep, Worker};
use bp_core::config::MAX_CLIENTS;
use bp_core::{Config, PoolCore};
use bp_keeper::{ListKeeper, RecordingKeeper};
use bp_page::{Geometry, Refusal};
use bp_ports::Port;
use bp_shared::{ClosedPool, LogWriter, Parts, PoolName, Session, SharedPool};
use std::alloc::Global;
use std::marker::{Brand, Send, Sync};
use std::sync::{Mutex, Wait};
use std::thread;
use std::thread::Threads;

/// The core and what each worker left, after all workers have returned.
#[derive(Drop)]
pub struct Run<P: Port, W: Drop, K: ListKeeper = RecordingKeeper> {
    /// The core of the pool. Its trail has all entries that the worker of client 0 did not cut.
    pub core: PoolCore<K>,
    /// What each worker left, in the order in which they were given.
    pub left: Vec<Left<P, W, K>>,
}

/// Makes a job for each session, with the port and the worker of the same number. The first has the upkeep.
fn make_jobs<N: PoolName, P: Port, K: ListKeeper, W: Drop>(
    alloc: Global,
    sessions: Vec<Session<N, K>>,
    ports: Vec<P>,
    workers: Vec<W>,
    upkeep: Upkeep<N>,
) -> Result<Vec<Job<N, P, K, W>>, Refusal>
    requires sessions { sessions.items ≡ new_sessions [] (vec_len workers) }
    requires ports { vec_len ports ≡ vec_len workers }
    requires of_pool { All (λ p. IsOfPool N.parameters (P.geometry_of p)) ports.items }
    requires unused { upkeep_value upkeep ≡ unused_upkeep }
    ensures jobs { IfOk result (λ jobs.
        SideBySide IsNewJob 0 (zip workers.items ports.items) jobs.items) }
    ensures refused { OnErr result (result ≡ Err Refusal.OutOfMemory) }
{
    let Ok(mut jobs) = Vec::with_capacity(alloc, workers.len()) else {
        drop(sessions);
        drop(upkeep);
        return Err(Refusal::OutOfMemory);
    };
    let mut upkeep = Some(upkeep);
    let mut sessions = sessions.into_iter();
    let mut ports = ports.into_iter();
    for worker in workers {
        let Some(session) = sessions.next() else {
            unreachable!()
        };
        let Some(port) = ports.next() else {
            unreachable!()
        };
        let client = Client { session, port };
        let job = Job::new(worker, client, upkeep.take());
        jobs.push_reserved(job);
    }
    Ok(jobs)
}

/// Runs each job in a thread of its own. All have ended at the return.
fn run_jobs<
    N: PoolName + Send + Sync,
    P: Port + Send,
    K: Kind,
    S: SharedState + Send,
    W: SharingWorker<P, K, S> + Send,
    R: Threads + Wait + Sync,
>(rt: &R, pool: &SharedPool<N, K>, shared: &Mutex<WithReceipt<N, S>>, jobs: &mut [Job<N, P, K, W>])
    requires empty { N.past ≡ [] }
    requires some { 0 < length jobs.old }
    requires ready { All IsReady jobs.old }
    ensures counted { length jobs.new ≡ length jobs.old }
    ensures ran { (k : ℕ) (d : _) → k < length jobs.old
        → Ran W.leaves (slice_index_or jobs.old k d) (slice_index_or jobs.new k d) }
{
    let count = jobs.len();
    thread::for_each_mut(rt, jobs, count, &|_, job| job.run(rt, pool, shared));
}

/// Ends the jobs' sessions at the pool. Returns the upkeep that the first had, and what the jobs left. Each session is
/// of another client, so that the end of one leaves what the others gave back. There is room for all, so that no memory
/// is taken.
fn all_left<N: PoolName, P: Port, K: ListKeeper, W: Drop>(
    pool: &mut ClosedPool<N, K>,
    jobs: Vec<Job<N, P, K, W>>,
    left: Vec<Left<P, W, K>>,
) -> (Upkeep<N>, Vec<Left<P, W, K>>)
    requires upkeep { IsSome (first_upkeep jobs.items) }
    requires numbered { AreNumbered 0 jobs.items }
    requires empty { left.items ≡ [] }
    requires room { vec_len jobs ≤ vec_capacity left }
    ensures upkeep { first_upkeep jobs.items ≡ Some (upkeep_value result.0) }
    ensures left { SideBySide (λ _. IsLeftOf N.parameters P.geometry_of N.past pool.new.past) 0
        jobs.items result.1.items }
{
    let mut left = left;
    let mut jobs = jobs.into_iter();
    let Some(first) = jobs.next() else {
        unreachable!()
    };
    let (one, upkeep) = first.into_left(pool);
    let Some(upkeep) = upkeep else { unreachable!() };
    left.push_reserved(one);
    for job in jobs {
        let (one, no_upkeep) = job.into_left(pool);
        drop(no_upkeep);
        left.push_reserved(one);
    }
    (upkeep, left)
}

/// Runs the jobs, each in a thread of its own, and ends the pool. The memory for what they leave is taken before any
/// thread starts.
fn run_pool<
    N: PoolName + Send + Sync,
    P: Port + Send,
    K: Kind,
    S: SharedState + Send,
    W: SharingWorker<P, K, S> + Send,
    R: Threads + Wait + Sync,
>(
    rt: &R,
    alloc: Global,
    pool: SharedPool<N, K>,
    jobs: Vec<Job<N, P, K, W>>,
    state: S,
) -> Result<(Run<P, W, K>, S), Refusal>
    requires some { 0 < vec_len jobs }
    requires ready { All IsReady jobs.items }
    requires numbered { AreNumbered 0 jobs.items }
    requires upkeep { IsSome (first_upkeep jobs.items) }
    requires new { N.past ≡ [] }
    requires agrees { S.agrees state [] }
    ensures parameters { IfOk result (λ ran. ran.0.core.parameters ≡ N.parameters) }
    ensures left { (given : _) → SideBySide IsNewJob 0 given jobs.items → IfOk result (λ ran.
        SideBySide (LeftBy ran.0.core P.geometry_of W.leaves) 0 given ran.0.left.items) }
    ensures agrees { IfOk result (λ ran. AgreesSoFar S.agrees ran.1 ran.0.core.past) }
    ensures refused { OnErr result (result ≡ Err Refusal.OutOfMemory) }
{
    let Ok(left) = Vec::with_capacity(alloc, jobs.len()) else {
        drop(pool);
        drop(jobs);
        drop(state);
        return Err(Refusal::OutOfMemory);
    };
    let mut jobs = jobs;
    let receipt = pool.receipt(rt);
    let shared = Mutex::new(WithReceipt { state, receipt });
    run_jobs(rt, &pool, &shared, jobs.as_mut_slice());
    let WithReceipt { state, receipt } = shared.into_inner();
    let mut pool = pool.close();
    let (upkeep, left) = all_left(&mut pool, jobs, left);
    pool.end_receipt(receipt);
    let Upkeep { log, taker } = upkeep;
    let (core, mark, reader) = pool.into_core(taker);
    // The mark's last word bounds what its reader has seen, and so the LSNs that the core has marked.
    mark.close(log.into_log_end(), reader);
    Ok((Run { core, left }, state))
}

/// Runs the workers of a pool whose parts agree on N.
fn run_named<
    N: PoolName + Send + Sync,
    P: Port + Send,
    K: Kind,
    S: SharedState + Send,
    W: SharingWorker<P, K, S> + Send,
    R: Threads + Wait + Sync,
>(
    rt: &R,
    alloc: Global,
    core: PoolCore<K>,
    parts: Parts,
    ports: Vec<P>,
    workers: Vec<W>,
    state: S,
) -> Result<(Run<P, W, K>, S), Refusal>
    requires mark { parts.mark ≡ N.mark }
    requires raised { parts.end.frontier ≡ 0 }
    requires parameters { core.parameters ≡ N.parameters }
    requires before { (core.before ≡ N.before) × (core.before ≡ []) }
    requires ring { parts.ring ≡ N.ring }
    requires new { (core.past ≡ N.past) × (core.past ≡ []) }
    requires clients { N.parameters.clients ≡ vec_len workers }
    requires rings { length parts.ring.rings ≡ vec_len workers }
    requires some { 0 < vec_len workers }
    requires ports { vec_len ports ≡ vec_len workers }
    requires of_pool { All (λ p. IsOfPool N.parameters (P.geometry_of p)) ports.items }
    requires agrees { S.agrees state [] }
    ensures parameters { IfOk result (λ ran. ran.0.core.parameters ≡ N.parameters) }
    ensures left { IfOk result (λ ran.
        SideBySide (LeftBy ran.0.core P.geometry_of W.leaves) 0
        (zip workers.items ports.items) ran.0.left.items) }
    ensures agrees { IfOk result (λ ran. AgreesSoFar S.agrees ran.1 ran.0.core.past) }
    ensures refused { OnErr result (result ≡ Err Refusal.OutOfMemory) }
{
    let Parts {
        mark,
        end,
        reader,
        ring,
    } = parts;
    let (pool, sessions, taker) = SharedPool::<N, K>::new(alloc, core, mark, reader, ring)?;
    let upkeep = Upkeep {
        log: LogWriter::new(end),
        taker,
    };
    let jobs = match make_jobs(alloc, sessions, ports, workers, upkeep) {
        Ok(jobs) => jobs,
        Err(refusal) => {
            drop(pool);
            return Err(refusal);
        }
    };
    run_pool(rt, alloc, pool, jobs, state)
}

fn is_same(one: &Geometry, other: &Geometry) -> bool
    ensures { IsTrue result ↔ one.now ≡ other.now }
{
    one.pages == other.pages && one.size == other.size
}

/// Returns true if all ports are on devices of this geometry.
fn are_of<P: Port>(ports: &[P], geometry: &Geometry) -> bool
    ensures { IsTrue result ↔ All (λ p. P.geometry_of p ≡ geometry.now) ports.now }
{
    for port in ports {
        if !is_same(&port.geometry(), geometry) {
            return false;
        }
    }
    true
}

/// Returns true if there is a port of the configuration's geometry for each of so many workers, which are 1 to 64.
fn fit_together<P: Port>(config: &Config, ports: &[P], workers: usize) -> bool
    ensures { IsTrue result ↔ FitTogether P.geometry_of config.now ports.now workers }
{
    if workers < 1 || workers > MAX_CLIENTS as usize || ports.len() != workers {
        return false;
    }
    are_of(ports, &config.geometry)
}

/// Runs workers over one pool, each in a thread of its own with a session and a port: `workers[c]` is client c and has
/// `ports[c]`. The worker of client 0 has the log writer and the taker of the trail too. It waits until all have
/// returned, and gives back the passes that they still hold. The pool is of the kind that K says. The workers share the
/// state, which has a receipt of the pool's trail beside it, that has seen nothing yet.
///
/// It takes 1 to 64 workers, and as many ports on devices of the configuration's geometry. At `Ok` each worker did its
/// work, and at its place stand the worker, its own port, and the book of its client's session. The core's entries,
/// those that were cut and its trail, are one legal history, in which no mark is above what client 0 raised it to. The
/// state comes back, and agrees with what its receipt had seen of that history, which is the older part of it.
///
/// `BadSettings` where the workers are not 1 to 64, the ports are not as many or one is of another geometry, the frames
/// are not 1 to 65,536 or the room not 1 to its keeper's most, which is 16,777,216 entries in memory, or a count of
/// 2^61; `OutOfMemory` where there is not the memory. Both come before any thread starts, and all that was given is
/// dropped. Device faults and the pool's refusals go to the worker that called, and end no run.
pub fn run_sharing_workers<
    K: Kind,
    P: Port + Send,
    S: SharedState + Send,
    W: SharingWorker<P, K, S> + Send,
    R: Threads + Wait + Sync,
>(
    rt: &R,
    alloc: Global,
    config: Config,
    ports: Vec<P>,
    workers: Vec<W>,
    state: S,
) -> Result<(Run<P, W, K>, S), Refusal>
    requires agrees { S.agrees state [] }
    ensures legal { IfOk result (λ ran.
        Legal (parameters_with config (vec_len workers)) ran.0.core.past) }
    ensures parameters { IfOk result (λ ran.
        ran.0.core.parameters ≡ parameters_with config (vec_len workers)) }
    ensures left { IfOk result (λ ran.
        SideBySide (LeftBy ran.0.core P.geometry_of W.leaves) 0
        (zip workers.items ports.items) ran.0.left.items) }
    ensures agrees { IfOk result (λ ran. AgreesSoFar S.agrees ran.1 ran.0.core.past) }
    ensures answers { RunAnswers (CanRunUpTo K.MOST_ROOM P.geometry_of config ports.items
        (vec_len workers)) result }
{
    if !fit_together(&config, &ports, workers.len()) {
        return Err(Refusal::BadSettings);
    }
    let clients = workers.len() as u8;
    // A `?` here would take the prover longer: its result holds a core.
    let core = match PoolCore::<K>::new(
        alloc,
        config.geometry,
        config.settings,
        config.frames,
        clients,
        config.room,
    ) {
        Ok(core) => core,
        Err(refusal) => return Err(refusal),
    };
    let parts = match Parts::new(alloc, clients) {
        Ok(parts) => parts,
        Err(refusal) => {
            drop(core);
            return Err(refusal);
        }
    };
    let ran = run_named::<Brand, P, K, S, W, R>(rt, alloc, core, parts, ports, workers, state);
    if let Ok((run, _)) = &ran {
        run.core.keeps_the_rules();
    }
    ran
}

/// Runs workers that share nothing, as `run_sharing_workers` does.
pub fn run_workers_over<K: Kind, P: Port + Send, W: Worker<P, K> + Send, R: Threads + Wait + Sync>(
    rt: &R,
    alloc: Global,
    config: Config,
    ports: Vec<P>,
    workers: Vec<W>,
) -> Result<Run<P, W, K>, Refusal>
    ensures legal { IfOk result (λ run.
        Legal (parameters_with config (vec_len workers)) run.core.past) }
    ensures parameters { IfOk result (λ run.
        run.core.parameters ≡ parameters_with config (vec_len workers)) }
    ensures left { IfOk result (λ run.
        SideBySide (LeftBy run.core P.geometry_of W.leaves) 0
        (zip workers.items ports.items) run.left.items) }
    ensures answers { RunAnswers (CanRunUpTo K.MOST_ROOM P.geometry_of config ports.items
        (vec_len workers)) result }
{
    match run_sharing_workers::<K, P, (), W, R>(rt, alloc, config, ports, workers, ()) {
        Ok((run, ())) => Ok(run),
        Err(refusal) => Err(refusal),
    }
}

/// Runs workers over a pool that has its trail and the sessions' lists in memory, as `run_workers_over` does: the room
/// is 1 to 16,777,216.
pub fn run_workers<P: Port + Send, W: Worker<P, RecordingKeeper> + Send, R: Threads + Wait + Sync>(
    rt: &R,
    alloc: Global,
    config: Config,
    ports: Vec<P>,
    workers: Vec<W>,
) -> Result<Run<P, W>, Refusal>
    ensures legal { IfOk result (λ run.
        Legal (parameters_with config (vec_len workers)) run.core.past) }
    ensures parameters { IfOk result (λ run.
        run.core.parameters ≡ parameters_with config (vec_len workers)) }
    ensures left { IfOk result (λ run.
        SideBySide (LeftBy run.core P.geometry_of W.leaves) 0
        (zip workers.items ports.items) run.left.items) }
    ensures answers { RunAnswers (CanRun P.geometry_of config ports.items
        (vec_len workers)) result }
{
    run_workers_over::<RecordingKeeper, P, W, R>(rt, alloc, config, ports, workers)
}

//! Makes all parts of a pool at once: `new_cores` and `new_names` what they are made of, `make_parts` the pool.
ghost use Rattle.std.specs.Prelude.{◌≡◌, ◌<◌, ◌≤◌, ◌+◌, [], All, IfOk, OnErr, length, vec_len};
ghost use Rattle.bp_page.specs.declared.refusals.Refusal.TheVariants as Refusal;
ghost use Rattle.bp_core.specs.Agreement.{parameters_with};
ghost use Rattle.bp_shared.specs.Sessions.{new_sessions_of};
ghost use Rattle.bp_parts.specs.Logs.{AreEndsOf};
ghost use Rattle.bp_parts.specs.Making.{AreNamed, AreRows, IsNewCore, IsUnnamed, MakesCores, new_clients, new_takers};
ghost use Rattle.bp_parts.specs.Places.{up_to};

use crate::ending::EndRoom;
use crate::log_writer::PartedLog;
use crate::pool::{PartCount, PartedPool};
use crate::sessions::PartedSession;
use bp_core::{Config, PoolCore};
use bp_keeper::{Keeper, ListKeeper, RecordingKeeper};
use bp_mark::LogEnd;
use bp_page::Refusal;
use bp_shared::pool::SharedPool;
use bp_shared::session::Session;
use bp_shared::taker::Taker;
use bp_shared::{PartNames, Parts};
use std::alloc::Global;

/// All that there is of a pool in parts: the pool, and who uses it. It ends by [`end_parts`](crate::ending::end_parts).
#[derive(Drop)]
pub struct Parted<N: PartNames + PartCount, K: ListKeeper = RecordingKeeper> {
    pub pool: PartedPool<N, K>,
    /// Each client's sessions, in the order of the clients.
    pub sessions: Vec<PartedSession<N, K>>,
    /// What takes the trail of each part, in the order of the parts.
    pub takers: Vec<Taker<N>>,
    /// The log writer of all marks.
    pub log: PartedLog<N>,
    /// The memory in which the parts end.
    pub room: EndRoom<N, K>,
}

/// Makes the core of each of so many parts. The configuration is that of one part: its frames, room and settings are a
/// part's own, and its geometry is that of a stripe of the file.
///
/// `BadSettings` where the frames are not 1 to 65,536, the clients 1 to 64, or the room 1 to its keeper's most;
/// `OutOfMemory` where there is not the memory.
pub fn new_cores<K: Keeper>(
    alloc: Global,
    config: &Config,
    parts: u8,
    clients: u8,
) -> Result<Vec<PoolCore<K>>, Refusal>
    requires { 0 < parts }
    ensures count { IfOk result (λ cores. vec_len cores ≡ parts) }
    ensures new { IfOk result (λ cores.
        All (IsNewCore (parameters_with config.now clients)) cores.items) }
    ensures answers { MakesCores K.MOST_ROOM (parameters_with config.now clients) result }
{
    let mut cores = Vec::new(alloc);
    for _ in 0..parts {
        let core = match PoolCore::<K>::with_config(alloc, config, clients) {
            Ok(core) => core,
            Err(refusal) => return Err(refusal),
        };
        let Ok(()) = cores.push(core) else {
            return Err(Refusal::OutOfMemory);
        };
    }
    Ok(cores)
}

/// Makes the mark and the rings of each of so many parts, by which each is named. `OutOfMemory` where there is not the
/// memory.
pub fn new_names(alloc: Global, parts: u8, clients: u8) -> Result<Vec<Parts>, Refusal>
    ensures count { IfOk result (λ names. vec_len names ≡ parts) }
    ensures unnamed { IfOk result (λ names. All (IsUnnamed clients) names.items) }
    ensures refused { OnErr result (result ≡ Err Refusal.OutOfMemory) }
{
    let mut names = Vec::new(alloc);
    for _ in 0..parts {
        let one = match Parts::new(alloc, clients) {
            Ok(one) => one,
            Err(refusal) => return Err(refusal),
        };
        let Ok(()) = names.push(one) else {
            return Err(Refusal::OutOfMemory);
        };
    }
    Ok(names)
}

/// Makes an empty list for the sessions of each of so many clients.
fn empty_rows<N: PartNames, K: ListKeeper>(
    alloc: Global,
    clients: u8,
) -> Result<Vec<Vec<Session<N, K>>>, Refusal>
    ensures count { IfOk result (λ rows. vec_len rows ≡ clients) }
    ensures empty { IfOk result (λ rows. AreRows 0 rows.items) }
    ensures refused { OnErr result (result ≡ Err Refusal.OutOfMemory) }
{
    let mut rows = Vec::new(alloc);
    for _ in 0..clients {
        let Ok(()) = rows.push(Vec::new(alloc)) else {
            return Err(Refusal::OutOfMemory);
        };
    }
    Ok(rows)
}

/// Deals the sessions of one part to the lists of their clients. `OutOfMemory` where there is not the memory.
fn deal<N: PartNames, K: ListKeeper>(
    part: u8,
    rows: &mut Vec<Vec<Session<N, K>>>,
    sessions: Vec<Session<N, K>>,
) -> Result<(), Refusal>
    requires rows { AreRows part rows.old.items }
    requires sessions { sessions.items ≡ new_sessions_of part [] (vec_len rows.old) }
    ensures dealt { IfOk result (λ _. AreRows (part + 1) rows.new.items) }
    ensures count { IfOk result (λ _. vec_len rows.new ≡ vec_len rows.old) }
    ensures refused { OnErr result (result ≡ Err Refusal.OutOfMemory) }
{
    let mut sessions = sessions.into_iter();
    for client in 0..rows.len() {
        let Some(session) = sessions.next() else {
            unreachable!()
        };
        let Ok(()) = rows[client].push(session) else {
            return Err(Refusal::OutOfMemory);
        };
    }
    Ok(())
}

/// The pools of all parts, what takes their trails, their log ends, and the sessions of each client.
#[derive(Drop)]
struct Pools<N: PartNames, K: ListKeeper> {
    parts: Vec<SharedPool<N, K>>,
    takers: Vec<Taker<N>>,
    ends: Vec<LogEnd>,
    rows: Vec<Vec<Session<N, K>>>,
}

/// Makes the pool of each part, one after the other. `OutOfMemory` where there is not the memory.
fn make_pools<N: PartNames + PartCount, K: ListKeeper>(
    alloc: Global,
    cores: Vec<PoolCore<K>>,
    names: Vec<Parts>,
    rows: Vec<Vec<Session<N, K>>>,
) -> Result<Pools<N, K>, Refusal>
    requires cores { All (IsNewCore N.parameters) cores.items }
    requires new { (N.before ≡ []) × (N.past ≡ []) }
    requires each { vec_len cores ≡ vec_len names }
    requires few { vec_len names ≤ 64 }
    requires named { AreNamed N.mark N.ring N.parameters.clients names.items }
    requires rows { AreRows 0 rows.items }
    requires clients { vec_len rows ≡ N.parameters.clients }
    ensures parts { IfOk result (λ made. made.parts.items ≡ up_to (λ part. part) (vec_len names)) }
    ensures takers { IfOk result (λ made. made.takers.items ≡ new_takers (vec_len names)) }
    ensures ends { IfOk result (λ made. AreEndsOf N.mark 0 made.ends.items) }
    ensures as_many { IfOk result (λ made. vec_len made.ends ≡ vec_len names) }
    ensures rows { IfOk result (λ made. AreRows (vec_len names) made.rows.items) }
    ensures clients { IfOk result (λ made. vec_len made.rows ≡ N.parameters.clients) }
    ensures refused { OnErr result (result ≡ Err Refusal.OutOfMemory) }
{
    let (mut rows, mut cores, mut part) = (rows, cores.into_iter(), 0u8);
    let (mut parts, mut takers, mut ends) = (Vec::new(alloc), Vec::new(alloc), Vec::new(alloc));
    for one in names {
        let Parts {
            mark,
            end,
            reader,
            ring,
        } = one;
        let Some(core) = cores.next() else {
            unreachable!()
        };
        let made = SharedPool::<N, K>::new_part(alloc, part, core, mark, reader, ring);
        let (pool, sessions, taker) = match made {
            Ok(made) => made,
            Err(refusal) => return Err(refusal),
        };
        deal(part, &mut rows, sessions)?;
        let Ok(()) = parts.push(pool) else {
            return Err(Refusal::OutOfMemory);
        };
        let Ok(()) = takers.push(taker) else {
            return Err(Refusal::OutOfMemory);
        };
        let Ok(()) = ends.push(end) else {
            return Err(Refusal::OutOfMemory);
        };
        part += 1;
    }
    Ok(Pools {
        parts,
        takers,
        ends,
        rows,
    })
}

/// Makes each client's sessions of its list.
fn gather<N: PartNames + PartCount, K: ListKeeper>(
    alloc: Global,
    rows: Vec<Vec<Session<N, K>>>,
) -> Result<Vec<PartedSession<N, K>>, Refusal>
    requires rows { AreRows N.parts rows.items }
    requires few { vec_len rows ≤ 64 }
    ensures clients { IfOk result (λ sessions.
        sessions.items ≡ new_clients N.parts (vec_len rows)) }
    ensures refused { OnErr result (result ≡ Err Refusal.OutOfMemory) }
{
    let (mut sessions, mut client) = (Vec::new(alloc), 0u8);
    for row in rows {
        let Ok(()) = sessions.push(PartedSession::new(client, row)) else {
            return Err(Refusal::OutOfMemory);
        };
        client += 1;
    }
    Ok(sessions)
}

/// Makes a pool in parts over new cores, one of each part: the parts, the sessions of each client, what takes each
/// part's trail, and the one log writer. The names are those that `N` stands for: part i has the mark and the rings of
/// place i. `OutOfMemory` where there is not the memory; all that was given is dropped then.
pub fn make_parts<N: PartNames + PartCount, K: ListKeeper>(
    alloc: Global,
    cores: Vec<PoolCore<K>>,
    names: Vec<Parts>,
    clients: u8,
) -> Result<Parted<N, K>, Refusal>
    requires parts { (vec_len cores ≡ N.parts) × (vec_len names ≡ N.parts) }
    requires some { 0 < N.parts }
    requires few { N.parts ≤ 64 }
    requires cores { All (IsNewCore N.parameters) cores.items }
    requires new { (N.before ≡ []) × (N.past ≡ []) }
    requires named { AreNamed N.mark N.ring N.parameters.clients names.items }
    requires clients { clients ≡ N.parameters.clients }
    requires few_clients { clients ≤ 64 }
    ensures sessions { IfOk result (λ made. made.sessions.items ≡ new_clients N.parts clients) }
    ensures takers { IfOk result (λ made. made.takers.items ≡ new_takers N.parts) }
    ensures log { IfOk result (λ made. made.log ≡ 0) }
    ensures room { IfOk result (λ made.
        (made.room.parts ≡ N.parts) × (made.room.clients ≡ clients)) }
    ensures refused { OnErr result (result ≡ Err Refusal.OutOfMemory) }
{
    let room = EndRoom::new(alloc, names.len() as u8, clients)?;
    let rows = empty_rows(alloc, clients)?;
    let Pools {
        parts,
        takers,
        ends,
        rows,
    } = make_pools(alloc, cores, names, rows)?;
    let sessions = gather(alloc, rows)?;
    Ok(Parted {
        pool: PartedPool::new(parts),
        sessions,
        takers,
        log: PartedLog::new(ends),
        room,
    })
}

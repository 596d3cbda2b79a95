//! Pools of either kind, of four pages of 16 bytes over a device in memory, and calls of their clients by page numbers.
//!
//! A pass is held as its note, so that a test can hold it, give it back twice, or hand it to another client. After each
//! call the client's session is still that client's.
ghost use Rattle.std.specs.Prelude.{◌≡◌, []};
ghost use Rattle.bp_trail.specs.Parameters.{Parameters};
ghost use Rattle.bp_page.specs.declared.limits.Geometry.{Geometry as AGeometry};

use bp_core::{Call, Discarded, Entry, PassNote, PoolCore, Settings};
use bp_device::{Flushed, MemDevice, Port};
use bp_keeper::{ListKeeper, RecordingKeeper};
use bp_mark::LogEnd;
use bp_page::{Bytes, Geometry, Image, Lsn, Refusal};
use bp_shared::{Parts, PoolName, Session, SharedPool, Taker};
use bp_workers::Client;
use std::alloc::Global;
use std::sync::Wait;

/// The parts of a pool, and its device of zeros: four pages of 16 bytes.
pub struct Made<K: ListKeeper = RecordingKeeper> {
    pub core: PoolCore<K>,
    pub parts: Parts,
    pub device: MemDevice,
    pub ghost empty: { core.past ≡ [] },
    pub ghost pages_are: { core.parameters.pages ≡ 4 },
    pub ghost size_is: { core.parameters.size ≡ 16 },
    pub ghost device_has: { device.pages ≡ 4 },
    pub ghost device_of: { device.size ≡ 16 },
}

/// Makes the parts of a pool with K 2, no correlated period and a retained period of 1000, whose trail has this room.
pub fn make<K: ListKeeper>(
    alloc: Global,
    frames: usize,
    clients: u8,
    room: usize,
) -> Result<Made<K>, Refusal> {
    let geometry = Geometry::new(4, 16)?;
    let settings = Settings::new(2, 0, 1000)?;
    let device = MemDevice::new(alloc, geometry)?;
    let parts = Parts::new(alloc, clients)?;
    match PoolCore::<K>::new(alloc, geometry, settings, frames, clients, room) {
        Ok(core) => Ok(Made {
            core,
            parts,
            device,
        }),
        Err(refusal) => Err(refusal),
    }
}

/// An open pool, a session for each client, and its device.
#[derive(Drop)]
pub struct Opened<N: PoolName, K: ListKeeper = RecordingKeeper> {
    pub pool: SharedPool<N, K>,
    pub sessions: Vec<Session<N, K>>,
    pub taker: Taker<N>,
    pub end: LogEnd,
    pub device: MemDevice,
    pub ghost end_is: { end.mark ≡ N.mark },
    pub ghost pages_are: { device.pages ≡ N.parameters.pages },
    pub ghost size_is: { device.size ≡ N.parameters.size },
}

pub fn open<N: PoolName, K: ListKeeper>(
    alloc: Global,
    made: Made<K>,
) -> Result<Opened<N, K>, Refusal>
    requires mark { made.parts.mark ≡ N.mark }
    requires parameters { made.core.parameters ≡ N.parameters }
    requires before { made.core.before ≡ N.before }
    requires past { made.core.past ≡ N.past }
    requires ring { made.parts.ring ≡ N.ring }
{
    let Made {
        core,
        parts,
        device,
    } = made;
    let Parts {
        mark,
        end,
        reader,
        ring,
    } = parts;
    match SharedPool::<N, K>::new(alloc, core, mark, reader, ring) {
        Ok((pool, sessions, taker)) => Ok(Opened {
            pool,
            sessions,
            taker,
            end,
            device,
        }),
        Err(refusal) => Err(refusal),
    }
}

/// Fixes a page. It stays pinned until its note is given back.
pub fn fix<N: PoolName, P: Port, K: ListKeeper, R: Wait>(
    rt: &R,
    pool: &SharedPool<N, K>,
    client: &mut Client<N, P, K>,
    number: u64,
) -> Result<PassNote, Refusal>
    ensures client { client.new.session.client ≡ client.old.session.client }
{
    let Some(page) = client.port.geometry().page(number) else {
        return Err(Refusal::OutOfPage);
    };
    let pass = pool.fix(rt, &mut client.session, &mut client.port, page)?;
    Ok(pass.note())
}

/// Gives a pass back. Where that is refused, the serial number of the returned pass comes with the refusal.
pub fn unfix<N: PoolName, P: Port, K: ListKeeper>(
    pool: &SharedPool<N, K>,
    client: &mut Client<N, P, K>,
    note: PassNote,
) -> Result<(), (Refusal, u64)>
    ensures client { client.new.session.client ≡ client.old.session.client }
{
    match pool.unfix(&mut client.session, note.pass()) {
        Ok(()) => Ok(()),
        Err((back, refusal)) => Err((refusal, back.note().serial())),
    }
}

/// Gives a pass back. A full ring is emptied for it.
pub fn unfix_draining<N: PoolName, P: Port, K: ListKeeper, R: Wait>(
    rt: &R,
    pool: &SharedPool<N, K>,
    client: &mut Client<N, P, K>,
    note: PassNote,
) -> Result<(), Refusal>
    ensures client { client.new.session.client ≡ client.old.session.client }
{
    match pool.unfix_draining(rt, &mut client.session, note.pass()) {
        Ok(()) => Ok(()),
        Err((back, refusal)) => {
            back.note();
            Err(refusal)
        }
    }
}

pub fn read<N: PoolName, P: Port, K: ListKeeper, R: Wait>(
    rt: &R,
    pool: &SharedPool<N, K>,
    client: &mut Client<N, P, K>,
    note: PassNote,
) -> Result<Image, Refusal>
    ensures client { client.new.session.client ≡ client.old.session.client }
{
    let pass = note.pass();
    let read = pool.read(rt, &mut client.session, &pass);
    pass.note();
    read
}

/// Writes one byte at offset 0 of a pass's page.
pub fn write<N: PoolName, P: Port, K: ListKeeper, R: Wait>(
    rt: &R,
    alloc: Global,
    pool: &SharedPool<N, K>,
    client: &mut Client<N, P, K>,
    note: PassNote,
    byte: u8,
    lsn: u64,
) -> Result<(), Refusal>
    ensures client { client.new.session.client ≡ client.old.session.client }
{
    let bytes = Bytes::of(alloc, &[byte])?;
    if !client.port.geometry().fits(0, bytes.bytes().len()) {
        return Err(Refusal::OutOfPage);
    }
    let pass = note.pass();
    let wrote = pool.write_from(rt, &mut client.session, &pass, 0, &[byte], Lsn::new(lsn));
    pass.note();
    wrote
}

pub fn flush<N: PoolName, P: Port, K: ListKeeper, R: Wait>(
    rt: &R,
    pool: &SharedPool<N, K>,
    client: &mut Client<N, P, K>,
    number: u64,
) -> Result<Flushed, Refusal>
    ensures client { client.new.session.client ≡ client.old.session.client }
{
    match client.port.geometry().page(number) {
        Some(page) => pool.flush(rt, &mut client.session, &mut client.port, page),
        None => Err(Refusal::OutOfPage),
    }
}

pub fn discard<N: PoolName, P: Port, K: ListKeeper, R: Wait>(
    rt: &R,
    pool: &SharedPool<N, K>,
    client: &mut Client<N, P, K>,
    number: u64,
) -> Result<Discarded, Refusal>
    ensures client { client.new.session.client ≡ client.old.session.client }
{
    match client.port.geometry().page(number) {
        Some(page) => pool.discard(rt, &mut client.session, page),
        None => Err(Refusal::OutOfPage),
    }
}

/// Returns how many passes went back.
pub fn unfixes(entries: &[Entry]) -> usize {
    entries
        .iter()
        .filter(|entry| matches!(entry.call, Call::Unfix { .. }))
        .count()
}

//! Makes the parts of a pool, and what its clients need.
ghost use Rattle.std.specs.Prelude.{◌≡◌, [], IfOk};
ghost use Rattle.bp_trail.specs.Parameters.{Parameters};
ghost use Rattle.bp_page.specs.declared.limits.Geometry.{Geometry as AGeometry};

use crate::clients::Note;
use crate::kinds::Kind;
use crate::ports::NotingPort;
use bp_core::{PoolCore, Settings};
use bp_device::{MemDevice, MemPort, Port};
use bp_page::{Geometry, Refusal};
use bp_shared::Parts;
use scenario_cores::{Device, Lists, new_device, new_lists};
use scenario_words::Shape;
use std::alloc::Global;
use test_ports::FusePort;

/// A port of which one call may fail.
pub(crate) type Fused = FusePort<MemPort>;

/// A port of which one call may fail, and which tells the page LSN of its newest write.
pub(crate) type Noting = NotingPort<Fused>;

/// What a pool needs besides its parts: its device of zeros, the ports of its clients, their notes, and what they were
/// given.
#[derive(Drop)]
pub(crate) struct Beside {
    pub(crate) device: Device,
    /// The port of client 0, of which one call may fail.
    pub(crate) first: Noting,
    /// The port of the other clients, which fails only where memory is refused.
    pub(crate) others: Noting,
    /// One for each client.
    pub(crate) notes: Vec<Note>,
    pub(crate) lists: Lists,
}

impl Beside {
    /// Returns the number of reads of all clients that failed only for want of memory.
    pub(crate) fn unread(&self) -> u64 {
        let mut unread = 0u64;
        for note in self.notes.iter() {
            unread = unread.saturating_add(note.unread);
        }
        unread
    }

    /// Returns the number of failures of a client's port, and the page LSN of its newest write, or 0.
    pub(crate) fn port_state(&self, client: u64) -> (u64, u64) {
        if client == 0 {
            (self.first.failures(), self.first.lsn())
        } else {
            (self.others.failures(), self.others.lsn())
        }
    }
}

/// All that a pool and its clients need, so that nothing can fail once the pool is there.
pub(crate) struct Made<K: Kind> {
    pub(crate) core: PoolCore<K>,
    pub(crate) parts: Parts,
    pub(crate) beside: Beside,
    pub(crate) ghost empty: { core.past ≡ [] },
    pub(crate) ghost first_pages: { beside.first.inner.inner.device.pages ≡ core.parameters.pages },
    pub(crate) ghost first_size: { beside.first.inner.inner.device.size ≡ core.parameters.size },
    pub(crate) ghost others_pages: { beside.others.inner.inner.device.pages ≡ core.parameters.pages },
    pub(crate) ghost others_size: { beside.others.inner.inner.device.size ≡ core.parameters.size },
}

/// Makes the parts of a pool of this shape. The core comes last, so that no core is to be dropped where a step fails.
pub(crate) fn make<K: Kind>(alloc: Global, shape: &Shape) -> Result<Made<K>, Refusal> {
    let geometry = Geometry::new(shape.pages, shape.size)?;
    let settings = Settings::new(shape.k, shape.correlated, shape.retained)?;
    let parts = Parts::new(alloc, shape.clients)?;
    let beside = match new_beside(alloc, geometry, shape) {
        Ok(beside) => beside,
        Err(refusal) => {
            drop(parts);
            return Err(refusal);
        }
    };
    let (frames, clients, room) = (shape.frames, shape.clients, shape.room);
    match PoolCore::<K>::new(alloc, geometry, settings, frames, clients, room) {
        Ok(core) => Ok(Made {
            core,
            parts,
            beside,
        }),
        Err(refusal) => {
            drop(parts);
            drop(beside);
            Err(refusal)
        }
    }
}

fn new_beside(alloc: Global, geometry: Geometry, shape: &Shape) -> Result<Beside, Refusal>
    ensures first { IfOk result (λ beside. beside.first.inner.inner.device ≡ geometry) }
    ensures others { IfOk result (λ beside. beside.others.inner.inner.device ≡ geometry) }
{
    let Some(lists) = new_lists(alloc) else {
        return Err(Refusal::OutOfMemory);
    };
    let notes = new_notes(alloc, shape.clients)?;
    let device = new_device(alloc, geometry, 0, false)?;
    let (first, others) = new_ports(alloc, &device.memory, shape)?;
    Ok(Beside {
        device,
        first: NotingPort::new(first),
        others: NotingPort::new(others),
        notes,
        lists,
    })
}

fn new_notes(alloc: Global, clients: u8) -> Result<Vec<Note>, Refusal> {
    let mut notes = Vec::new(alloc);
    for _ in 0..clients {
        let Ok(()) = notes.push(Note::new(alloc)) else {
            return Err(Refusal::OutOfMemory);
        };
    }
    Ok(notes)
}

/// Makes a port to the device whose n-th call fails, or none where n is 0. With `spoils`, a write that fails spoils its
/// page.
pub(crate) fn new_port(
    alloc: Global,
    device: &MemDevice,
    n: u64,
    spoils: bool,
) -> Result<Fused, Refusal>
    ensures { IfOk result (λ port. port.inner.device ≡ device.now) }
{
    match device.port() {
        Ok(port) => FusePort::new(alloc, port, n, spoils),
        Err(refusal) => Err(refusal),
    }
}

/// Makes two ports to the device. One call of the first may fail.
pub(crate) fn new_ports(
    alloc: Global,
    device: &MemDevice,
    shape: &Shape,
) -> Result<(Fused, Fused), Refusal>
    ensures first { IfOk result (λ ports. ports.0.inner.device ≡ device.now) }
    ensures others { IfOk result (λ ports. ports.1.inner.device ≡ device.now) }
{
    let first = new_port(alloc, device, shape.fuse, shape.spoils)?;
    let others = new_port(alloc, device, 0, false)?;
    Ok((first, others))
}

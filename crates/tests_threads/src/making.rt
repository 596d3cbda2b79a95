//! Shared by the tests of failures: clients of a pool, of which the first has a port that fails once.
ghost use Rattle.std.specs.Prelude.{◌≡◌};
ghost use Rattle.bp_page.specs.declared.limits.Geometry.{Geometry as AGeometry};

use crate::gates::{Gate, HeldPort};
use bp_core::PassNote;
use bp_device::{MemDevice, MemPort, Port};
use bp_page::{PageNo, Refusal};
use bp_shared::{PoolName, Session, SharedPool};
use bp_trail::Totals;
use bp_workers::Client;
use std::process::Abort;
use std::sync::Wait;
use test_ports::FusePort;
use test_support::pools::{fix, read, unfix, write};

/// The first client's port: its n-th call fails, which for a write may leave a page of bytes 255. None of its calls
/// goes on while its gate is shut.
#[derive(Drop)]
pub(crate) struct Fails {
    pub(crate) n: u64,
    pub(crate) spoil: bool,
    pub(crate) is_held: bool,
}

pub(crate) type Way = HeldPort<FusePort<MemPort>>;

fn way<R: Abort + AllocGlobal>(rt: &R, device: &MemDevice, fails: &Fails) -> Way
    ensures { result.inner.inner.device ≡ device.now }
{
    let port = device.port().expect(rt, "the port");
    HeldPort {
        inner: FusePort::new(rt.alloc(), port, fails.n, fails.spoil).expect(rt, "the port"),
        gate: Gate::new(rt, !fails.is_held),
    }
}

/// Makes a client for each session. Only the first one's port fails.
pub(crate) fn clients_of<N: PoolName, R: Abort + AllocGlobal>(
    rt: &R,
    device: &MemDevice,
    sessions: Vec<Session<N>>,
    fails: &Fails,
) -> Vec<Client<N, Way>>
    requires pages { device.now.pages ≡ N.parameters.pages }
    requires size { device.now.size ≡ N.parameters.size }
{
    let never = Fails {
        n: 0,
        spoil: false,
        is_held: false,
    };
    let mut clients = Vec::new(rt.alloc());
    for session in sessions {
        let how = if session.client() == 0 { fails } else { &never };
        let port = way(rt, device, how);
        let client = Client { session, port };
        clients.push(client).expect(rt, "the client");
    }
    clients
}

fn leave<N: PoolName, R: Wait + Abort>(
    rt: &R,
    pool: &SharedPool<N>,
    client: &mut Client<N, Way>,
    note: PassNote,
) {
    let back = unfix(pool, client, note);
    assert!(rt; back.is_ok());
    let ticked = pool.tick(rt, &mut client.session, 1);
    ticked.expect(rt, "the clock");
}

/// Fixes a page, gives it back, and moves the clock on. It returns the page's first byte.
pub(crate) fn look<N: PoolName, R: Wait + Abort>(
    rt: &R,
    pool: &SharedPool<N>,
    client: &mut Client<N, Way>,
    number: u64,
) -> Result<Option<u8>, Refusal> {
    let note = fix(rt, pool, client, number)?;
    let image = read(rt, pool, client, note)?;
    leave(rt, pool, client, note);
    Ok(image.bytes().first().copied())
}

/// Writes the byte 5 at offset 0 of page 1, with LSN 0, and moves the clock on.
pub(crate) fn change<N: PoolName, R: Wait + Abort + AllocGlobal>(
    rt: &R,
    pool: &SharedPool<N>,
    client: &mut Client<N, Way>,
) {
    let note = fix(rt, pool, client, 1).expect(rt, "the page");
    let wrote = write(rt, rt.alloc(), pool, client, note, 5, 0);
    wrote.expect(rt, "the write");
    leave(rt, pool, client, note);
}

/// Returns the first byte of page 1 on the device.
pub(crate) fn on_device<R: Wait + Abort>(rt: &R, device: &MemDevice) -> Option<u8> {
    let mut port = device.port().expect(rt, "the port");
    match port.read(rt, PageNo::new(1)) {
        Ok(image) => image.bytes().first().copied(),
        Err(fault) => panic!(rt; "{fault}"),
    }
}

/// Returns hits, faults, evictions, writes and failures. Refusals depend on the schedule: a page may be found in flight
/// more or less often.
pub(crate) fn counts(totals: &Totals) -> [u64; 5] {
    [
        totals.hits,
        totals.faults,
        totals.evictions,
        totals.writes,
        totals.failed,
    ]
}

//! `Device`, the memory device of a driven core or of sessions.
ghost use Rattle.std.specs.Prelude.{◌≡◌, IfOk};

use crate::outcomes::went;
use bp_device::{MemDevice, MemPort, Port};
use bp_page::{Bytes, Geometry, Lsn, PageNo, PortFault, Refusal};
use bp_trail::Reply;
use scenario_words::{Answer, Said, Shape, Thing, Verb, filled};
use std::alloc::Global;
use std::sync::Wait;
use test_ports::FusePort;

/// A device in memory, and a port to it of which one call may fail.
#[derive(Drop)]
pub struct Device {
    pub(crate) alloc: Global,
    pub memory: MemDevice,
    pub port: FusePort<MemPort>,
}

/// Makes a device of zeros, and a port to it whose n-th call fails, or none where n is 0. With `spoils`, a write that
/// fails spoils its page.
pub fn new_device(
    alloc: Global,
    geometry: Geometry,
    n: u64,
    spoils: bool,
) -> Result<Device, Refusal>
    ensures { IfOk result (λ device. device.memory ≡ geometry) }
{
    let memory = MemDevice::new(alloc, geometry)?;
    let port = memory.port()?;
    match FusePort::new(alloc, port, n, spoils) {
        Ok(port) => Ok(Device {
            alloc,
            memory,
            port,
        }),
        Err(refusal) => Err(refusal),
    }
}

/// Makes the device of something that a line makes, if it has one.
pub fn device_for(
    alloc: Global,
    thing: Thing,
    geometry: Geometry,
    shape: &Shape,
) -> Result<Option<Device>, Refusal> {
    match thing {
        Thing::Driven => match new_device(alloc, geometry, shape.fuse, shape.spoils) {
            Ok(device) => Ok(Some(device)),
            Err(refusal) => Err(refusal),
        },
        _ => Ok(None),
    }
}

/// Writes an image, which may be longer than a page.
fn put(alloc: Global, rt: &impl Wait, memory: &MemDevice, page: u64, front: &Bytes) -> Answer {
    let Ok(mut port) = memory.port() else {
        return Answer::BadLine;
    };
    let size = port.geometry().size.max(front.bytes().len());
    match filled(alloc, size, front) {
        Some(image) => went(port.write(rt, PageNo::new(page), &image, Lsn::new(0))),
        None => Answer::BadLine,
    }
}

fn page_on(rt: &impl Wait, memory: &MemDevice, page: u64) -> Answer {
    let Ok(mut port) = memory.port() else {
        return Answer::BadLine;
    };
    match port.read(rt, PageNo::new(page)) {
        Ok(image) => Answer::Reply(Reply::Content(image)),
        Err(PortFault::Memory) => Answer::BadLine,
        Err(_) => Answer::Word("failed"),
    }
}

/// Puts a page on a device, or tells a page of it. It uses a port of its own, so it does not count as a call of the
/// core's port.
pub(crate) fn call_device(
    alloc: Global,
    rt: &impl Wait,
    memory: &MemDevice,
    call: &Said,
) -> Answer {
    let [page, _, _] = call.numbers.list;
    match (call.verb, &call.bytes) {
        (Verb::Put, Some(front)) => put(alloc, rt, memory, page, front),
        (Verb::Device, _) => page_on(rt, memory, page),
        _ => Answer::BadLine,
    }
}

impl Device {
    /// Puts a page on the device, tells a page of it, or tells how many calls of the core's port failed.
    pub fn call(&self, rt: &impl Wait, call: &Said) -> Answer {
        match call.verb {
            Verb::Failures => Answer::Number(self.port.failures()),
            _ => call_device(self.alloc, rt, &self.memory, call),
        }
    }
}

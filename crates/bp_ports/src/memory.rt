//! `MemDevice`, a device in memory, and `MemPort`, a client's port to it.
ghost use Rattle.std.specs.Prelude.{◌≡◌, ◌*◌, false, Ok, IfOk, OnErr, replicate};
ghost use Rattle.bp_page.specs.declared.limits.Geometry.{Geometry};
ghost use Rattle.bp_ports.specs.Ports.{PortView, ReadsPage, WritesPage, new_port};

use crate::failures::Failures;
use crate::places::start_of;
use crate::port::Port;
use bp_page::{Geometry, Image, Lsn, PageNo, PortFault, Refusal};
use std::alloc::{AllocError, Global};
use std::marker::Model;
use std::sync::{Arc, Mutex, Wait};

/// A device whose pages stand in memory. Contracts see its geometry.
#[derive(Drop)]
pub struct MemDevice {
    alloc: Global,
    device: Geometry,
    bytes: Arc<Mutex<Vec<u8>>, Global>,
}

impl Model for MemDevice {
    ghost Value = { Geometry };

    ghost view = { λ d. d.device };
}

impl MemDevice {
    /// Makes a device of so many pages, all bytes 0. `OutOfMemory` where there is no memory for them.
    pub fn new(alloc: Global, geometry: Geometry) -> Result<MemDevice, Refusal>
        ensures geometry { IfOk result (λ made. made ≡ geometry) }
        ensures memory { OnErr result (result ≡ Err Refusal.OutOfMemory) }
    {
        let zeros = zero_bytes(alloc, geometry.pages as usize * geometry.size)?;
        let Ok(bytes) = Arc::new(alloc, Mutex::new(zeros)) else {
            return Err(Refusal::OutOfMemory);
        };
        Ok(MemDevice {
            alloc,
            device: geometry,
            bytes,
        })
    }

    /// Makes a port for one more client. `OutOfMemory` where the device can't be shared once more.
    pub fn port(&self) -> Result<MemPort, Refusal>
        ensures port { IfOk result (λ port. port ≡ new_port self.now) }
        ensures memory { OnErr result (result ≡ Err Refusal.OutOfMemory) }
    {
        let bytes = Arc::try_clone(&self.bytes)?;
        Ok(MemPort {
            alloc: self.alloc,
            device: self.device,
            bytes,
            count: Failures::none(),
        })
    }
}

fn zero_bytes(alloc: Global, length: usize) -> Result<Vec<u8>, AllocError>
    ensures { IfOk result (λ bytes. bytes.items ≡ replicate length 0) }
{
    vec![in alloc; 0u8; length]
}

/// A client's port to a device in memory. A call waits while another port reads or writes there.
#[derive(Drop)]
pub struct MemPort {
    alloc: Global,
    device: Geometry,
    bytes: Arc<Mutex<Vec<u8>>, Global>,
    count: Failures,
}

impl Model for MemPort {
    ghost Value = { PortView (Unit {0}) };

    ghost view = { λ p. record {
      device = p.device;
      failures = p.count;
      headed = false;
      store = tt;
    } };
}

impl Port for MemPort {
    ghost geometry_of = { λ p. p.device };

    ghost failures_of = { λ p. p.failures };

    ghost is_headed = { λ p. p.headed };

    ghost read_gives = { ReadsPage };

    ghost write_gives = { λ port page image lsn written after.
        WritesPage port page image written after };

    ghost sync_gives = { λ port synced after. (synced ≡ Ok tt) × (after ≡ port) };

    fn geometry(&self) -> Geometry {
        self.device
    }

    fn failures(&self) -> u64 {
        self.count.count()
    }

    fn read<R: Wait>(&mut self, rt: &R, page: PageNo) -> Result<Image, PortFault> {
        let Some(start) = start_of(&self.device, self.device.size, page) else {
            return Err(self.count.add());
        };
        let start = start as usize;
        let Ok(mut image) = Image::blank(self.alloc, &self.device) else {
            return Err(PortFault::Memory);
        };
        let bytes = self.bytes.lock(rt);
        match bytes.get(start..start + self.device.size) {
            Some(found) => {
                image.patch(0, found);
                Ok(image)
            }
            None => Err(self.count.add()),
        }
    }

    // The LSN is not kept.
    fn write<R: Wait>(
        &mut self,
        rt: &R,
        page: PageNo,
        image: &Image,
        _lsn: Lsn,
    ) -> Result<(), PortFault> {
        let Some(start) = start_of(&self.device, self.device.size, page) else {
            return Err(self.count.add());
        };
        let start = start as usize;
        if image.bytes().len() != self.device.size {
            return Err(self.count.add());
        }
        let mut bytes = self.bytes.lock(rt);
        match bytes
            .as_mut_slice()
            .get_mut(start..start + self.device.size)
        {
            Some(found) => {
                found.copy_from_slice(image.bytes());
                Ok(())
            }
            None => Err(self.count.add()),
        }
    }

    // There is nothing to sync: a page is kept nowhere else than in this memory.
    fn sync<R: Wait>(&mut self, _rt: &R) -> Result<(), PortFault> {
        Ok(())
    }
}

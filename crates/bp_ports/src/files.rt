//! `FilePort`: a port to a page file, of version 1 or 2, or to another store.
ghost use Rattle.std.specs.Prelude.{◌≡◌, ◌≢◌, ◌<◌, ◌≤◌, ◌+◌, ◌*◌, ◌↔◌, ℕ, true, false, IsOk, IfOk, IfErr, OnErr, IsSome, IfSome, length, vec_len};
ghost use Rattle.bp_page.specs.Limits.{IsGeometry};
ghost use Rattle.bp_page.specs.Slots.{slot_size};
ghost use Rattle.bp_ports.specs.Ports.{Counts, IsCounted, IsUnasked, PortView, has_headers};
ghost use Rattle.bp_ports.specs.Files.{FoundWithLsn, IsFileLength, IsOpenFault, ReadsStore, ReadsWithLsn, WritesStore, WrittenBy, SyncsStore, place_of, room_of, slot_of};

use crate::failures::Failures;
use crate::places::start_of;
use crate::port::Port;
use crate::store::Store;
use bp_page::{Format, Geometry, Image, Lsn, PageNo, PortFault, Refusal, fill_slot2, unslot2};
use std::alloc::Global;
use std::fs::{File, OpenOptions};
use std::marker::Model;
use std::path::AsPath;
use std::rt::Files;
use std::sync::Wait;
use thiserror::Error;

/// Why a page file was not opened or made.
#[derive(Clone, Copy, PartialEq, Eq, Debug, Error)]
pub enum OpenFault {
    /// Its length, its geometry or the memory for it was refused.
    #[error("{0}")]
    Refused(Refusal),
    /// It can't be opened or made, or a port to it could not be made.
    #[error("{0}")]
    Port(PortFault),
}

/// A client's port to a page file, or to another store where one is named. In version 1 page p stands as its bytes, at
/// byte p · size; in version 2 after its number and its page LSN, at byte p · (size + 16).
#[derive(Drop)]
pub struct FilePort<S: Store = File> {
    alloc: Global,
    device: Geometry,
    format: Format,
    store: S,
    /// A slot of version 2. One of version 1 is the image, so there it has no bytes.
    buffer: Vec<u8>,
    count: Failures,
    ghost room: { vec_len buffer ≡ room_of format device.size },
}

impl<S: Store> Model for FilePort<S> {
    ghost Value = { PortView S };

    ghost view = { λ p. record {
      device = p.device;
      failures = p.count;
      headed = has_headers p.format;
      store = p.store;
    } };
}

/// Returns the geometry of a page file of so many bytes and this version, with pages of this size. `BadLength` where
/// they are no whole slots, none, or more than 1,048,576.
pub fn geometry_of_file(bytes: u64, size: usize, format: Format) -> Result<Geometry, Refusal>
    requires size { IsGeometry 1 size }
    ensures accepted { IsOk result ↔ IsFileLength (slot_size format size) bytes }
    ensures refused { OnErr result (result ≡ Err Refusal.BadLength) }
    ensures size { IfOk result (λ geometry. geometry.size ≡ size) }
    ensures pages { IfOk result (λ geometry. bytes ≡ geometry.pages * slot_size format size) }
{
    let slot = format.slot_size(size) as u64;
    if bytes % slot != 0 {
        return Err(Refusal::BadLength);
    }
    match Geometry::new(bytes / slot, size) {
        Ok(geometry) => Ok(geometry),
        Err(_) => Err(Refusal::BadLength),
    }
}

impl FilePort {
    /// Opens a page file of this version for reading and writing. It is neither made nor cut, and its length tells how
    /// many pages it has.
    ///
    /// `Refused(BadLength)` where it is no positive number of whole slots of pages of this size, or more than
    /// 1,048,576; `Port(Device)` where it can't be opened, and `Port(Memory)` where there is no memory for a slot of
    /// version 2.
    pub fn open<R: Files<File = File>, P: AsPath>(
        rt: &R,
        alloc: Global,
        path: P,
        size: usize,
        format: Format,
    ) -> Result<FilePort, OpenFault>
        requires size { IsGeometry 1 size }
        ensures opened { IfOk result (λ port. (port.device.size ≡ size) × (port.failures ≡ 0)) }
        ensures headed { IfOk result (λ port. port.headed ≡ has_headers format) }
        ensures refused { IfErr result IsOpenFault }
    {
        let Ok(file) = OpenOptions::new().read(true).write(true).open(rt, path) else {
            return Err(OpenFault::Port(PortFault::Device));
        };
        let Ok(metadata) = file.metadata() else {
            return Err(OpenFault::Port(PortFault::Device));
        };
        let Ok(device) = geometry_of_file(metadata.len(), size, format) else {
            return Err(OpenFault::Refused(Refusal::BadLength));
        };
        FilePort::over(alloc, file, device, format)
    }
}

impl<S: Store> FilePort<S> {
    /// Makes a port to the pages of this geometry and version in a store. `Port(Memory)` where there is no memory for a
    /// slot of version 2; version 1 takes none.
    pub fn over(
        alloc: Global,
        store: S,
        device: Geometry,
        format: Format,
    ) -> Result<FilePort<S>, OpenFault>
        ensures device { IfOk result (λ port. (port.device ≡ device) × (port.failures ≡ 0)) }
        ensures headed { IfOk result (λ port. port.headed ≡ has_headers format) }
        ensures store { IfOk result (λ port. port.store ≡ store) }
        ensures refused { OnErr result (result ≡ Err (OpenFault.Port PortFault.Memory)) }
        ensures plain { has_headers format ≡ false → IsOk result }
    {
        let buffer = match format {
            Format::Plain => Ok(Vec::new(alloc)),
            Format::Headed => vec![in alloc; 0u8; format.slot_size(device.size)],
        };
        let Ok(buffer) = buffer else {
            return Err(OpenFault::Port(PortFault::Memory));
        };
        Ok(FilePort {
            alloc,
            device,
            format,
            store,
            buffer,
            count: Failures::none(),
        })
    }

    /// Reads a page, with the page LSN that stands in its slot: the one under which the image went out, from which on
    /// redo by page LSN begins. `None` in version 1, whose slots have none. Else this is `Port::read`, with its faults:
    /// `WrongPage` if another page's number stands there, `Memory` without memory for the image, else `Device`, which
    /// is counted.
    pub fn read_with_lsn(&mut self, page: PageNo) -> Result<(Option<Lsn>, Image), PortFault>
        ensures size { IfOk result (λ found. length found.1 ≡ self.old.device.size) }
        ensures wrong { result ≡ Err PortFault.WrongPage → self.old.headed ≡ true }
        ensures same { (self.new.device ≡ self.old.device) × (self.new.headed ≡ self.old.headed) }
        ensures gives { ReadsWithLsn S.reads self.old page result self.new }
    {
        match self.start(page) {
            Some(start) => self.read_at(page, start),
            None => Err(self.count.add()),
        }
    }

    /// Reads the slot that begins at this byte, in which the page's number stands, with the faults of `read_with_lsn`.
    pub(crate) fn read_at(
        &mut self,
        page: PageNo,
        start: u64,
    ) -> Result<(Option<Lsn>, Image), PortFault>
        ensures size { IfOk result (λ found. length found.1 ≡ self.old.device.size) }
        ensures wrong { result ≡ Err PortFault.WrongPage → self.old.headed ≡ true }
        ensures same { (self.new.device ≡ self.old.device) × (self.new.headed ≡ self.old.headed) }
        ensures counts { Counts result self.old.failures self.new.failures }
        ensures found { FoundWithLsn S.reads self.old.headed page start self.old.store result
            self.new.store }
    {
        let size = self.device.size;
        let read = match self.format {
            Format::Plain => read_plain(&mut self.store, self.alloc, start, size),
            Format::Headed => {
                read_headed(&mut self.store, self.alloc, page, start, &mut self.buffer)
            }
        };
        self.count.count_failure(read)
    }

    /// Writes the slot that begins at this byte, with the page's number and page LSN in it in version 2. An image of
    /// another size than the device's pages is a failure, and nothing is written then. It takes no memory: a slot of
    /// version 1 is the image's own bytes, and one of version 2 is made in the buffer.
    pub(crate) fn write_at(
        &mut self,
        page: PageNo,
        start: u64,
        image: &Image,
        lsn: Lsn,
    ) -> Result<(), PortFault>
        ensures fault { OnErr result (result ≡ Err PortFault.Device) }
        ensures same { (self.new.device ≡ self.old.device) × (self.new.headed ≡ self.old.headed) }
        ensures counts { Counts result self.old.failures self.new.failures }
        ensures sized { length image.now ≢ self.old.device.size
            → IsUnasked result self.old.store self.new.store }
        ensures written { length image.now ≡ self.old.device.size → WrittenBy S.writes start
            self.old.store (slot_of self.old.headed page lsn image.now) result self.new.store }
    {
        if image.bytes().len() != self.device.size {
            return Err(self.count.add());
        }
        let written = match self.format {
            Format::Plain => self.store.write_slot(start, image.bytes()),
            Format::Headed => {
                fill_slot2(&mut self.buffer, page, lsn, image);
                self.store.write_slot(start, &self.buffer)
            }
        };
        match written {
            Ok(()) => Ok(()),
            Err(_) => Err(self.count.add()),
        }
    }

    /// Adds a failure of the device that no call of the store was.
    pub(crate) fn fail(&mut self) -> PortFault
        ensures fault { result ≡ PortFault.Device }
        ensures counted { IsCounted self.old.failures self.new.failures }
        ensures same { (self.new.device ≡ self.old.device) × (self.new.headed ≡ self.old.headed) }
        ensures store { self.new.store ≡ self.old.store }
    {
        self.count.add()
    }

    /// Returns the byte at which the slot with a page's number begins, also where the page is another stripe's.
    pub(crate) fn start_of_slot(&self, page: PageNo) -> u64
        requires few { page < 67108864 }
        ensures { result ≡ place_of self.now page }
    {
        page.number() * self.format.slot_size(self.device.size) as u64
    }

    /// Returns the byte at which a page's slot begins, or `None` where the file has no such page.
    fn start(&self, page: PageNo) -> Option<u64>
        ensures in_range { IsSome result ↔ (page < self.now.device.pages) }
        ensures start { IfSome result (λ start. start ≡ place_of self.now page) }
    {
        start_of(&self.device, self.format.slot_size(self.device.size), page)
    }
}

/// Reads the slot of version 1 that begins at this byte, as the image itself, with no page LSN. `Memory` where there is
/// no memory for the image, and then nothing is read.
fn read_plain<S: Store>(
    store: &mut S,
    alloc: Global,
    start: u64,
    size: usize,
) -> Result<(Option<Lsn>, Image), PortFault>
    ensures size { IfOk result (λ found. length found.1 ≡ size) }
    ensures never_wrong { result ≢ Err PortFault.WrongPage }
    ensures found { (page : ℕ) → FoundWithLsn S.reads false page start store.old result store.new }
{
    let Ok(mut bytes) = vec![in alloc; 0u8; size] else {
        return Err(PortFault::Memory);
    };
    match store.read_slot(start, &mut bytes) {
        Ok(()) => Ok((None, Image::from_vec(bytes))),
        Err(_) => Err(PortFault::Device),
    }
}

/// Reads the slot of version 2 that begins at this byte. `WrongPage` exactly where it was read and has the number of
/// another page, else `Memory` where there is no memory for the image.
fn read_headed<S: Store>(
    store: &mut S,
    alloc: Global,
    page: PageNo,
    start: u64,
    slot: &mut [u8],
) -> Result<(Option<Lsn>, Image), PortFault>
    requires header { 16 ≤ length slot.old }
    ensures size { IfOk result (λ found. length slot.old ≡ 16 + length found.1) }
    ensures found { FoundWithLsn S.reads true page start store.old result store.new }
{
    match store.read_slot(start, slot) {
        Ok(()) => {
            let (lsn, image) = unslot2(alloc, page, slot)?;
            Ok((Some(lsn), image))
        }
        Err(_) => Err(PortFault::Device),
    }
}

impl<S: Store> Port for FilePort<S> {
    ghost geometry_of = { λ p. p.device };

    ghost failures_of = { λ p. p.failures };

    ghost is_headed = { λ p. p.headed };

    ghost read_gives = { ReadsStore S.reads };

    ghost write_gives = { WritesStore S.writes };

    ghost sync_gives = { SyncsStore S.syncs };

    fn geometry(&self) -> Geometry {
        self.device
    }

    fn failures(&self) -> u64 {
        self.count.count()
    }

    fn read<R: Wait>(&mut self, _rt: &R, page: PageNo) -> Result<Image, PortFault> {
        match self.read_with_lsn(page) {
            Ok((_, image)) => Ok(image),
            Err(fault) => Err(fault),
        }
    }

    fn write<R: Wait>(
        &mut self,
        _rt: &R,
        page: PageNo,
        image: &Image,
        lsn: Lsn,
    ) -> Result<(), PortFault> {
        match self.start(page) {
            Some(start) => self.write_at(page, start, image, lsn),
            None => Err(self.count.add()),
        }
    }

    fn sync<R: Wait>(&mut self, _rt: &R) -> Result<(), PortFault> {
        match self.store.sync_slots() {
            Ok(()) => Ok(()),
            Err(_) => Err(self.count.add()),
        }
    }
}

//! `StripedPort`: a port to each n-th page of a page file, for a pool in parts.
ghost use Rattle.std.specs.Prelude.{◌≡◌, ◌≢◌, ◌<◌, ◌≤◌, ◌*◌, ◌↔◌, true, false, IsOk, IfOk, IfErr, OnErr, IsSome, IfSome, length};
ghost use Rattle.bp_page.specs.Limits.{IsGeometry};
ghost use Rattle.bp_page.specs.Slots.{slot_size};
ghost use Rattle.bp_ports.specs.Ports.{has_headers};
ghost use Rattle.bp_ports.specs.Files.{IsFileLength, IsOpenFault, place_of};
ghost use Rattle.bp_ports.specs.Stripes.{IsParts, StripedView, IsSameStripe, ReadsStriped, ReadsStripedLsn, SyncsStriped, WritesStriped, turned, whole_page};

use crate::files::{FilePort, OpenFault};
use crate::port::Port;
use crate::store::Store;
use bp_page::{Format, Geometry, Image, Lsn, PageNo, PortFault, Refusal};
use std::alloc::Global;
use std::fs::{File, OpenOptions};
use std::marker::Model;
use std::path::AsPath;
use std::rt::Files;
use std::sync::Wait;

/// The most stripes of a file.
pub const MAX_PARTS: u64 = 64;

/// A client's port to one stripe of a page file, or of another store: where the file has n stripes, page q of stripe i
/// is page q · n + i of the file, and stands there as `FilePort` has it, in version 2 with that number. So the file is
/// an ordinary page file, which may have up to 1,048,576 pages for each stripe.
///
/// Its owner turns it from stripe to stripe. All have the same geometry, which is the port's.
#[derive(Drop)]
pub struct StripedPort<S: Store = File> {
    /// The file, with the geometry of one stripe.
    file: FilePort<S>,
    parts: u64,
    part: u64,
    ghost parts_are: { IsParts parts },
    ghost part_in: { part < parts },
}

impl<S: Store> Model for StripedPort<S> {
    ghost Value = { StripedView S };

    ghost view = { λ p. record { file = p.file; parts = p.parts; part = p.part } };
}

/// Returns the geometry of each of so many stripes of a page file of so many bytes and this version, with pages of this
/// size. `BadLength` where the bytes are not one page or more, and as many, of each stripe, or more than 1,048,576.
pub fn geometry_of_stripe(
    bytes: u64,
    size: usize,
    format: Format,
    parts: u64,
) -> Result<Geometry, Refusal>
    requires size { IsGeometry 1 size }
    requires parts { IsParts parts }
    ensures accepted { IsOk result ↔ IsFileLength (parts * slot_size format size) bytes }
    ensures refused { OnErr result (result ≡ Err Refusal.BadLength) }
    ensures size { IfOk result (λ geometry. geometry.size ≡ size) }
    ensures pages { IfOk result (λ geometry.
        bytes ≡ geometry.pages * (parts * slot_size format size)) }
{
    let row = parts * format.slot_size(size) as u64;
    if bytes % row != 0 {
        return Err(Refusal::BadLength);
    }
    match Geometry::new(bytes / row, size) {
        Ok(geometry) => Ok(geometry),
        Err(_) => Err(Refusal::BadLength),
    }
}

impl StripedPort {
    /// Opens a page file of this version for reading and writing, as so many stripes, which are 1 to 64. It is neither
    /// made nor cut, and its length tells how many pages each stripe has. The port shows stripe 0.
    ///
    /// `Refused(BadLength)` where the file is not one page or more, and as many, of each stripe, or more than
    /// 1,048,576; `Port(Device)` where it can't be opened, and `Port(Memory)` where there is no memory for a slot of
    /// version 2.
    pub fn open<R: Files<File = File>, P: AsPath>(
        rt: &R,
        alloc: Global,
        path: P,
        size: usize,
        format: Format,
        parts: u64,
    ) -> Result<StripedPort, OpenFault>
        requires size { IsGeometry 1 size }
        requires parts { IsParts parts }
        ensures stripe { IfOk result (λ port. (port.parts ≡ parts) × (port.part ≡ 0)) }
        ensures opened { IfOk result (λ port.
            (port.file.device.size ≡ size) × (port.file.failures ≡ 0)) }
        ensures headed { IfOk result (λ port. port.file.headed ≡ has_headers format) }
        ensures refused { IfErr result IsOpenFault }
    {
        let Ok(file) = OpenOptions::new().read(true).write(true).open(rt, path) else {
            return Err(OpenFault::Port(PortFault::Device));
        };
        let Ok(metadata) = file.metadata() else {
            return Err(OpenFault::Port(PortFault::Device));
        };
        let Ok(stripe) = geometry_of_stripe(metadata.len(), size, format, parts) else {
            return Err(OpenFault::Refused(Refusal::BadLength));
        };
        StripedPort::over(alloc, file, stripe, format, parts)
    }
}

impl<S: Store> StripedPort<S> {
    /// Makes a port to stripe 0 of so many, which are 1 to 64, each of this geometry, in a store of this version.
    /// `Port(Memory)` where there is no memory for a slot of version 2; version 1 takes none.
    pub fn over(
        alloc: Global,
        store: S,
        stripe: Geometry,
        format: Format,
        parts: u64,
    ) -> Result<StripedPort<S>, OpenFault>
        requires parts { IsParts parts }
        ensures stripe { IfOk result (λ port. (port.parts ≡ parts) × (port.part ≡ 0)) }
        ensures device { IfOk result (λ port.
            (port.file.device ≡ stripe) × (port.file.failures ≡ 0)) }
        ensures headed { IfOk result (λ port. port.file.headed ≡ has_headers format) }
        ensures store { IfOk result (λ port. port.file.store ≡ store) }
        ensures refused { OnErr result (result ≡ Err (OpenFault.Port PortFault.Memory)) }
        ensures plain { has_headers format ≡ false → IsOk result }
    {
        match FilePort::over(alloc, store, stripe, format) {
            Ok(file) => Ok(StripedPort::of_file(file, parts)),
            Err(fault) => Err(fault),
        }
    }

    /// Makes a port to stripe 0 of so many of a port to the file, which has the geometry of one.
    pub(crate) fn of_file(file: FilePort<S>, parts: u64) -> StripedPort<S>
        requires parts { IsParts parts }
        ensures { result ≡ record { file = file; parts = parts; part = 0 } }
    {
        StripedPort {
            file,
            parts,
            part: 0,
        }
    }

    /// Turns to another stripe.
    pub fn turn_to(&mut self, part: u64)
        requires { part < self.old.parts }
        ensures { self.new ≡ turned part self.old }
    {
        self.part = part;
    }

    /// Returns the number of stripes.
    pub fn parts(&self) -> u64
        ensures { result ≡ self.now.parts }
    {
        self.parts
    }

    /// Reads a page, with the page LSN that stands in its slot, as `FilePort::read_with_lsn` does.
    pub fn read_with_lsn(&mut self, page: PageNo) -> Result<(Option<Lsn>, Image), PortFault>
        ensures size { IfOk result (λ found. length found.1 ≡ self.old.file.device.size) }
        ensures wrong { result ≡ Err PortFault.WrongPage → self.old.file.headed ≡ true }
        ensures same { (self.new.file.device ≡ self.old.file.device)
            × (self.new.file.headed ≡ self.old.file.headed) }
        ensures gives { ReadsStripedLsn S.reads self.old page result self.new }
    {
        match self.whole(page) {
            Some(page) => {
                let start = self.file.start_of_slot(page);
                self.file.read_at(page, start)
            }
            None => Err(self.file.fail()),
        }
    }

    /// Returns the page of the file that a page is, or `None` where the stripe has no such page.
    fn whole(&self, page: PageNo) -> Option<PageNo>
        ensures in_range { IsSome result ↔ (page < self.now.file.device.pages) }
        ensures whole { IfSome result (λ whole. whole ≡ whole_page self.now page) }
        ensures few { IfSome result (λ whole. whole < 67108864) }
    {
        let number = page.number();
        if number >= self.file.geometry().pages {
            return None;
        }
        Some(PageNo::new(number * self.parts + self.part))
    }
}

impl<S: Store> Port for StripedPort<S> {
    ghost geometry_of = { λ p. p.file.device };

    ghost failures_of = { λ p. p.file.failures };

    ghost is_headed = { λ p. p.file.headed };

    ghost read_gives = { ReadsStriped S.reads };

    ghost write_gives = { WritesStriped S.writes };

    ghost sync_gives = { SyncsStriped S.syncs };

    fn geometry(&self) -> Geometry {
        self.file.geometry()
    }

    fn failures(&self) -> u64 {
        self.file.failures()
    }

    fn read<R: Wait>(&mut self, _rt: &R, page: PageNo) -> Result<Image, PortFault> {
        match self.read_with_lsn(page) {
            Ok((_, image)) => Ok(image),
            Err(fault) => Err(fault),
        }
    }

    fn write<R: Wait>(
        &mut self,
        _rt: &R,
        page: PageNo,
        image: &Image,
        lsn: Lsn,
    ) -> Result<(), PortFault> {
        match self.whole(page) {
            Some(page) => {
                let start = self.file.start_of_slot(page);
                self.file.write_at(page, start, image, lsn)
            }
            None => Err(self.file.fail()),
        }
    }

    fn sync<R: Wait>(&mut self, rt: &R) -> Result<(), PortFault> {
        self.file.sync(rt)
    }
}

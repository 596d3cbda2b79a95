//! `PageFiles`, which opens page files in memory and on disk, and their ports.
ghost use Rattle.std.specs.Prelude.{◌≡◌, ◌⊎◌, false, IfErr, IfOk, IfSome, string_bytes};
ghost use Rattle.bp_page.specs.Limits.{IsGeometry};
ghost use Rattle.bp_ports.specs.Ports.{has_headers};
ghost use Rattle.bp_run.specs.PageFile.{IsForMemory, IsOfFile, memory_named};
ghost use Rattle.bp_run.specs.AnyPort.{IsPortTo, AreOf};

use crate::file_ids::FileId;
use crate::open_pages::{OpenFile, OpenMemory, OpenPages};
use crate::opening::Ports;
use bp_cli::{Reason, SystemFault};
use bp_page::{Format, Geometry, Image, Lsn, PageNo, PortFault, Refusal};
use bp_ports::{FilePort, MemDevice, MemPort, OpenFault, Port, geometry_of_file};
use bp_trace::decimal::parse_number;
use std::alloc::Global;
use std::fs::{File, OpenOptions, TryLockError};
use std::rt::Files;
use std::sync::Wait;
use std::{fs, io, mem};
use thiserror::Error;

/// A port to pages in memory or to a page file.
#[derive(Drop)]
pub enum AnyPort {
    Mem(MemPort),
    File(FilePort),
}

impl Port for AnyPort {
    ghost use Rattle.bp_run.specs.AnyPort.{ReadsAny, WritesAny, SyncsAny, device_of, failures_of_any, is_headed_any};

    ghost geometry_of = { device_of };

    ghost failures_of = { failures_of_any };

    ghost is_headed = { is_headed_any };

    ghost read_gives = { ReadsAny };

    ghost write_gives = { WritesAny };

    ghost sync_gives = { SyncsAny };

    fn geometry(&self) -> Geometry {
        match self {
            AnyPort::Mem(port) => port.geometry(),
            AnyPort::File(port) => port.geometry(),
        }
    }

    fn failures(&self) -> u64 {
        match self {
            AnyPort::Mem(port) => port.failures(),
            AnyPort::File(port) => port.failures(),
        }
    }

    fn read<R: Wait>(&mut self, rt: &R, page: PageNo) -> Result<Image, PortFault> {
        match self {
            AnyPort::Mem(port) => port.read(rt, page),
            AnyPort::File(port) => port.read(rt, page),
        }
    }

    fn write<R: Wait>(
        &mut self,
        rt: &R,
        page: PageNo,
        image: &Image,
        lsn: Lsn,
    ) -> Result<(), PortFault> {
        match self {
            AnyPort::Mem(port) => port.write(rt, page, image, lsn),
            AnyPort::File(port) => port.write(rt, page, image, lsn),
        }
    }

    fn sync<R: Wait>(&mut self, rt: &R) -> Result<(), PortFault> {
        match self {
            AnyPort::Mem(port) => port.sync(rt),
            AnyPort::File(port) => port.sync(rt),
        }
    }
}

/// Returns the number of pages that a word names in memory, or None where it is a path.
fn memory_named(word: &str) -> Option<u64>
    ensures { result ≡ memory_named word.now }
{
    word.as_bytes()
        .strip_prefix(b"mem:".as_slice())
        .and_then(parse_number)
}

/// Makes so many pages of zeros in memory.
fn open_memory(alloc: Global, pages: u64, size: usize) -> Result<OpenMemory, OpenFault>
    ensures pages { IfOk result (λ memory. memory.geometry.pages ≡ pages) }
    ensures size { IfOk result (λ memory. memory.geometry.size ≡ size) }
    ensures refused { IfErr result (λ fault. IsForMemory fault ⊎
        ((fault ≡ OpenFault.Refused Refusal.BadGeometry) × ¬ IsGeometry pages size)) }
{
    let geometry = match Geometry::new(pages, size) {
        Ok(geometry) => geometry,
        Err(refusal) => return Err(OpenFault::Refused(refusal)),
    };
    match MemDevice::new(alloc, geometry) {
        Ok(device) => Ok(OpenMemory { geometry, device }),
        Err(refusal) => Err(OpenFault::Refused(refusal)),
    }
}

/// Why a page file is not opened, in words.
#[derive(Clone, Copy, Debug, Drop, Error)]
pub(crate) enum PageFileReason<'a> {
    #[error("{0}")]
    System(SystemFault<'a>),
    /// No number of pages stands after `mem:`.
    #[error("{0}; N pages in memory are mem:N")]
    NoMemory(SystemFault<'a>),
    #[error("{path}: another run has it")]
    InUse {
        path: &'a str,
    },
    #[error("{path}: its length has changed")]
    OtherLength {
        path: &'a str,
    },
    #[error("{path}: its {bytes} bytes are not 1 to 1048576 pages of {slot} bytes; see --page-size")]
    BadLength {
        path: &'a str,
        bytes: u64,
        slot: usize,
    },
}

impl<'a> PageFileReason<'a> {
    /// The system's answer to an operation on the file of a word.
    fn of_system(name: &'a str, error: io::Error) -> PageFileReason<'a> {
        let fault = SystemFault { name, error };
        if name.as_bytes().starts_with(b"mem:".as_slice()) {
            PageFileReason::NoMemory(fault)
        } else {
            PageFileReason::System(fault)
        }
    }
}

/// Opens the file at a path for reading and writing, and returns it with its length in bytes. With `locks` no other run
/// may have it. Where the system has no locks, it is not locked.
fn open_pages<'a, R: Files<File = File>>(
    rt: &R,
    path: &'a str,
    locks: bool,
) -> Result<(File, u64), PageFileReason<'a>> {
    let file = match OpenOptions::new().read(true).write(true).open(rt, path) {
        Ok(file) => file,
        Err(error) => return Err(PageFileReason::of_system(path, error)),
    };
    if locks && matches!(file.try_lock(), Err(TryLockError::WouldBlock)) {
        return Err(PageFileReason::InUse { path });
    }
    match file.metadata() {
        Ok(metadata) => Ok((file, metadata.len())),
        Err(error) => Err(PageFileReason::of_system(path, error)),
    }
}

/// Opens the page file at a path. Where that fails, `reason` says why.
fn open_port<R: Files<File = File>>(
    rt: &R,
    alloc: Global,
    path: &str,
    size: usize,
    format: Format,
    locks: bool,
    reason: &mut Reason,
) -> Result<FilePort, OpenFault>
    requires size { IsGeometry 1 size }
    ensures size { IfOk result (λ port. port.device.size ≡ size) }
    ensures headed { IfOk result (λ port. port.headed ≡ has_headers format) }
    ensures refused { IfErr result (λ fault. IsForMemory fault ⊎ IsOfFile fault) }
{
    let (file, bytes) = match open_pages(rt, path, locks) {
        Ok(opened) => opened,
        Err(why) => {
            *reason = Reason::of(alloc, &why);
            return Err(OpenFault::Port(PortFault::Device));
        }
    };
    let Ok(geometry) = geometry_of_file(bytes, size, format) else {
        let slot = format.slot_size(size);
        *reason = Reason::of(alloc, &PageFileReason::BadLength { path, bytes, slot });
        return Err(OpenFault::Refused(Refusal::BadLength));
    };
    match FilePort::over(alloc, file, geometry, format) {
        Ok(port) => Ok(port),
        Err(_) => Err(OpenFault::Port(PortFault::Memory)),
    }
}

/// Opens the page file at a path, and locks it.
fn open_path<R: Files<File = File>>(
    rt: &R,
    alloc: Global,
    path: &str,
    size: usize,
    format: Format,
    reason: &mut Reason,
) -> Result<OpenFile, OpenFault>
    requires size { IsGeometry 1 size }
    ensures path { IfOk result (λ file. string_bytes file.path ≡ path.now) }
    ensures format { IfOk result (λ file. file.format ≡ format) }
    ensures size { IfOk result (λ file. file.first.device.size ≡ size) }
    ensures refused { IfErr result (λ fault. IsForMemory fault ⊎ IsOfFile fault) }
{
    let first = open_port(rt, alloc, path, size, format, true, reason)?;
    let Ok(path) = String::from_str(alloc, path) else {
        return Err(OpenFault::Port(PortFault::Memory));
    };
    Ok(OpenFile {
        path,
        format,
        first,
    })
}

/// Returns ports to a device in memory, one for each client.
fn memory_ports(
    alloc: Global,
    device: &MemDevice,
    clients: usize,
) -> Result<Vec<AnyPort>, OpenFault>
    ensures ports { IfOk result (λ ports. AreOf device.now false clients ports.items) }
    ensures refused { IfErr result IsForMemory }
{
    let Ok(mut ports) = Vec::with_capacity(alloc, clients) else {
        return Err(OpenFault::Port(PortFault::Memory));
    };
    for _ in 0..clients {
        match device.port() {
            Ok(port) => ports.push_reserved(AnyPort::Mem(port)),
            Err(refusal) => return Err(OpenFault::Refused(refusal)),
        }
    }
    Ok(ports)
}

/// Opens the page file at a path again. Where its length has changed, it is as if it could not be opened.
fn reopen<R: Files<File = File>>(
    rt: &R,
    alloc: Global,
    path: &str,
    format: Format,
    geometry: Geometry,
    reason: &mut Reason,
) -> Result<AnyPort, OpenFault>
    ensures same { IfOk result (λ port. IsPortTo geometry (has_headers format) port) }
    ensures refused { IfErr result (λ fault. IsForMemory fault ⊎ IsOfFile fault) }
{
    let port = open_port(rt, alloc, path, geometry.size, format, false, reason)?;
    if port.geometry().pages != geometry.pages {
        *reason = Reason::of(alloc, &PageFileReason::OtherLength { path });
        return Err(OpenFault::Port(PortFault::Device));
    }
    Ok(AnyPort::File(port))
}

/// Returns the port that was opened first, where no client has it yet, and else opens one more.
fn next_port<R: Files<File = File>>(
    rt: &R,
    alloc: Global,
    path: &str,
    format: Format,
    geometry: Geometry,
    first: &mut Option<AnyPort>,
    reason: &mut Reason,
) -> Result<AnyPort, OpenFault>
    requires first { IfSome first.old (λ port. IsPortTo geometry (has_headers format) port) }
    ensures port { IfOk result (λ port. IsPortTo geometry (has_headers format) port) }
    ensures first { IfSome first.new (λ port. IsPortTo geometry (has_headers format) port) }
    ensures refused { IfErr result (λ fault. IsForMemory fault ⊎ IsOfFile fault) }
{
    match first.take() {
        Some(port) => Ok(port),
        None => reopen(rt, alloc, path, format, geometry, reason),
    }
}

/// Returns ports to the page file at a path, one for each client: the one that was opened first, and as many more as
/// needed.
fn file_ports<R: Files<File = File>>(
    rt: &R,
    alloc: Global,
    path: &str,
    format: Format,
    geometry: Geometry,
    first: FilePort,
    clients: usize,
    reason: &mut Reason,
) -> Result<Vec<AnyPort>, OpenFault>
    requires geometry { first.device ≡ geometry }
    requires headed { first.headed ≡ has_headers format }
    ensures ports { IfOk result (λ ports. AreOf geometry (has_headers format) clients ports.items) }
    ensures refused { IfErr result (λ fault. IsForMemory fault ⊎ IsOfFile fault) }
{
    let mut first = Some(AnyPort::File(first));
    let Ok(mut ports) = Vec::with_capacity(alloc, clients) else {
        return Err(OpenFault::Port(PortFault::Memory));
    };
    for _ in 0..clients {
        let port = next_port(rt, alloc, path, format, geometry, &mut first, reason)?;
        ports.push_reserved(port);
    }
    Ok(ports)
}

/// Returns ports to an open page file at a path, one for each client.
fn connect_file<R: Files<File = File>>(
    rt: &R,
    alloc: Global,
    file: OpenFile,
    clients: usize,
    reason: &mut Reason,
) -> Result<Vec<AnyPort>, OpenFault>
    ensures ports { IfOk result (λ ports.
        AreOf file.first.device file.first.headed clients ports.items) }
    ensures refused { IfErr result (λ fault. IsForMemory fault ⊎ IsOfFile fault) }
{
    let OpenFile {
        path,
        format,
        first,
    } = file;
    let geometry = first.geometry();
    file_ports(
        rt,
        alloc,
        path.as_str(),
        format,
        geometry,
        first,
        clients,
        reason,
    )
}

/// Opens page files, in memory and on disk. While a page file at a path is open, no other process can open it so.
#[derive(Drop)]
pub struct PageFiles {
    alloc: Global,
    is_watched: bool,
    // The trace that was opened last: no picture may overwrite it.
    trace: Option<FileId>,
    // Why the last call failed that did.
    reason: Reason,
}

impl PageFiles {
    /// Pages in memory come from this allocator. Nobody watches.
    pub fn new(alloc: Global) -> PageFiles {
        PageFiles {
            alloc,
            is_watched: false,
            trace: None,
            reason: Reason::Unsaid,
        }
    }

    /// Sets whether the progress of a migration or a sweep is shown on the error output.
    pub fn watched(self, is_watched: bool) -> PageFiles {
        PageFiles { is_watched, ..self }
    }
}

impl<R: Files<File = File>> Ports<R> for PageFiles {
    ghost use Rattle.bp_run.specs.AnyPort.{pages_ways};

    type F = OpenPages;

    type P = AnyPort;

    type T = File;

    ghost ways = { pages_ways };

    ghost watched = { λ files. files.is_watched };

    fn open(
        &mut self,
        rt: &R,
        word: &str,
        size: usize,
        format: Format,
    ) -> Result<OpenPages, OpenFault> {
        match memory_named(word) {
            Some(pages) => Ok(OpenPages::Mem(open_memory(self.alloc, pages, size)?)),
            None => Ok(OpenPages::File(open_path(
                rt,
                self.alloc,
                word,
                size,
                format,
                &mut self.reason,
            )?)),
        }
    }

    fn geometry(&self, file: &OpenPages) -> Geometry {
        match file {
            OpenPages::Mem(memory) => memory.geometry,
            OpenPages::File(file) => file.first.geometry(),
        }
    }

    fn connect(
        &mut self,
        rt: &R,
        file: OpenPages,
        clients: usize,
    ) -> Result<Vec<AnyPort>, OpenFault> {
        match file {
            OpenPages::Mem(memory) => memory_ports(self.alloc, &memory.device, clients),
            OpenPages::File(file) => {
                connect_file(rt, self.alloc, file, clients, &mut self.reason)
            }
        }
    }

    fn trace(&mut self, rt: &R, path: &str) -> Option<File> {
        match fs::open(rt, path) {
            Ok(file) => {
                self.trace = FileId::of(&file);
                Some(file)
            }
            Err(error) => {
                self.reason = Reason::of(self.alloc, &SystemFault { name: path, error });
                None
            }
        }
    }

    fn save(&mut self, rt: &R, path: &str, bytes: &[u8]) -> io::Result<()> {
        let found = FileId::at(rt, path);
        if found.is_some() && found == self.trace {
            return Err(io::Error::new(
                io::ErrorKind::PermissionDenied,
                "it is the file of REFERENCES",
            ));
        }
        fs::write(rt, path, bytes)
    }

    fn try_lock(&self, file: &File) -> Result<(), TryLockError> {
        file.try_lock()
    }

    fn reason(&mut self) -> Reason {
        mem::replace(&mut self.reason, Reason::Unsaid)
    }

    fn is_watched(&self) -> bool {
        self.is_watched
    }
}

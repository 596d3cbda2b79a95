//! `create_page_file`, `create_striped_file`: make page files of blank pages.
ghost use Rattle.std.specs.Prelude.{◌≡◌, ◌⊎◌, ◌*◌, ◌≤◌, OnOk, IfOk, IfErr};
ghost use Rattle.bp_ports.specs.Files.{IsOpenFault};
ghost use Rattle.bp_ports.specs.WholeFiles.{FillsSlots, FillsStore, WritesBlank};
ghost use Rattle.bp_ports.specs.Ports.{has_headers};
ghost use Rattle.bp_ports.specs.Stripes.{IsParts};

use crate::files::{FilePort, OpenFault};
use crate::port::Port;
use crate::store::Store;
use crate::striped::{StripedPort, geometry_of_stripe};
use bp_page::{Format, Geometry, Image, Lsn, PageNo, PortFault, Refusal};
use std::alloc::Global;
use std::fs;
use std::fs::{File, OpenFile};
use std::rt::Files;
use std::sync::Wait;

/// Writes so many pages of a file, of all its stripes, with bytes 0 and LSN 0, one after the other. In a file of
/// version 2 each has its number then.
fn blank_pages<S: Store>(alloc: Global, port: &mut FilePort<S>, pages: u64) -> Result<(), OpenFault>
    requires few { pages ≤ 67108864 }
    ensures same { (port.new.device ≡ port.old.device) × (port.new.headed ≡ port.old.headed) }
    ensures uncounted { OnOk result (port.new.failures ≡ port.old.failures) }
    ensures written { OnOk result (WritesBlank S.writes port.old.headed port.old.device.size
        pages port.old.store port.new.store) }
    ensures refused { IfErr result (λ fault. (fault ≡ OpenFault.Port PortFault.Device) ⊎
        (fault ≡ OpenFault.Port PortFault.Memory)) }
{
    let geometry = port.geometry();
    let Ok(blank) = Image::blank(alloc, &geometry) else {
        return Err(OpenFault::Port(PortFault::Memory));
    };
    for number in 0..pages {
        let page = PageNo::new(number);
        let start = port.start_of_slot(page);
        let Ok(()) = port.write_at(page, start, &blank, Lsn::new(0)) else {
            return Err(OpenFault::Port(PortFault::Device));
        };
    }
    Ok(())
}

/// Fills a new file of so many stripes with blank pages, syncs it, and gives a port to it with the geometry of one
/// stripe.
fn fill<S: Store + OpenFile, R: Wait>(
    rt: &R,
    alloc: Global,
    file: S,
    stripe: Geometry,
    format: Format,
    parts: u64,
) -> Result<FilePort<S>, OpenFault>
    requires parts { IsParts parts }
    ensures made { IfOk result (λ port. port.device ≡ stripe) }
    ensures headed { IfOk result (λ port. port.headed ≡ has_headers format) }
    ensures fresh { IfOk result (λ port. port.failures ≡ 0) }
    ensures filled { IfOk result (λ port. FillsSlots S.writes S.syncs (has_headers format)
        stripe.size (stripe.pages * parts) file port.store) }
    ensures refused { IfErr result IsOpenFault }
{
    let pages = stripe.pages * parts;
    let bytes = pages * format.slot_size(stripe.size) as u64;
    let (Ok(()), Ok(metadata)) = (file.set_len(bytes), file.metadata()) else {
        return Err(OpenFault::Port(PortFault::Device));
    };
    let Ok(device) = geometry_of_stripe(metadata.len(), stripe.size, format, parts) else {
        return Err(OpenFault::Refused(Refusal::BadLength));
    };
    // Another program may have had the file meanwhile.
    if device.pages != stripe.pages {
        return Err(OpenFault::Refused(Refusal::BadLength));
    }
    let mut port = FilePort::over(alloc, file, device, format)?;
    blank_pages(alloc, &mut port, pages)?;
    match port.sync(rt) {
        Ok(()) => Ok(port),
        Err(_) => Err(OpenFault::Port(PortFault::Device)),
    }
}

/// Makes a new page file of so many stripes, and fills it. A file that was begun is removed where it fails.
fn create<S: Store + OpenFile, R: Files<File = S> + Wait>(
    rt: &R,
    alloc: Global,
    path: &str,
    stripe: Geometry,
    format: Format,
    parts: u64,
) -> Result<FilePort<S>, OpenFault>
    requires parts { IsParts parts }
    ensures made { IfOk result (λ port. port.device ≡ stripe) }
    ensures headed { IfOk result (λ port. port.headed ≡ has_headers format) }
    ensures fresh { IfOk result (λ port. port.failures ≡ 0) }
    ensures filled { IfOk result (λ port. (opened : S) × FillsSlots S.writes S.syncs
        (has_headers format) stripe.size (stripe.pages * parts) opened port.store) }
    ensures refused { IfErr result IsOpenFault }
{
    let Ok(file) = File::create_new(rt, path) else {
        return Err(OpenFault::Port(PortFault::Device));
    };
    let made = fill(rt, alloc, file, stripe, format, parts);
    if made.is_err() {
        let _ = fs::remove_file(rt, path);
    }
    made
}

/// Makes a new page file of this version, writes each page of it once, in order, with bytes 0, syncs it, and gives a
/// port to it. The port has counted no failure.
///
/// `Port(Device)` where something stands at the path, which is then left as it is, or where the file can't be made, be
/// written or be synced. `Port(Memory)` where there is no memory for a page, and `Refused(BadLength)` where somebody
/// else changed its length meanwhile. No other fault comes, and a file that was begun is removed.
pub fn create_page_file<S: Store + OpenFile, R: Files<File = S> + Wait>(
    rt: &R,
    alloc: Global,
    path: &str,
    geometry: Geometry,
    format: Format,
) -> Result<FilePort<S>, OpenFault>
    ensures made { IfOk result (λ port. port.device ≡ geometry) }
    ensures headed { IfOk result (λ port. port.headed ≡ has_headers format) }
    ensures fresh { IfOk result (λ port. port.failures ≡ 0) }
    ensures filled { IfOk result (λ port. (opened : S) × FillsStore S.writes S.syncs
        (has_headers format) geometry opened port.store) }
    ensures refused { IfErr result IsOpenFault }
{
    create(rt, alloc, path, geometry, format, 1)
}

/// Makes a new page file of this version and of so many stripes of this geometry, which are 1 to 64, as
/// `create_page_file` does, and gives a port to stripe 0 of it. The faults are the same.
pub fn create_striped_file<S: Store + OpenFile, R: Files<File = S> + Wait>(
    rt: &R,
    alloc: Global,
    path: &str,
    stripe: Geometry,
    format: Format,
    parts: u64,
) -> Result<StripedPort<S>, OpenFault>
    requires parts { IsParts parts }
    ensures stripe { IfOk result (λ port. (port.parts ≡ parts) × (port.part ≡ 0)) }
    ensures made { IfOk result (λ port. port.file.device ≡ stripe) }
    ensures headed { IfOk result (λ port. port.file.headed ≡ has_headers format) }
    ensures fresh { IfOk result (λ port. port.file.failures ≡ 0) }
    ensures filled { IfOk result (λ port. (opened : S) × FillsSlots S.writes S.syncs
        (has_headers format) stripe.size (stripe.pages * parts) opened port.file.store) }
    ensures refused { IfErr result IsOpenFault }
{
    match create(rt, alloc, path, stripe, format, parts) {
        Ok(file) => Ok(StripedPort::of_file(file, parts)),
        Err(fault) => Err(fault),
    }
}

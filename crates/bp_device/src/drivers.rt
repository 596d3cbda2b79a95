//! `drive_fix`, `drive_new` and `drive_flush`: calls on a core that has one owner, with the reads and writes of the
//! device that they need.
ghost use Rattle.std.specs.Prelude.{◌≡◌, ◌<◌, IfErr, IfOk, length};
ghost use Rattle.std.specs.Result.{is_ok};
ghost use Rattle.bp_trail.specs.declared.entries.Call.TheVariants as call;
ghost use Rattle.bp_core.specs.Outcomes.{KnowsRead, KnowsWrite};
ghost use Rattle.bp_device.specs.Drivers.{DrivesFix, DrivesFlush, IsCaused, LoadOutcome};
ghost use Rattle.bp_device.specs.Drivers.{SaveOutcome, SavingOutcome, NoRead};
ghost use Rattle.bp_core.specs.Work.{IsBlank, MadeBlank};
ghost use Rattle.bp_core.specs.Work.{DoesWork};

use bp_core::{
    EndRefusal, Ended, Fix, Flush, Flushed, Keeper, Pass, PoolCore, ReadTicket, WriteTicket,
};
use bp_page::{Geometry, Image, PageNo, PortFault, Refusal};
use bp_ports::Port;
use std::alloc::Global;
use std::sync::Wait;

/// Ends a read whose ticket the core knows.
fn load<K: Keeper>(
    core: &mut PoolCore<K>,
    ticket: ReadTicket,
    read: Result<Image, PortFault>,
) -> Result<Pass, Refusal>
    requires size { IfOk read (λ image. length image ≡ core.old.parameters.size) }
    requires known { KnowsRead core.old ticket }
    ensures outcome { LoadOutcome core.old ticket read result core.new }
{
    match core.read_end(ticket, read) {
        Ok(pass) => Ok(pass),
        Err(EndRefusal::Failed(refusal)) => Err(refusal),
        Err(EndRefusal::Unknown(_ticket, _)) => unreachable!(),
    }
}

/// Ends a write-out whose ticket the core knows.
fn save<K: Keeper>(
    core: &mut PoolCore<K>,
    ticket: WriteTicket,
    written: Result<(), PortFault>,
) -> Result<Ended, Refusal>
    requires known { KnowsWrite core.old ticket }
    ensures outcome { SaveOutcome core.old ticket result core.new }
    ensures good { is_ok result ≡ is_ok written }
{
    match core.write_end(ticket, written) {
        Ok(ended) => Ok(ended),
        Err(EndRefusal::Failed(refusal)) => Err(refusal),
        Err(EndRefusal::Unknown(_ticket, _)) => unreachable!(),
    }
}

/// Fixes a page, and where its victim is unsaved writes that out and fixes again. Nobody else acts meanwhile: the
/// victim is then saved and still the victim, so that the second fix finds its frame. Nothing is read.
fn fix_saving_victim<K: Keeper, P: Port, R: Wait>(
    rt: &R,
    core: &mut PoolCore<K>,
    port: &mut P,
    client: u8,
    page: PageNo,
) -> Result<Fix, Refusal>
    requires client_in { client < core.old.parameters.clients }
    requires page_in { page < core.old.parameters.pages }
    ensures outcome { SavingOutcome core.old client page result core.new }
    ensures cause { IfErr result (λ why. IsCaused (call.Fix page) why core.new) }
    ensures work { DoesWork NoRead P.write_gives core.old port.old core.new port.new }
    ensures geometry { P.geometry_of port.new ≡ P.geometry_of port.old }
{
    let victim = match core.fix(client, page)? {
        Fix::WriteFirst(victim) => victim,
        answer => return Ok(answer),
    };
    let written = port.write(rt, victim.page(), victim.image(), victim.lsn());
    save(core, victim, written)?;
    core.fix(client, page)
}

/// Fixes a page over a core that nobody else uses: reads it where it is away, and first writes out the victim where
/// that is unsaved. The device does this and nothing else: each read is of the page, each write of the ticket's page,
/// with its image and its page LSN, and the entries have what the port answered.
///
/// Refused as `Core::fix` is, then with nothing changed except by the entries of its steps so far; with `ReadFailed`
/// where the page could not be read, and `WrongPage` where another page was found in its place, which is then not
/// resident; with `WriteFailed` where the victim could not be written, which then stays, unsaved.
pub fn drive_fix<K: Keeper, P: Port, R: Wait>(
    rt: &R,
    core: &mut PoolCore<K>,
    port: &mut P,
    client: u8,
    page: PageNo,
) -> Result<Pass, Refusal>
    requires size { (P.geometry_of port.old).size ≡ core.old.parameters.size }
    requires client_in { client < core.old.parameters.clients }
    requires page_in { page < core.old.parameters.pages }
    ensures outcome { DrivesFix core.old client page result core.new }
    ensures cause { IfErr result (λ why. IsCaused (call.Fix page) why core.new) }
    ensures work { DoesWork P.read_gives P.write_gives core.old port.old core.new port.new }
    ensures geometry { P.geometry_of port.new ≡ P.geometry_of port.old }
{
    match fix_saving_victim(rt, core, port, client, page)? {
        Fix::Hit(pass) => Ok(pass),
        Fix::Load(ticket, _) => {
            let read = port.read(rt, page);
            load(core, ticket, read)
        }
        Fix::WriteFirst(_ticket) => unreachable!(),
    }
}

/// Returns an image of zeros, of the page size. `Memory` where there is no memory for it.
fn blank_image(alloc: Global, geometry: &Geometry) -> Result<Image, PortFault>
    ensures blank { IsBlank geometry.now.size result }
    ensures size { IfOk result (λ image. length image ≡ geometry.now.size) }
{
    match Image::blank(alloc, geometry) {
        Ok(image) => Ok(image),
        Err(_) => Err(PortFault::Memory),
    }
}

/// Fixes a page that is new, over a core that nobody else uses: as `drive_fix`, except that where the page is away its
/// image is zeros, and the device is not asked to read it. So it is for a page that was never written, or whose bytes
/// on the device are to be lost, which nobody but the caller knows. A page that is in a frame keeps its bytes there.
/// The zeros are not unsaved: they reach the device only with a write of the page.
///
/// Refused as `drive_fix` is, but never with `WrongPage`; with `ReadFailed` where there is no memory for the image, and
/// the page is then not resident.
pub fn drive_new<K: Keeper, P: Port, R: Wait>(
    rt: &R,
    alloc: Global,
    core: &mut PoolCore<K>,
    port: &mut P,
    client: u8,
    page: PageNo,
) -> Result<Pass, Refusal>
    requires client_in { client < core.old.parameters.clients }
    requires page_in { page < core.old.parameters.pages }
    ensures outcome { DrivesFix core.old client page result core.new }
    ensures cause { IfErr result (λ why. IsCaused (call.Fix page) why core.new) }
    ensures work { DoesWork (MadeBlank core.old.parameters.size) P.write_gives
        core.old port.old core.new port.new }
    ensures geometry { P.geometry_of port.new ≡ P.geometry_of port.old }
{
    let geometry = core.geometry();
    let answer = fix_saving_victim(rt, core, port, client, page)?;
    match answer {
        Fix::Hit(pass) => Ok(pass),
        Fix::Load(ticket, _) => {
            let blank = blank_image(alloc, &geometry);
            load(core, ticket, blank)
        }
        Fix::WriteFirst(_ticket) => unreachable!(),
    }
}

/// Writes a page out where it is unsaved, over a core that nobody else uses, and returns how it left the
/// page.
///
/// Refused as `Core::flush` is, then with nothing changed except for that entry; with `WriteFailed` where the page
/// could not be written, which then stays, unsaved.
pub fn drive_flush<K: Keeper, P: Port, R: Wait>(
    rt: &R,
    core: &mut PoolCore<K>,
    port: &mut P,
    client: u8,
    page: PageNo,
) -> Result<Flushed, Refusal>
    requires client_in { client < core.old.parameters.clients }
    requires page_in { page < core.old.parameters.pages }
    ensures outcome { DrivesFlush core.old client page result core.new }
    ensures cause { IfErr result (λ why. IsCaused (call.Flush page) why core.new) }
    ensures work { DoesWork P.read_gives P.write_gives core.old port.old core.new port.new }
    ensures geometry { P.geometry_of port.new ≡ P.geometry_of port.old }
{
    match core.flush(client, page)? {
        Flush::Clean => Ok(Flushed::Clean),
        Flush::Absent => Ok(Flushed::Absent),
        Flush::WriteFirst(ticket) => {
            let written = port.write(rt, ticket.page(), ticket.image(), ticket.lsn());
            let ended = save(core, ticket, written)?;
            Ok(ended.flushed())
        }
    }
}

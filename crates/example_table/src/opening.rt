//! Opens a table after a crash: its log is in the newer of two files, and is begun anew in the other one.
ghost use Rattle.std.specs.Prelude.{◌≡◌, OnOk, IfErr, length};
ghost use Rattle.bp_page.specs.declared.refusals.Refusal.TheVariants.{OutOfPage};
ghost use Rattle.example_log.specs.Heads.{head_of as head_is};
ghost use Rattle.example_table.specs.Opening.{AreWithin, CreatesLog, MovesLog, OpensLog};

use crate::table::TableFault;
use bp_page::{Geometry, Lsn, Refusal};
use bp_ports::Port;
use bp_trail::LogRecord;
use example_log::frames::read_frame;
use example_log::reading::{first_lsn, head_of, read_log};
use example_log::{LogFault, LogFile, LogStore, redo_pages};
use std::alloc::Global;
use std::sync::Wait;

/// `OutOfPage` where a change does not lie within a page of the file.
pub(crate) fn check(device: &Geometry, changes: &[LogRecord]) -> Result<(), Refusal>
    ensures within { OnOk result (AreWithin device.now.pages device.now.size changes.now) }
    ensures beyond { IfErr result (λ why. (why ≡ OutOfPage)
        × ¬ AreWithin device.now.pages device.now.size changes.now) }
{
    for change in changes {
        if change.page.number() >= device.pages {
            return Err(Refusal::OutOfPage);
        }
        if !device.fits(change.offset as usize, change.bytes.bytes().len()) {
            return Err(Refusal::OutOfPage);
        }
    }
    Ok(())
}

/// Recovers from the newer of two logs with this head: writes it again, and so makes it durable, puts all its commits into
/// the pages, durably, and begins a log in the file of the older one.
fn move_log<R: Wait, S: LogStore<P>, P: Port>(
    rt: &R,
    alloc: Global,
    head: &[u8],
    bytes: &[u8],
    other: &[u8],
    port: &mut P,
    newer: &mut LogFile<S>,
    older: &mut LogFile<S>,
) -> Result<(), TableFault>
    ensures { newer.old.size ≡ length bytes.now → MovesLog S.reads S.writes S.syncs P.read_gives
        P.write_gives P.sync_gives (P.geometry_of port.old) head.now bytes.now other.now port.old
        newer.old older.old result port.new newer.new older.new }
{
    let found = read_log(alloc, bytes, head)?;
    if first_lsn(other, head)? >= found.first {
        return Err(TableFault::Log(LogFault::TwoLogs));
    }
    check(&port.geometry(), &found.changes)?;
    if found.last >= u64::MAX - 1 {
        return Err(TableFault::Log(LogFault::Full));
    }
    newer.settle(alloc, &*port, found.records)?;
    redo_pages(rt, alloc, port, &found.changes, Lsn::new(0))?;
    older.begin(alloc, &*port, found.last + 1, head)?;
    Ok(())
}

/// Wipes the second of two files of one size, durably, and begins the log of a table in the first, over the pages of
/// this port as they are. `OtherSize`, `HasLog` where a record stands at the front of either file, `Memory`, `Device` where a file
/// fails or is shorter than it is to be, and `Full` where the head has no room. Each file is then as it was, or it may be
/// wiped, in part, and this may be called again.
pub fn create<S: LogStore<P>, P: Port>(
    alloc: Global,
    table: &[u8],
    port: &P,
    one: &mut LogFile<S>,
    two: &mut LogFile<S>,
) -> Result<(), LogFault>
    ensures { CreatesLog (S.reads port.now) (S.writes port.now) (S.syncs port.now)
        (head_is one.old.size (P.geometry_of port.now) table.now)
        one.old two.old result one.new two.new }
{
    if one.size != two.size {
        return Err(LogFault::OtherSize);
    }
    let head = head_of(alloc, one.size, &port.geometry(), table)?;
    let a = one.read_all(alloc, port)?;
    let b = two.read_all(alloc, port)?;
    if let Some(_) = read_frame(&a) {
        return Err(LogFault::HasLog);
    }
    if let Some(_) = read_frame(&b) {
        return Err(LogFault::HasLog);
    }
    two.wipe(alloc, port)?;
    one.begin(alloc, port, 1, &head)
}

/// Opens a table after a crash, whose log is in one of two files of one size: makes that log durable, puts its commits
/// into the pages, durably, and begins the log anew in the other file. Returns true where that is the second one. It may
/// be stopped at any moment, and begun again, also where a file fails, unless that was the write or the sync of the first
/// record: then what a crash leaves of the next opening is not told, but all is once it has passed.
///
/// `Device` where a file fails or is shorter than it is to be, `OtherSize` where the log is of a file of another size,
/// `OtherPages` where it is of pages of another number or size, `OtherTable`, `TwoLogs` where both begin at the same LSN,
/// `OutOfPage` where a change lies in no page, `Memory`, and as `read_log` is refused: before the log was read, nothing
/// is written.
pub fn open<R: Wait, S: LogStore<P>, P: Port>(
    rt: &R,
    alloc: Global,
    table: &[u8],
    port: &mut P,
    one: &mut LogFile<S>,
    two: &mut LogFile<S>,
) -> Result<bool, TableFault>
    ensures { OpensLog S.reads S.writes S.syncs P.read_gives P.write_gives P.sync_gives
        (P.geometry_of port.old) (head_is one.old.size (P.geometry_of port.old) table.now) port.old
        one.old two.old result port.new one.new two.new }
{
    if one.size != two.size {
        return Err(TableFault::Log(LogFault::OtherSize));
    }
    let head = head_of(alloc, one.size, &port.geometry(), table)?;
    let a = one.read_all(alloc, &*port)?;
    let b = two.read_all(alloc, &*port)?;
    if first_lsn(&a, &head)? < first_lsn(&b, &head)? {
        move_log(rt, alloc, &head, &b, &a, port, two, one)?;
        return Ok(false);
    }
    move_log(rt, alloc, &head, &a, &b, port, one, two)?;
    Ok(true)
}

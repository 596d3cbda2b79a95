//! Redo after a crash: the records of a log are put into the pages of a device.
ghost use Rattle.std.specs.Prelude.{◌≡◌, ◌⊎◌, ℕ, Bool, [], ◌∷◌, ◌++◌, List, Option, MatchOption, Result, length, reverse, is_ok, OnOk};
ghost use Rattle.bp_trail.specs.declared.records.LogRecord.{LogRecord as Record};
ghost use Rattle.bp_trail.specs.Parameters.{Parameters};
ghost use Rattle.bp_trail.specs.Trail.{Trail};
ghost use Rattle.bp_trail.specs.Images.{written_into};
ghost use Rattle.bp_trail.specs.Recovery.{NeverFall, Stopped, put, records_from, wanted, within};
ghost use Rattle.example_log.specs.Disk.{DeviceCall, Did};
ghost use Rattle.example_log.specs.Promise.{IsMended, MayBeRedone, PoolLeaves, RecoversThroughout};
ghost use Rattle.example_log.specs.Steps.{Begins, Redoes, Stamped, last_lsn};

use bp_page::{Image, Lsn, PageNo, Refusal};
use bp_ports::Port;
use bp_trail::{LogRecord, redo_page, refusal_of_read};
use std::alloc::Global;
use std::sync::Wait;

/// Returns true if redo of a page from an LSN on wants this record.
fn is_wanted(change: &LogRecord, from: Lsn, page: PageNo) -> bool
    ensures { result ≡ wanted from page change.now }
{
    change.page.number() == page.number() && change.lsn.number() >= from.number()
}

/// Returns the oldest record that redo of a page wants, or `None` where the log has none.
fn first_of<'a>(log: &'a [LogRecord], from: Lsn, page: PageNo) -> Option<&'a LogRecord>
    ensures { MatchOption result (records_from from (reverse log.now) page ≡ []) (λ r.
        ((newer : List Record) × (records_from from (reverse log.now) page ≡ newer ++ r.now ∷ []))) }
{
    for change in log {
        if is_wanted(change, from, page) {
            return Some(change);
        }
    }
    None
}

/// Returns the image of a page that its records go into. Where the first of them has all bytes, a crash may have torn
/// the page: nothing is read, and the image is zeros.
fn begin<R: Wait, P: Port>(
    rt: &R,
    alloc: Global,
    port: &mut P,
    first: &LogRecord,
    page: PageNo,
) -> Result<Image, Refusal>
    ensures same { P.geometry_of port.new ≡ P.geometry_of port.old }
    ensures began { (from : ℕ) (log newer : List Record) →
        records_from from log page ≡ newer ++ first.now ∷ [] →
        ((calls : List DeviceCall)
        × Did P.read_gives P.write_gives P.sync_gives port.old calls port.new
        × Begins (P.geometry_of port.old).size from log page calls result) }
{
    let geometry = port.geometry();
    if first.offset == 0 && first.bytes.bytes().len() == geometry.size {
        return match Image::blank(alloc, &geometry) {
            Ok(image) => Ok(image),
            Err(_) => Err(Refusal::OutOfMemory),
        };
    }
    match port.read(rt, page) {
        Ok(image) => Ok(image),
        Err(fault) => Err(refusal_of_read(fault)),
    }
}

/// Returns the greatest LSN of the records that redo of a page wants, or 0 where there is none.
fn greatest_lsn(log: &[LogRecord], from: Lsn, page: PageNo) -> Lsn
    ensures { result ≡ last_lsn (records_from from (reverse log.now) page) }
{
    let mut lsn = 0;
    for change in log {
        if is_wanted(change, from, page) {
            if change.lsn.number() > lsn {
                lsn = change.lsn.number();
            }
        }
    }
    Lsn::new(lsn)
}

/// Redoes one page, and writes it if the log has records of it, under the greatest LSN of these.
fn redo_one<R: Wait, P: Port>(
    rt: &R,
    alloc: Global,
    port: &mut P,
    log: &[LogRecord],
    from: Lsn,
    page: PageNo,
) -> Result<(), Refusal>
    ensures same { P.geometry_of port.new ≡ P.geometry_of port.old }
    ensures did { (calls : List DeviceCall)
        × Did P.read_gives P.write_gives P.sync_gives port.old calls port.new
        × Redoes (P.geometry_of port.old).size from (reverse log.now) page calls (is_ok result) }
    ensures stamped { OnOk result ((records_from from (reverse log.now) page ≡ [])
        ⊎ Stamped P.write_gives page (records_from from (reverse log.now) page) port.new) }
{
    let Some(first) = first_of(log, from, page) else {
        return Ok(());
    };
    let mut image = begin(rt, alloc, port, first, page)?;
    redo_page(log, from, page, &mut image)?;
    match port.write(rt, page, &image, greatest_lsn(log, from, page)) {
        Ok(()) => Ok(()),
        Err(_) => Err(Refusal::WriteFailed),
    }
}

/// Redoes each page of a device from an LSN on, and syncs it. The log is oldest first.
///
/// Whatever a crash leaves meanwhile may be redone again. After Ok each page has what its records make of it, durably.
/// `ReadFailed`, `WrongPage` and `WriteFailed` where the device fails, `OutOfMemory`, and `OutOfPage` where a record
/// does not lie within its page: the pages before are then redone.
pub fn redo_pages<R: Wait, P: Port>(
    rt: &R,
    alloc: Global,
    port: &mut P,
    log: &[LogRecord],
    from: Lsn,
) -> Result<(), Refusal>
    ensures same { P.geometry_of port.new ≡ P.geometry_of port.old }
    ensures redone { (calls : List DeviceCall)
        × Did P.read_gives P.write_gives P.sync_gives port.old calls port.new
        × RecoversThroughout (P.geometry_of port.old).pages (P.geometry_of port.old).size from
        (reverse log.now) calls (is_ok result) }
{
    let pages = port.geometry().pages;
    for page in 0..pages {
        redo_one(rt, alloc, port, log, from, PageNo::new(page))?;
    }
    match port.sync(rt) {
        Ok(()) => Ok(()),
        Err(_) => Err(Refusal::WriteFailed),
    }
}

/// What a stopped pool leaves may be redone, to what the writes within its log make of the first images, and after
/// these any records whose write never came to be. That is law `redo_recovers_each_page` of every page, and where the
/// log has a full image `full_images_recover_torn_pages`. It does nothing: its contract is the law.
pub fn a_stopped_pool_may_be_redone()
    ensures { (c : Parameters) (tears : Bool) (first left : ℕ → List ℕ)
        (synced past : Trail) (log : List Record) (start from end : ℕ)
        (s : (p : ℕ) → Stopped c first synced past log start from end p) →
        ((p : ℕ) → NeverFall (records_from start log p)) → ((p : ℕ) → length (first p) ≡ c.size) →
        ((p : ℕ) → IsMended tears c.size from log p) →
        ((p : ℕ) → PoolLeaves c.size from log first synced past p (left p)) →
        MayBeRedone tears c.size from log
        (λ p. put (s p).has.unwritten (written_into first (within end past) p)) left }
{}

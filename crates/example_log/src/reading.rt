//! Commits as records of a log, and how a log is read after a crash.
ghost use Rattle.std.specs.Prelude.{◌≡◌, ◌≢◌, ◌⊎◌, ◌++◌, ◌+◌, ℕ, Bool, List, length, take, drop, IfOk, IfErr, IfSome, IfNone, OnOk};
ghost use Rattle.bp_trail.specs.declared.records.LogRecord.{LogRecord as Record};
ghost use Rattle.example_log.specs.declared.log.LogFault.TheVariants.{Memory, NoChanges};
ghost use Rattle.example_log.specs.Commits.{IsChange, AreChanges, AreCommits, HasCommits, Kept, NoChange, Tells, change_bytes, payload_of, log_of};
ghost use Rattle.example_log.specs.Frames.{IsRecord, NoFrame, frame, frames};
ghost use Rattle.example_log.specs.Heads.{HeadFault, OtherHead, ReadFault, head_of as head_is};
ghost use Rattle.example_log.specs.Files.{FileCall, FileLeaves, synced, written};
ghost use Rattle.example_log.specs.Lives.{LogLife, Reopened, TellsTrue};

use crate::frames::{Framed, read_frame, split_number};
use crate::log::LogFault;
use bp_page::{Bytes, Geometry, Lsn, PageNo};
use bp_trail::LogRecord;
use std::alloc::{AllocError, Global};

/// Puts a change at the end of the payload of a commit.
pub fn put_change(into: &mut Vec<u8>, change: &LogRecord) -> Result<(), AllocError>
    ensures { OnOk result (into.new.items ≡ into.old.items ++ change_bytes change.now) }
{
    let bytes = change.bytes.bytes();
    into.extend_from_slice(&change.page.number().to_le_bytes())?;
    into.extend_from_slice(&u64::from(change.offset).to_le_bytes())?;
    into.extend_from_slice(&(bytes.len() as u64).to_le_bytes())?;
    into.extend_from_slice(bytes)?;
    Ok(())
}

/// Reads the change at the front of these bytes.
fn read_change(alloc: Global, bytes: &[u8], lsn: u64) -> Result<(LogRecord, &[u8]), LogFault>
    ensures told { IfOk result (λ x. bytes.now ≡ change_bytes x.0 ++ x.1.now) }
    ensures fits { IfOk result (λ x. IsChange lsn x.0) }
    ensures fault { IfErr result (λ why. (why ≡ Memory) ⊎ (why ≡ NoChanges)) }
    ensures unread { IfErr result (λ why. Tells why (NoChange lsn bytes.now)) }
{
    let Some((page, rest)) = split_number(bytes) else {
        return Err(LogFault::NoChanges);
    };
    let Some((offset, rest)) = split_number(rest) else {
        return Err(LogFault::NoChanges);
    };
    let Some((length, rest)) = split_number(rest) else {
        return Err(LogFault::NoChanges);
    };
    if offset >= 1 << 32 {
        return Err(LogFault::NoChanges);
    }
    if (rest.len() as u64) < length {
        return Err(LogFault::NoChanges);
    }
    let (bytes, rest) = rest.split_at(length as usize);
    let change = LogRecord {
        page: PageNo::new(page),
        offset: offset as u32,
        bytes: Bytes::of(alloc, bytes)?,
        lsn: Lsn::new(lsn),
    };
    Ok((change, rest))
}

/// Reads the changes of a commit to the end of `into`.
fn read_changes(
    alloc: Global,
    payload: &[u8],
    lsn: u64,
    into: &mut Vec<LogRecord>,
) -> Result<(), LogFault>
    ensures read { OnOk result ((changes : List Record)
        × (into.new.items ≡ into.old.items ++ changes) × (payload.now ≡ payload_of changes)
        × AreChanges lsn changes) }
    ensures fault { IfErr result (λ why. (why ≡ Memory) ⊎ (why ≡ NoChanges)) }
    ensures unread { IfErr result (λ why. Tells why ((changes : List Record) →
        AreChanges lsn changes → payload.now ≢ payload_of changes)) }
{
    let mut rest = payload;
    while !rest.is_empty() {
        let (change, after) = read_change(alloc, rest, lsn)?;
        into.push(change)?;
        rest = after;
    }
    Ok(())
}

/// Returns the payload of a log's first record, its head: the bytes of the log's file, the pages of the table, the bytes
/// of each, and the table's name.
pub fn head_of(
    alloc: Global,
    size: usize,
    device: &Geometry,
    table: &[u8],
) -> Result<Vec<u8>, AllocError>
    ensures { IfOk result (λ v. v.items ≡ head_is size device.now table.now) }
{
    let mut head = Vec::new(alloc);
    head.extend_from_slice(&(size as u64).to_le_bytes())?;
    head.extend_from_slice(&device.pages.to_le_bytes())?;
    head.extend_from_slice(&(device.size as u64).to_le_bytes())?;
    head.extend_from_slice(table)?;
    Ok(head)
}

/// Splits bytes behind so many, or behind all where they are fewer.
fn split_front(bytes: &[u8], count: usize) -> (&[u8], &[u8])
    ensures front { result.0.now ≡ take count bytes.now }
    ensures rest { result.1.now ≡ drop count bytes.now }
{
    if bytes.len() < count {
        return bytes.split_at(bytes.len());
    }
    bytes.split_at(count)
}

/// Says how another head differs from the wanted one.
fn head_fault(found: &[u8], wanted: &[u8]) -> LogFault
    ensures { found.now ≢ wanted.now → HeadFault wanted.now found.now result }
{
    let (_, name) = split_front(found, 24);
    let (_, wanted_name) = split_front(wanted, 24);
    if name != wanted_name {
        return LogFault::OtherTable;
    }
    let (size, _) = split_front(found, 8);
    let (wanted_size, _) = split_front(wanted, 8);
    if size != wanted_size {
        return LogFault::OtherSize;
    }
    LogFault::OtherPages
}

/// Reads the head at the front of these bytes: `None` where no record stands there. `OtherTable`, `OtherSize` or
/// `OtherPages` where one does that is not this head.
pub fn read_head<'a>(bytes: &'a [u8], head: &[u8]) -> Result<Option<Framed<'a>>, LogFault>
    ensures some { IfOk result (λ o. IfSome o (λ f.
        bytes.now ≡ frame f.lsn f.payload.now ++ f.rest.now)) }
    ensures range { IfOk result (λ o. IfSome o (λ f. IsRecord f.lsn f.payload.now)) }
    ensures same { IfOk result (λ o. IfSome o (λ f. f.payload.now ≡ head.now)) }
    ensures none { IfOk result (λ o. IfNone o (NoFrame bytes.now)) }
    ensures other { IfErr result (λ why. OtherHead head.now bytes.now why) }
{
    let Some(found) = read_frame(bytes) else {
        return Ok(None);
    };
    if found.payload != head {
        return Err(head_fault(found.payload, head));
    }
    Ok(Some(found))
}

/// Returns the LSN of a log's first record, or 0 where no record stands at the front of these bytes. Refused as
/// `read_head` is.
pub fn first_lsn(bytes: &[u8], head: &[u8]) -> Result<u64, LogFault>
    ensures first { IfOk result (λ first. (lsn : ℕ) (payload rest : List ℕ) → IsRecord lsn payload →
        bytes.now ≡ frame lsn payload ++ rest → (lsn ≡ first) × (payload ≡ head.now)) }
    ensures stands { IfOk result (λ first. (first ≡ 0) ⊎ ((payload rest : List ℕ)
        × IsRecord first payload × (bytes.now ≡ frame first payload ++ rest))) }
    ensures other { IfErr result (λ why. OtherHead head.now bytes.now why) }
{
    match read_head(bytes, head)? {
        Some(found) => Ok(found.lsn),
        None => Ok(0),
    }
}

/// What was read of a log: the LSNs of its first record and of the last one, all changes, the oldest first, and the bytes
/// of all records.
#[derive(Drop)]
pub struct FoundLog<'a> {
    pub first: u64,
    pub last: u64,
    pub changes: Vec<LogRecord>,
    pub records: &'a [u8],
}

/// Reads a log, up to the first record that is cut off or has a wrong checksum. `NoLog` where no record stands at the
/// front, `UnevenLsn` and `NoChanges` where one behind it has another LSN than the next or no changes, `Memory`, and as
/// `read_head` is refused. Only there the bytes are no log with this head.
pub fn read_log<'a>(alloc: Global, bytes: &'a [u8], head: &[u8]) -> Result<FoundLog<'a>, LogFault>
    ensures read { IfOk result (λ x.
        (h : HasCommits head.now bytes.now x.first x.last x.changes.items)
        × (x.records.now ≡ frames x.first (log_of head.now h.commits))) }
    ensures fault { IfErr result (λ why. ReadFault head.now bytes.now why) }
    ensures unread { IfErr result (λ why. Tells why ((first last : ℕ) (changes : List Record) →
        HasCommits head.now bytes.now first last changes → ⊥)) }
{
    let Some(found) = read_head(bytes, head)? else {
        return Err(LogFault::NoLog);
    };
    let (mut last, mut rest, mut changes) = (found.lsn, found.rest, Vec::new(alloc));
    while let Some(next) = read_frame(rest) {
        if next.lsn - 1 != last {
            return Err(LogFault::UnevenLsn);
        }
        read_changes(alloc, next.payload, next.lsn, &mut changes)?;
        last = next.lsn;
        rest = next.rest;
    }
    Ok(FoundLog {
        first: found.lsn,
        last,
        changes,
        records: &bytes[..bytes.len() - rest.len()],
    })
}

/// What is read of a log that a crash left, at any moment of its life or of the openings after it: the first of its
/// commits, each whole, and no fewer than were synced. It does nothing: its contract is the law.
pub fn a_crash_leaves_whole_commits()
    ensures { (table first left : List ℕ) (start durable : ℕ) (alive : Bool)
        (calls later : List FileCall) (commits : List (List Record)) (kept : List (List ℕ))
        (n found last : ℕ) (changes : List Record) →
        LogLife first start alive calls (log_of table commits) durable →
        AreCommits (start + 1) commits →
        Reopened first start calls (log_of table commits) durable later kept n →
        FileLeaves first later left →
        TellsTrue start (synced first later) (written first later) left →
        HasCommits table left found last changes →
        Kept start durable commits found last changes }
{}

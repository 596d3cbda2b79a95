//! A log in a file of a fixed length. Its first record names the table.
ghost use Rattle.std.specs.Prelude.{◌≡◌, ◌⊎◌, ◌+◌, ◌-◌, ◌≤◌, ℕ, true, false, List, [], ◌∷◌, ◌++◌, length, replicate, Err, IfOk, IfErr, OnOk, OnErr, is_ok};
ghost use Rattle.example_log.specs.declared.log.LogFault.TheVariants.{Memory, Device as FileFailed};
ghost use Rattle.example_log.specs.Files.{FileCall, FileDid};
ghost use Rattle.example_log.specs.Frames.{frame};
ghost use Rattle.example_log.specs.LogFiles.{IsLogFile, IsUnread, AppendFault, BeginFault, StopFault, EndsOnError, HasRoom, SamePlace, GoesOn, Begins, Settles, Wipes, WipesFile};

use crate::frames::put_frame;
use crate::store::LogStore;
use std::alloc::{AllocError, AllocFailed, Global};
use thiserror::Error;

/// Why a log was not read or written.
#[derive(Clone, Copy, PartialEq, Eq, Debug, Drop, Error)]
pub enum LogFault {
    #[error("there is no memory")]
    Memory,
    #[error("the file of the log failed, or is shorter than the log")]
    Device,
    #[error("the log is full")]
    Full,
    #[error("the log has ended, since a call failed")]
    Ended,
    #[error("the file has no log")]
    NoLog,
    #[error("the log is of another table")]
    OtherTable,
    #[error("the log is of a file of another size")]
    OtherSize,
    #[error("the log is of pages of another number or size")]
    OtherPages,
    #[error("the file has a log already")]
    HasLog,
    #[error("the LSNs of the log do not go up by one")]
    UnevenLsn,
    #[error("two logs begin at the same LSN")]
    TwoLogs,
    #[error("a record of the log has no changes")]
    NoChanges,
}

impl From<AllocError> for LogFault {
    ghost from_gives = { λ _ e. e ≡ Memory };

    fn from(_: AllocError) -> LogFault {
        LogFault::Memory
    }
}

impl<T: Drop> From<AllocFailed<T>> for LogFault {
    ghost from_gives = { λ _ e. e ≡ Memory };

    fn from(_: AllocFailed<T>) -> LogFault {
        LogFault::Memory
    }
}

/// A log in a file. After a call that failed it has ended, and only what a crash leaves of it counts.
#[derive(Drop)]
pub struct LogFile<S> {
    pub store: S,
    /// The bytes of the file.
    pub size: usize,
    /// The bytes that the records take, from the first byte on.
    pub end: usize,
    /// The LSN of the next record.
    pub next: u64,
    /// Whether a call failed, or the log was not begun.
    pub is_ended: bool,
}

impl<S: Drop> LogFile<S> {
    /// Takes a file of so many bytes, in which a log is still to be begun.
    pub fn over(store: S, size: usize) -> LogFile<S> {
        LogFile {
            store,
            size,
            end: 0,
            next: 0,
            is_ended: true,
        }
    }

    /// Reads the whole file. `Memory`, and nothing is read, and `Device` where the file fails or is shorter.
    pub fn read_all<P>(&mut self, alloc: Global, pages: &P) -> Result<Vec<u8>, LogFault>
    where
        S: LogStore<P>,
        ensures read { IfOk result (λ v. (length v.items ≡ self.old.size)
            × S.reads pages.now self.old.store 0 v.items true self.new.store) }
        ensures unread { IfErr result
            (IsUnread (S.reads pages.now) self.old.store self.new.store) }
        ensures same { SamePlace self.old self.new }
    {
        let mut bytes = vec![in alloc; 0u8; self.size]?;
        match self.store.read_bytes(pages, 0, &mut bytes) {
            Ok(()) => Ok(bytes),
            Err(_) => Err(LogFault::Device),
        }
    }

    /// Writes bytes, or ends the log.
    fn write<P>(&mut self, pages: &P, start: usize, bytes: &[u8]) -> Result<(), LogFault>
    where
        S: LogStore<P>,
        ensures gives { S.writes pages.now self.old.store start bytes.now (is_ok result)
            self.new.store }
        ensures fault { OnErr result (result ≡ Err FileFailed) }
        ensures ended { EndsOnError self.old self.new result }
        ensures same { SamePlace self.old self.new }
    {
        match self.store.write_bytes(pages, start as u64, bytes) {
            Ok(()) => Ok(()),
            Err(_) => {
                self.is_ended = true;
                Err(LogFault::Device)
            }
        }
    }

    /// Makes each record durable, or ends the log.
    pub fn sync<P>(&mut self, pages: &P) -> Result<(), LogFault>
    where
        S: LogStore<P>,
        ensures life { (first : List ℕ) (start durable : ℕ) (calls : List FileCall)
            (log : List (List ℕ)) → IsLogFile first start calls log durable self.old →
            self.old.is_ended ≡ false →
            GoesOn (S.reads pages.now) (S.writes pages.now) (S.syncs pages.now) self.old self.new
            first start calls (λ after synced.
            (after ≡ log) × OnOk result (synced ≡ length log) × OnErr result (synced ≡ durable)) }
        ensures gives { S.syncs pages.now self.old.store (is_ok result) self.new.store }
        ensures fault { OnErr result (result ≡ Err FileFailed) }
        ensures ended { EndsOnError self.old self.new result }
        ensures same { SamePlace self.old self.new }
    {
        match self.store.sync_bytes(pages) {
            Ok(()) => Ok(()),
            Err(_) => {
                self.is_ended = true;
                Err(LogFault::Device)
            }
        }
    }

    /// Appends a record, and returns its LSN. It is durable after the next `sync`. `Full` where the file has no room for
    /// it or its LSN would be 2^64-1, `Memory`, and `Ended`: the log is then as it was. After `Device` it has ended.
    pub fn append<P>(&mut self, alloc: Global, pages: &P, payload: &[u8]) -> Result<u64, LogFault>
    where
        S: LogStore<P>,
        ensures life { (first : List ℕ) (start durable : ℕ) (calls : List FileCall)
            (log : List (List ℕ)) → IsLogFile first start calls log durable self.old →
            GoesOn (S.reads pages.now) (S.writes pages.now) (S.syncs pages.now) self.old self.new
            first start calls (λ after synced. (synced ≡ durable)
            × IfOk result (λ lsn. (lsn ≡ start + length log) × (after ≡ log ++ payload.now ∷ []))
            × OnErr result ((after ≡ log) ⊎ (after ≡ log ++ payload.now ∷ []))) }
        ensures alive { OnOk result (self.new.is_ended ≡ false) }
        ensures next { IfOk result (λ lsn. lsn ≡ self.old.next) }
        ensures gives { OnOk result (S.writes pages.now self.old.store self.old.end
            (frame self.old.next payload.now) true self.new.store) }
        ensures room { OnOk result (HasRoom self.old payload.now) }
        ensures fault { IfErr result
            (AppendFault (S.writes pages.now) self.old payload.now self.new) }
        ensures size { self.new.size ≡ self.old.size }
    {
        if self.is_ended {
            return Err(LogFault::Ended);
        }
        let lsn = self.next;
        let mut frame = Vec::new(alloc);
        put_frame(&mut frame, lsn, payload)?;
        if lsn == u64::MAX {
            return Err(LogFault::Full);
        }
        if frame.len() > self.size.saturating_sub(self.end) {
            return Err(LogFault::Full);
        }
        self.write(pages, self.end, &frame)?;
        self.end += frame.len();
        self.next = lsn + 1;
        Ok(lsn)
    }

    /// Writes records again that were read from the first byte on, and zeros behind them, and makes them durable: what was
    /// read may be in the system's memory alone. `Memory`, and `Device` where the file fails.
    pub fn settle<P>(&mut self, alloc: Global, pages: &P, records: &[u8]) -> Result<(), LogFault>
    where
        S: LogStore<P>,
        ensures did { (calls : List FileCall)
            × FileDid (S.reads pages.now) (S.writes pages.now) (S.syncs pages.now)
            self.old.store calls self.new.store
            × Settles (records.now ++ replicate (self.old.size - length records.now) 0) calls
            (is_ok result) }
        ensures fault { IfErr result (StopFault (S.reads pages.now) (S.writes pages.now)
            (S.syncs pages.now) (λ calls.
            Settles (records.now ++ replicate (self.old.size - length records.now) 0) calls false)
            self.old.store self.new.store) }
    {
        let mut bytes = Vec::new(alloc);
        bytes.extend_from_slice(records)?;
        let zeros = vec![in alloc; 0u8; self.size.saturating_sub(records.len())]?;
        bytes.extend_from_slice(&zeros)?;
        self.write(pages, 0, &bytes)?;
        self.sync(pages)?;
        Ok(())
    }

    /// Writes zeros over the whole file, and makes them durable: what a crash then leaves has no record, also where a write
    /// or a sync of the file had failed. The log has ended. `Memory`, and `Device` where the file fails.
    pub fn wipe<P>(&mut self, alloc: Global, pages: &P) -> Result<(), LogFault>
    where
        S: LogStore<P>,
        ensures wiped { WipesFile (S.reads pages.now) (S.writes pages.now) (S.syncs pages.now)
            self.old.size self.old.store (is_ok result) self.new.store }
        ensures ended { self.new.is_ended ≡ true }
        ensures fault { IfErr result (StopFault (S.reads pages.now) (S.writes pages.now)
            (S.syncs pages.now) (Wipes self.old.size) self.old.store self.new.store) }
        ensures same { SamePlace self.old self.new }
    {
        self.is_ended = true;
        let zeros = vec![in alloc; 0u8; self.size]?;
        self.write(pages, 0, &zeros)?;
        self.sync(pages)?;
        Ok(())
    }

    /// Wipes the file, and begins a log with this first record at an LSN from 1 on, which is then durable. What was in the
    /// file counts until it is wiped, and a call of it that failed before does not. After an error the log has ended:
    /// `Memory`, `Device`, and `Full` where the file has no room for the record or the LSN is 2^64-1.
    pub fn begin<P>(
        &mut self,
        alloc: Global,
        pages: &P,
        lsn: u64,
        head: &[u8],
    ) -> Result<(), LogFault>
    where
        S: LogStore<P>,
        requires { 1 ≤ lsn }
        ensures alive { OnOk result (self.new.is_ended ≡ false) }
        ensures ended { OnErr result (self.new.is_ended ≡ true) }
        ensures size { self.new.size ≡ self.old.size }
        ensures fault { IfErr result (BeginFault (S.reads pages.now) (S.writes pages.now)
            (S.syncs pages.now) self.old.size lsn head.now self.old.store self.new.store) }
        ensures begins { Begins (S.reads pages.now) (S.writes pages.now) (S.syncs pages.now)
            self.old self.new lsn head.now (is_ok result) }
    {
        self.wipe(alloc, pages)?;
        self.end = 0;
        self.next = lsn;
        self.is_ended = false;
        match self.append(alloc, pages, head) {
            Ok(_) => {}
            Err(fault) => {
                self.is_ended = true;
                return Err(fault);
            }
        }
        self.sync(pages)?;
        Ok(())
    }
}

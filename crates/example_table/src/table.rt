//! A table: a pool for one owner, and a log in a file.
ghost use Rattle.std.specs.Prelude.{◌≡◌, ◌≢◌, ◌⊎◌, ◌+◌, ◌-◌, ◌<◌, ◌^◌, ◌++◌, ◌∷◌, [], ℕ, true, false, List, Err, length, map, reverse, slice_index_or, OnOk, OnErr, IfOk, IfErr};
ghost use Rattle.bp_core.specs.Agreement.{parameters_of};
ghost use Rattle.bp_core.specs.Outcomes.{Adds, KnowsPass};
ghost use Rattle.bp_trail.specs.declared.entries.Call.TheVariants.{Mark};
ghost use Rattle.bp_trail.specs.declared.entries.Reply.TheVariants.{Done};
ghost use Rattle.example_table.specs.Faults.{CheckpointFault, DurableFault, IsFullFor, LacksRoom, SaveFault};
ghost use Rattle.bp_page.specs.declared.refusals.Refusal.TheVariants.{OutOfPage};
ghost use Rattle.bp_trail.specs.declared.records.LogRecord.{LogRecord as Record};
ghost use Rattle.bp_trail.specs.Trail.{Trail};
ghost use Rattle.example_log.specs.Commits.{AreChanges, changes_of, payload_of};
ghost use Rattle.example_log.specs.Disk.{DeviceCall};
ghost use Rattle.example_log.specs.Moments.{pages_in};
ghost use Rattle.example_log.specs.Files.{FileCall, written};
ghost use Rattle.example_table.specs.Checkpoints.{Checkpoints, HasSaved};
ghost use Rattle.example_log.specs.Heads.{head_of as head_is};
ghost use Rattle.example_log.specs.LogFiles.{IsLogFile, SamePlace};
ghost use Rattle.example_table.specs.Marks.{KeepsMarks};
ghost use Rattle.example_table.specs.Passes.{AddsPass, GivesBack, KeepsPasses};
ghost use Rattle.bp_trail.specs.Passes.{passes_out};
ghost use Rattle.example_table.specs.Tables.{Cut, no_cut};
ghost use Rattle.example_table.specs.Images.{AreImaged, FirstsAreFull, NotesEach, NotesMore, is_of};
ghost use Rattle.bp_trail.specs.Lists.{some};
ghost use Rattle.example_table.specs.Opening.{AreWithin};
ghost use Rattle.example_table.specs.TableCalls.{IsTable, LeavesCommit, TableDoes, TableGoes, under};
ghost use Rattle.example_log.specs.declared.log.LogFault.TheVariants.{Memory, Ended, Full, OtherSize};
ghost use Rattle.example_table.specs.declared.table.TableFault.TheVariants.{Log, Pages};

use crate::images::note_images;
use crate::opening::check;
use bp_core::{Pass, Settings, SilentKeeper};
use bp_device::OwnedPool;
use bp_page::{Geometry, Lsn, PageNo, Refusal};
use bp_ports::Port;
use bp_trail::LogRecord;
use example_log::reading::{head_of, put_change};
use example_log::{LogFault, LogFile, LogStore};
use std::alloc::{AllocError, AllocFailed, Global};
use std::mem;
use std::sync::Wait;
use thiserror::Error;

/// Why a call of a table was refused.
#[derive(Clone, Copy, PartialEq, Eq, Debug, Drop, Error)]
pub enum TableFault {
    #[error("{0}")]
    Log(LogFault),
    #[error("{0}")]
    Pages(Refusal),
}

impl From<LogFault> for TableFault {
    ghost from_gives = { λ fault e. e ≡ Log fault };

    fn from(fault: LogFault) -> TableFault {
        TableFault::Log(fault)
    }
}

impl From<AllocError> for TableFault {
    ghost from_gives = { λ _ e. e ≡ Log Memory };

    fn from(_: AllocError) -> TableFault {
        TableFault::Log(LogFault::Memory)
    }
}

impl<T: Drop> From<AllocFailed<T>> for TableFault {
    ghost from_gives = { λ _ e. e ≡ Log Memory };

    fn from(_: AllocFailed<T>) -> TableFault {
        TableFault::Log(LogFault::Memory)
    }
}

impl From<Refusal> for TableFault {
    ghost from_gives = { λ why e. e ≡ Pages why };

    fn from(why: Refusal) -> TableFault {
        TableFault::Pages(why)
    }
}

/// The entries for which the pool's silent keeper has room.
const ROOM: usize = 1 << 60;

/// The first LSN under which nothing is committed. Each opening takes an LSN too: as many are left for these.
const NO_COMMIT: u64 = 1 << 63;

/// Returns the payload of a commit. `OutOfPage` where a change does not lie within a page of the file.
fn payload(alloc: Global, device: &Geometry, changes: &[LogRecord]) -> Result<Vec<u8>, TableFault>
    ensures told { IfOk result (λ v. (lsn : ℕ) → (v.items ≡ payload_of (map (under lsn) changes.now))
        × AreChanges lsn (map (under lsn) changes.now)) }
    ensures fault { IfErr result (λ why. why ≢ Log Full) }
{
    let mut payload = Vec::new(alloc);
    for change in changes {
        if change.page.number() >= device.pages {
            return Err(TableFault::Pages(Refusal::OutOfPage));
        }
        if !device.fits(change.offset as usize, change.bytes.bytes().len()) {
            return Err(TableFault::Pages(Refusal::OutOfPage));
        }
        put_change(&mut payload, change)?;
    }
    Ok(payload)
}

#[derive(Drop)]
pub struct Table<S: Drop, P: Port> {
    pub pool: OwnedPool<SilentKeeper, P>,
    pub log: LogFile<S>,
    /// For each page, whether the log has an image of it: a change of all its bytes.
    pub imaged: Vec<bool>,
    /// Whether a commit was refused after it began: the table has to be opened again.
    pub is_ended: bool,
}

impl<S: LogStore<P>, P: Port> Table<S, P> {
    /// Begins with the pages as they are, once they are redone, and a log in which one record names the table. Refused
    /// as `OwnedPool::over` is, and with `Memory`; port and log are then dropped.
    pub fn begin(
        alloc: Global,
        port: P,
        settings: Settings,
        frames: usize,
        log: LogFile<S>,
    ) -> Result<Table<S, P>, TableFault>
        ensures begins { IfOk result (λ made. (made.pool.port ≡ port) × (made.is_ended ≡ false)
            × ((table file : List ℕ) (start : ℕ) (log_calls : List FileCall) →
            IsLogFile file start log_calls (table ∷ []) 1 log →
            IsTable table no_cut file start [] [] log_calls [] 1 [] made.pool made.log)) }
        ensures asked { IfOk result (λ made. made.pool.core.parameters ≡ parameters_of (record {
          geometry = P.geometry_of port;
          settings = settings;
          frames = frames;
          clients = 1;
          room =
              2 ^ 60;
        })) }
        ensures log { IfOk result (λ made. made.log ≡ log) }
        ensures imaged { IfOk result (λ made. AreImaged made.imaged.items []
            × (length made.imaged.items ≡ (P.geometry_of port).pages)) }
        ensures passes { IfOk result (λ made. passes_out made.pool.core.past ≡ []) }
    {
        let pool = OwnedPool::over(alloc, port, settings, frames, ROOM)?;
        let imaged = vec![in alloc; false; pool.port().geometry().pages as usize]?;
        Ok(Table {
            pool,
            log,
            imaged,
            is_ended: false,
        })
    }

    /// Makes each commit durable: syncs the log, and then raises the mark to its last LSN. `Ended`, `Device`, after which
    /// the log has ended, and `TrailFull`.
    pub fn make_durable(&mut self) -> Result<(), TableFault>
        ensures goes { TableDoes S.reads S.writes S.syncs P.read_gives P.write_gives P.sync_gives
            self.old.pool self.new.pool self.old.log self.new.log
            (λ commits records pending after n left. (after ≡ commits) × (left ≡ pending)
            × OnOk result (n ≡ 1 + length commits)) }
        ensures alive { OnOk result (self.new.log.is_ended ≡ false) }
        ensures marked { OnOk result (Adds self.old.pool.core 0 (Mark (self.old.log.next - 1)) Done
            self.new.pool.core) }
        ensures fault { IfErr result
            (DurableFault S.syncs self.old.pool self.old.log self.new.log) }
        ensures kept { KeepsMarks self.old self.new }
        ensures passes { KeepsPasses self.old.pool self.new.pool }
        ensures place { SamePlace self.old.log self.new.log }
    {
        if self.log.is_ended {
            return Err(TableFault::Log(LogFault::Ended));
        }
        self.log.sync(self.pool.port())?;
        self.pool.mark(Lsn::new(self.log.next.saturating_sub(1)))?;
        Ok(())
    }

    /// Fixes a page.
    fn fix<R: Wait>(&mut self, rt: &R, page: PageNo) -> Result<Pass, Refusal>
        ensures goes { TableDoes S.reads S.writes S.syncs P.read_gives P.write_gives P.sync_gives
            self.old.pool self.new.pool self.old.log self.new.log
            (λ commits records pending after n left. (after ≡ commits) × (left ≡ pending)
            × (n ≡ records)) }
        ensures page { IfOk result (λ pass. pass.page ≡ page) }
        ensures known { IfOk result (λ pass. KnowsPass self.new.pool.core pass) }
        ensures log { self.new.log ≡ self.old.log }
        ensures kept { KeepsMarks self.old self.new }
        ensures passes { AddsPass self.old.pool result self.new.pool }
    {
        let fixed = self.pool.fix(rt, page);
        self.pool.core().keeps_the_rules();
        fixed
    }

    /// Fixes a page. Where the page that is to leave for it waits for the log, that is made durable first.
    pub(crate) fn fix_page<R: Wait>(&mut self, rt: &R, page: PageNo) -> Result<Pass, TableFault>
        ensures goes { TableDoes S.reads S.writes S.syncs P.read_gives P.write_gives P.sync_gives
            self.old.pool self.new.pool self.old.log self.new.log
            (λ commits records pending after n left. (after ≡ commits) × (left ≡ pending)) }
        ensures page { IfOk result (λ pass. pass.page ≡ page) }
        ensures known { IfOk result (λ pass. KnowsPass self.new.pool.core pass) }
        ensures alive { self.old.log.is_ended ≡ false →
            OnOk result (self.new.log.is_ended ≡ false) }
        ensures kept { KeepsMarks self.old self.new }
        ensures passes { AddsPass self.old.pool result self.new.pool }
        ensures place { SamePlace self.old.log self.new.log }
        ensures fault { IfErr result (λ why. why ≢ Log Full) }
    {
        match self.fix(rt, page) {
            Ok(pass) => return Ok(pass),
            Err(Refusal::NeedLog(_)) => {}
            Err(why) => return Err(TableFault::Pages(why)),
        }
        self.make_durable()?;
        Ok(self.fix(rt, page)?)
    }

    /// Makes the oldest change that is pending.
    fn put<R: Wait>(&mut self, rt: &R, change: &LogRecord, lsn: u64) -> Result<(), TableFault>
        ensures goes { (older : List Record) → (table : List ℕ) (cut : Cut) (file : List ℕ)
            (start records : ℕ) (synced : Trail) (calls : List DeviceCall)
            (log_calls : List FileCall) (commits : List (List Record)) (pending : List Record) →
            IsTable table cut file start synced calls log_calls commits records pending
            self.old.pool self.old.log →
            pending ≡ older ++ under lsn change.now ∷ [] →
            TableGoes S.reads S.writes S.syncs P.read_gives P.write_gives P.sync_gives
            self.old.pool self.new.pool self.old.log self.new.log table cut file start calls
            log_calls commits records
            (λ after n left. (after ≡ commits) × ((left ≡ pending) ⊎ (left ≡ older))
            × OnOk result (left ≡ older)) }
        ensures alive { self.old.log.is_ended ≡ false →
            OnOk result (self.new.log.is_ended ≡ false) }
        ensures kept { self.new.imaged.items ≡ self.old.imaged.items }
        ensures passes { GivesBack self.old.pool self.new.pool }
        ensures fault { IfErr result (λ why. why ≢ Log Full) }
    {
        let pass = self.fix_page(rt, change.page)?;
        let bytes = change.bytes.bytes();
        let written = self
            .pool
            .write_from(&pass, change.offset, bytes, Lsn::new(lsn));
        // A pass can't be dropped: one that does not go back is spent as a note.
        let _ = self.pool.unfix(pass).map_err(|pass| pass.note());
        Ok(written?)
    }

    /// Commits changes of which the first of each page since the log was begun is of the whole page.
    fn commit_whole<R: Wait>(
        &mut self,
        rt: &R,
        alloc: Global,
        changes: &[LogRecord],
    ) -> Result<u64, TableFault>
        ensures limit { IfOk result (λ lsn. lsn < 2 ^ 63) }
        ensures alive { OnOk result
            ((self.new.is_ended ≡ false) × (self.new.log.is_ended ≡ false)) }
        ensures goes { (table : List ℕ) (cut : Cut) (file : List ℕ) (start records : ℕ)
            (synced : Trail) (calls : List DeviceCall) (log_calls : List FileCall)
            (commits : List (List Record)) →
            IsTable table cut file start synced calls log_calls commits records [] self.old.pool
            self.old.log → self.old.is_ended ≡ false → FirstsAreFull
            self.old.pool.core.parameters.size
            (reverse changes.now ++ reverse (changes_of commits)) →
            TableGoes S.reads S.writes S.syncs P.read_gives P.write_gives P.sync_gives
            self.old.pool self.new.pool self.old.log self.new.log table cut file start calls
            log_calls commits records
            (λ after n left. (((after ≡ commits) × (self.new.imaged.items ≡ self.old.imaged.items))
            ⊎ (after ≡ commits ++ map (under (start + 1 + length commits)) changes.now ∷ []))
            × (self.new.is_ended ≡ false → left ≡ [])
            × OnErr result (self.new.is_ended ≡ false → after ≡ commits)
            × IfOk result (λ lsn. (lsn ≡ start + 1 + length commits)
            × (after ≡ commits ++ map (under lsn) changes.now ∷ []))) }
        ensures noted { (p : ℕ) → slice_index_or self.new.imaged.items p false ≡ true →
            (slice_index_or self.old.imaged.items p false ≡ true)
            ⊎ (some (is_of p) changes.now ≡ true) }
        ensures added { OnOk result
            (NotesMore self.old.imaged.items changes.now self.new.imaged.items) }
        ensures flags { length self.new.imaged.items ≡ length self.old.imaged.items }
        ensures passes { GivesBack self.old.pool self.new.pool }
        ensures full { IfErr result (λ why. why ≡ Log Full →
            LacksRoom self.old.log (payload_of changes.now)) }
    {
        if self.log.next >= NO_COMMIT {
            return Err(TableFault::Log(LogFault::Full));
        }
        let payload = payload(alloc, &self.pool.port().geometry(), changes)?;
        let lsn = match self.log.append(alloc, self.pool.port(), &payload) {
            Ok(lsn) => lsn,
            Err(fault) => {
                self.is_ended = self.log.is_ended;
                return Err(TableFault::Log(fault));
            }
        };
        note_images(&mut self.imaged, changes);
        self.is_ended = true;
        for change in changes {
            match self.put(rt, change, lsn) {
                Ok(()) => {}
                Err(fault) => {
                    self.is_ended = true;
                    return Err(fault);
                }
            }
        }
        self.is_ended = false;
        Ok(lsn)
    }

    /// Commits changes, which may lie in several pages, and returns the LSN of the commit: the changes' own are not
    /// looked at. The log has the first change of a page since it was begun with all other bytes of the page, which is
    /// fixed for that first. A crash leaves all changes of the commit or none, and all once `make_durable` has passed.
    ///
    /// `Ended`, where the table or its log has ended, and `OutOfPage` change nothing. If the table has not ended after a
    /// refusal, nothing was committed and it goes on: `Full` where the log has no room for the changes and for the pages of
    /// which it has no image, or the LSN would be 2^63, `Memory`, and as a fix is refused. A commit of more pages than the
    /// log has room for is always `Full`. If it has ended, it is to be opened again, and the commit may be found then.
    pub fn commit<R: Wait>(
        &mut self,
        rt: &R,
        alloc: Global,
        changes: &[LogRecord],
    ) -> Result<u64, TableFault>
        ensures ended { (self.old.is_ended ≡ true) ⊎ (self.old.log.is_ended ≡ true) →
            (result ≡ Err (Log Ended)) × (self.new ≡ self.old) }
        ensures beyond { self.old.is_ended ≡ false → self.old.log.is_ended ≡ false →
            ¬ AreWithin (P.geometry_of self.old.pool.port).pages
            (P.geometry_of self.old.pool.port).size
            changes.now → (result ≡ Err (Pages OutOfPage)) × (self.new ≡ self.old) }
        ensures limit { IfOk result (λ lsn. lsn < 2 ^ 63) }
        ensures alive { OnOk result
            ((self.new.is_ended ≡ false) × (self.new.log.is_ended ≡ false)) }
        ensures goes { (table : List ℕ) (cut : Cut) (file : List ℕ) (start records : ℕ)
            (synced : Trail) (calls : List DeviceCall) (log_calls : List FileCall)
            (commits : List (List Record)) →
            IsTable table cut file start synced calls log_calls commits records [] self.old.pool
            self.old.log → AreImaged self.old.imaged.items (reverse (changes_of commits)) →
            (g : TableGoes S.reads S.writes S.syncs P.read_gives P.write_gives P.sync_gives
            self.old.pool self.new.pool self.old.log self.new.log table cut file start calls
            log_calls commits records
            (λ after n left. (self.new.is_ended ≡ false → left ≡ [])
            × AreImaged self.new.imaged.items (reverse (changes_of after))
            × (self.new.is_ended ≡ false →
            NotesEach self.old.imaged.items (reverse (changes_of commits)) →
            NotesEach self.new.imaged.items (reverse (changes_of after)))))
            × LeavesCommit self.old.pool.core.parameters.size cut calls commits
            (start + 1 + length commits) changes.now self.new.is_ended result
            (pages_in g.steps) g.commits }
        ensures passes { GivesBack self.old.pool self.new.pool }
        ensures full { (table : List ℕ) (cut : Cut) (file : List ℕ) (start records : ℕ)
            (synced : Trail) (calls : List DeviceCall) (log_calls : List FileCall)
            (commits : List (List Record)) →
            IsTable table cut file start synced calls log_calls commits records [] self.old.pool
            self.old.log → AreImaged self.old.imaged.items (reverse (changes_of commits)) →
            IfErr result (λ why. why ≡ Log Full → IsFullFor self.old.pool.core.parameters.size
            self.old.imaged.items self.old.log changes.now) }
        ensures flags { length self.new.imaged.items ≡ length self.old.imaged.items }
    {
        if self.is_ended || self.log.is_ended {
            return Err(TableFault::Log(LogFault::Ended));
        }
        check(&self.pool.port().geometry(), changes)?;
        let made = match self.whole_changes(rt, alloc, changes) {
            Ok(made) => made,
            Err(fault) => {
                self.is_ended = self.log.is_ended;
                return Err(fault);
            }
        };
        self.commit_whole(rt, alloc, &made)
    }

    /// Writes out each unsaved page, and makes all pages durable. After a sync that failed the log has ended.
    fn save_pages<R: Wait>(&mut self, rt: &R) -> Result<(), TableFault>
        ensures goes { OnErr result (TableDoes S.reads S.writes S.syncs P.read_gives P.write_gives
            P.sync_gives self.old.pool self.new.pool self.old.log self.new.log
            (λ commits records pending after n left. (after ≡ commits) × (left ≡ pending))) }
        ensures saved { (table : List ℕ) (cut : Cut) (file : List ℕ) (start records : ℕ)
            (synced : Trail) (calls : List DeviceCall) (log_calls : List FileCall)
            (commits : List (List Record)) (pending : List Record) →
            IsTable table cut file start synced calls log_calls commits records pending
            self.old.pool self.old.log → self.old.log.is_ended ≡ false →
            OnOk result (HasSaved P.read_gives P.write_gives P.sync_gives self.old.pool
            self.new.pool self.old.log table cut file start calls log_calls commits records
            pending) }
        ensures log { OnOk result (self.new.log ≡ self.old.log) }
        ensures kept { KeepsMarks self.old self.new }
        ensures passes { KeepsPasses self.old.pool self.new.pool }
        ensures fault { IfErr result (SaveFault P.sync_gives self.new.pool) }
    {
        let flushed = self.pool.flush_all(rt);
        self.pool.core().keeps_the_rules();
        if let Err(stop) = flushed {
            return Err(TableFault::Pages(stop.why));
        }
        if let Err(_) = self.pool.sync(rt) {
            self.log.is_ended = true;
            return Err(TableFault::Pages(Refusal::WriteFailed));
        }
        Ok(())
    }

    /// Begins the log anew in the other file, so that the commits until now take no room in it. Before that it makes each
    /// of them durable, and each page. A crash leaves all durable commits, whenever it comes. `table` is the name by which
    /// the table was opened. `spare` is the file that has not the log: after Ok it is the one that had it, for the next
    /// checkpoint. Best wipe it then (`LogFile::wipe`): while it has a log, one lost byte in the head of the one that
    /// goes on takes `open` back to it, and without a word. A file of which a write or a sync failed will do: it is wiped.
    ///
    /// `Ended`, `OtherSize` where the files of the log have two sizes, and `Memory` before that, change nothing. `Device`
    /// where a file of the log fails, `WriteFailed` where the device does, `Full` where no LSN is left or the file has no
    /// room for the head, `Memory`, and as `make_durable` and `OwnedPool::flush_all` are refused. If the table or its log
    /// has then ended, it is to be opened again.
    pub fn checkpoint<R: Wait>(
        &mut self,
        rt: &R,
        alloc: Global,
        table: &[u8],
        spare: &mut LogFile<S>,
    ) -> Result<(), TableFault>
        ensures goes { (cut : Cut) (file other : List ℕ) (start records : ℕ) (synced : Trail)
            (calls : List DeviceCall) (log_calls before : List FileCall)
            (commits : List (List Record)) →
            IsTable (head_is self.old.log.size (P.geometry_of self.old.pool.port) table.now) cut file
            start synced calls log_calls commits records [] self.old.pool self.old.log →
            length (written other before) ≡ length other → spare.old.size ≡ length other →
            Checkpoints S.reads S.writes S.syncs P.read_gives P.write_gives P.sync_gives
            self.old.pool self.new.pool self.old.log self.new.log spare.old spare.new
            (head_is self.old.log.size (P.geometry_of self.old.pool.port) table.now) cut file
            start calls log_calls commits records other before result }
        ensures refused { OnErr result ((self.new.is_ended ≡ true) ⊎ (spare.new ≡ spare.old)) }
        ensures alive { OnOk result
            ((self.new.is_ended ≡ false) × (self.new.log.is_ended ≡ false)) }
        ensures imaged { OnOk result (AreImaged self.new.imaged.items []
            × (length self.new.imaged.items ≡ length self.old.imaged.items)) }
        ensures kept { OnErr result (self.new.imaged.items ≡ self.old.imaged.items) }
        ensures sizes { spare.old.size ≢ self.old.log.size → self.old.is_ended ≡ false →
            (result ≡ Err (Log OtherSize)) × (self.new ≡ self.old) × (spare.new ≡ spare.old) }
        ensures passes { KeepsPasses self.old.pool self.new.pool }
        ensures fault { IfErr result (CheckpointFault S.reads S.writes S.syncs P.sync_gives
            self.old.is_ended self.old.pool self.new.pool self.old.log spare.old spare.new
            (head_is self.old.log.size (P.geometry_of self.old.pool.port) table.now)) }
    {
        if self.is_ended {
            return Err(TableFault::Log(LogFault::Ended));
        }
        if spare.size != self.log.size {
            return Err(TableFault::Log(LogFault::OtherSize));
        }
        let head = head_of(alloc, self.log.size, &self.pool.port().geometry(), table)?;
        self.make_durable()?;
        // Once the next log may be there, a commit in this one could be lost.
        self.is_ended = true;
        self.save_pages(rt)?;
        // No LSN is 0.
        spare.begin(alloc, self.pool.port(), self.log.next.max(1), &head)?;
        mem::swap(&mut self.log, spare);
        self.imaged.fill(false);
        self.is_ended = false;
        Ok(())
    }
}

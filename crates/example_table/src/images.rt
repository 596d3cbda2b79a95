//! Full images: the first change of a page since the log was begun is of the whole page, so that redo mends whatever a
//! crash leaves of the page.
ghost use Rattle.std.specs.Prelude.{◌≡◌, ◌≢◌, ◌⊎◌, ◌||◌, ◌+◌, ◌≤◌, ℕ, [], ◌++◌, List, true, false, IfOk, IfErr, length, reverse, slice_index_or};
ghost use Rattle.bp_trail.specs.declared.records.LogRecord.{LogRecord as Record};
ghost use Rattle.bp_trail.specs.Trail.{Trail};
ghost use Rattle.bp_trail.specs.Images.{held};
ghost use Rattle.bp_trail.specs.Lists.{some};
ghost use Rattle.example_log.specs.Commits.{changes_of};
ghost use Rattle.example_log.specs.Disk.{DeviceCall};
ghost use Rattle.example_log.specs.LogFiles.{SamePlace};
ghost use Rattle.example_log.specs.Moments.{pages_in};
ghost use Rattle.example_log.specs.declared.log.LogFault.TheVariants.{Full};
ghost use Rattle.example_table.specs.declared.table.TableFault.TheVariants.{Log};
ghost use Rattle.example_log.specs.Files.{FileCall};
ghost use Rattle.example_table.specs.Images.{AreImaged, AreImagedOnce, AreWhole, IsWhole, NotesMore, is_of, whole_of as whole_is};
ghost use Rattle.example_table.specs.Marks.{KeepsMarks};
ghost use Rattle.example_table.specs.Passes.{GivesBack};
ghost use Rattle.example_table.specs.Tables.{Cut};
ghost use Rattle.example_table.specs.TableCalls.{IsTable, TableGoes};

use crate::table::{Table, TableFault};
use bp_core::Pass;
use bp_page::{Bytes, Image, Lsn, PageNo, Refusal};
use bp_ports::Port;
use bp_trail::{LogRecord, redo_record};
use example_log::LogStore;
use std::alloc::{AllocError, Global};
use std::sync::Wait;

/// Returns true if one of these changes is of this page.
fn touches(changes: &[LogRecord], page: PageNo) -> bool
    ensures { result ≡ some (is_of page) changes.now }
{
    for change in changes {
        if change.page.number() == page.number() {
            return true;
        }
    }
    false
}

/// Notes that the log has an image of each page of these changes.
pub(crate) fn note_images(imaged: &mut Vec<bool>, changes: &[LogRecord])
    ensures known { (p : ℕ) → slice_index_or imaged.new.items p false ≡ true →
        (slice_index_or imaged.old.items p false ≡ true) ⊎ (some (is_of p) changes.now ≡ true) }
    ensures noted { NotesMore imaged.old.items changes.now imaged.new.items }
{
    for change in changes {
        let place = change.page.number() as usize;
        if place < imaged.len() {
            imaged[place] = true;
        }
    }
}

fn copy_of(alloc: Global, change: &LogRecord) -> Result<LogRecord, AllocError>
    ensures { IfOk result (λ copy. copy ≡ change.now) }
{
    Ok(LogRecord {
        page: change.page,
        offset: change.offset,
        bytes: Bytes::of(alloc, change.bytes.bytes())?,
        lsn: change.lsn,
    })
}

/// Returns a change with all other bytes of its page, which are these.
fn whole_of(alloc: Global, change: &LogRecord, bytes: &[u8]) -> Result<LogRecord, TableFault>
    ensures whole { IfOk result (λ made. made ≡ whole_is change.now bytes.now) }
    ensures fits { IfOk result (λ _.
        change.now.offset + length change.now.bytes ≤ length bytes.now) }
    ensures fault { IfErr result (λ why. why ≢ Log Full) }
{
    let mut image = Image::of(alloc, bytes)?;
    redo_record(change, Lsn::new(0), change.page, &mut image)?;
    Ok(LogRecord {
        page: change.page,
        offset: 0,
        bytes: Bytes::of(alloc, image.bytes())?,
        lsn: change.lsn,
    })
}

impl<S: LogStore<P>, P: Port> Table<S, P> {
    /// Returns true if the log has an image of this page.
    fn has_image(&self, page: PageNo) -> bool
        ensures { result ≡ slice_index_or self.now.imaged.items page false }
    {
        let place = page.number() as usize;
        place < self.imaged.len() && self.imaged[place]
    }

    /// Returns true if the log has an image of this page, or is to have one by these changes.
    fn is_known(&self, made: &[LogRecord], page: PageNo) -> bool
        ensures { result ≡ (slice_index_or self.now.imaged.items page false
            || some (is_of page) made.now) }
    {
        self.has_image(page) || touches(made, page)
    }

    /// Returns a change with all other bytes of its page, of which this is a pass.
    fn whole_by(
        &self,
        alloc: Global,
        pass: &Pass,
        change: &LogRecord,
    ) -> Result<LogRecord, TableFault>
        ensures whole { IfOk result (λ made.
            made ≡ whole_is change.now (held self.now.pool.core.past pass.now.page)) }
        ensures long { IfOk result (λ _.
            length (held self.now.pool.core.past pass.now.page)
            ≡ self.now.pool.core.parameters.size) }
        ensures fits { IfOk result (λ _.
            change.now.offset + length change.now.bytes ≤ self.now.pool.core.parameters.size) }
        ensures fault { IfErr result (λ why. why ≢ Log Full) }
    {
        match self.pool.page(pass) {
            Some(bytes) => whole_of(alloc, change, bytes),
            None => Err(TableFault::Pages(Refusal::UnknownPass)),
        }
    }

    /// Returns a change with all other bytes of its page, which is fixed for that.
    fn whole<R: Wait>(
        &mut self,
        rt: &R,
        alloc: Global,
        change: &LogRecord,
    ) -> Result<LogRecord, TableFault>
        ensures goes { (table : List ℕ) (cut : Cut) (file : List ℕ) (start records : ℕ)
            (synced : Trail) (calls : List DeviceCall) (log_calls : List FileCall)
            (commits : List (List Record)) →
            IsTable table cut file start synced calls log_calls commits records [] self.old.pool
            self.old.log →
            (g : TableGoes S.reads S.writes S.syncs P.read_gives P.write_gives P.sync_gives
            self.old.pool self.new.pool self.old.log self.new.log table cut file start calls
            log_calls commits records
            (λ after n left. (after ≡ commits) × (left ≡ [])))
            × IfOk result (λ made. IsWhole self.old.pool.core.parameters.size
            (pages_in g.steps ++ calls) (reverse (changes_of (cut.commits ++ commits))) change.now made) }
        ensures kept { KeepsMarks self.old self.new }
        ensures passes { GivesBack self.old.pool self.new.pool }
        ensures place { SamePlace self.old.log self.new.log }
        ensures fault { IfErr result (λ why. why ≢ Log Full) }
    {
        let pass = self.fix_page(rt, change.page)?;
        let made = self.whole_by(alloc, &pass, change);
        // A pass can't be dropped: one that does not go back is spent as a note.
        let _ = self.pool.unfix(pass).map_err(|pass| pass.note());
        made
    }

    /// Returns the changes as the log is to have them: with all other bytes of its page, where the log has no image of
    /// the page yet. Refused as a fix of these pages is, and with `Memory`.
    pub(crate) fn whole_changes<R: Wait>(
        &mut self,
        rt: &R,
        alloc: Global,
        changes: &[LogRecord],
    ) -> Result<Vec<LogRecord>, TableFault>
        ensures goes { (table : List ℕ) (cut : Cut) (file : List ℕ) (start records : ℕ)
            (synced : Trail) (calls : List DeviceCall) (log_calls : List FileCall)
            (commits : List (List Record)) →
            IsTable table cut file start synced calls log_calls commits records [] self.old.pool
            self.old.log → AreImaged self.old.imaged.items (reverse (changes_of commits)) →
            (g : TableGoes S.reads S.writes S.syncs P.read_gives P.write_gives P.sync_gives
            self.old.pool self.new.pool self.old.log self.new.log table cut file start calls
            log_calls commits records
            (λ after n left. (after ≡ commits) × (left ≡ [])))
            × IfOk result (λ made. AreWhole self.old.pool.core.parameters.size
            (pages_in g.steps ++ calls) (reverse (changes_of (cut.commits ++ commits)))
            (reverse (changes_of commits)) changes.now made.items
            × AreImagedOnce self.old.pool.core.parameters.size
            (λ p. slice_index_or self.old.imaged.items p false) changes.now made.items) }
        ensures kept { KeepsMarks self.old self.new }
        ensures passes { GivesBack self.old.pool self.new.pool }
        ensures place { SamePlace self.old.log self.new.log }
        ensures fault { IfErr result (λ why. why ≢ Log Full) }
    {
        let mut made = Vec::new(alloc);
        for change in changes {
            if self.is_known(&made, change.page) {
                made.push(copy_of(alloc, change)?)?;
            } else {
                made.push(self.whole(rt, alloc, change)?)?;
            }
        }
        Ok(made)
    }
}

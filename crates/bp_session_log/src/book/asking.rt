//! The calls that make one event of the core, which the list gets too.
ghost use Rattle.std.specs.Prelude.{◌≡◌, ◌≢◌, ◌≤◌, ◌<◌, ◌+◌, ◌∷◌, true, false, length, OnOk, IfOk};
ghost use Rattle.bp_mark.specs.Marks.{ReaderValue};
ghost use Rattle.bp_trail.specs.declared.entries.Call.TheVariants as Call;
ghost use Rattle.bp_trail.specs.declared.entries.Reply.TheVariants as Reply;
ghost use Rattle.bp_trail.specs.Clock.{durable};
ghost use Rattle.bp_session_log.specs.Books.{AddsAlike, KeepsBook};
ghost use Rattle.bp_session_log.specs.Turns.{LookOutcome, AskFixOutcome, AskFlushOutcome};
ghost use Rattle.bp_session_log.specs.Turns.{passes_taken, places_taken, tickets_taken};
ghost use Rattle.bp_session_log.specs.Turns.{ReadSaid, ReadIntoSaid, WriteSaid};
ghost use Rattle.bp_core.specs.Outcomes.{TakesMemory};
ghost use Rattle.bp_core.specs.Outcomes.{ReadOutcome, ReadIntoOutcome, WriteOutcome};
ghost use Rattle.bp_session_log.specs.Causes.{Looks, AsksFix, AsksFlush};

use super::Book;
use crate::pending::{Fix, Flush, PendingRead, PendingWrite};
use bp_core::{Call, Pass, PoolCore, Reply, passes};
use bp_keeper::ListKeeper;
use bp_mark::{Mark, Reader};
use bp_page::{Image, Lsn, PageNo, Refusal};

impl<K: ListKeeper> Book<K> {
    /// Looks at the mark once, and marks what it sees where that is above the mark of the core: the trail and the
    /// list get the entry. `TrailFull`, where the trail has no room for the mark, adds none.
    #[tactic(auto, using(crate::proofs::Asking::mark_refused))]
    #[inline(always)]
    pub fn look(
        &mut self,
        core: &mut PoolCore<K>,
        reader: &mut Reader,
        mark: &Mark,
    ) -> Result<(), Refusal>
        requires mark { reader.old.mark ≡ mark.now }
        requires client_in { self.old.client < core.old.parameters.clients }
        requires seen { durable core.old.past ≤ reader.old.seen }
        requires room { 0 < self.old.entries }
        ensures mark { reader.new.mark ≡ reader.old.mark }
        ensures seen { durable core.new.past ≤ reader.new.seen }
        ensures adds { AddsAlike core.old self.old core.new self.new }
        ensures entries { self.old.entries ≤ self.new.entries + 1 }
        ensures passes { self.new.passes ≡ self.old.passes }
        ensures places { self.new.places ≡ self.old.places }
        ensures copies { self.new.copies ≡ self.old.copies }
        ensures looks { Looks self.old.client reader.new.seen core.old result core.new }
        ensures outcome { LookOutcome self.old.client core.old reader.new.seen result
            self.old.said self.new.said }
    {
        let seen = reader.look(mark);
        if seen <= core.durable() {
            return Ok(());
        }
        core.mark(self.client, seen)?;
        self.tell(Call::Mark(seen), Reply::Done);
        Ok(())
    }

    /// Asks the core for a page. The trail and the list get the fix with its reply, and the client then owes the unfix
    /// of a pass, or the end of a ticket and the unfix after it.
    ///
    /// `NoVictim`, `NeedLog` and `Busy` are the reply of the entry; `TrailFull` and `OutOfMemory` add none.
    #[tactic(auto, using(crate::proofs::Asking::fix_refused, crate::proofs::Asking::write_first_sized))]
    #[inline(always)]
    pub(crate) fn ask_fix(&mut self, core: &mut PoolCore<K>, page: PageNo) -> Result<Fix, Refusal>
        requires client_in { self.old.client < core.old.parameters.clients }
        requires page_in { page < core.old.parameters.pages }
        requires size { self.old.size ≡ core.old.parameters.size }
        requires entries { 3 ≤ self.old.entries }
        requires passes { 1 ≤ self.old.passes }
        requires copies { 2 ≤ self.old.copies }
        ensures keeps { KeepsBook core.old self.old core.new self.new }
        ensures asked { AsksFix self.old.client page result core.old core.new }
        ensures memory { result ≡ Err Refusal.OutOfMemory
            → TakesMemory (Call.Fix page) core.old }
        ensures outcome { AskFixOutcome self.old.client page result self.old.said self.new.said }
        ensures passes { self.old.passes ≤ self.new.passes + passes_taken result }
        ensures places { self.old.places ≤ self.new.places + places_taken result }
    {
        match core.fix(self.client, page) {
            Ok(passes::Fix::Hit(pass)) => {
                let pass = self.tell_hit(page, pass);
                Ok(Fix::Hit(pass))
            }
            Ok(passes::Fix::Load(ticket, evicted)) => {
                let ticket = self.tell_load(ticket, evicted.as_ref().copied());
                Ok(Fix::Load(PendingRead { ticket }, evicted))
            }
            Ok(passes::Fix::WriteFirst(ticket)) => {
                let ticket = self.tell_write_first(Call::Fix(page), ticket);
                Ok(Fix::WriteFirst(PendingWrite { ticket }))
            }
            Err(refusal) => {
                self.tell_refused(Call::Fix(page), &refusal);
                Err(refusal)
            }
        }
    }

    /// Asks the core that a page be written out. The trail and the list get the flush with its reply, and the client
    /// then owes the end of a ticket that it was given.
    ///
    /// `NeedLog` and `Busy` are the reply of the entry; `TrailFull` and `OutOfMemory` add none.
    #[tactic(auto, using(crate::proofs::Asking::flush_refused, crate::proofs::Asking::write_first_sized))]
    pub(crate) fn ask_flush(
        &mut self,
        core: &mut PoolCore<K>,
        page: PageNo,
    ) -> Result<Flush, Refusal>
        requires client_in { self.old.client < core.old.parameters.clients }
        requires page_in { page < core.old.parameters.pages }
        requires size { self.old.size ≡ core.old.parameters.size }
        requires entries { 3 ≤ self.old.entries }
        requires passes { 1 ≤ self.old.passes }
        requires copies { 2 ≤ self.old.copies }
        ensures keeps { KeepsBook core.old self.old core.new self.new }
        ensures asked { AsksFlush self.old.client page result core.old core.new }
        ensures memory { result ≡ Err Refusal.OutOfMemory
            → TakesMemory (Call.Flush page) core.old }
        ensures outcome { AskFlushOutcome self.old.client page result self.old.said self.new.said }
        ensures passes { self.old.passes ≤ self.new.passes + tickets_taken result }
        ensures places { self.old.places ≤ self.new.places + tickets_taken result }
    {
        match core.flush(self.client, page) {
            Ok(passes::Flush::Clean) => {
                self.tell(Call::Flush(page), Reply::Clean);
                Ok(Flush::Clean)
            }
            Ok(passes::Flush::Absent) => {
                self.tell(Call::Flush(page), Reply::Absent);
                Ok(Flush::Absent)
            }
            Ok(passes::Flush::WriteFirst(ticket)) => {
                let ticket = self.tell_write_first(Call::Flush(page), ticket);
                Ok(Flush::WriteFirst(PendingWrite { ticket }))
            }
            Err(refusal) => {
                self.tell_refused(Call::Flush(page), &refusal);
                Err(refusal)
            }
        }
    }

    /// Reads the page of a pass of the client's: the image has the page size. The trail and the list get the read, each
    /// with an image of its own. `TrailFull`, `UnknownPass` and `OutOfMemory` add no entry.
    #[tactic(auto, using(crate::proofs::Asking::read_refused))]
    pub fn ask_read(&mut self, core: &mut PoolCore<K>, pass: &Pass) -> Result<Image, Refusal>
        requires own { pass.now.client ≡ self.old.client }
        requires size { self.old.size ≡ core.old.parameters.size }
        requires room { 0 < self.old.entries }
        requires copies { 0 < self.old.copies }
        ensures size { IfOk result (λ image. length image ≡ self.old.size) }
        ensures keeps { KeepsBook core.old self.old core.new self.new }
        ensures asked { ReadOutcome core.old pass.now result core.new }
        ensures outcome { ReadSaid self.old.client pass.now result self.old.said self.new.said }
        ensures passes { self.new.passes ≡ self.old.passes }
        ensures places { self.new.places ≡ self.old.places }
    {
        let image = core.read(pass)?;
        self.tell_read(pass, &image);
        Ok(image)
    }

    /// Copies bytes of the page of a pass of the client's, from the offset on, as many as `into` has. The trail and the
    /// list get the read, each with an image of its own, where they are kept. `TrailFull`, `UnknownPass` and
    /// `OutOfMemory` add no entry, and leave the bytes that were there.
    #[tactic(auto, using(crate::proofs::Asking::read_refused))]
    #[inline(always)]
    pub fn ask_read_into(
        &mut self,
        core: &mut PoolCore<K>,
        pass: &Pass,
        offset: u32,
        into: &mut [u8],
    ) -> Result<(), Refusal>
        requires own { pass.now.client ≡ self.old.client }
        requires size { self.old.size ≡ core.old.parameters.size }
        requires fits { offset + length into.old ≤ core.old.parameters.size }
        requires room { 0 < self.old.entries }
        requires copies { 0 < self.old.copies }
        ensures keeps { KeepsBook core.old self.old core.new self.new }
        ensures asked { ReadIntoOutcome core.old pass.now offset into.old result into.new core.new }
        ensures outcome { ReadIntoSaid self.old.client pass.now offset into.old result into.new
            self.old.said self.new.said }
        ensures passes { self.new.passes ≡ self.old.passes }
        ensures places { self.new.places ≡ self.old.places }
        ensures memory { K.REFUSES ≡ false → result ≢ Err Refusal.OutOfMemory }
    {
        core.read_into(pass, offset, into)?;
        let image = core.image(pass).unwrap();
        self.tell_read(pass, image);
        Ok(())
    }

    /// Writes to the page of a pass of the client's. The trail and the list get the write; the list keeps the bytes in
    /// the spare. `TrailFull`, `UnknownPass` and `OutOfMemory` add no entry.
    #[tactic(auto, using(crate::proofs::Asking::write_refused))]
    pub fn ask_write(
        &mut self,
        core: &mut PoolCore<K>,
        pass: &Pass,
        offset: u32,
        bytes: &[u8],
        lsn: Lsn,
        spare: K::SpareBytes,
    ) -> Result<(), Refusal>
        requires own { pass.now.client ≡ self.old.client }
        requires fits { offset + length bytes.now ≤ core.old.parameters.size }
        requires room { 0 < self.old.entries }
        requires spare { K.serves_bytes spare bytes.now }
        ensures keeps { KeepsBook core.old self.old core.new self.new }
        ensures asked { WriteOutcome core.old pass.now offset bytes.now lsn result core.new }
        ensures outcome { WriteSaid self.old.client pass.now offset bytes.now lsn result
            self.old.said self.new.said }
        ensures passes { self.new.passes ≡ self.old.passes }
        ensures places { self.new.places ≡ self.old.places }
        ensures memory { K.REFUSES ≡ false → result ≢ Err Refusal.OutOfMemory }
    {
        core.write_from(pass, offset, bytes, lsn)?;
        self.tell_write(pass, offset, bytes, lsn, spare);
        Ok(())
    }
}

//! `fix`: pins a page that is resident, or begins what brings it into a frame.
ghost use Rattle.std.specs.Prelude.{◌≡◌, ◌<◌, false};
ghost use Rattle.bp_trail.specs.Places.{loading, resident};
ghost use Rattle.bp_trail.specs.PageMap.{has_free_frame, next_victim};
ghost use Rattle.bp_core.specs.CoreView.{EachPast, HasRoomFor};
ghost use Rattle.bp_core.specs.Outcomes.{FixOutcome, IsFull, TakesMemory};

use crate::config::FIX_OWES;
use crate::passes::Fix;
use crate::pool::PoolCore;
use bp_keeper::Keeper;
use bp_page::{PageNo, Refusal};
use bp_trail::{Call, Reply};

impl<K: Keeper> PoolCore<K> {
    /// Asks for a page (Gray and Reuter, chapter 13): a pass where it is resident; else a ticket to read it into a
    /// free frame or into that of the victim; else, where the victim is unsaved, a ticket to write the victim out
    /// first.
    ///
    /// `TrailFull` where fewer than three entries are free, else `OutOfMemory`, where it would have given a pass or a
    /// ticket; both change nothing. `Busy` where the page is loading, `NoVictim` where no page may leave, `NeedLog`
    /// where the log is not durable as far as the victim's page LSN; these three are entries, take no memory and
    /// change nothing else.
    pub fn fix(&mut self, client: u8, page: PageNo) -> Result<Fix, Refusal>
        requires client_in { client < self.old.parameters.clients }
        requires page_in { page < self.old.parameters.pages }
        ensures outcome { FixOutcome self.old client page result self.new }
        ensures memory { result ≡ Err Refusal.OutOfMemory → TakesMemory (Call.Fix page) self.old }
    {
        if self.free() < FIX_OWES {
            return Err(Refusal::TrailFull);
        }
        let Some(slot) = self.state.frames.find(page) else {
            if self.is_loading(page) {
                self.record_unchanged(client, Call::Fix(page), Reply::Busy);
                return Err(Refusal::Busy);
            }
            if self.has_free_frame() {
                return self.load_into_free_frame(client, page);
            }
            return self.evict_for(client, page);
        };
        let pending = self.state.reads.len() + 1;
        self.state.passes.reserve(pending)?;
        let block = self.state.block(&slot);
        self.state.frames.withdraw(&slot);
        self.state.frames.pin(&slot);
        self.state.histories.hit_at(page, block, self.state.clock);
        let pass = self.state.give_pass(client, page);
        self.trail
            .record(client, Call::Fix(page), Reply::Hit(pass.serial));
        Ok(Fix::Hit(pass))
    }

    /// Brings a page into the frame of the victim, or begins to write the victim out.
    fn evict_for(&mut self, client: u8, page: PageNo) -> Result<Fix, Refusal>
        requires client_in { client < self.old.parameters.clients }
        requires page_in { page < self.old.parameters.pages }
        requires idle { EachPast self.old (λ past. loading past page ≡ false) }
        requires away { EachPast self.old (λ past. resident past page ≡ false) }
        requires full { IsFull self.old }
        requires room { HasRoomFor 3 self.old }
        ensures outcome { FixOutcome self.old client page result self.new }
        ensures memory { result ≡ Err Refusal.OutOfMemory → TakesMemory (Call.Fix page) self.old }
    {
        let Some(victim) = self.victim() else {
            self.record_unchanged(client, Call::Fix(page), Reply::NoVictim);
            return Err(Refusal::NoVictim);
        };
        let frame = self.frame(victim).unwrap();
        if !frame.is_unsaved {
            return self.load_into_victim(client, page, victim);
        }
        let page_lsn = frame.page_lsn;
        if self.durable() < page_lsn {
            self.record_unchanged(client, Call::Fix(page), Reply::NeedLog(page_lsn));
            return Err(Refusal::NeedLog(page_lsn));
        }
        let ticket = self.begin_write_out(client, Call::Fix(page), victim)?;
        Ok(Fix::WriteFirst(ticket))
    }

    /// Returns the page whose frame the next fix takes, if that is of a page that is away; an unsaved one is written out
    /// first. `None` where a frame is free, and where no page may leave. It adds no entry, and costs what choosing the
    /// victim of that fix costs, which then costs less.
    pub fn victim(&mut self) -> Option<PageNo>
        ensures same { self.new ≡ self.old }
        ensures next { EachPast self.old (λ past. result ≡ next_victim self.old.parameters past) }
    {
        if self.has_free_frame() {
            return None;
        }
        self.state.frames.victim(self.state.clock)
    }

    /// Returns true if fewer pages are resident or loading than there are frames.
    fn has_free_frame(&self) -> bool
        ensures { EachPast self.now (λ past. result ≡ has_free_frame self.now.parameters past) }
    {
        self.state.frames.len() + self.state.reads.len() < self.config.frames
    }
}

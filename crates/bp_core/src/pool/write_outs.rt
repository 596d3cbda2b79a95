//! `flush`, the begin of a write-out, and its end.
ghost use Rattle.std.specs.Prelude.{◌≡◌, ◌<◌, true, false, Ok, Err};
ghost use Rattle.bp_trail.specs.declared.entries.Reply.TheVariants.{WriteFirst};
ghost use Rattle.bp_trail.specs.Event.{grant};
ghost use Rattle.bp_trail.specs.Images.{held};
ghost use Rattle.bp_trail.specs.Legal.{allowed, is_out};
ghost use Rattle.bp_trail.specs.Passes.{tickets, writes_out};
ghost use Rattle.bp_trail.specs.PageMap.{reply_of};
ghost use Rattle.bp_trail.specs.Places.{resident};
ghost use Rattle.bp_core.specs.CoreView.{EachPast, HasRoomFor};
ghost use Rattle.bp_core.specs.Outcomes.{IsBegin, BeginOutcome, FlushOutcome, TakesMemory};
ghost use Rattle.bp_core.specs.Outcomes.{WriteEndOutcome, WriteEndByOutcome};

use crate::config::FLUSH_OWES;
use crate::passes::{EndRefusal, Flush, WriteTicket};
use crate::pool::PoolCore;
use bp_keeper::Keeper;
use bp_page::{Image, PageNo, PortFault, Refusal};
use bp_trail::{Call, Ended, Grant, Reply};

impl<K: Keeper> PoolCore<K> {
    /// Asks that a page be written out if it is unsaved: a ticket to do so; `Absent` where it is not resident,
    /// `Clean` where it is saved. The page stays in its frame.
    ///
    /// `TrailFull` where fewer than two entries are free, else `OutOfMemory`, where it would have given a ticket;
    /// both change nothing. `Busy` where the page is loading or being written out, `NeedLog` where the log is not
    /// durable as far as its page LSN; both are entries, take no memory and change nothing else.
    pub fn flush(&mut self, client: u8, page: PageNo) -> Result<Flush, Refusal>
        requires client_in { client < self.old.parameters.clients }
        requires page_in { page < self.old.parameters.pages }
        ensures outcome { FlushOutcome self.old client page result self.new }
        ensures memory { result ≡ Err Refusal.OutOfMemory → TakesMemory (Call.Flush page) self.old }
    {
        if self.free() < FLUSH_OWES {
            return Err(Refusal::TrailFull);
        }
        let Some(frame) = self.frame(page) else {
            if self.is_loading(page) {
                self.record_unchanged(client, Call::Flush(page), Reply::Busy);
                return Err(Refusal::Busy);
            }
            self.record_unchanged(client, Call::Flush(page), Reply::Absent);
            return Ok(Flush::Absent);
        };
        let is_unsaved = frame.is_unsaved;
        let page_lsn = frame.page_lsn;
        if frame.is_writing {
            self.record_unchanged(client, Call::Flush(page), Reply::Busy);
            return Err(Refusal::Busy);
        }
        if !is_unsaved {
            self.record_unchanged(client, Call::Flush(page), Reply::Clean);
            return Ok(Flush::Clean);
        }
        if self.durable() < page_lsn {
            self.record_unchanged(client, Call::Flush(page), Reply::NeedLog(page_lsn));
            return Err(Refusal::NeedLog(page_lsn));
        }
        let ticket = self.begin_write_out(client, Call::Flush(page), page)?;
        Ok(Flush::WriteFirst(ticket))
    }

    /// Begins a write-out of a page, by a fix of another page or by a flush.
    pub(super) fn begin_write_out(
        &mut self,
        client: u8,
        call: Call,
        page: PageNo,
    ) -> Result<WriteTicket, Refusal>
        requires begins { IsBegin call }
        requires client_in { client < self.old.parameters.clients }
        requires allowed { EachPast self.old (λ past. allowed self.old.parameters past client call
            ≡ true) }
        requires here { EachPast self.old (λ past. resident past page ≡ true) }
        requires reply { EachPast self.old (λ past. WriteFirst (tickets past) page
            (held past page) ≡ reply_of self.old.parameters past call) }
        requires room { HasRoomFor 2 self.old }
        ensures outcome { BeginOutcome self.old client call page result self.new }
        ensures memory { TakesMemory call self.old }
    {
        let slot = self.state.frames.find(page).unwrap();
        let frame = self.state.frames.frame(&slot);
        let lsn = frame.page_lsn;
        let image = Image::of(self.alloc, frame.image.bytes())?;
        let spare = K::spare_image(self.alloc, &image)?;
        self.state.writes.reserve(1)?;
        self.state.frames.withdraw(&slot);
        self.state.frames.begin_write_out(&slot);
        let serial = self.state.give_write(client, page);
        let ticket = Grant {
            client,
            page,
            serial,
        };
        self.trail.record_begin(call, ticket, &image, spare);
        Ok(WriteTicket {
            client,
            page,
            serial,
            image,
            lsn,
        })
    }

    /// Ends a write-out: `Cleaned`, or `StillDirty` where the page was written since it began. Where it failed, which
    /// is `WriteFailed`, the page stays resident and unsaved. A ticket that is not out here comes back with the
    /// result, which is `Unknown`, and nothing changes. It takes no memory.
    pub fn write_end(
        &mut self,
        ticket: WriteTicket,
        write: Result<(), PortFault>,
    ) -> Result<Ended, EndRefusal<WriteTicket, Result<(), PortFault>>>
        ensures outcome { WriteEndOutcome self.old ticket write result self.new }
    {
        let given = Grant {
            client: ticket.client,
            page: ticket.page,
            serial: ticket.serial,
        };
        match self.write_end_by(given, write) {
            Ok(how) => {
                ticket.forfeit();
                Ok(how)
            }
            Err(EndRefusal::Unknown(_, write)) => Err(EndRefusal::Unknown(ticket, write)),
            Err(EndRefusal::Failed(why)) => {
                ticket.forfeit();
                Err(EndRefusal::Failed(why))
            }
        }
    }

    /// Ends a write-out as `write_end` does, by the grant of its ticket: for a caller that keeps no tickets, or that
    /// holds a lock, and frees the ticket's image later.
    pub fn write_end_by(
        &mut self,
        ticket: Grant,
        write: Result<(), PortFault>,
    ) -> Result<Ended, EndRefusal<Grant, Result<(), PortFault>>>
        ensures outcome { WriteEndByOutcome self.old ticket write result self.new }
    {
        match write {
            Ok(()) => self.end_write_out(ticket),
            Err(fault) => Err(self.fail_write_out(ticket, fault)),
        }
    }

    /// Ends a write-out that went well, if its ticket is out: what was written before it began is saved.
    fn end_write_out(
        &mut self,
        ticket: Grant,
    ) -> Result<Ended, EndRefusal<Grant, Result<(), PortFault>>>
        ensures { WriteEndByOutcome self.old ticket (Ok tt) result self.new }
    {
        let Grant {
            client,
            page,
            serial,
        } = ticket;
        if !self.state.writes.take_back(client, page, serial) {
            return Err(EndRefusal::Unknown(ticket, Ok(())));
        }
        let slot = self.state.frames.find(page).unwrap();
        let is_rewritten = self.state.frames.frame(&slot).is_rewritten;
        self.state.frames.end_write_out(&slot);
        self.state.end_use(&slot, self.config.settings.k);
        let call = Call::WriteEnd {
            ticket: serial,
            page,
            good: true,
        };
        if is_rewritten {
            self.trail.record(client, call, Reply::StillDirty);
            return Ok(Ended::StillDirty);
        }
        self.trail.record(client, call, Reply::Cleaned);
        Ok(Ended::Cleaned)
    }

    /// Ends a write-out that failed, if its ticket is out: the page stays as unsaved as it is.
    fn fail_write_out(
        &mut self,
        ticket: Grant,
        fault: PortFault,
    ) -> EndRefusal<Grant, Result<(), PortFault>>
        ensures { WriteEndByOutcome self.old ticket (Err fault) (Err result) self.new }
    {
        let Grant {
            client,
            page,
            serial,
        } = ticket;
        if !self.state.writes.take_back(client, page, serial) {
            return EndRefusal::Unknown(ticket, Err(fault));
        }
        let slot = self.state.frames.find(page).unwrap();
        self.state.frames.fail_write_out(&slot);
        self.state.end_use(&slot, self.config.settings.k);
        let call = Call::WriteEnd {
            ticket: serial,
            page,
            good: false,
        };
        self.trail.record(client, call, Reply::WriteFailed);
        EndRefusal::Failed(Refusal::WriteFailed)
    }
}

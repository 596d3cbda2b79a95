//! The ends of device work. None of these takes memory.
ghost use Rattle.std.specs.Prelude.{◌≡◌, ◌≢◌, ◌≤◌, ◌+◌, true, length, IfOk, Ok, Err};
ghost use Rattle.bp_session_log.specs.Books.{KeepsBook, OwesRead, OwesWrite};
ghost use Rattle.bp_session_log.specs.Turns.{EndReadOutcome, EndWriteOutcome};
ghost use Rattle.bp_session_log.specs.Causes.{EndsRead, EndsWrite};

use super::{Book, copied};
use crate::pending::{PendingRead, PendingWrite};
use bp_core::{Call, EndRefusal, Ended, Pass, PoolCore, ReadTicket, Reply};
use bp_keeper::ListKeeper;
use bp_page::{Image, PortFault, Refusal};
use bp_trail::{Grant, reply_of_read};

impl<K: ListKeeper> Book<K> {
    /// Ends a read that went well. The list keeps a copy of the image. A ticket that the core does not know is
    /// forfeited, which is `UnknownTicket`, and nothing else changes.
    fn end_load(
        &mut self,
        core: &mut PoolCore<K>,
        ticket: ReadTicket,
        image: Image,
    ) -> Result<Pass, Refusal>
        requires owes { OwesRead self.old.client ticket self.old.said }
        requires size { length image ≡ self.old.size }
        requires core_size { core.old.parameters.size ≡ self.old.size }
        ensures keeps { KeepsBook core.old self.old core.new self.new }
        ensures ended { EndsRead core.old ticket (Ok image) result core.new }
        ensures outcome { EndReadOutcome ticket (Ok image) result self.old.said self.new.said }
        ensures passes { self.old.passes ≤ self.new.passes }
        ensures places { result ≢ Err Refusal.UnknownTicket
            → self.old.places + 1 ≤ self.new.places }
    {
        let page = ticket.page();
        let serial = ticket.serial();
        ticket.forfeit();
        let given = self.grant(page, serial);
        let ended = self.grant(page, serial);
        let copy = copied::<K>(&mut self.blanks, &image);
        match core.end_load(given, image, &mut self.left) {
            Ok(pass) => {
                let note = pass.note();
                self.said.record_load(ended, note.serial(), copy);
                self.held.add(Grant {
                    client: self.client,
                    page,
                    serial: note.serial(),
                });
                self.tickets -= 1;
                Ok(note.pass())
            }
            Err(EndRefusal::Failed(_)) => unreachable!(),
            Err(EndRefusal::Unknown(_, back)) => {
                self.left = back.ok();
                self.blanks.push_reserved(K::clear(copy));
                Err(Refusal::UnknownTicket)
            }
        }
    }

    /// Ends a read that failed, which is `WrongPage` where another page was found, and else `ReadFailed`. A ticket that
    /// the core does not know is forfeited, as by `end_load`.
    fn end_failed_load(
        &mut self,
        core: &mut PoolCore<K>,
        ticket: ReadTicket,
        fault: PortFault,
    ) -> Result<Pass, Refusal>
        requires owes { OwesRead self.old.client ticket self.old.said }
        ensures keeps { KeepsBook core.old self.old core.new self.new }
        ensures ended { EndsRead core.old ticket (Err fault) result core.new }
        ensures outcome { EndReadOutcome ticket (Err fault) result self.old.said self.new.said }
        ensures passes { self.old.passes ≤ self.new.passes }
        ensures places { result ≢ Err Refusal.UnknownTicket
            → self.old.places + 1 ≤ self.new.places }
    {
        let page = ticket.page();
        let serial = ticket.serial();
        match core.read_end(ticket, Err(fault)) {
            Ok(_pass) => unreachable!(),
            Err(EndRefusal::Failed(refusal)) => {
                let call = Call::ReadEnd {
                    ticket: serial,
                    page,
                    image: None,
                };
                self.said.record(self.client, call, reply_of_read(fault));
                self.tickets -= 1;
                Err(refusal)
            }
            Err(EndRefusal::Unknown(lost, _)) => {
                lost.forfeit();
                Err(Refusal::UnknownTicket)
            }
        }
    }

    /// Ends a read that the list's newest entry began. The trail and the list get the end, and the client holds the
    /// pass. It takes no memory for the list.
    ///
    /// Where the read failed, this is `ReadFailed`, and where it found another page `WrongPage`, the reply of the
    /// entry. A ticket that the core does not know is forfeited, which is `UnknownTicket`, and nothing else changes.
    pub fn end_read(
        &mut self,
        core: &mut PoolCore<K>,
        ticket: PendingRead,
        read: Result<Image, PortFault>,
    ) -> Result<Pass, Refusal>
        requires owes { OwesRead self.old.client ticket self.old.said }
        requires size { IfOk read (λ image. length image ≡ self.old.size) }
        requires core_size { core.old.parameters.size ≡ self.old.size }
        ensures keeps { KeepsBook core.old self.old core.new self.new }
        ensures ended { EndsRead core.old ticket read result core.new }
        ensures outcome { EndReadOutcome ticket read result self.old.said self.new.said }
        ensures passes { self.old.passes ≤ self.new.passes }
        ensures places { result ≢ Err Refusal.UnknownTicket
            → self.old.places + 1 ≤ self.new.places }
    {
        let PendingRead { ticket } = ticket;
        match read {
            Ok(image) => self.end_load(core, ticket, image),
            Err(fault) => self.end_failed_load(core, ticket, fault),
        }
    }

    /// Ends a write-out that the list's newest entry began. The trail and the list get the end, and the result says
    /// whether the page is saved now. It takes no memory for the list.
    ///
    /// Where the write failed, this is `WriteFailed`, the reply of the entry. A ticket that the core does not know is
    /// forfeited, which is `UnknownTicket`, and nothing else changes.
    pub fn end_write_out(
        &mut self,
        core: &mut PoolCore<K>,
        ticket: PendingWrite,
        written: Result<(), PortFault>,
    ) -> Result<Ended, Refusal>
        requires owes { OwesWrite self.old.client ticket self.old.said }
        ensures keeps { KeepsBook core.old self.old core.new self.new }
        ensures ended { EndsWrite core.old ticket written result core.new }
        ensures outcome { EndWriteOutcome ticket written result self.old.said self.new.said }
        ensures passes { result ≢ Err Refusal.UnknownTicket
            → self.old.passes + 1 ≤ self.new.passes }
        ensures places { result ≢ Err Refusal.UnknownTicket
            → self.old.places + 1 ≤ self.new.places }
    {
        let PendingWrite { ticket } = ticket;
        let page = ticket.page();
        let serial = ticket.serial();
        self.left = Some(ticket.into_image());
        let given = self.grant(page, serial);
        match core.write_end_by(given, written) {
            Ok(ended) => {
                self.tell_write_end(serial, page, true, ended.reply());
                Ok(ended)
            }
            Err(EndRefusal::Failed(_)) => {
                self.tell_write_end(serial, page, false, Reply::WriteFailed);
                Err(Refusal::WriteFailed)
            }
            Err(EndRefusal::Unknown(_, _)) => Err(Refusal::UnknownTicket),
        }
    }
}

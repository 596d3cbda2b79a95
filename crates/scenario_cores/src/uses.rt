//! Calls with a pass, which use its page, and calls with a ticket, which end a read or a write-out.
ghost use Rattle.std.specs.Prelude.{◌≡◌, IfOk, length};

use crate::buffers::{bytes_read, span_of};
use crate::lists::{grant_of, pass_of};
use crate::outcomes::{content, done, lsn_or_none};
use crate::pools::Pool;
use bp_core::{EndRefusal, Keeper};
use bp_page::{Bytes, Image, Lsn, PortFault, Refusal};
use bp_trail::{Grant, Reply};
use scenario_words::{Answer, Said, Verb, filled, named};

impl<K: Keeper> Pool<K> {
    fn end_read(&mut self, ticket: Grant, read: Result<Image, PortFault>) -> Answer
        requires size { IfOk read (λ image. length image ≡ self.old.core.parameters.size) }
    {
        match self.core.read_end_by(ticket, read, &mut None) {
            Ok(pass) => self.lists.keep_given(pass),
            Err(EndRefusal::Failed(refusal)) => Answer::Refused(refusal),
            Err(EndRefusal::Unknown(back, read)) => {
                Answer::Back(Refusal::UnknownTicket, back, read.ok())
            }
        }
    }

    fn read_end(&mut self, ticket: Grant, front: &Bytes) -> Answer {
        match filled(self.alloc, self.core.geometry().size, front) {
            Some(image) if image.bytes().len() == self.core.geometry().size => {
                self.end_read(ticket, Ok(image))
            }
            _ => Answer::BadLine,
        }
    }

    fn end_write(&mut self, ticket: Grant, written: Result<(), PortFault>) -> Answer {
        match self.core.write_end_by(ticket, written) {
            Ok(ended) => Answer::Reply(ended.reply()),
            Err(EndRefusal::Failed(refusal)) => Answer::Refused(refusal),
            Err(EndRefusal::Unknown(back, _)) => Answer::Back(Refusal::UnknownTicket, back, None),
        }
    }

    /// Makes a call that has a ticket.
    pub(crate) fn by_ticket(&mut self, call: &Said) -> Answer {
        let Some(ticket) = named(&self.lists.tickets, &call.name) else {
            return Answer::BadLine;
        };
        match (call.verb, &call.bytes) {
            (Verb::ReadEnd, Some(front)) => self.read_end(ticket, front),
            (Verb::ReadFails(fault), _) => self.end_read(ticket, Err(fault)),
            (Verb::WriteEnd, _) => self.end_write(ticket, Ok(())),
            (Verb::WriteFails(fault), _) => self.end_write(ticket, Err(fault)),
            _ => Answer::BadLine,
        }
    }

    fn read(&mut self, grant: Grant) -> Answer {
        let pass = pass_of(grant);
        let read = self.core.read(&pass);
        pass.note();
        content(read)
    }

    /// Answers the bytes that the core lends, by both of its calls.
    fn page(&self, grant: Grant) -> Answer {
        let pass = pass_of(grant);
        let answer = match (self.core.page(&pass), self.core.image(&pass)) {
            (Some(bytes), Some(image)) if bytes == image.bytes() => {
                match Image::of(self.alloc, bytes) {
                    Ok(image) => Answer::Reply(Reply::Content(image)),
                    Err(_) => Answer::BadLine,
                }
            }
            (None, None) => Answer::Word("none"),
            _ => Answer::Word("page and image differ"),
        };
        pass.note();
        answer
    }

    fn page_lsn(&self, grant: Grant) -> Answer {
        let pass = pass_of(grant);
        let lsn = self.core.page_lsn(&pass);
        pass.note();
        lsn_or_none(lsn)
    }

    fn read_into(&mut self, grant: Grant, offset: u64, count: u64) -> Answer {
        let geometry = self.core.geometry();
        let Some(mut span) = span_of(self.alloc, &geometry, offset, count) else {
            return Answer::BadLine;
        };
        let pass = pass_of(grant);
        let read = self.core.read_into(&pass, span.offset, &mut span.into);
        pass.note();
        bytes_read(read, span)
    }

    /// Writes bytes, as a list or from a slice.
    fn write(&mut self, grant: Grant, verb: Verb, offset: u64, bytes: &Bytes, lsn: Lsn) -> Answer {
        let fits = self
            .core
            .geometry()
            .fits(offset as usize, bytes.bytes().len());
        match u32::try_from(offset) {
            Ok(offset) if fits => {
                let pass = pass_of(grant);
                let written = match verb {
                    Verb::WriteFrom => self.core.write_from(&pass, offset, bytes.bytes(), lsn),
                    _ => self.core.write(&pass, offset, bytes, lsn),
                };
                pass.note();
                done(written)
            }
            _ => Answer::BadLine,
        }
    }

    fn unfix(&mut self, grant: Grant) -> Answer {
        match self.core.unfix(pass_of(grant)) {
            Ok(()) => Answer::Reply(Reply::Done),
            Err(pass) => Answer::Back(Refusal::UnknownPass, grant_of(pass), None),
        }
    }

    /// Makes a call that has a pass.
    pub(crate) fn by_pass(&mut self, call: &Said) -> Answer {
        let Some(pass) = named(&self.lists.passes, &call.name) else {
            return Answer::BadLine;
        };
        let [offset, second, _] = call.numbers.list;
        match (call.verb, &call.bytes) {
            (Verb::Read, _) => self.read(pass),
            (Verb::Page, _) => self.page(pass),
            (Verb::PageLsn, _) => self.page_lsn(pass),
            (Verb::ReadInto, _) => self.read_into(pass, offset, second),
            (Verb::Unfix, _) => self.unfix(pass),
            (Verb::Write | Verb::WriteFrom, Some(bytes)) => {
                self.write(pass, call.verb, offset, bytes, Lsn::new(second))
            }
            _ => Answer::BadLine,
        }
    }
}

//! The calls that fix, flush or discard a page, and their answers as structs for C.
ghost use Rattle.std.specs.Prelude.{◌≡◌, length, Option};
ghost use Rattle.bp_trail.specs.Event.{grant};
ghost use Rattle.hojzmated_c.specs.Forms.{shown};
ghost use Rattle.hojzmated_c.specs.Outcomes.{Fixes, Flushes, Discards, Sends, ShowsLoad, answer_of};

use crate::forms::{ABSENT, CLEAN, HIT, HzFixed, LOAD, WRITE_FIRST};
use crate::pool::Pool;
use bp_core::{Discarded, Fix, Flush, Pass, ReadTicket, WriteTicket};
use bp_page::{PageNo, Refusal};

/// Returns the answer of a fix that gives a pass.
fn hit(pass: Pass) -> HzFixed
    ensures { result ≡ shown 1 (grant pass.client pass.page pass.serial) }
{
    let note = pass.note();
    HzFixed::of(HIT, note.client(), note.page(), note.serial())
}

/// Returns the answer of a fix that gives a ticket to read, and the page that was evicted for it.
fn load(ticket: ReadTicket, gone: Option<PageNo>) -> HzFixed
    ensures { ShowsLoad ticket gone result }
{
    let fixed = HzFixed::of(LOAD, ticket.client(), ticket.page(), ticket.serial());
    ticket.forfeit();
    match gone {
        Some(page) => HzFixed {
            evicted: page.number(),
            has_evicted: 1,
            ..fixed
        },
        None => fixed,
    }
}

/// Returns the answer with a ticket to write, and copies its image into the buffer.
fn send(ticket: WriteTicket, image: &mut [u8]) -> HzFixed
    requires { length image.old ≡ length ticket.image }
    ensures { Sends ticket result image.new }
{
    image.copy_from_slice(ticket.image().bytes());
    let bare = HzFixed::of(WRITE_FIRST, ticket.client(), ticket.page(), ticket.serial());
    let lsn = ticket.lsn().number();
    ticket.forfeit();
    HzFixed { lsn, ..bare }
}

impl Pool {
    /// Fixes a page, and puts the answer into `out`. It returns `BadClient`, `OutOfPage` where the file has no such
    /// page or the buffer does not have the page size, or what the core refuses. Then `out` is unchanged.
    pub(crate) fn fix(
        &mut self,
        client: u8,
        page: u64,
        image: &mut [u8],
        out: &mut HzFixed,
    ) -> Result<(), Refusal>
        ensures { Fixes self.old client page image.old (answer_of result out.new) image.new
            self.new }
    {
        if client >= self.core.clients() {
            return Err(Refusal::BadClient);
        }
        let Some(page) = self.core.geometry().page(page) else {
            return Err(Refusal::OutOfPage);
        };
        if image.len() != self.core.geometry().size {
            return Err(Refusal::OutOfPage);
        }
        match self.core.fix(client, page)? {
            Fix::Hit(pass) => *out = hit(pass),
            Fix::Load(ticket, gone) => *out = load(ticket, gone),
            Fix::WriteFirst(ticket) => *out = send(ticket, image),
        }
        Ok(())
    }

    /// Flushes a page. It answers and refuses as `fix` does.
    pub(crate) fn flush(
        &mut self,
        client: u8,
        page: u64,
        image: &mut [u8],
        out: &mut HzFixed,
    ) -> Result<(), Refusal>
        ensures { Flushes self.old client page image.old (answer_of result out.new) image.new
            self.new }
    {
        if client >= self.core.clients() {
            return Err(Refusal::BadClient);
        }
        let Some(page) = self.core.geometry().page(page) else {
            return Err(Refusal::OutOfPage);
        };
        if image.len() != self.core.geometry().size {
            return Err(Refusal::OutOfPage);
        }
        *out = match self.core.flush(client, page)? {
            Flush::Clean => HzFixed::of(CLEAN, client, page, 0),
            Flush::Absent => HzFixed::of(ABSENT, client, page, 0),
            Flush::WriteFirst(ticket) => send(ticket, image),
        };
        Ok(())
    }

    /// Has a page leave its frame unwritten. It returns `BadClient`, `OutOfPage` where the file has no such page, or
    /// what the core refuses.
    pub(crate) fn discard(&mut self, client: u8, page: u64) -> Result<Discarded, Refusal>
        ensures { Discards self.old client page result self.new }
    {
        if client >= self.core.clients() {
            return Err(Refusal::BadClient);
        }
        let Some(page) = self.core.geometry().page(page) else {
            return Err(Refusal::OutOfPage);
        };
        self.core.discard(client, page)
    }
}

//! `is_lawful`: checks that a call is allowed after the entries so far, and that it has a lawful reply.
ghost use Rattle.std.specs.Prelude.{◌≡◌, ◌+◌, ◌^◌, ◌↔◌, nat_lt, nat_le, IfOk, IsTrue};
ghost use Rattle.bp_trail.specs.Legal as of;
ghost use Rattle.bp_trail.specs.Clock.{clock};

use crate::judge::Judge;
use bp_page::{Image, PageNo};
use bp_trail::{Call, Entry};
use std::alloc::{AllocError, Global};

/// The greatest time of the clock, in ticks.
const MAX_CLOCK: u64 = 1 << 62;

impl Judge {
    fn has_size(&self, image: &Option<Image>) -> bool
        ensures { result ≡ of.has_size self.now.parameters image.now }
    {
        match image {
            Some(image) => image.bytes().len() == self.setup.geometry.size,
            None => true,
        }
    }

    fn in_file(&self, page: PageNo) -> bool
        ensures { result ≡ nat_lt page self.now.parameters.pages }
    {
        page.number() < self.setup.geometry.pages
    }

    /// Returns true if the clock may take so many steps.
    fn in_time(&self, steps: u64) -> bool
        ensures { result ≡ nat_le (clock self.now.past + steps) (2 ^ 62) }
    {
        match self.clock.checked_add(steps) {
            Some(time) => time <= MAX_CLOCK,
            None => false,
        }
    }

    /// Returns true if the client may make this call: what it names is out, and in range.
    fn allowed(&self, client: u8, call: &Call) -> bool
        ensures { result ≡ of.allowed self.now.parameters self.now.past client call.now }
    {
        match call {
            Call::Tick(steps) => self.in_time(*steps),
            Call::Fix(page) => self.in_file(*page),
            Call::Flush(page) => self.in_file(*page),
            Call::Discard(page) => self.in_file(*page),
            Call::ReadEnd {
                ticket,
                page,
                image,
            } => self.reads_out.has(client, *page, *ticket) && self.has_size(image),
            Call::WriteEnd { ticket, page, .. } => self.writes_out.has(client, *page, *ticket),
            Call::Read { pass, page } => self.passes_out.has(client, *page, *pass),
            Call::Write {
                pass,
                page,
                offset,
                bytes,
                ..
            } => {
                self.passes_out.has(client, *page, *pass)
                    && self
                        .setup
                        .geometry
                        .fits(*offset as usize, bytes.bytes().len())
            }
            Call::Unfix { pass, page } => self.passes_out.has(client, *page, *pass),
            _ => true,
        }
    }

    /// Returns true if the entry could be made now, and has a lawful reply. It fails by want of memory alone.
    pub(super) fn is_lawful(&self, alloc: Global, e: &Entry) -> Result<bool, AllocError>
        ensures { IfOk result (λ answer. IsTrue answer ↔
            of.IsLawful self.now.parameters self.now.past e.now) }
    {
        if e.client >= self.setup.clients || !self.allowed(e.client, &e.call) {
            return Ok(false);
        }
        self.may_reply(alloc, e.client, &e.call, &e.reply)
    }
}

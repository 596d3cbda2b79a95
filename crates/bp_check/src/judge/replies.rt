//! The lawful replies to a call. Each function has the name of its definition.
ghost use Rattle.std.specs.Prelude.{◌≡◌, ◌↔◌, true, IfOk, IsTrue};
ghost use Rattle.bp_trail.specs.Event.{grant};
ghost use Rattle.bp_trail.specs.Passes.{writes_out};
ghost use Rattle.bp_trail.specs.Legal.{is_out, allowed};
ghost use Rattle.bp_trail.specs.PageMap as of;
ghost use Rattle.bp_check.specs.Seen.{tells_wrong_page};

use crate::judge::Judge;
use bp_page::{Image, PageNo};
use bp_trail::{Call, Reply};
use std::alloc::{AllocError, Global};

impl Judge {
    fn has_free_frame(&self) -> bool
        ensures { result ≡ of.has_free_frame self.now.parameters self.now.past }
    {
        let taken = self.residents.len() as u128 + self.reads_out.len() as u128;
        taken < self.setup.frames as u128
    }

    /// The reply that begins a write-out of the page, or `NeedLog` where the log is not durable as far as its page LSN.
    fn write_out_reply(&self, alloc: Global, page: PageNo) -> Result<Reply, AllocError>
        ensures { IfOk result (λ reply. reply ≡ of.write_out_reply self.now.past page) }
    {
        let page_lsn = self.page_lsn(page);
        if self.durable < page_lsn {
            return Ok(Reply::NeedLog(page_lsn));
        }
        Ok(Reply::WriteFirst {
            ticket: self.tickets(),
            page,
            image: self.held(alloc, page)?,
        })
    }

    fn replace_reply(&self, alloc: Global, victim: Option<PageNo>) -> Result<Reply, AllocError>
        ensures { IfOk result (λ reply. reply ≡ of.replace_reply self.now.past victim) }
    {
        match victim {
            None => Ok(Reply::NoVictim),
            Some(page) => {
                if self.unsaved(page) {
                    self.write_out_reply(alloc, page)
                } else {
                    Ok(Reply::Load {
                        ticket: self.tickets(),
                        evicted: Some(page),
                    })
                }
            }
        }
    }

    fn fix_reply(&self, alloc: Global, page: PageNo) -> Result<Reply, AllocError>
        ensures { IfOk result (λ reply. reply ≡
            of.fix_reply self.now.parameters self.now.past page) }
    {
        if self.loading(page) {
            Ok(Reply::Busy)
        } else if self.resident(page) {
            Ok(Reply::Hit(self.passes))
        } else if self.has_free_frame() {
            Ok(Reply::Load {
                ticket: self.tickets(),
                evicted: None,
            })
        } else {
            self.replace_reply(alloc, self.victim())
        }
    }

    fn flush_reply(&self, alloc: Global, page: PageNo) -> Result<Reply, AllocError>
        ensures { IfOk result (λ reply. reply ≡ of.flush_reply self.now.past page) }
    {
        if self.loading(page) {
            Ok(Reply::Busy)
        } else if !self.resident(page) {
            Ok(Reply::Absent)
        } else if self.writing(page) {
            Ok(Reply::Busy)
        } else if self.unsaved(page) {
            self.write_out_reply(alloc, page)
        } else {
            Ok(Reply::Clean)
        }
    }

    fn discard_reply(&self, page: PageNo) -> Reply
        ensures { result ≡ of.discard_reply self.now.past page }
    {
        if self.loading(page) {
            Reply::Busy
        } else if !self.resident(page) {
            Reply::Absent
        } else if self.writing(page) {
            Reply::Busy
        } else if self.pins(page) == 0 {
            Reply::Discarded
        } else {
            Reply::Pinned
        }
    }

    fn write_end_reply(&self, client: u8, ticket: u64, page: PageNo, good: bool) -> Reply
        requires { is_out (grant client page ticket) (writes_out self.now.past) ≡ true }
        ensures { result ≡ of.write_end_reply self.now.past ticket page good }
    {
        if !good {
            Reply::WriteFailed
        } else if self.written_since(client, ticket, page) {
            Reply::StillDirty
        } else {
            Reply::Cleaned
        }
    }

    fn read_end_reply(&self, image: &Option<Image>) -> Reply
        ensures { result ≡ of.read_end_reply self.now.past image.now }
    {
        match image {
            Some(_) => Reply::Fixed(self.passes),
            None => Reply::ReadFailed,
        }
    }

    /// Returns the reply to a call that the client may make. A read that brought no image may also be answered with
    /// `WrongPage`, which `may_reply` allows. It fails by want of memory alone.
    fn reply_of(&self, alloc: Global, client: u8, call: &Call) -> Result<Reply, AllocError>
        requires { allowed self.now.parameters self.now.past client call.now ≡ true }
        ensures { IfOk result (λ reply. reply ≡
            of.reply_of self.now.parameters self.now.past call.now) }
    {
        match call {
            Call::Fix(page) => self.fix_reply(alloc, *page),
            Call::Flush(page) => self.flush_reply(alloc, *page),
            Call::Discard(page) => Ok(self.discard_reply(*page)),
            Call::ReadEnd { image, .. } => Ok(self.read_end_reply(image)),
            Call::WriteEnd { ticket, page, good } => {
                Ok(self.write_end_reply(client, *ticket, *page, *good))
            }
            Call::Read { page, .. } => Ok(Reply::Content(self.held(alloc, *page)?)),
            Call::Purge => Ok(Reply::Forgot(self.forgotten())),
            _ => Ok(Reply::Done),
        }
    }

    /// Returns true if the reply is that of `reply_of`.
    fn is_reply(
        &self,
        alloc: Global,
        client: u8,
        call: &Call,
        reply: &Reply,
    ) -> Result<bool, AllocError>
        requires { allowed self.now.parameters self.now.past client call.now ≡ true }
        ensures { IfOk result (λ answer. IsTrue answer ↔
            (reply.now ≡ of.reply_of self.now.parameters self.now.past call.now)) }
    {
        let lawful = self.reply_of(alloc, client, call)?;
        Ok(*reply == lawful)
    }

    /// Returns true if the call, which the client may make, may have this reply. It fails by want of memory alone.
    #[tactic(auto, using(crate::proofs::Replying::may_by_page))]
    pub(super) fn may_reply(
        &self,
        alloc: Global,
        client: u8,
        call: &Call,
        reply: &Reply,
    ) -> Result<bool, AllocError>
        requires { allowed self.now.parameters self.now.past client call.now ≡ true }
        ensures { IfOk result (λ answer. IsTrue answer ↔
            of.MayReply self.now.parameters self.now.past call.now reply.now) }
    {
        if tells_wrong_page(call, reply) {
            return Ok(true);
        }
        self.is_reply(alloc, client, call, reply)
    }
}

/// Returns true if a read that ended without an image tells that it found another page.
fn tells_wrong_page(call: &Call, reply: &Reply) -> bool
    ensures { result ≡ tells_wrong_page call.now reply.now }
{
    match (call, reply) {
        (Call::ReadEnd { image: None, .. }, Reply::WrongPage) => true,
        _ => false,
    }
}

//! `discard`: has a page leave its frame without being written out.
ghost use Rattle.std.specs.Prelude.{◌≡◌, ◌<◌, true, false, Ok};
ghost use Rattle.bp_trail.specs.Places.{loading, resident};
ghost use Rattle.bp_core.specs.Agreement.{unused};
ghost use Rattle.bp_core.specs.CoreView.{EachPast, HasRoomFor};
ghost use Rattle.bp_core.specs.Outcomes.{DiscardOutcome};

use crate::config::STEP_OWES;
use crate::pool::PoolCore;
use bp_keeper::Keeper;
use bp_page::{PageNo, Refusal};
use bp_trail::{Call, Discarded, Reply};

impl<K: Keeper> PoolCore<K> {
    /// Has a page leave its frame without being written out: `Left`, or `Absent` where it is in none. In both cases its
    /// references are forgotten. Its writes that no good write-out began after are lost: it is for a page that the
    /// engine has no use for any longer, as of a file that is truncated. It waits for no log, and takes no memory.
    ///
    /// `TrailFull` where no entry is free, which changes nothing. `Busy` where the page is loading or being written
    /// out, `Pinned` where a pass of it is out, be it the caller's own; both are entries, and change nothing else.
    pub fn discard(&mut self, client: u8, page: PageNo) -> Result<Discarded, Refusal>
        requires client_in { client < self.old.parameters.clients }
        requires page_in { page < self.old.parameters.pages }
        ensures outcome { DiscardOutcome self.old client page result self.new }
    {
        if self.free() < STEP_OWES {
            return Err(Refusal::TrailFull);
        }
        let Some(frame) = self.frame(page) else {
            return self.forget_absent(client, page);
        };
        let is_pinned = frame.pins > 0;
        if frame.is_writing {
            self.record_unchanged(client, Call::Discard(page), Reply::Busy);
            return Err(Refusal::Busy);
        }
        if is_pinned {
            self.record_unchanged(client, Call::Discard(page), Reply::Pinned);
            return Err(Refusal::Pinned);
        }
        self.drop_resident(client, page);
        Ok(Discarded::Left)
    }

    /// Discards a page that is in no frame.
    fn forget_absent(&mut self, client: u8, page: PageNo) -> Result<Discarded, Refusal>
        requires client_in { client < self.old.parameters.clients }
        requires page_in { page < self.old.parameters.pages }
        requires away { EachPast self.old (λ past. resident past page ≡ false) }
        requires room { HasRoomFor 1 self.old }
        ensures outcome { DiscardOutcome self.old client page result self.new }
    {
        if self.is_loading(page) {
            self.record_unchanged(client, Call::Discard(page), Reply::Busy);
            return Err(Refusal::Busy);
        }
        self.state.histories.forget(page);
        self.trail
            .record(client, Call::Discard(page), Reply::Absent);
        Ok(Discarded::Absent)
    }

    /// Discards a resident page that nobody uses. Its frame is empty then.
    fn drop_resident(&mut self, client: u8, page: PageNo)
        requires client_in { client < self.old.parameters.clients }
        requires page_in { page < self.old.parameters.pages }
        requires idle { EachPast self.old (λ past. loading past page ≡ false) }
        requires unused { EachPast self.old (λ past. unused past page ≡ true) }
        requires room { HasRoomFor 1 self.old }
        ensures outcome { DiscardOutcome self.old client page (Ok Discarded.Left) self.new }
    {
        let slot = self.state.frames.find(page).unwrap();
        let block = self.state.block(&slot);
        self.state.frames.withdraw(&slot);
        self.state.frames.vacate(&slot);
        self.state.histories.forget_at(page, block);
        self.trail
            .record(client, Call::Discard(page), Reply::Discarded);
    }
}

//! Look-ups that calls make before they change anything, and an entry that changes nothing else.
ghost use Rattle.std.specs.Prelude.{◌≡◌, ◌<◌, true, false, length, IfSome, IfNone};
ghost use Rattle.bp_trail.specs.Images.{held};
ghost use Rattle.bp_trail.specs.Places.{loading, resident};
ghost use Rattle.bp_trail.specs.Legal.{allowed, is_out};
ghost use Rattle.bp_trail.specs.Passes.{reads_out};
ghost use Rattle.bp_core.specs.Agreement.{frame_of};
ghost use Rattle.bp_core.specs.CoreView.{EachPast, HasRoomFor, room_after};
ghost use Rattle.bp_core.specs.Outcomes.{Adds, IsQuiet, IsReply, pass_is_out};

use crate::passes::Pass;
use crate::pool::PoolCore;
use bp_frames::Frame;
use bp_keeper::Keeper;
use bp_page::{Image, PageNo};
use bp_trail::{Call, Grant, Reply};

impl<K: Keeper> PoolCore<K> {
    /// Returns the number of free entries: the room, less the entries since the last cut, and less those that will end
    /// the passes and tickets that are out.
    pub fn free(&self) -> usize
        ensures { EachPast self.now (λ past. result ≡ room_after self.now past) }
    {
        let owed = self.state.passes.len() + self.state.writes.len() + 2 * self.state.reads.len();
        self.config.room - (self.trail.len() + owed)
    }

    /// Returns true if a read of a page that has no frame is out. The histories hold resident pages and those that are
    /// being read.
    pub(super) fn is_loading(&self, page: PageNo) -> bool
        requires away { EachPast self.now (λ past. resident past page ≡ false) }
        ensures { EachPast self.now (λ past. result ≡ loading past page) }
    {
        self.state.histories.holds(page)
    }

    /// Returns true if the pass is out here.
    pub fn knows(&self, pass: &Pass) -> bool
        ensures { EachPast self.now (λ past. result ≡ pass_is_out pass.now past) }
    {
        self.state.passes.has(pass.client, pass.page, pass.serial)
    }

    /// Returns true if the read ticket with this grant is out here.
    pub fn knows_read(&self, ticket: Grant) -> bool
        ensures { EachPast self.now (λ past. result ≡ is_out ticket (reads_out past)) }
    {
        self.state
            .reads
            .has(ticket.client, ticket.page, ticket.serial)
    }

    /// Returns the frame of a page, or `None` where it is not resident.
    pub(super) fn frame(&self, page: PageNo) -> Option<&Frame>
        ensures found { IfSome result (λ f. EachPast self.now
            (λ past. f.now ≡ frame_of past page f.now.block)) }
        ensures here { IfSome result (λ f. EachPast self.now (λ past. resident past page ≡ true)) }
        ensures idle { IfSome result (λ f. EachPast self.now (λ past. loading past page ≡ false)) }
        ensures away { IfNone result (EachPast self.now (λ past. resident past page ≡ false)) }
    {
        let slot = self.state.frames.find(page)?;
        Some(self.state.frames.frame(&slot))
    }

    /// Lends the image of a page that is in a frame. It copies nothing and adds no entry. `None` where it is in none.
    pub fn resident_image(&self, page: PageNo) -> Option<&Image>
        ensures held { IfSome result (λ image. EachPast self.now
            (λ past. image.now ≡ held past page)) }
        ensures size { IfSome result (λ image. length image.now ≡ self.now.parameters.size) }
        ensures here { IfSome result (λ image. EachPast self.now
            (λ past. resident past page ≡ true)) }
        ensures away { IfNone result (EachPast self.now (λ past. resident past page ≡ false)) }
    {
        let slot = self.state.frames.find(page)?;
        Some(&self.state.frames.frame(&slot).image)
    }

    /// Adds an entry that changes nothing else.
    pub(super) fn record_unchanged(&mut self, client: u8, call: Call, reply: Reply)
        requires quiet { IsQuiet call reply }
        requires client_in { client < self.old.parameters.clients }
        requires allowed { EachPast self.old (λ past. allowed self.old.parameters past client call
            ≡ true) }
        requires reply { IsReply self.old call reply }
        requires room { HasRoomFor 1 self.old }
        ensures { Adds self.old client call reply self.new }
    {
        self.trail.record(client, call, reply);
    }
}

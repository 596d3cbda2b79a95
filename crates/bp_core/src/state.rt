//! `State`: what a core keeps beside its trail.
ghost use Rattle.std.specs.Prelude.{◌≡◌, ◌≢◌, ℕ, ◌+◌, ◌^◌, ◌<◌, ◌≤◌, Some, None, IfOk};
ghost use Rattle.bp_replacer.specs.Histories.{place_of};
ghost use Rattle.bp_references.specs.Candidates.{entry_of, NoPageTwice, SameLimits};
ghost use Rattle.bp_frames.specs.Tables.{IsSlotIn};

use crate::config::CoreConfig;
use crate::passes::{Pass, ReadTicket};
use bp_frames::{FrameSlot, FrameTable, GrantList};
use bp_page::{Lsn, PageNo};
use bp_replacer::{BlockNo, Histories};
use std::alloc::{AllocError, Global};

/// The state that the entries of a trail lead to.
#[derive(Drop)]
pub(crate) struct State {
    pub(crate) clock: u64,
    /// The greatest LSN marked.
    pub(crate) durable: Lsn,
    pub(crate) passes_given: u64,
    /// Tickets of both kinds.
    pub(crate) tickets_given: u64,
    pub(crate) passes: GrantList,
    pub(crate) reads: GrantList,
    pub(crate) writes: GrantList,
    /// The frames, of which those that nobody uses are candidates: with no pass out and no write-out under way.
    pub(crate) frames: FrameTable,
    pub(crate) histories: Histories,
}

impl State {
    ghost use Rattle.bp_frames.specs.GrantLists.{with_grant};
    ghost use Rattle.bp_core.specs.Agreement.{parameters_of, EndsUse, IsFirst, TellBlocks};

    /// Makes the state before any entry, with room for as many reads and frames as there may be. It fails by want of
    /// memory alone.
    pub(crate) fn new(alloc: Global, config: &CoreConfig) -> Result<State, AllocError>
        requires { config.now.frames ≤ 65536 }
        ensures { IfOk result (IsFirst (parameters_of config.now)) }
    {
        Ok(State {
            clock: 1,
            durable: Lsn::new(0),
            passes_given: 0,
            tickets_given: 0,
            passes: GrantList::new(alloc),
            reads: GrantList::with_capacity(alloc, config.frames)?,
            writes: GrantList::new(alloc),
            frames: FrameTable::with_capacity(
                alloc,
                config.frames,
                config.geometry,
                config.settings,
            )?,
            histories: Histories::new(alloc, config.settings),
        })
    }

    /// Returns the number of the block of the page's references, with no look-up by the page.
    pub(crate) fn block(&self, slot: &FrameSlot) -> BlockNo
        requires at { IsSlotIn self.now.frames slot.now }
        requires blocks { TellBlocks self.now.histories self.now.frames.frames }
        ensures { place_of self.now.histories slot.now.page ≡ Some result }
    {
        self.frames.frame(slot).block.unwrap()
    }

    /// Makes the page in a frame a candidate for replacement, by its references as they are, if nobody uses it any longer.
    /// `k` is the K of its K-th stamp.
    pub(crate) fn end_use(&mut self, slot: &FrameSlot, k: usize)
        requires at { IsSlotIn self.old.frames slot.now }
        requires blocks { TellBlocks self.old.histories self.old.frames.frames }
        ensures same { self.new ≡ record self.old {
          frames = record self.old.frames { candidates = self.new.frames.candidates };
        } }
        ensures entered { EndsUse self.old slot.now.page k self.new.frames.candidates }
        ensures others { (q : ℕ) → q ≢ slot.now.page → entry_of self.new.frames.candidates q
            ≡ entry_of self.old.frames.candidates q }
        ensures pages { NoPageTwice self.old.frames.candidates.entries →
            NoPageTwice self.new.frames.candidates.entries }
        ensures limits { SameLimits self.old.frames.candidates self.new.frames.candidates }
    {
        if !self.frames.frame(slot).is_unused() {
            return;
        }
        let block = self.block(slot);
        let rank = self.histories.rank_at(slot.page(), block, k);
        self.frames.enter(slot, rank.0, rank.1);
    }

    /// Gives the next pass, which takes no memory.
    pub(crate) fn give_pass(&mut self, client: u8, page: PageNo) -> Pass
        requires few { self.old.passes_given < 2 ^ 63 }
        requires newest { self.old.passes.next ≤ self.old.passes_given }
        requires room { 0 < self.old.passes.room }
        ensures pass { result ≡ record {
          client = client;
          page = page;
          serial =
              self.old.passes_given;
        } }
        ensures after { self.new ≡ record self.old {
          passes_given = self.old.passes_given + 1;
          passes = with_grant self.old.passes client page self.old.passes_given;
        } }
    {
        let serial = self.passes_given;
        self.passes_given += 1;
        self.passes.give(client, page, serial);
        Pass {
            client,
            page,
            serial,
        }
    }

    /// Gives the next ticket, to read a page, which takes no memory.
    pub(crate) fn give_read(&mut self, client: u8, page: PageNo) -> ReadTicket
        requires few { self.old.tickets_given < 2 ^ 63 }
        requires newest { self.old.reads.next ≤ self.old.tickets_given }
        requires room { 0 < self.old.reads.room }
        ensures ticket { result ≡ record {
          client = client;
          page = page;
          serial =
              self.old.tickets_given;
        } }
        ensures after { self.new ≡ record self.old {
          tickets_given = self.old.tickets_given + 1;
          reads = with_grant self.old.reads client page self.old.tickets_given;
        } }
    {
        let serial = self.tickets_given;
        self.tickets_given += 1;
        self.reads.give(client, page, serial);
        ReadTicket {
            client,
            page,
            serial,
        }
    }

    /// Gives the next ticket, to write a page out, and returns its number. It takes no memory.
    pub(crate) fn give_write(&mut self, client: u8, page: PageNo) -> u64
        requires few { self.old.tickets_given < 2 ^ 63 }
        requires newest { self.old.writes.next ≤ self.old.tickets_given }
        requires room { 0 < self.old.writes.room }
        ensures serial { result ≡ self.old.tickets_given }
        ensures after { self.new ≡ record self.old {
          tickets_given = self.old.tickets_given + 1;
          writes = with_grant self.old.writes client page self.old.tickets_given;
        } }
    {
        let serial = self.tickets_given;
        self.tickets_given += 1;
        self.writes.give(client, page, serial);
        serial
    }
}

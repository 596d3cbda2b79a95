//! `RecordingKeeper`: a keeper that has the entries in memory, and can hand them out.
ghost use Rattle.std.specs.Prelude.{◌≡◌, ◌≤◌, ◌++◌, IsOk, IfOk, OnErr, reverse, vec_len, vec_capacity};

use crate::ghost_trail::GhostTrail;
use crate::keeper::Keeper;
use crate::list_keeper::ListKeeper;
use bp_page::{Bytes, Geometry, Image, Lsn};
use bp_trail::{Call, Entry, Grant, Reply, Totals};
use std::alloc::{AllocError, Global};
use std::marker::Model;
use std::mem;

/// The entries since the last cut, the oldest first.
#[derive(Drop)]
pub struct RecordingKeeper {
    before: GhostTrail,
    entries: Vec<Entry>,
    /// Of all entries, with those that cuts have handed out.
    totals: Totals,
    /// True if the entries begin at the standing of an empty trail.
    is_fresh: bool,
}

impl Model for RecordingKeeper {
    ghost use Rattle.std.specs.Prelude.{◌++◌, length, reverse, vec_capacity};
    ghost use Rattle.bp_trail.specs.Totals.{CountsAll};
    ghost use Rattle.bp_keeper.specs.Kept.{Kept};

    ghost Value = { Kept };

    ghost invariant = { λ t. CountsAll (reverse t.entries.items ++ t.before.past) t.totals };

    ghost view = { λ t. record {
      before = t.before.past;
      past = reverse t.entries.items ++ t.before.past;
      len = length t.entries.items;
      capacity = vec_capacity t.entries;
      fresh = t.is_fresh;
    } };
}

impl Keeper for RecordingKeeper {
    ghost use Rattle.std.specs.Prelude.{◌≡◌, true};
    ghost use Rattle.std.proofs.Common.{arith};

    type SpareImage = Image;

    type SpareBytes = Bytes;

    ghost MOST_ROOM = { 16777216 };

    const MOST_ROOM: usize = 16777216;

    ghost REFUSES = { true };

    ghost kept = { λ t. t };

    ghost serves_image = { λ spare image. spare ≡ image };

    ghost serves_bytes = { λ spare bytes. spare ≡ bytes };

    ghost few = { omega arith };

    fn with_capacity(alloc: Global, room: usize) -> Result<Self, AllocError> {
        Ok(RecordingKeeper {
            before: GhostTrail::nothing(),
            entries: Vec::with_capacity(alloc, room)?,
            totals: Totals::none(),
            is_fresh: true,
        })
    }

    fn spare_image(alloc: Global, image: &Image) -> Result<Image, AllocError> {
        Image::of(alloc, image.bytes())
    }

    fn spare_bytes(alloc: Global, bytes: &[u8]) -> Result<Bytes, AllocError> {
        Bytes::of(alloc, bytes)
    }

    fn len(&self) -> usize {
        self.entries.len()
    }

    fn totals(&self) -> Totals {
        self.totals
    }

    fn record(&mut self, client: u8, call: Call, reply: Reply) {
        self.totals.count(&reply);
        self.entries.push_reserved(Entry {
            client,
            call,
            reply,
        });
    }

    fn record_read(&mut self, pass: Grant, _image: &Image, spare: Image) {
        self.entries.push_reserved(Entry {
            client: pass.client,
            call: Call::Read {
                pass: pass.serial,
                page: pass.page,
            },
            reply: Reply::Content(spare),
        });
    }

    fn record_write(&mut self, pass: Grant, offset: u32, _bytes: &[u8], lsn: Lsn, spare: Bytes) {
        self.entries.push_reserved(Entry {
            client: pass.client,
            call: Call::Write {
                pass: pass.serial,
                page: pass.page,
                offset,
                bytes: spare,
                lsn,
            },
            reply: Reply::Done,
        });
    }

    fn record_read_end(
        &mut self,
        ticket: Grant,
        pass: u64,
        image: &Image,
        left: Image,
    ) -> Option<Image> {
        let mut own = left;
        own.copy_from(image);
        self.record_load(ticket, pass, own);
        None
    }

    fn record_begin(&mut self, call: Call, ticket: Grant, _image: &Image, spare: Image) {
        self.entries.push_reserved(Entry {
            client: ticket.client,
            call,
            reply: Reply::WriteFirst {
                ticket: ticket.serial,
                page: ticket.page,
                image: spare,
            },
        });
    }
}

impl ListKeeper for RecordingKeeper {
    ghost use Rattle.std.specs.Prelude.{◌≡◌, length};

    type Blank = Image;

    ghost fits = { λ blank size. length blank ≡ size };

    ghost image_of = { λ spare. spare };

    fn empty(alloc: Global) -> Self {
        RecordingKeeper {
            before: GhostTrail::nothing(),
            entries: Vec::new(alloc),
            totals: Totals::none(),
            is_fresh: true,
        }
    }

    fn reserve(&mut self, more: usize) -> Result<(), AllocError> {
        self.entries.reserve(more)
    }

    fn blank(alloc: Global, geometry: &Geometry) -> Result<Image, AllocError> {
        Image::blank(alloc, geometry)
    }

    fn fill(blank: Image, image: &Image) -> Image {
        let mut copy = blank;
        copy.copy_from(image);
        copy
    }

    fn clear(spare: Image) -> Image {
        spare
    }

    fn record_load(&mut self, ticket: Grant, pass: u64, spare: Image) {
        let reply = Reply::Fixed(pass);
        self.totals.count(&reply);
        self.entries.push_reserved(Entry {
            client: ticket.client,
            call: Call::ReadEnd {
                ticket: ticket.serial,
                page: ticket.page,
                image: Some(spare),
            },
            reply,
        });
    }
}

impl RecordingKeeper {
    /// Returns the entries since the last cut, the oldest first.
    pub fn entries(&self) -> &[Entry]
        ensures { reverse result.now ++ self.now.before ≡ self.now.past }
    {
        &self.entries
    }

    /// Ends the keeper and returns the entries since the last cut, the oldest first.
    pub fn into_entries(self) -> Vec<Entry>
        ensures { reverse result.items ++ self.before ≡ self.past }
    {
        self.entries
    }

    /// Returns true if the entries begin at the standing of an empty trail.
    pub fn is_fresh(&self) -> bool
        ensures { result ≡ self.now.fresh }
    {
        self.is_fresh
    }

    /// Hands out the entries since the last cut, the oldest first, and goes on with none in the spare's memory, which
    /// is taken to so much room. What the spare has is dropped. It fails by want of memory alone, and then the keeper
    /// stays as it was.
    pub fn cut(
        &mut self,
        spare: Vec<Entry>,
        room: usize,
        is_fresh: bool,
    ) -> Result<Vec<Entry>, AllocError>
        ensures entries { IfOk result (λ entries. reverse entries.items ++ self.old.before
            ≡ self.old.past) }
        ensures after { IfOk result (λ entries. self.new ≡ record self.new
            { before = self.old.past; past = self.old.past; len = 0; fresh = is_fresh }) }
        ensures room { IfOk result (λ entries. room ≤ self.new.capacity) }
        ensures len { IfOk result (λ entries. vec_len entries ≡ self.old.len) }
        ensures memory { IfOk result (λ entries. vec_capacity entries ≡ self.old.capacity) }
        ensures spare { IfOk result (λ entries. vec_capacity spare ≤ self.new.capacity) }
        ensures enough { room ≤ vec_capacity spare → IsOk result }
        ensures unchanged { OnErr result (self.new ≡ self.old) }
    {
        let mut empty = spare;
        empty.clear();
        empty.reserve_exact(room)?;
        self.before = self.before.then(&self.entries);
        self.is_fresh = is_fresh;
        Ok(mem::replace(&mut self.entries, empty))
    }
}

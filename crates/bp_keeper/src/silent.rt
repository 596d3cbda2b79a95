//! `SilentKeeper`: a keeper that counts the entries, and has the list of them in proofs alone.

use crate::ghost_trail::{Event, GhostImage, GhostTrail, Shown};
use crate::keeper::Keeper;
use crate::list_keeper::ListKeeper;
use bp_page::{Geometry, Image, Lsn};
use bp_trail::{Call, Entry, Grant, Reply, Totals};
use std::alloc::{AllocError, Global};
use std::marker::Model;

/// The number of entries, the room for them, and the number of replies of each kind. The list of them stands in proofs
/// alone.
#[derive(Drop)]
pub struct SilentKeeper {
    count: usize,
    totals: Totals,
    room: usize,
    trail: GhostTrail,
}

impl Model for SilentKeeper {
    ghost use Rattle.std.specs.Prelude.{◌<◌, ◌^◌, [], true};
    ghost use Rattle.bp_trail.specs.Totals.{CountsAll};
    ghost use Rattle.bp_keeper.specs.Kept.{Kept};

    ghost Value = { Kept };

    ghost invariant = { λ t. (t.room < 2 ^ 64) × CountsAll t.trail.past t.totals };

    ghost view = { λ t. record {
      before = [];
      past = t.trail.past;
      len = t.count;
      capacity = t.room;
      fresh = true;
    } };
}

impl Keeper for SilentKeeper {
    ghost use Rattle.std.specs.Prelude.{◌≡◌, ◌^◌, false};
    ghost use Rattle.std.proofs.Common.{arith};

    type SpareImage = GhostImage;

    type SpareBytes = ();

    ghost MOST_ROOM = { 2 ^ 61 };

    const MOST_ROOM: usize = 1 << 61;

    ghost REFUSES = { false };

    ghost kept = { λ t. t };

    ghost serves_image = { λ spare image. spare.bytes ≡ image };

    ghost serves_bytes = { λ spare bytes. Unit {0} };

    ghost few = { omega arith };

    fn with_capacity(_alloc: Global, room: usize) -> Result<Self, AllocError> {
        Ok(SilentKeeper {
            count: 0,
            room,
            totals: Totals::none(),
            trail: GhostTrail::nothing(),
        })
    }

    fn spare_image(_alloc: Global, image: &Image) -> Result<GhostImage, AllocError> {
        Ok(GhostImage::of(image))
    }

    fn spare_bytes(_alloc: Global, _bytes: &[u8]) -> Result<(), AllocError> {
        Ok(())
    }

    fn len(&self) -> usize {
        self.count
    }

    fn totals(&self) -> Totals {
        self.totals
    }

    #[inline(always)]
    fn record(&mut self, client: u8, call: Call, reply: Reply) {
        self.totals.count(&reply);
        let entry = Entry {
            client,
            call,
            reply,
        };
        self.trail = self.trail.then_one(&entry);
        self.count += 1;
    }

    fn record_read(&mut self, pass: Grant, image: &Image, _spare: GhostImage) {
        self.trail = self.trail.then_shown(&Shown {
            grant: pass,
            event: Event::Read,
            bytes: image.bytes(),
        });
        self.count += 1;
    }

    fn record_write(&mut self, pass: Grant, offset: u32, bytes: &[u8], lsn: Lsn, _spare: ()) {
        self.trail = self.trail.then_shown(&Shown {
            grant: pass,
            event: Event::Write { offset, lsn },
            bytes,
        });
        self.count += 1;
    }

    fn record_read_end(
        &mut self,
        ticket: Grant,
        pass: u64,
        image: &Image,
        left: Image,
    ) -> Option<Image> {
        self.record_load(ticket, pass, GhostImage::of(image));
        Some(left)
    }

    fn record_begin(&mut self, call: Call, ticket: Grant, image: &Image, _spare: GhostImage) {
        self.trail = self.trail.then_shown(&Shown {
            grant: ticket,
            event: Event::BeginWrite(call),
            bytes: image.bytes(),
        });
        self.count += 1;
    }
}

impl ListKeeper for SilentKeeper {
    type Blank = ();

    ghost fits = { λ blank size. Unit {0} };

    ghost image_of = { λ spare. spare.bytes };

    fn empty(_alloc: Global) -> Self {
        SilentKeeper {
            count: 0,
            room: 0,
            totals: Totals::none(),
            trail: GhostTrail::nothing(),
        }
    }

    fn reserve(&mut self, more: usize) -> Result<(), AllocError> {
        let Some(room) = self.count.checked_add(more) else {
            return Err(AllocError);
        };
        self.room = self.room.max(room);
        Ok(())
    }

    fn blank(_alloc: Global, _geometry: &Geometry) -> Result<(), AllocError> {
        Ok(())
    }

    fn fill(_blank: (), image: &Image) -> GhostImage {
        GhostImage::of(image)
    }

    fn clear(_spare: GhostImage) {}

    fn record_load(&mut self, ticket: Grant, pass: u64, spare: GhostImage) {
        self.totals.count(&Reply::Fixed(pass));
        self.trail = self.trail.then_shown(&Shown {
            grant: ticket,
            event: Event::Load { pass, image: spare },
            bytes: &[],
        });
        self.count += 1;
    }
}

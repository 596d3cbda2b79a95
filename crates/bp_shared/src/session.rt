//! `Session`: one client's end of a pool, with the client's own list of entries.
mod list_pieces;

use crate::names::PartNames;
use bp_core::{Pass, PassNote, PoolCore};
use bp_keeper::{Keeper, ListKeeper, RecordingKeeper};
use bp_page::{Geometry, Refusal};
use bp_session_log::{Book, Line, Room, Shows};
use rtrb::Producer;
use std::alloc::Global;
use std::marker::{Model, PhantomData};

/// The list of a book as it stands on a pool's board.
pub(crate) struct Told;

impl<K: ListKeeper> Shows<Book<K>> for Told {
    ghost shown = { λ book. book.said };
}

/// The trail of a core as it stands on a pool's board of what its sessions saw.
pub(crate) struct Past;

impl<K: Keeper> Shows<PoolCore<K>> for Past {
    ghost shown = { λ core. core.past };
}

/// One client's end of a pool: the list of the client's own entries, and a ring by which its passes go back.
///
/// The list is bound to the pool: [`ClosedPool::end_session`](crate::ClosedPool::end_session) says how. A pass that was
/// given back stands in the list where the client posted it. The list gets no other entry than those of this session's
/// calls, and room for all that it still owes is kept, so that an end and an unfix never want memory.
#[derive(Drop)]
pub struct Session<N: PartNames, K: ListKeeper = RecordingKeeper> {
    /// The number of its pool.
    pub(crate) part: u8,
    pub(crate) book: Book<K>,
    pub(crate) producer: Producer<PassNote>,
    /// The session's line on the pool's board.
    pub(crate) line: Line,
    /// Its line on the board of what sessions saw: the trail as its calls saw it last.
    pub(crate) seen: Line,
    pub(crate) of: PhantomData<N>,
}

impl<N: PartNames, K: ListKeeper> Model for Session<N, K> {
    ghost use Rattle.std.specs.Prelude.{◌≡◌, ◌<◌, true, reverse, slice_index_or};
    ghost use Rattle.rtrb.specs.Ring.{sent, known_free, producer_capacity};
    ghost use Rattle.bp_session_log.specs.Books.{unfixes, all_held};
    ghost use Rattle.bp_session_log.specs.Rings.{ring_of};
    ghost use Rattle.bp_shared.specs.Sessions.{SessionValue};
    ghost use Rattle.bp_shared.specs.Telling.{IsLineOf};

    ghost Value = { SessionValue };

    ghost view = { λ s. record {
      part = s.part;
      client = s.book.client;
      before = s.book.before;
      said = s.book.said;
      seen = s.seen.list;
      free = known_free s.producer;
      room = s.book.entries;
      passes = s.book.passes;
      copies = s.book.copies;
      places = s.book.places;
    } };

    // The ring is the client's, and has 32 places; the passes posted are those of the list's own unfixes, in order, each
    // of which the list held; the line has the list as it was in the last section.
    ghost invariant = { λ s. (s.book.client < N.parameters.clients)
        × (s.book.size ≡ N.parameters.size)
        × (sent s.producer ≡ reverse (unfixes s.book.said))
        × IsLineOf (N.ring s.part).board s.line s.book.client s.book.said
        × (slice_index_or (N.ring s.part).rings s.book.client (ring_of s.producer)
        ≡ ring_of s.producer)
        × (all_held s.book.said ≡ true)
        × (s.seen.name ≡ (N.ring s.part).seen)
        × (producer_capacity s.producer ≡ 32) };
}

impl<N: PartNames, K: ListKeeper> Session<N, K> {
    ghost use Rattle.std.specs.Prelude.{◌≡◌, ◌<◌, ◌≤◌, ℕ, false, [], All, OnOk, OnErr, length, slice_get, slice_index_or};
    ghost use Rattle.bp_page.specs.declared.refusals.Refusal.TheVariants as Refusal;
    ghost use Rattle.bp_session_log.specs.Rings.{ring_of};
    ghost use Rattle.bp_shared.specs.Posting.{IsUnused};
    ghost use Rattle.bp_trail.specs.HeldPasses.{held_passes};
    ghost use Rattle.bp_shared.specs.Sessions.{IsLong, IsRoomy, IsRoomyFor, UnfixSaid};
    ghost use Rattle.bp_shared.specs.Telling.{IsLineOf};

    /// Makes a session with an empty list, that has seen the trail with which the pool is made.
    pub(crate) fn new(
        alloc: Global,
        part: u8,
        geometry: Geometry,
        client: u8,
        producer: Producer<PassNote>,
        line: Line,
        seen: Line,
    ) -> Session<N, K>
        requires client_in { client < N.parameters.clients }
        requires size { geometry.size ≡ N.parameters.size }
        requires unused { IsUnused producer }
        requires ring { slice_index_or (N.ring part).rings client (ring_of producer)
            ≡ ring_of producer }
        requires line { IsLineOf (N.ring part).board line client [] }
        requires seen { (seen.name ≡ (N.ring part).seen) × (seen.list ≡ N.past) }
        ensures part { result.part ≡ part }
        ensures client { result.client ≡ client }
        ensures before { result.before ≡ [] }
        ensures said { result.said ≡ [] }
        ensures seen { result.seen ≡ N.past }
        ensures free { result.free ≡ 32 }
        ensures room { result.room ≡ 0 }
        ensures passes { result.passes ≡ 0 }
        ensures copies { result.copies ≡ 0 }
        ensures places { result.places ≡ 0 }
    {
        Session {
            part,
            book: Book::new(alloc, geometry, client),
            producer,
            line,
            seen,
            of: PhantomData,
        }
    }

    /// Returns the number of its pool, where several stand side by side.
    pub fn part(&self) -> u8
        ensures { result ≡ self.now.part }
    {
        self.part
    }

    pub fn client(&self) -> u8
        ensures { result ≡ self.now.client }
    {
        self.book.client()
    }

    /// Returns the number of passes that the session holds: its list was given them and did not give them back.
    pub fn held_count(&self) -> usize
        ensures { result ≡ length (held_passes self.now.said) }
    {
        self.book.held_count()
    }

    /// Returns the pass taken first of those that the session holds, or `None` where it holds none. All are the
    /// client's own.
    pub fn oldest_held(&self) -> Option<PassNote>
        ensures first { result ≡ slice_get (held_passes self.now.said) 0 }
        ensures own { All (λ g. g.client ≡ self.now.client) (held_passes self.now.said) }
    {
        self.book.oldest_held()
    }

    /// Takes the memory that the list wants for so many passes more, and for an event with its images. With one pass
    /// the session is then roomy, and each later call leaves it so. It takes no lock, and adds no entry.
    ///
    /// `OutOfMemory` where memory is refused, and then some of the room may be there; of a silent session only where
    /// something has to grow, or its list has 2^61 entries or more.
    pub fn reserve(&mut self, passes: u32) -> Result<(), Refusal>
        ensures same { self.new ≡ record self.old {
          room = self.new.room;
          passes = self.new.passes;
          copies = self.new.copies;
          places = self.new.places;
        } }
        ensures roomy { OnOk result (IsRoomyFor passes self.new) }
        ensures entries { OnOk result (4 ≤ self.new.room) }
        ensures copies { OnOk result (2 ≤ self.new.copies) }
        ensures keeps { (n : ℕ) → IsRoomyFor n self.old → IsRoomyFor n self.new }
        ensures refused { OnErr result (result ≡ Err Refusal.OutOfMemory) }
        ensures memory { K.REFUSES ≡ false → IsRoomyFor passes self.old
            → OnErr result (IsLong self.old) }
    {
        self.book.reserve(Room::with_passes(passes))
    }

    /// Ends the session and returns its book: its own list, and the passes that it holds. It takes no memory.
    pub fn into_book(self) -> Book<K>
        ensures client { result.client ≡ self.client }
        ensures before { result.before ≡ self.before }
        ensures said { result.said ≡ self.said }
    {
        let Session {
            part: _,
            book,
            producer: _,
            line: _,
            seen: _,
            of: _,
        } = self;
        book
    }

    /// Puts a pass on the ring, with no lock and no memory. Where the list does not give it, or gives it back already,
    /// this is `UnknownPass`; where the ring has 32 passes in it, `RingFull`. Both hand the pass back, and change
    /// nothing.
    #[inline(always)]
    pub(crate) fn unfix(&mut self, pass: Pass) -> Result<(), (Pass, Refusal)>
        ensures client { self.new.client ≡ self.old.client }
        ensures before { self.new.before ≡ self.old.before }
        ensures seen { self.new.seen ≡ self.old.seen }
        ensures roomy { IsRoomy self.old → IsRoomy self.new }
        ensures outcome { UnfixSaid self.old pass result self.new }
    {
        // The ring is looked at anew only for a pass that is held, since the refusal of another changes nothing.
        if self.producer.cached_slots() == 0 && self.book.holds(&pass) && self.producer.is_full() {
            return Err((pass, Refusal::RingFull));
        }
        let note = pass.note();
        if !self.book.tell_unfix(note) {
            return Err((note.pass(), Refusal::UnknownPass));
        }
        self.producer.push_reserved(note);
        Ok(())
    }
}

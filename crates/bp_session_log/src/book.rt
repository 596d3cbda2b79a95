//! `Book`: a client's own list of entries, the passes that it holds, and room for all that the list still owes.
ghost use Rattle.std.specs.Prelude.{◌≡◌, ◌≤◌, ◌<◌, ◌+◌, ◌-◌, ◌*◌, ◌^◌, ◌∷◌, ◌++◌, [], ◌==◌, true, false, not};
ghost use Rattle.std.specs.Prelude.{filter, All, Some, None, length, reverse, slice_get, IsOk, IfOk, IsSome, IfSome};
ghost use Rattle.std.specs.Prelude.{OnOk, OnErr, vec_len, vec_capacity};
ghost use Rattle.bp_trail.specs.declared.entries.Call.TheVariants as Call;
ghost use Rattle.bp_trail.specs.declared.entries.Reply.TheVariants as Reply;
ghost use Rattle.bp_trail.specs.Event.{grant, same_grant};
ghost use Rattle.bp_trail.specs.HeldPasses.{held_passes};
ghost use Rattle.bp_trail.specs.Passes.{passes_out};
ghost use Rattle.bp_trail.specs.Legal.{is_out};
ghost use Rattle.bp_session_log.specs.Books.{BookValue, SameBook, Tells, plain_call, plain_reply, OwesRead, OwesWrite, owed};

mod asking;
mod ending;
mod list_cutting;
mod posting;
mod reading;
mod telling;

use bp_core::PassNote;
use bp_frames::GrantList;
use bp_keeper::ListKeeper;
use bp_page::{Geometry, Image, Refusal};
use std::alloc::{AllocError, Global};
use std::marker::Model;

/// A client's own list of entries, the passes that the list leaves out, and what is reserved for the entries that it
/// owes. The entries are with their keeper: in memory, or for the proofs alone.
///
/// Contracts see the client, the bytes of a page, the list, newest first, with what cuts handed out of it, and how much
/// more room there is than the list owes: for entries, for passes held, and for copies of images; and, where the list
/// takes no memory for its entries, what else may want some.
#[derive(Drop)]
pub struct Book<K: ListKeeper> {
    alloc: Global,
    geometry: Geometry,
    client: u8,
    said: K,
    /// The passes that the list gave and did not give back, in the order taken.
    held: GrantList,
    /// The tickets whose end may still come.
    tickets: usize,
    /// Blanks for the entries that will need a copy of an image.
    blanks: Vec<K::Blank>,
    /// Memory that the last end of device work left, to be freed with no lock held.
    left: Option<Image>,
}

impl<K: ListKeeper> Model for Book<K> {
    ghost use Rattle.std.specs.Prelude.{◌+◌, ◌-◌, ◌*◌, All, length, vec_len, vec_capacity};
    ghost use Rattle.bp_session_log.specs.Books.{BookValue, KeepsRoom};

    ghost Value = { BookValue };

    ghost view = { λ b. record {
      client = b.client;
      size = b.geometry.size;
      before = (K.kept b.said).before;
      said = (K.kept b.said).past;
      entries = (K.kept b.said).capacity
          - ((K.kept b.said).len + (length b.held.out + 2 * b.tickets));
      passes = b.held.room - b.tickets;
      copies = vec_len b.blanks - b.tickets;
      places = vec_capacity b.blanks - b.tickets;
    } };

    ghost invariant = { λ b.
        KeepsRoom b.client (K.kept b.said).past b.held.out b.tickets (K.kept b.said).len
        (vec_len b.blanks) (K.kept b.said).capacity b.held.room
        × All (λ blank. K.fits blank b.geometry.size) b.blanks.items };
}

/// The room that a list is to have before an event, beside all that it owes.
#[derive(Clone, Copy)]
pub struct Room {
    /// The entries that the event may add, and those that they owe.
    pub entries: u32,
    /// The passes that may be held besides.
    pub passes: u32,
    /// The copies of images that these entries may want.
    pub copies: u32,
}

impl Room {
    /// For one entry with no image: a tick, a purge, a discard or a write.
    pub const ENTRY: Room = Room {
        entries: 1,
        passes: 0,
        copies: 0,
    };
    /// For one entry with an image: a read.
    pub const IMAGE: Room = Room {
        entries: 1,
        passes: 0,
        copies: 1,
    };

    /// For a fix or a flush, where there is to be room for so many passes: a mark and the event, and an end and an
    /// unfix that are owed then. Of these the event and the end may each have an image.
    pub fn with_passes(passes: u32) -> Room
        ensures { result ≡ record { entries = 4; passes = passes; copies = 2 } }
    {
        Room {
            entries: 4,
            passes,
            copies: 2,
        }
    }
}

/// Makes so many blanks more.
#[inline(always)]
fn make_blanks<K: ListKeeper>(
    alloc: Global,
    geometry: &Geometry,
    blanks: &mut Vec<K::Blank>,
    count: usize,
) -> Result<(), AllocError>
    requires sized { All (λ b. K.fits b geometry.now.size) blanks.old.items }
    ensures sized { All (λ b. K.fits b geometry.now.size) blanks.new.items }
    ensures more { vec_len blanks.old ≤ vec_len blanks.new }
    ensures places { vec_capacity blanks.old ≤ vec_capacity blanks.new }
    ensures enough { OnOk result (vec_len blanks.old + count ≤ vec_len blanks.new) }
    ensures memory { K.REFUSES ≡ false → vec_len blanks.old + count ≤ vec_capacity blanks.old →
        IsOk result }
{
    for _ in 0..count {
        let blank = K::blank(alloc, geometry)?;
        blanks.push(blank)?;
    }
    Ok(())
}

/// Copies an image into the last of the blanks, and takes that out.
fn copied<K: ListKeeper>(blanks: &mut Vec<K::Blank>, image: &Image) -> K::SpareImage
    requires some { 0 < vec_len blanks.old }
    requires sized { All (λ b. K.fits b (length image.now)) blanks.old.items }
    ensures serves { K.serves_image result image.now }
    ensures copy { K.image_of result ≡ image.now }
    ensures sized { All (λ b. K.fits b (length image.now)) blanks.new.items }
    ensures len { vec_len blanks.new + 1 ≡ vec_len blanks.old }
    ensures capacity { vec_capacity blanks.new ≡ vec_capacity blanks.old }
{
    let Some(blank) = blanks.pop() else {
        unreachable!()
    };
    K::fill(blank, image)
}

/// A number of 32 bits as a size.
fn size(n: u32) -> usize
    ensures same { result ≡ n }
    ensures few { n < 2 ^ 32 }
{
    n as usize
}

/// The number of entries for which a list has to have room before so many more, where it holds so many passes and
/// tickets. `None` where that overflows.
fn entries_wanted(held: usize, tickets: usize, more: usize) -> Option<usize>
    ensures wanted { IfSome result (λ n. n ≡ held + 2 * tickets + more) }
    ensures counted { held + 2 * tickets + more < 2 ^ 64 → IsSome result }
{
    tickets.checked_mul(2)?.checked_add(held)?.checked_add(more)
}

impl<K: ListKeeper> Book<K> {
    /// Makes an empty list of this client, with no room. It takes no memory.
    pub fn new(alloc: Global, geometry: Geometry, client: u8) -> Book<K>
        ensures client { result.client ≡ client }
        ensures size { result.size ≡ geometry.size }
        ensures before { result.before ≡ [] }
        ensures said { result.said ≡ [] }
        ensures room { result.entries ≡ 0 }
        ensures passes { result.passes ≡ 0 }
        ensures copies { result.copies ≡ 0 }
        ensures places { result.places ≡ 0 }
    {
        Book {
            alloc,
            geometry,
            client,
            said: K::empty(alloc),
            held: GrantList::new(alloc),
            tickets: 0,
            blanks: Vec::new(alloc),
            left: None,
        }
    }

    /// Frees the memory that the last end of device work left, for which no lock has to be held.
    pub fn free_left(&mut self)
        ensures { self.new ≡ self.old }
    {
        self.left = None;
    }

    pub fn alloc(&self) -> Global {
        self.alloc
    }

    pub fn client(&self) -> u8
        ensures { result ≡ self.now.client }
    {
        self.client
    }

    /// Returns the number of passes that the list leaves out.
    pub fn held_count(&self) -> usize
        ensures { result ≡ length (held_passes self.now.said) }
    {
        self.held.len()
    }

    /// Returns the pass taken first of those that the list leaves out, or `None` where there is none. All are the
    /// client's own.
    pub fn oldest_held(&self) -> Option<PassNote>
        ensures first { result ≡ slice_get (held_passes self.now.said) 0 }
        ensures own { All (λ g. g.client ≡ self.now.client) (held_passes self.now.said) }
    {
        let oldest = self.held.oldest()?;
        Some(PassNote::of(oldest.client, oldest.page, oldest.serial))
    }

    /// Takes the memory for so much room, beside all that is owed. No entry is added. Where memory is refused, which is
    /// `OutOfMemory`, the list is as before, and some of the room may be there. A list that takes no memory for its
    /// entries, and has fewer than 2^61, is refused none for passes and copies that it has room for.
    #[inline(always)]
    pub fn reserve(&mut self, room: Room) -> Result<(), Refusal>
        ensures same { SameBook self.old self.new }
        ensures keeps_passes { self.old.passes ≤ self.new.passes }
        ensures keeps_places { self.old.places ≤ self.new.places }
        ensures entries { OnOk result (room.entries ≤ self.new.entries) }
        ensures passes { OnOk result (room.passes ≤ self.new.passes) }
        ensures copies { OnOk result (room.copies ≤ self.new.copies) }
        ensures places { OnOk result (room.copies ≤ self.new.places) }
        ensures refused { OnErr result (result ≡ Err Refusal.OutOfMemory) }
        ensures memory { K.REFUSES ≡ false → length self.old.said < 2 ^ 61
            → room.passes ≤ self.old.passes → room.copies ≤ self.old.places → IsOk result }
    {
        let (more, passes, copies) = (size(room.entries), size(room.passes), size(room.copies));
        let Some(entries) = entries_wanted(self.held.len(), self.tickets, more) else {
            return Err(Refusal::OutOfMemory);
        };
        let Some(held) = self.tickets.checked_add(passes) else {
            return Err(Refusal::OutOfMemory);
        };
        self.said.reserve(entries)?;
        self.held.reserve(held)?;
        let spare = self.blanks.len() - self.tickets;
        make_blanks::<K>(
            self.alloc,
            &self.geometry,
            &mut self.blanks,
            copies.saturating_sub(spare),
        )?;
        Ok(())
    }

    /// Copies an image into a blank.
    fn copy_of(&mut self, image: &Image) -> K::SpareImage
        requires size { length image.now ≡ self.old.size }
        requires room { 0 < self.old.copies }
        ensures serves { K.serves_image result image.now }
        ensures copy { K.image_of result ≡ image.now }
        ensures same { SameBook self.old self.new }
        ensures entries { self.new.entries ≡ self.old.entries }
        ensures passes { self.new.passes ≡ self.old.passes }
        ensures places { self.new.places ≡ self.old.places }
        ensures copies { self.new.copies + 1 ≡ self.old.copies }
    {
        copied::<K>(&mut self.blanks, image)
    }
}

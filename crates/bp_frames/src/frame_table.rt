//! `FrameTable`: the frames of a core, the frame of each resident page, and the candidates for replacement.
ghost use Rattle.std.specs.Prelude.{◌≡◌, ◌≢◌, ℕ, ◌+◌, ◌^◌, ◌<◌, ◌≤◌, ◌∷◌, [], All, Contains};
ghost use Rattle.std.specs.Prelude.{IsFalse, Some, None, is_some, true, false, length, replicate};
ghost use Rattle.std.specs.Prelude.{IfOk, OnOk, OnErr, IfSome, IfNone, if◌then◌else◌};
ghost use Rattle.std.specs.List.Sorted.{IsPermutation};
ghost use Rattle.bp_references.specs.Candidates.{entry_of, is_eligible, IsVictim, NoPageTwice};
ghost use Rattle.bp_references.specs.Candidates.{SameLimits};
ghost use Rattle.bp_trail.specs.Lists.{some, count};
ghost use Rattle.bp_frames.specs.Frames.{is_pinned, is_to_save, IsLeastUnsaved, has_unsaved};
ghost use Rattle.bp_frames.specs.PageSets.{IsNext, NoneFrom};
ghost use Rattle.bp_frames.specs.Frames.{is_frame_of, loaded_with, pinned, unpinned, written_on};
ghost use Rattle.bp_frames.specs.Frames.{saving, saved, not_saved, without_page};

use crate::frame::{Frame, FrameSlot};
use crate::unsaved::Unsaved;
use bp_page::{Geometry, Image, Lsn, PageNo};
use bp_replacer::seats::Candidates;
use bp_replacer::{BlockNo, Settings};
use std::alloc::{AllocError, Global};
use std::marker::Model;

/// The frames of a core, at most `capacity`, with an image of the geometry's size in each. A frame is made once, when a
/// load first needs it, and serves one page after another. A page's frame is found in one step, and then known by its
/// slot.
#[derive(Drop)]
pub struct FrameTable {
    geometry: Geometry,
    capacity: usize,
    slots: Vec<Frame>,
    /// For each page of the file one more than the slot of its frame, or 0 where it has none.
    places: Vec<u32>,
    /// The slots whose frame is empty: it holds no page, and has the image for the next one.
    empty_frames: Vec<usize>,
    /// The pages that may be replaced, at the seats of their slots.
    candidates: Candidates,
    /// The number of resident pages with a pass out.
    pinned: usize,
    unsaved: Unsaved,
}

impl Model for FrameTable {
    ghost use Rattle.std.specs.Prelude.{vec_capacity};
    ghost use Rattle.bp_replacer.specs.Seats.{entered};
    ghost use Rattle.bp_frames.specs.Tables.{Table, table_of, places_from, IsTable, HasTableRoom};
    ghost use Rattle.bp_frames.specs.Tables.{IsSeating, IsAccount};

    ghost Value = { Table };

    ghost view = { λ t. table_of t.geometry.size t.capacity t.slots.items
        (places_from 0 t.places.items) t.empty_frames.items t.places.items
        (entered t.candidates) };

    ghost invariant = { λ t. IsTable t.geometry.size t.capacity t.slots.items
        (places_from 0 t.places.items) t.empty_frames.items
        × HasTableRoom t.capacity (vec_capacity t.slots) (vec_capacity t.empty_frames)
        × IsSeating t.capacity t.places.items t.candidates.seats
        × IsAccount t.capacity t.slots.items t.places.items t.pinned t.unsaved };
}

// 1 where it holds, and else 0.
fn one_if(holds: bool) -> usize
    ensures { result ≡ (if holds then 1 else 0) }
{
    if holds { 1 } else { 0 }
}

impl FrameTable {
    ghost use Rattle.bp_frames.specs.Tables.{IsSlotIn, with_changed};

    /// Makes room for `capacity` frames, at most 65,536, none of which is made yet, and takes 4 bytes and little more
    /// than a bit for each page of the file. It fails by want of memory alone.
    pub fn with_capacity(
        alloc: Global,
        capacity: usize,
        geometry: Geometry,
        settings: Settings,
    ) -> Result<FrameTable, AllocError>
        requires { capacity ≤ 65536 }
        ensures { IfOk result (λ t. t ≡ record {
          frames = [];
          empty_frames = 0;
          size = geometry.size;
          capacity
              = capacity;
          pages = geometry.pages;
          places = replicate geometry.pages 0;
          candidates = record
              { frames = capacity; correlated = settings.correlated; entries = [] };
        }) }
    {
        let pages = geometry.pages as usize;
        Ok(FrameTable {
            geometry,
            capacity,
            slots: Vec::with_capacity(alloc, capacity)?,
            places: vec![in alloc; 0; pages]?,
            empty_frames: Vec::with_capacity(alloc, capacity)?,
            candidates: Candidates::new(alloc, capacity, settings)?,
            pinned: 0,
            unsaved: Unsaved::new(alloc, capacity, pages, settings)?,
        })
    }

    /// Returns the number of resident pages. Empty frames are not counted.
    pub fn len(&self) -> usize
        ensures { result ≡ length self.now.frames }
    {
        self.slots.len() - self.empty_frames.len()
    }

    /// Returns the number of pages with a pass out, in O(1).
    pub fn pinned(&self) -> usize
        ensures { result ≡ count is_pinned self.now.frames }
    {
        self.pinned
    }

    /// Returns the number of unsaved pages, in O(1).
    pub fn unsaved(&self) -> usize
        ensures { result ≡ count is_to_save self.now.frames }
    {
        self.unsaved.len()
    }

    /// Returns the slot of a page's frame, in O(1). `None` where it has none; a page beyond the file has none.
    pub fn find(&self, page: PageNo) -> Option<FrameSlot>
        ensures here { is_some result ≡ some (is_frame_of page) self.now.frames }
        ensures found { IfSome result (λ slot. IsSlotIn self.now slot × (slot.page ≡ page)) }
    {
        let number = page.number();
        if number >= self.places.len() as u64 {
            return None;
        }
        let place = self.places[number as usize];
        if place == 0 {
            return None;
        }
        let index = place as usize - 1;
        Some(FrameSlot { page, index })
    }

    pub fn frame(&self, slot: &FrameSlot) -> &Frame
        requires { IsSlotIn self.now slot.now }
        ensures here { Contains self.now.frames result.now }
        ensures page { result.now.page ≡ slot.now.page }
    {
        &self.slots[slot.index]
    }

    /// Counts one more pass of the page. No frame may have 2^63 passes out yet.
    pub fn pin(&mut self, slot: &FrameSlot)
        requires at { IsSlotIn self.old slot.now }
        requires few { All (λ f. f.pins < 2 ^ 63) self.old.frames }
        ensures { self.new ≡ with_changed self.old slot.now.page pinned }
    {
        let frame = &mut self.slots[slot.index];
        self.pinned += one_if(frame.pins == 0);
        frame.pins += 1;
    }

    /// Counts one pass fewer of the page. Its frame must have a pass out.
    pub fn unpin(&mut self, slot: &FrameSlot)
        requires at { IsSlotIn self.old slot.now }
        requires some { All (λ f. is_frame_of slot.now.page f ≡ true → 0 < f.pins) self.old.frames }
        ensures { self.new ≡ with_changed self.old slot.now.page unpinned }
    {
        let frame = &mut self.slots[slot.index];
        self.pinned -= one_if(frame.pins == 1);
        frame.pins -= 1;
    }

    /// Writes bytes into the page's image from the offset on, and raises its page LSN to `lsn` if that is greater. The
    /// bytes must end within the image. Beside the copy it costs O(log frames) where the least LSN of the page's
    /// unsaved writes changes, and else O(1).
    pub fn write(&mut self, slot: &FrameSlot, offset: usize, bytes: &[u8], lsn: Lsn)
        requires at { IsSlotIn self.old slot.now }
        requires fits { offset + length bytes.now ≤ self.old.size }
        ensures { self.new ≡ with_changed self.old slot.now.page (written_on offset bytes.now lsn) }
    {
        let frame = &mut self.slots[slot.index];
        let before = frame.first_lsn;
        frame.write(offset, bytes, lsn);
        let least = frame.first_lsn;
        self.unsaved.note(slot, before, least);
    }

    /// Notes that a write-out of the page begins: writes from now on leave it unsaved.
    pub fn begin_write_out(&mut self, slot: &FrameSlot)
        requires { IsSlotIn self.old slot.now }
        ensures { self.new ≡ with_changed self.old slot.now.page saving }
    {
        let frame = &mut self.slots[slot.index];
        frame.is_rewritten = false;
        frame.rewritten_lsn = None;
        frame.is_writing = true;
    }

    /// Notes that a write-out of the page ended well: it is saved, except for writes since that began.
    pub fn end_write_out(&mut self, slot: &FrameSlot)
        requires { IsSlotIn self.old slot.now }
        ensures { self.new ≡ with_changed self.old slot.now.page saved }
    {
        let frame = &mut self.slots[slot.index];
        let before = frame.first_lsn;
        frame.is_unsaved = frame.is_rewritten;
        frame.first_lsn = frame.rewritten_lsn;
        frame.is_writing = false;
        self.unsaved.note(slot, before, frame.first_lsn);
    }

    /// Notes that a write-out of the page failed: it stays as unsaved as it is.
    pub fn fail_write_out(&mut self, slot: &FrameSlot)
        requires { IsSlotIn self.old slot.now }
        ensures { self.new ≡ with_changed self.old slot.now.page not_saved }
    {
        self.slots[slot.index].is_writing = false;
    }

    /// Makes an empty frame, unless there are more than `reads` already. At least `reads` there must be: one for each
    /// read that is out. It fails by want of memory alone, and then changes nothing.
    pub fn make_empty_frame(&mut self, alloc: Global, reads: usize) -> Result<(), AllocError>
        requires room { length self.old.frames + reads < self.old.capacity }
        requires waiting { reads ≤ self.old.empty_frames }
        ensures frames { self.new.frames ≡ self.old.frames }
        ensures size { self.new.size ≡ self.old.size }
        ensures capacity { self.new.capacity ≡ self.old.capacity }
        ensures pages { self.new.pages ≡ self.old.pages }
        ensures places { self.new.places ≡ self.old.places }
        ensures candidates { self.new.candidates ≡ self.old.candidates }
        ensures enough { OnOk result (reads < self.new.empty_frames) }
        ensures more { self.old.empty_frames ≤ self.new.empty_frames }
        ensures unchanged { OnErr result (self.new ≡ self.old) }
    {
        if reads < self.empty_frames.len() {
            return Ok(());
        }
        let image = Image::blank(alloc, &self.geometry)?;
        self.empty_frames.push_reserved(self.slots.len());
        self.slots.push_reserved(Frame::empty(image));
        Ok(())
    }

    /// Puts a page of the file that was read, and has no frame, into an empty frame, with one pass out. The frame
    /// keeps the number of the block of its references and the image itself. Returns the slot, and the image that the
    /// frame had before, whose bytes mean nothing. It takes no memory.
    pub fn install(&mut self, page: PageNo, block: BlockNo, image: Image) -> (FrameSlot, Image)
        requires absent { some (is_frame_of page) self.old.frames ≡ false }
        requires in_range { page < self.old.pages }
        requires empty_frames { 0 < self.old.empty_frames }
        requires size { length image ≡ self.old.size }
        ensures at { IsSlotIn self.new result.0 }
        ensures page { result.0.page ≡ page }
        ensures left { length result.1 ≡ self.old.size }
        ensures frames { IsPermutation (loaded_with page block image ∷
            self.old.frames) self.new.frames }
        ensures empty_frames { self.new.empty_frames + 1 ≡ self.old.empty_frames }
        ensures size { self.new.size ≡ self.old.size }
        ensures capacity { self.new.capacity ≡ self.old.capacity }
        ensures pages { self.new.pages ≡ self.old.pages }
        ensures candidates { self.new.candidates ≡ self.old.candidates }
    {
        let index = self.empty_frames.pop().unwrap();
        let left = self.slots[index].load(page, block, image);
        self.places[page.number() as usize] = index as u32 + 1;
        self.pinned += 1;
        (FrameSlot { page, index }, left)
    }

    /// Takes a page that is no candidate out of its frame, which is empty then.
    pub fn vacate(&mut self, slot: &FrameSlot)
        requires at { IsSlotIn self.old slot.now }
        requires apart { entry_of self.old.candidates slot.now.page ≡ None }
        ensures { self.new ≡ record self.old {
          frames = without_page slot.now.page self.old.frames;
          empty_frames = self.old.empty_frames + 1;
          places = self.new.places;
        } }
    {
        let frame = &self.slots[slot.index];
        self.pinned -= one_if(frame.pins > 0);
        self.unsaved.note(slot, frame.first_lsn, None);
        self.places[slot.page.number() as usize] = 0;
        self.empty_frames.push_reserved(slot.index);
    }

    /// Enters the page among the candidates, or anew where it is one, with its K-th stamp and the time of its newest
    /// reference, in ticks. It takes no memory.
    pub fn enter(&mut self, slot: &FrameSlot, hist_k: u64, last: u64)
        requires { IsSlotIn self.old slot.now }
        ensures same { self.new ≡ record self.old { candidates = self.new.candidates } }
        ensures entered { entry_of self.new.candidates slot.now.page ≡ Some (hist_k, last) }
        ensures others { (q : ℕ) → q ≢ slot.now.page → entry_of self.new.candidates q
            ≡ entry_of self.old.candidates q }
        ensures pages { NoPageTwice self.old.candidates.entries →
            NoPageTwice self.new.candidates.entries }
        ensures limits { SameLimits self.old.candidates self.new.candidates }
    {
        self.candidates.enter(slot.index, slot.page, hist_k, last);
    }

    /// Takes the page out of the candidates, if it is one.
    pub fn withdraw(&mut self, slot: &FrameSlot)
        requires { IsSlotIn self.old slot.now }
        ensures same { self.new ≡ record self.old { candidates = self.new.candidates } }
        ensures left { entry_of self.new.candidates slot.now.page ≡ None }
        ensures others { (q : ℕ) → q ≢ slot.now.page → entry_of self.new.candidates q
            ≡ entry_of self.old.candidates q }
        ensures pages { NoPageTwice self.old.candidates.entries →
            NoPageTwice self.new.candidates.entries }
        ensures limits { SameLimits self.old.candidates self.new.candidates }
    {
        self.candidates.leave(slot.index);
    }

    /// Returns the victim at the time `t`, in ticks. `None` where no candidate was last referenced more than the
    /// correlated period before.
    pub fn victim(&mut self, t: u64) -> Option<PageNo>
        ensures same { self.new ≡ self.old }
        ensures found { IfSome result (λ page. IsVictim self.old.candidates t page) }
        ensures none { IfNone result ((page : ℕ) → IsFalse
            (is_eligible self.old.candidates t page)) }
    {
        self.candidates.victim(t)
    }

    /// Returns the least LSN of all unsaved writes, or `None` where all pages are saved. The unsaved pages stand in the
    /// order of their least LSNs, in a tree that may lag behind any of them: it takes what a look for a victim takes
    /// with no correlated period. It changes nothing that a caller sees.
    pub fn least_unsaved(&mut self) -> Option<Lsn>
        ensures same { self.new ≡ self.old }
        ensures least { IsLeastUnsaved self.old.frames result }
    {
        let page = self.unsaved.first()?;
        let place = self.places[page.number() as usize];
        self.slots[place as usize - 1].first_lsn
    }

    /// Returns the first unsaved page from this number on. It looks at one or two words of each of at most four rows of
    /// bits, however many pages and frames there are.
    pub fn next_unsaved(&self, from: u64) -> Option<PageNo>
        ensures found { IfSome result (IsNext (has_unsaved self.now.frames) from) }
        ensures none { IfNone result (NoneFrom (has_unsaved self.now.frames) from) }
    {
        let page = self.unsaved.next(from as usize)?;
        Some(PageNo::new(page as u64))
    }
}

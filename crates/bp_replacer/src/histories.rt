//! `Histories`: what LRU-K keeps of each page's references, its K stamps and LAST.
ghost use Rattle.std.specs.Prelude.{◌≡◌, ◌≢◌, ℕ, ◌+◌, ◌-◌, ◌^◌, ◌<◌, ◌≤◌, [], IsTrue, IsFalse, true, false, is_some, IsSome, IfOk, OnOk, OnErr, slice_index, if◌then◌else◌};
ghost use Rattle.bp_references.specs.Shift.{IsShifted};
ghost use Rattle.bp_references.specs.Burst.Reference.{hit, fault};
ghost use Rattle.bp_replacer.specs.Histories.{is_held, has_block, place_of, time_of, last_of, latest_of, stamp_of, IsNow, HasStampsOf, SameAt, SameStampsAt, SameSettings, KeepsPlaces, AddsReference, forgets};
ghost use Rattle.bp_references.specs.Numbers.{count_below};

use crate::queue::Queue;
use crate::settings::{MAX_STAMPS, Settings};
use bp_page::{PageNo, Refusal};
use slab::Slab;
use std::alloc::Global;
use std::collections::HashMap;
use std::marker::Model;

/// What is kept of a page: whether it is held and so may not be forgotten, whether it stands in the queue of pages to
/// purge, the time of its newest reference, and its stamps, newest first. Where it was forgotten as it waits there, its
/// stamps are absent, and that time is of a reference before.
#[derive(Clone, Copy)]
pub struct Block {
    held: bool,
    waits: bool,
    last: u64,
    stamps: [u64; MAX_STAMPS],
}

/// The number of a page's block. It stays the same while the page is held, so a caller that keeps it finds the block
/// without a look-up.
#[derive(Clone, Copy, Drop)]
pub struct BlockNo {
    number: u32,
}

impl Model for BlockNo {
    ghost Value = { ℕ };

    ghost view = { λ block. block.number };

    ghost inverse = { λ n. record { number = n } };
}

impl BlockNo {
    fn slot(self) -> usize
        ensures { result ≡ self }
    {
        self.number as usize
    }
}

/// What LRU-K knows of each page (figure 2.1 of "The LRU-K Page Replacement Algorithm", SIGMOD 1993): the stamps
/// HIST(1) to HIST(K), newest first, with correlated references discounted, and LAST, the time of its newest reference
/// of any kind. A stamp of 0 is absent. A page has a block while it is held or has a reference, and a purge forgets
/// pages that are not held.
///
/// Times are counted from 1 and never fall. The blocks, of 152 bytes, stand in numbered slots, and a hash map has the
/// number of each page's block. A call by a page looks its number up; one by a block's number, whose name ends in
/// `_at`, looks nothing up, and takes the page to be the one whose block it is. Both take a time that does not grow
/// with the number of pages.
///
/// A page that is let go waits in a queue, by the time of its newest reference. A purge takes out those whose time is
/// past the retained period: it forgets them, except those that were held or referenced since they were let go, each of
/// which it meets once for that. A page that is forgotten while it waits keeps its block, without stamps, until then.
/// So the cost of a purge grows with the pages that it forgets or meets so, and not with those that are kept.
///
/// A `prepare` that finds the slots, the map's table or the queue full doubles them. Only it takes memory.
#[derive(Drop)]
pub struct Histories {
    settings: Settings,
    places: HashMap<u64, BlockNo>,
    blocks: Slab<Block>,
    // Each page that is not held waits here since its newest reference or an earlier one.
    waiting: Queue,
}

impl Model for Histories {
    ghost use Rattle.bp_replacer.specs.Histories.{Blocks};

    ghost Value = { Blocks };

    ghost use Rattle.bp_replacer.specs.Kept.{blocks_in, IsKept, IsQueued};

    ghost view = { λ h. record {
      k = h.settings.k;
      correlated = h.settings.correlated;
      retained = h.settings.retained;
      entries = blocks_in h.blocks.slots h.places.entries;
      places = h.places.entries;
    } };

    ghost invariant = { λ h. IsKept h.settings.k h.blocks.slots h.places.entries ×
        IsQueued h.blocks.slots h.places.entries h.waiting };
}

// Moves each stamp one place on, adds the width to those that are not absent, and puts `t` in front.
fn shift(stamps: &mut [u64; MAX_STAMPS], k: usize, width: u64, t: u64)
    requires positive { 1 ≤ k }
    requires in_range { k ≤ 16 }
    requires fits { (n : ℕ) → n < k → slice_index stamps.old n + width < 2 ^ 64 }
    ensures { IsShifted k width t stamps.old stamps.new }
{
    let mut i = k;
    while i > 1 {
        i -= 1;
        let newer = stamps[i - 1];
        stamps[i] = if newer == 0 { 0 } else { newer + width };
    }
    stamps[0] = t;
}

fn one_if(holds: bool) -> usize
    ensures { result ≡ (if holds then 1 else 0) }
{
    if holds { 1 } else { 0 }
}

impl Block {
    /// Returns the time of the newest reference, or 0 where there is none.
    fn time(&self) -> u64
        ensures { result ≡ time_of self.now }
    {
        if self.stamps[0] == 0 { 0 } else { self.last }
    }
}

impl Histories {
    /// Makes empty histories: no page is held, and none has a reference. It takes no memory.
    pub fn new(alloc: Global, settings: Settings) -> Self
        ensures k { result.k ≡ settings.k }
        ensures correlated { result.correlated ≡ settings.correlated }
        ensures retained { result.retained ≡ settings.retained }
        ensures blocks { (page : ℕ) → IsFalse (has_block result page) }
        ensures held { (page : ℕ) → is_held result page ≡ false }
        ensures stamps { (page : ℕ) → HasStampsOf result page [] }
    {
        Histories {
            settings,
            places: HashMap::new(alloc),
            blocks: Slab::new(alloc),
            waiting: Queue::new(alloc),
        }
    }

    /// Returns the number of the page's block, or `None` where the page is not held and has no reference.
    pub fn place(&self, page: PageNo) -> Option<BlockNo>
        ensures place { result ≡ place_of self.now page }
        ensures some { is_some result ≡ has_block self.now page }
        ensures held { is_held self.now page ≡ true → IsSome result }
    {
        self.places.get(&page.number()).copied()
    }

    /// Returns LAST, the time of the page's newest reference, or 0 where it has none.
    pub fn last(&self, page: PageNo) -> u64
        ensures { result ≡ last_of self.now page }
    {
        self.rank(page, 1).1
    }

    /// Returns HIST(i), the page's i-th stamp, from 1 for the newest to K, or 0 where it has none.
    pub fn stamp(&self, page: PageNo, i: usize) -> u64
        ensures { result ≡ stamp_of self.now page i }
    {
        self.rank(page, i).0
    }

    /// Returns HIST(i) and LAST of a page, by one look-up.
    pub fn rank(&self, page: PageNo, i: usize) -> (u64, u64)
        ensures stamp { result.0 ≡ stamp_of self.now page i }
        ensures last { result.1 ≡ last_of self.now page }
    {
        match self.place(page) {
            Some(block) => self.rank_at(page, block, i),
            None => (0, 0),
        }
    }

    /// Returns true if the page is held, and so may not be forgotten.
    pub fn holds(&self, page: PageNo) -> bool
        ensures { result ≡ is_held self.now page }
    {
        match self.place(page) {
            Some(block) => self.blocks.get(block.slot()).unwrap().held,
            None => false,
        }
    }

    /// `rank`, of the page whose block this is.
    pub fn rank_at(&self, page: PageNo, block: BlockNo, i: usize) -> (u64, u64)
        requires place { place_of self.now page ≡ Some block }
        ensures stamp { result.0 ≡ stamp_of self.now page i }
        ensures last { result.1 ≡ last_of self.now page }
    {
        let kept = self.blocks.get(block.slot()).unwrap();
        let stamp = if 1 <= i && i <= self.settings.k {
            kept.stamps[i - 1]
        } else {
            0
        };
        (stamp, kept.time())
    }

    /// Holds a page that is not held, and takes the memory of its block, if it has none. Its stamps stay. It fails by
    /// want of memory alone, or past 2^32 blocks, as `OutOfMemory`, and then changes nothing.
    pub fn prepare(&mut self, page: PageNo) -> Result<(), Refusal>
        requires { is_held self.old page ≡ false }
        ensures held { OnOk result (is_held self.new page ≡ true) }
        ensures stamps { SameStampsAt self.old self.new page }
        ensures others { (q : ℕ) → q ≢ page → SameAt self.old self.new q }
        ensures settings { SameSettings self.old self.new }
        ensures err { OnErr result (result ≡ Err Refusal.OutOfMemory) }
        ensures unchanged { OnErr result (self.new ≡ self.old) }
        ensures absent { OnErr result (IsFalse (has_block self.old page)) }
        ensures places { KeepsPlaces self.old self.new }
    {
        self.prepare_block(page)?;
        Ok(())
    }

    /// `prepare`, which returns the number of the page's block.
    pub fn prepare_block(&mut self, page: PageNo) -> Result<BlockNo, Refusal>
        requires { is_held self.old page ≡ false }
        ensures held { OnOk result (is_held self.new page ≡ true) }
        ensures stamps { SameStampsAt self.old self.new page }
        ensures others { (q : ℕ) → q ≢ page → SameAt self.old self.new q }
        ensures settings { SameSettings self.old self.new }
        ensures err { OnErr result (result ≡ Err Refusal.OutOfMemory) }
        ensures unchanged { OnErr result (self.new ≡ self.old) }
        ensures absent { OnErr result (IsFalse (has_block self.old page)) }
        ensures places { KeepsPlaces self.old self.new }
        ensures place { IfOk result (λ block. place_of self.new page ≡ Some block) }
    {
        if let Some(block) = self.place(page) {
            self.blocks.get_mut(block.slot()).unwrap().held = true;
            return Ok(block);
        }
        let slot = self.blocks.vacant_key();
        if slot > u32::MAX as usize {
            return Err(Refusal::OutOfMemory);
        }
        let block = BlockNo {
            number: slot as u32,
        };
        self.blocks.reserve(1)?;
        self.waiting.reserve(self.blocks.capacity())?;
        let Ok(_) = self.places.insert(page.number(), block) else {
            return Err(Refusal::OutOfMemory);
        };
        self.blocks.insert_reserved(Block {
            held: true,
            waits: false,
            last: 0,
            stamps: [0; MAX_STAMPS],
        });
        Ok(block)
    }

    /// Lets a held page go, because its read failed or it leaves its frame. Its stamps stay; a block that never had one
    /// is dropped.
    pub fn unprepare(&mut self, page: PageNo)
        requires { is_held self.old page ≡ true }
        ensures held { is_held self.new page ≡ false }
        ensures stamps { SameStampsAt self.old self.new page }
        ensures vanishes { latest_of self.old page ≡ 0 → IsFalse (has_block self.new page) }
        ensures others { (q : ℕ) → q ≢ page → SameAt self.old self.new q }
        ensures settings { SameSettings self.old self.new }
        ensures places { KeepsPlaces self.old self.new }
    {
        let block = self.place(page).unwrap();
        self.unprepare_at(page, block);
    }

    /// `unprepare`, of the page whose block this is.
    pub fn unprepare_at(&mut self, page: PageNo, block: BlockNo)
        requires held { is_held self.old page ≡ true }
        requires place { place_of self.old page ≡ Some block }
        ensures held { is_held self.new page ≡ false }
        ensures stamps { SameStampsAt self.old self.new page }
        ensures vanishes { latest_of self.old page ≡ 0 → IsFalse (has_block self.new page) }
        ensures others { (q : ℕ) → q ≢ page → SameAt self.old self.new q }
        ensures settings { SameSettings self.old self.new }
        ensures places { KeepsPlaces self.old self.new }
    {
        let slot = block.slot();
        let kept = self.blocks.get_mut(slot).unwrap();
        if kept.last == 0 {
            self.places.remove(&page.number());
            self.blocks.remove(slot);
            return;
        }
        kept.held = false;
        if !kept.waits {
            kept.waits = true;
            let last = kept.last;
            self.waiting.push(last, page.number());
        }
    }

    /// Forgets the references of a page, and lets it go if it is held. It takes no memory.
    pub fn forget(&mut self, page: PageNo)
        ensures held { is_held self.new page ≡ false }
        ensures stamps { HasStampsOf self.new page [] }
        ensures latest { latest_of self.new page ≤ latest_of self.old page }
        ensures others { (q : ℕ) → q ≢ page → SameAt self.old self.new q }
        ensures settings { SameSettings self.old self.new }
        ensures places { KeepsPlaces self.old self.new }
    {
        let Some(block) = self.place(page) else {
            return;
        };
        self.forget_at(page, block);
    }

    /// `forget`, of the page whose block this is.
    pub fn forget_at(&mut self, page: PageNo, block: BlockNo)
        requires place { place_of self.old page ≡ Some block }
        ensures held { is_held self.new page ≡ false }
        ensures stamps { HasStampsOf self.new page [] }
        ensures latest { latest_of self.new page ≤ latest_of self.old page }
        ensures others { (q : ℕ) → q ≢ page → SameAt self.old self.new q }
        ensures settings { SameSettings self.old self.new }
        ensures places { KeepsPlaces self.old self.new }
    {
        let slot = block.slot();
        let kept = self.blocks.get_mut(slot).unwrap();
        if kept.waits {
            kept.held = false;
            kept.stamps = [0; MAX_STAMPS];
            return;
        }
        self.places.remove(&page.number());
        self.blocks.remove(slot);
    }

    /// Adds the reference by which a held page is read from the device at the time `t`: each stamp moves by one place,
    /// with no width, and `t` is the newest.
    pub fn fault(&mut self, page: PageNo, t: u64)
        requires held { is_held self.old page ≡ true }
        requires now { IsNow self.old t }
        ensures { AddsReference fault t page self.old self.new }
    {
        let block = self.place(page).unwrap();
        self.fault_at(page, block, t);
    }

    /// `fault`, of the page whose block this is.
    pub fn fault_at(&mut self, page: PageNo, block: BlockNo, t: u64)
        requires held { is_held self.old page ≡ true }
        requires place { place_of self.old page ≡ Some block }
        requires now { IsNow self.old t }
        ensures { AddsReference fault t page self.old self.new }
    {
        let k = self.settings.k;
        let kept = self.blocks.get_mut(block.slot()).unwrap();
        shift(&mut kept.stamps, k, 0, t);
        kept.last = t;
    }

    /// Adds a reference at the time `t` to a held page that has one. Where more than the correlated period has gone by
    /// since the newest reference, each stamp moves by one place, later by the width of the burst of references that
    /// ended there, absent stamps stay absent, and `t` is the newest. Else no stamp changes.
    pub fn hit(&mut self, page: PageNo, t: u64)
        requires held { is_held self.old page ≡ true }
        requires known { 0 < last_of self.old page }
        requires now { IsNow self.old t }
        ensures { AddsReference hit t page self.old self.new }
    {
        let block = self.place(page).unwrap();
        self.hit_at(page, block, t);
    }

    /// `hit`, of the page whose block this is.
    pub fn hit_at(&mut self, page: PageNo, block: BlockNo, t: u64)
        requires held { is_held self.old page ≡ true }
        requires known { 0 < last_of self.old page }
        requires place { place_of self.old page ≡ Some block }
        requires now { IsNow self.old t }
        ensures { AddsReference hit t page self.old self.new }
    {
        let k = self.settings.k;
        let correlated = self.settings.correlated;
        let kept = self.blocks.get_mut(block.slot()).unwrap();
        if t - kept.last > correlated {
            let width = kept.last - kept.stamps[0];
            shift(&mut kept.stamps, k, width, t);
        }
        kept.last = t;
    }

    /// Forgets each page that is not held and was last referenced more than the retained period before the time `t`.
    /// Returns how many these were.
    pub fn purge(&mut self, t: u64) -> u64
        requires { IsNow self.old t }
        ensures forgotten { (page : ℕ) → IsTrue (forgets self.old t page) →
            HasStampsOf self.new page [] }
        ensures vanishes { (page : ℕ) → IsTrue (forgets self.old t page) →
            IsFalse (has_block self.new page) }
        ensures kept { (page : ℕ) → forgets self.old t page ≡ false →
            SameAt self.old self.new page }
        ensures held { (page : ℕ) → is_held self.new page ≡ is_held self.old page }
        ensures no_later { (page : ℕ) → latest_of self.new page ≤ latest_of self.old page }

        // Where no page from the bound on has a history, the pages to count are those below it.
        ensures counted { (bound : ℕ) → ((page : ℕ) → bound ≤ page → last_of self.old page ≡ 0) →
            result ≡ count_below (forgets self.old t) bound }
        ensures settings { SameSettings self.old self.new }
        ensures places { KeepsPlaces self.old self.new }
    {
        let bound = t.saturating_sub(self.settings.retained);
        let before = self.places.len();
        let mut forgotten_before = 0;
        while let Some((_, page)) = self.waiting.pop_below(bound) {
            let Some(block) = self.places.get(&page).copied() else {
                continue;
            };
            let slot = block.slot();
            let kept = self.blocks.get_mut(slot).unwrap();
            if kept.held {
                kept.waits = false;
            } else if kept.last >= bound {
                let last = kept.last;
                self.waiting.push(last, page);
            } else {
                forgotten_before += one_if(kept.stamps[0] == 0);
                self.places.remove(&page);
                self.blocks.remove(slot);
            }
        }
        (before - self.places.len() - forgotten_before) as u64
    }
}

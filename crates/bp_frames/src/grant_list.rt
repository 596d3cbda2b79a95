//! `GrantList`: the passes, or the tickets of one kind, that are out.
ghost use Rattle.std.specs.Prelude.{◌≡◌, ◌<◌, ◌≤◌, ◌+◌, ◌^◌, ◌==◌, ◌&&◌, ◌++◌, ◌∷◌, [], not, All, filter, length};
ghost use Rattle.std.specs.Prelude.{IsTrue, IsFalse, IfOk, OnOk, IsOk, reverse, slice_get};
ghost use Rattle.bp_trail.specs.Event.{Grant, grant, same_grant};
ghost use Rattle.bp_trail.specs.Lists.{some};
ghost use Rattle.bp_trail.specs.Legal.{is_out};
ghost use Rattle.bp_frames.specs.GrantLists.{MayRise, IsFirstOut};
ghost use Rattle.bp_frames.specs.Rising.{IsRisingBy, IsPlaceFor, IsPlaceOf};
ghost use Rattle.bp_frames.specs.declared.grant_list.Slot.{Slot};

use bp_page::PageNo;
use bp_trail::Grant;
use std::alloc::{AllocError, Global};
use std::collections::VecDeque;
use std::marker::Model;

/// A grant, and whether it is out still.
#[derive(Clone, Copy)]
struct Slot {
    grant: Grant,
    is_out: bool,
}

/// The passes or tickets of a kind that are out, in the order in which they were given.
///
/// Their serial numbers rise: `give` asks for that, and `add` only notes whether they do. As long as they rise `has`
/// and `take_back` take O(log n) for n slots, `len`, `give` and `add` O(1). None of them moves a grant or takes memory:
/// a grant that is taken back leaves its slot, which keeps the order. A slot that was left goes once it is the oldest
/// or the newest, at most two of each at a call; so a list that is taken back from its ends alone has no such slots.
/// Once a number did not rise, and until the list is empty, `has` and `take_back` look at all slots, and the latter
/// closes those that were left.
///
/// `reserve` alone may move grants, and takes O(1) on average. Where room is wanted it first closes the slots that were
/// left, if they are half of all or more; where that is not enough, the list grows to at least twice its size.
#[derive(Drop)]
pub struct GrantList {
    slots: VecDeque<Slot>,
    /// The number of grants that are out.
    count: usize,
    /// True if each slot has a greater number than the one before it.
    is_rising: bool,
}

impl Model for GrantList {
    ghost use Rattle.std.specs.Prelude.{◌-◌};
    ghost use Rattle.std.specs.VecDeque.{deque_len, deque_capacity};
    ghost use Rattle.bp_frames.specs.GrantLists.{Given, given_by, AreInOrder};

    ghost Value = { Given };

    ghost view = { λ g. given_by g.slots.items (deque_capacity g.slots - deque_len g.slots) };

    ghost invariant = { λ g. AreInOrder g.slots.items g.count g.is_rising };
}

/// The place at which the slot of this number stands or would stand, by binary search.
fn place_for(slots: &VecDeque<Slot>, serial: u64) -> usize
    requires { IsRisingBy (λ (s : Slot). s.grant.serial) slots.now.items }
    ensures { IsPlaceFor (λ (s : Slot). s.grant.serial) slots.now.items serial result }
{
    slots.partition_point(|slot| slot.grant.serial < serial)
}

/// The place of the slot of this number, or `None` where it is not there.
fn find(slots: &VecDeque<Slot>, serial: u64) -> Option<usize>
    requires { IsRisingBy (λ (s : Slot). s.grant.serial) slots.now.items }
    ensures { IsPlaceOf (λ (s : Slot). s.grant.serial) slots.now.items serial result }
{
    let place = place_for(slots, serial);
    if place < slots.len() && slots[place].grant.serial == serial {
        Some(place)
    } else {
        None
    }
}

/// Returns true if the grant of a slot is out, and was given to this client for this page.
fn is_out_as(slot: &Slot, client: u8, page: PageNo) -> bool
    ensures { result ≡ (slot.now.is_out
        && ((client == slot.now.grant.client) && (page == slot.now.grant.page))) }
{
    slot.is_out && client == slot.grant.client && page == slot.grant.page
}

/// Returns true if this grant is out, found by a look at each slot.
fn is_among(slots: &VecDeque<Slot>, client: u8, page: PageNo, serial: u64) -> bool
    ensures { result ≡ some (λ s. s.is_out && same_grant (grant client page serial) s.grant)
        slots.now.items }
{
    slots.iter().any(|slot| is_this(slot, client, page, serial))
}

/// Returns true if the grant of a slot is out, and is this one.
fn is_this(slot: &Slot, client: u8, page: PageNo, serial: u64) -> bool
    ensures { result ≡ (slot.now.is_out
        && same_grant (grant client page serial) slot.now.grant) }
{
    is_out_as(slot, client, page) && serial == slot.grant.serial
}

/// Returns true if the grant of a slot is out, and has another number.
fn is_another(slot: &Slot, serial: u64) -> bool
    ensures { result ≡ (slot.now.is_out && not (slot.now.grant.serial == serial)) }
{
    slot.is_out && slot.grant.serial != serial
}

/// Returns true if the numbers rise with one slot more.
fn rises_with(slots: &VecDeque<Slot>, is_rising: bool, serial: u64) -> bool
    requires { MayRise is_rising slots.now.items }
    ensures { (slot : Slot) → slot.grant.serial ≡ serial →
        MayRise result (slots.now.items ++ slot ∷ []) }
{
    match slots.back() {
        Some(newest) => is_rising && newest.grant.serial < serial,
        None => true,
    }
}

/// The place of the first slot whose grant is out, or the number of slots.
fn first_out(slots: &VecDeque<Slot>) -> usize
    ensures { IsFirstOut slots.now.items result }
{
    let mut first = 0;
    while first < slots.len() && !slots[first].is_out {
        first += 1;
    }
    first
}

impl GrantList {
    ghost use Rattle.bp_frames.specs.GrantLists.{with_grant, GivesAsMuch};

    /// Makes an empty list with no room. It takes no memory.
    pub fn new(alloc: Global) -> GrantList
        ensures empty { result.out ≡ [] }
        ensures room { result.room ≡ 0 }
        ensures next { result.next ≡ 0 }
    {
        let mut slots = VecDeque::new(alloc);
        // This is the only call of std that promises to leave no memory.
        slots.shrink_to_fit();
        GrantList {
            slots,
            count: 0,
            is_rising: true,
        }
    }

    /// Makes an empty list with room for so many grants. It fails by want of memory alone.
    pub fn with_capacity(alloc: Global, room: usize) -> Result<GrantList, AllocError>
        ensures empty { IfOk result (λ g. g.out ≡ []) }
        ensures room { IfOk result (λ g. room ≤ g.room) }
        ensures next { IfOk result (λ g. g.next ≡ 0) }
    {
        Ok(GrantList {
            slots: VecDeque::with_capacity(alloc, room)?,
            count: 0,
            is_rising: true,
        })
    }

    pub fn len(&self) -> usize
        ensures count { result ≡ length self.now.out }
        ensures small { result < 2 ^ 63 }
    {
        self.count
    }

    /// Returns the grant that was given first, or `None` where none is out. It takes O(1) where no slots were left
    /// before it: see `trim_front`.
    pub fn oldest(&self) -> Option<Grant>
        ensures { result ≡ slice_get (reverse self.now.out) 0 }
    {
        let first = first_out(&self.slots);
        if first < self.slots.len() {
            Some(self.slots[first].grant)
        } else {
            None
        }
    }

    /// Returns true if the grant with this client, page and serial number is out. It is found by binary search as long
    /// as numbers rise, and else by a look at each slot.
    pub fn has(&self, client: u8, page: PageNo, serial: u64) -> bool
        ensures { result ≡ is_out (grant client page serial) self.now.out }
    {
        if !self.is_rising {
            return is_among(&self.slots, client, page, serial);
        }
        match find(&self.slots, serial) {
            Some(place) => is_out_as(&self.slots[place], client, page),
            None => false,
        }
    }

    /// Makes room for so many more. It fails by want of memory alone, and then the grants stay as they are.
    #[inline(always)]
    pub fn reserve(&mut self, additional: usize) -> Result<(), AllocError>
        ensures out { self.new.out ≡ self.old.out }
        ensures room { OnOk result (additional ≤ self.new.room) }
        ensures more { GivesAsMuch self.old self.new }
        ensures succeeds { additional ≤ self.old.room → IsOk result }
    {
        if self.free() < additional && self.count <= self.slots.len() / 2 {
            self.squeeze();
        }
        if additional <= self.free() {
            return Ok(());
        }
        // A deque grows in proportion to the slots in it, of which there may be few: so its capacity at least doubles.
        let growth = additional.saturating_add(self.slots.capacity());
        self.slots.reserve(growth)
    }

    /// The number of grants that may be added without memory.
    fn free(&self) -> usize
        ensures { result ≡ self.now.room }
    {
        self.slots.capacity() - self.slots.len()
    }

    /// Closes the slots of the grants that were taken back.
    fn squeeze(&mut self)
        ensures out { self.new.out ≡ self.old.out }
        ensures more { GivesAsMuch self.old self.new }
    {
        self.slots.retain(|slot| slot.is_out);
    }

    /// Adds the newest grant, whose number must be above all that were given. There must be room: it takes no memory.
    pub fn give(&mut self, client: u8, page: PageNo, serial: u64)
        requires newest { self.old.next ≤ serial }
        requires room { 0 < self.old.room }
        ensures { self.new ≡ with_grant self.old client page serial }
    {
        let grant = Grant {
            client,
            page,
            serial,
        };
        self.slots.push_back_reserved(Slot {
            grant,
            is_out: true,
        });
        self.count += 1;
    }

    /// Adds the newest grant, whatever its number. There must be room: it takes no memory.
    pub fn add(&mut self, grant: Grant)
        requires room { 0 < self.old.room }
        ensures out { self.new.out ≡ grant ∷ self.old.out }
        ensures room { self.new.room + 1 ≡ self.old.room }
    {
        self.is_rising = rises_with(&self.slots, self.is_rising, grant.serial);
        self.slots.push_back_reserved(Slot {
            grant,
            is_out: true,
        });
        self.count += 1;
    }

    /// Takes back the grant with this client, page and serial number. Returns true if it was out; else nothing changes.
    /// It leaves no less room. The grant is found by binary search as long as numbers rise; where they do not, all of
    /// its number go.
    pub fn take_back(&mut self, client: u8, page: PageNo, serial: u64) -> bool
        ensures was { result ≡ is_out (grant client page serial) self.old.out }
        ensures out { IsTrue result → self.new.out
            ≡ filter (λ g. not (g.serial == serial)) self.old.out }
        ensures more { GivesAsMuch self.old self.new }
        ensures same { IsFalse result → self.new ≡ self.old }
    {
        if !self.mark(client, page, serial) {
            return false;
        }
        // At each end up to two slots that were left go: more than this call left, so that they do not gather there,
        // and no more, so that the call takes O(log n).
        self.trim();
        self.trim();
        true
    }

    /// `take_back` where the numbers do not rise. It looks at each slot, and closes those that were left.
    fn remove_each(&mut self, client: u8, page: PageNo, serial: u64) -> bool
        ensures was { result ≡ is_out (grant client page serial) self.old.out }
        ensures out { IsTrue result → self.new.out
            ≡ filter (λ g. not (g.serial == serial)) self.old.out }
        ensures more { GivesAsMuch self.old self.new }
        ensures same { IsFalse result → self.new ≡ self.old }
    {
        if !is_among(&self.slots, client, page, serial) {
            return false;
        }
        self.close_each(serial);
        true
    }

    /// Closes each slot of this number, and those that were left.
    fn close_each(&mut self, serial: u64)
        ensures out { self.new.out ≡ filter (λ g. not (g.serial == serial)) self.old.out }
        ensures more { GivesAsMuch self.old self.new }
    {
        self.slots.retain(|slot| is_another(slot, serial));
        self.count = self.slots.len();
    }

    /// What `add` and then `take_back` of a grant of this number would leave: each grant of the number goes. It leaves no
    /// less room, and takes O(1) where the number is above all in a list whose numbers rise.
    pub fn pass_by(&mut self, serial: u64)
        ensures out { self.new.out ≡ filter (λ g. not (g.serial == serial)) self.old.out }
        ensures more { GivesAsMuch self.old self.new }
    {
        if !rises_with(&self.slots, self.is_rising, serial) {
            self.close_each(serial);
        }
    }

    /// Marks this grant as taken back, or removes it where the numbers do not rise, and returns true if it was out.
    fn mark(&mut self, client: u8, page: PageNo, serial: u64) -> bool
        ensures was { result ≡ is_out (grant client page serial) self.old.out }
        ensures out { IsTrue result → self.new.out
            ≡ filter (λ g. not (g.serial == serial)) self.old.out }
        ensures more { GivesAsMuch self.old self.new }
        ensures same { IsFalse result → self.new ≡ self.old }
    {
        if !self.is_rising {
            return self.remove_each(client, page, serial);
        }
        let Some(place) = find(&self.slots, serial) else {
            return false;
        };
        if !is_out_as(&self.slots[place], client, page) {
            return false;
        }
        self.slots[place].is_out = false;
        self.count -= 1;
        true
    }

    /// Drops the slots that were left before the first grant that is out. It takes O(1) on average, since each slot
    /// goes once.
    pub fn trim_front(&mut self)
        ensures out { self.new.out ≡ self.old.out }
        ensures more { GivesAsMuch self.old self.new }
    {
        for _ in 0..first_out(&self.slots) {
            self.drop_oldest();
        }
    }

    /// Drops the oldest slot and the newest, if their grants were taken back.
    fn trim(&mut self)
        ensures out { self.new.out ≡ self.old.out }
        ensures more { GivesAsMuch self.old self.new }
    {
        self.drop_oldest();
        self.drop_newest();
    }

    fn drop_oldest(&mut self)
        ensures out { self.new.out ≡ self.old.out }
        ensures more { GivesAsMuch self.old self.new }
    {
        let Some(oldest) = self.slots.front() else {
            return;
        };
        if !oldest.is_out {
            self.slots.pop_front();
        }
    }

    fn drop_newest(&mut self)
        ensures out { self.new.out ≡ self.old.out }
        ensures more { GivesAsMuch self.old self.new }
    {
        let Some(newest) = self.slots.back() else {
            return;
        };
        if !newest.is_out {
            self.slots.pop_back();
        }
    }
}

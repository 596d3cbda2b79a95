//! `HeldList`: the passes that a script's clients hold, with the latest of each client and page at hand.
ghost use Rattle.std.specs.Prelude.{◌≡◌, ◌≤◌, ◌<◌, ◌+◌, ◌++◌, ◌∷◌, [], ◌==◌, ℕ, not, find, filter, reverse};
ghost use Rattle.std.specs.Prelude.{length, if◌then◌else◌, vec_len, vec_capacity};
ghost use Rattle.std.specs.Prelude.{IfNone, IfSome, IsSome, IsTrue, OnOk};
ghost use Rattle.std.specs.HashMap.{get, spare};
ghost use Rattle.bp_scripts.specs.Script.{is_pass_of};
ghost use Rattle.bp_replay.specs.declared.held_list.Slot.{Slot};
ghost use Rattle.bp_replay.specs.HeldLists.{passes_in, same_key};
ghost use Rattle.bp_replay.specs.Rows.{SerialsDiffer};

use bp_core::PassNote;
use bp_page::PageNo;
use std::alloc::{AllocError, Global};
use std::collections::HashMap;
use std::marker::Model;

/// A client and the number of a page.
type Key = (u8, u64);

/// A pass that was taken.
#[derive(Clone, Copy)]
struct Slot {
    note: PassNote,
    /// True as long as it is held.
    is_held: bool,
    /// The place of the pass that was its client's latest of the page before it.
    previous: Option<usize>,
}

/// The passes that are held, in the order taken.
///
/// `latest`, `push` and `take_latest` take O(1) on average, whatever is held: they look at no other pass, move none and
/// take no memory. A pass that goes back leaves its slot, which keeps the order of the others. So the list takes memory
/// for each pass that was taken.
#[derive(Drop)]
pub struct HeldList {
    slots: Vec<Slot>,
    /// For each client and page, the place of the latest pass that it took and holds.
    latest: HashMap<Key, usize>,
}

impl Model for HeldList {
    ghost use Rattle.std.specs.Prelude.{◌≡◌, ◌-◌, min, reverse, vec_len, vec_capacity};
    ghost use Rattle.std.specs.HashMap.{spare};
    ghost use Rattle.bp_replay.specs.HeldLists.{HeldValue, passes_in, AreLinked, FindsNewest};

    ghost Value = { HeldValue };

    ghost view = { λ h. record {
      passes = passes_in h.slots.items;
      room = min (vec_capacity h.slots - vec_len h.slots) (spare h.latest);
    } };

    ghost invariant = { λ h. AreLinked (reverse h.slots.items)
        × FindsNewest h.latest (reverse h.slots.items) };
}

/// The client and the page of the pass.
fn key_of(note: &PassNote) -> Key
    ensures { result ≡ (note.now.client, note.now.page) }
{
    (note.client(), note.page().number())
}

/// The place of the latest pass of a client and page.
fn place_of(latest: &HashMap<Key, usize>, key: Key) -> Option<usize>
    ensures { result ≡ get same_key latest.now key }
{
    latest.get(&key).copied()
}

/// Changes the place of the latest pass of a client and page, or removes it.
fn relink(latest: &mut HashMap<Key, usize>, key: Key, place: Option<usize>)
    requires there { IsSome (get same_key latest.old key) }
    ensures places { (q : ℕ × ℕ) → get same_key latest.new q ≡
        (if same_key key q then place else get same_key latest.old q) }
    ensures spare { spare latest.old ≤ spare latest.new }
{
    match place {
        Some(place) => {
            if let Some(newest) = latest.get_mut(&key) {
                *newest = place;
            }
        }
        None => {
            latest.remove(&key);
        }
    }
}

/// Adds the slot's note, if its pass is held.
fn add_held(notes: &mut Vec<PassNote>, slot: &Slot)
    requires room { IsTrue slot.now.is_held → vec_len notes.old < vec_capacity notes.old }
    ensures notes { notes.new.items ≡ notes.old.items ++
        (if slot.now.is_held then slot.now.note ∷ [] else []) }
    ensures capacity { vec_capacity notes.new ≡ vec_capacity notes.old }
{
    if slot.is_held {
        notes.push_reserved(slot.note);
    }
}

/// Adds the notes of the slots whose passes are held to an empty list that has room for them.
fn copy_held(slots: &[Slot], notes: &mut Vec<PassNote>)
    requires empty { notes.old.items ≡ [] }
    requires room { length (passes_in slots.now) ≤ vec_capacity notes.old }
    ensures notes { notes.new.items ≡ passes_in slots.now }
{
    for slot in slots {
        add_held(notes, slot);
    }
}

impl HeldList {
    /// Makes an empty list. It takes no memory.
    pub fn new(alloc: Global) -> HeldList
        ensures passes { result.passes ≡ [] }
    {
        HeldList {
            slots: Vec::new(alloc),
            latest: HashMap::new(alloc),
        }
    }

    /// Makes room for so many more. Where memory is refused the passes stay, with no less room.
    pub fn reserve(&mut self, more: usize) -> Result<(), AllocError>
        ensures passes { self.new.passes ≡ self.old.passes }
        ensures room { OnOk result (more ≤ self.new.room) }
        ensures no_less { self.old.room ≤ self.new.room }
    {
        self.slots.reserve(more)?;
        self.latest.reserve(more)
    }

    /// Returns the pass of the page that the client took latest and holds.
    pub fn latest(&self, client: u8, page: PageNo) -> Option<PassNote>
        ensures { result ≡ find (is_pass_of client page) (reverse self.now.passes) }
    {
        let Some(place) = place_of(&self.latest, (client, page.number())) else {
            return None;
        };
        Some(self.slots[place].note)
    }

    /// Adds the pass taken latest. There must be room: it takes no memory.
    pub fn push(&mut self, note: PassNote)
        requires room { 0 < self.old.room }
        ensures passes { self.new.passes ≡ self.old.passes ++ note ∷ [] }
        ensures room { self.old.room ≤ self.new.room + 1 }
    {
        let place = self.slots.len();
        let Ok(previous) = self.latest.insert(key_of(&note), place) else {
            unreachable!()
        };
        self.slots.push_reserved(Slot {
            note,
            is_held: true,
            previous,
        });
    }

    /// Takes out the pass of the page that the client took latest, and returns its note. Where the client holds none of
    /// the page, nothing changes.
    pub fn take_latest(&mut self, client: u8, page: PageNo) -> Option<PassNote>
        requires differ { SerialsDiffer self.old.passes }
        ensures note { result ≡ find (is_pass_of client page) (reverse self.old.passes) }
        ensures taken { IfSome result (λ note. self.new.passes ≡
            filter (λ g. not (g.serial == note.serial)) self.old.passes) }
        ensures none { IfNone result (self.new.passes ≡ self.old.passes) }
        ensures room { self.old.room ≤ self.new.room }
    {
        let Some(place) = place_of(&self.latest, (client, page.number())) else {
            return None;
        };
        let slot = self.slots[place];
        self.slots[place].is_held = false;
        relink(&mut self.latest, key_of(&slot.note), slot.previous);
        Some(slot.note)
    }

    /// Adds the notes of all passes to an empty list that has room for them.
    pub(crate) fn copy_to(&self, notes: &mut Vec<PassNote>)
        requires empty { notes.old.items ≡ [] }
        requires room { length self.now.passes ≤ vec_capacity notes.old }
        ensures notes { notes.new.items ≡ self.now.passes }
    {
        copy_held(&self.slots, notes);
    }
}

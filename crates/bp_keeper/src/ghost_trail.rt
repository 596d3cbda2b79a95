//! A trail that stands in proofs alone, and an image. Each of the five functions that make ghost data stands in this
//! file, to be read by eye.
//!
//! A `GhostTrail` and a `GhostImage` have no bytes, and their functions do nothing when they run. Their proofs, by
//! hand, pick the list that the clause names, and no memory of the program ties it down. So a reviewer has to see
//! that the clause of each says what its name says: no entries; these entries after them; this entry after them, with
//! its bytes or with borrowed ones; the bytes of this image.
//!
//! What is proved over such a list is not vacuous. The outcome of each call of a core says which entry the list gets:
//! the call and its arguments, with the very answer that the caller was given. The list stays legal, and in a legal
//! list each answer is the one that the entries before it give. So the list binds the answers, which are real,
//! whether some memory has it or not. A keeper that left an entry out, or added one too many, would break the
//! contract of [`Keeper`], as the edits in `must-fail` show. And the proof is one for every keeper, also for the one
//! that has all in memory.
//!
//! [`Keeper`]: crate::Keeper
ghost use Rattle.std.specs.Prelude.{◌≡◌, ℕ, List, [], ◌∷◌, ◌++◌, reverse};
ghost use Rattle.std.specs.Borrow.{ftrue};
ghost use Rattle.bp_trail.specs.Trail.{Trail};

use bp_page::{Image, Lsn};
use bp_trail::{Call, Entry, Grant};
use std::marker::{Model, Send};

/// Entries, newest first. They stand in proofs alone, and take no memory.
#[derive(Drop)]
pub struct GhostTrail {
    pub ghost past: { Trail },
}

impl Model for GhostTrail {
    ghost also_owns = { λ _. ftrue };
}

// It owns nothing.
unsafe impl Send for GhostTrail {}

/// The bytes of an image. They stand in proofs alone, and take no memory.
#[derive(Drop)]
pub struct GhostImage {
    pub ghost bytes: { List ℕ },
}

impl Model for GhostImage {
    ghost also_owns = { λ _. ftrue };
}

/// An entry whose bytes someone else keeps, or nobody.
#[derive(Drop)]
pub(crate) struct Shown<'a> {
    pub(crate) grant: Grant,
    pub(crate) event: Event,
    pub(crate) bytes: &'a [u8],
}

/// What was done by a pass, or by the call that gave a ticket.
#[derive(Drop)]
pub(crate) enum Event {
    Read,
    Write { offset: u32, lsn: Lsn },
    /// The image moved on before the number of its pass was known.
    Load { pass: u64, image: GhostImage },
    BeginWrite(Call),
}

impl GhostTrail {
    ghost use Rattle.bp_keeper.specs.Shown.{shown_entry};

    /// Begins a list with no entries.
    pub fn nothing() -> GhostTrail
        ensures { result.past ≡ [] }
    {
        GhostTrail {}
    }

    /// The list with these entries after it, of which the vector has the oldest first.
    pub fn then(&self, _entries: &Vec<Entry>) -> GhostTrail
        ensures { result.past ≡ reverse _entries.now.items ++ self.now.past }
    {
        GhostTrail {}
    }

    /// The list with this entry after it.
    #[inline(always)]
    pub(crate) fn then_one(&self, _entry: &Entry) -> GhostTrail
        ensures { result.past ≡ _entry.now ∷ self.now.past }
    {
        GhostTrail {}
    }

    /// The list with this entry after it, whose bytes someone else keeps.
    #[inline(always)]
    pub(crate) fn then_shown(&self, _shown: &Shown<'_>) -> GhostTrail
        ensures { result.past ≡ shown_entry _shown.now ∷ self.now.past }
    {
        GhostTrail {}
    }
}

impl GhostImage {
    /// The bytes of this image.
    #[inline(always)]
    pub(crate) fn of(_image: &Image) -> GhostImage
        ensures { result.bytes ≡ _image.now }
    {
        GhostImage {}
    }
}

//! The entries that a judge was told, which stand in proofs alone. Both functions that make such a list stand in this
//! file, to be read by eye.
//!
//! A `Told` has no bytes, and its functions do nothing when they run. Their proofs, by hand, pick the list that the
//! clause names, and no memory of the program ties it down. So a reviewer has to see that the clause of each says what
//! its name says: no entries; this entry after them.
ghost use Rattle.std.specs.Prelude.{◌≡◌, [], ◌∷◌};
ghost use Rattle.std.specs.Borrow.{ftrue};
ghost use Rattle.bp_trail.specs.Trail.{Trail};

use bp_trail::Entry;
use std::marker::Model;

/// Entries, newest first. They stand in proofs alone, and take no memory.
#[derive(Drop)]
pub(crate) struct Told {
    pub(crate) ghost past: { Trail },
}

impl Model for Told {
    ghost also_owns = { λ _. ftrue };
}

impl Told {
    /// Begins a list with no entries.
    pub(crate) fn nothing() -> Told
        ensures { result.past ≡ [] }
    {
        Told {}
    }

    /// The list with this entry after it.
    pub(crate) fn then(&self, _entry: &Entry) -> Told
        ensures { result.past ≡ _entry.now ∷ self.now.past }
    {
        Told {}
    }
}

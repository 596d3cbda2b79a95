//! `Keeper`: the interface by which a core adds entries to its trail.
ghost use Rattle.std.specs.Prelude.{◌≡◌, ℕ, ◌^◌, ◌<◌, ◌≤◌, Bool, false, List, length, IsOk, IfOk};
ghost use Rattle.bp_trail.specs.declared.entries.Reply.TheVariants.{Done, Content, Fixed};
ghost use Rattle.bp_trail.specs.Totals.{totals_of};

use bp_page::{Image, Lsn};
use bp_trail::{Call, Grant, Reply, Totals};
use std::alloc::{AllocError, Global};

/// Keeps the entries of a trail, in memory or for the proofs alone.
///
/// What an entry needs beside what its caller has is taken beforehand, as a *spare*. So to add an entry takes no
/// memory.
pub trait Keeper: Drop {
    ghost use Rattle.bp_keeper.specs.Kept.{Kept, IsEmpty, with_next, read_by, write_by};
    ghost use Rattle.bp_keeper.specs.Kept.{read_end, write_first};

    /// What an entry with an image needs beside the image that its caller has.
    type SpareImage: Drop;

    /// What an entry with bytes needs beside the bytes that its caller has.
    type SpareBytes: Drop;

    /// The most entries that there may be room for.
    ghost MOST_ROOM: { ℕ };

    const MOST_ROOM: usize;

    /// True if it may refuse for want of memory. A keeper that takes no memory refuses nothing.
    ghost REFUSES: { Bool };

    /// The entries, newest first, and the room for them.
    ghost kept: { Self → Kept };

    /// The spare suffices for an entry with this image.
    ghost serves_image: { Self.SpareImage → List ℕ → Type 0 };

    /// The spare suffices for an entry with these bytes.
    ghost serves_bytes: { Self.SpareBytes → List ℕ → Type 0 };

    /// Makes a keeper with no entries and room for so many. It fails by want of memory alone.
    fn with_capacity(alloc: Global, room: usize) -> Result<Self, AllocError>
        ensures empty { IfOk result (λ t. IsEmpty (kept t)) }
        ensures room { IfOk result (λ t. room ≤ (kept t).capacity) }
        ensures memory { REFUSES ≡ false → IsOk result };

    /// Takes what an entry with this image will need. It fails by want of memory alone.
    fn spare_image(alloc: Global, image: &Image) -> Result<Self::SpareImage, AllocError>
        ensures serves { IfOk result (λ spare. serves_image spare image.now) }
        ensures memory { REFUSES ≡ false → IsOk result };

    /// Takes what an entry with these bytes will need. It fails by want of memory alone.
    fn spare_bytes(alloc: Global, bytes: &[u8]) -> Result<Self::SpareBytes, AllocError>
        ensures serves { IfOk result (λ spare. serves_bytes spare bytes.now) }
        ensures memory { REFUSES ≡ false → IsOk result };

    /// Returns the number of entries since the last cut.
    fn len(&self) -> usize
        ensures { result ≡ (kept self.now).len };

    /// Returns the number of replies of each kind since the trail was begun, cut or not. It is right as long as these
    /// are fewer than 2^64 entries.
    fn totals(&self) -> Totals
        ensures { length (kept self.now).past < 2 ^ 64 → result ≡ totals_of (kept self.now).past };

    /// Adds an entry, which takes no memory.
    fn record(&mut self, client: u8, call: Call, reply: Reply)
        requires { (kept self.old).len < (kept self.old).capacity }
        ensures { kept self.new ≡ with_next (kept self.old) client call reply };

    /// Adds the entry of a read by a pass, which takes no memory.
    fn record_read(&mut self, pass: Grant, image: &Image, spare: Self::SpareImage)
        requires room { (kept self.old).len < (kept self.old).capacity }
        requires spare { serves_image spare image.now }
        ensures { kept self.new ≡ with_next (kept self.old) pass.client (read_by pass)
            (Content image.now) };

    /// Adds the entry of a write by a pass, which takes no memory.
    fn record_write(
        &mut self,
        pass: Grant,
        offset: u32,
        bytes: &[u8],
        lsn: Lsn,
        spare: Self::SpareBytes,
    )
        requires room { (kept self.old).len < (kept self.old).capacity }
        requires spare { serves_bytes spare bytes.now }
        ensures { kept self.new ≡ with_next (kept self.old) pass.client
            (write_by pass offset bytes.now lsn) Done };

    /// Adds the entry of a read that ended well, by its ticket, with the image that it found and the pass that it
    /// gives. It takes no memory. The image that is left of the page's frame is the entry's, or comes back.
    fn record_read_end(
        &mut self,
        ticket: Grant,
        pass: u64,
        image: &Image,
        left: Image,
    ) -> Option<Image>
        requires room { (kept self.old).len < (kept self.old).capacity }
        requires size { length left ≡ length image.now }
        ensures { kept self.new ≡ with_next (kept self.old) ticket.client
            (read_end ticket image.now) (Fixed pass) };

    /// Adds the entry of a call by which a write-out begins, with the ticket that it gives. It takes no memory.
    fn record_begin(&mut self, call: Call, ticket: Grant, image: &Image, spare: Self::SpareImage)
        requires room { (kept self.old).len < (kept self.old).capacity }
        requires spare { serves_image spare image.now }
        ensures { kept self.new ≡ with_next (kept self.old) ticket.client call
            (write_first ticket image.now) };

    /// No serial number overflows within the room.
    ghost few: { MOST_ROOM ≤ 2 ^ 61 };
}

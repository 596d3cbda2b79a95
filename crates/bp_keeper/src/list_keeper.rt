//! `ListKeeper`: the interface by which a client of a shared pool adds entries to its own list.
ghost use Rattle.std.specs.Prelude.{◌≡◌, ℕ, ◌+◌, ◌^◌, ◌<◌, ◌≤◌, false, List, length, Some, IsOk, IfOk, OnOk};
ghost use Rattle.bp_trail.specs.declared.entries.Reply.TheVariants.{Fixed};

use crate::keeper::Keeper;
use bp_page::{Geometry, Image};
use bp_trail::Grant;
use std::alloc::{AllocError, Global};

/// Keeps the entries of a client's own list. Its room grows, and the spare for an image is taken before the image is
/// known.
pub trait ListKeeper: Keeper {
    ghost use Rattle.bp_keeper.specs.Kept.{Kept, IsEmpty, with_next, with_capacity, read_end};

    /// What becomes a spare for an image, which is not known yet.
    type Blank: Drop;

    /// It becomes a spare for an image of so many bytes.
    ghost fits: { Self.Blank → ℕ → Type 0 };

    /// The image that a spare will do for.
    ghost image_of: { Self.SpareImage → List ℕ };

    /// Makes a keeper with no entries and no room. It takes no memory.
    fn empty(alloc: Global) -> Self
        ensures empty { IsEmpty (Self.kept result) }
        ensures room { (Self.kept result).capacity ≡ 0 };

    /// Makes room for so many more. Where memory is refused there is no less room than before.
    fn reserve(&mut self, more: usize) -> Result<(), AllocError>
        ensures same { Self.kept self.new
            ≡ with_capacity (Self.kept self.old) (Self.kept self.new).capacity }
        ensures grows { (Self.kept self.old).capacity ≤ (Self.kept self.new).capacity }
        ensures room { OnOk result
            ((Self.kept self.old).len + more ≤ (Self.kept self.new).capacity) }
        ensures memory { Self.REFUSES ≡ false → (Self.kept self.old).len + more < 2 ^ 64
            → IsOk result };

    /// Makes a blank for an image of a page. It fails by want of memory alone.
    fn blank(alloc: Global, geometry: &Geometry) -> Result<Self::Blank, AllocError>
        ensures fits { IfOk result (λ blank. fits blank geometry.now.size) }
        ensures memory { Self.REFUSES ≡ false → IsOk result };

    /// Makes of a blank the spare for this image. It takes no memory.
    fn fill(blank: Self::Blank, image: &Image) -> Self::SpareImage
        requires { fits blank (length image.now) }
        ensures serves { Self.serves_image result image.now }
        ensures image { image_of result ≡ image.now };

    /// Makes of a spare that was not used a blank again.
    fn clear(spare: Self::SpareImage) -> Self::Blank
        ensures { fits result (length (image_of spare)) };

    /// Adds the entry of a read that ended well, with the image of the spare. It takes no memory.
    fn record_load(&mut self, ticket: Grant, pass: u64, spare: Self::SpareImage)
        requires { (Self.kept self.old).len < (Self.kept self.old).capacity }
        ensures { Self.kept self.new ≡ with_next (Self.kept self.old) ticket.client
            (read_end ticket (image_of spare)) (Fixed pass) };
}

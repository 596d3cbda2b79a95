//! `Store`: what the bytes of a page file stand in, such as a file.

use std::fs::OpenFile;
use std::io;
use std::os::unix::fs::FileExt;

/// What the bytes of a page file stand in: a file, or something else that reads and writes bytes at a place.
///
/// A store says by three relations of its own which calls led from it, as it was, to it, as it is. What is promised by
/// them of any store can be kept only by these calls.
pub trait Store: Drop {
    ghost use Rattle.std.specs.Prelude.{ℕ, Bool, List, is_ok};

    // A read from a byte on gives these bytes, and is good or not, and leaves the store so.
    ghost reads: { Self → ℕ → List ℕ → Bool → Self → Type 0 };
    // A write from a byte on, of these bytes, is good or not, and leaves the store so.
    ghost writes: { Self → ℕ → List ℕ → Bool → Self → Type 0 };
    // A sync is good or not, and leaves the store so.
    ghost syncs: { Self → Bool → Self → Type 0 };

    /// Reads as many bytes as there is room for, from this one on. A read of fewer is an error.
    fn read_slot(&mut self, start: u64, room: &mut [u8]) -> io::Result<()>
        ensures { reads self.old start room.new (is_ok result) self.new };

    /// Writes the bytes from this one on. A write of fewer is an error.
    fn write_slot(&mut self, start: u64, bytes: &[u8]) -> io::Result<()>
        ensures { writes self.old start bytes.now (is_ok result) self.new };

    /// Makes durable all bytes that were written.
    fn sync_slots(&mut self) -> io::Result<()>
        ensures { syncs self.old (is_ok result) self.new };
}

// A read or write of a part goes on with the rest, and one that was interrupted is made once more. A page file keeps
// its length, so a sync is one of its data; a new file's length goes out with its data, which cannot be read without.
impl<F: FileExt + OpenFile + Drop> Store for F {
    ghost use Rattle.bp_ports.specs.Files.{any_transfer, any_sync};

    ghost reads = { any_transfer };

    ghost writes = { any_transfer };

    ghost syncs = { any_sync };

    fn read_slot(&mut self, start: u64, room: &mut [u8]) -> io::Result<()> {
        self.read_exact_at(room, start)
    }

    fn write_slot(&mut self, start: u64, bytes: &[u8]) -> io::Result<()> {
        self.write_all_at(bytes, start)
    }

    fn sync_slots(&mut self) -> io::Result<()> {
        self.sync_data()
    }
}

//! `LogStore`: what a log stands in, beside the pages of a device.

use bp_ports::Store;
use std::io;

/// What a log stands in, as a `Store`, beside the pages of a device `P`. Each call is shown how the device stands
/// meanwhile.
///
/// A store need not look at it. But its relations may tell of it, and what is promised by them of any store can be kept
/// only where each call is made while the device stands so: this is how contracts tell what was called before what.
pub trait LogStore<P>: Drop {
    ghost use Rattle.std.specs.Prelude.{ℕ, Bool, List, is_ok};

    // By how the device stands: a read from a byte on gives these bytes, and is good or not, and leaves the store so.
    ghost reads: { P → Self → ℕ → List ℕ → Bool → Self → Type 0 };
    // So: a write from a byte on, of these bytes, is good or not, and leaves the store so.
    ghost writes: { P → Self → ℕ → List ℕ → Bool → Self → Type 0 };
    // So: a sync is good or not, and leaves the store so.
    ghost syncs: { P → Self → Bool → Self → Type 0 };

    /// Reads as many bytes as there is room for, from this one on. A read of fewer is an error.
    fn read_bytes(&mut self, pages: &P, start: u64, room: &mut [u8]) -> io::Result<()>
        ensures { reads pages.now self.old start room.new (is_ok result) self.new };

    /// Writes the bytes from this one on. A write of fewer is an error.
    fn write_bytes(&mut self, pages: &P, start: u64, bytes: &[u8]) -> io::Result<()>
        ensures { writes pages.now self.old start bytes.now (is_ok result) self.new };

    /// Makes durable all bytes that were written.
    fn sync_bytes(&mut self, pages: &P) -> io::Result<()>
        ensures { syncs pages.now self.old (is_ok result) self.new };
}

impl<P, S: Store> LogStore<P> for S {
    ghost reads = { λ pages. S.reads };

    ghost writes = { λ pages. S.writes };

    ghost syncs = { λ pages. S.syncs };

    fn read_bytes(&mut self, _pages: &P, start: u64, room: &mut [u8]) -> io::Result<()> {
        self.read_slot(start, room)
    }

    fn write_bytes(&mut self, _pages: &P, start: u64, bytes: &[u8]) -> io::Result<()> {
        self.write_slot(start, bytes)
    }

    fn sync_bytes(&mut self, _pages: &P) -> io::Result<()> {
        self.sync_slots()
    }
}

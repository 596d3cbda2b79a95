//! The calls that make one event: `tick`, `purge`, and reads and writes by a pass.
ghost use Rattle.std.specs.Prelude.{◌≡◌};

use super::SharedPool;
use crate::names::PartNames;
use crate::session::Session;
use bp_core::Pass;
use bp_keeper::ListKeeper;
use bp_page::{Bytes, Image, Lsn, Refusal};
use bp_session_log::{Purge, Room, Tick};
use std::sync::Wait;

impl<N: PartNames, K: ListKeeper> SharedPool<N, K> {
    ghost use Rattle.std.specs.Prelude.{◌≡◌, ◌+◌, ◌≤◌, false, length, IfOk};
    ghost use Rattle.bp_session_log.specs.Turns.{ReadIntoSaid, WriteSaid};
    ghost use Rattle.bp_shared.specs.Calls.{LooksIn, PurgesIn, ReadsIn, TicksIn};
    ghost use Rattle.bp_shared.specs.Sessions.{IsLong};

    /// Moves the clock on by `n` ticks. `OutOfMemory`, `TrailFull` and `ClockFull` change nothing. A silent session wants
    /// no memory for it: it answers `OutOfMemory` only where its list has 2^61 entries or more.
    pub fn tick<R: Wait>(&self, rt: &R, session: &mut Session<N, K>, n: u64) -> Result<(), Refusal>
        ensures { TicksIn K.REFUSES N.parameters N.past n result session.old session.new }
    {
        self.make(rt, session, Tick(n))
    }

    /// Forgets old references, and returns the number of their pages. `OutOfMemory` and `TrailFull` change nothing. A
    /// silent session answers `OutOfMemory` as from `tick`.
    pub fn purge<R: Wait>(&self, rt: &R, session: &mut Session<N, K>) -> Result<u64, Refusal>
        ensures { PurgesIn K.REFUSES N.parameters N.past result session.old session.new }
    {
        self.make(rt, session, Purge)
    }

    /// Returns a copy of the image of a pass's page. `UnknownPass`, before all else, where the pass is another
    /// client's, and where the pool does not know it; `OutOfMemory`, which may come before the pool is asked, and
    /// `TrailFull`. All change nothing. The copy takes memory in every pool: of a roomy silent session `OutOfMemory`
    /// comes only for a pass that is out.
    pub fn read<R: Wait>(
        &self,
        rt: &R,
        session: &mut Session<N, K>,
        pass: &Pass,
    ) -> Result<Image, Refusal>
        ensures size { IfOk result (λ image. length image ≡ N.parameters.size) }
        ensures read { ReadsIn K.REFUSES N.parameters N.past pass.now result
            session.old session.new }
    {
        if pass.client() != session.client() {
            return Err(Refusal::UnknownPass);
        }
        session.book.reserve(Room::IMAGE)?;
        let mut state = self.lock_and_drain(rt, session);
        state.read(session, pass)
    }

    /// Copies bytes of a pass's page, from the offset on, as many as `into` has. Refused as `read` is, which leaves the
    /// bytes that were there. A silent pool copies them alone while it holds its lock, and takes no memory there. A
    /// silent session that is roomy answers `OutOfMemory` as from `tick`: so does each that was given a pass.
    pub fn read_into<R: Wait>(
        &self,
        rt: &R,
        session: &mut Session<N, K>,
        pass: &Pass,
        offset: u32,
        into: &mut [u8],
    ) -> Result<(), Refusal>
        requires fits { offset + length into.old ≤ N.parameters.size }
        ensures look { LooksIn K.REFUSES N.parameters N.past pass.now result
            session.old session.new }
        ensures outcome { ReadIntoSaid session.old.client pass.now offset into.old result into.new
            session.old.said session.new.said }
    {
        if pass.client() != session.client() {
            return Err(Refusal::UnknownPass);
        }
        session.book.reserve(Room::IMAGE)?;
        let mut state = self.lock_and_drain(rt, session);
        state.read_into(session, pass, offset, into)
    }

    /// Writes bytes into a pass's page as `write_from` does, refusals too: bytes that own their memory, as a row has them.
    pub fn write<R: Wait>(
        &self,
        rt: &R,
        session: &mut Session<N, K>,
        pass: &Pass,
        offset: u32,
        bytes: &Bytes,
        lsn: Lsn,
    ) -> Result<(), Refusal>
        requires fits { offset + length bytes.now ≤ N.parameters.size }
        ensures look { LooksIn K.REFUSES N.parameters N.past pass.now result
            session.old session.new }
        ensures outcome { WriteSaid session.old.client pass.now offset bytes.now lsn result
            session.old.said session.new.said }
        ensures memory { K.REFUSES ≡ false → result ≡ Err Refusal.OutOfMemory
            → IsLong session.new }
    {
        self.write_from(rt, session, pass, offset, bytes.bytes(), lsn)
    }

    /// Writes bytes into a pass's page, from the offset on, and raises the page LSN to `lsn` if that is greater.
    /// Refusals as from `read`; a silent session takes no memory for the bytes, and answers `OutOfMemory` as from `tick`.
    /// So between a log record and its write nothing of a silent session is refused for want of memory.
    pub fn write_from<R: Wait>(
        &self,
        rt: &R,
        session: &mut Session<N, K>,
        pass: &Pass,
        offset: u32,
        bytes: &[u8],
        lsn: Lsn,
    ) -> Result<(), Refusal>
        requires fits { offset + length bytes.now ≤ N.parameters.size }
        ensures look { LooksIn K.REFUSES N.parameters N.past pass.now result
            session.old session.new }
        ensures outcome { WriteSaid session.old.client pass.now offset bytes.now lsn result
            session.old.said session.new.said }
        ensures memory { K.REFUSES ≡ false → result ≡ Err Refusal.OutOfMemory
            → IsLong session.new }
    {
        if pass.client() != session.client() {
            return Err(Refusal::UnknownPass);
        }
        let spare = K::spare_bytes(self.alloc, bytes)?;
        session.book.reserve(Room::ENTRY)?;
        let mut state = self.lock_and_drain(rt, session);
        state.write(session, pass, offset, bytes, lsn, spare)
    }
}

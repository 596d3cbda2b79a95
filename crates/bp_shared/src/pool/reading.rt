//! Reads of shared pages by their numbers: a fix, a read and an unfix in one call.
ghost use Rattle.std.specs.Prelude.{◌≡◌, ◌≢◌, ◌⊎◌, ◌+◌, ◌≤◌, ◌<◌, false, true, length, IsOk};
ghost use Rattle.bp_trail.specs.Places.{resident};
ghost use Rattle.bp_trail.specs.declared.entries.Call.TheVariants as Call;
ghost use Rattle.bp_core.specs.Outcomes.{pass_is_out};
ghost use Rattle.bp_shared.specs.Sessions.{DoesWorkSaid, IsLong, IsRoomy, IsRoomyFor};
ghost use Rattle.bp_shared.specs.Sessions.{LookSaid, PageReadSaid, ReadAndUnfixSaid};
ghost use Rattle.bp_shared.specs.Calls.{PageReadsIn};
ghost use Rattle.bp_shared.specs.Writing.{WithLsnSeen};
ghost use Rattle.bp_shared.specs.Keeping.{Acted, EndsInRead, KeepsSession, FillsRoom, WantsMemory};

use super::SharedPool;
use crate::names::PartNames;
use crate::session::Session;
use bp_core::Pass;
use bp_keeper::ListKeeper;
use bp_page::{PageNo, Refusal};
use bp_ports::Port;
use bp_session_log::Room;
use std::sync::Wait;

impl<N: PartNames, K: ListKeeper> SharedPool<N, K> {
    /// Copies bytes of a page, from the offset on, as many as `into` has. It does what `fix`, `read_into` and giving the
    /// pass back do: the session's list gets the events of the three, in this order, and the session holds no pass more
    /// than before. Where the page is in a frame, all is done in one critical section, with no look at the mark: nobody's
    /// entry stands between the three.
    ///
    /// Refused as `fix` is, and then no pass was given; else as `read_into` is, with `TrailFull` or `OutOfMemory`, and
    /// then the pass was given back all the same. Either leaves the bytes that were there. It is never `UnknownPass`. A
    /// silent session that has room for two passes answers `OutOfMemory` as from `fix`, and is roomy after every other
    /// answer.
    pub fn read_page_into<P: Port, R: Wait>(
        &self,
        rt: &R,
        session: &mut Session<N, K>,
        port: &mut P,
        page: PageNo,
        offset: u32,
        into: &mut [u8],
    ) -> Result<(), Refusal>
        requires page_in { page < N.parameters.pages }
        requires port { (P.geometry_of port.old).size ≡ N.parameters.size }
        requires fits { offset + length into.old ≤ N.parameters.size }
        ensures read { PageReadsIn K.REFUSES N.parameters N.past page result
            session.old session.new }
        ensures port { P.geometry_of port.new ≡ P.geometry_of port.old }
        ensures outcome { PageReadSaid session.old.client page offset into.old result into.new
            session.old.said session.new.said }
        ensures work { DoesWorkSaid P.read_gives (WithLsnSeen session.old session.new P.write_gives)
            session.old.said session.new.said port.old port.new }
    {
        if self.read_if_resident(rt, session, page, offset, into)? {
            return Ok(());
        }
        self.read_by_pass(rt, session, port, page, offset, into)
    }

    /// Copies bytes of a page that is in a frame, in one critical section, with no look at the mark. Returns false where
    /// it is in none, which adds no event. Refused with `TrailFull`, or with `OutOfMemory`, which may come before the
    /// lock is taken; neither adds one, and both leave the bytes that were there.
    #[inline(always)]
    fn read_if_resident<R: Wait>(
        &self,
        rt: &R,
        session: &mut Session<N, K>,
        page: PageNo,
        offset: u32,
        into: &mut [u8],
    ) -> Result<bool, Refusal>
        requires page_in { page < N.parameters.pages }
        requires fits { offset + length into.old ≤ N.parameters.size }
        ensures keeps { KeepsSession N.parameters N.past result session.old session.new }
        ensures outcome { LookSaid session.old.client page offset into.old result into.new
            session.old.said session.new.said }
        ensures room { result ≡ Err Refusal.TrailFull → FillsRoom 3 N.parameters session.new.seen }
        ensures memory { K.REFUSES ≡ false → IsRoomyFor 2 session.old
            → result ≡ Err Refusal.OutOfMemory → IsLong session.new }
        ensures once { result ≡ Ok true → EndsInRead page session.old session.new }
        ensures away { result ≡ Ok false → resident session.new.seen page ≡ false }
        ensures roomy { result ≢ Err Refusal.OutOfMemory → IsRoomyFor 2 session.new }
    {
        session.book.reserve(Room::with_passes(2))?;
        let mut state = self.lock_and_drain(rt, session);
        state.read_resident(session, page, offset, into)
    }

    /// Copies bytes of a page by a pass: fixes it, and reads it and gives the pass back in one critical section more.
    fn read_by_pass<P: Port, R: Wait>(
        &self,
        rt: &R,
        session: &mut Session<N, K>,
        port: &mut P,
        page: PageNo,
        offset: u32,
        into: &mut [u8],
    ) -> Result<(), Refusal>
        requires page_in { page < N.parameters.pages }
        requires port { (P.geometry_of port.old).size ≡ N.parameters.size }
        requires fits { offset + length into.old ≤ N.parameters.size }
        ensures keeps { KeepsSession N.parameters N.past result session.old session.new }
        ensures port { P.geometry_of port.new ≡ P.geometry_of port.old }
        ensures outcome { PageReadSaid session.old.client page offset into.old result into.new
            session.old.said session.new.said }
        ensures room { result ≡ Err Refusal.TrailFull → FillsRoom 3 N.parameters session.new.seen }
        ensures memory { K.REFUSES ≡ false → IsRoomyFor 2 session.old
            → result ≡ Err Refusal.OutOfMemory
            → IsLong session.new ⊎ WantsMemory (Call.Fix page) N.parameters session.new.seen }
        ensures roomy { result ≢ Err Refusal.OutOfMemory → IsRoomy session.new }
        ensures known { result ≢ Err Refusal.UnknownTicket }
        ensures held { result ≢ Err Refusal.UnknownPass }
        ensures work { DoesWorkSaid P.read_gives (WithLsnSeen session.old session.new P.write_gives)
            session.old.said session.new.said port.old port.new }
    {
        let pass = self.fix(rt, session, port, page)?;
        self.read_and_unfix(rt, session, pass, offset, into)
    }

    /// Copies bytes of a pass's page as `read_into` does, and gives the pass back, also where the read is refused. Both
    /// are done in one critical section.
    fn read_and_unfix<R: Wait>(
        &self,
        rt: &R,
        session: &mut Session<N, K>,
        pass: Pass,
        offset: u32,
        into: &mut [u8],
    ) -> Result<(), Refusal>
        requires own { pass.client ≡ session.old.client }
        requires held { pass_is_out pass session.old.said ≡ true }
        requires fits { offset + length into.old ≤ N.parameters.size }
        ensures client { session.new.client ≡ session.old.client }
        ensures before { session.new.before ≡ session.old.before }
        ensures acted { Acted N.parameters N.past session.old session.new }
        ensures roomy { IsRoomy session.old → IsRoomy session.new }
        ensures outcome { ReadAndUnfixSaid session.old.client pass offset into.old result into.new
            session.old.said session.new.said }
        ensures held { result ≢ Err Refusal.UnknownPass }
        ensures room { result ≡ Err Refusal.TrailFull → FillsRoom 1 N.parameters session.new.seen }
        ensures memory { K.REFUSES ≡ false → IsRoomy session.old
            → result ≡ Err Refusal.OutOfMemory → IsLong session.new }
    {
        let reserved = session.book.reserve(Room::IMAGE);
        let mut state = self.lock_and_drain(rt, session);
        let read = match reserved {
            Ok(()) => state.read_into(session, &pass, offset, into),
            Err(refusal) => Err(refusal),
        };
        state.give_back(session, pass);
        read
    }
}

//! Fixes of shared pages, with their device work.
ghost use Rattle.std.specs.Prelude.{◌≡◌, ◌<◌};

use super::SharedPool;
use super::source::{FromPort, Source, Zeros};
use crate::names::PartNames;
use crate::session::Session;
use bp_core::{Ended, Pass};
use bp_keeper::ListKeeper;
use bp_page::{PageNo, Refusal};
use bp_ports::Port;
use bp_session_log::{AskFix, Fix, PendingRead, PendingWrite};
use std::sync::Wait;

impl<N: PartNames, K: ListKeeper> SharedPool<N, K> {
    ghost use Rattle.std.specs.Prelude.{◌≡◌, ◌≢◌, ◌⊎◌, ◌+◌, ◌<◌, ◌≤◌, false};
    ghost use Rattle.bp_session_log.specs.Books.{OwesRead, OwesWrite};
    ghost use Rattle.bp_session_log.specs.Turns.{LoadOutcome, WriteOutOutcome};
    ghost use Rattle.bp_core.specs.Work.{MadeBlank};
    ghost use Rattle.bp_shared.specs.Calls.{FixesIn};
    ghost use Rattle.bp_shared.specs.Sessions.{DoesWorkSaid};
    ghost use Rattle.bp_shared.specs.Writing.{WithLsnSeen};
    ghost use Rattle.bp_shared.specs.Keeping.{Acted};

    /// Brings a page's image with no lock held, ends the read, and wakes all that wait.
    fn load<P: Port, S: Source<P>, R: Wait>(
        &self,
        rt: &R,
        session: &mut Session<N, K>,
        port: &mut P,
        source: &S,
        ticket: PendingRead,
    ) -> Result<Pass, Refusal>
        requires owes { OwesRead session.old.client ticket session.old.said }
        requires port { (P.geometry_of port.old).size ≡ N.parameters.size }
        ensures client { session.new.client ≡ session.old.client }
        ensures before { session.new.before ≡ session.old.before }
        ensures acted { Acted N.parameters N.past session.old session.new }
        ensures port { P.geometry_of port.new ≡ P.geometry_of port.old }
        ensures known { result ≢ Err Refusal.UnknownTicket }
        ensures passes { session.old.passes ≤ session.new.passes }
        ensures places { session.old.places + 1 ≤ session.new.places }
        ensures outcome { LoadOutcome S.gives ticket result session.old.said session.new.said
            port.old port.new }
    {
        let read = source.bring(rt, port, ticket.page());
        let mut state = self.lock_and_drain(rt, session);
        let ended = state.end_read(session, ticket, read);
        drop(state);
        self.ended.notify_all();
        session.book.free_left();
        ended
    }

    /// Writes a page's image with no lock held, ends the write-out, and wakes all that wait.
    pub(super) fn write_out<P: Port, R: Wait>(
        &self,
        rt: &R,
        session: &mut Session<N, K>,
        port: &mut P,
        ticket: PendingWrite,
    ) -> Result<Ended, Refusal>
        requires owes { OwesWrite session.old.client ticket session.old.said }
        ensures client { session.new.client ≡ session.old.client }
        ensures before { session.new.before ≡ session.old.before }
        ensures acted { Acted N.parameters N.past session.old session.new }
        ensures port { P.geometry_of port.new ≡ P.geometry_of port.old }
        ensures known { result ≢ Err Refusal.UnknownTicket }
        ensures passes { session.old.passes + 1 ≤ session.new.passes }
        ensures places { session.old.places + 1 ≤ session.new.places }
        ensures outcome { WriteOutOutcome P.write_gives ticket result session.old.said
            session.new.said port.old port.new }
    {
        let written = port.write(rt, ticket.page(), ticket.image(), ticket.lsn());
        let mut state = self.lock_and_drain(rt, session);
        let ended = state.end_write(session, ticket, written);
        drop(state);
        self.ended.notify_all();
        session.book.free_left();
        ended
    }

    /// Fixes a page: gives a pass of it, once it is in a frame. The page is read, and an unsaved victim written out
    /// first, through the port and with no lock held; where another client has the page in flight, the call waits for
    /// the end of some device work and asks again. Before each fix of the core it looks at the mark once. The device
    /// does the work of the entries that the list gets, and nothing else: each read is of the page, each write of the
    /// victim's, with its image and the page LSN that the page had when its write-out began.
    ///
    /// The session's list gets the events as the trail does. `NoVictim`, `NeedLog`, `ReadFailed`, `WrongPage` and
    /// `WriteFailed` are the reply of the last one. `TrailFull` and `OutOfMemory` make no event, and those made before
    /// stand. The pool knows the ticket of each read and write-out that the call began, so it is never `UnknownTicket`.
    ///
    /// A silent session that has room for two passes is refused memory only where a pass or a ticket was to be given,
    /// which takes some in the core. After every other answer the session is roomy: what it does until its next fix or
    /// flush wants no memory for its list.
    pub fn fix<P: Port, R: Wait>(
        &self,
        rt: &R,
        session: &mut Session<N, K>,
        port: &mut P,
        page: PageNo,
    ) -> Result<Pass, Refusal>
        requires page_in { page < N.parameters.pages }
        requires port { (P.geometry_of port.old).size ≡ N.parameters.size }
        ensures fix { FixesIn K.REFUSES N.parameters N.past page result session.old session.new }
        ensures port { P.geometry_of port.new ≡ P.geometry_of port.old }
        ensures work { DoesWorkSaid P.read_gives (WithLsnSeen session.old session.new P.write_gives)
            session.old.said session.new.said port.old port.new }
    {
        self.fix_from(rt, session, port, &FromPort, page)
    }

    /// Fixes a page that is new, as `fix` does, except that where it is away its image is zeros, and the port is not
    /// asked to read it: no read is made. So it is for a page that was never written, or whose bytes on the device are
    /// to be lost, which nobody but the caller knows. A page that is in a frame keeps its bytes. The zeros are not
    /// unsaved: they reach the device only with a write of the page.
    ///
    /// Refused as `fix` is, but never with `WrongPage`; with `ReadFailed` where there is no memory for the image.
    pub fn fix_new<P: Port, R: Wait>(
        &self,
        rt: &R,
        session: &mut Session<N, K>,
        port: &mut P,
        page: PageNo,
    ) -> Result<Pass, Refusal>
        requires page_in { page < N.parameters.pages }
        requires port { (P.geometry_of port.old).size ≡ N.parameters.size }
        ensures fix { FixesIn K.REFUSES N.parameters N.past page result session.old session.new }
        ensures port { P.geometry_of port.new ≡ P.geometry_of port.old }
        ensures work { DoesWorkSaid (λ at. MadeBlank (P.geometry_of at).size at)
            (WithLsnSeen session.old session.new P.write_gives)
            session.old.said session.new.said port.old port.new }
    {
        let zeros = Zeros { alloc: self.alloc };
        self.fix_from(rt, session, port, &zeros, page)
    }

    /// Fixes a page as `fix` does, whose image comes from this source where it is away.
    fn fix_from<P: Port, S: Source<P>, R: Wait>(
        &self,
        rt: &R,
        session: &mut Session<N, K>,
        port: &mut P,
        source: &S,
        page: PageNo,
    ) -> Result<Pass, Refusal>
        requires page_in { page < N.parameters.pages }
        requires port { (P.geometry_of port.old).size ≡ N.parameters.size }
        ensures fix { FixesIn K.REFUSES N.parameters N.past page result session.old session.new }
        ensures port { P.geometry_of port.new ≡ P.geometry_of port.old }
        ensures work { DoesWorkSaid S.gives (WithLsnSeen session.old session.new P.write_gives)
            session.old.said session.new.said port.old port.new }
    {
        for _ in rt.forever() {
            match self.make(rt, session, AskFix(page)) {
                Ok(Fix::Hit(pass)) => return Ok(pass),
                Ok(Fix::Load(ticket, _)) => {
                    return self.load(rt, session, port, source, ticket);
                }
                Ok(Fix::WriteFirst(ticket)) => {
                    self.write_out(rt, session, port, ticket)?;
                }
                Err(refusal) => match refusal {
                    // Some device work has ended: ask again.
                    Refusal::Busy => {}
                    other => return Err(other),
                },
            }
        }
        unreachable!()
    }
}

//! Flushes of shared pages, with their device work.

use super::SharedPool;
use crate::names::PartNames;
use crate::session::Session;
use bp_core::Flushed;
use bp_keeper::ListKeeper;
use bp_page::{PageNo, Refusal};
use bp_ports::Port;
use bp_session_log::{AskFlush, Flush};
use std::sync::Wait;

impl<N: PartNames, K: ListKeeper> SharedPool<N, K> {
    ghost use Rattle.std.specs.Prelude.{◌≡◌, ◌≢◌, ◌⊎◌, ◌<◌, false};
    ghost use Rattle.bp_shared.specs.Calls.{FlushesIn};
    ghost use Rattle.bp_shared.specs.Sessions.{DoesWorkSaid};
    ghost use Rattle.bp_shared.specs.Writing.{WithLsnSeen};

    /// Writes a page out if it is unsaved, through the port and with no lock held. Where the page is being read or
    /// written out, the call waits for the end of some device work and asks again. Before each flush of the core it
    /// looks at the mark once. The device does the work of the entries that the list gets, as in `fix`.
    ///
    /// The session's list gets the events as the trail does. `NeedLog` and `WriteFailed` are the reply of the last one;
    /// `TrailFull` and `OutOfMemory` as from `fix`; a roomy silent session is refused memory only where a ticket was to
    /// be given.
    pub fn flush<P: Port, R: Wait>(
        &self,
        rt: &R,
        session: &mut Session<N, K>,
        port: &mut P,
        page: PageNo,
    ) -> Result<Flushed, Refusal>
        requires page_in { page < N.parameters.pages }
        ensures flush { FlushesIn K.REFUSES N.parameters N.past page result
            session.old session.new }
        ensures port { P.geometry_of port.new ≡ P.geometry_of port.old }
        ensures work { DoesWorkSaid P.read_gives (WithLsnSeen session.old session.new P.write_gives)
            session.old.said session.new.said port.old port.new }
    {
        for _ in rt.forever() {
            match self.make(rt, session, AskFlush(page)) {
                Ok(Flush::Clean) => return Ok(Flushed::Clean),
                Ok(Flush::Absent) => return Ok(Flushed::Absent),
                Ok(Flush::WriteFirst(ticket)) => {
                    let ended = self.write_out(rt, session, port, ticket)?;
                    return Ok(ended.flushed());
                }
                Err(refusal) => match refusal {
                    // Some device work has ended: ask again.
                    Refusal::Busy => {}
                    other => return Err(other),
                },
            }
        }
        unreachable!()
    }
}

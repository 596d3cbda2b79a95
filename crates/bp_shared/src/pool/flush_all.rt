//! `flush_all`: writes out each unsaved page of a shared pool.
ghost use Rattle.std.specs.Prelude.{◌≡◌};

use super::SharedPool;
use crate::names::PartNames;
use crate::session::Session;
use bp_core::NotFlushed;
use bp_keeper::ListKeeper;
use bp_ports::Port;
use std::sync::Wait;

impl<N: PartNames, K: ListKeeper> SharedPool<N, K> {
    ghost use Rattle.bp_shared.specs.Calls.{FlushesAllIn};
    ghost use Rattle.bp_shared.specs.Sessions.{DoesWorkSaid};
    ghost use Rattle.bp_shared.specs.Writing.{WithLsnSeen};

    /// Writes each unsaved page out, in the order of the file, as `flush` does, with no lock held while the device
    /// works. Each page is the first that is unsaved from the one before on, when it is looked for. A page that was
    /// unsaved when the call began is flushed, where it is unsaved still; one that is written meanwhile may be unsaved
    /// again.
    ///
    /// It ends at the first page whose flush is refused, and names it; those before it were flushed. `NeedLog` says how
    /// far the log has to be durable. A later call begins again at the first page: so where pages are written all the
    /// time, make the log durable far enough before it, and write no page under a later record until it returns.
    pub fn flush_all<P: Port, R: Wait>(
        &self,
        rt: &R,
        session: &mut Session<N, K>,
        port: &mut P,
    ) -> Result<(), NotFlushed>
        ensures flushes { FlushesAllIn K.REFUSES N.parameters N.past result
            session.old session.new }
        ensures port { P.geometry_of port.new ≡ P.geometry_of port.old }
        ensures work { DoesWorkSaid P.read_gives (WithLsnSeen session.old session.new P.write_gives)
            session.old.said session.new.said port.old port.new }
    {
        let mut from = 0;
        while let Some(page) = self.next_unsaved(rt, session, from) {
            match self.flush(rt, session, port, page) {
                Ok(_) => {}
                Err(why) => return Err(NotFlushed { page, why }),
            }
            from = page.number() + 1;
        }
        Ok(())
    }
}

//! Questions of a checkpoint. Each part answers of its own trail, as its session saw it then; the parts are asked one
//! after the other.
ghost use Rattle.std.specs.Prelude.{◌≡◌};
ghost use Rattle.bp_parts.specs.Redo.{earlier};

use super::{PartCount, PartedPool};
use crate::sessions::PartedSession;
use bp_core::{NotFlushed, Stats};
use bp_keeper::ListKeeper;
use bp_page::{Lsn, PageNo};
use bp_ports::{Store, StripedPort};
use bp_shared::PartNames;
use std::sync::Wait;

/// Returns the lesser of two LSNs, where there are both.
fn earlier_of(one: Option<Lsn>, other: Option<Lsn>) -> Option<Lsn>
    ensures { result ≡ earlier one other }
{
    match (one, other) {
        (Some(one), Some(other)) => Some(one.min(other)),
        (None, other) => other,
        (one, None) => one,
    }
}

impl<N: PartNames + PartCount, K: ListKeeper> PartedPool<N, K> {
    ghost use Rattle.std.specs.Prelude.{◌≡◌, ◌<◌, ◌+◌, ◌^◌, IfSome};
    ghost use Rattle.bp_core.specs.Counts.{AreCounts};
    ghost use Rattle.bp_core.specs.Unsaved.{FindsUnsaved};
    ghost use Rattle.bp_ports.specs.Stripes.{ReadsStriped, WritesStriped, turned};
    ghost use Rattle.bp_shared.specs.Sessions.{DoesWorkSaid};
    ghost use Rattle.bp_shared.specs.Telling.{Sees};
    ghost use Rattle.bp_shared.specs.Writing.{WithLsnSeen};
    ghost use Rattle.bp_parts.specs.Parts.{InEachPart, InPart};
    ghost use Rattle.bp_shared.specs.Calls.{FlushesAllIn};
    ghost use Rattle.bp_parts.specs.Redo.{IsRedoFromAll};
    ghost use Rattle.bp_parts.specs.Flushes.{FlushesAllParts};

    /// Returns the least LSN of the unsaved writes of all parts, each as it is when it is asked, one after the other:
    /// `None` where each had none then. Redo of the whole file begins at the lesser of it and the log's end, which is
    /// noted before the call. Ask before the sync, as `SharedPool::redo_from` says.
    pub fn redo_from<R: Wait>(&self, rt: &R, session: &mut PartedSession<N, K>) -> Option<Lsn>
        ensures client { session.new.client ≡ session.old.client }
        ensures sees { InEachPart session.old session.new (Sees N.parameters N.past) }
        ensures least { IsRedoFromAll N.parts session.new.sessions result }
    {
        let mut least = None;
        for part in 0..self.parts.len() {
            let mine = &mut session.sessions[part];
            let from = self.pool_of(mine).redo_from(rt, mine);
            least = earlier_of(least, from);
        }
        least
    }

    /// Returns the first unsaved page of a part from this number in the part on, as `SharedPool::next_unsaved` does.
    pub fn next_unsaved<R: Wait>(
        &self,
        rt: &R,
        session: &mut PartedSession<N, K>,
        part: u8,
        from: u64,
    ) -> Option<PageNo>
        requires part { part < N.parts }
        ensures client { session.new.client ≡ session.old.client }
        ensures outcome { InPart part session.old session.new (λ old new.
            Sees N.parameters N.past old new
            × FindsUnsaved N.parameters.pages from new.seen result) }
        ensures few { IfSome result (λ page. page + 1 < 2 ^ 64) }
    {
        let mine = &mut session.sessions[part as usize];
        self.pool_of(mine).next_unsaved(rt, mine, from)
    }

    /// Returns the counts of one part's replies and pages, as `SharedPool::stats` does.
    pub fn stats<R: Wait>(&self, rt: &R, session: &mut PartedSession<N, K>, part: u8) -> Stats
        requires part { part < N.parts }
        ensures client { session.new.client ≡ session.old.client }
        ensures outcome { InPart part session.old session.new (λ old new.
            Sees N.parameters N.past old new × AreCounts new.seen result) }
    {
        let mine = &mut session.sessions[part as usize];
        self.pool_of(mine).stats(rt, mine)
    }

    /// Writes each unsaved page of one part out, as `SharedPool::flush_all` does, through the port, which it turns to
    /// that part's stripe.
    pub fn flush_part<S: Store, R: Wait>(
        &self,
        rt: &R,
        session: &mut PartedSession<N, K>,
        port: &mut StripedPort<S>,
        part: u8,
    ) -> Result<(), NotFlushed>
        requires part { part < N.parts }
        requires stripes { port.old.parts ≡ N.parts }
        ensures client { session.new.client ≡ session.old.client }
        ensures device { port.new.file.device ≡ port.old.file.device }
        ensures stripes { port.new.parts ≡ port.old.parts }
        ensures outcome { InPart part session.old session.new (λ old new.
            FlushesAllIn K.REFUSES N.parameters N.past result old new
            × DoesWorkSaid (ReadsStriped S.reads) (WithLsnSeen old new (WritesStriped S.writes))
            old.said new.said (turned part port.old) port.new) }
    {
        port.turn_to(u64::from(part));
        let mine = &mut session.sessions[part as usize];
        self.pool_of(mine).flush_all(rt, mine, port)
    }

    /// Writes each unsaved page of the file out, part after part, as `flush_part` does. It ends at the first page whose
    /// flush is refused, and names its part and its number there; those before it were flushed.
    pub fn flush_all<S: Store, R: Wait>(
        &self,
        rt: &R,
        session: &mut PartedSession<N, K>,
        port: &mut StripedPort<S>,
    ) -> Result<(), (u8, NotFlushed)>
        requires stripes { port.old.parts ≡ N.parts }
        ensures client { session.new.client ≡ session.old.client }
        ensures device { port.new.file.device ≡ port.old.file.device }
        ensures stripes { port.new.parts ≡ port.old.parts }
        ensures outcome { FlushesAllParts (record {
          refuses = K.REFUSES;
          parameters = N.parameters;
          start = N.past;
          reads = S.reads;
          writes = S.writes;
        }) N.parts result
            session.old port.old session.new port.new }
    {
        for part in 0..self.count() {
            if let Err(stop) = self.flush_part(rt, session, port, part) {
                return Err((part, stop));
            }
        }
        Ok(())
    }
}

//! Questions of a checkpoint, and a pool's counts. Each call takes the lock once, drains the rings, and adds no entry
//! of its own. Its answer holds of the trail as the session then saw it: a legal list which has exactly the client's
//! entries so far, each unfix in its place, and goes on from what the session saw before. When the session ends, the
//! pool's trail goes on from it. What others had done by then is known by a receipt: `show`.
ghost use Rattle.std.specs.Prelude.{◌≡◌, ◌+◌, ◌^◌, ◌<◌, ◌≤◌, IfSome, []};
ghost use Rattle.bp_trail.specs.Clock.{durable};
ghost use Rattle.bp_trail.specs.Saved.{IsRedoFrom};
ghost use Rattle.bp_core.specs.Counts.{AreCounts};
ghost use Rattle.bp_core.specs.Unsaved.{FindsUnsaved};
ghost use Rattle.bp_shared.specs.Telling.{GoesOnFrom, Sees};

use super::SharedPool;
use crate::locking::locked;
use crate::log_writer::LogWriter;
use crate::names::{One, PartNames, PoolName};
use crate::receipt::Receipt;
use crate::session::Session;
use bp_core::Stats;
use bp_keeper::ListKeeper;
use bp_page::{Lsn, PageNo};
use std::sync::Wait;

impl<N: PartNames, K: ListKeeper> SharedPool<N, K> {
    /// Makes a receipt that has seen nothing of the trail. It takes the lock once, and no memory.
    pub fn receipt<R: Wait>(&self, rt: &R) -> Receipt<N>
        ensures { result ≡ [] }
    {
        let mut state = locked(rt, &self.state);
        state.receipt()
    }

    /// Shows the session, and a receipt, the trail as it is: all that either saw before stands in it, and the client's
    /// entries are the session's list. It takes the lock once, and no memory.
    ///
    /// So whoever wrote shows its session and the receipt, and whoever asks for a checkpoint does so before it asks: then
    /// the answer holds of a trail that has those writes.
    pub fn show<R: Wait>(&self, rt: &R, session: &mut Session<N, K>, receipt: &mut Receipt<N>)
        ensures sees { Sees N.parameters N.past session.old session.new }
        ensures same { receipt.new ≡ session.new.seen }
        ensures goes_on { GoesOnFrom receipt.old receipt.new }
    {
        let mut state = self.lock_and_drain(rt, session);
        state.show_both(rt, session, receipt);
    }

    /// Returns the first unsaved page from this number on, if there is one. It costs O(log pages) at most. Other
    /// clients may write the page, or another, before the call returns.
    pub fn next_unsaved<R: Wait>(
        &self,
        rt: &R,
        session: &mut Session<N, K>,
        from: u64,
    ) -> Option<PageNo>
        ensures sees { Sees N.parameters N.past session.old session.new }
        ensures found { FindsUnsaved N.parameters.pages from session.new.seen result }
        ensures few { IfSome result (λ page. page + 1 < 2 ^ 64) }
    {
        let mut state = self.lock_and_drain(rt, session);
        state.next_unsaved(session, from)
    }

    /// Returns the LSN from which redo has to begin: the least of all unsaved writes. `None` where each page is saved.
    /// It costs O(log frames) at most.
    ///
    /// A page is saved once it was written out, which a sync makes durable: so ask first, sync then, and note the LSN
    /// last. A record that is in the log but not yet in its page is not seen: where another thread may be between the
    /// two, take the log's end before the call, and note the lesser.
    pub fn redo_from<R: Wait>(&self, rt: &R, session: &mut Session<N, K>) -> Option<Lsn>
        ensures sees { Sees N.parameters N.past session.old session.new }
        ensures least { IsRedoFrom session.new.seen result }
    {
        let mut state = self.lock_and_drain(rt, session);
        state.redo_from(session)
    }

    /// Returns the counts of replies and pages. It costs the same however many pages there are.
    pub fn stats<R: Wait>(&self, rt: &R, session: &mut Session<N, K>) -> Stats
        ensures sees { Sees N.parameters N.past session.old session.new }
        ensures counts { AreCounts session.new.seen result }
    {
        let mut state = self.lock_and_drain(rt, session);
        state.stats(session)
    }
}

impl<N: PoolName, K: ListKeeper> SharedPool<One<N>, K> {
    /// Shows the session the trail as it is: no mark in it is above the LSN that its writer raised the mark to. It takes
    /// the lock once, and no memory.
    pub fn show_marks<R: Wait>(
        &self,
        rt: &R,
        session: &mut Session<One<N>, K>,
        log: &mut LogWriter<N>,
    )
        ensures sees { Sees N.parameters N.past session.old session.new }
        ensures same { log.new ≡ log.old }
        ensures within { durable session.new.seen ≤ log.new }
    {
        let mut state = self.lock_and_drain(rt, session);
        state.show_marks(session, &self.mark, &mut log.end);
    }
}

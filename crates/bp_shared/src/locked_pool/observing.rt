//! Questions to the core under the lock, which it answers of its trail as that is then.
ghost use Rattle.std.specs.Prelude.{◌≡◌, ◌+◌, ◌^◌, ◌<◌, ◌≤◌, IfSome, []};
ghost use Rattle.bp_trail.specs.Clock.{durable};
ghost use Rattle.bp_trail.specs.Saved.{IsRedoFrom};
ghost use Rattle.bp_core.specs.Counts.{AreCounts};
ghost use Rattle.bp_core.specs.Unsaved.{FindsUnsaved};
ghost use Rattle.bp_shared.specs.Locked.{Enters};
ghost use Rattle.bp_shared.specs.Telling.{GoesOnFrom, Sees};

use super::LockedPool;
use crate::names::PartNames;
use crate::receipt::Receipt;
use crate::session::{Past, Session, Told};
use bp_core::{PoolCore, Stats};
use bp_keeper::ListKeeper;
use bp_mark::{LogEnd, Mark};
use bp_page::{Lsn, PageNo};
use bp_session_log::{Book, Line};
use std::marker::PhantomData;
use std::sync::Wait;

impl<N: PartNames, K: ListKeeper> LockedPool<N, K> {
    /// Shows the session the trail as it is.
    pub(crate) fn show(&mut self, session: &mut Session<N, K>)
        requires entered { Enters N.past session.old self.old }
        ensures sees { Sees N.parameters N.past session.old session.new }
        ensures core { self.new ≡ self.old }
        ensures now { session.new.seen ≡ self.new.core.past }
    {
        self.board
            .write::<Book<K>, Told>(&mut session.line, &session.book);
        self.seen
            .write::<PoolCore<K>, Past>(&mut session.seen, &self.core);
        self.core.keeps_the_rules();
    }

    /// Makes a receipt that has seen nothing.
    pub(crate) fn receipt(&mut self) -> Receipt<N>
        ensures blank { result ≡ [] }
        ensures core { self.new ≡ self.old }
    {
        Receipt {
            part: self.part,
            line: self.seen.line(),
            of: PhantomData,
        }
    }

    /// Shows the session, and a receipt of this pool, the trail as it is. Waits for ever with one of another.
    pub(crate) fn show_both<R: Wait>(
        &mut self,
        rt: &R,
        session: &mut Session<N, K>,
        receipt: &mut Receipt<N>,
    )
        requires entered { Enters N.past session.old self.old }
        ensures sees { Sees N.parameters N.past session.old session.new }
        ensures core { self.new ≡ self.old }
        ensures now { session.new.seen ≡ self.new.core.past }
        ensures same { receipt.new ≡ session.new.seen }
        ensures goes_on { GoesOnFrom receipt.old receipt.new }
    {
        self.show(session);
        if receipt.part != self.part {
            for _ in rt.forever() {}
            unreachable!()
        }
        self.seen
            .write::<PoolCore<K>, Past>(&mut receipt.line, &self.core);
    }

    /// Shows the session the trail as it is. No mark in it is above what the log end raised.
    pub(crate) fn show_marks(&mut self, session: &mut Session<N, K>, mark: &Mark, end: &mut LogEnd)
        requires entered { Enters N.past session.old self.old }
        requires mark { mark.now ≡ N.mark self.old.part }
        requires end { end.old.mark ≡ mark.now }
        ensures sees { Sees N.parameters N.past session.old session.new }
        ensures core { self.new ≡ self.old }
        ensures end { end.new ≡ end.old }
        ensures within { durable session.new.seen ≤ end.new.frontier }
    {
        self.show(session);
        end.bounds(mark, &mut self.reader);
    }

    /// Ends a line that is no session's: what was seen by it is the older part of the trail.
    pub(crate) fn end_line(&mut self, mut line: Line)
        requires own { line.name ≡ (N.ring self.old.part).seen }
        ensures core { self.new ≡ self.old }
        ensures older { GoesOnFrom line.list self.new.core.past }
    {
        self.seen.write::<PoolCore<K>, Past>(&mut line, &self.core);
    }

    /// Returns the first unsaved page from this number on.
    pub(crate) fn next_unsaved(&mut self, session: &mut Session<N, K>, from: u64) -> Option<PageNo>
        requires entered { Enters N.past session.old self.old }
        ensures sees { Sees N.parameters N.past session.old session.new }
        ensures core { self.new ≡ self.old }
        ensures now { session.new.seen ≡ self.new.core.past }
        ensures found { FindsUnsaved N.parameters.pages from session.new.seen result }
        ensures few { IfSome result (λ page. page + 1 < 2 ^ 64) }
    {
        self.show(session);
        let pages = self.core.geometry().pages;
        let found = self.core.next_unsaved(from);
        if let Some(page) = found {
            prove!(page.number() < pages);
        }
        found
    }

    /// Returns the LSN from which redo has to begin.
    pub(crate) fn redo_from(&mut self, session: &mut Session<N, K>) -> Option<Lsn>
        requires entered { Enters N.past session.old self.old }
        ensures sees { Sees N.parameters N.past session.old session.new }
        ensures core { self.new ≡ self.old }
        ensures now { session.new.seen ≡ self.new.core.past }
        ensures least { IsRedoFrom session.new.seen result }
    {
        self.show(session);
        self.core.redo_from()
    }

    /// Returns the core's counts of replies and pages.
    pub(crate) fn stats(&mut self, session: &mut Session<N, K>) -> Stats
        requires entered { Enters N.past session.old self.old }
        ensures sees { Sees N.parameters N.past session.old session.new }
        ensures core { self.new ≡ self.old }
        ensures now { session.new.seen ≡ self.new.core.past }
        ensures counts { AreCounts session.new.seen result }
    {
        self.show(session);
        self.core.stats()
    }
}

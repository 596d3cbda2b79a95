//! `ClosedPool`: a pool that is shared no more, at which sessions end before its core is taken out.
use crate::locked_pool::LockedPool;
use crate::names::{One, PartNames, PoolName};
use crate::receipt::Receipt;
use crate::session::Session;
use crate::taker::Taker;
use bp_core::PoolCore;
use bp_keeper::{ListKeeper, RecordingKeeper};
use bp_mark::{Mark, Reader};
use bp_session_log::Book;
use std::marker::Model;

/// A pool that is shared no more: its sessions are ended one by one, and then its core is taken out. Contracts see it
/// as its core.
#[derive(Drop)]
pub struct ClosedPool<N: PartNames, K: ListKeeper = RecordingKeeper> {
    mark: Mark,
    state: LockedPool<N, K>,
}

impl<N: PartNames, K: ListKeeper> Model for ClosedPool<N, K> {
    ghost use Rattle.std.specs.Prelude.{◌≡◌};
    ghost use Rattle.bp_core.specs.CoreView.{CoreView};

    ghost Value = { CoreView };

    ghost view = { λ p. p.state.core };

    ghost invariant = { λ p. p.mark ≡ N.mark p.state.part };
}

impl<N: PartNames, K: ListKeeper> ClosedPool<N, K> {
    ghost use Rattle.std.specs.Prelude.{◌≡◌, ◌≤◌};
    ghost use Rattle.bp_trail.specs.Clock.{durable};
    ghost use Rattle.bp_shared.specs.Posting.{TakesBack};
    ghost use Rattle.bp_shared.specs.Telling.{GoesOnFrom, IsListOf};

    /// Makes a closed pool of a state that nobody else has.
    pub(crate) fn new(mark: Mark, state: LockedPool<N, K>) -> ClosedPool<N, K>
        requires mark { mark ≡ N.mark state.part }
        ensures core { result ≡ state.core }
    {
        ClosedPool { mark, state }
    }
}

impl<N: PoolName, K: ListKeeper> ClosedPool<One<N>, K> {
    ghost use Rattle.std.specs.Prelude.{◌≡◌, ◌≤◌};
    ghost use Rattle.bp_trail.specs.Clock.{durable};
    ghost use Rattle.bp_shared.specs.Posting.{TakesBack};
    ghost use Rattle.bp_shared.specs.Telling.{GoesOnFrom, IsListOf};

    /// Ends a session and returns its book, as [`Session::into_book`] does. It takes no memory.
    ///
    /// The core's entries of the client since the pool was made are the session's list: the same entries in the same
    /// order, each unfix in its place. What still waits in the session's ring goes back here, and the core does nothing
    /// else: no end adds to another client's entries.
    ///
    /// What the session saw of the trail is the older part of it: so the answers of `next_unsaved`, `redo_from` and
    /// `stats` hold of a trail that the pool had, with all entries of the client until then.
    ///
    /// So this core gave each answer that the list has, the client has no other entry, and a page is pinned while its
    /// client's list holds a pass of it. Where `TrailFull` or `ClockFull` was answered, the trail that the session saw had no
    /// room, or its clock would have run over: that trail too is an older part of this one.
    pub fn end_session(&mut self, session: Session<One<N>, K>) -> Book<K>
        ensures takes { TakesBack session.client self.old self.new }
        ensures client { result.client ≡ session.client }
        ensures before { result.before ≡ session.before }
        ensures said { result.said ≡ session.said }
        ensures seen { GoesOnFrom session.seen self.new.past }
        ensures theirs { IsListOf N.past self.new.past session.client session.said }
    {
        self.state.end_session(session)
    }

    /// Ends a receipt. What it saw is the older part of the core's trail: so what was known of that holds of a trail
    /// which the pool had. It takes no memory.
    pub fn end_receipt(&mut self, receipt: Receipt<One<N>>)
        ensures same { self.new ≡ self.old }
        ensures older { GoesOnFrom receipt self.new.past }
    {
        let Receipt {
            part: _,
            line,
            of: _,
        } = receipt;
        self.state.end_line(line);
    }

    /// Ends the pool and returns the core, the mark and its reader. It neither waits nor takes memory. The core's trail
    /// goes on from all that the taker was handed, and from what it had when the pool was made.
    pub fn into_core(self, taker: Taker<One<N>>) -> (PoolCore<K>, Mark, Reader)
        ensures core { result.0 ≡ self }
        ensures goes_on { GoesOnFrom N.past result.0.past }
        ensures before { result.0.before ≡ taker.past }
        ensures mark { result.1 ≡ N.mark }
        ensures reader { result.2.mark ≡ N.mark }
        ensures parameters { result.0.parameters ≡ N.parameters }
        ensures seen { durable result.0.past ≤ result.2.seen }
    {
        let ClosedPool { mark, state } = self;
        let (core, reader) = state.into_parts(taker);
        (core, mark, reader)
    }
}

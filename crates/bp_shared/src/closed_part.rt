//! `ClosedPart`: one of several pools side by side that is shared no more.
use crate::locked_pool::LockedPool;
use crate::names::PartNames;
use crate::session::Session;
use crate::taker::Taker;
use bp_core::PoolCore;
use bp_keeper::{ListKeeper, RecordingKeeper};
use bp_mark::{Mark, Reader};
use bp_session_log::Book;
use std::marker::Model;

/// One of several pools side by side that is shared no more: its sessions are ended one by one, and then its core is
/// taken out. Contracts see its number and its core.
#[derive(Drop)]
pub struct ClosedPart<N: PartNames, K: ListKeeper = RecordingKeeper> {
    mark: Mark,
    state: LockedPool<N, K>,
}

impl<N: PartNames, K: ListKeeper> Model for ClosedPart<N, K> {
    ghost use Rattle.std.specs.Prelude.{◌≡◌};
    ghost use Rattle.bp_shared.specs.Closing.{ClosedPartValue};

    ghost Value = { ClosedPartValue };

    ghost view = { λ p. record { part = p.state.part; core = p.state.core } };

    ghost invariant = { λ p. p.mark ≡ N.mark p.state.part };
}

/// What ends one of several pools side by side: its core, its mark and the mark's reader; or, where the taker is
/// another pool's, both back.
pub type EndedPart<N, K> = Result<(PoolCore<K>, Mark, Reader), (ClosedPart<N, K>, Taker<N>)>;

impl<N: PartNames, K: ListKeeper> ClosedPart<N, K> {
    ghost use Rattle.std.specs.Prelude.{◌≡◌, ◌≤◌, IsOk, IfOk, IfErr};
    ghost use Rattle.bp_trail.specs.Clock.{durable};
    ghost use Rattle.bp_shared.specs.Posting.{TakesBack};
    ghost use Rattle.bp_shared.specs.Telling.{GoesOnFrom, IsListOf};

    /// Makes a closed part of a state that nobody else has.
    pub(crate) fn new(mark: Mark, state: LockedPool<N, K>) -> ClosedPart<N, K>
        requires mark { mark ≡ N.mark state.part }
        ensures part { result.part ≡ state.part }
        ensures core { result.core ≡ state.core }
    {
        ClosedPart { mark, state }
    }

    /// Ends a session of this pool, as [`ClosedPool::end_session`](crate::ClosedPool::end_session) does. A session of
    /// another is handed back, and nothing changes.
    pub fn end_session(&mut self, session: Session<N, K>) -> Result<Book<K>, Session<N, K>>
        ensures own { session.part ≡ self.old.part → IsOk result }
        ensures part { self.new.part ≡ self.old.part }
        ensures takes { IfOk result (λ book.
            TakesBack session.client self.old.core self.new.core) }
        ensures client { IfOk result (λ book. book.client ≡ session.client) }
        ensures before { IfOk result (λ book. book.before ≡ session.before) }
        ensures said { IfOk result (λ book. book.said ≡ session.said) }
        ensures seen { IfOk result (λ book. GoesOnFrom session.seen self.new.core.past) }
        ensures theirs { IfOk result (λ book.
            IsListOf N.past self.new.core.past session.client session.said) }
        ensures other { IfErr result (λ back. (back ≡ session) × (self.new ≡ self.old)) }
    {
        if session.part() != self.state.part() {
            return Err(session);
        }
        Ok(self.state.end_session(session))
    }

    /// Ends the pool, as [`ClosedPool::into_core`](crate::ClosedPool::into_core) does, where the taker is its own. Else
    /// both come back.
    pub fn into_core(self, taker: Taker<N>) -> EndedPart<N, K>
        ensures own { taker.part ≡ self.part → IsOk result }
        ensures core { IfOk result (λ out. out.0 ≡ self.core) }
        ensures goes_on { IfOk result (λ out. GoesOnFrom N.past out.0.past) }
        ensures before { IfOk result (λ out. out.0.before ≡ taker.past) }
        ensures mark { IfOk result (λ out. out.1 ≡ N.mark self.part) }
        ensures reader { IfOk result (λ out. out.2.mark ≡ N.mark self.part) }
        ensures parameters { IfOk result (λ out. out.0.parameters ≡ N.parameters) }
        ensures seen { IfOk result (λ out. durable out.0.past ≤ out.2.seen) }
        ensures other { IfErr result (λ back. (back.0 ≡ self) × (back.1 ≡ taker)) }
    {
        if taker.part != self.state.part() {
            return Err((self, taker));
        }
        let ClosedPart { mark, state } = self;
        let (core, reader) = state.into_parts(taker);
        Ok((core, mark, reader))
    }
}

//! One event of a session: the memory for it, the lock, and the wait for device work where its page is in flight.

use super::SharedPool;
use crate::names::PartNames;
use crate::session::Session;
use bp_keeper::ListKeeper;
use bp_page::Refusal;
use bp_session_log::Event;
use std::sync::Wait;

impl<N: PartNames, K: ListKeeper> SharedPool<N, K> {
    ghost use Rattle.bp_shared.specs.Keeping.{Made};

    /// Takes the memory for one event, and makes it in one critical section. Where that answers `Busy`, some device work
    /// has ended at the return. `OutOfMemory` may come before the pool is asked.
    #[inline(always)]
    pub(crate) fn make<E: Event<K>, R: Wait>(
        &self,
        rt: &R,
        session: &mut Session<N, K>,
        event: E,
    ) -> Result<E::Answer, Refusal>
        requires may { E.may event session.old.client N.parameters }
        ensures { Made K.REFUSES N.parameters N.past (E.wants event) (E.does event) (E.says event)
            (E.cause event) E.passes E.places result session.old session.new }
    {
        session.book.reserve(event.room())?;
        let mut state = self.lock_and_drain(rt, session);
        let answer = state.make(&self.mark, session, event);
        self.unlock_or_wait(rt, state, &answer);
        answer
    }
}

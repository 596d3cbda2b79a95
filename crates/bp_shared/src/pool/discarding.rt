//! Discards of shared pages. They ask nothing of the device.

use super::SharedPool;
use crate::names::PartNames;
use crate::session::Session;
use bp_core::Discarded;
use bp_keeper::ListKeeper;
use bp_page::{PageNo, Refusal};
use bp_session_log::Discard;
use std::sync::Wait;

impl<N: PartNames, K: ListKeeper> SharedPool<N, K> {
    ghost use Rattle.std.specs.Prelude.{◌<◌};
    ghost use Rattle.bp_shared.specs.Calls.{DiscardsIn};

    /// Has a page leave its frame without being written out, and forgets its references: `Left`, or `Absent` where it
    /// is in no frame. Its writes that had not gone out are lost. Where the page is being read or written out, the call
    /// waits for the end of some device work and asks again. It looks at no mark.
    ///
    /// The session's list gets the events as the trail does. `Pinned`, where a client holds a pass of the page, is the
    /// reply of the last one; `TrailFull` and `OutOfMemory` as from `fix`. A silent session wants no memory for it, as
    /// for `tick`.
    pub fn discard<R: Wait>(
        &self,
        rt: &R,
        session: &mut Session<N, K>,
        page: PageNo,
    ) -> Result<Discarded, Refusal>
        requires page_in { page < N.parameters.pages }
        ensures { DiscardsIn K.REFUSES N.parameters N.past page result session.old session.new }
    {
        for _ in rt.forever() {
            match self.make(rt, session, Discard(page)) {
                Ok(how) => return Ok(how),
                Err(refusal) => match refusal {
                    // Some device work has ended: ask again.
                    Refusal::Busy => {}
                    other => return Err(other),
                },
            }
        }
        unreachable!()
    }
}

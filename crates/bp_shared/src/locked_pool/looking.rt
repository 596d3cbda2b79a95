//! A look at a page that is in a frame: its fix, its read and its unfix in one critical section.
ghost use Rattle.std.specs.Prelude.{◌≡◌, ◌≢◌, ◌+◌, ◌<◌, ◌≤◌, true, false, length};
ghost use Rattle.bp_trail.specs.Places.{resident};
ghost use Rattle.bp_shared.specs.Keeping.{Acted, EndsInRead, FillsRoom};
ghost use Rattle.bp_shared.specs.Locked.{Enters};
ghost use Rattle.bp_shared.specs.Sessions.{LookSaid};

use super::LockedPool;
use crate::names::PartNames;
use crate::session::{Past, Session, Told};
use crate::trail_ring::pass_through;
use bp_core::PoolCore;
use bp_keeper::ListKeeper;
use bp_page::{PageNo, Refusal};
use bp_session_log::Book;

impl<N: PartNames, K: ListKeeper> LockedPool<N, K> {
    /// Copies bytes of a page that is in a frame, from the offset on, as many as `into` has. The trail and the list get
    /// the fix, the read and the unfix, and the pass goes through the session's ring at once, which is empty before and
    /// after. Returns false where the page is in no frame: then nothing changes. No look at the mark is made.
    ///
    /// `TrailFull`, and `OutOfMemory`, which a silent pool never answers. Both change nothing, and leave the bytes that
    /// were there.
    #[inline(always)]
    pub(crate) fn read_resident(
        &mut self,
        session: &mut Session<N, K>,
        page: PageNo,
        offset: u32,
        into: &mut [u8],
    ) -> Result<bool, Refusal>
        requires entered { Enters N.past session.old self.old }
        requires page_in { page < N.parameters.pages }
        requires fits { offset + length into.old ≤ N.parameters.size }
        requires entries { 3 ≤ session.old.room }
        requires copies { 1 ≤ session.old.copies }
        ensures client { session.new.client ≡ session.old.client }
        ensures before { session.new.before ≡ session.old.before }
        ensures acted { Acted N.parameters N.past session.old session.new }
        ensures ends { self.new.ends ≡ self.old.ends }
        ensures outcome { LookSaid session.old.client page offset into.old result into.new
            session.old.said session.new.said }
        ensures once { result ≡ Ok true → EndsInRead page session.old session.new }
        ensures away { result ≡ Ok false → resident session.new.seen page ≡ false }
        ensures passes { session.old.passes ≤ session.new.passes }
        ensures stays { result ≡ Ok false → session.new.passes ≡ session.old.passes }
        ensures places { session.new.places ≡ session.old.places }
        ensures memory { K.REFUSES ≡ false → result ≢ Err Refusal.OutOfMemory }
        ensures room { result ≡ Err Refusal.TrailFull → FillsRoom 3 N.parameters session.new.seen }
    {
        match session
            .book
            .ask_read_resident(&mut self.core, page, offset, into)
        {
            Ok(Some(note)) => {
                let client = usize::from(session.book.client());
                let consumer = &mut self.consumers[client];
                pass_through(&mut session.producer, consumer, note);
                self.is_quiet = self.is_quiet & (consumer.cached_slots() == 0);
                self.board
                    .write::<Book<K>, Told>(&mut session.line, &session.book);
                self.seen
                    .write::<PoolCore<K>, Past>(&mut session.seen, &self.core);
                self.core.keeps_the_rules();
                Ok(true)
            }
            Ok(None) => {
                self.show(session);
                Ok(false)
            }
            Err(refusal) => {
                self.show(session);
                Err(refusal)
            }
        }
    }
}

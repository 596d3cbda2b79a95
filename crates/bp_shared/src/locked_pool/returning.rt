//! A pass that goes back in the section of the one who holds it.
ghost use Rattle.std.specs.Prelude.{◌≡◌, ◌∷◌, true};
ghost use Rattle.bp_trail.specs.declared.entries.Call.TheVariants as Call;
ghost use Rattle.bp_trail.specs.declared.entries.Reply.TheVariants as Reply;
ghost use Rattle.bp_trail.specs.Legal.{Legal};
ghost use Rattle.bp_trail.specs.Pieces.{by};
ghost use Rattle.bp_core.specs.Outcomes.{pass_is_out};
ghost use Rattle.bp_shared.specs.Posting.{TakesBack};
ghost use Rattle.bp_shared.specs.Sessions.{IsRoomy};
ghost use Rattle.bp_shared.specs.Telling.{GoesOnFrom, IsListOf};

use super::LockedPool;
use crate::names::PartNames;
use crate::session::{Past, Session};
use bp_core::{Pass, PoolCore};
use bp_keeper::ListKeeper;

impl<N: PartNames, K: ListKeeper> LockedPool<N, K> {
    /// Gives a pass back that the session's list leaves out, and shows the session the trail. The pass goes through the
    /// session's ring, which is empty in its section, before and after. It takes no memory.
    pub(crate) fn give_back(&mut self, session: &mut Session<N, K>, pass: Pass)
        requires part { session.old.part ≡ self.old.part }
        requires own { pass.client ≡ session.old.client }
        requires held { pass_is_out pass session.old.said ≡ true }
        requires emptied { session.old.free ≡ 32 }
        ensures part { session.new.part ≡ session.old.part }
        ensures client { session.new.client ≡ session.old.client }
        ensures before { session.new.before ≡ session.old.before }
        ensures said { session.new.said
            ≡ by session.old.client (Call.Unfix pass.serial pass.page) Reply.Done
            ∷ session.old.said }
        ensures free { session.new.free ≡ 32 }
        ensures roomy { IsRoomy session.old → IsRoomy session.new }
        ensures takes { TakesBack session.old.client self.old.core self.new.core }
        ensures legal { Legal self.new.core.parameters self.new.core.past }
        ensures parameters { self.new.core.parameters ≡ N.parameters }
        ensures list { IsListOf N.past self.new.core.past session.new.client session.new.said }
        ensures seen { session.new.seen ≡ self.new.core.past }
        ensures goes_on { GoesOnFrom session.old.seen session.new.seen }
    {
        if let Err((pass, _)) = session.unfix(pass) {
            // The list leaves the pass out, and the ring has room for it.
            pass.note();
            unreachable!()
        }
        self.drain_own(session);
        self.seen
            .write::<PoolCore<K>, Past>(&mut session.seen, &self.core);
    }
}

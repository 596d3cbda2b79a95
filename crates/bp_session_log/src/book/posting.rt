//! The passes that a list holds, and those that go back.
ghost use Rattle.std.specs.Prelude.{◌≡◌, ◌≤◌, ◌==◌, IsTrue, IsFalse, not, filter, reverse, vec_capacity};
ghost use Rattle.bp_trail.specs.declared.entries.Call.TheVariants as Call;
ghost use Rattle.bp_trail.specs.declared.entries.Reply.TheVariants as Reply;
ghost use Rattle.bp_trail.specs.Event.{grant, same_grant};
ghost use Rattle.bp_trail.specs.Passes.{passes_out};
ghost use Rattle.bp_trail.specs.Legal.{is_out};
ghost use Rattle.bp_core.specs.Outcomes.{pass_is_out};
ghost use Rattle.bp_session_log.specs.Books.{Tells};

use super::Book;
use bp_core::{Call, Pass, PassNote, Reply};
use bp_keeper::ListKeeper;

impl<K: ListKeeper> Book<K> {
    /// Returns true if the list gave this pass and did not give it back.
    pub fn holds(&self, pass: &Pass) -> bool
        ensures { result ≡ pass_is_out pass.now self.now.said }
    {
        self.held.has(pass.client(), pass.page(), pass.serial())
    }

    /// Takes a pass back that the list holds, and adds the entry. Returns true if it was held; else nothing changes. It
    /// takes no memory. The core is not asked: whoever calls this sees that the pass reaches it.
    pub fn tell_unfix(&mut self, note: PassNote) -> bool
        ensures was { result ≡ is_out note (passes_out self.old.said) }
        ensures whose { IsTrue result → note.client ≡ self.old.client }
        ensures told { IsTrue result →
            Tells self.old (Call.Unfix note.serial note.page) Reply.Done self.new }
        ensures same { IsFalse result → self.new ≡ self.old }
        ensures passes { self.old.passes ≤ self.new.passes }
        ensures places { self.new.places ≡ self.old.places }
    {
        if !self
            .held
            .take_back(note.client(), note.page(), note.serial())
        {
            return false;
        }
        self.held.trim_front();
        let call = Call::Unfix {
            pass: note.serial(),
            page: note.page(),
        };
        self.said.record(self.client, call, Reply::Done);
        true
    }
}

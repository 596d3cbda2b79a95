//! The entries of a session whose list is in memory, lent or handed out.
use super::Session;
use crate::names::PartNames;
use bp_core::Entry;
use bp_keeper::RecordingKeeper;
use bp_page::Refusal;

impl<N: PartNames> Session<N, RecordingKeeper> {
    ghost use Rattle.std.specs.Prelude.{◌≡◌, ◌+◌, ◌++◌, ◌≤◌, reverse, IsOk, IfOk, OnOk, OnErr, vec_capacity};
    ghost use Rattle.bp_page.specs.declared.refusals.Refusal.TheVariants as Refusal;
    ghost use Rattle.bp_session_log.specs.Books.{owed};
    ghost use Rattle.bp_shared.specs.Sessions.{IsCut, KeepsMemory};

    /// Lends the entries of the session's own list since the last cut, the oldest first.
    pub fn said(&self) -> &[Entry]
        ensures { reverse result.now ++ self.now.before ≡ self.now.said }
    {
        self.book.said()
    }

    /// Ends the session and returns the entries of its list since the last cut, the oldest first. It takes no memory.
    pub fn into_said(self) -> Vec<Entry>
        ensures { reverse result.items ++ self.before ≡ self.said }
    {
        self.book.into_said()
    }

    /// Hands out the entries of the list since the last cut, the oldest first. All else goes on: the passes held, and
    /// the room for what is owed. It takes no lock, and may be called between any two calls of the session. Memory is
    /// wanted only where entries are owed; where it is refused, which is `OutOfMemory`, nothing changes.
    pub fn cut(&mut self) -> Result<Vec<Entry>, Refusal>
        ensures entries { IfOk result (λ entries.
            reverse entries.items ++ self.old.before ≡ self.old.said) }
        ensures after { OnOk result (IsCut self.old self.new) }
        ensures memory { IfOk result (λ list. KeepsMemory self.old list) }
        ensures unchanged { OnErr result (self.new ≡ self.old) }
        ensures refused { OnErr result (result ≡ Err Refusal.OutOfMemory) }
        ensures enough { owed self.old.said ≡ 0 → IsOk result }
    {
        let alloc = self.book.alloc();
        self.cut_into(Vec::new(alloc))
    }

    /// A cut that goes on in the memory of a spare list. It is not refused where that has room for the entries that are
    /// owed: one for each pass held, and two for each ticket that the list was given and did not end. What the spare
    /// has is dropped, and none of its room is lost; the list handed out has all the memory that it had.
    pub fn cut_into(&mut self, spare: Vec<Entry>) -> Result<Vec<Entry>, Refusal>
        ensures entries { IfOk result (λ entries.
            reverse entries.items ++ self.old.before ≡ self.old.said) }
        ensures after { OnOk result (IsCut self.old self.new) }
        ensures memory { IfOk result (λ list. KeepsMemory self.old list) }
        ensures unchanged { OnErr result (self.new ≡ self.old) }
        ensures refused { OnErr result (result ≡ Err Refusal.OutOfMemory) }
        ensures room { OnOk result (vec_capacity spare ≤ self.new.room + owed self.old.said) }
        ensures enough { owed self.old.said ≤ vec_capacity spare → IsOk result }
    {
        self.book.cut(spare)
    }
}

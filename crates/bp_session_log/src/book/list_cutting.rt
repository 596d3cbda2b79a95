//! The entries of a list in memory, lent or handed out.
ghost use Rattle.std.specs.Prelude.{◌≡◌, ◌≤◌, ◌+◌, ◌++◌, IsOk, IfOk, OnOk, OnErr, reverse, vec_len, vec_capacity};
ghost use Rattle.bp_page.specs.declared.refusals.Refusal.TheVariants as Refusal;
ghost use Rattle.bp_session_log.specs.Books.{owed};

use super::Book;
use bp_core::Entry;
use bp_keeper::RecordingKeeper;
use bp_page::Refusal;

impl Book<RecordingKeeper> {
    /// Lends the entries since the last cut, the oldest first.
    pub fn said(&self) -> &[Entry]
        ensures { reverse result.now ++ self.now.before ≡ self.now.said }
    {
        self.said.entries()
    }

    /// Ends the book and returns the entries since the last cut, the oldest first. It takes no memory.
    pub fn into_said(self) -> Vec<Entry>
        ensures { reverse result.items ++ self.before ≡ self.said }
    {
        self.said.into_entries()
    }

    /// Hands out the entries since the last cut, the oldest first, and goes on in the spare's memory with room for all
    /// that is owed; what the spare has is dropped. The contracts of other calls go on over the whole list.
    ///
    /// The list handed out has all the memory that it had, and no room of the spare is lost. Where the memory for what
    /// is owed is refused, which is `OutOfMemory`, nothing changes. It is not refused where the spare has that room.
    pub fn cut(&mut self, spare: Vec<Entry>) -> Result<Vec<Entry>, Refusal>
        ensures entries { IfOk result (λ entries.
            reverse entries.items ++ self.old.before ≡ self.old.said) }
        ensures client { self.new.client ≡ self.old.client }
        ensures size { self.new.size ≡ self.old.size }
        ensures said { self.new.said ≡ self.old.said }
        ensures passes { self.new.passes ≡ self.old.passes }
        ensures places { self.new.places ≡ self.old.places }
        ensures before { OnOk result (self.new.before ≡ self.old.said) }
        ensures unchanged { OnErr result (self.new ≡ self.old) }
        ensures refused { OnErr result (result ≡ Err Refusal.OutOfMemory) }
        ensures memory { IfOk result (λ list.
            vec_capacity list ≡ self.old.entries + (vec_len list + owed self.old.said)) }
        ensures room { OnOk result (vec_capacity spare ≤ self.new.entries + owed self.old.said) }
        ensures enough { owed self.old.said ≤ vec_capacity spare → IsOk result }
    {
        let entries = self
            .said
            .cut(spare, self.held.len() + 2 * self.tickets, false)?;
        Ok(entries)
    }
}

//! The entries that a list gets, each kept with what is owed after it. None of these takes memory.
ghost use Rattle.std.specs.Prelude.{◌≡◌, ◌≤◌, ◌<◌, ◌+◌, ◌-◌, ◌*◌, ◌∷◌, true, IfSome, length};
ghost use Rattle.std.specs.Prelude.{reverse, vec_len, vec_capacity};
ghost use Rattle.bp_trail.specs.declared.entries.Call.TheVariants as Call;
ghost use Rattle.bp_trail.specs.declared.entries.Reply.TheVariants as Reply;
ghost use Rattle.bp_session_log.specs.Books.{OwesWriteEnd, SameOwner, Tells, plain_call, plain_reply};
ghost use Rattle.bp_session_log.specs.Turns.{and_told, refusal_reply};

use super::Book;
use bp_core::{Call, Pass, ReadTicket, Reply, WriteTicket};
use bp_keeper::ListKeeper;
use bp_page::{Image, Lsn, PageNo, Refusal};
use bp_trail::Grant;

/// The reply in the entry of a refusal, or `None` where the refusal adds no entry.
fn reply_of(refusal: &Refusal) -> Option<Reply>
    ensures reply { result ≡ refusal_reply refusal.now }
    ensures plain { IfSome result (λ reply. plain_reply reply ≡ true) }
{
    match refusal {
        Refusal::NoVictim => Some(Reply::NoVictim),
        Refusal::NeedLog(lsn) => Some(Reply::NeedLog(*lsn)),
        Refusal::Busy => Some(Reply::Busy),
        Refusal::Pinned => Some(Reply::Pinned),
        _ => None,
    }
}

impl<K: ListKeeper> Book<K> {
    /// A pass or a ticket of the list's client.
    pub(super) fn grant(&self, page: PageNo, serial: u64) -> Grant
        ensures { result ≡ record { client = self.now.client; page = page; serial = serial } }
    {
        Grant {
            client: self.client,
            page,
            serial,
        }
    }

    /// Adds an entry by which no pass or ticket is given or given back.
    pub(crate) fn tell(&mut self, call: Call, reply: Reply)
        requires plain { plain_call call ≡ true }
        requires gives_none { plain_reply reply ≡ true }
        requires room { 0 < self.old.entries }
        ensures told { Tells self.old call reply self.new }
        ensures entries { self.new.entries + 1 ≡ self.old.entries }
        ensures passes { self.new.passes ≡ self.old.passes }
        ensures places { self.new.places ≡ self.old.places }
        ensures copies { self.new.copies ≡ self.old.copies }
    {
        self.said.record(self.client, call, reply);
    }

    /// Adds the entry of a read by a pass, with a copy of the image.
    pub(crate) fn tell_read(&mut self, pass: &Pass, image: &Image)
        requires size { length image.now ≡ self.old.size }
        requires room { 0 < self.old.entries }
        requires copies { 0 < self.old.copies }
        ensures told { Tells self.old (Call.Read pass.now.serial pass.now.page)
            (Reply.Content image.now) self.new }
        ensures passes { self.new.passes ≡ self.old.passes }
        ensures places { self.new.places ≡ self.old.places }
    {
        let copy = self.copy_of(image);
        let by = self.grant(pass.page(), pass.serial());
        self.said.record_read(by, image, copy);
    }

    /// Adds the entry of a write by a pass, with the bytes.
    pub(crate) fn tell_write(
        &mut self,
        pass: &Pass,
        offset: u32,
        bytes: &[u8],
        lsn: Lsn,
        spare: K::SpareBytes,
    )
        requires room { 0 < self.old.entries }
        requires spare { K.serves_bytes spare bytes.now }
        ensures told { Tells self.old
            (Call.Write pass.now.serial pass.now.page offset bytes.now lsn) Reply.Done self.new }
        ensures passes { self.new.passes ≡ self.old.passes }
        ensures places { self.new.places ≡ self.old.places }
    {
        let by = self.grant(pass.page(), pass.serial());
        self.said.record_write(by, offset, bytes, lsn, spare);
    }

    /// Adds the entry of a pass that a fix gave at once, and holds the pass.
    pub(crate) fn tell_hit(&mut self, page: PageNo, pass: Pass) -> Pass
        requires whose { pass.client ≡ self.old.client }
        requires of_page { pass.page ≡ page }
        requires entries { 2 ≤ self.old.entries }
        requires passes { 1 ≤ self.old.passes }
        ensures pass { result ≡ pass }
        ensures told { Tells self.old (Call.Fix page) (Reply.Hit pass.serial) self.new }
        ensures passes { self.old.passes ≤ self.new.passes + 1 }
        ensures places { self.new.places ≡ self.old.places }
    {
        let note = pass.note();
        let held = self.grant(page, note.serial());
        self.said
            .record(self.client, Call::Fix(page), Reply::Hit(note.serial()));
        self.held.add(held);
        note.pass()
    }

    /// Adds the entry of a ticket to read, with room for its end, the pass and the unfix.
    pub(crate) fn tell_load(&mut self, ticket: ReadTicket, evicted: Option<PageNo>) -> ReadTicket
        requires whose { ticket.client ≡ self.old.client }
        requires entries { 3 ≤ self.old.entries }
        requires passes { 1 ≤ self.old.passes }
        requires copies { 1 ≤ self.old.copies }
        ensures ticket { result ≡ ticket }
        ensures told { Tells self.old (Call.Fix ticket.page)
            (Reply.Load ticket.serial evicted) self.new }
        ensures passes { self.old.passes ≤ self.new.passes + 1 }
        ensures places { self.old.places ≤ self.new.places + 1 }
    {
        let reply = Reply::Load {
            ticket: ticket.serial(),
            evicted,
        };
        self.said
            .record(self.client, Call::Fix(ticket.page()), reply);
        self.tickets += 1;
        ticket
    }

    /// Adds the entry of a ticket to write, with room for its end.
    pub(crate) fn tell_write_first(&mut self, call: Call, ticket: WriteTicket) -> WriteTicket
        requires plain { plain_call call ≡ true }
        requires whose { ticket.client ≡ self.old.client }
        requires size { length ticket.image ≡ self.old.size }
        requires entries { 3 ≤ self.old.entries }
        requires passes { 1 ≤ self.old.passes }
        requires copies { 2 ≤ self.old.copies }
        ensures ticket { result ≡ ticket }
        ensures told { Tells self.old call
            (Reply.WriteFirst ticket.serial ticket.page ticket.image) self.new }
        ensures passes { self.old.passes ≤ self.new.passes + 1 }
        ensures places { self.old.places ≤ self.new.places + 1 }
    {
        let copy = self.copy_of(ticket.image());
        let given = self.grant(ticket.page(), ticket.serial());
        self.said.record_begin(call, given, ticket.image(), copy);
        self.tickets += 1;
        ticket
    }

    /// Adds the entry of an event that was refused, if the refusal is the reply of one.
    pub(crate) fn tell_refused(&mut self, call: Call, refusal: &Refusal)
        requires plain { plain_call call ≡ true }
        requires room { 0 < self.old.entries }
        ensures owner { SameOwner self.old self.new }
        ensures said { self.new.said
            ≡ and_told self.old.client call (refusal_reply refusal.now) self.old.said }
        ensures passes { self.new.passes ≡ self.old.passes }
        ensures places { self.new.places ≡ self.old.places }
    {
        if let Some(reply) = reply_of(refusal) {
            self.tell(call, reply);
        }
    }

    /// Adds the end of the write-out with this ticket, which the newest entry began.
    pub(super) fn tell_write_end(&mut self, ticket: u64, page: PageNo, good: bool, reply: Reply)
        requires gives_none { plain_reply reply ≡ true }
        requires owes { OwesWriteEnd self.old.client ticket self.old.said }
        ensures told { Tells self.old (Call.WriteEnd ticket page good) reply self.new }
        ensures passes { self.old.passes + 1 ≤ self.new.passes }
        ensures places { self.old.places + 1 ≤ self.new.places }
    {
        let call = Call::WriteEnd { ticket, page, good };
        self.said.record(self.client, call, reply);
        self.tickets -= 1;
    }
}

//! The events of a session, each in a critical section whose rings are drained. The session's list gets the event too;
//! a fix and a flush first look at the mark once. At the end both lines of the session are written, with its list and
//! with the trail. None takes memory for the list: what an event wants there is taken before the lock.
ghost use Rattle.std.specs.Prelude.{◌≡◌, ◌≢◌, ◌+◌, ◌%◌, ◌^◌, ◌<◌, ◌≤◌, false, true, length, IfOk, IfErr};
ghost use Rattle.bp_session_log.specs.Books.{OwesRead, OwesWrite};
ghost use Rattle.bp_session_log.specs.Events.{Suffices};
ghost use Rattle.bp_session_log.specs.Turns.{EndReadOutcome, EndWriteOutcome};
ghost use Rattle.bp_session_log.specs.Turns.{ReadSaid, ReadIntoSaid, WriteSaid};
ghost use Rattle.bp_session_log.specs.Causes.{EndsRead, EndsWrite};
ghost use Rattle.bp_core.specs.Outcomes.{pass_is_out, ReadOutcome, ReadIntoOutcome, WriteOutcome};
ghost use Rattle.bp_shared.specs.Keeping.{Acted, FillsRoom, Saw};
ghost use Rattle.bp_shared.specs.Locked.{Enters, InStep};

use super::LockedPool;
use crate::names::PartNames;
use crate::session::{Past, Session, Told};
use bp_core::{Ended, Pass, PoolCore};
use bp_keeper::ListKeeper;
use bp_mark::Mark;
use bp_page::{Image, Lsn, PageNo, PortFault, Refusal};
use bp_session_log::{Book, Event, PendingRead, PendingWrite};

impl<N: PartNames, K: ListKeeper> LockedPool<N, K> {
    /// Makes one event of the session's client, and ends the section: both lines of the session are written then.
    #[inline(always)]
    pub(crate) fn make<E: Event<K>>(
        &mut self,
        mark: &Mark,
        session: &mut Session<N, K>,
        event: E,
    ) -> Result<E::Answer, Refusal>
        requires entered { Enters N.past session.old self.old }
        requires mark { mark.now ≡ N.mark self.old.part }
        requires may { E.may event session.old.client N.parameters }
        requires room { Suffices (E.wants event) session.old.room session.old.passes
            session.old.copies }
        ensures client { session.new.client ≡ session.old.client }
        ensures before { session.new.before ≡ session.old.before }
        ensures acted { Acted N.parameters N.past session.old session.new }
        ensures ends { self.new.ends ≡ self.old.ends }
        ensures outcome { E.says event session.old.client result session.old.said session.new.said }
        ensures passes { session.old.passes ≤ session.new.passes + E.passes result }
        ensures places { session.old.places ≤ session.new.places + E.places result }
        ensures why { IfErr result (λ why. E.cause event why N.parameters session.new.seen) }
        ensures saw { Saw (λ durable. E.does event session.old.client durable result)
            session.old session.new }
    {
        let answer = event.ask(&mut session.book, &mut self.core, &mut self.reader, mark);
        self.board
            .write::<Book<K>, Told>(&mut session.line, &session.book);
        self.seen
            .write::<PoolCore<K>, Past>(&mut session.seen, &self.core);
        self.core.keeps_the_rules();
        answer
    }

    /// Ends a read. It takes no memory. The pool knows the ticket: it is the newest entry that the list told, and only its
    /// own client can end it.
    pub(crate) fn end_read(
        &mut self,
        session: &mut Session<N, K>,
        ticket: PendingRead,
        read: Result<Image, PortFault>,
    ) -> Result<Pass, Refusal>
        requires entered { Enters N.past session.old self.old }
        requires owes { OwesRead session.old.client ticket session.old.said }
        requires size { IfOk read (λ image. length image ≡ N.parameters.size) }
        ensures client { session.new.client ≡ session.old.client }
        ensures before { session.new.before ≡ session.old.before }
        ensures acted { Acted N.parameters N.past session.old session.new }
        ensures outcome { EndReadOutcome ticket read result session.old.said session.new.said }
        ensures passes { session.old.passes ≤ session.new.passes }
        ensures places { session.old.places + 1 ≤ session.new.places }
        ensures ends { self.new.ends ≡ (self.old.ends + 1) % 2 ^ 64 }
        ensures known { result ≢ Err Refusal.UnknownTicket }
        ensures in_step { InStep (λ core after. EndsRead core ticket read result after)
            self.old session.old.said self.new session.new.said }
    {
        let ended = session.book.end_read(&mut self.core, ticket, read);
        self.ends = self.ends.wrapping_add(1);
        self.board
            .write::<Book<K>, Told>(&mut session.line, &session.book);
        self.seen
            .write::<PoolCore<K>, Past>(&mut session.seen, &self.core);
        self.core.keeps_the_rules();
        ended
    }

    /// Ends a write-out. It takes no memory. The pool knows the ticket, as at the end of a read.
    pub(crate) fn end_write(
        &mut self,
        session: &mut Session<N, K>,
        ticket: PendingWrite,
        written: Result<(), PortFault>,
    ) -> Result<Ended, Refusal>
        requires entered { Enters N.past session.old self.old }
        requires owes { OwesWrite session.old.client ticket session.old.said }
        ensures client { session.new.client ≡ session.old.client }
        ensures before { session.new.before ≡ session.old.before }
        ensures acted { Acted N.parameters N.past session.old session.new }
        ensures outcome { EndWriteOutcome ticket written result session.old.said session.new.said }
        ensures passes { session.old.passes + 1 ≤ session.new.passes }
        ensures places { session.old.places + 1 ≤ session.new.places }
        ensures ends { self.new.ends ≡ (self.old.ends + 1) % 2 ^ 64 }
        ensures known { result ≢ Err Refusal.UnknownTicket }
        ensures in_step { InStep (λ core after. EndsWrite core ticket written result after)
            self.old session.old.said self.new session.new.said }
    {
        let ended = session.book.end_write_out(&mut self.core, ticket, written);
        self.ends = self.ends.wrapping_add(1);
        self.board
            .write::<Book<K>, Told>(&mut session.line, &session.book);
        self.seen
            .write::<PoolCore<K>, Past>(&mut session.seen, &self.core);
        self.core.keeps_the_rules();
        ended
    }

    /// Reads the page of a pass of the list's client.
    pub(crate) fn read(
        &mut self,
        session: &mut Session<N, K>,
        pass: &Pass,
    ) -> Result<Image, Refusal>
        requires entered { Enters N.past session.old self.old }
        requires own { pass.now.client ≡ session.old.client }
        requires room { 0 < session.old.room }
        requires copies { 0 < session.old.copies }
        ensures size { IfOk result (λ image. length image ≡ N.parameters.size) }
        ensures memory { result ≡ Err Refusal.OutOfMemory
            → pass_is_out pass.now session.new.seen ≡ true }
        ensures unknown { result ≡ Err Refusal.UnknownPass
            → pass_is_out pass.now session.old.said ≡ false }
        ensures client { session.new.client ≡ session.old.client }
        ensures before { session.new.before ≡ session.old.before }
        ensures acted { Acted N.parameters N.past session.old session.new }
        ensures ends { self.new.ends ≡ self.old.ends }
        ensures outcome { ReadSaid session.old.client pass.now result
            session.old.said session.new.said }
        ensures passes { session.new.passes ≡ session.old.passes }
        ensures places { session.new.places ≡ session.old.places }
        ensures room { result ≡ Err Refusal.TrailFull → FillsRoom 1 N.parameters session.new.seen }
        ensures in_step { InStep (λ core after. ReadOutcome core pass.now result after)
            self.old session.old.said self.new session.new.said }
    {
        let answer = session.book.ask_read(&mut self.core, pass);
        self.board
            .write::<Book<K>, Told>(&mut session.line, &session.book);
        self.seen
            .write::<PoolCore<K>, Past>(&mut session.seen, &self.core);
        self.core.keeps_the_rules();
        answer
    }

    /// Copies bytes of the page of a pass of the list's client.
    #[inline(always)]
    pub(crate) fn read_into(
        &mut self,
        session: &mut Session<N, K>,
        pass: &Pass,
        offset: u32,
        into: &mut [u8],
    ) -> Result<(), Refusal>
        requires entered { Enters N.past session.old self.old }
        requires own { pass.now.client ≡ session.old.client }
        requires fits { offset + length into.old ≤ N.parameters.size }
        requires room { 0 < session.old.room }
        requires copies { 0 < session.old.copies }
        ensures unknown { result ≡ Err Refusal.UnknownPass
            → pass_is_out pass.now session.old.said ≡ false }
        ensures part { self.new.part ≡ self.old.part }
        ensures client { session.new.client ≡ session.old.client }
        ensures before { session.new.before ≡ session.old.before }
        ensures acted { Acted N.parameters N.past session.old session.new }
        ensures ends { self.new.ends ≡ self.old.ends }
        ensures outcome { ReadIntoSaid session.old.client pass.now offset into.old result into.new
            session.old.said session.new.said }
        ensures passes { session.new.passes ≡ session.old.passes }
        ensures places { session.new.places ≡ session.old.places }
        ensures memory { K.REFUSES ≡ false → result ≢ Err Refusal.OutOfMemory }
        ensures room { result ≡ Err Refusal.TrailFull → FillsRoom 1 N.parameters session.new.seen }
        ensures in_step { InStep
            (λ core after. ReadIntoOutcome core pass.now offset into.old result into.new after)
            self.old session.old.said self.new session.new.said }
    {
        let answer = session
            .book
            .ask_read_into(&mut self.core, pass, offset, into);
        self.board
            .write::<Book<K>, Told>(&mut session.line, &session.book);
        self.seen
            .write::<PoolCore<K>, Past>(&mut session.seen, &self.core);
        self.core.keeps_the_rules();
        answer
    }

    /// Writes to the page of a pass of the list's client.
    pub(crate) fn write(
        &mut self,
        session: &mut Session<N, K>,
        pass: &Pass,
        offset: u32,
        bytes: &[u8],
        lsn: Lsn,
        spare: K::SpareBytes,
    ) -> Result<(), Refusal>
        requires entered { Enters N.past session.old self.old }
        requires own { pass.now.client ≡ session.old.client }
        requires fits { offset + length bytes.now ≤ N.parameters.size }
        requires room { 0 < session.old.room }
        requires spare { K.serves_bytes spare bytes.now }
        ensures unknown { result ≡ Err Refusal.UnknownPass
            → pass_is_out pass.now session.old.said ≡ false }
        ensures client { session.new.client ≡ session.old.client }
        ensures before { session.new.before ≡ session.old.before }
        ensures acted { Acted N.parameters N.past session.old session.new }
        ensures ends { self.new.ends ≡ self.old.ends }
        ensures outcome { WriteSaid session.old.client pass.now offset bytes.now lsn result
            session.old.said session.new.said }
        ensures passes { session.new.passes ≡ session.old.passes }
        ensures places { session.new.places ≡ session.old.places }
        ensures memory { K.REFUSES ≡ false → result ≢ Err Refusal.OutOfMemory }
        ensures room { result ≡ Err Refusal.TrailFull → FillsRoom 1 N.parameters session.new.seen }
        ensures in_step { InStep
            (λ core after. WriteOutcome core pass.now offset bytes.now lsn result after)
            self.old session.old.said self.new session.new.said }
    {
        let answer = session
            .book
            .ask_write(&mut self.core, pass, offset, bytes, lsn, spare);
        self.board
            .write::<Book<K>, Told>(&mut session.line, &session.book);
        self.seen
            .write::<PoolCore<K>, Past>(&mut session.seen, &self.core);
        self.core.keeps_the_rules();
        answer
    }
}

//! `PartedPool`: the parts side by side.
use crate::passes::PartPass;
use crate::sessions::PartedSession;
use bp_core::{Discarded, Flushed};
use bp_keeper::{ListKeeper, RecordingKeeper};
use bp_page::{Image, Lsn, PageNo, Refusal};
use bp_ports::{Port, Store, StripedPort};
use bp_shared::PartNames;
use bp_shared::pool::SharedPool;
use bp_shared::session::Session;
use std::marker::{Brand, Model};
use std::sync::Wait;

mod checkpoint;
mod whole_file;

/// How many parts there are, which the pool and its sessions agree on. It has no functions: a program names `Brand`,
/// and each call picks what it stands for.
pub trait PartCount {
    ghost use Rattle.std.specs.Prelude.{ℕ};

    ghost parts: { ℕ };
}

impl PartCount for Brand {
    ghost parts = { 1 };
}

/// Shared pools side by side, 1 to 64. Page p of the file is in part p mod n.
#[derive(Drop)]
pub struct PartedPool<N: PartNames + PartCount, K: ListKeeper = RecordingKeeper> {
    parts: Vec<SharedPool<N, K>>,
}

impl<N: PartNames + PartCount, K: ListKeeper> Model for PartedPool<N, K> {
    ghost use Rattle.std.specs.Prelude.{◌≡◌, ◌<◌, ◌≤◌, vec_len};
    ghost use Rattle.bp_parts.specs.Parts.{AreNumbered};

    ghost Value = { Unit {0} };

    ghost view = { λ p. tt };

    ghost invariant = { λ p. (vec_len p.parts ≡ N.parts) × (0 < N.parts) × (N.parts ≤ 64)
        × AreNumbered p.parts.items };
}

impl<N: PartNames + PartCount, K: ListKeeper> PartedPool<N, K> {
    ghost use Rattle.std.specs.Prelude.{◌≡◌, ◌<◌, ◌≤◌, ◌*◌, ◌/◌, ◌%◌, ◌+◌, length, vec_len, IfOk, IfErr, Ok, Err};
    ghost use Rattle.bp_page.specs.declared.refusals.Refusal.TheVariants as Refusal;
    ghost use Rattle.bp_session_log.specs.Turns.{ReadIntoSaid, WriteSaid};
    ghost use Rattle.bp_core.specs.Work.{MadeBlank};
    ghost use Rattle.bp_shared.specs.Sessions.{DoesWorkSaid, PageReadSaid};
    ghost use Rattle.bp_shared.specs.Telling.{Sees};
    ghost use Rattle.bp_shared.specs.Writing.{WithLsnSeen};
    ghost use Rattle.bp_ports.specs.Stripes.{ReadsStriped, WritesStriped, turned};
    ghost use Rattle.bp_parts.specs.Parts.{AreNumbered, InEachPart, InPart, OfPart, UnfixedIn, part_of, page_in_part};
    ghost use Rattle.bp_shared.specs.Calls.{DiscardsIn, FixesIn, FlushesIn, LooksIn, PageReadsIn, PurgesIn, ReadsIn, TicksIn};

    /// Takes the parts, in order, which are 1 to 64.
    pub fn new(parts: Vec<SharedPool<N, K>>) -> PartedPool<N, K>
        requires all { vec_len parts ≡ N.parts }
        requires some { 0 < N.parts }
        requires few { N.parts ≤ 64 }
        requires numbered { AreNumbered parts.items }
    {
        PartedPool { parts }
    }

    /// Returns the number of parts, 1 to 64.
    pub fn count(&self) -> u8
        ensures parts { result ≡ N.parts }
        ensures some { 0 < result }
    {
        self.parts.len() as u8
    }

    /// Returns the part of a page of the file.
    pub fn part_of(&self, page: PageNo) -> u8
        ensures part { result ≡ part_of N.parts page }
        ensures few { result < N.parts }
    {
        (page.number() % self.parts.len() as u64) as u8
    }

    /// Lends the pools of the parts, in order.
    pub(crate) fn parts(&self) -> &[SharedPool<N, K>]
        ensures count { length result.now ≡ N.parts }
        ensures numbered { AreNumbered result.now }
    {
        &self.parts
    }

    /// Returns the pools of the parts, in order, each to be closed.
    pub fn into_parts(self) -> Vec<SharedPool<N, K>>
        ensures count { vec_len result ≡ N.parts }
        ensures numbered { AreNumbered result.items }
    {
        let PartedPool { parts } = self;
        parts
    }

    /// Returns the part of a page of the file, and its number there.
    fn place(&self, page: PageNo) -> (u8, PageNo)
        requires { page < N.parts * N.parameters.pages }
        ensures part { result.0 ≡ part_of N.parts page }
        ensures few { result.0 < N.parts }
        ensures page { result.1 ≡ page_in_part N.parts page }
        ensures page_in { result.1 < N.parameters.pages }
    {
        let count = self.parts.len() as u64;
        let number = page.number();
        ((number % count) as u8, PageNo::new(number / count))
    }

    /// Lends the pool of a session's part, which is found by the session's own number. So a session is asked of no
    /// other pool, in which it would wait for ever.
    fn pool_of(&self, session: &Session<N, K>) -> &SharedPool<N, K>
        requires { session.now.part < N.parts }
        ensures own { result.now ≡ session.now.part }
    {
        &self.parts[session.part() as usize]
    }

    /// Fixes a page of the file in its part, as `SharedPool::fix` does, through the port, which it turns to that part's
    /// stripe. No lock but that part's is taken, and the victim is that part's own.
    pub fn fix<S: Store, R: Wait>(
        &self,
        rt: &R,
        session: &mut PartedSession<N, K>,
        port: &mut StripedPort<S>,
        page: PageNo,
    ) -> Result<PartPass, Refusal>
        requires page_in { page < N.parts * N.parameters.pages }
        requires stripes { port.old.parts ≡ N.parts }
        requires size { port.old.file.device.size ≡ N.parameters.size }
        ensures client { session.new.client ≡ session.old.client }
        ensures device { port.new.file.device ≡ port.old.file.device }
        ensures stripes { port.new.parts ≡ port.old.parts }
        ensures part { IfOk result (λ pass. pass.part < N.parts) }
        ensures outcome { (given : _) × OfPart (part_of N.parts page) result given
            × InPart (part_of N.parts page) session.old session.new (λ old new.
            FixesIn K.REFUSES N.parameters N.past (page_in_part N.parts page) given old new
            × DoesWorkSaid (ReadsStriped S.reads) (WithLsnSeen old new (WritesStriped S.writes))
            old.said new.said (turned (part_of N.parts page) port.old) port.new) }
    {
        let (part, page) = self.place(page);
        port.turn_to(u64::from(part));
        let mine = &mut session.sessions[part as usize];
        match self.pool_of(mine).fix(rt, mine, port, page) {
            Ok(pass) => Ok(PartPass { part, pass }),
            Err(refusal) => Err(refusal),
        }
    }

    /// Fixes a page that is new, as `SharedPool::fix_new` does, in its part. The port is not asked to read it.
    pub fn fix_new<S: Store, R: Wait>(
        &self,
        rt: &R,
        session: &mut PartedSession<N, K>,
        port: &mut StripedPort<S>,
        page: PageNo,
    ) -> Result<PartPass, Refusal>
        requires page_in { page < N.parts * N.parameters.pages }
        requires stripes { port.old.parts ≡ N.parts }
        requires size { port.old.file.device.size ≡ N.parameters.size }
        ensures client { session.new.client ≡ session.old.client }
        ensures device { port.new.file.device ≡ port.old.file.device }
        ensures stripes { port.new.parts ≡ port.old.parts }
        ensures part { IfOk result (λ pass. pass.part < N.parts) }
        ensures outcome { (given : _) × OfPart (part_of N.parts page) result given
            × InPart (part_of N.parts page) session.old session.new (λ old new.
            FixesIn K.REFUSES N.parameters N.past (page_in_part N.parts page) given old new
            × DoesWorkSaid (λ at. MadeBlank at.file.device.size at)
            (WithLsnSeen old new (WritesStriped S.writes))
            old.said new.said (turned (part_of N.parts page) port.old) port.new) }
    {
        let (part, page) = self.place(page);
        port.turn_to(u64::from(part));
        let mine = &mut session.sessions[part as usize];
        match self.pool_of(mine).fix_new(rt, mine, port, page) {
            Ok(pass) => Ok(PartPass { part, pass }),
            Err(refusal) => Err(refusal),
        }
    }

    /// Copies bytes of a page of the file, as `SharedPool::read_page_into` does in its part: a fix, a read and an unfix.
    /// Where the page is in a frame, that part's lock is taken once, and the port is asked nothing.
    #[inline(always)]
    pub fn read_page_into<S: Store, R: Wait>(
        &self,
        rt: &R,
        session: &mut PartedSession<N, K>,
        port: &mut StripedPort<S>,
        page: PageNo,
        offset: u32,
        into: &mut [u8],
    ) -> Result<(), Refusal>
        requires page_in { page < N.parts * N.parameters.pages }
        requires stripes { port.old.parts ≡ N.parts }
        requires size { port.old.file.device.size ≡ N.parameters.size }
        requires fits { offset + length into.old ≤ N.parameters.size }
        ensures client { session.new.client ≡ session.old.client }
        ensures device { port.new.file.device ≡ port.old.file.device }
        ensures stripes { port.new.parts ≡ port.old.parts }
        ensures outcome { InPart (part_of N.parts page) session.old session.new (λ old new.
            PageReadsIn K.REFUSES N.parameters N.past (page_in_part N.parts page) result old new
            × PageReadSaid old.client (page_in_part N.parts page) offset into.old result into.new
            old.said new.said
            × DoesWorkSaid (ReadsStriped S.reads) (WithLsnSeen old new (WritesStriped S.writes))
            old.said new.said (turned (part_of N.parts page) port.old) port.new) }
    {
        let (part, page) = self.place(page);
        port.turn_to(u64::from(part));
        let mine = &mut session.sessions[part as usize];
        self.pool_of(mine)
            .read_page_into(rt, mine, port, page, offset, into)
    }

    /// Gives a pass back in its part, as `SharedPool::unfix` does, and refused as there: no lock is taken. A pass of a
    /// part that there is not is `UnknownPass`.
    pub fn unfix(
        &self,
        session: &mut PartedSession<N, K>,
        pass: PartPass,
    ) -> Result<(), (PartPass, Refusal)>
        ensures client { session.new.client ≡ session.old.client }
        ensures outcome { UnfixedIn N.parts session.old pass result session.new }
    {
        let PartPass { part, pass } = pass;
        let at = part as usize;
        if at >= self.parts.len() {
            return Err((PartPass { part, pass }, Refusal::UnknownPass));
        }
        let mine = &mut session.sessions[at];
        match self.pool_of(mine).unfix(mine, pass) {
            Ok(()) => Ok(()),
            Err((pass, refusal)) => Err((PartPass { part, pass }, refusal)),
        }
    }

    /// Gives a pass back as `unfix` does. Where the ring of its part is full it takes that part's lock once, as
    /// `SharedPool::unfix_draining` does. `UnknownPass` alone, which hands the pass back and changes nothing.
    pub fn unfix_draining<R: Wait>(
        &self,
        rt: &R,
        session: &mut PartedSession<N, K>,
        pass: PartPass,
    ) -> Result<(), (PartPass, Refusal)>
        ensures client { session.new.client ≡ session.old.client }
        ensures outcome { UnfixedIn N.parts session.old pass result session.new }
        ensures room { IfErr result (λ back. back.1 ≡ Refusal.UnknownPass) }
    {
        let PartPass { part, pass } = pass;
        let at = part as usize;
        if at >= self.parts.len() {
            return Err((PartPass { part, pass }, Refusal::UnknownPass));
        }
        let mine = &mut session.sessions[at];
        match self.pool_of(mine).unfix_draining(rt, mine, pass) {
            Ok(()) => Ok(()),
            Err((pass, why)) => Err((PartPass { part, pass }, why)),
        }
    }

    /// Forgets old references of one part, as `SharedPool::purge` does, and returns the number of their pages.
    pub fn purge<R: Wait>(
        &self,
        rt: &R,
        session: &mut PartedSession<N, K>,
        part: u8,
    ) -> Result<u64, Refusal>
        requires part { part < N.parts }
        ensures client { session.new.client ≡ session.old.client }
        ensures outcome { InPart part session.old session.new (λ old new.
            PurgesIn K.REFUSES N.parameters N.past result old new) }
    {
        let mine = &mut session.sessions[part as usize];
        self.pool_of(mine).purge(rt, mine)
    }

    /// Moves the clock of one part on, as `SharedPool::tick` does.
    pub fn tick<R: Wait>(
        &self,
        rt: &R,
        session: &mut PartedSession<N, K>,
        part: u8,
        n: u64,
    ) -> Result<(), Refusal>
        requires part { part < N.parts }
        ensures client { session.new.client ≡ session.old.client }
        ensures outcome { InPart part session.old session.new (λ old new.
            TicksIn K.REFUSES N.parameters N.past n result old new) }
    {
        let mine = &mut session.sessions[part as usize];
        self.pool_of(mine).tick(rt, mine, n)
    }

    /// Writes a page of the file out in its part, as `SharedPool::flush` does.
    pub fn flush<S: Store, R: Wait>(
        &self,
        rt: &R,
        session: &mut PartedSession<N, K>,
        port: &mut StripedPort<S>,
        page: PageNo,
    ) -> Result<Flushed, Refusal>
        requires page_in { page < N.parts * N.parameters.pages }
        requires stripes { port.old.parts ≡ N.parts }
        ensures client { session.new.client ≡ session.old.client }
        ensures device { port.new.file.device ≡ port.old.file.device }
        ensures stripes { port.new.parts ≡ port.old.parts }
        ensures outcome { InPart (part_of N.parts page) session.old session.new (λ old new.
            FlushesIn K.REFUSES N.parameters N.past (page_in_part N.parts page) result old new
            × DoesWorkSaid (ReadsStriped S.reads) (WithLsnSeen old new (WritesStriped S.writes))
            old.said new.said (turned (part_of N.parts page) port.old) port.new) }
    {
        let (part, page) = self.place(page);
        port.turn_to(u64::from(part));
        let mine = &mut session.sessions[part as usize];
        self.pool_of(mine).flush(rt, mine, port, page)
    }

    /// Has a page of the file leave its frame unwritten, as `SharedPool::discard` does, in its part.
    pub fn discard<R: Wait>(
        &self,
        rt: &R,
        session: &mut PartedSession<N, K>,
        page: PageNo,
    ) -> Result<Discarded, Refusal>
        requires page_in { page < N.parts * N.parameters.pages }
        ensures client { session.new.client ≡ session.old.client }
        ensures outcome { InPart (part_of N.parts page) session.old session.new (λ old new.
            DiscardsIn K.REFUSES N.parameters N.past (page_in_part N.parts page) result old new) }
    {
        let (part, page) = self.place(page);
        let mine = &mut session.sessions[part as usize];
        self.pool_of(mine).discard(rt, mine, page)
    }

    /// Returns a copy of the image of a pass's page, as `SharedPool::read` does.
    pub fn read<R: Wait>(
        &self,
        rt: &R,
        session: &mut PartedSession<N, K>,
        pass: &PartPass,
    ) -> Result<Image, Refusal>
        requires part { pass.now.part < N.parts }
        ensures client { session.new.client ≡ session.old.client }
        ensures size { IfOk result (λ image. length image ≡ N.parameters.size) }
        ensures outcome { InPart pass.now.part session.old session.new (λ old new.
            ReadsIn K.REFUSES N.parameters N.past pass.now.pass result old new) }
    {
        let mine = &mut session.sessions[pass.part as usize];
        self.pool_of(mine).read(rt, mine, &pass.pass)
    }

    /// Copies bytes of a pass's page, as `SharedPool::read_into` does.
    pub fn read_into<R: Wait>(
        &self,
        rt: &R,
        session: &mut PartedSession<N, K>,
        pass: &PartPass,
        offset: u32,
        into: &mut [u8],
    ) -> Result<(), Refusal>
        requires part { pass.now.part < N.parts }
        requires fits { offset + length into.old ≤ N.parameters.size }
        ensures client { session.new.client ≡ session.old.client }
        ensures outcome { InPart pass.now.part session.old session.new (λ old new.
            LooksIn K.REFUSES N.parameters N.past pass.now.pass result old new
            × ReadIntoSaid old.client pass.now.pass offset into.old result into.new
            old.said new.said) }
    {
        let mine = &mut session.sessions[pass.part as usize];
        self.pool_of(mine)
            .read_into(rt, mine, &pass.pass, offset, into)
    }

    /// Writes bytes into a pass's page, as `SharedPool::write_from` does.
    pub fn write_from<R: Wait>(
        &self,
        rt: &R,
        session: &mut PartedSession<N, K>,
        pass: &PartPass,
        offset: u32,
        bytes: &[u8],
        lsn: Lsn,
    ) -> Result<(), Refusal>
        requires part { pass.now.part < N.parts }
        requires fits { offset + length bytes.now ≤ N.parameters.size }
        ensures client { session.new.client ≡ session.old.client }
        ensures outcome { InPart pass.now.part session.old session.new (λ old new.
            LooksIn K.REFUSES N.parameters N.past pass.now.pass result old new
            × WriteSaid old.client pass.now.pass offset bytes.now lsn result old.said new.said) }
    {
        let mine = &mut session.sessions[pass.part as usize];
        self.pool_of(mine)
            .write_from(rt, mine, &pass.pass, offset, bytes, lsn)
    }

    /// Drains the rings of all parts, part after part, as `SharedPool::settle` does of one. Then the client's ring in
    /// each part has 32 free places.
    pub fn settle<R: Wait>(&self, rt: &R, session: &mut PartedSession<N, K>)
        ensures client { session.new.client ≡ session.old.client }
        ensures sees { InEachPart session.old session.new (Sees N.parameters N.past) }
    {
        for part in 0..self.parts.len() {
            let mine = &mut session.sessions[part];
            self.pool_of(mine).settle(rt, mine);
        }
    }
}

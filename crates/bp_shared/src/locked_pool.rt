//! `LockedPool`: the core, its reader of the mark, and the ends of the rings at which passes come out, all under one
//! lock.
ghost use Rattle.std.specs.Prelude.{◌≡◌, true, map};
ghost use Rattle.bp_session_log.specs.Rings.{NoneWaits, ring_view};

use crate::names::PartNames;
use crate::session::{Past, Session, Told};
use crate::taker::Taker;
use crate::trail_ring::join_ends;
use bp_core::{Entry, PassNote, PoolCore};
use bp_keeper::ListKeeper;
use bp_mark::Reader;
use bp_session_log::draining::drain_known;
use bp_session_log::{Board, Book, drain_all};
use rtrb::{Consumer, Producer};
use std::marker::{Model, PhantomData};

mod cut_section;
mod looking;
mod observing;
mod returning;
mod turns;

/// The pool as one thread sees it while it holds the lock. Its trail is legal, by the core's own type; the reader is
/// the mark's, and has seen every LSN that the core has marked.
#[derive(Drop)]
pub(crate) struct LockedPool<N: PartNames, K: ListKeeper> {
    /// The number of the pool.
    part: u8,
    /// True only if no pass is known to wait in a ring. Each section looks at it, so it stands beside the lock, with the
    /// counts of the core, which come first in that.
    is_quiet: bool,
    core: PoolCore<K>,
    reader: Reader,
    /// The ring of each client.
    consumers: Vec<Consumer<PassNote>>,
    /// The number of ends of device work, modulo 2^64.
    ends: u64,
    /// The ring's end at which pieces of the trail go in.
    pieces: Producer<Vec<Entry>>,
    /// Each session's list, as it was in the session's last critical section.
    board: Board,
    /// The trail as each session saw it last.
    seen: Board,
    of: PhantomData<N>,
    ghost quiet: { is_quiet ≡ true → NoneWaits (map ring_view consumers.items) },
}

impl<N: PartNames, K: ListKeeper> Model for LockedPool<N, K> {
    ghost use Rattle.std.specs.Prelude.{◌≡◌, map, length};
    ghost use Rattle.bp_shared.specs.Locked.{LockedValue, IsLocked};
    ghost use Rattle.bp_session_log.specs.Rings.{ring_view};
    ghost use Rattle.bp_shared.specs.Posting.{IsPosted};
    ghost use Rattle.bp_shared.specs.Taking.{IsHandedOut};
    ghost use Rattle.bp_shared.specs.Telling.{AreEarlier, IsShown};

    ghost Value = { LockedValue };

    ghost view = { λ s. record {
      part = s.part;
      core = s.core;
      seen = s.reader.seen;
      ends = s.ends;
      rings = map ring_view s.consumers.items;
    } };

    ghost invariant = { λ s. IsLocked (N.mark s.part) N.parameters s.core s.reader
        × IsHandedOut (N.ring s.part).trail N.before s.pieces s.core
        × IsShown (N.ring s.part).board N.past s.board s.core.past
        × IsPosted (N.ring s.part).rings N.past (map ring_view s.consumers.items) s.core.past
        × (length (N.ring s.part).rings ≡ N.parameters.clients)
        × AreEarlier (N.ring s.part).seen s.seen s.core.past };
}

impl<N: PartNames, K: ListKeeper> LockedPool<N, K> {
    ghost use Rattle.std.specs.Prelude.{◌≡◌, ◌≤◌, [], All, map, length};
    ghost use Rattle.rtrb.specs.Ring.{sent, received};
    ghost use Rattle.bp_trail.specs.Clock.{durable};
    ghost use Rattle.bp_trail.specs.Legal.{Legal};
    ghost use Rattle.bp_session_log.specs.Rings.{ring_view, ring_of, ring_at};
    ghost use Rattle.bp_shared.specs.Posting.{TakesBack};
    ghost use Rattle.bp_shared.specs.Locked.{Drained, DrainedStill, Enters};
    ghost use Rattle.bp_shared.specs.Taking.{IsEmptied};
    ghost use Rattle.bp_shared.specs.Telling.{AreEarlier, GoesOnFrom, IsListOf, IsShown};

    /// Makes the locked state of a core, whose rings gave nothing yet.
    pub(crate) fn new(
        part: u8,
        core: PoolCore<K>,
        reader: Reader,
        consumers: Vec<Consumer<PassNote>>,
        pieces: Producer<Vec<Entry>>,
        board: Board,
        seen: Board,
    ) -> LockedPool<N, K>
        requires reader { reader.mark ≡ N.mark part }
        requires parameters { core.parameters ≡ N.parameters }
        requires before { core.before ≡ N.before }
        requires ring { ring_of pieces ≡ (N.ring part).trail }
        requires unused { IsEmptied pieces × (sent pieces ≡ []) }
        requires looked { durable core.past ≤ reader.seen }
        requires shown { IsShown (N.ring part).board N.past board core.past }
        requires earlier { AreEarlier (N.ring part).seen seen core.past }
        requires rings { map ring_at consumers.items ≡ (N.ring part).rings }
        requires empty { All (λ ring. received ring ≡ []) consumers.items }
        requires count { length (N.ring part).rings ≡ N.parameters.clients }
        requires begins { core.past ≡ N.past }
        ensures part { result.part ≡ part }
        ensures core { result.core ≡ core }
        ensures rings { result.rings ≡ map ring_view consumers.items }
    {
        LockedPool {
            part,
            core,
            reader,
            consumers,
            is_quiet: false,
            ends: 0,
            pieces,
            board,
            seen,
            of: PhantomData,
        }
    }

    pub(crate) fn part(&self) -> u8
        ensures { result ≡ self.now.part }
    {
        self.part
    }

    pub(crate) fn ends(&self) -> u64
        ensures { result ≡ self.now.ends }
    {
        self.ends
    }

    /// Drains each ring that is to be asked, bit c for that of client c, and each in which a pass is known to wait, the
    /// first client's first, at most 32 passes each. A pass that is not that client's, or not out, stays in its ring.
    ///
    /// Where no ring is asked and none is known to hold a pass, no client's end is looked at: the ends lie side by side,
    /// and each client writes to its own.
    #[inline(always)]
    pub(crate) fn drain(&mut self, asked: u64)
        ensures { Drained self.old self.new }
    {
        if asked == 0 && self.is_quiet {
            return;
        }
        self.is_quiet = drain_all(&mut self.core, &mut self.consumers, asked);
    }

    /// Begins a session's critical section. It drains the rings that are to be asked, bit c for that of client c, and each
    /// in which a pass is known to wait, in the order of the clients. The session's own is drained in its place, asked
    /// or not: the trail's entries of the client are the session's list then, and its ring is empty.
    #[inline(always)]
    pub(crate) fn begin(&mut self, asked: u64, session: &mut Session<N, K>)
        requires part { session.old.part ≡ self.old.part }
        ensures part { self.new.part ≡ self.old.part }
        ensures session { session.new ≡ record session.old { free = 32 } }
        ensures free { session.old.free ≤ 32 }
        ensures entered { Enters N.past session.new self.new }
    {
        let own = 1u64.wrapping_shl(u32::from(session.client()));
        let before = own.wrapping_sub(1);
        self.drain(asked & before);
        self.drain_own(session);
        let after = asked & !before & !own;
        if after != 0 || !self.is_quiet {
            self.drain_after(after, session);
        }
    }

    /// Drains rings as `drain` does, once the session's own was drained. With both its ends at hand that is seen to have
    /// given nothing more.
    #[inline(never)]
    fn drain_after(&mut self, asked: u64, session: &mut Session<N, K>)
        requires part { session.old.part ≡ self.old.part }
        requires emptied { session.old.free ≡ 32 }
        requires list { IsListOf N.past self.old.core.past session.old.client session.old.said }
        ensures part { self.new.part ≡ self.old.part }
        ensures session { session.new ≡ session.old }
        ensures drained { DrainedStill self.old self.new }
        ensures legal { Legal self.new.core.parameters self.new.core.past }
        ensures list { IsListOf N.past self.new.core.past session.old.client session.old.said }
    {
        self.drain(asked);
        let client = usize::from(session.client());
        let consumer = &mut self.consumers[client];
        consumer.slots_beside(&mut session.producer);
        self.is_quiet = self.is_quiet & (consumer.cached_slots() == 0);
        self.core.keeps_the_rules();
    }

    /// Gives each pass back that waits in the session's own ring, and writes its list on its line. Each of the passes is
    /// out, since the list gave it back while it held it. So the trail's entries of the client are the session's list,
    /// and its ring is empty.
    pub(super) fn drain_own(&mut self, session: &mut Session<N, K>)
        requires part { N.ring session.old.part ≡ N.ring self.old.part }
        ensures part { self.new.part ≡ self.old.part }
        ensures takes { TakesBack session.old.client self.old.core self.new.core }
        ensures seen { self.new.seen ≡ self.old.seen }
        ensures ends { self.new.ends ≡ self.old.ends }
        ensures session { session.new ≡ record session.old { free = 32 } }
        ensures free { session.old.free ≤ 32 }
        ensures legal { Legal self.new.core.parameters self.new.core.past }
        ensures list { IsListOf N.past self.new.core.past session.old.client session.old.said }
    {
        let client = usize::from(session.client());
        let consumer = &mut self.consumers[client];
        let waiting = consumer.slots_beside(&mut session.producer);
        drain_known(&mut self.core, client, consumer, waiting);
        session.producer.slots_beside(consumer);
        self.is_quiet = self.is_quiet & (consumer.cached_slots() == 0);
        self.core.keeps_the_rules();
        self.board
            .write::<Book<K>, Told>(&mut session.line, &session.book);
    }

    /// Ends a session and returns its book. The passes that it posted have gone back then, and the trail's entries of
    /// the client are its list.
    pub(crate) fn end_session(&mut self, mut session: Session<N, K>) -> Book<K>
        requires part { N.ring session.part ≡ N.ring self.old.part }
        ensures part { self.new.part ≡ self.old.part }
        ensures takes { TakesBack session.client self.old.core self.new.core }
        ensures client { result.client ≡ session.client }
        ensures before { result.before ≡ session.before }
        ensures said { result.said ≡ session.said }
        ensures seen { GoesOnFrom session.seen self.new.core.past }
        ensures theirs { IsListOf N.past self.new.core.past session.client session.said }
    {
        self.drain_own(&mut session);
        let Session {
            part: _,
            book,
            producer: _,
            line: _,
            mut seen,
            of: _,
        } = session;
        self.seen.write::<PoolCore<K>, Past>(&mut seen, &self.core);
        book
    }

    /// Returns the core and its reader. The taker has all that the core handed out.
    pub(crate) fn into_parts(self, taker: Taker<N>) -> (PoolCore<K>, Reader)
        requires part { N.ring taker.part ≡ N.ring self.part }
        ensures before { result.0.before ≡ taker.past }
        ensures reader { result.1.mark ≡ N.mark self.part }
        ensures parameters { result.0.parameters ≡ N.parameters }
        ensures seen { durable result.0.past ≤ result.1.seen }
        ensures core { result.0 ≡ self.core }
        ensures goes_on { GoesOnFrom N.past result.0.past }
    {
        let LockedPool {
            part: _,
            core,
            reader,
            consumers: _,
            is_quiet: _,
            ends: _,
            mut pieces,
            board: _,
            seen: _,
            of: _,
        } = self;
        let Taker {
            part: _,
            mut taken,
            of: _,
        } = taker;
        join_ends(&mut pieces, &mut taken);
        (core, reader)
    }
}

//! `SharedPool`: a core behind a lock, the mark that it looks at, and the calls of its sessions.
ghost use Rattle.std.specs.Prelude.{◌≡◌, ◌≢◌, [], All, map, length, IfOk, OnOk, OnErr};
ghost use Rattle.bp_page.specs.declared.refusals.Refusal.TheVariants as Refusal;
ghost use Rattle.rtrb.specs.Ring.{sent, received};
ghost use Rattle.bp_session_log.specs.Rings.{ring_of, ring_at};
ghost use Rattle.bp_shared.specs.Posting.{IsUnused};
ghost use Rattle.bp_shared.specs.Sessions.{new_sessions_of};
ghost use Rattle.bp_shared.specs.Taking.{IsEmptied};
ghost use Rattle.bp_shared.specs.Telling.{IsBlank};

use crate::closed_part::ClosedPart;
use crate::closed_pool::ClosedPool;
use crate::locked_pool::LockedPool;
use crate::locking::locked;
use crate::names::{One, PartNames, PoolName};
use crate::session::{Past, Session};
use crate::taker::Taker;
use crate::trail_ring::TrailRing;
use bp_core::{Entry, Pass, PassNote, PoolCore};
use bp_keeper::{ListKeeper, RecordingKeeper};
use bp_mark::{Mark, Reader};
use bp_page::Refusal;
use bp_session_log::draining::ALL;
use bp_session_log::{Board, Posted};
use rtrb::{Consumer, Producer};
use std::alloc::Global;
use std::marker::Model;
use std::sync::{Condvar, Mutex, MutexGuard, Wait};

mod checkpoint;
mod discarding;
mod fixing;
mod flush_all;
mod flushing;
mod making;
mod pieces;
mod reading;
mod single;
mod source;

/// Makes a session for each client, with the next line of both boards and the posting end of its ring, in order. Each
/// sees the trail of the core.
fn new_clients<N: PartNames, K: ListKeeper>(
    alloc: Global,
    part: u8,
    core: &PoolCore<K>,
    producers: Vec<Producer<PassNote>>,
    board: &mut Board,
    seen: &mut Board,
) -> Result<Vec<Session<N, K>>, Refusal>
    requires parameters { core.now.parameters ≡ N.parameters }
    requires past { core.now.past ≡ N.past }
    requires rings { map ring_of producers.items ≡ (N.ring part).rings }
    requires unused { All IsUnused producers.items }
    requires count { length producers.items ≡ N.parameters.clients }
    requires board { board.old.name ≡ (N.ring part).board }
    requires seen { seen.old.name ≡ (N.ring part).seen }
    requires empty { (board.old.lists ≡ []) × (seen.old.lists ≡ []) }
    ensures board { board.new.name ≡ (N.ring part).board }
    ensures blank { OnOk result (IsBlank board.new.lists) }
    ensures seen { seen.new.name ≡ (N.ring part).seen }
    ensures shown { OnOk result (All (λ list. list ≡ N.past) seen.new.lists) }
    ensures sessions { IfOk result (λ made.
        made.items ≡ new_sessions_of part N.past N.parameters.clients) }
    ensures refused { OnErr result (result ≡ Err Refusal.OutOfMemory) }
{
    let clients = core.clients();
    let mut sessions = Vec::with_capacity(alloc, clients as usize)?;
    let mut producers = producers.into_iter();
    for client in 0..clients {
        let Some(producer) = producers.next() else {
            unreachable!()
        };
        let (line, mut saw) = (board.line(), seen.line());
        seen.write::<PoolCore<K>, Past>(&mut saw, core);
        let session = Session::new(alloc, part, core.geometry(), client, producer, line, saw);
        sessions.push_reserved(session);
    }
    Ok(sessions)
}

/// The sessions of a pool, and what its rings have besides: what goes behind the lock, and the end at which pieces of
/// the trail come out.
struct Opened<N: PartNames, K: ListKeeper> {
    part: u8,
    sessions: Vec<Session<N, K>>,
    consumers: Vec<Consumer<PassNote>>,
    pieces: Producer<Vec<Entry>>,
    taken: Consumer<Vec<Entry>>,
    board: Board,
    seen: Board,
    ghost rings: { map ring_at consumers.items ≡ (N.ring part).rings },
    ghost count: { length (N.ring part).rings ≡ N.parameters.clients },
    ghost empty: { All (λ ring. received ring ≡ []) consumers.items },
    ghost trail: { ring_of pieces ≡ (N.ring part).trail },
    ghost unused: { IsEmptied pieces × (sent pieces ≡ []) },
    ghost taker: { (ring_at taken ≡ (N.ring part).trail) × (received taken ≡ []) },
    ghost board_is: { (board.name ≡ (N.ring part).board) × IsBlank board.lists },
    ghost seen_is: { (seen.name ≡ (N.ring part).seen) × All (λ list. list ≡ N.past) seen.lists },
}

/// Makes the sessions of a pool over a core, by its rings. `BadClient` where the rings are not made for as many clients
/// as the core has, else `OutOfMemory`; the rings are dropped then.
fn open<N: PartNames, K: ListKeeper>(
    alloc: Global,
    part: u8,
    core: &PoolCore<K>,
    ring: TrailRing,
) -> Result<Opened<N, K>, Refusal>
    requires parameters { core.now.parameters ≡ N.parameters }
    requires past { core.now.past ≡ N.past }
    requires ring { ring ≡ N.ring part }
    ensures part { IfOk result (λ opened. opened.part ≡ part) }
    ensures sessions { IfOk result (λ opened. opened.sessions.items
        ≡ new_sessions_of part N.past N.parameters.clients) }
    ensures clients { length (N.ring part).rings ≢ N.parameters.clients
        → result ≡ Err Refusal.BadClient }
    ensures refused { length (N.ring part).rings ≡ N.parameters.clients
        → OnErr result (result ≡ Err Refusal.OutOfMemory) }
{
    let clients = core.clients();
    if ring.producers.len() != clients as usize {
        return Err(Refusal::BadClient);
    }
    let TrailRing {
        pieces,
        taken,
        mut board,
        mut seen,
        producers,
        consumers,
    } = ring;
    let sessions = new_clients(alloc, part, core, producers, &mut board, &mut seen)?;
    Ok(Opened {
        part,
        sessions,
        consumers,
        pieces,
        taken,
        board,
        seen,
    })
}

/// A buffer pool that many clients share, each through its own session.
///
/// Each client's list has the keeper of the core's trail, which is in memory where nothing else is said.
///
/// A call takes a session of this pool, and a page and a port of the core's geometry. With a session of a pool that
/// stands beside this one a call that takes the lock waits for ever, and holds up nobody; an `unfix` posts the pass to
/// that pool, which takes it back at that session's next call there.
#[derive(Drop)]
pub struct SharedPool<N: PartNames, K: ListKeeper = RecordingKeeper> {
    alloc: Global,
    /// Its number, where several stand side by side.
    part: u8,
    mark: Mark,
    /// The room of the core's trail, so that a cut can reserve it without the lock.
    room: usize,
    /// The clients whose rings have passes that no section asked for. Each section looks at it, so it stands beside the
    /// lock.
    posted: Posted,
    state: Mutex<LockedPool<N, K>>,
    /// Where sessions wait for the end of device work.
    ended: Condvar,
}

impl<N: PartNames, K: ListKeeper> Model for SharedPool<N, K> {
    ghost use Rattle.std.specs.Prelude.{◌≡◌, ℕ};

    ghost Value = { ℕ };

    ghost view = { λ p. p.part };

    ghost invariant = { λ p. (p.mark ≡ N.mark p.part) × (p.room ≡ N.parameters.room) };
}

impl<N: PoolName, K: ListKeeper> SharedPool<One<N>, K> {
    ghost use Rattle.std.specs.Prelude.{◌≡◌, ◌≢◌, ◌≤◌, length, IfOk, IfErr, OnErr};
    ghost use Rattle.bp_page.specs.declared.refusals.Refusal.TheVariants as Refusal;
    ghost use Rattle.bp_trail.specs.Clock.{durable};
    ghost use Rattle.bp_shared.specs.Sessions.{new_sessions};
    ghost use Rattle.bp_shared.specs.Telling.{GoesOnFrom};

    /// Makes a pool over a core, one session for each client, in order, and the taker of its trail. Each session has
    /// seen the trail of the core, and said nothing. The reader is the mark's, and has seen all LSNs that the core has
    /// marked.
    ///
    /// `BadClient` where the rings are not made for as many clients as the core has; else `OutOfMemory`. All that was
    /// given is dropped then.
    pub fn new(
        alloc: Global,
        core: PoolCore<K>,
        mark: Mark,
        reader: Reader,
        ring: TrailRing,
    ) -> Result<
        (
            SharedPool<One<N>, K>,
            Vec<Session<One<N>, K>>,
            Taker<One<N>>,
        ),
        Refusal,
    >
        requires mark { mark ≡ N.mark }
        requires reader { reader.mark ≡ N.mark }
        requires parameters { core.parameters ≡ N.parameters }
        requires before { core.before ≡ N.before }
        requires past { core.past ≡ N.past }
        requires ring { ring ≡ N.ring }
        requires seen { durable core.past ≤ reader.seen }
        ensures part { IfOk result (λ made. made.0 ≡ 0) }
        ensures taker { IfOk result (λ made. made.2.past ≡ N.before) }
        ensures pieces { IfOk result (λ made. made.2.pieces ≡ 0) }
        ensures sessions { IfOk result (λ made.
            made.1.items ≡ new_sessions N.past N.parameters.clients) }
        ensures clients { length N.ring.rings ≢ N.parameters.clients
            → result ≡ Err Refusal.BadClient }
        ensures refused { length N.ring.rings ≡ N.parameters.clients
            → OnErr result (result ≡ Err Refusal.OutOfMemory) }
    {
        SharedPool::new_part(alloc, 0, core, mark, reader, ring)
    }

    /// Ends the sharing: drains the rings once more. The sessions may be ended after it, in any order, and then the
    /// pool. It neither waits nor takes memory. A pass that no ring has by then stays out.
    pub fn close(self) -> ClosedPool<One<N>, K> {
        let SharedPool {
            alloc: _,
            part: _,
            mark,
            state,
            ended: _,
            posted: _,
            room: _,
        } = self;
        let mut state = state.into_inner();
        state.drain(ALL);
        ClosedPool::new(mark, state)
    }

    /// Ends the pool, and with it what binds the lists of its sessions to its trail: closes it, and returns the core,
    /// the mark and its reader. It neither waits nor takes memory. The core's trail goes on from all that the taker was
    /// handed.
    pub fn finish(self, taker: Taker<One<N>>) -> (PoolCore<K>, Mark, Reader)
        ensures goes_on { GoesOnFrom N.past result.0.past }
        ensures before { result.0.before ≡ taker.past }
        ensures mark { result.1 ≡ N.mark }
        ensures reader { result.2.mark ≡ N.mark }
        ensures parameters { result.0.parameters ≡ N.parameters }
        ensures seen { durable result.0.past ≤ result.2.seen }
    {
        self.close().into_core(taker)
    }
}

impl<N: PartNames, K: ListKeeper> SharedPool<N, K> {
    ghost use Rattle.std.specs.Prelude.{◌≡◌, ◌≢◌, ◌≤◌, length, IfOk, IfErr, OnErr};
    ghost use Rattle.std.specs.Sync.Mutex.{mutex_guard_value};
    ghost use Rattle.bp_page.specs.declared.refusals.Refusal.TheVariants as Refusal;
    ghost use Rattle.bp_trail.specs.Clock.{durable};
    ghost use Rattle.bp_shared.specs.Locked.{Enters};
    ghost use Rattle.bp_shared.specs.Sessions.{new_sessions_of, IsRoomy, UnfixSaid};
    ghost use Rattle.bp_shared.specs.Telling.{GoesOnFrom, Sees};

    /// Makes the pool of this number over a core, as `new` does, one of several side by side. Each is told from the
    /// others by its number alone: give each another.
    ///
    /// `BadClient` where the rings are not made for as many clients as the core has; else `OutOfMemory`. All that was
    /// given is dropped then.
    pub fn new_part(
        alloc: Global,
        part: u8,
        core: PoolCore<K>,
        mark: Mark,
        reader: Reader,
        ring: TrailRing,
    ) -> Result<(SharedPool<N, K>, Vec<Session<N, K>>, Taker<N>), Refusal>
        requires mark { mark ≡ N.mark part }
        requires reader { reader.mark ≡ N.mark part }
        requires parameters { core.parameters ≡ N.parameters }
        requires before { core.before ≡ N.before }
        requires past { core.past ≡ N.past }
        requires ring { ring ≡ N.ring part }
        requires seen { durable core.past ≤ reader.seen }
        ensures part { IfOk result (λ made. made.0 ≡ part) }
        ensures taker_part { IfOk result (λ made. made.2.part ≡ part) }
        ensures taker { IfOk result (λ made. made.2.past ≡ N.before) }
        ensures pieces { IfOk result (λ made. made.2.pieces ≡ 0) }
        ensures sessions { IfOk result (λ made.
            made.1.items ≡ new_sessions_of part N.past N.parameters.clients) }
        ensures clients { length (N.ring part).rings ≢ N.parameters.clients
            → result ≡ Err Refusal.BadClient }
        ensures refused { length (N.ring part).rings ≡ N.parameters.clients
            → OnErr result (result ≡ Err Refusal.OutOfMemory) }
    {
        let opened = match open(alloc, part, &core, ring) {
            Ok(opened) => opened,
            // Dropped by a call, since a drop at the end of the scope is proved in this function, field by field.
            Err(refusal) => {
                drop(core);
                return Err(refusal);
            }
        };
        let Opened {
            part: _,
            sessions,
            consumers,
            pieces,
            taken,
            board,
            seen,
        } = opened;
        let room = core.room();
        let posted = Posted::nothing(core.clients());
        let state = LockedPool::new(part, core, reader, consumers, pieces, board, seen);
        let pool = SharedPool {
            alloc,
            part,
            mark,
            room,
            state: Mutex::new(state),
            ended: Condvar::new(),
            posted,
        };
        Ok((pool, sessions, Taker::new(part, taken)))
    }

    /// Lends the pool's mark, which the log writer raises. It neither waits nor takes memory.
    pub fn mark(&self) -> &Mark
        ensures { result.now ≡ N.mark self.now }
    {
        &self.mark
    }

    /// Gives a pass back by the session's ring: no lock is taken, nobody is waited for, and no memory is taken. The
    /// session's list has the unfix at once, the trail when the ring is next drained.
    ///
    /// `UnknownPass` where the session's own list does not give this pass, or gave it back already; else `RingFull`
    /// where 32 passes wait in the ring. Both hand the pass back and change nothing.
    #[inline(always)]
    pub fn unfix(&self, session: &mut Session<N, K>, pass: Pass) -> Result<(), (Pass, Refusal)>
        ensures client { session.new.client ≡ session.old.client }
        ensures before { session.new.before ≡ session.old.before }
        ensures seen { session.new.seen ≡ session.old.seen }
        ensures roomy { IsRoomy session.old → IsRoomy session.new }
        ensures outcome { UnfixSaid session.old pass result session.new }
    {
        let client = session.client();
        let posted = session.unfix(pass);
        if posted.is_ok() {
            self.posted.tell(client);
        }
        posted
    }

    /// Gives a pass back as `unfix` does. Where the session's ring is full it takes the lock once, for which it may
    /// wait: a critical section empties the ring, which has room for the pass then. It takes no memory.
    ///
    /// `UnknownPass` alone, as from `unfix`, which hands the pass back and leaves the session as it was.
    #[inline(always)]
    pub fn unfix_draining<R: Wait>(
        &self,
        rt: &R,
        session: &mut Session<N, K>,
        pass: Pass,
    ) -> Result<(), (Pass, Refusal)>
        ensures client { session.new.client ≡ session.old.client }
        ensures before { session.new.before ≡ session.old.before }
        ensures seen { session.new.seen ≡ session.old.seen }
        ensures roomy { IsRoomy session.old → IsRoomy session.new }
        ensures outcome { UnfixSaid session.old pass result session.new }
        ensures room { IfErr result (λ back. back.1 ≡ Refusal.UnknownPass) }
    {
        match self.unfix(session, pass) {
            Err((pass, Refusal::RingFull)) => {
                drop(self.lock_and_drain(rt, session));
                self.unfix(session, pass)
            }
            outcome => outcome,
        }
    }

    /// Takes the lock, for which it may wait, and drains all rings: the passes that wait there go back to the core. Then
    /// all that the session had posted has gone back, and all 32 places of its ring are free. It takes no memory, and
    /// adds no entry of its own.
    pub fn settle<R: Wait>(&self, rt: &R, session: &mut Session<N, K>)
        ensures sees { Sees N.parameters N.past session.old session.new }
    {
        let mut state = self.of_part(rt, session.part, locked(rt, &self.state));
        state.begin(ALL, session);
        state.show(session);
    }

    /// Takes the lock, and drains the rings that clients announced, and those in which a pass is known to wait. The
    /// critical section of each event begins so. Then all that the session posted has gone back.
    fn lock_and_drain<R: Wait>(
        &self,
        rt: &R,
        session: &mut Session<N, K>,
    ) -> MutexGuard<'_, LockedPool<N, K>>
        ensures session { session.new ≡ record session.old { free = 32 } }
        ensures free { session.old.free ≤ 32 }
        ensures entered { Enters N.past session.new (mutex_guard_value result) }
        ensures part { (mutex_guard_value result).part ≡ self.now }
    {
        let mut state = self.of_part(rt, session.part, locked(rt, &self.state));
        state.begin(self.posted.take(), session);
        state
    }

    /// Returns what is behind the lock, where that and the one who asks are of this pool. Else it waits for ever, so no
    /// session of another part ever gets in.
    fn of_part<'b, R: Wait>(
        &self,
        rt: &R,
        part: u8,
        state: MutexGuard<'b, LockedPool<N, K>>,
    ) -> MutexGuard<'b, LockedPool<N, K>>
        ensures own { (mutex_guard_value result).part ≡ self.now }
        ensures asked { (mutex_guard_value result).part ≡ part }
        ensures same { mutex_guard_value result ≡ mutex_guard_value state.entry }
    {
        if state.part() != self.part || part != self.part {
            drop(state);
            for _ in rt.forever() {}
            unreachable!()
        }
        state
    }

    /// Lets go of the lock. Where an event found its page in flight, some device work has ended at the return.
    #[inline(always)]
    fn unlock_or_wait<T, R: Wait>(
        &self,
        rt: &R,
        state: MutexGuard<'_, LockedPool<N, K>>,
        answer: &Result<T, Refusal>,
    ) {
        if matches!(answer, Err(Refusal::Busy)) {
            let seen = state.ends();
            drop(
                self.ended
                    .wait_while(rt, state, |state| state.ends() == seen),
            );
        }
    }

    /// Ends the sharing of one of several pools side by side, as `close` does of one that stands alone. What is behind
    /// the lock has the pool's number; where it had another, this would wait for ever.
    pub fn close_part<R: Wait>(self, rt: &R) -> ClosedPart<N, K>
        ensures { result.part ≡ self }
    {
        let SharedPool {
            alloc: _,
            part,
            mark,
            state,
            ended: _,
            posted: _,
            room: _,
        } = self;
        let mut state = state.into_inner();
        if state.part() != part {
            for _ in rt.forever() {}
            unreachable!()
        }
        state.drain(ALL);
        ClosedPart::new(mark, state)
    }
}

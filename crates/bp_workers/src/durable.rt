//! `fix_durably`: a fix that has the log made durable, or waits for a victim, and is tried again.
ghost use Rattle.std.specs.Prelude.{◌≡◌, ◌≢◌, ◌<◌, false, OnOk, IfErr};
ghost use Rattle.bp_page.specs.declared.refusals.Refusal.TheVariants as Refusal;
ghost use Rattle.bp_shared.specs.Keeping.{KeepsSession, MayAct};
ghost use Rattle.bp_shared.specs.Sessions.{DoesWorkSaid, IsRoomy};
ghost use Rattle.bp_shared.specs.Writing.{WithLsnSeen};
ghost use Rattle.bp_workers.specs.Logs.{RaisesWithin};
ghost use Rattle.bp_workers.specs.Tries.{GivesUp, GoesOn, Tries};

use crate::worker::Client;
use bp_core::Pass;
use bp_keeper::ListKeeper;
use bp_page::{Lsn, PageNo, Refusal};
use bp_ports::Port;
use bp_shared::{LogWriter, PoolName, Session, SharedPool};
use std::sync::Wait;
use std::thread::Parker;
use std::time::Duration;

/// The pool that a waiting fix asks, which many clients share.
///
/// It says by two relations of its own what a fix, and a tick, answers a client and adds to the client's list. What is
/// promised by them of any pool can be kept only by these calls: so each answer of a waiting fix is one that was given.
pub trait Asked<N: PoolName, K: ListKeeper> {
    ghost use Rattle.std.specs.Prelude.{◌≡◌, ◌≢◌, ◌<◌, OnOk};
    ghost use Rattle.bp_page.specs.declared.refusals.Refusal.TheVariants as Refusal;
    ghost use Rattle.bp_session_log.specs.Turns.{TickSaid};
    ghost use Rattle.bp_shared.specs.Keeping.{KeepsSession};
    ghost use Rattle.bp_shared.specs.Sessions.{DoesWorkSaid, IsRoomy};
    ghost use Rattle.bp_shared.specs.Writing.{WithLsnSeen};
    ghost use Rattle.bp_workers.specs.Tries.{Fixes, Ticks};

    // A fix of a page gives a client an answer, and leads from its list, as it was, to it, as it is.
    ghost fixes: { Fixes };
    // The same of a tick of so many ticks.
    ghost ticks: { Ticks };

    /// Returns the pool itself, by which its mark is raised.
    fn pool(&self) -> &SharedPool<N, K>;

    /// Fixes a page, as [`SharedPool::fix`] does.
    fn ask_fix<P: Port, R: Wait>(
        &self,
        rt: &R,
        session: &mut Session<N, K>,
        port: &mut P,
        page: PageNo,
    ) -> Result<Pass, Refusal>
        requires page_in { page < N.parameters.pages }
        requires port { (P.geometry_of port.old).size ≡ N.parameters.size }
        ensures keeps { KeepsSession N.parameters N.past result session.old session.new }
        ensures port { P.geometry_of port.new ≡ P.geometry_of port.old }
        ensures gives { fixes session.old.client page result session.old.said session.new.said }
        ensures roomy { OnOk result (IsRoomy session.new) }
        ensures known { result ≢ Err Refusal.UnknownTicket }
        ensures work { DoesWorkSaid P.read_gives (WithLsnSeen session.old session.new P.write_gives)
            session.old.said session.new.said port.old port.new };

    /// Moves the clock on, as [`SharedPool::tick`] does.
    fn ask_tick<R: Wait>(&self, rt: &R, session: &mut Session<N, K>, n: u64) -> Result<(), Refusal>
        ensures keeps { KeepsSession N.parameters N.past result session.old session.new }
        ensures gives { ticks session.old.client n result session.old.said session.new.said }
        ensures outcome { TickSaid session.old.client n result session.old.said session.new.said };
}

impl<N: PoolName, K: ListKeeper> Asked<N, K> for SharedPool<N, K> {
    ghost use Rattle.bp_session_log.specs.Turns.{TickSaid};
    ghost use Rattle.bp_shared.specs.Sessions.{FixSaid};

    ghost fixes = { FixSaid };

    ghost ticks = { TickSaid };

    fn pool(&self) -> &SharedPool<N, K> {
        self
    }

    fn ask_fix<P: Port, R: Wait>(
        &self,
        rt: &R,
        session: &mut Session<N, K>,
        port: &mut P,
        page: PageNo,
    ) -> Result<Pass, Refusal> {
        self.fix(rt, session, port, page)
    }

    fn ask_tick<R: Wait>(
        &self,
        rt: &R,
        session: &mut Session<N, K>,
        n: u64,
    ) -> Result<(), Refusal> {
        self.tick(rt, session, n)
    }
}

/// An engine's log, which can be made durable.
pub trait Log: Drop {
    ghost use Rattle.std.specs.Prelude.{◌≤◌, ◌↔◌, ℕ, IsTrue};

    // The LSN up to which it is known to be durable.
    ghost durable_to: { Self → ℕ };

    /// Makes the log durable up to this LSN at least. Returns true if it now is.
    fn make_durable<R: Wait>(&mut self, rt: &R, lsn: Lsn) -> bool
        ensures lasts { durable_to self.old ≤ durable_to self.new }
        ensures reached { IsTrue result ↔ (lsn ≤ durable_to self.new) };
}

/// Has the log of a pool made durable, and the pool's mark raised so far.
///
/// For client 0 this is `Leading`. For any other client it is something that asks the worker of client 0, and waits.
pub trait DurableLog<N: PoolName> {
    ghost use Rattle.std.specs.Prelude.{◌≡◌, ◌≤◌, ◌↔◌, ℕ, List, IsTrue};
    ghost use Rattle.std.specs.Borrow.{GName};
    ghost use Rattle.bp_workers.specs.Logs.{RaisesWithin};

    // The LSN up to which the log is known to be durable.
    ghost durable_to: { Self → ℕ };
    // The LSN up to which the mark is known to be raised.
    ghost raised_to: { Self → ℕ };
    // The references that it works by, if any. They stay the same.
    ghost lent: { Self → List GName };

    /// Has the log made durable up to this LSN at least, and then the pool's mark raised so far. Returns true if both
    /// are done.
    ///
    /// The mark is raised no further than the log is durable.
    fn reach<K: ListKeeper, R: Wait>(&mut self, rt: &R, pool: &SharedPool<N, K>, lsn: Lsn) -> bool
        ensures lent { lent self.new ≡ lent self.old }
        ensures raises { RaisesWithin (durable_to self.old) (raised_to self.old)
            (durable_to self.new) (raised_to self.new) }
        ensures durable { IsTrue result ↔ (lsn ≤ durable_to self.new) }
        ensures raised { IsTrue result → lsn ≤ raised_to self.new };
}

/// The log and the writer of the pool's mark, with which client 0 works.
#[derive(Drop)]
pub struct Leading<'a, N: PoolName, L: Log> {
    pub log: &'a mut L,
    pub writer: &'a mut LogWriter<N>,
}

impl<'a, N: PoolName, L: Log> Leading<'a, N, L> {
    ghost use Rattle.std.specs.Prelude.{◌≡◌};

    pub fn new(log: &'a mut L, writer: &'a mut LogWriter<N>) -> Leading<'a, N, L>
        ensures by_log { (result.log.ghost_name ≡ log.entry.ghost_name)
            × (result.log.now ≡ log.old) }
        ensures by_writer { (result.writer.ghost_name ≡ writer.entry.ghost_name)
            × (result.writer.now ≡ writer.old) }
    {
        Leading { log, writer }
    }
}

impl<N: PoolName, L: Log> DurableLog<N> for Leading<'_, N, L> {
    ghost use Rattle.std.specs.Prelude.{[], ◌∷◌};

    ghost durable_to = { λ l. L.durable_to l.log.now };

    ghost raised_to = { λ l. l.writer.now };

    ghost lent = { λ l. l.log.ghost_name ∷ l.writer.ghost_name ∷ [] };

    /// Raises the mark only where the log says that it is durable so far.
    fn reach<K: ListKeeper, R: Wait>(&mut self, rt: &R, pool: &SharedPool<N, K>, lsn: Lsn) -> bool {
        if !self.log.make_durable(rt, lsn) {
            return false;
        }
        self.writer.raise(pool, lsn);
        true
    }
}

/// The number of tries of a fix, and what is done between them.
#[derive(Clone, Copy)]
pub struct Patience {
    /// The number of tries after the first.
    pub rounds: u32,
    /// The ticks by which the clock is moved, once, where no page may leave. More than the correlated period lets each
    /// page leave that nobody has pinned.
    pub ticks: u64,
    /// The longest time of each later wait for a pass to go back.
    pub pause: Duration,
}

/// Does what may overcome a refusal, after which the fix is to be tried again.
///
/// Where the log is not durable far enough, it is made so. Where no page may leave, the clock is moved once, and each
/// time after that some time goes by, in which the thread sleeps.
///
/// An error is what is to be answered for the fix: its own refusal, where that cannot be overcome or the log did not
/// get durable so far, or the refusal of the tick.
fn overcome<N: PoolName, K: ListKeeper, A: Asked<N, K>, L: DurableLog<N>, R: Wait>(
    rt: &R,
    pool: &A,
    session: &mut Session<N, K>,
    log: &mut L,
    why: Refusal,
    patience: Patience,
    is_ticked: &mut bool,
) -> Result<(), Refusal>
    ensures client { session.new.client ≡ session.old.client }
    ensures before { session.new.before ≡ session.old.before }
    ensures acts { MayAct N.parameters N.past session.old session.new }
    ensures roomy { IsRoomy session.old → IsRoomy session.new }
    ensures lent { L.lent log.new ≡ L.lent log.old }
    ensures raises { RaisesWithin (L.durable_to log.old) (L.raised_to log.old)
        (L.durable_to log.new) (L.raised_to log.new) }
    ensures goes_on { OnOk result (GoesOn session.old.client patience.ticks
        (L.raised_to log.new) why is_ticked.old is_ticked.new session.old.said session.new.said) }
    ensures known { IfErr result (λ last. last ≡ Refusal.UnknownTicket
        → why ≡ Refusal.UnknownTicket) }
    ensures gives_up { IfErr result (λ last. GivesUp A.ticks session.old.client patience.ticks
        (L.durable_to log.new) why is_ticked.old last session.old.said session.new.said) }
{
    match why {
        Refusal::NeedLog(lsn) => {
            if log.reach(rt, pool.pool(), lsn) {
                Ok(())
            } else {
                Err(why)
            }
        }
        Refusal::NoVictim => {
            if *is_ticked {
                Parker::new().park_timeout(rt, patience.pause);
                return Ok(());
            }
            *is_ticked = true;
            pool.ask_tick(rt, session, patience.ticks)
        }
        _ => Err(why),
    }
}

/// Fixes a page as `SharedPool::fix` does, and tries again where the log or a victim is wanted: up to `rounds` times.
///
/// Where the log is not durable far enough, which is `NeedLog`, the log is made durable first. Where no page may leave,
/// which is `NoVictim`, the clock is moved on by `ticks`, once; after that each try waits for `pause` before it.
///
/// Each try adds what a fix adds. One that is refused so adds an entry, and one more where the durable mark has risen,
/// one for each wait for another client's device work, and two for each victim that went out before. The clock's move
/// adds one. The device does the work of the entries, and nothing else: each write has the page LSN that the page had
/// when its write-out began, as from `fix`.
///
/// Any other refusal is answered at once, as the fix gave it. `NoVictim` is answered only where the rounds are over,
/// and `NeedLog` only there or where the log did not get durable so far. Where the tick is refused its refusal is
/// answered, `TrailFull`, `ClockFull` or `OutOfMemory`: then the clock stands, and no page may leave. So each of these
/// three is answered only as the pool's last call did. `UnknownTicket` never is. A session that was given a pass is
/// roomy.
pub fn fix_durably<N: PoolName, P: Port, K: ListKeeper, A: Asked<N, K>, L: DurableLog<N>, R: Wait>(
    rt: &R,
    pool: &A,
    client: &mut Client<N, P, K>,
    log: &mut L,
    page: PageNo,
    patience: Patience,
) -> Result<Pass, Refusal>
    requires page_in { page < N.parameters.pages }
    ensures keeps { KeepsSession N.parameters N.past result
        client.old.session client.new.session }
    ensures port { P.geometry_of client.new.port ≡ P.geometry_of client.old.port }
    ensures roomy { OnOk result (IsRoomy client.new.session) }
    ensures known { result ≢ Err Refusal.UnknownTicket }
    ensures lent { L.lent log.new ≡ L.lent log.old }
    ensures raises { RaisesWithin (L.durable_to log.old) (L.raised_to log.old)
        (L.durable_to log.new) (L.raised_to log.new) }
    ensures outcome { Tries A.fixes A.ticks client.old.session.client page patience.ticks
        (L.durable_to log.new) (L.raised_to log.new) patience.rounds false result
        client.old.session.said client.new.session.said }
    ensures work { DoesWorkSaid P.read_gives
        (WithLsnSeen client.old.session client.new.session P.write_gives)
        client.old.session.said client.new.session.said client.old.port client.new.port }
{
    let mut is_ticked = false;
    for _round in 0..patience.rounds {
        match pool.ask_fix(rt, &mut client.session, &mut client.port, page) {
            Ok(pass) => return Ok(pass),
            Err(why) => {
                overcome(
                    rt,
                    pool,
                    &mut client.session,
                    log,
                    why,
                    patience,
                    &mut is_ticked,
                )?;
            }
        }
    }
    pool.ask_fix(rt, &mut client.session, &mut client.port, page)
}

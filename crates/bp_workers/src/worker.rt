//! `Worker`: the work of one client of a pool, with what it is given and what it leaves.
ghost use Rattle.std.specs.Prelude.{◌≡◌};

use bp_core::Entry;
use bp_keeper::{ListKeeper, RecordingKeeper};
use bp_ports::Port;
use bp_session_log::Book;
use bp_shared::{LogWriter, PoolName, Session, SharedPool, Taker};
use std::sync::Wait;

/// One client of a pool: its session, and its port on a device of the pool's pages.
#[derive(Drop)]
pub struct Client<N: PoolName, P: Port, K: ListKeeper = RecordingKeeper> {
    /// Its session, through which it calls the pool and which keeps its list.
    pub session: Session<N, K>,
    pub port: P,
    /// The port's device has as many pages as the pool's file.
    pub ghost pages_are: { (P.geometry_of port).pages ≡ N.parameters.pages },
    /// The pages of the port's device have as many bytes as the pool's.
    pub ghost size_is: { (P.geometry_of port).size ≡ N.parameters.size },
}

/// What client 0 is given besides: the writer of the pool's mark, and the taker of its trail.
#[derive(Drop)]
pub struct Upkeep<N: PoolName> {
    pub log: LogWriter<N>,
    pub taker: Taker<N>,
}

/// What one client of a pool does, in a thread of its own. The pool is of the kind that K says: over `RecordingKeeper`
/// or `SilentKeeper`. A worker that serves both is generic over K.
///
/// A refusal is the worker's own to note. Passes that it holds when it returns are given back for it. It has to return,
/// since the run waits for all workers. The session that it leaves is still its client's, as each call of the pool
/// leaves it.
pub trait Worker<P: Port, K: ListKeeper>: Drop {
    ghost use Rattle.std.specs.Prelude.{◌≡◌, ◌<◌, [], Some, None};
    ghost use Rattle.bp_shared.specs.Sessions.{new_session};
    ghost use Rattle.bp_workers.specs.Workers.{Leaving, upkeep_value, unused_upkeep};

    // What the work of a client leaves: by the client's number, the worker and its port before, both after, its session
    // after, and of client 0 the upkeep. A worker that says nothing of it may leave anything.
    ghost leaves: { Leaving Self P } = { λ _ _ _ _ _ _ _. Unit {0} };

    /// Does the work of any client except client 0, with a session that said nothing yet.
    fn work<N: PoolName, R: Wait>(
        &mut self,
        rt: &R,
        pool: &SharedPool<N, K>,
        client: &mut Client<N, P, K>,
    )
        requires new { client.old.session ≡ new_session N.past client.old.session.client }
        requires other { 0 < client.old.session.client }
        ensures whose { client.new.session.client ≡ client.old.session.client }
        ensures leaves { leaves client.old.session.client self.old client.old.port
            self.new client.new.port client.new.session None };

    /// Does the work of client 0, which has the log writer and the taker of the trail too.
    fn lead<N: PoolName, R: Wait>(
        &mut self,
        rt: &R,
        pool: &SharedPool<N, K>,
        client: &mut Client<N, P, K>,
        upkeep: &mut Upkeep<N>,
    )
        requires new { client.old.session ≡ new_session N.past 0 }
        requires unused { upkeep_value upkeep.old ≡ unused_upkeep }
        ensures whose { client.new.session.client ≡ client.old.session.client }
        ensures leaves { leaves 0 self.old client.old.port
            self.new client.new.port client.new.session (Some (upkeep_value upkeep.new)) };
}

/// A worker with its port and its book, after it has returned.
#[derive(Drop)]
pub struct Left<P: Port, W: Drop, K: ListKeeper = RecordingKeeper> {
    /// The worker, as it was when it returned.
    pub worker: W,
    pub port: P,
    /// The book of its session: its list, and the passes that did not go back.
    pub book: Book<K>,
    /// The number of passes that it held when it returned, which are then given back for it.
    pub held: usize,
    /// True if all of them went back.
    pub all_went_back: bool,
}

impl<P: Port, W: Drop> Left<P, W, RecordingKeeper> {
    ghost use Rattle.std.specs.Prelude.{◌≡◌, ◌++◌, reverse};

    /// Lends the entries of its session's list since the last cut, the oldest first.
    pub fn said(&self) -> &[Entry]
        ensures { reverse result.now ++ self.now.book.before ≡ self.now.book.said }
    {
        self.book.said()
    }
}

//! `SharingWorker`: a worker that shares a state with the others of its run, as a log, and a receipt of the trail.
use crate::worker::{Client, Upkeep, Worker};
use bp_keeper::ListKeeper;
use bp_ports::Port;
use bp_shared::{PoolName, Receipt, SharedPool};
use std::marker::Model;
use std::sync::{Mutex, Wait};

/// What the workers of a run share, as a log.
pub trait SharedState: Drop {
    ghost use Rattle.bp_trail.specs.Trail.{Trail};

    // What it says of the pool's trail, as far as that was seen: as that it has the write of each record.
    ghost agrees: { Self → Trail → Type 0 };
}

impl SharedState for () {
    ghost agrees = { λ _ _. Unit {0} };
}

/// A shared state, and a receipt of what was seen of the pool's trail. Contracts see the state and what was seen.
///
/// Whoever changes the state has the receipt see as much of the trail as the state speaks of, by
/// [`SharedPool::show`]. Whoever finds it so shows the receipt to a session, whose answers then hold of such a trail.
#[derive(Drop)]
pub struct WithReceipt<N: PoolName, S: SharedState> {
    pub state: S,
    pub receipt: Receipt<N>,
}

impl<N: PoolName, S: SharedState> Model for WithReceipt<N, S> {
    ghost use Rattle.bp_workers.specs.Sharing.{SharedValue};

    ghost Value = { SharedValue S };

    ghost view = { λ w. record { state = w.state; seen = w.receipt } };

    ghost invariant = { λ w. S.agrees w.state w.receipt };
}

/// What one client of a pool does, as a [`Worker`], with a state that all workers of the run share.
///
/// The state stands behind a lock with its receipt. So what it says of the pool's trail is known to whoever locks it,
/// though another worker made it so.
pub trait SharingWorker<P: Port, K: ListKeeper, S: SharedState>: Drop {
    ghost use Rattle.std.specs.Prelude.{◌≡◌, ◌<◌, Some, None};
    ghost use Rattle.bp_shared.specs.Sessions.{new_session};
    ghost use Rattle.bp_workers.specs.Workers.{Leaving, upkeep_value, unused_upkeep};

    // What the work of a client leaves, as of a `Worker`.
    ghost leaves: { Leaving Self P } = { λ _ _ _ _ _ _ _. Unit {0} };

    /// Does the work of any client except client 0, with a session that said nothing yet.
    fn work<N: PoolName, R: Wait>(
        &mut self,
        rt: &R,
        pool: &SharedPool<N, K>,
        client: &mut Client<N, P, K>,
        shared: &Mutex<WithReceipt<N, S>>,
    )
        requires new { client.old.session ≡ new_session N.past client.old.session.client }
        requires other { 0 < client.old.session.client }
        ensures whose { client.new.session.client ≡ client.old.session.client }
        ensures leaves { leaves client.old.session.client self.old client.old.port
            self.new client.new.port client.new.session None };

    /// Does the work of client 0, which has the log writer and the taker of the trail too.
    fn lead<N: PoolName, R: Wait>(
        &mut self,
        rt: &R,
        pool: &SharedPool<N, K>,
        client: &mut Client<N, P, K>,
        upkeep: &mut Upkeep<N>,
        shared: &Mutex<WithReceipt<N, S>>,
    )
        requires new { client.old.session ≡ new_session N.past 0 }
        requires unused { upkeep_value upkeep.old ≡ unused_upkeep }
        ensures whose { client.new.session.client ≡ client.old.session.client }
        ensures leaves { leaves 0 self.old client.old.port
            self.new client.new.port client.new.session (Some (upkeep_value upkeep.new)) };
}

/// A worker that shares nothing.
impl<P: Port, K: ListKeeper, W: Worker<P, K>> SharingWorker<P, K, ()> for W {
    ghost leaves = { W.leaves };

    fn work<N: PoolName, R: Wait>(
        &mut self,
        rt: &R,
        pool: &SharedPool<N, K>,
        client: &mut Client<N, P, K>,
        _shared: &Mutex<WithReceipt<N, ()>>,
    ) {
        Worker::work(self, rt, pool, client);
    }

    fn lead<N: PoolName, R: Wait>(
        &mut self,
        rt: &R,
        pool: &SharedPool<N, K>,
        client: &mut Client<N, P, K>,
        upkeep: &mut Upkeep<N>,
        _shared: &Mutex<WithReceipt<N, ()>>,
    ) {
        Worker::lead(self, rt, pool, client, upkeep);
    }
}

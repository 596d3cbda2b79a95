//! `Job`: one worker's thread.

use crate::sharing::{SharedState, SharingWorker, WithReceipt};
use crate::unfixing::unfix_all;
use crate::worker::{Client, Left, Upkeep};
use bp_keeper::ListKeeper;
use bp_ports::Port;
use bp_shared::{ClosedPool, PoolName, SharedPool};
use std::marker::Model;
use std::sync::{Mutex, Wait};

/// A worker with its client and its upkeep, and after its run the number of passes that it held, and whether all went
/// back.
#[derive(Drop)]
pub(crate) struct Job<N: PoolName, P: Port, K: ListKeeper, W: Drop> {
    worker: W,
    client: Client<N, P, K>,
    upkeep: Option<Upkeep<N>>,
    held: usize,
    all_went_back: bool,
}

impl<N: PoolName, P: Port, K: ListKeeper, W: Drop> Model for Job<N, P, K, W> {
    ghost use Rattle.bp_workers.specs.Workers.{held_upkeep};
    ghost use Rattle.bp_workers.specs.Jobs.{JobValue};

    ghost Value = { JobValue W P };

    ghost view = { λ j. record {
      worker = j.worker;
      port = j.client.port;
      session = j.client.session;
      upkeep = held_upkeep j.upkeep;
      held = j.held;
      all_went_back = j.all_went_back;
    } };
}

impl<N: PoolName, P: Port, K: ListKeeper, W: Drop> Job<N, P, K, W> {
    ghost use Rattle.std.specs.Prelude.{◌≡◌, []};
    ghost use Rattle.bp_shared.specs.Posting.{TakesBack};
    ghost use Rattle.bp_workers.specs.Workers.{held_upkeep};
    ghost use Rattle.bp_workers.specs.Jobs.{IsReady, Ran, IsLeftOf};

    pub(crate) fn new(
        worker: W,
        client: Client<N, P, K>,
        upkeep: Option<Upkeep<N>>,
    ) -> Job<N, P, K, W>
        ensures worker { result.worker ≡ worker }
        ensures port { result.port ≡ client.port }
        ensures session { result.session ≡ client.session }
        ensures upkeep { result.upkeep ≡ held_upkeep upkeep }
    {
        Job {
            worker,
            client,
            upkeep,
            held: 0,
            all_went_back: false,
        }
    }

    /// Lets the worker do its work, and then gives back the passes that it still holds.
    pub(crate) fn run<S: SharedState, R: Wait>(
        &mut self,
        rt: &R,
        pool: &SharedPool<N, K>,
        shared: &Mutex<WithReceipt<N, S>>,
    )
    where
        W: SharingWorker<P, K, S>,
        requires empty { N.past ≡ [] }
        requires ready { IsReady self.old }
        ensures ran { Ran W.leaves self.old self.new }
    {
        match &mut self.upkeep {
            Some(upkeep) => self.worker.lead(rt, pool, &mut self.client, upkeep, shared),
            None => self.worker.work(rt, pool, &mut self.client, shared),
        }
        self.held = self.client.session.held_count();
        unfix_all(rt, pool, &mut self.client.session);
        self.all_went_back = true;
    }

    /// Ends the job's session at its pool, and returns what the job left, and its upkeep. Passes that still wait in the
    /// session's ring go back then. It takes no memory.
    pub(crate) fn into_left(self, pool: &mut ClosedPool<N, K>) -> (Left<P, W, K>, Option<Upkeep<N>>)
        ensures pool { TakesBack self.session.client pool.old pool.new }
        ensures left { IsLeftOf N.parameters P.geometry_of N.past pool.new.past self result.0 }
        ensures upkeep { held_upkeep result.1 ≡ self.upkeep }
    {
        let Job {
            worker,
            client,
            upkeep,
            held,
            all_went_back,
        } = self;
        let Client { session, port } = client;
        let book = pool.end_session(session);
        let left = Left {
            worker,
            port,
            book,
            held,
            all_went_back,
        };
        (left, upkeep)
    }
}

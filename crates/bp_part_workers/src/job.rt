//! `Job`: one worker's thread.
use crate::shared_log::{LogState, SharedLog};
use crate::worker::{PartedClient, PartedLeft, PartedWorker};
use bp_keeper::ListKeeper;
use bp_parts::{PartCount, PartedPool, PartedSession};
use bp_ports::Store;
use bp_shared::PartNames;
use std::marker::Model;
use std::sync::{Mutex, Wait};

/// A worker with its client.
#[derive(Drop)]
pub(crate) struct Job<N: PartNames + PartCount, S: Store, K: ListKeeper, W: Drop> {
    worker: W,
    client: PartedClient<N, S, K>,
}

impl<N: PartNames + PartCount, S: Store, K: ListKeeper, W: Drop> Model for Job<N, S, K, W> {
    ghost use Rattle.bp_part_workers.specs.Jobs.{JobValue};

    ghost Value = { JobValue W S };

    ghost view = { λ j. record {
      worker = j.worker;
      port = j.client.port;
      session = j.client.session;
    } };
}

impl<N: PartNames + PartCount, S: Store, K: ListKeeper, W: Drop> Job<N, S, K, W> {
    ghost use Rattle.std.specs.Prelude.{◌≡◌};
    ghost use Rattle.bp_part_workers.specs.Jobs.{IsReady, Ran};

    pub(crate) fn new(worker: W, client: PartedClient<N, S, K>) -> Job<N, S, K, W>
        ensures worker { result.worker ≡ worker }
        ensures port { result.port ≡ client.port }
        ensures session { result.session ≡ client.session }
    {
        Job { worker, client }
    }

    /// Lets the worker do its work.
    pub(crate) fn run<T: LogState, R: Wait>(
        &mut self,
        rt: &R,
        pool: &PartedPool<N, K>,
        log: &Mutex<SharedLog<N, T>>,
    )
    where
        W: PartedWorker<S, K, T>,
        requires ready { IsReady N.parts self.old }
        ensures ran { Ran W.leaves self.old self.new }
    {
        self.worker.work(rt, pool, &mut self.client, log);
    }

    /// Returns the job's sessions, which are to be ended, and what else is left of it.
    pub(crate) fn into_left(self) -> (PartedSession<N, K>, PartedLeft<W, S>)
        ensures session { result.0 ≡ self.session }
        ensures worker { result.1.worker ≡ self.worker }
        ensures port { result.1.port ≡ self.port }
    {
        let Job { worker, client } = self;
        let PartedClient { session, port } = client;
        (session, PartedLeft { worker, port })
    }
}

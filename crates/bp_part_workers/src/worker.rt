//! `PartedWorker`: the work of one client of a pool in parts, with what it is given and what it leaves.
ghost use Rattle.std.specs.Prelude.{◌≡◌};
ghost use Rattle.bp_ports.specs.Stripes.{IsParts};

use crate::shared_log::{LogState, SharedLog};
use bp_keeper::{ListKeeper, RecordingKeeper};
use bp_page::PageNo;
use bp_parts::{PartCount, PartedPool, PartedSession};
use bp_ports::{Port, Store, StripedPort};
use bp_shared::PartNames;
use std::fs::File;
use std::sync::{Mutex, Wait};

/// One client of a pool in parts: its sessions, and its port to the stripes of the pool's file.
#[derive(Drop)]
pub struct PartedClient<
    N: PartNames + PartCount,
    S: Store = File,
    K: ListKeeper = RecordingKeeper,
> {
    /// Its session in each part.
    pub session: PartedSession<N, K>,
    pub port: StripedPort<S>,
    /// The port's file has as many stripes as the pool has parts.
    pub ghost stripes_are: { port.parts ≡ N.parts },
    /// These are 1 to 64.
    pub ghost parts_are: { IsParts N.parts },
    /// Each stripe has as many pages as a part.
    pub ghost pages_are: { port.file.device.pages ≡ N.parameters.pages },
    /// Its pages have as many bytes as the pool's.
    pub ghost size_is: { port.file.device.size ≡ N.parameters.size },
}

impl<N: PartNames + PartCount, S: Store, K: ListKeeper> PartedClient<N, S, K> {
    ghost use Rattle.std.specs.Prelude.{◌<◌, ◌*◌, ◌↔◌, ◌≡◌, IsSome, IfSome};

    /// Returns the page of the whole file with this number, or `None` where the file has no such page.
    pub fn page(&self, number: u64) -> Option<PageNo>
        ensures in_range { IsSome result ↔ (number < N.parts * N.parameters.pages) }
        ensures same { IfSome result (λ page. page ≡ number) }
    {
        if number < self.port.parts() * self.port.geometry().pages {
            Some(PageNo::new(number))
        } else {
            None
        }
    }
}

/// What one client of a pool in parts does, in a thread of its own. The pool is of the kind that K says: over
/// `RecordingKeeper` or `SilentKeeper`. A worker that serves both is generic over K. T is what the workers share beside the
/// log writer: `()` where there is nothing.
///
/// A refusal is the worker's own to note. It has to return, since the run waits for all workers, and to give its passes
/// back: the page of one that it holds stays pinned. The sessions that it leaves are still its client's, as each call of
/// the pool leaves them.
pub trait PartedWorker<S: Store, K: ListKeeper, T: LogState>: Drop {
    ghost use Rattle.std.specs.Prelude.{◌≡◌};
    ghost use Rattle.bp_parts.specs.Making.{new_in_parts};
    ghost use Rattle.bp_part_workers.specs.Workers.{Leaving};

    // What the work of a client leaves: by the client's number, the worker and its port before, both after, and its
    // sessions after, one in each part. A worker that says nothing of it may leave anything.
    ghost leaves: { Leaving Self S } = { λ _ _ _ _ _ _. Unit {0} };

    /// Does the work of a client, whose sessions said nothing yet. Whoever knows how far the log is durable locks its
    /// writer and raises the marks of all parts.
    fn work<N: PartNames + PartCount, R: Wait>(
        &mut self,
        rt: &R,
        pool: &PartedPool<N, K>,
        client: &mut PartedClient<N, S, K>,
        log: &Mutex<SharedLog<N, T>>,
    )
        requires new { client.old.session.sessions
            ≡ new_in_parts N.parts client.old.session.client }
        ensures whose { client.new.session.client ≡ client.old.session.client }
        ensures leaves { leaves client.old.session.client self.old client.old.port
            self.new client.new.port client.new.session.sessions };
}

/// A worker and its port, after the worker has returned.
#[derive(Drop)]
pub struct PartedLeft<W: Drop, S: Store = File> {
    /// The worker, as it was when it returned.
    pub worker: W,
    pub port: StripedPort<S>,
}

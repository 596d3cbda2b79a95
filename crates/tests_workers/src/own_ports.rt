//! Workers over ports of their own: which port did which reads and writes.
ghost use Rattle.std.specs.Prelude.{◌≡◌, [], zip, IfOk};
ghost use Rattle.bp_trail.specs.Clock.{durable};
ghost use Rattle.bp_shared.specs.Sessions.{DoesWorkSaid};
ghost use Rattle.bp_workers.specs.Lists.{SideBySide};

use crate::making::{PAGES, config, expect_lawful};
use bp_core::RecordingKeeper;
use bp_device::{MemDevice, MemPort, Port};
use bp_page::{Geometry, Refusal};
use bp_shared::{PoolName, SharedPool};
use bp_workers::{Client, Config, Left, Run, Upkeep, Worker, run_workers};
use std::alloc::Global;
use std::marker::{Send, Sync};
use std::process::Abort;
use std::rt::HostRuntime;
use std::sync::Wait;
use std::thread::Threads;
use test_ports::FusePort;

/// Fixes one page, and keeps the pass.
#[derive(Drop)]
struct Visitor {
    page: u64,
    refused: Option<Refusal>,
}

/// Fixes a page, and returns why it was refused, if it was.
fn visit<N: PoolName, P: Port, R: Wait>(
    rt: &R,
    pool: &SharedPool<N>,
    client: &mut Client<N, P>,
    number: u64,
) -> Option<Refusal>
    requires fresh { client.old.session.said ≡ [] }
    ensures client { client.new.session.client ≡ client.old.session.client }
    ensures work { DoesWorkSaid P.read_gives P.write_gives
        [] client.new.session.said client.old.port client.new.port }
{
    let Some(page) = client.port.geometry().page(number) else {
        return Some(Refusal::OutOfPage);
    };
    match pool.fix(rt, &mut client.session, &mut client.port, page) {
        Ok(pass) => {
            pass.note();
            None
        }
        Err(refusal) => Some(refusal),
    }
}

impl<P: Port> Worker<P, RecordingKeeper> for Visitor {
    ghost use Rattle.std.specs.Prelude.{◌≡◌, [], IfSome};
    ghost use Rattle.bp_shared.specs.Sessions.{DoesWorkSaid};

    // The port did the work of its session's list, and nothing else; and no mark was raised.
    ghost leaves = { λ _ _ given left kept session upkeep.
        DoesWorkSaid P.read_gives P.write_gives [] session.said given kept
        × IfSome upkeep (λ u. u.raised ≡ 0) };

    fn work<N: PoolName, R: Wait>(
        &mut self,
        rt: &R,
        pool: &SharedPool<N>,
        client: &mut Client<N, P>,
    ) {
        self.refused = visit(rt, pool, client, self.page);
    }

    fn lead<N: PoolName, R: Wait>(
        &mut self,
        rt: &R,
        pool: &SharedPool<N>,
        client: &mut Client<N, P>,
        _upkeep: &mut Upkeep<N>,
    ) {
        self.refused = visit(rt, pool, client, self.page);
    }
}

/// Runs visitors. The list of client c has only its entries, and its port did the work of that list and nothing else:
/// the unfix of a kept pass adds none. Nothing is marked durable, since client 0 raised no mark.
fn visit_all<P: Port + Send, R: Threads + Wait + Sync>(
    rt: &R,
    alloc: Global,
    config: Config,
    ports: Vec<P>,
    visitors: Vec<Visitor>,
) -> Result<Run<P, Visitor>, Refusal>
    ensures worked { IfOk result (λ run. SideBySide (λ client given left.
        (left.book.client ≡ client)
        × DoesWorkSaid P.read_gives P.write_gives [] left.book.said given.1 left.port
        × (client ≡ 0 → durable run.core.past ≡ 0))
        0 (zip visitors.items ports.items) run.left.items) }
{
    run_workers(rt, alloc, config, ports, visitors)
}

/// Makes ports to one device. Each fails at the call of its number.
fn fuses<R: Abort + AllocGlobal>(rt: &R, calls: &[u64]) -> Vec<FusePort<MemPort>> {
    let geometry = Geometry::new(PAGES, 16).expect(rt, "the geometry");
    let device = MemDevice::new(rt.alloc(), geometry).expect(rt, "the device");
    let mut fuses = Vec::new(rt.alloc());
    for n in calls {
        let port = device.port().expect(rt, "a port");
        let fuse = FusePort::new(rt.alloc(), port, *n, false).expect(rt, "a port that fails");
        fuses.push(fuse).expect(rt, "a place");
    }
    fuses
}

/// Makes a visitor to each of three pages.
fn visitors<R: Abort + AllocGlobal>(rt: &R) -> Vec<Visitor> {
    let mut visitors = Vec::new(rt.alloc());
    for page in 0..3u64 {
        let visitor = Visitor {
            page,
            refused: None,
        };
        visitors.push(visitor).expect(rt, "a place");
    }
    visitors
}

/// Asserts that the port of client 0 failed once, so that its fix was refused, and that each other client has a pass.
fn expect_client<R: Abort>(rt: &R, left: &Left<FusePort<MemPort>, Visitor>, client: usize) {
    let wanted = if client == 0 {
        (1, Some(Refusal::ReadFailed), 0)
    } else {
        (0, None, 1)
    };
    assert_eq!(rt;
        (left.port.failures(), left.worker.refused, left.held),
        wanted
    );
}

fn expect_clients<R: Abort + AllocGlobal>(rt: &R, run: &Run<FusePort<MemPort>, Visitor>) {
    expect_lawful(rt, &run.core);
    assert_eq!(rt; run.left.len(), 3);
    for client in 0..run.left.len() {
        expect_client(rt, &run.left[client], client);
    }
}

/// Three visitors each read a page by their own port. The first call of client 0's port fails.
#[test]
fn each_worker_works_over_its_own_port(rt: HostRuntime) {
    let rt = &rt;
    let ports = fuses(rt, &[1, 100, 100]);
    let run = visit_all(rt, rt.alloc(), config(rt, 4), ports, visitors(rt));
    let run = run.expect(rt, "the run");
    expect_clients(rt, &run);
    drop(run);
}

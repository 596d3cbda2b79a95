//! Workers whose ports fail at each call.
use crate::making::{config, expect_lawful};
use crate::writer::{Writer, writers};
use bp_device::Port;
use bp_page::{Geometry, Image, Lsn, PageNo, PortFault, Refusal};
use bp_workers::{Left, Run, run_workers};
use std::process::Abort;
use std::rt::HostRuntime;
use std::sync::Wait;

#[derive(Drop)]
struct DeadPort {
    geometry: Geometry,
    failures: u64,
}

impl Port for DeadPort {
    ghost use Rattle.std.specs.Prelude.{false};

    ghost geometry_of = { λ p. p.geometry };

    ghost failures_of = { λ p. p.failures };

    ghost is_headed = { λ _. false };

    ghost read_gives = { λ _ _ _ _. Unit {0} };

    ghost write_gives = { λ _ _ _ _ _ _. Unit {0} };

    ghost sync_gives = { λ _ _ _. Unit {0} };

    fn geometry(&self) -> Geometry {
        self.geometry
    }

    fn failures(&self) -> u64 {
        self.failures
    }

    fn read<R: Wait>(&mut self, _rt: &R, _page: PageNo) -> Result<Image, PortFault> {
        self.failures = self.failures.saturating_add(1);
        Err(PortFault::Device)
    }

    fn write<R: Wait>(
        &mut self,
        _rt: &R,
        _page: PageNo,
        _image: &Image,
        _lsn: Lsn,
    ) -> Result<(), PortFault> {
        self.failures = self.failures.saturating_add(1);
        Err(PortFault::Device)
    }

    fn sync<R: Wait>(&mut self, _rt: &R) -> Result<(), PortFault> {
        self.failures = self.failures.saturating_add(1);
        Err(PortFault::Device)
    }
}

/// Makes so many ports that always fail.
fn dead_ports<R: Abort + AllocGlobal>(rt: &R, geometry: Geometry, count: usize) -> Vec<DeadPort> {
    let mut ports = Vec::new(rt.alloc());
    for _ in 0..count {
        let port = DeadPort {
            geometry,
            failures: 0,
        };
        ports.push(port).expect(rt, "a place");
    }
    ports
}

/// Asserts that each fix of a worker was refused.
fn expect_refused<R: Abort>(rt: &R, left: &Left<DeadPort, Writer>) {
    let worker = &left.worker;
    assert_eq!(rt;
        (worker.done, worker.refused, worker.latest),
        (0, 13, Some(Refusal::ReadFailed))
    );
    assert!(rt; left.port.failures() == 13 && left.held == 0);
}

fn expect_all_refused<R: Abort + AllocGlobal>(rt: &R, run: &Run<DeadPort, Writer>) {
    expect_lawful(rt, &run.core);
    for left in &run.left {
        expect_refused(rt, left);
    }
}

/// Each fix of a worker whose port always fails is refused, and the run ends.
#[test]
fn dead_ports_end_no_run(rt: HostRuntime) {
    let rt = &rt;
    let config = config(rt, 2);
    let ports = dead_ports(rt, config.geometry, 2);
    let run = run_workers(rt, rt.alloc(), config, ports, writers(rt, 2, true));
    let run = run.expect(rt, "the run");
    expect_all_refused(rt, &run);
    drop(run);
}

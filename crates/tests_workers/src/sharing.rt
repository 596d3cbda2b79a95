//! Workers that share pages.
use crate::making::{config, expect_lawful, ports};
use crate::writer::{DURABLE, Writer, writers};
use bp_check::agrees;
use bp_core::{Call, Entry};
use bp_device::MemPort;
use bp_page::Lsn;
use bp_workers::{Left, Run, run_workers};
use std::process::Abort;
use std::rt::HostRuntime;
use std::sync::Wait;
use std::thread::Threads;

/// Runs so many workers, which keep a pass where `keeps` is true. The judge finds the trail legal.
fn run<R: Abort + AllocGlobal + Threads + Wait + Sync>(
    rt: &R,
    frames: usize,
    count: usize,
    keeps: bool,
) -> Run<MemPort, Writer> {
    let (ports, workers) = (ports(rt, count), writers(rt, count, keeps));
    let run = run_workers(rt, rt.alloc(), config(rt, frames), ports, workers);
    let run = run.expect(rt, "the run");
    expect_lawful(rt, &run.core);
    run
}

fn count_marks(trail: &[Entry]) -> usize {
    let mut marks: usize = 0;
    for entry in trail {
        if entry.call == Call::Mark(Lsn::new(DURABLE)) {
            marks = marks.saturating_add(1);
        }
    }
    marks
}

/// Asserts that a client's list is its part of the trail, that no call was refused, and that all passes went back.
fn expect_client<R: Abort>(rt: &R, trail: &[Entry], left: &Left<MemPort, Writer>, client: usize) {
    let number = u8::try_from(client).expect(rt, "the client's number");
    assert!(rt; agrees(trail, left.said(), number));
    let worker = &left.worker;
    assert_eq!(rt;
        (worker.done, worker.refused, left.held, left.all_went_back),
        (12, 0, 0, true)
    );
}

/// Asserts that each list is its client's part of the trail, that all passes went back, and that the trail has
/// one mark.
fn expect_clients<R: Abort>(rt: &R, run: &Run<MemPort, Writer>, count: usize) {
    let trail = run.core.trail();
    for client in 0..run.left.len() {
        expect_client(rt, trail, &run.left[client], client);
    }
    assert_eq!(rt; (run.left.len(), count_marks(trail)), (count, 1));
}

fn expect_shared<R: Abort + AllocGlobal + Threads + Wait + Sync>(
    rt: &R,
    frames: usize,
    count: usize,
) {
    let run = run(rt, frames, count, false);
    expect_clients(rt, &run, count);
    drop(run);
}

/// Two workers write to the same pages.
#[test]
fn two_workers_share_pages(rt: HostRuntime) {
    expect_shared(&rt, 4, 2);
}

/// The most workers that a run may have.
#[test]
fn sixty_four_workers(rt: HostRuntime) {
    expect_shared(&rt, 64, 64);
}

/// Asserts that each client still held a pass, which was given back: the unfix is in its list.
fn expect_given_back<R: Abort>(rt: &R, clients: &[Left<MemPort, Writer>]) {
    for left in clients {
        assert_eq!(rt; (left.held, left.all_went_back), (1, true));
        assert!(rt;
            matches!(left.said().last(), Some(entry) if matches!(entry.call, Call::Unfix { .. }))
        );
    }
}

/// A pass that a worker still holds when it returns is given back, and the unfix is in its list.
#[test]
fn passes_still_held_go_back(rt: HostRuntime) {
    let rt = &rt;
    let run = run(rt, 4, 2, true);
    expect_given_back(rt, &run.left);
    drop(run);
}

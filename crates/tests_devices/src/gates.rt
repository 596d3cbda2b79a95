//! Pairs of ports whose calls wait for one another.
use crate::making::{NINE, ZEROS, config, device, expect_page, fuse, image, put};
use bp_device::{MemDevice, MemPort, Port};
use bp_page::{Image, Lsn, PageNo, PortFault};
use std::process::Abort;
use std::sync::Wait;
use std::thread;
use test_ports::{FusePort, GatePort};

/// A pair of ports to a device. A call of one looks so often for a call of the other.
fn pair<R: Abort + AllocGlobal>(
    rt: &R,
    device: &MemDevice,
    turns: u64,
) -> (GatePort<MemPort>, GatePort<MemPort>) {
    let first = device.port().expect(rt, "the port");
    let second = device.port().expect(rt, "the port");
    GatePort::pair(rt.alloc(), first, second, turns).expect(rt, "the ports")
}

/// The work of one of two threads: it reads a page and writes it.
#[derive(Drop)]
struct Job {
    port: GatePort<MemPort>,
    page: PageNo,
    read: Result<Image, PortFault>,
    written: Result<(), PortFault>,
}

fn job_of(port: GatePort<MemPort>, page: u64) -> Job {
    Job {
        port,
        page: PageNo::new(page),
        read: Err(PortFault::Memory),
        written: Err(PortFault::Memory),
    }
}

/// Makes a job for page 0 and one for page 1, over a pair of ports.
fn two_jobs<R: Abort + AllocGlobal>(rt: &R, device: &MemDevice) -> [Job; 2] {
    let (first, second) = pair(rt, device, 1_000_000_000);
    [job_of(first, 0), job_of(second, 1)]
}

fn run<R: Wait>(rt: &R, image: &Image, job: &mut Job) {
    job.read = job.port.read(rt, job.page);
    job.written = job.port.write(rt, job.page, image, Lsn::new(9));
}

fn expect_read<R: Abort>(rt: &R, read: &Result<Image, PortFault>, bytes: &[u8]) {
    match read {
        Ok(image) => assert_eq!(rt; image.bytes(), bytes),
        Err(fault) => panic!(rt; "{fault}"),
    }
}

/// Asserts that a job read these bytes, that it wrote, and that its port counted no failure.
fn expect_done<R: Abort>(rt: &R, job: &Job, bytes: &[u8]) {
    expect_read(rt, &job.read, bytes);
    assert_eq!(rt; (job.written, job.port.failures()), (Ok(()), 0));
}

#[test]
fn calls_of_two_threads_meet(rt: HostRuntime) {
    let device = device(&rt, config(&rt).geometry);
    let mut plain = device.port().expect(&rt, "the port");
    put(&rt, &mut plain, 1, &NINE);
    let mut jobs = two_jobs(&rt, &device);
    let nine = image(&rt, &NINE);
    thread::for_each_mut(&rt, &mut jobs, 2, &|_, job| run(&rt, &nine, job));
    expect_done(&rt, &jobs[0], &ZEROS);
    expect_done(&rt, &jobs[1], &NINE);
    expect_page(&rt, &mut plain, 0, &NINE);
}

/// A port of a pair in one thread, whose first call that gets to the device fails.
type Alone = GatePort<FusePort<MemPort>>;

fn alone<R: Abort + AllocGlobal>(rt: &R, device: &MemDevice) -> (Alone, Alone) {
    let (first, second) = (fuse(rt, device, 1, false), fuse(rt, device, 9, false));
    GatePort::pair(rt.alloc(), first, second, 3).expect(rt, "the ports")
}

/// Asserts that a read of a page fails.
fn expect_no_read<P: Port, R: Wait + Abort>(rt: &R, port: &mut P, page: u64) {
    assert_eq!(rt; port.read(rt, PageNo::new(page)), Err(PortFault::Device));
}

/// Asserts that a write of page 1 fails.
fn expect_no_write<P: Port, R: Wait + Abort>(rt: &R, port: &mut P, image: &Image) {
    assert_eq!(rt;
        port.write(rt, PageNo::new(1), image, Lsn::new(9)),
        Err(PortFault::Device)
    );
}

/// Asserts that a read of page 0 fails, and that so many failures are then counted.
fn expect_failure<P: Port, R: Wait + Abort>(rt: &R, port: &mut P, failures: u64) {
    expect_no_read(rt, port, 0);
    assert_eq!(rt; port.failures(), failures);
}

/// Asserts how many failures each port of a pair has counted.
fn expect_failures<P: Port, R: Abort>(rt: &R, port: &P, other: &P, wanted: (u64, u64)) {
    assert_eq!(rt; (port.failures(), other.failures()), wanted);
}

// A read that meets no other call fails, and does not get to the device, whose first call is the next read.
#[test]
fn read_that_nobody_meets(rt: HostRuntime) {
    let device = device(&rt, config(&rt).geometry);
    let (mut port, mut other) = alone(&rt, &device);
    expect_failure(&rt, &mut port, 1);
    expect_page(&rt, &mut other, 0, &ZEROS);
    expect_failure(&rt, &mut port, 2);
    expect_page(&rt, &mut port, 0, &ZEROS);
    expect_failures(&rt, &port, &other, (2, 0));
}

// A read of one port opens reads of the other one, and no writes; a write opens writes.
#[test]
fn read_opens_no_write(rt: HostRuntime) {
    let device = device(&rt, config(&rt).geometry);
    let (mut port, mut other) = pair(&rt, &device, 3);
    expect_no_read(&rt, &mut port, 1);
    expect_no_write(&rt, &mut other, &image(&rt, &NINE));
    expect_page(&rt, &mut other, 1, &ZEROS);
    put(&rt, &mut port, 1, &NINE);
    expect_page(&rt, &mut port, 1, &NINE);
    expect_failures(&rt, &port, &other, (1, 1));
}

//! Many threads over a recorded pool of many parts, with ports that work and ports that fail.

use crate::adder::{Adder, PAGES};
use crate::failing::Failing;
use crate::scratch::scratch;
use bp_check::{Setup, first_unlawful};
use bp_core::{Config, Settings};
use bp_keeper::RecordingKeeper;
use bp_page::{Format, Geometry, PageNo};
use bp_part_workers::{PartedRun, run_parted};
use bp_ports::{FilePort, Store, StripedPort, create_striped_file};
use std::fs::{File, OpenOptions};
use std::process::Abort;
use std::rt::Files;
use std::sync::Wait;
use std::{fs, process};

/// Makes a file of 32 pages of 64 bytes as so many stripes, and returns the geometry of one.
fn new_file<R: Wait + Abort + AllocGlobal + Files<File = File>>(
    rt: &R,
    path: &str,
    parts: u64,
) -> Geometry {
    let stripe = Geometry::new(PAGES as u64 / parts.max(1), 64).expect(rt, "the geometry");
    let parts = parts.clamp(1, 64);
    let made = create_striped_file(rt, rt.alloc(), path, stripe, Format::Headed, parts);
    drop(made.expect(rt, "the file"));
    stripe
}

/// The configuration of a part of so many frames.
fn config_of<R: Abort>(rt: &R, stripe: Geometry, frames: usize) -> Config {
    let settings = Settings::new(2, 0, 1000).expect(rt, "settings");
    Config::new(stripe)
        .with_frames(frames)
        .with_settings(settings)
        .with_room(100000)
}

/// Each part's trail is legal and has evictions, and each page of the file has all additions of each worker.
fn look<S: Store, R: Abort + AllocGlobal + Files<File = File>>(
    rt: &R,
    path: &str,
    run: &PartedRun<Adder, S>,
) {
    for core in &run.cores {
        let setup = Setup {
            geometry: core.geometry(),
            settings: core.settings(),
            frames: core.frames(),
            clients: core.clients(),
        };
        let judged = first_unlawful(rt.alloc(), &setup, core.trail()).expect(rt, "a judge");
        assert!(rt; judged.is_none());
        assert!(rt; core.stats().totals.evictions > 0);
    }
    let opened = FilePort::open(rt, rt.alloc(), path, 64, Format::Headed);
    let mut whole = opened.expect(rt, "the page file");
    for page in 0..PAGES {
        let number = PageNo::new(page as u64);
        let (_, image) = whole.read_with_lsn(number).expect(rt, "a page");
        for left in &run.left {
            let found = image.bytes().get(left.worker.byte as usize);
            assert!(rt;
                found.copied() == Some(left.worker.added[page]),
                "page {page}"
            );
        }
    }
    for left in &run.left {
        assert!(rt; left.worker.flushed);
        assert!(rt; left.worker.refused < left.worker.uses);
    }
    fs::remove_file(rt, path).expect(rt, "the file is removed");
}

/// Four threads over four parts of two frames: no frame lost an addition, and the file has them all.
#[test]
fn additions_of_four_threads_are_all_there(rt: HostRuntime) {
    let path = scratch(&rt, process::id(rt.process()), "threads");
    let path = path.as_path().as_str();
    let stripe = new_file(&rt, path, 4);
    let (mut ports, mut workers) = (Vec::new(rt.alloc()), Vec::new(rt.alloc()));
    for byte in 0..4 {
        let port = StripedPort::open(&rt, rt.alloc(), path, 64, Format::Headed, 4);
        ports.push(port.expect(&rt, "a port")).expect(&rt, "memory");
        workers.push(Adder::new(byte, 400)).expect(&rt, "memory");
    }
    let config = config_of(&rt, stripe, 2);
    let ran = run_parted::<RecordingKeeper, _, _, _, _>(
        &rt,
        rt.alloc(),
        config,
        4,
        ports,
        workers,
        (),
    );
    let run = ran.expect(&rt, "a run");
    assert!(&rt; run.cores.len() == 4);
    look(&rt, path, &run);
}

/// 64 threads over 16 frames in eight parts, with ports of which each 13th read or write fails: the same.
#[test]
fn additions_through_failing_ports_are_all_there(rt: HostRuntime) {
    let path = scratch(&rt, process::id(rt.process()), "failing");
    let path = path.as_path().as_str();
    let stripe = new_file(&rt, path, 8);
    let (mut ports, mut workers) = (Vec::new(rt.alloc()), Vec::new(rt.alloc()));
    for byte in 0..64 {
        let opened = OpenOptions::new().read(true).write(true).open(&rt, path);
        let store = Failing::new(opened.expect(&rt, "the file"), u64::from(byte));
        let port = StripedPort::over(rt.alloc(), store, stripe, Format::Headed, 8);
        ports.push(port.expect(&rt, "a port")).expect(&rt, "memory");
        workers.push(Adder::new(byte, 60)).expect(&rt, "memory");
    }
    let config = config_of(&rt, stripe, 2);
    let ran = run_parted::<RecordingKeeper, _, _, _, _>(
        &rt,
        rt.alloc(),
        config,
        8,
        ports,
        workers,
        (),
    );
    let run = ran.expect(&rt, "a run");
    assert!(&rt; run.cores.len() == 8);
    let mut has_failed = false;
    for core in &run.cores {
        has_failed = has_failed || core.stats().totals.failed > 0;
    }
    assert!(&rt; has_failed);
    look(&rt, path, &run);
}

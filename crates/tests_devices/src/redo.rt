//! Redo after a crash: a pool goes with a write that did not go out, and the log has the record.
use crate::making::{device, expect_page};
use bp_core::{RecordingKeeper, Settings};
use bp_device::{MemDevice, MemPort, OwnedPool, Port};
use bp_page::{Bytes, Geometry, Lsn, PageNo, Refusal};
use bp_trail::{LogRecord, redo_page, redo_record};
use std::process::Abort;
use std::sync::Wait;

const SAVED: [u8; 16] = [7, 0, 0, 0, 0, 0, 0, 0, 0, 0, 0, 0, 0, 0, 0, 0];

const REDONE: [u8; 16] = [7, 8, 0, 0, 0, 0, 0, 0, 0, 0, 0, 0, 0, 0, 0, 0];

type Pool = OwnedPool<RecordingKeeper, MemPort>;

/// A record of bytes that were written to page 1.
fn record<R: Abort + AllocGlobal>(rt: &R, offset: u32, bytes: &[u8], lsn: u64) -> LogRecord {
    LogRecord {
        page: PageNo::new(1),
        offset,
        bytes: Bytes::of(rt.alloc(), bytes).expect(rt, "the bytes"),
        lsn: Lsn::new(lsn),
    }
}

/// Writes 7 to page 1 under LSN 1, has it go out, and writes 8 behind it under LSN 2. Then the pool is gone.
fn crash<R: Wait + Abort + AllocGlobal>(rt: &R, device: &MemDevice) {
    let port = device.port().expect(rt, "the port");
    let settings = Settings::new(1, 0, 0).expect(rt, "the settings");
    let made: Result<Pool, Refusal> = OwnedPool::over(rt.alloc(), port, settings, 2, 100);
    let mut pool = made.expect(rt, "the pool");
    let page = PageNo::new(1);
    let pass = pool.fix(rt, page).expect(rt, "the page");
    assert_eq!(rt; pool.write_from(&pass, 0, &[7], Lsn::new(1)), Ok(()));
    assert_eq!(rt; pool.mark(Lsn::new(1)), Ok(()));
    assert!(rt; pool.flush(rt, page).is_ok());
    assert_eq!(rt; pool.write_from(&pass, 1, &[8], Lsn::new(2)), Ok(()));
    pass.note();
}

#[test]
fn redo_makes_the_write_that_did_not_go_out(rt: HostRuntime) {
    let geometry = Geometry::new(4, 16).expect(&rt, "the geometry");
    let device = device(&rt, geometry);
    crash(&rt, &device);
    let mut port = device.port().expect(&rt, "a second port");
    expect_page(&rt, &mut port, 1, &SAVED);
    let page = PageNo::new(1);
    let mut image = port.read(&rt, page).expect(&rt, "the page");
    let log = [record(&rt, 0, &[7], 1), record(&rt, 1, &[8], 2)];
    assert_eq!(rt; redo_page(&log, Lsn::new(2), page, &mut image), Ok(()));
    assert_eq!(rt; image.bytes(), REDONE.as_slice());
    // Once more it changes nothing, nor does a record of another page, or one that does not fit.
    assert_eq!(rt; redo_page(&log, Lsn::new(0), page, &mut image), Ok(()));
    assert_eq!(rt;
        redo_page(&log, Lsn::new(0), PageNo::new(2), &mut image),
        Ok(())
    );
    let beyond = record(&rt, 15, &[1, 2], 3);
    let refused = redo_record(&beyond, Lsn::new(0), page, &mut image);
    assert_eq!(rt; refused, Err(Refusal::OutOfPage));
    assert_eq!(rt; image.bytes(), REDONE.as_slice());
}

//! A sweep whose device fails. No run of the program can show this.
use bp_core::Settings;
use bp_device::{MemDevice, Port};
use bp_page::Geometry;
use bp_sweep::{Totals, count_references};
use std::process::Abort;
use test_ports::FusePort;

/// A reference whose read fails is counted as failed, and the next one reads the page.
#[test]
fn a_read_that_fails_is_counted(rt: HostRuntime) {
    let geometry = Geometry::new(16, 16).expect(&rt, "16 pages of 16 bytes");
    let settings = Settings::new(2, 0, 1_000_000).expect(&rt, "settings");
    let device = MemDevice::new(rt.alloc(), geometry).expect(&rt, "a device");
    let port = device.port().expect(&rt, "a port");
    let mut fuse = FusePort::new(rt.alloc(), port, 1, false).expect(&rt, "a fuse");
    assert!(rt; fuse.geometry().pages == 16);
    // The page is in no frame after the failed read, so the second reference reads it.
    let counts = count_references(&rt, rt.alloc(), &mut fuse, settings, 1, &[1, 1, 1]);
    let wanted = Totals {
        hits: 1,
        faults: 1,
        evictions: 0,
        writes: 0,
        failed: 1,
        refused: 0,
        discards: 0,
    };
    assert_eq!(rt; counts, Ok(wanted));
}

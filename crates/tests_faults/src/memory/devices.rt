//! A driver over a device in memory.
ghost use Rattle.std.specs.Prelude.{◌≡◌};

use crate::memory::answers::expect_counted;
use bp_core::{Core, Settings};
use bp_device::{MemDevice, MemPort};
use bp_page::{Geometry, Refusal};
use bp_replay::drive_all;
use bp_scripts::{Refused, Row};
use std::process::Abort;
use std::sync::Wait;
use test_support::judging::unlawful_in;
use test_support::scripts::{rows_fit, rows_of};

/// Page 1 is changed, and has to go out for page 2. Page 2 stays pinned, so page 1 finds no frame.
const TWO_PAGES: &str = "
0,fix,1,,,
0,write,1,0,09,0
0,unfix,1,,,
0,tick,1,,,
0,fix,2,,,
0,fix,1,,,
0,read,1,,,
";

/// With memory row 6 finds no victim, so row 7 has no pass.
const NO_VICTIM_NO_PASS: [Refused; 2] = [
    Refused { row: 6, number: 11 },
    Refused { row: 7, number: 14 },
];

pub(crate) fn device<R: Abort + AllocGlobal>(rt: &R, geometry: Geometry) -> MemDevice
    ensures { result ≡ geometry }
{
    match MemDevice::new(rt.alloc(), geometry) {
        Ok(device) => device,
        Err(refusal) => {
            assert!(rt; refusal == Refusal::OutOfMemory);
            MemDevice::new(rt.alloc(), geometry).expect(rt, "the device, with memory")
        }
    }
}

pub(crate) fn port_of<R: Abort>(rt: &R, device: &MemDevice) -> MemPort
    ensures { result.device ≡ device.now }
{
    match device.port() {
        Ok(port) => port,
        Err(refusal) => {
            assert!(rt; refusal == Refusal::OutOfMemory);
            device.port().expect(rt, "the port, with memory")
        }
    }
}

/// Makes a core of one frame for one client, with K 1 and no periods.
fn one_frame<R: Abort + AllocGlobal>(rt: &R, geometry: Geometry) -> Core
    ensures { result.parameters.size ≡ geometry.size }
{
    let settings = Settings::new(1, 0, 0).expect(rt, "the settings");
    match Core::new(rt.alloc(), geometry, settings, 1, 1, 100) {
        Ok(core) => core,
        Err(refusal) => {
            assert!(rt; refusal == Refusal::OutOfMemory);
            let again = Core::new(rt.alloc(), geometry, settings, 1, 1, 100);
            again.expect(rt, "the core, with memory")
        }
    }
}

/// Drives the rows. If that is refused before the first row, it tries again.
fn drive<R: Wait + Abort + AllocGlobal>(
    rt: &R,
    core: &mut Core,
    port: &mut MemPort,
    rows: &[Row],
) -> Vec<Refused>
    requires size { port.old.device.size ≡ core.old.parameters.size }
{
    assert!(rt; rows_fit(core, rows));
    match drive_all(rt, rt.alloc(), core, port, rows) {
        Ok(refused) => refused,
        Err(refusal) => {
            assert!(rt; refusal == Refusal::OutOfMemory && core.trail().is_empty());
            assert!(rt; rows_fit(core, rows));
            let again = drive_all(rt, rt.alloc(), core, port, rows);
            again.expect(rt, "the rows are driven, with memory")
        }
    }
}

#[test]
fn rows_by_a_driver(rt: HostRuntime) {
    let geometry = Geometry::new(4, 16).expect(&rt, "the geometry");
    let device = device(&rt, geometry);
    let mut port = port_of(&rt, &device);
    let mut core = one_frame(&rt, geometry);
    let rows = rows_of(rt.alloc(), &geometry, TWO_PAGES).expect(&rt, "the rows");
    let refused = drive(&rt, &mut core, &mut port, &rows);
    if !expect_counted(&rt, &rows, &refused, core.trail()) {
        assert_eq!(&rt; refused.as_slice(), NO_VICTIM_NO_PASS.as_slice());
    }
    assert_eq!(&rt; unlawful_in(rt.alloc(), &core), Ok(None));
    drop(core);
}

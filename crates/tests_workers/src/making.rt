//! Shared by the tests: pools of four pages of 16 bytes, ports to them, and the judge of a run.
use bp_core::{Core, Settings};
use bp_device::{MemDevice, MemPort};
use bp_page::Geometry;
use bp_workers::Config;
use std::process::Abort;
use test_support::judging::unlawful_in;

pub(crate) const PAGES: u64 = 4;

pub(crate) fn config<R: Abort + AllocGlobal>(rt: &R, frames: usize) -> Config {
    Config {
        geometry: Geometry::new(PAGES, 16).expect(rt, "the geometry"),
        settings: Settings::new(2, 0, 1000).expect(rt, "the settings"),
        frames,
        room: 4096,
    }
}

/// Makes so many ports to one device.
pub(crate) fn ports<R: Abort + AllocGlobal>(rt: &R, count: usize) -> Vec<MemPort> {
    ports_to(
        rt,
        Geometry::new(PAGES, 16).expect(rt, "the geometry"),
        count,
    )
}

/// Makes so many ports to one device of this geometry.
pub(crate) fn ports_to<R: Abort + AllocGlobal>(
    rt: &R,
    geometry: Geometry,
    count: usize,
) -> Vec<MemPort> {
    let device = MemDevice::new(rt.alloc(), geometry).expect(rt, "the device");
    let mut ports = Vec::new(rt.alloc());
    for _ in 0..count {
        let port = device.port().expect(rt, "a port");
        ports.push(port).expect(rt, "a place");
    }
    ports
}

/// Asserts that the judge finds the trail of a core legal.
pub(crate) fn expect_lawful<R: Abort + AllocGlobal>(rt: &R, core: &Core) {
    assert_eq!(rt; unlawful_in(rt.alloc(), core), Ok(None));
}

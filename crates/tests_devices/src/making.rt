//! Shared by the tests: four pages of 16 bytes, one frame, and ports of which one call fails.
ghost use Rattle.std.specs.Prelude.{◌≡◌, All, vec_len};

use bp_core::{Entry, Settings};
use bp_device::{MemDevice, MemPort, Port};
use bp_page::{Geometry, Image, Lsn, PageNo};
use bp_replay::{Config, Outcome, run_clients, scripts_fit};
use std::marker::Sync;
use std::process::Abort;
use std::sync::Wait;
use std::thread::Threads;
use test_ports::FusePort;
use test_support::judging::{setup_of_run, unlawful};
use test_support::scripts::scripts_of;

pub(crate) const ZEROS: [u8; 16] = [0; 16];

pub(crate) const NINE: [u8; 16] = [9, 0, 0, 0, 0, 0, 0, 0, 0, 0, 0, 0, 0, 0, 0, 0];

pub(crate) fn image<R: Abort + AllocGlobal>(rt: &R, bytes: &[u8]) -> Image {
    Image::of(rt.alloc(), bytes).expect(rt, "the image")
}

pub(crate) fn put<P: Port, R: Wait + Abort + AllocGlobal>(
    rt: &R,
    port: &mut P,
    page: u64,
    bytes: &[u8],
) {
    let written = port.write(rt, PageNo::new(page), &image(rt, bytes), Lsn::new(0));
    assert_eq!(rt; written, Ok(()));
}

/// Asserts the bytes of a page that a port reads.
pub(crate) fn expect_page<P: Port, R: Wait + Abort>(rt: &R, port: &mut P, page: u64, bytes: &[u8]) {
    let image = port.read(rt, PageNo::new(page)).expect(rt, "the page");
    assert_eq!(rt; image.bytes(), bytes, "page {page}");
}

/// The configuration of a run: one frame, K 1 and no periods.
pub(crate) fn config<R: Abort>(rt: &R) -> Config {
    Config {
        geometry: Geometry::new(4, 16).expect(rt, "the geometry"),
        settings: Settings::new(1, 0, 0).expect(rt, "the settings"),
        frames: 1,
        room: 4096,
    }
}

pub(crate) fn device<R: Abort + AllocGlobal>(rt: &R, geometry: Geometry) -> MemDevice
    ensures { result ≡ geometry }
{
    MemDevice::new(rt.alloc(), geometry).expect(rt, "the device")
}

/// Makes a port to the device whose n-th call fails. With `spoil`, a write that fails puts a page of bytes 255 there.
pub(crate) fn fuse<R: Abort + AllocGlobal>(
    rt: &R,
    device: &MemDevice,
    n: u64,
    spoil: bool,
) -> FusePort<MemPort>
    ensures { result.inner.device ≡ device.now }
{
    let port = device.port().expect(rt, "the port");
    FusePort::new(rt.alloc(), port, n, spoil).expect(rt, "the port")
}

/// The call that fails: the n-th of this client's port.
#[derive(Clone, Copy)]
pub(crate) struct Failing {
    pub client: usize,
    pub n: u64,
    pub spoil: bool,
}

/// Makes a port for each of so many clients.
fn fuses<R: Abort + AllocGlobal>(
    rt: &R,
    device: &MemDevice,
    clients: usize,
    failing: Failing,
) -> Vec<FusePort<MemPort>>
    ensures geometry { All (λ p. p.inner.device ≡ device.now) result.items }
    ensures count { vec_len result ≡ clients }
{
    let mut ports = Vec::new(rt.alloc());
    for client in 0..clients {
        let n = if client == failing.client {
            failing.n
        } else {
            0
        };
        ports
            .push(fuse(rt, device, n, failing.spoil))
            .expect(rt, "the ports");
    }
    ports
}

/// Asserts that the judge finds the trail of a run of so many clients legal.
fn expect_lawful<R: Abort + AllocGlobal>(rt: &R, config: &Config, clients: u8, trail: &[Entry]) {
    let place = unlawful(rt.alloc(), &setup_of_run(config, clients), trail);
    assert_eq!(rt; place, Ok(None), "the first entry that is not lawful");
}

/// Runs the rows of a text by so many clients over the device. The judge finds the trail legal.
pub(crate) fn run<R: Threads + Wait + Sync + Abort + AllocGlobal>(
    rt: &R,
    config: Config,
    device: &MemDevice,
    clients: u8,
    text: &str,
    failing: Failing,
) -> Outcome
    requires { device.now ≡ config.geometry }
{
    let ports = fuses(rt, device, usize::from(clients), failing);
    let scripts = scripts_of(rt.alloc(), &config.geometry, usize::from(clients), text);
    let scripts = scripts.expect(rt, "the scripts");
    assert!(rt; ports.len() == scripts.len() && scripts_fit(&config, &scripts));
    let ran = run_clients(rt, rt.alloc(), config, scripts, ports);
    let (done, _) = ran.expect(rt, "the run");
    expect_lawful(rt, &config, clients, &done.trail);
    done
}

//! Files of several stripes: which lengths they have, and which page of the file a page of a stripe is.
ghost use Rattle.std.specs.Prelude.{◌≤◌};

use bp_page::{Format, Geometry, Image, Lsn, PageNo, PortFault, Refusal};
use bp_ports::{FilePort, OpenFault, Port, StripedPort, create_striped_file};
use std::fs::File;
use std::path::PathBuf;
use std::process::Abort;
use std::rt::{Env, Files};
use std::sync::Wait;
use std::{env, fs, process};

const ZEROS: [u8; 16] = [0; 16];

const NINE: [u8; 16] = [9, 0, 0, 0, 0, 0, 0, 0, 0, 0, 0, 0, 0, 0, 0, 0];

/// A path that no other test and no other run uses.
fn scratch<R: Env + Abort + AllocGlobal>(rt: &R, run: u32, test: &str) -> PathBuf {
    let name = format!(in rt.alloc(); "tests_ports-{run}-{test}").expect(rt, "a name");
    let folder = env::temp_dir(rt).expect(rt, "a folder");
    folder.join(rt.alloc(), name.as_str()).expect(rt, "a path")
}

/// Asserts the bytes of a page that a port reads.
fn expect_page<P: Port, R: Wait + Abort>(rt: &R, port: &mut P, page: u64, bytes: &[u8]) {
    let image = port.read(rt, PageNo::new(page)).expect(rt, "the page");
    assert_eq!(rt; image.bytes(), bytes, "page {page}");
}

/// Returns the number of pages that each of three stripes of a file of so many bytes has, or None where its length is
/// refused.
fn pages_of<R: Files<File = File> + Abort + AllocGlobal>(
    rt: &R,
    path: &str,
    length: usize,
) -> Option<u64>
    requires { length ≤ 128 }
{
    fs::write(rt, path, &[7u8; 128][..length]).expect(rt, "the file");
    match StripedPort::open(rt, rt.alloc(), path, 16, Format::Plain, 3) {
        Ok(port) => Some(port.geometry().pages),
        Err(OpenFault::Refused(Refusal::BadLength)) => None,
        Err(fault) => panic!(rt; "{fault}"),
    }
}

/// A file of three stripes has as many whole pages of each; any other length is `BadLength`. A missing file is a fault
/// of the device.
#[test]
fn stripe_lengths(rt: HostRuntime) {
    let path = scratch(&rt, process::id(rt.process()), "lengths");
    let name = path.as_path().as_str();
    for length in 0..98usize {
        let pages = match length {
            48 => Some(1),
            96 => Some(2),
            _ => None,
        };
        assert_eq!(rt; pages_of(&rt, name, length), pages, "{length} bytes");
    }
    fs::remove_file(&rt, path.as_path()).expect(&rt, "the file is removed");
    let absent = StripedPort::open(&rt, rt.alloc(), path.as_path(), 16, Format::Plain, 3);
    assert!(rt; matches!(absent, Err(OpenFault::Port(PortFault::Device))));
}

/// Writes `NINE` to page 1 of stripe 2 of a new file of three stripes of two pages, with LSN 77. The stripe has no page
/// 2, though the file has one.
fn write_last<R: Files<File = File> + Wait + Abort + AllocGlobal>(
    rt: &R,
    path: &str,
    format: Format,
) -> StripedPort {
    let stripe = Geometry::new(2, 16).expect(rt, "the geometry");
    let made = create_striped_file(rt, rt.alloc(), path, stripe, format, 3);
    let mut port = made.expect(rt, "the file");
    if port.parts() != 3 {
        panic!(rt; "{} stripes", port.parts());
    }
    port.turn_to(2);
    let nine = Image::of(rt.alloc(), &NINE).expect(rt, "the image");
    let written = port.write(rt, PageNo::new(1), &nine, Lsn::new(77));
    assert_eq!(rt; written, Ok(()));
    let lacking = port.write(rt, PageNo::new(2), &nine, Lsn::new(77));
    assert_eq!(rt; (lacking, port.failures()), (Err(PortFault::Device), 1));
    port
}

/// Asserts that of the six pages of a page file page 5 alone has the bytes of `NINE`, and which page LSN stands with
/// them.
fn expect_last<R: Files<File = File> + Wait + Abort + AllocGlobal>(
    rt: &R,
    path: &str,
    format: Format,
    lsn: Option<Lsn>,
) {
    let opened = FilePort::open(rt, rt.alloc(), path, 16, format);
    let mut port = opened.expect(rt, "the page file");
    assert!(rt; port.geometry().pages == 6);
    for page in 0..5u64 {
        expect_page(rt, &mut port, page, &ZEROS);
    }
    let (found, image) = port.read_with_lsn(PageNo::new(5)).expect(rt, "page 5");
    assert_eq!(rt; found, lsn);
    assert_eq!(rt; image.bytes(), NINE.as_slice());
}

/// Asserts what page 1 of each of three stripes is: `NINE` in stripe 2 alone.
fn expect_stripes<R: Wait + Abort>(rt: &R, port: &mut StripedPort) {
    for part in 0..3u64 {
        if part >= port.parts() {
            panic!(rt; "{part} of {} stripes", port.parts());
        }
        port.turn_to(part);
        let bytes = if part == 2 { &NINE } else { &ZEROS };
        expect_page(rt, port, 1, bytes);
    }
}

/// Page 1 of stripe 2 of three is page 5 of the file, in both versions, and no other page is.
#[test]
fn a_stripe_has_each_third_page(rt: HostRuntime) {
    let path = scratch(&rt, process::id(rt.process()), "third");
    let name = path.as_path().as_str();
    for (format, lsn) in [(Format::Plain, None), (Format::Headed, Some(Lsn::new(77)))] {
        let mut port = write_last(&rt, name, format);
        expect_last(&rt, name, format, lsn);
        expect_stripes(&rt, &mut port);
        drop(port);
        fs::remove_file(&rt, path.as_path()).expect(&rt, "the file is removed");
    }
}

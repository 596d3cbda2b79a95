//! The ports of a run in free order, one for each client.
use bp_device::Port;
use bp_page::{Format, Image, Lsn, PageNo};
use bp_run::{AnyPort, PageFiles, Ports};
use std::alloc::Global;
use std::fs;
use std::fs::File;
use std::process::Abort;
use std::rt::{Files, Runtime};
use std::sync::Wait;

/// Opens two ports to the pages that a word names.
fn two_ports(
    rt: &(impl Runtime<A = Global> + Files<File = File> + Abort),
    word: &str,
) -> Vec<AnyPort> {
    let mut files = PageFiles::new(rt.alloc());
    let file = files.open(rt, word, 16, Format::Plain);
    let file = file.expect(rt, "the page file");
    files.connect(rt, file, 2).expect(rt, "the ports")
}

/// Asserts that the second of two ports reads what the first wrote.
fn expect_one_device(rt: &(impl AllocGlobal + Wait + Abort), ports: &mut [AnyPort]) {
    assert_eq!(rt; ports.len(), 2);
    let image = Image::of(rt.alloc(), b"written by first").expect(rt, "the image");
    let written = ports[0].write(rt, PageNo::new(1), &image, Lsn::new(0));
    assert_eq!(rt; written, Ok(()));
    let found = ports[1].read(rt, PageNo::new(1)).expect(rt, "the page");
    assert_eq!(rt; found, image);
}

/// All ports of a run lead to the same pages, in memory and on disk.
#[test]
fn ports_of_one_device(rt: HostRuntime) {
    expect_one_device(&rt, &mut two_ports(&rt, "mem:4"));
    let path = "bpool_ports.pages";
    fs::write(&rt, path, [0u8; 48].as_slice()).expect(&rt, "the file is written");
    expect_one_device(&rt, &mut two_ports(&rt, path));
    fs::remove_file(&rt, path).expect(&rt, "the file is removed");
}

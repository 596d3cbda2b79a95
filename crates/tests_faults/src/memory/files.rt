//! Page files that are opened, and page files that are made.
use bp_device::{FilePort, OpenFault, Port};
use bp_page::{Format, Geometry, PageNo, PortFault, Refusal};
use bp_ports::create_page_file;
use std::fs::File;
use std::path::PathBuf;
use std::process::Abort;
use std::rt::{Env, Files};
use std::sync::Wait;
use std::{env, fs, process};

/// A path that no other test and no other run uses.
fn try_scratch<R: Env + Abort + AllocGlobal>(rt: &R, run: u32, name: &str) -> Option<PathBuf> {
    let Ok(name) = format!(in rt.alloc(); "tests_faults-{run}{name}") else {
        return None;
    };
    match env::temp_dir(rt) {
        Ok(folder) => folder.join(rt.alloc(), name.as_str()).ok(),
        Err(_) => None,
    }
}

fn scratch<R: Env + Abort + AllocGlobal>(rt: &R, run: u32, name: &str) -> PathBuf {
    match try_scratch(rt, run, name) {
        Some(path) => path,
        None => try_scratch(rt, run, name).expect(rt, "the path"),
    }
}

fn make_file<R: Files + Abort>(rt: &R, path: &str, bytes: &[u8]) {
    if fs::write(rt, path, bytes).is_err() {
        fs::write(rt, path, bytes).expect(rt, "the file");
    }
}

fn remove<R: Files + Abort>(rt: &R, path: &str) {
    if fs::remove_file(rt, path).is_err() {
        fs::remove_file(rt, path).expect(rt, "the file is removed");
    }
}

/// Opens a page file. Where memory is refused, it tries again.
fn open<R: Files<File = File> + AllocGlobal>(
    rt: &R,
    path: &str,
    format: Format,
) -> Result<FilePort, OpenFault> {
    match FilePort::open(rt, rt.alloc(), path, 16, format) {
        Err(OpenFault::Port(PortFault::Memory)) => {
            FilePort::open(rt, rt.alloc(), path, 16, format)
        }
        answer => answer,
    }
}

/// Makes a page file of two pages. Where memory is refused, for a page's bytes or for a name, it tries again. The call
/// that failed left nothing at the path, since a file is made only where nothing is.
fn create<R: Files<File = File> + AllocGlobal + Wait + Abort>(
    rt: &R,
    path: &str,
    format: Format,
) -> FilePort {
    let geometry = Geometry::new(2, 16).expect(rt, "the geometry");
    match create_page_file(rt, rt.alloc(), path, geometry, format) {
        Ok(port) => port,
        Err(fault) => {
            assert!(rt;
                matches!(
                    fault,
                    OpenFault::Port(PortFault::Memory | PortFault::Device)
                )
            );
            let again = create_page_file(rt, rt.alloc(), path, geometry, format);
            again.expect(rt, "the page file, with memory")
        }
    }
}

/// Returns true if no page file can be made there, as where something is at the path.
fn cannot_be_made<R: Files<File = File> + AllocGlobal + Wait + Abort>(rt: &R, path: &str) -> bool {
    let geometry = Geometry::new(2, 16).expect(rt, "the geometry");
    let made = create_page_file(rt, rt.alloc(), path, geometry, Format::Plain);
    made.err() == Some(OpenFault::Port(PortFault::Device))
}

/// Asserts that a file has two pages of zeros, and syncs it. A read that is refused memory is made again: that is no
/// failure of the device.
fn expect_zeros<R: Wait + Abort>(rt: &R, mut port: FilePort) {
    assert_eq!(rt; (port.geometry().pages, port.geometry().size), (2, 16));
    for number in 0..2 {
        let page = PageNo::new(number);
        let read = match port.read(rt, page) {
            Err(PortFault::Memory) => port.read(rt, page),
            read => read,
        };
        match read {
            Ok(image) => assert!(rt; image.bytes() == [0u8; 16].as_slice()),
            Err(fault) => panic!(rt; "{fault}"),
        }
    }
    assert!(rt; port.sync(rt).is_ok() && port.failures() == 0);
}

/// Makes a page file, and asserts that it has two pages of zeros in these slots, and that it can't be made again.
fn expect_made<R: Files<File = File> + AllocGlobal + Wait + Abort>(
    rt: &R,
    path: &str,
    format: Format,
    slots: &[u8],
) {
    let port = create(rt, path, format);
    assert!(rt; cannot_be_made(rt, path));
    let found = match fs::read(rt, path) {
        Ok(found) => found,
        Err(_) => fs::read(rt, path).expect(rt, "the bytes of the file"),
    };
    assert_eq!(rt; found.as_slice(), slots);
    expect_zeros(rt, port);
    expect_zeros(rt, open(rt, path, format).expect(rt, "the page file"));
    remove(rt, path);
}

/// A new file of version 2 has a slot for each page, with its number, LSN 0 and zeros. In a missing folder no file is
/// made.
#[test]
fn page_files_are_opened_and_made(rt: HostRuntime) {
    let run = process::id(rt.process());
    let path = scratch(&rt, run, "");
    let path = path.as_path().as_str();
    for length in [0, 40] {
        make_file(&rt, path, &[0u8; 40][..length]);
        let refused = open(&rt, path, Format::Plain).err();
        assert!(rt; refused == Some(OpenFault::Refused(Refusal::BadLength)));
    }
    remove(&rt, path);
    let mut headed = [0u8; 64];
    headed[32] = 1;
    expect_made(&rt, path, Format::Plain, &[0u8; 32]);
    expect_made(&rt, path, Format::Headed, &headed);
    let nowhere = scratch(&rt, run, "-none/made");
    assert!(rt; cannot_be_made(&rt, nowhere.as_path().as_str()));
}

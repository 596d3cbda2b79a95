//! Page files: their lengths, their slots, and files that are cut after they are opened.
ghost use Rattle.std.specs.Prelude.{◌≤◌};

use crate::making::{NINE, expect_page, image, put};
use bp_core::{RecordingKeeper, Settings};
use bp_device::{FilePort, OpenFault, OwnedPool, Port, create_page_file};
use bp_page::{Format, Geometry, Image, Lsn, PageNo, PortFault, Refusal, slot2, unslot2};
use std::fs::File;
use std::path::PathBuf;
use std::process::Abort;
use std::rt::{Env, Files};
use std::sync::Wait;
use std::{env, fs, process};
use test_support::judging::unlawful_in;

/// Four slots of version 2, with pages of 16 zeros.
fn four_slots() -> [u8; 128] {
    let mut bytes = [0u8; 128];
    bytes[32] = 1;
    bytes[64] = 2;
    bytes[96] = 3;
    bytes
}

/// A path that no other test and no other run uses.
fn scratch<R: Env + Abort + AllocGlobal>(rt: &R, run: u32, test: &str) -> PathBuf {
    let name = format!(in rt.alloc(); "tests_devices-{run}-{test}").expect(rt, "a name");
    let folder = env::temp_dir(rt).expect(rt, "a folder");
    folder.join(rt.alloc(), name.as_str()).expect(rt, "a path")
}

/// Asserts that the first `whole` of four pages can be read, and that each other read fails and is counted.
fn expect_whole<R: Wait + Abort>(rt: &R, port: &mut FilePort, whole: u64) {
    for page in 0..4u64 {
        let before = port.failures();
        let read = port.read(rt, PageNo::new(page));
        if page < whole {
            assert!(rt;
                read.is_ok() && port.failures() == before,
                "page {page} of {whole}"
            );
        } else {
            assert!(rt;
                matches!(read, Err(PortFault::Device)),
                "page {page} of {whole}"
            );
            assert!(rt;
                port.failures().checked_sub(before) == Some(1),
                "page {page} of {whole}"
            );
        }
    }
}

/// Opens a file of four pages, cuts it to so many bytes, and asserts that the first pages can be read.
fn cut_after_open<R: Files<File = File> + Wait + Abort + AllocGlobal>(
    rt: &R,
    path: &str,
    format: Format,
    bytes: &[u8],
    left: usize,
    whole: u64,
) {
    fs::write(rt, path, bytes).expect(rt, "the file");
    let opened = FilePort::open(rt, rt.alloc(), path, 16, format);
    let mut port = opened.expect(rt, "the page file");
    assert!(rt; port.geometry().pages == 4);
    fs::write(rt, path, &bytes[..left.min(bytes.len())]).expect(rt, "the cut");
    expect_whole(rt, &mut port, whole);
}

/// After a file of version 1 is cut, a read of a page that is not whole fails.
#[test]
fn plain_file_cut_after_open(rt: HostRuntime) {
    let path = scratch(&rt, process::id(rt.process()), "plain");
    let bytes = [0u8; 64];
    for (left, whole) in [
        (64, 4),
        (63, 3),
        (49, 3),
        (48, 3),
        (47, 2),
        (16, 1),
        (15, 0),
        (0, 0),
    ] {
        cut_after_open(
            &rt,
            path.as_path().as_str(),
            Format::Plain,
            &bytes,
            left,
            whole,
        );
    }
    fs::remove_file(&rt, path.as_path()).expect(&rt, "the file is removed");
}

// After a file of version 2 is cut, a read of a slot that is not whole fails, also where its header is whole.
#[test]
fn headed_file_cut_after_open(rt: HostRuntime) {
    let path = scratch(&rt, process::id(rt.process()), "headed");
    let bytes = four_slots();
    for (left, whole) in [
        (128, 4),
        (127, 3),
        (112, 3),
        (96, 3),
        (95, 2),
        (32, 1),
        (31, 0),
        (16, 0),
        (0, 0),
    ] {
        cut_after_open(
            &rt,
            path.as_path().as_str(),
            Format::Headed,
            &bytes,
            left,
            whole,
        );
    }
    fs::remove_file(&rt, path.as_path()).expect(&rt, "the file is removed");
}

/// Returns the number of pages that a file of so many bytes has when it is opened, or None where its length is refused.
fn pages_of<R: Files<File = File> + Abort + AllocGlobal>(
    rt: &R,
    path: &str,
    length: usize,
) -> Option<u64>
    requires { length ≤ 40 }
{
    fs::write(rt, path, &[7u8; 40][..length]).expect(rt, "the file");
    match FilePort::open(rt, rt.alloc(), path, 16, Format::Plain) {
        Ok(port) => Some(port.geometry().pages),
        Err(OpenFault::Refused(Refusal::BadLength)) => None,
        Err(fault) => panic!(rt; "{fault}"),
    }
}

/// A page file has a positive number of whole pages; any other length is `BadLength`. A missing file is a fault of the
/// device.
#[test]
fn file_lengths(rt: HostRuntime) {
    let path = scratch(&rt, process::id(rt.process()), "lengths");
    let name = path.as_path().as_str();
    assert_eq!(rt;
        (
            pages_of(&rt, name, 40),
            pages_of(&rt, name, 0),
            pages_of(&rt, name, 32)
        ),
        (None, None, Some(2))
    );
    fs::remove_file(&rt, path.as_path()).expect(&rt, "the file is removed");
    let absent = FilePort::open(&rt, rt.alloc(), path.as_path(), 16, Format::Plain);
    assert!(rt; matches!(absent, Err(OpenFault::Port(PortFault::Device))));
}

/// Makes a file of two pages of 4,096 bytes, and asserts that each has zeros.
fn expect_new_file<R: Files<File = File> + Wait + Abort + AllocGlobal>(
    rt: &R,
    path: &str,
    format: Format,
) {
    let geometry = Geometry::new(2, 4096).expect(rt, "the geometry");
    let made = create_page_file(rt, rt.alloc(), path, geometry, format);
    let mut port = made.expect(rt, "the page file");
    expect_page(rt, &mut port, 0, &[0; 4096]);
    expect_page(rt, &mut port, 1, &[0; 4096]);
    fs::remove_file(rt, path).expect(rt, "the file is removed");
}

#[test]
fn new_files_of_large_pages(rt: HostRuntime) {
    let path = scratch(&rt, process::id(rt.process()), "large");
    let name = path.as_path().as_str();
    expect_new_file(&rt, name, Format::Plain);
    expect_new_file(&rt, name, Format::Headed);
}

/// Opens a file of these bytes, and asserts that a write of 32 bytes fails and leaves the file as it was.
fn expect_no_longer_image<R: Files<File = File> + Wait + Abort + AllocGlobal>(
    rt: &R,
    path: &str,
    bytes: &[u8],
    format: Format,
) {
    fs::write(rt, path, bytes).expect(rt, "the file");
    let opened = FilePort::open(rt, rt.alloc(), path, 16, format);
    let mut port = opened.expect(rt, "the page file");
    let longer = image(rt, &[255; 32]);
    let written = port.write(rt, PageNo::new(0), &longer, Lsn::new(0));
    assert_eq!(rt; written, Err(PortFault::Device));
    assert!(rt; fs::read(rt, path).expect(rt, "the file").as_slice() == bytes);
}

#[test]
fn longer_images_are_not_written(rt: HostRuntime) {
    let path = scratch(&rt, process::id(rt.process()), "longer");
    let name = path.as_path().as_str();
    expect_no_longer_image(&rt, name, &[0; 32], Format::Plain);
    expect_no_longer_image(&rt, name, &four_slots(), Format::Headed);
    fs::remove_file(&rt, path.as_path()).expect(&rt, "the file is removed");
}

// A read of a slot with the number of another page fails, and a write of its own page mends it.
#[test]
fn a_write_mends_a_slot_of_another_page(rt: HostRuntime) {
    let path = scratch(&rt, process::id(rt.process()), "mended");
    let name = path.as_path().as_str();
    fs::write(&rt, name, &[7; 32]).expect(&rt, "the file");
    let opened = FilePort::open(&rt, rt.alloc(), name, 16, Format::Headed);
    let mut port = opened.expect(&rt, "the page file");
    assert_eq!(rt;
        port.read(&rt, PageNo::new(0)).err(),
        Some(PortFault::WrongPage)
    );
    put(&rt, &mut port, 0, &NINE);
    expect_page(&rt, &mut port, 0, &NINE);
    fs::remove_file(&rt, path.as_path()).expect(&rt, "the file is removed");
}

/// Asserts that a page of a file of this version has the bytes of `NINE`, and which page LSN stands with them.
fn expect_lsn<R: Files<File = File> + Abort + AllocGlobal>(
    rt: &R,
    name: &str,
    format: Format,
    page: u64,
    lsn: Option<Lsn>,
) {
    let opened = FilePort::open(rt, rt.alloc(), name, 16, format);
    let mut port = opened.expect(rt, "the page file");
    let (found, image) = port.read_with_lsn(PageNo::new(page)).expect(rt, "the page");
    assert_eq!(rt; found, lsn);
    assert_eq!(rt; image.bytes(), NINE.as_slice());
}

// A write leaves the page LSN in a slot of version 2. The same bytes, as pages of version 1, have none.
#[test]
fn page_lsns_are_read_back(rt: HostRuntime) {
    let path = scratch(&rt, process::id(rt.process()), "lsns");
    let name = path.as_path().as_str();
    fs::write(&rt, name, &four_slots()).expect(&rt, "the file");
    let opened = FilePort::open(&rt, rt.alloc(), name, 16, Format::Headed);
    let mut port = opened.expect(&rt, "the page file");
    let written = port.write(&rt, PageNo::new(2), &image(&rt, &NINE), Lsn::new(77));
    assert_eq!(rt; written, Ok(()));
    expect_lsn(&rt, name, Format::Headed, 2, Some(Lsn::new(77)));
    expect_lsn(&rt, name, Format::Plain, 5, None);
    fs::remove_file(&rt, path.as_path()).expect(&rt, "the file is removed");
}

type FileOwner = OwnedPool<RecordingKeeper, FilePort>;

/// Makes a pool of two frames over a new file of four slots, of which the slot of page 1 has the number of page 3.
fn owner_of_file<R: Files<File = File> + Abort + AllocGlobal>(rt: &R, path: &str) -> FileOwner {
    let mut slots = four_slots();
    slots[32] = 3;
    fs::write(rt, path, &slots).expect(rt, "the file");
    let opened = FilePort::open(rt, rt.alloc(), path, 16, Format::Headed);
    let port = opened.expect(rt, "the page file");
    let settings = Settings::new(1, 0, 0).expect(rt, "the settings");
    OwnedPool::over(rt.alloc(), port, settings, 2, 100).expect(rt, "the pool")
}

/// Asserts that each call that reads page 1 is refused, that no frame has the page, and that the device has not failed.
/// Page 2 can be read.
fn expect_wrong_page<R: Wait + Abort>(rt: &R, owner: &mut FileOwner) {
    let (wrong, right) = (PageNo::new(1), PageNo::new(2));
    match owner.fix(rt, wrong) {
        Err(refusal) => assert!(rt; refusal == Refusal::WrongPage),
        Ok(pass) => {
            pass.note();
            panic!(rt; "a pass");
        }
    }
    assert!(rt; owner.with_page(rt, wrong, |bytes| bytes.len()) == Err(Refusal::WrongPage));
    assert!(rt; !owner.core().is_resident(wrong) && owner.port().failures() == 0);
    assert!(rt; owner.with_page(rt, right, |bytes| bytes.len()) == Ok(16));
}

/// Writes to page 1 as a new one, and writes it out. The judge finds the trail legal.
fn mend<R: Wait + Abort + AllocGlobal>(rt: &R, owner: &mut FileOwner) {
    let fixed = owner.fix_new(rt, PageNo::new(1));
    let pass = fixed.expect(rt, "the page as a new one");
    assert!(rt; owner.write_from(&pass, 0, &NINE, Lsn::new(0)).is_ok());
    if let Err(pass) = owner.unfix(pass) {
        pass.note();
        panic!(rt; "an unknown pass");
    }
    assert_eq!(rt; owner.flush_all(rt), Ok(()));
    assert_eq!(rt; unlawful_in(rt.alloc(), owner.core()), Ok(None));
}

/// An owner is refused a slot with the number of another page, by each call that reads it: no frame has the page then,
/// and the device has not failed. What the owner writes to the page as a new one mends the slot.
#[test]
fn an_owner_gets_no_slot_of_another_page(rt: HostRuntime) {
    let rt = &rt;
    let path = scratch(rt, process::id(rt.process()), "owner");
    let mut owner = owner_of_file(rt, path.as_path().as_str());
    expect_wrong_page(rt, &mut owner);
    mend(rt, &mut owner);
    let (core, mut port) = owner.into_parts();
    drop(core);
    expect_page(rt, &mut port, 1, &NINE);
    drop(port);
    fs::remove_file(rt, path.as_path()).expect(rt, "the file is removed");
}

/// The slot of page 3, with LSN 7 and an image of the bytes 0 to 15.
const SLOT: [u8; 32] = [
    3, 0, 0, 0, 0, 0, 0, 0, 7, 0, 0, 0, 0, 0, 0, 0, 0, 1, 2, 3, 4, 5, 6, 7, 8, 9, 10, 11, 12, 13,
    14, 15,
];

/// Asserts that the slot is made of this image.
fn expect_slot<R: Abort + AllocGlobal>(rt: &R, image: &Image) {
    match slot2(rt.alloc(), PageNo::new(3), Lsn::new(7), image) {
        Ok(slot) => assert_eq!(rt; slot.as_slice(), SLOT.as_slice()),
        Err(refusal) => panic!(rt; "{refusal}"),
    }
}

/// Asserts that the slot gives its LSN and this image.
fn expect_unslot<R: Abort + AllocGlobal>(rt: &R, image: &Image) {
    match unslot2(rt.alloc(), PageNo::new(3), &SLOT) {
        Ok((lsn, found)) => {
            assert_eq!(rt; (lsn, &found), (Lsn::new(7), image));
        }
        Err(fault) => panic!(rt; "{fault}"),
    }
}

/// A slot of version 2 is written and read as its format says, and is refused as the slot of another page.
#[test]
fn slot_both_ways(rt: HostRuntime) {
    let bytes = image(&rt, &SLOT[16..]);
    expect_slot(&rt, &bytes);
    expect_unslot(&rt, &bytes);
    let wrong = unslot2(rt.alloc(), PageNo::new(4), &SLOT);
    assert!(rt; matches!(wrong, Err(PortFault::WrongPage)));
}

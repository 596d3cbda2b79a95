//! A pool with one owner. Each of its calls that is refused memory is made once more.
use crate::memory::devices::{device, port_of};
use bp_core::{NotFlushed, Pass, RecordingKeeper, Settings};
use bp_device::{MemDevice, MemPort, OwnedPool, Port};
use bp_page::{Geometry, Lsn, PageNo, Refusal};
use std::process::Abort;
use std::sync::Wait;
use test_support::judging::unlawful_in;

type Owner = OwnedPool<RecordingKeeper, MemPort>;

/// The place of the byte that is written and read.
const OFFSET: u32 = 3;

/// Makes a pool of one frame, with K 1 and no periods, if memory is not refused.
fn try_owner<R: Abort + AllocGlobal>(rt: &R, device: &MemDevice) -> Result<Owner, Refusal> {
    let settings = Settings::new(1, 0, 0).expect(rt, "the settings");
    OwnedPool::over(rt.alloc(), port_of(rt, device), settings, 1, 100)
}

fn owner<R: Abort + AllocGlobal>(rt: &R, device: &MemDevice) -> Owner {
    match try_owner(rt, device) {
        Ok(owner) => owner,
        Err(refusal) => {
            assert!(rt; refusal == Refusal::OutOfMemory);
            try_owner(rt, device).expect(rt, "the pool, with memory")
        }
    }
}

/// Asserts that a call that fixes a page was refused for want of memory, of the pool or at the end of the read. The
/// page is then away, and the clock has moved on from there.
fn expect_away<R: Abort>(rt: &R, owner: &Owner, page: PageNo, refusal: Refusal, clock: u64) {
    assert!(rt;
        matches!(refusal, Refusal::OutOfMemory | Refusal::ReadFailed),
        "{refusal}"
    );
    assert!(rt; !owner.core().is_resident(page));
    assert!(rt; owner.core().clock().checked_sub(clock) == Some(1));
}

fn fix<R: Wait + Abort>(rt: &R, owner: &mut Owner, page: PageNo) -> Pass {
    let clock = owner.core().clock();
    match owner.fix(rt, page) {
        Ok(pass) => pass,
        Err(refusal) => {
            expect_away(rt, owner, page, refusal, clock);
            owner.fix(rt, page).expect(rt, "the page, with memory")
        }
    }
}

fn fix_new<R: Wait + Abort>(rt: &R, owner: &mut Owner, page: PageNo) -> Pass {
    let clock = owner.core().clock();
    match owner.fix_new(rt, page) {
        Ok(pass) => pass,
        Err(refusal) => {
            expect_away(rt, owner, page, refusal, clock);
            owner.fix_new(rt, page).expect(rt, "the page, with memory")
        }
    }
}

/// Returns the byte of a page by a look at it.
fn look<R: Wait + Abort>(rt: &R, owner: &mut Owner, page: PageNo) -> Option<u8> {
    let clock = owner.core().clock();
    match owner.with_page(rt, page, |bytes| bytes.get(OFFSET as usize).copied()) {
        Ok(byte) => byte,
        Err(refusal) => {
            expect_away(rt, owner, page, refusal, clock);
            let again = owner.with_page(rt, page, |bytes| bytes.get(OFFSET as usize).copied());
            again.expect(rt, "the look, with memory")
        }
    }
}

/// Writes a byte. A refusal changes nothing.
fn write<R: Abort>(rt: &R, owner: &mut Owner, pass: &Pass, bytes: &[u8]) {
    let before = owner.core().trail().len();
    if let Err(refusal) = owner.write_from(pass, OFFSET, bytes, Lsn::new(0)) {
        assert!(rt; refusal == Refusal::OutOfMemory && owner.core().trail().len() == before);
        let again = owner.write_from(pass, OFFSET, bytes, Lsn::new(0));
        again.expect(rt, "the write, with memory");
    }
}

/// Reads a byte. A refusal changes nothing.
fn read<R: Abort>(rt: &R, owner: &mut Owner, pass: &Pass) -> [u8; 1] {
    let (mut found, before) = ([0], owner.core().trail().len());
    if let Err(refusal) = owner.read_into(pass, OFFSET, &mut found) {
        assert!(rt; refusal == Refusal::OutOfMemory && owner.core().trail().len() == before);
        assert!(rt; found == [0]);
        let again = owner.read_into(pass, OFFSET, &mut found);
        again.expect(rt, "the read, with memory");
    }
    found
}

fn unfix<R: Abort>(rt: &R, owner: &mut Owner, pass: Pass) {
    if let Err(pass) = owner.unfix(pass) {
        pass.note();
        panic!(rt; "an unknown pass");
    }
}

/// Writes a byte to a page that is fixed, reads it, and gives the pass back.
fn change<R: Abort>(rt: &R, owner: &mut Owner, pass: Pass, byte: u8) {
    write(rt, owner, &pass, &[byte]);
    assert!(rt; read(rt, owner, &pass) == [byte]);
    unfix(rt, owner, pass);
}

/// Writes the one unsaved page out. Where that is refused, it is unsaved still.
fn flush_all<R: Wait + Abort>(rt: &R, owner: &mut Owner, page: PageNo) {
    if let Err(stopped) = owner.flush_all(rt) {
        let why = Refusal::OutOfMemory;
        assert_eq!(rt; stopped, NotFlushed { page, why });
        assert!(rt; owner.core().is_unsaved(page));
        assert_eq!(rt; owner.flush_all(rt), Ok(()));
    }
    assert!(rt; !owner.core().is_unsaved(page));
}

/// Page 1 is changed, and goes out for page 2, which is flushed. Both are found on the device.
fn change_two_pages<R: Wait + Abort>(rt: &R, owner: &mut Owner) {
    let (one, two) = (PageNo::new(1), PageNo::new(2));
    let pass = fix_new(rt, owner, one);
    change(rt, owner, pass, 9);
    let pass = fix(rt, owner, two);
    change(rt, owner, pass, 8);
    flush_all(rt, owner, two);
    assert!(rt; look(rt, owner, one) == Some(9) && look(rt, owner, two) == Some(8));
    assert!(rt; owner.port().failures() == 0);
}

#[test]
fn calls_of_an_owner(rt: HostRuntime) {
    let rt = &rt;
    let device = device(rt, Geometry::new(4, 16).expect(rt, "the geometry"));
    let mut owner = owner(rt, &device);
    change_two_pages(rt, &mut owner);
    assert_eq!(rt; unlawful_in(rt.alloc(), owner.core()), Ok(None));
    drop(owner);
}

//! The silent core for C, C++, Rust and Go: a static library of plain calls on a handle. `include/hojzmated.h` declares
//! them without `proved_` in their names: `bindings/c/pointers.c` has those calls, which look for null pointers and
//! then make these. `docs/C.md` says how to use them.
//!
//! A call on a core takes its pool out of the handle, which owns it by a raw pointer, and puts it back or, to end it,
//! frees it. It tests what the core requires, and returns 0 or the number of a refusal. Not tested are that the handle
//! is zero or as these calls left it, and that each pointer leads to memory of its type.
#![tactic(auto)]

ghost use Rattle.std.specs.Prelude.{◌≡◌, None, is_some, if◌then◌else◌, Ok, Err, IfOk, IfErr, length};
ghost use Rattle.hojzmated_c.specs.Texts.{begun_with, text_of};
ghost use Rattle.hojzmated_c.specs.Outcomes.{Opens, answer_of};
ghost use Rattle.hojzmated_c.specs.Exports.{code_of, Made, Ticked, Marked, Purged, Asked, Flushed, PageDiscarded, ReadEnded, ReadFailed, WriteEnded, PageLent, LsnTold, PartRead, PartWrote, Unfixed, NextTold, VictimTold, RedoTold, StatsTold, ResidentTold, shown_fix};

mod forms;
mod handle;
mod pool;
mod seal;
mod texts;

use crate::forms::{HzConfig, HzFixed, HzGrant, HzStats, HzUnsaved};
pub use crate::handle::HzCore;
use crate::pool::Pool;
use bp_core::{Discarded, EndRefusal, Ended};
use bp_page::Refusal;
use std::alloc::Global;
use std::ptr;

/// The handle has no core.
const NO_CORE: u16 = 50;

/// The handle has a core already.
const HAS_CORE: u16 = 51;

const VERSION: u32 = 1300;

/// Returns 0, or the number of the refusal.
fn code<T>(answer: &Result<T, Refusal>) -> u16
    ensures { result ≡ code_of answer.now }
{
    match answer {
        Ok(_) => 0,
        Err(refusal) => refusal.number(),
    }
}

/// Puts a refusal into `out`. Where nothing was refused, `out` already has the answer.
fn shown(client: u8, page: u64, answer: &Result<(), Refusal>, out: &mut HzFixed)
    ensures { out.new ≡ shown_fix client page (answer_of answer.now out.old) }
{
    if let Err(refusal) = answer {
        *out = HzFixed::refused(client, page, refusal);
    }
}

/// Makes a pool in a box of its own.
fn boxed(alloc: Global, config: &HzConfig) -> Result<Box<Pool, Global>, Refusal>
    ensures made { IfOk result (λ pool. Opens config.now (Ok pool.value)) }
    ensures refused { IfErr result (λ why. Opens config.now (Err why)) }
{
    // A `?` here would take the prover longer: its result holds a pool.
    let pool = match Pool::new(alloc, config) {
        Ok(pool) => pool,
        Err(refusal) => return Err(refusal),
    };
    match Box::new(alloc, pool) {
        Ok(whole) => Ok(whole),
        Err(pool) => {
            drop(pool);
            Err(Refusal::OutOfMemory)
        }
    }
}

/// Returns the version of the library: major * 10,000 + minor * 100 + patch.
#[unsafe(no_mangle)]
pub extern "C" fn proved_hz_version() -> u32
    ensures { result ≡ 1300 }
{
    VERSION
}

/// Makes a core, and returns 0 or the number of the refusal, which leaves `core` as it was.
#[unsafe(no_mangle)]
pub extern "C" fn proved_hz_core_new(alloc: Global, config: &HzConfig, core: &mut HzCore) -> u16
    ensures { Made core.old.seal.pool core.new.seal.pool config.now result }
{
    if core.is_live {
        return HAS_CORE;
    }
    match boxed(alloc, config) {
        Ok(whole) => {
            *core = HzCore::of(whole);
            0
        }
        Err(refusal) => refusal.number(),
    }
}

/// Frees a core, and returns 0, or 50 where there is none. Either way the handle has none afterwards.
#[unsafe(no_mangle)]
pub extern "C" fn proved_hz_core_free(alloc: Global, core: &mut HzCore) -> u16
    ensures gone { core.new.seal.pool ≡ None }
    ensures number { result ≡ (if is_some core.old.seal.pool then 0 else 50) }
{
    match core.take(alloc) {
        Some(_whole) => 0,
        None => NO_CORE,
    }
}

/// Moves the clock on by `n` ticks.
#[unsafe(no_mangle)]
pub extern "C" fn proved_hz_tick(alloc: Global, core: &mut HzCore, client: u8, n: u64) -> u16
    ensures { Ticked core.old.seal.pool core.new.seal.pool client n result }
{
    let Some(mut pool) = core.take(alloc) else {
        return NO_CORE;
    };
    let ticked = pool.tick(client, n);
    *core = HzCore::of(pool);
    code(&ticked)
}

/// Notes that the log is durable up to `lsn`.
#[unsafe(no_mangle)]
pub extern "C" fn proved_hz_mark(alloc: Global, core: &mut HzCore, client: u8, lsn: u64) -> u16
    ensures { Marked core.old.seal.pool core.new.seal.pool client lsn result }
{
    let Some(mut pool) = core.take(alloc) else {
        return NO_CORE;
    };
    let marked = pool.mark(client, lsn);
    *core = HzCore::of(pool);
    code(&marked)
}

/// Forgets the references of pages that are neither resident nor loading and were last referenced more than the
/// retained period ago, and counts these pages.
#[unsafe(no_mangle)]
pub extern "C" fn proved_hz_purge(
    alloc: Global,
    core: &mut HzCore,
    client: u8,
    count: &mut u64,
) -> u16
    ensures { Purged core.old.seal.pool core.new.seal.pool client count.old count.new result }
{
    let Some(mut pool) = core.take(alloc) else {
        return NO_CORE;
    };
    let purged = pool.purge(client);
    *core = HzCore::of(pool);
    if let Ok(forgotten) = purged {
        *count = forgotten;
    }
    code(&purged)
}

/// Asks for a page. Where a victim is to be written out first, `image` gets the bytes to write.
#[unsafe(no_mangle)]
pub extern "C" fn proved_hz_fix(
    alloc: Global,
    core: &mut HzCore,
    client: u8,
    page: u64,
    image: &mut [u8],
    out: &mut HzFixed,
) -> u16
    ensures { Asked core.old.seal.pool core.new.seal.pool client page image.old image.new out.old
        out.new result }
{
    let Some(mut pool) = core.take(alloc) else {
        return NO_CORE;
    };
    let fixed = pool.fix(client, page, image, out);
    *core = HzCore::of(pool);
    shown(client, page, &fixed, out);
    code(&fixed)
}

/// Asks that a page be written out if it is unsaved. Then `image` gets the bytes to write.
#[unsafe(no_mangle)]
pub extern "C" fn proved_hz_flush(
    alloc: Global,
    core: &mut HzCore,
    client: u8,
    page: u64,
    image: &mut [u8],
    out: &mut HzFixed,
) -> u16
    ensures { Flushed core.old.seal.pool core.new.seal.pool client page image.old image.new out.old
        out.new result }
{
    let Some(mut pool) = core.take(alloc) else {
        return NO_CORE;
    };
    let flushed = pool.flush(client, page, image, out);
    *core = HzCore::of(pool);
    shown(client, page, &flushed, out);
    code(&flushed)
}

/// Has a page leave its frame unwritten, and tells whether it was in one. Its references are forgotten.
#[unsafe(no_mangle)]
pub extern "C" fn proved_hz_discard(
    alloc: Global,
    core: &mut HzCore,
    client: u8,
    page: u64,
    was_resident: &mut u8,
) -> u16
    ensures { PageDiscarded core.old.seal.pool core.new.seal.pool client page
        was_resident.old was_resident.new result }
{
    let Some(mut pool) = core.take(alloc) else {
        return NO_CORE;
    };
    let discarded = pool.discard(client, page);
    *core = HzCore::of(pool);
    if let Ok(how) = discarded {
        *was_resident = match how {
            Discarded::Left => 1,
            Discarded::Absent => 0,
        };
    }
    code(&discarded)
}

/// Ends a read that went well: the page is in a frame, and `pass` becomes its pass. A refusal leaves `pass` as it was.
#[unsafe(no_mangle)]
pub extern "C" fn proved_hz_read_end(
    alloc: Global,
    core: &mut HzCore,
    ticket: &HzGrant,
    image: &[u8],
    pass: &mut HzGrant,
) -> u16
    ensures { ReadEnded core.old.seal.pool core.new.seal.pool ticket.now image.now pass.old pass.new
        result }
{
    let Some(mut pool) = core.take(alloc) else {
        return NO_CORE;
    };
    let ended = pool.read_end(ticket, image);
    *core = HzCore::of(pool);
    if let Ok(given) = ended {
        *pass = given;
    }
    code(&ended)
}

/// Ends a read that failed. It never returns 0.
#[unsafe(no_mangle)]
pub extern "C" fn proved_hz_read_failed(
    alloc: Global,
    core: &mut HzCore,
    ticket: &HzGrant,
    is_wrong_page: bool,
) -> u16
    ensures { ReadFailed core.old.seal.pool core.new.seal.pool ticket.now is_wrong_page result }
{
    let Some(mut pool) = core.take(alloc) else {
        return NO_CORE;
    };
    let number = pool.read_failed(ticket, is_wrong_page);
    *core = HzCore::of(pool);
    number
}

/// Ends a write-out, whether it went well or failed.
#[unsafe(no_mangle)]
pub extern "C" fn proved_hz_write_end(
    alloc: Global,
    core: &mut HzCore,
    ticket: &HzGrant,
    is_good: bool,
    is_still_dirty: &mut u8,
) -> u16
    ensures { WriteEnded core.old.seal.pool core.new.seal.pool ticket.now is_good is_still_dirty.old
        is_still_dirty.new result }
{
    let Some(mut pool) = core.take(alloc) else {
        return NO_CORE;
    };
    let ended = pool.write_end(ticket, is_good);
    *core = HzCore::of(pool);
    match ended {
        Ok(Ended::Cleaned) => {
            *is_still_dirty = 0;
            0
        }
        Ok(Ended::StillDirty) => {
            *is_still_dirty = 1;
            0
        }
        Err(EndRefusal::Failed(why)) => why.number(),
        Err(EndRefusal::Unknown(_, _)) => Refusal::UnknownTicket.number(),
    }
}

/// Copies bytes of a page, from the offset on.
#[unsafe(no_mangle)]
pub extern "C" fn proved_hz_read(
    alloc: Global,
    core: &mut HzCore,
    pass: &HzGrant,
    offset: usize,
    into: &mut [u8],
) -> u16
    ensures { PartRead core.old.seal.pool core.new.seal.pool pass.now offset into.old into.new
        result }
{
    let Some(mut pool) = core.take(alloc) else {
        return NO_CORE;
    };
    let read = pool.read(pass, offset, into);
    *core = HzCore::of(pool);
    code(&read)
}

/// Tells where the bytes of a page are. They stay there while this pass is out. No entry is added.
#[unsafe(no_mangle)]
pub extern "C" fn proved_hz_page(
    alloc: Global,
    core: &mut HzCore,
    pass: &HzGrant,
    bytes: &mut *const u8,
) -> u16
    ensures { PageLent core.old.seal.pool core.new.seal.pool pass.now bytes.old bytes.new
        result }
{
    let Some(pool) = core.take(alloc) else {
        return NO_CORE;
    };
    let number = match pool.page(pass) {
        Some(page) => {
            // A page has at least 16 bytes, so there is a first one.
            if let Some(first) = page.first() {
                *bytes = ptr::from_ref(first);
            }
            0
        }
        None => Refusal::UnknownPass.number(),
    };
    *core = HzCore::of(pool);
    number
}

/// Writes bytes into a page, from the offset on.
#[unsafe(no_mangle)]
pub extern "C" fn proved_hz_write(
    alloc: Global,
    core: &mut HzCore,
    pass: &HzGrant,
    offset: usize,
    bytes: &[u8],
    lsn: u64,
) -> u16
    ensures { PartWrote core.old.seal.pool core.new.seal.pool pass.now offset bytes.now lsn result }
{
    let Some(mut pool) = core.take(alloc) else {
        return NO_CORE;
    };
    let written = pool.write(pass, offset, bytes, lsn);
    *core = HzCore::of(pool);
    code(&written)
}

/// Gives a pass back.
#[unsafe(no_mangle)]
pub extern "C" fn proved_hz_unfix(alloc: Global, core: &mut HzCore, pass: &HzGrant) -> u16
    ensures { Unfixed core.old.seal.pool core.new.seal.pool pass.now result }
{
    let Some(mut pool) = core.take(alloc) else {
        return NO_CORE;
    };
    let unfixed = pool.unfix(pass);
    *core = HzCore::of(pool);
    match unfixed {
        Ok(()) => 0,
        Err(pass) => {
            pass.note();
            Refusal::UnknownPass.number()
        }
    }
}

/// Tells the page LSN of a pass's page. No entry is added.
#[unsafe(no_mangle)]
pub extern "C" fn proved_hz_page_lsn(
    alloc: Global,
    core: &mut HzCore,
    pass: &HzGrant,
    lsn: &mut u64,
) -> u16
    ensures { LsnTold core.old.seal.pool core.new.seal.pool pass.now lsn.old lsn.new result }
{
    let Some(pool) = core.take(alloc) else {
        return NO_CORE;
    };
    let found = pool.page_lsn(pass);
    *core = HzCore::of(pool);
    let Some(page_lsn) = found else {
        return Refusal::UnknownPass.number();
    };
    *lsn = page_lsn.number();
    0
}

/// Tells the first unsaved page whose number is at least `from`. No entry is added.
#[unsafe(no_mangle)]
pub extern "C" fn proved_hz_next_unsaved(
    alloc: Global,
    core: &mut HzCore,
    from: u64,
    out: &mut HzUnsaved,
) -> u16
    ensures { NextTold core.old.seal.pool core.new.seal.pool from out.old out.new result }
{
    let Some(pool) = core.take(alloc) else {
        return NO_CORE;
    };
    *out = pool.next_unsaved(from);
    *core = HzCore::of(pool);
    0
}

/// Tells the page whose frame the next fix takes, if that is of a page that is away. No entry is added.
#[unsafe(no_mangle)]
pub extern "C" fn proved_hz_victim(
    alloc: Global,
    core: &mut HzCore,
    page: &mut u64,
    has_page: &mut u8,
) -> u16
    ensures { VictimTold core.old.seal.pool core.new.seal.pool page.old page.new has_page.old
        has_page.new result }
{
    let Some(mut pool) = core.take(alloc) else {
        return NO_CORE;
    };
    let victim = pool.victim();
    *core = HzCore::of(pool);
    match victim {
        Some(next) => {
            *page = next.number();
            *has_page = 1;
        }
        None => {
            *page = 0;
            *has_page = 0;
        }
    }
    0
}

/// Tells the LSN from which redo must begin: the least of all unsaved writes. No entry is added.
#[unsafe(no_mangle)]
pub extern "C" fn proved_hz_redo_from(
    alloc: Global,
    core: &mut HzCore,
    lsn: &mut u64,
    has_lsn: &mut u8,
) -> u16
    ensures { RedoTold core.old.seal.pool core.new.seal.pool lsn.old lsn.new has_lsn.old has_lsn.new
        result }
{
    let Some(mut pool) = core.take(alloc) else {
        return NO_CORE;
    };
    let from = pool.redo_from();
    *core = HzCore::of(pool);
    match from {
        Some(least) => {
            *lsn = least.number();
            *has_lsn = 1;
        }
        None => {
            *lsn = 0;
            *has_lsn = 0;
        }
    }
    0
}

/// Copies the counters. No entry is added.
#[unsafe(no_mangle)]
pub extern "C" fn proved_hz_stats_of(alloc: Global, core: &mut HzCore, out: &mut HzStats) -> u16
    ensures { StatsTold core.old.seal.pool core.new.seal.pool out.old out.new result }
{
    let Some(pool) = core.take(alloc) else {
        return NO_CORE;
    };
    *out = pool.stats();
    *core = HzCore::of(pool);
    0
}

/// Tells whether a page is in a frame. No entry is added.
#[unsafe(no_mangle)]
pub extern "C" fn proved_hz_is_resident(
    alloc: Global,
    core: &mut HzCore,
    page: u64,
    is_resident: &mut u8,
) -> u16
    ensures { ResidentTold core.old.seal.pool core.new.seal.pool page
        is_resident.old is_resident.new result }
{
    let Some(pool) = core.take(alloc) else {
        return NO_CORE;
    };
    let found = pool.is_resident(page);
    *core = HzCore::of(pool);
    if let Ok(is_here) = found {
        *is_resident = if is_here { 1 } else { 0 };
    }
    code(&found)
}

/// Writes the text of a refusal's number, as much as fits, and returns its whole length in bytes.
#[unsafe(no_mangle)]
pub extern "C" fn proved_hz_text(number: u16, into: &mut [u8]) -> usize
    ensures length { result ≡ length (text_of number) }
    ensures bytes { into.new ≡ begun_with (text_of number) into.old }
{
    let text = texts::text_of(number).as_bytes();
    let len = text.len().min(into.len());
    into[..len].copy_from_slice(&text[..len]);
    text.len()
}

//! `migrate_with`: copies a page file of version 1 to one of version 2.
ghost use Rattle.std.specs.Prelude.{OnOk, IfErr};
ghost use Rattle.std.specs.Io.KnownBytes.{Consumes};
ghost use Rattle.bp_ports.specs.WholeFiles.{Migrates, MigratesPage};
ghost use Rattle.bp_ports.specs.MigrateFaults.{OnWriteFault, ReadsAFront};

use crate::progress::{Progress, Unwatched};
use bp_page::{Geometry, Image, Lsn, PageNo, slot2};
use std::alloc::Global;
use std::io::{Read, Write};
use thiserror::Error;

/// Why a migration ended early.
#[derive(Clone, Copy, PartialEq, Eq, Debug, Error)]
pub enum MigrateFault {
    /// The reader failed, or ended before the last page.
    #[error("the page file could not be read")]
    Read,
    /// The writer failed. What it holds then is no page file.
    #[error("the new page file could not be written")]
    Write,
    /// The memory of a page could not be had. What the writer holds then is no page file.
    #[error("out of memory")]
    Memory,
}

/// Reads the bytes of a page into the buffer, and writes its slot of version 2 with LSN 0.
fn migrate_page<I: Read, W: Write>(
    alloc: Global,
    reader: &mut I,
    writer: &mut W,
    page: PageNo,
    buffer: &mut [u8],
) -> Result<(), MigrateFault>
    ensures migrated { OnOk result (MigratesPage page buffer.new (I.remaining reader.old)
        (I.remaining reader.new) (W.contents writer.old) (W.contents writer.new)) }
    ensures cause { IfErr result (λ fault. OnWriteFault fault
        (Consumes (I.remaining reader.old) (I.remaining reader.new) buffer.new)) }
{
    let Ok(()) = reader.read_exact(buffer) else {
        return Err(MigrateFault::Read);
    };
    let Ok(image) = Image::of(alloc, buffer) else {
        return Err(MigrateFault::Memory);
    };
    let Ok(slot) = slot2(alloc, page, Lsn::new(0), &image) else {
        return Err(MigrateFault::Memory);
    };
    match writer.write_all(&slot) {
        Ok(()) => Ok(()),
        Err(_) => Err(MigrateFault::Write),
    }
}

/// Migrates as `migrate_with` does, and calls `progress` after each page.
pub fn migrate_watched<I: Read, W: Write, P: Progress>(
    alloc: Global,
    reader: &mut I,
    writer: &mut W,
    geometry: &Geometry,
    progress: &mut P,
) -> Result<(), MigrateFault>
    ensures migrated { OnOk result (Migrates geometry.now (I.remaining reader.old)
        (I.remaining reader.new) (W.contents writer.old) (W.contents writer.new)) }
    ensures cause { IfErr result (λ fault. OnWriteFault fault
        (ReadsAFront geometry.now (I.remaining reader.old) (I.remaining reader.new))) }
{
    let Ok(mut buffer) = vec![in alloc; 0u8; geometry.size] else {
        return Err(MigrateFault::Memory);
    };
    for page in 0..geometry.pages {
        let number = PageNo::new(page);
        migrate_page(alloc, reader, writer, number, &mut buffer)?;
        progress.written(page + 1, geometry.pages);
    }
    Ok(())
}

/// Reads the pages of a file of version 1, and writes the file of version 2 of the same images, each with its page's
/// number and LSN 0. It reads as many bytes as the pages have and no more, one page at a time, in the memory of a few
/// pages.
///
/// `Read` where the reader fails or ends before. `Write` where the writer fails, which is after a page was read: then
/// all that was read is whole pages. `Memory` where there is no memory for a page. What was written until then is no
/// page file.
pub fn migrate_with<I: Read, W: Write>(
    alloc: Global,
    reader: &mut I,
    writer: &mut W,
    geometry: &Geometry,
) -> Result<(), MigrateFault>
    ensures migrated { OnOk result (Migrates geometry.now (I.remaining reader.old)
        (I.remaining reader.new) (W.contents writer.old) (W.contents writer.new)) }
    ensures cause { IfErr result (λ fault. OnWriteFault fault
        (ReadsAFront geometry.now (I.remaining reader.old) (I.remaining reader.new))) }
{
    migrate_watched(alloc, reader, writer, geometry, &mut Unwatched)
}

//! `migrate`, which writes a page file of version 1 again in version 2.
ghost use Rattle.std.specs.Prelude.{◌≡◌, IfErr, false};
ghost use Rattle.bp_cli.specs.Asked.{migration_of};
ghost use Rattle.bp_cli.specs.Decision.{IsMigratable};
ghost use Rattle.bp_run.specs.Opening.{Ends, ending_of_fault};
ghost use Rattle.bp_run.specs.Stops.{StopsMigration};

use crate::file_ids::FileId;
use crate::meter::{Meter, clear_line};
use crate::new_file::{NewFileReason, is_no_regular_file, make_anew};
use crate::noted::Noted;
use crate::opening::Ports;
use crate::page_files::PageFileReason;
use bp_cli::{Ending, Line, MigrationWords, Reason, Stop, SystemFault};
use bp_page::{Format, Geometry, Refusal};
use bp_ports::{MigrateFault, Progress, Unwatched, geometry_of_file, migrate_watched};
use std::alloc::Global;
use std::fs::OpenFile;
use std::io::{BufReader, BufWriter, Read, Write};
use std::rt::Files;
use std::{fs, io};

/// The old page file, opened to be read.
#[derive(Drop)]
struct Old<F: Drop> {
    file: F,
    /// That of its length.
    geometry: Geometry,
    id: FileId,
}

fn ending_of(fault: MigrateFault) -> Ending
    ensures said { result ≡ ending_of_fault fault }
    ensures stops { StopsMigration result }
{
    match fault {
        MigrateFault::Read => Ending::PageFileNotOpened,
        MigrateFault::Write => Ending::OutputFailed,
        MigrateFault::Memory => Ending::PageFileRefused(Refusal::OutOfMemory),
    }
}

fn no_memory() -> Stop
    ensures { StopsMigration result.ending }
{
    Stop {
        ending: Ending::PageFileRefused(Refusal::OutOfMemory),
        reason: Reason::Unsaid,
    }
}

/// Returns the end of the program where the old page file can't be read.
fn not_read(alloc: Global, name: &str, error: io::Error) -> Stop
    ensures { StopsMigration result.ending }
{
    Stop {
        ending: Ending::PageFileNotOpened,
        reason: Reason::of(alloc, &SystemFault { name, error }),
    }
}

/// Returns the end of the program where the new page file can't be written.
fn not_written(alloc: Global, name: &str, error: io::Error) -> Stop
    ensures { StopsMigration result.ending }
{
    Stop {
        ending: Ending::OutputFailed,
        reason: Reason::of(alloc, &SystemFault { name, error }),
    }
}

/// Returns why pages could not be copied. The reader and the writer of the page files at these paths had these errors
/// last.
fn reason_of(
    alloc: Global,
    fault: MigrateFault,
    old: (&str, Option<io::Error>),
    new: (&str, Option<io::Error>),
) -> Reason {
    let (name, error) = match fault {
        MigrateFault::Read => old,
        MigrateFault::Write => new,
        MigrateFault::Memory => return Reason::Unsaid,
    };
    match error {
        Some(error) => Reason::of(alloc, &SystemFault { name, error }),
        None => Reason::Unsaid,
    }
}

/// Returns the end of the program where the two page files that the words name can't be migrated.
fn words_refused(alloc: Global, why: &str) -> Stop
    ensures { StopsMigration result.ending }
{
    match Line::of(alloc, why) {
        Ok(line) => Stop {
            ending: Ending::CommandLine(line),
            reason: Reason::Unsaid,
        },
        Err(_) => Stop {
            ending: Ending::RunRefused(Refusal::OutOfMemory),
            reason: Reason::Unsaid,
        },
    }
}

/// Returns the end of the program where the new page file can't be made.
fn not_made(alloc: Global, why: &NewFileReason<'_>) -> Stop
    ensures { StopsMigration result.ending }
{
    Stop {
        ending: Ending::OutputFailed,
        reason: Reason::of(alloc, why),
    }
}

/// Copies the pages into the new file, which is at the path `beside`, and syncs it.
fn copy_pages<I: Read + Drop, W: Write + OpenFile + Drop, P: Progress>(
    alloc: Global,
    words: &MigrationWords<'_>,
    beside: &str,
    old: I,
    new: &mut W,
    geometry: &Geometry,
    progress: &mut P,
) -> Result<(), Stop>
    ensures fault { IfErr result (Ends StopsMigration) }
{
    let Ok(mut reader) = BufReader::new(alloc, Noted::new(old)) else {
        return Err(no_memory());
    };
    let Ok(mut writer) = BufWriter::new(alloc, Noted::new(&mut *new)) else {
        return Err(no_memory());
    };
    match migrate_watched(alloc, &mut reader, &mut writer, geometry, progress) {
        Ok(()) => {}
        Err(fault) => {
            let read = reader.get_ref().error();
            let written = writer.get_ref().error();
            return Err(Stop {
                ending: ending_of(fault),
                reason: reason_of(alloc, fault, (words.old, read), (beside, written)),
            });
        }
    }
    let flushed = writer.flush();
    drop(writer);
    let synced = match flushed {
        Ok(()) => new.sync_all(),
        Err(error) => Err(error),
    };
    match synced {
        Ok(()) => Ok(()),
        Err(error) => Err(not_written(alloc, beside, error)),
    }
}

/// Makes a new file at the path `beside`, and renames it to that of the words. It stays open, and so locked, until it has
/// its name. Where a step fails, it is removed.
fn make_file<R: Files, O: Ports<R>, P: Progress>(
    rt: &R,
    alloc: Global,
    words: &MigrationWords<'_>,
    ports: &O,
    old: Old<R::File>,
    beside: &str,
    progress: &mut P,
) -> Result<(), Stop>
    ensures fault { IfErr result (Ends StopsMigration) }
{
    let Old { file, geometry, id } = old;
    let mut new = match make_anew(rt, ports, beside, id) {
        Ok(new) => new,
        Err(why) => return Err(not_made(alloc, &why)),
    };
    let copied = copy_pages(alloc, words, beside, file, &mut new, &geometry, progress);
    let made = match copied {
        Ok(()) => match fs::rename(rt, beside, words.new) {
            Ok(()) => Ok(()),
            Err(error) => Err(not_written(alloc, words.new, error)),
        },
        Err(stop) => Err(stop),
    };
    if made.is_err() {
        let _ = fs::remove_file(rt, beside);
    }
    made
}

/// Opens the old page file to read it, and returns the geometry of its length. It is an error where the new one would
/// be the same file.
fn open_old<R: Files>(
    rt: &R,
    alloc: Global,
    words: &MigrationWords<'_>,
) -> Result<Old<R::File>, Stop>
    requires possible { IsMigratable (migration_of words.now) }
    ensures fault { IfErr result (Ends StopsMigration) }
{
    let file = match fs::open(rt, words.old) {
        Ok(file) => file,
        Err(error) => return Err(not_read(alloc, words.old, error)),
    };
    let metadata = match file.metadata() {
        Ok(metadata) => metadata,
        Err(error) => return Err(not_read(alloc, words.old, error)),
    };
    let id = FileId::with(&metadata);
    if words.old == words.new || FileId::at(rt, words.new) == Some(id) {
        return Err(words_refused(alloc, "error: OLD and NEW are one file"));
    }
    match geometry_of_file(metadata.len(), words.page_size, Format::Plain) {
        Ok(geometry) => Ok(Old { file, geometry, id }),
        Err(refusal) => {
            let why = PageFileReason::BadLength {
                path: words.old,
                bytes: metadata.len(),
                slot: words.page_size,
            };
            Err(Stop {
                ending: Ending::PageFileRefused(refusal),
                reason: Reason::of(alloc, &why),
            })
        }
    }
}

/// Writes the page file of version 1 that the words name again in version 2, each page with its number and LSN 0. The
/// new file is written at its path with `.migrating` appended, and is renamed once it is whole; it may replace a
/// regular file. One that a killed migration left there is made anew. Where somebody watches, the error output shows how
/// far it has come.
///
/// `OutputFailed` where something else than a regular file is at one of the two paths, or another migration writes there.
///
/// After an `Err` the old file and what is at the new path are unchanged.
pub(crate) fn migrate<R: Files, O: Ports<R>, E: Write>(
    rt: &R,
    alloc: Global,
    words: &MigrationWords<'_>,
    ports: &O,
    err: &mut E,
) -> Result<(), Stop>
    requires possible { IsMigratable (migration_of words.now) }
    ensures fault { IfErr result (Ends StopsMigration) }
    ensures err_kept { O.watched ports.now ≡ false → err.new ≡ err.old }
{
    let old = open_old(rt, alloc, words)?;
    let new = words.new;
    if is_no_regular_file(rt, new) {
        return Err(not_made(alloc, &NewFileReason::NoRegularFile { path: new }));
    }
    let Ok(beside) = format!(in alloc; "{new}.migrating") else {
        return Err(no_memory());
    };
    let beside = beside.as_str();
    if ports.is_watched() {
        let mut meter = Meter::new(err);
        let made = make_file(rt, alloc, words, ports, old, beside, &mut meter);
        clear_line(err);
        made
    } else {
        make_file(rt, alloc, words, ports, old, beside, &mut Unwatched)
    }
}

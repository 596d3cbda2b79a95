//! The table over files of the system, as `check/kills` drives it: it is killed, and its power is cut.
//!
//!     example_recovery create PAGES SIZE LOG
//!     example_recovery show PAGES SIZE LOG
//!     example_recovery work PAGES SIZE LOG FRAMES LIVES COMMITS CHANGES EVERY SEED
//!
//! The files are in the folder in which it runs: PAGES pages of SIZE bytes, and two logs of LOG bytes. `show` opens the
//! table, and prints the number of the commit that each row is from. `work` does so LIVES times, and each time commits
//! until COMMITS are made, and then stops as a process that dies: what was not made durable may be lost. Where the log
//! is full it makes a checkpoint. A commit has up to CHANGES changes, which come from SEED and its number. Each EVERY
//! commits are made durable, and acknowledged by a line, and so is a checkpoint.

use crate::{LOGS, ROW, log_file, new_log};
use anyhow::Context;
use bp_core::Settings;
use bp_page::{Bytes, Format, Geometry, Lsn, PageNo};
use bp_ports::{FilePort, Port, create_page_file};
use bp_trail::LogRecord;
use example_log::frames::split_number;
use example_log::{LogFault, LogFile};
use example_table::{Table, TableFault, create as create_logs, open};
use std::alloc::Global;
use std::fs::File;
use std::rt::{Files, Runtime};
use std::sync::Wait;

/// The first record of a log.
const NAME: &[u8] = b"rows of 16 bytes";

/// The page file.
const PAGES: &str = "example_recovery.pages";

/// What the words of the command line say.
#[derive(Clone, Copy)]
struct Words {
    device: Geometry,
    log: usize,
    frames: usize,
    lives: u64,
    commits: u64,
    changes: u64,
    every: u64,
    seed: u64,
}

/// The next number of a linear congruential generator.
fn next(state: u64) -> u64 {
    state
        .wrapping_mul(6364136223846793005)
        .wrapping_add(1442695040888963407)
}

/// Returns a number below a limit.
fn below(state: u64, limit: u64) -> u64 {
    (state >> 33) % limit.max(1)
}

/// Makes a change of a row, which is the number of its commit and the seed.
fn change(
    alloc: Global,
    page: u64,
    row: u64,
    number: u64,
    seed: u64,
) -> Result<LogRecord, anyhow::Error> {
    let mut bytes = Vec::new(alloc);
    bytes.extend_from_slice(&number.to_le_bytes())?;
    bytes.extend_from_slice(&seed.to_le_bytes())?;
    Ok(LogRecord {
        page: PageNo::new(page),
        offset: u32::try_from(row).unwrap_or(0).wrapping_mul(ROW),
        bytes: Bytes::of(alloc, &bytes)?,
        lsn: Lsn::new(0),
    })
}

/// Makes the changes of a commit.
fn changes(alloc: Global, words: &Words, number: u64) -> Result<Vec<LogRecord>, anyhow::Error> {
    let mut state = next(words.seed.wrapping_add(next(number)));
    let mut changes = Vec::new(alloc);
    for _ in 0..below(state, words.changes).saturating_add(1) {
        state = next(state);
        let page = below(state, words.device.pages);
        state = next(state);
        let row = below(state, words.device.size as u64 / u64::from(ROW));
        changes.push(change(alloc, page, row, number, words.seed)?)?;
    }
    Ok(changes)
}

/// Opens the page file.
fn port_of(
    rt: &(impl Runtime<A = Global> + Files<File = File>),
    words: &Words,
) -> Result<FilePort, anyhow::Error> {
    let file = File::options().read(true).write(true).open(rt, PAGES)?;
    Ok(FilePort::over(rt.alloc(), file, words.device, Format::Plain)?)
}

/// Prints which commit each row is from. Returns the last of them.
fn show(
    rt: &(impl Runtime<A = Global> + Wait),
    port: &mut FilePort,
    pages: u64,
) -> Result<u64, anyhow::Error> {
    let mut last = 0;
    for page in 0..pages {
        print!(rt; "page {page}:")?;
        for row in port.read(rt, PageNo::new(page))?.bytes().chunks(16) {
            let number = split_number(row).map_or(0, |it| it.0);
            print!(rt; " {number}")?;
            last = last.max(number);
        }
        println!(rt;)?;
    }
    println!(rt; "opened {last}")?;
    Ok(last)
}

/// A table that was opened: its port, its log and the other file, and the number of its last commit.
#[derive(Drop)]
struct OpenTable {
    port: FilePort,
    log: LogFile<File>,
    spare: LogFile<File>,
    last: u64,
}

/// Opens the table, and prints what it has.
fn opened(
    rt: &(impl Runtime<A = Global> + Files<File = File> + Wait),
    words: &Words,
) -> Result<OpenTable, anyhow::Error> {
    let mut port = port_of(rt, words)?;
    let (mut one, mut two) = (
        log_file(rt, LOGS[0], words.log)?,
        log_file(rt, LOGS[1], words.log)?,
    );
    let is_second = open(rt, rt.alloc(), NAME, &mut port, &mut one, &mut two)?;
    let last = show(rt, &mut port, words.device.pages)?;
    let (log, spare) = if is_second { (two, one) } else { (one, two) };
    Ok(OpenTable {
        port,
        log,
        spare,
        last,
    })
}

/// Commits the changes with this number. Where the log is full, it first makes a checkpoint, which is acknowledged.
fn commit(
    rt: &(impl Runtime<A = Global> + Wait),
    words: &Words,
    table: &mut Table<File, FilePort>,
    spare: &mut LogFile<File>,
    number: u64,
) -> Result<(), anyhow::Error> {
    let made = changes(rt.alloc(), words, number)?;
    match table.commit(rt, rt.alloc(), &made) {
        Ok(_) => return Ok(()),
        Err(TableFault::Log(LogFault::Full)) => {}
        Err(fault) => return Err(fault.into()),
    }
    table.checkpoint(rt, rt.alloc(), NAME, spare)?;
    spare.wipe(rt.alloc(), table.pool.port())?;
    println!(rt; "checkpoint {}", number.wrapping_sub(1))?;
    table.commit(rt, rt.alloc(), &made)?;
    Ok(())
}

/// Makes so many commits.
fn commit_all(
    rt: &(impl Runtime<A = Global> + Wait),
    words: &Words,
    table: &mut Table<File, FilePort>,
    spare: &mut LogFile<File>,
    last: u64,
) -> Result<(), anyhow::Error> {
    let mut number = last;
    for _ in 0..words.commits {
        number = number.wrapping_add(1);
        commit(rt, words, table, spare, number)?;
        if number % words.every.max(1) == 0 {
            table.make_durable()?;
            println!(rt; "durable {number}")?;
        }
    }
    Ok(())
}

/// Opens the table and commits, until the process dies, in a way: the table is dropped as it is.
fn live(
    rt: &(impl Runtime<A = Global> + Files<File = File> + Wait),
    words: &Words,
) -> Result<(), anyhow::Error> {
    let OpenTable {
        port,
        log,
        mut spare,
        last,
    } = opened(rt, words)?;
    let settings = Settings::new(2, 0, 1000)?;
    let mut table = Table::begin(rt.alloc(), port, settings, words.frames, log)?;
    // The log that was read is in the pages, and no opening is to come back to it.
    spare.wipe(rt.alloc(), table.pool.port())?;
    let done = commit_all(rt, words, &mut table, &mut spare, last);
    drop(table);
    done
}

/// Makes the page file, and both files of the log.
fn create(
    rt: &(impl Runtime<A = Global> + Files<File = File> + Wait),
    words: &Words,
) -> Result<(), anyhow::Error> {
    let port = create_page_file(rt, rt.alloc(), PAGES, words.device, Format::Plain)?;
    let (mut one, mut two) = (
        new_log(rt, LOGS[0], words.log)?,
        new_log(rt, LOGS[1], words.log)?,
    );
    create_logs(rt.alloc(), NAME, &port, &mut one, &mut two)?;
    Ok(())
}

/// Reads the words of the command line, of which those that lack are 0.
fn words_of(alloc: Global, given: &[String]) -> Result<Words, anyhow::Error> {
    let mut numbers = Vec::new(alloc);
    for word in given {
        numbers.push(word.parse::<u64>()?)?;
    }
    for _ in numbers.len()..9 {
        numbers.push(0)?;
    }
    match numbers.as_slice() {
        [
            pages,
            size,
            log,
            frames,
            lives,
            commits,
            changes,
            every,
            seed,
        ] => Ok(Words {
            device: Geometry::new(*pages, *size as usize)?,
            log: *log as usize,
            frames: *frames as usize,
            lives: *lives,
            commits: *commits,
            changes: *changes,
            every: *every,
            seed: *seed,
        }),
        _ => None.context("too many words"),
    }
}

/// Does what the words of the command line say.
pub fn drive(
    rt: &(impl Runtime<A = Global> + Files<File = File> + Wait),
    what: &str,
    more: &[String],
) -> Result<(), anyhow::Error> {
    let words = words_of(rt.alloc(), more)?;
    match what {
        "create" => create(rt, &words),
        "show" => {
            drop(opened(rt, &words)?);
            Ok(())
        }
        "work" => {
            for _ in 0..words.lives {
                live(rt, &words)?;
            }
            Ok(())
        }
        _ => None.context("no such work"),
    }
}

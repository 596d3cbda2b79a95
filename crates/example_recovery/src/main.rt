//! An engine that recovers, to copy: a table of rows, whose pages are in a pool for one owner, and whose commits are in
//! a log. It commits, makes a checkpoint, is stopped as by a crash, and is opened again. With arguments it is driven:
//! see `driven.rt`.
#![tactic(auto)]

mod driven;

use bp_core::Settings;
use bp_page::{Bytes, Geometry, Image, Lsn, PageNo, Refusal};
use bp_ports::{MemDevice, MemPort, Port};
use bp_trail::LogRecord;
use example_log::LogFile;
use example_table::{Table, create, open};
use std::alloc::Global;
use std::env;
use std::fs::{self, File, OpenFile};
use std::rt::{Files, Runtime};
use std::sync::Wait;

const ROW: u32 = 16;

/// The table's name, which the first record of the log tells.
const NAME: &[u8] = b"rows of 16 bytes, in 4 pages of 64";

/// The files that the log is in by turns, and their bytes.
const LOGS: [&str; 2] = ["example_recovery.0.log", "example_recovery.1.log"];

const LOG_SIZE: usize = 4096;

/// Makes a change of a row, each byte of which is to be this one.
fn row(alloc: Global, page: u64, row: u8, byte: u8) -> Result<LogRecord, Refusal> {
    Ok(LogRecord {
        page: PageNo::new(page),
        offset: u32::from(row) * ROW,
        bytes: Bytes::of(alloc, &[byte; 16])?,
        lsn: Lsn::new(0),
    })
}

/// Prints the first byte of each row of a page.
fn show(rt: &impl Runtime, page: u64, image: &Image) -> Result<(), anyhow::Error> {
    print!(rt; "  page {page}:")?;
    for row in image.bytes().chunks(16) {
        let byte = row.first().copied().unwrap_or(0);
        let letter = if byte == 0 { '.' } else { char::from(byte) };
        print!(rt; " {letter}")?;
    }
    println!(rt;)?;
    Ok(())
}

/// Makes a file of the log, of this length. One that is there already is taken as it is.
fn new_log(
    rt: &(impl Runtime + Files<File = File>),
    name: &str,
    size: usize,
) -> Result<LogFile<File>, anyhow::Error> {
    let mut options = File::options();
    let file = options.read(true).write(true).create(true).open(rt, name)?;
    if file.metadata()?.len() == 0 {
        file.set_len(size as u64)?;
    }
    Ok(LogFile::over(file, size))
}

/// Takes a file of the log, which has to be there: where one is lost, the other may be older than the pages.
fn log_file(
    rt: &(impl Runtime + Files<File = File>),
    name: &str,
    size: usize,
) -> Result<LogFile<File>, anyhow::Error> {
    let file = File::options().read(true).write(true).open(rt, name)?;
    Ok(LogFile::over(file, size))
}

/// Makes a table over the pages as they are.
fn begin(
    rt: &impl Runtime<A = Global>,
    port: MemPort,
    log: LogFile<File>,
) -> Result<Table<File, MemPort>, anyhow::Error> {
    Ok(Table::begin(rt.alloc(), port, Settings::new(2, 0, 1000)?, 2, log)?)
}

/// Makes both files of the log, and a table. Returns the file that has not the log too.
fn make(
    rt: &(impl Runtime<A = Global> + Files<File = File>),
    port: MemPort,
) -> Result<(Table<File, MemPort>, LogFile<File>), anyhow::Error> {
    let (mut one, mut two) = (
        new_log(rt, LOGS[0], LOG_SIZE)?,
        new_log(rt, LOGS[1], LOG_SIZE)?,
    );
    create(rt.alloc(), NAME, &port, &mut one, &mut two)?;
    Ok((begin(rt, port, one)?, two))
}

/// Commits these rows: the page of each, its number there, and its byte.
fn commit(
    rt: &(impl Runtime<A = Global> + Wait),
    table: &mut Table<File, MemPort>,
    rows: &[(u64, u8, u8)],
) -> Result<(), anyhow::Error> {
    let mut changes = Vec::new(rt.alloc());
    for (page, number, byte) in rows {
        changes.push(row(rt.alloc(), *page, *number, *byte)?)?;
    }
    let lsn = table.commit(rt, rt.alloc(), &changes)?;
    println!(rt; "committed under LSN {lsn}")?;
    Ok(())
}

/// Makes two commits, a checkpoint, and a commit that is not made durable.
fn work(
    rt: &(impl Runtime<A = Global> + Wait),
    table: &mut Table<File, MemPort>,
    spare: &mut LogFile<File>,
) -> Result<(), anyhow::Error> {
    commit(rt, table, &[(1, 1, b'a'), (2, 0, b'b')])?;
    commit(rt, table, &[(1, 2, b'c'), (3, 3, b'd')])?;
    table.checkpoint(rt, rt.alloc(), NAME, spare)?;
    // The next opening is not to come back to the log of before.
    spare.wipe(rt.alloc(), table.pool.port())?;
    println!(rt;
        "a checkpoint: the log begins at LSN {}",
        table.log.next.saturating_sub(1)
    )?;
    commit(rt, table, &[(2, 0, b'e')])
}

/// Opens the table after a crash, and goes on.
fn reopen(
    rt: &(impl Runtime<A = Global> + Files<File = File> + Wait),
    mut port: MemPort,
) -> Result<Table<File, MemPort>, anyhow::Error> {
    let (mut one, mut two) = (
        log_file(rt, LOGS[0], LOG_SIZE)?,
        log_file(rt, LOGS[1], LOG_SIZE)?,
    );
    let is_second = open(rt, rt.alloc(), NAME, &mut port, &mut one, &mut two)?;
    println!(rt; "opened: the log goes on in file {}", u8::from(is_second))?;
    for page in 0..4 {
        show(rt, page, &port.read(rt, PageNo::new(page))?)?;
    }
    begin(rt, port, if is_second { two } else { one })
}

fn main(rt: HostRuntime) -> Result<(), anyhow::Error> {
    let words: Vec<String> = env::args(&rt)?.skip(1).collect(rt.alloc())?;
    if let Some((what, more)) = words.split_first() {
        return driven::drive(&rt, what, more);
    }
    let device = MemDevice::new(rt.alloc(), Geometry::new(4, 64)?)?;
    let (mut table, mut spare) = make(&rt, device.port()?)?;
    let worked = work(&rt, &mut table, &mut spare);
    // What the pool has in its frames is gone, as after a crash.
    drop(table);
    worked?;
    let mut table = reopen(&rt, device.port()?)?;
    let worked = commit(&rt, &mut table, &[(0, 3, b'f')]);
    drop(table);
    worked?;
    drop(reopen(&rt, device.port()?)?);
    for name in LOGS {
        fs::remove_file(&rt, name)?;
    }
    Ok(())
}

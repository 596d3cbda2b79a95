//! Two long runs. In the first a core makes ten million entries in a room of 4,096: its trail is cut as it goes, and
//! continues in the memory of the piece before. In the second a core only counts its entries, while it reads and writes
//! two gigabytes of images; at the end the program prints how much memory it has. The file `stdout` was worked out by
//! hand.
ghost use Rattle.std.specs.Prelude.{◌≡◌, ◌+◌, ◌<◌, ◌≤◌, IfOk, length};
ghost use Rattle.bench.specs.declared.long_run.TheConstants.{PAGES};

use bp_core::{Entry, Keeper, Pass, PoolCore, RecordingKeeper, Settings, SilentKeeper};
use bp_device::{MemDevice, MemPort, drive_fix};
use bp_page::{Bytes, Geometry, Lsn, PageNo, Refusal};
use bp_trail::Totals;
use std::alloc::Global;
use std::fs;
use std::rt::{Files, Runtime};
use std::sync::Wait;

// The number of pages that a round uses.
const PAGES: u64 = 4;

// A round has ten entries where each page has a frame: a fix and an unfix of each, a tick and a mark.
const ROUNDS: u64 = 1000000;

// Each piece has 4,000 entries, and the first twelve more.
const PIECES: u64 = 2500;

const ROOM: usize = 4096;

// Room for all entries.
const ROOM_FOR_ALL: usize = 10500000;

const SILENT_ROUNDS: u64 = 2500;

// The greatest page size, in bytes.
const SILENT_SIZE: usize = 65536;

// 64 MiB in blocks of 4 KiB. The program stays below that.
const FEW_BLOCKS: u64 = 16384;

/// A core for one client over a device in memory, and the counts of the uses of pages.
#[derive(Drop)]
struct Pool<K: Keeper> {
    core: PoolCore<K>,
    port: MemPort,
    /// Whether each use of a page reads and writes it.
    is_changed: bool,
    /// The bytes that the next write has.
    bytes: Bytes,
    used: u64,
    as_written: u64,
    refused: u64,
    ghost size: { port.device.size ≡ core.parameters.size },
    ghost client: { 0 < core.parameters.clients },
    ghost pages: { core.parameters.pages ≡ PAGES },
    ghost fits: { 0 + length bytes ≤ core.parameters.size },
    ghost one_fits: { 1 ≤ core.parameters.size },
}

fn byte_of(round: u64) -> u8 {
    (round % 251) as u8
}

/// Makes a port to a device in memory.
fn new_port(alloc: Global, geometry: Geometry) -> Result<MemPort, Refusal>
    ensures { IfOk result (λ port. port.device ≡ geometry) }
{
    let device = MemDevice::new(alloc, geometry)?;
    device.port()
}

fn new_pool<K: Keeper>(
    alloc: Global,
    frames: usize,
    size: usize,
    room: usize,
) -> Result<Pool<K>, Refusal> {
    let geometry = Geometry::new(PAGES, size)?;
    let settings = Settings::new(2, 0, 0)?;
    let bytes = Bytes::of(alloc, &[0])?;
    let port = new_port(alloc, geometry)?;
    let core = PoolCore::new(alloc, geometry, settings, frames, 1, room)?;
    Ok(Pool {
        core,
        port,
        is_changed: frames < PAGES as usize,
        bytes,
        used: 0,
        as_written: 0,
        refused: 0,
    })
}

impl<K: Keeper> Pool<K> {
    /// Reads the page of a pass, and writes to it. It returns true if the page was as the round before wrote it.
    fn change(&mut self, pass: &Pass, round: u64) -> Result<bool, Refusal> {
        let image = self.core.read(pass)?;
        self.core.write(pass, 0, &self.bytes, Lsn::new(round))?;
        let before = byte_of(round.saturating_sub(1));
        Ok(image.bytes().first() == Some(&before))
    }

    /// Fixes a page, changes it if pages are changed, and gives it back.
    fn use_page(&mut self, rt: &impl Wait, page: u64, round: u64) -> Result<bool, Refusal>
        requires { page < PAGES }
    {
        let pass = drive_fix(rt, &mut self.core, &mut self.port, 0, PageNo::new(page))?;
        let changed = if self.is_changed {
            self.change(&pass, round)
        } else {
            Ok(false)
        };
        if let Err(pass) = self.core.unfix(pass) {
            pass.note();
        }
        changed
    }

    fn count(&mut self, used: Result<bool, Refusal>) {
        match used {
            Ok(as_written) => {
                self.used = self.used.saturating_add(1);
                if as_written {
                    self.as_written = self.as_written.saturating_add(1);
                }
            }
            Err(_) => self.refused = self.refused.saturating_add(1),
        }
    }

    /// Marks the log durable as far as what was written, and moves the clock on.
    fn go_on(&mut self, round: u64) {
        let _ = self.core.mark(0, Lsn::new(round));
        let _ = self.core.tick(0, 1);
    }

    /// Uses each page. Where pages are changed, the clock moves on after each, so that the next may take its frame.
    fn run_round(&mut self, rt: &impl Wait, round: u64) {
        for page in 0..PAGES {
            let used = self.use_page(rt, page, round);
            self.count(used);
            if self.is_changed || page == PAGES - 1 {
                self.go_on(round);
            }
        }
    }

    /// Runs so many rounds, which change each page.
    fn run_rounds(&mut self, rt: &(impl AllocGlobal + Wait), rounds: u64) -> Result<(), Refusal> {
        for round in 1..=rounds {
            let bytes = Bytes::of(rt.alloc(), &[byte_of(round)])?;
            self.bytes = bytes;
            self.run_round(rt, round);
        }
        Ok(())
    }
}

/// The counts of the pieces of a trail.
#[derive(Clone, Copy)]
struct Cut {
    entries: u64,
    // The pieces whose capacity is not the room.
    odd_pieces: u64,
    totals: Totals,
}

impl Cut {
    fn count(&mut self, piece: &Vec<Entry>, room: usize) {
        self.entries = self.entries.saturating_add(piece.len() as u64);
        if piece.capacity() != room {
            self.odd_pieces = self.odd_pieces.saturating_add(1);
        }
        if let Some(totals) = self.totals.plus(Totals::of(piece)) {
            self.totals = totals;
        }
    }
}

/// Loads each page, and then runs all rounds. The trail is cut so many times, each time into the memory of the piece
/// before.
fn run_cut(
    rt: &(impl AllocGlobal + Wait),
    pool: &mut Pool<RecordingKeeper>,
    pieces: u64,
) -> Result<Cut, Refusal>
    requires { 0 < pieces }
{
    let mut cut = Cut {
        entries: 0,
        odd_pieces: 0,
        totals: Totals::none(),
    };
    let mut piece = Vec::new(rt.alloc());
    for page in 0..PAGES {
        let _ = pool.use_page(rt, page, 0);
    }
    let mut round = 0u64;
    for _ in 0..pieces {
        for _ in 0..ROUNDS / pieces {
            round = round.saturating_add(1);
            pool.run_round(rt, round);
        }
        piece = pool.core.cut_into(piece)?;
        cut.count(&piece, pool.core.room());
    }
    Ok(cut)
}

/// Makes the first run over this pool, and prints the counts.
fn tell_recorded(
    rt: &(impl Runtime<A = Global> + Wait),
    pool: &mut Pool<RecordingKeeper>,
    pieces: u64,
) -> Result<(), anyhow::Error>
    requires { 0 < pieces }
{
    let cut = run_cut(rt, pool, pieces)?;
    println!(rt;
        "{} entries in {pieces} pieces, {} of them in more or less memory than the room needs; {} left",
        cut.entries,
        cut.odd_pieces,
        pool.core.trail().len()
    )?;
    println!(rt;
        "{} hits, {} faults, {} evictions, {} writes, {} failed, {} refused",
        cut.totals.hits,
        cut.totals.faults,
        cut.totals.evictions,
        cut.totals.writes,
        cut.totals.failed,
        cut.totals.refused
    )?;
    print_end(rt, pool)
}

fn run_recorded(
    rt: &(impl Runtime<A = Global> + Wait),
    pieces: u64,
    room: usize,
) -> Result<(), anyhow::Error>
    requires { 0 < pieces }
{
    let mut pool = new_pool(rt.alloc(), PAGES as usize, 16, room)?;
    let result = tell_recorded(rt, &mut pool, pieces);
    drop(pool);
    result
}

fn print_end<K: Keeper>(
    rt: &impl Runtime<A = Global>,
    pool: &Pool<K>,
) -> Result<(), anyhow::Error> {
    let (clock, durable) = (pool.core.clock(), pool.core.durable().number());
    println!(rt; "clock {clock}, durable log {durable}")?;
    Ok(())
}

fn second_number(line: &str) -> Option<u64> {
    let word = line.split_whitespace().nth(1)?;
    word.parse::<u64>().ok()
}

/// Returns the program's memory in blocks of 4 KiB, as the system tells it, or None where it does not.
fn resident(rt: &(impl Runtime<A = Global> + Files)) -> Option<u64> {
    match fs::read_to_string(rt, "/proc/self/statm") {
        Ok(line) => second_number(line.as_str()),
        Err(_) => None,
    }
}

fn print_resident(rt: &(impl Runtime<A = Global> + Files)) -> Result<(), anyhow::Error> {
    match resident(rt) {
        Some(blocks) if blocks < FEW_BLOCKS => println!(rt; "less than 64 MiB in memory")?,
        Some(blocks) => println!(rt; "{blocks} blocks of 4 KiB in memory")?,
        None => println!(rt; "it is not known how much is in memory")?,
    }
    Ok(())
}

/// Makes the second run over this pool, and prints the counts.
fn tell_silent(
    rt: &(impl Runtime<A = Global> + Files + Wait),
    pool: &mut Pool<SilentKeeper>,
    rounds: u64,
) -> Result<(), anyhow::Error> {
    pool.run_rounds(rt, rounds)?;
    println!(rt;
        "{} pages used, {} of them as the round before wrote them, {} refused",
        pool.used, pool.as_written, pool.refused
    )?;
    print_end(rt, pool)?;
    print_resident(rt)
}

/// Makes the second run, with half as many frames as pages: each fix loads its page, and evicts another one that was
/// changed.
pub(crate) fn run_silent(
    rt: &(impl Runtime<A = Global> + Files + Wait),
    rounds: u64,
    size: usize,
) -> Result<(), anyhow::Error> {
    let mut pool = new_pool::<SilentKeeper>(rt.alloc(), 2, size, SilentKeeper::MOST_ROOM)?;
    let result = tell_silent(rt, &mut pool, rounds);
    drop(pool);
    result
}

/// Makes the first run. The trail is cut as it goes, or else has room for all entries.
pub(crate) fn run_once(
    rt: &(impl Runtime<A = Global> + Wait),
    is_cut: bool,
) -> Result<(), anyhow::Error> {
    if is_cut {
        run_recorded(rt, PIECES, ROOM)
    } else {
        run_recorded(rt, 1, ROOM_FOR_ALL)
    }
}

/// Makes both runs.
pub(crate) fn run_both(
    rt: &(impl Runtime<A = Global> + Files + Wait),
) -> Result<(), anyhow::Error> {
    run_recorded(rt, PIECES, ROOM)?;
    run_silent(rt, SILENT_ROUNDS, SILENT_SIZE)
}

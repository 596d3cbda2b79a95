//! Times fixes and unfixes of random pages over a page file.
ghost use Rattle.std.specs.Prelude.{◌≡◌, ◌<◌, ◌≤◌};

use crate::next;
use bp_core::{Entry, Keeper, MAX_PERIOD, PoolCore, RecordingKeeper, Settings, SilentKeeper};
use bp_device::{FilePort, OpenFault, Port, drive_fix};
use bp_page::{Format, PageNo, Refusal};
use std::alloc::Global;
use std::fs::File;
use std::mem;
use std::rt::{Files, Runtime};
use std::sync::Wait;
use std::time::CpuClock;

const SIZE: usize = 1024;

const PAGES_A_FRAME: u64 = 4;

// The clock moves on once in so many fixes: a page may be evicted only once it was last referenced before the present
// tick.
const FIXES_A_TICK: u64 = 16;

// So many fixes for each frame come before those that are timed: the pool is in its steady state then.
const FIXES_BEFORE: u64 = 8;

// An eighth of the frames is the period that the Rust crate has, whose pagers tick at each fix.
const FRAMES_A_PERIOD: u64 = 8;

/// The frames, the fixes that are timed over as many pages, and those over more pages.
const POOLS: [(usize, u64, u64); 3] = [
    (256, 4000000, 400000),
    (4096, 4000000, 400000),
    (65536, 400000, 400000),
];

/// Cuts a trail each time it is long.
#[derive(Drop)]
pub(crate) struct Cuts {
    alloc: Global,
    at: usize,
    /// The piece that was cut last. The next cut leaves its memory to the trail.
    spare: Vec<Entry>,
}

/// A keeper whose trail does not fill its room.
pub(crate) trait Tended: Keeper {
    /// Makes room if the trail is in memory and long.
    fn tend(core: &mut PoolCore<Self>, cuts: &mut Cuts)
        ensures same { core.new.parameters ≡ core.old.parameters };
}

impl Tended for RecordingKeeper {
    // Cuts a long trail, and drops the piece before.
    fn tend(core: &mut PoolCore<RecordingKeeper>, cuts: &mut Cuts) {
        if core.trail().len() < cuts.at {
            return;
        }
        let spare = mem::replace(&mut cuts.spare, Vec::new(cuts.alloc));
        if let Ok(entries) = core.cut_into(spare) {
            cuts.spare = entries;
        }
    }
}

impl Tended for SilentKeeper {
    fn tend(_core: &mut PoolCore<SilentKeeper>, _cuts: &mut Cuts) {}
}

/// A core for one client over a page file, and the number of pages that are used.
#[derive(Drop)]
struct Bench<K: Tended> {
    core: PoolCore<K>,
    port: FilePort,
    pages: u64,
    cuts: Cuts,
    ghost size: { port.device.size ≡ core.parameters.size },
    ghost client: { 0 < core.parameters.clients },
    ghost some: { 0 < pages },
    ghost pages_in: { pages ≤ core.parameters.pages },
}

fn new_bench<K: Tended>(
    rt: &(impl Runtime<A = Global> + Files<File = File>),
    path: &str,
    frames: usize,
    pages: u64,
    period: u64,
    room: usize,
    cut_at: usize,
) -> Result<Bench<K>, OpenFault>
    requires { 0 < pages }
{
    let alloc = rt.alloc();
    let port = FilePort::open(rt, alloc, path, SIZE, Format::Plain)?;
    let geometry = port.geometry();
    if geometry.pages < pages {
        return Err(OpenFault::Refused(Refusal::BadLength));
    }
    let made = match Settings::new(2, period, MAX_PERIOD) {
        Ok(settings) => PoolCore::new(alloc, geometry, settings, frames, 1, room),
        Err(refusal) => Err(refusal),
    };
    match made {
        Ok(core) => Ok(Bench {
            core,
            port,
            pages,
            cuts: Cuts {
                alloc,
                at: cut_at,
                spare: Vec::new(alloc),
            },
        }),
        Err(refusal) => Err(OpenFault::Refused(refusal)),
    }
}

impl<K: Tended> Bench<K> {
    /// Moves the clock on, and cuts a long trail.
    fn tick(&mut self) {
        let _ = self.core.tick(0, 1);
        K::tend(&mut self.core, &mut self.cuts);
    }

    /// Fixes a page and gives it back. It returns true if it was not refused.
    fn use_page(&mut self, rt: &impl Wait, number: u64) -> bool {
        let page = PageNo::new(number % self.pages);
        match drive_fix(rt, &mut self.core, &mut self.port, 0, page) {
            Ok(pass) => match self.core.unfix(pass) {
                Ok(()) => true,
                Err(pass) => {
                    pass.note();
                    false
                }
            },
            Err(_) => false,
        }
    }

    /// Uses pages, in turn or at random, and returns how many uses were not refused.
    fn use_pages(&mut self, rt: &impl Wait, calls: u64, is_random: bool) -> u64 {
        let mut state = 1;
        let mut good = 0u64;
        for call in 0..calls {
            if call % FIXES_A_TICK == 0 {
                self.tick();
            }
            state = next(state);
            if self.use_page(rt, if is_random { state >> 33 } else { call }) {
                good = good.wrapping_add(1);
            }
        }
        good
    }
}

/// Times uses of so many random pages, once the pool is in its steady state.
fn time_pages<K: Tended>(
    rt: &(impl Runtime<A = Global> + CpuClock + Wait),
    bench: &mut Bench<K>,
    frames: usize,
    calls: u64,
) -> Result<(), anyhow::Error> {
    bench.use_pages(rt, frames as u64, false);
    bench.use_pages(rt, (frames as u64).wrapping_mul(FIXES_BEFORE), true);
    let since = rt.thread_cpu_time()?;
    let good = bench.use_pages(rt, calls, true);
    let spent = rt.thread_cpu_time()?.saturating_sub(since).as_nanos();
    let rate = if spent == 0 {
        0
    } else {
        calls as u128 * 1000000000 / spent
    };
    println!(rt;
        "{} pages: {rate} fixes and unfixes a second; {good} of {calls} were not refused",
        bench.pages
    )?;
    Ok(())
}

/// Times uses of so many pages of a file by a new pool with this correlated period.
fn time_pool<K: Tended>(
    rt: &(impl Runtime<A = Global> + CpuClock + Files<File = File> + Wait),
    path: &str,
    frames: usize,
    pages: u64,
    period: u64,
    calls: u64,
    room: usize,
    cut_at: usize,
) -> Result<(), anyhow::Error>
    requires { 0 < pages }
{
    println!(rt; "period {period}")?;
    let mut bench = new_bench::<K>(rt, path, frames, pages, period, room, cut_at)?;
    let timed = time_pages(rt, &mut bench, frames, calls);
    drop(bench);
    timed
}

/// Times hits, and then fixes of more pages than there are frames, with a correlated period and with none. It is an
/// eighth of the frames in fixes, and is told in ticks.
pub(crate) fn time_pools<K: Tended>(
    rt: &(impl Runtime<A = Global> + CpuClock + Files<File = File> + Wait),
    path: &str,
    room: usize,
    cut_at: usize,
) -> Result<(), anyhow::Error> {
    for (frames, hits, fixes) in POOLS {
        println!(rt; "{frames} frames")?;
        let (pages, period) = (
            frames as u64,
            frames as u64 / FRAMES_A_PERIOD / FIXES_A_TICK,
        );
        time_pool::<K>(rt, path, frames, pages, period, hits, room, cut_at)?;
        let many = pages * PAGES_A_FRAME;
        time_pool::<K>(rt, path, frames, many, period, fixes, room, cut_at)?;
        time_pool::<K>(rt, path, frames, many, 0, fixes, room, cut_at)?;
    }
    Ok(())
}

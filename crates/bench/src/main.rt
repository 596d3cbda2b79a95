//! Measures a core or a pool, as its first argument says. docs/BENCHMARKS.md has the results.
//!
//!     bench                            both long runs: what `stdout` has
//!     bench cut | uncut                the first long run, with a trail that is cut as it goes, or has room for all
//!     bench silent ROUNDS SIZE         the second, of so many rounds over pages of so many bytes
//!     bench calls FRAMES               each call of a core of so many frames
//!     bench pool FILE [ROOM | silent]  fixes and unfixes over a page file
//!
//! Pages are used in pools of three sizes, with a correlated period of an eighth of the frames and, where pages are
//! evicted, with none too. With a room the trail is cut each time it is half full, and continues in the memory of the
//! piece before; without one it is never cut. With `silent` the core only counts its entries. Other words, and fewer,
//! are an error.
#![tactic(auto)]

ghost use Rattle.std.specs.Prelude.{◌<◌};

mod calls;
mod long_run;
mod pool;

use anyhow::Context;
use bp_core::{Keeper, RecordingKeeper, SilentKeeper};
use std::alloc::Global;
use std::env;
use std::fs::File;
use std::rt::{Files, Runtime};
use std::sync::Wait;
use std::time::{CpuClock, Duration};

// The room of a trail that is never cut.
const GREAT_ROOM: usize = 10000000;

/// The next number of a linear congruential generator.
fn next(state: u64) -> u64 {
    state
        .wrapping_mul(6364136223846793005)
        .wrapping_add(1442695040888963407)
}

/// Prints the processor time of each of so many calls since then.
fn tell(
    rt: &(impl Runtime<A = Global> + CpuClock),
    name: &str,
    since: Duration,
    calls: u64,
) -> Result<(), anyhow::Error>
    requires { 0 < calls }
{
    let spent = rt.thread_cpu_time()?.saturating_sub(since).as_nanos();
    let each = spent / calls as u128;
    println!(rt; "{name}: {each} ns")?;
    Ok(())
}

/// Times a pool over a page file, with a trail of this room, of room for all entries, or only counted.
fn time_pool_of_room(
    rt: &(impl Runtime<A = Global> + CpuClock + Files<File = File> + Wait),
    path: &str,
    room: Option<&str>,
) -> Result<(), anyhow::Error> {
    match room {
        None => pool::time_pools::<RecordingKeeper>(rt, path, GREAT_ROOM, GREAT_ROOM),
        Some("silent") => pool::time_pools::<SilentKeeper>(rt, path, SilentKeeper::MOST_ROOM, 0),
        Some(room) => {
            let room = room.parse::<usize>()?;
            pool::time_pools::<RecordingKeeper>(rt, path, room, room / 2)
        }
    }
}

fn number(word: Option<&str>) -> Result<u64, anyhow::Error> {
    let word = word.context("a number is missing")?;
    Ok(word.parse::<u64>()?)
}

/// Measures what the words of the command line say.
fn measure(
    rt: &(impl Runtime<A = Global> + CpuClock + Files<File = File> + Wait),
    what: &str,
    of: Option<&str>,
    more: Option<&str>,
) -> Result<(), anyhow::Error> {
    match what {
        "cut" => long_run::run_once(rt, true),
        "uncut" => long_run::run_once(rt, false),
        "silent" => long_run::run_silent(rt, number(of)?, number(more)? as usize),
        "calls" => calls::time_calls(rt, number(of)?),
        "pool" => time_pool_of_room(rt, of.context("no page file is named")?, more),
        _ => None.context("no such measurement"),
    }
}

fn main(rt: HostRuntime) -> Result<(), anyhow::Error> {
    let mut words = env::args(&rt)?.skip(1);
    let (what, of, more) = (words.next(), words.next(), words.next());
    match what {
        None => long_run::run_both(&rt),
        Some(what) => measure(&rt, what.as_str(), of.as_deref(), more.as_deref()),
    }
}

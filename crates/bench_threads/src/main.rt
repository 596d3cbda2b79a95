//! Times client threads over one shared pool of 4,096 frames and a page file, whose path is the first argument. The pool
//! is cut as the threads go, or only counts its entries if a second argument is `silent`. If the second argument is a
//! number it only counts them too, and has so many parts, 1 to 64. Without arguments four threads use a pool of each
//! kind for a moment, over pages in memory.
#![tactic(auto)]

mod parted;
mod threads;

use anyhow::Context;
use bp_keeper::{RecordingKeeper, SilentKeeper};
use std::env;

/// The next number of a linear congruential generator.
fn next(state: u64) -> u64 {
    state
        .wrapping_mul(6364136223846793005)
        .wrapping_add(1442695040888963407)
}

fn main(rt: HostRuntime) -> Result<(), anyhow::Error> {
    let mut words = env::args(&rt)?.skip(1);
    let (path, kind) = (words.next(), words.next());
    let Some(path) = path else {
        threads::try_threads::<RecordingKeeper>(&rt)?;
        return threads::try_threads::<SilentKeeper>(&rt);
    };
    match kind.as_deref() {
        None => threads::time_threads::<RecordingKeeper>(&rt, path.as_str()),
        Some("silent") => threads::time_threads::<SilentKeeper>(&rt, path.as_str()),
        Some(parts) => {
            let parts = parts.parse::<u8>().ok().context("no such pool")?;
            parted::time_parts(&rt, path.as_str(), parts)
        }
    }
}

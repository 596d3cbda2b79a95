//! `count_optimum`, which counts the replies of Belady's optimal policy.
ghost use Rattle.std.specs.Prelude.{◌≡◌, ◌≢◌, ◌+◌, ◌<◌, ◌≤◌, ◌^◌, false, IfOk, OnOk, length};
ghost use Rattle.bp_charts.specs.Optimum.{IsOptimum, nobody_counted, with_one};
ghost use Rattle.bp_charts.specs.Keys.{DropsLast, Steps, keys_of};

use crate::due::{next_due, page_bound};
use std::alloc::{AllocError, Global};
use std::collections::BTreeSet;

/// The counts of the optimum.
#[derive(Clone, Copy, Drop)]
pub struct Optimum {
    /// References to a page in a frame.
    pub hits: u64,
    /// Pages that were read into a frame.
    pub faults: u64,
    pub evictions: u64,
}

impl Optimum {
    fn none() -> Optimum
        ensures { result ≡ nobody_counted }
    {
        Optimum {
            hits: 0,
            faults: 0,
            evictions: 0,
        }
    }
}

/// Brings in a page whose next reference is at this time.
fn add_key(held: &mut BTreeSet<u64>, key: u64) -> Result<(), AllocError>
    requires fresh { (keys_of held.old).has key ≡ false }
    ensures { OnOk result (keys_of held.new ≡ with_one key (keys_of held.old)) }
{
    match held.insert(key) {
        Ok(_) => Ok(()),
        Err(_) => Err(AllocError),
    }
}

/// Evicts the page whose next reference is the last.
fn drop_last(held: &mut BTreeSet<u64>)
    requires { 0 < (keys_of held.old).count }
    ensures { DropsLast (keys_of held.old) (keys_of held.new) }
{
    let Some(_last) = held.pop_last() else {
        unreachable!()
    };
}

/// Makes one reference at the time `now`, to a page whose next reference is at `next`. `held` has the next reference of
/// each page in a frame.
fn refer(
    held: &mut BTreeSet<u64>,
    frames: usize,
    now: u64,
    next: u64,
    counts: &mut Optimum,
) -> Result<(), AllocError>
    requires frames { 1 ≤ frames }
    requires later { now < next }
    requires fresh { (keys_of held.old).has next ≡ false }
    requires hits { counts.old.hits + 1 < 2 ^ 64 }
    requires faults { counts.old.faults + 1 < 2 ^ 64 }
    requires evictions { counts.old.evictions + 1 < 2 ^ 64 }
    ensures { OnOk result (Steps frames now next (keys_of held.old) (keys_of held.new)
        counts.old counts.new) }
{
    if held.remove(&now) {
        add_key(held, next)?;
        counts.hits += 1;
        return Ok(());
    }
    if held.len() < frames {
        add_key(held, next)?;
        counts.faults += 1;
        return Ok(());
    }
    drop_last(held);
    add_key(held, next)?;
    counts.faults += 1;
    counts.evictions += 1;
    Ok(())
}

/// Counts the replies of a pool of so many frames which evicts the page whose next reference is the farthest in the
/// future. Each page is brought in where it is referenced. No other choice of victims gives fewer faults, as Belady
/// found; that is not proved here.
///
/// It takes eight bytes of memory for each reference, eight for each page up to the greatest, and a tree of the pages
/// in frames. It is `AllocError` where memory is refused.
pub fn count_optimum(
    alloc: Global,
    references: &[u32],
    frames: usize,
) -> Result<Optimum, AllocError>
    requires { 1 ≤ frames }
    ensures { IfOk result (IsOptimum frames references.now) }
{
    let next = next_due(alloc, references, page_bound(references))?;
    let mut held = BTreeSet::new(alloc);
    let mut counts = Optimum::none();
    for i in 0..references.len() {
        refer(&mut held, frames, i as u64, next[i], &mut counts)?;
    }
    Ok(counts)
}

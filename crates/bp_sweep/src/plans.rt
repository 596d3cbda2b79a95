//! `plans_of`, the plans of a sweep: each number of frames with each K, and with the optimum.
ghost use Rattle.std.specs.Prelude.{◌≡◌, ◌++◌, IfOk, OnOk};
ghost use Rattle.bp_sweep.specs.Sweeping.{plans_of, plans_with};

use crate::cells::{Plan, Policy};
use std::alloc::{AllocError, Global};

/// Adds the plans for one number of frames.
fn add_plans(
    plans: &mut Vec<Plan>,
    frames: usize,
    ks: &[usize],
    correlated: u64,
) -> Result<(), AllocError>
    ensures { OnOk result
        (plans.new.items ≡ plans.old.items ++ plans_with frames ks.now correlated) }
{
    for k in ks {
        plans.push(Plan {
            frames,
            policy: Policy::LruK { k: *k, correlated },
        })?;
    }
    plans.push(Plan {
        frames,
        policy: Policy::Optimum,
    })?;
    Ok(())
}

/// Returns the plans of a table: for each number of frames, in order, LRU-K with each K, in order, with this correlated
/// period in references, and then the optimum. It is `AllocError` where memory is refused. Limits are checked where the
/// cells are counted.
pub fn plans_of(
    alloc: Global,
    frames: &[usize],
    ks: &[usize],
    correlated: u64,
) -> Result<Vec<Plan>, AllocError>
    ensures { IfOk result (λ plans. plans.items ≡ plans_of frames.now ks.now correlated) }
{
    let mut plans = Vec::new(alloc);
    for count in frames {
        add_plans(&mut plans, *count, ks, correlated)?;
    }
    Ok(plans)
}

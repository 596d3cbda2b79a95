//! `count_cells`, which counts the cells of a sweep: the references over one pool for each plan.
ghost use Rattle.std.specs.Prelude.{◌≡◌, ◌≤◌, ◌^◌, IfErr, IfOk, max};
ghost use Rattle.bp_replacer.specs.Limits.{IsWithinLimits};
ghost use Rattle.bp_sweep.specs.Cells.{Counted, pool_parameters};
ghost use Rattle.bp_sweep.specs.Referring.{AreFrames, CellRefused, EndsCell};
ghost use Rattle.bp_sweep.specs.Sweeping.{AreCells, CountsBest, CountsOf, IsPlan, PlanRefused};
ghost use Rattle.bp_sweep.specs.Sweeping.{SweepRefused, best_totals, k_of, line_of};

use crate::cell::count_cell;
use crate::dense::References;
use crate::progress::{Progress, Turn};
use bp_charts::{Line, Optimum, count_optimum};
use bp_core::config::MAX_FRAMES;
use bp_core::{MAX_PERIOD, Settings};
use bp_page::{Geometry, Refusal};
use bp_ports::MemDevice;
use bp_trail::Totals;
use std::alloc::Global;
use std::sync::Wait;
use thiserror::Error;

/// The page size in bytes, the least there is: no cell looks at the bytes.
const PAGE_SIZE: usize = 16;

/// The frames and the policy of a cell.
#[derive(Clone, Copy, Drop)]
pub struct Plan {
    /// The number of frames, from 1 to 65,536.
    pub frames: usize,
    pub policy: Policy,
}

/// The policy that chooses the victim.
#[derive(Clone, Copy, Drop)]
pub enum Policy {
    /// LRU-K. No page's history is forgotten.
    LruK {
        /// K, from 1 to 16. K 1 is LRU.
        k: usize,
        /// The correlated period in references, from 0 to 2^62.
        correlated: u64,
    },
    /// Belady's optimum: the victim is the page whose next reference is the farthest.
    Optimum,
}

/// The first refused cell of a sweep, and the reason.
#[derive(Clone, Copy, PartialEq, Eq, Debug, Error)]
#[error("cell {cell}: {refusal}")]
pub struct CellFault {
    /// The number of the cell, from 1.
    pub cell: u64,
    pub refusal: Refusal,
}

/// Returns the K of LRU-K, or None for the optimum.
fn k_of(policy: &Policy) -> Option<usize>
    ensures { result ≡ k_of policy.now }
{
    match policy {
        Policy::LruK { k, .. } => Some(*k),
        Policy::Optimum => None,
    }
}

/// Returns the line of a plan in the table.
fn line_of(fixes: u64, plan: &Plan, totals: Totals) -> Line
    ensures { result ≡ line_of fixes plan.now totals }
{
    Line {
        frames: plan.frames,
        k: k_of(&plan.policy),
        fixes,
        hits: totals.hits,
        faults: totals.faults,
        evictions: totals.evictions,
        writes: totals.writes,
        failed: totals.failed,
        refused: totals.refused,
    }
}

/// Returns the totals of the optimum. It writes nothing out, and nothing fails or is refused.
fn totals_of_best(best: Optimum) -> Totals
    ensures { result ≡ best_totals best }
{
    Totals {
        hits: best.hits,
        faults: best.faults,
        evictions: best.evictions,
        writes: 0,
        failed: 0,
        refused: 0,
        discards: 0,
    }
}

/// Makes a device in memory with a page for each different number, and at least one.
fn device_for(alloc: Global, different: usize) -> Result<MemDevice, Refusal>
    requires few { different ≤ 1048576 }
    ensures pages { IfOk result (λ device. device.pages ≡ max 1 different) }
    ensures size { IfOk result (λ device. device.size ≡ 16) }
    ensures fault { IfErr result EndsCell }
{
    let Ok(geometry) = Geometry::new(different.max(1) as u64, PAGE_SIZE) else {
        unreachable!()
    };
    MemDevice::new(alloc, geometry)
}

/// Counts a cell of LRU-K. Its pages are in memory, so a read fails only where memory is refused. Then this is refused
/// too.
fn count_pool<R: Wait, G: Progress>(
    rt: &R,
    alloc: Global,
    references: &References,
    frames: usize,
    settings: Settings,
    progress: &mut G,
    turn: Turn,
) -> Result<Totals, Refusal>
    requires retained { settings.retained ≡ 2 ^ 62 }
    ensures counted { IfOk result (Counted
        (pool_parameters references.now.different frames settings.k settings.correlated)
        references.now.pages) }
    ensures fit { IfOk result (λ _. AreFrames frames) }
    ensures read { IfOk result (λ totals. totals.failed ≡ 0) }
    ensures fault { IfErr result (CellRefused frames) }
{
    let device = device_for(alloc, references.different())?;
    let mut port = device.port()?;
    let totals = count_cell(
        rt,
        alloc,
        &mut port,
        settings,
        frames,
        references.pages(),
        progress,
        turn,
    )?;
    if totals.failed > 0 {
        return Err(Refusal::OutOfMemory);
    }
    Ok(totals)
}

fn count_best(alloc: Global, references: &References, frames: usize) -> Result<Totals, Refusal>
    ensures counted { IfOk result (CountsBest frames references.now.pages) }
    ensures fit { IfOk result (λ _. AreFrames frames) }
    ensures read { IfOk result (λ totals. totals.failed ≡ 0) }
    ensures fault { IfErr result (CellRefused frames) }
{
    if frames < 1 || frames > MAX_FRAMES {
        return Err(Refusal::BadSettings);
    }
    let best = count_optimum(alloc, references.pages(), frames)?;
    Ok(totals_of_best(best))
}

fn count_plan<R: Wait, G: Progress>(
    rt: &R,
    alloc: Global,
    references: &References,
    plan: &Plan,
    progress: &mut G,
    turn: Turn,
) -> Result<Totals, Refusal>
    ensures counted { IfOk result (CountsOf references.now plan.now.frames plan.now.policy) }
    ensures fit { IfOk result (λ _. IsPlan plan.now) }
    ensures read { IfOk result (λ totals. totals.failed ≡ 0) }
    ensures fault { IfErr result (PlanRefused plan.now) }
{
    match plan.policy {
        Policy::LruK { k, correlated } => {
            let settings = Settings::new(k, correlated, MAX_PERIOD)?;
            count_pool(rt, alloc, references, plan.frames, settings, progress, turn)
        }
        Policy::Optimum => count_best(alloc, references, plan.frames),
    }
}

/// Counts the cell of each plan, in order: the references over a new pool with its frames and policy. It returns the
/// line of each. LRU-K is counted by `count_references`, over a device in memory, and the optimum by `count_optimum`.
/// No read failed in any line.
///
/// It stops at the first refused plan: with `BadSettings` where its frames, K or correlated period are out of their
/// limits, `OutOfMemory`, or `TrailFull` or `ClockFull` after some 2^61 entries. A read of a page in memory fails only
/// where memory is refused, so a failed read is `OutOfMemory` too; it is known once its cell is counted to the end.
pub fn count_cells<R: Wait, G: Progress>(
    rt: &R,
    alloc: Global,
    references: &References,
    plans: &[Plan],
    progress: &mut G,
) -> Result<Vec<Line>, CellFault>
    ensures cells { IfOk result (λ lines. AreCells references.now plans.now lines.items) }
    ensures fault { IfErr result (SweepRefused references.now plans.now) }
{
    let fixes = references.pages().len() as u64;
    let cells = plans.len() as u64;
    let mut lines = Vec::new(alloc);
    let mut cell = 0;
    for plan in plans {
        cell += 1;
        progress.advanced(cell, cells, 0, fixes);
        let turn = Turn { cell, cells };
        let totals = match count_plan(rt, alloc, references, plan, progress, turn) {
            Ok(totals) => totals,
            Err(refusal) => return Err(CellFault { cell, refusal }),
        };
        if lines.push(line_of(fixes, plan, totals)).is_err() {
            return Err(CellFault {
                cell,
                refusal: Refusal::OutOfMemory,
            });
        }
    }
    Ok(lines)
}

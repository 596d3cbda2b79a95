//! The calls of an owner, as client 0 of its core: the tick before a fix, and a look at a page.
ghost use Rattle.std.specs.Prelude.{◌≡◌, ◌<◌, IfOk, OnErr, OnOk};
ghost use Rattle.std.specs.Fn.{FnOnceReturnsAt};
ghost use Rattle.bp_trail.specs.Images.{held};
ghost use Rattle.bp_core.specs.CoreView.{EachPast};
ghost use Rattle.bp_core.specs.Outcomes.{KnowsPass};
ghost use Rattle.bp_core.specs.Work.{DoesWork};
ghost use Rattle.bp_core.specs.Work.{MadeBlank};
ghost use Rattle.bp_device.specs.Owned.{GoesBack, IsTicked, IsUnticked, OwnerFixes};

use crate::drivers::{drive_fix, drive_new};
use bp_core::{Keeper, Pass, PoolCore};
use bp_page::{PageNo, Refusal};
use bp_ports::Port;
use std::alloc::Global;
use std::sync::Wait;

/// The owner's number among the clients.
pub(crate) const OWNER: u8 = 0;

/// Moves the clock on by one, where it is to move at each fix. Refused as `PoolCore::tick` is, which changes nothing.
fn tick_first<K: Keeper>(core: &mut PoolCore<K>, is_ticking: bool) -> Result<(), Refusal>
    requires owner { 0 < core.old.parameters.clients }
    ensures ticked { OnOk result (IsTicked is_ticking core.old core.new) }
    ensures refused { OnErr result (IsUnticked is_ticking core.old result core.new) }
{
    if is_ticking {
        core.tick(OWNER, 1)?;
    }
    Ok(())
}

/// Moves the clock on, where it is to move, and fixes a page.
pub(crate) fn fix_as_owner<K: Keeper, P: Port, R: Wait>(
    rt: &R,
    core: &mut PoolCore<K>,
    port: &mut P,
    is_ticking: bool,
    page: PageNo,
) -> Result<Pass, Refusal>
    requires size { (P.geometry_of port.old).size ≡ core.old.parameters.size }
    requires owner { 0 < core.old.parameters.clients }
    requires page_in { page < core.old.parameters.pages }
    ensures outcome { OwnerFixes is_ticking core.old page result core.new }
    ensures known { IfOk result (λ pass. KnowsPass core.new pass) }
    ensures work { DoesWork P.read_gives P.write_gives core.old port.old core.new port.new }
    ensures geometry { P.geometry_of port.new ≡ P.geometry_of port.old }
    ensures parameters { core.new.parameters ≡ core.old.parameters }
{
    tick_first(core, is_ticking)?;
    drive_fix(rt, core, port, OWNER, page)
}

/// Moves the clock on, where it is to move, and fixes a page that is new.
pub(crate) fn fix_new_as_owner<K: Keeper, P: Port, R: Wait>(
    rt: &R,
    alloc: Global,
    core: &mut PoolCore<K>,
    port: &mut P,
    is_ticking: bool,
    page: PageNo,
) -> Result<Pass, Refusal>
    requires owner { 0 < core.old.parameters.clients }
    requires page_in { page < core.old.parameters.pages }
    ensures outcome { OwnerFixes is_ticking core.old page result core.new }
    ensures known { IfOk result (λ pass. KnowsPass core.new pass) }
    ensures work { DoesWork (MadeBlank core.old.parameters.size) P.write_gives
        core.old port.old core.new port.new }
    ensures geometry { P.geometry_of port.new ≡ P.geometry_of port.old }
    ensures parameters { core.new.parameters ≡ core.old.parameters }
{
    tick_first(core, is_ticking)?;
    drive_new(rt, alloc, core, port, OWNER, page)
}

/// Returns what `f` returns of the bytes of a page, and gives the pass back.
pub(crate) fn look_by<K: Keeper, T, F: FnOnce(&[u8]) -> T>(
    core: &mut PoolCore<K>,
    pass: Pass,
    f: F,
) -> T
    requires known { KnowsPass core.old pass }
    requires callable { F.IsAlwaysCallable f }
    ensures returned { EachPast core.old
        (λ past. FnOnceReturnsAt F.FnOnce f (held past pass.page) result) }
    ensures back { GoesBack core.old pass core.new }
{
    let bytes = core.page(&pass).unwrap();
    let done = f(bytes);
    match core.unfix(pass) {
        Ok(()) => done,
        Err(_pass) => unreachable!(),
    }
}

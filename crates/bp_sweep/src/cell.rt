//! `count_references`, which runs a list of references over one pool of LRU-K.
ghost use Rattle.std.specs.Prelude.{◌≡◌, ℕ, ◌<◌, ◌≤◌, ◌^◌, ◌∷◌, ◌++◌, [], List, None, true, false};
ghost use Rattle.std.specs.Prelude.{All, IfErr, IfOk, OnOk, length};
ghost use Rattle.bp_core.specs.CoreView.{CoreView, EachPast, with_entry};
ghost use Rattle.bp_core.specs.Outcomes.{KnowsPass, KnowsRead};
ghost use Rattle.bp_trail.specs.declared.entries.Call.TheVariants as call;
ghost use Rattle.bp_trail.specs.declared.entries.Reply.TheVariants as reply;
ghost use Rattle.bp_device.specs.Drivers.{LoadOutcome};
ghost use Rattle.bp_trail.specs.Totals.{HasRoom, counted};
ghost use Rattle.bp_sweep.specs.Cells.{Counted, cell_parameters};
ghost use Rattle.bp_sweep.specs.Referring.{AreFrames, CellRefused, EndsCell, FixesPage, HasRun};
ghost use Rattle.bp_sweep.specs.Referring.{IsTallied, is_passed_over};

use crate::progress::{Progress, Turn, Unwatched, tell};
use bp_core::{
    EndRefusal, Fix, Keeper, Pass, ReadTicket, Reply, Settings, SilentCore, SilentKeeper,
};
use bp_page::{Image, PageNo, PortFault, Refusal};
use bp_ports::Port;
use bp_trail::Totals;
use std::alloc::Global;
use std::sync::Wait;

fn end_load(
    core: &mut SilentCore,
    ticket: ReadTicket,
    read: Result<Image, PortFault>,
    totals: &mut Totals,
) -> Result<Pass, Refusal>
    requires size { IfOk read (λ image. length image ≡ core.old.parameters.size) }
    requires known { KnowsRead core.old ticket }
    requires tallied { IsTallied core.old totals.old }
    requires few { EachPast core.old (λ past. length past ≤ 2 ^ 62) }
    ensures outcome { LoadOutcome core.old ticket read result core.new }
    ensures tallied { IsTallied core.new totals.new }
{
    match core.read_end(ticket, read) {
        Ok(pass) => {
            totals.count(&Reply::Fixed(pass.serial()));
            Ok(pass)
        }
        Err(EndRefusal::Failed(refusal)) => {
            totals.count(&Reply::ReadFailed);
            Err(refusal)
        }
        Err(EndRefusal::Unknown(_ticket, _)) => unreachable!(),
    }
}

/// Counts a refused fix that is an entry, so that the references go on. Any other refusal is passed on.
fn pass_over(refusal: Refusal, totals: &mut Totals) -> Result<Option<Pass>, Refusal>
    requires room { is_passed_over refusal ≡ true → HasRoom totals.old }
    ensures passed { IfOk result (λ pass. (pass ≡ None) × (is_passed_over refusal ≡ true)
        × (totals.new ≡ counted reply.NoVictim totals.old)) }
    ensures fault { IfErr result (λ why. (why ≡ refusal) × (is_passed_over refusal ≡ false)) }
{
    match refusal {
        Refusal::NoVictim | Refusal::NeedLog(_) | Refusal::Busy => {
            totals.count(&Reply::NoVictim);
            Ok(None)
        }
        _ => Err(refusal),
    }
}

/// Fixes a page, and counts the replies. It returns no pass where the fix was refused or the read failed.
fn fix_page<P: Port, R: Wait>(
    rt: &R,
    core: &mut SilentCore,
    port: &mut P,
    page: PageNo,
    totals: &mut Totals,
) -> Result<Option<Pass>, Refusal>
    requires size { (P.geometry_of port.old).size ≡ core.old.parameters.size }
    requires client_in { 0 < core.old.parameters.clients }
    requires page_in { page < core.old.parameters.pages }
    requires tallied { IsTallied core.old totals.old }
    ensures outcome { FixesPage core.old page result core.new }
    ensures tallied { OnOk result (IsTallied core.new totals.new) }
    ensures fault { IfErr result EndsCell }
    ensures geometry { P.geometry_of port.new ≡ P.geometry_of port.old }
{
    match core.fix(0, page) {
        Ok(Fix::Hit(pass)) => {
            totals.count(&Reply::Hit(pass.serial()));
            Ok(Some(pass))
        }
        Ok(Fix::Load(ticket, evicted)) => {
            totals.count(&Reply::Load {
                ticket: ticket.serial(),
                evicted,
            });
            let read = port.read(rt, page);
            Ok(end_load(core, ticket, read, totals).ok())
        }
        // No page was written to, so no page is unsaved.
        Ok(Fix::WriteFirst(_ticket)) => unreachable!(),
        Err(refusal) => pass_over(refusal, totals),
    }
}

fn unfix(core: &mut SilentCore, pass: Pass)
    requires known { KnowsPass core.old pass }
    ensures entry { core.new ≡ with_entry core.old pass.client
        (call.Unfix pass.serial pass.page) reply.Done }
{
    match core.unfix(pass) {
        Ok(()) => {}
        Err(_pass) => unreachable!(),
    }
}

/// Makes one reference: fixes the page, gives it back, and moves the clock on by one.
fn refer<P: Port, R: Wait>(
    rt: &R,
    core: &mut SilentCore,
    port: &mut P,
    page: PageNo,
    totals: &mut Totals,
) -> Result<(), Refusal>
    requires size { (P.geometry_of port.old).size ≡ core.old.parameters.size }
    requires client_in { 0 < core.old.parameters.clients }
    requires page_in { page < core.old.parameters.pages }
    requires tallied { IsTallied core.old totals.old }
    ensures step { OnOk result ((start : CoreView) (pages : List ℕ) → HasRun start pages core.old
        → HasRun start (pages ++ page ∷ []) core.new) }
    ensures tallied { OnOk result (IsTallied core.new totals.new) }
    ensures fault { IfErr result EndsCell }
    ensures geometry { P.geometry_of port.new ≡ P.geometry_of port.old }
{
    if let Some(pass) = fix_page(rt, core, port, page, totals)? {
        unfix(core, pass);
    }
    core.tick(0, 1)
}

/// Makes all references, in order. `progress` hears of each 65,536 of them.
fn refer_all<P: Port, R: Wait, G: Progress>(
    rt: &R,
    core: &mut SilentCore,
    port: &mut P,
    references: &[u32],
    totals: &mut Totals,
    progress: &mut G,
    turn: Turn,
) -> Result<(), Refusal>
    requires size { (P.geometry_of port.old).size ≡ core.old.parameters.size }
    requires client_in { 0 < core.old.parameters.clients }
    requires pages_in { All (λ page. page < core.old.parameters.pages) references.now }
    requires tallied { IsTallied core.old totals.old }
    ensures run { OnOk result (HasRun core.old references.now core.new) }
    ensures tallied { OnOk result (IsTallied core.new totals.new) }
    ensures fault { IfErr result EndsCell }
    ensures geometry { P.geometry_of port.new ≡ P.geometry_of port.old }
{
    let mut done = 0;
    for page in references {
        tell(progress, turn, done, references.len());
        refer(rt, core, port, PageNo::new(u64::from(*page)), totals)?;
        done += 1;
    }
    Ok(())
}

/// Counts a cell as `count_references` does, and reports its progress.
pub(crate) fn count_cell<P: Port, R: Wait, G: Progress>(
    rt: &R,
    alloc: Global,
    port: &mut P,
    settings: Settings,
    frames: usize,
    references: &[u32],
    progress: &mut G,
    turn: Turn,
) -> Result<Totals, Refusal>
    requires pages_in { All (λ page. page < (P.geometry_of port.old).pages) references.now }
    ensures counted { IfOk result (Counted
        (cell_parameters (P.geometry_of port.old) settings frames) references.now) }
    ensures fit { IfOk result (λ _. AreFrames frames) }
    ensures fault { IfErr result (CellRefused frames) }
    ensures geometry { P.geometry_of port.new ≡ P.geometry_of port.old }
{
    let mut core = SilentCore::new(
        alloc,
        port.geometry(),
        settings,
        frames,
        1,
        SilentKeeper::MOST_ROOM,
    )?;
    let mut totals = Totals::none();
    let made = refer_all(rt, &mut core, port, references, &mut totals, progress, turn);
    core.keeps_the_rules();
    drop(core);
    match made {
        Ok(()) => Ok(totals),
        Err(refusal) => Err(refusal),
    }
}

/// Runs the references over a new pool with this many frames, one client and these settings, each as a fix, an unfix
/// and a tick, and counts the replies. The port is only read, never written. The pool counts its entries and keeps
/// none.
///
/// It is `BadSettings` where the frames are not 1 to 65,536, `OutOfMemory` where the pool can't have its memory, and
/// `TrailFull` or `ClockFull` after some 2^61 entries.
pub fn count_references<P: Port, R: Wait>(
    rt: &R,
    alloc: Global,
    port: &mut P,
    settings: Settings,
    frames: usize,
    references: &[u32],
) -> Result<Totals, Refusal>
    requires pages_in { All (λ page. page < (P.geometry_of port.old).pages) references.now }
    ensures counted { IfOk result (Counted
        (cell_parameters (P.geometry_of port.old) settings frames) references.now) }
    ensures fit { IfOk result (λ _. AreFrames frames) }
    ensures fault { IfErr result (CellRefused frames) }
    ensures geometry { P.geometry_of port.new ≡ P.geometry_of port.old }
{
    let turn = Turn { cell: 1, cells: 1 };
    count_cell(
        rt,
        alloc,
        port,
        settings,
        frames,
        references,
        &mut Unwatched,
        turn,
    )
}

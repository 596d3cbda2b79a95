//! `drive_row`: the call on a core that each row of a script makes.
ghost use Rattle.std.specs.Prelude.{◌+◌, ◌≡◌, ◌<◌, ◌≤◌, IfErr, length};
ghost use Rattle.bp_scripts.specs.declared.rows.Step.TheVariants as Step;
ghost use Rattle.bp_scripts.specs.Fits.{RowFits};
ghost use Rattle.bp_trail.specs.Pieces.{outcome_of};
ghost use Rattle.bp_replay.specs.Rows.{EndsIn, DrivesRow, RowCaused};
ghost use Rattle.bp_core.specs.Work.{DoesWork};

use crate::held_list::HeldList;
use crate::held_passes::{serials_differ, unfix_note};
use bp_core::{Keeper, PoolCore};
use bp_device::{drive_fix, drive_flush};
use bp_page::{Bytes, Lsn, PageNo, Refusal};
use bp_ports::Port;
use bp_scripts::{Row, Step};
use std::sync::Wait;

/// Reads the page by the pass that the client took latest.
fn read_row<K: Keeper>(
    core: &mut PoolCore<K>,
    held: &HeldList,
    client: u8,
    page: PageNo,
) -> Result<(), Refusal>
    requires ends_in { EndsIn core.old held.now.passes }
    ensures outcome { DrivesRow core.old client (Step.Read page)
        (outcome_of result) held.now.passes held.now.passes core.new }
    ensures cause { IfErr result (λ why. RowCaused (Step.Read page) why core.new) }
{
    let Some(note) = held.latest(client, page) else {
        return Err(Refusal::UnknownPass);
    };
    let pass = note.pass();
    let read = core.read_into(&pass, 0, &mut []);
    pass.note();
    read?;
    Ok(())
}

/// Writes to the page by the pass that the client took latest.
fn write_row<K: Keeper>(
    core: &mut PoolCore<K>,
    held: &HeldList,
    client: u8,
    page: PageNo,
    offset: u32,
    bytes: &Bytes,
    lsn: Lsn,
) -> Result<(), Refusal>
    requires ends_in { EndsIn core.old held.now.passes }
    requires fits { offset + length bytes.now ≤ core.old.parameters.size }
    ensures outcome { DrivesRow core.old client (Step.Write page offset bytes.now lsn)
        (outcome_of result) held.now.passes held.now.passes core.new }
    ensures cause { IfErr result
        (λ why. RowCaused (Step.Write page offset bytes.now lsn) why core.new) }
{
    let Some(note) = held.latest(client, page) else {
        return Err(Refusal::UnknownPass);
    };
    let pass = note.pass();
    let written = core.write(&pass, offset, bytes, lsn);
    pass.note();
    written
}

/// Gives back the pass of the page that the client took latest.
fn unfix_row<K: Keeper>(
    core: &mut PoolCore<K>,
    held: &mut HeldList,
    client: u8,
    page: PageNo,
) -> Result<(), Refusal>
    requires ends_in { EndsIn core.old held.old.passes }
    ensures outcome { DrivesRow core.old client (Step.Unfix page)
        (outcome_of result) held.old.passes held.new.passes core.new }
    ensures cause { IfErr result (λ why. RowCaused (Step.Unfix page) why core.new) }
    ensures fewer { length held.new.passes ≤ length held.old.passes }
    ensures room { held.old.room ≤ held.new.room }
{
    serials_differ(core);
    let Some(note) = held.take_latest(client, page) else {
        return Err(Refusal::UnknownPass);
    };
    unfix_note(core, note);
    Ok(())
}

/// Fixes the page, and holds the pass.
fn fix_row<K: Keeper, P: Port, R: Wait>(
    rt: &R,
    core: &mut PoolCore<K>,
    port: &mut P,
    held: &mut HeldList,
    client: u8,
    page: PageNo,
) -> Result<(), Refusal>
    requires size { (P.geometry_of port.old).size ≡ core.old.parameters.size }
    requires client_in { client < core.old.parameters.clients }
    requires page_in { page < core.old.parameters.pages }
    requires room { 0 < held.old.room }
    ensures outcome { DrivesRow core.old client (Step.Fix page)
        (outcome_of result) held.old.passes held.new.passes core.new }
    ensures cause { IfErr result (λ why. RowCaused (Step.Fix page) why core.new) }
    ensures more { length held.new.passes ≤ length held.old.passes + 1 }
    ensures room { held.old.room ≤ held.new.room + 1 }
    ensures work { DoesWork P.read_gives P.write_gives core.old port.old core.new port.new }
    ensures geometry { P.geometry_of port.new ≡ P.geometry_of port.old }
{
    let pass = drive_fix(rt, core, port, client, page)?;
    held.push(pass.note());
    Ok(())
}

fn flush_row<K: Keeper, P: Port, R: Wait>(
    rt: &R,
    core: &mut PoolCore<K>,
    port: &mut P,
    held: &HeldList,
    client: u8,
    page: PageNo,
) -> Result<(), Refusal>
    requires client_in { client < core.old.parameters.clients }
    requires page_in { page < core.old.parameters.pages }
    ensures outcome { DrivesRow core.old client (Step.Flush page)
        (outcome_of result) held.now.passes held.now.passes core.new }
    ensures cause { IfErr result (λ why. RowCaused (Step.Flush page) why core.new) }
    ensures work { DoesWork P.read_gives P.write_gives core.old port.old core.new port.new }
    ensures geometry { P.geometry_of port.new ≡ P.geometry_of port.old }
{
    drive_flush(rt, core, port, client, page)?;
    Ok(())
}

fn discard_row<K: Keeper>(
    core: &mut PoolCore<K>,
    held: &HeldList,
    client: u8,
    page: PageNo,
) -> Result<(), Refusal>
    requires client_in { client < core.old.parameters.clients }
    requires page_in { page < core.old.parameters.pages }
    ensures outcome { DrivesRow core.old client (Step.Discard page)
        (outcome_of result) held.now.passes held.now.passes core.new }
    ensures cause { IfErr result (λ why. RowCaused (Step.Discard page) why core.new) }
{
    core.discard(client, page)?;
    Ok(())
}

fn tick_row<K: Keeper>(
    core: &mut PoolCore<K>,
    held: &HeldList,
    client: u8,
    n: u64,
) -> Result<(), Refusal>
    requires client_in { client < core.old.parameters.clients }
    ensures outcome { DrivesRow core.old client (Step.Tick n)
        (outcome_of result) held.now.passes held.now.passes core.new }
    ensures cause { IfErr result (λ why. RowCaused (Step.Tick n) why core.new) }
{
    core.tick(client, n)
}

fn purge_row<K: Keeper>(core: &mut PoolCore<K>, held: &HeldList, client: u8) -> Result<(), Refusal>
    requires client_in { client < core.old.parameters.clients }
    ensures outcome { DrivesRow core.old client Step.Purge
        (outcome_of result) held.now.passes held.now.passes core.new }
    ensures cause { IfErr result (λ why. RowCaused Step.Purge why core.new) }
{
    core.purge(client)?;
    Ok(())
}

fn log_row<K: Keeper>(
    core: &mut PoolCore<K>,
    held: &HeldList,
    client: u8,
    lsn: Lsn,
) -> Result<(), Refusal>
    requires client_in { client < core.old.parameters.clients }
    ensures outcome { DrivesRow core.old client (Step.Log lsn)
        (outcome_of result) held.now.passes held.now.passes core.new }
    ensures cause { IfErr result (λ why. RowCaused (Step.Log lsn) why core.new) }
{
    core.mark(client, lsn)
}

/// Makes the call that a row asks for, by its client.
pub(crate) fn drive_row<K: Keeper, P: Port, R: Wait>(
    rt: &R,
    core: &mut PoolCore<K>,
    port: &mut P,
    held: &mut HeldList,
    row: &Row,
) -> Result<(), Refusal>
    requires size { (P.geometry_of port.old).size ≡ core.old.parameters.size }
    requires fits { RowFits core.old.parameters row.now }
    requires room { 0 < held.old.room }
    requires ends_in { EndsIn core.old held.old.passes }
    ensures outcome { DrivesRow core.old row.now.client row.now.step
        (outcome_of result) held.old.passes held.new.passes core.new }
    ensures cause { IfErr result (λ why. RowCaused row.now.step why core.new) }
    ensures more { length held.new.passes ≤ length held.old.passes + 1 }
    ensures room { held.old.room ≤ held.new.room + 1 }
    ensures work { DoesWork P.read_gives P.write_gives core.old port.old core.new port.new }
    ensures geometry { P.geometry_of port.new ≡ P.geometry_of port.old }
{
    let client = row.client;
    match &row.step {
        Step::Fix(page) => fix_row(rt, core, port, held, client, *page),
        Step::Unfix(page) => unfix_row(core, held, client, *page),
        Step::Read(page) => read_row(core, held, client, *page),
        Step::Write {
            page,
            offset,
            bytes,
            lsn,
        } => write_row(core, held, client, *page, *offset, bytes, *lsn),
        Step::Flush(page) => flush_row(rt, core, port, held, client, *page),
        Step::Discard(page) => discard_row(core, held, client, *page),
        Step::Tick(n) => tick_row(core, held, client, *n),
        Step::Purge => purge_row(core, held, client),
        Step::Log(lsn) => log_row(core, held, client, *lsn),
    }
}

//! `drive_all`: runs a whole script over a core that has one owner.
ghost use Rattle.std.specs.Prelude.{OnErr, All, reverse, ◌+◌, ◌≡◌, ◌<◌, ◌≤◌, ◌++◌, [], IfOk};
ghost use Rattle.std.specs.Prelude.{length, vec_len, vec_capacity};
ghost use Rattle.bp_scripts.specs.Fits.{RowFits};
ghost use Rattle.bp_trail.specs.Pieces.{outcome_of};
ghost use Rattle.bp_scripts.specs.Script.{refused_row};
ghost use Rattle.bp_replay.specs.Rows.{AddsScript, DrivesRowsCaused, ScriptCaused};
ghost use Rattle.bp_core.specs.Work.{DoesWork};

use crate::held_list::HeldList;
use crate::held_passes::unfix_all;
use crate::rows::drive_row;
use bp_core::{Keeper, PoolCore};
use bp_page::Refusal;
use bp_ports::Port;
use bp_scripts::{Refused, Row};
use std::alloc::Global;
use std::sync::Wait;

/// Notes the refusal of a row, if it has one. It takes no memory.
pub fn note_refused(refused: &mut Vec<Refused>, row: u64, outcome: Result<(), Refusal>)
    requires room { vec_len refused.old < vec_capacity refused.old }
    ensures refused { reverse refused.new.items ≡ refused_row row
        (outcome_of outcome) ++ reverse refused.old.items }
    ensures more { vec_len refused.new ≤ vec_len refused.old + 1 }
    ensures capacity { vec_capacity refused.new ≡ vec_capacity refused.old }
{
    if let Err(refusal) = outcome {
        refused.push_reserved(Refused {
            row,
            number: refusal.number(),
        });
    }
}

fn drive_rows<K: Keeper, P: Port, R: Wait>(
    rt: &R,
    core: &mut PoolCore<K>,
    port: &mut P,
    held: &mut HeldList,
    refused: &mut Vec<Refused>,
    rows: &[Row],
)
    requires size { (P.geometry_of port.old).size ≡ core.old.parameters.size }
    requires fits { All (RowFits core.old.parameters) rows.now }
    requires none_held { held.old.passes ≡ [] }
    requires none_refused { refused.old.items ≡ [] }
    requires held_room { length rows.now ≤ held.old.room }
    requires refused_room { length rows.now ≤ vec_capacity refused.old }
    ensures outcome { DrivesRowsCaused core.old rows.now refused.new.items
        held.new.passes core.new }
    ensures few { length held.new.passes ≤ length rows.now }
    ensures work { DoesWork P.read_gives P.write_gives core.old port.old core.new port.new }
    ensures geometry { P.geometry_of port.new ≡ P.geometry_of port.old }
{
    for row in rows {
        let outcome = drive_row(rt, core, port, held, row);
        note_refused(refused, row.row, outcome);
    }
}

/// Runs the rows in order over a core that nobody else uses, and gives back the passes that are then held: client by
/// client, from the lowest, in the order taken. Returns the refused rows, in order, each with the number of its
/// refusal: 20 only where the core then lacked the room, 21 where the clock would have passed its limit, and 22 where
/// the row takes memory.
///
/// `OutOfMemory` comes only where a list of its own could not be made, before any row was run; it changes nothing.
pub fn drive_all<K: Keeper, P: Port, R: Wait>(
    rt: &R,
    alloc: Global,
    core: &mut PoolCore<K>,
    port: &mut P,
    rows: &[Row],
) -> Result<Vec<Refused>, Refusal>
    requires size { (P.geometry_of port.old).size ≡ core.old.parameters.size }
    requires fits { All (RowFits core.old.parameters) rows.now }
    ensures follows { IfOk result (λ refused. AddsScript core.old rows.now refused.items core.new) }
    ensures caused { IfOk result (λ refused. ScriptCaused core.old rows.now refused.items
        core.new) }
    ensures refused { OnErr result (result ≡ Err Refusal.OutOfMemory) }
    ensures unchanged { OnErr result (core.new ≡ core.old) }
    ensures work { DoesWork P.read_gives P.write_gives core.old port.old core.new port.new }
    ensures geometry { P.geometry_of port.new ≡ P.geometry_of port.old }
{
    let mut held = HeldList::new(alloc);
    held.reserve(rows.len())?;
    let mut left = Vec::with_capacity(alloc, rows.len())?;
    let mut refused = Vec::with_capacity(alloc, rows.len())?;
    drive_rows(rt, core, port, &mut held, &mut refused, rows);
    held.copy_to(&mut left);
    unfix_all(core, &mut left);
    Ok(refused)
}

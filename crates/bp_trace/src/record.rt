//! `parse_row`, which turns one record of a trace into a row.
ghost use Rattle.std.specs.Prelude.{◌≡◌, Err, OnErr};
ghost use Rattle.csv.specs.Records.{fields_of};
ghost use Rattle.bp_trace.specs.Fields.{Gives, texts_of};
ghost use Rattle.bp_trace.specs.Record.{has_extra, is_log, op_in, place_in, row_in, step_in, texts_row, write_in};

use crate::faults::InputFault;
use crate::fields::{Fields, parse_client, six_fields, wanted_bytes, wanted_number, wanted_page};
use bp_page::{Bytes, Geometry, Lsn};
use bp_scripts::{Row, Step};
use csv::ByteRecord;
use std::alloc::Global;

/// The operation of a record.
#[derive(Clone, Copy)]
pub enum Op {
    Fix,
    Unfix,
    Read,
    Flush,
    Discard,
    Write,
    Tick,
    Log,
    Purge,
}

/// Returns the operation of a word in lower case. Any other word is `BadOp`.
#[tactic(auto, unfolding(crate::specs::Record::op_in))]
pub fn parse_op(text: &[u8]) -> Result<Op, InputFault>
    ensures op { result ≡ op_in text.now }
    ensures fault { OnErr result (result ≡ Err InputFault.BadOp) }
{
    if text == b"fix".as_slice() {
        Ok(Op::Fix)
    } else if text == b"unfix".as_slice() {
        Ok(Op::Unfix)
    } else if text == b"read".as_slice() {
        Ok(Op::Read)
    } else if text == b"flush".as_slice() {
        Ok(Op::Flush)
    } else if text == b"discard".as_slice() {
        Ok(Op::Discard)
    } else if text == b"write".as_slice() {
        Ok(Op::Write)
    } else if text == b"tick".as_slice() {
        Ok(Op::Tick)
    } else if text == b"log".as_slice() {
        Ok(Op::Log)
    } else if text == b"purge".as_slice() {
        Ok(Op::Purge)
    } else {
        Err(InputFault::BadOp)
    }
}

/// Returns true for `log`, which only client 0 may ask for.
pub fn is_log(op: Op) -> bool
    ensures { result ≡ is_log op }
{
    matches!(op, Op::Log)
}

/// Returns true if a field that the operation does not use is not empty.
pub fn has_extra(op: Op, fields: &Fields<'_>) -> bool
    ensures { result ≡ has_extra op (texts_of fields.now) }
{
    match op {
        Op::Write => false,
        Op::Purge => {
            !(fields.number.is_empty()
                && fields.offset.is_empty()
                && fields.bytes.is_empty()
                && fields.lsn.is_empty())
        }
        _ => !(fields.offset.is_empty() && fields.bytes.is_empty() && fields.lsn.is_empty()),
    }
}

/// Returns a write of these bytes. It is `OutOfPage` where they do not lie within a page of the file.
fn write_at(
    geometry: &Geometry,
    page: u64,
    offset: u64,
    bytes: Bytes,
    lsn: u64,
) -> Result<Step, InputFault>
    ensures { result ≡ place_in geometry.now page offset bytes lsn }
{
    match geometry.page(page) {
        Some(page) if geometry.fits(offset as usize, bytes.bytes().len()) => Ok(Step::Write {
            page,
            offset: offset as u32,
            bytes,
            lsn: Lsn::new(lsn),
        }),
        _ => Err(InputFault::OutOfPage),
    }
}

#[tactic(auto, unfolding(crate::specs::Record::write_in))]
fn parse_write(alloc: Global, geometry: &Geometry, fields: &Fields<'_>) -> Result<Step, InputFault>
    ensures { Gives result (write_in geometry.now (texts_of fields.now)) }
{
    let page = wanted_number(fields.number)?;
    let offset = wanted_number(fields.offset)?;
    let lsn = wanted_number(fields.lsn)?;
    let bytes = wanted_bytes(alloc, fields.bytes)?;
    write_at(geometry, page, offset, bytes, lsn)
}

#[tactic(auto, unfolding(crate::specs::Record::step_in))]
fn parse_step(
    alloc: Global,
    geometry: &Geometry,
    op: Op,
    fields: &Fields<'_>,
) -> Result<Step, InputFault>
    ensures { Gives result (step_in geometry.now op (texts_of fields.now)) }
{
    match op {
        Op::Fix => Ok(Step::Fix(wanted_page(geometry, fields.number)?)),
        Op::Unfix => Ok(Step::Unfix(wanted_page(geometry, fields.number)?)),
        Op::Read => Ok(Step::Read(wanted_page(geometry, fields.number)?)),
        Op::Flush => Ok(Step::Flush(wanted_page(geometry, fields.number)?)),
        Op::Discard => Ok(Step::Discard(wanted_page(geometry, fields.number)?)),
        Op::Write => parse_write(alloc, geometry, fields),
        Op::Tick => Ok(Step::Tick(wanted_number(fields.number)?)),
        Op::Log => Ok(Step::Log(Lsn::new(wanted_number(fields.number)?))),
        Op::Purge => Ok(Step::Purge),
    }
}

/// Returns the row that six fields say, or their first fault.
#[tactic(auto, unfolding(crate::specs::Record::texts_row))]
fn parse_fields(
    alloc: Global,
    geometry: &Geometry,
    row: u64,
    fields: &Fields<'_>,
) -> Result<Row, InputFault>
    ensures { Gives result (texts_row geometry.now row (texts_of fields.now)) }
{
    let client = parse_client(fields.client)?;
    let op = parse_op(fields.op)?;
    if is_log(op) && client != 0 {
        return Err(InputFault::BadClient);
    }
    if has_extra(op, fields) {
        return Err(InputFault::BadShape);
    }
    let step = parse_step(alloc, geometry, op, fields)?;
    Ok(Row { row, client, step })
}

/// Returns the row that a record says, or its first fault. It is `OutOfMemory` where memory is refused.
#[tactic(auto, unfolding(crate::specs::Record::row_in))]
pub fn parse_row(
    alloc: Global,
    geometry: &Geometry,
    row: u64,
    raw: &ByteRecord,
) -> Result<Row, InputFault>
    ensures { Gives result (row_in geometry.now row (fields_of raw.now)) }
{
    let Some(fields) = six_fields(raw) else {
        return Err(InputFault::BadShape);
    };
    parse_fields(alloc, geometry, row, &fields)
}

//! `RowReason`, why a record of a trace says no row, in words.
ghost use Rattle.std.specs.Prelude.{◌≡◌, ℕ, IfOk, Ok};
ghost use Rattle.csv.specs.Records.{fields_of};
ghost use Rattle.bp_trace.specs.Fields as spec;
ghost use Rattle.bp_trace.specs.Fields.{texts_of};
ghost use Rattle.bp_trace.specs.Reasons.{Tells};
ghost use Rattle.bp_trace.specs.Record as spec_record;
ghost use Rattle.bp_trace.specs.Record.{place_in, row_in, step_in, texts_row, write_in};

use crate::decimal::parse_number;
use crate::faults::InputFault;
use crate::fields::{Fields, parse_client, six_fields, wanted_bytes};
use crate::record::{Op, has_extra, is_log, parse_op};
use bp_page::{Bytes, Geometry};
use csv::ByteRecord;
use std::alloc::Global;
use std::fmt;
use thiserror::Error;

/// The most bytes of a field that are shown.
const MAX_SHOWN: usize = 40;

/// The text of a field, as it is shown: its first 40 bytes, with an escape for each quote, backslash, and byte that is
/// no printable ASCII.
#[derive(Clone, Copy, PartialEq, Eq, Debug)]
pub struct Shown<'a>(pub &'a [u8]);

impl fmt::Display for Shown<'_> {
    fn fmt<W: fmt::Write>(&self, f: &mut fmt::Formatter<W>) -> fmt::Result {
        let text = self.0;
        if text.len() <= MAX_SHOWN {
            return write!(f, "'{}'", text.escape_ascii());
        }
        let (shown, _) = text.split_at(MAX_SHOWN);
        write!(f, "'{}'..", shown.escape_ascii())
    }
}

/// Why a record says no row. Fields are counted from 1.
#[derive(Clone, Copy, PartialEq, Eq, Debug, Error)]
pub enum RowReason<'a> {
    #[error("fields: {found}, and not 6: client,op,number,offset,bytes,lsn")]
    FieldCount {
        found: usize,
    },
    /// The first record, whose first field begins with a letter.
    #[error("a trace has no header; not a client from 0 to 63 in field 1: {text}")]
    Header {
        text: Shown<'a>,
    },
    #[error("not a client from 0 to 63 in field 1: {text}")]
    Client {
        text: Shown<'a>,
    },
    #[error("a log row is of client 0, and not of {client}")]
    LogClient {
        client: u8,
    },
    #[error("not an op in field 2: {text}; the ops are fix, unfix, read, write, flush, discard, tick, log and purge")]
    Op {
        text: Shown<'a>,
    },
    #[error("not empty in field {field}, which this op does not use: {text}")]
    NotEmpty {
        field: usize,
        text: Shown<'a>,
    },
    #[error("not a number from 0 to 2^62 in field {field}: {text}")]
    Number {
        field: usize,
        text: Shown<'a>,
    },
    #[error("not pairs of hex digits in field 5: {text}")]
    Hex {
        text: Shown<'a>,
    },
    #[error("no page {page}: the page file has {pages} pages of {size} bytes")]
    Page {
        page: u64,
        pages: u64,
        size: usize,
    },
    #[error("not within a page of {size} bytes: {count} bytes from offset {offset} on")]
    Place {
        offset: u64,
        count: usize,
        size: usize,
    },
    #[error("out of memory")]
    OutOfMemory,
}

/// Returns the number of a client, or why there is none.
fn client_in<'a>(row: u64, text: &'a [u8]) -> Result<u8, RowReason<'a>>
    ensures tells { Tells result (spec.client_in text.now) }
    ensures value { IfOk result (λ n. spec.client_in text.now ≡ Ok n) }
{
    match parse_client(text) {
        Ok(client) => Ok(client),
        Err(_) => match text.first() {
            Some(first) if row == 1 && first.is_ascii_alphabetic() => {
                Err(RowReason::Header { text: Shown(text) })
            }
            _ => Err(RowReason::Client { text: Shown(text) }),
        },
    }
}

/// Returns the number in a field, or why there is none.
fn number_in<'a>(field: usize, text: &'a [u8]) -> Result<u64, RowReason<'a>>
    ensures tells { Tells result (spec.number_wanted text.now) }
    ensures value { IfOk result (λ n. spec.number_wanted text.now ≡ Ok n) }
{
    match parse_number(text) {
        Some(number) => Ok(number),
        None => Err(RowReason::Number {
            field,
            text: Shown(text),
        }),
    }
}

/// Returns the bytes that the hex digits of a write stand for, or why there are none.
fn bytes_in<'a>(alloc: Global, text: &'a [u8]) -> Result<Bytes, RowReason<'a>>
    ensures tells { Tells result (spec.bytes_wanted text.now) }
    ensures value { IfOk result (λ bytes. spec.bytes_wanted text.now ≡ Ok bytes) }
{
    match wanted_bytes(alloc, text) {
        Ok(bytes) => Ok(bytes),
        Err(InputFault::OutOfMemory) => Err(RowReason::OutOfMemory),
        Err(_) => Err(RowReason::Hex { text: Shown(text) }),
    }
}

/// Looks whether the file has the page of a field.
fn check_page<'a>(geometry: &Geometry, page: u64) -> Result<(), RowReason<'a>>
    ensures { Tells result (spec.page_below geometry.now.pages page) }
{
    if page < geometry.pages {
        return Ok(());
    }
    Err(RowReason::Page {
        page,
        pages: geometry.pages,
        size: geometry.size,
    })
}

#[tactic(auto, unfolding(crate::specs::Fields::page_in))]
fn check_page_in<'a>(geometry: &Geometry, text: &'a [u8]) -> Result<(), RowReason<'a>>
    ensures { Tells result (spec.page_in geometry.now text.now) }
{
    let page = number_in(3, text)?;
    check_page(geometry, page)
}

/// Looks whether a write lies within a page of the file.
fn check_place<'a>(
    geometry: &Geometry,
    page: u64,
    offset: u64,
    bytes: &Bytes,
) -> Result<(), RowReason<'a>>
    ensures { (lsn : ℕ) → Tells result (place_in geometry.now page offset bytes.now lsn) }
{
    check_page(geometry, page)?;
    let count = bytes.bytes().len();
    if geometry.fits(offset as usize, count) {
        return Ok(());
    }
    Err(RowReason::Place {
        offset,
        count,
        size: geometry.size,
    })
}

#[tactic(auto, unfolding(crate::specs::Record::write_in))]
fn check_write<'a>(
    alloc: Global,
    geometry: &Geometry,
    fields: &Fields<'a>,
) -> Result<(), RowReason<'a>>
    ensures { Tells result (write_in geometry.now (texts_of fields.now)) }
{
    let page = number_in(3, fields.number)?;
    let offset = number_in(4, fields.offset)?;
    let _lsn = number_in(6, fields.lsn)?;
    match bytes_in(alloc, fields.bytes) {
        Ok(bytes) => check_place(geometry, page, offset, &bytes),
        Err(reason) => Err(reason),
    }
}

#[tactic(auto, unfolding(crate::specs::Record::step_in))]
fn check_step<'a>(
    alloc: Global,
    geometry: &Geometry,
    op: Op,
    fields: &Fields<'a>,
) -> Result<(), RowReason<'a>>
    ensures { Tells result (step_in geometry.now op (texts_of fields.now)) }
{
    match op {
        Op::Fix | Op::Unfix | Op::Read | Op::Flush | Op::Discard => {
            check_page_in(geometry, fields.number)
        }
        Op::Write => check_write(alloc, geometry, fields),
        Op::Tick | Op::Log => {
            let _number = number_in(3, fields.number)?;
            Ok(())
        }
        Op::Purge => Ok(()),
    }
}

/// Returns the op of a word, or why there is none.
fn op_in<'a>(text: &'a [u8]) -> Result<Op, RowReason<'a>>
    ensures tells { Tells result (spec_record.op_in text.now) }
    ensures value { IfOk result (λ op. spec_record.op_in text.now ≡ Ok op) }
{
    match parse_op(text) {
        Ok(op) => Ok(op),
        Err(_) => Err(RowReason::Op { text: Shown(text) }),
    }
}

/// Returns a field that is not empty though the op does not use it, where there is one.
fn extra_field<'a>(op: Op, fields: &Fields<'a>) -> (usize, &'a [u8]) {
    if matches!(op, Op::Purge) && !fields.number.is_empty() {
        (3, fields.number)
    } else if !fields.offset.is_empty() {
        (4, fields.offset)
    } else if !fields.bytes.is_empty() {
        (5, fields.bytes)
    } else {
        (6, fields.lsn)
    }
}

#[tactic(auto, unfolding(crate::specs::Record::texts_row))]
fn check_fields<'a>(
    alloc: Global,
    geometry: &Geometry,
    row: u64,
    fields: &Fields<'a>,
) -> Result<(), RowReason<'a>>
    ensures { Tells result (texts_row geometry.now row (texts_of fields.now)) }
{
    let client = client_in(row, fields.client)?;
    let op = op_in(fields.op)?;
    if is_log(op) && client != 0 {
        return Err(RowReason::LogClient { client });
    }
    if has_extra(op, fields) {
        let (field, text) = extra_field(op, fields);
        return Err(RowReason::NotEmpty {
            field,
            text: Shown(text),
        });
    }
    check_step(alloc, geometry, op, fields)
}

/// Looks whether a record says a row, and returns in words why not, if it does not. It is `OutOfMemory` where memory is
/// refused.
#[tactic(auto, unfolding(crate::specs::Record::row_in))]
pub fn check_record<'a>(
    alloc: Global,
    geometry: &Geometry,
    row: u64,
    raw: &'a ByteRecord,
) -> Result<(), RowReason<'a>>
    ensures { Tells result (row_in geometry.now row (fields_of raw.now)) }
{
    match six_fields(raw) {
        Some(fields) => check_fields(alloc, geometry, row, &fields),
        None => Err(RowReason::FieldCount { found: raw.len() }),
    }
}

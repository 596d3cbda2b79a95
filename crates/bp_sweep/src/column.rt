//! `read_column`, which reads references from a column of CSV records.
ghost use Rattle.std.specs.Prelude.{◌≡◌, ◌&&◌, nat_eq, true, option_map, IfErr, IfOk, IfSome};
ghost use Rattle.csv.specs.Reading.{ReadRecord, Ready, error_kind, reader_trim, took_first};
ghost use Rattle.csv.specs.Records.{fields_of};
ghost use Rattle.csv.specs.declared.reader.Trim.TheVariants as trim;
ghost use Rattle.bp_sweep.specs.Column.{ReadsColumn, TakesRecord, field_in, is_numeral, is_title};
ghost use Rattle.bp_sweep.specs.Column.{record_said, without_sign};
ghost use Rattle.bp_sweep.specs.References.{IsOutside};

use crate::dense::{Gathered, MAX_REFERENCES, References};
use crate::faults::ReferenceFault;
use crate::retried::Retried;
use bp_trace::InputFault;
use bp_trace::decimal::parse_number;
use csv::{ByteRecord, ErrorKind, Reader, ReaderBuilder};
use std::alloc::Global;
use std::io::Read;

/// Returns the field of a record in a column, counted from 1.
fn field_in(row: &ByteRecord, column: u32) -> Option<&[u8]>
    ensures { option_map (λ field. field.now) result ≡ field_in column (fields_of row.now) }
{
    if column == 0 {
        return None;
    }
    row.get(column as usize - 1)
}

/// Returns the number in a column of a record, or why there is none.
fn record_said(row: &ByteRecord, column: u32) -> Result<u64, InputFault>
    ensures { result ≡ record_said column (fields_of row.now) }
{
    match field_in(row, column) {
        None => Err(InputFault::BadShape),
        Some(field) => parse_number(field).ok_or(InputFault::BadNumber),
    }
}

/// Returns a field without its sign.
fn without_sign(field: &[u8]) -> &[u8]
    ensures { result.now ≡ without_sign field.now }
{
    match field.split_first() {
        Some((first, digits)) if *first == b'+' || *first == b'-' => digits,
        _ => field,
    }
}

/// Returns true for decimal digits of any value, with or without a sign before them.
fn is_numeral(field: &[u8]) -> bool
    ensures { result ≡ is_numeral field.now }
{
    let digits = without_sign(field);
    !digits.is_empty() && digits.iter().all(|byte| byte.is_ascii_digit())
}

/// Returns true for the first record if its field in the column is not a numeral.
fn is_header(line: u64, row: &ByteRecord, column: u32) -> bool
    ensures { result ≡ (nat_eq line 1 && is_title (field_in column (fields_of row.now))) }
{
    line == 1
        && match field_in(row, column) {
            Some(field) => !is_numeral(field),
            None => false,
        }
}

/// Reads the next record into `row`, and returns what its column says. It returns None at the end.
fn next_record<R: Read>(
    records: &mut Reader<R>,
    row: &mut ByteRecord,
    column: u32,
    line: u64,
) -> Result<Option<Result<u64, InputFault>>, ReferenceFault>
    ensures taken { IfOk result (λ found. reader_trim records.old ≡ trim.None → Ready records.old →
        TakesRecord R.remaining records.old records.new column (fields_of row.new) found) }
    ensures ready { reader_trim records.old ≡ trim.None → IfOk result
        (λ _. took_first records.new ≡ true) }
    ensures fault { IfErr result IsOutside }
{
    match records.read_byte_record(row) {
        Ok(false) => Ok(None),
        Ok(true) => Ok(Some(record_said(row, column))),
        Err(error) => match error.into_kind() {
            ErrorKind::OutOfMemory => Err(ReferenceFault::new(line, InputFault::OutOfMemory)),
            _ => Err(ReferenceFault::new(line, InputFault::ReadFault)),
        },
    }
}

/// Reads as `read_column` does, except that an interrupted read is a fault of the reader.
fn read_records<R: Read + Drop>(
    alloc: Global,
    reader: R,
    column: u32,
) -> Result<References, ReferenceFault>
    ensures { IfSome (R.remaining reader) (ReadsColumn result column) }
{
    let mut records = ReaderBuilder::new()
        .has_headers(false)
        .flexible(true)
        .from_reader(alloc, reader);
    let mut row = ByteRecord::new(alloc);
    let mut gathered = Gathered::new(alloc);
    for line in 1..MAX_REFERENCES as u64 + 3 {
        match next_record(&mut records, &mut row, column, line)? {
            None => return Ok(gathered.into_references()),
            Some(said) => {
                if !is_header(line, &row, column) {
                    gathered.add(line, said)?;
                }
            }
        }
    }
    unreachable!()
}

/// Reads references from CSV records: each is the number in this column, counted from 1, in decimal digits alone, up to
/// 2^62. Fields are separated by commas and may be quoted, and records may differ in length. Empty lines between
/// records, a byte order mark and a header are skipped. A header is a first record that has the column with no numeral
/// in it; a numeral is decimal digits of any value, with or without a sign before them.
///
/// A record without the column is `BadShape`, as is any record for column 0. A field that is no number is `BadNumber`,
/// where the record is no header. The record with the 1,048,577th different number is `TooManyPages`, and the one after
/// 268,435,456 references `TooLong`, whatever it says. A fault of the reader is `ReadFault`, and refused memory
/// `OutOfMemory`. Each fault has the number of its record, from 1, where a header counts. An interrupted read is made
/// again.
pub fn read_column<R: Read + Drop>(
    alloc: Global,
    reader: R,
    column: u32,
) -> Result<References, ReferenceFault>
    ensures { IfSome (R.remaining reader) (ReadsColumn result column) }
{
    read_records(alloc, Retried::new(reader), column)
}

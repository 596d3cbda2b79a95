//! `read_script_into` and `read_script`, which read a trace whole and parse its rows.
ghost use Rattle.std.specs.Prelude.{◌≡◌, ◌≤◌, ◌⊎◌, ℕ, List, [], Some, All, IfOk, IfSome, OnOk, length};
ghost use Rattle.std.specs.Io.KnownBytes.{IsAtEnd};
ghost use Rattle.csv.specs.Reading.{Ready, default_config, error_kind, reader_trim, records, strip_bom};
ghost use Rattle.csv.specs.declared.reader.Trim.TheVariants as trim;
ghost use Rattle.bp_trace.specs.InRange.{AreNumberedFrom, IsInRange};
ghost use Rattle.bp_trace.specs.Reading.{HasRead, Leaves};
ghost use Rattle.bp_trace.specs.Script.{Answers, IsScriptOfSome, fault, fault_at, fault_of_kind, most_rows, script_from, script_of};

use crate::faults::{InputFault, TraceFault};
use crate::input::read_all;
use crate::record::parse_row;
use bp_page::Geometry;
use bp_scripts::Row;
use csv::{ByteRecord, Error, ErrorKind, Reader, ReaderBuilder};
use std::alloc::Global;
use std::io::Read;

const MAX_ROWS: u64 = 262_144;

/// Returns the fault of a record that could not be read: memory was refused, or the reader failed.
fn fault_of(error: Error) -> TraceFault
    ensures { result ≡ fault 0 (fault_of_kind (error_kind error)) }
{
    match error.into_kind() {
        ErrorKind::OutOfMemory => TraceFault::new(0, InputFault::OutOfMemory),
        _ => TraceFault::new(0, InputFault::ReadFault),
    }
}

/// Returns the fault of a record. `OutOfMemory` has row 0.
fn fault_at(row: u64, why: InputFault) -> TraceFault
    ensures { result ≡ fault_at row why }
{
    match why {
        InputFault::OutOfMemory => TraceFault::new(0, why),
        _ => TraceFault::new(row, why),
    }
}

/// Reads the records that a reader has left into an empty list, as rows numbered from 1, up to the first fault. It owns
/// nothing that an exit must drop, so its proof is short.
fn read_rows(
    alloc: Global,
    geometry: &Geometry,
    reader: &mut Reader<&[u8]>,
    record: &mut ByteRecord,
    rows: &mut Vec<Row>,
) -> Result<(), TraceFault>
    requires trim { reader_trim reader.old ≡ trim.None }
    requires ready { Ready reader.old }
    requires empty { rows.old.items ≡ [] }
    ensures { (left : List (List (List ℕ))) → Leaves (λ source. Some source.now) reader.old left →
        HasRead result rows.new.items (script_from geometry.now 1 left) }
{
    for number in 1..MAX_ROWS + 1 {
        let found = match reader.read_byte_record(record) {
            Ok(found) => found,
            Err(e) => return Err(fault_of(e)),
        };
        if !found {
            return Ok(());
        }
        let row = match parse_row(alloc, geometry, number, record) {
            Ok(row) => row,
            Err(why) => return Err(fault_at(number, why)),
        };
        if rows.push(row).is_err() {
            return Err(TraceFault::new(0, InputFault::OutOfMemory));
        }
    }
    let more = match reader.read_byte_record(record) {
        Ok(more) => more,
        Err(e) => return Err(fault_of(e)),
    };
    if more {
        return Err(TraceFault::new(MAX_ROWS + 1, InputFault::TooLong));
    }
    Ok(())
}

fn rows_of(alloc: Global, bytes: &[u8], geometry: &Geometry) -> Result<Vec<Row>, TraceFault>
    ensures { Answers result (script_from geometry.now 1
        (records default_config (strip_bom bytes.now))) }
{
    let mut reader = ReaderBuilder::new()
        .has_headers(false)
        .flexible(true)
        .from_reader(alloc, bytes);
    let mut record = ByteRecord::new(alloc);
    let mut rows = Vec::new(alloc);
    read_rows(alloc, geometry, &mut reader, &mut record, &mut rows)?;
    Ok(rows)
}

/// Reads the rows of a trace, or returns the first fault. The trace is read whole before any record is parsed.
///
/// The fault of a record has its number, from 1: `BadShape`, `BadClient`, `BadOp`, `BadNumber`, `BadHex` or
/// `OutOfPage`, or `TooLong` for the record after 262,144. Row 0 has `TooLong` for more than 67,108,864 bytes,
/// `ReadFault` for a reader that fails or needs more than 134,217,728 calls, and `OutOfMemory`.
///
/// After a fault of a record `text` has the bytes of the trace, from which `explain_fault` says what is wrong.
pub fn read_script_into<R: Read>(
    alloc: Global,
    reader: &mut R,
    geometry: &Geometry,
    text: &mut Vec<u8>,
) -> Result<Vec<Row>, TraceFault>
    ensures script { IfSome (R.remaining reader.old) (λ bytes.
        Answers result (script_of geometry.now bytes)) }
    ensures end { OnOk result (IsAtEnd (R.remaining reader.new)) }

    // The rows are those of some records, even of a reader whose bytes are not known.
    ensures some { IfOk result (λ rows. IsScriptOfSome geometry.now rows.items) }

    // These three are all that holds of every script: rows with them read back as themselves, by
    // `laws::written_rows_read_back`.
    ensures few { IfOk result (λ rows. length rows.items ≤ most_rows) }
    ensures numbered { IfOk result (λ rows. AreNumberedFrom 1 rows.items) }
    ensures in_range { IfOk result (λ rows. All (IsInRange geometry.now) rows.items) }
{
    let bytes = read_all(alloc, reader)?;
    let rows = rows_of(alloc, bytes.as_slice(), geometry);
    *text = bytes;
    rows
}

/// Reads the rows of a trace, or returns the first fault, as `read_script_into` does.
pub fn read_script<R: Read>(
    alloc: Global,
    reader: &mut R,
    geometry: &Geometry,
) -> Result<Vec<Row>, TraceFault>
    ensures script { IfSome (R.remaining reader.old) (λ bytes.
        Answers result (script_of geometry.now bytes)) }
    ensures end { OnOk result (IsAtEnd (R.remaining reader.new)) }

    // The rows are those of some records, even of a reader whose bytes are not known.
    ensures some { IfOk result (λ rows. IsScriptOfSome geometry.now rows.items) }

    // These three are all that holds of every script: rows with them read back as themselves, by
    // `laws::written_rows_read_back`.
    ensures few { IfOk result (λ rows. length rows.items ≤ most_rows) }
    ensures numbered { IfOk result (λ rows. AreNumberedFrom 1 rows.items) }
    ensures in_range { IfOk result (λ rows. All (IsInRange geometry.now) rows.items) }
{
    let mut text = Vec::new(alloc);
    read_script_into(alloc, reader, geometry, &mut text)
}

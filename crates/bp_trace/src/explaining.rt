//! `explain_fault`, which says in words what is wrong with a trace, and where.
use crate::faults::{InputFault, TraceFault};
use crate::reasons::check_record;
use bp_page::Geometry;
use csv::{ByteRecord, Position, ReaderBuilder};
use std::alloc::{AllocError, Global};

const BYTE_ORDER_MARK: [u8; 3] = [0xef, 0xbb, 0xbf];

/// Returns the text without a byte order mark at its head.
fn without_mark(text: &[u8]) -> &[u8] {
    text.strip_prefix(BYTE_ORDER_MARK.as_slice())
        .unwrap_or(text)
}

/// Reads the record with this number, from 1, into an empty one. Returns where its reader stood before it, or None
/// where there is no such record or no memory.
fn find_record(
    alloc: Global,
    text: &[u8],
    number: u64,
    record: &mut ByteRecord,
) -> Option<Position> {
    let mut records = ReaderBuilder::new()
        .has_headers(false)
        .flexible(true)
        .from_reader(alloc, text);
    for _ in 0..number {
        match records.read_byte_record(record) {
            Ok(true) => {}
            _ => return None,
        }
    }
    record.position()
}

/// Returns the line of the first byte from `start` on that ends no line, from 1.
fn line_from(text: &[u8], start: usize) -> u64 {
    let mut line = 1_u64;
    let mut last = 0;
    for (place, byte) in text.iter().enumerate() {
        if place >= start && *byte != b'\n' && *byte != b'\r' {
            return line;
        }
        if *byte == b'\r' || *byte == b'\n' && last != b'\r' {
            line = line.saturating_add(1);
        }
        last = *byte;
    }
    line
}

/// Says in words what is wrong with a row of a trace, and on which line.
fn explain_row(
    alloc: Global,
    source: &str,
    text: &[u8],
    geometry: &Geometry,
    fault: TraceFault,
) -> Result<String, AllocError> {
    let text = without_mark(text);
    let mut record = ByteRecord::new(alloc);
    let Some(position) = find_record(alloc, text, fault.row, &mut record) else {
        return format!(in alloc; "{source}, row {}", fault.row);
    };
    let line = line_from(text, position.byte() as usize);
    if fault.number == InputFault::TooLong.number() {
        return format!(in alloc; "{source}, line {line}: a trace has at most 262144 rows");
    }
    match check_record(alloc, geometry, fault.row, &record) {
        Ok(()) => format!(in alloc; "{source}, line {line}"),
        Err(reason) => format!(in alloc; "{source}, line {line}: {reason}"),
    }
}

/// Says in words, as one text, what is wrong with a trace whose bytes are these, and where. `source` names the trace.
/// The fault is that of `read_script`.
pub fn explain_fault(
    alloc: Global,
    source: &str,
    text: &[u8],
    geometry: &Geometry,
    fault: TraceFault,
) -> Result<String, AllocError> {
    if fault.row > 0 {
        return explain_row(alloc, source, text, geometry, fault);
    }
    if fault.number == InputFault::TooLong.number() {
        return format!(in alloc; "{source}: a trace has at most 67108864 bytes");
    }
    if fault.number == InputFault::OutOfMemory.number() {
        return format!(in alloc; "out of memory");
    }
    format!(in alloc; "{source}: it could not be read")
}

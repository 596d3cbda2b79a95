//! Traces that come in pieces, are cut at each byte, or fail at each call of their reader.
use crate::io::rows::{AHEAD, rows_of_the_rule, sixteen_pages};
use bp_scripts::Row;
use bp_trace::{TraceFault, read_script};
use std::io;
use std::io::{ErrorKind, Read};
use std::process::Abort;

/// A reader that gives its bytes in pieces. From the call `fails_at`, counted from 1, `fails_for` calls fail.
#[derive(Drop)]
struct Pieces<'a> {
    bytes: &'a [u8],
    most: usize,
    calls: usize,
    fails_at: usize,
    fails_for: usize,
    kind: ErrorKind,
}

impl Read for Pieces<'_> {
    fn read(&mut self, buf: &mut [u8]) -> io::Result<usize> {
        self.calls = self.calls.saturating_add(1);
        if self.fails_at <= self.calls && self.calls - self.fails_at < self.fails_for {
            return Err(io::Error::from(self.kind));
        }
        let count = self.most.min(self.bytes.len()).min(buf.len());
        let (front, rest) = self.bytes.split_at(count);
        buf[..count].copy_from_slice(front);
        self.bytes = rest;
        Ok(count)
    }
}

impl<'a> Pieces<'a> {
    /// A reader of at most so many bytes a call.
    fn of(bytes: &'a [u8], most: usize) -> Pieces<'a> {
        Pieces {
            bytes,
            most,
            calls: 0,
            fails_at: 1,
            fails_for: 0,
            kind: ErrorKind::Other,
        }
    }

    /// Makes so many calls fail, from this one on.
    fn failing(self, fails_at: usize, fails_for: usize, kind: ErrorKind) -> Pieces<'a> {
        Pieces {
            bytes: self.bytes,
            most: self.most,
            calls: 0,
            fails_at,
            fails_for,
            kind,
        }
    }
}

/// The length of each record, without the end of its line.
const LENGTHS: [usize; 13] = [10, 16, 12, 10, 11, 10, 10, 10, 12, 11, 10, 11, 12];

/// The rest of a trace that is cut: its whole records, and why the next one is refused, if there is one.
#[derive(Clone, Copy, Drop)]
struct Left {
    rows: usize,
    refused: Option<u16>,
}

/// Returns the rest of the trace after so many bytes. A record that lacks only the end of its line is whole. Any other
/// one lacks a field, except for the second: it is a write, whose LSN comes after its last comma.
fn left_of(kept: usize) -> Left {
    let mut rest = kept;
    let mut rows = 0usize;
    for length in LENGTHS {
        if rest == 0 {
            break;
        }
        if rest < length {
            let number = if rows == 1 && rest == 15 { 43 } else { 40 };
            return Left {
                rows,
                refused: Some(number),
            };
        }
        rest = rest.saturating_sub(length).saturating_sub(1);
        rows = rows.saturating_add(1);
    }
    Left {
        rows,
        refused: None,
    }
}

/// Asserts the rest of the trace after so many bytes, which come in pieces of at most `most`.
fn expect_left<R: Abort + AllocGlobal>(rt: &R, rows: &[Row], kept: usize, most: usize) {
    let left = left_of(kept);
    let bytes = AHEAD.get(..kept).expect(rt, "the bytes");
    let got = read_script(rt.alloc(), &mut Pieces::of(bytes, most), &sixteen_pages(rt));
    let wanted = left.refused.map(|number| TraceFault {
        row: (left.rows as u64).saturating_add(1),
        number,
    });
    match &got {
        Ok(script) => {
            let whole = rows.get(..left.rows).expect(rt, "the rows");
            assert_eq!(rt; wanted, None, "{kept} bytes in pieces of {most}");
            assert_eq!(rt;
                script.as_slice(),
                whole,
                "{kept} bytes in pieces of {most}"
            );
        }
        Err(fault) => assert_eq!(rt; Some(*fault), wanted, "{kept} bytes in pieces of {most}"),
    }
}

/// A trace that is cut at any byte has its whole records, or is refused at the next one.
#[test]
fn write_ahead_rule_cut_at_each_byte(rt: HostRuntime) {
    assert_eq!(rt; AHEAD.len(), 158);
    let rows = rows_of_the_rule(&rt);
    for most in [1, 7, 8192] {
        for kept in 0..159 {
            expect_left(&rt, &rows, kept, most);
        }
    }
}

/// Returns the number of rows that a reader gives, or the fault.
fn count_rows<R: Abort + AllocGlobal>(rt: &R, mut reader: Pieces<'_>) -> Result<usize, TraceFault> {
    match read_script(rt.alloc(), &mut reader, &sixteen_pages(rt)) {
        Ok(rows) => Ok(rows.len()),
        Err(fault) => Err(fault),
    }
}

const FAULT: TraceFault = TraceFault { row: 0, number: 47 };

// A reader that fails at any call is `ReadFault`. 158 bytes in pieces of 7 are 22 whole ones and a last one of 4; one
// more call finds the end.
#[test]
fn failing_readers(rt: HostRuntime) {
    for (most, calls) in [(1, 159usize), (7, 24), (8192, 2)] {
        for call in 1..calls.saturating_add(2) {
            let reader = Pieces::of(AHEAD, most).failing(call, 1, ErrorKind::BrokenPipe);
            let wanted = if call <= calls { Err(FAULT) } else { Ok(13) };
            assert_eq!(rt;
                count_rows(&rt, reader),
                wanted,
                "at call {call} in pieces of {most}"
            );
        }
    }
    // A fault of the reader comes before any record is parsed.
    let reader = Pieces::of(b"0,FIX,1,,,\n", 11).failing(2, 1, ErrorKind::BrokenPipe);
    assert_eq!(rt; count_rows(&rt, reader), Err(FAULT));
}

/// The most calls for a trace. A read that is interrupted is made again until there are so many.
const MOST_CALLS: usize = 134_217_728;

#[test]
fn interrupted_readers(rt: HostRuntime) {
    for call in 1..26 {
        let reader = Pieces::of(AHEAD, 7).failing(call, 3, ErrorKind::Interrupted);
        assert_eq!(rt; count_rows(&rt, reader), Ok(13), "at call {call}");
    }
    // One call gets the bytes, and the last one finds the end. With one more interruption there is no call for the end.
    for (interrupted, wanted) in [(MOST_CALLS - 2, Ok(13)), (MOST_CALLS - 1, Err(FAULT))] {
        let reader = Pieces::of(AHEAD, 158).failing(2, interrupted, ErrorKind::Interrupted);
        assert_eq!(rt; count_rows(&rt, reader), wanted);
    }
}

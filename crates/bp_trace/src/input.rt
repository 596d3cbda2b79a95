//! `read_all`, which reads the bytes of a trace into memory.
ghost use Rattle.std.specs.Prelude.{IfSome, OnOk};
ghost use Rattle.std.specs.Io.KnownBytes.{IsAtEnd};
ghost use Rattle.bp_trace.specs.Input.{IsInput};

use crate::faults::{InputFault, TraceFault};
use std::alloc::Global;
use std::io::{ErrorKind, Read};

const MAX_BYTES: usize = 67_108_864;

const MAX_READS: u32 = 134_217_728;

const CHUNK: usize = 8192;

/// Reads all bytes of a reader into memory, with at most 134,217,728 read calls. A call that was interrupted is made
/// again.
///
/// It returns `TooLong` for more than 67,108,864 bytes, `ReadFault` where the reader fails or needs more calls, and
/// `OutOfMemory` where memory is refused, each with row 0.
pub fn read_all<R: Read>(alloc: Global, reader: &mut R) -> Result<Vec<u8>, TraceFault>
    ensures bytes { IfSome (R.remaining reader.old) (IsInput result) }
    ensures end { OnOk result (IsAtEnd (R.remaining reader.new)) }
{
    let mut input = Vec::new(alloc);
    let mut chunk = [0u8; CHUNK];
    'reads: for _ in 0..MAX_READS {
        let count = match reader.read(&mut chunk) {
            Ok(count) => count,
            Err(e) if e.kind() == ErrorKind::Interrupted => continue,
            Err(_) => return Err(TraceFault::new(0, InputFault::ReadFault)),
        };
        if count == 0 {
            return Ok(input);
        }
        if MAX_BYTES - input.len() < count {
            return Err(TraceFault::new(0, InputFault::TooLong));
        }
        let (read, _) = chunk.split_at(count);
        if input.extend_from_slice(read).is_err() {
            return Err(TraceFault::new(0, InputFault::OutOfMemory));
        }
    }
    Err(TraceFault::new(0, InputFault::ReadFault))
}

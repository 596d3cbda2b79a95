//! Buffers for reads of bytes of a page into a slice.
ghost use Rattle.std.specs.Prelude.{◌+◌, ◌≤◌, IfSome, length};

use bp_page::{Geometry, Refusal};
use scenario_words::Answer;
use std::alloc::Global;

/// The offset of a read, and the memory for its bytes.
#[derive(Drop)]
pub struct Span {
    pub offset: u32,
    pub into: Vec<u8>,
}

/// Makes a buffer for so many bytes from an offset on. It returns None where they do not lie within a page, or memory
/// is refused.
pub fn span_of(alloc: Global, geometry: &Geometry, offset: u64, count: u64) -> Option<Span>
    ensures { IfSome result (λ span. span.offset + length span.into.items ≤ geometry.now.size) }
{
    if !geometry.fits(offset as usize, count as usize) {
        return None;
    }
    // Filled with 255, so that a read which copied nothing does not answer zeros.
    match (u32::try_from(offset), vec![in alloc; 255; count as usize]) {
        (Ok(offset), Ok(into)) => Some(Span { offset, into }),
        _ => None,
    }
}

/// Returns the answer of a read of bytes.
pub fn bytes_read(read: Result<(), Refusal>, span: Span) -> Answer {
    match read {
        Ok(()) => Answer::Bytes(span.into),
        Err(refusal) => Answer::Refused(refusal),
    }
}

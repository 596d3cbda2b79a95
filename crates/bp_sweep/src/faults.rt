//! `ReferenceFault`, why a list of references could not be read.
ghost use Rattle.std.specs.Prelude.{◌≡◌};

use bp_trace::InputFault;
use thiserror::Error;

/// A fault of a list of references, with the line, or in CSV the record, that was being read.
#[derive(Clone, Copy, PartialEq, Eq, Debug, Error)]
#[error("line {line}: {why}")]
pub struct ReferenceFault {
    /// The number of the line or the record, from 1.
    pub line: u64,
    pub why: InputFault,
}

impl ReferenceFault {
    pub fn new(line: u64, why: InputFault) -> ReferenceFault
        ensures line { result.line ≡ line }
        ensures why { result.why ≡ why }
    {
        ReferenceFault { line, why }
    }
}

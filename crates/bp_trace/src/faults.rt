//! `InputFault`, what is wrong with a trace or a list of references, and `TraceFault`, which adds the row.
ghost use Rattle.std.specs.Prelude.{◌≡◌};
ghost use Rattle.bp_trace.specs.Faults.{fault_number};
ghost use Rattle.bp_trace.specs.Script.{fault};

use bp_page::explanation_of;
use std::alloc::AllocError;
use std::error::Error;
use std::fmt;

/// What is wrong with a trace or a list of references: with one record or line, or with the whole. It is printed as its
/// number is explained, except that `TooManyPages` says what alone it stands for.
#[derive(Clone, Copy, PartialEq, Eq, Debug)]
pub enum InputFault {
    /// The references are of more than 1,048,576 different pages.
    TooManyPages,
    /// Memory was refused.
    OutOfMemory,
    /// The record does not have six fields, or a field that its operation does not use is not empty. In a list of
    /// references: the record lacks the field.
    BadShape,
    /// The client is not a number from 0 to 63, or in a `log` row not 0.
    BadClient,
    /// No operation has this word.
    BadOp,
    /// A page, offset, LSN, number of ticks or reference is not a decimal number within its limits.
    BadNumber,
    /// The number of hex digits is odd, or one of them is not 0 to 9, a to f or A to F.
    BadHex,
    /// The file has no such page, or the last byte would be past the end of the page.
    OutOfPage,
    /// The trace has more than 262,144 rows or 67,108,864 bytes, or the list more than 268,435,456 references.
    TooLong,
    /// A read of the trace or of the list failed.
    ReadFault,
}

impl fmt::Display for InputFault {
    fn fmt<W: fmt::Write>(&self, f: &mut fmt::Formatter<W>) -> fmt::Result {
        match self {
            InputFault::TooManyPages => {
                f.write_str("the references are of too many different pages")
            }
            other => f.write_str(explanation_of(u64::from(other.number())).unwrap()),
        }
    }
}

impl Error for InputFault {}

impl From<AllocError> for InputFault {
    ghost use Rattle.bp_trace.specs.declared.faults.InputFault.TheVariants.{OutOfMemory};

    ghost from_gives = { λ _ fault. fault ≡ OutOfMemory };

    fn from(_error: AllocError) -> InputFault {
        InputFault::OutOfMemory
    }
}

impl InputFault {
    /// Returns the number that reports and messages print. A fault that `Refusal` has too has the same number there.
    pub fn number(self) -> u16
        ensures { result ≡ fault_number self }
    {
        match self {
            InputFault::TooManyPages => 1,
            InputFault::OutOfMemory => 22,
            InputFault::BadShape => 40,
            InputFault::BadClient => 41,
            InputFault::BadOp => 42,
            InputFault::BadNumber => 43,
            InputFault::BadHex => 44,
            InputFault::OutOfPage => 45,
            InputFault::TooLong => 46,
            InputFault::ReadFault => 47,
        }
    }
}

/// Why a trace has no script: the number of the fault, and the record with the fault.
#[derive(Clone, Copy, PartialEq, Eq, Debug, thiserror::Error)]
#[error("trace row {row} refused {number}")]
pub struct TraceFault {
    /// The number of the record, from 1, or 0 for the trace as a whole.
    pub row: u64,
    /// The number of the fault: 22, or 40 to 47.
    pub number: u16,
}

impl TraceFault {
    pub fn new(row: u64, why: InputFault) -> TraceFault
        ensures { result ≡ fault row why }
    {
        TraceFault {
            row,
            number: why.number(),
        }
    }
}

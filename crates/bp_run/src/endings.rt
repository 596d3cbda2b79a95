//! Stops of the program with their reasons in words.
ghost use Rattle.std.specs.Prelude.{◌≡◌};
ghost use Rattle.bp_run.specs.Sweep.{no_references};

use bp_cli::{Ending, Stop, SystemFault};
use bp_page::Geometry;
use bp_sweep::ReferenceFault;
use bp_trace::{InputFault, TraceFault, explain_fault};
use std::alloc::Global;
use std::io;
use thiserror::Error;

/// How messages name standard input.
pub(crate) const STANDARD_INPUT: &str = "standard input";

/// Standard output took not all.
pub(crate) fn output_failed(alloc: Global, error: io::Error) -> Stop
    ensures { result.ending ≡ Ending.OutputFailed }
{
    Stop::output_failed(alloc, "standard output", error)
}

/// The trace that `source` names, whose bytes are `text`, has this fault. Its reader had this error last.
pub(crate) fn trace_refused(
    alloc: Global,
    source: &str,
    text: &[u8],
    geometry: &Geometry,
    fault: TraceFault,
    error: Option<io::Error>,
) -> Stop
    ensures { result.ending ≡ Ending.TraceRefused fault }
{
    let ending = Ending::TraceRefused(fault);
    if fault.number == InputFault::ReadFault.number() {
        if let Some(error) = error {
            let name = source;
            return Stop::because(alloc, ending, &SystemFault { name, error });
        }
    }
    match explain_fault(alloc, source, text, geometry, fault) {
        Ok(why) => Stop::because(alloc, ending, &why),
        Err(_) => Stop::from(ending),
    }
}

/// A list of references, as messages name it.
#[derive(Clone, Copy)]
pub(crate) struct ListSource<'a> {
    pub(crate) name: &'a str,
    /// Which field of a record has the number, where the list is CSV.
    pub(crate) column: Option<usize>,
}

/// Why a list has no references, in words.
#[derive(Clone, Copy, PartialEq, Eq, Debug, Error)]
enum ListReason {
    #[error("not a number from 0 to 2^62")]
    Number,
    #[error("no field {column}")]
    NoField { column: usize },
    #[error("a list has at most 1048576 different numbers")]
    TooManyPages,
    #[error("a list has at most 268435456 references")]
    TooLong,
    #[error("{0}")]
    Other(InputFault),
}

impl ListReason {
    fn of(why: InputFault, column: Option<usize>) -> ListReason {
        match (why, column) {
            (InputFault::BadNumber, _) => ListReason::Number,
            (InputFault::BadShape, Some(column)) => ListReason::NoField { column },
            (InputFault::TooManyPages, _) => ListReason::TooManyPages,
            (InputFault::TooLong, _) => ListReason::TooLong,
            (why, _) => ListReason::Other(why),
        }
    }
}

/// The list of references has this fault. Its reader had this error last.
pub(crate) fn references_refused(
    alloc: Global,
    source: ListSource<'_>,
    fault: ReferenceFault,
    error: Option<io::Error>,
) -> Stop
    ensures { result.ending ≡ no_references fault }
{
    let ReferenceFault { line, why } = fault;
    let ListSource { name, column } = source;
    let ending = Ending::ReferenceRefused { line, why };
    if why == InputFault::ReadFault {
        if let Some(error) = error {
            return Stop::because(alloc, ending, &SystemFault { name, error });
        }
    }
    let unit = if column.is_some() { "record" } else { "line" };
    let reason = ListReason::of(why, column);
    match format!(in alloc; "{name}, {unit} {line}: {reason}") {
        Ok(text) => Stop::because(alloc, ending, &text),
        Err(_) => Stop::from(ending),
    }
}

//! `Finding`: why a soak failed.

use thiserror::Error;

#[derive(Clone, Copy, Debug, Drop, Error)]
pub(crate) enum Finding {
    #[error("entry {0}, from 0, is not lawful")]
    Unlawful(u64),
    #[error("the judge had no memory")]
    NoMemory,
    #[error("the judge was told 2^64 entries")]
    TooMany,
    #[error("no clock told the time")]
    NoClock,
    #[error("a client was answered a failure that its port did not have")]
    NoFailure,
    #[error("a client held a pass at the end")]
    Held,
    #[error("the clients' refusals are not those of the trail")]
    NotInTrail,
    #[error("the clients' lists have not as many entries as the trail")]
    NotInLists,
    #[error("a client was told that the trail was full, and it never was")]
    NotFull,
    #[error("entries were left that nobody judged")]
    Unjudged,
    #[error("the memory grew")]
    Grew,
}

/// Returns the finding unless it holds.
pub(crate) fn ensure(holds: bool, finding: Finding) -> Result<(), Finding> {
    if holds { Ok(()) } else { Err(finding) }
}

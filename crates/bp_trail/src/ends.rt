//! `Ended`, `Flushed`, `NotFlushed` and `Discarded`: the results of write-outs, flushes and discards; and how the end of
//! a read that failed is refused.
ghost use Rattle.std.specs.Prelude.{◌≡◌};
ghost use Rattle.bp_trail.specs.Ends.{read_refusal, read_failure, ended_reply, flushed_reply, discarded_reply};

use crate::entries::Reply;
use bp_page::{PageNo, PortFault, Refusal};
use thiserror::Error;

/// The result of a write-out that ended well.
#[derive(Clone, Copy, Drop)]
pub enum Ended {
    /// The page is saved.
    Cleaned,
    /// The page was written since the write-out began, and is unsaved still.
    StillDirty,
}

impl Ended {
    /// Returns the reply in the entry of that end.
    pub fn reply(self) -> Reply
        ensures { result ≡ ended_reply self }
    {
        match self {
            Ended::Cleaned => Reply::Cleaned,
            Ended::StillDirty => Reply::StillDirty,
        }
    }

    /// Returns the result of a flush whose write-out ended so.
    pub fn flushed(self) -> Flushed
        ensures { flushed_reply result ≡ ended_reply self }
    {
        match self {
            Ended::Cleaned => Flushed::Cleaned,
            Ended::StillDirty => Flushed::StillDirty,
        }
    }
}

/// How a flush left the page: saved before, in no frame, saved by it, or unsaved again.
#[derive(Clone, Copy, PartialEq, Eq, Debug, Drop)]
pub enum Flushed {
    /// No write of the page was left to save.
    Clean,
    /// The page is not resident.
    Absent,
    /// The page was written out, and is saved.
    Cleaned,
    /// The page was written out, and was written to meanwhile.
    StillDirty,
}

/// The page at which a flush of all pages ended, and why it was refused.
#[derive(Clone, Copy, PartialEq, Eq, Debug, Error, Drop)]
#[error("page {page} was not flushed: {why}")]
pub struct NotFlushed {
    pub page: PageNo,
    pub why: Refusal,
}

/// Where a discard found the page. Its references are forgotten in both cases.
#[derive(Clone, Copy, PartialEq, Eq, Debug, Drop)]
pub enum Discarded {
    /// The page has left its frame.
    Left,
    /// The page was not resident.
    Absent,
}

impl Discarded {
    /// Returns the reply in the entry of that discard.
    pub fn reply(self) -> Reply
        ensures { result ≡ discarded_reply self }
    {
        match self {
            Discarded::Left => Reply::Discarded,
            Discarded::Absent => Reply::Absent,
        }
    }
}

/// Returns the refusal of a read that failed so: `WrongPage` where another page was found, and else `ReadFailed`.
pub fn refusal_of_read(fault: PortFault) -> Refusal
    ensures { result ≡ read_refusal fault }
{
    match fault {
        PortFault::WrongPage => Refusal::WrongPage,
        PortFault::Device | PortFault::Memory => Refusal::ReadFailed,
    }
}

/// Returns the reply in the entry of the end of a read that failed so.
pub fn reply_of_read(fault: PortFault) -> Reply
    ensures { result ≡ read_failure fault }
{
    match fault {
        PortFault::WrongPage => Reply::WrongPage,
        PortFault::Device | PortFault::Memory => Reply::ReadFailed,
    }
}

//! `Refusal`, why a call is refused, with its number; and `PortFault`, why a device operation failed.
ghost use Rattle.std.specs.Prelude.{◌≡◌};
ghost use Rattle.bp_page.specs.Refusals.{needed_by, number_of};

use crate::explained::explanation_of;
use crate::numbers::Lsn;
use std::alloc::AllocError;
use std::error::Error;
use std::fmt;

/// Why a call was refused. The comment of the call says what holds afterwards. It is printed as its number is
/// explained, except that `NeedLog` names its LSN, and `BadGeometry` no references.
#[derive(Clone, Copy, PartialEq, Eq, Debug)]
pub enum Refusal {
    /// The file has no page or more than 1,048,576, or the bytes of a page are no multiple of 16 from 16 to 65,536.
    BadGeometry,
    /// K, a period, the frames, the clients or the room of the trail are out of their limits.
    BadSettings,
    /// The bytes of a page file are no whole number of pages from 1 to 1,048,576.
    BadLength,
    /// No frame is free, and the page of each is pinned, is being read or written out, or was referenced within the
    /// correlated period.
    NoVictim,
    /// The page has a change whose log record, this LSN, lies beyond the durable mark.
    NeedLog(Lsn),
    /// A read of the page is out, or for a flush a write-out of it, even if it is the caller's own.
    Busy,
    /// The core did not give this pass, or has taken it back.
    UnknownPass,
    /// The core did not give this ticket, or its operation has ended.
    UnknownTicket,
    /// The read failed, by its device or for want of memory; the page is in no frame.
    ReadFailed,
    /// The write failed; the page is in its frame, and not saved.
    WriteFailed,
    /// The read found the number of another page; the page is in no frame.
    WrongPage,
    /// The entries left until the next cut do not suffice for the call and what it would owe.
    TrailFull,
    /// The clock would stand above 2^62, the greatest time; of a cut, more than 2^62 passes or tickets were given.
    ClockFull,
    /// The memory that the call needs could not be had.
    OutOfMemory,
    /// Each of the 32 places of the session's ring has a pass that the pool has not taken yet.
    RingFull,
    /// In a run of threads a mark came before the log rows of client 0 allow it. No call answers it: that it cannot come
    /// is proved.
    Disagree,
    /// The page that is to be discarded is pinned, even if the pass is the caller's own.
    Pinned,
    /// The core has no client with this number, or the pool's rings are for another number of clients.
    BadClient,
    /// The file has no such page, or the last byte would stand past the end of the page.
    OutOfPage,
}

impl fmt::Display for Refusal {
    fn fmt<W: fmt::Write>(&self, f: &mut fmt::Formatter<W>) -> fmt::Result {
        match self {
            Refusal::BadGeometry => {
                f.write_str("the number of pages or the page size is out of its limits")
            }
            Refusal::NeedLog(lsn) => write!(f, "the log must first be durable up to {lsn}"),
            other => f.write_str(explanation_of(u64::from(other.number())).unwrap()),
        }
    }
}

impl Error for Refusal {}

impl From<AllocError> for Refusal {
    ghost use Rattle.bp_page.specs.declared.refusals.Refusal.TheVariants.{OutOfMemory};

    ghost from_gives = { λ _ refusal. refusal ≡ OutOfMemory };

    fn from(_error: AllocError) -> Refusal {
        Refusal::OutOfMemory
    }
}

impl Refusal {
    /// Returns the number that reports and messages print.
    pub fn number(self) -> u16
        ensures { result ≡ number_of self }
    {
        match self {
            Refusal::BadGeometry => 1,
            Refusal::BadSettings => 2,
            Refusal::BadLength => 3,
            Refusal::NoVictim => 11,
            Refusal::NeedLog(_) => 12,
            Refusal::Busy => 13,
            Refusal::UnknownPass => 14,
            Refusal::UnknownTicket => 16,
            Refusal::ReadFailed => 17,
            Refusal::WriteFailed => 18,
            Refusal::WrongPage => 19,
            Refusal::TrailFull => 20,
            Refusal::ClockFull => 21,
            Refusal::OutOfMemory => 22,
            Refusal::RingFull => 23,
            Refusal::Disagree => 24,
            Refusal::Pinned => 25,
            Refusal::BadClient => 41,
            Refusal::OutOfPage => 45,
        }
    }

    /// Returns the LSN up to which the log must be durable before the call is made again: that of `NeedLog`, and else
    /// `None`.
    pub fn needed(self) -> Option<Lsn>
        ensures { result ≡ needed_by self }
    {
        match self {
            Refusal::NeedLog(lsn) => Some(lsn),
            _ => None,
        }
    }
}

/// Why a device operation failed.
#[derive(Clone, Copy, PartialEq, Eq, Debug, thiserror::Error)]
pub enum PortFault {
    /// The device failed. How much of the operation it did is not known.
    #[error("the device failed")]
    Device,
    /// The memory of a page's bytes could not be had; the device itself did not fail.
    #[error("out of memory")]
    Memory,
    /// Where the page's bytes should stand, the file has the number of another page.
    #[error("the page's place in its file has another page")]
    WrongPage,
}

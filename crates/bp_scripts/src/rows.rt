//! Scripts: what the clients of a pool ask for, row by row.

use bp_page::{Bytes, Lsn, PageNo};

/// One step of a script, which may take several calls of the core: a fix that loads has the end of its read too.
#[derive(PartialEq, Eq, Debug, Drop)]
pub struct Row {
    /// The number of the row in its trace, from 1.
    pub row: u64,
    /// The client that makes the call, from 0.
    pub client: u8,
    pub step: Step,
}

/// The call that a row makes.
#[derive(PartialEq, Eq, Debug, Drop)]
pub enum Step {
    /// Fixes the page.
    Fix(PageNo),
    /// Gives back the latest pass of the page that the client holds.
    Unfix(PageNo),
    /// Reads the page, by the latest pass of it.
    Read(PageNo),
    /// Writes to the page, by the latest pass of it.
    Write {
        page: PageNo,
        /// Where the bytes begin, in bytes from the start of the page.
        offset: u32,
        /// The bytes that stand there afterwards; they end within the page.
        bytes: Bytes,
        /// The LSN of the log record that tells the change; with 0 the page waits for no log.
        lsn: Lsn,
    },
    /// Writes the page out, if it is unsaved.
    Flush(PageNo),
    /// Has the page leave its frame without being written out, and forgets its references.
    Discard(PageNo),
    /// Moves the clock on by so many ticks.
    Tick(u64),
    /// Forgets the references of pages that are neither resident nor loading and were last referenced more than the
    /// retained period ago.
    Purge,
    /// Marks the log durable up to this LSN.
    Log(Lsn),
}

/// A row that was refused, with the number of the refusal.
#[derive(Clone, Copy, PartialEq, Eq, Debug, Drop)]
pub struct Refused {
    /// The number of the row in its trace.
    pub row: u64,
    /// The number of the refusal, as `Refusal::number` gives it.
    pub number: u16,
}

//! `PendingRead` and `PendingWrite`: a client's device work that is under way; and the results of a fix and of a flush.
ghost use Rattle.std.specs.Prelude.{◌≡◌};

use bp_core::{Pass, ReadTicket, WriteTicket};
use bp_page::{Image, Lsn, PageNo};
use std::marker::Model;

/// A read that a client's list began. It can be neither copied nor dropped, and its ticket can't be forfeited: only
/// `Book::end_read` takes it, which asks the core.
pub struct PendingRead {
    pub(crate) ticket: ReadTicket,
}

/// A write-out that a client's list began. Only `Book::end_write_out` takes it.
pub struct PendingWrite {
    pub(crate) ticket: WriteTicket,
}

impl Model for PendingRead {
    ghost use Rattle.bp_core.specs.declared.passes.ReadTicket.{ReadTicket};

    ghost Value = { ReadTicket };

    ghost view = { λ p. p.ticket };
}

impl Model for PendingWrite {
    ghost use Rattle.bp_core.specs.declared.passes.WriteTicket.{WriteTicket};

    ghost Value = { WriteTicket };

    ghost view = { λ p. p.ticket };
}

/// What `Book::ask_fix` gave: a pass, or the device work that it began, which is to be done first.
pub enum Fix {
    /// A pass of the page.
    Hit(Pass),
    /// The page is to be read. The page that left its frame for it is named; none where a frame was free.
    Load(PendingRead, Option<PageNo>),
    /// A page that is to leave its frame is to be written out first.
    WriteFirst(PendingWrite),
}

/// What `Book::ask_flush` gave: the write-out that it began, or why there is nothing to write out.
pub enum Flush {
    /// The page is saved.
    Clean,
    /// The page is in no frame.
    Absent,
    /// The page is to be written out.
    WriteFirst(PendingWrite),
}

impl PendingRead {
    pub fn page(&self) -> PageNo
        ensures { result ≡ self.now.page }
    {
        self.ticket.page()
    }
}

impl PendingWrite {
    pub fn page(&self) -> PageNo
        ensures { result ≡ self.now.page }
    {
        self.ticket.page()
    }

    pub fn image(&self) -> &Image
        ensures { result.now ≡ self.now.image }
    {
        self.ticket.image()
    }

    /// Returns the page LSN when the write-out began.
    pub fn lsn(&self) -> Lsn
        ensures { result ≡ self.now.lsn }
    {
        self.ticket.lsn()
    }
}

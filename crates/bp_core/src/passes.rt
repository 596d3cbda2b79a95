//! Passes and tickets. Each has to be spent, so it can be neither copied nor dropped.
ghost use Rattle.std.specs.Prelude.{◌≡◌};
ghost use Rattle.bp_trail.specs.Event.{grant};

use bp_page::{Image, Lsn, PageNo, Refusal};
use bp_trail::Grant;
use std::marker::Model;

/// The right to use a page that is in a frame. Its serial number is the number of passes given before it, from 0.
pub struct Pass {
    pub(crate) client: u8,
    pub(crate) page: PageNo,
    pub(crate) serial: u64,
}

/// The duty to read a page from the device. Its serial number is the number of tickets of both kinds given before it,
/// from 0.
pub struct ReadTicket {
    pub(crate) client: u8,
    pub(crate) page: PageNo,
    pub(crate) serial: u64,
}

/// The duty to write an image of a page to the device, numbered with the tickets to read.
pub struct WriteTicket {
    pub(crate) client: u8,
    pub(crate) page: PageNo,
    pub(crate) serial: u64,
    pub(crate) image: Image,
    pub(crate) lsn: Lsn,
}

/// What a pass stands for: a plain note, which may be copied and dropped. A dropped note leaves its page pinned.
#[derive(Clone, Copy)]
pub struct PassNote {
    client: u8,
    page: PageNo,
    serial: u64,
}

impl Model for PassNote {
    ghost use Rattle.bp_trail.specs.Event.{Grant, grant};

    ghost Value = { Grant };

    ghost view = { λ note. grant note.client note.page note.serial };

    ghost inverse = { λ g. record { client = g.client; page = g.page; serial = g.serial } };
}

/// What a fix gave: a pass, or a ticket for the read or the write-out that is to be done first.
pub enum Fix {
    /// The page is in a frame: the pass of it.
    Hit(Pass),
    /// The page is to be read by this ticket. The page that left its frame for it is named; none where a frame was
    /// free.
    Load(ReadTicket, Option<PageNo>),
    /// The victim is to be written out by this ticket, and then the page fixed again.
    WriteFirst(WriteTicket),
}

/// What a flush gave: a ticket to write the page out, or why there is nothing to write out.
pub enum Flush {
    /// The page is in a frame and not unsaved: nothing is to be written.
    Clean,
    /// The page is in no frame: nothing is to be written.
    Absent,
    /// The page is to be written out by this ticket.
    WriteFirst(WriteTicket),
}

/// Why the end of a device operation was refused.
pub enum EndRefusal<T, R> {
    /// No such ticket is out here: the ticket and the result of the operation come back, and nothing changed.
    Unknown(T, R),
    /// The operation failed, which is `ReadFailed`, `WrongPage` or `WriteFailed`. The ticket is spent.
    Failed(Refusal),
}

impl Pass {
    pub fn client(&self) -> u8
        ensures { result ≡ self.now.client }
    {
        self.client
    }

    pub fn page(&self) -> PageNo
        ensures { result ≡ self.now.page }
    {
        self.page
    }

    pub fn serial(&self) -> u64
        ensures { result ≡ self.now.serial }
    {
        self.serial
    }

    /// The grant of the pass, as plain data.
    pub(crate) fn grant(&self) -> Grant
        ensures { result ≡ grant self.now.client self.now.page self.now.serial }
    {
        Grant {
            client: self.client,
            page: self.page,
            serial: self.serial,
        }
    }

    /// Spends the pass and returns its note. No core is asked: the page stays pinned.
    pub fn note(self) -> PassNote
        ensures { result ≡ grant self.client self.page self.serial }
    {
        let Pass {
            client,
            page,
            serial,
        } = self;
        PassNote::of(client, page, serial)
    }
}

impl PassNote {
    /// Makes a note of these numbers. No core is asked whether it gave such a pass.
    pub fn of(client: u8, page: PageNo, serial: u64) -> PassNote
        ensures { result ≡ grant client page serial }
    {
        PassNote {
            client,
            page,
            serial,
        }
    }

    pub fn client(&self) -> u8
        ensures { result ≡ self.now.client }
    {
        self.client
    }

    pub fn page(&self) -> PageNo
        ensures { result ≡ self.now.page }
    {
        self.page
    }

    pub fn serial(&self) -> u64
        ensures { result ≡ self.now.serial }
    {
        self.serial
    }

    /// Makes a pass of the note. A core where it is not out refuses it as `UnknownPass`.
    pub fn pass(self) -> Pass
        ensures client { result.client ≡ self.client }
        ensures page { result.page ≡ self.page }
        ensures serial { result.serial ≡ self.serial }
    {
        Pass {
            client: self.client,
            page: self.page,
            serial: self.serial,
        }
    }
}

impl ReadTicket {
    pub fn client(&self) -> u8
        ensures { result ≡ self.now.client }
    {
        self.client
    }

    pub fn page(&self) -> PageNo
        ensures { result ≡ self.now.page }
    {
        self.page
    }

    pub fn serial(&self) -> u64
        ensures { result ≡ self.now.serial }
    {
        self.serial
    }

    /// Spends the ticket. No core is asked: where one knows the ticket, its read stays in flight.
    pub fn forfeit(self) {
        let ReadTicket {
            client: _,
            page: _,
            serial: _,
        } = self;
    }
}

impl WriteTicket {
    pub fn client(&self) -> u8
        ensures { result ≡ self.now.client }
    {
        self.client
    }

    pub fn page(&self) -> PageNo
        ensures { result ≡ self.now.page }
    {
        self.page
    }

    pub fn serial(&self) -> u64
        ensures { result ≡ self.now.serial }
    {
        self.serial
    }

    pub fn image(&self) -> &Image
        ensures { result.now ≡ self.now.image }
    {
        &self.image
    }

    /// Returns the page LSN when the write-out began.
    pub fn lsn(&self) -> Lsn
        ensures { result ≡ self.now.lsn }
    {
        self.lsn
    }

    /// Spends the ticket as `forfeit` does, and returns its image, so that the caller frees that memory where it likes.
    pub fn into_image(self) -> Image
        ensures { result ≡ self.image }
    {
        let WriteTicket {
            client: _,
            page: _,
            serial: _,
            image,
            lsn: _,
        } = self;
        image
    }

    /// Spends the ticket. No core is asked: where one knows the ticket, its write-out stays in flight.
    pub fn forfeit(self) {
        drop(self.into_image());
    }
}

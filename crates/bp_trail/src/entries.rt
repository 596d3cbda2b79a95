//! The entries of a trail: each event of the core, with its reply.

use bp_page::{Bytes, Image, Lsn, PageNo};

/// One event of the core: the client that called, the call, and the reply.
#[derive(PartialEq, Eq, Debug, Drop)]
pub struct Entry {
    /// The client that called, from 0 to one below the clients of the pool.
    pub client: u8,
    pub call: Call,
    pub reply: Reply,
}

/// What a client asks of the core, or tells it, by a call that makes an entry.
#[derive(PartialEq, Eq, Debug, Drop)]
pub enum Call {
    /// The clock moves on by so many ticks, 0 or more.
    Tick(u64),
    /// The log is durable up to this LSN.
    Mark(Lsn),
    /// The page is wanted in a frame, and pinned.
    Fix(PageNo),
    /// A read of the device has ended.
    ReadEnd {
        /// The serial number of its ticket.
        ticket: u64,
        page: PageNo,
        /// The bytes of the page; none where the read failed or found another page.
        image: Option<Image>,
    },
    /// A write of the device has ended.
    WriteEnd {
        /// The serial number of its ticket.
        ticket: u64,
        page: PageNo,
        /// True if the device has the image.
        good: bool,
    },
    /// The bytes of a pinned page are wanted.
    Read {
        /// The serial number of the pass.
        pass: u64,
        page: PageNo,
    },
    /// Bytes of a pinned page are changed.
    Write {
        /// The serial number of the pass.
        pass: u64,
        page: PageNo,
        /// Where the bytes begin, in bytes from the start of the page.
        offset: u32,
        /// The bytes that stand there afterwards; they end within the page.
        bytes: Bytes,
        /// The LSN of the log record that tells the change; with 0 the page waits for no log.
        lsn: Lsn,
    },
    /// A pass is given back.
    Unfix {
        /// The serial number of the pass.
        pass: u64,
        page: PageNo,
    },
    /// The page is to be written out, if it is unsaved.
    Flush(PageNo),
    /// The page is to leave its frame without being written out, and its references are forgotten. Its writes that no
    /// good write-out began after are lost.
    Discard(PageNo),
    /// Forgets the references of pages that are neither resident nor loading and were last referenced more than the
    /// retained period ago.
    Purge,
}

/// The answer of the core to a call.
#[derive(PartialEq, Eq, Debug, Drop)]
pub enum Reply {
    /// A tick, a mark, a write or an unfix was done.
    Done,
    /// The page is in a frame, pinned by the pass of this serial number.
    Hit(u64),
    /// The page has to be read from the device first.
    Load {
        /// The serial number of the ticket to read it by.
        ticket: u64,
        /// The page that left its frame for it; none where a frame was free.
        evicted: Option<PageNo>,
    },
    /// A page has to be written out: the flushed one, or the victim of a fix, which is then asked again.
    WriteFirst {
        /// The serial number of the ticket to write it by.
        ticket: u64,
        page: PageNo,
        /// Its bytes, of the page size.
        image: Image,
    },
    /// No page may leave its frame.
    NoVictim,
    /// The page that would go out waits until the log is durable up to this LSN.
    NeedLog(Lsn),
    /// A device operation on the page is under way.
    Busy,
    /// The page that was read is in a frame, pinned by the pass of this serial number.
    Fixed(u64),
    /// The read failed, and nothing is left of it.
    ReadFailed,
    /// The read found another page, and nothing is left of it.
    WrongPage,
    /// The write-out ended well, and the page is saved.
    Cleaned,
    /// The write-out ended well, and the page was written since it began: it is unsaved still.
    StillDirty,
    /// The write-out failed, and the page is unsaved still.
    WriteFailed,
    /// The bytes of the page, of the page size.
    Content(Image),
    /// The page is in a frame and not unsaved: nothing is written.
    Clean,
    /// The page is in no frame: nothing is written, and nothing discarded.
    Absent,
    /// The page left its frame without being written out.
    Discarded,
    /// The page is pinned, and stays in its frame.
    Pinned,
    /// So many pages were forgotten.
    Forgot(u64),
}

/// A pass or a ticket that was given: to whom, for which page, and its serial number.
#[derive(Clone, Copy)]
pub struct Grant {
    pub client: u8,
    pub page: PageNo,
    /// The number of passes, or of tickets of both kinds, given before it.
    pub serial: u64,
}

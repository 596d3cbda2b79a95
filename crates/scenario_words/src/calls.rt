//! `Said`, what a line asks for: a verb with its numbers, its pass or ticket, and its bytes.

use crate::forms::{CALLS, SESSION_CALLS};
use crate::images::{bytes_of, front_of};
use bp_page::{Bytes, PageNo, PortFault};
use bp_trail::Grant;
use std::alloc::Global;

/// The verb of a call or of a reply. Where what is called does not have the call, the line is a bad one.
#[derive(Clone, Copy)]
pub enum Verb {
    Fix,
    Flush,
    Discard,
    Tick,
    Mark,
    Purge,
    ReadEnd,
    ReadFails(PortFault),
    WriteEnd,
    WriteFails(PortFault),
    Read,
    Write,
    Unfix,
    /// The lent bytes of a page; a read of bytes into a slice; a write of bytes from one.
    Page,
    ReadInto,
    WriteFrom,
    /// The newest reference of a page, and its n-th stamp.
    Last,
    Stamp,
    Unsaved,
    /// What a checkpoint asks: the next unsaved page, where redo begins, and the least unsaved LSN of a page.
    Next,
    Redo,
    /// The page whose frame the next fix takes.
    NextVictim,
    First,
    /// The page LSN of a resident page, and that of the page of a pass.
    TopLsn,
    PageLsn,
    Resident,
    Stats,
    FlushAll,
    /// Fixes a new page, without a read of it.
    New,
    /// Shows the bytes of a page, of which no pass is out after it.
    Look,
    Sync,
    /// Whether a pool moves its clock by itself, at each fix.
    Ticking(bool),
    /// Takes a pool apart into its core and its port, and makes one of these.
    Parts,
    Own,
    Clock,
    Durable,
    Free,
    /// The number of entries of the trail, and the entry at a place.
    Trail,
    Entry,
    Cut,
    Fresh,
    /// The totals of the entries, and the number of refusals among them.
    Totals,
    Refusals,
    /// The number of reads, or of write-outs, that began before the first one ended.
    ReadsAtOnce,
    WritesAtOnce,
    /// The length of a session's list, and the number of passes that the session holds.
    List,
    Held,
    CutList,
    Settle,
    /// Raises the mark: the log is durable up to this LSN.
    Raise,
    /// Puts a page on the device; tells a page of the device; tells the number of failed calls of the device.
    Put,
    Device,
    Failures,
    /// The page LSN of the newest write of a session's port.
    NewestLsn,
    /// Calls of the histories of LRU-K alone.
    Prepare,
    Unprepare,
    Fault,
    Hit,
    Forget,
    /// Calls of the candidates of LRU-K alone.
    Enter,
    Leave,
    Victim,
    Nth,
    Walk,
    /// Goes back to something that an earlier line made.
    On,
    /// The replies.
    Done,
    NoVictim,
    Busy,
    ReadFailed,
    WriteFailed,
    WrongPage,
    Pinned,
    Cleaned,
    StillDirty,
    Clean,
    Absent,
    Discarded,
    Pass,
    Load,
    LoadEvicts,
    WriteFirst,
    NeedLog,
    Forgot,
    Content,
}

/// Up to three numbers of a line, in order.
#[derive(Clone, Copy)]
pub struct Numbers {
    pub list: [u64; 3],
    pub count: usize,
}

/// A line or a reply: its verb, its numbers, the numbers of its pass or ticket, and its bytes. Of an image these are
/// the bytes before the zeros at its end.
#[derive(Drop)]
pub struct Said {
    pub verb: Verb,
    pub numbers: Numbers,
    pub name: Numbers,
    pub bytes: Option<Bytes>,
}

const NO_NUMBERS: Numbers = Numbers {
    list: [0; 3],
    count: 0,
};

impl Numbers {
    /// Takes one more number. It returns false where the word is none, or there are three already.
    fn take(&mut self, word: &str) -> bool {
        match (self.list.get_mut(self.count), word.parse::<u64>()) {
            (Some(place), Ok(number)) => {
                *place = number;
                self.count = self.count.saturating_add(1);
                true
            }
            _ => false,
        }
    }

    /// Takes numbers with `/` between them.
    fn take_all(&mut self, word: &str) -> bool {
        let mut fits = true;
        for part in word.split('/') {
            fits = fits && self.take(part);
        }
        fits
    }
}

impl Said {
    /// Takes a word of a line by one word of a form. It returns false where it does not fit, or memory is refused.
    fn take(&mut self, alloc: Global, slot: &str, word: &str) -> bool {
        match slot {
            "N" => self.numbers.take(word),
            "G" => self.name.take_all(word),
            "B" => {
                self.bytes = bytes_of(alloc, word);
                self.bytes.is_some()
            }
            "I" => {
                self.bytes = front_of(alloc, word);
                self.bytes.is_some()
            }
            slot => slot == word,
        }
    }
}

/// Parses a line by a form. It returns None where the line does not have this form, or memory is refused.
fn said_by(alloc: Global, form: &str, verb: Verb, line: &str) -> Option<Said> {
    let mut said = Said {
        verb,
        numbers: NO_NUMBERS,
        name: NO_NUMBERS,
        bytes: None,
    };
    let mut words = line.split_whitespace();
    let mut fits = true;
    for slot in form.split_whitespace() {
        fits = match words.next() {
            Some(word) if fits => said.take(alloc, slot, word),
            _ => false,
        };
    }
    if fits && words.next().is_none() {
        Some(said)
    } else {
        None
    }
}

/// Parses a line by the first of these forms that it has. It returns None where it has none, or memory is refused.
pub(crate) fn said_of(alloc: Global, forms: &[(&str, Verb)], line: &str) -> Option<Said> {
    let mut found = None;
    for (form, verb) in forms {
        if found.is_none() {
            found = said_by(alloc, *form, *verb, line);
        }
    }
    found
}

/// Parses a line as a call. It returns None where it is none, or memory is refused.
pub fn call_of(alloc: Global, line: &str) -> Option<Said> {
    said_of(alloc, &CALLS, line)
}

/// Parses a line as a call by a session, whose client is the first word. It returns None where it is none, or memory is
/// refused.
pub fn session_call_of(alloc: Global, line: &str) -> Option<Said> {
    said_of(alloc, &SESSION_CALLS, line)
}

/// Returns the pass or ticket of a name. One number is the serial number of one that was given; three are client, page
/// and serial number, which a core may have given or not.
pub fn named(given: &[Grant], name: &Numbers) -> Option<Grant> {
    let [first, page, serial] = name.list;
    if name.count == 1 {
        return given.get(first as usize).copied();
    }
    match u8::try_from(first) {
        Ok(client) if name.count == 3 => Some(Grant {
            client,
            page: PageNo::new(page),
            serial,
        }),
        _ => None,
    }
}

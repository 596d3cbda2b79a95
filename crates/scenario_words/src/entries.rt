//! Entries of a trail as text, in the form in which a list for the judge has them.

use crate::answers::Answer;
use crate::images::{write_bytes, write_image};
use bp_page::{Image, PageNo};
use bp_trail::{Call, Entry, Reply};
use std::alloc::Global;
use std::fmt;

/// An entry that prints as its call, the word `gives`, and its reply.
#[derive(Drop)]
pub struct Shown<'a>(pub &'a Entry);

impl fmt::Display for Shown<'_> {
    fn fmt<W: fmt::Write>(&self, f: &mut fmt::Formatter<W>) -> fmt::Result {
        let entry = self.0;
        write_call(entry.client, &entry.call, f)?;
        write!(f, " gives ")?;
        write_reply(&entry.reply, f)
    }
}

/// Returns the text of the n-th entry of a trail, from 1, or `none`.
pub fn entry_of(alloc: Global, trail: &[Entry], n: u64) -> Answer {
    match trail.get(n.saturating_sub(1) as usize) {
        Some(entry) => match format!(in alloc; "{}", Shown(entry)) {
            Ok(text) => Answer::Text(text),
            Err(_) => Answer::BadLine,
        },
        None => Answer::Word("none"),
    }
}

/// Writes a call that has a client and a number.
fn write_call<W: fmt::Write>(client: u8, call: &Call, f: &mut fmt::Formatter<W>) -> fmt::Result {
    let (verb, number) = match call {
        Call::Tick(n) => ("tick", *n),
        Call::Mark(lsn) => ("mark", lsn.number()),
        Call::Fix(page) => ("fix", page.number()),
        Call::Flush(page) => ("flush", page.number()),
        Call::Discard(page) => ("discard", page.number()),
        Call::Purge => return write!(f, "purge {client}"),
        _ => return write_use(client, call, f),
    };
    write!(f, "{verb} {client} {number}")
}

/// Writes a call that has a pass or a ticket.
fn write_use<W: fmt::Write>(client: u8, call: &Call, f: &mut fmt::Formatter<W>) -> fmt::Result {
    let (verb, page, serial) = grant_of(call);
    write!(f, "{verb} {client}/{page}/{serial}", page = page.number())?;
    match call {
        Call::ReadEnd { image, .. } => write_read(image, f),
        Call::WriteEnd { good: true, .. } => write!(f, " good"),
        Call::WriteEnd { good: false, .. } => write!(f, " failed"),
        Call::Write {
            offset,
            bytes,
            lsn,
            ..
        } => {
            write!(f, " at {offset} ")?;
            write_bytes(bytes.bytes(), bytes.bytes().len(), f)?;
            write!(f, " lsn {}", lsn.number())
        }
        _ => Ok(()),
    }
}

/// Returns the word of a call with a pass or a ticket, and the page and serial number of that.
fn grant_of(call: &Call) -> (&'static str, PageNo, u64) {
    match call {
        Call::ReadEnd { ticket, page, .. } => ("read_end", *page, *ticket),
        Call::WriteEnd { ticket, page, .. } => ("write_end", *page, *ticket),
        Call::Write { pass, page, .. } => ("write", *page, *pass),
        Call::Read { pass, page } => ("read", *page, *pass),
        Call::Unfix { pass, page } => ("unfix", *page, *pass),
        _ => ("", PageNo::new(0), 0),
    }
}

fn write_read<W: fmt::Write>(image: &Option<Image>, f: &mut fmt::Formatter<W>) -> fmt::Result {
    match image {
        Some(image) => {
            write!(f, " ")?;
            write_image(image, f)
        }
        None => write!(f, " failed"),
    }
}

pub(crate) fn write_reply<W: fmt::Write>(reply: &Reply, f: &mut fmt::Formatter<W>) -> fmt::Result {
    match reply {
        Reply::Hit(pass) | Reply::Fixed(pass) => write!(f, "pass {pass}"),
        Reply::Load { ticket, evicted } => match evicted {
            Some(page) => write!(f, "load {ticket} evicts {}", page.number()),
            None => write!(f, "load {ticket}"),
        },
        Reply::WriteFirst {
            ticket,
            page,
            image,
        } => {
            write!(f, "write {ticket} page {} image ", page.number())?;
            write_image(image, f)
        }
        Reply::NeedLog(lsn) => write!(f, "12 lsn {}", lsn.number()),
        Reply::Content(image) => write_image(image, f),
        Reply::Forgot(count) => write!(f, "forgot {count}"),
        _ => write!(f, "{}", word_of(reply)),
    }
}

/// Returns the word or number of a reply that has nothing else.
fn word_of(reply: &Reply) -> &'static str {
    match reply {
        Reply::NoVictim => "11",
        Reply::Busy => "13",
        Reply::ReadFailed => "17",
        Reply::WriteFailed => "18",
        Reply::WrongPage => "19",
        Reply::Pinned => "25",
        Reply::Cleaned => "cleaned",
        Reply::StillDirty => "still dirty",
        Reply::Clean => "clean",
        Reply::Absent => "absent",
        Reply::Discarded => "discarded",
        _ => "done",
    }
}

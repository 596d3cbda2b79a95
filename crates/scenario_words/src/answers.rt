//! `Answer`, the answer to a line of a scenario, and its text.

use crate::entries::write_reply;
use crate::images::{write_bytes, write_image};
use bp_page::{Image, Lsn, PageNo, Refusal};
use bp_trail::{Grant, Reply};
use std::fmt;

#[derive(Drop)]
pub enum Answer {
    /// The reply of an entry.
    Reply(Reply),
    /// A ticket to write out, with the page LSN of its image.
    Out(Reply, Lsn),
    Refused(Refusal),
    /// The page at which a flush of all pages ended, and why.
    Stopped(PageNo, Refusal),
    /// A pass or a ticket that came back, with the image that came back with a ticket to read.
    Back(Refusal, Grant, Option<Image>),
    /// Bytes of a page. All are printed, zeros at their end too.
    Bytes(Vec<u8>),
    Number(u64),
    Word(&'static str),
    Text(String),
    /// The line asks for something that there is not, or has a number out of its limits, or its words found no memory.
    BadLine,
}

impl Answer {
    pub fn yes_or_no(is_so: bool) -> Answer {
        Answer::Word(if is_so { "yes" } else { "no" })
    }

    /// Returns true if the answer may come of refused memory.
    pub fn lacks_memory(&self) -> bool {
        matches!(
            self,
            Answer::Refused(Refusal::OutOfMemory)
                | Answer::Stopped(_, Refusal::OutOfMemory)
                | Answer::BadLine
        )
    }
}

fn write_refusal<W: fmt::Write>(refusal: Refusal, f: &mut fmt::Formatter<W>) -> fmt::Result {
    match refusal {
        Refusal::NeedLog(lsn) => write!(f, "12 lsn {}", lsn.number()),
        other => write!(f, "{}", other.number()),
    }
}

fn write_back<W: fmt::Write>(
    refusal: Refusal,
    back: &Grant,
    came: &Option<Image>,
    f: &mut fmt::Formatter<W>,
) -> fmt::Result {
    let (client, page, serial) = (back.client, back.page.number(), back.serial);
    write!(f, "{} back {client}/{page}/{serial}", refusal.number())?;
    match came {
        Some(image) => {
            write!(f, " image ")?;
            write_image(image, f)
        }
        None => Ok(()),
    }
}

impl fmt::Display for Answer {
    fn fmt<W: fmt::Write>(&self, f: &mut fmt::Formatter<W>) -> fmt::Result {
        match self {
            Answer::Reply(reply) => write_reply(reply, f),
            Answer::Out(reply, lsn) => {
                write_reply(reply, f)?;
                write!(f, " lsn {}", lsn.number())
            }
            Answer::Refused(refusal) => write_refusal(*refusal, f),
            Answer::Stopped(page, refusal) => {
                write_refusal(*refusal, f)?;
                write!(f, " page {}", page.number())
            }
            Answer::Back(refusal, back, came) => write_back(*refusal, back, came, f),
            Answer::Bytes(bytes) if bytes.is_empty() => write!(f, "no bytes"),
            Answer::Bytes(bytes) => write_bytes(bytes, bytes.len(), f),
            Answer::Number(number) => write!(f, "{number}"),
            Answer::Word(word) => write!(f, "{word}"),
            Answer::Text(text) => write!(f, "{text}"),
            Answer::BadLine => write!(f, "bad line"),
        }
    }
}

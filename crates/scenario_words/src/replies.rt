//! `reply_of`, which parses the reply of an entry.

use crate::calls::{Said, Verb, said_of};
use crate::forms::REPLIES;
use crate::images::filled;
use bp_page::{Image, Lsn, PageNo};
use bp_trail::Reply;
use std::alloc::Global;

/// Returns a reply without an image. `call` is the call: a pass has one name as the reply of a fix, and another at the
/// end of a read.
fn without_image(said: &Said, call: Verb) -> Option<Reply> {
    let [first, second, _] = said.numbers.list;
    match said.verb {
        Verb::Done => Some(Reply::Done),
        Verb::NoVictim => Some(Reply::NoVictim),
        Verb::NeedLog => Some(Reply::NeedLog(Lsn::new(first))),
        Verb::Busy => Some(Reply::Busy),
        Verb::ReadFailed => Some(Reply::ReadFailed),
        Verb::WriteFailed => Some(Reply::WriteFailed),
        Verb::WrongPage => Some(Reply::WrongPage),
        Verb::Pinned => Some(Reply::Pinned),
        Verb::Cleaned => Some(Reply::Cleaned),
        Verb::StillDirty => Some(Reply::StillDirty),
        Verb::Clean => Some(Reply::Clean),
        Verb::Absent => Some(Reply::Absent),
        Verb::Discarded => Some(Reply::Discarded),
        Verb::Forgot => Some(Reply::Forgot(first)),
        Verb::Load => Some(Reply::Load {
            ticket: first,
            evicted: None,
        }),
        Verb::LoadEvicts => Some(Reply::Load {
            ticket: first,
            evicted: Some(PageNo::new(second)),
        }),
        Verb::Pass => match call {
            Verb::ReadEnd | Verb::ReadFails(_) => Some(Reply::Fixed(first)),
            _ => Some(Reply::Hit(first)),
        },
        _ => None,
    }
}

fn with_image(said: &Said, image: Image) -> Reply {
    let [ticket, page, _] = said.numbers.list;
    match said.verb {
        Verb::WriteFirst => Reply::WriteFirst {
            ticket,
            page: PageNo::new(page),
            image,
        },
        _ => Reply::Content(image),
    }
}

/// Parses the reply to a call, over pages of this size. It returns None where the text is none, or memory is refused.
pub fn reply_of(alloc: Global, size: usize, call: Verb, text: &str) -> Option<Reply> {
    let said = said_of(alloc, &REPLIES, text)?;
    match &said.bytes {
        None => without_image(&said, call),
        Some(front) => match filled(alloc, size, front) {
            Some(image) => Some(with_image(&said, image)),
            None => None,
        },
    }
}

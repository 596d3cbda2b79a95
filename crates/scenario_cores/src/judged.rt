//! `Judged`, a list of entries that no core made, for the judge of trails.

use crate::lists::{LOST, Lists, new_lists};
use bp_check::{Setup, first_unlawful};
use bp_core::Settings;
use bp_page::{Bytes, Geometry, Image, Lsn, PageNo, Refusal};
use bp_trail::{Call, Entry, Grant, Reply};
use scenario_words::{Answer, Said, Shape, Verb, filled, named, reply_of};
use std::alloc::Global;

/// A legal list of entries, and the passes and tickets that they gave.
#[derive(Drop)]
pub struct Judged {
    alloc: Global,
    setup: Setup,
    lists: Lists,
}

/// Makes an empty list. It is `BadGeometry` or `BadSettings` where a number is out of its limits, and `OutOfMemory`
/// where memory is refused.
pub fn new_judged(alloc: Global, shape: &Shape) -> Result<Judged, Refusal> {
    let setup = Setup {
        geometry: Geometry::new(shape.pages, shape.size)?,
        settings: Settings::new(shape.k, shape.correlated, shape.retained)?,
        frames: shape.frames,
        clients: shape.clients,
    };
    match new_lists(alloc) {
        Some(lists) => Ok(Judged {
            alloc,
            setup,
            lists,
        }),
        None => Err(Refusal::OutOfMemory),
    }
}

/// Returns the page of a call that may give a pass or a ticket to read, else page 0.
fn page_of(call: &Call) -> PageNo {
    match call {
        Call::Fix(page) | Call::ReadEnd { page, .. } => *page,
        _ => PageNo::new(0),
    }
}

/// Returns the pass or the ticket that an entry gave, and whether it is a pass.
fn gave_by(entry: &Entry) -> Option<(bool, Grant)> {
    let called = page_of(&entry.call);
    let (is_pass, page, serial) = match &entry.reply {
        Reply::Hit(serial) | Reply::Fixed(serial) => (true, called, *serial),
        Reply::Load { ticket, .. } => (false, called, *ticket),
        Reply::WriteFirst { ticket, page, .. } => (false, *page, *ticket),
        _ => return None,
    };
    let client = entry.client;
    let grant = Grant {
        client,
        page,
        serial,
    };
    Some((is_pass, grant))
}

/// Returns the client and the call of a line that names both by numbers.
fn plain(call: &Said) -> Option<(u8, Call)> {
    let [client, second, _] = call.numbers.list;
    let Ok(client) = u8::try_from(client) else {
        return None;
    };
    match call.verb {
        Verb::Fix => Some((client, Call::Fix(PageNo::new(second)))),
        Verb::Flush => Some((client, Call::Flush(PageNo::new(second)))),
        Verb::Discard => Some((client, Call::Discard(PageNo::new(second)))),
        Verb::Tick => Some((client, Call::Tick(second))),
        Verb::Mark => Some((client, Call::Mark(Lsn::new(second)))),
        Verb::Purge => Some((client, Call::Purge)),
        _ => None,
    }
}

impl Judged {
    fn image_of(&self, front: &Option<Bytes>) -> Option<Image> {
        match front {
            Some(front) => filled(self.alloc, self.setup.geometry.size, front),
            None => None,
        }
    }

    fn bytes_of(&self, bytes: &Option<Bytes>) -> Option<Bytes> {
        match bytes {
            Some(bytes) => Bytes::of(self.alloc, bytes.bytes()).ok(),
            None => None,
        }
    }

    /// Returns the call of an entry that uses a pass or a ticket.
    fn use_of(&self, call: &Said, grant: Grant) -> Option<Call> {
        let [offset, lsn, _] = call.numbers.list;
        let (serial, page) = (grant.serial, grant.page);
        match call.verb {
            Verb::Read => Some(Call::Read { pass: serial, page }),
            Verb::Unfix => Some(Call::Unfix { pass: serial, page }),
            Verb::Write => match (u32::try_from(offset), self.bytes_of(&call.bytes)) {
                (Ok(offset), Some(bytes)) => Some(Call::Write {
                    pass: serial,
                    page,
                    offset,
                    bytes,
                    lsn: Lsn::new(lsn),
                }),
                _ => None,
            },
            Verb::ReadEnd => match self.image_of(&call.bytes) {
                Some(image) => Some(Call::ReadEnd {
                    ticket: serial,
                    page,
                    image: Some(image),
                }),
                None => None,
            },
            Verb::ReadFails(_) => Some(Call::ReadEnd {
                ticket: serial,
                page,
                image: None,
            }),
            verb => Some(Call::WriteEnd {
                ticket: serial,
                page,
                good: matches!(verb, Verb::WriteEnd),
            }),
        }
    }

    /// Returns the pass or ticket that a line names.
    fn grant_of(&self, call: &Said) -> Option<Grant> {
        match call.verb {
            Verb::Read | Verb::Write | Verb::Unfix => named(&self.lists.passes, &call.name),
            Verb::ReadEnd | Verb::ReadFails(_) | Verb::WriteEnd | Verb::WriteFails(_) => {
                named(&self.lists.tickets, &call.name)
            }
            _ => None,
        }
    }

    /// Returns the client and the call of an entry, or None where no entry has such a call.
    fn call_of(&self, call: &Said) -> Option<(u8, Call)> {
        let Some(grant) = self.grant_of(call) else {
            return plain(call);
        };
        let client = grant.client;
        match self.use_of(call, grant) {
            Some(call) => Some((client, call)),
            None => None,
        }
    }

    fn entry_of(&self, call: &Said, reply: &str) -> Option<Entry> {
        let reply = reply_of(self.alloc, self.setup.geometry.size, call.verb, reply);
        match (self.call_of(call), reply) {
            (Some((client, call)), Some(reply)) => Some(Entry {
                client,
                call,
                reply,
            }),
            _ => None,
        }
    }

    /// Adds an entry to the list if it is lawful after those before it.
    fn add(&mut self, entry: Entry) -> Answer {
        let gave = gave_by(&entry);
        if self.lists.entries.push(entry).is_err() {
            return Answer::BadLine;
        }
        let answer = match first_unlawful(self.alloc, &self.setup, &self.lists.entries) {
            Ok(None) => return self.keep(gave),
            Ok(Some(_)) => Answer::Word("unlawful"),
            Err(_) => Answer::BadLine,
        };
        self.lists.entries.pop();
        answer
    }

    fn keep(&mut self, gave: Option<(bool, Grant)>) -> Answer {
        let is_kept = match gave {
            Some((true, pass)) => self.lists.keep_pass(pass),
            Some((false, ticket)) => self.lists.keep_ticket(ticket),
            None => true,
        };
        if is_kept {
            Answer::Reply(Reply::Done)
        } else {
            LOST
        }
    }

    /// Adds the entry of this call and this reply if it is lawful after those before it.
    pub fn claim(&mut self, call: &Said, reply: &str) -> Answer {
        match self.entry_of(call, reply) {
            Some(entry) => self.add(entry),
            None => Answer::BadLine,
        }
    }
}

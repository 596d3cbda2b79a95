//! `Lists`, the passes and tickets that calls gave, and entries.

use bp_core::{Pass, PassNote};
use bp_trail::{Entry, Grant, Reply};
use scenario_words::Answer;
use std::alloc::Global;

/// The passes, and the tickets, that have memory from the start.
const MOST_GIVEN: usize = 64;

/// The entries that have memory from the start.
const MOST_ENTRIES: usize = 512;

/// Passes and tickets by their serial numbers, and entries in order. What went back stays here.
#[derive(Drop)]
pub struct Lists {
    pub alloc: Global,
    pub passes: Vec<Grant>,
    pub tickets: Vec<Grant>,
    pub entries: Vec<Entry>,
    /// Whether entries were lost for want of memory.
    pub is_short: bool,
}

/// The answer of a call whose pass or ticket found no memory here.
pub const LOST: Answer = Answer::Word("no memory for what it gave");

/// Makes empty lists. It returns None where memory is refused.
pub fn new_lists(alloc: Global) -> Option<Lists> {
    let passes = Vec::with_capacity(alloc, MOST_GIVEN);
    let tickets = Vec::with_capacity(alloc, MOST_GIVEN);
    let entries = Vec::with_capacity(alloc, MOST_ENTRIES);
    match (passes, tickets, entries) {
        (Ok(passes), Ok(tickets), Ok(entries)) => Some(Lists {
            alloc,
            passes,
            tickets,
            entries,
            is_short: false,
        }),
        _ => None,
    }
}

pub fn pass_of(grant: Grant) -> Pass {
    PassNote::of(grant.client, grant.page, grant.serial).pass()
}

pub fn grant_of(pass: Pass) -> Grant {
    let note = pass.note();
    Grant {
        client: note.client(),
        page: note.page(),
        serial: note.serial(),
    }
}

/// Adds a pass or a ticket, and tries again where memory is refused. It returns true if it was added.
fn add(given: &mut Vec<Grant>, grant: Grant) -> bool {
    match given.push(grant) {
        Ok(()) => true,
        Err(refused) => given.push(refused.value).is_ok(),
    }
}

/// Appends a piece of a trail or of a list, and tries again where memory is refused. It returns true if it was
/// appended. The piece is then empty, and keeps its memory.
pub fn join(entries: &mut Vec<Entry>, piece: &mut Vec<Entry>) -> bool {
    entries.append(piece).is_ok() || entries.append(piece).is_ok()
}

impl Lists {
    /// Adds a pass. It returns false where memory is refused.
    pub fn keep_pass(&mut self, pass: Grant) -> bool {
        add(&mut self.passes, pass)
    }

    /// Adds the pass that a call gave, and returns the answer of the call.
    pub fn keep_given(&mut self, pass: Pass) -> Answer {
        let grant = grant_of(pass);
        let serial = grant.serial;
        if self.keep_pass(grant) {
            Answer::Reply(Reply::Hit(serial))
        } else {
            LOST
        }
    }

    /// Adds a ticket. It returns false where memory is refused.
    pub fn keep_ticket(&mut self, ticket: Grant) -> bool {
        add(&mut self.tickets, ticket)
    }

    /// Appends a piece of a trail, and answers its length. Where memory is refused, these lists are short.
    pub fn keep_entries(&mut self, piece: &mut Vec<Entry>) -> Answer {
        let count = piece.len() as u64;
        if join(&mut self.entries, piece) {
            return Answer::Number(count);
        }
        self.is_short = true;
        LOST
    }
}

//! The answers of the rows of client threads.

use crate::answers::Answers;
use crate::scripts::Asked;
use bp_core::{Entry, Reply};
use bp_page::Image;
use bp_replay::Outcome;
use bp_scripts::Refused;
use scenario_words::Answer;
use std::alloc::Global;

/// Returns the number with which a row was refused, or None where it was not.
fn refusal_of(refused: &[Refused], row: u64) -> Option<u16> {
    for it in refused {
        if it.row == row {
            return Some(it.number);
        }
    }
    None
}

/// Copies an image. Where memory is refused, it tries again.
fn copy_of(alloc: Global, image: &Image) -> Answer {
    let copied = match Image::of(alloc, image.bytes()) {
        Ok(copy) => Ok(copy),
        Err(_) => Image::of(alloc, image.bytes()),
    };
    match copied {
        Ok(copy) => Answer::Reply(Reply::Content(copy)),
        Err(_) => Answer::BadLine,
    }
}

/// Returns the image of a list that comes after so many others.
fn image_after(alloc: Global, list: &[Entry], before: u64) -> Answer {
    let mut seen = 0u64;
    for entry in list {
        if let Reply::Content(image) = &entry.reply {
            if seen == before {
                return copy_of(alloc, image);
            }
            seen = seen.saturating_add(1);
        }
    }
    Answer::Word("nothing")
}

/// Returns the number of reads of a client among these lines, the first of all, without those that were refused.
fn reads_of(asked: &[Option<Asked>], refused: &[Refused], client: u8) -> u64 {
    let (mut reads, mut row) = (0u64, 0u64);
    for it in asked {
        row = row.saturating_add(1);
        let is_read = matches!(it, Some(it) if it.client == client && it.reads);
        if is_read && refusal_of(refused, row).is_none() {
            reads = reads.saturating_add(1);
        }
    }
    reads
}

/// Returns the answer of the line at a place: the number of a refusal, the image that a read gave, or `done`.
fn answer_at(alloc: Global, asked: &[Option<Asked>], at: usize, outcome: &Outcome) -> Answer {
    let Some(Some(it)) = asked.get(at) else {
        return Answer::BadLine;
    };
    if let Some(number) = refusal_of(&outcome.refused, (at as u64).saturating_add(1)) {
        return Answer::Number(u64::from(number));
    }
    if !it.reads {
        return Answer::Reply(Reply::Done);
    }
    let before = reads_of(&asked[..at], &outcome.refused, it.client);
    match outcome.said.get(it.client as usize) {
        Some(list) => image_after(alloc, list, before),
        None => Answer::BadLine,
    }
}

impl Answers {
    /// Adds the answers of a run: of the line that makes it, of its rows, and of the line that ends it.
    pub(crate) fn tell(&mut self, alloc: Global, asked: &[Option<Asked>], outcome: &Outcome) {
        self.add(Some(Answer::Reply(Reply::Done)));
        for at in 0..asked.len() {
            self.add(Some(answer_at(alloc, asked, at, outcome)));
        }
        self.add(Some(Answer::Reply(Reply::Done)));
    }
}

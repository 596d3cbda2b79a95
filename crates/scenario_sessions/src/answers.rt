//! `Answers`, the answers of the lines of a pool.

use bp_page::Refusal;
use scenario_words::Answer;
use std::alloc::Global;

/// The answers in the order of the lines. None stands for a line that is skipped.
#[derive(Drop)]
pub struct Answers {
    pub list: Vec<Option<Answer>>,
    /// The number of calls that were refused memory, and made again.
    pub again: u64,
}

/// Makes an empty list, with memory for so many values unless that is refused twice.
fn new_list<T: Drop>(alloc: Global, count: usize) -> Vec<T> {
    match Vec::with_capacity(alloc, count) {
        Ok(list) => list,
        Err(_) => match Vec::with_capacity(alloc, count) {
            Ok(list) => list,
            Err(_) => Vec::new(alloc),
        },
    }
}

/// Adds a value, or drops it where memory is refused.
fn add_to<T: Drop>(list: &mut Vec<T>, value: T) {
    let _ = list.push(value);
}

impl Answers {
    /// Makes an empty list, with memory for so many answers unless that is refused twice.
    pub fn new(alloc: Global, count: usize) -> Answers {
        Answers {
            list: new_list(alloc, count),
            again: 0,
        }
    }

    /// Adds the answer of the next line. Where memory is refused, there are fewer answers than lines.
    pub fn add(&mut self, answer: Option<Answer>) {
        add_to(&mut self.list, answer);
    }

    /// Counts a call that is made again.
    pub(crate) fn count(&mut self) {
        self.again = self.again.saturating_add(1);
    }

    /// Adds the answers of a pool that was refused: the refusal for its first line, and for the others that they call
    /// nothing.
    pub(crate) fn refuse(&mut self, refusal: Refusal, lines: usize) {
        self.add(Some(Answer::Refused(refusal)));
        for _ in 1..lines {
            self.add(Some(Answer::Word("nothing to call")));
        }
    }
}

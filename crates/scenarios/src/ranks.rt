//! `Ranked`, the candidates of LRU-K alone: a plain list and an index in the order of replacement, side by side.

use bp_lruk::{Candidates, Settings, scan};
use bp_page::{PageNo, Refusal};
use scenario_cores::{done, page_or_none};
use scenario_words::{Answer, Said, Shape, Verb};
use std::alloc::Global;

/// Both implementations of the candidates.
#[derive(Drop)]
pub struct Ranked {
    alloc: Global,
    index: Candidates,
    list: scan::Candidates,
}

const DIFFER: Answer = Answer::Word("the two bodies differ");

/// Makes candidates for so many frames. It is `BadSettings` where a setting is out of its limits, and `OutOfMemory`
/// where memory is refused.
pub fn new_ranked(alloc: Global, shape: &Shape) -> Result<Ranked, Refusal> {
    let settings = Settings::new(shape.k, shape.correlated, shape.retained)?;
    let index = Candidates::new(alloc, shape.frames, settings)?;
    match scan::Candidates::new(alloc, shape.frames, settings) {
        Ok(list) => Ok(Ranked { alloc, index, list }),
        Err(refusal) => Err(refusal),
    }
}

/// The result of a call that takes a page in or out: true where it did, and false where it may not be called. None
/// where the two bodies differ.
type Taken = Option<bool>;

fn answer_of(taken: Taken) -> Answer {
    match taken {
        Some(true) => done(Ok(())),
        Some(false) => Answer::BadLine,
        None => DIFFER,
    }
}

impl Ranked {
    fn enter(&mut self, page: PageNo, stamp: u64, last: u64) -> Taken {
        if self.index.is_full() || self.index.contains(page) {
            return Some(false);
        }
        if self.list.is_full() || self.list.contains(page) {
            return None;
        }
        self.index.enter(page, stamp, last);
        self.list.enter(page, stamp, last);
        Some(true)
    }

    fn leave(&mut self, page: PageNo) -> Taken {
        if !self.index.contains(page) {
            return Some(false);
        }
        if !self.list.contains(page) {
            return None;
        }
        self.index.leave(page);
        self.list.leave(page);
        Some(true)
    }

    fn victim(&self, t: u64) -> Answer {
        let victim = self.index.victim(t);
        if self.list.victim(t) != victim {
            return DIFFER;
        }
        page_or_none(victim)
    }

    fn nth(&self, n: u64) -> Answer {
        match self.index.ordered().get(n.saturating_sub(1) as usize) {
            Some((stamp, last, page)) => {
                match format!(in self.alloc; "{stamp} {last} {page}", page = page.number()) {
                    Ok(text) => Answer::Text(text),
                    Err(_) => Answer::BadLine,
                }
            }
            None => Answer::Word("none"),
        }
    }

    /// References one of 64 pages. A page that is a candidate leaves and enters again; for another one the victim
    /// leaves where there is no room. It returns whether a victim left, or None where the two bodies differ.
    fn refer(&mut self, state: u64, now: u64) -> Option<bool> {
        let page = PageNo::new((state >> 33) % 64);
        let stamp = if (state >> 32) % 2 == 0 {
            0
        } else {
            (state >> 16) % now.max(1)
        };
        let is_here = self.index.contains(page);
        let victim = if is_here || !self.index.is_full() {
            None
        } else {
            self.index.victim(now)
        };
        let left = self.leave(victim.unwrap_or(page));
        let entered = self.enter(page, stamp, now);
        if left.is_some() && entered.is_some() {
            Some(victim.is_some())
        } else {
            None
        }
    }

    /// Returns true if both bodies give the same answer of this page, and the same victim.
    fn agrees(&self, state: u64, t: u64) -> bool {
        let page = PageNo::new((state >> 33) % 64);
        let is_in_both = self.index.contains(page) == self.list.contains(page);
        is_in_both && self.index.victim(t) == self.list.victim(t)
    }

    /// References so many random pages at increasing times, and compares the two bodies after each, at an earlier time
    /// too. It answers the number of victims that left.
    fn walk(&mut self, seed: u64, references: u64) -> Answer {
        let (mut state, mut now, mut left, mut is_same) = (seed, 1u64, 0u64, true);
        for _ in 0..references {
            state = state
                .wrapping_mul(6364136223846793005)
                .wrapping_add(1442695040888963407);
            now = now.saturating_add((state >> 50) % 3);
            let referred = self.refer(state, now);
            if referred == Some(true) {
                left = left.saturating_add(1);
            }
            is_same = is_same
                && referred.is_some()
                && self.agrees(state, now)
                && self.agrees(state, now.saturating_sub(5));
        }
        if is_same {
            Answer::Number(left)
        } else {
            DIFFER
        }
    }

    /// Makes a call. The line is a bad one, and nothing is called, where a page enters that is a candidate or has no
    /// room, or leaves that is none.
    pub fn call(&mut self, call: &Said) -> Answer {
        let [first, second, third] = call.numbers.list;
        match call.verb {
            Verb::Enter => answer_of(self.enter(PageNo::new(first), second, third)),
            Verb::Leave => answer_of(self.leave(PageNo::new(first))),
            Verb::Victim => self.victim(first),
            Verb::Nth => self.nth(first),
            Verb::Walk => self.walk(first, second),
            _ => Answer::BadLine,
        }
    }
}

//! `Timed`, the histories of LRU-K alone.
ghost use Rattle.std.specs.Prelude.{ℕ, ◌≤◌};
ghost use Rattle.bp_replacer.specs.Histories.{latest_of};

use bp_lruk::{Histories, Settings};
use bp_page::{PageNo, Refusal};
use bp_trail::Reply;
use scenario_cores::done;
use scenario_words::{Answer, Said, Shape, Verb, mixed};
use std::alloc::Global;

/// The hash covers so many pages, from 0: more than the first allocation of blocks holds.
const PAGES: u64 = 24;

/// Histories, and the time of the newest reference.
#[derive(Drop)]
pub struct Timed {
    histories: Histories,
    now: u64,
    ghost by_now: { (page : ℕ) → latest_of histories page ≤ now },
}

/// Makes histories without a reference. It is `BadSettings` where a setting is out of its limits.
pub fn new_timed(alloc: Global, shape: &Shape) -> Result<Timed, Refusal> {
    match Settings::new(shape.k, shape.correlated, shape.retained) {
        Ok(settings) => Ok(Timed {
            histories: Histories::new(alloc, settings),
            now: 0,
        }),
        Err(refusal) => Err(refusal),
    }
}

impl Timed {
    fn prepare(&mut self, page: PageNo) -> Answer {
        if self.histories.holds(page) {
            return Answer::BadLine;
        }
        done(self.histories.prepare(page))
    }

    fn unprepare(&mut self, page: PageNo) -> Answer {
        if !self.histories.holds(page) {
            return Answer::BadLine;
        }
        self.histories.unprepare(page);
        done(Ok(()))
    }

    fn fault(&mut self, page: PageNo, t: u64) -> Answer {
        if t == 0 || t < self.now || !self.histories.holds(page) {
            return Answer::BadLine;
        }
        self.now = t;
        self.histories.fault(page, t);
        done(Ok(()))
    }

    fn hit(&mut self, page: PageNo, t: u64) -> Answer {
        if t == 0 || t < self.now || !self.histories.holds(page) || self.histories.last(page) == 0 {
            return Answer::BadLine;
        }
        self.now = t;
        self.histories.hit(page, t);
        done(Ok(()))
    }

    fn forget(&mut self, t: u64) -> Answer {
        if t == 0 || t < self.now {
            return Answer::BadLine;
        }
        self.now = t;
        Answer::Reply(Reply::Forgot(self.histories.purge(t)))
    }

    /// Makes a call. Where the page or the time does not meet what the call requires, or time goes back, the line is a
    /// bad one, and nothing is called.
    pub fn call(&mut self, call: &Said) -> Answer {
        let [first, second, _] = call.numbers.list;
        let page = PageNo::new(first);
        match call.verb {
            Verb::Prepare => self.prepare(page),
            Verb::Unprepare => self.unprepare(page),
            Verb::Fault => self.fault(page, second),
            Verb::Hit => self.hit(page, second),
            Verb::Forget => self.forget(first),
            Verb::Last => Answer::Number(self.histories.last(page)),
            Verb::Stamp => Answer::Number(self.histories.stamp(page, second as usize)),
            _ => Answer::BadLine,
        }
    }

    /// Returns a hash of what the first pages have: whether they are held, three newest stamps, and the newest
    /// reference.
    pub fn digest(&self) -> u64 {
        let mut digest = 0;
        for number in 0..PAGES {
            let page = PageNo::new(number);
            digest = mixed(digest, u64::from(self.histories.holds(page)));
            digest = mixed(digest, self.histories.last(page));
            digest = mixed(digest, self.histories.stamp(page, 1));
            digest = mixed(digest, self.histories.stamp(page, 2));
            digest = mixed(digest, self.histories.stamp(page, 3));
        }
        digest
    }
}

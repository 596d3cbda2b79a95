//! Who waits for the latch of a page, who of them gets it next, and who is woken.
//!
//! Where readers wait the latch is handed over, so that nobody takes it before those who are next. Readers get it after
//! the writer that had it when they came, or after the next one, and all that wait get it together. So a reader waits
//! for one writer, or two at most, and a writer for those before it and the readers between.
//!
//! Where writers alone wait, the first of them is woken, and until it runs others may take the latch: else each turn
//! would take as long as it takes to wake a thread. If it has been the first for some time the latch is handed over to
//! it. So a writer waits for that time for each that is before it.
//!
//! Times are nanoseconds since any moment.
ghost use Rattle.std.specs.Prelude.{◌≡◌, ◌≢◌, ◌⊎◌, ◌↔◌, ◌+◌, ◌-◌, ◌<◌, ◌≤◌, Some, None, IsTrue, IfSome, IsNone};
ghost use Rattle.bp_words.specs.Fields.{fields, word_of, HasRoom, IsFree, IsLatched};
ghost use Rattle.bp_words.specs.Waiters.{readers_of, writers_of, all_of, IsLetIn, IsDue, without_readers, without_writer, told, Enters, HandsOver, Looks};
ghost use Rattle.bp_words.specs.declared.waiters.Place.TheVariants.{Readers, Writer};

use super::word::{READER, Word};

/// For so long a writer has been the first, while no reader waits, before the latch is handed over to it.
const PATIENCE: u64 = 500_000;

/// Where threads sleep that wait for a latch: the readers of a turn, or the writer with a ticket.
#[derive(Clone, Copy)]
pub(super) enum Place {
    Readers(u64),
    Writer(u64),
}

/// Who waits for the latch of one page. While somebody does the word of the page's seat says so.
#[derive(Clone, Copy, Default)]
pub(super) struct Waiters {
    /// How many writers came to wait so far, and how many of them got the latch.
    pub(super) writers: u64,
    pub(super) let_in: u64,
    /// Since when the first writer that waits has been the first.
    pub(super) since: u64,
    /// The first writer was woken, and has not looked at the latch since.
    pub(super) is_awake: bool,
    /// The readers that are next, before any writer, and those that are next after a writer.
    pub(super) first: u64,
    pub(super) second: u64,
    /// How many times readers were let in.
    pub(super) turns: u64,
}

/// What a step makes of those that wait and of the page's word, and where threads sleep: the one that
/// came, or those that are to be woken.
#[derive(Clone, Copy)]
pub(super) struct Change {
    pub(super) waiters: Waiters,
    pub(super) word: u64,
    pub(super) place: Option<Place>,
}

impl Waiters {
    fn has_writers(self) -> bool
        ensures { IsTrue result ↔ 0 < writers_of self }
    {
        self.let_in < self.writers
    }

    /// Nobody waits.
    pub(super) fn is_empty(self) -> bool
        ensures { IsTrue result ↔ all_of self ≡ 0 }
    {
        !self.has_writers() && self.first == 0 && self.second == 0
    }

    /// Whether who sleeps at a place has got the latch.
    pub(super) fn has_let_in(self, place: Place) -> bool
        ensures { IsTrue result ↔ IsLetIn place self }
    {
        match place {
            Place::Readers(turn) => turn < self.turns,
            Place::Writer(ticket) => ticket < self.let_in,
        }
    }

    /// Whether the first writer has been the first for long enough.
    fn is_due(self, now: u64) -> bool
        ensures { IsTrue result ↔ IsDue now self }
    {
        now.saturating_sub(self.since) >= PATIENCE
    }

    /// With a thread that waits for a latch. `None` where that is free and nobody is to get it, or where
    /// there is no room for more guards.
    pub(super) fn entered(self, word: Word, latch: u64, now: u64) -> Option<Change>
        requires latch { (latch ≡ 1) ⊎ (latch ≡ 1099511627776) }
        requires writers { self.writers < 18446744073709551615 }
        requires readers { self.first + self.second < 18446744073709551615 }
        ensures had { IfSome result (λ next.
            ¬ (IsFree latch (fields word.0)) × HasRoom (fields word.0)
            × Enters now latch self (fields word.0) next.waiters (fields next.word) next.place) }
        ensures not { IsNone result → HasRoom (fields word.0) → IsFree latch (fields word.0) }
    {
        let next = word.with_queue(latch)?;
        if latch != READER {
            let since = if self.has_writers() { self.since } else { now };
            let waiters = Waiters {
                writers: self.writers + 1,
                since,
                ..self
            };
            return Some(waiters.with(next, Some(Place::Writer(self.writers))));
        }
        let waiters = if word.is_written() {
            Waiters {
                first: self.first + 1,
                ..self
            }
        } else {
            Waiters {
                second: self.second + 1,
                ..self
            }
        };
        Some(waiters.with(next, Some(Place::Readers(self.turns))))
    }

    fn with(self, word: u64, place: Option<Place>) -> Change
        ensures { result ≡ record { waiters = self; word = word; place = place } }
    {
        Change {
            waiters: self,
            word,
            place,
        }
    }

    /// With the latch handed over to who is next, or with the first writer awake, which is to look
    /// whether it can have the latch. Who lets a latch go for which threads wait makes this step.
    pub(super) fn handed_over(self, word: Word, now: u64) -> Change
        requires readers { (fields word.0).readers + self.first + self.second < 1048576 }
        requires turns { self.turns < 18446744073709551615 }
        ensures { HandsOver now self (fields word.0) result.waiters (fields result.word)
            result.place }
    {
        if self.is_empty() {
            return self.with(word.0, None);
        }
        if self.first > 0 || !self.has_writers() {
            return self.with_readers_in(word);
        }
        if self.second > 0 || self.is_due(now) {
            return self.with_writer_in(word, now);
        }
        // Until it has looked others may take the latch.
        let waiters = Waiters {
            is_awake: true,
            ..self
        };
        let place = if self.is_awake {
            None
        } else {
            Some(Place::Writer(self.let_in))
        };
        waiters.with(word.opened(), place)
    }

    /// With the latch taken by the writer with this ticket, which woke, if it is the first and is
    /// awake, no reader is before it, and nobody has the latch.
    pub(super) fn looked(self, word: Word, ticket: u64, now: u64) -> Change
        requires { ticket < self.writers }
        ensures { Looks now ticket self (fields word.0) result.waiters (fields result.word) }
    {
        if self.let_in != ticket || !self.is_awake {
            return self.with(word.0, None);
        }
        let waiters = Waiters {
            is_awake: false,
            ..self
        };
        // Where readers are before it, the latch is handed over.
        if self.first > 0 {
            return waiters.with(word.0, None);
        }
        waiters.with_writer_in(word, now)
    }

    /// With all readers that wait let in, if no writer has the latch.
    fn with_readers_in(self, word: Word) -> Change
        requires readers { (fields word.0).readers + self.first + self.second < 1048576 }
        requires turns { self.turns < 18446744073709551615 }
        ensures had { (fields word.0).writers ≡ 0
            → result ≡ record {
              waiters = without_readers self;
              word = word_of (told (without_readers self) (record (fields word.0) {
                readers = (fields word.0).readers + readers_of self;
              }));
              place = Some (Readers self.turns);
            } }
        ensures not { (fields word.0).writers ≡ 1
            → result ≡ record { waiters = self; word = word.0; place = None } }
    {
        let Some(next) = word.with_readers(self.first + self.second, !self.has_writers()) else {
            return self.with(word.0, None);
        };
        let waiters = Waiters {
            first: 0,
            second: 0,
            turns: self.turns + 1,
            ..self
        };
        waiters.with(next, Some(Place::Readers(self.turns)))
    }

    /// With the first writer let in, if nobody has the latch.
    fn with_writer_in(self, word: Word, now: u64) -> Change
        requires { self.let_in < self.writers }
        ensures had { ¬ (IsLatched (fields word.0))
            → result ≡ record {
              waiters = without_writer now self;
              word = word_of (told (without_writer now self) (record (fields word.0) { writers = 1 }));
              place = Some (Writer self.let_in);
            } }
        ensures not { IsLatched (fields word.0)
            → result ≡ record {
              waiters = self;
              word = word_of (record (fields word.0) { queued = 1; closed = 1 });
              place = None;
            } }
    {
        let waiters = Waiters {
            let_in: self.let_in + 1,
            since: now,
            is_awake: false,
            first: self.second,
            second: 0,
            ..self
        };
        let next = word.with_writer(waiters.is_empty());
        if word.is_latched() {
            self.with(next, None)
        } else {
            waiters.with(next, Some(Place::Writer(self.let_in)))
        }
    }
}

//! The word of a seat: the shares of the guards of its page, and what is so of the page's pass.
ghost use Rattle.std.specs.Prelude.{◌≡◌, ◌≢◌, ◌⊎◌, ◌↔◌, ◌+◌, ◌-◌, ◌<◌, ◌≤◌, Some, IsTrue, IfSome, IsNone};
ghost use Rattle.bp_words.specs.Fields.{fields, word_of, IsUsed, IsLatched, HasRoom, IsReadable, IsWritable, IsPinnable, IsUnused, IsFree, one_unless, one_if};

/// A shared latch, which is a pin too.
pub(super) const READER: u64 = 1;
/// A pin without a latch.
pub(super) const PIN: u64 = 1 << 20;
/// The exclusive latch, which is a pin too.
pub(super) const WRITER: u64 = 1 << 40;
/// Threads wait for the latch, in a queue: who lets it go calls them.
const QUEUED: u64 = 1 << 41;
/// The pass is out.
const OUT: u64 = 1 << 42;
/// The pass stays out when nobody uses the page.
const STAYS: u64 = 1 << 43;
/// Who comes now does not get the latch before those that wait.
const CLOSED: u64 = 1 << 44;
/// A pin that was made without the lock, of those that the part has not counted so far. The highest
/// bits: what does not fit is lost.
pub(super) const JOIN: u64 = 1 << 45;
/// After so many of them, a power of two, one is a reference.
const JOINS: u64 = 32;

const DUE: u64 = !(JOINS * JOIN - 1);

const READERS: u64 = PIN - READER;

const PINS: u64 = WRITER - PIN;

const JOINED: u64 = !(JOIN - 1);

const WAITED: u64 = QUEUED | CLOSED;

const LATCHED: u64 = READERS | WRITER;

const USERS: u64 = READERS | PINS | WRITER;
/// Who finds one of these bits gets no guard: the page has 2^19 readers or pins. A thread adds before
/// it looks, so the fields have room for as many again. Two for each thread take that: a reader that
/// became a pin, and another pin. So fewer than 2^18 threads never make a field go over into the next
/// one; more at one page might, as nothing counts threads.
const TOO_MANY: u64 = (READERS / 2 + 1) | (PINS / 2 + PIN / 2);

/// What a word was before something was added to it or taken from it, or what it is.
#[derive(Clone, Copy, Default)]
pub(super) struct Word(pub(super) u64);

impl Word {
    /// The page is pinned, or latched.
    #[inline]
    pub(super) fn is_used(self) -> bool
        ensures { IsTrue result ↔ IsUsed (fields self.0) }
    {
        self.0 & USERS != 0
    }

    /// A thread has the exclusive latch.
    pub(super) fn is_written(self) -> bool
        ensures { IsTrue result ↔ (fields self.0).writers ≡ 1 }
    {
        self.0 & WRITER != 0
    }

    /// A thread has a latch of the page.
    pub(super) fn is_latched(self) -> bool
        ensures { IsTrue result ↔ IsLatched (fields self.0) }
    {
        self.0 & LATCHED != 0
    }

    #[inline]
    pub(super) fn is_out(self) -> bool
        ensures { IsTrue result ↔ (fields self.0).out ≡ 1 }
    {
        self.0 & OUT != 0
    }

    /// Nobody uses the page, and its pass is out but need not stay.
    #[inline]
    pub(super) fn is_over(self) -> bool
        ensures { IsTrue result ↔ IsUnused (fields self.0) × (fields self.0).stays ≡ 0 }
    {
        self.0 & (OUT | STAYS | USERS) == OUT
    }

    /// Nothing has to be done by who let the page go: the pass stays, and no thread waits for the
    /// latch.
    #[inline]
    pub(super) fn is_quiet(self) -> bool
        ensures { IsTrue result ↔ (fields self.0).stays ≡ 1 × (fields self.0).queued ≡ 0 }
    {
        self.0 & (STAYS | QUEUED) == STAYS
    }

    /// Whether a share may be added.
    #[inline]
    pub(super) fn has_room(self) -> bool
        ensures { IsTrue result ↔ HasRoom (fields self.0) }
    {
        self.0 & TOO_MANY == 0
    }

    /// Whether a shared latch that was added to this is one: the pass is out, nobody has the
    /// exclusive latch or is to get a latch, and there is room.
    #[inline]
    pub(super) fn is_readable(self) -> bool
        ensures { IsTrue result ↔ IsReadable (fields self.0) }
    {
        self.0 & (OUT | WRITER | CLOSED | TOO_MANY) == OUT
    }

    /// The same, and it is not time for a reference.
    #[inline]
    pub(super) fn is_readable_at_once(self) -> bool
        ensures { IsTrue result ↔ IsReadable (fields self.0) × (fields self.0).joins < 32 }
    {
        self.0 & (OUT | WRITER | CLOSED | TOO_MANY | DUE) == OUT
    }

    /// Whether the exclusive latch may be added: the pass is out, nobody has a latch or is to get one,
    /// and it is not time for a reference.
    #[inline]
    pub(super) fn is_writable_at_once(self) -> bool
        ensures { IsTrue result ↔ IsWritable (fields self.0) × (fields self.0).joins < 32 }
    {
        self.0 & (OUT | LATCHED | CLOSED | DUE) == OUT
    }

    #[inline]
    pub(super) fn is_pinnable(self) -> bool
        ensures { IsTrue result ↔ IsPinnable (fields self.0) }
    {
        self.0 & (OUT | TOO_MANY) == OUT
    }

    /// The latch came free, for which a thread waits.
    #[inline]
    pub(super) fn is_awaited(self) -> bool
        ensures { IsTrue result ↔ (fields self.0).queued ≡ 1 × ¬ (IsLatched (fields self.0)) }
    {
        self.0 & (QUEUED | LATCHED) == QUEUED
    }

    /// So many pins were made without the lock that it is time for a reference.
    #[inline]
    pub(super) fn is_due(self) -> bool
        ensures { IsTrue result ↔ 32 ≤ (fields self.0).joins }
    {
        self.0 & DUE != 0
    }

    pub(super) fn joins(self) -> u64
        ensures { result ≡ (fields self.0).joins }
    {
        self.0 / JOIN
    }

    /// With the exclusive latch and a join, if it may be added at once.
    #[inline]
    pub(super) fn with_writer_at_once(self) -> Option<u64>
        ensures had { IfSome result (λ next.
            IsWritable (fields self.0) × (fields self.0).joins < 32
            × next ≡ word_of (record (fields self.0) {
              writers = 1;
              joins = (fields self.0).joins + 1;
            })) }
        ensures not { IsNone result → ¬ (IsWritable (fields self.0) × (fields self.0).joins < 32) }
    {
        if self.is_writable_at_once() {
            Some(self.0 + (WRITER + JOIN))
        } else {
            None
        }
    }

    /// Without a share that is in it.
    #[inline]
    pub(super) fn without(self, share: u64) -> Word
        requires { share ≤ self.0 }
        ensures { result.0 ≡ self.0 - share }
    {
        Word(self.0 - share)
    }

    /// With a pin in place of a shared latch.
    #[inline]
    pub(super) fn turned_to_pin(self) -> Word
        requires reader { 0 < (fields self.0).readers }
        requires fits { (fields self.0).pins + 1 < 1048576 }
        ensures { result.0 ≡ word_of (record (fields self.0) {
          readers = (fields self.0).readers - 1;
          pins = (fields self.0).pins + 1;
        }) }
    {
        Word(self.0 + (PIN - READER))
    }

    /// Whether a latch is free, and nobody is to get it.
    #[inline]
    fn is_free(self, latch: u64) -> bool
        ensures { IsTrue result ↔ IsFree latch (fields self.0) }
    {
        if latch == READER {
            self.0 & (WRITER | CLOSED) == 0
        } else {
            self.0 & (LATCHED | CLOSED) == 0
        }
    }

    /// With a latch in place of a share, if the latch is free and nobody is to get it.
    #[inline]
    pub(super) fn with_latch(self, latch: u64, in_place_of: u64) -> Option<u64>
        requires latch { (latch ≡ 1) ⊎ (latch ≡ 1099511627776) }
        requires share { in_place_of ≤ self.0 }
        ensures had { IfSome result (λ next.
            IsFree latch (fields self.0) × HasRoom (fields self.0)
            × next ≡ self.0 - in_place_of + latch) }
        ensures not { IsNone result → ¬ (IsFree latch (fields self.0) × HasRoom (fields self.0)) }
    {
        if self.is_free(latch) && self.has_room() {
            Some(self.0 - in_place_of + latch)
        } else {
            None
        }
    }

    /// With a thread in the queue for the latch, if that is not free or others wait.
    pub(super) fn with_queue(self, latch: u64) -> Option<u64>
        ensures queued { IfSome result (λ next.
            ¬ (IsFree latch (fields self.0)) × HasRoom (fields self.0)
            × next ≡ word_of (record (fields self.0) { queued = 1; closed = 1 })) }
        ensures not { IsNone result → HasRoom (fields self.0) → IsFree latch (fields self.0) }
    {
        if self.has_room() && !self.is_free(latch) {
            Some((self.0 & !WAITED) + WAITED)
        } else {
            None
        }
    }

    /// With so many readers of the queue let in, if no writer is there.
    pub(super) fn with_readers(self, readers: u64, is_queue_empty: bool) -> Option<u64>
        requires fits { (fields self.0).readers + readers < 1048576 }
        ensures had { IfSome result (λ next.
            (fields self.0).writers ≡ 0
            × next ≡ word_of (record (fields self.0) {
              readers = (fields self.0).readers + readers;
              queued = one_unless is_queue_empty;
              closed = one_unless is_queue_empty;
            })) }
        ensures not { IsNone result → (fields self.0).writers ≡ 1 }
    {
        if self.is_written() {
            return None;
        }
        let opened = (self.0 & !WAITED) + readers * READER;
        Some(if is_queue_empty {
            opened
        } else {
            opened + WAITED
        })
    }

    /// With a writer of the queue let in if nobody has the latch, else closed.
    pub(super) fn with_writer(self, is_queue_empty: bool) -> u64
        ensures latched { IsLatched (fields self.0)
            → result ≡ word_of (record (fields self.0) { queued = 1; closed = 1 }) }
        ensures free { ¬ (IsLatched (fields self.0))
            → result ≡ word_of (record (fields self.0) {
              writers = 1;
              queued = one_unless is_queue_empty;
              closed = one_unless is_queue_empty;
            }) }
    {
        let opened = self.0 & !WAITED;
        if self.is_latched() {
            opened + WAITED
        } else if is_queue_empty {
            opened + WRITER
        } else {
            opened + WAITED + WRITER
        }
    }

    /// Open for who comes.
    pub(super) fn opened(self) -> u64
        ensures { result ≡ word_of (record (fields self.0) { closed = 0 }) }
    {
        self.0 & !CLOSED
    }

    /// With the pass out, and a pin.
    #[inline]
    pub(super) fn with_pass(self, stays: bool) -> u64
        requires home { (fields self.0).out ≡ 0 × (fields self.0).stays ≡ 0 }
        requires fits { (fields self.0).pins + 1 < 1048576 }
        ensures { result ≡ word_of (record (fields self.0) {
          pins = (fields self.0).pins + 1;
          out = 1;
          stays = one_if stays;
          joins = 0;
        }) }
    {
        let begun = (self.0 & !JOINED) + OUT + PIN;
        if stays { begun + STAYS } else { begun }
    }

    /// Without the pass, if nobody uses the page.
    #[inline]
    pub(super) fn without_pass(self) -> Option<u64>
        ensures had { IfSome result (λ next.
            IsUnused (fields self.0)
            × next ≡ word_of (record (fields self.0) { out = 0; stays = 0; joins = 0 })) }
        ensures not { IsNone result → ¬ (IsUnused (fields self.0)) }
    {
        if self.0 & (OUT | USERS) == OUT {
            Some(self.0 & !(OUT | STAYS | JOINED))
        } else {
            None
        }
    }

    pub(super) fn without_joins(self) -> u64
        ensures { result ≡ word_of (record (fields self.0) { joins = 0 }) }
    {
        self.0 & !JOINED
    }

    pub(super) fn staying(self) -> u64
        ensures { result ≡ word_of (record (fields self.0) { stays = 1 }) }
    {
        (self.0 & !STAYS) + STAYS
    }
}

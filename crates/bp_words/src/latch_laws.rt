//! Laws of the latch of a page: each function does nothing, and its contract is the law.
ghost use Rattle.std.specs.Prelude.{◌≡◌, ◌⊎◌, ℕ, ◌+◌, ◌<◌, ◌≤◌, true, false, Option, Some};
ghost use Rattle.bp_words.specs.declared.waiters.Waiters.{Waiters};
ghost use Rattle.bp_words.specs.declared.waiters.Place.{Place};
ghost use Rattle.bp_words.specs.declared.waiters.Place.TheVariants.{Readers, Writer};
ghost use Rattle.bp_words.specs.Fields.{Fields, IsLatched, IsFree};
ghost use Rattle.bp_words.specs.Waiters.{readers_of, writers_of, all_of, IsLetIn, IsDue, WriterIsEarly, HandsOver, Looks};
ghost use Rattle.bp_words.specs.Latch.{Latch, latch_of, IsAwaited, Step, Way, Heard};

/// Each change of the word, but by those that wait, is such a step: a thread comes, or its share goes. These are all that
/// the other functions of the word give.
pub fn each_change_is_a_step()
    ensures reads { (now : ℕ) (q : Waiters) (f : Fields) (calls pins joins : ℕ) →
        Step now (latch_of q f calls)
        (latch_of q (record f { readers = f.readers + 1; pins = pins; joins = joins }) calls) }
    ensures writes { (now : ℕ) (q : Waiters) (f : Fields) (calls pins joins : ℕ) →
        IsFree 1099511627776 f → Step now (latch_of q f calls)
        (latch_of q (record f { writers = 1; pins = pins; joins = joins }) calls) }
    ensures pins { (now : ℕ) (q : Waiters) (f : Fields) (calls pins out stays joins : ℕ) →
        Step now (latch_of q f calls)
        (latch_of q (record f { pins = pins; out = out; stays = stays; joins = joins }) calls) }
    ensures leaves { (now : ℕ) (q : Waiters) (f : Fields) (calls readers writers pins : ℕ) →
        readers ≤ f.readers → writers ≤ f.writers →
        let left = record f { readers = readers; writers = writers; pins = pins } in
        (IsAwaited left → Step now (latch_of q f calls) (latch_of q left (calls + 1)))
        × (¬ (IsAwaited left) → Step now (latch_of q f calls) (latch_of q left calls)) }
{}

/// No hand-over is lost: while threads wait the word says so, and one has the latch, or is to hand it over, or is the
/// first writer, which is awake and before which no readers go. So it is once nobody waits, after each step of any
/// thread, and on each way of such steps.
pub fn no_hand_over_is_lost()
    ensures first { (l : Latch) → all_of l.waiters ≡ 0 → l.waiters.is_awake ≡ false
        → l.waiters.let_in ≤ l.waiters.writers → l.word.queued ≡ 0 → l.word.closed ≡ 0
        → Heard l }
    ensures step { (now : ℕ) (l m : Latch) → Step now l m → Heard l → Heard m }
    ensures way { (from : ℕ) (l m : Latch) → Way from l m → Heard l → Heard m }
{}

/// Who is first is let in as soon as the word allows it. A hand-over of a latch that nobody has lets all readers in that
/// wait, or the first writer. Or that writer is awake then, and the word open, for half a millisecond at most while
/// writers alone wait; and it takes the latch if nobody has that once it looks.
pub fn the_first_is_let_in()
    ensures hands_over { (now : ℕ) (q then : Waiters) (f word : Fields) (place : Option Place) →
        HandsOver now q f then word place → ¬ (IsLatched f) → 0 < all_of q →
        ((IsLetIn (Readers q.turns) then) × (word.readers ≡ f.readers + readers_of q)
        × (readers_of then ≡ 0))
        ⊎ ((IsLetIn (Writer q.let_in) then) × (word.writers ≡ 1))
        ⊎ (WriterIsEarly now q × (then.is_awake ≡ true) × (word.closed ≡ 0)) }
    ensures looks { (now : ℕ) (q then : Waiters) (f word : Fields) →
        Looks now q.let_in q f then word → q.is_awake ≡ true → q.first ≡ 0 →
        ¬ (IsLatched f) →
        (IsLetIn (Writer q.let_in) then) × (word.writers ≡ 1) }
{}

/// Who is let in by another is woken: it sleeps at the place that the hand-over names. So is a writer that is to look.
/// A writer that looks lets nobody in but itself.
pub fn who_is_let_in_is_woken()
    ensures hands_over { (now : ℕ) (q then : Waiters) (f word : Fields) (place : Option Place)
        (sleeper : Place) → HandsOver now q f then word place →
        ¬ (IsLetIn sleeper q) → IsLetIn sleeper then → place ≡ Some sleeper }
    ensures to_look { (now : ℕ) (q then : Waiters) (f word : Fields) (place : Option Place) →
        HandsOver now q f then word place → q.is_awake ≡ false → then.is_awake ≡ true →
        place ≡ Some (Writer q.let_in) }
    ensures looks { (now ticket : ℕ) (q then : Waiters) (f word : Fields) (sleeper : Place) →
        Looks now ticket q f then word → ¬ (IsLetIn sleeper q) → IsLetIn sleeper then →
        sleeper ≡ Writer ticket }
{}

/// No reader is skipped: while it waits who comes finds the word closed, and one writer gets the latch at most. None
/// does where a writer had it as the reader came, or has got it since.
pub fn a_reader_waits_for_one_writer()
    ensures { (from : ℕ) (l m : Latch) → Heard l → Way from l m →
        0 < readers_of l.waiters →
        m.waiters.turns ≡ l.waiters.turns →
        (m.word.closed ≡ 1) × (m.waiters.let_in ≤ l.waiters.let_in + 1)
        × (0 < l.waiters.first → m.waiters.let_in ≡ l.waiters.let_in) }
{}

/// No writer is skipped that has been the first for half a millisecond. The next hand-over closes the word, or lets it
/// in. Then who comes finds the word closed until it is let in, and readers get one turn before it at most: none where
/// no writer has the latch and no readers go before it.
pub fn nobody_goes_ahead_of_a_writer_that_is_due()
    ensures closes { (now : ℕ) (l m : Latch) (place : Option Place) → Heard l →
        HandsOver now l.waiters l.word m.waiters m.word place → 0 < writers_of l.waiters →
        IsDue now l.waiters → m.waiters.let_in ≡ l.waiters.let_in → m.word.closed ≡ 1 }
    ensures stays { (from : ℕ) (l m : Latch) → Heard l → Way from l m →
        0 < writers_of l.waiters →
        IsDue from l.waiters → l.word.closed ≡ 1 → m.waiters.let_in ≡ l.waiters.let_in →
        (m.word.closed ≡ 1) × (m.waiters.turns ≤ l.waiters.turns + 1)
        × (l.word.writers + l.waiters.first ≡ 0 → m.waiters.turns ≡ l.waiters.turns) }
{}

//! What each seat knows of a frame, the rule that holds between any two steps, and the kinds of step.
use atomic_table::{Join, Play, Seat, Split, Table, TableRule};
use std::alloc::Global;

/// Two words. The table has no slot, so the type of its slots says nothing.
pub(crate) type Words = Table<u8, View, (), Law, Global>;

/// A seat from which a thread makes steps on the words. It has no bytes.
pub(crate) type Token = Seat<u8, View>;

/// What a seat knows. No value of it is made.
pub(crate) struct View {
    /// Its shares among the readers: those that read, those that keep the page alone, and those of which it is not
    /// known yet that they are shares.
    pub reads: u64,
    pub halves: u64,
    pub strays: u64,
    /// Its shares among the pins: those that pin, and those of which it is not known yet.
    pub pins: u64,
    pub loose: u64,
    /// Whether it has the share that writes.
    pub writes: u64,
    /// The threads for which it may add a share before it has looked, and how many of these wait for a shared latch.
    pub tickets: u64,
    pub waits: u64,
    /// How many wait for the exclusive latch, and 1 if it is the queue's.
    pub wants: u64,
    pub queues: u64,
    /// It is the keeper's.
    pub tends: bool,
    /// The page of its shares; of the keeper, the page to which the frame is given.
    pub page: Option<u64>,
    /// What the keeper stored as the page's number.
    pub stored: u64,
}

/// The rule of a frame: the first word counts the shares, a writer is alone with pins, and all shares are of the page.
pub(crate) struct Law;

impl TableRule<u8, View, ()> for Law {
    ghost use Rattle.bp_words.specs.Rule.{FrameRule};
    ghost use Rattle.bp_words.specs.Views.{founder};

    ghost holds = { λ _ state. FrameRule state };

    ghost first = { λ _. founder 262143 };
}

/// A thread adds a share to the readers, and finds then what it is.
pub(crate) struct ComeToRead;

impl Play<u8, View> for ComeToRead {
    ghost use Rattle.bp_words.specs.Views.{ComesToRead};

    ghost then = { ComesToRead };
}

/// A thread adds a share to the pins, and finds then what it is.
pub(crate) struct ComeToPin;

impl Play<u8, View> for ComeToPin {
    ghost use Rattle.bp_words.specs.Views.{ComesToPin};

    ghost then = { ComesToPin };
}

/// A thread takes the share that writes.
pub(crate) struct ComeAlone;

impl Play<u8, View> for ComeAlone {
    ghost use Rattle.bp_words.specs.Views.{ComesAlone};

    ghost then = { ComesAlone };
}

/// A pin becomes a share that reads.
pub(crate) struct ToRead;

impl Play<u8, View> for ToRead {
    ghost use Rattle.bp_words.specs.Views.{Turns};

    ghost then = { Turns 1 0 0 };
}

/// A pin becomes the share that writes.
pub(crate) struct ToWrite;

impl Play<u8, View> for ToWrite {
    ghost use Rattle.bp_words.specs.Views.{Turns};

    ghost then = { Turns 0 0 1 };
}

/// A share that reads comes beside a pin.
pub(crate) struct AddRead;

impl Play<u8, View> for AddRead {
    ghost use Rattle.bp_words.specs.Views.{Adds};

    ghost then = { Adds 1 0 };
}

/// The share that writes comes beside a pin.
pub(crate) struct AddWrite;

impl Play<u8, View> for AddWrite {
    ghost use Rattle.bp_words.specs.Views.{Adds};

    ghost then = { Adds 0 1 };
}

/// A pin gives out the latch beside it.
pub(crate) struct Beside;

impl Split<View> for Beside {
    ghost use Rattle.bp_words.specs.Shares.{given};
    ghost use Rattle.bp_words.specs.Views.{held};

    ghost left = { λ v. held 0 1 0 (given v.page) };

    ghost right = { λ v. held v.reads 0 v.writes (given v.page) };
}

/// A share that kept the page alone becomes a pin.
pub(crate) struct ToPin;

impl Play<u8, View> for ToPin {
    ghost use Rattle.bp_words.specs.Views.{TurnsToPin};

    ghost then = { TurnsToPin };
}

/// A seat with a share looks at the page's number.
pub(crate) struct LookPage;

impl Play<u8, View> for LookPage {
    ghost use Rattle.bp_words.specs.Views.{Looks};

    ghost then = { Looks };
}

/// A seat gives its share back.
pub(crate) struct Leave;

impl Play<u8, View> for Leave {
    ghost use Rattle.bp_words.specs.Views.{Leaves};

    ghost then = { Leaves };
}

/// What the word says of the pass and of who waits changes, and no share.
pub(crate) struct Flag;

impl Play<u8, View> for Flag {
    ghost use Rattle.bp_words.specs.Views.{Stays};

    ghost then = { Stays };
}

/// The keeper writes the number of the next page.
pub(crate) struct Store;

impl Play<u8, View> for Store {
    ghost use Rattle.bp_words.specs.Views.{Stores};

    ghost then = { Stores };
}

/// A seat looks at the word.
pub(crate) struct Find;

impl Play<u8, View> for Find {
    ghost use Rattle.bp_words.specs.Views.{Finds};

    ghost then = { Finds };
}

/// The keeper looks at the word while the frame is given to no page.
pub(crate) struct FindHome;

impl Play<u8, View> for FindHome {
    ghost use Rattle.bp_words.specs.Views.{FindsHome};

    ghost then = { FindsHome };
}

/// The keeper gives the frame to that page, with a pin.
pub(crate) struct Begin;

impl Play<u8, View> for Begin {
    ghost use Rattle.bp_words.specs.Views.{Begins};

    ghost then = { Begins };
}

/// The keeper takes the frame back.
pub(crate) struct End;

impl Play<u8, View> for End {
    ghost use Rattle.bp_words.specs.Views.{Ends};

    ghost then = { Ends };
}

/// What a seat with shares learns of them.
pub(crate) struct Compare;

impl Play<u8, View> for Compare {
    ghost use Rattle.bp_words.specs.Views.{Compares};

    ghost then = { Compares };
}

/// A seat takes in the share of another, which is left with nothing.
pub(crate) struct TakeIn;

impl Join<View> for TakeIn {
    ghost use Rattle.bp_words.specs.Views.{joined, spent};

    ghost both = { joined };

    ghost spent = { spent };
}

/// The keeper gives out what it took in.
pub(crate) struct GiveOut;

impl Split<View> for GiveOut {
    ghost use Rattle.bp_words.specs.Views.{keeper, held};

    ghost left = { λ v. keeper 0 v.tickets v.page v.stored };

    ghost right = { λ v. held v.reads v.pins v.writes v.stored };
}

/// A thread's seat gives out the share that it had, and goes on with its ticket.
pub(crate) struct Part;

impl Split<View> for Part {
    ghost use Rattle.bp_words.specs.Shares.{given};
    ghost use Rattle.bp_words.specs.Views.{idle, held};

    ghost left = { λ _. idle };

    ghost right = { λ v. held v.reads v.pins v.writes (given v.page) };
}

/// The keeper gives a ticket out.
pub(crate) struct Admit;

impl Split<View> for Admit {
    ghost use Rattle.std.specs.Prelude.{◌-◌};
    ghost use Rattle.bp_words.specs.Views.{idle, keeper};

    ghost left = { λ v. keeper v.pins (v.tickets - 1) v.page v.stored };

    ghost right = { λ _. idle };
}

/// A thread that came into the queue waits for a shared latch.
pub(crate) struct WaitToRead;

impl Play<u8, View> for WaitToRead {
    ghost use Rattle.bp_words.specs.Views.{Waits};

    ghost then = { Waits 1 0 };
}

/// A thread that came into the queue waits for the exclusive latch.
pub(crate) struct WaitToWrite;

impl Play<u8, View> for WaitToWrite {
    ghost use Rattle.bp_words.specs.Views.{Waits};

    ghost then = { Waits 0 1 };
}

/// A queue finds that all of it fit.
pub(crate) struct FindRoom;

impl Play<u8, View> for FindRoom {
    ghost use Rattle.bp_words.specs.Views.{FindsRoom};

    ghost then = { FindsRoom };
}

/// All that wait for a shared latch are let in.
pub(crate) struct LetIn;

impl Play<u8, View> for LetIn {
    ghost use Rattle.bp_words.specs.Views.{LetsIn};

    ghost then = { LetsIn };
}

/// One that waits for the exclusive latch is let in.
pub(crate) struct LetWriterIn;

impl Play<u8, View> for LetWriterIn {
    ghost use Rattle.bp_words.specs.Views.{LetsWriterIn};

    ghost then = { LetsWriterIn };
}

/// What the word says of who waits.
pub(crate) struct Tell;

impl Play<u8, View> for Tell {
    ghost use Rattle.bp_words.specs.Views.{Tells};

    ghost then = { Tells };
}

/// A thread's seat takes its pin in.
pub(crate) struct TakePin;

impl Join<View> for TakePin {
    ghost use Rattle.bp_words.specs.Views.{with_pin, spent};

    ghost both = { with_pin };

    ghost spent = { spent };
}

/// The queue takes a thread in, with its pin.
pub(crate) struct TakeWaiter;

impl Join<View> for TakeWaiter {
    ghost use Rattle.bp_words.specs.Views.{entered, spent};

    ghost both = { entered };

    ghost spent = { spent };
}

/// The queue gives out a reader that was let in.
pub(crate) struct Hand;

impl Split<View> for Hand {
    ghost use Rattle.std.specs.Prelude.{◌-◌};
    ghost use Rattle.bp_words.specs.Views.{guest, queue};

    ghost left = { λ v. queue v.waits v.wants (v.reads - 1) 0 0 v.page };

    ghost right = { λ v. guest 1 0 0 1 0 0 1 v.page };
}

/// The queue gives out the thread that came in and does not wait, or the writer that was let in.
pub(crate) struct HandOne;

impl Split<View> for HandOne {
    ghost use Rattle.bp_words.specs.Views.{guest, queue};

    ghost left = { λ v. queue v.waits v.wants v.reads 0 0 v.page };

    ghost right = { λ v. guest 0 0 0 1 0 v.writes 1 v.page };
}

/// The seat of a thread that was let in gives out its latch.
pub(crate) struct PartLatch;

impl Split<View> for PartLatch {
    ghost use Rattle.bp_words.specs.Shares.{given};
    ghost use Rattle.bp_words.specs.Views.{guest, held};

    ghost left = { λ v. guest 0 0 0 1 0 0 1 v.page };

    ghost right = { λ v. held v.reads 0 v.writes (given v.page) };
}

/// The first seat gives out the queue.
pub(crate) struct MakeQueue;

impl Split<View> for MakeQueue {
    ghost use Rattle.std.specs.Prelude.{None};
    ghost use Rattle.bp_words.specs.Views.{keeper, queue};

    ghost left = { λ v. keeper 0 v.tickets v.page v.stored };

    ghost right = { λ _. queue 0 0 0 0 0 None };
}

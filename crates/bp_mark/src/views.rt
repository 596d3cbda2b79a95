//! What each seat knows of the mark, the rule that holds between any two steps, and the seven kinds of step.
use atomic_table::{Join, Play, Seat, Split, Table, TableRule};
use bp_page::Lsn;
use std::alloc::Global;

/// One word. The table has no slot, so the type of its slots says nothing.
pub(crate) type Word = Table<u8, View, (), DurableMark, Global>;

/// A seat from which a thread makes steps on the word. It has no bytes.
pub(crate) type WordSeat = Seat<u8, View>;

/// What a seat knows. No value of it is made.
pub(crate) struct View {
    /// The greatest LSN raised, which the log end alone knows.
    pub frontier: Option<Lsn>,
    /// The greatest LSN seen.
    pub seen: Lsn,
}

/// The rule of the mark: the word is the frontier, and no view has seen more than the word.
pub(crate) struct DurableMark;

impl TableRule<u8, View, ()> for DurableMark {
    ghost use Rattle.bp_mark.specs.Rule.{MarkRule};
    ghost use Rattle.bp_mark.specs.Views.{log_end};

    ghost holds = { λ _ state. MarkRule state };

    ghost first = { λ _. log_end 0 0 };
}

/// The log end raises the word.
pub(crate) struct Raise;

impl Play<u8, View> for Raise {
    ghost use Rattle.bp_mark.specs.Views.{Raises};

    ghost then = { Raises };
}

/// A reader looks at the word.
pub(crate) struct Look;

impl Play<u8, View> for Look {
    ghost use Rattle.bp_mark.specs.Views.{Looks};

    ghost then = { Looks };
}

/// The log end looks at the word, which bounds what it took in.
pub(crate) struct Bound;

impl Play<u8, View> for Bound {
    ghost use Rattle.bp_mark.specs.Views.{Bounds};

    ghost then = { Bounds };
}

/// The log end gives the first reader, which has seen nothing.
pub(crate) struct First;

impl Split<View> for First {
    ghost use Rattle.bp_mark.specs.Views.{reader};

    ghost left = { λ log_end. log_end };

    ghost right = { λ _. reader 0 };
}

/// A reader gives a second one, which has seen as much.
pub(crate) struct SplitReader;

impl Split<View> for SplitReader {
    ghost left = { λ reader. reader };

    ghost right = { λ reader. reader };
}

/// A reader takes in what another has seen. The other is spent.
pub(crate) struct JoinReaders;

impl Join<View> for JoinReaders {
    ghost use Rattle.bp_mark.specs.Views.{joined, reader};

    ghost both = { joined };

    ghost spent = { reader 0 };
}

/// The log end takes in what a reader has seen. That reader is spent.
pub(crate) struct Last;

impl Join<View> for Last {
    ghost use Rattle.bp_mark.specs.Views.{joined, reader};

    ghost both = { joined };

    ghost spent = { reader 0 };
}

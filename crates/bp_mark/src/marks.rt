//! `Mark`: the shared word that says up to which LSN the log is durable, from where it is made to where it ends.
ghost use Rattle.std.specs.Prelude.{◌≡◌, ◌≤◌, IfOk, OnErr};
ghost use Rattle.bp_mark.specs.Rule.{Fits};

use crate::log_end::LogEnd;
use crate::readers::Reader;
use crate::views::{First, Last, Word, WordSeat};
use atomic_table::Table;
use bp_page::{Lsn, Refusal};
use std::alloc::Global;
use std::marker::Model;

/// The word that a log end raises and readers look at, shared among threads by reference.
///
/// Contracts see it as its name, by which it is told from every other mark. Each call on a log end or a reader needs it
/// to be of the mark that is passed, so no value of one mark is ever taken for another's.
#[derive(Drop)]
pub struct Mark {
    pub(crate) table: Word,
}

impl Model for Mark {
    ghost use Rattle.std.specs.Prelude.{◌≡◌};
    ghost use Rattle.bp_mark.specs.Marks.{MarkName};

    ghost Value = { MarkName };

    ghost view = { λ m. m.table.shared.table_id };

    ghost invariant = { λ m. (m.table.shared.table_id.words ≡ 1)
        × (m.table.shared.table_id.slots ≡ 0) };
}

// Frees the table and returns its last word, which the seat's view fits.
fn last_word(table: Word, seat: WordSeat) -> u64
    requires seat { seat.table_id ≡ table.shared.table_id }
    requires one_word { (table.shared.table_id.words ≡ 1) × (table.shared.table_id.slots ≡ 0) }
    ensures { Fits result seat.id seat.me.0 }
{
    let closed = table.close_with(seat);
    let word = closed.word(0);
    closed.free();
    word
}

impl Mark {
    /// Makes a mark at 0, with its log end, which is the only one that it ever has, and its first reader.
    ///
    /// No other call of this crate takes memory. Where there is none the answer is `OutOfMemory`, and nothing is made.
    #[tactic(auto, using(crate::proofs::KeepsRule::split_kept))]
    pub fn new(alloc: Global) -> Result<(Mark, LogEnd, Reader), Refusal>
        ensures log_end { IfOk result (λ made. made.1 ≡ record { mark = made.0; frontier = 0 }) }
        ensures reader { IfOk result (λ made. made.2 ≡ record { mark = made.0; seen = 0 }) }
        ensures refused { OnErr result (result ≡ Err Refusal.OutOfMemory) }
    {
        let (table, mut seat) = Table::of_words(alloc, &[0], &())?;
        let first = table.shared.split_seat::<First>(&mut seat);
        let end = LogEnd {
            frontier: Lsn::new(0),
            seat,
        };
        Ok((Mark { table }, end, Reader { seat: first }))
    }

    /// Ends the mark and returns its frontier: the greatest LSN raised, else 0. The reader has seen no more than that.
    ///
    /// A reader that was split off has a bound here only where it was joined to this one before.
    #[tactic(auto, using(crate::proofs::KeepsRule::join_kept))]
    pub fn close(self, end: LogEnd, reader: Reader) -> Lsn
        requires log_end { end.mark ≡ self }
        requires reader { reader.mark ≡ self }
        ensures frontier { result ≡ end.frontier }
        ensures seen { reader.seen ≤ result }
    {
        let Mark { table } = self;
        let LogEnd {
            frontier: _,
            mut seat,
        } = end;
        let Reader { seat: spent } = reader;
        table.shared.join_seat::<Last>(&mut seat, spent);
        Lsn::new(last_word(table, seat))
    }
}

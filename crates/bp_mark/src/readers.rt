//! `Reader`: a seat from which a thread looks at the mark.
ghost use Rattle.std.specs.Prelude.{◌≡◌, ◌≤◌, max};

use crate::marks::Mark;
use crate::views::{JoinReaders, Look, SplitReader, WordSeat};
use bp_page::Lsn;
use std::marker::Model;

/// A seat from which a thread looks at a mark.
///
/// Contracts see of which mark it is, and the greatest LSN that it has seen. It has no bytes, so no call can answer an
/// LSN that it saw before in place of a look.
#[derive(Drop)]
pub struct Reader {
    pub(crate) seat: WordSeat,
}

impl Model for Reader {
    ghost use Rattle.std.specs.Prelude.{◌≡◌, []};
    ghost use Rattle.bp_mark.specs.Marks.{ReaderValue};
    ghost use Rattle.bp_mark.specs.Views.{reader};

    ghost Value = { ReaderValue };

    ghost view = { λ r. record { mark = r.seat.table_id; seen = r.seat.me.0.seen } };

    ghost invariant = { λ r. r.seat.me ≡ (reader r.seat.me.0.seen, []) };
}

impl Reader {
    /// Looks at the mark, and returns the LSN up to which the log is durable: at least what this reader saw before.
    ///
    /// It is one load, and neither waits nor takes memory.
    pub fn look(&mut self, mark: &Mark) -> Lsn
        requires { self.old.mark ≡ mark.now }
        ensures mark { self.new.mark ≡ self.old.mark }
        ensures seen { result ≡ self.new.seen }
        ensures no_less { self.old.seen ≤ result }
    {
        Lsn::new(mark.table.shared.load::<Look>(&mut self.seat, 0))
    }

    /// Splits the reader in two. Each has seen what this one has.
    #[tactic(auto, using(crate::proofs::KeepsRule::split_kept))]
    pub fn split(self, mark: &Mark) -> (Reader, Reader)
        requires { self.mark ≡ mark.now }
        ensures first { result.0 ≡ self }
        ensures second { result.1 ≡ self }
    {
        let Reader { mut seat } = self;
        let second = mark.table.shared.split_seat::<SplitReader>(&mut seat);
        (Reader { seat }, Reader { seat: second })
    }

    /// Joins two readers into one, which has seen the greater of what both have.
    #[tactic(auto, using(crate::proofs::KeepsRule::join_kept))]
    pub fn join(self, mark: &Mark, other: Reader) -> Reader
        requires first { self.mark ≡ mark.now }
        requires second { other.mark ≡ mark.now }
        ensures { result ≡ record self { seen = max self.seen other.seen } }
    {
        let Reader { mut seat } = self;
        let Reader { seat: spent } = other;
        mark.table.shared.join_seat::<JoinReaders>(&mut seat, spent);
        Reader { seat }
    }
}

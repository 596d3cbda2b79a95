//! `LogEnd`: the seat of the log writer, which alone raises the mark.
ghost use Rattle.std.specs.Prelude.{◌≡◌, ◌≤◌, max};

use crate::marks::Mark;
use crate::readers::Reader;
use crate::views::{Bound, Last, Raise, SplitReader, WordSeat};
use bp_page::Lsn;
use std::marker::Model;

/// The log writer's end of a mark. There is exactly one for each mark, and it alone raises it.
#[derive(Drop)]
pub struct LogEnd {
    pub(crate) frontier: Lsn,
    pub(crate) seat: WordSeat,
}

impl Model for LogEnd {
    ghost use Rattle.std.specs.Prelude.{◌≡◌, []};
    ghost use Rattle.bp_mark.specs.Marks.{LogEndValue};
    ghost use Rattle.bp_mark.specs.Views.{log_end};

    ghost Value = { LogEndValue };

    ghost view = { λ e. record { mark = e.seat.table_id; frontier = e.frontier } };

    ghost invariant = { λ e. e.seat.me ≡ (log_end e.frontier 0, []) };
}

impl LogEnd {
    /// Returns the greatest LSN raised, else 0.
    pub fn frontier(&self) -> Lsn
        ensures { result ≡ self.now.frontier }
    {
        self.frontier
    }

    /// Raises the mark to the LSN. A mark that is there or above already stays as it is.
    ///
    /// Call it only once the log is durable up to that LSN, for whoever looks will take it to be so. It is one atomic
    /// step, and neither waits nor takes memory.
    pub fn raise(&mut self, mark: &Mark, lsn: Lsn)
        requires { self.old.mark ≡ mark.now }
        ensures { self.new ≡ record self.old { frontier = max self.old.frontier lsn } }
    {
        mark.table
            .shared
            .fetch_max::<Raise>(&mut self.seat, 0, lsn.number());
        self.frontier = self.frontier.max(lsn);
    }

    /// Bounds what a reader of the mark has seen: it is no more than the frontier. Nothing changes.
    #[tactic(auto, using(crate::proofs::KeepsRule::split_kept, crate::proofs::KeepsRule::join_kept))]
    pub fn bounds(&mut self, mark: &Mark, reader: &mut Reader)
        requires log_end { self.old.mark ≡ mark.now }
        requires reader { reader.old.mark ≡ mark.now }
        ensures same { self.new ≡ self.old }
        ensures reader { reader.new ≡ reader.old }
        ensures seen { reader.new.seen ≤ self.new.frontier }
    {
        let seen = mark
            .table
            .shared
            .split_seat::<SplitReader>(&mut reader.seat);
        mark.table.shared.join_seat::<Last>(&mut self.seat, seen);
        let _ = mark.table.shared.load::<Bound>(&mut self.seat, 0);
    }
}

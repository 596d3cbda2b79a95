//! `PartedLog`: says to all parts how far the one log is durable.
ghost use Rattle.std.specs.Prelude.{◌≡◌, ◌≤◌, length, max, vec_len};
ghost use Rattle.bp_parts.specs.Logs.{AreEndsOf};
ghost use Rattle.bp_parts.specs.Parts.{AreNumbered};

use crate::pool::{PartCount, PartedPool};
use bp_keeper::ListKeeper;
use bp_mark::LogEnd;
use bp_page::Lsn;
use bp_shared::PartNames;
use bp_shared::pool::SharedPool;
use std::marker::{Model, PhantomData};

/// The log ends of all parts' marks, each raised as far as the others. Contracts see the greatest LSN that they were
/// raised to, or 0.
#[derive(Drop)]
pub struct PartedLog<N: PartNames + PartCount> {
    ends: Vec<LogEnd>,
    frontier: Lsn,
    of: PhantomData<N>,
}

impl<N: PartNames + PartCount> Model for PartedLog<N> {
    ghost use Rattle.std.specs.Prelude.{◌≡◌, ℕ, vec_len};
    ghost use Rattle.bp_parts.specs.Logs.{AreEndsOf};

    ghost Value = { ℕ };

    ghost view = { λ w. w.frontier };

    ghost invariant = { λ w. (vec_len w.ends ≡ N.parts) × AreEndsOf N.mark w.frontier w.ends.items };
}

/// Raises the mark of each part.
fn raise_each<N: PartNames, K: ListKeeper>(
    ends: &mut Vec<LogEnd>,
    parts: &[SharedPool<N, K>],
    frontier: Lsn,
    lsn: Lsn,
)
    requires ends { AreEndsOf N.mark frontier ends.old.items }
    requires parts { AreNumbered parts.now }
    requires all { vec_len ends.old ≡ length parts.now }
    ensures raised { AreEndsOf N.mark (max frontier lsn) ends.new.items }
    ensures same { vec_len ends.new ≡ vec_len ends.old }
{
    for part in 0..ends.len() {
        ends[part].raise(parts[part].mark(), lsn);
    }
}

impl<N: PartNames + PartCount> PartedLog<N> {
    ghost use Rattle.std.specs.Prelude.{◌≡◌, length, max, vec_len};
    ghost use Rattle.bp_parts.specs.Logs.{AreEndsOf};

    /// Takes the log ends of all parts' marks, in order, none of which raised its mark yet.
    pub fn new(ends: Vec<LogEnd>) -> PartedLog<N>
        requires all { vec_len ends ≡ N.parts }
        requires unused { AreEndsOf N.mark 0 ends.items }
        ensures { result ≡ 0 }
    {
        PartedLog {
            ends,
            frontier: Lsn::new(0),
            of: PhantomData,
        }
    }

    /// Returns the greatest LSN that all marks were raised to, or 0.
    pub fn durable(&self) -> Lsn
        ensures { result ≡ self.now }
    {
        self.frontier
    }

    /// Says to all parts that the log is durable up to the LSN, as `LogWriter::raise` does to one, part 0 first. It
    /// takes no lock.
    pub fn raise<K: ListKeeper>(&mut self, pool: &PartedPool<N, K>, lsn: Lsn)
        ensures { self.new ≡ max self.old lsn }
    {
        raise_each(&mut self.ends, pool.parts(), self.frontier, lsn);
        self.frontier = self.frontier.max(lsn);
    }

    /// Ends the writer and returns the log ends, with which the parts' marks are to be closed.
    pub fn into_ends(self) -> Vec<LogEnd>
        ensures ends { AreEndsOf N.mark self result.items }
        ensures all { vec_len result ≡ N.parts }
    {
        let PartedLog {
            ends,
            frontier: _,
            of: _,
        } = self;
        ends
    }
}

//! `LogWriter`: raises a pool's mark, up to which its log is durable.
ghost use Rattle.std.specs.Prelude.{◌≡◌};

use crate::names::{One, PoolName};
use crate::pool::SharedPool;
use bp_keeper::ListKeeper;
use bp_mark::LogEnd;
use bp_page::Lsn;
use std::marker::{Model, PhantomData};

/// The log end of the pool's mark. Contracts see the greatest LSN that it raised the mark to, or 0.
#[derive(Drop)]
pub struct LogWriter<N: PoolName> {
    pub(crate) end: LogEnd,
    of: PhantomData<N>,
}

impl<N: PoolName> Model for LogWriter<N> {
    ghost use Rattle.std.specs.Prelude.{◌≡◌, ℕ};

    ghost Value = { ℕ };

    ghost view = { λ w. w.end.frontier };

    ghost invariant = { λ w. w.end.mark ≡ N.mark };
}

impl<N: PoolName> LogWriter<N> {
    ghost use Rattle.std.specs.Prelude.{◌≡◌, max};

    /// Makes the writer of a log end of the pool's mark.
    pub fn new(end: LogEnd) -> LogWriter<N>
        requires mark { end.mark ≡ N.mark }
        ensures { result ≡ end.frontier }
    {
        LogWriter {
            end,
            of: PhantomData,
        }
    }

    /// Returns the greatest LSN that the mark was raised to, or 0.
    pub fn durable(&self) -> Lsn
        ensures { result ≡ self.now }
    {
        self.end.frontier()
    }

    /// Says that the log is durable up to the LSN. A mark that is there or above already stays as it is. It takes no
    /// lock.
    ///
    /// Call it only once the log is durable so far, for the pool then lets pages of that LSN go out. After a start call
    /// it with the LSN of the log's last durable record.
    pub fn raise<K: ListKeeper>(&mut self, pool: &SharedPool<One<N>, K>, lsn: Lsn)
        ensures { self.new ≡ max self.old lsn }
    {
        self.end.raise(pool.mark(), lsn);
    }

    /// Ends the writer and returns the log end, with which the pool's mark is to be closed.
    pub fn into_log_end(self) -> LogEnd
        ensures mark { result.mark ≡ N.mark }
        ensures frontier { result.frontier ≡ self }
    {
        let LogWriter { end, of: _ } = self;
        end
    }
}

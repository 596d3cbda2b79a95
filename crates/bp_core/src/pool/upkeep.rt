//! The clock, the durable mark and the purge of old histories.
ghost use Rattle.std.specs.Prelude.{◌<◌};
ghost use Rattle.bp_core.specs.Outcomes.{StepOutcome, TickOutcome, PurgeOutcome};

use crate::config::STEP_OWES;
use crate::pool::PoolCore;
use bp_keeper::Keeper;
use bp_page::{Lsn, Refusal};
use bp_trail::{Call, Reply};

/// The greatest time of the clock, in ticks.
const CLOCK_END: u64 = 1 << 62;

impl<K: Keeper> PoolCore<K> {
    /// Moves the clock on by `n` ticks. `TrailFull` where no entry is free, else `ClockFull` where the clock would pass
    /// 2^62; both change nothing.
    pub fn tick(&mut self, client: u8, n: u64) -> Result<(), Refusal>
        requires client_in { client < self.old.parameters.clients }
        ensures outcome { TickOutcome self.old client n result self.new }
    {
        if self.free() < STEP_OWES {
            return Err(Refusal::TrailFull);
        }
        if n > CLOCK_END - self.state.clock {
            return Err(Refusal::ClockFull);
        }
        self.state.clock += n;
        self.trail.record(client, Call::Tick(n), Reply::Done);
        Ok(())
    }

    /// Notes that the log is durable as far as an LSN. `durable` never falls. `TrailFull` where no entry is free,
    /// which changes nothing.
    pub fn mark(&mut self, client: u8, lsn: Lsn) -> Result<(), Refusal>
        requires client_in { client < self.old.parameters.clients }
        ensures outcome { StepOutcome self.old client (Call.Mark lsn) result self.new }
    {
        if self.free() < STEP_OWES {
            return Err(Refusal::TrailFull);
        }
        self.state.durable = lsn.max(self.state.durable);
        self.trail.record(client, Call::Mark(lsn), Reply::Done);
        Ok(())
    }

    /// Forgets the references of the pages that are neither resident nor loading and were last referenced more than the
    /// retained period ago. Returns the number of these pages. `TrailFull` where no entry is free, which changes
    /// nothing.
    pub fn purge(&mut self, client: u8) -> Result<u64, Refusal>
        requires client_in { client < self.old.parameters.clients }
        ensures outcome { PurgeOutcome self.old client result self.new }
    {
        if self.free() < STEP_OWES {
            return Err(Refusal::TrailFull);
        }
        let count = self.state.histories.purge(self.state.clock);
        self.trail.record(client, Call::Purge, Reply::Forgot(count));
        Ok(count)
    }
}

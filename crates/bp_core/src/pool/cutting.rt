//! Handing out the trail.
ghost use Rattle.std.specs.Prelude.{◌≡◌, ◌≤◌, [], Decides, IfOk, IfErr, OnErr, vec_capacity};
ghost use Rattle.bp_page.specs.declared.refusals.Refusal.TheVariants as Refusal;
ghost use Rattle.bp_trail.specs.Standing.{standing};
ghost use Rattle.bp_core.specs.CoreView.{EachPast, opening};
ghost use Rattle.bp_core.specs.Outcomes.{Cuts, CutRefused};

use crate::pool::PoolCore;
use bp_keeper::RecordingKeeper;
use bp_page::Refusal;
use bp_trail::Entry;

/// The most serial numbers of a kind that may have been given at a cut, so that none overflows afterwards.
const SERIALS_END: u64 = 1 << 62;

impl PoolCore<RecordingKeeper> {
    /// Hands out the trail, the oldest entry first, and leaves an empty one of the same room. All else goes on: the
    /// clock, the durable mark, histories, frames, passes and tickets that are out, and serial numbers. It may be
    /// called at any time.
    ///
    /// `ClockFull` where more than 2^62 passes or tickets were given, else `OutOfMemory`; both change nothing.
    pub fn cut(&mut self) -> Result<Vec<Entry>, Refusal>
        ensures done { IfOk result (λ entries. Cuts self.old entries.items self.new) }
        ensures refused { IfErr result (λ e. CutRefused self.old e self.new) }
        ensures memory { IfOk result (λ entries. self.old.parameters.room ≤ vec_capacity entries) }
    {
        self.cut_into(Vec::new(self.alloc))
    }

    /// A cut that goes on in the memory of a spare list: more is taken only where that has not the trail's room. What
    /// the spare has is dropped. A list that was handed out has the room: a core that is cut into it takes no memory.
    pub fn cut_into(&mut self, spare: Vec<Entry>) -> Result<Vec<Entry>, Refusal>
        ensures done { IfOk result (λ entries. Cuts self.old entries.items self.new) }
        ensures refused { IfErr result (λ e. CutRefused self.old e self.new) }
        ensures enough { self.old.parameters.room ≤ vec_capacity spare →
            OnErr result (result ≡ Err Refusal.ClockFull) }
        ensures memory { IfOk result (λ entries. self.old.parameters.room ≤ vec_capacity entries) }
    {
        if self.state.passes_given > SERIALS_END || self.state.tickets_given > SERIALS_END {
            return Err(Refusal::ClockFull);
        }
        let is_initial = self.is_initial();
        let entries = self.trail.cut(spare, self.config.room, is_initial)?;
        Ok(entries)
    }

    /// Returns true if the entries so far have the standing of no entries: the clock is at 1, nothing is durable, and
    /// no pass or ticket was given.
    fn is_initial(&self) -> bool
        ensures { EachPast self.now (λ past. Decides result
            (standing self.now.parameters past ≡ standing self.now.parameters [])) }
    {
        self.state.clock == 1
            && (self.state.durable.number() == 0
                && (self.state.passes_given == 0 && self.state.tickets_given == 0))
    }

    /// Returns true if the trail since the last cut opens at the standing of no entries, as that of a new core does.
    pub fn fresh(&self) -> bool
        ensures { Decides result (opening self.now ≡ standing self.now.parameters []) }
    {
        self.trail.is_fresh()
    }
}

//! `cut`: hands out the trail, where it is in memory.
use super::SharedPool;
use crate::names::PartNames;
use crate::taker::Taker;
use bp_core::Entry;
use bp_keeper::RecordingKeeper;
use bp_page::Refusal;
use bp_session_log::draining::ALL;
use std::sync::Wait;

impl<N: PartNames> SharedPool<N, RecordingKeeper> {
    ghost use Rattle.std.specs.Prelude.{◌≡◌, ◌⊎◌, ◌≤◌, IfOk, OnErr, vec_capacity};
    ghost use Rattle.bp_page.specs.declared.refusals.Refusal.TheVariants as Refusal;
    ghost use Rattle.bp_shared.specs.Taking.{ComesNext, GaveTooMany};

    /// Hands the trail to its taker as one piece more, the oldest entry first, and goes on with an empty one: the rings
    /// are drained before. Nothing else changes: frames, passes and tickets that are out, the clock, histories. It may
    /// be called at any time.
    ///
    /// `ClockFull` where more than 2^62 passes or tickets were given; `OutOfMemory` where there is no memory for the
    /// room of a trail, which is taken before the lock. Both hand out nothing.
    pub fn cut<R: Wait>(&self, rt: &R, taker: &mut Taker<N>) -> Result<Vec<Entry>, Refusal>
        ensures next { IfOk result (λ entries.
            ComesNext N.parameters taker.old entries.items taker.new) }
        ensures memory { IfOk result (λ entries. N.parameters.room ≤ vec_capacity entries) }
        ensures unchanged { OnErr result (taker.new ≡ taker.old) }
        ensures refused { OnErr result
            ((result ≡ Err Refusal.ClockFull) ⊎ (result ≡ Err Refusal.OutOfMemory)) }
        ensures cause { result ≡ Err Refusal.ClockFull → GaveTooMany N.parameters taker.old }
    {
        self.cut_into(rt, taker, Vec::new(self.alloc))
    }

    /// A cut that goes on in the memory of a spare list: more is taken only where that has not the trail's room. What
    /// the spare has is dropped, also before the lock is taken. A piece that was handed out has the room.
    pub fn cut_into<R: Wait>(
        &self,
        rt: &R,
        taker: &mut Taker<N>,
        spare: Vec<Entry>,
    ) -> Result<Vec<Entry>, Refusal>
        ensures next { IfOk result (λ entries.
            ComesNext N.parameters taker.old entries.items taker.new) }
        ensures memory { IfOk result (λ entries. N.parameters.room ≤ vec_capacity entries) }
        ensures unchanged { OnErr result (taker.new ≡ taker.old) }
        ensures refused { OnErr result
            ((result ≡ Err Refusal.ClockFull) ⊎ (result ≡ Err Refusal.OutOfMemory)) }
        ensures cause { result ≡ Err Refusal.ClockFull → GaveTooMany N.parameters taker.old }
        ensures enough { N.parameters.room ≤ vec_capacity spare
            → OnErr result (result ≡ Err Refusal.ClockFull) }
    {
        let mut empty = spare;
        empty.clear();
        empty.reserve_exact(self.room)?;
        // With no pause before it: clients at work would fill the room meanwhile.
        let mut state = self.of_part(rt, taker.part, self.state.lock(rt));
        state.drain(ALL);
        state.cut(taker, empty)
    }
}

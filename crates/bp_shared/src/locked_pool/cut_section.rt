//! The critical section in which the trail is handed out.
ghost use Rattle.std.specs.Prelude.{◌≡◌, ◌≤◌, IfOk, OnErr, vec_capacity};
ghost use Rattle.bp_page.specs.declared.refusals.Refusal.TheVariants as Refusal;
ghost use Rattle.bp_shared.specs.Locked.{IsDrained};
ghost use Rattle.bp_shared.specs.Taking.{HandsOut, ComesNext, GaveTooMany};

use super::LockedPool;
use crate::names::PartNames;
use crate::taker::Taker;
use crate::trail_ring::{join_ends, pass_on};
use bp_core::Entry;
use bp_keeper::RecordingKeeper;
use bp_page::Refusal;

impl<N: PartNames> LockedPool<N, RecordingKeeper> {
    /// Hands the trail to the taker. The core goes on in the spare's memory, and takes none. `ClockFull` where more
    /// than 2^62 passes or tickets were given, which changes nothing.
    pub(crate) fn cut(
        &mut self,
        taker: &mut Taker<N>,
        spare: Vec<Entry>,
    ) -> Result<Vec<Entry>, Refusal>
        requires part { taker.old.part ≡ self.old.part }
        requires drained { IsDrained self.old }
        requires room { N.parameters.room ≤ vec_capacity spare }
        ensures done { IfOk result (λ entries.
            HandsOut self.old taker.old entries.items self.new taker.new) }
        ensures memory { IfOk result (λ entries. N.parameters.room ≤ vec_capacity entries) }
        ensures next { IfOk result (λ entries.
            ComesNext N.parameters taker.old entries.items taker.new) }
        ensures refused { OnErr result (result ≡ Err Refusal.ClockFull) }
        ensures cause { OnErr result (GaveTooMany N.parameters taker.old) }
        ensures same { OnErr result (self.new ≡ self.old) }
        ensures unchanged { OnErr result (taker.new ≡ taker.old) }
    {
        let entries = match self.core.cut_into(spare) {
            Ok(entries) => entries,
            Err(refusal) => {
                // The taker has all that was handed out, and the core's entries go on from that.
                join_ends(&mut self.pieces, &mut taker.taken);
                // `trail` is called for its clauses alone: these entries fit the room, and all so far are legal.
                self.core.trail();
                return Err(refusal);
            }
        };
        Ok(pass_on(&mut self.pieces, &mut taker.taken, entries))
    }
}

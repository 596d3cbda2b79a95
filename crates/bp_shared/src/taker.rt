//! `Taker`: takes a pool's trail, piece by piece.
use crate::names::PartNames;
use bp_core::Entry;
use rtrb::Consumer;
use std::alloc::Global;
use std::marker::{Model, PhantomData};

/// Takes a pool's trail: each piece that it is handed goes on from the one before. Each pool has exactly one.
#[derive(Drop)]
pub struct Taker<N: PartNames> {
    /// The number of its pool.
    pub(crate) part: u8,
    pub(crate) taken: Consumer<Vec<Entry>>,
    pub(crate) of: PhantomData<N>,
}

impl<N: PartNames> Model for Taker<N> {
    ghost use Rattle.std.specs.Prelude.{◌≡◌, length};
    ghost use Rattle.rtrb.specs.Ring.{received};
    ghost use Rattle.bp_session_log.specs.Rings.{ring_at};
    ghost use Rattle.bp_shared.specs.Taking.{TakerValue, after_pieces};

    ghost Value = { TakerValue };

    ghost view = { λ t. record {
      part = t.part;
      past = after_pieces N.before (received t.taken);
      pieces = length (received t.taken);
    } };

    ghost invariant = { λ t. ring_at t.taken ≡ (N.ring t.part).trail };
}

impl<N: PartNames> Taker<N> {
    ghost use Rattle.std.specs.Prelude.{◌≡◌, []};
    ghost use Rattle.rtrb.specs.Ring.{received};
    ghost use Rattle.bp_session_log.specs.Rings.{ring_at};

    /// Makes the taker of a pool that handed out nothing yet.
    pub(crate) fn new(part: u8, taken: Consumer<Vec<Entry>>) -> Taker<N>
        requires ring { ring_at taken ≡ (N.ring part).trail }
        requires unused { received taken ≡ [] }
        ensures part { result.part ≡ part }
        ensures past { result.past ≡ N.before }
        ensures pieces { result.pieces ≡ 0 }
    {
        Taker {
            part,
            taken,
            of: PhantomData,
        }
    }
}

//! `Receipt`: a part of a pool's trail that was seen, carried from one session's client to another.
use crate::names::PartNames;
use bp_session_log::Line;
use std::marker::{Model, PhantomData};

/// A part of a pool's trail that was seen, which stands in proofs alone: it takes no memory. Contracts see it as that
/// part, the newest entry first.
///
/// Whoever wants that another session's questions see at least so much keeps it where both come, as in the mutex of the
/// log: [`SharedPool::show`](crate::SharedPool::show) has it see more.
#[derive(Drop)]
pub struct Receipt<N: PartNames> {
    /// The number of the pool.
    pub(crate) part: u8,
    /// A line on the board of what was seen of the trail.
    pub(crate) line: Line,
    pub(crate) of: PhantomData<N>,
}

impl<N: PartNames> Model for Receipt<N> {
    ghost use Rattle.std.specs.Prelude.{◌≡◌};
    ghost use Rattle.bp_trail.specs.Trail.{Trail};

    ghost Value = { Trail };

    ghost view = { λ r. r.line.list };

    ghost invariant = { λ r. r.line.name ≡ (N.ring r.part).seen };
}

//! The ghost names by which what belongs to one pool is told from what belongs to another.
use std::marker::{Brand, PhantomData};

/// The name of one pool, on which its locked core, its sessions and its mark agree. It has no functions: a program
/// names `Brand`, and each call picks what it stands for.
pub trait PoolName {
    ghost use Rattle.bp_mark.specs.Marks.{MarkName};
    ghost use Rattle.bp_trail.specs.Parameters.{Parameters};
    ghost use Rattle.bp_trail.specs.Trail.{Trail};
    ghost use Rattle.bp_shared.specs.Taking.{PoolRing};

    // The mark.
    ghost mark: { MarkName };
    // The core's parameters.
    ghost parameters: { Parameters };
    // The part of the core's trail that was handed out before the pool was made.
    ghost before: { Trail };
    // The core's trail when the pool was made.
    ghost past: { Trail };
    // The rings by which the trail goes to its taker and passes go back, and the boards of the sessions.
    ghost ring: { PoolRing };
}

impl PoolName for Brand {
    ghost use Rattle.std.specs.Prelude.{[]};
    ghost use Rattle.bp_mark.specs.Marks.{no_mark};
    ghost use Rattle.bp_shared.specs.Locked.{no_parameters};
    ghost use Rattle.bp_shared.specs.Taking.{no_ring};

    ghost mark = { no_mark };

    ghost parameters = { no_parameters };

    ghost before = { [] };

    ghost past = { [] };

    ghost ring = { no_ring };
}

/// The names of pools side by side, by the number of each. All have the same parameters, and began with the same trail.
/// It has no functions, as `PoolName` has none.
pub trait PartNames {
    ghost use Rattle.std.specs.Prelude.{ℕ};
    ghost use Rattle.bp_mark.specs.Marks.{MarkName};
    ghost use Rattle.bp_trail.specs.Parameters.{Parameters};
    ghost use Rattle.bp_trail.specs.Trail.{Trail};
    ghost use Rattle.bp_shared.specs.Taking.{PoolRing};

    // The mark of each.
    ghost mark: { ℕ → MarkName };
    // The parameters of each core.
    ghost parameters: { Parameters };
    // The part of each core's trail that was handed out before.
    ghost before: { Trail };
    // Each core's trail when the pools were made.
    ghost past: { Trail };
    // The rings and the boards of each.
    ghost ring: { ℕ → PoolRing };
}

impl PartNames for Brand {
    ghost use Rattle.std.specs.Prelude.{[]};
    ghost use Rattle.bp_mark.specs.Marks.{no_mark};
    ghost use Rattle.bp_shared.specs.Locked.{no_parameters};
    ghost use Rattle.bp_shared.specs.Taking.{no_ring};

    ghost mark = { λ _. no_mark };

    ghost parameters = { no_parameters };

    ghost before = { [] };

    ghost past = { [] };

    ghost ring = { λ _. no_ring };
}

/// The names of a pool that stands alone: whatever its number is, it has the name `N`.
pub struct One<N: PoolName> {
    of: PhantomData<N>,
}

impl<N: PoolName> PartNames for One<N> {
    ghost mark = { λ _. N.mark };

    ghost parameters = { N.parameters };

    ghost before = { N.before };

    ghost past = { N.past };

    ghost ring = { λ _. N.ring };
}

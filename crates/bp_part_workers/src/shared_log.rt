//! `SharedLog`: the log writer of all parts, with what an engine keeps of its log beside it.
use bp_parts::{PartCount, PartedLog};
use bp_shared::PartNames;
use std::marker::Model;

/// What an engine keeps of its log beside the log writer.
pub trait LogState: Drop {
    ghost use Rattle.std.specs.Prelude.{ℕ};

    // What it says of the greatest LSN that the marks were raised to, or 0: as that the log is durable so far.
    ghost agrees: { Self → ℕ → Type 0 };
}

impl LogState for () {
    ghost agrees = { λ _ _. Unit {0} };
}

/// The log writer of all parts, and an engine's state. All workers of a run share them behind a lock. Contracts see the
/// state, and the greatest LSN that the writer raised the marks to.
///
/// Whoever raises the marks has the state agree with that before the lock goes back. While the lock is held, marks may
/// be ahead of the state, and pages go out by them: so make the log durable first.
#[derive(Drop)]
pub struct SharedLog<N: PartNames + PartCount, T: LogState = ()> {
    pub state: T,
    pub writer: PartedLog<N>,
}

impl<N: PartNames + PartCount, T: LogState> Model for SharedLog<N, T> {
    ghost use Rattle.bp_part_workers.specs.Logs.{SharedLogValue};

    ghost Value = { SharedLogValue T };

    ghost view = { λ l. record { state = l.state; raised = l.writer } };

    ghost invariant = { λ l. T.agrees l.state l.writer };
}

//! Meters, which show on the error output how far a migration or a sweep has come.

use bp_ports::Progress;
use std::io::Write;
use std::time::{Clock, Duration, Instant};

/// Clears the line of a meter.
pub(crate) fn clear_line<E: Write>(err: &mut E) {
    let _ = write!(err, "\r{:70}\r", "");
    let _ = err.flush();
}

/// Shows the number of migrated pages on one line, again at each hundredth of the pages.
#[derive(Drop)]
pub(crate) struct Meter<'a, E: Write> {
    err: &'a mut E,
    shown: u64,
}

impl<'a, E: Write> Meter<'a, E> {
    pub(crate) fn new(err: &'a mut E) -> Meter<'a, E> {
        Meter { err, shown: 0 }
    }
}

// A fault of the error output is ignored.
impl<E: Write> Progress for Meter<'_, E> {
    fn written(&mut self, done: u64, pages: u64) {
        let hundredths = done.saturating_mul(100) / pages.max(1);
        if hundredths > self.shown {
            self.shown = hundredths;
            let _ = write!(self.err, "\rmigrated {done} of {pages} pages");
            let _ = self.err.flush();
        }
    }
}

/// Shows the cell of a sweep and its counted references on one line, at most once a second.
#[derive(Drop)]
pub(crate) struct SweepMeter<'a, R: Clock, E: Write> {
    clock: &'a R,
    err: &'a mut E,
    /// The time when the line was shown last, or else when the sweep began. Without a clock nothing is shown.
    since: Option<Instant>,
}

impl<'a, R: Clock, E: Write> SweepMeter<'a, R, E> {
    pub(crate) fn new(clock: &'a R, err: &'a mut E) -> SweepMeter<'a, R, E> {
        let since = Instant::now(clock).ok();
        SweepMeter { clock, err, since }
    }
}

// A fault of the error output is ignored. The spaces at the end clear the rest of a longer line.
impl<R: Clock, E: Write> bp_sweep::Progress for SweepMeter<'_, R, E> {
    fn advanced(&mut self, cell: u64, cells: u64, counted: u64, references: u64) {
        let (Some(since), Ok(now)) = (self.since, Instant::now(self.clock)) else {
            return;
        };
        if now.duration_since(since) < Duration::from_secs(1) {
            return;
        }
        self.since = Some(now);
        let _ = write!(
            self.err,
            "\rcell {cell} of {cells}: {counted} of {references} references{:8}",
            ""
        );
        let _ = self.err.flush();
    }
}

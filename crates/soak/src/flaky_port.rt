//! `FlakyPort`: a port that fails now and then.

use hojzmated::{Geometry, Image, Lsn, PageNo, Port, PortFault};
use std::sync::Wait;

/// A port over another one, of whose calls each n-th fails, and is counted.
#[derive(Drop)]
pub(crate) struct FlakyPort<P: Port> {
    inner: P,
    n: u64,
    calls: u64,
    failures: u64,
}

impl<P: Port> FlakyPort<P> {
    ghost use Rattle.std.specs.Prelude.{◌≡◌};

    /// Makes a port of whose calls each n-th fails, or none where n is 0.
    pub(crate) fn new(inner: P, n: u64) -> FlakyPort<P>
        ensures { result.inner ≡ inner }
    {
        FlakyPort {
            inner,
            n,
            calls: 0,
            failures: 0,
        }
    }

    /// Counts a call, and returns true if it is one that fails.
    fn fails(&mut self) -> bool
        ensures inner { self.new.inner ≡ self.old.inner }
        ensures failures { self.new.failures ≡ self.old.failures }
    {
        self.calls = self.calls.wrapping_add(1);
        self.n > 0 && self.calls % self.n == 0
    }
}

impl<P: Port> Port for FlakyPort<P> {
    ghost geometry_of = { λ p. P.geometry_of p.inner };

    ghost failures_of = { λ p. p.failures };

    ghost is_headed = { λ p. P.is_headed p.inner };

    ghost read_gives = { λ _ _ _ _. Unit {0} };

    ghost write_gives = { λ _ _ _ _ _ _. Unit {0} };

    ghost sync_gives = { λ _ _ _. Unit {0} };

    fn geometry(&self) -> Geometry {
        self.inner.geometry()
    }

    fn failures(&self) -> u64 {
        self.failures
    }

    fn read<R: Wait>(&mut self, rt: &R, page: PageNo) -> Result<Image, PortFault> {
        if self.fails() {
            self.failures = self.failures.saturating_add(1);
            return Err(PortFault::Device);
        }
        let read = self.inner.read(rt, page);
        if matches!(read, Err(PortFault::Device)) {
            self.failures = self.failures.saturating_add(1);
        }
        read
    }

    fn write<R: Wait>(
        &mut self,
        rt: &R,
        page: PageNo,
        image: &Image,
        lsn: Lsn,
    ) -> Result<(), PortFault> {
        if self.fails() {
            self.failures = self.failures.saturating_add(1);
            return Err(PortFault::Device);
        }
        let written = self.inner.write(rt, page, image, lsn);
        if matches!(written, Err(PortFault::Device)) {
            self.failures = self.failures.saturating_add(1);
        }
        written
    }

    fn sync<R: Wait>(&mut self, rt: &R) -> Result<(), PortFault> {
        if self.fails() {
            self.failures = self.failures.saturating_add(1);
            return Err(PortFault::Device);
        }
        let synced = self.inner.sync(rt);
        if matches!(synced, Err(PortFault::Device)) {
            self.failures = self.failures.saturating_add(1);
        }
        synced
    }
}

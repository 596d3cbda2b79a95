//! `NotingPort`, the port of a session.

use bp_device::Port;
use bp_page::{Geometry, Image, Lsn, PageNo, PortFault};
use std::sync::Wait;

/// A port that notes the page LSN of its newest write.
#[derive(Drop)]
pub(crate) struct NotingPort<P: Port> {
    pub(crate) inner: P,
    /// The page LSN of the newest write, or 0.
    lsn: u64,
}

impl<P: Port> NotingPort<P> {
    ghost use Rattle.std.specs.Prelude.{◌≡◌};

    pub(crate) fn new(inner: P) -> NotingPort<P>
        ensures { result.inner ≡ inner }
    {
        NotingPort { inner, lsn: 0 }
    }

    pub(crate) fn lsn(&self) -> u64 {
        self.lsn
    }
}

impl<P: Port> Port for NotingPort<P> {
    ghost geometry_of = { λ p. P.geometry_of p.inner };

    ghost failures_of = { λ p. P.failures_of p.inner };

    ghost is_headed = { λ p. P.is_headed p.inner };

    ghost read_gives = { λ port page found after. P.read_gives port.inner page found after.inner };

    ghost write_gives = { λ port page image lsn written after.
        P.write_gives port.inner page image lsn written after.inner };

    ghost sync_gives = { λ port synced after. P.sync_gives port.inner synced after.inner };

    fn geometry(&self) -> Geometry {
        self.inner.geometry()
    }

    fn failures(&self) -> u64 {
        self.inner.failures()
    }

    fn read<R: Wait>(&mut self, rt: &R, page: PageNo) -> Result<Image, PortFault> {
        self.inner.read(rt, page)
    }

    fn write<R: Wait>(
        &mut self,
        rt: &R,
        page: PageNo,
        image: &Image,
        lsn: Lsn,
    ) -> Result<(), PortFault> {
        self.lsn = lsn.number();
        self.inner.write(rt, page, image, lsn)
    }

    fn sync<R: Wait>(&mut self, rt: &R) -> Result<(), PortFault> {
        self.inner.sync(rt)
    }
}

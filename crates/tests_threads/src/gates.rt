//! Ports whose device calls wait until a test lets them go on.
use bp_device::Port;
use bp_page::{Geometry, Image, Lsn, PageNo, PortFault};
use std::alloc::Global;
use std::process::Abort;
use std::sync::{Arc, Mutex, Wait};
use std::thread;

#[derive(Clone, Copy, Drop)]
struct Stage {
    has_begun: bool,
    may_go_on: bool,
}

/// The gate that a port and a test share.
#[derive(Drop)]
pub(crate) struct Gate {
    stage: Arc<Mutex<Stage>, Global>,
}

impl Gate {
    /// Makes a gate, open or shut, to which no device call has come.
    pub(crate) fn new<R: Abort + AllocGlobal>(rt: &R, is_open: bool) -> Gate {
        let stage = Mutex::new(Stage {
            has_begun: false,
            may_go_on: is_open,
        });
        Gate {
            stage: Arc::new(rt.alloc(), stage).expect(rt, "the gate"),
        }
    }

    /// Returns the same gate, for another owner.
    pub(crate) fn again<R: Abort>(&self, rt: &R) -> Gate {
        Gate {
            stage: Arc::try_clone(&self.stage).expect(rt, "the gate"),
        }
    }

    pub(crate) fn open<R: Wait>(&self, rt: &R) {
        self.stage.lock(rt).may_go_on = true;
    }

    /// Returns once a device call has come to the gate.
    pub(crate) fn wait_for_work<R: Wait>(&self, rt: &R) {
        for _ in rt.forever() {
            if self.stage.lock(rt).has_begun {
                return;
            }
            thread::yield_now();
        }
    }

    /// Notes that a device call has come, and returns once the gate is open.
    fn pass<R: Wait>(&self, rt: &R) {
        self.stage.lock(rt).has_begun = true;
        for _ in rt.forever() {
            if self.stage.lock(rt).may_go_on {
                return;
            }
            thread::yield_now();
        }
    }
}

/// A port whose device calls wait at a gate.
#[derive(Drop)]
pub(crate) struct HeldPort<P: Port> {
    pub(crate) inner: P,
    pub(crate) gate: Gate,
}

impl<P: Port> Port for HeldPort<P> {
    ghost geometry_of = { λ p. P.geometry_of p.inner };

    ghost failures_of = { λ p. P.failures_of p.inner };

    ghost is_headed = { λ p. P.is_headed p.inner };

    ghost read_gives = { λ port page found after. P.read_gives port.inner page found after.inner };

    ghost write_gives = { λ port page image lsn written after.
        P.write_gives port.inner page image lsn written after.inner };

    ghost sync_gives = { λ port synced after. P.sync_gives port.inner synced after.inner };

    fn geometry(&self) -> Geometry {
        self.inner.geometry()
    }

    fn failures(&self) -> u64 {
        self.inner.failures()
    }

    fn read<R: Wait>(&mut self, rt: &R, page: PageNo) -> Result<Image, PortFault> {
        self.gate.pass(rt);
        self.inner.read(rt, page)
    }

    fn write<R: Wait>(
        &mut self,
        rt: &R,
        page: PageNo,
        image: &Image,
        lsn: Lsn,
    ) -> Result<(), PortFault> {
        self.gate.pass(rt);
        self.inner.write(rt, page, image, lsn)
    }

    fn sync<R: Wait>(&mut self, rt: &R) -> Result<(), PortFault> {
        self.gate.pass(rt);
        self.inner.sync(rt)
    }
}

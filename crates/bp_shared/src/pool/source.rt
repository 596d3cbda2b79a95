//! `Source`: where the image of a page that is in no frame comes from, which is the port, or zeros.
use bp_page::{Image, PageNo, PortFault};
use bp_ports::Port;
use std::alloc::Global;
use std::sync::Wait;

/// A source of the image of a page that is in no frame.
pub(super) trait Source<P: Port> {
    ghost use Rattle.std.specs.Prelude.{◌≡◌, length, IfOk};
    ghost use Rattle.bp_core.specs.Work.{Reads};

    // An image of a page comes from there so, and leaves the port so.
    ghost gives: { Reads P };

    /// Returns the image of a page, which has the size of the port's pages.
    fn bring<R: Wait>(&self, rt: &R, port: &mut P, page: PageNo) -> Result<Image, PortFault>
        ensures size { IfOk result (λ image. length image ≡ (P.geometry_of port.old).size) }
        ensures geometry { P.geometry_of port.new ≡ P.geometry_of port.old }
        ensures gives { gives port.old page result port.new };
}

/// The port reads the page.
#[derive(Drop)]
pub(super) struct FromPort;

impl<P: Port> Source<P> for FromPort {
    ghost gives = { P.read_gives };

    fn bring<R: Wait>(&self, rt: &R, port: &mut P, page: PageNo) -> Result<Image, PortFault> {
        port.read(rt, page)
    }
}

/// The page is new: its image is zeros, and the port is not asked.
#[derive(Drop)]
pub(super) struct Zeros {
    pub(super) alloc: Global,
}

impl<P: Port> Source<P> for Zeros {
    ghost use Rattle.bp_core.specs.Work.{MadeBlank};

    ghost gives = { λ port page found after.
        MadeBlank (P.geometry_of port).size port page found after };

    fn bring<R: Wait>(&self, _rt: &R, port: &mut P, _page: PageNo) -> Result<Image, PortFault> {
        match Image::blank(self.alloc, &port.geometry()) {
            Ok(image) => Ok(image),
            Err(_) => Err(PortFault::Memory),
        }
    }
}

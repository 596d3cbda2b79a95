//! `Port`: the interface by which a client reads, writes and syncs the pages of a device.

use bp_page::{Geometry, Image, Lsn, PageNo, PortFault};
use std::sync::Wait;

/// The interface by which a client reads, writes and syncs the pages of a device. No port promises what a read finds
/// there.
///
/// A fault is `Device` only where the port counts a failure in that call (the count stays at 2^64 − 1 once it is
/// there), and `Memory` only where the image's memory was refused. A page that the device does not have, or an image of
/// another size than its pages, is a failure of the device. `WrongPage` is none: a read alone answers it, and only of a
/// device whose pages stand with their numbers, where another page's number stands in the page's place.
///
/// A port says by three relations of its own which calls led from it, as it was, to it, as it is. What is promised by
/// them of any port, as of the drivers, can be kept only by these calls.
pub trait Port: Drop {
    ghost use Rattle.std.specs.Prelude.{◌≡◌, ◌≢◌, ℕ, Bool, true, List, Result, length, IfOk, OnErr};
    ghost use Rattle.bp_page.specs.declared.limits.Geometry.{Geometry};
    ghost use Rattle.bp_page.specs.declared.refusals.PortFault.{PortFault as Fault};
    ghost use Rattle.bp_ports.specs.Ports.{Counts};

    // The number of the device's pages, and their size.
    ghost geometry_of: { Self → Geometry };
    // The number of failures that it has counted.
    ghost failures_of: { Self → ℕ };
    // True if each page stands with its number, as in a page file of version 2.
    ghost is_headed: { Self → Bool };
    // A read of a page gives a result, and leaves the port so.
    ghost read_gives: { Self → ℕ → Result (List ℕ) Fault → Self → Type 0 };
    // A write of a page, with an image and a page LSN, gives a result, and leaves the port so.
    ghost write_gives: { Self → ℕ → List ℕ → ℕ → Result (Unit {0}) Fault → Self → Type 0 };
    // A sync gives a result, and leaves the port so.
    ghost sync_gives: { Self → Result (Unit {0}) Fault → Self → Type 0 };

    /// Returns the number of the device's pages, and their size.
    fn geometry(&self) -> Geometry
        ensures { result ≡ geometry_of self.now };

    /// Returns the number of failures of the device that this port has counted.
    fn failures(&self) -> u64
        ensures { result ≡ failures_of self.now };

    /// Reads a page. The image has the size of the device's pages.
    fn read<R: Wait>(&mut self, rt: &R, page: PageNo) -> Result<Image, PortFault>
        ensures size { IfOk result (λ image. length image ≡ (geometry_of self.old).size) }
        ensures wrong { result ≡ Err PortFault.WrongPage → is_headed self.old ≡ true }
        ensures same { geometry_of self.new ≡ geometry_of self.old }
        ensures alike { is_headed self.new ≡ is_headed self.old }
        ensures counts { Counts result (failures_of self.old) (failures_of self.new) }
        ensures gives { read_gives self.old page result self.new };

    /// Writes an image of a page, with its page LSN, which a device may keep or not.
    fn write<R: Wait>(
        &mut self,
        rt: &R,
        page: PageNo,
        image: &Image,
        lsn: Lsn,
    ) -> Result<(), PortFault>
        ensures never_wrong { result ≢ Err PortFault.WrongPage }
        ensures same { geometry_of self.new ≡ geometry_of self.old }
        ensures alike { is_headed self.new ≡ is_headed self.old }
        ensures counts { Counts result (failures_of self.old) (failures_of self.new) }
        ensures gives { write_gives self.old page image.now lsn result self.new };

    /// Makes durable all that was written. It fails as the device does, which is counted: what was written since the
    /// sync before may then be on the device or not.
    fn sync<R: Wait>(&mut self, rt: &R) -> Result<(), PortFault>
        ensures fault { OnErr result (result ≡ Err PortFault.Device) }
        ensures same { geometry_of self.new ≡ geometry_of self.old }
        ensures alike { is_headed self.new ≡ is_headed self.old }
        ensures counts { Counts result (failures_of self.old) (failures_of self.new) }
        ensures gives { sync_gives self.old result self.new };
}

//! `FusePort`: a port that fails once, for tests of what a failing device leaves.
ghost use Rattle.std.specs.Prelude.{◌≡◌, ◌≢◌, true, ◌-◌, ◌↔◌, IsTrue, IfOk, OnErr, length, replicate};
ghost use Rattle.bp_ports.specs.Ports.{Counts, FailsOrPasses, IsUnasked};
ghost use Rattle.test_ports.specs.Fuses.{FailsSpoiling, IsNext, spoiled_page};

use bp_page::{Geometry, Image, Lsn, PageNo, PortFault, Refusal};
use bp_ports::{Failures, Port};
use std::alloc::Global;
use std::sync::Wait;

/// A port over another one, which passes on each call except one: that call fails, and is counted.
#[derive(Drop)]
pub struct FusePort<P: Port> {
    inner: P,
    /// The calls up to the one that fails, or 0 where it has failed.
    left: u64,
    /// The image that a failing write puts on the device, if any.
    spoiled: Option<Image>,
    count: Failures,
}

impl<P: Port> FusePort<P> {
    /// Makes a port whose n-th call of `read`, `write` or `sync`, from 1, fails; with 0 none does. With `spoil`, a
    /// write that fails first puts a page of bytes 255 on the device. `OutOfMemory` where there is no memory for that
    /// page.
    pub fn new(alloc: Global, inner: P, n: u64, spoil: bool) -> Result<FusePort<P>, Refusal>
        ensures inner { IfOk result (λ port. port.inner ≡ inner) }
        ensures left { IfOk result (λ port. port.left ≡ n) }
        ensures spoiled { IfOk result (λ port. port.spoiled ≡
            spoiled_page spoil (P.geometry_of inner).size) }
        ensures count { IfOk result (λ port. port.count ≡ 0) }
        ensures memory { OnErr result (result ≡ Err Refusal.OutOfMemory) }
    {
        let spoiled = if spoil {
            Some(page_of_ones(alloc, inner.geometry().size)?)
        } else {
            None
        };
        Ok(FusePort {
            inner,
            left: n,
            spoiled,
            count: Failures::none(),
        })
    }

    /// Counts a call, and returns true if it is the one that fails.
    fn blows(&mut self) -> bool
        ensures now { IsTrue result ↔ (self.old.left ≡ 1) }
        ensures next { IsNext self.old.left self.old.spoiled self.new.left self.new.spoiled }
        ensures inner { self.new.inner ≡ self.old.inner }
        ensures count { self.new.count ≡ self.old.count }
    {
        let blows = self.left == 1;
        self.left = self.left.saturating_sub(1);
        blows
    }
}

fn page_of_ones(alloc: Global, size: usize) -> Result<Image, Refusal>
    ensures ones { IfOk result (λ page. page ≡ replicate size 255) }
    ensures memory { OnErr result (result ≡ Err Refusal.OutOfMemory) }
{
    let ones = vec![in alloc; 255u8; size]?;
    Ok(Image::of(alloc, &ones)?)
}

impl<P: Port> Port for FusePort<P> {
    ghost geometry_of = { λ p. P.geometry_of p.inner };

    ghost failures_of = { λ p. p.count };

    ghost is_headed = { λ p. P.is_headed p.inner };

    ghost read_gives = { λ port page found after.
        IsNext port.left port.spoiled after.left after.spoiled ×
        FailsOrPasses port.left (IsUnasked found port.inner after.inner)
        (P.read_gives port.inner page found after.inner) };

    ghost write_gives = { λ port page image lsn written after.
        IsNext port.left port.spoiled after.left after.spoiled ×
        FailsOrPasses port.left
        (FailsSpoiling (λ spoiled. P.write_gives port.inner page spoiled lsn)
        port.spoiled written port.inner after.inner)
        (P.write_gives port.inner page image lsn written after.inner) };

    ghost sync_gives = { λ port synced after.
        IsNext port.left port.spoiled after.left after.spoiled ×
        FailsOrPasses port.left (IsUnasked synced port.inner after.inner)
        (P.sync_gives port.inner synced after.inner) };

    fn geometry(&self) -> Geometry {
        self.inner.geometry()
    }

    fn failures(&self) -> u64 {
        self.count.count()
    }

    fn read<R: Wait>(&mut self, rt: &R, page: PageNo) -> Result<Image, PortFault>
        ensures size { IfOk result (λ image. length image ≡ (P.geometry_of self.old.inner).size) }
        ensures wrong { result ≡ Err PortFault.WrongPage → P.is_headed self.old.inner ≡ true }
        ensures same { P.geometry_of self.new.inner ≡ P.geometry_of self.old.inner }
        ensures alike { P.is_headed self.new.inner ≡ P.is_headed self.old.inner }
        ensures counts { Counts result self.old.count self.new.count }
        ensures next { IsNext self.old.left self.old.spoiled self.new.left self.new.spoiled }
        ensures fails { self.old.left ≡ 1 → IsUnasked result self.old.inner self.new.inner }
        ensures passes { self.old.left ≢ 1 →
            P.read_gives self.old.inner page result self.new.inner }
    {
        if self.blows() {
            return Err(self.count.add());
        }
        let read = self.inner.read(rt, page);
        self.count.count_failure(read)
    }

    fn write<R: Wait>(
        &mut self,
        rt: &R,
        page: PageNo,
        image: &Image,
        lsn: Lsn,
    ) -> Result<(), PortFault>
        ensures never_wrong { result ≢ Err PortFault.WrongPage }
        ensures same { P.geometry_of self.new.inner ≡ P.geometry_of self.old.inner }
        ensures alike { P.is_headed self.new.inner ≡ P.is_headed self.old.inner }
        ensures counts { Counts result self.old.count self.new.count }
        ensures next { IsNext self.old.left self.old.spoiled self.new.left self.new.spoiled }
        ensures fails { self.old.left ≡ 1 →
            FailsSpoiling (λ spoiled. P.write_gives self.old.inner page spoiled lsn)
            self.old.spoiled result self.old.inner self.new.inner }
        ensures passes { self.old.left ≢ 1 →
            P.write_gives self.old.inner page image.now lsn result self.new.inner }
    {
        if self.blows() {
            if let Some(spoiled) = &self.spoiled {
                let _ = self.inner.write(rt, page, spoiled, lsn);
            }
            return Err(self.count.add());
        }
        let written = self.inner.write(rt, page, image, lsn);
        self.count.count_failure(written)
    }

    fn sync<R: Wait>(&mut self, rt: &R) -> Result<(), PortFault>
        ensures fault { OnErr result (result ≡ Err PortFault.Device) }
        ensures same { P.geometry_of self.new.inner ≡ P.geometry_of self.old.inner }
        ensures alike { P.is_headed self.new.inner ≡ P.is_headed self.old.inner }
        ensures counts { Counts result self.old.count self.new.count }
        ensures next { IsNext self.old.left self.old.spoiled self.new.left self.new.spoiled }
        ensures fails { self.old.left ≡ 1 → IsUnasked result self.old.inner self.new.inner }
        ensures passes { self.old.left ≢ 1 → P.sync_gives self.old.inner result self.new.inner }
    {
        if self.blows() {
            return Err(self.count.add());
        }
        let synced = self.inner.sync(rt);
        self.count.count_failure(synced)
    }
}

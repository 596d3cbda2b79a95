//! `OwnedPool`: a pool for one owner, which is a core and a port in one.
ghost use Rattle.std.specs.Prelude.{◌≡◌, ◌≢◌, ◌+◌, ◌<◌, ◌≤◌, ◌↔◌, true, false, IsTrue, IsOk, IfOk, OnErr, IfErr, IfSome, IfNone, length};
ghost use Rattle.std.specs.Fn.{FnOnceReturnsAt};
ghost use Rattle.bp_trail.specs.declared.entries.Call.TheVariants as call;
ghost use Rattle.bp_trail.specs.Clock.{durable};
ghost use Rattle.bp_trail.specs.Images.{held};
ghost use Rattle.bp_trail.specs.Saved.{IsRedoFrom};
ghost use Rattle.bp_core.specs.Agreement.{parameters_of};
ghost use Rattle.bp_core.specs.CoreView.{EachPast};
ghost use Rattle.bp_core.specs.Outcomes.{KnowsPass, LacksPass, ReadIntoOutcome, WriteOutcome};
ghost use Rattle.bp_core.specs.Outcomes.{DiscardOutcome, PurgeOutcome, StepOutcome, TickOutcome, UnfixOutcome};
ghost use Rattle.bp_core.specs.Work.{DoesWork};
ghost use Rattle.bp_device.specs.Drivers.{IsCaused};
ghost use Rattle.bp_core.specs.Work.{MadeBlank};
ghost use Rattle.bp_device.specs.FlushAll.{FlushesAll};
ghost use Rattle.bp_device.specs.Owned.{IsDeviceOf, Opens, ForPage, ForPart, OwnerFixes, OwnerFlushes, KeepsPort, Looks};

use crate::drivers::drive_flush;
use crate::flush_all::drive_flush_all;
use crate::owner::{OWNER, fix_as_owner, fix_new_as_owner, look_by};
use bp_core::{Discarded, Flushed, Keeper, NotFlushed, Pass, PoolCore, Settings};
use bp_page::{Lsn, PageNo, PortFault, Refusal};
use bp_ports::Port;
use std::alloc::Global;
use std::marker::Model;
use std::sync::Wait;

/// A pool for one owner: a core of which nobody else is a client, and the port to its device. What the owner does is
/// done as client 0, and each call ends with its device work done.
///
/// The clock moves on by one at each fix, so that no page stays within the correlated period for ever. An owner that
/// moves the clock itself turns that off, by `set_ticking`.
#[derive(Drop)]
pub struct OwnedPool<K: Keeper, P: Port> {
    alloc: Global,
    core: PoolCore<K>,
    port: P,
    is_ticking: bool,
    ghost device: { IsDeviceOf core (P.geometry_of port) },
}

impl<K: Keeper, P: Port> Model for OwnedPool<K, P> {
    ghost use Rattle.bp_device.specs.Owned.{OwnedView};

    ghost Value = { OwnedView P };

    ghost view = { λ p. record { core = p.core; port = p.port; is_ticking = p.is_ticking } };
}

impl<K: Keeper, P: Port> OwnedPool<K, P> {
    /// Makes a pool of this core over this port, whose clock moves at each fix. What the core did before goes on.
    /// `BadSettings` where the port's pages are not as many as the core's, or of another size, or the core has no
    /// client; both are then dropped.
    pub fn new(alloc: Global, core: PoolCore<K>, port: P) -> Result<OwnedPool<K, P>, Refusal>
        ensures fits { IsOk result ↔ IsDeviceOf core (P.geometry_of port) }
        ensures made { IfOk result (λ pool. pool ≡ record {
          core = core;
          port = port;
          is_ticking =
              true;
        }) }
        ensures refused { OnErr result (result ≡ Err Refusal.BadSettings) }
    {
        let device = port.geometry();
        let pages = core.geometry();
        if device.pages != pages.pages || device.size != pages.size || core.clients() == 0 {
            drop(core);
            drop(port);
            return Err(Refusal::BadSettings);
        }
        Ok(OwnedPool {
            alloc,
            core,
            port,
            is_ticking: true,
        })
    }

    /// Makes a pool over this port with a new core, as `PoolCore::new` makes it, of the port's pages and for one
    /// client. `BadSettings` and `OutOfMemory` as from there; the port is then dropped.
    pub fn over(
        alloc: Global,
        port: P,
        settings: Settings,
        frames: usize,
        room: usize,
    ) -> Result<OwnedPool<K, P>, Refusal>
        ensures { Opens K.MOST_ROOM (parameters_of (record {
          geometry = P.geometry_of port;
          settings = settings;
          frames = frames;
          clients = 1;
          room =
              room;
        })) port result }
    {
        let core = PoolCore::new(alloc, port.geometry(), settings, frames, OWNER + 1, room)?;
        OwnedPool::new(alloc, core, port)
    }

    pub fn core(&self) -> &PoolCore<K>
        ensures { result.now ≡ self.now.core }
    {
        &self.core
    }

    pub fn port(&self) -> &P
        ensures { result.now ≡ self.now.port }
    {
        &self.port
    }

    /// Ends the pool and returns its core and its port. Passes that are out stay out.
    pub fn into_parts(self) -> (PoolCore<K>, P)
        ensures core { result.0 ≡ self.core }
        ensures port { result.1 ≡ self.port }
    {
        let OwnedPool {
            alloc: _,
            core,
            port,
            is_ticking: _,
        } = self;
        (core, port)
    }

    /// Sets whether the clock moves on by one at each fix.
    pub fn set_ticking(&mut self, is_ticking: bool)
        ensures { self.new ≡ record self.old { is_ticking = is_ticking } }
    {
        self.is_ticking = is_ticking;
    }

    /// Returns true if the file has this page.
    fn has(&self, page: PageNo) -> bool
        ensures { IsTrue result ↔ (page < self.now.core.parameters.pages) }
    {
        page.number() < self.core.geometry().pages
    }

    /// Moves the clock on by one, unless `set_ticking` turned that off, and fixes a page as `drive_fix` does. The pass
    /// is to go back by `unfix`.
    ///
    /// `OutOfPage` where the file has no such page, which changes nothing, else `TrailFull` or `ClockFull` where the
    /// clock can't move, which changes nothing either, else as `drive_fix`, with the clock moved if ticking is on.
    pub fn fix<R: Wait>(&mut self, rt: &R, page: PageNo) -> Result<Pass, Refusal>
        ensures outcome { ForPage self.old.core.parameters page self.old result self.new
            (OwnerFixes self.old.is_ticking self.old.core page result self.new.core) }
        ensures known { IfOk result (λ pass. KnowsPass self.new.core pass) }
        ensures work { DoesWork P.read_gives P.write_gives
            self.old.core self.old.port self.new.core self.new.port }
        ensures ticking { self.new.is_ticking ≡ self.old.is_ticking }
    {
        if !self.has(page) {
            return Err(Refusal::OutOfPage);
        }
        fix_as_owner(rt, &mut self.core, &mut self.port, self.is_ticking, page)
    }

    /// Fixes a page that is new as `drive_new` does, and moves the clock on before as `fix` does: where the page is
    /// away its image is zeros, and nothing is read. Refused as `fix` is.
    pub fn fix_new<R: Wait>(&mut self, rt: &R, page: PageNo) -> Result<Pass, Refusal>
        ensures outcome { ForPage self.old.core.parameters page self.old result self.new
            (OwnerFixes self.old.is_ticking self.old.core page result self.new.core) }
        ensures known { IfOk result (λ pass. KnowsPass self.new.core pass) }
        ensures work { DoesWork (MadeBlank self.old.core.parameters.size) P.write_gives
            self.old.core self.old.port self.new.core self.new.port }
        ensures ticking { self.new.is_ticking ≡ self.old.is_ticking }
    {
        if !self.has(page) {
            return Err(Refusal::OutOfPage);
        }
        let alloc = self.alloc;
        fix_new_as_owner(
            rt,
            alloc,
            &mut self.core,
            &mut self.port,
            self.is_ticking,
            page,
        )
    }

    /// Lends the bytes of the page of a pass as they are now. `None` where the pass is not out here.
    pub fn page(&self, pass: &Pass) -> Option<&[u8]>
        ensures known { IfSome result (λ bytes. KnowsPass self.now.core pass.now) }
        ensures held { IfSome result (λ bytes. EachPast self.now.core
            (λ past. bytes.now ≡ held past pass.now.page)) }
        ensures size { IfSome result (λ bytes. length bytes.now ≡ self.now.core.parameters.size) }
        ensures unknown { IfNone result (LacksPass self.now.core pass.now) }
    {
        self.core.page(pass)
    }

    /// Fixes a page as `fix` does, and returns what `f` returns of its bytes. The pass has then gone back, so that none
    /// is out for this call, whatever comes of it. Refused as `fix` is, and `f` is then not called.
    pub fn with_page<T, F: FnOnce(&[u8]) -> T + Drop, R: Wait>(
        &mut self,
        rt: &R,
        page: PageNo,
        f: F,
    ) -> Result<T, Refusal>
        requires callable { F.IsAlwaysCallable f }
        ensures outcome { ForPage self.old.core.parameters page self.old result self.new
            (Looks (λ image done. FnOnceReturnsAt F.FnOnce f image done)
            self.old.is_ticking self.old.core page result self.new.core) }
        ensures work { DoesWork P.read_gives P.write_gives
            self.old.core self.old.port self.new.core self.new.port }
        ensures ticking { self.new.is_ticking ≡ self.old.is_ticking }
    {
        let pass = self.fix(rt, page)?;
        Ok(look_by(&mut self.core, pass, f))
    }

    /// Copies bytes of the page of a pass, from the offset on, as many as `into` has. `OutOfPage` where they do not lie
    /// within the page, and else as `PoolCore::read_into`. A refusal changes nothing.
    pub fn read_into(&mut self, pass: &Pass, offset: u32, into: &mut [u8]) -> Result<(), Refusal>
        ensures outcome { ForPart self.old.core.parameters offset (length into.old)
            self.old result self.new
            (ReadIntoOutcome self.old.core pass.now offset into.old result into.new self.new.core) }
        ensures unread { OnErr result (into.new ≡ into.old) }
        ensures port { KeepsPort self.old self.new }
        ensures memory { K.REFUSES ≡ false → result ≢ Err Refusal.OutOfMemory }
    {
        if !self.core.geometry().fits(offset as usize, into.len()) {
            return Err(Refusal::OutOfPage);
        }
        self.core.read_into(pass, offset, into)
    }

    /// Writes bytes into the page of a pass, from the offset on, and raises the page LSN to `lsn` if that is greater.
    /// `OutOfPage` where they do not lie within the page, and else as `PoolCore::write_from`. A refusal changes
    /// nothing.
    pub fn write_from(
        &mut self,
        pass: &Pass,
        offset: u32,
        bytes: &[u8],
        lsn: Lsn,
    ) -> Result<(), Refusal>
        ensures outcome { ForPart self.old.core.parameters offset (length bytes.now)
            self.old result self.new
            (WriteOutcome self.old.core pass.now offset bytes.now lsn result self.new.core) }
        ensures port { KeepsPort self.old self.new }
        ensures memory { K.REFUSES ≡ false → result ≢ Err Refusal.OutOfMemory }
    {
        if !self.core.geometry().fits(offset as usize, bytes.len()) {
            return Err(Refusal::OutOfPage);
        }
        self.core.write_from(pass, offset, bytes, lsn)
    }

    /// Gives a pass back, by which its page has one pin fewer. A pass that is not out here comes back as `Err`, which
    /// stands for `UnknownPass`, and nothing changes.
    pub fn unfix(&mut self, pass: Pass) -> Result<(), Pass>
        ensures outcome { UnfixOutcome self.old.core pass result self.new.core }
        ensures port { KeepsPort self.old self.new }
    {
        self.core.unfix(pass)
    }

    /// Writes a page out where it is unsaved, as `drive_flush` does. It is durable once the device is synced.
    /// `OutOfPage` where the file has no such page, which changes nothing, and else as `drive_flush`.
    pub fn flush<R: Wait>(&mut self, rt: &R, page: PageNo) -> Result<Flushed, Refusal>
        ensures outcome { ForPage self.old.core.parameters page self.old result self.new
            (OwnerFlushes self.old.core page result self.new.core) }
        ensures work { DoesWork P.read_gives P.write_gives
            self.old.core self.old.port self.new.core self.new.port }
        ensures ticking { self.new.is_ticking ≡ self.old.is_ticking }
    {
        if !self.has(page) {
            return Err(Refusal::OutOfPage);
        }
        drive_flush(rt, &mut self.core, &mut self.port, OWNER, page)
    }

    /// Writes each unsaved page out, in the order of the file, as `drive_flush_all` does. After Ok no page of the file
    /// is unsaved. A refusal names its page: that is unsaved still, and those before it are saved.
    pub fn flush_all<R: Wait>(&mut self, rt: &R) -> Result<(), NotFlushed>
        ensures outcome { FlushesAll 0 self.old.core result self.new.core }
        ensures cause { IfErr result
            (λ stop. IsCaused (call.Flush stop.page) stop.why self.new.core) }
        ensures work { DoesWork P.read_gives P.write_gives
            self.old.core self.old.port self.new.core self.new.port }
        ensures ticking { self.new.is_ticking ≡ self.old.is_ticking }
    {
        drive_flush_all(rt, &mut self.core, &mut self.port, OWNER)
    }

    /// Returns the LSN from which redo has to begin, as `PoolCore::redo_from` does. A page is saved once it was written
    /// out, which `sync` makes durable: so ask first, sync then, and note the LSN last.
    pub fn redo_from(&mut self) -> Option<Lsn>
        ensures same { self.new ≡ self.old }
        ensures least { EachPast self.old.core (λ past. IsRedoFrom past result) }
    {
        self.core.redo_from()
    }

    /// Makes durable all that was written to the device: after a good `flush_all`, each write of a page. A fault is a
    /// failure of the device, which the port counts: what was written since the sync before may then be on the device
    /// or not, and no page is unsaved for it again.
    pub fn sync<R: Wait>(&mut self, rt: &R) -> Result<(), PortFault>
        ensures fault { OnErr result (result ≡ Err PortFault.Device) }
        ensures gives { P.sync_gives self.old.port result self.new.port }
        ensures core { self.new.core ≡ self.old.core }
        ensures ticking { self.new.is_ticking ≡ self.old.is_ticking }
    {
        self.port.sync(rt)
    }

    /// Moves the clock on by `n` ticks. Refused as `PoolCore::tick` is.
    pub fn tick(&mut self, n: u64) -> Result<(), Refusal>
        ensures outcome { TickOutcome self.old.core 0 n result self.new.core }
        ensures port { KeepsPort self.old self.new }
    {
        self.core.tick(OWNER, n)
    }

    /// Notes that the log is durable as far as an LSN. Refused as `PoolCore::mark` is.
    pub fn mark(&mut self, lsn: Lsn) -> Result<(), Refusal>
        ensures outcome { StepOutcome self.old.core 0 (call.Mark lsn) result self.new.core }
        ensures port { KeepsPort self.old self.new }
    {
        self.core.mark(OWNER, lsn)
    }

    /// Returns the greatest LSN marked, else 0.
    pub fn durable(&self) -> Lsn
        ensures { EachPast self.now.core (λ past. result ≡ durable past) }
    {
        self.core.durable()
    }

    /// Has a page leave its frame without being written out. `OutOfPage` where the file has no such page, which changes
    /// nothing, and else as `PoolCore::discard`.
    pub fn discard(&mut self, page: PageNo) -> Result<Discarded, Refusal>
        ensures outcome { ForPage self.old.core.parameters page self.old result self.new
            (DiscardOutcome self.old.core 0 page result self.new.core) }
        ensures port { KeepsPort self.old self.new }
    {
        if !self.has(page) {
            return Err(Refusal::OutOfPage);
        }
        self.core.discard(OWNER, page)
    }

    /// Forgets old references, and returns the number of their pages. Refused as `PoolCore::purge` is.
    pub fn purge(&mut self) -> Result<u64, Refusal>
        ensures outcome { PurgeOutcome self.old.core 0 result self.new.core }
        ensures port { KeepsPort self.old self.new }
    {
        self.core.purge(OWNER)
    }
}

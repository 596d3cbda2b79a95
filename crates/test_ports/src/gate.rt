//! `GatePort`: ports in pairs that wait for one another, for tests that the device work of two clients overlaps.
ghost use Rattle.std.specs.Prelude.{◌≡◌, ◌≢◌, ◌⊎◌, true, ◌<◌, IsTrue, IfOk, OnErr, length};
ghost use Rattle.bp_ports.specs.Ports.{Counts, IsUnasked};

use bp_page::{Geometry, Image, Lsn, PageNo, PortFault, Refusal};
use bp_ports::{Failures, Port};
use std::alloc::Global;
use std::sync::{Arc, Mutex, Wait};
use std::thread;

/// A flag that two ports share. It is raised once, and stays up.
type Flag = Arc<Mutex<bool>, Global>;

/// Makes a flag that is down, and returns it for each of the two that share it. It fails as `OutOfMemory` alone.
fn shared_flag(alloc: Global) -> Result<(Flag, Flag), Refusal>
    ensures { OnErr result (result ≡ Err Refusal.OutOfMemory) }
{
    let Ok(flag) = Arc::new(alloc, Mutex::new(false)) else {
        return Err(Refusal::OutOfMemory);
    };
    let again = Arc::try_clone(&flag)?;
    Ok((flag, again))
}

/// One side of a gate, which opens once somebody has come to the other side.
#[derive(Drop)]
struct Gate {
    here: Flag,
    there: Flag,
}

impl Gate {
    /// Makes both sides of a gate to which nobody has come. It fails as `OutOfMemory` alone.
    fn sides(alloc: Global) -> Result<(Gate, Gate), Refusal>
        ensures { OnErr result (result ≡ Err Refusal.OutOfMemory) }
    {
        let (first, seen_by_second) = shared_flag(alloc)?;
        let (second, seen_by_first) = shared_flag(alloc)?;
        let one = Gate {
            here: first,
            there: seen_by_first,
        };
        let other = Gate {
            here: second,
            there: seen_by_second,
        };
        Ok((one, other))
    }

    /// Comes to this side, and looks at the other one, up to so many times, until somebody has come there. Returns true
    /// if somebody was seen.
    fn opens<R: Wait>(&self, rt: &R, turns: u64) -> bool
        ensures looked { IsTrue result → 0 < turns }
    {
        *self.here.lock(rt) = true;
        for _ in 0..turns {
            if *self.there.lock(rt) {
                return true;
            }
            thread::yield_now();
        }
        false
    }
}

/// One port of a pair, each over another port. A read goes to the port below once some read of the pair's other port
/// has begun, and a write once some write has. So where two clients read once each, and both reads are good, neither
/// ended before the other began. A sync goes to the port below at once.
#[derive(Drop)]
pub struct GatePort<P: Port> {
    inner: P,
    /// The number of times that a call looks for one of its kind at the other port.
    turns: u64,
    reads: Gate,
    writes: Gate,
    count: Failures,
}

impl<P: Port> GatePort<P> {
    fn behind(inner: P, turns: u64, reads: Gate, writes: Gate) -> GatePort<P>
        ensures inner { result.inner ≡ inner }
        ensures turns { result.turns ≡ turns }
        ensures count { result.count ≡ 0 }
    {
        GatePort {
            inner,
            turns,
            reads,
            writes,
            count: Failures::none(),
        }
    }

    /// Makes a pair of ports. Each call looks up to `turns` times whether one of its kind has begun at the other port,
    /// and lets other threads run in between. Where none is seen, as always with 0 turns, the call fails with `Device`,
    /// is counted, and never gets to the port below.
    ///
    /// `OutOfMemory` where there is no memory for the pair's flags; `a` and `b` are then dropped.
    pub fn pair(
        alloc: Global,
        a: P,
        b: P,
        turns: u64,
    ) -> Result<(GatePort<P>, GatePort<P>), Refusal>
        ensures inner { IfOk result (λ pair. (pair.0.inner ≡ a) × (pair.1.inner ≡ b)) }
        ensures turns { IfOk result (λ pair. (pair.0.turns ≡ turns) × (pair.1.turns ≡ turns)) }
        ensures count { IfOk result (λ pair. (pair.0.count ≡ 0) × (pair.1.count ≡ 0)) }
        ensures memory { OnErr result (result ≡ Err Refusal.OutOfMemory) }
    {
        let (reads, other_reads) = Gate::sides(alloc)?;
        let (writes, other_writes) = Gate::sides(alloc)?;
        let first = GatePort::behind(a, turns, reads, writes);
        let second = GatePort::behind(b, turns, other_reads, other_writes);
        Ok((first, second))
    }
}

impl<P: Port> Port for GatePort<P> {
    ghost geometry_of = { λ p. P.geometry_of p.inner };

    ghost failures_of = { λ p. p.count };

    ghost is_headed = { λ p. P.is_headed p.inner };

    ghost read_gives = { λ port page found after.
        IsUnasked found port.inner after.inner ⊎
        P.read_gives port.inner page found after.inner };

    ghost write_gives = { λ port page image lsn written after.
        IsUnasked written port.inner after.inner ⊎
        P.write_gives port.inner page image lsn written after.inner };

    ghost sync_gives = { λ port synced after. P.sync_gives port.inner synced after.inner };

    fn geometry(&self) -> Geometry {
        self.inner.geometry()
    }

    fn failures(&self) -> u64 {
        self.count.count()
    }

    fn read<R: Wait>(&mut self, rt: &R, page: PageNo) -> Result<Image, PortFault>
        ensures size { IfOk result (λ image. length image ≡ (P.geometry_of self.old.inner).size) }
        ensures wrong { result ≡ Err PortFault.WrongPage → P.is_headed self.old.inner ≡ true }
        ensures same { P.geometry_of self.new.inner ≡ P.geometry_of self.old.inner }
        ensures alike { P.is_headed self.new.inner ≡ P.is_headed self.old.inner }
        ensures counts { Counts result self.old.count self.new.count }
        ensures turns { self.new.turns ≡ self.old.turns }
        ensures shut { self.old.turns ≡ 0 → IsUnasked result self.old.inner self.new.inner }
        ensures gives { IsUnasked result self.old.inner self.new.inner ⊎
            P.read_gives self.old.inner page result self.new.inner }
    {
        if !self.reads.opens(rt, self.turns) {
            return Err(self.count.add());
        }
        let read = self.inner.read(rt, page);
        self.count.count_failure(read)
    }

    fn write<R: Wait>(
        &mut self,
        rt: &R,
        page: PageNo,
        image: &Image,
        lsn: Lsn,
    ) -> Result<(), PortFault>
        ensures never_wrong { result ≢ Err PortFault.WrongPage }
        ensures same { P.geometry_of self.new.inner ≡ P.geometry_of self.old.inner }
        ensures alike { P.is_headed self.new.inner ≡ P.is_headed self.old.inner }
        ensures counts { Counts result self.old.count self.new.count }
        ensures turns { self.new.turns ≡ self.old.turns }
        ensures shut { self.old.turns ≡ 0 → IsUnasked result self.old.inner self.new.inner }
        ensures gives { IsUnasked result self.old.inner self.new.inner ⊎
            P.write_gives self.old.inner page image.now lsn result self.new.inner }
    {
        if !self.writes.opens(rt, self.turns) {
            return Err(self.count.add());
        }
        let written = self.inner.write(rt, page, image, lsn);
        self.count.count_failure(written)
    }

    fn sync<R: Wait>(&mut self, rt: &R) -> Result<(), PortFault>
        ensures fault { OnErr result (result ≡ Err PortFault.Device) }
        ensures same { P.geometry_of self.new.inner ≡ P.geometry_of self.old.inner }
        ensures alike { P.is_headed self.new.inner ≡ P.is_headed self.old.inner }
        ensures counts { Counts result self.old.count self.new.count }
        ensures turns { self.new.turns ≡ self.old.turns }
        ensures gives { P.sync_gives self.old.inner result self.new.inner }
    {
        let synced = self.inner.sync(rt);
        self.count.count_failure(synced)
    }
}

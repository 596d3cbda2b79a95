//! `drain_all`: gives back to a core the passes that clients posted by their rings.
ghost use Rattle.std.specs.Prelude.{◌≡◌, ◌<◌, [], map, length, true, IsTrue};
ghost use Rattle.rtrb.specs.Ring.{known_items};
ghost use Rattle.bp_trail.specs.Clock.{durable};
ghost use Rattle.bp_session_log.specs.Rings.{FrontGoesBack, ring_view, DrainsKnown, DrainsRing, DrainsRings, NoneWaits};

use bp_core::{Keeper, PassNote, PoolCore};
use rtrb::Consumer;

/// The most passes that are taken from a ring at once, which is as many as it holds.
pub const RING: usize = 32;

/// The word by which `drain_all` asks each ring.
pub const ALL: u64 = u64::MAX;

/// Gives the front pass of a client's ring back, and takes it out of the ring. Returns false where it is not this
/// client's, or is not out: then it stays in the ring, and nothing changes.
fn unfix_front<K: Keeper>(
    core: &mut PoolCore<K>,
    client: usize,
    consumer: &mut Consumer<PassNote>,
) -> bool
    requires waits { 0 < length (known_items consumer.old) }
    ensures parameters { core.new.parameters ≡ core.old.parameters }
    ensures before { core.new.before ≡ core.old.before }
    ensures front { FrontGoesBack client (ring_view consumer.old) (ring_view consumer.new)
        core.old.past result core.new.past }
{
    let note = *consumer.peek_known();
    if usize::from(note.client()) != client {
        return false;
    }
    match core.unfix(note.pass()) {
        Ok(()) => {
            consumer.pop_known();
            true
        }
        Err(pass) => {
            pass.note();
            false
        }
    }
}

/// Gives the passes back that are known to wait in a client's ring, in order, at most so many. It stops at one that is
/// not this client's, or that is not out, and leaves it in the ring.
pub fn drain_known<K: Keeper>(
    core: &mut PoolCore<K>,
    client: usize,
    consumer: &mut Consumer<PassNote>,
    most: usize,
)
    ensures parameters { core.new.parameters ≡ core.old.parameters }
    ensures before { core.new.before ≡ core.old.before }
    ensures drained { DrainsKnown most client (ring_view consumer.old) (ring_view consumer.new)
        core.old.past core.new.past }
{
    for _ in 0..most {
        if consumer.cached_slots() == 0 {
            return;
        }
        if !unfix_front(core, client, consumer) {
            return;
        }
    }
}

/// Gives back at most 32 of the passes that wait in a client's ring, if the ring is to be asked, or a pass is known to
/// wait in it. Returns whether no pass is known to wait in it then.
fn drain<K: Keeper>(
    core: &mut PoolCore<K>,
    client: usize,
    consumer: &mut Consumer<PassNote>,
    is_asked: bool,
) -> bool
    ensures parameters { core.new.parameters ≡ core.old.parameters }
    ensures before { core.new.before ≡ core.old.before }
    ensures drained { DrainsRing 32 client (ring_view consumer.old) (ring_view consumer.new)
        core.old.past core.new.past }
    ensures quiet { IsTrue result → known_items consumer.new ≡ [] }
{
    if !is_asked && consumer.cached_slots() == 0 {
        return true;
    }
    consumer.slots();
    drain_known(core, client, consumer, RING);
    consumer.cached_slots() == 0
}

/// Drains each ring that is to be asked, and each in which a pass is known to wait, the first client's first, at most
/// 32 passes each. Bit c of the word stands for the ring of client c. A pass leaves its ring only as it goes back to
/// the core: one that is not that client's, or that is not out, stays there, with those behind it. It takes no memory.
///
/// Returns true only if no pass is known to wait in a ring any more. Then a call that asks no ring would find nothing,
/// and its caller can leave it out, with a look at each client's end: the ends lie side by side, and each client writes
/// to its own.
pub fn drain_all<K: Keeper>(
    core: &mut PoolCore<K>,
    consumers: &mut Vec<Consumer<PassNote>>,
    asked: u64,
) -> bool
    ensures parameters { core.new.parameters ≡ core.old.parameters }
    ensures before { core.new.before ≡ core.old.before }
    ensures drained { DrainsRings 32 0 (map ring_view consumers.old.items)
        (map ring_view consumers.new.items) core.old.past core.new.past }
    ensures durable { durable core.new.past ≡ durable core.old.past }
    ensures quiet { IsTrue result → NoneWaits (map ring_view consumers.new.items) }
{
    let mut word = asked;
    let mut is_quiet = true;
    for client in 0..consumers.len() {
        let is_empty = drain(core, client, &mut consumers[client], word % 2 == 1);
        is_quiet = is_quiet & is_empty;
        word /= 2;
    }
    is_quiet
}

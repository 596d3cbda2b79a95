//! `TrailRing`: the rings of a pool, which are made before it: that by which its trail goes to its taker, and one for
//! each session.
ghost use Rattle.std.specs.Prelude.{◌≡◌, ◌∷◌, ◌++◌, [], IfOk, OnErr, length};
ghost use Rattle.bp_page.specs.declared.refusals.Refusal.TheVariants as Refusal;
ghost use Rattle.rtrb.specs.Ring.{sent, received, known_free, producer_capacity};
ghost use Rattle.bp_session_log.specs.Rings.{ring_of, ring_at};
ghost use Rattle.bp_shared.specs.Posting.{AreRings};
ghost use Rattle.bp_shared.specs.Taking.{IsEmptied};

use bp_core::{Entry, PassNote};
use bp_page::Refusal;
use bp_session_log::Board;
use bp_session_log::draining::RING;
use rtrb::{Consumer, Producer, RingBuffer};
use std::alloc::Global;
use std::marker::Model;

/// The rings of a pool, made before it: one with room for one piece of a trail, and one for the passes that each client
/// posts. Contracts see their names, and those of the boards on which the pool's sessions will show their lists and
/// what they saw of the trail, which sets them apart from all others.
#[derive(Drop)]
pub struct TrailRing {
    pub(crate) pieces: Producer<Vec<Entry>>,
    pub(crate) taken: Consumer<Vec<Entry>>,
    pub(crate) board: Board,
    pub(crate) seen: Board,
    /// The ends at which each client posts its passes, and those at which they come out.
    pub(crate) producers: Vec<Producer<PassNote>>,
    pub(crate) consumers: Vec<Consumer<PassNote>>,
}

impl Model for TrailRing {
    ghost use Rattle.std.specs.Prelude.{◌≡◌, [], map};
    ghost use Rattle.rtrb.specs.Ring.{sent, received};
    ghost use Rattle.bp_session_log.specs.Rings.{ring_of, ring_at};
    ghost use Rattle.bp_shared.specs.Posting.{AreRings};
    ghost use Rattle.bp_shared.specs.Taking.{PoolRing, IsEmptied};

    ghost Value = { PoolRing };

    ghost view = { λ r. record {
      trail = ring_of r.pieces;
      board = r.board.name;
      seen = r.seen.name;
      rings = map ring_of r.producers.items;
    } };

    ghost invariant = { λ r. (ring_at r.taken ≡ ring_of r.pieces) × IsEmptied r.pieces
        × (sent r.pieces ≡ []) × (received r.taken ≡ []) × (r.board.lists ≡ []) × (r.seen.lists ≡ [])
        × AreRings r.producers.items r.consumers.items };
}

/// Makes a ring for each of so many clients. Returns the ends at which passes go in, and those at which they come out.
fn session_rings(
    alloc: Global,
    clients: u8,
) -> Result<(Vec<Producer<PassNote>>, Vec<Consumer<PassNote>>), Refusal>
    ensures rings { IfOk result (λ made. AreRings made.0.items made.1.items) }
    ensures count { IfOk result (λ made. length made.0.items ≡ clients) }
    ensures refused { OnErr result (result ≡ Err Refusal.OutOfMemory) }
{
    let mut producers = Vec::with_capacity(alloc, clients as usize)?;
    let mut consumers = Vec::with_capacity(alloc, clients as usize)?;
    for _ in 0..clients {
        let (producer, consumer) = RingBuffer::new(alloc, RING)?;
        producers.push_reserved(producer);
        consumers.push_reserved(consumer);
    }
    Ok((producers, consumers))
}

impl TrailRing {
    ghost use Rattle.std.specs.Prelude.{◌≡◌, IfOk, OnErr, length};
    ghost use Rattle.bp_page.specs.declared.refusals.Refusal.TheVariants as Refusal;

    /// Makes the rings of a pool of so many clients. Where there is no memory this is `OutOfMemory`.
    pub fn new(alloc: Global, clients: u8) -> Result<TrailRing, Refusal>
        ensures count { IfOk result (λ ring. length ring.rings ≡ clients) }
        ensures refused { OnErr result (result ≡ Err Refusal.OutOfMemory) }
    {
        let (producers, consumers) = session_rings(alloc, clients)?;
        let (pieces, taken) = RingBuffer::<Vec<Entry>>::new(alloc, 1)?;
        Ok(TrailRing {
            pieces,
            taken,
            board: Board::new(),
            seen: Board::new(),
            producers,
            consumers,
        })
    }
}

/// Holds the two ends side by side: each piece that went in came out.
pub(crate) fn join_ends(pieces: &mut Producer<Vec<Entry>>, taken: &mut Consumer<Vec<Entry>>)
    requires pair { ring_at taken.old ≡ ring_of pieces.old }
    requires emptied { IsEmptied pieces.old }
    ensures producer { ring_of pieces.new ≡ ring_of pieces.old }
    ensures consumer { ring_at taken.new ≡ ring_at taken.old }
    ensures emptied { IsEmptied pieces.new }
    ensures sent { sent pieces.new ≡ sent pieces.old }
    ensures received { received taken.new ≡ received taken.old }
    ensures all { received taken.old ≡ sent pieces.old }
{
    taken.slots_beside(pieces);
    pieces.slots_beside(taken);
}

/// Puts a piece in at the one end, and takes it out at the other.
pub(crate) fn pass_on(
    pieces: &mut Producer<Vec<Entry>>,
    taken: &mut Consumer<Vec<Entry>>,
    piece: Vec<Entry>,
) -> Vec<Entry>
    requires pair { ring_at taken.old ≡ ring_of pieces.old }
    requires emptied { IsEmptied pieces.old }
    ensures same { result ≡ piece }
    ensures producer { ring_of pieces.new ≡ ring_of pieces.old }
    ensures consumer { ring_at taken.new ≡ ring_at taken.old }
    ensures emptied { IsEmptied pieces.new }
    ensures sent { sent pieces.new ≡ sent pieces.old ++ piece ∷ [] }
    ensures received { received taken.new ≡ received taken.old ++ piece ∷ [] }
    ensures all { received taken.old ≡ sent pieces.old }
{
    join_ends(pieces, taken);
    pieces.push_reserved(piece);
    taken.slots_beside(pieces);
    let passed = taken.pop_known();
    pieces.slots_beside(taken);
    passed
}

/// Puts a pass in at the one end of a session's ring, which is empty, and takes it out at the other.
pub(crate) fn pass_through(
    producer: &mut Producer<PassNote>,
    consumer: &mut Consumer<PassNote>,
    note: PassNote,
)
    requires pair { ring_at consumer.old ≡ ring_of producer.old }
    requires emptied { received consumer.old ≡ sent producer.old }
    requires free { (producer_capacity producer.old ≡ 32) × (known_free producer.old ≡ 32) }
    ensures producer { ring_of producer.new ≡ ring_of producer.old }
    ensures consumer { ring_at consumer.new ≡ ring_at consumer.old }
    ensures sent { sent producer.new ≡ sent producer.old ++ note ∷ [] }
    ensures received { received consumer.new ≡ received consumer.old ++ note ∷ [] }
    ensures free { (producer_capacity producer.new ≡ 32) × (known_free producer.new ≡ 32) }
{
    producer.push_reserved(note);
    consumer.slots_beside(producer);
    consumer.pop_known();
    producer.slots_beside(consumer);
}

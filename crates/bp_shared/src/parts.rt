//! `Parts`: the mark and the rings that a pool needs besides its core.
ghost use Rattle.std.specs.Prelude.{◌≡◌};

use crate::trail_ring::TrailRing;
use bp_mark::{LogEnd, Mark, Reader};
use bp_page::Refusal;
use std::alloc::Global;

/// A mark with its log end and its first reader, and the rings of the trail and of the sessions.
#[derive(Drop)]
pub struct Parts {
    /// The pool's durable mark: up to which LSN the log is durable.
    pub mark: Mark,
    /// The log end of the mark, which raises it.
    pub end: LogEnd,
    /// The first reader of the mark, from which the others are split.
    pub reader: Reader,
    /// The ring by which the trail goes to its taker, a piece at a time, and that of each session.
    pub ring: TrailRing,
    pub ghost end_is: { end.mark ≡ mark },
    pub ghost reader_is: { reader.mark ≡ mark },
}

impl Parts {
    ghost use Rattle.std.specs.Prelude.{◌≡◌, IfOk, OnErr, length};
    ghost use Rattle.bp_page.specs.declared.refusals.Refusal.TheVariants as Refusal;

    /// Makes the parts of a pool of so many clients: a mark at 0, of which the reader has seen nothing, and rings that
    /// nothing went through. Where there is no memory this is `OutOfMemory`, and nothing is made.
    pub fn new(alloc: Global, clients: u8) -> Result<Parts, Refusal>
        ensures log_end { IfOk result (λ parts.
            parts.end ≡ record { mark = parts.mark; frontier = 0 }) }
        ensures reader { IfOk result (λ parts.
            parts.reader ≡ record { mark = parts.mark; seen = 0 }) }
        ensures rings { IfOk result (λ parts. length parts.ring.rings ≡ clients) }
        ensures refused { OnErr result (result ≡ Err Refusal.OutOfMemory) }
    {
        let (mark, end, reader) = Mark::new(alloc)?;
        let ring = TrailRing::new(alloc, clients)?;
        Ok(Parts {
            mark,
            end,
            reader,
            ring,
        })
    }
}

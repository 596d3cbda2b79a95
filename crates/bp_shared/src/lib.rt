//! A buffer pool that many clients share: a core behind one lock, a session for each client, and the durable mark.
//!
//! Each call of a session is one or more critical sections, and in each the locked core makes its events. Device work
//! is done outside the lock (Gray and Reuter, chapter 13). A pass goes back through the session's own ring, with no
//! lock.
//!
//! The lists of the sessions are bound to the trail of the core, whether some memory has them or not: each
//! critical section of a session first takes back what the session posted, so the trail's entries of the client are then
//! the session's list: all of it, each unfix in its place. So they are when a session ends at a [`ClosedPool`].
//!
//! The functions that a hit calls are inlined: called, they hand the pass and the answer on through memory, which took a
//! ninth of the instructions of a hit whose page is read.
#![tactic(auto)]

pub mod closed_part;
pub mod closed_pool;
pub mod laws;
mod locked_pool;
mod locking;
mod log_writer;
pub mod names;
mod parts;
pub mod pool;
pub mod receipt;
pub mod session;
pub mod taker;
mod trail_ring;

use bp_keeper::{RecordingKeeper, SilentKeeper};
pub use bp_trail::{Discarded, Flushed};
pub use closed_part::ClosedPart;
pub use log_writer::LogWriter;
pub use names::{One, PartNames, PoolName};
pub use parts::Parts;
pub use trail_ring::TrailRing;

/// A pool that stands alone: a [`SharedPool`](pool::SharedPool) of one name.
pub type SharedPool<N, K = RecordingKeeper> = pool::SharedPool<One<N>, K>;

/// A client's end of it.
pub type Session<N, K = RecordingKeeper> = session::Session<One<N>, K>;

/// What takes its trail.
pub type Taker<N> = taker::Taker<One<N>>;

/// A part of its trail that was seen.
pub type Receipt<N> = receipt::Receipt<One<N>>;

/// It, once it is shared no more.
pub type ClosedPool<N, K = RecordingKeeper> = closed_pool::ClosedPool<One<N>, K>;

/// A shared pool that only counts the entries of its core and of its sessions. Its calls have the same clauses. Trail
/// and lists stand in proofs alone, and agree as those of a recording pool do.
pub type SilentPool<N> = SharedPool<N, SilentKeeper>;

/// A client's end of a [`SilentPool`]: it has the passes that it holds and its ring, and no list.
pub type SilentSession<N> = Session<N, SilentKeeper>;

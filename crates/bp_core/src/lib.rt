//! The core of a buffer pool: each call is one step, and the trail of all steps is one legal history.
//!
//! The behaviour is that of the page buffer manager of Gray and Reuter (Transaction Processing, chapter 13), with
//! replacement by LRU-K (O'Neil, O'Neil and Weikum, SIGMOD 1993, figure 2.1).
//!
//! # What is true of every core
//!
//! Between two calls all of the following holds. It is proved of each call, in whatever order calls come. Each number
//! has the name of its field of `IsCore` in `specs/Agreement.antt`.
//!
//! 1. What is kept beside the trail is what the trail says, and the trail is legal (`agrees`). The clock, the durable
//!    mark, the counts of passes and tickets, those that are out, and the stamps of each page are those that the
//!    entries come to. Each resident page has one frame, and no other page has any. The frame tells the page's passes,
//!    whether it is unsaved, written since its write-out began or being written out, its page LSN and its bytes, as
//!    the entries do. The histories hold the pages that are resident or being read. The clock is 2^62 at most, and no
//!    reference is later than it, those that were forgotten included.
//! 2. The candidates for replacement are the resident pages that nobody uses: no pass of the page is out, and no
//!    write-out of it is under way. Each stands there once, with its K-th stamp and the time of its newest reference
//!    (`candidates`).
//! 3. The trail has its room in memory. Its entries, one more for each pass and each write-out that is out, and two for
//!    each read, are no more than the room. So each of these can end, and what ends takes no memory. No more passes or
//!    tickets were given than 2^62 and as many as the trail has entries, so no serial number overflows (`trail_room`).
//! 4. The keeper knows whether the trail opens where no entries lead (`opening`).
//! 5. Each page that the histories hold has a block of stamps. It stays where it is while the page is held, so a frame
//!    tells where the block of its page is (`placed`).
//! 6. The next pass and the next ticket have numbers above all that are out (`numbers`).
//! 7. For each read that is out the list of passes has room for the pass that its end gives (`pass_room`).
//! 8. For each read that is out a frame is empty, with an image of the page size. There are as many frames at most, and
//!    as many places of pages, as the core was made with (`frame_room`).
#![tactic(auto)]

pub mod config;
pub mod passes;
pub mod pool;
mod state;
pub mod stats;

pub use bp_keeper::{GhostTrail as Before, Keeper, RecordingKeeper, SilentKeeper};
pub use bp_replacer::Settings;
pub use bp_replacer::settings::{MAX_PERIOD, MAX_STAMPS};
pub use bp_trail::{Call, Discarded, Ended, Entry, Flushed, NotFlushed, Reply};
pub use config::Config;
pub use passes::{EndRefusal, Fix, Flush, Pass, PassNote, ReadTicket, WriteTicket};
pub use pool::PoolCore;
pub use stats::Stats;

/// A core that has its trail in memory, where it can be read, compared and cut.
pub type Core = PoolCore<RecordingKeeper>;

/// A core that only counts its entries. What its calls promise is proved of the same list, which stands in proofs
/// alone.
pub type SilentCore = PoolCore<SilentKeeper>;

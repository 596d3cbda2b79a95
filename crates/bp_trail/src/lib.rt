//! The trail of a buffer pool: its entries, and what a list of entries says, by definitions and laws. `Totals` counts
//! replies; it takes no memory, and goes over a list once.
//!
//! The behaviour is that of the page buffer manager of Gray and Reuter (Transaction Processing, chapter 13), with
//! replacement by LRU-K (O'Neil, O'Neil and Weikum, SIGMOD 1993, figure 2.1).
#![tactic(auto)]

pub mod ends;
pub mod entries;
pub mod laws;
pub mod records;
pub mod recovery;
pub mod totals;

pub use ends::{Discarded, Ended, Flushed, NotFlushed, refusal_of_read, reply_of_read};
pub use entries::{Call, Entry, Grant, Reply};
pub use records::{LogRecord, redo_page, redo_record};
pub use totals::Totals;

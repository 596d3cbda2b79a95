//! The durable mark: one word that says up to which LSN the log is durable.
//!
//! The log writer raises the mark and any number of readers look at it, each from its own thread, with no lock and no
//! waiting. A buffer pool looks before it writes a page out, since the log must first be durable up to the page LSN
//! (the write-ahead rule: Gray and Reuter, chapter 13).
#![tactic(auto)]

mod log_end;
mod marks;
mod readers;
mod views;

pub use log_end::LogEnd;
pub use marks::Mark;
pub use readers::Reader;

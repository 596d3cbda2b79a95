//! Runs the program: from the words of its command line and the bytes of a trace to the bytes of a report, or from
//! references to a table.
//!
//! The contract of `run_with` is what is promised of the whole program.
#![tactic(auto)]

mod awaiting;
mod drawing;
mod endings;
mod explaining;
mod file_ids;
mod free;
mod meter;
mod migration;
mod new_file;
mod noted;
mod open_pages;
mod opening;
mod page_files;
mod run;
mod scripts;
mod sweeping;

pub use awaiting::Awaiting;
pub use open_pages::{OpenFile, OpenMemory, OpenPages};
pub use opening::Ports;
pub use page_files::{AnyPort, PageFiles};
pub use run::{carry_out, run_with};

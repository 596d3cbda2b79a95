//! A log in a file, and redo: the records of a log as bytes, what is read of them after a crash, and how they are put into
//! the pages of a device.
#![tactic(auto)]

pub mod frames;
pub mod log;
pub mod reading;
pub mod redo;
pub mod store;

pub use log::{LogFault, LogFile};
pub use redo::redo_pages;
pub use store::LogStore;

//! A table that recovers: pages in a buffer pool for one owner, and a log in one of two files. What was made durable stays,
//! whatever ends the process and whenever the power fails, and each commit is whole.
#![tactic(auto)]

mod images;
pub mod laws;
pub mod opening;
pub mod table;

pub use opening::{create, open};
pub use table::{Table, TableFault};

//! Scripts: what the clients of a pool ask for, row by row, and what it is that entries follow a script.
#![tactic(auto)]

pub mod laws;
pub mod rows;

pub use rows::{Refused, Row, Step};

//! Shared by the tests of several crates: pools to test, scripts as text, and the judge of trails.
//!
//! It has no tests, and no function ends the process: each returns its faults, and the test says what it expected.
#![tactic(auto)]

pub mod judging;
pub mod pools;
pub mod scripts;

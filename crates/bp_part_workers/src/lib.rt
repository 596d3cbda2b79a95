//! Workers over a pool in parts: a thread for each, with a session in each part and a port to the stripes of the file.
//!
//! `run_parted` picks the names on which the parts, their sessions and their marks agree, so that its callers need not.
//! It returns the workers, the core of each part, whose trail is one legal history, and each client's book of each part.
#![tactic(auto)]

mod job;
pub mod run;
pub mod shared_log;
pub mod worker;

pub use run::{PartedRun, run_parted};
pub use shared_log::{LogState, SharedLog};
pub use worker::{PartedClient, PartedLeft, PartedWorker};

//! Workers over one buffer pool: a thread, a session and a port for each; and a fix that waits for the log and for a
//! victim.
//!
//! `run_workers` picks the name on which pool, sessions and mark agree, so that its callers need not. It returns the
//! workers, their lists and the core, whose trail is one legal history. `run_workers_over` does so over a pool of any
//! kind, and `run_sharing_workers` with a state that its workers share.
#![tactic(auto)]

pub mod durable;
mod job;
pub mod kinds;
pub mod run;
pub mod sharing;
mod unfixing;
pub mod worker;

pub use bp_core::Config;
pub use bp_shared::LogWriter;
pub use durable::{Asked, DurableLog, Leading, Log, Patience, fix_durably};
pub use kinds::Kind;
pub use run::{Run, run_sharing_workers, run_workers, run_workers_over};
pub use sharing::{SharedState, SharingWorker, WithReceipt};
pub use worker::{Client, Left, Upkeep, Worker};

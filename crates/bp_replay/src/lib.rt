//! Players of scripts. `drive_all` runs the rows of a script in order over a core that has one owner. `run_clients` runs
//! client threads over one buffer pool: a thread, a script and a port for each client, and a worker plays each script.
//!
//! The contract of `run_clients` is the promise of the whole: the trail is one legal history, which holds each client's
//! calls once and in that client's order, and no mark in it is ahead of the log.
#![tactic(auto)]

mod collecting;
pub mod driving;
pub mod fitting;
mod held_list;
mod held_passes;
pub mod laws;
mod player;
mod rows;
pub mod run;
mod steps;

pub use bp_core::Config;
pub use driving::{drive_all, note_refused};
pub use fitting::scripts_fit;
pub use held_list::HeldList;
pub use run::{Outcome, run_clients};

//! Plays the lines of a scenario that share a pool: sessions in turn, or client threads, each by rows of its own.
//!
//! One call plays all lines of such a pool, since the pool has a name in its types, so no list can hold it.
#![tactic(auto)]

pub mod answers;
mod clients;
pub mod kinds;
mod making;
pub mod playing;
mod ports;
pub mod ran;
mod rows;
pub mod runs;
mod scripts;
mod tables;

pub use answers::Answers;
pub use kinds::Kind;
pub use playing::play_pool;
pub use ran::Ran;
pub use runs::play_run;

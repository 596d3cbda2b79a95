//! Tests of refused memory: page files that are opened or made, a mark, a driver, a pool with one owner, and runs of
//! workers over a pool of either kind. With memory the tests pass as they stand; `check/refused_memory` runs each of
//! them again and again, and refuses the first request for memory, then the second, and so on. It does the same with
//! scenarios of cores, of sessions and of one client thread.
//!
//! What a worker did before a refusal is in the pool's trail and in the worker's list alike, and all passes and tickets
//! go back. The same call with memory answers as if nothing had been refused. All entries that a core or a pool keeps
//! go to the judge.
mod answers;
mod devices;
mod files;
mod marks;
mod owners;
mod telling;
mod workers;

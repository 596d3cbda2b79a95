//! Tests of threads that share a pool, also where a device call of one fails: the caller gets the refusal, waiting
//! threads wake, and the page can be read or written again.
//!
//! The tests are on top of the crates that they call, so that none of those is proved again for them. The library
//! itself has no item. What they assert holds under every schedule. All entries of each pool go to the judge, except
//! for the million of the long run, which would take too long.
#![tactic(auto)]

#[cfg(test)]
mod gates;
#[cfg(test)]
mod making;
#[cfg(test)]
mod pieces;
#[cfg(test)]
mod waiting;

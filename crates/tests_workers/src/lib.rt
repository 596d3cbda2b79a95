//! Tests of runs of workers, and of what an engine needs besides the calls of a pool. What they assert holds under
//! every schedule. The trail of each run goes to the judge, except for those of silent pools, which keep none.
//!
//! The tests are on top of the crates that they call, so that none of those is proved again for them. The library
//! itself has no item.
#![tactic(auto)]

#[cfg(test)]
mod dead_ports;
#[cfg(test)]
mod durable;
#[cfg(test)]
mod flushing;
#[cfg(test)]
mod following;
#[cfg(test)]
mod labels;
#[cfg(test)]
mod looking;
#[cfg(test)]
mod making;
#[cfg(test)]
mod own_ports;
#[cfg(test)]
mod receipts;
#[cfg(test)]
mod rooms;
#[cfg(test)]
mod sharing;
#[cfg(test)]
mod upkeep;
#[cfg(test)]
mod writer;

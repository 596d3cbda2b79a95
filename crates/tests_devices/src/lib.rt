//! Tests of devices and ports: ports to files, also files that are cut while they are open; ports that meet; each call
//! of a device that fails in turn, under two client threads; the durable mark; redo after a crash; a ticket that is
//! given to another core; and victims compared with a plain list. The other expected results were worked out by hand.
//! Each trail of a run goes to the judge. Drivers, a device in memory, and a device that fails under one owner, one
//! session or one client thread are tested by scenarios.
//!
//! The tests are on top of the crates that they call, so that none of those is proved again for them. The library
//! itself has no item.
#![tactic(auto)]

#[cfg(test)]
mod bursts;
#[cfg(test)]
mod files;
#[cfg(test)]
mod gates;
#[cfg(test)]
mod making;
#[cfg(test)]
mod marks;
#[cfg(test)]
mod redo;
#[cfg(test)]
mod tickets;
#[cfg(test)]
mod two_clients;

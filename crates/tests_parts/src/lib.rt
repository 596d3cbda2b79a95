//! Tests of a pool in parts over a page file. The expected bytes and pages were worked out by hand.
//!
//! The library itself has no item. All entries of each part of a recorded pool go to the judge.
#![tactic(auto)]

#[cfg(test)]
mod adder;
#[cfg(test)]
mod failing;
#[cfg(test)]
mod looks;
#[cfg(test)]
mod many_threads;
#[cfg(test)]
mod scratch;
#[cfg(test)]
mod settling;
#[cfg(test)]
mod two_parts;

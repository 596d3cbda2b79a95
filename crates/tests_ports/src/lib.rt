//! Tests of ports to stripes of page files. The expected bytes and pages were worked out by hand.
//!
//! The library itself has no item.
#![tactic(auto)]

#[cfg(test)]
mod stripes;

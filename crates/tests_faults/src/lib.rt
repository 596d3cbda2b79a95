//! Tests of refused memory (`memory`), and of input and output of the program, also where they fail (`io`).
//!
//! The tests are on top of the crates that they call, so that none of those is proved again for them. The library
//! itself has no item.
#![tactic(auto)]

#[cfg(test)]
mod io;
#[cfg(test)]
mod memory;

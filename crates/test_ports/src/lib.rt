//! Ports for tests, over another port: one that fails once, and pairs that wait for one another.
#![tactic(auto)]

pub mod fuse;
pub mod gate;

pub use fuse::FusePort;
pub use gate::GatePort;

//! The command line of the program: its words, their defaults and limits, its help, its version, and how the program
//! ends where it makes no report.
#![tactic(auto)]

mod command;
mod decision;
mod ending;
pub mod laws;
mod line;
mod stop;
mod words;

pub use decision::decide;
pub use ending::{Ending, VERSION};
pub use line::Line;
pub use stop::{Reason, Stop, SystemFault};
pub use words::{MigrationWords, Order, RunWords, SweepWords, Task, TraceSource};
